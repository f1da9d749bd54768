//! The meters: counts over the events of a history.
#![tactic(auto)]

ghost use Rattle.std.specs.Prelude.{◌≡◌, ℕ, List, [], ◌∷◌, length, slice_get, max};
ghost use Rattle.tp_meters.specs.Meters.{zeros, meter_next, told, counted, natural, held};
ghost use Rattle.tp_meters.specs.Meters.{last_time};
ghost use Rattle.tp_meters.specs.declared.MeterKind.{MeterKind};
ghost use Rattle.tp_meters.specs.declared.MeterKind.TheVariants.{Events, Time, Mail, Procs};

#[cfg(test)]
mod tests;

/// What a meter counts.
#[derive(Clone, Copy, Debug, PartialEq, Eq)]
pub enum MeterKind {
    /// The counts of New, Start, Hold, Send, Take, Note and End.
    Events,
    /// The time of the last event, the sum of held durations and the longest.
    Time,
    /// Sends, takes and the most that sends exceeded takes by after any event.
    Mail,
    /// The count of New and the most that starts exceeded ends by after any event.
    Procs,
}

/// What a meter sees of an event.
#[derive(Clone, Copy, Debug, PartialEq, Eq)]
pub struct EventView {
    /// The simulated time.
    pub time: i64,
    /// 0 to 6: New, Start, Hold, Send, Take, Note, End. Any other changes no number.
    pub kind: u8,
    /// The duration of a Hold, and else 0.
    pub amount: i64,
}

/// Counts over events. Each number stops at 18446744073709551615.
pub trait Meter: Drop {
    ghost kind_of: { Self → MeterKind };

    ghost state: { Self → List ℕ };

    /// What it counts. This never changes.
    fn kind(&self) -> MeterKind
        ensures { result ≡ kind_of self.now };

    /// Sets all numbers to 0.
    fn clear(&mut self)
        ensures kind { kind_of self.new ≡ kind_of self.old }
        ensures state { state self.new ≡ zeros (kind_of self.old) };

    /// Counts one more event.
    fn take(&mut self, event: &EventView)
        ensures kind { kind_of self.new ≡ kind_of self.old }
        ensures state { state self.new ≡ meter_next (kind_of self.old) (state self.old) event.now };

    /// The number at a place, None exactly where the kind has no such number.
    fn number(&self, at: usize) -> Option<u64>
        ensures { result ≡ slice_get (told (kind_of self.now) (state self.now)) at };
}

/// A count of the events of a kind, after one more event.
fn counted(kind: u8, event: &EventView, count: u64) -> u64
    ensures { result ≡ counted kind event.now count }
{
    if event.kind == kind {
        count.saturating_add(1)
    } else {
        count
    }
}

/// A time or a duration as a number: a negative one counts as 0.
fn natural(value: i64) -> u64
    ensures { result ≡ natural value }
{
    if value < 0 { 0 } else { value.unsigned_abs() }
}

/// The duration that an event holds for.
fn held(event: &EventView) -> u64
    ensures { result ≡ held event.now }
{
    if event.kind == 2 {
        natural(event.amount)
    } else {
        0
    }
}

/// The time of the last event, after one more event.
fn last_time(event: &EventView, last: u64) -> u64
    ensures { result ≡ last_time event.now last }
{
    if event.kind > 6 {
        last
    } else {
        natural(event.time)
    }
}

/// Counts the events of each kind.
#[derive(Drop)]
pub struct EventMeter {
    news: u64,
    starts: u64,
    holds: u64,
    sends: u64,
    takes: u64,
    notes: u64,
    ends: u64,
}

impl EventMeter {
    /// A meter with all numbers 0.
    pub fn new() -> EventMeter
        ensures { result.news ∷ result.starts ∷ result.holds ∷ result.sends ∷ result.takes
            ∷ result.notes ∷ result.ends ∷ [] ≡ zeros Events }
    {
        EventMeter {
            news: 0,
            starts: 0,
            holds: 0,
            sends: 0,
            takes: 0,
            notes: 0,
            ends: 0,
        }
    }
}

impl Meter for EventMeter {
    ghost kind_of = { λ _. Events };

    ghost state = { λ m. m.news ∷ m.starts ∷ m.holds ∷ m.sends ∷ m.takes ∷ m.notes ∷ m.ends ∷ [] };

    fn kind(&self) -> MeterKind {
        MeterKind::Events
    }

    fn clear(&mut self) {
        *self = EventMeter::new();
    }

    fn take(&mut self, event: &EventView) {
        self.news = counted(0, event, self.news);
        self.starts = counted(1, event, self.starts);
        self.holds = counted(2, event, self.holds);
        self.sends = counted(3, event, self.sends);
        self.takes = counted(4, event, self.takes);
        self.notes = counted(5, event, self.notes);
        self.ends = counted(6, event, self.ends);
    }

    fn number(&self, at: usize) -> Option<u64> {
        match at {
            0 => Some(self.news),
            1 => Some(self.starts),
            2 => Some(self.holds),
            3 => Some(self.sends),
            4 => Some(self.takes),
            5 => Some(self.notes),
            6 => Some(self.ends),
            _ => None,
        }
    }
}

/// Measures the simulated time.
#[derive(Drop)]
pub struct TimeMeter {
    last: u64,
    sum: u64,
    longest: u64,
}

impl TimeMeter {
    /// A meter with all numbers 0.
    pub fn new() -> TimeMeter
        ensures { result.last ∷ result.sum ∷ result.longest ∷ [] ≡ zeros Time }
    {
        TimeMeter {
            last: 0,
            sum: 0,
            longest: 0,
        }
    }
}

impl Meter for TimeMeter {
    ghost kind_of = { λ _. Time };

    ghost state = { λ m. m.last ∷ m.sum ∷ m.longest ∷ [] };

    fn kind(&self) -> MeterKind {
        MeterKind::Time
    }

    fn clear(&mut self) {
        *self = TimeMeter::new();
    }

    fn take(&mut self, event: &EventView) {
        self.last = last_time(event, self.last);
        let duration = held(event);
        self.sum = self.sum.saturating_add(duration);
        self.longest = self.longest.max(duration);
    }

    fn number(&self, at: usize) -> Option<u64> {
        match at {
            0 => Some(self.last),
            1 => Some(self.sum),
            2 => Some(self.longest),
            _ => None,
        }
    }
}

/// Counts the mail that is sent and taken.
#[derive(Drop)]
pub struct MailMeter {
    sends: u64,
    takes: u64,
    most: u64,
}

impl MailMeter {
    /// A meter with all numbers 0.
    pub fn new() -> MailMeter
        ensures { result.sends ∷ result.takes ∷ result.most ∷ [] ≡ zeros Mail }
    {
        MailMeter {
            sends: 0,
            takes: 0,
            most: 0,
        }
    }
}

impl Meter for MailMeter {
    ghost kind_of = { λ _. Mail };

    ghost state = { λ m. m.sends ∷ m.takes ∷ m.most ∷ [] };

    fn kind(&self) -> MeterKind {
        MeterKind::Mail
    }

    fn clear(&mut self) {
        *self = MailMeter::new();
    }

    fn take(&mut self, event: &EventView) {
        self.sends = counted(3, event, self.sends);
        self.takes = counted(4, event, self.takes);
        self.most = self.most.max(self.sends.saturating_sub(self.takes));
    }

    fn number(&self, at: usize) -> Option<u64> {
        match at {
            0 => Some(self.sends),
            1 => Some(self.takes),
            2 => Some(self.most),
            _ => None,
        }
    }
}

/// Counts processes.
#[derive(Drop)]
pub struct ProcMeter {
    news: u64,
    most: u64,
    starts: u64,
    ends: u64,
}

impl ProcMeter {
    /// A meter with all numbers 0.
    pub fn new() -> ProcMeter
        ensures { result.news ∷ result.most ∷ result.starts ∷ result.ends ∷ [] ≡ zeros Procs }
    {
        ProcMeter {
            news: 0,
            most: 0,
            starts: 0,
            ends: 0,
        }
    }
}

impl Meter for ProcMeter {
    ghost kind_of = { λ _. Procs };

    ghost state = { λ m. m.news ∷ m.most ∷ m.starts ∷ m.ends ∷ [] };

    fn kind(&self) -> MeterKind {
        MeterKind::Procs
    }

    fn clear(&mut self) {
        self.news = 0;
        self.most = 0;
        self.starts = 0;
        self.ends = 0;
    }

    fn take(&mut self, event: &EventView) {
        self.news = counted(0, event, self.news);
        self.starts = counted(1, event, self.starts);
        self.ends = counted(6, event, self.ends);
        self.most = self.most.max(self.starts.saturating_sub(self.ends));
    }

    fn number(&self, at: usize) -> Option<u64> {
        match at {
            0 => Some(self.news),
            1 => Some(self.most),
            _ => None,
        }
    }
}
