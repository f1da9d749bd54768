//! The meters of an answer: what they count of its history, and their lines.

ghost use Rattle.std.specs.Prelude.{◌≡◌, ℕ, List, All, flat_map, map, slice_get};
ghost use Rattle.tp_terms.specs.Added.{Adds};
ghost use Rattle.tp_terms.specs.Term.{Name};
ghost use Rattle.tp_store.specs.Contents.{Contents};
ghost use Rattle.tp_state.specs.Plain.{event_of, kind_of as event_kind_of};
ghost use Rattle.tp_meters.specs.Meters.{told};
ghost use Rattle.tp_meters.specs.declared.MeterKind.{MeterKind};
ghost use Rattle.tp_engine.specs.Told.{world_in};
ghost use Rattle.tp_top.specs.Metered.{amount_of as amount_in, counted, head_of as head_in};
ghost use Rattle.tp_top.specs.Metered.{kind_number as number_of_kind, metered as metered_so};
ghost use Rattle.tp_top.specs.Metered.{meter_line, meter_lines, number_text, TellsFew};

use crate::boxed::{clear_all, take_all};
use itoa::Buffer;
use tp_engine::AnswerView;
use tp_meters::{EventView, Meter, MeterKind};
use tp_terms::{Event, EventKind, NoMemory, push_char, push_text};

/// The number of an event's kind.
fn kind_number(kind: EventKind) -> u8
    ensures { (names : List Name) → (c : Contents) →
        result ≡ number_of_kind (event_kind_of names c kind) }
{
    match kind {
        EventKind::New { .. } => 0,
        EventKind::Start => 1,
        EventKind::Hold(_) => 2,
        EventKind::Send { .. } => 3,
        EventKind::Take(_) => 4,
        EventKind::Note(_) => 5,
        EventKind::End => 6,
    }
}

/// The duration of a Hold, and else 0.
fn amount_of(kind: EventKind) -> i64
    ensures { (names : List Name) → (c : Contents) →
        result ≡ amount_in (event_kind_of names c kind) }
{
    match kind {
        EventKind::Hold(duration) => duration,
        _ => 0,
    }
}

/// An event as a meter sees it.
fn metered(event: Event) -> EventView
    ensures { (names : List Name) → (c : Contents) →
        result ≡ metered_so (event_of names c event) }
{
    EventView {
        time: event.time,
        kind: kind_number(event.kind),
        amount: amount_of(event.kind),
    }
}

/// Lets each meter count the history that an engine shows, and that alone.
fn count(meters: &mut Vec<Box<dyn Meter>>, view: &AnswerView<'_>)
    ensures kinds { map kind_of meters.new.items ≡ map kind_of meters.old.items }
    ensures numbers { map state meters.new.items
        ≡ map (counted (world_in view.now).history) (map kind_of meters.old.items) }
{
    clear_all(meters);
    'places: for at in 0..view.events().len() {
        if let Some(event) = view.events().get(at) {
            take_all(meters, &metered(event));
        }
    }
}

/// The words at the head of the line of a meter.
fn head_of(kind: MeterKind) -> &'static str
    ensures { result.now ≡ head_in kind }
{
    match kind {
        MeterKind::Events => "meter events",
        MeterKind::Time => "meter time",
        MeterKind::Mail => "meter mail",
        MeterKind::Procs => "meter procs",
    }
}

/// Adds a number, with a space before it.
fn add_number(number: u64, out: &mut String) -> Result<(), NoMemory>
    ensures added { Adds out.old out.new result (number_text number) }
{
    push_char(' ', out)?;
    let mut buffer = Buffer::new();
    push_text(buffer.format(number), out)
}

/// What a boxed meter counts.
fn boxed_kind(meter: &Box<dyn Meter>) -> MeterKind
    ensures { result ≡ kind_of meter.now }
{
    meter.kind()
}

/// A number of a boxed meter.
fn number_of(meter: &Box<dyn Meter>, at: usize) -> Option<u64>
    ensures { result ≡ slice_get (told (kind_of meter.now) (state meter.now)) at }
{
    meter.number(at)
}

/// How many numbers a meter tells at most.
const MOST_NUMBERS: usize = 7;

/// Adds the numbers that a meter tells.
fn add_numbers(meter: &Box<dyn Meter>, out: &mut String) -> Result<(), NoMemory>
    requires { TellsFew (kind_of meter.now) (state meter.now) }
    ensures added { Adds out.old out.new result
        (flat_map number_text (told (kind_of meter.now) (state meter.now))) }
{
    'numbers: for at in 0..MOST_NUMBERS {
        if let Some(number) = number_of(meter, at) {
            add_number(number, out)?;
        }
    }
    Ok(())
}

/// Adds the line of a meter.
fn add_meter(meter: &Box<dyn Meter>, out: &mut String) -> Result<(), NoMemory>
    requires { TellsFew (kind_of meter.now) (state meter.now) }
    ensures added { Adds out.old out.new result
        (meter_line (kind_of meter.now) (state meter.now)) }
{
    push_text(head_of(boxed_kind(meter)), out)?;
    add_numbers(meter, out)?;
    push_char('\n', out)
}

/// Adds the lines of meters, in their order.
fn add_meters(meters: &[Box<dyn Meter>], out: &mut String) -> Result<(), NoMemory>
    requires { All (λ m. TellsFew (kind_of m) (state m)) meters.now }
    ensures added { Adds out.old out.new result
        (flat_map (λ m. meter_line (kind_of m) (state m)) meters.now) }
{
    for meter in meters {
        add_meter(meter, out)?;
    }
    Ok(())
}

/// What counts the history of each answer, and has lines of it.
pub trait Counting: Drop {
    /// The kinds of its meters.
    ghost kinds: { Self → List MeterKind };

    /// The numbers that each of them holds.
    ghost numbers: { Self → List (List ℕ) };

    /// Counts the history that an engine shows, and that alone, and adds the lines of it.
    fn count(&mut self, view: &AnswerView<'_>, out: &mut String) -> Result<(), NoMemory>
        ensures added { Adds out.old out.new result
            (meter_lines (kinds self.old) (world_in view.now).history) }
        ensures kinds { kinds self.new ≡ kinds self.old }
        ensures numbers { numbers self.new
            ≡ map (counted (world_in view.now).history) (kinds self.old) };
}

impl Counting for Vec<Box<dyn Meter>> {
    ghost use Rattle.std.specs.Prelude.{map};

    ghost kinds = { λ meters. map (λ b. (Meter-box b).kind_of b.value) meters.items };

    ghost numbers = { λ meters. map (λ b. (Meter-box b).state b.value) meters.items };

    fn count(&mut self, view: &AnswerView<'_>, out: &mut String) -> Result<(), NoMemory> {
        count(self, view);
        add_meters(self.as_slice(), out)
    }
}
