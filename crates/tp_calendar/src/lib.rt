//! The calendar: which process goes on at which simulated time.
#![tactic(auto)]

ghost use Rattle.std.specs.Prelude.{◌≡◌, ◌+◌, ◌<◌, ◌≤◌, true, false, [], ◌∷◌, ◌++◌, length};
ghost use Rattle.std.specs.Prelude.{slice_get, IfOk, IfSome, IfNone, OnOk, OnErr};
ghost use Rattle.std.specs.VecDeque.{deque_len, deque_capacity};
ghost use Rattle.std.specs.List.Sorted.{IsPartitionPoint};
ghost use Rattle.tp_calendar.specs.Order.{goes_before, is_beside, put_slot, without_slot, IsFree};
ghost use Rattle.tp_calendar.specs.Order.{IsOrdered};

use std::alloc::Global;
use std::collections::VecDeque;
use std::marker::Model;
use tp_log::{Entry, Log};
use tp_terms::{NoMemory, Slot};

/// Entries in order of time, then number. Contracts see the list of them, and how many there is
/// room for.
///
/// The entries stand in a ring, so that the first and the last come and go at once. An entry's
/// place is found by halving, and the shorter side of the ring then moves by one.
#[derive(Drop)]
pub struct Calendar {
    slots: VecDeque<Slot>,
}

impl Model for Calendar {
    ghost use Rattle.std.specs.VecDeque.{deque_capacity};
    ghost use Rattle.tp_calendar.specs.Order.{Contents, IsOrdered};

    ghost Value = { Contents };

    ghost view = { λ c. record { slots = c.slots.items; room = deque_capacity c.slots } };

    ghost invariant = { λ c. IsOrdered c.slots.items };
}

/// Whether the first entry comes before the second.
fn goes_before(first: &Slot, second: &Slot) -> bool
    ensures { result ≡ goes_before first.now second.now }
{
    first.time < second.time || (first.time == second.time && first.number < second.number)
}

/// Whether two entries have one time and one number.
fn is_beside(one: &Slot, other: &Slot) -> bool
    ensures { result ≡ is_beside one.now other.now }
{
    one.time == other.time && one.number == other.number
}

/// The place of the first entry that doesn't come before this one.
fn place_of(slots: &VecDeque<Slot>, slot: Slot) -> usize
    requires { IsOrdered slots.now.items }
    ensures within { result ≤ length slots.now.items }
    ensures place { IsPartitionPoint (λ f. goes_before f slot ≡ true)
        (λ f. goes_before f slot ≡ false) slots.now.items result }
{
    slots.partition_point(|other| goes_before(other, &slot))
}

/// Puts an entry in at its place. There is room for it, so it can't fail.
fn put_within(slots: &mut VecDeque<Slot>, slot: Slot)
    requires order { IsOrdered slots.old.items }
    requires free { IsFree slot slots.old.items }
    requires room { deque_len slots.old < deque_capacity slots.old }
    ensures slots { slots.new.items ≡ put_slot slot slots.old.items }
    ensures room { deque_capacity slots.old ≤ deque_capacity slots.new }
{
    let at = place_of(slots, slot);
    let _ = slots.insert(at, slot);
}

/// Removes the entry of this time and number, where there is one.
fn remove_slot(slots: &mut VecDeque<Slot>, slot: Slot)
    requires { IsOrdered slots.old.items }
    ensures slots { slots.new.items ≡ without_slot slot slots.old.items }
    ensures room { deque_capacity slots.new ≡ deque_capacity slots.old }
{
    let at = place_of(slots, slot);
    let Some(found) = slots.get(at) else {
        return;
    };
    if is_beside(&slot, found) {
        let _ = slots.remove(at);
    }
}

impl Calendar {
    /// No entries.
    pub fn new(alloc: Global) -> Calendar
        ensures { result.slots ≡ [] }
    {
        Calendar {
            slots: VecDeque::new(alloc),
        }
    }

    /// The first entry.
    pub fn first(&self) -> Option<Slot>
        ensures first { result ≡ slice_get self.now.slots 0 }
        ensures order { IsOrdered self.now.slots }
        ensures room { length self.now.slots ≤ self.now.room }
    {
        self.slots.front().copied()
    }

    /// Puts an entry in at its place, and logs that.
    ///
    /// Answers `NoMemory` where memory is refused. Then entries and log are as before.
    pub fn put(&mut self, slot: Slot, log: &mut Log) -> Result<(), NoMemory>
        requires { IsFree slot self.old.slots }
        ensures slots { OnOk result (self.new.slots ≡ put_slot slot self.old.slots) }
        ensures log { OnOk result (log.new ≡ log.old ++ Entry.Put slot ∷ []) }
        ensures err { OnErr result ((self.new.slots ≡ self.old.slots) × (log.new ≡ log.old)) }
        ensures room { self.old.room ≤ self.new.room }

        // Removing it takes that back.
        ensures inverse { OnOk result (without_slot slot self.new.slots ≡ self.old.slots) }
    {
        self.slots.reserve(1)?;
        log.push(Entry::Put(slot))?;
        put_within(&mut self.slots, slot);
        Ok(())
    }

    /// Takes the first entry, and logs that. There is none exactly where there are no entries, and
    /// then nothing is logged.
    ///
    /// Answers `NoMemory` where memory is refused. Then entries and log are as before.
    pub fn take_first(&mut self, log: &mut Log) -> Result<Option<Slot>, NoMemory>
        ensures some { IfOk result (λ r. IfSome r (λ s. self.old.slots ≡ s ∷ self.new.slots)) }
        ensures log { IfOk result (λ r. IfSome r (λ s. log.new ≡ log.old ++ Entry.Took s ∷ [])) }
        ensures none { IfOk result (λ r. IfNone r
            ((self.old.slots ≡ []) × (self.new.slots ≡ []) × (log.new ≡ log.old))) }
        ensures err { OnErr result ((self.new.slots ≡ self.old.slots) × (log.new ≡ log.old)) }
        ensures room { self.new.room ≡ self.old.room }

        // Putting it in takes that back, and can be done.
        ensures inverse { IfOk result (λ r. IfSome r (λ s.
            put_slot s self.new.slots ≡ self.old.slots)) }
        ensures free { IfOk result (λ r. IfSome r (λ s. IsFree s self.new.slots)) }
        ensures within { IfOk result (λ r. IfSome r (λ _. length self.new.slots < self.new.room)) }
    {
        let Some(slot) = self.first() else {
            return Ok(None);
        };
        log.push(Entry::Took(slot))?;
        let _ = self.slots.pop_front();
        Ok(Some(slot))
    }

    /// Takes a `put` back: removes the entry. Takes no memory.
    pub fn undo_put(&mut self, slot: Slot)
        ensures slots { self.new.slots ≡ without_slot slot self.old.slots }
        ensures room { self.new.room ≡ self.old.room }
    {
        remove_slot(&mut self.slots, slot);
    }

    /// Takes a `take_first` back: puts the entry in. Takes no memory, since there is room.
    pub fn undo_take(&mut self, slot: Slot)
        requires free { IsFree slot self.old.slots }
        requires room { length self.old.slots < self.old.room }
        ensures slots { self.new.slots ≡ put_slot slot self.old.slots }
        ensures room { self.old.room ≤ self.new.room }
    {
        put_within(&mut self.slots, slot);
    }
}
