//! What a scheduler asks of a state. Each call takes constant time.

ghost use Rattle.std.specs.Prelude.{◌≡◌, ◌<◌, length, position, slice_get, Some};
ghost use Rattle.std.specs.List.{list_any};
ghost use Rattle.tp_procs.specs.Processes.{is_live, is_marked};
ghost use Rattle.tp_state.specs.Acts.{IsNextTime, is_before, is_late};

use crate::state::State;
use tp_terms::AtomId;

/// Whether there is a time and it is below another.
fn is_before(end: Option<i64>, time: i64) -> bool
    ensures { result ≡ is_before time end }
{
    match end {
        Some(end) => end < time,
        None => false,
    }
}

impl State {
    ghost use Rattle.tp_terms.specs.declared.world.Proc.{Proc};

    /// The name of a process.
    pub fn name_of(&self, pid: usize) -> AtomId
        requires { pid < length self.now.procs }
        ensures { (q : Proc) → slice_get self.now.procs pid ≡ Some q → result ≡ q.name }
    {
        self.procs.get(pid).name
    }

    /// Whether a process has started.
    pub fn has_started(&self, pid: usize) -> bool
        requires { pid < length self.now.procs }
        ensures { (q : Proc) → slice_get self.now.procs pid ≡ Some q → result ≡ q.started }
    {
        self.procs.get(pid).started
    }

    /// The time of the first entry of the calendar, if there is one.
    pub fn next_time(&self) -> Option<i64>
        ensures { IsNextTime self.now.calendar.slots result }
    {
        match self.calendar.first() {
            Some(slot) => Some(slot.time),
            None => None,
        }
    }

    /// The number of the first process that is parked and marked, if there is one.
    pub fn first_marked(&self) -> Option<usize>
        ensures { result ≡ position is_marked self.now.procs }
    {
        self.procs.marked_first()
    }

    /// Whether some process hasn't ended.
    pub fn is_any_live(&self) -> bool
        ensures { result ≡ list_any is_live self.now.procs }
    {
        self.procs.live() > 0
    }

    /// Whether some process that hasn't ended has an end time below a time.
    #[tactic(auto, using(crate::proofs::Changes::any_late))]
    pub fn is_any_late(&self, time: i64) -> bool
        ensures { result ≡ list_any (is_late time) self.now.procs }
    {
        is_before(self.procs.earliest_end(), time)
    }
}
