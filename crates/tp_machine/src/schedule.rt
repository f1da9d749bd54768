//! The scheduler, which acts where no process runs.

ghost use Rattle.std.specs.Prelude.{OnErr, ◌≡◌, [], Some, IfOk, position};
ghost use Rattle.tp_procs.specs.Processes.{is_marked};

use crate::machine::Machine;
use crate::stepped::Stepped;
use tp_meaning::DeadCause;
use tp_terms::NoMemory;

impl<'a> Machine<'a> {
    ghost use Rattle.tp_machine.specs.Machine.{SameProgram, Steps};
    ghost use Rattle.tp_machine.specs.Meets.{IsIdle, IsUnmarked, TakesEntry};

    /// The first rule that applies: a marked process runs, else the calendar's first entry is
    /// taken.
    pub(crate) fn schedule(&mut self) -> Result<Stepped, NoMemory>
        requires { IsIdle self.old }
        ensures done { IfOk result (Steps self.old self.new) }
        ensures program { OnErr result (SameProgram self.old self.new) }
    {
        match self.state.first_marked() {
            Some(process) => self.run_marked(process),
            None => self.run_next(),
        }
    }

    /// A process that is marked runs.
    fn run_marked(&mut self, process: usize) -> Result<Stepped, NoMemory>
        requires idle { IsIdle self.old }
        requires first { position is_marked self.old.state.procs ≡ Some process }
        ensures done { IfOk result (Steps self.old self.new) }
        ensures program { OnErr result (SameProgram self.old self.new) }
    {
        self.state.run(process)?;
        self.stamp += 1;
        Ok(Stepped::Went)
    }

    /// The process of the first entry of the calendar runs, unless a process would live past its
    /// end time.
    fn run_next(&mut self) -> Result<Stepped, NoMemory>
        requires { IsUnmarked self.old }
        ensures done { IfOk result (Steps self.old self.new) }
        ensures program { OnErr result (SameProgram self.old self.new) }
    {
        let Some(time) = self.state.next_time() else {
            return Ok(self.stop());
        };
        if self.state.is_any_late(time) {
            return Ok(Stepped::Dead(DeadCause::Late));
        }
        self.take_entry()
    }

    /// Nothing is left to be done.
    fn stop(&self) -> Stepped
        requires unmarked { IsUnmarked self.now }
        requires empty { self.now.state.calendar.slots ≡ [] }
        ensures { Steps self.now self.now result }
    {
        if self.state.is_any_live() {
            Stepped::Dead(DeadCause::Deadlock)
        } else {
            Stepped::Success
        }
    }

    /// The first entry of the calendar is taken.
    fn take_entry(&mut self) -> Result<Stepped, NoMemory>
        requires { TakesEntry self.old }
        ensures done { IfOk result (Steps self.old self.new) }
        ensures program { OnErr result (SameProgram self.old self.new) }
    {
        let process = self.state.take_slot()?;
        self.state.run(process)?;
        self.state.open(process)?;
        self.stamp += 1;
        Ok(Stepped::Went)
    }
}
