//! The items of the running process.

ghost use Rattle.std.specs.Prelude.{OnErr, ◌≡◌, ◌++◌, ◌∷◌, [], ℕ, List, Some, None, IfOk, OnOk};
ghost use Rattle.std.specs.Prelude.{take};
ghost use Rattle.tp_control.specs.declared.choices.Choice.{Choice};
ghost use Rattle.tp_control.specs.declared.frames.Item.{Item};

use crate::machine::Machine;
use crate::stepped::Stepped;
use crate::task::Task;
use tp_control::{Alt, Choice, Item};
use tp_terms::{EventKind, ItemId, NoMemory, ProcStatus, Ref};

impl<'a> Machine<'a> {
    ghost use Rattle.tp_state.specs.State.{plain_of};
    ghost use Rattle.tp_control.specs.declared.choices.Alt.{Alt};
    ghost use Rattle.tp_machine.specs.Machine.{IsAgain, IsMachine, SameProgram, Steps};
    ghost use Rattle.tp_machine.specs.Meets.{Runs, HasFirst};
    ghost use Rattle.tp_machine.specs.Goes.{MayKeep, IsKept, Returns, ResumesSecond};

    /// The running process takes its first item, or ends where it has none.
    pub(crate) fn advance(&mut self, process: usize) -> Result<Stepped, NoMemory>
        requires { Runs self.old process }
        ensures done { IfOk result (Steps self.old self.new) }
        ensures program { OnErr result (SameProgram self.old self.new) }
    {
        let Some(first) = self.state.items else {
            return self.end(process);
        };
        let (item, rest) = self.state.frames.get(first);
        match item {
            Item::Goal { goal, barrier } => self.meet(Task {
                process,
                goal,
                barrier,
                rest,
            }),
            Item::Commit(stamp) => Ok(self.commit(process, stamp, rest)),
            Item::Retry(goal) => self.try_again(process, goal, rest),
        }
    }

    /// A process without items ends.
    fn end(&mut self, process: usize) -> Result<Stepped, NoMemory>
        requires runs { Runs self.old process }
        requires none { self.old.state.items ≡ None }
        ensures done { IfOk result (Steps self.old self.new) }
        ensures program { OnErr result (SameProgram self.old self.new) }
    {
        self.state.leave(process, ProcStatus::Ended)?;
        self.state.note(process, EventKind::End)?;
        self.state.mark_others(process)?;
        self.stamp += 1;
        Ok(Stepped::Went)
    }

    /// The choices from a stamp on are removed.
    fn commit(&mut self, _process: usize, stamp: u64, rest: Option<ItemId>) -> Stepped
        requires machine { IsMachine self.old }
        requires first { HasFirst self.old _process (Item.Commit stamp) rest }
        ensures { Steps self.old self.new result }
    {
        // Its contract says that stamps rise.
        let _open = self.choices.len();
        self.state.items = rest;
        self.choices.cut_from(stamp);
        self.stamp += 1;
        Stepped::Went
    }

    // ---- conditions that are waited for

    /// A condition that a process waits for is tried again. Where that fails, the process goes on
    /// waiting.
    fn try_again(
        &mut self,
        _process: usize,
        goal: Ref,
        rest: Option<ItemId>,
    ) -> Result<Stepped, NoMemory>
        requires machine { IsMachine self.old }
        requires first { HasFirst self.old _process (Item.Retry goal) rest }
        ensures done { IfOk result (Steps self.old self.new) }
        ensures program { OnErr result (SameProgram self.old self.new) }
    {
        self.keep(Alt::Second)?;
        self.state.items = rest;
        self.state.push(Item::Commit(self.stamp))?;
        self.state.push(Item::Goal {
            goal,
            barrier: self.stamp + 1,
        })?;
        self.stamp += 1;
        Ok(Stepped::Went)
    }

    /// On with the second of two worlds.
    pub(crate) fn resume_second(&mut self) -> Result<(), NoMemory>
        requires { Returns self.old Alt.Second }
        ensures done { OnOk result (ResumesSecond self.old self.new) }
        ensures program { OnErr result (SameProgram self.old self.new) }
    {
        let Some(process) = self.state.running else {
            unreachable!()
        };
        match self.current() {
            Some((task, call)) => self.choose_second(task, call),
            None => self.go_on_waiting(process),
        }
    }

    /// The process goes on waiting.
    fn go_on_waiting(&mut self, process: usize) -> Result<(), NoMemory>
        requires back { Returns self.old Alt.Second }
        requires again { IsAgain (plain_of self.old.state) }
        requires running { self.old.state.running ≡ Some process }
        ensures done { OnOk result (ResumesSecond self.old self.new) }
        ensures program { OnErr result (SameProgram self.old self.new) }
    {
        self.state
            .leave(process, ProcStatus::Parked { marked: false })?;
        self.stamp += 1;
        Ok(())
    }

    // ---- choices

    /// Keeps a choice of what is next.
    pub(crate) fn keep(&mut self, next: Alt) -> Result<(), NoMemory>
        requires { MayKeep self.old next }
        ensures done { OnOk result (IsKept self.old next self.new) }
        ensures pushed { OnOk result
            ((choice : Choice) × (self.new.choices ≡ self.old.choices ++ choice ∷ [])) }
        ensures program { OnErr result (SameProgram self.old self.new) }
    {
        let marks = self.state.marks();
        self.choices.push(Choice {
            stamp: self.stamp,
            marks,
            next,
        })?;
        Ok(())
    }
}
