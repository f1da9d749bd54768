//! Built-in goals, which see the machine's terms through a view.

ghost use Rattle.std.specs.Prelude.{◌≡◌, ◌<◌, Some, IfOk, OnErr, length};
ghost use Rattle.tp_meaning.specs.declared.goals.GoalKind.TheVariants.{BuiltIn};

use crate::errors::raised_kind;
use crate::machine::Machine;
use crate::stepped::Stepped;
use crate::task::{Call, Task};
use std::mem::swap;
use tp_build::{Outcome, builtin};
use tp_meaning::{BuiltId, DeadCause};
use tp_terms::NoMemory;

impl<'a> Machine<'a> {
    ghost use Rattle.tp_machine.specs.Machine.{IsMachine, SameProgram, Steps};
    ghost use Rattle.tp_machine.specs.Meets.{Calls};
    ghost use Rattle.tp_machine.specs.BuiltIns.{Ran, swapped};

    /// The machine's terms, log and names change places with those of its view.
    pub(crate) fn swap_terms(&mut self)
        ensures { self.new ≡ swapped self.old }
    {
        swap(&mut self.state.store, &mut self.view.store);
        swap(&mut self.state.log, &mut self.view.log);
        swap(&mut self.atoms, &mut self.view.atoms);
    }

    /// A built-in runs on the machine's terms, which stand in its view meanwhile.
    fn run_built_in(&mut self, _task: Task, call: Call, id: BuiltId) -> Result<Outcome, NoMemory>
        requires machine { IsMachine self.old }
        requires call { Calls self.old _task call (Some (BuiltIn id)) }
        ensures ran { IfOk result (Ran self.old self.new _task call id) }
        ensures program { OnErr result (SameProgram self.old self.new) }
    {
        let alloc = self.state.store.allocator();
        // Its contract tells how many cells there are at most.
        let _few = self.state.store.mark();
        self.swap_terms();
        let outcome = builtin(alloc, id, &mut self.view, call.first);
        self.swap_terms();
        // Its contract tells what holds of every store.
        let _mark = self.state.store.mark();
        outcome
    }

    /// A built-in succeeds, fails or raises an error. Where it fails, the numbers of variables that
    /// it took are given back.
    pub(crate) fn built_in(
        &mut self,
        task: Task,
        call: Call,
        id: BuiltId,
    ) -> Result<Stepped, NoMemory>
        requires machine { IsMachine self.old }
        requires call { Calls self.old task call (Some (BuiltIn id)) }
        ensures done { IfOk result (Steps self.old self.new) }
        ensures program { OnErr result (SameProgram self.old self.new) }
    {
        let mark = self.state.store.mark();
        match self.run_built_in(task, call, id)? {
            Outcome::Yes => {
                self.state.items = task.rest;
                self.stamp += 1;
                Ok(Stepped::Went)
            }
            Outcome::No => {
                self.state.store.back_to(mark);
                Ok(Stepped::Dead(DeadCause::Failed))
            }
            Outcome::Raise(kind) => {
                let process = self.state.name_of(task.process);
                let place = raised_kind(&mut self.state.store, kind, process)?;
                Ok(Stepped::Raised(place))
            }
        }
    }
}
