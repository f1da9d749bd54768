//! Messages that processes take.

ghost use Rattle.std.specs.Prelude.{OnErr, ◌≡◌, ◌+◌, ◌<◌, ◌^◌, ◌-◌, Some, IfOk, IfSome, OnOk};
ghost use Rattle.std.specs.Prelude.{length, slice_get};
ghost use Rattle.tp_meaning.specs.declared.goals.GoalKind.TheVariants.{Process};
ghost use Rattle.tp_meaning.specs.declared.goals.ProcessGoal.{ProcessGoal};

use crate::machine::Machine;
use crate::stepped::Stepped;
use crate::task::{Call, Task};
use tp_control::Alt;
use tp_terms::{EventKind, NoMemory, Ref};

impl<'a> Machine<'a> {
    ghost use Rattle.tp_mail.specs.Mail.{box_of};
    ghost use Rattle.tp_control.specs.declared.choices.Alt.{Alt};
    ghost use Rattle.tp_machine.specs.Goes.{IsKept, Returns};
    ghost use Rattle.tp_machine.specs.Machine.{IsMachine, Resumes, SameProgram, Steps};
    ghost use Rattle.tp_machine.specs.Mail.{MayTake, Takes, message_from};
    ghost use Rattle.tp_machine.specs.Meets.{Calls};

    // ---- wait_for

    /// `wait_for` takes the first message of the process's box that has a unifier with its
    /// argument, and a choice is kept for the others. Where none has, the process awaits mail.
    pub(crate) fn wait_for(&mut self, task: Task, call: Call) -> Result<Stepped, NoMemory>
        requires machine { IsMachine self.old }
        requires call { Calls self.old task call (Some (Process ProcessGoal.WaitFor)) }
        ensures done { IfOk result (Steps self.old self.new) }
        ensures program { OnErr result (SameProgram self.old self.new) }
    {
        let Some(first) = self.next_message(task, call, 0)? else {
            return self.await_mail(task, call);
        };
        self.keep_messages(task, call, first + 1)?;
        self.take_message(task, call, first)?;
        Ok(Stepped::Went)
    }

    /// The place of the first message, from a place of the box on, that has a unifier with the
    /// goal's argument.
    fn next_message(
        &mut self,
        task: Task,
        call: Call,
        from: usize,
    ) -> Result<Option<usize>, NoMemory>
        requires machine { IsMachine self.old }
        requires call { Calls self.old task call (Some (Process ProcessGoal.WaitFor)) }
        ensures same { OnOk result (self.new ≡ self.old) }
        ensures found { IfOk result (λ r. r ≡ message_from self.old task call from) }
        ensures few { IfOk result (λ r. IfSome r (λ k. k < 2 ^ 64 - 1)) }
        ensures program { OnErr result (SameProgram self.old self.new) }
    {
        for place in from..self.state.boxes.count(task.process) {
            let message = self.message_at(task.process, place);
            if self.state.store.unifiable(message, call.first)? {
                return Ok(Some(place));
            }
        }
        Ok(None)
    }

    /// The message at a place of a process's box.
    fn message_at(&self, process: usize, place: usize) -> Ref
        requires process { process < length self.now.state.boxes.boxes }
        requires place { place < length (box_of self.now.state.boxes.boxes process) }
        ensures { slice_get (box_of self.now.state.boxes.boxes process) place ≡ Some result }
    {
        let Some(message) = self.state.boxes.message(process, place) else {
            unreachable!()
        };
        message
    }

    /// Keeps a choice, where a message from a place on has a unifier with the goal's argument.
    fn keep_messages(&mut self, task: Task, call: Call, from: usize) -> Result<(), NoMemory>
        requires machine { IsMachine self.old }
        requires call { Calls self.old task call (Some (Process ProcessGoal.WaitFor)) }
        ensures done { OnOk result (IsKept self.old (Alt.Message from) self.new) }
        ensures program { OnErr result (SameProgram self.old self.new) }
    {
        match self.next_message(task, call, from)? {
            Some(next) => {
                self.keep(Alt::Message(next))?;
                Ok(())
            }
            None => Ok(()),
        }
    }

    /// Takes the message at a place of the box, which becomes equal to the goal's argument.
    fn take_message(&mut self, task: Task, call: Call, place: usize) -> Result<(), NoMemory>
        requires { MayTake self.old task call place }
        ensures done { OnOk result (Takes self.old place self.new) }
        ensures program { OnErr result (SameProgram self.old self.new) }
    {
        self.state.items = task.rest;
        let message = self.state.take_message(task.process, place)?;
        self.state.note(task.process, EventKind::Take(message))?;
        let _met = self.state.unify(message, call.first)?;
        self.stamp += 1;
        Ok(())
    }

    /// On with the message at a place of the box.
    pub(crate) fn resume_messages(&mut self, place: usize) -> Result<(), NoMemory>
        requires { Returns self.old (Alt.Message place) }
        ensures done { OnOk result
            (Resumes (record self.old { waiting = Some (Alt.Message place) }) self.new) }
        ensures program { OnErr result (SameProgram self.old self.new) }
    {
        let Some((task, call)) = self.current() else {
            unreachable!()
        };
        self.keep_messages(task, call, place + 1)?;
        self.take_message(task, call, place)?;
        Ok(())
    }
}
