//! Messages that processes send.

ghost use Rattle.std.specs.Prelude.{OnErr, ◌≡◌, ◌+◌, ◌<◌, ◌↔◌, Some, IfOk, IsTrue, length};
ghost use Rattle.std.specs.Prelude.{slice_get};
ghost use Rattle.tp_meaning.specs.declared.goals.GoalKind.TheVariants.{Process};
ghost use Rattle.tp_meaning.specs.declared.goals.ProcessGoal.{ProcessGoal};
ghost use Rattle.tp_terms.specs.Shown.{name_at};
ghost use Rattle.tp_terms.specs.Term.{Atom};

use crate::errors::Cause;
use crate::machine::Machine;
use crate::stepped::Stepped;
use crate::task::{Call, Task};
use tp_terms::symbols::{EMPTY_LIST, LIST_CELL};
use tp_terms::{AtomId, Cell, NoMemory, Ref};

/// The receivers that a term names.
#[derive(Debug, Drop)]
pub enum Receivers {
    /// These processes, by their numbers.
    All(Vec<usize>),
    /// None, since it is refused.
    Refused(Cause),
}

/// The next element of a list of names.
#[derive(Clone, Copy, Debug)]
pub enum Next {
    /// It names a process, and the list goes on at a place.
    Process(usize, Ref),
    /// There is none: the list ends in `[]`.
    End,
    /// It is refused.
    Refused(Cause),
}

/// Whether a name and a number of arguments are those of a list cell.
fn is_list_cell(name: AtomId, count: u8) -> bool
    ensures { IsTrue result ↔ (name.at ≡ 0) × (count ≡ 2) }
{
    name.at == LIST_CELL.at && count == 2
}

/// The process at a place among others.
fn number_at(all: &[usize], place: usize) -> usize
    requires { place < length all.now }
    ensures { slice_get all.now place ≡ Some result }
{
    all[place]
}

impl<'a> Machine<'a> {
    ghost use Rattle.tp_machine.specs.Machine.{IsMachine, SameProgram, Steps};
    ghost use Rattle.tp_machine.specs.Meets.{Calls};
    ghost use Rattle.tp_machine.specs.Sending.{AreReceivers, FindsReceiver, IsElement, IsNext};
    ghost use Rattle.tp_machine.specs.Sending.{Sends, left_of, receivers_at};
    ghost use Rattle.tp_store.specs.Contents.{seen};

    /// `send` adds a message to the box of a process, or to that of each process of a list.
    pub(crate) fn send(&mut self, task: Task, call: Call) -> Result<Stepped, NoMemory>
        requires machine { IsMachine self.old }
        requires call { Calls self.old task call (Some (Process ProcessGoal.Send)) }
        ensures done { IfOk result (Steps self.old self.new) }
        ensures program { OnErr result (SameProgram self.old self.new) }
    {
        let to = self.argument(call, 1);
        match self.receivers(to)? {
            Receivers::All(all) => self.post_all(task, call, all.as_slice()),
            Receivers::Refused(why) => self.raise(task, why),
        }
    }

    /// The message is sent to each of some processes.
    fn post_all(&mut self, task: Task, call: Call, all: &[usize]) -> Result<Stepped, NoMemory>
        requires machine { IsMachine self.old }
        requires sends { Sends self.old task call all.now }
        ensures done { IfOk result (Steps self.old self.new) }
        ensures program { OnErr result (SameProgram self.old self.new) }
    {
        for k in 0..all.len() {
            let to = number_at(all, k);
            self.state.post(task.process, call.first, to)?;
        }
        self.state.items = task.rest;
        self.stamp += 1;
        Ok(Stepped::Went)
    }

    // ---- receivers

    /// The receivers that the term of a place names.
    fn receivers(&self, to: Ref) -> Result<Receivers, NoMemory>
        requires machine { IsMachine self.now }
        requires to { to.at < length self.now.state.store.cells }
        ensures { IfOk result (AreReceivers self.now (receivers_at self.now to)) }
    {
        match self.state.store.top(to) {
            Cell::Atom(name) => self.receivers_of_atom(name, to),
            _ => self.receivers_of_list(to),
        }
    }

    /// The receivers that an atom names. The empty list names none.
    fn receivers_of_atom(&self, name: AtomId, at: Ref) -> Result<Receivers, NoMemory>
        requires machine { IsMachine self.now }
        requires at { at.at < length self.now.state.store.cells }
        requires name { name.at < length self.now.atoms }
        requires is { seen self.now.atoms self.now.state.store at.at
            ≡ Atom (name_at self.now.atoms name.at) }
        ensures { IfOk result (AreReceivers self.now (receivers_at self.now at)) }
    {
        let mut all = Vec::new(self.state.store.allocator());
        if name.at == EMPTY_LIST.at {
            return Ok(Receivers::All(all));
        }
        match self.process_named(name, at) {
            Ok(process) => {
                all.push(process)?;
                Ok(Receivers::All(all))
            }
            Err(why) => Ok(Receivers::Refused(why)),
        }
    }

    /// The processes of a list of names.
    fn receivers_of_list(&self, list: Ref) -> Result<Receivers, NoMemory>
        requires machine { IsMachine self.now }
        requires list { list.at < length self.now.state.store.cells }
        ensures { IfOk result (AreReceivers self.now (left_of self.now list list)) }
    {
        let mut found = Vec::new(self.state.store.allocator());
        let mut at = list;
        loop {
            match self.next_receiver(list, at) {
                Next::Process(process, tail) => {
                    found.push(process)?;
                    at = tail;
                }
                Next::End => return Ok(Receivers::All(found)),
                Next::Refused(why) => return Ok(Receivers::Refused(why)),
            }
        }
    }

    /// The next element of what is left of a list.
    fn next_receiver(&self, list: Ref, at: Ref) -> Next
        requires machine { IsMachine self.now }
        requires list { list.at < length self.now.state.store.cells }
        requires at { at.at < length self.now.state.store.cells }
        ensures { IsNext self.now list at result }
    {
        match self.state.store.top(at) {
            Cell::Comp { name, first, count } => {
                if is_list_cell(name, count) {
                    self.element(list, at, first)
                } else {
                    Next::Refused(Cause::NotList(list))
                }
            }
            Cell::Atom(name) => {
                if name.at == EMPTY_LIST.at {
                    Next::End
                } else {
                    Next::Refused(Cause::NotList(list))
                }
            }
            Cell::Var(_) => Next::Refused(Cause::Unbound),
            Cell::Int(_) => Next::Refused(Cause::NotList(list)),
        }
    }

    /// The process that an element of a list names. The tail stands behind it.
    fn element(&self, _list: Ref, _at: Ref, first: Ref) -> Next
        requires machine { IsMachine self.now }
        requires list { _list.at < length self.now.state.store.cells }
        requires first { first.at + 1 < length self.now.state.store.cells }
        requires at { IsElement self.now _at first }
        ensures { IsNext self.now _list _at result }
    {
        let _places = self.state.store.cells().len();
        let tail = Ref { at: first.at + 1 };
        match self.receiver(first) {
            Ok(process) => Next::Process(process, tail),
            Err(why) => Next::Refused(why),
        }
    }

    /// The process that the term of a place names.
    fn receiver(&self, at: Ref) -> Result<usize, Cause>
        requires machine { IsMachine self.now }
        requires at { at.at < length self.now.state.store.cells }
        ensures { FindsReceiver self.now at result }
    {
        match self.state.store.top(at) {
            Cell::Var(_) => Err(Cause::Unbound),
            Cell::Atom(name) => self.process_named(name, at),
            _ => Err(Cause::NotAtom(at)),
        }
    }

    /// The process of a name that stands at a place.
    fn process_named(&self, name: AtomId, at: Ref) -> Result<usize, Cause>
        requires machine { IsMachine self.now }
        requires at { at.at < length self.now.state.store.cells }
        requires name { name.at < length self.now.atoms }
        requires is { seen self.now.atoms self.now.state.store at.at
            ≡ Atom (name_at self.now.atoms name.at) }
        ensures { FindsReceiver self.now at result }
    {
        if name.at == EMPTY_LIST.at {
            return Err(Cause::EmptyName);
        }
        match self.state.procs.by_name(name) {
            Some(process) => Ok(process),
            None => Err(Cause::NoProcess(at)),
        }
    }
}
