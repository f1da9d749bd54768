//! Acts that plan what processes do later, and send them messages.

ghost use Rattle.std.specs.Prelude.{◌≡◌, ◌<◌, ◌^◌, ◌-◌, length, slice_get, Some, None, IfOk, OnOk};
ghost use Rattle.tp_state.specs.State.{plain_of, held_of};
ghost use Rattle.tp_state.specs.Acts.{awaits_mail, new_proc};
ghost use Rattle.tp_terms.specs.declared.world.Proc.{Proc};

use crate::state::State;
use tp_control::Item;
use tp_terms::{AtomId, EventKind, ItemId, Limit, NoMemory, Proc, ProcStatus, Ref, Slot};

/// Whether a process awaits mail.
fn awaits_mail(proc: &Proc) -> bool
    ensures { result ≡ awaits_mail proc.now }
{
    match proc.status {
        ProcStatus::AwaitsMail => true,
        _ => false,
    }
}

/// A process that hasn't started, with these items.
fn new_proc(name: AtomId, end: Limit, items: ItemId) -> Proc
    ensures { result ≡ new_proc name end items }
{
    Proc {
        name,
        end,
        started: false,
        status: ProcStatus::Scheduled,
        items: Some(items),
    }
}

impl State {
    ghost use Rattle.tp_calendar.specs.Order.{IsFree};
    ghost use Rattle.tp_mail.specs.Mail.{box_of};
    ghost use Rattle.tp_procs.specs.Processes.{named};
    ghost use Rattle.tp_state.specs.Acts.{added, delivered, made, planned, posted, roused, slot_at};
    ghost use Rattle.tp_state.specs.Acts.{taken_out};
    ghost use Rattle.tp_state.specs.Going.{Follows};

    /// A process goes on at a time: the calendar has an entry more, of the next insertion number.
    ///
    /// Answers `NoMemory` where memory is refused. What is held is left open then, and the run must
    /// not go on.
    pub fn plan(&mut self, pid: usize, time: i64) -> Result<(), NoMemory>
        requires free { IsFree (slot_at pid time (plain_of self.old)) self.old.calendar.slots }
        requires few { self.old.insertion < 2 ^ 64 - 1 }
        ensures plain { OnOk result (plain_of self.new ≡ planned pid time (plain_of self.old)) }
        ensures follows { OnOk result (Follows (held_of self.old) (held_of self.new)) }
    {
        let slot = Slot {
            time,
            number: self.insertion,
            pid,
        };
        self.calendar.put(slot, &mut self.log)?;
        self.insertion += 1;
        Ok(())
    }

    /// Adds a process behind the others, with an empty box, and answers its number.
    ///
    /// Answers `NoMemory` where memory is refused. What is held is left open then, and the run must
    /// not go on.
    pub fn add_process(&mut self, proc: Proc) -> Result<usize, NoMemory>
        requires { named proc.name self.old.procs ≡ None }
        ensures pid { IfOk result (λ pid. pid ≡ length self.old.procs) }
        ensures plain { OnOk result (plain_of self.new ≡ added proc (plain_of self.old)) }
        ensures follows { OnOk result (Follows (held_of self.old) (held_of self.new)) }
    {
        let pid = self.procs.make(proc, &mut self.log)?;
        self.boxes.add_box(&mut self.log)?;
        Ok(pid)
    }

    /// Makes a process behind the others, which hasn't started and has a goal to do, and answers
    /// its number.
    ///
    /// Answers `NoMemory` where memory is refused. What is held is left open then, and the run must
    /// not go on.
    pub fn make_process(&mut self, name: AtomId, end: Limit, goal: Ref) -> Result<usize, NoMemory>
        requires { named name self.old.procs ≡ None }
        ensures pid { IfOk result (λ pid. pid ≡ length self.old.procs) }
        ensures plain { OnOk result (plain_of self.new ≡ made name end goal (plain_of self.old)) }
        ensures follows { OnOk result (Follows (held_of self.old) (held_of self.new)) }
    {
        let items = self.frames.push(Item::Goal { goal, barrier: 0 }, None)?;
        let pid = self.add_process(new_proc(name, end, items))?;
        Ok(pid)
    }

    /// A message comes to the end of a process's box.
    ///
    /// Answers `NoMemory` where memory is refused. What is held is left open then, and the run must
    /// not go on.
    pub fn deliver(&mut self, pid: usize, message: Ref) -> Result<(), NoMemory>
        requires { pid < length self.old.boxes.boxes }
        ensures plain { OnOk result
            (plain_of self.new ≡ delivered pid message (plain_of self.old)) }
        ensures follows { OnOk result (Follows (held_of self.old) (held_of self.new)) }
    {
        self.boxes.send(pid, message, &mut self.log)?;
        Ok(())
    }

    /// Takes the message at a place out of a process's box, and answers it.
    ///
    /// Answers `NoMemory` where memory is refused. What is held is left open then, and the run must
    /// not go on.
    pub fn take_message(&mut self, pid: usize, place: usize) -> Result<Ref, NoMemory>
        requires pid { pid < length self.old.boxes.boxes }
        requires place { place < length (box_of self.old.boxes.boxes pid) }
        ensures stood { IfOk result (λ m.
            slice_get (box_of self.old.boxes.boxes pid) place ≡ Some m) }
        ensures plain { OnOk result
            (plain_of self.new ≡ taken_out pid place (plain_of self.old)) }
        ensures follows { OnOk result (Follows (held_of self.old) (held_of self.new)) }
    {
        let Some(message) = self.boxes.take(pid, place, &mut self.log)? else {
            unreachable!()
        };
        Ok(message)
    }

    /// A process that awaits mail goes on now. Any other stays as it is.
    ///
    /// Answers `NoMemory` where memory is refused. What is held is left open then, and the run must
    /// not go on.
    pub fn rouse(&mut self, pid: usize) -> Result<(), NoMemory>
        requires pid { pid < length self.old.procs }
        requires free { IsFree (slot_at pid self.old.clock (plain_of self.old))
            self.old.calendar.slots }
        requires few { self.old.insertion < 2 ^ 64 - 1 }
        ensures plain { OnOk result ((q : Proc) → slice_get self.old.procs pid ≡ Some q →
            plain_of self.new ≡ roused pid q (plain_of self.old)) }
        ensures follows { OnOk result (Follows (held_of self.old) (held_of self.new)) }
    {
        let proc = self.procs.get(pid);
        if !awaits_mail(&proc) {
            return Ok(());
        }
        self.change(
            pid,
            Proc {
                status: ProcStatus::Scheduled,
                ..proc
            },
        )?;
        self.plan(pid, self.clock)?;
        Ok(())
    }

    /// A process sends a message to another, or to itself: it comes to the end of the box, the
    /// history tells it, and a process that awaits mail goes on now.
    ///
    /// Answers `NoMemory` where memory is refused. What is held is left open then, and the run must
    /// not go on.
    pub fn post(&mut self, from: usize, message: Ref, to: usize) -> Result<(), NoMemory>
        requires to { to < length self.old.procs }
        requires its_box { to < length self.old.boxes.boxes }
        requires free { IsFree (slot_at to self.old.clock (plain_of self.old))
            self.old.calendar.slots }
        requires few { self.old.insertion < 2 ^ 64 - 1 }
        ensures plain { OnOk result ((q : Proc) → slice_get self.old.procs to ≡ Some q →
            plain_of self.new ≡ posted from message to q (plain_of self.old)) }
        ensures follows { OnOk result (Follows (held_of self.old) (held_of self.new)) }
    {
        self.deliver(to, message)?;
        self.note(from, EventKind::Send { message, to })?;
        self.rouse(to)?;
        Ok(())
    }
}
