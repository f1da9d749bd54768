//! Acts on a state. Where an act changes bindings, processes, the calendar or boxes, it adds to the
//! log what takes it back.

ghost use Rattle.std.specs.Prelude.{◌≡◌, ◌≢◌, ◌<◌, length, slice_get, slice_set, true, Some, Ok};
ghost use Rattle.std.specs.Prelude.{IfSome, IfOk, OnOk, List, ◌∷◌};
ghost use Rattle.tp_terms.specs.declared.world.Proc.{Proc};
ghost use Rattle.tp_terms.specs.declared.world.Slot.{Slot};
ghost use Rattle.tp_state.specs.Acts.{is_unmarked, mark, mark_others};
ghost use Rattle.tp_state.specs.State.{plain_of, held_of};

use crate::state::State;
use tp_control::Item;
use tp_terms::{Event, EventKind, ItemId, NoMemory, Proc, ProcStatus, Ref};

/// A process, marked where it is parked.
fn marked(proc: Proc) -> Proc
    ensures { result ≡ mark proc }
{
    match proc.status {
        ProcStatus::Parked { marked: _ } => Proc {
            status: ProcStatus::Parked { marked: true },
            ..proc
        },
        _ => proc,
    }
}

/// Whether a process is parked and not marked.
fn is_unmarked(proc: &Proc) -> bool
    ensures { result ≡ is_unmarked proc.now }
{
    match proc.status {
        ProcStatus::Parked { marked } => !marked,
        _ => false,
    }
}

impl State {
    ghost use Rattle.tp_store.specs.Contents.{FindsUnifier, IsStore};
    ghost use Rattle.tp_store.specs.Logged.{Logs};
    ghost use Rattle.tp_state.specs.Acts.{pushed, resting, bodied, noted, ran, left, begun, opened};
    ghost use Rattle.tp_state.specs.Acts.{changed, with_store};
    ghost use Rattle.tp_state.specs.Going.{Follows};

    // ---- the running process

    /// The running process has other items. Takes no memory.
    pub fn rest(&mut self, items: Option<ItemId>)
        ensures plain { plain_of self.new ≡ resting items (plain_of self.old) }
        ensures follows { Follows (held_of self.old) (held_of self.new) }
    {
        self.items = items;
    }

    /// The running process has an item more, in front of its others.
    ///
    /// Answers `NoMemory` where memory is refused. What is held is left open then, and the run must
    /// not go on.
    pub fn push(&mut self, item: Item) -> Result<(), NoMemory>
        requires { IfSome self.old.items (λ i. i.at < length self.old.frames) }
        ensures plain { OnOk result (plain_of self.new ≡ pushed item (plain_of self.old)) }
        ensures follows { OnOk result (Follows (held_of self.old) (held_of self.new)) }
    {
        let first = self.frames.push(item, self.items)?;
        self.items = Some(first);
        Ok(())
    }

    /// The running process has the body of a clause more, where there is one, with its barrier.
    ///
    /// Answers `NoMemory` where memory is refused. What is held is left open then, and the run must
    /// not go on.
    pub fn push_body(&mut self, body: Option<Ref>, barrier: u64) -> Result<(), NoMemory>
        requires { IfSome self.old.items (λ i. i.at < length self.old.frames) }
        ensures plain { OnOk result (plain_of self.new ≡ bodied body barrier (plain_of self.old)) }
        ensures follows { OnOk result (Follows (held_of self.old) (held_of self.new)) }
    {
        match body {
            None => Ok(()),
            Some(goal) => self.push(Item::Goal { goal, barrier }),
        }
    }

    // ---- bindings

    /// Makes the terms of two places equal, by the most general unifier over the bindings so far
    /// (ISO/IEC 13211-1, clause 7.3), and logs each binding. False exactly where there is no
    /// unifier.
    ///
    /// Answers `NoMemory` where memory is refused. What is held is as before then, and where the
    /// answer is false.
    pub fn unify(&mut self, left: Ref, right: Ref) -> Result<bool, NoMemory>
        requires left { left.at < length self.old.store.cells }
        requires right { right.at < length self.old.store.cells }
        ensures found { IfOk result (FindsUnifier self.old.store self.new.store left right) }
        ensures logged { Logs self.old.store self.new.store self.old.log self.new.log }
        ensures plain { plain_of self.new ≡ with_store self.new.store (plain_of self.old) }
        ensures stays { result ≢ Ok true → held_of self.new ≡ held_of self.old }
        ensures follows { Follows (held_of self.old) (held_of self.new) }
        ensures same { self.new ≡ record self.old {
          store = self.new.store;
          log = self.new.log;
        } }
        ensures store { IsStore self.new.store }
    {
        self.store.unify(left, right, &mut self.log)
    }

    // ---- processes

    /// A process becomes this one. Its name stays.
    ///
    /// Answers `NoMemory` where memory is refused. What is held is left open then, and the run must
    /// not go on.
    pub fn change(&mut self, pid: usize, proc: Proc) -> Result<(), NoMemory>
        requires pid { pid < length self.old.procs }
        requires name { IfSome (slice_get self.old.procs pid) (λ old. old.name ≡ proc.name) }
        ensures plain { OnOk result (plain_of self.new ≡ changed pid proc (plain_of self.old)) }
        ensures follows { OnOk result (Follows (held_of self.old) (held_of self.new)) }
    {
        self.procs.set(pid, proc, &mut self.log)?;
        Ok(())
    }

    /// The running process goes on later, or not at all, with this status: its items stand in the
    /// list of processes then, and no process runs.
    ///
    /// Answers `NoMemory` where memory is refused. What is held is left open then, and the run must
    /// not go on.
    pub fn leave(&mut self, pid: usize, status: ProcStatus) -> Result<(), NoMemory>
        requires { pid < length self.old.procs }
        ensures plain { OnOk result ((q : Proc) → slice_get self.old.procs pid ≡ Some q →
            plain_of self.new ≡ left pid q status (plain_of self.old)) }
        ensures follows { OnOk result (Follows (held_of self.old) (held_of self.new)) }
    {
        let proc = self.procs.get(pid);
        let items = self.items;
        self.change(
            pid,
            Proc {
                status,
                items,
                ..proc
            },
        )?;
        self.running = None;
        self.items = None;
        Ok(())
    }

    /// A process runs, with the items that it has.
    ///
    /// Answers `NoMemory` where memory is refused. What is held is left open then, and the run must
    /// not go on.
    pub fn run(&mut self, pid: usize) -> Result<(), NoMemory>
        requires { pid < length self.old.procs }
        ensures plain { OnOk result ((q : Proc) → slice_get self.old.procs pid ≡ Some q →
            plain_of self.new ≡ ran pid q (plain_of self.old)) }
        ensures follows { OnOk result (Follows (held_of self.old) (held_of self.new)) }
    {
        let proc = self.procs.get(pid);
        self.change(
            pid,
            Proc {
                status: ProcStatus::Running,
                ..proc
            },
        )?;
        self.running = Some(pid);
        self.items = proc.items;
        Ok(())
    }

    /// A process is marked, where it is parked.
    ///
    /// Answers `NoMemory` where memory is refused. What is held is left open then, and the run must
    /// not go on.
    fn mark(&mut self, pid: usize) -> Result<(), NoMemory>
        requires { pid < length self.old.procs }
        ensures plain { OnOk result ((q : Proc) → slice_get self.old.procs pid ≡ Some q →
            plain_of self.new ≡ changed pid (mark q) (plain_of self.old)) }
        ensures follows { OnOk result (Follows (held_of self.old) (held_of self.new)) }
    {
        let proc = self.procs.get(pid);
        if is_unmarked(&proc) {
            self.change(pid, marked(proc))?;
        }
        Ok(())
    }

    /// Marks each process that is parked, but for that of a number.
    ///
    /// Answers `NoMemory` where memory is refused. What is held is left open then, and the run must
    /// not go on.
    pub fn mark_others(&mut self, pid: usize) -> Result<(), NoMemory>
        ensures plain { OnOk result (plain_of self.new ≡ record (plain_of self.old) {
          procs = mark_others pid self.old.procs;
        }) }
        ensures follows { OnOk result (Follows (held_of self.old) (held_of self.new)) }
    {
        for at in 0..self.procs.len() {
            if at != pid {
                self.mark(at)?;
            }
        }
        Ok(())
    }

    // ---- events and the calendar

    /// Adds an event that a process makes now.
    ///
    /// Answers `NoMemory` where memory is refused. What is held is left open then, and the run must
    /// not go on.
    pub fn note(&mut self, pid: usize, kind: EventKind) -> Result<(), NoMemory>
        ensures plain { OnOk result (plain_of self.new ≡ noted pid kind (plain_of self.old)) }
        ensures follows { OnOk result (Follows (held_of self.old) (held_of self.new)) }
    {
        self.events.push(Event {
            time: self.clock,
            pid,
            kind,
        })?;
        Ok(())
    }

    /// A process has started: where it hadn't, the history has an event more, that it starts now.
    ///
    /// Answers `NoMemory` where memory is refused. What is held is left open then, and the run must
    /// not go on.
    pub fn open(&mut self, pid: usize) -> Result<(), NoMemory>
        requires { pid < length self.old.procs }
        ensures plain { OnOk result ((q : Proc) → slice_get self.old.procs pid ≡ Some q →
            plain_of self.new ≡ opened pid q (plain_of self.old)) }
        ensures follows { OnOk result (Follows (held_of self.old) (held_of self.new)) }
    {
        let proc = self.procs.get(pid);
        if proc.started {
            return Ok(());
        }
        self.note(pid, EventKind::Start)?;
        self.change(
            pid,
            Proc {
                started: true,
                ..proc
            },
        )?;
        Ok(())
    }

    /// The time comes to the first entry of the calendar, which goes. Answers its process.
    ///
    /// Answers `NoMemory` where memory is refused. What is held is left open then, and the run must
    /// not go on.
    pub fn take_slot(&mut self) -> Result<usize, NoMemory>
        requires { 0 < length self.old.calendar.slots }
        ensures plain { IfOk result (λ pid. (e : Slot) (es : List Slot) →
            self.old.calendar.slots ≡ e ∷ es →
            (pid ≡ e.pid) × (plain_of self.new ≡ record (plain_of self.old) {
              clock = e.time;
              slots = es;
            })) }
        ensures follows { OnOk result (Follows (held_of self.old) (held_of self.new)) }
    {
        let Some(slot) = self.calendar.take_first(&mut self.log)? else {
            unreachable!()
        };
        self.clock = slot.time;
        Ok(slot.pid)
    }
}
