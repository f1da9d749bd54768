//! The list of processes, with all that a scheduler asks of it at hand.
#![tactic(auto)]

ghost use Rattle.std.specs.Prelude.{◌≡◌, ℕ, ◌+◌, ◌-◌, ◌<◌, true, false, List, [], ◌∷◌, ◌++◌};
ghost use Rattle.std.specs.Prelude.{length, count_by, position, Some, None, OnOk, OnErr, IfOk};
ghost use Rattle.std.specs.Prelude.{IfSome, slice_get, slice_set};
ghost use Rattle.tp_log.specs.Front.{front};
ghost use Rattle.tp_procs.specs.Processes.{is_live, is_marked, earliest, named, names_of};
ghost use Rattle.tp_procs.specs.Processes.{AreDistinct};

mod tree;

use indexmap::IndexSet;
use std::alloc::Global;
use std::marker::Model;
use tp_log::{Entry, Log};
use tp_terms::{AtomId, NoMemory, Proc};
use tree::{NOTHING, Node, live_in, mend};

/// Processes in the order in which they were made. Contracts see the list of them, whose names are
/// distinct.
///
/// Names are found by hash. The first marked process and the least end time stand in a tree over
/// the processes, of which an act changes one node a level: some 15 for 30,000 processes.
#[derive(Drop)]
pub struct Procs {
    procs: Vec<Proc>,
    names: IndexSet<usize>,
    nodes: Vec<Node>,
    live: usize,
}

impl Model for Procs {
    ghost use Rattle.std.specs.Prelude.{List};
    ghost use Rattle.tp_terms.specs.declared.world.Proc.{Proc};

    ghost Value = { List Proc };

    ghost use Rattle.tp_procs.specs.Tree.{IsIndexed};

    ghost view = { λ p. p.procs.items };

    ghost invariant = { λ p. IsIndexed p.procs.items p.names.keys p.nodes.items p.live };
}

impl Procs {
    ghost use Rattle.tp_terms.specs.declared.world.Proc.{Proc};

    /// No processes.
    pub fn new(alloc: Global) -> Procs
        ensures { result ≡ [] }
    {
        Procs {
            procs: Vec::new(alloc),
            names: IndexSet::new(alloc),
            nodes: Vec::new(alloc),
            live: 0,
        }
    }

    /// The number of processes.
    pub fn len(&self) -> usize
        ensures len { result ≡ length self.now }
        ensures names { AreDistinct (names_of self.now) }
    {
        self.procs.len()
    }

    /// A process.
    pub fn get(&self, pid: usize) -> Proc
        requires { pid < length self.now }
        ensures { slice_get self.now pid ≡ Some result }
    {
        self.procs[pid]
    }

    /// The process of a name. There is none exactly where no process has it.
    pub fn by_name(&self, name: AtomId) -> Option<usize>
        ensures { result ≡ named name self.now }
    {
        self.names.get_index_of(&(name.at as usize))
    }

    /// The first process that is marked. There is none exactly where none is.
    pub fn marked_first(&self) -> Option<usize>
        ensures { result ≡ position is_marked self.now }
    {
        self.nodes.first()?.marked
    }

    /// The least end time of live processes, in units of simulated time. There is none exactly
    /// where no live process has one.
    pub fn earliest_end(&self) -> Option<i64>
        ensures { result ≡ earliest self.now }
    {
        self.nodes.first()?.end
    }

    /// The number of processes that haven't ended.
    pub fn live(&self) -> usize
        ensures { result ≡ count_by is_live self.now }
    {
        self.live
    }

    /// Adds a process behind the others, answers its number, and logs that.
    ///
    /// Answers `NoMemory` where memory is refused. Then processes and log are as before.
    pub fn make(&mut self, proc: Proc, log: &mut Log) -> Result<usize, NoMemory>
        requires { named proc.name self.old ≡ None }
        ensures pid { IfOk result (λ pid. pid ≡ length self.old) }
        ensures procs { OnOk result (self.new ≡ self.old ++ proc ∷ []) }
        ensures log { OnOk result (log.new ≡ log.old ++ Entry.Made ∷ []) }
        ensures err { OnErr result ((self.new ≡ self.old) × (log.new ≡ log.old)) }

        // Removing the last process takes that back.
        ensures inverse { OnOk result (front self.new ≡ self.old) }
    {
        let pid = self.procs.len();
        self.procs.reserve(1)?;
        self.nodes.reserve(1)?;
        self.names.reserve(1)?;
        log.push(Entry::Made)?;
        self.procs.push_reserved(proc);
        self.nodes.push_reserved(NOTHING);
        let _ = self.names.insert(proc.name.at as usize);
        mend(&self.procs, &mut self.nodes, pid);
        self.live += live_in(&proc);
        Ok(pid)
    }

    /// Changes a process, and logs the old one.
    ///
    /// Answers `NoMemory` where memory is refused. Then processes and log are as before.
    pub fn set(&mut self, pid: usize, proc: Proc, log: &mut Log) -> Result<(), NoMemory>
        requires pid { pid < length self.old }
        requires name { IfSome (slice_get self.old pid) (λ old. old.name ≡ proc.name) }
        ensures procs { OnOk result (self.new ≡ slice_set self.old pid proc) }
        ensures log { OnOk result (IfSome (slice_get self.old pid) (λ old.
            log.new ≡ log.old ++ Entry.Set pid old ∷ [])) }
        ensures err { OnErr result ((self.new ≡ self.old) × (log.new ≡ log.old)) }

        // Putting the old process in its place takes that back.
        ensures inverse { OnOk result (IfSome (slice_get self.old pid) (λ old.
            slice_set self.new pid old ≡ self.old)) }
    {
        let old = self.procs[pid];
        log.push(Entry::Set { pid, old })?;
        self.change(pid, proc);
        Ok(())
    }

    /// Takes a `make` back: removes the last process, and its name is free. Takes no memory.
    pub fn undo_make(&mut self)
        ensures procs { self.new ≡ front self.old }
        ensures free { (first : List Proc) (last : Proc) → self.old ≡ first ++ last ∷ [] →
            named last.name self.new ≡ None }
    {
        let Some(proc) = self.procs.pop() else {
            return;
        };
        let len = self.procs.len();
        self.nodes.truncate(len);
        self.names.truncate(len);
        self.live -= live_in(&proc);
        if len > 0 {
            mend(&self.procs, &mut self.nodes, (len - 1) / 2);
        }
    }

    /// Takes a `set` back: puts the old process in its place. Takes no memory.
    pub fn undo_set(&mut self, pid: usize, old: Proc)
        requires pid { pid < length self.old }
        requires name { IfSome (slice_get self.old pid) (λ now. now.name ≡ old.name) }
        ensures { self.new ≡ slice_set self.old pid old }
    {
        self.change(pid, old);
    }

    /// Changes a process.
    fn change(&mut self, pid: usize, proc: Proc)
        requires pid { pid < length self.old }
        requires name { IfSome (slice_get self.old pid) (λ old. old.name ≡ proc.name) }
        ensures { self.new ≡ slice_set self.old pid proc }
    {
        self.live -= live_in(&self.procs[pid]);
        self.live += live_in(&proc);
        self.procs[pid] = proc;
        mend(&self.procs, &mut self.nodes, pid);
    }
}
