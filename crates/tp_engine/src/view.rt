//! What is seen of an engine.

ghost use Rattle.std.specs.Prelude.{◌≡◌, ℕ, ◌<◌, length, map, slice_get, Some};

use std::marker::Model;
use tp_history::Events;
use tp_machine::Machine;
use tp_parse::Ops;
use tp_state::State;
use tp_store::Store;
use tp_terms::{AtomId, Atoms, Cells, Named};

/// An engine's own state, as it stands. Contracts see a `Snapshot` of specs/Told.antt.
#[derive(Drop)]
pub struct AnswerView<'v> {
    pub(crate) state: &'v State,
    pub(crate) atoms: &'v Atoms,
    pub(crate) named: &'v [Named],
    pub(crate) ops: &'v Ops,
    pub(crate) stamp: u64,
    pub(crate) number: u64,
    pub(crate) steps: u64,
}

impl<'v> Model for AnswerView<'v> {
    ghost use Rattle.tp_engine.specs.Told.{Snapshot};
    ghost use Rattle.tp_terms.specs.Code.{term_code};
    ghost use Rattle.std.specs.Coded.{codes};

    ghost Value = { Snapshot };

    ghost coded = { Prim.hlevel (codes, term_code) };

    ghost use Rattle.tp_state.specs.State.{plain_of};

    ghost view = { λ v. record {
      names = v.atoms.now;
      plain = plain_of v.state.now;
      stamp = v.stamp;
      number = v.number;
      steps = v.steps;
      named = v.named.now;
      ops = v.ops.now;
    } };
}

impl<'v> AnswerView<'v> {
    ghost use Rattle.tp_engine.specs.Told.{seen_of};

    /// What is seen of a machine that found so many answers in so many steps.
    pub(crate) fn of(machine: &'v Machine<'_>, number: u64, steps: u64) -> AnswerView<'v>
        ensures { result ≡ seen_of machine.now number steps }
    {
        AnswerView {
            state: &machine.state,
            atoms: &machine.atoms,
            named: machine.goal.named.as_slice(),
            ops: machine.base.ops(),
            stamp: machine.stamp,
            number,
            steps,
        }
    }

    /// How many steps were answers.
    pub fn number(&self) -> u64
        ensures { result ≡ self.now.number }
    {
        self.number
    }

    /// How many steps were made.
    pub fn steps(&self) -> u64
        ensures { result ≡ self.now.steps }
    {
        self.steps
    }

    /// The simulated time.
    pub fn clock(&self) -> i64
        ensures { result ≡ self.now.plain.clock }
    {
        self.state.clock
    }

    /// Terms and bindings.
    pub fn store(&self) -> &Store
        ensures { result.now ≡ self.now.plain.store }
    {
        &self.state.store
    }

    /// The cells of all places.
    pub fn cells(&self) -> &Cells
        ensures { result.now.items ≡ self.now.plain.store.cells }
    {
        self.state.store.cells()
    }

    /// The history.
    pub fn events(&self) -> &Events
        ensures { result.now ≡ self.now.plain.events }
    {
        &self.state.events
    }

    /// The named variables of the goal.
    pub fn named(&self) -> &[Named]
        ensures { result.now ≡ self.now.named }
    {
        self.named
    }

    /// The number of processes.
    pub fn processes(&self) -> usize
        ensures { result ≡ length self.now.plain.procs }
    {
        self.state.procs.len()
    }

    /// The name of a process.
    pub fn process_name(&self, pid: usize) -> AtomId
        requires { pid < length self.now.plain.procs }
        ensures { slice_get (map (λ q. q.name) self.now.plain.procs) pid ≡ Some result }
    {
        self.state.procs.get(pid).name
    }

    /// The operators of the model.
    pub fn ops(&self) -> &Ops
        ensures { result.now ≡ self.now.ops }
    {
        self.ops
    }

    /// The table of names.
    pub fn atoms(&self) -> &Atoms
        ensures { result.now ≡ self.now.names }
    {
        self.atoms
    }
}
