//! The clauses that a goal is tried with: those that its first argument leaves.

ghost use Rattle.std.specs.Prelude.{◌≡◌, ℕ, ◌+◌, ◌<◌, ◌≤◌, List, [], filter, length, nat_le, not};
ghost use Rattle.std.specs.Prelude.{slice_get, Some, IfNone, IfSome, IfOk, OnOk, OnErr};
ghost use Rattle.std.specs.List.{position_from};
ghost use Rattle.tp_terms.specs.Term.{Name};
ghost use Rattle.tp_terms.specs.Shown.{AreNamed};
ghost use Rattle.tp_store.specs.Contents.{IsStore, args_seen};
ghost use Rattle.tp_clauses.specs.Matching.{BeginWith};
ghost use Rattle.tp_clauses.specs.Ranks.{Rises};
ghost use Rattle.tp_machine.specs.declared.task.Task.{Task};

use crate::heads::meets;
use crate::machine::Machine;
use crate::task::Call;
use tp_clauses::{ClauseId, FirstArg};
use tp_store::Store;
use tp_terms::{NoMemory, Ref};

/// What the first argument of a goal is under the bindings.
fn first_of(store: &Store, call: Call) -> FirstArg
    requires { call.first.at + call.count ≤ length store.now.cells }
    ensures { (names : List Name) → AreNamed (length names) store.now.cells →
        BeginWith names result (args_seen names store.now call.first.at call.count) }
{
    if call.count == 0 {
        return FirstArg::Any;
    }
    FirstArg::of(store.top(call.first))
}

/// The places behind one of them, of places in text order.
fn behind(ids: &[ClauseId], id: ClauseId) -> &[ClauseId]
    requires { Rises 0 ids.now }
    ensures { result.now ≡ filter (λ other. not (nat_le other.at id.at)) ids.now }
{
    let count = ids.partition_point(
        |other: &ClauseId| -> bool
            ensures { result ≡ nat_le other.now.at id.at }
        { other.at <= id.at },
    );
    &ids[count..]
}

impl<'a> Machine<'a> {
    ghost use Rattle.tp_machine.specs.Machine.{IsMachine, SameProgram};
    ghost use Rattle.tp_machine.specs.Trying.{AreClauses, AreTried, IsPlaced, Tries, hits_at};
    ghost use Rattle.tp_machine.specs.Trying.{places_in};

    /// The clauses that a goal is tried with, in text order; `None` where no clause has its name
    /// and number of arguments.
    pub(crate) fn candidates(&self, call: Call) -> Option<&'a [ClauseId]>
        requires machine { IsMachine self.now }
        requires args { call.first.at + call.count ≤ length self.now.state.store.cells }
        ensures none { IfNone result (places_in self.now call ≡ []) }
        ensures some { IfSome result (λ _. 0 < length (places_in self.now call)) }
        ensures rises { IfSome result (λ ids. Rises 0 ids.now) }
        ensures tried { IfSome result (λ ids. Tries self.now call ids.now) }
    {
        let first = first_of(&self.state.store, call);
        self.base.candidates(call.name, call.count, first)
    }

    /// The clause of a goal at a place among all of the goal's name and number of arguments.
    pub(crate) fn clause_at(&self, call: Call, place: usize) -> ClauseId
        requires { place < length (places_in self.now call) }
        ensures { slice_get (places_in self.now call) place ≡ Some result }
    {
        match self.base.clauses(call.name, call.count) {
            Some(places) => places[place],
            None => unreachable!(),
        }
    }

    /// The candidates behind a clause.
    pub(crate) fn candidates_behind(&self, call: Call, id: ClauseId) -> &'a [ClauseId]
        requires machine { IsMachine self.now }
        requires args { call.first.at + call.count ≤ length self.now.state.store.cells }
        ensures { (t : Task) (place : ℕ) → IsPlaced self.now t call place id →
            AreTried self.now t call (place + 1) result.now }
    {
        match self.candidates(call) {
            Some(ids) => behind(ids, id),
            None => &[],
        }
    }

    /// The first of some clauses whose head has a unifier with a goal.
    pub(crate) fn next_match(
        &mut self,
        goal: Ref,
        ids: &[ClauseId],
    ) -> Result<Option<usize>, NoMemory>
        requires machine { IsMachine self.old }
        requires goal { goal.at < length self.old.state.store.cells }
        requires clauses { AreClauses self.old ids.now }
        ensures same { OnOk result (self.new ≡ self.old) }
        ensures found { IfOk result
            (λ r. r ≡ position_from (hits_at self.old goal) 0 ids.now) }
        ensures within { IfOk result (λ r. IfSome r (λ k. k < length ids.now)) }
        ensures program { OnErr result (SameProgram self.old self.new) }
    {
        for k in 0..ids.len() {
            let clause = self.base.clause(ids[k]);
            if meets(&mut self.state.store, goal, self.base.cells(), clause)? {
                return Ok(Some(k));
            }
        }
        Ok(None)
    }
}
