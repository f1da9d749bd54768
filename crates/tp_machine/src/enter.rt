//! Goals that are entered at run time (ISO/IEC 13211-1, 7.6.2).

ghost use Rattle.std.specs.Prelude.{◌≡◌, ℕ, ◌<◌, List, Some, length, IfOk, OnOk, OnErr};
ghost use Rattle.tp_terms.specs.Term.{Name, Var};
ghost use Rattle.tp_terms.specs.Names.{IsTable};
ghost use Rattle.tp_terms.specs.Shown.{AreNamed};
ghost use Rattle.tp_meaning.specs.declared.goals.GoalKind.TheVariants.{Control};
ghost use Rattle.tp_store.specs.Contents.{IsStore, seen};
ghost use Rattle.tp_state.specs.Acts.{with_store};
ghost use Rattle.tp_state.specs.Going.{Follows};
ghost use Rattle.tp_state.specs.State.{plain_of, held_of};
ghost use Rattle.tp_machine.specs.Enters.{Enters};

use crate::errors::Cause;
use crate::machine::Machine;
use crate::task::{Call, Task};
use tp_meaning::ControlGoal;
use tp_state::State;
use tp_terms::{Cell, NoMemory, Ref};

/// What comes of a goal that is entered.
#[derive(Clone, Copy, Debug)]
pub enum Entered {
    /// Its body stands at this place.
    Goal(Ref),
    /// It is unbound, or has no body.
    Refused(Cause),
}

/// Enters a goal: a place for its body.
pub fn enter(state: &mut State, goal: Ref) -> Result<Entered, NoMemory>
    requires goal { goal.at < length state.old.store.cells }
    ensures entered { IfOk result (λ r. (names : List Name) → IsTable names →
        AreNamed (length names) state.old.store.cells →
        Enters names state.old.store goal r state.new.store) }
    ensures plain { OnOk result (plain_of state.new
        ≡ with_store state.new.store (plain_of state.old)) }
    ensures same { OnOk result (state.new ≡ record state.old { store = state.new.store }) }
    ensures follows { OnOk result (Follows (held_of state.old) (held_of state.new)) }
    ensures store { IsStore state.new.store }
{
    let _mark = state.store.mark();
    match state.store.top(goal) {
        Cell::Var(_) => Ok(Entered::Refused(Cause::Unbound)),
        _ => enter_bound(state, goal),
    }
}

/// Enters a goal that is no variable.
fn enter_bound(state: &mut State, goal: Ref) -> Result<Entered, NoMemory>
    requires goal { goal.at < length state.old.store.cells }
    requires bound { (names : List Name) (v : ℕ) →
        seen names state.old.store goal.at ≡ Var v → ⊥ }
    ensures entered { IfOk result (λ r. (names : List Name) → IsTable names →
        AreNamed (length names) state.old.store.cells →
        Enters names state.old.store goal r state.new.store) }
    ensures plain { OnOk result (plain_of state.new
        ≡ with_store state.new.store (plain_of state.old)) }
    ensures same { OnOk result (state.new ≡ record state.old { store = state.new.store }) }
    ensures follows { OnOk result (Follows (held_of state.old) (held_of state.new)) }
    ensures store { IsStore state.new.store }
{
    match state.store.body(goal)? {
        Some(place) => Ok(Entered::Goal(place)),
        None => Ok(Entered::Refused(Cause::NotCallable(goal))),
    }
}

impl<'a> Machine<'a> {
    ghost use Rattle.tp_machine.specs.Enters.{EntersFirst, FirstEntered, Rests};
    ghost use Rattle.tp_machine.specs.Machine.{IsMachine, SameProgram};
    ghost use Rattle.tp_machine.specs.Meets.{Calls};

    /// Enters the first argument of the running process's goal.
    pub(crate) fn enter_first(
        &mut self,
        _task: Task,
        call: Call,
        _goal: ControlGoal,
    ) -> Result<Entered, NoMemory>
        requires machine { IsMachine self.old }
        requires call { Calls self.old _task call (Some (Control _goal)) }
        requires first { EntersFirst _goal }
        ensures rests { OnOk result (Rests self.old self.new) }
        ensures first { IfOk result (FirstEntered self.new _task call _goal) }
        ensures program { OnErr result (SameProgram self.old self.new) }
    {
        let entered = enter(&mut self.state, call.first)?;
        Ok(entered)
    }
}
