//! The first state of a goal.

ghost use Rattle.std.specs.Prelude.{◌≡◌, ◌<◌, [], List, length, IfOk, IfSome, MatchOption, None};
ghost use Rattle.tp_terms.specs.Names.{IsTable};
ghost use Rattle.tp_terms.specs.Shown.{AreNamed};
ghost use Rattle.tp_terms.specs.Term.{Name};
ghost use Rattle.tp_meaning.specs.Body.{body};
ghost use Rattle.tp_clauses.specs.Contents.{AreBelow};
ghost use Rattle.tp_state.specs.State.{plain_of};
ghost use Rattle.tp_machine.specs.Program.{goal_term};
ghost use Rattle.tp_machine.specs.Start.{IsPlaced, IsStart};

use std::alloc::Global;
use tp_parse::ReadTerm;
use tp_state::State;
use tp_store::Store;
use tp_terms::{NoMemory, Ref};

/// A place for the body of a goal in a store that holds nothing else, where it has one.
fn place_goal(store: &mut Store, goal: &ReadTerm) -> Result<Option<Ref>, NoMemory>
    requires empty { store.old ≡ record { cells = []; pairs = []; vars = 0 } }
    requires root { goal.now.root.at < length goal.now.cells.items }
    requires variables { AreBelow goal.now.cells.items goal.now.vars goal.now.root }
    ensures { IfOk result (λ found.
        (names : List Name) → IsTable names → AreNamed (length names) goal.now.cells.items →
        MatchOption found (body (goal_term names goal.now) ≡ None)
        (λ place. IsPlaced names goal.now place store.new)) }
{
    let base = store.claim(goal.vars)?;
    let root = store.instance(&goal.cells, goal.root, base)?;
    let place = store.body(root)?;
    Ok(place)
}

/// The state at the start of a goal, where it has a body.
pub fn first_state(alloc: Global, goal: &ReadTerm) -> Result<Option<State>, NoMemory>
    requires root { goal.now.root.at < length goal.now.cells.items }
    requires variables { AreBelow goal.now.cells.items goal.now.vars goal.now.root }
    ensures start { IfOk result (λ found.
        (names : List Name) → IsTable names → AreNamed (length names) goal.now.cells.items →
        MatchOption found (body (goal_term names goal.now) ≡ None)
        (λ s. IsStart names goal.now (plain_of s))) }
    ensures log { IfOk result (λ found. IfSome found (λ s. s.log ≡ [])) }
{
    let mut store = Store::new(alloc);
    let Some(place) = place_goal(&mut store, goal)? else {
        return Ok(None);
    };
    let state = State::waiting(alloc, store, place)?;
    Ok(Some(state))
}
