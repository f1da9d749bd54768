//! The heads of clauses.

ghost use Rattle.std.specs.Prelude.{◌≡◌, ◌<◌, ◌^◌, List, length, drop, IfOk, IfSome, OnOk};
ghost use Rattle.std.specs.List.{position_from};
ghost use Rattle.tp_terms.specs.Term.{Name};
ghost use Rattle.tp_terms.specs.Shown.{AreNamed};
ghost use Rattle.tp_store.specs.Contents.{IsStore, Names};
ghost use Rattle.std.specs.Prelude.{is_some};
ghost use Rattle.tp_clauses.specs.Contents.{ViewFits};
ghost use Rattle.tp_machine.specs.Program.{head_term};
ghost use Rattle.tp_machine.specs.Heads.{unifier};
ghost use Rattle.tp_machine.specs.HeadsTried.{TriesHead, is_met};

use tp_clauses::ClauseView;
use tp_state::State;
use tp_store::{Store, Variant};
use tp_terms::{Cells, NoMemory, Ref};

/// Whether the head of a clause has a unifier with a goal. The store stays.
pub fn meets(
    store: &mut Store,
    goal: Ref,
    cells: &Cells,
    clause: ClauseView,
) -> Result<bool, NoMemory>
    requires goal { goal.at < length store.old.cells }
    requires clause { ViewFits cells.now.items clause }
    ensures same { OnOk result (store.new ≡ store.old) }
    ensures met { IfOk result (λ found. (names : List Name) → Names names store.old.cells →
        AreNamed (length names) cells.now.items →
        found ≡ is_some
        (unifier names store.old goal.at (head_term names cells.now.items clause))) }
{
    let mark = store.mark();
    let base = store.claim(clause.vars)?;
    let head = Variant {
        cells,
        root: clause.head,
        base,
    };
    let found = store.head_unifiable(goal, head)?;
    store.back_to(mark);
    Ok(found)
}

/// What became of a goal and the head of a clause.
#[derive(Clone, Copy, Debug)]
pub enum Head {
    /// They have no unifier.
    Apart,
    /// They were made equal. The place of the clause's body, where it has one.
    Met(Option<Ref>),
}

/// Makes the head of a clause equal to a goal, and its body a term of the store. Where the head has
/// no unifier with the goal, all stays.
pub fn try_head(
    state: &mut State,
    goal: Ref,
    cells: &Cells,
    clause: ClauseView,
) -> Result<Head, NoMemory>
    requires goal { goal.at < length state.old.store.cells }
    requires clause { ViewFits cells.now.items clause }
    ensures met { IfOk result (λ head. (names : List Name) →
        Names names state.old.store.cells → AreNamed (length names) cells.now.items →
        is_met head ≡ is_some
        (unifier names state.old.store goal.at (head_term names cells.now.items clause))) }
    ensures tried { IfOk result (TriesHead goal cells.now.items clause state.old state.new) }
{
    let mark = state.store.mark();
    let base = state.store.claim(clause.vars)?;
    let head = Variant {
        cells,
        root: clause.head,
        base,
    };
    let met = state.store.unify_head(goal, head, &mut state.log)?;
    if !met {
        state.store.back_to(mark);
        return Ok(Head::Apart);
    }
    let Some(body) = clause.body else {
        return Ok(Head::Met(None));
    };
    let body = state.store.block(cells, body, base)?;
    Ok(Head::Met(Some(body)))
}
