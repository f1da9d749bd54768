//! Unification on chained bindings.

ghost use Rattle.std.specs.Prelude.{◌≡◌, ◌≢◌, ◌<◌, List, length, true, false, Ok, Some, None};
ghost use Rattle.std.specs.Prelude.{is_some, IfOk, if◌then◌else◌};
ghost use Rattle.tp_terms.specs.Term.{Name};
ghost use Rattle.tp_terms.specs.Shown.{shows};
ghost use Rattle.tp_meaning.specs.Subst.{mgu};
ghost use Rattle.tp_store.specs.Contents.{AddsPairs, FindsUnifier, IsUnifiable, Names, subst_of};
ghost use Rattle.tp_store.specs.Chain.{IsChains, contents_of};
ghost use Rattle.tp_store.specs.Work.{IsGeneral, NoneSolves};

use crate::chains::Chains;
use crate::pairs::{Pair, next_binding, occurs_at};
use std::alloc::Global;
use std::mem;
use tp_terms::{NoMemory, Ref};

/// Binds until no pair is left, the first one of the two places. What it binds stays, whatever it
/// answers.
fn bind_each(
    chains: &mut Chains,
    work: &mut Vec<(Ref, Ref)>,
    places: &mut Vec<Ref>,
    left: Ref,
    right: Ref,
) -> Result<bool, NoMemory>
    requires chains { IsChains chains.old }
    requires left { left.at < length chains.old.cells.items }
    requires right { right.at < length chains.old.cells.items }
    ensures chains { IsChains chains.new }
    ensures adds { AddsPairs (contents_of chains.old) (contents_of chains.new) }
    ensures yes { result ≡ Ok true → (names : List Name) →
        IsGeneral (subst_of names (contents_of chains.old))
        (shows names chains.old.cells.items left.at)
        (shows names chains.old.cells.items right.at)
        (subst_of names (contents_of chains.new)) }
    ensures no { result ≡ Ok false → (names : List Name) → Names names chains.old.cells.items →
        NoneSolves (subst_of names (contents_of chains.old))
        (shows names chains.old.cells.items left.at)
        (shows names chains.old.cells.items right.at) }
{
    work.clear();
    work.push((left, right))?;
    'bindings: loop {
        match next_binding(chains, work)? {
            Pair::Same => return Ok(true),
            Pair::Clash => return Ok(false),
            Pair::Bind(number, place) => {
                if occurs_at(chains, places, number, place)? {
                    return Ok(false);
                }
                chains.bind(number, place)?;
            }
        }
    }
}

/// Binds until no pair is left. What it binds stays, whatever it answers.
pub fn solve(chains: &mut Chains, alloc: Global, left: Ref, right: Ref) -> Result<bool, NoMemory>
    requires chains { IsChains chains.old }
    requires left { left.at < length chains.old.cells.items }
    requires right { right.at < length chains.old.cells.items }
    ensures chains { IsChains chains.new }
    ensures adds { AddsPairs (contents_of chains.old) (contents_of chains.new) }
    ensures yes { result ≡ Ok true → (names : List Name) →
        IsGeneral (subst_of names (contents_of chains.old))
        (shows names chains.old.cells.items left.at)
        (shows names chains.old.cells.items right.at)
        (subst_of names (contents_of chains.new)) }
    ensures no { result ≡ Ok false → (names : List Name) → Names names chains.old.cells.items →
        NoneSolves (subst_of names (contents_of chains.old))
        (shows names chains.old.cells.items left.at)
        (shows names chains.old.cells.items right.at) }
{
    let mut work = mem::replace(&mut chains.spare.pairs, Vec::new(alloc));
    let mut places = mem::replace(&mut chains.spare.places, Vec::new(alloc));
    let solved = bind_each(chains, &mut work, &mut places, left, right);
    chains.spare.pairs = work;
    chains.spare.places = places;
    solved
}

/// Makes the terms of two places equal, by the fewest bindings that do. Where none do, or memory is
/// refused, nothing is bound.
pub fn unify(chains: &mut Chains, alloc: Global, left: Ref, right: Ref) -> Result<bool, NoMemory>
    requires chains { IsChains chains.old }
    requires left { left.at < length chains.old.cells.items }
    requires right { right.at < length chains.old.cells.items }
    ensures chains { IsChains chains.new }
    ensures adds { AddsPairs (contents_of chains.old) (contents_of chains.new) }
    ensures found { IfOk result
        (FindsUnifier (contents_of chains.old) (contents_of chains.new) left right) }
    ensures undone { result ≢ Ok true → contents_of chains.new ≡ contents_of chains.old }
{
    let kept = chains.trail.len();
    match solve(chains, alloc, left, right) {
        Ok(true) => Ok(true),
        Ok(false) => {
            chains.undo_to(kept);
            Ok(false)
        }
        Err(refused) => {
            chains.undo_to(kept);
            Err(refused)
        }
    }
}

/// Whether the terms of two places can be made equal. Nothing is bound.
pub fn unifiable(
    chains: &mut Chains,
    alloc: Global,
    left: Ref,
    right: Ref,
) -> Result<bool, NoMemory>
    requires chains { IsChains chains.old }
    requires left { left.at < length chains.old.cells.items }
    requires right { right.at < length chains.old.cells.items }
    ensures chains { IsChains chains.new }
    ensures found { IfOk result (IsUnifiable (contents_of chains.old) left right) }
    ensures value { contents_of chains.new ≡ contents_of chains.old }
{
    let kept = chains.trail.len();
    let answer = solve(chains, alloc, left, right);
    chains.undo_to(kept);
    answer
}
