//! Unification of a place with a term of other cells, which is seen where it stands: of its
//! compounds only those are copied that a variable is bound to.

ghost use Rattle.std.specs.Prelude.{◌≡◌, ℕ, ◌+◌, ◌-◌, ◌^◌, ◌<◌, true, false, List, [], ◌∷◌, length};
ghost use Rattle.std.specs.Prelude.{reverse, Ok, Some, None, OnOk, OnErr, IfOk};
ghost use Rattle.tp_terms.specs.Term.{Name, Var};
ghost use Rattle.tp_terms.specs.Shown.{StandsBefore, shows};
ghost use Rattle.tp_terms.specs.Binds.{bound_in};
ghost use Rattle.tp_meaning.specs.Clauses.{renamed};
ghost use Rattle.tp_store.specs.Block.{HasNoVariable};
ghost use Rattle.tp_store.specs.Contents.{AddsPairs, Names, subst_of};
ghost use Rattle.tp_store.specs.Chain.{IsChains, IsEnd, contents_of};
ghost use Rattle.tp_store.specs.Copy.{IsClaimed, NamesBoth};
ghost use Rattle.tp_store.specs.Joined.{KeepsAtoms};
ghost use Rattle.tp_store.specs.Meeting.{AddsBoth, IsNoVariable, Looked, Meets, SplitStep};
ghost use Rattle.tp_store.specs.Work.{IsGeneral, MayBind, NoneSolves};

use crate::block::{Block, copy_block};
use crate::chains::{Chains, End};
use crate::pairs::{occurs_at, push_rows, same_constant};
use crate::solve::solve;
use std::mem;
use tp_terms::{Cell, Cells, NoMemory, Ref};

/// Binds an unbound variable to a place, unless it occurs in the place's term.
fn bind_apart(chains: &mut Chains, number: u64, place: Ref) -> Result<bool, NoMemory>
    requires chains { IsChains chains.old }
    requires may { MayBind (contents_of chains.old) number place }
    ensures chains { IsChains chains.new }
    ensures adds { AddsPairs (contents_of chains.old) (contents_of chains.new) }
    ensures found { IfOk result (Meets (contents_of chains.old) (contents_of chains.new) []
        (λ names. Var number) (λ names. shows names chains.old.cells.items place.at)
        (λ names. [])) }
{
    let alloc = *chains.spare.pairs.allocator();
    let mut work = mem::replace(&mut chains.spare.places, Vec::new(alloc));
    let occurs = occurs_at(chains, &mut work, number, place);
    chains.spare.places = work;
    if occurs? {
        return Ok(false);
    }
    chains.bind(number, place)?;
    Ok(true)
}

/// Makes an unbound variable and the end of a chain equal. The younger of two variables takes the
/// older's name.
fn meet_unbound(chains: &mut Chains, number: u64, end: End) -> Result<bool, NoMemory>
    requires chains { IsChains chains.old }
    requires claimed { number < length chains.old.trail.bound }
    requires unbound { bound_in (contents_of chains.old).pairs number ≡ None }
    requires end { IsEnd (contents_of chains.old) end }
    ensures chains { IsChains chains.new }
    ensures adds { AddsBoth (contents_of chains.old) (contents_of chains.new) }
    ensures named { KeepsAtoms (contents_of chains.old) (contents_of chains.new) }
    ensures found { IfOk result (Meets (contents_of chains.old) (contents_of chains.new) []
        (λ names. shows names chains.old.cells.items end.place.at) (λ names. Var number)
        (λ names. [])) }
{
    if let Cell::Var(other) = end.cell {
        if number == other {
            return Ok(true);
        }
        if number < other {
            let at = chains.place(Cell::Var(number))?;
            return bind_apart(chains, other, at);
        }
    }
    bind_apart(chains, number, end.place)
}

/// Makes a variable and the term of a place equal.
fn meet_variable(chains: &mut Chains, number: u64, goal: Ref) -> Result<bool, NoMemory>
    requires chains { IsChains chains.old }
    requires claimed { number < length chains.old.trail.bound }
    requires goal { goal.at < length chains.old.cells.items }
    ensures chains { IsChains chains.new }
    ensures adds { AddsBoth (contents_of chains.old) (contents_of chains.new) }
    ensures named { KeepsAtoms (contents_of chains.old) (contents_of chains.new) }
    ensures found { IfOk result (Meets (contents_of chains.old) (contents_of chains.new) []
        (λ names. shows names chains.old.cells.items goal.at) (λ names. Var number)
        (λ names. [])) }
{
    match chains.trail.get(number) {
        Some(place) => {
            let alloc = *chains.spare.pairs.allocator();
            solve(chains, alloc, goal, place)
        }
        None => {
            let end = chains.end(goal);
            meet_unbound(chains, number, end)
        }
    }
}

/// Binds an unbound variable to a copy, unless it occurs in the copy's term. The term of a copy
/// without a variable isn't looked at.
fn bind_block(chains: &mut Chains, number: u64, copy: Block) -> Result<bool, NoMemory>
    requires chains { IsChains chains.old }
    requires may { MayBind (contents_of chains.old) number copy.place }
    requires plain { copy.varies ≡ false → HasNoVariable chains.old.cells.items copy.place.at }
    ensures chains { IsChains chains.new }
    ensures adds { AddsPairs (contents_of chains.old) (contents_of chains.new) }
    ensures found { IfOk result (Meets (contents_of chains.old) (contents_of chains.new) []
        (λ names. Var number) (λ names. shows names chains.old.cells.items copy.place.at)
        (λ names. [])) }
{
    if copy.varies {
        return bind_apart(chains, number, copy.place);
    }
    chains.bind(number, copy.place)?;
    Ok(true)
}

/// Binds an unbound variable to a copy of the term of a place of other cells, which is no variable,
/// unless the variable occurs in it.
fn bind_copy(
    chains: &mut Chains,
    number: u64,
    from: &Cells,
    base: u64,
    head: Ref,
) -> Result<bool, NoMemory>
    requires chains { IsChains chains.old }
    requires number { number < length chains.old.trail.bound }
    requires unbound { bound_in (contents_of chains.old).pairs number ≡ None }
    requires head { head.at < length from.now.items }
    requires claimed { IsClaimed from.now.items head.at base (length chains.old.trail.bound) }
    requires other { (v : ℕ) → (names : List Name) →
        shows names from.now.items head.at ≡ Var v → ⊥ }
    ensures chains { IsChains chains.new }
    ensures adds { AddsBoth (contents_of chains.old) (contents_of chains.new) }
    ensures named { NamesBoth from.now.items chains.old.cells.items chains.new.cells.items }
    ensures found { IfOk result (Meets (contents_of chains.old) (contents_of chains.new)
        from.now.items (λ names. Var number)
        (λ names. renamed base (shows names from.now.items head.at)) (λ names. [])) }
{
    let copy = copy_block(chains, from, head, base)?;
    bind_block(chains, number, copy)
}

/// Compares two cells that are no variables, the second one of other cells. The pairs of arguments
/// go to the list, the first one to be taken first.
fn split(goal: Cell, head: Cell, work: &mut Vec<(Ref, Ref)>) -> Result<bool, NoMemory>
    requires goal { StandsBefore (2 ^ 64 - 1) goal }
    requires head { StandsBefore (2 ^ 64 - 1) head }
    requires bound { IsNoVariable goal }
    requires other { IsNoVariable head }
    ensures { IfOk result (λ same. (cells from : List Cell) (base : ℕ) →
        StandsBefore (length cells) goal → StandsBefore (length from) head →
        SplitStep cells from base goal head work.old.items work.new.items same) }
{
    let Cell::Comp { name, first, count } = goal else {
        return Ok(same_constant(goal, head));
    };
    let Cell::Comp {
        name: second,
        first: other,
        count: arity,
    } = head
    else {
        return Ok(false);
    };
    if name.at != second.at || count != arity {
        return Ok(false);
    }
    push_rows(work, first, other, count)?;
    Ok(true)
}

/// Looks at a pair of a place and a place of other cells. Further pairs go to the list. False where
/// the two can't be made equal.
fn meet(
    chains: &mut Chains,
    from: &Cells,
    base: u64,
    pair: (Ref, Ref),
    work: &mut Vec<(Ref, Ref)>,
) -> Result<bool, NoMemory>
    requires chains { IsChains chains.old }
    requires goal { pair.0.at < length chains.old.cells.items }
    requires head { pair.1.at < length from.now.items }
    requires claimed { IsClaimed from.now.items pair.1.at base (length chains.old.trail.bound) }
    ensures chains { IsChains chains.new }
    ensures adds { AddsBoth (contents_of chains.old) (contents_of chains.new) }
    ensures named { NamesBoth from.now.items chains.old.cells.items chains.new.cells.items }
    ensures found { IfOk result (Looked (contents_of chains.old) (contents_of chains.new)
        from.now.items base pair work.old.items work.new.items) }
{
    let cell = from.get(pair.1);
    if let Cell::Var(number) = cell {
        return meet_variable(chains, number + base, pair.0);
    }
    let end = chains.end(pair.0);
    if let Cell::Var(number) = end.cell {
        return bind_copy(chains, number, from, base, pair.1);
    }
    split(end.cell, cell, work)
}

/// Binds until no pair is left, the first one at the beginning. What it adds and binds stays,
/// whatever it answers.
fn meet_each(
    chains: &mut Chains,
    from: &Cells,
    base: u64,
    first: (Ref, Ref),
    work: &mut Vec<(Ref, Ref)>,
) -> Result<bool, NoMemory>
    requires chains { IsChains chains.old }
    requires goal { first.0.at < length chains.old.cells.items }
    requires head { first.1.at < length from.now.items }
    requires claimed { IsClaimed from.now.items first.1.at base (length chains.old.trail.bound) }
    ensures chains { IsChains chains.new }
    ensures adds { AddsBoth (contents_of chains.old) (contents_of chains.new) }
    ensures named { NamesBoth from.now.items chains.old.cells.items chains.new.cells.items }
    ensures found { IfOk result (Meets (contents_of chains.old) (contents_of chains.new)
        from.now.items (λ names. shows names chains.old.cells.items first.0.at)
        (λ names. renamed base (shows names from.now.items first.1.at)) (λ names. [])) }
{
    work.clear();
    work.push(first)?;
    'pairs: while let Some(pair) = work.pop() {
        if !meet(chains, from, base, pair, work)? {
            return Ok(false);
        }
    }
    Ok(true)
}

/// Binds until no pair is left. What it adds and binds stays, whatever it answers.
pub fn meet_all(
    chains: &mut Chains,
    from: &Cells,
    base: u64,
    goal: Ref,
    head: Ref,
) -> Result<bool, NoMemory>
    requires chains { IsChains chains.old }
    requires goal { goal.at < length chains.old.cells.items }
    requires head { head.at < length from.now.items }
    requires claimed { IsClaimed from.now.items head.at base (length chains.old.trail.bound) }
    ensures chains { IsChains chains.new }
    ensures adds { AddsBoth (contents_of chains.old) (contents_of chains.new) }
    ensures named { NamesBoth from.now.items chains.old.cells.items chains.new.cells.items }
    ensures found { IfOk result (Meets (contents_of chains.old) (contents_of chains.new)
        from.now.items (λ names. shows names chains.old.cells.items goal.at)
        (λ names. renamed base (shows names from.now.items head.at)) (λ names. [])) }
{
    let alloc = *chains.spare.pairs.allocator();
    let mut work = mem::replace(&mut chains.spare.heads, Vec::new(alloc));
    let met = meet_each(chains, from, base, (goal, head), &mut work);
    chains.spare.heads = work;
    met
}
