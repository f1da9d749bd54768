//! The standard order of terms: a list of pairs in place of recursion.

ghost use Rattle.std.specs.Prelude.{◌≡◌, ◌+◌, ◌<◌, ◌≤◌, ◌^◌, length, IfOk};
ghost use Rattle.tp_terms.specs.Shown.{AreNamed, IsNamed, StandsBefore, name_at};
ghost use Rattle.tp_meaning.specs.Order.{name_cmp};
ghost use Rattle.tp_store.specs.Contents.{Contents, IsStore};
ghost use Rattle.tp_store.specs.Chain.{IsChains, IsEnd, contents_of};
ghost use Rattle.tp_store.specs.Ordered.{IsOrder, Ranks, cells_cmp, compound_in, heads_cmp};
ghost use Rattle.tp_store.specs.Ordered.{kind_of};

use crate::chains::{Chains, End};
use crate::join::Parts;
use crate::pairs::push_rows;
use std::alloc::Global;
use std::cmp::Ordering;
use tp_terms::{AtomId, Atoms, Cell, NoMemory, Ref};

/// Compares the names of two atoms by their characters.
fn compare_names(atoms: &Atoms, left: AtomId, right: AtomId) -> Ordering
    requires left { left.at < length atoms.now }
    requires right { right.at < length atoms.now }
    ensures { result ≡ name_cmp (name_at atoms.now left.at) (name_at atoms.now right.at) }
{
    if left.at == right.at {
        return Ordering::Equal;
    }
    atoms.name(left).cmp(atoms.name(right))
}

/// Where a cell's kind stands: variables, integers, atoms, compounds.
fn kind_of(cell: Cell) -> u8
    ensures { result ≡ kind_of cell }
{
    match cell {
        Cell::Var(_) => 0,
        Cell::Int(_) => 1,
        Cell::Atom(_) => 2,
        Cell::Comp { .. } => 3,
    }
}

/// Compares two cells, the first being no compound.
fn compare_cells(left: Cell, right: Cell, atoms: &Atoms) -> Ordering
    requires left { IsNamed (length atoms.now) left }
    requires right { IsNamed (length atoms.now) right }
    ensures { result ≡ cells_cmp atoms.now left right }
{
    match (left, right) {
        (Cell::Var(number), Cell::Var(other)) => number.cmp(&other),
        (Cell::Int(value), Cell::Int(other)) => value.cmp(&other),
        (Cell::Atom(name), Cell::Atom(other)) => compare_names(atoms, name, other),
        _ => kind_of(left).cmp(&kind_of(right)),
    }
}

/// The name and the arguments of a compound.
fn as_compound(cell: Cell) -> Option<Parts>
    ensures { result ≡ compound_in cell }
{
    match cell {
        Cell::Comp { name, first, count } => Some(Parts { name, first, count }),
        _ => None,
    }
}

/// Compares two compounds by their numbers of arguments, and then by their names.
fn compare_heads(left: Parts, right: Parts, atoms: &Atoms) -> Ordering
    requires left { left.name.at < length atoms.now }
    requires right { right.name.at < length atoms.now }
    ensures { result ≡ heads_cmp atoms.now left right }
{
    match left.count.cmp(&right.count) {
        Ordering::Equal => compare_names(atoms, left.name, right.name),
        order => order,
    }
}

/// Compares two compounds. The pairs of arguments go to the list where nothing else decides.
fn compare_compounds(
    left: Parts,
    right: Parts,
    atoms: &Atoms,
    work: &mut Vec<(Ref, Ref)>,
) -> Result<Ordering, NoMemory>
    requires left { left.name.at < length atoms.now }
    requires right { right.name.at < length atoms.now }
    requires left_row { left.first.at + left.count < 2 ^ 64 }
    requires right_row { right.first.at + right.count < 2 ^ 64 }
    ensures { IfOk result
        (λ order. (c : Contents) → left.first.at + left.count ≤ length c.cells →
        right.first.at + right.count ≤ length c.cells →
        Ranks atoms.now c (Cell.Comp left.name left.first left.count)
        (Cell.Comp right.name right.first right.count) work.old.items work.new.items order) }
{
    match compare_heads(left, right, atoms) {
        Ordering::Equal => {}
        order => return Ok(order),
    }
    if left.first.at != right.first.at {
        push_rows(work, left.first, right.first, left.count)?;
    }
    Ok(Ordering::Equal)
}

/// Compares the ends of two chains. Further pairs go to the list.
fn compare_ends(
    left: End,
    right: End,
    atoms: &Atoms,
    work: &mut Vec<(Ref, Ref)>,
) -> Result<Ordering, NoMemory>
    requires left { StandsBefore left.place.at left.cell }
    requires right { StandsBefore right.place.at right.cell }
    requires left_named { IsNamed (length atoms.now) left.cell }
    requires right_named { IsNamed (length atoms.now) right.cell }
    ensures { IfOk result
        (λ order. (c : Contents) → IsStore c → IsEnd c left → IsEnd c right →
        Ranks atoms.now c left.cell right.cell work.old.items work.new.items order) }
{
    let Some(first) = as_compound(left.cell) else {
        return Ok(compare_cells(left.cell, right.cell, atoms));
    };
    let Some(second) = as_compound(right.cell) else {
        return Ok(Ordering::Greater);
    };
    compare_compounds(first, second, atoms, work)
}

/// The standard order of the terms of two places, under the bindings.
pub fn compare(
    chains: &Chains,
    alloc: Global,
    left: Ref,
    right: Ref,
    atoms: &Atoms,
) -> Result<Ordering, NoMemory>
    requires chains { IsChains chains.now }
    requires left { left.at < length chains.now.cells.items }
    requires right { right.at < length chains.now.cells.items }
    requires named { AreNamed (length atoms.now) chains.now.cells.items }
    ensures { IfOk result (IsOrder atoms.now (contents_of chains.now) left right) }
{
    let mut work = Vec::new(alloc);
    work.push((left, right))?;
    'pairs: while let Some((left, right)) = work.pop() {
        match compare_ends(chains.end(left), chains.end(right), atoms, &mut work)? {
            Ordering::Equal => {}
            order => return Ok(order),
        }
    }
    Ok(Ordering::Equal)
}
