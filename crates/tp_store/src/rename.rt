//! Copies of terms with new variables: first the variables in order, and then the copy.

ghost use Rattle.std.specs.Prelude.{◌≡◌, ℕ, ◌+◌, ◌<◌, ◌≤◌, ◌^◌, ◌++◌, List, [], length, reverse};
ghost use Rattle.std.specs.Prelude.{IfOk, OnOk, OnErr};
ghost use Rattle.tp_terms.specs.Shown.{StandsBefore};
ghost use Rattle.tp_terms.specs.Term.{Name};
ghost use Rattle.tp_meaning.specs.Copy.{place_in, variables_after};
ghost use Rattle.tp_meaning.specs.Valid.{Below};
ghost use Rattle.tp_store.specs.Contents.{AddsCells, Contents, IsStore, seen};
ghost use Rattle.tp_store.specs.Chain.{IsChains, IsEnd, contents_of};
ghost use Rattle.tp_store.specs.Joined.{KeepsAtoms};
ghost use Rattle.tp_store.specs.Renamed.{AddsTerms, Collects, Copies, ShowsRenamed, renamed_by};
ghost use Rattle.tp_store.specs.Renamed.{renaming};
ghost use Rattle.tp_store.specs.Work.{places_from};

use crate::chains::{Chains, End};
use crate::copy::{Task, build, look_at};
use indexmap::IndexSet;
use std::alloc::Global;
use tp_terms::{Cell, NoMemory, Ref, StoreMark};

/// Adds adjacent places to a list from which the last place is taken first, so that the first of
/// these is.
fn push_row(work: &mut Vec<Ref>, first: Ref, count: u8) -> Result<(), NoMemory>
    requires { first.at + count < 2 ^ 64 }
    ensures { OnOk result
        (reverse work.new.items ≡ places_from first.at count ++ reverse work.old.items) }
{
    'row: for k in 0..count {
        work.push(Ref {
            at: first.at + (count - 1 - k) as usize,
        })?;
    }
    Ok(())
}

/// Looks at the cell at the end of a chain: a variable that isn't among the variables goes behind
/// them, and the places of further terms go to the list.
fn collect(end: End, variables: &mut IndexSet<u64>, work: &mut Vec<Ref>) -> Result<(), NoMemory>
    requires { StandsBefore end.place.at end.cell }
    ensures { OnOk result ((c : Contents) → IsStore c → IsEnd c end →
        Collects c end.cell variables.old.keys variables.new.keys work.old.items work.new.items) }
{
    match end.cell {
        Cell::Var(number) => {
            variables.insert(number)?;
        }
        Cell::Comp { first, count, .. } => push_row(work, first, count)?,
        _ => {}
    }
    Ok(())
}

/// The variables of the term of a place, under the bindings, in order of first occurrence.
fn variables_of(chains: &Chains, alloc: Global, root: Ref) -> Result<IndexSet<u64>, NoMemory>
    requires chains { IsChains chains.now }
    requires root { root.at < length chains.now.cells.items }
    ensures { IfOk result (λ variables. (names : List Name) →
        variables.keys ≡ variables_after [] (seen names (contents_of chains.now) root.at)) }
{
    let mut variables = IndexSet::new(alloc);
    let mut work = Vec::new(alloc);
    work.push(root)?;
    'places: while let Some(at) = work.pop() {
        collect(chains.end(at), &mut variables, &mut work)?;
    }
    Ok(variables)
}

/// A cell, its variable numbered by its place among the variables, counted on from the base.
fn renamed(cell: Cell, variables: &IndexSet<u64>, base: u64) -> Cell
    requires known { (v : ℕ) → cell ≡ Cell.Var v →
        place_in variables.now.keys v < length variables.now.keys }
    requires fits { base + length variables.now.keys < 2 ^ 64 }
    ensures { result ≡ renamed_by base variables.now.keys cell }
{
    match cell {
        Cell::Var(number) => {
            let Some(place) = variables.get_index_of(&number) else {
                unreachable!()
            };
            Cell::Var(base + place as u64)
        }
        _ => cell,
    }
}

/// Copies the term of a place, each variable numbered by its place among the variables, counted on
/// from the base. Want of memory leaves cells.
fn copy_renamed(
    chains: &mut Chains,
    alloc: Global,
    root: Ref,
    variables: &IndexSet<u64>,
    base: u64,
) -> Result<Ref, NoMemory>
    requires chains { IsChains chains.old }
    requires root { root.at < length chains.old.cells.items }
    requires claimed { base + length variables.now.keys ≡ length chains.old.trail.bound }
    requires fits { base + length variables.now.keys < 2 ^ 64 }
    requires known { Below (length chains.old.trail.bound)
        (renaming (contents_of chains.old) base variables.now.keys [] root.at) }
    ensures chains { IsChains chains.new }
    ensures adds { AddsCells (contents_of chains.old) (contents_of chains.new) }
    ensures place { IfOk result (λ at. at.at < length chains.new.cells.items) }
    ensures shown { IfOk result (ShowsRenamed (contents_of chains.old) base variables.now.keys root
        chains.new.cells.items) }
    ensures named { OnOk result (KeepsAtoms (contents_of chains.old) (contents_of chains.new)) }
{
    let mut tasks = Vec::new(alloc);
    let mut made = Vec::new(alloc);
    tasks.push(Task::Copy(root))?;
    'tasks: while let Some(task) = tasks.pop() {
        match task {
            Task::Copy(at) => {
                let cell = renamed(chains.end(at).cell, variables, base);
                look_at(cell, &mut tasks, &mut made)?;
            }
            Task::Build { name, count } => build(chains, name, count, &mut made)?,
        }
    }
    let at = chains.place(made[0])?;
    Ok(at)
}

/// Copies the term of a place, under the bindings, with new variables: they are the next ones, in
/// order of first occurrence. Where memory is refused, no cell was added and no number claimed.
pub fn copy(chains: &mut Chains, alloc: Global, root: Ref) -> Result<Ref, NoMemory>
    requires chains { IsChains chains.old }
    requires root { root.at < length chains.old.cells.items }
    ensures chains { IsChains chains.new }
    ensures adds { AddsTerms (contents_of chains.old) (contents_of chains.new) }
    ensures place { IfOk result (λ at. at.at < length chains.new.cells.items) }
    ensures copied { IfOk result
        (Copies (contents_of chains.old) (contents_of chains.new) root) }
    ensures named { OnOk result (KeepsAtoms (contents_of chains.old) (contents_of chains.new)) }
    ensures err { OnErr result (contents_of chains.new ≡ contents_of chains.old) }
{
    let variables = variables_of(chains, alloc, root)?;
    let mark = StoreMark {
        cells: chains.cells.len(),
        vars: chains.trail.variables() as u64,
    };
    let base = chains.claim(variables.len() as u64)?;
    match copy_renamed(chains, alloc, root, &variables, base) {
        Ok(at) => Ok(at),
        Err(refused) => {
            chains.back_to(mark);
            Err(refused)
        }
    }
}
