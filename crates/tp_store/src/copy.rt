//! Copies of terms: a list of tasks in place of recursion.

ghost use Rattle.std.specs.Prelude.{◌≡◌, ℕ, ◌+◌, ◌<◌, ◌≤◌, ◌^◌, List, [], ◌∷◌, ◌++◌, length, take};
ghost use Rattle.std.specs.Prelude.{drop, reverse, OnOk, OnErr, IfOk};
ghost use Rattle.tp_terms.specs.Term.{Name};
ghost use Rattle.tp_terms.specs.Shown.{AreNamed, shows};
ghost use Rattle.tp_meaning.specs.Clauses.{renamed};
ghost use Rattle.tp_store.specs.Contents.{AddsCells};
ghost use Rattle.tp_store.specs.Chain.{IsChains, contents_of};
ghost use Rattle.tp_store.specs.Copy.{AreReady, IsClaimed, IsLast, NamesBoth, ShowsCopy, copies};
ghost use Rattle.tp_store.specs.Copy.{looked_at, numbered_on};

use crate::chains::Chains;
use crate::spare::Copying;
use std::alloc::Global;
use std::mem;
use tp_terms::{AtomId, Cell, Cells, NoMemory, Ref};

/// What is left to do.
#[derive(Clone, Copy)]
pub enum Task {
    /// To copy the term of a place.
    Copy(Ref),
    /// To make a compound of the cells that were made last, the first argument being the newest.
    Build {
        /// The name.
        name: AtomId,
        /// The number of arguments.
        count: u8,
    },
}

/// A cell, its variable numbered on from the base.
fn numbered_on(cell: Cell, base: u64) -> Cell
    requires { (v : ℕ) → cell ≡ Cell.Var v → v + base < 2 ^ 64 }
    ensures { result ≡ numbered_on base cell }
{
    match cell {
        Cell::Var(number) => Cell::Var(number + base),
        _ => cell,
    }
}

/// Adds the copies of adjacent places to the tasks.
fn push_copies(tasks: &mut Vec<Task>, first: Ref, count: u8) -> Result<(), NoMemory>
    requires { first.at + count < 2 ^ 64 }
    ensures { OnOk result
        (reverse tasks.new.items ≡ copies first.at count ++ reverse tasks.old.items) }
{
    for k in 0..count {
        tasks.push(Task::Copy(Ref {
            at: first.at + k as usize,
        }))?;
    }
    Ok(())
}

/// Looks at the cell that a place is copied as: it is made at once, or its arguments, which are
/// places, are to be copied first.
pub fn look_at(cell: Cell, tasks: &mut Vec<Task>, made: &mut Vec<Cell>) -> Result<(), NoMemory>
    requires { (name : AtomId) (first : Ref) (count : ℕ) → cell ≡ Cell.Comp name first count →
        first.at + count < 2 ^ 64 }
    ensures { OnOk result
        ((reverse tasks.new.items, reverse made.new.items) ≡ looked_at cell
        (reverse tasks.old.items) (reverse made.old.items)) }
{
    match cell {
        Cell::Comp { name, first, count } => {
            tasks.push(Task::Build { name, count })?;
            push_copies(tasks, first, count)?;
        }
        _ => made.push(cell)?,
    }
    Ok(())
}

/// Makes a compound whose arguments are the cells that were made last.
pub fn build(
    chains: &mut Chains,
    name: AtomId,
    count: u8,
    made: &mut Vec<Cell>,
) -> Result<(), NoMemory>
    requires chains { IsChains chains.old }
    requires enough { count ≤ length made.old.items }
    requires ready { AreReady (length chains.old.cells.items) (length chains.old.trail.bound)
        (reverse made.old.items) }
    ensures chains { IsChains chains.new }
    ensures adds { AddsCells (contents_of chains.old) (contents_of chains.new) }
    ensures cells { OnOk result
        (chains.new.cells.items ≡ chains.old.cells.items ++ take count (reverse made.old.items)) }
    ensures made { OnOk result
        (reverse made.new.items ≡ Cell.Comp name
        (record { at = length chains.old.cells.items }) count ∷ drop count
        (reverse made.old.items)) }
{
    let first = Ref {
        at: chains.cells.len(),
    };
    'row: for k in 0..count {
        if let Some(cell) = made.pop() {
            chains.place(cell)?;
        }
    }
    made.push(Cell::Comp { name, first, count })?;
    Ok(())
}

/// Copies the term of a place, each variable numbered on from the base. Want of memory leaves
/// cells.
fn copy(
    chains: &mut Chains,
    work: &mut Copying,
    from: &Cells,
    root: Ref,
    base: u64,
) -> Result<Ref, NoMemory>
    requires chains { IsChains chains.old }
    requires root { root.at < length from.now.items }
    requires claimed { IsClaimed from.now.items root.at base (length chains.old.trail.bound) }
    ensures chains { IsChains chains.new }
    ensures adds { AddsCells (contents_of chains.old) (contents_of chains.new) }
    ensures place { IfOk result (λ at. at.at < length chains.new.cells.items) }
    ensures shown { IfOk result (ShowsCopy from.now.items root base chains.new.cells.items) }
    ensures last { IfOk result
        (λ at. IsLast chains.old.cells.items chains.new.cells.items
        (shows [] from.now.items root.at) at.at) }
    ensures named { OnOk result
        (NamesBoth from.now.items chains.old.cells.items chains.new.cells.items) }
{
    work.tasks.clear();
    work.made.clear();
    work.tasks.push(Task::Copy(root))?;
    'tasks: while let Some(task) = work.tasks.pop() {
        match task {
            Task::Copy(at) => {
                let cell = numbered_on(from.get(at), base);
                look_at(cell, &mut work.tasks, &mut work.made)?;
            }
            Task::Build { name, count } => build(chains, name, count, &mut work.made)?,
        }
    }
    let at = chains.place(work.made[0])?;
    Ok(at)
}

/// Copies the term of a place, each variable numbered on from the base. Where memory is refused, no
/// cell was added.
pub fn instance(
    chains: &mut Chains,
    alloc: Global,
    from: &Cells,
    root: Ref,
    base: u64,
) -> Result<Ref, NoMemory>
    requires chains { IsChains chains.old }
    requires root { root.at < length from.now.items }
    requires claimed { IsClaimed from.now.items root.at base (length chains.old.trail.bound) }
    ensures chains { IsChains chains.new }
    ensures adds { AddsCells (contents_of chains.old) (contents_of chains.new) }
    ensures place { IfOk result (λ at. at.at < length chains.new.cells.items) }
    ensures shown { IfOk result (ShowsCopy from.now.items root base chains.new.cells.items) }
    ensures last { IfOk result
        (λ at. IsLast chains.old.cells.items chains.new.cells.items
        (shows [] from.now.items root.at) at.at) }
    ensures named { OnOk result
        (NamesBoth from.now.items chains.old.cells.items chains.new.cells.items) }
    ensures err { OnErr result (contents_of chains.new ≡ contents_of chains.old) }
{
    let kept = chains.cells.len();
    let mut work = mem::replace(&mut chains.spare.copying, Copying::new(alloc));
    let copied = copy(chains, &mut work, from, root, base);
    chains.spare.copying = work;
    match copied {
        Ok(at) => Ok(at),
        Err(refused) => {
            chains.cells.cut_to(kept);
            Err(refused)
        }
    }
}
