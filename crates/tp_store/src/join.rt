//! Goals with further arguments.

ghost use Rattle.std.specs.Prelude.{◌≡◌, ◌+◌, ◌<◌, ◌≤◌, ◌^◌, length, IfOk, OnOk, OnErr};
ghost use Rattle.tp_store.specs.Contents.{AddsCells};
ghost use Rattle.tp_store.specs.Chain.{IsChains, contents_of};
ghost use Rattle.tp_store.specs.Joined.{AddsRow, AreParts, HasRoom, IsCallable, IsGoal, KeepsAtoms};
ghost use Rattle.tp_store.specs.Joined.{ShowsMore};

use crate::chains::{Chains, End};
use tp_terms::{AtomId, Cell, NoMemory, Ref};

/// A name, and arguments that stand in adjacent places.
#[derive(Clone, Copy)]
pub struct Parts {
    /// The name.
    pub name: AtomId,
    /// The place of the first argument, where there is one.
    pub first: Ref,
    /// How many arguments, from 0 to 255.
    pub count: u8,
}

/// The name and the arguments of the atom or compound at the end of a chain.
fn parts_of(end: End) -> Parts
    requires { IsGoal end.cell }
    ensures { AreParts end.place end.cell result }
{
    match end.cell {
        Cell::Atom(name) => Parts {
            name,
            first: end.place,
            count: 0,
        },
        Cell::Comp { name, first, count } => Parts { name, first, count },
        _ => unreachable!(),
    }
}

/// Adds copies of the cells of adjacent places. Want of memory leaves some.
fn push_row(chains: &mut Chains, first: Ref, count: u8) -> Result<(), NoMemory>
    requires chains { IsChains chains.old }
    requires stands { first.at + count ≤ length chains.old.cells.items }
    requires fits { first.at + count < 2 ^ 64 }
    ensures chains { IsChains chains.new }
    ensures adds { AddsCells (contents_of chains.old) (contents_of chains.new) }
    ensures row { OnOk result
        (AddsRow (contents_of chains.old) (contents_of chains.new) first.at count) }
{
    'row: for k in 0..count {
        let cell = chains.cells.get(Ref {
            at: first.at + k as usize,
        });
        chains.place(cell)?;
    }
    Ok(())
}

/// Adds a goal with further arguments behind its own. Want of memory leaves cells.
fn push_joined(chains: &mut Chains, goal: Ref, first: Ref, count: u8) -> Result<Ref, NoMemory>
    requires chains { IsChains chains.old }
    requires goal { goal.at < length chains.old.cells.items }
    requires callable { IsCallable (contents_of chains.old) goal }
    requires args { first.at + count ≤ length chains.old.cells.items }
    requires some { 0 < count }
    requires room { HasRoom (contents_of chains.old) goal count }
    ensures chains { IsChains chains.new }
    ensures adds { AddsCells (contents_of chains.old) (contents_of chains.new) }
    ensures place { IfOk result (λ at. at.at < length chains.new.cells.items) }
    ensures shown { IfOk result
        (ShowsMore (contents_of chains.old) (contents_of chains.new) goal first count) }
    ensures named { OnOk result (KeepsAtoms (contents_of chains.old) (contents_of chains.new)) }
{
    let parts = parts_of(chains.end(goal));
    let row = Ref {
        at: chains.cells.len(),
    };
    push_row(chains, parts.first, parts.count)?;
    push_row(chains, first, count)?;
    chains.place(Cell::Comp {
        name: parts.name,
        first: row,
        count: parts.count + count,
    })
}

/// Adds a goal with further arguments behind its own. Where memory is refused, no cell was added.
pub fn goal_with(chains: &mut Chains, goal: Ref, first: Ref, count: u8) -> Result<Ref, NoMemory>
    requires chains { IsChains chains.old }
    requires goal { goal.at < length chains.old.cells.items }
    requires callable { IsCallable (contents_of chains.old) goal }
    requires args { first.at + count ≤ length chains.old.cells.items }
    requires some { 0 < count }
    requires room { HasRoom (contents_of chains.old) goal count }
    ensures chains { IsChains chains.new }
    ensures adds { AddsCells (contents_of chains.old) (contents_of chains.new) }
    ensures place { IfOk result (λ at. at.at < length chains.new.cells.items) }
    ensures shown { IfOk result
        (ShowsMore (contents_of chains.old) (contents_of chains.new) goal first count) }
    ensures named { OnOk result (KeepsAtoms (contents_of chains.old) (contents_of chains.new)) }
    ensures err { OnErr result (contents_of chains.new ≡ contents_of chains.old) }
{
    let kept = chains.cells.len();
    match push_joined(chains, goal, first, count) {
        Ok(at) => Ok(at),
        Err(refused) => {
            chains.cells.cut_to(kept);
            Err(refused)
        }
    }
}
