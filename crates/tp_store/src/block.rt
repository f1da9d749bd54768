//! Copies of terms whose cells stand together: walks over the cells, and no list of tasks.

ghost use Rattle.std.specs.Prelude.{◌≡◌, ℕ, ◌+◌, ◌-◌, ◌<◌, ◌≤◌, ◌^◌, false, length, OnOk, OnErr};
ghost use Rattle.std.specs.Prelude.{IfOk};
ghost use Rattle.tp_terms.specs.Shown.{StandsBefore};
ghost use Rattle.tp_store.specs.Block.{AreMoved, BeginsIn, HasNoVariable, IsBlock, IsWhole};
ghost use Rattle.tp_store.specs.Block.{moved_by};
ghost use Rattle.tp_store.specs.Contents.{AddsCells, with_cell};
ghost use Rattle.tp_store.specs.Chain.{IsChains, contents_of};
ghost use Rattle.tp_store.specs.Copy.{IsClaimed, NamesBoth, ShowsCopy};
ghost use Rattle.tp_store.specs.Meeting.{IsNoVariable};

use crate::chains::Chains;
use tp_terms::{AtomId, Cell, Cells, NoMemory, Ref};

/// A copy.
#[derive(Clone, Copy)]
pub struct Block {
    /// Its place.
    pub place: Ref,
    /// Whether a cell that was added is a variable.
    pub varies: bool,
}

/// Where a block of cells goes, and its variables.
#[derive(Clone, Copy)]
pub struct Moving {
    /// The lowest place of the block.
    pub low: usize,
    /// The place of its copy.
    pub to: usize,
    /// What variables are numbered on by.
    pub base: u64,
    /// How many numbers were claimed from the base on.
    pub room: u64,
}

/// Whether a cell is a variable.
fn is_variable(cell: Cell) -> bool
    ensures { result ≡ false → IsNoVariable cell }
{
    match cell {
        Cell::Var(_) => true,
        _ => false,
    }
}

/// The lower one of a place and the first argument of a cell.
fn lower(cell: Cell, low: usize) -> usize
    ensures below { result ≤ low }
    ensures first { BeginsIn result cell }
{
    match cell {
        Cell::Comp { first, .. } => low.min(first.at),
        _ => low,
    }
}

/// The lowest place of arguments of the cells before a place, down to that place.
fn lowest(from: &Cells, first: usize, end: usize) -> usize
    requires { end ≤ length from.now.items }
    ensures below { result ≤ first }
    ensures whole { IsWhole from.now.items result result end }
{
    let mut low = first;
    let mut at = end;
    'walk: while at > low {
        at -= 1;
        low = lower(from.get(Ref { at }), low);
    }
    low
}

/// The places of the cells that a cell's term has besides it: the lowest, and the one behind the
/// last.
fn span(from: &Cells, at: Ref, cell: Cell) -> (usize, usize)
    requires at { at.at < length from.now.items }
    requires before { StandsBefore at.at cell }
    ensures { IsBlock from.now.items cell result.0 result.1 }
{
    match cell {
        Cell::Comp { first, count, .. } => {
            let end = first.at + count as usize;
            (lowest(from, first.at, end), end)
        }
        _ => (at.at, at.at),
    }
}

impl Moving {
    /// A cell of the copy.
    fn moved(self, cell: Cell) -> Cell
        requires base { (v : ℕ) → v < self.room → v + self.base < 2 ^ 64 }
        requires low { BeginsIn self.low cell }
        requires place { (name : AtomId) (first : Ref) (count : ℕ) →
            cell ≡ Cell.Comp name first count → self.to + (first.at - self.low) < 2 ^ 64 }
        ensures { result ≡ moved_by self cell }
    {
        match cell {
            Cell::Var(number) => {
                if number < self.room {
                    Cell::Var(number + self.base)
                } else {
                    Cell::Int(0)
                }
            }
            Cell::Comp { name, first, count } => Cell::Comp {
                name,
                first: Ref {
                    at: self.to + (first.at - self.low),
                },
                count,
            },
            _ => cell,
        }
    }

    /// Adds a cell of the copy.
    fn place(self, chains: &mut Chains, cell: Cell) -> Result<Block, NoMemory>
        requires chains { IsChains chains.old }
        requires room { self.room ≡ length chains.old.trail.bound - self.base }
        requires to { self.to ≤ length chains.old.cells.items }
        requires low { BeginsIn self.low cell }
        requires before { StandsBefore (self.low + (length chains.old.cells.items - self.to)) cell }
        ensures chains { IsChains chains.new }
        ensures place { IfOk result (λ b. b.place.at ≡ length chains.old.cells.items) }
        ensures value { OnOk result
            (contents_of chains.new ≡ with_cell (contents_of chains.old) (moved_by self cell)) }
        ensures plain { IfOk result (λ b. b.varies ≡ false → IsNoVariable (moved_by self cell)) }
        ensures err { OnErr result (contents_of chains.new ≡ contents_of chains.old) }
    {
        // Each place fits its type.
        let _len = chains.cells.len();
        let moved = self.moved(cell);
        let place = chains.place(moved)?;
        Ok(Block {
            place,
            varies: is_variable(moved),
        })
    }

    /// Adds the cells of the copy before a place. Whether one of them is a variable. Want of memory
    /// leaves cells.
    fn place_each(self, chains: &mut Chains, from: &Cells, end: usize) -> Result<bool, NoMemory>
        requires chains { IsChains chains.old }
        requires room { self.room ≡ length chains.old.trail.bound - self.base }
        requires to { self.to ≡ length chains.old.cells.items }
        requires order { self.low ≤ end }
        requires within { end ≤ length from.now.items }
        requires whole { IsWhole from.now.items self.low self.low end }
        ensures chains { IsChains chains.new }
        ensures adds { AddsCells (contents_of chains.old) (contents_of chains.new) }
        ensures moved { IfOk result (λ varies.
            AreMoved from.now.items self (contents_of chains.old) (contents_of chains.new) end
            varies) }
    {
        let mut varies = false;
        'cells: for at in self.low..end {
            let added = self.place(chains, from.get(Ref { at }))?;
            varies = varies || added.varies;
        }
        Ok(varies)
    }
}

/// Copies the term of a place, each variable numbered on from the base. Want of memory leaves
/// cells.
fn place_block(chains: &mut Chains, from: &Cells, root: Ref, base: u64) -> Result<Block, NoMemory>
    requires chains { IsChains chains.old }
    requires root { root.at < length from.now.items }
    requires claimed { IsClaimed from.now.items root.at base (length chains.old.trail.bound) }
    ensures chains { IsChains chains.new }
    ensures adds { AddsCells (contents_of chains.old) (contents_of chains.new) }
    ensures place { IfOk result (λ b. b.place.at < length chains.new.cells.items) }
    ensures shown { IfOk result
        (λ b. ShowsCopy from.now.items root base chains.new.cells.items b.place) }
    ensures named { OnOk result
        (NamesBoth from.now.items chains.old.cells.items chains.new.cells.items) }
    ensures plain { IfOk result
        (λ b. b.varies ≡ false → HasNoVariable chains.new.cells.items b.place.at) }
{
    let cell = from.get(root);
    let (low, end) = span(from, root, cell);
    let moving = Moving {
        low,
        to: chains.cells.len(),
        base,
        room: (chains.trail.variables() as u64).saturating_sub(base),
    };
    let varies = moving.place_each(chains, from, end)?;
    let last = moving.place(chains, cell)?;
    let varies = varies || last.varies;
    Ok(Block {
        place: last.place,
        varies,
    })
}

/// Copies the term of a place, each variable numbered on from the base: all cells from the lowest
/// of the term to its last. Where memory is refused, no cell was added.
pub fn copy_block(
    chains: &mut Chains,
    from: &Cells,
    root: Ref,
    base: u64,
) -> Result<Block, NoMemory>
    requires chains { IsChains chains.old }
    requires root { root.at < length from.now.items }
    requires claimed { IsClaimed from.now.items root.at base (length chains.old.trail.bound) }
    ensures chains { IsChains chains.new }
    ensures adds { AddsCells (contents_of chains.old) (contents_of chains.new) }
    ensures place { IfOk result (λ b. b.place.at < length chains.new.cells.items) }
    ensures shown { IfOk result
        (λ b. ShowsCopy from.now.items root base chains.new.cells.items b.place) }
    ensures named { OnOk result
        (NamesBoth from.now.items chains.old.cells.items chains.new.cells.items) }
    ensures plain { IfOk result
        (λ b. b.varies ≡ false → HasNoVariable chains.new.cells.items b.place.at) }
    ensures err { OnErr result (contents_of chains.new ≡ contents_of chains.old) }
{
    let kept = chains.cells.len();
    match place_block(chains, from, root, base) {
        Ok(copied) => Ok(copied),
        Err(refused) => {
            chains.cells.cut_to(kept);
            Err(refused)
        }
    }
}
