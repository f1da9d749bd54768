//! Terms in adjacent cells.

ghost use Rattle.std.specs.Prelude.{◌≡◌, ℕ, ◌+◌, ◌-◌, ◌<◌, ◌≤◌, ◌↔◌, IsTrue, IsOk, List, [], ◌∷◌};
ghost use Rattle.std.specs.Prelude.{◌++◌, length, slice_get, take, Some, OnOk, OnErr, IfOk};
ghost use Rattle.tp_terms.specs.Term.{Name};
ghost use Rattle.tp_terms.specs.Kept.{cell_of};
ghost use Rattle.tp_terms.specs.Shown.{StandsBefore, AreBuilt, shows, shown_from};

use crate::NoMemory;
use std::alloc::Global;
use std::marker::Model;

/// The place of a name in a table of names, counted from 0.
#[derive(Clone, Copy, Debug, PartialEq, Eq, Hash)]
pub struct AtomId {
    /// The place.
    pub at: u32,
}

/// The place of a cell, counted from 0.
#[derive(Clone, Copy, Debug, PartialEq, Eq)]
pub struct Ref {
    /// The place.
    pub at: usize,
}

/// One cell of a term (ISO/IEC 13211-1, clause 7.1).
#[derive(Clone, Copy, Debug, PartialEq, Eq)]
pub enum Cell {
    /// A variable, by its number.
    Var(u64),
    /// An integer.
    Int(i64),
    /// An atom, by the place of its name.
    Atom(AtomId),
    /// A compound term: the place of its name, and as arguments `count` adjacent cells from
    /// `first`.
    Comp {
        /// The place of the name.
        name: AtomId,
        /// The first argument.
        first: Ref,
        /// How many arguments, from 1 to 255.
        count: u8,
    },
}

/// A cell as it is kept: the number of arguments and the name lie beside the tag, which makes it 16
/// bytes.
#[derive(Clone, Copy, Debug, PartialEq, Eq)]
enum Kept {
    /// A variable.
    Var(u64),
    /// An integer.
    Int(i64),
    /// An atom.
    Atom(AtomId),
    /// A compound term.
    Comp {
        /// How many arguments.
        count: u8,
        /// The place of the name.
        name: AtomId,
        /// The first argument.
        first: Ref,
    },
}

/// A cell as it is kept.
fn keep(cell: Cell) -> Kept
    ensures { cell_of result ≡ cell }
{
    match cell {
        Cell::Var(number) => Kept::Var(number),
        Cell::Int(value) => Kept::Int(value),
        Cell::Atom(name) => Kept::Atom(name),
        Cell::Comp { name, first, count } => Kept::Comp { count, name, first },
    }
}

/// The cell that is kept.
fn given(kept: Kept) -> Cell
    ensures { result ≡ cell_of kept }
{
    match kept {
        Kept::Var(number) => Cell::Var(number),
        Kept::Int(value) => Cell::Int(value),
        Kept::Atom(name) => Cell::Atom(name),
        Kept::Comp { count, name, first } => Cell::Comp { name, first, count },
    }
}

/// Terms in adjacent cells, each of which shows one term. The arguments of a compound stand before
/// it.
#[derive(Drop)]
pub struct Cells {
    cells: Vec<Kept>,
}

impl Model for Cells {
    ghost use Rattle.std.specs.Prelude.{◌-◌, map, vec_len};
    ghost use Rattle.std.specs.Vec.{vec_capacity};
    ghost use Rattle.tp_terms.specs.Contents.{Contents};
    ghost use Rattle.tp_terms.specs.Kept.{cell_of};

    ghost Value = { Contents };

    ghost use Rattle.tp_terms.specs.Shown.{AreBuilt};

    ghost view = { λ c. record {
      items = map cell_of c.cells.items;
      room = vec_capacity c.cells - vec_len c.cells;
    } };

    ghost invariant = { λ c. AreBuilt (map cell_of c.cells.items) };
}

impl Cells {
    /// No cells. Takes no memory.
    pub fn new(alloc: Global) -> Self
        ensures { result.items ≡ [] }
    {
        Cells {
            cells: Vec::new(alloc),
        }
    }

    /// Adds a cell behind the others and answers its place. No place that stood shows another term
    /// afterwards.
    ///
    /// # Errors
    /// `NoMemory` where memory was refused, and then no cell was added.
    pub fn push(&mut self, cell: Cell) -> Result<Ref, NoMemory>
        requires { StandsBefore (length self.old.items) cell }
        ensures place { IfOk result (λ at. at.at ≡ length self.old.items) }
        ensures items { OnOk result (self.new.items ≡ self.old.items ++ cell ∷ []) }
        ensures shown { (names : List Name) → IfOk result (λ at.
            shows names self.new.items at.at ≡ shown_from names self.old.items cell) }
        ensures keeps { (names : List Name) (at : ℕ) → at < length self.old.items →
            shows names self.new.items at ≡ shows names self.old.items at }
        ensures err { OnErr result (self.new.items ≡ self.old.items) }

        // With room it can't fail, and it uses up at most one place of it.
        ensures succeeds { 0 < self.old.room → IsOk result }
        ensures room { self.old.room ≤ self.new.room + 1 }
    {
        let at = self.cells.len();
        self.cells.push(keep(cell))?;
        Ok(Ref { at })
    }

    /// The cell at a place. Takes no memory.
    pub fn get(&self, at: Ref) -> Cell
        requires { at.at < length self.now.items }
        ensures value { slice_get self.now.items at.at ≡ Some result }
        ensures before { StandsBefore at.at result }
        ensures shown { (names : List Name) →
            shows names self.now.items at.at ≡ shown_from names self.now.items result }
    {
        given(self.cells[at.at])
    }

    /// The number of cells. Takes no memory.
    pub fn len(&self) -> usize
        ensures value { result ≡ length self.now.items }
        ensures built { AreBuilt self.now.items }
    {
        self.cells.len()
    }

    /// Whether there are no cells. Takes no memory.
    pub fn is_empty(&self) -> bool
        ensures { IsTrue result ↔ (length self.now.items ≡ 0) }
    {
        self.len() == 0
    }

    /// Makes room for so many pushes, which then can't fail. Takes no memory where there is room.
    ///
    /// # Errors
    /// `NoMemory` where memory was refused, and then the cells stay.
    pub fn reserve(&mut self, more: usize) -> Result<(), NoMemory>
        ensures ok { OnOk result (more ≤ self.new.room) }
        ensures items { self.new.items ≡ self.old.items }
        ensures room { self.old.room ≤ self.new.room }
        ensures succeeds { more ≤ self.old.room → IsOk result }
    {
        self.cells.reserve(more)?;
        Ok(())
    }

    /// Keeps the first `len` cells, and the memory of the others as room. Takes no memory.
    pub fn cut_to(&mut self, len: usize)
        requires { len ≤ length self.old.items }
        ensures items { self.new.items ≡ take len self.old.items }
        ensures keeps { (names : List Name) (at : ℕ) → at < len →
            shows names self.new.items at ≡ shows names self.old.items at }
        ensures room { self.new.room ≡ self.old.room + (length self.old.items - len) }
    {
        self.cells.truncate(len);
    }
}
