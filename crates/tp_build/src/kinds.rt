//! Goals that test the kind of a term (ISO/IEC 13211-1, clause 8.3).

ghost use Rattle.std.specs.Prelude.{◌≡◌, ◌<◌, length, Ok};
ghost use Rattle.tp_meaning.specs.Heap.{Heap, IsHeap, cell_shown, seen};
ghost use Rattle.tp_build.specs.Answers.{Does};
ghost use Rattle.tp_meaning.specs.Answers.{succeeds};
ghost use Rattle.tp_meaning.specs.Builtin.{is_atom, is_compound, is_integer, is_variable};
ghost use Rattle.tp_build.specs.Builtin.{is_of};

use crate::decided::decided;
use crate::outcome::Outcome;
use tp_meaning::Terms;
use tp_terms::{Cell, Ref};

/// A kind of terms.
#[derive(Clone, Copy, Debug, PartialEq, Eq)]
pub enum Kind {
    /// `var`: an unbound variable.
    Variable,
    /// `nonvar`: anything else.
    Nonvariable,
    /// `atom`.
    Atom,
    /// `integer`.
    Integer,
    /// `atomic`: an atom or an integer.
    Atomic,
    /// `compound`.
    Compound,
    /// `callable`: an atom or a compound.
    Callable,
}

/// Whether a cell shows a variable.
fn is_variable(cell: Cell) -> bool
    ensures { (h : Heap) → result ≡ is_variable (cell_shown h cell) }
{
    match cell {
        Cell::Var(_) => true,
        Cell::Int(_) => false,
        Cell::Atom(_) => false,
        Cell::Comp { .. } => false,
    }
}

/// Whether a cell shows an integer.
fn is_integer(cell: Cell) -> bool
    ensures { (h : Heap) → result ≡ is_integer (cell_shown h cell) }
{
    match cell {
        Cell::Var(_) => false,
        Cell::Int(_) => true,
        Cell::Atom(_) => false,
        Cell::Comp { .. } => false,
    }
}

/// Whether a cell shows an atom.
fn is_atom(cell: Cell) -> bool
    ensures { (h : Heap) → result ≡ is_atom (cell_shown h cell) }
{
    match cell {
        Cell::Var(_) => false,
        Cell::Int(_) => false,
        Cell::Atom(_) => true,
        Cell::Comp { .. } => false,
    }
}

/// Whether a cell shows a compound.
fn is_compound(cell: Cell) -> bool
    ensures { (h : Heap) → result ≡ is_compound (cell_shown h cell) }
{
    match cell {
        Cell::Var(_) => false,
        Cell::Int(_) => false,
        Cell::Atom(_) => false,
        Cell::Comp { .. } => true,
    }
}

impl Kind {
    /// Whether the term that a cell shows is of this kind.
    fn has(self, cell: Cell) -> bool
        ensures { (h : Heap) → result ≡ is_of self (cell_shown h cell) }
    {
        match self {
            Kind::Variable => is_variable(cell),
            Kind::Nonvariable => !is_variable(cell),
            Kind::Atom => is_atom(cell),
            Kind::Integer => is_integer(cell),
            Kind::Atomic => is_atom(cell) || is_integer(cell),
            Kind::Compound => is_compound(cell),
            Kind::Callable => is_atom(cell) || is_compound(cell),
        }
    }
}

/// Whether the term of a place is of a kind. Takes no memory.
pub fn test_kind<T: Terms>(terms: &T, kind: Kind, x: Ref) -> Outcome
    requires heap { IsHeap (T.heap terms.now) }
    requires x { x.at < length (T.heap terms.now).cells }
    ensures does { Does (T.heap terms.now) (T.heap terms.now)
        (Ok (succeeds (is_of kind (seen (T.heap terms.now) x.at))
        (T.heap terms.now).subst (T.heap terms.now).next)) result }
{
    decided(kind.has(terms.look(x)))
}
