//! Checks of a term, by the cell that its place shows once bindings are followed.

ghost use Rattle.std.specs.Prelude.{ℕ};
ghost use Rattle.tp_meaning.specs.Checks.{atomic, bound, integer, natural};
ghost use Rattle.tp_meaning.specs.Heap.{Heap, IsTop, seen};
ghost use Rattle.tp_build.specs.Errors.{Finds, itself};
ghost use Rattle.tp_build.specs.Names.{IsNameOf, fitting_arity, natural_in};
ghost use Rattle.tp_build.specs.Rows.{IsRow};

use crate::errors::{Fault, Limit, WantedDomain, WantedType};
use tp_terms::{AtomId, Cell, Ref};

/// No unbound variable.
pub fn bound(cell: Cell) -> Result<(), Fault>
    ensures { (h : Heap) (at : ℕ) → IsTop h at cell →
        Finds h (bound (seen h at)) itself result }
{
    match cell {
        Cell::Var(_) => Err(Fault::Unbound),
        _ => Ok(()),
    }
}

/// The value of an integer.
pub fn integer(cell: Cell) -> Result<i64, Fault>
    ensures { (h : Heap) (at : ℕ) → IsTop h at cell →
        Finds h (integer (seen h at)) itself result }
{
    match cell {
        Cell::Int(value) => Ok(value),
        _ => Err(Fault::Type(WantedType::Integer, cell)),
    }
}

/// A number that isn't negative.
pub fn natural(value: i64) -> Result<u64, Fault>
    ensures { (h : Heap) → Finds h (natural value) itself result }
{
    if value < 0 {
        Err(Fault::Domain(WantedDomain::NotLessThanZero, Cell::Int(value)))
    } else {
        Ok(value as u64)
    }
}

/// The arguments of a compound: `count` places from `first` on.
#[derive(Clone, Copy, Debug, PartialEq, Eq)]
pub struct Row {
    /// The first argument's place.
    pub first: Ref,
    /// How many there are.
    pub count: u8,
}

/// Where the arguments of a compound stand.
pub fn arguments(cell: Cell) -> Result<Row, Fault>
    ensures { IsRow cell result }
{
    match cell {
        Cell::Comp { first, count, .. } => Ok(Row { first, count }),
        _ => Err(Fault::Type(WantedType::Compound, cell)),
    }
}

/// The value of an integer that isn't negative, where the cell is an integer's.
pub fn natural_in(cell: Cell) -> Result<u64, Fault>
    ensures { (h : Heap) (at : ℕ) → IsTop h at cell →
        Finds h (natural_in (seen h at)) itself result }
{
    let value = integer(cell)?;
    natural(value)
}

/// No compound.
pub fn atomic(cell: Cell) -> Result<(), Fault>
    ensures { (h : Heap) (at : ℕ) → IsTop h at cell →
        Finds h (atomic (seen h at)) itself result }
{
    match cell {
        Cell::Comp { .. } => Err(Fault::Type(WantedType::Atomic, cell)),
        _ => Ok(()),
    }
}

/// The place of an atom's name.
pub fn name_in(cell: Cell) -> Result<AtomId, Fault>
    ensures { IsNameOf cell result }
{
    match cell {
        Cell::Atom(name) => Ok(name),
        _ => Err(Fault::Type(WantedType::Atom, cell)),
    }
}

/// A number of arguments that a compound may have.
pub fn arity(count: u64) -> Result<u8, Fault>
    ensures { (h : Heap) → Finds h (fitting_arity count) itself result }
{
    if count > 255 {
        Err(Fault::Representation(Limit::MaxArity))
    } else {
        Ok(count as u8)
    }
}
