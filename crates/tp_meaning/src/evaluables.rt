//! The operations of arithmetic, and the names that stand for them.

ghost use Rattle.std.specs.Prelude.{◌≡◌, ◌<◌, List, Some, length, slice_get};
ghost use Rattle.tp_terms.specs.Term.{Name};
ghost use Rattle.tp_terms.specs.Names.{IsTable};
ghost use Rattle.tp_terms.specs.Shown.{name_at};
ghost use Rattle.tp_meaning.specs.Arith.{operations_of};

use tp_terms::AtomId;
use tp_terms::symbols::PLUS;

/// An operation on one number (ISO/IEC 13211-1, clauses 9.1 and 9.4).
#[derive(Clone, Copy, Debug, PartialEq, Eq)]
pub enum UnaryOperation {
    /// `-`, the negation.
    Negate,
    /// `\`, the bits of two's complement turned over.
    BitNot,
    /// `abs`.
    Abs,
    /// `sign`: -1, 0 or 1.
    Sign,
}

/// An operation on two numbers (ISO/IEC 13211-1, clauses 9.1 and 9.4; `div`, `min` and `max` of its
/// second corrigendum).
#[derive(Clone, Copy, Debug, PartialEq, Eq)]
pub enum BinaryOperation {
    /// `+`.
    Add,
    /// `-`, the difference.
    Subtract,
    /// `*`.
    Multiply,
    /// `//`, the quotient toward zero.
    Quotient,
    /// `div`, the quotient toward minus infinity.
    FloorQuotient,
    /// `mod`, what `div` leaves.
    Modulus,
    /// `rem`, what `//` leaves.
    Remainder,
    /// `/\`, both bits of two's complement.
    BitAnd,
    /// `\/`, either bit of two's complement.
    BitOr,
    /// `<<`, times a power of two.
    ShiftLeft,
    /// `>>`, divided by a power of two, toward minus infinity.
    ShiftRight,
    /// `min`.
    Min,
    /// `max`.
    Max,
}

/// The operations of each name, with one argument and with two. The names stand side by side in
/// every table of names, `+` first.
const OPERATIONS: [(Option<UnaryOperation>, Option<BinaryOperation>); 16] = [
    (None, Some(BinaryOperation::Add)),
    (
        Some(UnaryOperation::Negate),
        Some(BinaryOperation::Subtract),
    ),
    (None, Some(BinaryOperation::Multiply)),
    (None, Some(BinaryOperation::Quotient)),
    (None, Some(BinaryOperation::FloorQuotient)),
    (None, Some(BinaryOperation::Modulus)),
    (None, Some(BinaryOperation::Remainder)),
    (None, Some(BinaryOperation::BitAnd)),
    (None, Some(BinaryOperation::BitOr)),
    (Some(UnaryOperation::BitNot), None),
    (None, Some(BinaryOperation::ShiftLeft)),
    (None, Some(BinaryOperation::ShiftRight)),
    (Some(UnaryOperation::Abs), None),
    (Some(UnaryOperation::Sign), None),
    (None, Some(BinaryOperation::Min)),
    (None, Some(BinaryOperation::Max)),
];

/// The operations at a place.
fn operations_at(place: usize) -> (Option<UnaryOperation>, Option<BinaryOperation>)
    requires { place < length OPERATIONS }
    ensures { slice_get OPERATIONS place ≡ Some result }
{
    OPERATIONS[place]
}

/// The operations that a name stands for, with one argument and with two, where there are any.
/// Takes the same time for every name.
pub fn operations(name: AtomId) -> (Option<UnaryOperation>, Option<BinaryOperation>)
    ensures { (names : List Name) → IsTable names → name.at < length names →
        result ≡ operations_of (name_at names name.at) }
{
    if name.at < PLUS.at {
        return (None, None);
    }
    let place = (name.at - PLUS.at) as usize;
    if place >= OPERATIONS.len() {
        return (None, None);
    }
    operations_at(place)
}
