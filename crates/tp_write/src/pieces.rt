//! Pieces of text that are still to be written.

use tp_parse::Op;
use tp_terms::{AtomId, Cell, Ref};

/// What a term is written as. The forms are tried in this order.
#[derive(Clone, Copy)]
pub enum Form {
    /// An element of a list and what follows it.
    Listed,
    /// One argument in braces.
    Braces,
    /// An infix operator between its operands.
    Infix(Op),
    /// A prefix operator before its operand.
    Prefix(Op),
    /// An atomic term, or a name with arguments in parentheses.
    Plain,
}

/// Where a term stands, which tells whether parentheses are needed.
#[derive(Clone, Copy)]
pub enum Position {
    /// Where the largest priority is this.
    Within(u16),
    /// As an operand whose largest priority is this.
    Operand(u16),
    /// As the left operand of this operator.
    Left(Op),
}

/// A piece of the text.
#[derive(Clone, Copy)]
pub enum Piece {
    /// This character.
    Mark(char),
    /// The name of an atom.
    Name(AtomId),
    /// The digits of a number.
    Number(u64),
    /// An integer.
    Integer(i64),
    /// The term of a place.
    Term(Ref, Position),
    /// So many arguments from a place on, with commas between.
    Args(Ref, u8),
    /// What follows an element, for the term of a place.
    Behind(Ref),
}

/// A place at which a chain of bindings ends, and its cell.
#[derive(Clone, Copy)]
pub struct End {
    /// The last place.
    pub place: Ref,
    /// Its cell, which is no bound variable.
    pub cell: Cell,
}
