//! First arguments, by which the clauses of a predicate are told apart.

ghost use Rattle.std.specs.Prelude.{◌≡◌, ◌<◌, length, slice_get, Some};
ghost use Rattle.tp_clauses.specs.Contents.{IsHead};
ghost use Rattle.tp_clauses.specs.First.{first_of_cell, first_of_head, may_match};
ghost use Rattle.tp_clauses.specs.Kinds.{key_of};

use crate::kind::Key;
use tp_terms::{AtomId, Cell, Cells, Ref};

/// A first argument, by its principal functor (ISO/IEC 13211-1, clause 3).
#[derive(Clone, Copy, Debug, PartialEq, Eq, Hash)]
pub enum FirstArg {
    /// A variable, or no argument at all.
    Any,
    /// An integer.
    Int(i64),
    /// An atom.
    Atom(AtomId),
    /// A compound: its name, and how many arguments it has.
    Comp(AtomId, u8),
}

/// A name and a number of arguments, with a first argument.
#[derive(Clone, Copy, Debug, PartialEq, Eq, Hash)]
pub struct FirstKey {
    /// The name and the number of arguments.
    pub key: Key,
    /// The first argument.
    pub first: FirstArg,
}

impl FirstArg {
    /// What the cell of a first argument, which is bound to nothing, stands for.
    pub fn of(cell: Cell) -> FirstArg
        ensures { result ≡ first_of_cell (Some cell) }
    {
        match cell {
            Cell::Var(_) => FirstArg::Any,
            Cell::Int(value) => FirstArg::Int(value),
            Cell::Atom(name) => FirstArg::Atom(name),
            Cell::Comp { name, count, .. } => FirstArg::Comp(name, count),
        }
    }
}

/// The key of a head and its first argument.
pub fn first_key(cells: &Cells, head: Ref) -> FirstKey
    requires within { head.at < length cells.now.items }
    requires named { IsHead (slice_get cells.now.items head.at) }
    ensures key { key_of (slice_get cells.now.items head.at) ≡ Some result.key }
    ensures first { result.first ≡
        first_of_head cells.now.items (slice_get cells.now.items head.at) }
{
    match cells.get(head) {
        Cell::Atom(name) => FirstKey {
            key: Key { name, arity: 0 },
            first: FirstArg::Any,
        },
        Cell::Comp { name, first, count } => FirstKey {
            key: Key { name, arity: count },
            first: FirstArg::of(cells.get(first)),
        },
        _ => unreachable!(),
    }
}

/// Whether a clause of one first argument may match a goal of another.
pub fn may_match(goal: FirstArg, clause: FirstArg) -> bool
    ensures { result ≡ may_match goal clause }
{
    goal == FirstArg::Any || clause == FirstArg::Any || goal == clause
}
