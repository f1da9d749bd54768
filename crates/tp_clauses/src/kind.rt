//! What a read term is, and the heads that clauses may have.

ghost use Rattle.std.specs.Prelude.{◌≡◌, ◌<◌, List, length, slice_get, Some, IfOk};
ghost use Rattle.tp_terms.specs.Term.{Name};
ghost use Rattle.tp_terms.specs.Names.{IsTable};
ghost use Rattle.tp_clauses.specs.Kinds.{binary_read, free_key, head_key, key_of, read_as};
ghost use Rattle.tp_clauses.specs.Kinds.{unary_read};
ghost use Rattle.tp_clauses.specs.Contents.{HasNames};

use crate::fault::Cause;
use tp_meaning::goal_kind;
use tp_terms::symbols::{GRAMMAR, NECK, QUERY};
use tp_terms::{AtomId, Cell, Cells, Ref};

/// What a read term is, by its principal functor.
#[derive(Clone, Copy, Debug, PartialEq, Eq)]
pub enum ReadKind {
    /// A directive `:- Goal`.
    Directive {
        /// The place of the goal.
        goal: Ref,
    },
    /// A query `?- Goal`.
    Query,
    /// A grammar rule.
    Grammar,
    /// A clause with a head and a body.
    Rule {
        /// The place of the head.
        head: Ref,
        /// The place of what stands behind `:-`.
        body: Ref,
    },
    /// A clause that is a head alone.
    Fact,
}

/// A name and a number of arguments.
#[derive(Clone, Copy, Debug, PartialEq, Eq, Hash)]
pub struct Key {
    /// The name.
    pub name: AtomId,
    /// The number of arguments.
    pub arity: u8,
}

/// What the term of a place is.
pub fn kind_of(cells: &Cells, root: Ref) -> ReadKind
    requires { root.at < length cells.now.items }
    ensures { result ≡ read_as (slice_get cells.now.items root.at) }
{
    match cells.get(root) {
        Cell::Comp { name, first, count } => {
            if count == 1 {
                unary_kind(name, first)
            } else if count == 2 {
                binary_kind(name, first, Ref { at: first.at + 1 })
            } else {
                ReadKind::Fact
            }
        }
        _ => ReadKind::Fact,
    }
}

/// What a compound with one argument is.
fn unary_kind(name: AtomId, argument: Ref) -> ReadKind
    ensures { result ≡ unary_read name argument }
{
    if name == NECK {
        ReadKind::Directive { goal: argument }
    } else if name == QUERY {
        ReadKind::Query
    } else {
        ReadKind::Fact
    }
}

/// What a compound with two arguments is.
fn binary_kind(name: AtomId, left: Ref, right: Ref) -> ReadKind
    ensures { result ≡ binary_read name left right }
{
    if name == NECK {
        ReadKind::Rule {
            head: left,
            body: right,
        }
    } else if name == GRAMMAR {
        ReadKind::Grammar
    } else {
        ReadKind::Fact
    }
}

/// The name and the number of arguments that a head defines, or why it can't stand there.
pub fn head_key(cells: &Cells, head: Ref) -> Result<Key, Cause>
    requires { head.at < length cells.now.items }
    ensures head { (names : List Name) → HasNames names cells.now.items →
        result ≡ head_key names (slice_get cells.now.items head.at) }
    ensures key { IfOk result (λ key. key_of (slice_get cells.now.items head.at) ≡ Some key) }
{
    match cells.get(head) {
        Cell::Var(_) => Err(Cause::Head),
        Cell::Int(_) => Err(Cause::Head),
        Cell::Atom(name) => free_key(name, 0),
        Cell::Comp { name, count, .. } => free_key(name, count),
    }
}

/// A name and a number of arguments, where a clause may define them.
fn free_key(name: AtomId, arity: u8) -> Result<Key, Cause>
    ensures free { (names : List Name) → IsTable names → name.at < length names →
        result ≡ free_key names name arity }
    ensures key { IfOk result (λ key. key ≡ record { name = name; arity = arity }) }
{
    match goal_kind(name, arity) {
        Some(_) => Err(Cause::Builtin),
        None => Ok(Key { name, arity }),
    }
}
