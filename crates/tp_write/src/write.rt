//! Writing terms: a list of pieces in place of recursion.

ghost use Rattle.std.specs.Prelude.{◌≡◌, ◌<◌, OnOk, length, decimal};
ghost use Rattle.std.specs.Fmt.{signed_decimal};
ghost use Rattle.tp_terms.specs.Added.{Adds};
ghost use Rattle.tp_terms.specs.Binds.{Fits};
ghost use Rattle.tp_terms.specs.Shown.{AreNamed};
ghost use Rattle.tp_parse.specs.Ops.{table_of};
ghost use Rattle.tp_write.specs.Text.{text};
ghost use Rattle.tp_write.specs.Under.{under};
ghost use Rattle.tp_write.specs.Work.{ArePieces, Ends, IsPiece, Stepped, next_of, own_text};

use crate::expand::{expand_args, expand_behind, expand_term};
use crate::names::write_name;
use crate::pieces::{End, Piece, Position};
use itoa::Buffer;
use std::alloc::Global;
use tp_parse::Ops;
use tp_terms::{Atoms, Binds, Cell, Cells, NoMemory, Ref, push_char, push_text};

/// What a term is written from: cells with the bindings of their variables, under operators.
#[derive(Drop)]
struct Source<'a, B: Binds> {
    cells: &'a Cells,
    binds: &'a B,
    ops: &'a Ops,
    atoms: &'a Atoms,
}

/// The place that a bound variable leads to.
fn next_of<B: Binds>(cell: Cell, binds: &B) -> Option<Ref>
    ensures { result ≡ next_of (B.bindings binds.now) cell }
{
    match cell {
        Cell::Var(number) => binds.bound(number),
        _ => None,
    }
}

/// Follows bindings from a place.
fn end<B: Binds>(cells: &Cells, binds: &B, at: Ref) -> End
    requires place { at.at < length cells.now.items }
    requires fits { Fits (B.bindings binds.now) cells.now.items }
    ensures { Ends (B.bindings binds.now) cells.now.items at.at result }
{
    let mut place = at;
    let mut cell = cells.get(place);
    'chain: while let Some(next) = next_of(cell, binds) {
        place = next;
        cell = cells.get(place);
    }
    End { place, cell }
}

/// Adds the digits of a number.
fn push_number(number: u64, out: &mut String) -> Result<(), NoMemory>
    ensures added { Adds out.old out.new result (decimal number) }
{
    let mut buffer = Buffer::new();
    push_text(buffer.format(number), out)
}

/// Adds an integer.
fn push_integer(value: i64, out: &mut String) -> Result<(), NoMemory>
    ensures added { Adds out.old out.new result (signed_decimal value) }
{
    let mut buffer = Buffer::new();
    push_text(buffer.format(value), out)
}

/// Writes a piece, or puts pieces in its place.
fn step<B: Binds>(
    piece: Piece,
    source: &Source<'_, B>,
    stack: &mut Vec<Piece>,
    out: &mut String,
) -> Result<(), NoMemory>
    requires piece { IsPiece (length source.now.atoms.now) source.now.cells.now.items piece }
    requires pieces { let source = source.now in
        ArePieces (length source.atoms.now) source.cells.now.items stack.old.items }
    requires named { AreNamed (length source.now.atoms.now) source.now.cells.now.items }
    requires fits { Fits (B.bindings source.now.binds.now) source.now.cells.now.items }
    ensures added { Adds out.old out.new result (own_text source.now.atoms.now piece) }
    ensures step { let source = source.now in OnOk result
        (Stepped (table_of source.ops.now) source.atoms.now (B.bindings source.binds.now)
        source.cells.now.items piece stack.old.items stack.new.items) }
{
    match piece {
        Piece::Mark(c) => push_char(c, out),
        Piece::Name(name) => write_name(source.atoms.name(name), out),
        Piece::Number(number) => push_number(number, out),
        Piece::Integer(value) => push_integer(value, out),
        Piece::Term(at, position) => {
            let end = end(source.cells, source.binds, at);
            expand_term(end, position, source.ops, source.atoms, stack)
        }
        Piece::Args(first, count) => expand_args(first, count, stack),
        Piece::Behind(at) => {
            expand_behind(end(source.cells, source.binds, at), source.atoms, stack)
        }
    }
}

/// Adds the written form of the term of a place with all bindings followed, in parentheses where
/// its priority is above `max`.
///
/// # Errors
/// `NoMemory` where memory was refused; then a prefix of the text was added.
#[allow(clippy::too_many_arguments)]
pub fn write_term<B: Binds>(
    alloc: Global,
    cells: &Cells,
    root: Ref,
    binds: &B,
    max: u16,
    ops: &Ops,
    atoms: &Atoms,
    out: &mut String,
) -> Result<(), NoMemory>
    requires root { root.at < length cells.now.items }
    requires named { AreNamed (length atoms.now) cells.now.items }
    requires fits { Fits (B.bindings binds.now) cells.now.items }
    ensures added { Adds out.old out.new result (text (table_of ops.now) max
        (under atoms.now (B.bindings binds.now) cells.now.items root.at)) }
{
    let source = Source {
        cells,
        binds,
        ops,
        atoms,
    };
    let mut stack = Vec::new(alloc);
    stack.push(Piece::Term(root, Position::Within(max)))?;
    'pieces: while let Some(piece) = stack.pop() {
        step(piece, &source, &mut stack, out)?;
    }
    Ok(())
}
