//! The pieces of a line.

ghost use Rattle.tp_terms.specs.Added.{Adds};
ghost use Rattle.tp_report.specs.Pieces.{piece_text, pieces_text};

use crate::doer::add_doer;
use itoa::Buffer;
use tp_terms::{NoMemory, push_text};
use tp_write::write_name;

/// A piece of a line.
#[derive(Clone, Copy)]
pub enum Piece<'a> {
    /// These characters as they stand.
    Text(&'a str),
    /// A number of things, in decimal digits.
    Count(u64),
    /// An integer, in decimal digits.
    Integer(i64),
    /// A name as an argument.
    Name(&'a str),
    /// The name of the process that did an event.
    Doer(&'a str),
}

/// Adds a count.
fn add_count(count: u64, out: &mut String) -> Result<(), NoMemory>
    ensures added { Adds out.old out.new result (piece_text (Piece.Count count)) }
{
    let mut buffer = Buffer::new();
    push_text(buffer.format(count), out)
}

/// Adds an integer.
fn add_integer(value: i64, out: &mut String) -> Result<(), NoMemory>
    ensures added { Adds out.old out.new result (piece_text (Piece.Integer value)) }
{
    let mut buffer = Buffer::new();
    push_text(buffer.format(value), out)
}

/// Adds a piece.
fn add_piece(piece: &Piece<'_>, out: &mut String) -> Result<(), NoMemory>
    ensures added { Adds out.old out.new result (piece_text piece.now) }
{
    match piece {
        Piece::Text(text) => push_text(text, out),
        Piece::Count(count) => add_count(*count, out),
        Piece::Integer(value) => add_integer(*value, out),
        Piece::Name(name) => write_name(name, out),
        Piece::Doer(name) => add_doer(name, out),
    }
}

/// Adds pieces one behind the other.
pub fn add_pieces(pieces: &[Piece<'_>], out: &mut String) -> Result<(), NoMemory>
    ensures added { Adds out.old out.new result (pieces_text pieces.now) }
{
    for piece in pieces {
        add_piece(piece, out)?;
    }
    Ok(())
}
