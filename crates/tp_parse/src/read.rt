//! Clauses and goals, read from a text.

ghost use Rattle.std.specs.Prelude.{◌≡◌, None, Ok, Err, IfOk, IfSome};
ghost use Rattle.std.specs.Str.{IsCharBoundary};
ghost use Rattle.tp_terms.specs.Names.{Grows};
ghost use Rattle.tp_parse.specs.NewNames.{AddsOnly, mentions};
ghost use Rattle.tp_parse.specs.Ops.{table_of};
ghost use Rattle.tp_parse.specs.Tells.{TellsClause, TellsGoal, term_read};
ghost use Rattle.tp_parse.specs.Texts.{HasToken, clause_of, goal_of};

use crate::fault::{ReadCause, ReadFault};
use crate::table::Ops;
use crate::whole::{is_ended, read_words};
use crate::words::{Extent, Source, take_words};
use std::alloc::Global;
use tp_terms::{Atoms, Cells, Names, Ref};

/// A term that was read (ISO/IEC 13211-1, clause 6.2). Its variables are numbered from 0 in order
/// of first occurrence, each `_` having a number of its own.
#[derive(Drop)]
pub struct ReadTerm {
    /// The cells of the term.
    pub cells: Cells,
    /// The place of the term.
    pub root: Ref,
    /// The variables other than `_` with their numbers, in order of first occurrence.
    pub named: Names,
    /// How many variables there are, each `_` counted.
    pub vars: u64,
    /// The byte at which the first token begins, from 0.
    pub from: usize,
    /// The byte after the last token, the end token included where it is there.
    pub to: usize,
}

/// The clause that stands in the text from a byte on, up to and with its end token; none where no
/// token remains, and then `atoms` is as before. The operators are those of `ops`. The names that
/// are added to `atoms` are names of the term.
///
/// # Errors
/// `Refused` with the byte and the cause where the text has no clause there, and `NoMemory` where
/// memory was refused, which comes only where a token stands behind the byte. Both may leave new
/// names in `atoms`; no name changes its place.
pub fn read_clause(
    alloc: Global,
    text: &str,
    at: usize,
    ops: &Ops,
    atoms: &mut Atoms,
) -> Result<Option<ReadTerm>, ReadFault>
    requires { IsCharBoundary text.now at }
    ensures read { TellsClause atoms.new result (clause_of (table_of ops.now) text.now at) }
    ensures grows { Grows atoms.old atoms.new }
    ensures none { result ≡ Ok None → atoms.new ≡ atoms.old }
    ensures names { IfOk result (λ found. IfSome found (λ term.
        AddsOnly (λ name. mentions name (term_read atoms.new term)) atoms.old atoms.new)) }
    ensures memory { result ≡ Err ReadFault.NoMemory → HasToken text.now at }
{
    let source = Source { alloc, text, ops };
    let words = take_words(&source, at, Extent::Clause)?;
    match is_ended(&words) {
        None => Ok(None),
        Some(false) => Err(ReadFault::Refused {
            byte: text.len(),
            cause: ReadCause::Unfinished,
        }),
        Some(true) => {
            let term = read_words(&source, words, Extent::Clause, atoms)?;
            Ok(Some(term))
        }
    }
}

/// The goal that the whole text is. An end token may close it.
///
/// # Errors
/// As `read_clause`.
pub fn read_goal(
    alloc: Global,
    text: &str,
    ops: &Ops,
    atoms: &mut Atoms,
) -> Result<ReadTerm, ReadFault>
    ensures read { TellsGoal atoms.new result (goal_of (table_of ops.now) text.now) }
    ensures grows { Grows atoms.old atoms.new }
    ensures names { IfOk result (λ term.
        AddsOnly (λ name. mentions name (term_read atoms.new term)) atoms.old atoms.new) }
    ensures memory { result ≡ Err ReadFault.NoMemory → HasToken text.now 0 }
{
    let source = Source { alloc, text, ops };
    let words = take_words(&source, 0, Extent::Whole)?;
    read_words(&source, words, Extent::Whole, atoms)
}
