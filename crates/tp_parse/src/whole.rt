//! Whole clauses and goals, from their words.

ghost use Rattle.std.specs.Prelude.{◌≡◌, ℕ, List, [], ◌<◌, length, Err, IfErr, IfOk, OnErr, OnOk};
ghost use Rattle.tp_lex.specs.Tokens.{is_end};
ghost use Rattle.tp_terms.specs.Names.{Grows};
ghost use Rattle.tp_parse.specs.NewNames.{AddsOnly, mentions};
ghost use Rattle.tp_parse.specs.Progress.{ahead_in, ops_of};
ghost use Rattle.tp_parse.specs.Reading.{finished};
ghost use Rattle.tp_parse.specs.Tells.{term_read};
ghost use Rattle.tp_parse.specs.Texts.{byte_at};
ghost use Rattle.tp_parse.specs.Tree.{Tree};
ghost use Rattle.tp_parse.specs.Whole.{GivesEnd, GivesWhole, TellsSteps, TellsWhole, ended_of};
ghost use Rattle.tp_parse.specs.Whole.{ends_of, reading_of, to_of};
ghost use Rattle.tp_parse.specs.Words.{AreKnown, ahead};

use crate::build::build;
use crate::cursor::Cursor;
use crate::fault::{ReadCause, ReadFault};
use crate::progress::Progress;
use crate::read::ReadTerm;
use crate::reader::read;
use crate::steps::Step;
use crate::stop::Stop;
use crate::words::{Extent, Source, Word};
use tp_lex::TokenKind;
use tp_terms::{Atoms, NoMemory};

/// The most levels of depth of a term.
const MOST_LEVELS: u16 = 1000;

/// The largest priority of a clause or a goal.
const MOST_PRIORITY: u16 = 1200;

/// Nothing is left.
fn finish(cursor: &Cursor<'_>) -> Result<(), Stop>
    ensures end { (text : List ℕ) (tree : Tree) → let ts = ahead text cursor.now in
        GivesEnd tree ts result (finished tree ts) }
    ensures memory { IfErr result (λ stop. ¬ (stop ≡ Stop.NoMemory)) }
{
    match cursor.first() {
        Some(_) => Err(Stop::At(ReadCause::Syntax)),
        None => Ok(()),
    }
}

/// The end of a clause or a goal.
fn read_end(cursor: &mut Cursor<'_>, extent: Extent) -> Result<(), Stop>
    ensures end { (text : List ℕ) (tree : Tree) → GivesEnd tree (ahead text cursor.new) result
        (ends_of extent tree (ahead text cursor.old)) }
    ensures memory { IfErr result (λ stop. ¬ (stop ≡ Stop.NoMemory)) }
{
    let Some(word) = cursor.first() else {
        return match extent {
            Extent::Whole => Ok(()),
            Extent::Clause => Err(Stop::At(ReadCause::Syntax)),
        };
    };
    if word.token.kind == TokenKind::End {
        cursor.pass();
        return finish(cursor);
    }
    Err(Stop::At(ReadCause::Syntax))
}

/// Reads all words.
fn read_all(source: &Source<'_>, at: &mut Progress<'_>, extent: Extent) -> Result<(), Stop>
    requires known { AreKnown (ops_of source.now) source.now.text.now at.old.cursor }
    requires none { at.old.steps.items ≡ [] }
    ensures whole { GivesWhole source.now.text.now at.new.steps.items (ahead_in source.now at.new)
        result (reading_of extent (ops_of source.now) (ahead_in source.now at.old)) }
    ensures memory { result ≡ Err Stop.NoMemory → 0 < length at.old.cursor }
    ensures some { OnOk result (0 < length at.old.cursor) }
{
    read(source, at, MOST_PRIORITY, MOST_LEVELS)?;
    read_end(&mut at.cursor, extent)
}

/// The byte of the next word, and that of the text's end where there is none.
fn next_byte(cursor: &Cursor<'_>, end: usize) -> usize
    ensures { (text : List ℕ) → result ≡ byte_at end (ahead text cursor.now) }
{
    match cursor.first() {
        Some(word) => word.token.from,
        None => end,
    }
}

/// The most steps that room is made for before any is taken.
const MOST_ROOM: usize = 1024;

/// Room for the steps of so many words, of which most terms have as many or fewer.
fn room_for(source: &Source<'_>, words: usize) -> Result<Vec<Step>, NoMemory>
    ensures none { IfOk result (λ steps. steps.items ≡ []) }
    ensures some { OnErr result (0 < words) }
{
    let mut steps = Vec::new(source.alloc);
    if words > 0 {
        steps.reserve(words.min(MOST_ROOM))?;
    }
    Ok(steps)
}

/// The steps of the term that all words are.
fn steps_of(source: &Source<'_>, words: &[Word], extent: Extent) -> Result<Vec<Step>, ReadFault>
    requires { AreKnown (ops_of source.now) source.now.text.now words.now }
    ensures tells { let text = source.now.text.now in TellsSteps (λ v. v.items) text result
        (reading_of extent (ops_of source.now) (ahead text words.now)) }
    ensures memory { result ≡ Err ReadFault.NoMemory → 0 < length words.now }
    ensures some { OnOk result (0 < length words.now) }
{
    let mut at = Progress {
        cursor: Cursor::new(words),
        steps: room_for(source, words.len())?,
    };
    match read_all(source, &mut at, extent) {
        Ok(()) => Ok(at.steps),
        Err(Stop::NoMemory) => Err(ReadFault::NoMemory),
        Err(Stop::At(cause)) => Err(ReadFault::Refused {
            byte: next_byte(&at.cursor, source.text.len()),
            cause,
        }),
    }
}

/// The byte at which the first word begins, and that of the text's end where there is none.
fn first_byte(words: &[Word], end: usize) -> usize
    ensures { (text : List ℕ) → result ≡ byte_at end (ahead text words.now) }
{
    match words.first() {
        Some(word) => word.token.from,
        None => end,
    }
}

/// The byte after the last word, and that of the text's end where there is none.
fn last_byte(words: &[Word], end: usize) -> usize
    ensures { (text : List ℕ) → result ≡ to_of end (ahead text words.now) }
{
    match words.last() {
        Some(word) => word.token.to,
        None => end,
    }
}

fn is_end(kind: TokenKind) -> bool
    ensures { result ≡ is_end kind }
{
    kind == TokenKind::End
}

/// Whether the last word is an end token; none where there is no word.
pub fn is_ended(words: &[Word]) -> Option<bool>
    ensures { (text : List ℕ) → result ≡ ended_of (ahead text words.now) }
{
    match words.last() {
        Some(word) => Some(is_end(word.token.kind)),
        None => None,
    }
}

/// The byte at which the first word begins, and the byte after the last.
fn span(words: &[Word], end: usize) -> (usize, usize)
    ensures from { (text : List ℕ) → result.0 ≡ byte_at end (ahead text words.now) }
    ensures to { (text : List ℕ) → result.1 ≡ to_of end (ahead text words.now) }
{
    (first_byte(words, end), last_byte(words, end))
}

/// The term that all words are. The words are let go before its cells are made.
pub fn read_words(
    source: &Source<'_>,
    words: Vec<Word>,
    extent: Extent,
    atoms: &mut Atoms,
) -> Result<ReadTerm, ReadFault>
    requires { AreKnown (ops_of source.now) source.now.text.now words.items }
    ensures read { let text = source.now.text.now in let ts = ahead text words.items in
        TellsWhole atoms.new text ts result (reading_of extent (ops_of source.now) ts) }
    ensures grows { Grows atoms.old atoms.new }
    ensures names { IfOk result (λ term.
        AddsOnly (λ name. mentions name (term_read atoms.new term)) atoms.old atoms.new) }
    ensures memory { result ≡ Err ReadFault.NoMemory → 0 < length words.items }
{
    let (from, to) = span(&words, source.text.len());
    let steps = steps_of(source, &words, extent)?;
    drop(words);
    let (cells, root, variables) = build(source.alloc, source.text, &steps, atoms)?;
    let vars = variables.count();
    let named = variables.into_names()?;
    Ok(ReadTerm {
        cells,
        root,
        named,
        vars,
        from,
        to,
    })
}
