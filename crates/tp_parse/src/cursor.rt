//! The words that are left.

ghost use Rattle.std.specs.Prelude.{◌≡◌, ◌<◌, ◌≤◌, ℕ, List, Some, length, IfErr, OnErr, OnOk};
ghost use Rattle.tp_parse.specs.Gives.{GivesBehind};
ghost use Rattle.tp_parse.specs.Reading.{behind, closes_by};
ghost use Rattle.tp_parse.specs.Steps.{infix_word, label_by, labelled};
ghost use Rattle.tp_parse.specs.Words.{after_word, ahead, atom_before, atom_by, first_word};
ghost use Rattle.tp_parse.specs.Words.{infix_alone, integer_by, kind_of, opens_by};

use crate::fault::ReadCause;
use crate::steps::Label;
use crate::stop::Stop;
use crate::table::Op;
use crate::words::{Word, written};
use std::marker::Model;
use tp_lex::TokenKind;

/// The words that are left.
#[derive(Drop)]
pub struct Cursor<'a> {
    left: &'a [Word],
}

impl<'a> Model for Cursor<'a> {
    ghost use Rattle.std.specs.Prelude.{List};
    ghost use Rattle.tp_parse.specs.declared.words.Word.{Word};

    ghost Value = { List Word };

    ghost view = { λ c. c.left.now };
}

impl<'a> Cursor<'a> {
    pub fn new(words: &'a [Word]) -> Self
        ensures { result ≡ words.now }
    {
        Cursor { left: words }
    }

    /// The next word, which stays.
    pub fn first(&self) -> Option<Word>
        ensures { result ≡ first_word self.now }
    {
        self.left.first().copied()
    }

    /// How many words are left.
    pub fn len(&self) -> usize
        ensures { result ≡ length self.now }
    {
        self.left.len()
    }

    /// The word behind the next one.
    fn second(&self) -> Option<Word>
        ensures { result ≡ first_word (after_word self.now) }
    {
        self.left.get(1).copied()
    }

    /// The next word's kind.
    pub fn kind(&self) -> Option<TokenKind>
        ensures { result ≡ kind_of (first_word self.now) }
    {
        match self.first() {
            Some(word) => Some(word.token.kind),
            None => None,
        }
    }

    /// Passes a word.
    pub fn pass(&mut self)
        ensures { self.new ≡ after_word self.old }
    {
        if let Some((_, rest)) = self.left.split_first() {
            self.left = rest;
        }
    }

    /// Whether an open parenthesis stands there, directly after the token before.
    pub fn opens_directly(&self) -> bool
        ensures { result ≡ opens_by (first_word self.now) }
    {
        opens(self.first())
    }

    /// Whether an integer stands there, directly after the token before.
    pub fn is_integer_directly(&self) -> bool
        ensures { result ≡ integer_by (first_word self.now) }
    {
        match self.first() {
            Some(word) => word.token.kind == TokenKind::Integer && word.direct,
            None => false,
        }
    }

    /// The infix operator that stands there, with its name.
    pub fn infix(&self) -> Option<(Label, Op)>
        ensures { result ≡ infix_word (first_word self.now) }
    {
        match self.first() {
            Some(word) => labelled(word),
            None => None,
        }
    }

    /// Whether the name of a prefix operator is an atom before the next words.
    pub fn makes_atom(&self) -> bool
        ensures { result ≡ atom_before (first_word self.now) (first_word (after_word self.now)) }
    {
        match self.first() {
            Some(word) => ends_operator(word, self.second()),
            None => false,
        }
    }

    /// Passes the closing token that must stand there.
    #[tactic(auto, unfolding(crate::specs::Reading::behind))]
    pub fn pass_closing(&mut self, closing: TokenKind) -> Result<(), Stop>
        ensures behind { (text : List ℕ) →
            GivesBehind (ahead text self.new) result (behind closing (ahead text self.old)) }
        ensures ok { OnOk result (self.new ≡ after_word self.old) }
        ensures memory { IfErr result (λ stop. ¬ (stop ≡ Stop.NoMemory)) }
        ensures err { OnErr result (self.new ≡ self.old) }
        ensures shorter { OnOk result (length self.new < length self.old) }
    {
        if self.closes(closing) {
            self.pass();
            return Ok(());
        }
        Err(Stop::At(ReadCause::Syntax))
    }

    /// Whether this closing token stands there.
    pub fn closes(&self, closing: TokenKind) -> bool
        ensures { result ≡ closes_by closing (kind_of (first_word self.now)) }
    {
        match self.kind() {
            Some(kind) => closes(closing, kind),
            None => false,
        }
    }
}

fn closes(closing: TokenKind, kind: TokenKind) -> bool
    ensures { result ≡ closes_by closing (Some kind) }
{
    match closing {
        TokenKind::Close => kind == TokenKind::Close,
        TokenKind::CloseList => kind == TokenKind::CloseList,
        TokenKind::CloseCurly => kind == TokenKind::CloseCurly,
        _ => false,
    }
}

fn opens(word: Option<Word>) -> bool
    ensures { result ≡ opens_by word }
{
    match word {
        Some(word) => word.token.kind == TokenKind::Open && word.direct,
        None => false,
    }
}

fn label(word: Word) -> Label
    ensures { result ≡ label_by word.token.kind word.token }
{
    match word.token.kind {
        TokenKind::Comma => Label::Comma,
        _ => written(word),
    }
}

fn labelled(word: Word) -> Option<(Label, Op)>
    ensures { result ≡ labelled word word.as_infix }
{
    match word.as_infix {
        Some(op) => Some((label(word), op)),
        None => None,
    }
}

/// Whether the name before this word, of a prefix operator, is an atom.
fn ends_operator(word: Word, second: Option<Word>) -> bool
    ensures { result ≡ atom_by word.token.kind word (opens_by second) }
{
    match word.token.kind {
        TokenKind::Close
        | TokenKind::CloseList
        | TokenKind::CloseCurly
        | TokenKind::Comma
        | TokenKind::Bar
        | TokenKind::End => true,
        TokenKind::Name | TokenKind::Quoted => is_infix_alone(word) && !opens(second),
        _ => false,
    }
}

/// Whether a word is an infix operator and no prefix operator.
fn is_infix_alone(word: Word) -> bool
    ensures { result ≡ infix_alone word }
{
    word.as_infix.is_some() && word.as_prefix.is_none()
}
