//! The tokens of a clause or a goal, with the operators of their names.

ghost use Rattle.std.specs.Prelude.{◌≡◌, ℕ, ◌&&◌, chars, IfOk, IfSome, IsTrue, Option, Some, None};
ghost use Rattle.std.specs.Prelude.{Err, OnOk, OnSome, [], ◌∷◌, ◌++◌, ◌<◌, length};
ghost use Rattle.std.specs.Str.{IsCharBoundary};
ghost use Rattle.tp_lex.specs.Form.{has_name};
ghost use Rattle.tp_lex.specs.Next.{IsTokenOf, StandsBehind, token_name};
ghost use Rattle.tp_lex.specs.Tokens.{Reach, stands_directly, stops_at, tokens_from};
ghost use Rattle.tp_parse.specs.Progress.{IsWordOf, ops_of};
ghost use Rattle.tp_parse.specs.Steps.{written};
ghost use Rattle.tp_parse.specs.Texts.{HasToken};
ghost use Rattle.tp_parse.specs.Words.{AreKnown, TellsNext, TellsWords, infix_by, prefix_by};
ghost use Rattle.tp_parse.specs.Words.{reach_of};

use crate::fault::ReadFault;
use crate::steps::Label;
use crate::table::{Op, Ops};
use std::alloc::Global;
use tp_lex::{Token, TokenKind, next_token, token_text};
use tp_terms::NoMemory;

/// A token, with what the table of operators holds of its name.
#[derive(Clone, Copy)]
pub struct Word {
    pub token: Token,
    /// Whether it stands directly after the token before.
    pub direct: bool,
    /// The prefix operator of its name.
    pub as_prefix: Option<Op>,
    /// The infix operator of its name.
    pub as_infix: Option<Op>,
}

/// Where terms are read from.
#[derive(Drop)]
pub struct Source<'a> {
    pub alloc: Global,
    pub text: &'a str,
    pub ops: &'a Ops,
}

/// How far tokens are taken.
#[derive(Clone, Copy)]
pub enum Extent {
    /// Up to and with the first end token.
    Clause,
    /// To the end of the text.
    Whole,
}

impl Extent {
    /// Whether a token of this kind is the last.
    fn stops_at(self, kind: TokenKind) -> bool
        ensures { result ≡ stops_at (reach_of self) kind }
    {
        match self {
            Extent::Clause => kind == TokenKind::End,
            Extent::Whole => false,
        }
    }
}

/// The name of a word, as a label.
pub fn written(word: Word) -> Label
    ensures { result ≡ written word.token }
{
    let Token { kind, from, to } = word.token;
    Label::Written { kind, from, to }
}

/// The name of a token that is written without quotes.
pub fn plain_name<'a>(text: &'a str, token: &Token) -> &'a str
    requires given { IsTokenOf text.now token.now }
    requires named { IsTrue (has_name token.now.kind) }
    requires unquoted { ¬ (token.now.kind ≡ TokenKind.Quoted) }
    requires no_codes { ¬ (token.now.kind ≡ TokenKind.Codes) }
    ensures { chars result.now ≡ token_name text.now token.now }
{
    &text[token.from..token.to]
}

/// The prefix operator and the infix operator of a token's name.
#[inline(always)]
fn operators(source: &Source<'_>, token: Token) -> Result<(Option<Op>, Option<Op>), NoMemory>
    requires { IsTokenOf source.now.text.now token }
    ensures before { let name = token_name source.now.text.now token in
        IfOk result (λ r. r.0 ≡ prefix_by (ops_of source.now) token.kind name) }
    ensures between { let name = token_name source.now.text.now token in
        IfOk result (λ r. r.1 ≡ infix_by (ops_of source.now) token.kind name) }
{
    match token.kind {
        TokenKind::Name => {
            let name = plain_name(source.text, &token);
            Ok((source.ops.prefix(name), source.ops.infix(name)))
        }
        TokenKind::Quoted => {
            let name = token_text(source.alloc, source.text, &token)?;
            Ok((
                source.ops.prefix(name.as_str()),
                source.ops.infix(name.as_str()),
            ))
        }
        TokenKind::Comma => Ok((None, source.ops.comma())),
        _ => Ok((None, None)),
    }
}

/// The word of a token.
#[inline(always)]
fn make_word(source: &Source<'_>, token: Token, direct: bool) -> Result<Word, NoMemory>
    requires { IsTokenOf source.now.text.now token }
    ensures token { IfOk result (λ w. w.token ≡ token) }
    ensures direct { IfOk result (λ w. w.direct ≡ direct) }
    ensures known { IfOk result (IsWordOf source.now) }
{
    let (as_prefix, as_infix) = operators(source, token)?;
    Ok(Word {
        token,
        direct,
        as_prefix,
        as_infix,
    })
}

/// Whether a token that begins at a byte stands directly after one that ends there.
#[inline(always)]
fn stands_directly(end: Option<usize>, from: usize) -> bool
    ensures { result ≡ stands_directly end from }
{
    match end {
        Some(end) => end == from,
        None => false,
    }
}

/// The next word from a byte on, the token before it ending at a byte; none where no token remains.
#[inline(always)]
fn next_word(source: &Source<'_>, at: usize, end: Option<usize>) -> Result<Option<Word>, ReadFault>
    requires { IsCharBoundary source.now.text.now at }
    ensures tokens { (reach : Reach) → let text = source.now.text.now in
        TellsNext reach text (tokens_from reach text) result (tokens_from reach text at end) }
    ensures memory { result ≡ Err ReadFault.NoMemory → HasToken source.now.text.now at }
    ensures there { IfOk result (λ found. OnSome found (HasToken source.now.text.now at)) }
    ensures place { IfOk result (λ found.
        IfSome found (λ w. StandsBehind source.now.text.now at w.token)) }
    ensures known { IfOk result (λ found. IfSome found (IsWordOf source.now)) }
{
    match next_token(source.text, at) {
        Ok(Some(token)) => {
            let direct = stands_directly(end, token.from);
            let word = make_word(source, token, direct)?;
            Ok(Some(word))
        }
        Ok(None) => Ok(None),
        Err(fault) => Err(ReadFault::from(fault)),
    }
}

/// How many words room is made for at the first: as many as most clauses have. They take 1000
/// bytes, which allocators still keep at hand.
const USUAL_WORDS: usize = 25;

/// Adds a word. The first one makes room for those of most clauses.
#[inline(always)]
fn add_word(words: &mut Vec<Word>, word: Word) -> Result<(), NoMemory>
    ensures { OnOk result (words.new.items ≡ words.old.items ++ word ∷ []) }
{
    if words.is_empty() {
        words.reserve(USUAL_WORDS)?;
    }
    words.push(word)?;
    Ok(())
}

/// The words from a byte on.
///
/// # Errors
/// The refusal of the first token that is none, and `NoMemory`.
pub fn take_words(source: &Source<'_>, at: usize, extent: Extent) -> Result<Vec<Word>, ReadFault>
    requires { IsCharBoundary source.now.text.now at }
    ensures tokens { let text = source.now.text.now in
        TellsWords (λ v. v.items) text result (tokens_from (reach_of extent) text at None) }
    ensures known { IfOk result (λ v. AreKnown (ops_of source.now) source.now.text.now v.items) }
    ensures memory { result ≡ Err ReadFault.NoMemory → HasToken source.now.text.now at }
    ensures there { IfOk result (λ v. 0 < length v.items → HasToken source.now.text.now at) }
{
    let mut words = Vec::new(source.alloc);
    let mut from = at;
    let mut end = None;
    loop {
        let Some(word) = next_word(source, from, end)? else {
            return Ok(words);
        };
        add_word(&mut words, word)?;
        if extent.stops_at(word.token.kind) {
            return Ok(words);
        }
        from = word.token.to;
        end = Some(from);
    }
}
