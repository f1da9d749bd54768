//! The token that a text begins with, behind layout and comments.

ghost use Rattle.std.specs.Prelude.{◌≡◌, ◌∷◌, chars, false, IfOk};
ghost use Rattle.std.specs.Str.{IsUtf8};
ghost use Rattle.tp_lex.specs.Characters.{is_name_start, is_variable_start};
ghost use Rattle.tp_lex.specs.Form.{ends_clause, form, graphic_form, integer_form, quotes_form};
ghost use Rattle.tp_lex.specs.Form.{single, single_form};
ghost use Rattle.tp_lex.specs.Integers.{integer};
ghost use Rattle.tp_lex.specs.Quotes.{after_closing, inside};
ghost use Rattle.tp_lex.specs.Seen.{answer, beside_chars};

use crate::chars::{
    Class, after_run, is_graphic, is_layout, is_name_start, is_variable_start, split_first,
};
use crate::integers::integer;
use crate::quotes::after_inside;
use crate::token::{Fault, TokenKind};

/// The largest value of an integer: 2 to the 63rd.
pub const LARGEST: u64 = 9_223_372_036_854_775_808;

/// The kind of a character that is a token by itself.
#[inline(always)]
fn single(c: char) -> Option<TokenKind>
    ensures { result ≡ single c }
{
    match c {
        '!' | ';' => Some(TokenKind::Name),
        '(' => Some(TokenKind::Open),
        ')' => Some(TokenKind::Close),
        '[' => Some(TokenKind::OpenList),
        ']' => Some(TokenKind::CloseList),
        '{' => Some(TokenKind::OpenCurly),
        '}' => Some(TokenKind::CloseCurly),
        ',' => Some(TokenKind::Comma),
        '|' => Some(TokenKind::Bar),
        _ => None,
    }
}

/// Whether a dot before the text ends a clause.
fn ends_clause(text: &str) -> bool
    ensures { result ≡ ends_clause (chars text.now) }
{
    match split_first(text) {
        Some((c, _)) => is_layout(c) || c == '%',
        None => true,
    }
}

/// The token that begins with a graphic character before the text.
#[inline(always)]
fn graphic_form(c: char, text: &str) -> (TokenKind, &str)
    ensures value { beside_chars result ≡ graphic_form c (chars text.now) }
    ensures utf8 { IsUtf8 result.1.now }
{
    if c == '.' && ends_clause(text) {
        (TokenKind::End, text)
    } else {
        (TokenKind::Name, after_run(text, Class::Graphic))
    }
}

/// The token that begins with a digit.
fn integer_form(text: &str) -> Result<(TokenKind, &str), Fault>
    ensures value { answer beside_chars result ≡ integer_form (integer (chars text.now)) }
    ensures utf8 { IfOk result (λ p. IsUtf8 p.1.now) }
{
    let Some((value, rest)) = integer(text) else {
        return Err(Fault::BadToken);
    };
    if value <= LARGEST {
        Ok((TokenKind::Integer, rest))
    } else {
        Err(Fault::NumberRange)
    }
}

/// A token between quotes, from behind the opening one.
fn quotes_form(text: &str, mark: char, kind: TokenKind) -> Result<(TokenKind, &str), Fault>
    ensures value { answer beside_chars result
        ≡ quotes_form kind (after_closing (inside mark (chars text.now))) }
    ensures utf8 { IfOk result (λ p. IsUtf8 p.1.now) }
{
    match after_inside(text, mark) {
        Ok(rest) => Ok((kind, rest)),
        Err(fault) => Err(fault),
    }
}

/// A token of one character.
#[inline(always)]
fn single_form(c: char, text: &str) -> Result<(TokenKind, &str), Fault>
    ensures value { answer beside_chars result ≡ single_form (single c) (chars text.now) }
    ensures utf8 { IfOk result (λ p. IsUtf8 p.1.now) }
{
    match single(c) {
        Some(kind) => Ok((kind, text)),
        None => Err(Fault::BadToken),
    }
}

/// The token's kind and what follows it, where its first character begins no name and no variable.
#[tactic(auto, unfolding(crate::specs::Form::form))]
fn other_form<'a>(c: char, text: &'a str, after: &'a str) -> Result<(TokenKind, &'a str), Fault>
    requires split { chars text.now ≡ c ∷ chars after.now }
    requires name { is_name_start c ≡ false }
    requires variable { is_variable_start c ≡ false }
    ensures value { answer beside_chars result ≡ form (chars text.now) }
    ensures utf8 { IfOk result (λ p. IsUtf8 p.1.now) }
{
    if c.is_digit(10) {
        integer_form(text)
    } else if c == '\'' {
        quotes_form(after, '\'', TokenKind::Quoted)
    } else if c == '"' {
        quotes_form(after, '"', TokenKind::Codes)
    } else if is_graphic(c) {
        Ok(graphic_form(c, after))
    } else {
        single_form(c, after)
    }
}

/// The token's kind and what follows it. The kinds that most tokens have are told first.
#[inline(always)]
#[tactic(auto, unfolding(crate::specs::Form::form))]
pub fn form(text: &str) -> Result<(TokenKind, &str), Fault>
    ensures value { answer beside_chars result ≡ form (chars text.now) }
    ensures utf8 { IfOk result (λ p. IsUtf8 p.1.now) }
{
    let Some((c, after)) = split_first(text) else {
        return Err(Fault::BadToken);
    };
    if is_name_start(c) {
        return Ok((TokenKind::Name, after_run(after, Class::Continuing)));
    }
    if is_variable_start(c) {
        return Ok((TokenKind::Variable, after_run(after, Class::Continuing)));
    }
    match single(c) {
        Some(kind) => Ok((kind, after)),
        None => other_form(c, text, after),
    }
}
