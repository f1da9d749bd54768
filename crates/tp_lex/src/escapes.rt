//! Escapes: what a backslash and the characters behind it stand for.

ghost use Rattle.std.specs.Prelude.{◌≡◌, ◌≤◌, chars, IfOk};
ghost use Rattle.std.specs.Char.{IsScalar};
ghost use Rattle.std.specs.Option.{SomeIff};
ghost use Rattle.std.specs.Str.{IsUtf8};
ghost use Rattle.tp_lex.specs.Seen.{answer, beside_chars};
ghost use Rattle.tp_lex.specs.Escapes.{closed_code, code_escape, escape, letter_escape};

use crate::chars::split_first;
use crate::digits::number;
use crate::token::Fault;

/// The character that a backslash and this character stand for.
pub fn letter_escape(c: char) -> Option<char>
    ensures { result ≡ letter_escape c }
{
    match c {
        'a' => Some('\x07'),
        'b' => Some('\x08'),
        't' => Some('\t'),
        'n' => Some('\n'),
        'v' => Some('\x0b'),
        'f' => Some('\x0c'),
        'r' => Some('\r'),
        '\\' | '\'' | '"' | '`' => Some(c),
        _ => None,
    }
}

/// The character of a code, if it has one.
pub fn char_of(code: u64) -> Option<char>
    ensures { SomeIff result (IsScalar code) code }
{
    if code <= 0x10_FFFF {
        char::from_u32(code as u32)
    } else {
        None
    }
}

/// A code that its closing backslash follows.
pub fn closed_code(code: u64, text: &str) -> Result<(Option<char>, &str), Fault>
    ensures value { answer beside_chars result ≡ closed_code code (chars text.now) }
    ensures utf8 { IfOk result (λ p. IsUtf8 p.1.now) }
{
    let Some((c, rest)) = split_first(text) else {
        return Err(Fault::Unfinished);
    };
    if c != '\\' {
        return Err(Fault::BadToken);
    }
    match char_of(code) {
        Some(character) => Ok((Some(character), rest)),
        None => Err(Fault::BadToken),
    }
}

/// One or more digits and a closing backslash.
#[tactic(auto, unfolding(crate::specs::Escapes::code_escape))]
pub fn code_escape(text: &str, base: u32) -> Result<(Option<char>, &str), Fault>
    requires low { 2 ≤ base }
    requires high { base ≤ 16 }
    ensures value { answer beside_chars result ≡ code_escape base (chars text.now) }
    ensures utf8 { IfOk result (λ p. IsUtf8 p.1.now) }
{
    let Some((c, _)) = split_first(text) else {
        return Err(Fault::Unfinished);
    };
    if !c.is_digit(base) {
        return Err(Fault::BadToken);
    }
    let (code, rest) = number(text, base);
    closed_code(code, rest)
}

/// From behind the backslash: the character that stands there, none for a backslash at a line's
/// end, and what follows. Unfinished where the text ends in the escape.
#[tactic(auto, unfolding(crate::specs::Escapes::escape))]
pub fn escape(text: &str) -> Result<(Option<char>, &str), Fault>
    ensures value { answer beside_chars result ≡ escape (chars text.now) }
    ensures utf8 { IfOk result (λ p. IsUtf8 p.1.now) }
{
    let Some((c, after)) = split_first(text) else {
        return Err(Fault::Unfinished);
    };
    if c == '\n' {
        Ok((None, after))
    } else if c == 'x' {
        code_escape(after, 16)
    } else if c.is_digit(8) {
        code_escape(text, 8)
    } else {
        match letter_escape(c) {
            Some(character) => Ok((Some(character), after)),
            None => Err(Fault::BadToken),
        }
    }
}
