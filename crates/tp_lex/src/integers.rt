//! Integers: the value as far as 64 bits hold it, and what follows.

ghost use Rattle.std.specs.Prelude.{◌≡◌, ◌≤◌, chars, IfSome};
ghost use Rattle.std.specs.Option.{option_map};
ghost use Rattle.std.specs.Str.{IsUtf8};
ghost use Rattle.tp_lex.specs.Escapes.{escape};
ghost use Rattle.tp_lex.specs.Integers.{after_zero, base_of, based, character_code, doubled_quote};
ghost use Rattle.tp_lex.specs.Integers.{escaped_code, integer};
ghost use Rattle.tp_lex.specs.Seen.{beside_chars, capped};

use crate::chars::split_first;
use crate::digits::{begins_with_digit, number};
use crate::escapes::escape;

/// Behind `0''`: the quote must be doubled.
fn doubled_quote(text: &str) -> Option<(u64, &str)>
    ensures value { option_map beside_chars result
        ≡ option_map capped (doubled_quote (chars text.now)) }
    ensures utf8 { IfSome result (λ p. IsUtf8 p.1.now) }
{
    let (c, rest) = split_first(text)?;
    if c == '\'' {
        Some((u64::from('\''), rest))
    } else {
        None
    }
}

/// An escape that stands for a character, from behind the backslash.
fn escaped_code(text: &str) -> Option<(u64, &str)>
    ensures value { option_map beside_chars result
        ≡ option_map capped (escaped_code (escape (chars text.now))) }
    ensures utf8 { IfSome result (λ p. IsUtf8 p.1.now) }
{
    match escape(text) {
        Ok((Some(c), rest)) => Some((u64::from(c), rest)),
        Ok((None, _)) => None,
        Err(_) => None,
    }
}

/// The code of a character, behind `0'`.
#[tactic(auto, unfolding(crate::specs::Integers::character_code))]
fn character_code(text: &str) -> Option<(u64, &str)>
    ensures value { option_map beside_chars result
        ≡ option_map capped (character_code (chars text.now)) }
    ensures utf8 { IfSome result (λ p. IsUtf8 p.1.now) }
{
    let (c, after) = split_first(text)?;
    if c == '\'' {
        doubled_quote(after)
    } else if c == '\\' {
        escaped_code(after)
    } else if c == '\n' {
        None
    } else {
        Some((u64::from(c), after))
    }
}

/// The base that the letter behind a zero names.
fn base_of(letter: char) -> Option<u32>
    ensures value { result ≡ base_of letter }
    ensures low { IfSome result (λ base. 2 ≤ base) }
    ensures high { IfSome result (λ base. base ≤ 16) }
{
    match letter {
        'x' => Some(16),
        'o' => Some(8),
        'b' => Some(2),
        _ => None,
    }
}

/// Behind a zero: digits behind a letter that names a base, or else the zero alone.
fn based<'a>(from_letter: &'a str, text: &'a str, base: u32) -> (u64, &'a str)
    requires low { 2 ≤ base }
    requires high { base ≤ 16 }
    ensures value { beside_chars result
        ≡ capped (based base (chars from_letter.now) (chars text.now)) }
    ensures utf8 { IsUtf8 result.1.now }
{
    if begins_with_digit(text, base) {
        number(text, base)
    } else {
        (0, from_letter)
    }
}

/// Behind a zero.
#[tactic(auto, unfolding(crate::specs::Integers::after_zero))]
fn after_zero(text: &str) -> Option<(u64, &str)>
    ensures value { option_map beside_chars result
        ≡ option_map capped (after_zero (chars text.now)) }
    ensures utf8 { IfSome result (λ p. IsUtf8 p.1.now) }
{
    let Some((c, after)) = split_first(text) else {
        return Some((0, text));
    };
    if c == '\'' {
        return character_code(after);
    }
    match base_of(c) {
        Some(base) => Some(based(text, after, base)),
        None => Some(number(text, 10)),
    }
}

/// The value as far as 64 bits hold it, from the first digit on, and what follows; none where it is
/// no token.
#[tactic(auto, unfolding(crate::specs::Integers::integer))]
pub fn integer(text: &str) -> Option<(u64, &str)>
    ensures value { option_map beside_chars result
        ≡ option_map capped (integer (chars text.now)) }
    ensures utf8 { IfSome result (λ p. IsUtf8 p.1.now) }
{
    let (c, after) = split_first(text)?;
    if c == '0' {
        after_zero(after)
    } else {
        Some(number(text, 10))
    }
}
