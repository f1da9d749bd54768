//! Digits and their values.

ghost use Rattle.std.specs.Prelude.{◌≡◌, ◌+◌, ◌-◌, ◌*◌, ◌≤◌, ◌^◌, chars, min};
ghost use Rattle.std.specs.Str.{IsUtf8};
ghost use Rattle.tp_lex.specs.Seen.{beside_chars, capped};
ghost use Rattle.tp_lex.specs.Digits.{begins_with_digit, number};

use crate::chars::split_first;

/// Whether the text begins with a digit of the base.
pub fn begins_with_digit(text: &str, base: u32) -> bool
    requires low { 2 ≤ base }
    requires high { base ≤ 16 }
    ensures { result ≡ begins_with_digit base (chars text.now) }
{
    match split_first(text) {
        Some((c, _)) => c.is_digit(base),
        None => false,
    }
}

/// The value with one more digit, as far as 64 bits hold it.
fn with_digit(value: u64, base: u32, digit: u32) -> u64
    ensures { result ≡ min (min (value * base) (2 ^ 64 - 1) + digit) (2 ^ 64 - 1) }
{
    value
        .saturating_mul(u64::from(base))
        .saturating_add(u64::from(digit))
}

/// The value of as many digits as follow each other, as far as 64 bits hold it, and what follows
/// them.
pub fn number(text: &str, base: u32) -> (u64, &str)
    requires low { 2 ≤ base }
    requires high { base ≤ 16 }
    ensures value { beside_chars result ≡ capped (number base (chars text.now)) }
    ensures utf8 { IsUtf8 result.1.now }
{
    let mut value = 0;
    let mut rest = text;
    while let Some((c, after)) = split_first(rest) {
        let Some(digit) = c.to_digit(base) else {
            break;
        };
        value = with_digit(value, base, digit);
        rest = after;
    }
    (value, rest)
}
