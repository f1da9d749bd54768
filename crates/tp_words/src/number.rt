//! Numbers as digits write them.

ghost use Rattle.std.specs.Prelude.{◌≡◌, option_map};
ghost use Rattle.tp_words.specs.Number.{begins_with_plus as begins_so, number_between};
ghost use Rattle.tp_words.specs.Number.{number_or as number_or_default, read_within};

use std::num::ParseIntError;

/// Whether the text begins with a plus, which the reading of a number would pass over.
fn begins_with_plus(text: &str) -> bool
    ensures { result ≡ begins_so text.now }
{
    match text.as_bytes().first() {
        None => false,
        Some(byte) => *byte == b'+',
    }
}

/// A number that was read, where it lies in the range.
fn in_range(read: Result<u64, ParseIntError>, least: u64, most: u64) -> Option<u64>
    ensures { result ≡ read_within least most read }
{
    match read {
        Ok(number) if least <= number && number <= most => Some(number),
        _ => None,
    }
}

/// The number that a text of one or more ASCII digits writes, where it lies in the range. Leading
/// zeros are allowed, and there may be any number of digits.
pub fn number_in(text: &str, least: u64, most: u64) -> Option<u64>
    ensures { result ≡ number_between least most text.now }
{
    if begins_with_plus(text) {
        return None;
    }
    in_range(text.parse::<u64>(), least, most)
}

/// The number from 1 to `most` that an option's value writes, and the default where the option
/// isn't given.
pub fn number_or(value: Option<&str>, default: u64, most: u64) -> Option<u64>
    ensures { result ≡ number_or_default default most (option_map (λ text. text.now) value.entry) }
{
    match value {
        None => Some(default),
        Some(text) => number_in(text, 1, most),
    }
}
