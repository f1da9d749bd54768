//! The inside of quotes.

ghost use Rattle.std.specs.Prelude.{◌≡◌, ◌++◌, chars, string_bytes, IfOk, IsOk, OnOk};
ghost use Rattle.std.specs.Str.{IsUtf8};
ghost use Rattle.tp_terms.specs.Added.{Adds};
ghost use Rattle.tp_lex.specs.Escapes.{escape};
ghost use Rattle.tp_lex.specs.Quotes.{after_closing, at_quote, escaped, inside, item, item_chars};
ghost use Rattle.tp_lex.specs.Quotes.{stood_for};
ghost use Rattle.tp_lex.specs.Seen.{answer, beside_chars, text_chars};

use crate::chars::split_first;
use crate::escapes::escape;
use crate::token::Fault;
use tp_terms::{NoMemory, push_char};

/// What stands next between quotes.
#[derive(Clone, Copy, Debug, PartialEq, Eq)]
pub enum Item {
    /// A character.
    Stands(char),
    /// A backslash before a newline, which stands for nothing.
    Skipped,
    /// The closing quote.
    Closed,
}

/// Behind a closing quote: doubled it stands for itself.
fn at_quote(text: &str, mark: char) -> (Item, &str)
    ensures value { beside_chars result ≡ at_quote mark (chars text.now) }
    ensures utf8 { IsUtf8 result.1.now }
{
    let Some((c, rest)) = split_first(text) else {
        return (Item::Closed, text);
    };
    if c == mark {
        (Item::Stands(mark), rest)
    } else {
        (Item::Closed, text)
    }
}

/// An escape as an item, from behind the backslash.
fn escaped(text: &str) -> Result<(Item, &str), Fault>
    ensures value { answer beside_chars result ≡ escaped (escape (chars text.now)) }
    ensures utf8 { IfOk result (λ p. IsUtf8 p.1.now) }
{
    match escape(text) {
        Ok((Some(c), rest)) => Ok((Item::Stands(c), rest)),
        Ok((None, rest)) => Ok((Item::Skipped, rest)),
        Err(fault) => Err(fault),
    }
}

/// The next item between quotes of this mark, and what follows it.
#[tactic(auto, unfolding(crate::specs::Quotes::item))]
fn next_item(text: &str, mark: char) -> Result<(Item, &str), Fault>
    ensures value { answer beside_chars result ≡ item mark (chars text.now) }
    ensures utf8 { IfOk result (λ p. IsUtf8 p.1.now) }
{
    let Some((c, after)) = split_first(text) else {
        return Err(Fault::Unfinished);
    };
    if c == mark {
        Ok(at_quote(after, mark))
    } else if c == '\\' {
        escaped(after)
    } else if c == '\n' {
        Err(Fault::BadToken)
    } else {
        Ok((Item::Stands(c), after))
    }
}

/// What follows the closing quote, from behind the opening one.
pub fn after_inside(text: &str, mark: char) -> Result<&str, Fault>
    ensures value { answer text_chars result ≡ after_closing (inside mark (chars text.now)) }
    ensures utf8 { IfOk result (λ r. IsUtf8 r.now) }
{
    let mut rest = text;
    'items: loop {
        let (found, after) = match next_item(rest, mark) {
            Ok(pair) => pair,
            Err(fault) => return Err(fault),
        };
        if let Item::Closed = found {
            return Ok(after);
        }
        rest = after;
    }
}

/// Adds the character that an item stands for, if it stands for one.
fn push_item(out: &mut String, item: Item) -> Result<(), NoMemory>
    ensures { Adds out.old out.new result (item_chars item) }
{
    match item {
        Item::Stands(c) => push_char(c, out),
        Item::Skipped | Item::Closed => Ok(()),
    }
}

/// Adds the characters that the inside stands for, from behind the opening quote on.
pub fn push_inside(text: &str, mark: char, out: &mut String) -> Result<(), NoMemory>
    requires { IsOk (inside mark (chars text.now)) }
    ensures { let added = stood_for (inside mark (chars text.now)) in
        OnOk result (chars (string_bytes out.new) ≡ chars (string_bytes out.old) ++ added) }
{
    let mut rest = text;
    'items: while let Ok((found, after)) = next_item(rest, mark) {
        push_item(out, found)?;
        if let Item::Closed = found {
            break;
        }
        rest = after;
    }
    Ok(())
}
