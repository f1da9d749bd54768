//! Parts of terms that have no terms in them, and the links of lists.

ghost use Rattle.std.specs.Prelude.{◌≡◌, ◌+◌, ◌-◌, ◌<◌, ◌≤◌, ◌^◌, ◌∷◌, ◌++◌, nat_lt, ℕ, List, []};
ghost use Rattle.std.specs.Prelude.{map, Err, Some, chars, string_bytes, length, IfOk, IfErr};
ghost use Rattle.std.specs.Prelude.{IsTrue, OnOk, negsuc, pos};
ghost use Rattle.tp_lex.specs.Form.{has_name};
ghost use Rattle.tp_lex.specs.Next.{IsTokenOf, token_name, token_value};
ghost use Rattle.tp_parse.specs.Ahead.{is_minus};
ghost use Rattle.tp_parse.specs.Gives.{begins_leaf, simple};
ghost use Rattle.tp_parse.specs.Progress.{IsUnderway, ReadsTerm, token_of};
ghost use Rattle.tp_parse.specs.Steps.{AreReady, linked, onto_codes, trees_of};
ghost use Rattle.tp_parse.specs.Tree.{Integer, Tree, integers, minus};
ghost use Rattle.tp_parse.specs.Words.{after_word, ahead, first_word, lexed_of};

use crate::fault::ReadCause;
use crate::progress::Progress;
use crate::steps::{Label, Step};
use crate::stop::Stop;
use crate::words::{Source, Word, plain_name};
use tp_lex::{Token, TokenKind, integer_value, token_text};

/// The least integer above those of terms.
const INTEGERS_END: u64 = 1 << 63;

/// Whether a word is the name `-`, without quotes.
pub fn is_minus(source: &Source<'_>, word: Word) -> bool
    requires { IsTokenOf source.now.text.now word.token }
    ensures { result ≡ is_minus (lexed_of source.now.text.now word) }
{
    match word.token.kind {
        TokenKind::Name => plain_name(source.text, &word.token) == "-",
        _ => false,
    }
}

/// The negative of a value.
pub fn negative(value: u64) -> i64
    requires { value ≤ 9223372036854775808 }
    ensures { result ≡ minus value }
{
    if value == INTEGERS_END {
        i64::MIN
    } else {
        -(value as i64)
    }
}

/// Makes the last term the tail of a list of so many terms before it.
pub fn link(steps: &mut Vec<Step>, count: usize, source: &Source<'_>) -> Result<(), Stop>
    requires ready { AreReady source.now.text.now [] steps.old.items }
    requires enough { count < length (trees_of source.now.text.now steps.old.items) }
    ensures ready { AreReady source.now.text.now [] steps.new.items }
    ensures trees { let text = source.now.text.now in
        OnOk result (trees_of text steps.new.items ≡ linked count (trees_of text steps.old.items)) }
    ensures memory { IfErr result (λ stop. stop ≡ Stop.NoMemory) }
{
    steps.push(Step::List(count))?;
    Ok(())
}

/// Adds the codes of a text's characters as integers.
fn push_codes(steps: &mut Vec<Step>, name: &str, source: &Source<'_>) -> Result<(), Stop>
    requires ready { AreReady source.now.text.now [] steps.old.items }
    ensures ready { AreReady source.now.text.now [] steps.new.items }
    ensures trees { let text = source.now.text.now in OnOk result
        (trees_of text steps.new.items
        ≡ onto_codes (chars name.now) (trees_of text steps.old.items)) }
    ensures memory { IfErr result (λ stop. stop ≡ Stop.NoMemory) }
{
    for character in name.chars() {
        steps.push(Step::Integer(code(character)))?;
    }
    Ok(())
}

/// A character's code.
fn code(character: char) -> i64
    ensures { result ≡ pos character }
{
    i64::from(u32::from(character))
}

/// A value, as a signed integer.
fn signed(value: u64) -> i64
    requires { value < 2 ^ 63 }
    ensures { result ≡ pos value }
{
    value as i64
}

/// Adds the list of the codes of a token.
fn push_list(steps: &mut Vec<Step>, token: Token, source: &Source<'_>) -> Result<(), Stop>
    requires ready { AreReady source.now.text.now [] steps.old.items }
    requires given { IsTokenOf source.now.text.now token }
    requires named { IsTrue (has_name token.kind) }
    ensures ready { AreReady source.now.text.now [] steps.new.items }
    ensures trees { let text = source.now.text.now in OnOk result (trees_of text steps.new.items
        ≡ integers (token_name text token) ∷ trees_of text steps.old.items) }
    ensures memory { IfErr result (λ stop. stop ≡ Stop.NoMemory) }
{
    let text = token_text(source.alloc, source.text, &token)?;
    let name = text.as_str();
    push_codes(steps, name, source)?;
    steps.push(Step::Atom(Label::EmptyList))?;
    link(steps, name.chars().count(), source)?;
    Ok(())
}

/// A first part of a term that has no terms in it.
pub fn read_simple(source: &Source<'_>, at: &mut Progress<'_>, word: Word) -> Result<u16, Stop>
    requires going { IsUnderway source.now at.old }
    requires first { first_word at.old.cursor ≡ Some word }
    ensures gives { ReadsTerm source.now at.old at.new result
        (simple (token_of source.now word) (ahead source.now.text.now (after_word at.old.cursor))
        word.token.kind) }
    ensures memory { result ≡ Err Stop.NoMemory → IsTrue (begins_leaf word.token.kind) }
    ensures number { result ≡ Err Stop.NoMemory → word.token.kind ≡ TokenKind.Integer →
        (token_of source.now word).value < 2 ^ 63 }
    ensures going { IsUnderway source.now at.new }
    ensures shorter { OnOk result (length at.new.cursor < length at.old.cursor) }
{
    match word.token.kind {
        TokenKind::Integer => {
            let value = integer_value(source.text, &word.token);
            if value >= INTEGERS_END {
                return Err(Stop::At(ReadCause::Number));
            }
            at.cursor.pass();
            at.steps.push(Step::Integer(signed(value)))?;
            Ok(0)
        }
        TokenKind::Variable => {
            at.cursor.pass();
            at.steps.push(Step::Variable(word.token))?;
            Ok(0)
        }
        TokenKind::Codes => {
            at.cursor.pass();
            push_list(&mut at.steps, word.token, source)?;
            Ok(0)
        }
        _ => Err(Stop::At(ReadCause::Syntax)),
    }
}
