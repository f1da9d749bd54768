//! What a token stands for.

ghost use Rattle.std.specs.Prelude.{◌≡◌, ◌≤◌, chars, string_bytes, IfOk, IsTrue};
ghost use Rattle.tp_lex.specs.Form.{closes, has_name, quoted_name};
ghost use Rattle.tp_lex.specs.Next.{IsTokenOf, token_name, token_value};

use crate::chars::split_first;
use crate::integers::integer;
use crate::quotes::push_inside;
use crate::token::{Token, TokenKind};
use std::alloc::Global;
use tp_terms::NoMemory;

/// The characters that the inside of quotes stands for, from the opening quote on.
fn unquoted(alloc: Global, text: &str) -> Result<String, NoMemory>
    requires { IsTrue (closes (chars text.now)) }
    ensures { IfOk result (λ name. chars (string_bytes name) ≡ quoted_name (chars text.now)) }
{
    let mut name = String::new(alloc);
    if let Some((mark, inside)) = split_first(text) {
        push_inside(inside, mark, &mut name)?;
    }
    Ok(name)
}

/// The name of a Name or Variable token of the text, or the characters that the inside of a Quoted
/// or Codes token stands for.
///
/// # Errors
/// `NoMemory` where memory was refused.
pub fn token_text(alloc: Global, text: &str, token: &Token) -> Result<String, NoMemory>
    requires given { IsTokenOf text.now token.now }
    requires named { IsTrue (has_name token.now.kind) }
    ensures { IfOk result (λ name. chars (string_bytes name) ≡ token_name text.now token.now) }
{
    match token.kind {
        TokenKind::Quoted | TokenKind::Codes => unquoted(alloc, &text[token.from..]),
        _ => Ok(String::from_str(alloc, &text[token.from..token.to])?),
    }
}

/// The value of an Integer token of the text. Takes no memory.
pub fn integer_value(text: &str, token: &Token) -> u64
    requires given { IsTokenOf text.now token.now }
    requires kind { token.now.kind ≡ TokenKind.Integer }
    ensures value { result ≡ token_value text.now token.now }
    ensures most { result ≤ 9223372036854775808 }
{
    match integer(&text[token.from..]) {
        Some((value, _)) => value,
        None => 0,
    }
}
