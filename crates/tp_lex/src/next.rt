//! The next token of a text.

ghost use Rattle.std.specs.Prelude.{◌≡◌, ℕ, Option, IfOk, IfSome};
ghost use Rattle.std.specs.Str.{IsCharBoundary};
ghost use Rattle.tp_lex.specs.Next.{IsTokenOf, StandsBehind, fault_at, next};
ghost use Rattle.tp_lex.specs.Tokens.{Reach, tokens_by_next, tokens_from};

use crate::form::form;
use crate::layout::past_layout;
use crate::token::{Fault, LexFault, Token};

/// The fault with its byte.
fn fault_at(fault: Fault, byte: usize) -> LexFault
    ensures { result ≡ fault_at fault byte }
{
    match fault {
        Fault::BadToken => LexFault::BadToken(byte),
        Fault::NumberRange => LexFault::NumberRange(byte),
        Fault::Unfinished => LexFault::Unfinished(byte),
    }
}

/// The next token of the text from a byte on, behind layout and comments; none where nothing but
/// these remains. Takes no memory. The tokens follow ISO/IEC 13211-1, 6.4.
///
/// # Errors
/// `BadToken` where no token begins or the token is broken, `NumberRange` where an integer is above
/// 9223372036854775808, and `Unfinished` where the text ends inside quotes or a comment, each with
/// the byte at which the token or comment begins.
#[inline(always)]
pub fn next_token(text: &str, at: usize) -> Result<Option<Token>, LexFault>
    requires { IsCharBoundary text.now at }
    ensures value { result ≡ next text.now at }
    ensures tokens { (reach : Reach) (end : Option ℕ) → tokens_from reach text.now at end
        ≡ tokens_by_next reach text.now end (tokens_from reach text.now) result }
    ensures given { IfOk result (λ found. IfSome found (IsTokenOf text.now)) }
    ensures place { IfOk result (λ found. IfSome found (StandsBehind text.now at)) }
{
    let start = match past_layout(&text[at..]) {
        Ok(start) => start,
        Err(comment) => return Err(LexFault::Unfinished(text.len() - comment.len())),
    };
    if start.is_empty() {
        return Ok(None);
    }
    let from = text.len() - start.len();
    match form(start) {
        Ok((kind, rest)) => Ok(Some(Token {
            kind,
            from,
            to: text.len() - rest.len(),
        })),
        Err(fault) => Err(fault_at(fault, from)),
    }
}
