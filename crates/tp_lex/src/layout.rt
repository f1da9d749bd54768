//! Layout and comments.

ghost use Rattle.std.specs.Prelude.{◌≡◌, chars, IfSome, IfOk, MatchResult};
ghost use Rattle.std.specs.Option.{option_map};
ghost use Rattle.std.specs.Result.{result_map_both};
ghost use Rattle.std.specs.Str.{IsUtf8};
ghost use Rattle.tp_lex.specs.Seen.{answer, text_chars};
ghost use Rattle.tp_lex.specs.Layout.{after_comment, after_gap, after_line, after_slash};
ghost use Rattle.tp_lex.specs.Layout.{comment_end, past_layout};

use crate::chars::{is_layout, split_first};
use crate::token::Fault;

/// What follows a comment up to the end of its line; the newline is layout.
pub fn after_line(text: &str) -> &str
    ensures { chars result.now ≡ after_line (chars text.now) }
{
    let mut rest = text;
    while let Some((c, after)) = split_first(rest) {
        if c == '\n' {
            break;
        }
        rest = after;
    }
    rest
}

/// What follows `*/`, where the text begins with it.
#[tactic(auto, unfolding(crate::specs::Layout::comment_end))]
pub fn comment_end(text: &str) -> Option<&str>
    ensures value { option_map text_chars result ≡ comment_end (chars text.now) }
    ensures utf8 { IfSome result (λ r. IsUtf8 r.now) }
{
    let (star, after) = split_first(text)?;
    let (slash, rest) = split_first(after)?;
    if star == '*' && slash == '/' {
        Some(rest)
    } else {
        None
    }
}

/// What follows the next `*/`, if there is one.
pub fn after_comment(text: &str) -> Option<&str>
    ensures value { option_map text_chars result ≡ after_comment (chars text.now) }
    ensures utf8 { IfSome result (λ r. IsUtf8 r.now) }
{
    let mut rest = text;
    while let Some((_, after)) = split_first(rest) {
        if let Some(end) = comment_end(rest) {
            return Some(end);
        }
        rest = after;
    }
    None
}

/// What follows a comment, behind its slash; none where no comment begins there.
pub fn after_slash(text: &str) -> Result<Option<&str>, Fault>
    ensures value { answer (option_map text_chars) result ≡ after_slash (chars text.now) }
    ensures utf8 { IfOk result (λ o. IfSome o (λ r. IsUtf8 r.now)) }
{
    let Some((c, inside)) = split_first(text) else {
        return Ok(None);
    };
    if c != '*' {
        return Ok(None);
    }
    match after_comment(inside) {
        Some(rest) => Ok(Some(rest)),
        None => Err(Fault::Unfinished),
    }
}

/// What follows one character of layout or one comment, where the text begins with one.
#[inline(always)]
#[tactic(auto, unfolding(crate::specs::Layout::after_gap))]
pub fn after_gap(text: &str) -> Result<Option<&str>, Fault>
    ensures value { answer (option_map text_chars) result ≡ after_gap (chars text.now) }
    ensures utf8 { IfOk result (λ o. IfSome o (λ r. IsUtf8 r.now)) }
{
    let Some((c, after)) = split_first(text) else {
        return Ok(None);
    };
    if is_layout(c) {
        Ok(Some(after))
    } else if c == '%' {
        Ok(Some(after_line(after)))
    } else if c == '/' {
        after_slash(after)
    } else {
        Ok(None)
    }
}

/// Where layout and comments end; or the comment that is not closed.
#[inline(always)]
pub fn past_layout(text: &str) -> Result<&str, &str>
    ensures value { result_map_both text_chars text_chars result ≡ past_layout (chars text.now) }
    ensures utf8 { MatchResult result (λ r. IsUtf8 r.now) (λ r. IsUtf8 r.now) }
{
    let mut rest = text;
    loop {
        match after_gap(rest) {
            Ok(Some(after)) => rest = after,
            Ok(None) => return Ok(rest),
            Err(_) => return Err(rest),
        }
    }
}
