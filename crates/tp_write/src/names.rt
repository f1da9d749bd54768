//! Writing names.

ghost use Rattle.std.specs.Prelude.{◌≡◌, ◌%◌, chars, IsTrue, IfSome, IfNone};
ghost use Rattle.std.specs.Char.{digit_char};
ghost use Rattle.tp_terms.specs.Added.{Adds};
ghost use Rattle.tp_write.specs.Names.{begins_comment, is_bare, is_graphic_name, is_solo};
ghost use Rattle.tp_write.specs.Names.{code_escape, coded, escape_start, escaped, is_control};
ghost use Rattle.tp_write.specs.Names.{name_text, quoted};

use tp_lex::{Class, are_in_class, is_letter_digit, split_first};
use tp_terms::{NoMemory, push_char, push_text};

/// Whether the name begins as a comment does.
fn begins_comment(name: &str) -> bool
    ensures { result ≡ begins_comment (chars name.now) }
{
    let Some((first, rest)) = split_first(name) else {
        return false;
    };
    let Some((second, _)) = split_first(rest) else {
        return false;
    };
    first == '/' && second == '*'
}

/// Whether the name is made of graphic characters, and is neither `.` nor the beginning of a
/// comment.
fn is_graphic_name(name: &str) -> bool
    ensures { result ≡ is_graphic_name (chars name.now) }
{
    match name {
        "" | "." => false,
        _ => are_in_class(Class::Graphic, name) && !begins_comment(name),
    }
}

/// Whether the name is one of those that stand alone.
fn is_solo(name: &str) -> bool
    ensures { result ≡ is_solo (chars name.now) }
{
    matches!(name, "[]" | "{}" | "!" | ";")
}

/// Whether the name is written without quotes.
fn is_bare(name: &str) -> bool
    ensures { result ≡ is_bare (chars name.now) }
{
    is_letter_digit(name) || is_solo(name) || is_graphic_name(name)
}

/// The escape by a letter, a quote or a backslash.
fn short_escape(c: char) -> Option<&'static str>
    ensures some { IfSome result (λ text. chars text.now ≡ escaped c) }
    ensures none { IfNone result (escaped c ≡ coded c) }
{
    match c {
        '\\' => Some("\\\\"),
        '\'' => Some("\\'"),
        '\x07' => Some("\\a"),
        '\x08' => Some("\\b"),
        '\t' => Some("\\t"),
        '\n' => Some("\\n"),
        '\x0b' => Some("\\v"),
        '\x0c' => Some("\\f"),
        '\r' => Some("\\r"),
        _ => None,
    }
}

/// How the escape of a code begins: all but its last digit and the closing backslash.
fn escape_start(c: char) -> &'static str
    ensures { chars result.now ≡ escape_start c }
{
    if (c as u32) < 16 {
        "\\x"
    } else if (c as u32) < 32 {
        "\\x1"
    } else {
        "\\x7"
    }
}

/// The last hexadecimal digit of a code.
fn last_digit(c: char) -> char
    ensures { result ≡ digit_char (c % 16) }
{
    match char::from_digit(c as u32 % 16, 16) {
        Some(digit) => digit,
        None => '0',
    }
}

/// Adds the escape of a control character by its code.
fn push_code_escape(c: char, out: &mut String) -> Result<(), NoMemory>
    requires { IsTrue (is_control c) }
    ensures added { Adds out.old out.new result (code_escape c) }
{
    push_text(escape_start(c), out)?;
    push_char(last_digit(c), out)?;
    push_char('\\', out)
}

/// Adds a character that has no escape of one letter.
fn push_coded(c: char, out: &mut String) -> Result<(), NoMemory>
    ensures added { Adds out.old out.new result (coded c) }
{
    if (c as u32) < 32 || c == '\x7f' {
        push_code_escape(c, out)
    } else {
        push_char(c, out)
    }
}

/// Adds a character as it stands between quotes.
fn push_escaped(c: char, out: &mut String) -> Result<(), NoMemory>
    ensures added { Adds out.old out.new result (escaped c) }
{
    match short_escape(c) {
        Some(text) => push_text(text, out),
        None => push_coded(c, out),
    }
}

/// Adds a name between quotes, also where it could stand without them.
///
/// # Errors
/// `NoMemory` where memory was refused; then a prefix of the text was added.
pub fn write_quoted(name: &str, out: &mut String) -> Result<(), NoMemory>
    ensures added { Adds out.old out.new result (quoted (chars name.now)) }
{
    push_char('\'', out)?;
    let mut rest = name;
    'characters: while let Some((c, after)) = split_first(rest) {
        push_escaped(c, out)?;
        rest = after;
    }
    push_char('\'', out)
}

/// Adds the written form of a name.
///
/// # Errors
/// `NoMemory` where memory was refused; then a prefix of the text was added.
#[tactic(auto, unfolding(crate::specs::Names::name_text))]
pub fn write_name(name: &str, out: &mut String) -> Result<(), NoMemory>
    ensures added { Adds out.old out.new result (name_text (chars name.now)) }
{
    if is_bare(name) {
        push_text(name, out)
    } else {
        write_quoted(name, out)
    }
}
