//! Texts and named variables, as contracts can compare them with a definition's value.

ghost use Rattle.std.specs.Prelude.{◌≡◌, ◌++◌, [], ◌∷◌, chars, encode_utf8_all, string_bytes};
ghost use Rattle.std.specs.Prelude.{OnErr};
ghost use Rattle.tp_terms.specs.Added.{Adds};

use crate::NoMemory;
use std::marker::Model;

/// A text, which contracts see as the list of its characters.
#[derive(Debug, Drop)]
pub struct Text {
    text: String,
}

impl Model for Text {
    ghost use Rattle.std.specs.Prelude.{chars, string_bytes};
    ghost use Rattle.tp_terms.specs.Term.{Name};

    ghost Value = { Name };

    ghost view = { λ t. chars (string_bytes t.text) };
}

impl Text {
    /// The text with these characters. Takes no memory.
    pub fn new(from: String) -> Text
        ensures { result ≡ chars (string_bytes from) }
    {
        Text { text: from }
    }

    /// The characters, in UTF-8. Takes no memory.
    pub fn as_str(&self) -> &str
        ensures chars { chars result.now ≡ self.now }
        ensures bytes { result.now ≡ encode_utf8_all self.now }
    {
        self.text.as_str()
    }
}

/// A variable as it was written, and its number.
#[derive(Debug, Drop)]
pub struct Named {
    /// The name as it was written.
    pub name: Text,
    /// The number.
    pub number: u64,
}

/// Named variables in an order, which contracts see as a list.
#[derive(Debug, Drop)]
pub struct Names {
    names: Vec<Named>,
}

impl Model for Names {
    ghost use Rattle.std.specs.Prelude.{List};
    ghost use Rattle.tp_terms.specs.declared.text.Named.{Named};

    ghost Value = { List Named };

    ghost view = { λ n. n.names.items };
}

impl Names {
    /// These variables, in this order. Takes no memory.
    pub fn new(from: Vec<Named>) -> Names
        ensures { result ≡ from.items }
    {
        Names { names: from }
    }

    /// The variables, in their order. Takes no memory.
    pub fn as_slice(&self) -> &[Named]
        ensures { result.now ≡ self.now }
    {
        self.names.as_slice()
    }
}

/// Adds a text behind another.
///
/// # Errors
/// `NoMemory` where memory was refused, and then nothing was added.
pub fn push_text(text: &str, out: &mut String) -> Result<(), NoMemory>
    ensures added { Adds out.old out.new result (chars text.now) }
    ensures err { OnErr result (chars (string_bytes out.new) ≡ chars (string_bytes out.old)) }
{
    out.push_str(text)?;
    Ok(())
}

/// Adds a character behind a text.
///
/// # Errors
/// `NoMemory` where memory was refused, and then nothing was added.
pub fn push_char(c: char, out: &mut String) -> Result<(), NoMemory>
    ensures added { Adds out.old out.new result (c ∷ []) }
    ensures err { OnErr result (chars (string_bytes out.new) ≡ chars (string_bytes out.old)) }
{
    out.push(c)?;
    Ok(())
}
