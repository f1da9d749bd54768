//! Terms as the steps that make them, the parts of a term before the term itself.

use tp_lex::{Token, TokenKind};

/// A name.
#[derive(Clone, Copy)]
pub enum Label {
    /// The name of a token. Its parts lie beside the tag, so that a label takes 24 bytes.
    Written {
        /// The token's kind.
        kind: TokenKind,
        /// The byte at which the token begins.
        from: usize,
        /// The byte after the token's last.
        to: usize,
    },
    /// The empty list `[]`.
    EmptyList,
    /// The braces `{}`.
    Braces,
    /// The name `,`.
    Comma,
}

/// A step: it takes the terms that were made last, and leaves one in their place.
#[derive(Clone, Copy)]
pub enum Step {
    /// The variable that this token names.
    Variable(Token),
    /// An integer.
    Integer(i64),
    /// An atom.
    Atom(Label),
    /// A compound of so many terms and of this name.
    Compound(u8, Label),
    /// A list of so many terms, and of the one behind them as its tail.
    List(usize),
}
