//! Tokens and the faults of a text that has none.

/// A kind of token, after ISO/IEC 13211-1, 6.4.
#[derive(Clone, Copy, Debug, PartialEq, Eq)]
pub enum TokenKind {
    /// A letter-digit name, graphic characters, `!` or `;`.
    Name,
    /// Characters between `'`.
    Quoted,
    /// A variable.
    Variable,
    /// An integer that is not negative.
    Integer,
    /// Characters between `"`.
    Codes,
    /// `(`.
    Open,
    /// `)`.
    Close,
    /// `[`.
    OpenList,
    /// `]`.
    CloseList,
    /// `{`.
    OpenCurly,
    /// `}`.
    CloseCurly,
    /// `,`.
    Comma,
    /// `|`.
    Bar,
    /// The dot that ends a clause.
    End,
}

/// A token of a text.
#[derive(Clone, Copy, Debug, PartialEq, Eq)]
pub struct Token {
    /// The kind.
    pub kind: TokenKind,
    /// The byte at which the token begins, from 0.
    pub from: usize,
    /// The byte after the token's last.
    pub to: usize,
}

/// Why there is no next token, with the byte at which the token or comment begins, from 0.
#[derive(Clone, Copy, Debug, PartialEq, Eq)]
pub enum LexFault {
    /// No token begins there, or the token is broken.
    BadToken(usize),
    /// The value of the integer is above 9223372036854775808.
    NumberRange(usize),
    /// The text ends inside quotes or inside a comment.
    Unfinished(usize),
}

/// A fault without its byte.
#[derive(Clone, Copy, Debug, PartialEq, Eq)]
pub enum Fault {
    /// No token begins there, or the token is broken.
    BadToken,
    /// The value of the integer is above 9223372036854775808.
    NumberRange,
    /// The text ends inside quotes or inside a comment.
    Unfinished,
}
