//! Tokens of texts, with values from outside.

ghost use Rattle.std.specs.Prelude.{IfOk, IfSome};
ghost use Rattle.tp_lex.specs.Next.{IsTokenOf};

use std::alloc::Global;
use std::test::Fail;
use tp_lex::*;
use tp_terms::NoMemory;

/// Texts, each with the kind and the bytes of its first token.
const TOKENS: [(&str, TokenKind, usize, usize); 28] = [
    ("0x1F ", TokenKind::Integer, 0, 4),
    (" \t\n\u{b}\u{c}\r% c\n/* c */x", TokenKind::Name, 17, 18),
    ("naïve)", TokenKind::Name, 0, 6),
    ("Éa", TokenKind::Name, 0, 3),
    ("x_1Y ", TokenKind::Name, 0, 4),
    ("Xé1+", TokenKind::Variable, 0, 4),
    ("_", TokenKind::Variable, 0, 1),
    ("+-*/\\^<>=~:.?@#&$a", TokenKind::Name, 0, 17),
    ("./* c", TokenKind::Name, 0, 3),
    (".(", TokenKind::Name, 0, 1),
    (".. ", TokenKind::Name, 0, 2),
    (".", TokenKind::End, 0, 1),
    (".\n", TokenKind::End, 0, 1),
    (".%", TokenKind::End, 0, 1),
    ("!!", TokenKind::Name, 0, 1),
    (";-", TokenKind::Name, 0, 1),
    ("'it''s'", TokenKind::Quoted, 0, 7),
    ("'' ", TokenKind::Quoted, 0, 2),
    ("\"λ\"\"\"x", TokenKind::Codes, 0, 6),
    ("((", TokenKind::Open, 0, 1),
    (" )", TokenKind::Close, 1, 2),
    ("[]", TokenKind::OpenList, 0, 1),
    ("]", TokenKind::CloseList, 0, 1),
    ("{}", TokenKind::OpenCurly, 0, 1),
    ("}", TokenKind::CloseCurly, 0, 1),
    (",", TokenKind::Comma, 0, 1),
    ("||", TokenKind::Bar, 0, 1),
    ("/*é*//**/é", TokenKind::Name, 10, 12),
];

/// Texts, each with the fault of its first token.
const FAULTS: [(&str, LexFault); 30] = [
    ("'ab", LexFault::Unfinished(0)),
    ("'ab\\", LexFault::Unfinished(0)),
    ("'ab\\x4", LexFault::Unfinished(0)),
    ("'\\xD800", LexFault::Unfinished(0)),
    (" \"ab''", LexFault::Unfinished(1)),
    ("'it''", LexFault::Unfinished(0)),
    ("\"é", LexFault::Unfinished(0)),
    ("/*", LexFault::Unfinished(0)),
    (" /*/", LexFault::Unfinished(1)),
    ("/**/ /* é *", LexFault::Unfinished(5)),
    ("`", LexFault::BadToken(0)),
    (" \u{a0}", LexFault::BadToken(1)),
    ("٣", LexFault::BadToken(0)),
    ("'a\nb'", LexFault::BadToken(0)),
    ("'a\\q", LexFault::BadToken(0)),
    ("'\\x\\'", LexFault::BadToken(0)),
    ("'\\x4G", LexFault::BadToken(0)),
    ("'\\8\\'", LexFault::BadToken(0)),
    ("'\\xD800\\", LexFault::BadToken(0)),
    ("'\\x110000\\'", LexFault::BadToken(0)),
    ("0'", LexFault::BadToken(0)),
    ("/*é*/0'\\", LexFault::BadToken(6)),
    ("0'\\x4", LexFault::BadToken(0)),
    ("0''a", LexFault::BadToken(0)),
    ("0''", LexFault::BadToken(0)),
    ("0'\n", LexFault::BadToken(0)),
    ("0'\\\n", LexFault::BadToken(0)),
    ("9223372036854775809", LexFault::NumberRange(0)),
    (" 0x8000000000000001", LexFault::NumberRange(1)),
    ("99999999999999999999999999", LexFault::NumberRange(0)),
];

/// Texts, each with the value of its first token and the byte after it.
const INTEGERS: [(&str, u64, usize); 20] = [
    ("0x1F ", 31, 4),
    ("0xfe", 254, 4),
    ("0o178", 15, 4),
    ("0b1012", 5, 5),
    ("0x", 0, 1),
    ("0xg", 0, 1),
    ("0o8", 0, 1),
    ("0b2", 0, 1),
    ("007", 7, 3),
    ("12a", 12, 2),
    ("9223372036854775808", 9_223_372_036_854_775_808, 19),
    ("0'a", 97, 3),
    ("0' ", 32, 3),
    ("0'''", 39, 4),
    ("0'\"", 34, 3),
    ("0'\\n1", 10, 4),
    ("0'\\\\", 92, 4),
    ("0'\\x41\\", 65, 7),
    ("0'é", 233, 4),
    ("0'😀", 128_512, 6),
];

/// Texts, each with the name of its first token, or what that stands for.
const NAMES: [(&str, &str); 13] = [
    ("'a\\x41\\'", "aA"),
    ("'\\x4a\\\\x4A\\'", "JJ"),
    ("'\\a\\b\\t\\n\\v\\f\\r'", "\x07\x08\t\n\x0b\x0c\r"),
    ("'\\\\\\'\\\"\\`'", "\\'\"`"),
    ("'a\\\nb'", "ab"),
    ("'\\101\\\\0\\'", "A\0"),
    ("'it''s \"'", "it's \""),
    ("\"a\"\"b'\"", "a\"b'"),
    ("'ü\\x3bb\\ 😀'", "üλ 😀"),
    ("naïve)", "naïve"),
    (" =.. ", "=.."),
    ("!x", "!"),
    ("_Xλ ", "_Xλ"),
];

/// A text with all its tokens.
const TEXT: &str = "é:-'ü'(X,\"λ\").% ∀\n";

const TOKENS_OF_TEXT: [(TokenKind, usize, usize); 9] = [
    (TokenKind::Name, 0, 2),
    (TokenKind::Name, 2, 4),
    (TokenKind::Quoted, 4, 8),
    (TokenKind::Open, 8, 9),
    (TokenKind::Variable, 9, 10),
    (TokenKind::Comma, 10, 11),
    (TokenKind::Codes, 11, 15),
    (TokenKind::Close, 15, 16),
    (TokenKind::End, 16, 17),
];

/// Names, and whether each is a letter-digit name.
const LETTER_DIGIT: [(&str, bool); 8] = [
    ("x", true),
    ("naïve_1Y", true),
    ("Éa", true),
    ("", false),
    ("Xa", false),
    ("_a", false),
    ("1a", false),
    ("a b", false),
];

/// What `next_token` answers at the start of a text.
fn first(text: &str) -> Result<Option<Token>, LexFault>
    ensures { IfOk result (λ found. IfSome found (IsTokenOf text.now)) }
{
    if text.is_char_boundary(0) {
        next_token(text, 0)
    } else {
        Ok(None)
    }
}

/// The value of the integer that the text begins with, and the byte after it.
fn value(text: &str) -> Option<(u64, usize)> {
    match first(text) {
        Ok(Some(token)) => match token.kind {
            TokenKind::Integer => Some((integer_value(text, &token), token.to)),
            _ => None,
        },
        _ => None,
    }
}

/// The name of the token that the text begins with, or what it stands for; empty where it has none.
fn name(alloc: Global, text: &str) -> Result<String, NoMemory> {
    let Ok(Some(token)) = first(text) else {
        return Ok(String::new(alloc));
    };
    match token.kind {
        TokenKind::Name | TokenKind::Quoted | TokenKind::Variable | TokenKind::Codes => {
            token_text(alloc, text, &token)
        }
        _ => Ok(String::new(alloc)),
    }
}

/// The first row of `TOKENS_OF_TEXT` that is another token.
fn other_token() -> Option<usize> {
    for (at, (kind, from, to)) in TOKENS_OF_TEXT.iter().enumerate() {
        let wanted = Token {
            kind: *kind,
            from: *from,
            to: *to,
        };
        if !TEXT.is_char_boundary(*from) || next_token(TEXT, *from) != Ok(Some(wanted)) {
            return Some(at);
        }
    }
    // Only a comment and a newline remain.
    if TEXT.is_char_boundary(17) && next_token(TEXT, 17) == Ok(None) {
        None
    } else {
        Some(TOKENS_OF_TEXT.len())
    }
}

#[test]
fn tokens(rt: HostRuntime) -> Result<(), Fail> {
    for (text, kind, from, to) in TOKENS {
        let wanted = Token { kind, from, to };
        assert_eq!(rt; first(text), Ok(Some(wanted)), "at {text}");
    }
    for text in ["", "  % c"] {
        assert_eq!(rt; first(text), Ok(None), "at {text}");
    }
    assert_eq!(rt; other_token(), None);
    Ok(())
}

#[test]
fn faults(rt: HostRuntime) -> Result<(), Fail> {
    for (text, fault) in FAULTS {
        assert_eq!(rt; first(text), Err(fault), "at {text}");
    }
    Ok(())
}

#[test]
fn integers(rt: HostRuntime) -> Result<(), Fail> {
    for (text, number, to) in INTEGERS {
        assert_eq!(rt; value(text), Some((number, to)), "at {text}");
    }
    Ok(())
}

#[test]
fn names(rt: HostRuntime) -> Result<(), Fail> {
    for (text, wanted) in NAMES {
        let found = name(rt.alloc(), text)?;
        assert_eq!(rt; found.as_str(), wanted, "at {text}");
    }
    for (name, wanted) in LETTER_DIGIT {
        assert_eq!(rt; is_letter_digit(name), wanted, "at {name}");
    }
    Ok(())
}

#[test]
fn classes(rt: HostRuntime) -> Result<(), Fail> {
    assert!(rt; are_in_class(Class::Graphic, "+-*/\\^<>=~:.?@#&$"));
    assert!(rt; is_layout(' ') && is_graphic('$') && is_name_start('é') && is_variable_start('_'));
    assert!(rt; !is_in_class(Class::Continuing, '-') && split_first("").is_none());
    Ok(())
}
