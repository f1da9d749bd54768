//! Terms, read from words into the steps that make them.

ghost use Rattle.std.specs.Prelude.{◌≡◌, ◌+◌, ◌-◌, ◌<◌, ◌≤◌, ◌&&◌, nat_le, ℕ, suc, List, []};
ghost use Rattle.std.specs.Prelude.{length, Some, IfErr, IfOk, IfSome, IsTrue, OnErr, OnOk};
ghost use Rattle.tp_lex.specs.Next.{IsTokenOf};
ghost use Rattle.tp_parse.specs.Gives.{Fails, FollowsArg, compound, operand};
ghost use Rattle.tp_parse.specs.Ahead.{after_first, first_kind, first_value, is_minus};
ghost use Rattle.tp_parse.specs.Progress.{IsUnderway, IsWordOf, ReadsArgument, ReadsBehindElement};
ghost use Rattle.tp_parse.specs.Progress.{ReadsElement, ReadsList, ReadsPart, ReadsParts, ReadsRow};
ghost use Rattle.tp_parse.specs.Progress.{ReadsTerm, ahead_in, inner_of, made_in, name_in, ops_of};
ghost use Rattle.tp_parse.specs.Progress.{token_of};
ghost use Rattle.tp_parse.specs.Reading.{Read, Term, after_arg, args, braced, bracketed, elements};
ghost use Rattle.tp_parse.specs.Reading.{is_taken, listed, named, prefixed, primary, tail};
ghost use Rattle.tp_parse.specs.Reading.{too_deep};
ghost use Rattle.tp_parse.specs.Steps.{IsLabel, ends_list, infix_word, is_named, label_name};
ghost use Rattle.tp_parse.specs.Steps.{operator_of, taken_of};
ghost use Rattle.tp_parse.specs.Words.{after_word, ahead, first_word, integer_by, kind_of};
ghost use Rattle.tp_parse.specs.Tree.{Atom, Integer, Tree, Trees, minus};
ghost use Rattle.tp_lex.specs.Tokens.{Lexed};

use crate::cursor::Cursor;
use crate::fault::ReadCause;
use crate::leaves::{is_minus, link, negative, read_simple};
use crate::progress::Progress;
use crate::steps::{Label, Step};
use crate::stop::{Follows, Stop};
use crate::table::{Op, left_bound, right_bound};
use crate::words::{Source, Word, written};
use tp_lex::{TokenKind, integer_value};

/// The largest priority of a term.
const MOST: u16 = 1200;

/// The largest priority of an argument or an element.
const ARGUMENT: u16 = 999;

/// The most arguments of a compound.
const MOST_ARGUMENTS: u8 = 255;

/// Whether an infix operator is taken behind a term of this priority.
fn is_taken(op: Op, bound: u16, priority: u16) -> bool
    ensures { result ≡ is_taken op bound priority }
{
    op.0 <= bound && priority <= left_bound(op)
}

/// Why no term of this depth begins there.
fn too_deep(cursor: &Cursor<'_>) -> Stop
    ensures fails { (text : List ℕ) →
        let ts = ahead text cursor.now in Fails ts result (too_deep ts) }
    ensures memory { ¬ (result ≡ Stop.NoMemory) }
{
    match cursor.first() {
        Some(_) => Stop::At(ReadCause::Depth),
        None => Stop::At(ReadCause::Syntax),
    }
}

/// The operator that a name is before the next words, if it isn't an atom there.
fn operator(word: Word, cursor: &Cursor<'_>) -> Option<Op>
    ensures { result ≡ operator_of word cursor.now }
{
    match word.as_prefix {
        Some(op) => {
            if cursor.makes_atom() {
                return None;
            }
            Some(op)
        }
        None => None,
    }
}

/// The infix operator that is taken behind a term of this priority, with its name.
fn next_infix(cursor: &Cursor<'_>, bound: u16, priority: u16) -> Option<(Label, Op)>
    ensures { result ≡ taken_of bound priority (infix_word (first_word cursor.now)) }
{
    match cursor.infix() {
        Some((label, op)) => {
            if is_taken(op, bound, priority) {
                return Some((label, op));
            }
            None
        }
        None => None,
    }
}

/// A name that is an atom.
fn read_atom(source: &Source<'_>, at: &mut Progress<'_>, word: Word) -> Result<u16, Stop>
    requires going { IsUnderway source.now at.old }
    requires known { IsWordOf source.now word }
    requires named { IsTrue (is_named word.token.kind) }
    ensures gives { ReadsTerm source.now at.old at.new result
        (Ok (Atom (name_in source.now word), 0, ahead_in source.now at.old)) }
    ensures going { IsUnderway source.now at.new }
    ensures shorter { OnOk result (length at.new.cursor ≤ length at.old.cursor) }
{
    at.steps.push(Step::Atom(written(word)))?;
    Ok(0)
}

/// The negative of the integer that stands there.
fn read_negative(source: &Source<'_>, at: &mut Progress<'_>) -> Result<u16, Stop>
    requires going { IsUnderway source.now at.old }
    requires integer { IsTrue (integer_by (first_word at.old.cursor)) }
    ensures gives { let ts = ahead_in source.now at.old in ReadsTerm source.now at.old at.new result
        (Ok (Integer (minus (first_value ts)), 0, after_first ts)) }
    ensures going { IsUnderway source.now at.new }
    ensures shorter { OnOk result (length at.new.cursor ≤ length at.old.cursor) }
{
    let Some(word) = at.cursor.first() else {
        return Err(Stop::At(ReadCause::Syntax));
    };
    let value = integer_value(source.text, &word.token);
    at.cursor.pass();
    at.steps.push(Step::Integer(negative(value)))?;
    Ok(0)
}

/// A name of the grammar that is an atom, made of the token that stands there.
fn pass_atom(source: &Source<'_>, at: &mut Progress<'_>, label: Label) -> Result<u16, Stop>
    requires going { IsUnderway source.now at.old }
    requires label { IsLabel source.now.text.now label }
    requires some { 0 < length at.old.cursor }
    ensures gives { ReadsTerm source.now at.old at.new result
        (Ok (
          Atom (label_name source.now.text.now label),
          0,
          after_first (ahead_in source.now at.old),
        )) }
    ensures going { IsUnderway source.now at.new }
    ensures shorter { OnOk result (length at.new.cursor < length at.old.cursor) }
{
    at.cursor.pass();
    at.steps.push(Step::Atom(label))?;
    Ok(0)
}

/// What follows an argument, where so many more may come.
fn follow_argument(cursor: &mut Cursor<'_>, rest: u8) -> Result<Follows, Stop>
    ensures follows { (text : List ℕ)
        (more : List Lexed → Read (Trees × List Lexed)) (tree : Tree) →
        let ts = ahead text cursor.old in
        FollowsArg more rest tree (ahead text cursor.new) result
        (after_arg more rest tree ts (first_kind ts)) }
    ensures after { OnOk result (cursor.new ≡ after_word cursor.old) }
    ensures memory { IfErr result (λ stop. ¬ (stop ≡ Stop.NoMemory)) }
    ensures err { OnErr result (cursor.new ≡ cursor.old) }
{
    let Some(kind) = cursor.kind() else {
        return Err(Stop::At(ReadCause::Syntax));
    };
    match kind {
        TokenKind::Close => {
            cursor.pass();
            Ok(Follows::Nothing)
        }
        TokenKind::Comma => {
            if rest == 0 {
                return Err(Stop::At(ReadCause::Arity));
            }
            cursor.pass();
            Ok(Follows::More)
        }
        _ => Err(Stop::At(ReadCause::Syntax)),
    }
}

/// Whether the words are a negative integer behind the name `-`.
fn negates(source: &Source<'_>, word: Word, cursor: &Cursor<'_>) -> bool
    requires { IsTokenOf source.now.text.now word.token }
    ensures { result ≡ (is_minus (token_of source.now word) && integer_by (first_word cursor.now)) }
{
    is_minus(source, word) && cursor.is_integer_directly()
}

/// A term with a bound, within so many levels.
#[cycle(reader)]
pub fn read(
    source: &Source<'_>,
    at: &mut Progress<'_>,
    bound: u16,
    levels: u16,
) -> Result<u16, Stop>
    requires going { IsUnderway source.now at.old }
    ensures gives { ReadsTerm source.now at.old at.new result
        (inner_of source.now levels bound (ahead_in source.now at.old)) }
    ensures going { IsUnderway source.now at.new }
    ensures memory { result ≡ Err Stop.NoMemory → 0 < length at.old.cursor }
    ensures levels { result ≡ Err Stop.NoMemory → 0 < levels }
    ensures shorter { OnOk result (length at.new.cursor < length at.old.cursor) }
{
    if levels == 0 {
        return Err(too_deep(&at.cursor));
    }
    let priority = read_primary(source, at, bound, levels - 1)?;
    read_infix_parts(source, at, bound, levels - 1, priority)
}

/// The first part of a term.
#[cycle(reader)]
fn read_primary(
    source: &Source<'_>,
    at: &mut Progress<'_>,
    bound: u16,
    levels: u16,
) -> Result<u16, Stop>
    requires going { IsUnderway source.now at.old }
    ensures gives { ReadsTerm source.now at.old at.new result
        (primary (ops_of source.now) (inner_of source.now levels) bound
        (ahead_in source.now at.old)) }
    ensures going { IsUnderway source.now at.new }
    ensures memory { result ≡ Err Stop.NoMemory → 0 < length at.old.cursor }
    ensures shorter { OnOk result (length at.new.cursor < length at.old.cursor) }
{
    let Some(word) = at.cursor.first() else {
        return Err(Stop::At(ReadCause::Syntax));
    };
    match word.token.kind {
        TokenKind::Name | TokenKind::Quoted => {
            at.cursor.pass();
            read_named(source, at, bound, levels, word)
        }
        TokenKind::Open => {
            at.cursor.pass();
            read_bracketed(source, at, levels)
        }
        TokenKind::OpenList => {
            at.cursor.pass();
            read_listed(source, at, levels)
        }
        TokenKind::OpenCurly => {
            at.cursor.pass();
            read_braced(source, at, levels)
        }
        _ => read_simple(source, at, word),
    }
}

/// A term in parentheses, from behind the first one.
#[cycle(reader)]
#[tactic(auto, unfolding(crate::specs::Reading::bracketed))]
fn read_bracketed(source: &Source<'_>, at: &mut Progress<'_>, levels: u16) -> Result<u16, Stop>
    requires going { IsUnderway source.now at.old }
    ensures gives { ReadsTerm source.now at.old at.new result
        (bracketed (inner_of source.now levels) (ahead_in source.now at.old)) }
    ensures going { IsUnderway source.now at.new }
    ensures shorter { OnOk result (length at.new.cursor < length at.old.cursor) }
{
    read(source, at, MOST, levels)?;
    at.cursor.pass_closing(TokenKind::Close)?;
    Ok(0)
}

/// A term in braces, from behind the first one.
#[cycle(reader)]
#[tactic(auto, unfolding(crate::specs::Reading::braced))]
fn read_braced(source: &Source<'_>, at: &mut Progress<'_>, levels: u16) -> Result<u16, Stop>
    requires going { IsUnderway source.now at.old }
    ensures gives { ReadsTerm source.now at.old at.new result
        (braced (inner_of source.now levels) (ahead_in source.now at.old)) }
    ensures going { IsUnderway source.now at.new }
    ensures shorter { OnOk result (length at.new.cursor < length at.old.cursor) }
{
    if at.cursor.closes(TokenKind::CloseCurly) {
        return pass_atom(source, at, Label::Braces);
    }
    read(source, at, MOST, levels)?;
    at.cursor.pass_closing(TokenKind::CloseCurly)?;
    at.steps.push(Step::Compound(1, Label::Braces))?;
    Ok(0)
}

/// An argument, where so many more may come, and what follows it.
#[cycle(reader)]
fn read_argument(
    source: &Source<'_>,
    at: &mut Progress<'_>,
    levels: u16,
    rest: u8,
) -> Result<Follows, Stop>
    requires going { IsUnderway source.now at.old }
    ensures gives { let inner = inner_of source.now levels in
        ReadsArgument source.now at.old at.new inner rest result }
    ensures going { IsUnderway source.now at.new }
    ensures shorter { OnOk result (length at.new.cursor < length at.old.cursor) }
{
    read(source, at, ARGUMENT, levels)?;
    follow_argument(&mut at.cursor, rest)
}

/// Arguments, from behind the first parenthesis, and how many there are.
#[cycle(reader)]
fn read_args(source: &Source<'_>, at: &mut Progress<'_>, levels: u16) -> Result<u8, Stop>
    requires going { IsUnderway source.now at.old }
    ensures gives { ReadsRow source.now at.old at.new result
        (args (inner_of source.now levels) 255 (ahead_in source.now at.old)) }
    ensures going { IsUnderway source.now at.new }
    ensures shorter { OnOk result (length at.new.cursor < length at.old.cursor) }
{
    'arguments: for index in 0..MOST_ARGUMENTS {
        match read_argument(source, at, levels, 254 - index)? {
            Follows::More => {}
            Follows::Nothing => return Ok(index + 1),
        }
    }
    Err(Stop::At(ReadCause::Arity))
}

/// The tail of a list, and the bracket that closes it.
#[cycle(reader)]
fn read_tail(source: &Source<'_>, at: &mut Progress<'_>, levels: u16) -> Result<(), Stop>
    requires going { IsUnderway source.now at.old }
    ensures gives { ReadsList source.now at.old at.new result
        (tail (inner_of source.now levels) (ahead_in source.now at.old)) }
    ensures going { IsUnderway source.now at.new }
    ensures shorter { OnOk result (length at.new.cursor < length at.old.cursor) }
{
    read(source, at, ARGUMENT, levels)?;
    at.cursor.pass_closing(TokenKind::CloseList)?;
    Ok(())
}

/// What follows an element.
#[cycle(reader)]
fn follow_element(source: &Source<'_>, at: &mut Progress<'_>, levels: u16) -> Result<Follows, Stop>
    requires going { IsUnderway source.now at.old }
    requires some { 0 < length (made_in source.now at.old) }
    ensures gives { (n : ℕ) →
        ReadsBehindElement source.now at.old at.new (inner_of source.now levels) n result }
    ensures memory { result ≡ Err Stop.NoMemory →
        IfSome (kind_of (first_word at.old.cursor)) (λ kind. IsTrue (ends_list kind)) }
    ensures going { IsUnderway source.now at.new }
    ensures shorter { OnOk result (length at.new.cursor < length at.old.cursor) }
{
    let Some(kind) = at.cursor.kind() else {
        return Err(Stop::At(ReadCause::Syntax));
    };
    match kind {
        TokenKind::Comma => {
            at.cursor.pass();
            Ok(Follows::More)
        }
        TokenKind::CloseList => {
            pass_atom(source, at, Label::EmptyList)?;
            Ok(Follows::Nothing)
        }
        TokenKind::Bar => {
            at.cursor.pass();
            read_tail(source, at, levels)?;
            Ok(Follows::Nothing)
        }
        _ => Err(Stop::At(ReadCause::Syntax)),
    }
}

/// An element of a list, and what follows it.
#[cycle(reader)]
fn read_element(source: &Source<'_>, at: &mut Progress<'_>, levels: u16) -> Result<Follows, Stop>
    requires going { IsUnderway source.now at.old }
    ensures gives { (n : ℕ) →
        ReadsElement source.now at.old at.new (inner_of source.now levels) n result }
    ensures going { IsUnderway source.now at.new }
    ensures shorter { OnOk result (length at.new.cursor < length at.old.cursor) }
{
    read(source, at, ARGUMENT, levels)?;
    follow_element(source, at, levels)
}

/// Elements of a list, from the first one on.
#[cycle(reader)]
fn read_elements(source: &Source<'_>, at: &mut Progress<'_>, levels: u16) -> Result<(), Stop>
    requires going { IsUnderway source.now at.old }
    ensures gives { let ts = ahead_in source.now at.old in ReadsList source.now at.old at.new result
        (elements (inner_of source.now levels) (length ts) ts) }
    ensures going { IsUnderway source.now at.new }
    ensures shorter { OnOk result (length at.new.cursor < length at.old.cursor) }
{
    let most = at.cursor.len();
    'elements: for index in 0..most {
        match read_element(source, at, levels)? {
            Follows::More => {}
            Follows::Nothing => {
                link(&mut at.steps, index + 1, source)?;
                return Ok(());
            }
        }
    }
    Err(Stop::At(ReadCause::Syntax))
}

/// A list, from behind the first bracket.
#[cycle(reader)]
#[tactic(auto, unfolding(crate::specs::Reading::listed))]
fn read_listed(source: &Source<'_>, at: &mut Progress<'_>, levels: u16) -> Result<u16, Stop>
    requires going { IsUnderway source.now at.old }
    ensures gives { ReadsTerm source.now at.old at.new result
        (listed (inner_of source.now levels) (ahead_in source.now at.old)) }
    ensures going { IsUnderway source.now at.new }
    ensures shorter { OnOk result (length at.new.cursor < length at.old.cursor) }
{
    if at.cursor.closes(TokenKind::CloseList) {
        return pass_atom(source, at, Label::EmptyList);
    }
    read_elements(source, at, levels)?;
    Ok(0)
}

/// The operand of a prefix operator, from behind its name.
#[cycle(reader)]
fn read_operand(
    source: &Source<'_>,
    at: &mut Progress<'_>,
    levels: u16,
    word: Word,
    op: Op,
) -> Result<u16, Stop>
    requires going { IsUnderway source.now at.old }
    requires known { IsWordOf source.now word }
    requires named { IsTrue (is_named word.token.kind) }
    ensures gives { ReadsTerm source.now at.old at.new result
        (operand (inner_of source.now levels) (name_in source.now word)
        (ahead_in source.now at.old) op) }
    ensures going { IsUnderway source.now at.new }
    ensures shorter { OnOk result (length at.new.cursor ≤ length at.old.cursor) }
{
    read(source, at, right_bound(op), levels)?;
    at.steps.push(Step::Compound(1, written(word)))?;
    Ok(op.0)
}

/// An atom, or a prefix operator with its operand, from behind the name.
#[cycle(reader)]
fn read_prefixed(
    source: &Source<'_>,
    at: &mut Progress<'_>,
    bound: u16,
    levels: u16,
    word: Word,
) -> Result<u16, Stop>
    requires going { IsUnderway source.now at.old }
    requires known { IsWordOf source.now word }
    requires named { IsTrue (is_named word.token.kind) }
    ensures gives { ReadsTerm source.now at.old at.new result
        (prefixed (ops_of source.now) (inner_of source.now levels) bound (name_in source.now word)
        (ahead_in source.now at.old)) }
    ensures memory { result ≡ Err Stop.NoMemory →
        IfSome (operator_of word at.old.cursor) (λ op. op.0 ≤ bound) }
    ensures going { IsUnderway source.now at.new }
    ensures shorter { OnOk result (length at.new.cursor ≤ length at.old.cursor) }
{
    let Some(op) = operator(word, &at.cursor) else {
        return read_atom(source, at, word);
    };
    if op.0 > bound {
        return Err(Stop::At(ReadCause::Syntax));
    }
    read_operand(source, at, levels, word, op)
}

/// A compound, from behind its name.
#[cycle(reader)]
fn read_compound(
    source: &Source<'_>,
    at: &mut Progress<'_>,
    levels: u16,
    word: Word,
) -> Result<u16, Stop>
    requires going { IsUnderway source.now at.old }
    requires known { IsWordOf source.now word }
    requires named { IsTrue (is_named word.token.kind) }
    ensures gives { ReadsTerm source.now at.old at.new result
        (compound (inner_of source.now levels) (name_in source.now word)
        (ahead_in source.now at.old)) }
    ensures going { IsUnderway source.now at.new }
    ensures shorter { OnOk result (length at.new.cursor ≤ length at.old.cursor) }
{
    at.cursor.pass();
    let count = read_args(source, at, levels)?;
    at.steps.push(Step::Compound(count, written(word)))?;
    Ok(0)
}

/// What begins with a name, from behind it.
#[cycle(reader)]
#[tactic(auto, unfolding(crate::specs::Reading::named))]
fn read_named(
    source: &Source<'_>,
    at: &mut Progress<'_>,
    bound: u16,
    levels: u16,
    word: Word,
) -> Result<u16, Stop>
    requires going { IsUnderway source.now at.old }
    requires known { IsWordOf source.now word }
    requires named { IsTrue (is_named word.token.kind) }
    ensures gives { ReadsTerm source.now at.old at.new result
        (named (ops_of source.now) (inner_of source.now levels) bound (token_of source.now word)
        (ahead_in source.now at.old)) }
    ensures going { IsUnderway source.now at.new }
    ensures shorter { OnOk result (length at.new.cursor ≤ length at.old.cursor) }
{
    if at.cursor.opens_directly() {
        return read_compound(source, at, levels, word);
    }
    if negates(source, word, &at.cursor) {
        return read_negative(source, at);
    }
    read_prefixed(source, at, bound, levels, word)
}

/// An infix part behind a term of this priority, if one is there: the priority with it.
#[cycle(reader)]
fn read_infix_part(
    source: &Source<'_>,
    at: &mut Progress<'_>,
    bound: u16,
    levels: u16,
    priority: u16,
) -> Result<Option<u16>, Stop>
    requires going { IsUnderway source.now at.old }
    requires some { 0 < length (made_in source.now at.old) }
    ensures gives { (more : Tree → ℕ → List Lexed → Read Term) →
        ReadsPart source.now at.old at.new (inner_of source.now levels) more bound priority result }
    ensures going { IsUnderway source.now at.new }
    ensures shorter { OnOk result (length at.new.cursor ≤ length at.old.cursor) }
{
    let Some((label, op)) = next_infix(&at.cursor, bound, priority) else {
        return Ok(None);
    };
    at.cursor.pass();
    read(source, at, right_bound(op), levels)?;
    at.steps.push(Step::Compound(2, label))?;
    Ok(Some(op.0))
}

/// The infix parts behind a term of this priority.
#[cycle(reader)]
fn read_infix_parts(
    source: &Source<'_>,
    at: &mut Progress<'_>,
    bound: u16,
    levels: u16,
    priority: u16,
) -> Result<u16, Stop>
    requires going { IsUnderway source.now at.old }
    requires some { 0 < length (made_in source.now at.old) }
    ensures gives { let inner = inner_of source.now levels in
        ReadsParts source.now at.old at.new inner bound priority result }
    ensures going { IsUnderway source.now at.new }
    ensures shorter { OnOk result (length at.new.cursor ≤ length at.old.cursor) }
{
    let mut priority = priority;
    let most = at.cursor.len();
    'parts: for _ in 0..most {
        match read_infix_part(source, at, bound, levels, priority)? {
            Some(taken) => priority = taken,
            None => return Ok(priority),
        }
    }
    Ok(priority)
}
