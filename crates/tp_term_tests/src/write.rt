//! Names and terms as they are written, with values from outside.

ghost use Rattle.std.specs.Prelude.{◌≡◌, ◌<◌, length, true, IfOk};
ghost use Rattle.tp_terms.specs.Shown.{AreNamed, IsNamed, StandsBefore};

use std::alloc::Global;
use std::test::Fail;
use tp_parse::{OpFault, Ops};
use tp_terms::symbols::{CALL, EMPTY_LIST, LIST_CELL};
use tp_terms::{AtomId, Atoms, Cell, Cells, NoBinds, NoMemory, Ref};
use tp_write::{write_name, write_quoted, write_term};

#[test]
fn names(rt: HostRuntime) -> Result<(), Fail> {
    let rows = [
        ("hello", "hello"),
        ("Hello", "'Hello'"),
        ("", "''"),
        ("[]", "[]"),
        ("{}", "{}"),
        ("!", "!"),
        (";", ";"),
        (",", "','"),
        ("|", "'|'"),
        (".", "'.'"),
        ("..", ".."),
        ("/*", "'/*'"),
        ("/", "/"),
        ("*/", "*/"),
        ("=..", "=.."),
        ("x_1Y", "x_1Y"),
        ("_x", "'_x'"),
        ("1a", "'1a'"),
        ("naïve", "naïve"),
        ("Éa", "Éa"),
        ("a b", "'a b'"),
        ("a+", "'a+'"),
        ("it's", "'it\\'s'"),
        ("a\\b", "'a\\\\b'"),
        ("\x07\x08\t\n\x0b\x0c\r", "'\\a\\b\\t\\n\\v\\f\\r'"),
        ("\0\x1b \x7f\u{80}", "'\\x0\\\\x1b\\ \\x7f\\\u{80}'"),
    ];
    for (name, wanted) in rows {
        let mut out = String::new(rt.alloc());
        write_name(name, &mut out)?;
        assert_eq!(rt; out.as_str(), wanted, "at {name}");
    }
    let mut out = String::new(rt.alloc());
    write_quoted("it's", &mut out)?;
    write_quoted("hello", &mut out)?;
    assert_eq!(rt; out.as_str(), "'it\\'s''hello'");
    Ok(())
}

/// Whether the cell can stand behind these cells.
fn is_ready(cell: Cell, atoms: &Atoms, cells: &Cells) -> bool
    ensures before { result ≡ true → StandsBefore (length cells.now.items) cell }
    ensures named { result ≡ true → IsNamed (length atoms.now) cell }
{
    match cell {
        Cell::Atom(name) => (name.at as usize) < atoms.len(),
        Cell::Comp { name, first, count } => {
            let len = cells.len();
            (name.at as usize) < atoms.len()
                && count > 0
                && first.at <= len
                && count as usize <= len - first.at
        }
        _ => true,
    }
}

/// Adds a cell that can stand behind these cells.
fn add(cell: Cell, atoms: &Atoms, cells: &mut Cells) -> Result<Ref, NoMemory>
    requires { AreNamed (length atoms.now) cells.old.items }
    ensures named { AreNamed (length atoms.now) cells.new.items }
    ensures place { IfOk result (λ at. at.at < length cells.new.items) }
{
    if !is_ready(cell, atoms, cells) {
        return Err(NoMemory);
    }
    let at = cells.push(cell)?;
    Ok(at)
}

/// A compound of the cells that were made last.
fn compound(
    name: AtomId,
    count: u8,
    atoms: &Atoms,
    cells: &mut Cells,
    made: &mut Vec<Cell>,
) -> Result<Cell, NoMemory>
    requires { AreNamed (length atoms.now) cells.old.items }
    ensures { AreNamed (length atoms.now) cells.new.items }
{
    let first = Ref { at: cells.len() };
    let kept = made.len().saturating_sub(count as usize);
    'parts: for k in kept..made.len() {
        add(made[k], atoms, cells)?;
    }
    made.truncate(kept);
    Ok(Cell::Comp { name, first, count })
}

/// The place of a name.
fn intern(name: &str, atoms: &mut Atoms, cells: &Cells) -> Result<AtomId, NoMemory>
    requires { AreNamed (length atoms.old) cells.now.items }
    ensures { AreNamed (length atoms.new) cells.now.items }
{
    atoms.intern(name)
}

/// The cell of a word: an integer, a variable such as `_1`, an atom, or a name and a number of
/// arguments such as `f#2`, whose arguments were made before.
fn cell_of(
    word: &str,
    atoms: &mut Atoms,
    cells: &mut Cells,
    made: &mut Vec<Cell>,
) -> Result<Cell, NoMemory>
    requires { AreNamed (length atoms.old) cells.old.items }
    ensures { AreNamed (length atoms.new) cells.new.items }
{
    if let Ok(value) = word.parse::<i64>() {
        return Ok(Cell::Int(value));
    }
    if let Some((name, count)) = word.split_once('#') {
        let name = intern(name, atoms, cells)?;
        return compound(name, count.parse::<u8>().unwrap_or(0), atoms, cells, made);
    }
    if let Some(number) = word.strip_prefix('_') {
        return Ok(Cell::Var(number.parse::<u64>().unwrap_or(0)));
    }
    let name = intern(word, atoms, cells)?;
    Ok(Cell::Atom(name))
}

/// Makes the term of words with spaces between, in which a compound stands behind its arguments.
fn term(alloc: Global, words: &str, atoms: &mut Atoms, cells: &mut Cells) -> Result<Ref, NoMemory>
    requires { AreNamed (length atoms.old) cells.old.items }
    ensures named { AreNamed (length atoms.new) cells.new.items }
    ensures place { IfOk result (λ at. at.at < length cells.new.items) }
{
    let mut made = Vec::new(alloc);
    'words: for word in words.split(' ') {
        let cell = cell_of(word, atoms, cells, &mut made)?;
        made.push(cell)?;
    }
    match made.pop() {
        Some(cell) => add(cell, atoms, cells),
        None => Err(NoMemory),
    }
}

/// The operators of the start and two more.
fn operators(alloc: Global) -> Result<Ops, OpFault> {
    let mut ops = Ops::start(alloc)?;
    ops.add(700, "fy", "not")?;
    ops.add(700, "yfx", "isa")?;
    Ok(ops)
}

/// The written form of the term of a place.
fn text_of(
    alloc: Global,
    cells: &Cells,
    root: Ref,
    max: u16,
    atoms: &Atoms,
) -> Result<String, OpFault>
    requires root { root.at < length cells.now.items }
    requires named { AreNamed (length atoms.now) cells.now.items }
{
    let ops = operators(alloc)?;
    let mut out = String::new(alloc);
    write_term(alloc, cells, root, &NoBinds, max, &ops, atoms, &mut out)?;
    Ok(out)
}

/// The written form of the term of some words.
fn written(alloc: Global, words: &str, max: u16) -> Result<String, OpFault> {
    let mut atoms = Atoms::start(alloc)?;
    let mut cells = Cells::new(alloc);
    let root = term(alloc, words, &mut atoms, &mut cells)?;
    text_of(alloc, &cells, root, max, &atoms)
}

#[test]
fn terms(rt: HostRuntime) -> Result<(), Fail> {
    let rows = [
        ("a b c ,#2 :-#2", 1200, "a :- b,c"),
        ("a b c ,#2 :-#2", 1199, "(a :- b,c)"),
        ("1 2 3 -#2 -#2", 1200, "1 - (2 - 3)"),
        ("1 2 -#2 3 -#2", 1200, "1 - 2 - 3"),
        ("1 -#1 -#1", 1200, "- - 1"),
        ("-1 -#1", 1200, "- -1"),
        (":- f#1", 1200, "f(:-)"),
        ("_0 1 -#1 =#2", 1200, "_0 = - 1"),
        ("_0 -1 =#2", 1200, "_0 = -1"),
        ("1 -1 -#2", 1200, "1 - -1"),
        ("_0 + f#1 =#2", 1200, "_0 = f(+)"),
        ("_0 - x =#2 =#2", 1200, "_0 = ((-) = x)"),
        ("_0 a b ,#2 \\+#1 =#2", 1200, "_0 = (\\+ (a,b))"),
        ("97 98 [] .#2 .#2", 1200, "[97,98]"),
        ("1 2 _1 .#2 .#2", 1200, "[1,2|_1]"),
        ("a b ,#2 + .#2", 1200, "[(a,b)|+]"),
        ("a b ,#2 {}#1", 1200, "{a,b}"),
        ("a b c {}#3", 1200, "{}(a,b,c)"),
        ("a .#1", 1200, "'.'(a)"),
        ("a b :-#2 + f#2", 1200, "f((a :- b),+)"),
        ("a b ;#2 c ;#2", 1200, "(a ; b) ; c"),
        ("a b c ;#2 ;#2", 1200, "a ; b ; c"),
        ("a X it's 'X'#3", 1200, "'\\'X\\''(a,'X','it\\'s')"),
        ("a not#1 b isa#2", 1200, "(not a) isa b"),
        ("a b isa#2 not#1", 1200, "not a isa b"),
        ("a b isa#2 c isa#2", 1200, "a isa b isa c"),
        ("-9223372036854775808", 0, "-9223372036854775808"),
    ];
    for (words, max, wanted) in rows {
        let out = written(rt.alloc(), words, max)?;
        assert_eq!(rt; out.as_str(), wanted, "at {words}");
    }
    Ok(())
}

/// So many compounds in one another, each with the cell before it as last argument, and with 1
/// before that in a pair.
fn tower(
    name: AtomId,
    pairs: bool,
    mut cell: Cell,
    atoms: &Atoms,
    cells: &mut Cells,
) -> Result<Ref, NoMemory>
    requires { AreNamed (length atoms.now) cells.old.items }
    ensures named { AreNamed (length atoms.now) cells.new.items }
    ensures place { IfOk result (λ at. at.at < length cells.new.items) }
{
    'floors: for _ in 0..100_000 {
        let count = if pairs { 2 } else { 1 };
        let first = Ref { at: cells.len() };
        if pairs {
            add(Cell::Int(1), atoms, cells)?;
        }
        add(cell, atoms, cells)?;
        cell = Cell::Comp { name, first, count };
    }
    add(cell, atoms, cells)
}

/// Adds a text so many times.
fn add_times(text: &str, times: u32, out: &mut String) -> Result<(), NoMemory> {
    for _ in 0..times {
        out.push_str(text)?;
    }
    Ok(())
}

/// The written form of a tower of lists, or of compounds of one argument.
fn tower_text(alloc: Global, pairs: bool) -> Result<String, OpFault> {
    let atoms = Atoms::start(alloc)?;
    let mut cells = Cells::new(alloc);
    let root = if pairs {
        tower(LIST_CELL, true, Cell::Atom(EMPTY_LIST), &atoms, &mut cells)?
    } else {
        tower(CALL, false, Cell::Int(7), &atoms, &mut cells)?
    };
    text_of(alloc, &cells, root, 0, &atoms)
}

/// A text so many times, a second one, and a third one so many times.
fn repeated(
    alloc: Global,
    first: (&str, u32),
    middle: &str,
    last: (&str, u32),
) -> Result<String, NoMemory> {
    let mut out = String::new(alloc);
    add_times(first.0, first.1, &mut out)?;
    out.push_str(middle)?;
    add_times(last.0, last.1, &mut out)?;
    Ok(out)
}

#[test]
fn large_terms(rt: HostRuntime) -> Result<(), Fail> {
    let nested = tower_text(rt.alloc(), false)?;
    let wanted = repeated(rt.alloc(), ("call(", 100_000), "7", (")", 100_000))?;
    assert!(rt; nested.as_str() == wanted.as_str());
    let list = tower_text(rt.alloc(), true)?;
    let wanted = repeated(rt.alloc(), ("[1", 1), "", (",1", 99_999))?;
    assert!(rt; list.as_str().strip_suffix(']') == Some(wanted.as_str()));
    Ok(())
}
