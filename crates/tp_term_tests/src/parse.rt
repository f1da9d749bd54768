//! Each public function once, with values from outside. What is read is shown by the cases of
//! tests/cases, where the built program reads and writes.

use std::alloc::Global;
use std::test::Fail;
use tp_parse::laws::{one_reading, what_is_read};
use tp_parse::{OpFault, OpType, Ops, ReadCause, ReadFault, ReadTerm, read_clause, read_goal};
use tp_terms::Atoms;

/// Operators that are added in turn, with the answers.
const ADDED: [(i64, &str, &str, Result<(), OpFault>); 7] = [
    (1201, "xfx", "a", Err(OpFault::Priority)),
    (700, "yf", "a", Err(OpFault::Kind)),
    (700, "xfx", ",", Err(OpFault::Name)),
    (0, "xfx", "[]", Err(OpFault::Name)),
    (1200, "fy", "\\+", Ok(())),
    (0, "xfx", "=", Ok(())),
    (0, "fy", "-", Ok(())),
];

/// The first of these operators, added in turn, whose answer isn't the wanted one.
fn other_addition(ops: &mut Ops, rows: &[(i64, &str, &str, Result<(), OpFault>)]) -> Option<usize> {
    for (at, (priority, kind, name, wanted)) in rows.iter().enumerate() {
        if ops.add(*priority, kind, name) != *wanted {
            return Some(at);
        }
    }
    None
}

/// How many cells and variables a term has, and its first byte and the byte after its last.
type Measures = (usize, u64, usize, usize);

/// These of a term that was read.
fn measures(term: ReadTerm) -> Measures {
    (term.cells.len(), term.vars, term.from, term.to)
}

/// The same, or the refusal.
fn outcome(found: Result<ReadTerm, ReadFault>) -> Result<Measures, ReadFault> {
    found.map(measures)
}

/// Whether operators are added and taken out as they are to be.
fn changes_operators(alloc: Global) -> Result<bool, Fail> {
    let mut ops = Ops::start(alloc)?;
    let other = other_addition(&mut ops, &ADDED);
    Ok(
        other.is_none()
            && ops.infix("=").is_none()
            && ops.prefix("-").is_none()
            && ops.infix("-") == Some((500, OpType::Yfx))
            && ops.prefix("\\+") == Some((1200, OpType::Fy)),
    )
}

/// What a goal is read as by a table without the prefix operator `-`.
fn goal(alloc: Global, text: &str) -> Result<Result<Measures, ReadFault>, Fail> {
    let mut ops = Ops::start(alloc)?;
    let mut atoms = Atoms::start(alloc)?;
    ops.add(0, "fy", "-")?;
    Ok(outcome(read_goal(alloc, text, &ops, &mut atoms)))
}

/// What the clause from a byte on is read as, and how many of its variables have names.
fn clause(alloc: Global, text: &str, at: usize) -> Result<Option<(Measures, usize)>, Fail> {
    let ops = Ops::start(alloc)?;
    let mut atoms = Atoms::start(alloc)?;
    if !text.is_char_boundary(at) {
        return Err(Fail::new("no boundary"));
    }
    let Some(read) = read_clause(alloc, text, at, &ops, &mut atoms)? else {
        return Ok(None);
    };
    let named = read.named.as_slice().len();
    Ok(Some((measures(read), named)))
}

#[test]
fn each_public_function(rt: HostRuntime) -> Result<(), Fail> {
    one_reading();
    what_is_read();
    assert!(rt; changes_operators(rt.alloc())?);
    // A negative integer needs no operator.
    assert_eq!(rt; goal(rt.alloc(), "f(X,-1,_,X)")?, Ok((5, 2, 0, 11)));
    let refused = ReadFault::Refused {
        byte: 4,
        cause: ReadCause::Syntax,
    };
    assert_eq!(rt; goal(rt.alloc(), "f(a,")?, Err(refused));
    assert_eq!(rt; clause(rt.alloc(), " p(X). ", 0)?, Some(((2, 1, 1, 6), 1)));
    assert_eq!(rt; clause(rt.alloc(), " p(X). ", 6)?, None);
    Ok(())
}
