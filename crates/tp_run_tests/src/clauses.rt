//! Each public call once, on a model from outside. The refusals are cases of the program.

use std::alloc::Global;
use std::test::Fail;
use tp_clauses::{Base, Cause, ClauseId, FirstArg, LoadFault};
use tp_terms::symbols::CALL;
use tp_terms::{AtomId, Atoms, Cell};

/// Whether the first and the third clause are those of `p` with one argument, and the second is
/// that of `q`.
fn lists(base: &Base, p: AtomId, q: AtomId) -> bool {
    base.clauses(p, 1) == Some([ClauseId { at: 0 }, ClauseId { at: 2 }].as_slice())
        && base.clauses(q, 0) == Some([ClauseId { at: 1 }].as_slice())
        && base.clauses(p, 2).is_none()
        && base.count() == 3
}

/// The number of variables of the third clause, and the name of the first goal of its body.
fn third_clause(base: &Base) -> Option<(u64, AtomId)> {
    if base.count() < 3 {
        return None;
    }
    let view = base.clause(ClauseId { at: 2 });
    let body = view.body?;
    let Cell::Comp { first, .. } = base.cells().get(body) else {
        return None;
    };
    match base.cells().get(first) {
        Cell::Comp { name, .. } => Some((view.vars, name)),
        _ => None,
    }
}

/// Why the text of a model has no base.
fn refusal(alloc: Global, text: &[u8]) -> Result<Option<LoadFault>, Fail> {
    let mut atoms = Atoms::start(alloc)?;
    Ok(Base::load(alloc, text, &mut atoms).err())
}

#[test]
fn clauses_of_a_model(rt: HostRuntime) -> Result<(), Fail> {
    let mut atoms = Atoms::start(rt.alloc())?;
    let base = Base::load(rt.alloc(), b"p(1). q. p(X) :- X, q.", &mut atoms)?;
    let (p, q) = (atoms.intern("p")?, atoms.intern("q")?);
    // the variable that stands as a goal is called
    let third = third_clause(&base) == Some((1, CALL));
    assert!(rt; lists(&base, p, q) && third && base.ops().infix("is").is_some());
    Ok(())
}

#[test]
fn a_model_is_refused(rt: HostRuntime) -> Result<(), Fail> {
    let wanted = LoadFault::Refused {
        clause: 2,
        byte: 3,
        cause: Cause::Builtin,
    };
    let refused = refusal(rt.alloc(), b"p. call(a,b,c,d,e,f,g,h) :- 1.")?;
    assert_eq!(rt; refused, Some(wanted));
    Ok(())
}

/// Whether the goals of `p`, with three facts, are tried with those that may match.
fn tells_candidates(base: &Base, p: AtomId, f: AtomId) -> bool {
    let (one, two, three) = (ClauseId { at: 0 }, ClauseId { at: 1 }, ClauseId { at: 2 });
    base.candidates(p, 1, FirstArg::Int(1)) == Some([one, three].as_slice())
        && base.candidates(p, 1, FirstArg::Comp(f, 1)) == Some([three].as_slice())
        && base.candidates(p, 1, FirstArg::Any) == Some([one, two, three].as_slice())
        && base.candidates(f, 1, FirstArg::Any).is_none()
        && base.count() == 3
        && base.place(three) == 2
}

#[test]
fn candidates_of_a_goal(rt: HostRuntime) -> Result<(), Fail> {
    let mut atoms = Atoms::start(rt.alloc())?;
    let base = Base::load(rt.alloc(), b"p(1). p(a). p(X).", &mut atoms)?;
    let (p, f) = (atoms.intern("p")?, atoms.intern("f")?);
    assert!(rt; tells_candidates(&base, p, f));
    Ok(())
}
