//! Each public call with ample memory, on values from outside.

ghost use Rattle.std.specs.Prelude.{◌≡◌, codes, [], ◌∷◌, IfOk};
ghost use Rattle.tp_terms.specs.Term.{Var, comp, nat};
ghost use Rattle.tp_terms.specs.Shown.{shows};

use std::alloc::Global;
use std::test::Fail;
use tp_terms::*;

/// Names of the start, each with its place.
const SYMBOLS: [(AtomId, &str); 11] = [
    (symbols::LIST_CELL, "."),
    (symbols::EMPTY_LIST, "[]"),
    (symbols::NOT_PROVABLE, "\\+"),
    (symbols::BETWEEN, "between"),
    (symbols::SELF, "self"),
    (symbols::UNIV, "=.."),
    (symbols::BIT_OR, "\\/"),
    (symbols::CARET, "^"),
    (symbols::FX, "fx"),
    (symbols::UNDEFINED, "undefined"),
    (symbols::INF, "inf"),
];

/// The cells of `f(_0,1)` under a table of names that has `f` alone, and the place of that term.
fn pair(alloc: Global) -> Result<(Cells, Ref), NoMemory>
    ensures { IfOk result (λ r.
        shows (codes "f" ∷ []) r.0.items r.1.at ≡ comp "f" (Var 0 ∷ nat 1 ∷ [])) }
{
    let mut cells = Cells::new(alloc);
    cells.reserve(3)?;
    let first = cells.push(Cell::Var(0))?;
    cells.push(Cell::Int(1))?;
    let whole = cells.push(Cell::Comp {
        name: AtomId { at: 0 },
        first,
        count: 2,
    })?;
    Ok((cells, whole))
}

/// The variable `Größe` with the number 3.
fn named(alloc: Global) -> Result<Names, NoMemory> {
    let mut text = String::new(alloc);
    push_text("Größ", &mut text)?;
    push_char('e', &mut text)?;
    let mut names = Vec::new(alloc);
    names.push(Named {
        name: Text::new(text),
        number: 3,
    })?;
    Ok(Names::new(names))
}

#[test]
fn worked_rows(rt: HostRuntime) -> Result<(), Fail> {
    symbols::names_at_start();
    let mut atoms = Atoms::start(rt.alloc())?;
    for (symbol, name) in SYMBOLS {
        let atom = atoms.intern(name)?;
        assert_eq!(rt; atom, symbol, "at {name}");
        assert_eq!(rt; atoms.name(atom), name);
    }
    let at_start = atoms.len();
    let first = atoms.intern("zz")?;
    let second = atoms.intern("zz")?;
    assert_eq!(rt; (first, first.at as usize), (second, at_start));
    assert_eq!(rt; atoms.name(second), "zz");
    assert_eq!(rt; atoms.len(), at_start + 1);

    let (mut cells, whole) = pair(rt.alloc())?;
    assert_eq!(rt; (cells.len(), whole.at), (3, 2));
    assert!(rt; matches!(cells.get(whole), Cell::Comp { count: 2, .. }));
    cells.cut_to(0);
    assert!(rt; cells.is_empty());
    assert_eq!(rt; NoBinds.bound(u64::MAX), None);

    let names = named(rt.alloc())?;
    let kept = names.as_slice();
    assert_eq!(rt; kept.len(), 1);
    assert_eq!(rt; (kept[0].name.as_str(), kept[0].number), ("Größe", 3));
    Ok(())
}
