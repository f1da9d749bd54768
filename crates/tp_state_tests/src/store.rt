//! Each public call once, on values from outside.

use std::alloc::Global;
use std::test::Fail;
use tp_log::{Entry, Log};
use tp_store::{Store, Variant};
use tp_terms::{AtomId, Binds, Cell, Cells, NoMemory, Ref};

// The places of `a`, `b` and `f` in some table of names.
const A: AtomId = AtomId { at: 0 };

const B: AtomId = AtomId { at: 1 };

const F: AtomId = AtomId { at: 2 };

/// Whether a place is there and shows a cell.
fn shows(store: &Store, at: Ref, cell: Cell) -> bool {
    at.at < store.cells().len() && store.top(at) == cell
}

/// Whether two adjacent places are there and show these cells.
fn show(store: &Store, first: Ref, left: Cell, right: Cell) -> bool {
    first.at < store.cells().len()
        && shows(store, first, left)
        && shows(store, Ref { at: first.at + 1 }, right)
}

/// Whether `f(X, b)` and `f(a, Y)` are made equal by `a` for `X` and `b` for `Y`.
fn makes_equal(alloc: Global) -> Result<bool, NoMemory> {
    let mut head = Cells::new(alloc);
    let first = head.push(Cell::Var(0))?;
    head.push(Cell::Atom(B))?;
    let root = head.push(Cell::Comp {
        name: F,
        first,
        count: 2,
    })?;
    let mut store = Store::new(alloc);
    let base = store.claim(2)?;
    let x = store.place(Cell::Var(0))?;
    let a = store.place(Cell::Atom(A))?;
    let y = store.place(Cell::Var(1))?;
    let right = store.place(Cell::Comp {
        name: F,
        first: a,
        count: 2,
    })?;
    let left = store.instance(&head, root, 0)?;
    let equal = store.unify(left, right, &mut Log::new(alloc))?;
    Ok(base == 0 && equal && store.top(x) == Cell::Atom(A) && store.top(y) == Cell::Atom(B))
}

/// Whether the block of `f(X, b)` shows `f(X, b)`.
fn moves(alloc: Global) -> Result<bool, NoMemory> {
    let mut head = Cells::new(alloc);
    let first = head.push(Cell::Var(0))?;
    head.push(Cell::Atom(B))?;
    let root = head.push(Cell::Comp {
        name: F,
        first,
        count: 2,
    })?;
    let mut store = Store::new(alloc);
    let base = store.claim(1)?;
    let copy = store.block(&head, root, 0)?;
    Ok(base == 0 && shows_pair(&store, copy, Cell::Var(0), Cell::Atom(B)))
}

/// Whether a question binds nothing.
fn asks(alloc: Global) -> Result<bool, NoMemory> {
    let mut store = Store::new(alloc);
    let x = store.fresh()?;
    let a = store.place(Cell::Atom(A))?;
    let asked = store.unifiable(x, a)?;
    Ok(asked && store.bound(0).is_none())
}

/// Whether a head and a variable are bound with a log, whose newest entry takes a binding back.
fn takes_back(alloc: Global) -> Result<bool, NoMemory> {
    let mut log = Log::new(alloc);
    let mut head = Cells::new(alloc);
    let root = head.push(Cell::Atom(A))?;
    let mut store = Store::new(alloc);
    let x = store.fresh()?;
    let y = store.fresh()?;
    let same = store.unify(y, x, &mut log)?;
    let fact = Variant {
        cells: &head,
        root,
        base: 0,
    };
    let equal = store.unify_head(x, fact, &mut log)?;
    let newest = log.pop_above(1);
    if store.bound(0).is_some() {
        store.undo_bind(0);
    }
    let free = store.bound(0).is_none() && store.bound(1) == Some(x);
    Ok(same && equal && log.len() == 1 && newest == Some(Entry::Bind(0)) && free)
}

/// Whether the body of a variable calls it, and is taken back.
fn goes_back(alloc: Global) -> Result<bool, NoMemory> {
    let mut store = Store::new(alloc);
    let mark = store.mark();
    let x = store.fresh()?;
    let body = store.body(x)?;
    let count = store.cells().len();
    store.back_to(mark);
    Ok(body == Some(Ref { at: 1 }) && count == 2 && store.mark() == mark)
}

/// Whether a place shows the compound `f` of these two.
fn shows_pair(store: &Store, at: Ref, left: Cell, right: Cell) -> bool {
    if at.at >= store.cells().len() {
        return false;
    }
    match store.top(at) {
        Cell::Comp { name, first, count } => {
            name == F && count == 2 && show(store, first, left, right)
        }
        _ => false,
    }
}

/// Whether `f(a)` with the further argument `b` is `f(a, b)`.
fn takes_more(alloc: Global) -> Result<bool, NoMemory> {
    let mut store = Store::new(alloc);
    let a = store.place(Cell::Atom(A))?;
    let goal = store.place(Cell::Comp {
        name: F,
        first: a,
        count: 1,
    })?;
    let b = store.place(Cell::Atom(B))?;
    let joined = store.join(goal, b, 1)?;
    Ok(shows_pair(&store, joined, Cell::Atom(A), Cell::Atom(B)))
}

/// Whether a copy of `f(_0, _0)` is `f(_1, _1)`, where the next variable is `_1`.
fn copies(alloc: Global) -> Result<bool, NoMemory> {
    let mut store = Store::new(alloc);
    let first = store.fresh()?;
    store.place(Cell::Var(0))?;
    let root = store.place(Cell::Comp {
        name: F,
        first,
        count: 2,
    })?;
    let copy = store.copy(root)?;
    let next = store.mark().vars;
    Ok(next == 2 && shows_pair(&store, copy, Cell::Var(1), Cell::Var(1)))
}

#[test]
fn each_call_once(rt: HostRuntime) -> Result<(), Fail> {
    assert!(rt; makes_equal(rt.alloc())?);
    assert!(rt; moves(rt.alloc())?);
    assert!(rt; asks(rt.alloc())?);
    assert!(rt; takes_back(rt.alloc())?);
    assert!(rt; goes_back(rt.alloc())?);
    assert!(rt; takes_more(rt.alloc())?);
    assert!(rt; copies(rt.alloc())?);
    Ok(())
}
