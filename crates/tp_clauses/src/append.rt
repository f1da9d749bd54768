//! Cells behind other cells.

ghost use Rattle.std.specs.Prelude.{◌≡◌, ℕ, ◌+◌, ◌<◌, ◌^◌, [], ◌∷◌, ◌++◌, length, map, IfOk, OnOk};
ghost use Rattle.tp_terms.specs.Shown.{AreBuilt, StandsBefore};
ghost use Rattle.tp_clauses.specs.Moved.{CanMove, moved, place_on};

use tp_store::Store;
use tp_terms::{Cell, Cells, NoMemory, Ref};

/// A place moved on.
pub fn place_on(place: Ref, by: usize) -> Ref
    requires { place.at + by < 2 ^ 64 }
    ensures { result ≡ place_on by place }
{
    Ref { at: place.at + by }
}

/// A cell whose arguments are moved on.
fn moved(cell: Cell, by: usize) -> Cell
    requires { CanMove by cell }
    ensures { result ≡ moved by cell }
{
    match cell {
        Cell::Comp { name, first, count } => Cell::Comp {
            name,
            first: place_on(first, by),
            count,
        },
        _ => cell,
    }
}

/// Claims variable numbers until this one is.
fn claim_to(store: &mut Store, number: u64) -> Result<(), NoMemory>
    ensures claimed { OnOk result (number < store.new.vars) }
    ensures cells { store.new.cells ≡ store.old.cells }
    ensures pairs { store.new.pairs ≡ store.old.pairs }
{
    let claimed = store.mark().vars;
    if number >= claimed {
        store.claim(number - claimed)?;
        store.claim(1)?;
    }
    Ok(())
}

/// Adds a cell. The number of a variable is claimed.
fn place(store: &mut Store, cell: Cell) -> Result<(), NoMemory>
    requires { StandsBefore (length store.old.cells) cell }
    ensures cells { OnOk result (store.new.cells ≡ store.old.cells ++ cell ∷ []) }
    ensures pairs { store.new.pairs ≡ store.old.pairs }
{
    if let Cell::Var(number) = cell {
        claim_to(store, number)?;
    }
    store.place(cell)?;
    Ok(())
}

/// Adds all cells of `more` behind the others, and answers how far their places are moved on. Want
/// of memory leaves some of them.
pub fn append(store: &mut Store, more: &Cells) -> Result<usize, NoMemory>
    ensures by { IfOk result (λ by. by ≡ length store.old.cells) }
    ensures cells { OnOk result (store.new.cells ≡
        store.old.cells ++ map (moved (length store.old.cells)) more.now.items) }
    ensures pairs { store.new.pairs ≡ store.old.pairs }
    ensures built { OnOk result (AreBuilt store.new.cells) }
    ensures fits { OnOk result (length store.old.cells + length more.now.items < 2 ^ 64) }
{
    for at in 0..more.len() {
        let by = store.mark().cells - at;
        place(store, moved(more.get(Ref { at }), by))?;
    }
    Ok(store.mark().cells - more.len())
}
