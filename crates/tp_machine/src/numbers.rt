//! Numbers that are counted.

ghost use Rattle.std.specs.Prelude.{◌≡◌, ◌<◌, ◌+◌, ◌+ℤ◌, ◌&&◌, pos, true, int_le, int_lt, List};
ghost use Rattle.std.specs.Prelude.{length, IfOk, OnOk};
ghost use Rattle.std.specs.Ordering.{int_eq};
ghost use Rattle.tp_terms.specs.declared.cells.Cell.{Cell};
ghost use Rattle.tp_terms.specs.Term.{Name, Int};
ghost use Rattle.tp_terms.specs.Names.{IsTable};
ghost use Rattle.tp_terms.specs.Shown.{AreNamed, name_at};
ghost use Rattle.tp_store.specs.Contents.{IsStore, Names};
ghost use Rattle.tp_state.specs.Acts.{with_store};
ghost use Rattle.tp_state.specs.Going.{Follows};
ghost use Rattle.tp_state.specs.State.{plain_of, held_of};
ghost use Rattle.tp_machine.specs.Built.{Built};
ghost use Rattle.tp_machine.specs.Between.{Equals, next_term};

use crate::task::Call;
use tp_state::State;
use tp_store::Store;
use tp_terms::{Cell, NoMemory, Ref};

/// The numbers that are counted from and to.
#[derive(Clone, Copy, Debug)]
pub struct Bounds {
    pub low: i64,
    pub high: i64,
}

/// Whether there is no number.
pub fn is_empty(bounds: Bounds) -> bool
    ensures { result ≡ int_lt bounds.high bounds.low }
{
    bounds.high < bounds.low
}

/// Whether the first number is the last one.
pub fn is_single(bounds: Bounds) -> bool
    ensures { result ≡ int_eq bounds.low bounds.high }
{
    bounds.low == bounds.high
}

/// Whether a number is one of them.
pub fn is_within(bounds: Bounds, value: i64) -> bool
    ensures { result ≡ (int_le bounds.low value && int_le value bounds.high) }
{
    bounds.low <= value && value <= bounds.high
}

/// The first number.
fn first_cell(bounds: Bounds) -> Cell
    ensures { result ≡ Cell.Int bounds.low }
{
    Cell::Int(bounds.low)
}

/// The number behind the first.
fn next_cell(bounds: Bounds) -> Cell
    requires { int_lt bounds.low bounds.high ≡ true }
    ensures { result ≡ Cell.Int (bounds.low +ℤ pos 1) }
{
    Cell::Int(bounds.low + 1)
}

/// The last number.
fn last_cell(bounds: Bounds) -> Cell
    ensures { result ≡ Cell.Int bounds.high }
{
    Cell::Int(bounds.high)
}

/// Makes the term of a place equal to the first number, where that can be.
pub fn equal_first(state: &mut State, place: Ref, bounds: Bounds) -> Result<(), NoMemory>
    requires { place.at < length state.old.store.cells }
    ensures equals { OnOk result ((names : List Name) → Names names state.old.store.cells →
        Equals names place.at (Int bounds.low) state.old.store state.new.store) }
    ensures plain { OnOk result (plain_of state.new
        ≡ with_store state.new.store (plain_of state.old)) }
    ensures follows { OnOk result (Follows (held_of state.old) (held_of state.new)) }
    ensures store { IsStore state.new.store }
{
    let number = state.store.place(first_cell(bounds))?;
    let _equal = state.store.unify(place, number, &mut state.log)?;
    Ok(())
}

/// The place of a goal that counts from the number behind the first.
pub fn next_goal(
    store: &mut Store,
    call: Call,
    bounds: Bounds,
    variable: Ref,
) -> Result<Ref, NoMemory>
    requires third { variable.at ≡ call.first.at + 2 }
    requires there { variable.at < length store.old.cells }
    requires more { int_lt bounds.low bounds.high ≡ true }
    ensures { IfOk result (λ place. (names : List Name) → IsTable names →
        AreNamed (length names) store.old.cells → call.name.at < length names →
        Built names store.old store.new place.at (next_term names store.old call bounds)) }
{
    let cell = store.cells().get(variable);
    let first = store.place(next_cell(bounds))?;
    store.place(last_cell(bounds))?;
    store.place(cell)?;
    let goal = store.place(Cell::Comp {
        name: call.name,
        first,
        count: 3,
    })?;
    Ok(goal)
}
