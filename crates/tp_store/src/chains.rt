//! Terms and chained bindings, whose facts callers keep: `Store` hides them.

ghost use Rattle.std.specs.Prelude.{◌≡◌, ◌+◌, ◌^◌, ◌<◌, ◌≤◌, List, [], ◌∷◌, length, take, reverse};
ghost use Rattle.std.specs.Prelude.{slice_set, Some, IsOk, OnOk, OnErr, IfOk, IfSome, IfNone};
ghost use Rattle.tp_terms.specs.Term.{Name};
ghost use Rattle.tp_terms.specs.Shown.{StandsBefore, shown_from, shows};
ghost use Rattle.tp_store.specs.Contents.{Contents, IsStore, Adds, CanGoBack, IsNumbered};
ghost use Rattle.tp_store.specs.Contents.{IsUnbound, cut_to_mark, with_cell, with_vars, with_pair};
ghost use Rattle.tp_store.specs.Contents.{seen, seen_cell};
ghost use Rattle.tp_store.specs.Chain.{IsChains, IsClosed, IsEnd, LeadsOn, MayEndAt, contents_of};
ghost use Rattle.tp_store.specs.Logged.{IsBound, unbound, without_pair};
ghost use Rattle.tp_store.specs.Trail.{number_at};
ghost use Rattle.std.specs.List.{remove};

use crate::spare::Spare;
use crate::trail::Trail;
use std::alloc::Global;
use tp_terms::{Cell, Cells, NoMemory, Ref, StoreMark};

/// Terms, and what their variables are bound to.
#[derive(Drop)]
pub struct Chains {
    /// The terms.
    pub cells: Cells,
    /// What each variable is bound to, and the bindings in their order.
    pub trail: Trail,
    /// A mark before which terms have no variables but those that were claimed before it.
    pub closed: StoreMark,
    /// Lists of work, kept for their memory. They are no part of `contents_of`, and have no
    /// meaning.
    pub spare: Spare,
}

/// The end of a chain of bindings.
#[derive(Clone, Copy)]
pub struct End {
    /// The last place.
    pub place: Ref,
    /// Its cell, which is no bound variable.
    pub cell: Cell,
}

/// The mark before which nothing stands.
const START: StoreMark = StoreMark { cells: 0, vars: 0 };

/// The place of the newest binding of a bound variable.
fn newest_of(trail: &Trail, number: u64) -> usize
    requires { IsBound (reverse trail.now.pairs) number }
    ensures within { result < length trail.now.pairs }
    ensures number { number_at trail.now.pairs result ≡ number }
    ensures removed { reverse (remove trail.now.pairs result) ≡ without_pair number
        (reverse trail.now.pairs) }
{
    let mut at = trail.len() - 1;
    'search: while trail.number(at) != number {
        at -= 1;
    }
    at
}

impl Chains {
    /// No terms.
    pub fn new(alloc: Global) -> Self
        ensures chains { IsChains result }
        ensures value { contents_of result ≡ record { cells = []; pairs = []; vars = 0 } }
    {
        Chains {
            cells: Cells::new(alloc),
            trail: Trail::new(alloc),
            closed: START,
            spare: Spare::new(alloc),
        }
    }

    /// The place that a variable is bound to.
    fn step(&self, cell: Cell) -> Option<Ref>
        requires chains { IsChains self.now }
        requires numbered { IsNumbered (length self.now.trail.bound) cell }
        ensures end { IfNone result (IsUnbound (contents_of self.now).pairs cell) }
        ensures on { IfSome result (λ next. LeadsOn (contents_of self.now) cell next) }
    {
        match cell {
            Cell::Var(number) => self.trail.get(number),
            _ => None,
        }
    }

    /// Follows bindings from a place.
    pub fn end(&self, at: Ref) -> End
        requires chains { IsChains self.now }
        requires place { at.at < length self.now.cells.items }
        ensures end { IsEnd (contents_of self.now) result }
        ensures met { MayEndAt (contents_of self.now) at result.place }
        ensures same { (names : List Name) →
            seen_cell names (contents_of self.now) result.cell ≡ seen names
            (contents_of self.now) at.at }
    {
        let mut place = at;
        let mut cell = self.cells.get(place);
        'chain: while let Some(next) = self.step(cell) {
            place = next;
            cell = self.cells.get(place);
        }
        End { place, cell }
    }

    /// Adds a cell. No place that stood shows another term afterwards.
    pub fn place(&mut self, cell: Cell) -> Result<Ref, NoMemory>
        requires chains { IsChains self.old }
        requires before { StandsBefore (length self.old.cells.items) cell }
        requires numbered { IsNumbered (length self.old.trail.bound) cell }
        ensures chains { IsChains self.new }
        ensures place { IfOk result (λ at. at.at ≡ length self.old.cells.items) }
        ensures value { OnOk result (contents_of self.new ≡ with_cell (contents_of self.old) cell) }
        ensures err { OnErr result (contents_of self.new ≡ contents_of self.old) }
        ensures succeeds { 0 < self.old.cells.room → IsOk result }
    {
        let at = self.cells.push(cell)?;
        self.closed.cells = self.closed.cells.min(at.at);
        Ok(at)
    }

    /// The first of so many new variable numbers.
    pub fn claim(&mut self, n: u64) -> Result<u64, NoMemory>
        requires chains { IsChains self.old }
        ensures chains { IsChains self.new }
        ensures first { IfOk result (λ first. first ≡ length self.old.trail.bound) }
        ensures fits { IfOk result (λ first. first + n < 2 ^ 64) }
        ensures value { OnOk result (contents_of self.new ≡ with_vars (contents_of self.old) n) }
        ensures err { OnErr result (contents_of self.new ≡ contents_of self.old) }
        ensures cells { self.new.cells ≡ self.old.cells }
    {
        let first = self.trail.variables();
        self.trail.claim(n as usize)?;
        self.closed = StoreMark {
            cells: self.cells.len(),
            vars: first as u64,
        };
        Ok(first as u64)
    }

    /// A new unbound variable.
    pub fn fresh(&mut self) -> Result<Ref, NoMemory>
        requires chains { IsChains self.old }
        ensures chains { IsChains self.new }
        ensures place { IfOk result (λ at. at.at ≡ length self.old.cells.items) }
        ensures value { OnOk result
            (contents_of self.new ≡ with_cell (with_vars (contents_of self.old) 1)
            (Cell.Var (length self.old.trail.bound))) }
        ensures err { OnErr result (contents_of self.new ≡ contents_of self.old) }
    {
        self.cells.reserve(1)?;
        let number = self.claim(1)?;
        self.place(Cell::Var(number))
    }

    /// The closed mark, once a variable is bound to a place.
    fn closed_with(&self, number: u64, place: Ref) -> StoreMark
        requires chains { IsChains self.now }
        requires place { place.at < length self.now.cells.items }
        ensures { IsClosed self.now.cells.items ((number, place) ∷ reverse self.now.trail.pairs)
            result }
    {
        if number >= self.closed.vars || place.at < self.closed.cells {
            return self.closed;
        }
        match self.cells.get(place) {
            Cell::Int(_) | Cell::Atom(_) => self.closed,
            _ => START,
        }
    }

    /// Binds an unbound variable to a place whose term doesn't have it.
    pub fn bind(&mut self, number: u64, place: Ref) -> Result<(), NoMemory>
        requires chains { IsChains self.old }
        requires adds { (names : List Name) →
            Adds names self.old.cells.items (length self.old.trail.bound)
            (contents_of self.old).pairs number place }
        ensures chains { IsChains self.new }
        ensures value { OnOk result
            (contents_of self.new ≡ with_pair (contents_of self.old) number place) }
        ensures err { OnErr result (contents_of self.new ≡ contents_of self.old) }
        ensures table { OnOk result
            (self.new.trail.bound ≡ slice_set self.old.trail.bound number (Some place)) }
    {
        let closed = self.closed_with(number, place);
        self.trail.bind(number, place)?;
        self.closed = closed;
        Ok(())
    }

    /// Takes the newest bindings back, down to so many.
    pub fn undo_to(&mut self, kept: usize)
        requires chains { IsChains self.old }
        requires kept { kept ≤ length self.old.trail.pairs }
        ensures chains { IsChains self.new }
        ensures value { contents_of self.new
            ≡ record {
              cells = self.old.cells.items;
              pairs = reverse
                  (take kept self.old.trail.pairs);
              vars = length self.old.trail.bound;
            } }
    {
        'undo: while self.trail.len() > kept {
            self.trail.pop();
        }
    }

    /// Takes the binding of a variable back. The newest one takes the least time.
    pub fn undo_bind(&mut self, number: u64)
        requires chains { IsChains self.old }
        requires bound { IsBound (contents_of self.old).pairs number }
        ensures chains { IsChains self.new }
        ensures value { contents_of self.new ≡ unbound number (contents_of self.old) }
    {
        let at = newest_of(&self.trail, number);
        self.trail.remove(at);
    }

    /// Cuts cells and variable numbers to a mark. The bindings stay.
    pub fn back_to(&mut self, mark: StoreMark)
        requires chains { IsChains self.old }
        requires can { CanGoBack (contents_of self.old) mark }
        ensures chains { IsChains self.new }
        ensures value { contents_of self.new ≡ cut_to_mark (contents_of self.old) mark }
    {
        self.cells.cut_to(mark.cells);
        self.trail.cut_to(mark.vars as usize);
    }
}
