//! Terms that can be looked at, built and unified, whatever holds them.

ghost use Rattle.std.specs.Prelude.{◌≡◌, ◌≢◌, ◌<◌, length, chars, encode_utf8_all, true, Ok, OnOk};
ghost use Rattle.std.specs.Prelude.{OnErr, IfOk};
ghost use Rattle.tp_terms.specs.Names.{StandsAt};
ghost use Rattle.tp_terms.specs.Shown.{name_at};
ghost use Rattle.tp_meaning.specs.Order.{term_cmp};
ghost use Rattle.tp_meaning.specs.Heap.{Heap, IsHeap, CanStand, IsTop, AddsCells, AddsBindings};
ghost use Rattle.tp_meaning.specs.Heap.{FindsUnifier, IsUnifiable, Copies, with_cell, with_fresh};
ghost use Rattle.tp_meaning.specs.Heap.{with_name_too, seen};

use std::cmp::Ordering;
use tp_terms::{AtomId, Cell, NoMemory, Ref};

/// Terms in places, a substitution of their variables, and a table of names, as what evaluates and
/// what builds terms needs them. Contracts see a `Heap` of specs/Heap.antt.
///
/// The constants of `tp_terms::symbols` name their names in every such table, and no call changes a
/// name that stood. A call only adds cells, so no place that stood shows another term, bindings
/// aside. Only `unify` binds, and only where it answers true; then the log of acts gets an entry
/// for each variable that is bound, and no other.
///
/// Where a call answers `NoMemory`, nothing was bound, the next variable and the names are as
/// before, and there may be further cells, which nothing shows.
pub trait Terms {
    /// What is held.
    ghost heap: { Self → Heap };

    /// The cell that a place shows once bindings are followed: no bound variable. The arguments of
    /// a compound stand side by side from its `first` on. Takes no memory.
    fn look(&self, at: Ref) -> Cell
        requires heap { IsHeap (heap self.now) }
        requires at { at.at < length (heap self.now).cells }
        ensures top { IsTop (heap self.now) at.at result };

    /// Adds a cell behind the others and answers its place.
    fn place(&mut self, cell: Cell) -> Result<Ref, NoMemory>
        requires heap { IsHeap (heap self.old) }
        requires cell { CanStand (heap self.old) cell }
        ensures place { IfOk result (λ at. at.at ≡ length (heap self.old).cells) }
        ensures value { OnOk result (heap self.new ≡ with_cell (heap self.old) cell) }
        ensures err { OnErr result (AddsCells (heap self.old) (heap self.new)) }
        ensures heap { IsHeap (heap self.new) };

    /// A place for a new unbound variable, of the next number.
    fn fresh(&mut self) -> Result<Ref, NoMemory>
        requires heap { IsHeap (heap self.old) }
        ensures place { IfOk result (λ at. at.at ≡ length (heap self.old).cells) }
        ensures value { OnOk result (heap self.new ≡ with_fresh (heap self.old)) }
        ensures err { OnErr result (AddsCells (heap self.old) (heap self.new)) }
        ensures heap { IsHeap (heap self.new) };

    /// Makes the terms of two places equal by the most general unifier over the substitution so
    /// far, with occurs check (ISO/IEC 13211-1, clause 7.3). False exactly where there is no
    /// unifier; then nothing is bound.
    fn unify(&mut self, a: Ref, b: Ref) -> Result<bool, NoMemory>
        requires heap { IsHeap (heap self.old) }
        requires a { a.at < length (heap self.old).cells }
        requires b { b.at < length (heap self.old).cells }
        ensures found { IfOk result (FindsUnifier (heap self.old) (heap self.new) a.at b.at) }
        ensures adds { AddsBindings (heap self.old) (heap self.new) }
        ensures unchanged { result ≢ Ok true → AddsCells (heap self.old) (heap self.new) }
        ensures heap { IsHeap (heap self.new) };

    /// What `unify` would answer. Nothing is bound.
    fn unifiable(&mut self, a: Ref, b: Ref) -> Result<bool, NoMemory>
        requires heap { IsHeap (heap self.old) }
        requires a { a.at < length (heap self.old).cells }
        requires b { b.at < length (heap self.old).cells }
        ensures found { IfOk result (IsUnifiable (heap self.old) a.at b.at) }
        ensures adds { AddsCells (heap self.old) (heap self.new) }
        ensures heap { IsHeap (heap self.new) };

    /// How the terms of two places stand in the standard order (ISO/IEC 13211-1, clause 7.2).
    fn compare(&mut self, a: Ref, b: Ref) -> Result<Ordering, NoMemory>
        requires heap { IsHeap (heap self.old) }
        requires a { a.at < length (heap self.old).cells }
        requires b { b.at < length (heap self.old).cells }
        ensures order { IfOk result (λ order.
            order ≡ term_cmp (seen (heap self.old) a.at) (seen (heap self.old) b.at)) }
        ensures adds { AddsCells (heap self.old) (heap self.new) }
        ensures heap { IsHeap (heap self.new) };

    /// A place for a copy of the term of a place, with the next variables for its variables
    /// (ISO/IEC 13211-1, clause 8.5.4).
    fn copy(&mut self, at: Ref) -> Result<Ref, NoMemory>
        requires heap { IsHeap (heap self.old) }
        requires at { at.at < length (heap self.old).cells }
        ensures copied { IfOk result
            (λ place. Copies (heap self.old) (heap self.new) at.at place.at) }
        ensures err { OnErr result (AddsCells (heap self.old) (heap self.new)) }
        ensures heap { IsHeap (heap self.new) };

    /// The name of an atom. Takes no memory.
    fn name(&self, atom: AtomId) -> &str
        requires heap { IsHeap (heap self.now) }
        requires atom { atom.at < length (heap self.now).names }
        ensures name { StandsAt (heap self.now).names atom.at (chars result.now) }
        ensures bytes { result.now ≡ encode_utf8_all (name_at (heap self.now).names atom.at) };

    /// The one place of a name, which is added to the table where it isn't there.
    fn intern(&mut self, name: &str) -> Result<AtomId, NoMemory>
        requires heap { IsHeap (heap self.old) }
        ensures place { IfOk result (λ atom.
            StandsAt (heap self.new).names atom.at (chars name.now)) }
        ensures value { OnOk result
            (heap self.new ≡ with_name_too (heap self.old) (chars name.now)) }
        ensures err { OnErr result (AddsCells (heap self.old) (heap self.new)) }
        ensures heap { IsHeap (heap self.new) };
}
