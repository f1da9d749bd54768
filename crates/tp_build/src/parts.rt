//! `=../2`.

ghost use Rattle.std.specs.Prelude.{◌≡◌, ◌≤◌, ◌<◌, ℕ, [], ◌∷◌, length, map, IfOk, OnOk, OnErr};
ghost use Rattle.tp_meaning.specs.Heap.{AddsCells, Heap, IsHeap, IsTop, seen};
ghost use Rattle.tp_meaning.specs.Answers.{univ, univ_made, univ_of_variable};
ghost use Rattle.tp_build.specs.Answers.{Does, HeapGrows};
ghost use Rattle.tp_build.specs.Errors.{Finds, itself};
ghost use Rattle.tp_build.specs.Lists.{AreWithin, place_seen};
ghost use Rattle.tp_build.specs.Parts.{IsHead, ShowsCompound, ShowsPlace, ShowsRow, one_checked};

use crate::checks::{arity, atomic, bound, name_in};
use crate::errors::{Fault, WantedDomain, raise};
use crate::lists::{closed, list_of_parts, walk};
use crate::outcome::Outcome;
use crate::unification::unify;
use std::alloc::Global;
use tp_meaning::Terms;
use tp_terms::symbols::EMPTY_LIST;
use tp_terms::{AtomId, Cell, NoMemory, Ref};

/// A further place for the term of a place.
fn place_top<T: Terms>(terms: &mut T, at: Ref) -> Result<Ref, NoMemory>
    requires heap { IsHeap (T.heap terms.old) }
    requires at { at.at < length (T.heap terms.old).cells }
    ensures place { IfOk result (λ place. place.at ≡ length (T.heap terms.old).cells) }
    ensures shows { OnOk result (ShowsPlace (T.heap terms.old) (T.heap terms.new) at.at) }
    ensures err { OnErr result (AddsCells (T.heap terms.old) (T.heap terms.new)) }
    ensures heap { IsHeap (T.heap terms.new) }
{
    let cell = terms.look(at);
    let place = terms.place(cell)?;
    Ok(place)
}

/// Places side by side for the terms of places. The answer is the first.
fn place_row<T: Terms>(terms: &mut T, places: &[Ref]) -> Result<Ref, NoMemory>
    requires heap { IsHeap (T.heap terms.old) }
    requires some { 0 < length places.now }
    requires within { AreWithin (T.heap terms.old) places.now }
    ensures place { IfOk result (λ place. place.at ≡ length (T.heap terms.old).cells) }
    ensures row { OnOk result
        (ShowsRow (T.heap terms.old) (T.heap terms.new) places.now (length places.now)) }
    ensures err { OnErr result (AddsCells (T.heap terms.old) (T.heap terms.new)) }
    ensures heap { IsHeap (T.heap terms.new) }
{
    let first = place_top(terms, places[0])?;
    let mut placed = 1;
    while placed < places.len() {
        place_top(terms, places[placed])?;
        placed += 1;
    }
    Ok(first)
}

/// The place of a compound whose arguments are the terms of places.
fn compound_of_places<T: Terms>(
    terms: &mut T,
    name: AtomId,
    places: &[Ref],
    count: u8,
) -> Result<Ref, NoMemory>
    requires heap { IsHeap (T.heap terms.old) }
    requires name { name.at < length (T.heap terms.old).names }
    requires some { 0 < length places.now }
    requires count { count ≡ length places.now }
    requires within { AreWithin (T.heap terms.old) places.now }
    ensures shows { IfOk result (λ at.
        ShowsCompound (T.heap terms.old) (T.heap terms.new) name.at places.now at.at) }
    ensures err { OnErr result (AddsCells (T.heap terms.old) (T.heap terms.new)) }
    ensures heap { IsHeap (T.heap terms.new) }
{
    let first = place_row(terms, places)?;
    let at = terms.place(Cell::Comp { name, first, count })?;
    Ok(at)
}

/// An element that is the only one.
fn only(cell: Cell) -> Result<(), Fault>
    ensures { (h : Heap) (at : ℕ) → IsTop h at cell →
        Finds h (one_checked (seen h at)) itself result }
{
    bound(cell)?;
    atomic(cell)
}

/// Unifies a term with the only element of a list.
fn unify_only<T: Terms>(terms: &mut T, term: Ref, element: Ref) -> Result<Outcome, NoMemory>
    requires heap { IsHeap (T.heap terms.old) }
    requires term { term.at < length (T.heap terms.old).cells }
    requires element { element.at < length (T.heap terms.old).cells }
    ensures does { IfOk result (Does (T.heap terms.old) (T.heap terms.new)
        (univ_made (T.heap terms.old).subst (T.heap terms.old).next
        (seen (T.heap terms.old) term.at) (seen (T.heap terms.old) element.at ∷ []))) }
    ensures err { OnErr result ((T.heap terms.new).subst ≡ (T.heap terms.old).subst) }
    ensures grows { HeapGrows (T.heap terms.old) (T.heap terms.new) }
    ensures heap { IsHeap (T.heap terms.new) }
{
    match only(terms.look(element)) {
        Ok(()) => unify(terms, term, element),
        Err(fault) => raise(terms, fault),
    }
}

/// The name and the number of arguments of a new compound.
#[derive(Clone, Copy, Debug, PartialEq, Eq)]
pub struct Head {
    /// The place of the name.
    pub name: AtomId,
    /// The number of arguments.
    pub count: u8,
}

/// The head of a compound of this name and so many arguments.
fn head_given(cell: Cell, count: usize) -> Result<Head, Fault>
    ensures { (h : Heap) (at : ℕ) → IsTop h at cell → IsHead h at count result }
{
    bound(cell)?;
    let name = name_in(cell)?;
    let count = arity(count as u64)?;
    Ok(Head { name, count })
}

/// Unifies a term with the compound of a name and arguments.
fn unify_compound<T: Terms>(
    terms: &mut T,
    term: Ref,
    name: Ref,
    arguments: &[Ref],
) -> Result<Outcome, NoMemory>
    requires heap { IsHeap (T.heap terms.old) }
    requires term { term.at < length (T.heap terms.old).cells }
    requires name { name.at < length (T.heap terms.old).cells }
    requires some { 0 < length arguments.now }
    requires within { AreWithin (T.heap terms.old) arguments.now }
    ensures does { IfOk result (Does (T.heap terms.old) (T.heap terms.new)
        (univ_made (T.heap terms.old).subst (T.heap terms.old).next
        (seen (T.heap terms.old) term.at)
        (seen (T.heap terms.old) name.at ∷ map (place_seen (T.heap terms.old)) arguments.now))) }
    ensures err { OnErr result ((T.heap terms.new).subst ≡ (T.heap terms.old).subst) }
    ensures grows { HeapGrows (T.heap terms.old) (T.heap terms.new) }
    ensures heap { IsHeap (T.heap terms.new) }
{
    match head_given(terms.look(name), arguments.len()) {
        Ok(head) => {
            let compound = compound_of_places(terms, head.name, arguments, head.count)?;
            unify(terms, term, compound)
        }
        Err(fault) => raise(terms, fault),
    }
}

/// Unifies a term with that of the name and the arguments in a list, by the places of its elements.
fn make_and_unify<T: Terms>(terms: &mut T, term: Ref, elements: &[Ref]) -> Result<Outcome, NoMemory>
    requires heap { IsHeap (T.heap terms.old) }
    requires term { term.at < length (T.heap terms.old).cells }
    requires within { AreWithin (T.heap terms.old) elements.now }
    ensures does { IfOk result (Does (T.heap terms.old) (T.heap terms.new)
        (univ_made (T.heap terms.old).subst (T.heap terms.old).next
        (seen (T.heap terms.old) term.at) (map (place_seen (T.heap terms.old)) elements.now))) }
    ensures err { OnErr result ((T.heap terms.new).subst ≡ (T.heap terms.old).subst) }
    ensures grows { HeapGrows (T.heap terms.old) (T.heap terms.new) }
    ensures heap { IsHeap (T.heap terms.new) }
{
    if elements.is_empty() {
        let culprit = Cell::Atom(EMPTY_LIST);
        return raise(terms, Fault::Domain(WantedDomain::NonEmptyList, culprit));
    }
    if elements.len() == 1 {
        return unify_only(terms, term, elements[0]);
    }
    unify_compound(terms, term, elements[0], &elements[1..])
}

/// `=..` of an unbound variable.
fn univ_of_variable<T: Terms>(
    alloc: Global,
    terms: &mut T,
    term: Ref,
    list: Ref,
) -> Result<Outcome, NoMemory>
    requires heap { IsHeap (T.heap terms.old) }
    requires term { term.at < length (T.heap terms.old).cells }
    requires list { list.at < length (T.heap terms.old).cells }
    ensures does { IfOk result (Does (T.heap terms.old) (T.heap terms.new)
        (univ_of_variable (T.heap terms.old).subst (T.heap terms.old).next
        (seen (T.heap terms.old) term.at) (seen (T.heap terms.old) list.at))) }
    ensures err { OnErr result ((T.heap terms.new).subst ≡ (T.heap terms.old).subst) }
    ensures grows { HeapGrows (T.heap terms.old) (T.heap terms.new) }
    ensures heap { IsHeap (T.heap terms.new) }
{
    let walked = walk(alloc, terms, list)?;
    match closed(walked.end, terms.look(list)) {
        Ok(()) => make_and_unify(terms, term, &walked.elements),
        Err(fault) => raise(terms, fault),
    }
}

/// `Term =.. List`: the list of the name and the arguments of a compound term, or of an atomic term
/// itself; of an unbound variable, such a term (ISO/IEC 13211-1, clause 8.5.3).
///
/// # Errors
/// `NoMemory` where memory was refused, and then nothing is bound.
pub fn univ<T: Terms>(
    alloc: Global,
    terms: &mut T,
    term: Ref,
    list: Ref,
) -> Result<Outcome, NoMemory>
    requires heap { IsHeap (T.heap terms.old) }
    requires term { term.at < length (T.heap terms.old).cells }
    requires list { list.at < length (T.heap terms.old).cells }
    ensures does { IfOk result (Does (T.heap terms.old) (T.heap terms.new)
        (univ (T.heap terms.old).subst (T.heap terms.old).next
        (seen (T.heap terms.old) term.at) (seen (T.heap terms.old) list.at))) }
    ensures err { OnErr result ((T.heap terms.new).subst ≡ (T.heap terms.old).subst) }
    ensures grows { HeapGrows (T.heap terms.old) (T.heap terms.new) }
    ensures heap { IsHeap (T.heap terms.new) }
{
    let cell = terms.look(term);
    match cell {
        Cell::Var(_) => univ_of_variable(alloc, terms, term, list),
        _ => {
            let parts = list_of_parts(terms, cell)?;
            let at = terms.place(parts)?;
            unify(terms, list, at)
        }
    }
}
