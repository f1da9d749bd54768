//! Lists, as goals walk and build them.

ghost use Rattle.std.specs.Prelude.{◌≡◌, ◌≤◌, ◌<◌, ◌+◌, ◌^◌, ◌↔◌, ℕ, length, IsTrue, IfOk, OnErr};
ghost use Rattle.tp_terms.specs.Term.{cell, list_term, terms_in};
ghost use Rattle.tp_meaning.specs.Heap.{AddsCells, CanStand, HasPlaces, Heap, IsHeap, IsTop};
ghost use Rattle.tp_meaning.specs.Heap.{IsUnbound, cell_seen, seen};
ghost use Rattle.tp_meaning.specs.Answers.{parts_list};
ghost use Rattle.tp_build.specs.Answers.{args_seen};
ghost use Rattle.tp_build.specs.Errors.{Finds, itself};
ghost use Rattle.tp_build.specs.Lists.{IsLink, IsWalked, MakesSeen, closed_by};

use crate::errors::{Fault, WantedType};
use std::alloc::Global;
use tp_meaning::{Terms, compound_of_two};
use tp_terms::symbols::{EMPTY_LIST, LIST_CELL};
use tp_terms::{AtomId, Cell, NoMemory, Ref};

/// How a list ends.
#[derive(Clone, Copy, Debug, PartialEq, Eq)]
pub enum End {
    /// In `[]`.
    Closed,
    /// In an unbound variable.
    Open,
    /// In a term that is no list.
    NoList,
}

/// What a cell is to a list.
#[derive(Clone, Copy, Debug, PartialEq, Eq)]
pub enum Link {
    /// An element, whose place is this one; the tail stands behind it.
    Element(Ref),
    /// Its end.
    End(End),
}

/// What was found along a list.
#[derive(Debug, Drop)]
pub struct Walked {
    /// The places of its elements.
    pub elements: Vec<Ref>,
    /// How it ends.
    pub end: End,
}

/// Whether a name and a number of arguments are those of a list cell.
fn is_list_cell(name: AtomId, count: u8) -> bool
    ensures { IsTrue result ↔ (name.at ≡ 0) × (count ≡ 2) }
{
    name.at == LIST_CELL.at && count == 2
}

/// What the cell that a place shows is to a list.
fn link_in(cell: Cell) -> Link
    ensures { (h : Heap) (at : ℕ) → IsHeap h → IsTop h at cell → IsLink h at result }
{
    match cell {
        Cell::Comp { name, first, count } => {
            if is_list_cell(name, count) {
                Link::Element(first)
            } else {
                Link::End(End::NoList)
            }
        }
        Cell::Var(_) => Link::End(End::Open),
        Cell::Atom(name) => {
            if name.at == EMPTY_LIST.at {
                Link::End(End::Closed)
            } else {
                Link::End(End::NoList)
            }
        }
        Cell::Int(_) => Link::End(End::NoList),
    }
}

/// Walks a list to its end.
///
/// # Errors
/// `NoMemory` where memory was refused.
pub fn walk<T: Terms>(alloc: Global, terms: &T, list: Ref) -> Result<Walked, NoMemory>
    requires heap { IsHeap (T.heap terms.now) }
    requires list { list.at < length (T.heap terms.now).cells }
    ensures { IfOk result (IsWalked (T.heap terms.now) list.at) }
{
    let mut elements = Vec::new(alloc);
    let mut at = list;
    loop {
        match link_in(terms.look(at)) {
            Link::Element(first) => {
                elements.push(first)?;
                at = Ref { at: first.at + 1 };
            }
            Link::End(end) => return Ok(Walked { elements, end }),
        }
    }
}

/// A list that ends in `[]`. The cell is that of the whole list.
pub fn closed(end: End, whole: Cell) -> Result<(), Fault>
    ensures { (h : Heap) (at : ℕ) → IsTop h at whole →
        Finds h (closed_by (seen h at) end) itself result }
{
    match end {
        End::Closed => Ok(()),
        End::Open => Err(Fault::Unbound),
        End::NoList => Err(Fault::Type(WantedType::List, whole)),
    }
}

/// The cell of a list of an element and a tail.
///
/// # Errors
/// `NoMemory` where memory was refused, and then there may be further cells.
pub fn link_of<T: Terms>(terms: &mut T, element: Cell, tail: Cell) -> Result<Cell, NoMemory>
    requires heap { IsHeap (T.heap terms.old) }
    requires element { CanStand (T.heap terms.old) element }
    requires tail { CanStand (T.heap terms.old) tail }
    ensures made { IfOk result (λ c. MakesSeen (T.heap terms.old) (T.heap terms.new) c
        (cell (cell_seen (T.heap terms.old) element) (cell_seen (T.heap terms.old) tail))) }
    ensures err { OnErr result (AddsCells (T.heap terms.old) (T.heap terms.new)) }
    ensures heap { IsHeap (T.heap terms.new) }
{
    let made = compound_of_two(terms, LIST_CELL, element, tail)?;
    Ok(made)
}

/// The cell of the list of so many places side by side.
fn list_of_places<T: Terms>(terms: &mut T, first: Ref, count: u8) -> Result<Cell, NoMemory>
    requires heap { IsHeap (T.heap terms.old) }
    requires stand { first.at + count ≤ length (T.heap terms.old).cells }
    requires places { first.at + count < 2 ^ 64 }
    ensures made { IfOk result (λ c. MakesSeen (T.heap terms.old) (T.heap terms.new) c
        (list_term (terms_in (args_seen (T.heap terms.old) first.at count)))) }
    ensures err { OnErr result (AddsCells (T.heap terms.old) (T.heap terms.new)) }
    ensures heap { IsHeap (T.heap terms.new) }
{
    let mut list = Cell::Atom(EMPTY_LIST);
    let mut left = count;
    while left > 0 {
        left -= 1;
        let element = terms.look(Ref {
            at: first.at + usize::from(left),
        });
        list = link_of(terms, element, list)?;
    }
    Ok(list)
}

/// The cell of the list of the name and the arguments of a term.
///
/// # Errors
/// `NoMemory` where memory was refused, and then there may be further cells.
pub fn list_of_parts<T: Terms>(terms: &mut T, term: Cell) -> Result<Cell, NoMemory>
    requires heap { IsHeap (T.heap terms.old) }
    requires term { CanStand (T.heap terms.old) term }
    requires places { HasPlaces term }
    requires unbound { IsUnbound (T.heap terms.old).subst term }
    ensures made { IfOk result (λ c. MakesSeen (T.heap terms.old) (T.heap terms.new) c
        (parts_list (cell_seen (T.heap terms.old) term))) }
    ensures err { OnErr result (AddsCells (T.heap terms.old) (T.heap terms.new)) }
    ensures heap { IsHeap (T.heap terms.new) }
{
    match term {
        Cell::Comp { name, first, count } => {
            let arguments = list_of_places(terms, first, count)?;
            link_of(terms, Cell::Atom(name), arguments)
        }
        _ => link_of(terms, term, Cell::Atom(EMPTY_LIST)),
    }
}
