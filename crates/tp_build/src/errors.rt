//! The kinds of error that built-in goals raise.

ghost use Rattle.std.specs.Prelude.{Err, OnErr, IfOk};
ghost use Rattle.tp_meaning.specs.Heap.{IsHeap, Makes, AddsCells, cell_shown, cell_seen};
ghost use Rattle.tp_build.specs.Answers.{Does};
ghost use Rattle.tp_build.specs.Errors.{FaultStands, IsWord, fault_kind, fault_term, type_word};
ghost use Rattle.tp_build.specs.Errors.{domain_word, limit_word};

use crate::outcome::Outcome;
use tp_meaning::{Terms, compound_of_one, compound_of_two};
use tp_terms::symbols::{
    ATOM, ATOMIC, CHARACTER_CODE, COMPOUND, DOMAIN_ERROR, INSTANTIATION_ERROR, INTEGER, LIST,
    MAX_ARITY, NON_EMPTY_LIST, NOT_LESS_THAN_ZERO, REPRESENTATION_ERROR, TYPE_ERROR,
};
use tp_terms::{AtomId, Cell, NoMemory};

/// The type of term that a goal wants (ISO/IEC 13211-1, clause 7.12.2, type errors).
#[derive(Clone, Copy, Debug, PartialEq, Eq)]
pub enum WantedType {
    /// An integer.
    Integer,
    /// An atom.
    Atom,
    /// An atom or an integer.
    Atomic,
    /// A compound term.
    Compound,
    /// A list that ends in `[]`.
    List,
}

/// What a term of the right type fails to be (ISO/IEC 13211-1, clause 7.12.2, domain errors).
#[derive(Clone, Copy, Debug, PartialEq, Eq)]
pub enum WantedDomain {
    /// An integer that isn't negative.
    NotLessThanZero,
    /// A list with an element.
    NonEmptyList,
}

/// A limit of this implementation (ISO/IEC 13211-1, clause 7.12.2, representation errors).
#[derive(Clone, Copy, Debug, PartialEq, Eq)]
pub enum Limit {
    /// The most arguments of a compound.
    MaxArity,
    /// The codes of characters.
    CharacterCode,
}

/// Why a goal raises an error. A culprit is a cell of the term that is at fault.
#[derive(Clone, Copy, Debug, PartialEq, Eq)]
pub enum Fault {
    /// An unbound variable.
    Unbound,
    /// A term of another type.
    Type(WantedType, Cell),
    /// A term outside a domain.
    Domain(WantedDomain, Cell),
    /// A limit is passed.
    Representation(Limit),
}

/// The word of a type.
#[tactic(auto, unfolding(tp_terms::specs::StartNames::start_names))]
fn type_word(wanted: WantedType) -> AtomId
    ensures { IsWord result (type_word wanted) }
{
    match wanted {
        WantedType::Integer => INTEGER,
        WantedType::Atom => ATOM,
        WantedType::Atomic => ATOMIC,
        WantedType::Compound => COMPOUND,
        WantedType::List => LIST,
    }
}

/// The word of a domain.
#[tactic(auto, unfolding(tp_terms::specs::StartNames::start_names))]
fn domain_word(wanted: WantedDomain) -> AtomId
    ensures { IsWord result (domain_word wanted) }
{
    match wanted {
        WantedDomain::NotLessThanZero => NOT_LESS_THAN_ZERO,
        WantedDomain::NonEmptyList => NON_EMPTY_LIST,
    }
}

/// The word of a limit.
#[tactic(auto, unfolding(tp_terms::specs::StartNames::start_names))]
fn limit_word(limit: Limit) -> AtomId
    ensures { IsWord result (limit_word limit) }
{
    match limit {
        Limit::MaxArity => MAX_ARITY,
        Limit::CharacterCode => CHARACTER_CODE,
    }
}

/// The cell of the kind of error of a fault.
fn kind_of<T: Terms>(terms: &mut T, fault: Fault) -> Result<Cell, NoMemory>
    requires heap { IsHeap (T.heap terms.old) }
    requires fault { FaultStands (T.heap terms.old) fault }
    ensures made { IfOk result (λ c. Makes (T.heap terms.old) (T.heap terms.new) c
        (fault_term (cell_shown (T.heap terms.old)) fault)) }
    ensures err { OnErr result (AddsCells (T.heap terms.old) (T.heap terms.new)) }
    ensures heap { IsHeap (T.heap terms.new) }
{
    match fault {
        Fault::Unbound => Ok(Cell::Atom(INSTANTIATION_ERROR)),
        Fault::Type(wanted, culprit) => {
            compound_of_two(terms, TYPE_ERROR, Cell::Atom(type_word(wanted)), culprit)
        }
        Fault::Domain(wanted, culprit) => {
            compound_of_two(
                terms,
                DOMAIN_ERROR,
                Cell::Atom(domain_word(wanted)),
                culprit,
            )
        }
        Fault::Representation(limit) => {
            compound_of_one(terms, REPRESENTATION_ERROR, Cell::Atom(limit_word(limit)))
        }
    }
}

/// Raises the error of a fault.
///
/// # Errors
/// `NoMemory` where memory was refused, and then there may be further cells.
pub fn raise<T: Terms>(terms: &mut T, fault: Fault) -> Result<Outcome, NoMemory>
    requires heap { IsHeap (T.heap terms.old) }
    requires fault { FaultStands (T.heap terms.old) fault }
    ensures does { IfOk result (Does (T.heap terms.old) (T.heap terms.new)
        (Err (fault_kind (T.heap terms.old) fault))) }
    ensures adds { AddsCells (T.heap terms.old) (T.heap terms.new) }
    ensures heap { IsHeap (T.heap terms.new) }
{
    let kind = kind_of(terms, fault)?;
    let at = terms.place(kind)?;
    Ok(Outcome::Raise(at))
}
