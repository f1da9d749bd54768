//! Error terms of arithmetic.

ghost use Rattle.std.specs.Prelude.{◌≡◌, ◌<◌, pos, List, length, OnErr, IfOk};
ghost use Rattle.tp_terms.specs.Term.{Name, Atom, Comp, More, NoMore};
ghost use Rattle.tp_terms.specs.Names.{IsTable};
ghost use Rattle.tp_terms.specs.Shown.{name_at};
ghost use Rattle.tp_meaning.specs.Arith.{not_evaluable};
ghost use Rattle.tp_meaning.specs.Heap.{AddsCells, IsHeap, Makes};
ghost use Rattle.tp_arith.specs.Errors.{FaultStands, evaluation_kind, fault_kind};
ghost use Rattle.tp_arith.specs.Values.{IsRaised, Raises};

use crate::stop::{EvaluationError, Fault};
use tp_meaning::{Terms, compound_of_one, compound_of_two};
use tp_terms::symbols::{
    EVALUABLE, EVALUATION_ERROR, INSTANTIATION_ERROR, INT_OVERFLOW, SLASH, TYPE_ERROR, UNDEFINED,
    ZERO_DIVISOR,
};
use tp_terms::{AtomId, Cell, NoMemory, Ref};

/// Why there is no answer.
#[derive(Clone, Copy, Debug, PartialEq, Eq)]
pub enum Raise {
    /// An error is raised, whose kind a place shows (ISO/IEC 13211-1, clause 7.12.2).
    Raised(Ref),
    /// Memory was refused.
    NoMemory,
}

/// The word of an evaluation error.
fn word_of(error: EvaluationError) -> AtomId
    ensures within { (names : List Name) → IsTable names → result.at < length names }
    ensures kind { (names : List Name) → IsTable names →
        Comp (name_at names EVALUATION_ERROR.at) (More (Atom (name_at names result.at)) NoMore)
        ≡ evaluation_kind error }
{
    match error {
        EvaluationError::Overflow => INT_OVERFLOW,
        EvaluationError::ZeroDivisor => ZERO_DIVISOR,
        EvaluationError::Undefined => UNDEFINED,
    }
}

/// A number of arguments, as an integer.
fn number(count: u8) -> Cell
    ensures { result ≡ Cell.Int (pos count) }
{
    Cell::Int(i64::from(count))
}

/// The cell of the kind of error that a name with so many arguments raises.
fn not_evaluable<T: Terms>(terms: &mut T, name: AtomId, count: u8) -> Result<Cell, NoMemory>
    requires heap { IsHeap (T.heap terms.old) }
    requires name { name.at < length (T.heap terms.old).names }
    ensures made { IfOk result (λ c. Makes (T.heap terms.old) (T.heap terms.new) c
        (not_evaluable (name_at (T.heap terms.old).names name.at) count)) }
    ensures err { OnErr result (AddsCells (T.heap terms.old) (T.heap terms.new)) }
    ensures heap { IsHeap (T.heap terms.new) }
{
    let indicator = compound_of_two(terms, SLASH, Cell::Atom(name), number(count))?;
    let kind = compound_of_two(terms, TYPE_ERROR, Cell::Atom(EVALUABLE), indicator)?;
    Ok(kind)
}

/// The cell of the kind of error of a fault.
fn kind_of<T: Terms>(terms: &mut T, fault: Fault) -> Result<Cell, NoMemory>
    requires heap { IsHeap (T.heap terms.old) }
    requires fault { FaultStands (length (T.heap terms.old).names) fault }
    ensures made { IfOk result (λ c. Makes (T.heap terms.old) (T.heap terms.new) c
        (fault_kind (T.heap terms.old).names fault)) }
    ensures err { OnErr result (AddsCells (T.heap terms.old) (T.heap terms.new)) }
    ensures heap { IsHeap (T.heap terms.new) }
{
    match fault {
        Fault::Unbound => Ok(Cell::Atom(INSTANTIATION_ERROR)),
        Fault::NotEvaluable(name, count) => not_evaluable(terms, name, count),
        Fault::Evaluation(error) => {
            compound_of_one(terms, EVALUATION_ERROR, Cell::Atom(word_of(error)))
        }
    }
}

/// A place for the kind of error of a fault.
fn place_kind<T: Terms>(terms: &mut T, fault: Fault) -> Result<Ref, NoMemory>
    requires heap { IsHeap (T.heap terms.old) }
    requires fault { FaultStands (length (T.heap terms.old).names) fault }
    ensures raised { IfOk result
        (Raises (T.heap terms.new) (fault_kind (T.heap terms.old).names fault)) }
    ensures adds { AddsCells (T.heap terms.old) (T.heap terms.new) }
    ensures heap { IsHeap (T.heap terms.new) }
{
    let kind = kind_of(terms, fault)?;
    let at = terms.place(kind)?;
    Ok(at)
}

/// Raises the error of a fault.
pub fn raise_fault<T: Terms>(terms: &mut T, fault: Fault) -> Raise
    requires heap { IsHeap (T.heap terms.old) }
    requires fault { FaultStands (length (T.heap terms.old).names) fault }
    ensures raised { IsRaised (T.heap terms.new)
        (fault_kind (T.heap terms.old).names fault) result }
    ensures adds { AddsCells (T.heap terms.old) (T.heap terms.new) }
    ensures heap { IsHeap (T.heap terms.new) }
{
    match place_kind(terms, fault) {
        Ok(at) => Raise::Raised(at),
        Err(NoMemory) => Raise::NoMemory,
    }
}
