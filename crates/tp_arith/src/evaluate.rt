//! The value of a term, by a list of operations that wait for their arguments.

ghost use Rattle.std.specs.Prelude.{◌≡◌, ◌<◌, List, [], ◌∷◌, length, reverse};
ghost use Rattle.tp_terms.specs.Term.{Name};
ghost use Rattle.tp_terms.specs.Names.{IsTable};
ghost use Rattle.tp_terms.specs.Shown.{name_at};
ghost use Rattle.tp_meaning.specs.Arith.{evaluated};
ghost use Rattle.tp_meaning.specs.Heap.{Heap, IsHeap, seen};
ghost use Rattle.tp_arith.specs.Work.{AreWaiting, StepTo, WaitingStands, Gives, finished};
ghost use Rattle.tp_arith.specs.Work.{operation_in, outcome, next_weight, waiting_weight};
ghost use Rattle.tp_arith.specs.Work.{all_weight};

use crate::operations::{binary, unary};
use crate::stop::{Fault, Stop};
use std::alloc::Global;
use tp_meaning::{BinaryOperation, Terms, UnaryOperation, operations};
use tp_terms::{AtomId, Cell, Ref};

/// An operation on one number or on two.
#[derive(Clone, Copy)]
pub enum Operation {
    /// On one.
    Unary(UnaryOperation),
    /// On two.
    Binary(BinaryOperation),
}

/// An operation that waits for the value of an argument.
#[derive(Clone, Copy)]
pub enum Waiting {
    /// For its one argument.
    Unary(UnaryOperation),
    /// For its left argument. The right one stands at a place.
    Left {
        /// The operation.
        operation: BinaryOperation,
        /// The place of the right argument.
        right: Ref,
    },
    /// For its right argument. The value of the left one is known.
    Right {
        /// The operation.
        operation: BinaryOperation,
        /// The value of the left argument.
        left: i64,
    },
}

/// What is next.
#[derive(Clone, Copy)]
pub enum Next {
    /// To find the value of the term of a place.
    Look(Ref),
    /// To give a value to the newest operation that waits.
    Give(i64),
}

/// The operation that a name with so many arguments stands for.
fn operation_of(name: AtomId, count: u8) -> Option<Operation>
    ensures { (names : List Name) → IsTable names → name.at < length names →
        result ≡ operation_in (name_at names name.at) count }
{
    let (one, two) = operations(name);
    match count {
        1 => Some(Operation::Unary(one?)),
        2 => Some(Operation::Binary(two?)),
        _ => None,
    }
}

/// Looks at the term of a place: it has a value, or an operation waits for one of its arguments.
fn look_at<T: Terms>(terms: &T, at: Ref, waiting: &mut Vec<Waiting>) -> Result<Next, Stop>
    requires heap { IsHeap (T.heap terms.now) }
    requires at { at.at < length (T.heap terms.now).cells }
    requires waiting { AreWaiting (T.heap terms.now) (reverse waiting.old.items) }
    ensures { StepTo (T.heap terms.now)
        (outcome (T.heap terms.now) (Next.Look at) (reverse waiting.old.items))
        (all_weight (T.heap terms.now) (Next.Look at) (reverse waiting.old.items))
        result (reverse waiting.new.items) }
{
    match terms.look(at) {
        Cell::Int(value) => Ok(Next::Give(value)),
        Cell::Var(_) => Err(Stop::Fault(Fault::Unbound)),
        Cell::Atom(name) => Err(Stop::Fault(Fault::NotEvaluable(name, 0))),
        Cell::Comp { name, first, count } => match operation_of(name, count) {
            None => Err(Stop::Fault(Fault::NotEvaluable(name, count))),
            Some(Operation::Unary(operation)) => {
                waiting.push(Waiting::Unary(operation))?;
                Ok(Next::Look(first))
            }
            Some(Operation::Binary(operation)) => {
                let right = Ref { at: first.at + 1 };
                waiting.push(Waiting::Left { operation, right })?;
                Ok(Next::Look(first))
            }
        },
    }
}

/// Gives a value to an operation that waits for it.
fn resume(waiting: &mut Vec<Waiting>, top: Waiting, value: i64) -> Result<Next, Stop>
    ensures { (h : Heap) → WaitingStands h top → AreWaiting h (reverse waiting.old.items) →
        StepTo h (finished h (top ∷ reverse waiting.old.items) value)
        (all_weight h (Next.Give value) (top ∷ reverse waiting.old.items))
        result (reverse waiting.new.items) }
{
    match top {
        Waiting::Unary(operation) => Ok(Next::Give(unary(operation, value)?)),
        Waiting::Left { operation, right } => {
            waiting.push(Waiting::Right {
                operation,
                left: value,
            })?;
            Ok(Next::Look(right))
        }
        Waiting::Right { operation, left } => Ok(Next::Give(binary(operation, left, value)?)),
    }
}

/// The value of the term of a place.
pub fn evaluate<T: Terms>(alloc: Global, terms: &T, at: Ref) -> Result<i64, Stop>
    requires heap { IsHeap (T.heap terms.now) }
    requires at { at.at < length (T.heap terms.now).cells }
    ensures { Gives (T.heap terms.now) (evaluated (seen (T.heap terms.now) at.at)) result }
{
    let mut waiting = Vec::new(alloc);
    let mut next = Next::Look(at);
    'steps: loop {
        next = match next {
            Next::Look(at) => look_at(terms, at, &mut waiting)?,
            Next::Give(value) => {
                let Some(top) = waiting.pop() else {
                    return Ok(value);
                };
                resume(&mut waiting, top, value)?
            }
        };
    }
}
