//! Arithmetic: the value of a term, and the comparison of two.
#![tactic(auto)]

ghost use Rattle.std.specs.Prelude.{◌≡◌, ◌<◌, length};
ghost use Rattle.tp_meaning.specs.Arith.{compared, value};
ghost use Rattle.tp_meaning.specs.Heap.{AddsCells, IsHeap, shown};
ghost use Rattle.tp_arith.specs.Values.{Evaluates, holds};

mod evaluate;
mod operations;
mod raising;
mod stop;

use evaluate::evaluate;
pub use raising::Raise;
use raising::raise_fault;
use std::alloc::Global;
use stop::Stop;
use tp_meaning::Terms;
use tp_terms::Ref;

/// How two numbers may stand to each other (ISO/IEC 13211-1, clause 8.7).
#[derive(Clone, Copy, Debug, PartialEq, Eq)]
pub enum Relation {
    /// `=:=`.
    Equal,
    /// `=\=`.
    Unequal,
    /// `<`.
    Less,
    /// `=<`.
    LessEqual,
    /// `>`.
    Greater,
    /// `>=`.
    GreaterEqual,
}

impl Relation {
    /// Whether two numbers are in this relation.
    fn holds(self, x: i64, y: i64) -> bool
        ensures { result ≡ holds self x y }
    {
        match self {
            Relation::Equal => x == y,
            Relation::Unequal => x != y,
            Relation::Less => x < y,
            Relation::LessEqual => x <= y,
            Relation::Greater => x > y,
            Relation::GreaterEqual => x >= y,
        }
    }
}

/// The value of the term of a place (ISO/IEC 13211-1, clause 9). It is an integer of 64 bits, and
/// so is each operation's result on the way.
///
/// # Errors
/// `Raised` exactly where the term has no value: the place shows the kind of the first error, the
/// operation of a compound being looked for before its arguments, and these from the left.
/// `NoMemory` where memory was refused.
pub fn eval<T: Terms>(alloc: Global, terms: &mut T, at: Ref) -> Result<i64, Raise>
    requires heap { IsHeap (T.heap terms.old) }
    requires at { at.at < length (T.heap terms.old).cells }
    ensures value { Evaluates (T.heap terms.new)
        (value (T.heap terms.old).subst (shown (T.heap terms.old) at.at)) result }
    ensures adds { AddsCells (T.heap terms.old) (T.heap terms.new) }
    ensures heap { IsHeap (T.heap terms.new) }
{
    match evaluate(alloc, terms, at) {
        Ok(value) => Ok(value),
        Err(Stop::Fault(fault)) => Err(raise_fault(terms, fault)),
        Err(Stop::NoMemory) => Err(Raise::NoMemory),
    }
}

/// Whether the values of the terms of two places are in a relation (ISO/IEC 13211-1, clause 8.7).
///
/// # Errors
/// `Raised` exactly where one of the terms has no value, as `eval` answers it, the left term's
/// error first. `NoMemory` where memory was refused.
pub fn compare_numbers<T: Terms>(
    alloc: Global,
    terms: &mut T,
    relation: Relation,
    a: Ref,
    b: Ref,
) -> Result<bool, Raise>
    requires heap { IsHeap (T.heap terms.old) }
    requires a { a.at < length (T.heap terms.old).cells }
    requires b { b.at < length (T.heap terms.old).cells }
    ensures value { Evaluates (T.heap terms.new)
        (compared (holds relation) (T.heap terms.old).subst
        (shown (T.heap terms.old) a.at) (shown (T.heap terms.old) b.at)) result }
    ensures adds { AddsCells (T.heap terms.old) (T.heap terms.new) }
    ensures heap { IsHeap (T.heap terms.new) }
{
    let x = eval(alloc, terms, a)?;
    let y = eval(alloc, terms, b)?;
    Ok(relation.holds(x, y))
}
