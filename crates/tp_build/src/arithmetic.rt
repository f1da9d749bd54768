//! Goals that evaluate (ISO/IEC 13211-1, clauses 8.6 and 8.7).

ghost use Rattle.std.specs.Prelude.{◌≡◌, ◌<◌, length, Ok, IfOk, OnErr};
ghost use Rattle.tp_terms.specs.Term.{Int};
ghost use Rattle.tp_meaning.specs.Heap.{IsHeap, seen};
ghost use Rattle.tp_build.specs.Answers.{Does, HeapGrows, unifies};
ghost use Rattle.tp_meaning.specs.Builtin.{is_value};
ghost use Rattle.tp_build.specs.Builtin.{compares};

use crate::decided::decided;
use crate::outcome::Outcome;
use crate::unification::unify;
use std::alloc::Global;
use tp_arith::{Raise, Relation, compare_numbers, eval};
use tp_meaning::Terms;
use tp_terms::{Cell, NoMemory, Ref};

/// Unifies the term of a place with a number.
///
/// # Errors
/// `NoMemory` where memory was refused, and then nothing is bound.
pub fn unify_number<T: Terms>(terms: &mut T, x: Ref, value: i64) -> Result<Outcome, NoMemory>
    requires heap { IsHeap (T.heap terms.old) }
    requires x { x.at < length (T.heap terms.old).cells }
    ensures does { IfOk result (Does (T.heap terms.old) (T.heap terms.new)
        (Ok (unifies (T.heap terms.old).subst (T.heap terms.old).next
        (seen (T.heap terms.old) x.at) (Int value)))) }
    ensures err { OnErr result ((T.heap terms.new).subst ≡ (T.heap terms.old).subst) }
    ensures grows { HeapGrows (T.heap terms.old) (T.heap terms.new) }
    ensures heap { IsHeap (T.heap terms.new) }
{
    let number = terms.place(Cell::Int(value))?;
    let outcome = unify(terms, x, number)?;
    Ok(outcome)
}

/// `is`: unifies the term of the place `x` with the value of the term of the place `e`. The answer
/// is the place of the error's kind exactly where the term has no value.
///
/// # Errors
/// `NoMemory` where memory was refused, and then nothing is bound.
pub fn evaluate_and_unify<T: Terms>(
    alloc: Global,
    terms: &mut T,
    x: Ref,
    e: Ref,
) -> Result<Outcome, NoMemory>
    requires heap { IsHeap (T.heap terms.old) }
    requires x { x.at < length (T.heap terms.old).cells }
    requires e { e.at < length (T.heap terms.old).cells }
    ensures does { IfOk result (Does (T.heap terms.old) (T.heap terms.new)
        (is_value (T.heap terms.old).subst (T.heap terms.old).next
        (seen (T.heap terms.old) x.at) (seen (T.heap terms.old) e.at))) }
    ensures err { OnErr result ((T.heap terms.new).subst ≡ (T.heap terms.old).subst) }
    ensures grows { HeapGrows (T.heap terms.old) (T.heap terms.new) }
    ensures heap { IsHeap (T.heap terms.new) }
{
    match eval(alloc, terms, e) {
        Ok(value) => unify_number(terms, x, value),
        Err(Raise::Raised(at)) => Ok(Outcome::Raise(at)),
        Err(Raise::NoMemory) => Err(NoMemory),
    }
}

/// `=:=`, `=\=`, `<`, `=<`, `>` and `>=`: whether the values of the terms of two places are in a
/// relation. The answer is the place of the error's kind exactly where one of the terms has no
/// value, the left term's error first. Nothing is bound.
///
/// # Errors
/// `NoMemory` where memory was refused.
pub fn compare_values<T: Terms>(
    alloc: Global,
    terms: &mut T,
    relation: Relation,
    x: Ref,
    y: Ref,
) -> Result<Outcome, NoMemory>
    requires heap { IsHeap (T.heap terms.old) }
    requires x { x.at < length (T.heap terms.old).cells }
    requires y { y.at < length (T.heap terms.old).cells }
    ensures does { IfOk result (Does (T.heap terms.old) (T.heap terms.new)
        (compares relation (T.heap terms.old).subst (T.heap terms.old).next
        (seen (T.heap terms.old) x.at) (seen (T.heap terms.old) y.at))) }
    ensures err { OnErr result ((T.heap terms.new).subst ≡ (T.heap terms.old).subst) }
    ensures grows { HeapGrows (T.heap terms.old) (T.heap terms.new) }
    ensures heap { IsHeap (T.heap terms.new) }
{
    match compare_numbers(alloc, terms, relation, x, y) {
        Ok(holds) => Ok(decided(holds)),
        Err(Raise::Raised(at)) => Ok(Outcome::Raise(at)),
        Err(Raise::NoMemory) => Err(NoMemory),
    }
}
