//! A built-in goal by its place in the table of goals.

ghost use Rattle.std.specs.Prelude.{◌≡◌, ◌<◌, ◌+◌, ◌^◌, length, IfOk, OnErr};
ghost use Rattle.tp_meaning.specs.Heap.{IsHeap, seen};
ghost use Rattle.tp_meaning.specs.Builtin.{of_args};
ghost use Rattle.tp_build.specs.Answers.{Does, HeapGrows, args_seen};
ghost use Rattle.tp_build.specs.Families.{HasArguments, argument_count, row_of_two, row_of_three};

use crate::argument::arg;
use crate::arithmetic::{compare_values, evaluate_and_unify};
use crate::atoms::atom_length;
use crate::codes::atom_codes;
use crate::families::{Family, GoalOfThree, GoalOfTwo, family_of};
use crate::functors::functor;
use crate::kinds::test_kind;
use crate::order::compare_terms;
use crate::outcome::Outcome;
use crate::parts::univ;
use crate::unification::{copy_term, not_unifiable, unify};
use std::alloc::Global;
use tp_meaning::{BuiltId, Terms};
use tp_terms::{NoMemory, Ref};

/// What a goal with two arguments answers.
fn goal_of_two<T: Terms>(
    alloc: Global,
    goal: GoalOfTwo,
    terms: &mut T,
    x: Ref,
    y: Ref,
) -> Result<Outcome, NoMemory>
    requires heap { IsHeap (T.heap terms.old) }
    requires x { x.at < length (T.heap terms.old).cells }
    requires y { y.at < length (T.heap terms.old).cells }
    ensures does { IfOk result (Does (T.heap terms.old) (T.heap terms.new)
        (row_of_two goal (T.heap terms.old).subst (T.heap terms.old).next
        (seen (T.heap terms.old) x.at) (seen (T.heap terms.old) y.at))) }
    ensures err { OnErr result ((T.heap terms.new).subst ≡ (T.heap terms.old).subst) }
    ensures grows { HeapGrows (T.heap terms.old) (T.heap terms.new) }
    ensures heap { IsHeap (T.heap terms.new) }
{
    match goal {
        GoalOfTwo::Unify => unify(terms, x, y),
        GoalOfTwo::NotUnifiable => not_unifiable(terms, x, y),
        GoalOfTwo::Order(relation) => compare_terms(terms, relation, x, y),
        GoalOfTwo::Is => evaluate_and_unify(alloc, terms, x, y),
        GoalOfTwo::Values(relation) => compare_values(alloc, terms, relation, x, y),
        GoalOfTwo::Univ => univ(alloc, terms, x, y),
        GoalOfTwo::CopyTerm => copy_term(terms, x, y),
        GoalOfTwo::AtomLength => atom_length(terms, x, y),
        GoalOfTwo::AtomCodes => atom_codes(alloc, terms, x, y),
    }
}

/// What a goal with three arguments answers.
fn goal_of_three<T: Terms>(
    goal: GoalOfThree,
    terms: &mut T,
    x: Ref,
    y: Ref,
    z: Ref,
) -> Result<Outcome, NoMemory>
    requires heap { IsHeap (T.heap terms.old) }
    requires x { x.at < length (T.heap terms.old).cells }
    requires y { y.at < length (T.heap terms.old).cells }
    requires z { z.at < length (T.heap terms.old).cells }
    ensures does { IfOk result (Does (T.heap terms.old) (T.heap terms.new)
        (row_of_three goal (T.heap terms.old).subst (T.heap terms.old).next
        (seen (T.heap terms.old) x.at) (seen (T.heap terms.old) y.at)
        (seen (T.heap terms.old) z.at))) }
    ensures err { OnErr result ((T.heap terms.new).subst ≡ (T.heap terms.old).subst) }
    ensures grows { HeapGrows (T.heap terms.old) (T.heap terms.new) }
    ensures heap { IsHeap (T.heap terms.new) }
{
    match goal {
        GoalOfThree::Functor => functor(terms, x, y, z),
        GoalOfThree::Arg => arg(terms, x, y, z),
    }
}

/// The place so many behind another.
fn behind(first: Ref, more: usize) -> Ref
    requires { first.at + more < 2 ^ 64 }
    ensures { result.at ≡ first.at + more }
{
    Ref {
        at: first.at + more,
    }
}

/// What a built-in goal answers. Its arguments stand side by side from the place `first` on, as
/// many as the table of goals says (ISO/IEC 13211-1, clauses 8.2 to 8.7 and 8.16).
///
/// # Errors
/// `NoMemory` where memory was refused, and then nothing is bound.
pub fn builtin<T: Terms>(
    alloc: Global,
    id: BuiltId,
    terms: &mut T,
    first: Ref,
) -> Result<Outcome, NoMemory>
    requires heap { IsHeap (T.heap terms.old) }
    requires arguments { HasArguments (T.heap terms.old) id first }
    ensures does { IfOk result (Does (T.heap terms.old) (T.heap terms.new)
        (of_args id (T.heap terms.old).subst (T.heap terms.old).next
        (args_seen (T.heap terms.old) first.at (argument_count id)))) }
    ensures err { OnErr result ((T.heap terms.new).subst ≡ (T.heap terms.old).subst) }
    ensures grows { HeapGrows (T.heap terms.old) (T.heap terms.new) }
    ensures heap { IsHeap (T.heap terms.new) }
{
    match family_of(id) {
        Family::One(kind) => Ok(test_kind(terms, kind, first)),
        Family::Two(goal) => goal_of_two(alloc, goal, terms, first, behind(first, 1)),
        Family::Three(goal) => {
            let y = behind(first, 1);
            goal_of_three(goal, terms, first, y, behind(first, 2))
        }
    }
}
