//! Goals that unify (ISO/IEC 13211-1, clauses 8.2 and 8.5.4).

ghost use Rattle.std.specs.Prelude.{◌≡◌, ◌<◌, length, Ok, IfOk, OnErr};
ghost use Rattle.tp_meaning.specs.Heap.{IsHeap, seen};
ghost use Rattle.tp_build.specs.Answers.{Does, HeapGrows, unifies};
ghost use Rattle.tp_meaning.specs.Builtin.{copies, differs};

use crate::decided::decided;
use crate::outcome::Outcome;
use tp_meaning::Terms;
use tp_terms::{NoMemory, Ref};

/// `=`: makes the terms of two places equal by their most general unifier.
///
/// # Errors
/// `NoMemory` where memory was refused, and then nothing is bound.
pub fn unify<T: Terms>(terms: &mut T, x: Ref, y: Ref) -> Result<Outcome, NoMemory>
    requires heap { IsHeap (T.heap terms.old) }
    requires x { x.at < length (T.heap terms.old).cells }
    requires y { y.at < length (T.heap terms.old).cells }
    ensures does { IfOk result (Does (T.heap terms.old) (T.heap terms.new)
        (Ok (unifies (T.heap terms.old).subst (T.heap terms.old).next
        (seen (T.heap terms.old) x.at) (seen (T.heap terms.old) y.at)))) }
    ensures err { OnErr result ((T.heap terms.new).subst ≡ (T.heap terms.old).subst) }
    ensures grows { HeapGrows (T.heap terms.old) (T.heap terms.new) }
    ensures heap { IsHeap (T.heap terms.new) }
{
    let found = terms.unify(x, y)?;
    if found {
        Ok(Outcome::Yes)
    } else {
        Ok(Outcome::No)
    }
}

/// `\=`: whether the terms of two places have no unifier. Nothing is bound.
///
/// # Errors
/// `NoMemory` where memory was refused.
pub fn not_unifiable<T: Terms>(terms: &mut T, x: Ref, y: Ref) -> Result<Outcome, NoMemory>
    requires heap { IsHeap (T.heap terms.old) }
    requires x { x.at < length (T.heap terms.old).cells }
    requires y { y.at < length (T.heap terms.old).cells }
    ensures does { IfOk result (Does (T.heap terms.old) (T.heap terms.new)
        (differs (T.heap terms.old).subst (T.heap terms.old).next
        (seen (T.heap terms.old) x.at) (seen (T.heap terms.old) y.at))) }
    ensures err { OnErr result ((T.heap terms.new).subst ≡ (T.heap terms.old).subst) }
    ensures grows { HeapGrows (T.heap terms.old) (T.heap terms.new) }
    ensures heap { IsHeap (T.heap terms.new) }
{
    let found = terms.unifiable(x, y)?;
    Ok(decided(!found))
}

/// `copy_term`: unifies the term of the place `c` with that of `t` with new variables, which are
/// numbered by first occurrence.
///
/// # Errors
/// `NoMemory` where memory was refused, and then nothing is bound.
pub fn copy_term<T: Terms>(terms: &mut T, t: Ref, c: Ref) -> Result<Outcome, NoMemory>
    requires heap { IsHeap (T.heap terms.old) }
    requires t { t.at < length (T.heap terms.old).cells }
    requires c { c.at < length (T.heap terms.old).cells }
    ensures does { IfOk result (Does (T.heap terms.old) (T.heap terms.new)
        (copies (T.heap terms.old).subst (T.heap terms.old).next
        (seen (T.heap terms.old) t.at) (seen (T.heap terms.old) c.at))) }
    ensures err { OnErr result ((T.heap terms.new).subst ≡ (T.heap terms.old).subst) }
    ensures grows { HeapGrows (T.heap terms.old) (T.heap terms.new) }
    ensures heap { IsHeap (T.heap terms.new) }
{
    let copy = terms.copy(t)?;
    let outcome = unify(terms, c, copy)?;
    Ok(outcome)
}
