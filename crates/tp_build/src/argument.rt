//! `arg/3`.

ghost use Rattle.std.specs.Prelude.{◌≡◌, ◌+◌, ◌^◌, ◌<◌, ℕ, length, OnErr, IfOk};
ghost use Rattle.tp_meaning.specs.Heap.{Heap, HasPlaces, IsHeap, IsTop, seen};
ghost use Rattle.tp_build.specs.Answers.{Does, HeapGrows};
ghost use Rattle.tp_meaning.specs.Answers.{arg};
ghost use Rattle.tp_build.specs.Functor.{IsNth, Picks};

use crate::checks::{arguments, bound, integer, natural};
use crate::errors::{Fault, raise};
use crate::outcome::Outcome;
use crate::unification::unify;
use tp_meaning::Terms;
use tp_terms::{Cell, NoMemory, Ref};

/// The place of the argument of this number, counted from 1, where there is one.
fn nth(first: Ref, count: u8, number: u64) -> Option<Ref>
    requires { first.at + count < 2 ^ 64 }
    ensures { IsNth first.at count number result }
{
    if number == 0 || number > u64::from(count) {
        None
    } else {
        Some(Ref {
            at: first.at + (number - 1) as usize,
        })
    }
}

/// The place of the argument that is asked for, where there is one.
fn chosen(number: Cell, of: Cell) -> Result<Option<Ref>, Fault>
    requires { HasPlaces of }
    ensures { (h : Heap) (n t : ℕ) → IsTop h n number → IsTop h t of → Picks h n t result }
{
    bound(number)?;
    bound(of)?;
    let value = integer(number)?;
    let row = arguments(of)?;
    let wanted = natural(value)?;
    Ok(nth(row.first, row.count, wanted))
}

/// `arg(Number, Term, Argument)`: the argument of a compound term of a number from 1 on is unified
/// with the third term (ISO/IEC 13211-1, clause 8.5.2).
///
/// # Errors
/// `NoMemory` where memory was refused.
pub fn arg<T: Terms>(
    terms: &mut T,
    number: Ref,
    of: Ref,
    argument: Ref,
) -> Result<Outcome, NoMemory>
    requires heap { IsHeap (T.heap terms.old) }
    requires number { number.at < length (T.heap terms.old).cells }
    requires of { of.at < length (T.heap terms.old).cells }
    requires argument { argument.at < length (T.heap terms.old).cells }
    ensures does { IfOk result (Does (T.heap terms.old) (T.heap terms.new)
        (arg (T.heap terms.old).subst (T.heap terms.old).next
        (seen (T.heap terms.old) number.at) (seen (T.heap terms.old) of.at)
        (seen (T.heap terms.old) argument.at))) }
    ensures err { OnErr result ((T.heap terms.new).subst ≡ (T.heap terms.old).subst) }
    ensures grows { HeapGrows (T.heap terms.old) (T.heap terms.new) }
    ensures heap { IsHeap (T.heap terms.new) }
{
    match chosen(terms.look(number), terms.look(of)) {
        Ok(Some(place)) => unify(terms, argument, place),
        Ok(None) => Ok(Outcome::No),
        Err(fault) => raise(terms, fault),
    }
}
