//! `atom_length/2`.

ghost use Rattle.std.specs.Prelude.{◌≡◌, ◌<◌, ℕ, length, pos, chars, IfOk, OnErr};
ghost use Rattle.tp_meaning.specs.Heap.{Heap, IsHeap, IsTop, seen};
ghost use Rattle.tp_meaning.specs.Answers.{atom_length, length_wanted};
ghost use Rattle.tp_build.specs.Answers.{Does, HeapGrows};
ghost use Rattle.tp_build.specs.Errors.{Finds, itself};
ghost use Rattle.tp_build.specs.Names.{Measures};

use crate::arithmetic::unify_number;
use crate::checks::{bound, name_in, natural_in};
use crate::errors::{Fault, raise};
use crate::outcome::Outcome;
use tp_meaning::Terms;
use tp_terms::{AtomId, Cell, NoMemory, Ref};

/// A length that is asked for: unbound, or an integer that isn't negative.
fn length_wanted(cell: Cell) -> Result<(), Fault>
    ensures { (h : Heap) (at : ℕ) → IsTop h at cell →
        Finds h (length_wanted (seen h at)) itself result }
{
    match cell {
        Cell::Var(_) => Ok(()),
        _ => {
            natural_in(cell)?;
            Ok(())
        }
    }
}

/// The atom whose length is asked for.
fn measured(atom: Cell, length: Cell) -> Result<AtomId, Fault>
    ensures { (h : Heap) (a n : ℕ) → IsTop h a atom → IsTop h n length → Measures h a n result }
{
    bound(atom)?;
    let name = name_in(atom)?;
    length_wanted(length)?;
    Ok(name)
}

/// The number of characters.
fn characters_in(name: &str) -> usize
    ensures { result ≡ length (chars name.now) }
{
    name.chars().count()
}

/// A length as an integer of a term.
///
/// # Errors
/// `NoMemory` where it is too great: no memory holds so many characters.
fn as_integer(count: usize) -> Result<i64, NoMemory>
    ensures { IfOk result (λ z. z ≡ pos count) }
{
    if count < 0x8000_0000_0000_0000 {
        Ok(count as i64)
    } else {
        Err(NoMemory)
    }
}

/// `atom_length(Atom, Number)` (ISO/IEC 13211-1, clause 8.16.1).
///
/// # Errors
/// `NoMemory` where memory was refused, and then nothing is bound.
pub fn atom_length<T: Terms>(terms: &mut T, atom: Ref, number: Ref) -> Result<Outcome, NoMemory>
    requires heap { IsHeap (T.heap terms.old) }
    requires atom { atom.at < length (T.heap terms.old).cells }
    requires number { number.at < length (T.heap terms.old).cells }
    ensures does { IfOk result (Does (T.heap terms.old) (T.heap terms.new)
        (atom_length (T.heap terms.old).subst (T.heap terms.old).next
        (seen (T.heap terms.old) atom.at) (seen (T.heap terms.old) number.at))) }
    ensures err { OnErr result ((T.heap terms.new).subst ≡ (T.heap terms.old).subst) }
    ensures grows { HeapGrows (T.heap terms.old) (T.heap terms.new) }
    ensures heap { IsHeap (T.heap terms.new) }
{
    match measured(terms.look(atom), terms.look(number)) {
        Ok(name) => {
            let count = as_integer(characters_in(terms.name(name)))?;
            unify_number(terms, number, count)
        }
        Err(fault) => raise(terms, fault),
    }
}
