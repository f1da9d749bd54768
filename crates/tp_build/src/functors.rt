//! `functor/3`.

ghost use Rattle.std.specs.Prelude.{◌≡◌, ◌<◌, ℕ, length, IfOk, OnOk, OnErr, pos, Ok};
ghost use Rattle.tp_terms.specs.Term.{Int};
ghost use Rattle.tp_terms.specs.Shown.{name_at};
ghost use Rattle.tp_meaning.specs.Heap.{AddsCells, CanStand, Heap, IsHeap, IsTop, cell_seen};
ghost use Rattle.tp_meaning.specs.Heap.{cell_shown, seen, shown};
ghost use Rattle.tp_meaning.specs.Answers.{functor, functor_made, functor_of_variable};
ghost use Rattle.tp_meaning.specs.Answers.{then_unifies, unifies};
ghost use Rattle.tp_meaning.specs.Unifier.{IsConstant, pair};
ghost use Rattle.tp_build.specs.Answers.{Does, HeapGrows};
ghost use Rattle.tp_build.specs.Errors.{Finds, itself};
ghost use Rattle.tp_build.specs.Functor.{MakesCompound, arity_wanted, with_variables};

use crate::checks::{arity, atomic, bound, integer, name_in, natural_in};
use crate::errors::{Fault, raise};
use crate::outcome::Outcome;
use crate::unification::unify;
use tp_meaning::{Terms, compound_of_two};
use tp_terms::symbols::LIST_CELL;
use tp_terms::{AtomId, Cell, NoMemory, Ref};

/// The number of arguments that a new compound of this name is to have.
fn arity_wanted(name: Cell, count: Cell) -> Result<u8, Fault>
    ensures { (h : Heap) (n a : ℕ) → IsTop h n name → IsTop h a count →
        Finds h (arity_wanted (seen h n) (seen h a)) itself result }
{
    bound(name)?;
    bound(count)?;
    integer(count)?;
    atomic(name)?;
    let wanted = natural_in(count)?;
    arity(wanted)
}

/// Places for so many new variables, side by side. The answer is the first.
fn variables<T: Terms>(terms: &mut T, count: u8) -> Result<Ref, NoMemory>
    requires heap { IsHeap (T.heap terms.old) }
    requires count { 0 < count }
    ensures place { IfOk result (λ at. at.at ≡ length (T.heap terms.old).cells) }
    ensures value { OnOk result (T.heap terms.new ≡ with_variables (T.heap terms.old) count) }
    ensures err { OnErr result ((T.heap terms.new).subst ≡ (T.heap terms.old).subst) }
    ensures grows { HeapGrows (T.heap terms.old) (T.heap terms.new) }
    ensures heap { IsHeap (T.heap terms.new) }
{
    let first = terms.fresh()?;
    let mut made = 1;
    while made < count {
        terms.fresh()?;
        made += 1;
    }
    Ok(first)
}

/// The place of a compound of new variables.
fn compound_of_variables<T: Terms>(terms: &mut T, name: AtomId, count: u8) -> Result<Ref, NoMemory>
    requires heap { IsHeap (T.heap terms.old) }
    requires name { name.at < length (T.heap terms.old).names }
    requires count { 0 < count }
    ensures made { IfOk result (λ at.
        MakesCompound (T.heap terms.old) (T.heap terms.new) name.at count at.at) }
    ensures err { OnErr result ((T.heap terms.new).subst ≡ (T.heap terms.old).subst) }
    ensures grows { HeapGrows (T.heap terms.old) (T.heap terms.new) }
    ensures heap { IsHeap (T.heap terms.new) }
{
    let first = variables(terms, count)?;
    let at = terms.place(Cell::Comp { name, first, count })?;
    Ok(at)
}

/// Unifies a term with a name, or with the compound of a name and so many new variables.
fn make_and_unify<T: Terms>(
    terms: &mut T,
    term: Ref,
    name: Ref,
    count: u8,
) -> Result<Outcome, NoMemory>
    requires heap { IsHeap (T.heap terms.old) }
    requires term { term.at < length (T.heap terms.old).cells }
    requires name { name.at < length (T.heap terms.old).cells }
    ensures does { IfOk result (Does (T.heap terms.old) (T.heap terms.new)
        (functor_made (T.heap terms.old).subst (T.heap terms.old).next
        (seen (T.heap terms.old) term.at) (seen (T.heap terms.old) name.at) count)) }
    ensures err { OnErr result ((T.heap terms.new).subst ≡ (T.heap terms.old).subst) }
    ensures grows { HeapGrows (T.heap terms.old) (T.heap terms.new) }
    ensures heap { IsHeap (T.heap terms.new) }
{
    if count == 0 {
        return unify(terms, term, name);
    }
    match name_in(terms.look(name)) {
        Ok(name) => {
            let compound = compound_of_variables(terms, name, count)?;
            unify(terms, term, compound)
        }
        Err(fault) => raise(terms, fault),
    }
}

/// `functor` of an unbound variable.
fn functor_of_variable<T: Terms>(
    terms: &mut T,
    term: Ref,
    name: Ref,
    count: Ref,
) -> Result<Outcome, NoMemory>
    requires heap { IsHeap (T.heap terms.old) }
    requires term { term.at < length (T.heap terms.old).cells }
    requires name { name.at < length (T.heap terms.old).cells }
    requires count { count.at < length (T.heap terms.old).cells }
    ensures does { IfOk result (Does (T.heap terms.old) (T.heap terms.new)
        (functor_of_variable (T.heap terms.old).subst (T.heap terms.old).next
        (seen (T.heap terms.old) term.at) (seen (T.heap terms.old) name.at)
        (seen (T.heap terms.old) count.at))) }
    ensures err { OnErr result ((T.heap terms.new).subst ≡ (T.heap terms.old).subst) }
    ensures grows { HeapGrows (T.heap terms.old) (T.heap terms.new) }
    ensures heap { IsHeap (T.heap terms.new) }
{
    match arity_wanted(terms.look(name), terms.look(count)) {
        Ok(wanted) => make_and_unify(terms, term, name, wanted),
        Err(fault) => raise(terms, fault),
    }
}

/// The place of a compound of two arguments, whatever its name.
fn pair<T: Terms>(terms: &mut T, left: Cell, right: Cell) -> Result<Ref, NoMemory>
    requires heap { IsHeap (T.heap terms.old) }
    requires left { CanStand (T.heap terms.old) left }
    requires right { CanStand (T.heap terms.old) right }
    ensures made { IfOk result (λ at. at.at < length (T.heap terms.new).cells) }
    ensures shown { IfOk result (λ at. shown (T.heap terms.new) at.at
        ≡ pair (name_at (T.heap terms.old).names 0) (cell_shown (T.heap terms.old) left)
        (cell_shown (T.heap terms.old) right)) }
    ensures adds { AddsCells (T.heap terms.old) (T.heap terms.new) }
    ensures heap { IsHeap (T.heap terms.new) }
{
    let compound = compound_of_two(terms, LIST_CELL, left, right)?;
    let at = terms.place(compound)?;
    Ok(at)
}

/// `functor` of any other term, by the cell of its name and the number of its arguments. Both are
/// unified at once, so that nothing is bound where one of them can't be.
fn functor_of_known<T: Terms>(
    terms: &mut T,
    name: Ref,
    count: Ref,
    own: Cell,
    arity: u8,
) -> Result<Outcome, NoMemory>
    requires heap { IsHeap (T.heap terms.old) }
    requires name { name.at < length (T.heap terms.old).cells }
    requires count { count.at < length (T.heap terms.old).cells }
    requires own { CanStand (T.heap terms.old) own }
    requires constant { IsConstant (cell_shown (T.heap terms.old) own) }
    ensures does { IfOk result (Does (T.heap terms.old) (T.heap terms.new)
        (Ok (then_unifies (unifies (T.heap terms.old).subst (T.heap terms.old).next
        (seen (T.heap terms.old) name.at) (cell_shown (T.heap terms.old) own))
        (seen (T.heap terms.old) count.at) (Int (pos arity))))) }
    ensures err { OnErr result ((T.heap terms.new).subst ≡ (T.heap terms.old).subst) }
    ensures grows { HeapGrows (T.heap terms.old) (T.heap terms.new) }
    ensures heap { IsHeap (T.heap terms.new) }
{
    let left = terms.look(name);
    let right = terms.look(count);
    let wanted = pair(terms, left, right)?;
    let given = pair(terms, own, Cell::Int(i64::from(arity)))?;
    unify(terms, wanted, given)
}

/// `functor(Term, Name, Count)`: the name of a compound term, or an atomic term itself, and the
/// number of its arguments; of an unbound variable, such a term (ISO/IEC 13211-1, clause 8.5.1).
///
/// # Errors
/// `NoMemory` where memory was refused, and then nothing is bound.
pub fn functor<T: Terms>(
    terms: &mut T,
    term: Ref,
    name: Ref,
    count: Ref,
) -> Result<Outcome, NoMemory>
    requires heap { IsHeap (T.heap terms.old) }
    requires term { term.at < length (T.heap terms.old).cells }
    requires name { name.at < length (T.heap terms.old).cells }
    requires count { count.at < length (T.heap terms.old).cells }
    ensures does { IfOk result (Does (T.heap terms.old) (T.heap terms.new)
        (functor (T.heap terms.old).subst (T.heap terms.old).next
        (seen (T.heap terms.old) term.at) (seen (T.heap terms.old) name.at)
        (seen (T.heap terms.old) count.at))) }
    ensures err { OnErr result ((T.heap terms.new).subst ≡ (T.heap terms.old).subst) }
    ensures grows { HeapGrows (T.heap terms.old) (T.heap terms.new) }
    ensures heap { IsHeap (T.heap terms.new) }
{
    let cell = terms.look(term);
    match cell {
        Cell::Var(_) => functor_of_variable(terms, term, name, count),
        Cell::Int(_) => functor_of_known(terms, name, count, cell, 0),
        Cell::Atom(_) => functor_of_known(terms, name, count, cell, 0),
        Cell::Comp {
            name: own,
            count: arity,
            ..
        } => functor_of_known(terms, name, count, Cell::Atom(own), arity),
    }
}
