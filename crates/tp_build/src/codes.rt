//! `atom_codes/2`.

ghost use Rattle.std.specs.Prelude.{◌≡◌, ◌<◌, ℕ, length, pos, chars, Ok, SomeIff, IfOk, OnErr};
ghost use Rattle.std.specs.Char.{IsScalar};
ghost use Rattle.tp_terms.specs.Term.{Atom};
ghost use Rattle.tp_terms.specs.Shown.{name_at};
ghost use Rattle.tp_meaning.specs.Heap.{AddsCells, Heap, IsHeap, IsTop, seen};
ghost use Rattle.tp_meaning.specs.Answers.{unifies, atom_codes, atom_of_codes, character};
ghost use Rattle.tp_meaning.specs.Answers.{character_of, codes_list};
ghost use Rattle.tp_build.specs.Answers.{Does, HeapGrows};
ghost use Rattle.tp_build.specs.Errors.{Finds, itself};
ghost use Rattle.tp_build.specs.Codes.{IsSpelled};
ghost use Rattle.tp_build.specs.Lists.{AreWithin, MakesSeen};

use crate::checks::{bound, integer, natural};
use crate::errors::{Fault, Limit, WantedType, raise};
use crate::lists::{closed, link_of, walk};
use crate::outcome::Outcome;
use crate::unification::unify;
use std::alloc::{AllocError, Global};
use tp_meaning::Terms;
use tp_terms::symbols::EMPTY_LIST;
use tp_terms::{AtomId, Cell, NoMemory, Ref, push_char};

/// The character of a code, if it has one.
fn char_of(code: u64) -> Option<char>
    ensures { SomeIff result (IsScalar code) code }
{
    if code <= 0x10_FFFF {
        char::from_u32(code as u32)
    } else {
        None
    }
}

/// The character of a number that isn't negative.
fn coded(code: u64) -> Result<char, Fault>
    ensures { (h : Heap) → Finds h (character (pos code)) itself result }
{
    match char_of(code) {
        Some(found) => Ok(found),
        None => Err(Fault::Representation(Limit::CharacterCode)),
    }
}

/// The character of a number.
fn character(value: i64) -> Result<char, Fault>
    ensures { (h : Heap) → Finds h (character value) itself result }
{
    match natural(value) {
        Ok(code) => coded(code),
        Err(_) => Err(Fault::Representation(Limit::CharacterCode)),
    }
}

/// An element that is the number of a character.
fn character_of(cell: Cell) -> Result<char, Fault>
    ensures { (h : Heap) (at : ℕ) → IsTop h at cell →
        Finds h (character_of (seen h at)) itself result }
{
    bound(cell)?;
    let value = integer(cell)?;
    character(value)
}

/// The text of the characters whose numbers stand at places, or why there is none.
fn spelled<T: Terms>(
    alloc: Global,
    terms: &T,
    places: &[Ref],
) -> Result<Result<String, Fault>, NoMemory>
    requires heap { IsHeap (T.heap terms.now) }
    requires within { AreWithin (T.heap terms.now) places.now }
    ensures { IfOk result (IsSpelled (T.heap terms.now) places.now) }
{
    let mut text = String::new(alloc);
    let mut read = 0;
    while read < places.len() {
        match character_of(terms.look(places[read])) {
            Ok(found) => push_char(found, &mut text)?,
            Err(fault) => return Ok(Err(fault)),
        }
        read += 1;
    }
    Ok(Ok(text))
}

/// Unifies a term with the atom of a text.
fn unify_atom<T: Terms>(terms: &mut T, atom: Ref, text: &str) -> Result<Outcome, NoMemory>
    requires heap { IsHeap (T.heap terms.old) }
    requires atom { atom.at < length (T.heap terms.old).cells }
    ensures does { IfOk result (Does (T.heap terms.old) (T.heap terms.new)
        (Ok (unifies (T.heap terms.old).subst (T.heap terms.old).next
        (seen (T.heap terms.old) atom.at) (Atom (chars text.now))))) }
    ensures err { OnErr result ((T.heap terms.new).subst ≡ (T.heap terms.old).subst) }
    ensures grows { HeapGrows (T.heap terms.old) (T.heap terms.new) }
    ensures heap { IsHeap (T.heap terms.new) }
{
    let name = terms.intern(text)?;
    let at = terms.place(Cell::Atom(name))?;
    unify(terms, atom, at)
}

/// `atom_codes` of an unbound variable.
fn atom_of_codes<T: Terms>(
    alloc: Global,
    terms: &mut T,
    atom: Ref,
    list: Ref,
) -> Result<Outcome, NoMemory>
    requires heap { IsHeap (T.heap terms.old) }
    requires atom { atom.at < length (T.heap terms.old).cells }
    requires list { list.at < length (T.heap terms.old).cells }
    ensures does { IfOk result (Does (T.heap terms.old) (T.heap terms.new)
        (atom_of_codes (T.heap terms.old).subst (T.heap terms.old).next
        (seen (T.heap terms.old) atom.at) (seen (T.heap terms.old) list.at))) }
    ensures err { OnErr result ((T.heap terms.new).subst ≡ (T.heap terms.old).subst) }
    ensures grows { HeapGrows (T.heap terms.old) (T.heap terms.new) }
    ensures heap { IsHeap (T.heap terms.new) }
{
    let walked = walk(alloc, terms, list)?;
    let text = match spelled(alloc, terms, &walked.elements)? {
        Ok(text) => text,
        Err(fault) => return raise(terms, fault),
    };
    match closed(walked.end, terms.look(list)) {
        Ok(()) => unify_atom(terms, atom, &text),
        Err(fault) => raise(terms, fault),
    }
}

/// The characters of a text.
fn characters(alloc: Global, text: &str) -> Result<Vec<char>, AllocError>
    ensures { IfOk result (λ name. name.items ≡ chars text.now) }
{
    let mut name = Vec::new(alloc);
    for character in text.chars() {
        name.push(character)?;
    }
    Ok(name)
}

/// A character's code.
fn code(character: char) -> i64
    ensures { result ≡ pos character }
{
    i64::from(u32::from(character))
}

/// The cell of the list of the codes of characters.
fn list_of_codes<T: Terms>(terms: &mut T, name: &[char]) -> Result<Cell, NoMemory>
    requires heap { IsHeap (T.heap terms.old) }
    ensures made { IfOk result (λ c. MakesSeen (T.heap terms.old) (T.heap terms.new) c
        (codes_list name.now)) }
    ensures err { OnErr result (AddsCells (T.heap terms.old) (T.heap terms.new)) }
    ensures heap { IsHeap (T.heap terms.new) }
{
    let mut list = Cell::Atom(EMPTY_LIST);
    let mut left = name.len();
    while left > 0 {
        left -= 1;
        list = link_of(terms, Cell::Int(code(name[left])), list)?;
    }
    Ok(list)
}

/// Unifies a term with the list of the codes of an atom.
fn codes_of_atom<T: Terms>(
    alloc: Global,
    terms: &mut T,
    name: AtomId,
    list: Ref,
) -> Result<Outcome, NoMemory>
    requires heap { IsHeap (T.heap terms.old) }
    requires name { name.at < length (T.heap terms.old).names }
    requires list { list.at < length (T.heap terms.old).cells }
    ensures does { IfOk result (Does (T.heap terms.old) (T.heap terms.new)
        (Ok (unifies (T.heap terms.old).subst (T.heap terms.old).next
        (seen (T.heap terms.old) list.at)
        (codes_list (name_at (T.heap terms.old).names name.at))))) }
    ensures err { OnErr result ((T.heap terms.new).subst ≡ (T.heap terms.old).subst) }
    ensures grows { HeapGrows (T.heap terms.old) (T.heap terms.new) }
    ensures heap { IsHeap (T.heap terms.new) }
{
    let name = characters(alloc, terms.name(name))?;
    let codes = list_of_codes(terms, &name)?;
    let at = terms.place(codes)?;
    unify(terms, list, at)
}

/// `atom_codes(Atom, List)`: the list of the codes of an atom's characters; of an unbound variable,
/// such an atom (ISO/IEC 13211-1, clause 8.16.5).
///
/// # Errors
/// `NoMemory` where memory was refused, and then nothing is bound.
pub fn atom_codes<T: Terms>(
    alloc: Global,
    terms: &mut T,
    atom: Ref,
    list: Ref,
) -> Result<Outcome, NoMemory>
    requires heap { IsHeap (T.heap terms.old) }
    requires atom { atom.at < length (T.heap terms.old).cells }
    requires list { list.at < length (T.heap terms.old).cells }
    ensures does { IfOk result (Does (T.heap terms.old) (T.heap terms.new)
        (atom_codes (T.heap terms.old).subst (T.heap terms.old).next
        (seen (T.heap terms.old) atom.at) (seen (T.heap terms.old) list.at))) }
    ensures err { OnErr result ((T.heap terms.new).subst ≡ (T.heap terms.old).subst) }
    ensures grows { HeapGrows (T.heap terms.old) (T.heap terms.new) }
    ensures heap { IsHeap (T.heap terms.new) }
{
    let cell = terms.look(atom);
    match cell {
        Cell::Var(_) => atom_of_codes(alloc, terms, atom, list),
        Cell::Atom(name) => codes_of_atom(alloc, terms, name, list),
        Cell::Int(_) => raise(terms, Fault::Type(WantedType::Atom, cell)),
        Cell::Comp { .. } => raise(terms, Fault::Type(WantedType::Atom, cell)),
    }
}
