//! The base of clauses.

ghost use Rattle.std.specs.Prelude.{◌≡◌, ◌<◌, ◌^◌, List, [], length, map, slice_get, true, false};
ghost use Rattle.std.specs.Prelude.{Some, None, Err, IfOk, IfSome, MatchOption};
ghost use Rattle.std.specs.List.{AllByRecursion};
ghost use Rattle.std.specs.Str.{is_utf8};
ghost use Rattle.tp_terms.specs.Term.{Name};
ghost use Rattle.tp_terms.specs.Names.{AreDistinct, Grows};
ghost use Rattle.tp_terms.specs.Shown.{AreNamed, name_at};
ghost use Rattle.tp_meaning.specs.Clauses.{predicate};
ghost use Rattle.tp_meaning.specs.Valid.{ClauseFits};
ghost use Rattle.tp_clauses.specs.Candidates.{kept_for};
ghost use Rattle.tp_clauses.specs.Contents.{IsBase, ViewFits, base_of, clauses_at, places_of};
ghost use Rattle.tp_clauses.specs.First.{candidates_of, first_arg, same_first};
ghost use Rattle.tp_clauses.specs.Loaded.{AsksMemory, HasBody, Tells};
ghost use Rattle.tp_clauses.specs.Matching.{GivesWorlds};
ghost use Rattle.tp_clauses.specs.Model.{model};
ghost use Rattle.tp_clauses.specs.Parts.{IsParts, contents_of};
ghost use Rattle.tp_clauses.specs.Ranks.{IsRank};

use crate::candidates::{Candidates, candidates_of};
use crate::fault::{Cause, LoadFault};
use crate::first::{FirstArg, FirstKey, first_key, may_match};
use crate::kind::Key;
use crate::load::load_text;
use crate::parts::Parts;
use std::alloc::Global;
use std::marker::Model;
use tp_parse::Ops;
use tp_terms::{AtomId, Atoms, Cells, NoMemory, Ref};

/// The place of a clause among all clauses in text order, counted from 0.
#[derive(Clone, Copy, Debug, PartialEq, Eq)]
pub struct ClauseId {
    /// The place.
    pub at: usize,
}

/// A clause in the cells of its base.
#[derive(Clone, Copy, Debug, PartialEq, Eq)]
pub struct ClauseView {
    /// The place of the head.
    pub head: Ref,
    /// The place of the body as a goal, where there is one.
    pub body: Option<Ref>,
    /// How many variables it has, numbered from 0.
    pub vars: u64,
}

/// The clauses of a model in text order, and its last table of operators.
#[derive(Drop)]
pub struct Base {
    parts: Parts,
    candidates: Candidates,
}

impl Model for Base {
    ghost use Rattle.tp_clauses.specs.Contents.{Contents};

    ghost Value = { Contents };

    ghost use Rattle.tp_clauses.specs.Candidates.{HasLists};
    ghost use Rattle.tp_clauses.specs.Parts.{IsParts, contents_of};

    ghost view = { λ b. contents_of b.parts };

    ghost invariant = { λ b. IsParts b.parts × HasLists (contents_of b.parts) b.candidates };
}

impl Base {
    /// The base of a text, as docs/LANGUAGE.md defines it (ISO/IEC 13211-1, clause 7.4).
    ///
    /// # Errors
    /// `Refused` with the clause's number, the byte and the cause where the text has no model, and
    /// `NoMemory` where memory was refused. Both may leave new names in `atoms`; no name changes
    /// its place. `NoMemory` never stands for a text that isn't UTF-8, nor for a read term that is
    /// refused at its first token.
    pub fn load(alloc: Global, text: &[u8], atoms: &mut Atoms) -> Result<Base, LoadFault>
        ensures model { Tells atoms.new result (model text.now) }
        ensures base { IfOk result IsBase }
        ensures fit { IfOk result (λ base. (names : List Name) →
            AllByRecursion ClauseFits (base_of names base)) }
        ensures bodies { IfOk result (λ base. AllByRecursion HasBody (base_of atoms.new base)) }
        ensures grows { Grows atoms.old atoms.new }
        ensures memory { result ≡ Err LoadFault.NoMemory →
            (is_utf8 text.now ≡ true) × AsksMemory text.now }
    {
        match str::from_utf8(text) {
            Ok(text) => match load_text(alloc, text, atoms) {
                Ok(parts) => match Base::with_lists(alloc, parts) {
                    Ok(base) => Ok(base),
                    Err(NoMemory) => Err(LoadFault::NoMemory),
                },
                Err(fault) => Err(fault),
            },
            Err(invalid) => Err(LoadFault::Refused {
                clause: 0,
                byte: invalid.valid_up_to() as u64,
                cause: Cause::Utf8,
            }),
        }
    }

    /// A base with the lists of its candidates.
    fn with_lists(alloc: Global, parts: Parts) -> Result<Base, NoMemory>
        requires { IsParts parts }
        ensures { IfOk result (λ base. base ≡ contents_of parts) }
    {
        let candidates = candidates_of(alloc, &parts)?;
        Ok(Base { parts, candidates })
    }

    /// The clauses of a name and a number of arguments, in text order; `None` exactly where there
    /// is none. Takes no memory.
    pub fn clauses(&self, name: AtomId, arity: u8) -> Option<&[ClauseId]>
        ensures listed { MatchOption result (places_of name arity self.now ≡ [])
            (λ ids. ids.now ≡ places_of name arity self.now) }
        ensures some { IfSome result (λ ids. 0 < length ids.now) }
        ensures predicate { (names : List Name) → AreDistinct names →
            AreNamed (length names) self.now.cells → name.at < length names →
            clauses_at names self.now (places_of name arity self.now) ≡ map Some
            (predicate (base_of names self.now) (name_at names name.at) arity) }
        ensures base { IsBase self.now }
    {
        let ids = self.parts.index.ids(Key { name, arity });
        if ids.is_empty() { None } else { Some(ids) }
    }

    /// The clauses of a name and a number of arguments that a goal of a first argument is tried
    /// with, in text order; `None` exactly where `clauses` has none. Takes no memory.
    ///
    /// Where at most 64 clauses of the predicate have a variable as first argument, no other
    /// clause is among them than these and those with the goal's integer, atom or principal
    /// functor. Else all clauses are.
    pub fn candidates(&self, name: AtomId, arity: u8, first: FirstArg) -> Option<&[ClauseId]>
        ensures listed { MatchOption result (places_of name arity self.now ≡ [])
            (λ ids. ids.now ≡ candidates_of name arity first self.now) }
        ensures some { IfSome result (λ _. 0 < length (places_of name arity self.now)) }
        ensures worlds { (names : List Name) → AreDistinct names →
            AreNamed (length names) self.now.cells → name.at < length names →
            IfSome result (λ ids. GivesWorlds names self.now name arity first ids.now) }
    {
        if first == FirstArg::Any {
            let all = self.clauses(name, arity)?;
            return Some(all);
        }
        let key = Key { name, arity };
        if let Some(list) = self.candidates.list(FirstKey { key, first }) {
            return Some(list);
        }
        let all = self.clauses(name, arity)?;
        Some(self.without_list(key, first, all))
    }

    /// The candidates among the clauses of a predicate where the first argument has no list: the
    /// list of any, and where no list is kept all or none.
    fn without_list<'a>(&'a self, key: Key, first: FirstArg, all: &'a [ClauseId]) -> &'a [ClauseId]
        requires all { all.now ≡ places_of key.name key.arity self.now }
        requires some { 0 < length all.now }
        requires first { same_first first FirstArg.Any ≡ false }
        requires own { kept_for (record { key = key; first = first }) self.now ≡ None }
        ensures { result.now ≡ candidates_of key.name key.arity first self.now }
    {
        let others = FirstKey {
            key,
            first: FirstArg::Any,
        };
        if let Some(list) = self.candidates.list(others) {
            return list;
        }
        if may_match(first, self.first_arg(all[0])) {
            all
        } else {
            &[]
        }
    }

    /// The first argument of a clause.
    fn first_arg(&self, id: ClauseId) -> FirstArg
        requires { id.at < length self.now.clauses }
        ensures { result ≡ first_arg self.now id }
    {
        let clause = self.clause(id);
        first_key(self.cells(), clause.head).first
    }

    /// The place of a clause among those of its name and number of arguments, as `clauses` has
    /// them. Takes no memory.
    pub fn place(&self, id: ClauseId) -> usize
        requires { id.at < length self.now.clauses }
        ensures rank { IsRank self.now id result }
        ensures few { result < 2 ^ 63 }
    {
        // Their contracts say that no rank is above the number of clauses.
        let _count = bounded_len(self.parts.ranks.as_slice());
        let _clause = self.clause(id);
        self.rank(id)
    }

    /// The place of a clause among those of its name and number of arguments.
    fn rank(&self, id: ClauseId) -> usize
        requires { id.at < length self.now.clauses }
        ensures { IsRank self.now id result }
    {
        self.parts.ranks[id.at]
    }

    /// The clause of a place. Takes no memory.
    pub fn clause(&self, id: ClauseId) -> ClauseView
        requires { id.at < length self.now.clauses }
        ensures view { slice_get self.now.clauses id.at ≡ Some result }
        ensures fits { ViewFits self.now.cells result }
    {
        self.parts.clauses[id.at]
    }

    /// The cells in which the clauses stand. Takes no memory.
    pub fn cells(&self) -> &Cells
        ensures cells { result.now.items ≡ self.now.cells }
        ensures base { IsBase self.now }
    {
        self.parts.store.cells()
    }

    /// The last table of operators. Takes no memory.
    pub fn ops(&self) -> &Ops
        ensures { result.now ≡ self.now.ops }
    {
        &self.parts.ops
    }

    /// The number of clauses, directives not counted. Takes no memory.
    pub fn count(&self) -> u64
        ensures { result ≡ length self.now.clauses }
    {
        self.parts.clauses.len() as u64
    }
}

/// The length of a slice, which memory bounds.
fn bounded_len(ranks: &[usize]) -> usize
    ensures count { result ≡ length ranks.now }
    ensures few { result < 2 ^ 63 }
{
    ranks.len()
}
