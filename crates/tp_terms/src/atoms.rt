//! The table of names.

ghost use Rattle.std.specs.Prelude.{◌≡◌, ℕ, ◌<◌, length, slice_get, map, chars, encode_utf8_all};
ghost use Rattle.std.specs.Prelude.{IsOk, IsOkAnd, IfOk, OnOk, OnErr};
ghost use Rattle.tp_terms.specs.Shown.{name_at};
ghost use Rattle.tp_terms.specs.Names.{names_of, with_name, with_names, HasFew, IsTable, StandsAt};
ghost use Rattle.tp_terms.specs.Names.{Grows};
ghost use Rattle.tp_terms.specs.StartNames.{start_names};

use crate::NoMemory;
use crate::cells::AtomId;
use crate::symbols::START_NAMES;
use indexmap::IndexSet;
use std::alloc::Global;
use std::marker::Model;

/// The most names that a table has: the place of each fits in an atom.
const MOST_NAMES: usize = 4_294_967_296;

/// Names, each at one place. A name keeps its place for ever.
#[derive(Drop)]
pub struct Atoms {
    names: IndexSet<String>,
}

impl Model for Atoms {
    ghost use Rattle.std.specs.Prelude.{List};
    ghost use Rattle.tp_terms.specs.Term.{Name};

    ghost Value = { List Name };

    ghost use Rattle.tp_terms.specs.Names.{names_of, HasFew, IsTable};

    ghost view = { λ a. names_of a.names.keys };

    ghost invariant = { λ a. IsTable (names_of a.names.keys) × HasFew a.names.keys };
}

impl Atoms {
    /// The table of the start: the names of `symbols`, and no other.
    ///
    /// # Errors
    /// `NoMemory` where memory was refused.
    pub fn start(alloc: Global) -> Result<Atoms, NoMemory>
        ensures names { IfOk result (λ atoms. atoms ≡ start_names) }
        ensures table { IfOk result IsTable }
    {
        let mut names = IndexSet::new(alloc);
        find_or_add_all(&mut names, &START_NAMES)?;
        Ok(Atoms { names })
    }

    /// The one place of a name. A name that isn't in the table is added at its end; one that is
    /// there takes no memory.
    ///
    /// # Errors
    /// `NoMemory` where memory for a new name was refused, or where the table has 2^32 names, and
    /// then the table is as before.
    pub fn intern(&mut self, name: &str) -> Result<AtomId, NoMemory>
        ensures place { IfOk result (λ atom. StandsAt self.new atom.at (chars name.now)) }
        ensures names { OnOk result (self.new ≡ with_name self.old (chars name.now)) }
        ensures keeps { (at : ℕ) → at < length self.old →
            slice_get self.new at ≡ slice_get self.old at }
        ensures grows { Grows self.old self.new }
        ensures table { IsTable self.new }
        ensures err { OnErr result (self.new ≡ self.old) }

        // A name that is there needs no memory: its place is answered, and the table stays.
        ensures known { (at : ℕ) → StandsAt self.old at (chars name.now) →
            IsOkAnd result (λ atom. atom.at ≡ at) }
        ensures stays { (at : ℕ) → StandsAt self.old at (chars name.now) → self.new ≡ self.old }
    {
        let atom = find_or_add(&mut self.names, name)?;
        Ok(atom)
    }

    /// The name of an atom. Takes no memory.
    pub fn name(&self, atom: AtomId) -> &str
        requires { atom.at < length self.now }
        ensures name { StandsAt self.now atom.at (chars result.now) }
        ensures bytes { result.now ≡ encode_utf8_all (name_at self.now atom.at) }
        ensures table { IsTable self.now }
    {
        self.names[atom.at as usize].as_str()
    }

    /// The number of names. Takes no memory.
    pub fn len(&self) -> usize
        ensures len { result ≡ length self.now }
        ensures table { IsTable self.now }
    {
        self.names.len()
    }
}

/// The place of a name, which is added behind the others where it isn't there.
fn find_or_add(names: &mut IndexSet<String>, name: &str) -> Result<AtomId, NoMemory>
    requires { HasFew names.old.keys }
    ensures few { HasFew names.new.keys }
    ensures place { IfOk result (λ atom.
        StandsAt (names_of names.new.keys) atom.at (chars name.now)) }
    ensures names { let added = with_name (names_of names.old.keys) (chars name.now) in
        OnOk result (names_of names.new.keys ≡ added) }
    ensures err { OnErr result (names_of names.new.keys ≡ names_of names.old.keys) }
    ensures known { (at : ℕ) → StandsAt (names_of names.old.keys) at (chars name.now) →
        IsOk result }
{
    if let Some(at) = names.get_index_of(name) {
        return Ok(AtomId { at: at as u32 });
    }
    if names.len() >= MOST_NAMES {
        return Err(NoMemory);
    }
    let owned = String::from_str(*names.allocator(), name)?;
    let (at, _) = names.insert_full(owned)?;
    Ok(AtomId { at: at as u32 })
}

/// The same for each of these names in turn.
fn find_or_add_all(names: &mut IndexSet<String>, more: &[&str]) -> Result<(), NoMemory>
    requires { HasFew names.old.keys }
    ensures few { HasFew names.new.keys }
    ensures names { let added = map (λ text. chars text.now) more.now in
        OnOk result (names_of names.new.keys ≡ with_names (names_of names.old.keys) added) }
{
    for name in more {
        find_or_add(names, name)?;
    }
    Ok(())
}
