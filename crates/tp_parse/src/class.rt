//! The operators of one class, prefix or infix, by their names.

ghost use Rattle.std.specs.Prelude.{◌≡◌, [], chars, OnErr, OnOk};
ghost use Rattle.tp_parse.specs.Table.{changed};
ghost use Rattle.tp_parse.specs.Ops.{found_in};

use crate::table::Op;
use indexmap::IndexMap;
use std::alloc::Global;
use std::marker::Model;
use tp_terms::NoMemory;

/// The entries of names, and a number of bytes that no name exceeds.
#[derive(Drop)]
pub struct Class {
    entries: IndexMap<String, Option<Op>>,
    longest: usize,
}

impl Model for Class {
    ghost use Rattle.std.specs.Prelude.{List, Option};
    ghost use Rattle.tp_terms.specs.Term.{Name};
    ghost use Rattle.tp_parse.specs.Table.{Op};
    ghost use Rattle.tp_parse.specs.Ops.{AreWithin, entries_of};

    ghost Value = { List (Name × Option Op) };

    ghost view = { λ c. entries_of c.entries.entries };

    ghost invariant = { λ c. AreWithin c.longest c.entries.entries };
}

impl Class {
    /// No entries.
    pub fn new(alloc: Global) -> Class
        ensures { result ≡ [] }
    {
        Class {
            entries: IndexMap::new(alloc),
            longest: 0,
        }
    }

    /// The entry of a name. A name that is longer than all that are there isn't looked up.
    #[inline(always)]
    pub fn find(&self, name: &str) -> Option<Op>
        ensures { result ≡ found_in self.now (chars name.now) }
    {
        if name.len() > self.longest {
            return None;
        }
        self.look_up(name)
    }

    /// The entry of a name.
    #[inline(never)]
    fn look_up(&self, name: &str) -> Option<Op>
        ensures { result ≡ found_in self.now (chars name.now) }
    {
        match self.entries.get(name) {
            Some(found) => *found,
            None => None,
        }
    }

    /// Changes the entry of a name.
    pub fn set(&mut self, name: &str, entry: Option<Op>) -> Result<(), NoMemory>
        ensures ok { OnOk result
            (found_in self.new ≡ changed (chars name.now) entry (found_in self.old)) }
        ensures err { OnErr result (self.new ≡ self.old) }
    {
        let owned = String::from_str(*self.entries.allocator(), name)?;
        self.longest = self.longest.max(name.len());
        self.entries.insert(owned, entry)?;
        Ok(())
    }
}
