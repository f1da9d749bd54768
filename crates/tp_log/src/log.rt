//! A list of entries in which a binding takes one word.

ghost use Rattle.std.specs.Prelude.{◌≡◌, ◌+◌, ◌<◌, ◌≤◌, [], ◌∷◌, ◌++◌, length, nat_eq, IfSome};
ghost use Rattle.std.specs.Prelude.{IfNone, OnOk, OnErr};

use crate::entry::Entry;
use std::alloc::Global;
use std::marker::Model;
use tp_terms::NoMemory;

/// An entry that is no binding.
#[derive(Clone, Copy, Debug)]
struct Other {
    /// How many bindings stand between the other entry before it and this one.
    bindings: usize,
    entry: Entry,
}

/// The acts so far, the newest last. Contracts see the list of their entries.
///
/// Nearly all entries of a run are bindings, so each of these is kept as the number of its variable
/// alone, and the other entries stand at the side.
#[derive(Drop)]
pub struct Log {
    numbers: Vec<u64>,
    others: Vec<Other>,
    /// How many bindings stand behind the last of the other entries.
    newest: usize,
}

impl Model for Log {
    ghost use Rattle.std.specs.Prelude.{List, ◌≡◌, ◌+◌, length};
    ghost use Rattle.tp_log.specs.declared.entry.Entry.{Entry};

    ghost Value = { List Entry };

    ghost use Rattle.tp_log.specs.Entries.{entries, bindings_before};

    ghost view = { λ l. entries l.numbers.items l.others.items };

    ghost invariant = { λ l. bindings_before l.others.items + l.newest ≡ length l.numbers.items };
}

impl Log {
    /// No entries.
    pub fn new(alloc: Global) -> Log
        ensures { result ≡ [] }
    {
        Log {
            numbers: Vec::new(alloc),
            others: Vec::new(alloc),
            newest: 0,
        }
    }

    /// Adds an entry. Where memory is refused, the list stays.
    pub fn push(&mut self, entry: Entry) -> Result<(), NoMemory>
        ensures added { OnOk result (self.new ≡ self.old ++ entry ∷ []) }
        ensures stays { OnErr result (self.new ≡ self.old) }
    {
        if let Entry::Bind(number) = entry {
            self.numbers.push(number)?;
            self.newest += 1;
            return Ok(());
        }
        self.others.push(Other {
            bindings: self.newest,
            entry,
        })?;
        self.newest = 0;
        Ok(())
    }

    /// The number of entries.
    pub fn len(&self) -> usize
        ensures { result ≡ length self.now }
    {
        self.numbers.len() + self.others.len()
    }

    /// Whether there are no entries.
    pub fn is_empty(&self) -> bool
        ensures { result ≡ nat_eq (length self.now) 0 }
    {
        self.len() == 0
    }

    /// Takes the last entry, where there are more than `mark`. Takes no memory.
    pub fn pop_above(&mut self, mark: usize) -> Option<Entry>
        ensures taken { IfSome result (λ entry. self.old ≡ self.new ++ entry ∷ []) }
        ensures above { IfSome result (λ _. mark < length self.old) }
        ensures none { IfNone result (length self.old ≤ mark) }
        ensures stays { IfNone result (self.new ≡ self.old) }
    {
        if self.len() <= mark {
            return None;
        }
        if self.newest == 0 {
            let other = self.others.pop()?;
            self.newest = other.bindings;
            return Some(other.entry);
        }
        let number = self.numbers.pop()?;
        self.newest -= 1;
        Some(Entry::Bind(number))
    }

    /// Takes all entries away. Takes no memory.
    pub fn clear(&mut self)
        ensures { self.new ≡ [] }
    {
        self.numbers.clear();
        self.others.clear();
        self.newest = 0;
    }
}
