//! What variables are bound to, in few words of memory.

ghost use Rattle.std.specs.Prelude.{◌≡◌, ◌+◌, ◌-◌, ◌^◌, ◌<◌, ◌≤◌, ℕ, [], ◌∷◌, ◌++◌, length, take};
ghost use Rattle.std.specs.Prelude.{replicate, slice_index_or, slice_set, Some, None, OnOk, OnErr};
ghost use Rattle.std.specs.List.{remove};
ghost use Rattle.tp_store.specs.Trail.{number_at};

use std::alloc::Global;
use std::marker::Model;
use tp_terms::{NoMemory, Ref};

/// What variables are bound to, and in which order they were bound. Contracts see what each
/// variable is bound to, by its number, and the bindings in their order, the newest last.
///
/// A long run fills this, so a variable takes one word here and a binding one more.
#[derive(Drop)]
pub struct Trail {
    /// For each variable the place that it is bound to, counted from 1, or 0.
    links: Vec<usize>,
    /// The bound variables, the newest last.
    numbers: Vec<u64>,
}

impl Model for Trail {
    ghost use Rattle.tp_store.specs.Trail.{Table, table_of, AreLinked};

    ghost Value = { Table };

    ghost view = { λ t. table_of t.links.items t.numbers.items };

    ghost invariant = { λ t. AreLinked t.links.items t.numbers.items };
}

impl Trail {
    /// No variables. Takes no memory.
    pub fn new(alloc: Global) -> Trail
        ensures bound { result.bound ≡ [] }
        ensures pairs { result.pairs ≡ [] }
    {
        Trail {
            links: Vec::new(alloc),
            numbers: Vec::new(alloc),
        }
    }

    /// The number of variables, bound and unbound.
    pub fn variables(&self) -> usize
        ensures { result ≡ length self.now.bound }
    {
        self.links.len()
    }

    /// The number of bindings.
    pub fn len(&self) -> usize
        ensures { result ≡ length self.now.pairs }
    {
        self.numbers.len()
    }

    /// The place that a variable is bound to.
    pub fn get(&self, number: u64) -> Option<Ref>
        requires { number < length self.now.bound }
        ensures { result ≡ slice_index_or self.now.bound number None }
    {
        match self.links[number as usize] {
            0 => None,
            link => Some(Ref { at: link - 1 }),
        }
    }

    /// The variable of a binding, by the place of the binding from the oldest on.
    pub fn number(&self, at: usize) -> u64
        requires { at < length self.now.pairs }
        ensures { result ≡ number_at self.now.pairs at }
    {
        self.numbers[at]
    }

    /// Adds so many unbound variables. Where memory is refused, nothing is added.
    pub fn claim(&mut self, n: usize) -> Result<(), NoMemory>
        ensures bound { OnOk result (self.new.bound ≡ self.old.bound ++ replicate n None) }
        ensures pairs { OnOk result (self.new.pairs ≡ self.old.pairs) }
        ensures fits { OnOk result (length self.old.bound + n < 2 ^ 64) }
        ensures err { OnErr result (self.new ≡ self.old) }
    {
        let Some(len) = self.links.len().checked_add(n) else {
            return Err(NoMemory);
        };
        self.links.resize(len, 0)?;
        Ok(())
    }

    /// Binds an unbound variable to a place. Where memory is refused, or the place is the greatest
    /// of all numbers, nothing is bound.
    pub fn bind(&mut self, number: u64, place: Ref) -> Result<(), NoMemory>
        requires claimed { number < length self.old.bound }
        requires unbound { slice_index_or self.old.bound number None ≡ None }
        ensures bound { OnOk result
            (self.new.bound ≡ slice_set self.old.bound number (Some place)) }
        ensures pairs { OnOk result (self.new.pairs ≡ self.old.pairs ++ (number, place) ∷ []) }
        ensures err { OnErr result (self.new ≡ self.old) }
    {
        let Some(link) = place.at.checked_add(1) else {
            return Err(NoMemory);
        };
        self.numbers.push(number)?;
        self.links[number as usize] = link;
        Ok(())
    }

    /// Takes the newest binding back. Takes no memory.
    pub fn pop(&mut self)
        requires { 0 < length self.old.pairs }
        ensures bound { self.new.bound
            ≡ slice_set self.old.bound (number_at self.old.pairs (length self.old.pairs - 1))
            None }
        ensures pairs { self.new.pairs ≡ take (length self.old.pairs - 1) self.old.pairs }
    {
        let at = self.numbers.len() - 1;
        let number = self.numbers[at];
        self.numbers.truncate(at);
        self.links[number as usize] = 0;
    }

    /// Takes the binding at a place back, counted from the oldest on. Takes no memory.
    pub fn remove(&mut self, at: usize)
        requires { at < length self.old.pairs }
        ensures bound { self.new.bound
            ≡ slice_set self.old.bound (number_at self.old.pairs at) None }
        ensures pairs { self.new.pairs ≡ remove self.old.pairs at }
    {
        let number = self.numbers.remove(at);
        self.links[number as usize] = 0;
    }

    /// Keeps the first so many variables; the others are unbound. Takes no memory.
    pub fn cut_to(&mut self, variables: usize)
        requires { (number : ℕ) → variables ≤ number →
            slice_index_or self.old.bound number None ≡ None }
        ensures bound { self.new.bound ≡ take variables self.old.bound }
        ensures pairs { self.new.pairs ≡ self.old.pairs }
    {
        self.links.truncate(variables);
    }
}
