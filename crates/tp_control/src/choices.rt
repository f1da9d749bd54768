//! The choices of a search that stand open.

ghost use Rattle.std.specs.Prelude.{◌≡◌, ◌+◌, ◌-◌, ◌<◌, List, [], ◌∷◌, ◌++◌, length, take, filter};
ghost use Rattle.std.specs.Prelude.{nat_eq, IfSome, IfNone, OnOk, OnErr};
ghost use Rattle.tp_control.specs.Stamps.{newest, is_before, StampsRise};

use std::alloc::Global;
use std::marker::Model;
use tp_terms::{ItemId, NoMemory, StoreMark};

/// How much there was of each part of a world when a choice was made, and its numbers.
#[derive(Clone, Copy, Debug, PartialEq, Eq)]
pub struct Marks {
    /// The cells and variables of the store.
    pub store: StoreMark,
    /// The number of places of items.
    pub items: usize,
    /// The number of events.
    pub events: usize,
    /// The number of entries of the log.
    pub log: usize,
    /// The simulated time.
    pub clock: i64,
    /// The number that the next calendar entry gets.
    pub insertion: u64,
    /// The number of the running process, if one runs.
    pub running: Option<usize>,
    /// The first of the items of the running process, if it has any.
    pub first: Option<ItemId>,
}

/// What of a choice is tried next.
#[derive(Clone, Copy, Debug, PartialEq, Eq)]
pub enum Alt {
    /// The clause at this place of the predicate.
    Clause(usize),
    /// The second of two worlds.
    Second,
    /// The message at this place of the box.
    Message(usize),
}

/// A choice: a world that had more than one next world.
#[derive(Clone, Copy, Debug, PartialEq, Eq)]
pub struct Choice {
    /// The stamp of the world.
    pub stamp: u64,
    /// By which the world is found again.
    pub marks: Marks,
    /// What is tried next.
    pub next: Alt,
}

/// Choices, the newest last. Contracts see the list of them. Stamps rise from each to the next.
#[derive(Drop)]
pub struct Choices {
    choices: Vec<Choice>,
}

impl Model for Choices {
    ghost use Rattle.std.specs.Prelude.{List};
    ghost use Rattle.tp_control.specs.declared.choices.Choice.{Choice};

    ghost Value = { List Choice };

    ghost use Rattle.tp_control.specs.Stamps.{StampsRise};

    ghost view = { λ c. c.choices.items };

    ghost invariant = { λ c. StampsRise c.choices.items };
}

/// Takes the choices away that have this stamp or a higher one.
fn cut_stamps(choices: &mut Vec<Choice>, stamp: u64)
    requires { StampsRise choices.old.items }
    ensures kept { choices.new.items ≡ filter (is_before stamp) choices.old.items }
    ensures oldest { choices.new.items ≡ take (length choices.new.items) choices.old.items }
    ensures rise { StampsRise choices.new.items }
{
    while let Some(choice) = choices.last() {
        if choice.stamp < stamp {
            return;
        }
        let _ = choices.pop();
    }
}

impl Choices {
    /// No choices.
    pub fn new(alloc: Global) -> Choices
        ensures { result ≡ [] }
    {
        Choices {
            choices: Vec::new(alloc),
        }
    }

    /// Adds a choice. Where memory is refused, the list stays.
    pub fn push(&mut self, choice: Choice) -> Result<(), NoMemory>
        requires { IfSome (newest self.old) (λ c. c.stamp < choice.stamp) }
        ensures added { OnOk result (self.new ≡ self.old ++ choice ∷ []) }
        ensures stays { OnErr result (self.new ≡ self.old) }
    {
        self.choices.push(choice)?;
        Ok(())
    }

    /// The newest choice.
    pub fn last(&self) -> Option<Choice>
        ensures newest { result ≡ newest self.now }
        ensures some { IfSome result (λ c.
            self.now ≡ take (length self.now - 1) self.now ++ c ∷ []) }
        ensures none { IfNone result (self.now ≡ []) }
    {
        self.choices.last().copied()
    }

    /// Changes what of the newest choice is tried next. Takes no memory.
    pub fn set_last(&mut self, next: Alt)
        ensures some { (older : List Choice) (c : Choice) → self.old ≡ older ++ c ∷ [] →
            self.new ≡ older ++ record c { next = next } ∷ [] }
        ensures none { self.old ≡ [] → self.new ≡ [] }
    {
        let Some(newest) = self.choices.pop() else {
            return;
        };
        self.choices.push_reserved(Choice { next, ..newest });
    }

    /// Takes the newest choice away. Takes no memory.
    pub fn pop(&mut self) -> Option<Choice>
        ensures taken { IfSome result (λ c. self.old ≡ self.new ++ c ∷ []) }
        ensures none { IfNone result (self.old ≡ []) }
        ensures stays { IfNone result (self.new ≡ []) }
    {
        self.choices.pop()
    }

    /// Takes exactly the choices away that have this stamp or a higher one, which are the newest.
    /// Takes no memory, and a step for each choice that goes.
    pub fn cut_from(&mut self, stamp: u64)
        ensures kept { self.new ≡ filter (is_before stamp) self.old }
        ensures oldest { self.new ≡ take (length self.new) self.old }
    {
        cut_stamps(&mut self.choices, stamp);
    }

    /// The number of choices.
    pub fn len(&self) -> usize
        ensures len { result ≡ length self.now }
        ensures rise { StampsRise self.now }
    {
        self.choices.len()
    }

    /// Whether there are no choices.
    pub fn is_empty(&self) -> bool
        ensures { result ≡ nat_eq (length self.now) 0 }
    {
        self.choices.is_empty()
    }
}
