//! The history of a world: its events, in the order in which they came.
#![tactic(auto)]

ghost use Rattle.std.specs.Prelude.{◌≡◌, ◌++◌, ◌∷◌, [], length, take, nat_eq, slice_get, OnErr};
ghost use Rattle.std.specs.Prelude.{OnOk};

use std::alloc::Global;
use std::marker::Model;
use tp_terms::{Event, NoMemory};

/// Events, the newest last. Contracts see them as a list.
#[derive(Drop)]
pub struct Events {
    events: Vec<Event>,
}

impl Model for Events {
    ghost use Rattle.std.specs.Prelude.{List};
    ghost use Rattle.tp_terms.specs.declared.world.Event.{Event};

    ghost Value = { List Event };

    ghost view = { λ e. e.events.items };
}

impl Events {
    /// No events. Takes no memory.
    pub fn new(alloc: Global) -> Self
        ensures { result ≡ [] }
    {
        Events {
            events: Vec::new(alloc),
        }
    }

    /// Adds an event behind the others.
    ///
    /// # Errors
    /// `NoMemory` where memory was refused, and then the events stay.
    pub fn push(&mut self, event: Event) -> Result<(), NoMemory>
        ensures added { OnOk result (self.new ≡ self.old ++ event ∷ []) }
        ensures stays { OnErr result (self.new ≡ self.old) }
    {
        self.events.push(event)?;
        Ok(())
    }

    /// The event at a place, counted from 0, and `None` exactly past the end. Takes no memory.
    pub fn get(&self, at: usize) -> Option<Event>
        ensures { result ≡ slice_get self.now at }
    {
        self.events.get(at).copied()
    }

    /// The number of events. Takes no memory.
    pub fn len(&self) -> usize
        ensures { result ≡ length self.now }
    {
        self.events.len()
    }

    /// Whether there are no events. Takes no memory.
    pub fn is_empty(&self) -> bool
        ensures { result ≡ nat_eq (length self.now) 0 }
    {
        self.events.is_empty()
    }

    /// Keeps the first `len` events. Where there are no more than these, all stay. Takes no memory.
    pub fn cut_to(&mut self, len: usize)
        ensures { self.new ≡ take len self.old }
    {
        self.events.truncate(len);
    }
}
