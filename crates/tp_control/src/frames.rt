//! What processes have to do, as lists that share their ends.

ghost use Rattle.std.specs.Prelude.{◌≡◌, ◌<◌, ◌++◌, [], ◌∷◌, length, take, nat_eq, IfSome, IfOk};
ghost use Rattle.std.specs.Prelude.{OnOk, OnErr};
ghost use Rattle.tp_control.specs.Lists.{items_at};

use crate::kept::FrameList;
use std::alloc::Global;
use std::marker::Model;
use tp_terms::{ItemId, NoMemory, Ref};

/// What a process does next.
#[derive(Clone, Copy, Debug, PartialEq, Eq)]
pub enum Item {
    /// A goal, with its barrier stamp.
    Goal { goal: Ref, barrier: u64 },
    /// A commit to a stamp.
    Commit(u64),
    /// Another try of a condition that the process waits for.
    Retry(Ref),
}

/// An item, and the place of the item behind it.
#[derive(Clone, Copy, Debug, PartialEq, Eq)]
pub struct Frame {
    pub item: Item,
    pub next: Option<ItemId>,
}

/// Lists of items: each place has an item and the list behind it. Contracts see the list of each
/// place.
#[derive(Drop)]
pub struct Frames {
    frames: FrameList,
}

impl Model for Frames {
    ghost use Rattle.std.specs.Prelude.{List};
    ghost use Rattle.tp_control.specs.declared.frames.Item.{Item};

    ghost Value = { List (List Item) };

    ghost use Rattle.tp_control.specs.Lists.{lists, AreLinked};

    ghost view = { λ f. lists f.frames };

    ghost invariant = { λ f. AreLinked f.frames };
}

impl Frames {
    /// No items.
    #[tactic(auto, unfolding(crate::specs::Lists::lists_from))]
    pub fn new(alloc: Global) -> Frames
        ensures { result ≡ [] }
    {
        Frames {
            frames: FrameList::new(alloc),
        }
    }

    /// A place for an item in front of the list of another place.
    ///
    /// Answers `NoMemory` where the memory for it isn't had, or where there are 2^32 - 1 items, and
    /// then the lists are as before.
    pub fn push(&mut self, item: Item, next: Option<ItemId>) -> Result<ItemId, NoMemory>
        requires { IfSome next (λ i. i.at < length self.old) }
        ensures place { IfOk result (λ i. i.at ≡ length self.old) }
        ensures lists { OnOk result (self.new ≡ self.old ++ (item ∷ items_at self.old next) ∷ []) }
        ensures err { OnErr result (self.new ≡ self.old) }
    {
        let at = self.frames.len();
        self.frames.push(Frame { item, next })?;
        Ok(ItemId { at })
    }

    /// The item of a place, and the place of the list behind it.
    pub fn get(&self, at: ItemId) -> (Item, Option<ItemId>)
        requires { at.at < length self.now }
        ensures list { items_at self.now (Some at) ≡ result.0 ∷ items_at self.now result.1 }
        ensures next { IfSome result.1 (λ i. i.at < length self.now) }
    {
        let frame = self.frames.get(at.at);
        (frame.item, frame.next)
    }

    /// The number of places.
    pub fn len(&self) -> usize
        ensures { result ≡ length self.now }
    {
        self.frames.len()
    }

    /// Whether there are no places.
    pub fn is_empty(&self) -> bool
        ensures { result ≡ nat_eq (length self.now) 0 }
    {
        self.len() == 0
    }

    /// Keeps the first places, so many of them. Takes no memory.
    pub fn cut_to(&mut self, len: usize)
        ensures { self.new ≡ take len self.old }
    {
        self.frames.cut_to(len);
    }
}
