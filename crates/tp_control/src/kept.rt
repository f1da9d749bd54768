//! Frames as they are kept.

ghost use Rattle.std.specs.Prelude.{◌≡◌, ◌<◌, ◌++◌, [], ◌∷◌, length, take, slice_get, Some, IfSome};
ghost use Rattle.std.specs.Prelude.{OnOk, OnErr};
ghost use Rattle.tp_control.specs.Kept.{IsNear, frame_of, place_of};

use crate::frames::{Frame, Item};
use std::alloc::Global;
use std::marker::Model;
use tp_terms::{ItemId, NoMemory, Ref};

/// A frame as it is kept: the place of the next one lies beside the tag, which makes it 24 bytes.
/// Places are counted from 1, and 0 is none.
#[derive(Clone, Copy, Debug, PartialEq, Eq)]
enum Kept {
    /// A goal.
    Goal { next: u32, goal: Ref, barrier: u64 },
    /// A commit.
    Commit { next: u32, stamp: u64 },
    /// Another try.
    Retry { next: u32, goal: Ref },
}

/// The most frames: the place of each but the last one can be kept.
const MOST_FRAMES: usize = 4_294_967_295;

/// The number that a place is kept as.
fn number_of(next: Option<ItemId>) -> u32
    requires { IsNear next }
    ensures { place_of result ≡ next }
{
    match next {
        None => 0,
        Some(item) => item.at as u32 + 1,
    }
}

/// The place that is kept as a number.
fn place_of(number: u32) -> Option<ItemId>
    ensures { result ≡ place_of number }
{
    if number == 0 {
        return None;
    }
    Some(ItemId {
        at: number as usize - 1,
    })
}

/// A frame as it is kept.
fn keep(frame: Frame) -> Kept
    requires { IsNear frame.next }
    ensures { frame_of result ≡ frame }
{
    let next = number_of(frame.next);
    match frame.item {
        Item::Goal { goal, barrier } => Kept::Goal {
            next,
            goal,
            barrier,
        },
        Item::Commit(stamp) => Kept::Commit { next, stamp },
        Item::Retry(goal) => Kept::Retry { next, goal },
    }
}

/// The frame that is kept.
fn given(kept: Kept) -> Frame
    ensures { result ≡ frame_of kept }
{
    match kept {
        Kept::Goal {
            next,
            goal,
            barrier,
        } => Frame {
            item: Item::Goal { goal, barrier },
            next: place_of(next),
        },
        Kept::Commit { next, stamp } => Frame {
            item: Item::Commit(stamp),
            next: place_of(next),
        },
        Kept::Retry { next, goal } => Frame {
            item: Item::Retry(goal),
            next: place_of(next),
        },
    }
}

/// Frames, each in 24 bytes. Contracts see their list.
#[derive(Drop)]
pub struct FrameList {
    kept: Vec<Kept>,
}

impl Model for FrameList {
    ghost use Rattle.std.specs.Prelude.{List, map};
    ghost use Rattle.tp_control.specs.declared.frames.Frame.{Frame};
    ghost use Rattle.tp_control.specs.Kept.{frame_of};

    ghost Value = { List Frame };

    ghost view = { λ f. map frame_of f.kept.items };
}

impl FrameList {
    /// No frames.
    pub fn new(alloc: Global) -> FrameList
        ensures { result ≡ [] }
    {
        FrameList {
            kept: Vec::new(alloc),
        }
    }

    /// Adds a frame, whose next one stands before it.
    ///
    /// Answers `NoMemory` where the memory for it isn't had, or where there are 2^32 - 1 frames,
    /// and then the frames are as before.
    pub fn push(&mut self, frame: Frame) -> Result<(), NoMemory>
        requires { IfSome frame.next (λ i. i.at < length self.old) }
        ensures added { OnOk result (self.new ≡ self.old ++ frame ∷ []) }
        ensures err { OnErr result (self.new ≡ self.old) }
    {
        if self.kept.len() >= MOST_FRAMES {
            return Err(NoMemory);
        }
        self.kept.push(keep(frame))?;
        Ok(())
    }

    /// The frame of a place.
    pub fn get(&self, at: usize) -> Frame
        requires { at < length self.now }
        ensures { slice_get self.now at ≡ Some result }
    {
        given(self.kept[at])
    }

    /// The number of frames.
    pub fn len(&self) -> usize
        ensures { result ≡ length self.now }
    {
        self.kept.len()
    }

    /// Keeps the first frames, so many of them. Takes no memory.
    pub fn cut_to(&mut self, len: usize)
        ensures { self.new ≡ take len self.old }
    {
        self.kept.truncate(len);
    }
}
