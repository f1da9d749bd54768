//! Plain data of the simulated world.

use crate::cells::{AtomId, Ref};
use crate::{Limit, ProcStatus};

/// The place of an item, counted from 0.
#[derive(Clone, Copy, Debug, PartialEq, Eq)]
pub struct ItemId {
    /// The place.
    pub at: usize,
}

/// A process.
#[derive(Clone, Copy, Debug, PartialEq, Eq)]
pub struct Proc {
    /// The place of its name.
    pub name: AtomId,
    /// Its end time.
    pub end: Limit,
    /// Whether it has started.
    pub started: bool,
    /// Where it stands.
    pub status: ProcStatus,
    /// The first of its items, if it has any.
    pub items: Option<ItemId>,
}

/// An entry of the calendar.
#[derive(Clone, Copy, Debug, PartialEq, Eq)]
pub struct Slot {
    /// The simulated time.
    pub time: i64,
    /// The insertion number, which orders entries of one time.
    pub number: u64,
    /// The number of the process.
    pub pid: usize,
}

/// An event of the history.
#[derive(Clone, Copy, Debug, PartialEq, Eq)]
pub struct Event {
    /// The simulated time.
    pub time: i64,
    /// The number of the process that did it.
    pub pid: usize,
    /// What it did.
    pub kind: EventKind,
}

/// What a process did.
#[derive(Clone, Copy, Debug, PartialEq, Eq)]
pub enum EventKind {
    /// It made a process.
    New {
        /// The new process's name.
        name: AtomId,
        /// The new process's start time.
        start: i64,
        /// The new process's end time.
        end: Limit,
    },
    /// It started.
    Start,
    /// It holds for so long.
    Hold(i64),
    /// It sent a message.
    Send {
        /// The message.
        message: Ref,
        /// The number of the process that it was sent to.
        to: usize,
    },
    /// It took this message.
    Take(Ref),
    /// It noted this term.
    Note(Ref),
    /// It ended.
    End,
}

/// How many cells and variables a store has.
#[derive(Clone, Copy, Debug, PartialEq, Eq)]
pub struct StoreMark {
    /// The number of cells.
    pub cells: usize,
    /// The number of variables.
    pub vars: u64,
}
