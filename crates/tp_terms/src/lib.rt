//! Terms: what they are, the table of names, and cells that show them.
#![tactic(auto)]

pub mod atoms;
pub mod binds;
pub mod cells;
pub mod symbols;
pub mod text;
pub mod world;

pub use atoms::Atoms;
pub use binds::{Binds, NoBinds};
pub use cells::{AtomId, Cell, Cells, Ref};
use std::alloc::{AllocError, AllocFailed};
pub use text::{Named, Names, Text, push_char, push_text};
pub use world::{Event, EventKind, ItemId, Proc, Slot, StoreMark};

/// Memory was refused.
#[derive(Clone, Copy, Debug, PartialEq, Eq)]
pub struct NoMemory;

impl<T: Drop> From<AllocFailed<T>> for NoMemory {
    fn from(_refused: AllocFailed<T>) -> Self {
        NoMemory
    }
}

impl From<AllocError> for NoMemory {
    fn from(_refused: AllocError) -> Self {
        NoMemory
    }
}

/// Until when a process may live, in units of simulated time.
#[derive(Clone, Copy, Debug, PartialEq, Eq)]
pub enum Limit {
    /// At this time at the latest.
    At(i64),
    /// For ever.
    Inf,
}

/// Where a process stands.
#[derive(Clone, Copy, Debug, PartialEq, Eq)]
pub enum ProcStatus {
    /// It has an entry in the calendar.
    Scheduled,
    /// It is the running process.
    Running,
    /// It waits for its condition; a marked one is to try it again.
    Parked { marked: bool },
    /// It waits for a message.
    AwaitsMail,
    /// It has no items left, for ever.
    Ended,
}
