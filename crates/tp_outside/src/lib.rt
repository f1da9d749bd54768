//! Where bytes come from and where they go. A [`Shelf`] holds bytes under names and is read in
//! pieces, a [`Sink`] takes bytes in pieces, and both count their faults. [`read_all`] and
//! [`write_all`] move a whole text over any shelf or sink. [`MemShelf`] and [`MemSink`] lie in
//! memory and fail at chosen calls; [`FileShelf`] and [`OutSink`] are the system's.
#![tactic(auto)]

mod memory;
mod reading;
mod system;
mod whole;
mod writing;

pub use memory::{MemShelf, MemSink, SinkMemory};
pub use reading::{Failed, Shelf};
pub use system::{FileShelf, OutSink};
pub use whole::{LONGEST_TEXT, ReadError, WriteFault, read_all, write_all};
pub use writing::Sink;
