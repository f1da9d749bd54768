//! What takes an act back.

use tp_terms::{Proc, Ref, Slot};

/// An entry of a log: an act, with what is needed to take it back.
#[derive(Clone, Copy, Debug, PartialEq, Eq)]
pub enum Entry {
    /// The variable of this number was bound. Unbinding it takes that back.
    Bind(u64),
    /// A process was made. Removing the last one takes that back.
    Made,
    /// A process was changed. Putting the old one in its place takes that back.
    Set {
        /// The number of the process.
        pid: usize,
        /// The process before the change.
        old: Proc,
    },
    /// This entry was put into the calendar. Removing it takes that back.
    Put(Slot),
    /// This entry was taken from the calendar. Putting it in takes that back.
    Took(Slot),
    /// A box was made. Removing the last one takes that back.
    BoxMade,
    /// A message was sent to the box of this process. Removing its last message takes that back.
    Sent(usize),
    /// A message was received from a box. Putting it in at its place takes that back.
    Received {
        /// The number of the process whose box it is.
        pid: usize,
        /// The place of the message in the box, counted from 0.
        place: usize,
        /// The message.
        message: Ref,
    },
}
