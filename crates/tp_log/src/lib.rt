//! A log of acts, by which they are taken back.
#![tactic(auto)]

pub mod entry;
pub mod log;

pub use entry::Entry;
pub use log::Log;
