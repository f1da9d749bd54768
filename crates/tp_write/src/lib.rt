//! The written form of terms.
#![tactic(auto)]

mod expand;
mod form;
pub mod laws;
mod names;
mod pieces;
mod write;

pub use names::{write_name, write_quoted};
pub use write::write_term;
