//! The clauses of a model.
#![tactic(auto)]

mod append;
mod base;
mod candidates;
mod directive;
mod fault;
mod first;
mod index;
mod kind;
mod load;
mod parts;

pub use base::{Base, ClauseId, ClauseView};
pub use fault::{Cause, LoadFault, cause_of};
pub use first::FirstArg;
