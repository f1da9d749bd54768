//! One state for all worlds of a run: acts with a log, and the way back to marks.
#![tactic(auto)]

mod acts;
mod asks;
mod back;
mod plan;
pub mod state;

pub use state::State;
