//! What processes have to do, and the choices of a search that stand open.
#![tactic(auto)]

pub mod choices;
pub mod frames;
mod kept;

pub use choices::{Alt, Choice, Choices, Marks};
pub use frames::{Frames, Item};
