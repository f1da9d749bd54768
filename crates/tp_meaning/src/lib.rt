//! The meaning of a model: worlds, a step of one, and the search.
#![tactic(auto)]

mod compounds;
mod evaluables;
mod goals;
mod heap;
pub mod laws;

pub use compounds::{compound_of_one, compound_of_two};
pub use evaluables::{BinaryOperation, UnaryOperation, operations};
pub use goals::{BuiltId, ControlGoal, GoalKind, ProcessGoal, goal_kind};
pub use heap::Terms;

/// Why a world is a dead end.
#[derive(Clone, Copy, Debug, PartialEq, Eq)]
pub enum DeadCause {
    /// A goal failed.
    Failed,
    /// No process can go on, and some isn't ended.
    Deadlock,
    /// A process would live past its end time.
    Late,
}
