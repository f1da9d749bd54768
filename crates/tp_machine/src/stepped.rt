//! What a step answers.

use tp_meaning::DeadCause;
use tp_terms::Ref;

/// What a step answers.
#[derive(Clone, Copy, Debug, PartialEq, Eq)]
pub enum Stepped {
    /// It goes on with the first world. The others are kept as one choice.
    Went,
    /// Every process has ended.
    Success,
    /// The world is a dead end.
    Dead(DeadCause),
    /// An error was raised: the place of its term.
    Raised(Ref),
}
