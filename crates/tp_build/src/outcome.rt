//! What a built-in goal answers.

use tp_terms::Ref;

/// What a built-in goal answers.
#[derive(Clone, Copy, Debug, PartialEq, Eq)]
pub enum Outcome {
    /// It succeeds.
    Yes,
    /// It fails.
    No,
    /// It raises an error, whose kind the place shows (ISO/IEC 13211-1, clause 7.12.2).
    Raise(Ref),
}
