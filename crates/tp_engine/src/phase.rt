//! Which of an engine's calls was the last.

use tp_machine::Stepped;

/// Which of an engine's calls was the last, and what it answered.
#[derive(Clone, Copy, Debug, PartialEq, Eq)]
pub enum Phase {
    /// `new`.
    New,
    /// `step`, with this answer.
    Stepped(Stepped),
    /// `rewind`, with this answer.
    Rewound(bool),
    /// `resume`.
    Resumed,
    /// `run_to_end`.
    Ran,
    /// Some call that met want of memory.
    Broken,
}
