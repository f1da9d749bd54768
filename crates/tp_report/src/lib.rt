//! The report: the lines of an answer, and the last line of a run.
#![tactic(auto)]

mod answer;
mod doer;
mod end;
mod pieces;
mod scene;

pub use answer::answer_text;
pub use end::{EndLine, end_text};
