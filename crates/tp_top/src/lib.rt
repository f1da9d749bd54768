//! The whole program as one call.
#![tactic(auto)]

mod answer;
mod asked;
mod boxed;
mod lines;
mod meters;
mod program;
mod refusal;
mod report;
mod sample;

pub use program::{Status, run};
pub use sample::sample_text;
