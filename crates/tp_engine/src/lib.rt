//! The engine: a search of a model's worlds, step by step or to its end. `world_of` of
//! specs/Plain.antt is the world that an engine stands for, and `Told` of specs/Told.antt what
//! contracts see of it.
#![tactic(auto)]

mod answers;
mod engine;
mod phase;
mod run;
mod start;
mod tally;
mod turns;
mod view;

pub use answers::{AnswerFault, Answers};
pub use engine::Engine;
pub use phase::Phase;
pub use run::{Ended, How};
pub use start::StartFault;
pub use tp_machine::Stepped;
pub use tp_meaning::DeadCause;
pub use view::AnswerView;
