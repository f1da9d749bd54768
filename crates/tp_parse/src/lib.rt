//! The reader of terms: operators, clauses and goals.
#![tactic(auto)]

mod build;
mod class;
mod cursor;
mod fault;
pub mod laws;
mod leaves;
mod progress;
mod read;
mod reader;
mod steps;
mod stop;
mod table;
mod variables;
mod whole;
mod words;

pub use fault::{ReadCause, ReadFault};
pub use read::{ReadTerm, read_clause, read_goal};
pub use table::{Op, OpFault, OpType, Ops, left_bound, right_bound};
