//! A machine: the one world that a search stands at with the choices that stand open, its step,
//! and the way back. `IsMachine` of specs/Machine.antt says what holds of it.
#![tactic(auto)]

mod begin;
mod between;
mod built_ins;
mod call;
mod candidates;
mod clauses;
mod control;
mod enter;
mod errors;
mod goals;
mod heads;
mod items;
mod machine;
mod mail;
mod making;
mod numbers;
mod parts;
mod process;
mod schedule;
mod send;
mod stepped;
mod task;
mod values;

pub use machine::Machine;
pub use stepped::Stepped;
