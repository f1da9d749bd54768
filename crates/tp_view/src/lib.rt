//! A store, a log and a table of names, as what evaluates and builds terms sees them.
#![tactic(auto)]

mod view;

pub use view::View;
