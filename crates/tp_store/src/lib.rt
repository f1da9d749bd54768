//! The store: terms in cells, and what their variables are bound to.
#![tactic(auto)]

mod block;
mod body;
mod chains;
mod copy;
mod head;
mod join;
mod logged;
mod meet;
mod order;
mod pairs;
mod rename;
mod solve;
mod spare;
pub mod store;
mod trail;

pub use head::Variant;
pub use store::Store;
