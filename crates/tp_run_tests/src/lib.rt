//! The tests of the crates that load and run a model: each public function once, on values from
//! outside. They stand in a crate of their own, so that no crate is proved twice.
#![tactic(auto)]

#[cfg(test)]
mod clauses;
#[cfg(test)]
mod engine;
#[cfg(test)]
mod meaning;
