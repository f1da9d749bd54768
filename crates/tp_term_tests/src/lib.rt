//! The tests of the crates that read and write terms: each public function once, on values from
//! outside. They stand in a crate of their own, so that no crate is proved twice.
#![tactic(auto)]

#[cfg(test)]
mod parse;
#[cfg(test)]
mod write;
