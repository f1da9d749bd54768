//! The tests of the report: each public function once, on values from outside. They stand in a
//! crate of their own, so that no crate is proved twice.
#![tactic(auto)]

#[cfg(test)]
mod report;
