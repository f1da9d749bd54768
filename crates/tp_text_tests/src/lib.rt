//! The tests of the crates that read texts and tokens: each public function once, on values from
//! outside. They stand in a crate of their own, so that no crate is proved twice.
#![tactic(auto)]

#[cfg(test)]
mod lex;
#[cfg(test)]
mod outside;
#[cfg(test)]
mod terms;
