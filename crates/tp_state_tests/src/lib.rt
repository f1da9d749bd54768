//! The tests of the parts of a state: each public function once, on values from outside. They
//! stand in a crate of their own, so that no crate is proved twice.
#![tactic(auto)]

#[cfg(test)]
mod calendar;
#[cfg(test)]
mod control;
#[cfg(test)]
mod history;
#[cfg(test)]
mod log;
#[cfg(test)]
mod mail;
#[cfg(test)]
mod procs;
#[cfg(test)]
mod state;
#[cfg(test)]
mod store;
