//! What a running process meets first.

use tp_terms::{AtomId, ItemId, Ref};

/// A goal that is the first item of the running process.
#[derive(Clone, Copy, Debug)]
pub struct Task {
    /// The number of the process.
    pub process: usize,
    pub goal: Ref,
    pub barrier: u64,
    /// The items behind it.
    pub rest: Option<ItemId>,
}

/// The name of a goal and its arguments, which stand side by side.
#[derive(Clone, Copy, Debug)]
pub struct Call {
    pub name: AtomId,
    /// The place of the first argument.
    pub first: Ref,
    /// The number of arguments.
    pub count: u8,
}

/// What a goal is.
#[derive(Clone, Copy, Debug)]
pub enum Met {
    /// A variable.
    Unbound,
    /// An integer.
    Number(i64),
    /// A name with arguments.
    Named(Call),
}
