//! Lists of work that a store keeps: once they are long enough, a call asks for no memory for them.

use crate::copy::Task;
use std::alloc::Global;
use tp_terms::{Cell, Ref};

/// What a copy goes over.
#[derive(Drop)]
pub struct Copying {
    /// What is left to do, the next task last.
    pub tasks: Vec<Task>,
    /// The cells that were made and aren't placed yet, the newest last.
    pub made: Vec<Cell>,
}

impl Copying {
    /// Empty lists, which take no memory.
    pub fn new(alloc: Global) -> Self {
        Copying {
            tasks: Vec::new(alloc),
            made: Vec::new(alloc),
        }
    }
}

/// Lists of work between two calls. What they hold has no meaning: the call that takes one clears
/// it, and puts it back when it ends.
#[derive(Drop)]
pub struct Spare {
    /// For copies.
    pub copying: Copying,
    /// For pairs of a place and a place of other cells.
    pub heads: Vec<(Ref, Ref)>,
    /// For pairs of places.
    pub pairs: Vec<(Ref, Ref)>,
    /// For places.
    pub places: Vec<Ref>,
}

impl Spare {
    /// Empty lists, which take no memory.
    pub fn new(alloc: Global) -> Self {
        Spare {
            copying: Copying::new(alloc),
            heads: Vec::new(alloc),
            pairs: Vec::new(alloc),
            places: Vec::new(alloc),
        }
    }
}
