//! How far reading has come.

use crate::cursor::Cursor;
use crate::steps::Step;

/// How far reading has come.
#[derive(Drop)]
pub struct Progress<'a> {
    /// The words that are left.
    pub cursor: Cursor<'a>,
    /// The steps that make what was read.
    pub steps: Vec<Step>,
}
