//! Unification with a term of other cells, with a log: each binding has its entry.

ghost use Rattle.std.specs.Prelude.{◌≡◌, ◌≢◌, ◌<◌, ◌≤◌, length, take, reverse, true, Ok, OnOk};
ghost use Rattle.std.specs.Prelude.{IfOk};
ghost use Rattle.tp_store.specs.Contents.{CanGoBack, cut_to_mark};
ghost use Rattle.tp_store.specs.Chain.{IsChains, contents_of};
ghost use Rattle.tp_store.specs.Copy.{IsClaimed, NamesBoth};
ghost use Rattle.tp_store.specs.Logged.{FindsHead, HeadIsUnifiable, LogsHead};
ghost use Rattle.tp_store.specs.Meeting.{with_oldest};

use crate::chains::Chains;
use crate::logged::log_bindings;
use crate::meet::meet_all;
use tp_log::Log;
use tp_terms::{Cells, NoMemory, Ref, StoreMark};

/// A variant of a term of other cells: the term, its variable `k` as number `base + k` of a store.
#[derive(Clone, Copy)]
pub struct Variant<'a> {
    /// The cells of the term.
    pub cells: &'a Cells,
    /// The place of the term in them.
    pub root: Ref,
    /// The number of the term's variable 0.
    pub base: u64,
}

/// Takes bindings back, down to so many, and then cells and numbers to a mark.
fn take_back(chains: &mut Chains, kept: usize, mark: StoreMark)
    requires chains { IsChains chains.old }
    requires kept { kept ≤ length chains.old.trail.pairs }
    requires can { CanGoBack (with_oldest kept chains.old) mark }
    ensures chains { IsChains chains.new }
    ensures value { contents_of chains.new ≡ cut_to_mark (with_oldest kept chains.old) mark }
{
    chains.undo_to(kept);
    chains.back_to(mark);
}

/// Makes the term of a place equal to a variant of a term of other cells, and logs each binding.
/// Where that can't be, or memory is refused, nothing is bound, added or logged.
pub fn unify_head(
    chains: &mut Chains,
    goal: Ref,
    head: Variant<'_>,
    log: &mut Log,
) -> Result<bool, NoMemory>
    requires chains { IsChains chains.old }
    requires goal { goal.at < length chains.old.cells.items }
    requires head { head.root.at < length head.cells.now.items }
    requires claimed { IsClaimed head.cells.now.items head.root.at head.base
        (length chains.old.trail.bound) }
    ensures chains { IsChains chains.new }
    ensures found { IfOk result
        (FindsHead (contents_of chains.old) (contents_of chains.new) goal
        head.entry.cells.now.items head.entry.root head.entry.base) }
    ensures logged { LogsHead (contents_of chains.old) (contents_of chains.new) log.old log.new }
    ensures undone { result ≢ Ok true → contents_of chains.new ≡ contents_of chains.old }
    ensures log_stays { result ≢ Ok true → log.new ≡ log.old }
    ensures named { OnOk result
        (NamesBoth head.entry.cells.now.items chains.old.cells.items chains.new.cells.items) }
{
    let kept = chains.trail.len();
    let mark = StoreMark {
        cells: chains.cells.len(),
        vars: chains.trail.variables() as u64,
    };
    match meet_all(chains, head.cells, head.base, goal, head.root) {
        Ok(true) => {}
        Ok(false) => {
            take_back(chains, kept, mark);
            return Ok(false);
        }
        Err(refused) => {
            take_back(chains, kept, mark);
            return Err(refused);
        }
    }
    match log_bindings(&chains.trail, kept, log) {
        Ok(()) => Ok(true),
        Err(refused) => {
            take_back(chains, kept, mark);
            Err(refused)
        }
    }
}

/// Whether the term of a place can be made equal to a variant of a term of other cells. Nothing is
/// bound or added.
pub fn head_unifiable(chains: &mut Chains, goal: Ref, head: Variant<'_>) -> Result<bool, NoMemory>
    requires chains { IsChains chains.old }
    requires goal { goal.at < length chains.old.cells.items }
    requires head { head.root.at < length head.cells.now.items }
    requires claimed { IsClaimed head.cells.now.items head.root.at head.base
        (length chains.old.trail.bound) }
    ensures chains { IsChains chains.new }
    ensures found { IfOk result
        (HeadIsUnifiable (contents_of chains.old) goal head.entry.cells.now.items head.entry.root
        head.entry.base) }
    ensures value { contents_of chains.new ≡ contents_of chains.old }
{
    let kept = chains.trail.len();
    let mark = StoreMark {
        cells: chains.cells.len(),
        vars: chains.trail.variables() as u64,
    };
    let answer = meet_all(chains, head.cells, head.base, goal, head.root);
    take_back(chains, kept, mark);
    answer
}
