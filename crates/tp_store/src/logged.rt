//! Unification with a log: each binding has its entry, the oldest first.

ghost use Rattle.std.specs.Prelude.{◌≡◌, ◌≢◌, ◌<◌, ◌≤◌, ◌++◌, length, map, take, drop, true, Ok};
ghost use Rattle.std.specs.Prelude.{OnOk, OnErr, IfOk};
ghost use Rattle.tp_store.specs.Contents.{FindsUnifier};
ghost use Rattle.tp_store.specs.Chain.{IsChains, contents_of};
ghost use Rattle.tp_store.specs.Logged.{Logs};

use crate::chains::Chains;
use crate::solve::unify;
use crate::trail::Trail;
use std::alloc::Global;
use tp_log::{Entry, Log};
use tp_terms::{NoMemory, Ref};

/// Takes the newest entries away, down to so many.
fn pop_to(log: &mut Log, kept: usize)
    ensures { log.new ≡ take kept log.old }
{
    'pops: while let Some(_) = log.pop_above(kept) {}
}

/// Adds the entries of the bindings from a place on. Want of memory leaves some of them.
fn push_bindings(trail: &Trail, kept: usize, log: &mut Log) -> Result<(), NoMemory>
    requires { kept ≤ length trail.now.pairs }
    ensures logged { OnOk result
        (log.new ≡ log.old ++ map (λ p. Entry.Bind p.0) (drop kept trail.now.pairs)) }
    ensures kept { take (length log.old) log.new ≡ log.old }
{
    for at in kept..trail.len() {
        log.push(Entry::Bind(trail.number(at)))?;
    }
    Ok(())
}

/// Adds the entries of the bindings from a place on, or none where memory is refused.
pub fn log_bindings(trail: &Trail, kept: usize, log: &mut Log) -> Result<(), NoMemory>
    requires { kept ≤ length trail.now.pairs }
    ensures logged { OnOk result
        (log.new ≡ log.old ++ map (λ p. Entry.Bind p.0) (drop kept trail.now.pairs)) }
    ensures stays { OnErr result (log.new ≡ log.old) }
{
    let mark = log.len();
    match push_bindings(trail, kept, log) {
        Ok(()) => Ok(()),
        Err(refused) => {
            pop_to(log, mark);
            Err(refused)
        }
    }
}

/// Makes the terms of two places equal, as `unify` does, and logs each binding. Where none do, or
/// memory is refused, nothing is bound and nothing logged.
pub fn unify_logged(
    chains: &mut Chains,
    alloc: Global,
    left: Ref,
    right: Ref,
    log: &mut Log,
) -> Result<bool, NoMemory>
    requires chains { IsChains chains.old }
    requires left { left.at < length chains.old.cells.items }
    requires right { right.at < length chains.old.cells.items }
    ensures chains { IsChains chains.new }
    ensures logged { Logs (contents_of chains.old) (contents_of chains.new) log.old log.new }
    ensures found { IfOk result
        (FindsUnifier (contents_of chains.old) (contents_of chains.new) left right) }
    ensures undone { result ≢ Ok true → contents_of chains.new ≡ contents_of chains.old }
    ensures log_stays { result ≢ Ok true → log.new ≡ log.old }
{
    let kept = chains.trail.len();
    if !unify(chains, alloc, left, right)? {
        return Ok(false);
    }
    match log_bindings(&chains.trail, kept, log) {
        Ok(()) => Ok(true),
        Err(refused) => {
            chains.undo_to(kept);
            Err(refused)
        }
    }
}
