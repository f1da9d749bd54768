//! A tree over the places of a list, for the best of all at hand.

ghost use Rattle.std.specs.Prelude.{◌≡◌, ℕ, ◌+◌, ◌*◌, ◌^◌, ◌<◌, if◌then◌else◌, length, slice_get};
ghost use Rattle.std.specs.Prelude.{Some};
ghost use Rattle.tp_procs.specs.Processes.{is_live, is_marked, end_of, sooner};
ghost use Rattle.tp_procs.specs.Tree.{lower, nothing, joined, own_of, node_at, whole_of, IsTree};
ghost use Rattle.tp_procs.specs.Tree.{IsTreeBut};

use tp_terms::{Limit, Proc, ProcStatus};

/// The best of a process and of all below it in the tree.
#[derive(Clone, Copy, Debug)]
pub(crate) struct Node {
    /// The first that is marked.
    pub(crate) marked: Option<usize>,
    /// The least end time.
    pub(crate) end: Option<i64>,
}

/// No process.
pub(crate) const NOTHING: Node = Node {
    marked: None,
    end: None,
};

/// The lower of two places.
fn lower(one: Option<usize>, other: Option<usize>) -> Option<usize>
    ensures { result ≡ lower one other }
{
    let Some(x) = one else {
        return other;
    };
    let Some(y) = other else {
        return one;
    };
    if y < x { other } else { one }
}

/// The sooner of two times.
fn sooner(one: Option<i64>, other: Option<i64>) -> Option<i64>
    ensures { result ≡ sooner one other }
{
    let Some(x) = one else {
        return other;
    };
    let Some(y) = other else {
        return one;
    };
    if y < x { other } else { one }
}

/// The best of two.
fn joined(one: Node, other: Node) -> Node
    ensures { result ≡ joined one other }
{
    Node {
        marked: lower(one.marked, other.marked),
        end: sooner(one.end, other.end),
    }
}

/// Whether a process hasn't ended.
fn is_live(proc: &Proc) -> bool
    ensures { result ≡ is_live proc.now }
{
    match proc.status {
        ProcStatus::Ended => false,
        _ => true,
    }
}

/// 1 for a process that hasn't ended, else 0.
pub(crate) fn live_in(proc: &Proc) -> usize
    ensures { result ≡ (if is_live proc.now then 1 else 0) }
{
    if is_live(proc) { 1 } else { 0 }
}

/// Whether a process is to try its condition again.
fn is_marked(proc: &Proc) -> bool
    ensures { result ≡ is_marked proc.now }
{
    match proc.status {
        ProcStatus::Parked { marked } => marked,
        _ => false,
    }
}

/// The end time of a live process.
fn end_of(proc: &Proc) -> Option<i64>
    ensures { result ≡ end_of proc.now }
{
    if !is_live(proc) {
        return None;
    }
    match proc.end {
        Limit::At(end) => Some(end),
        Limit::Inf => None,
    }
}

/// A process alone.
fn own_of(pid: usize, proc: &Proc) -> Node
    ensures { result ≡ own_of pid proc.now }
{
    Node {
        marked: if is_marked(proc) { Some(pid) } else { None },
        end: end_of(proc),
    }
}

/// The node of a place.
fn node_at(nodes: &[Node], place: usize) -> Node
    ensures { result ≡ node_at nodes.now place }
{
    match nodes.get(place) {
        Some(node) => *node,
        None => NOTHING,
    }
}

/// What the node of a process is to be.
fn whole_of(pid: usize, proc: &Proc, nodes: &[Node]) -> Node
    requires { pid < 2 ^ 62 }
    ensures { result ≡ whole_of pid proc.now nodes.now }
{
    let below = joined(node_at(nodes, 2 * pid + 1), node_at(nodes, 2 * pid + 2));
    joined(own_of(pid, proc), below)
}

/// Makes the node of a place what it is to be, and then those above it. All others are.
/// Takes a step for each level of the tree.
pub(crate) fn mend(procs: &[Proc], nodes: &mut [Node], place: usize)
    requires within { place < length nodes.old }
    requires few { length nodes.old < 2 ^ 62 }
    requires others { IsTreeBut procs.now nodes.old place }
    ensures { IsTree procs.now nodes.new }
{
    let mut at = place;
    while at > 0 {
        nodes[at] = whole_of(at, &procs[at], nodes);
        at = (at - 1) / 2;
    }
    nodes[0] = whole_of(0, &procs[0], nodes);
}
