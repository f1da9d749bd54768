//! The clauses of a predicate by first argument.

ghost use Rattle.std.specs.Prelude.{◌≡◌, ◌≤◌, ◌++◌, length, option_map, slice_get, None, Some};
ghost use Rattle.std.specs.Prelude.{IfOk, OnOk, if◌then◌else◌};
ghost use Rattle.tp_clauses.specs.Candidates.{AreWithin, IsGrouped, HasLists, comes_first, in_span};
ghost use Rattle.tp_clauses.specs.Candidates.{list_for, listed_in, merged, same_first_key};
ghost use Rattle.tp_clauses.specs.Candidates.{with_list};
ghost use Rattle.tp_clauses.specs.Parts.{IsParts, contents_of};

use crate::base::ClauseId;
use crate::first::{FirstArg, FirstKey, first_key};
use crate::index::Index;
use crate::parts::Parts;
use indexmap::IndexMap;
use std::alloc::Global;
use tp_terms::NoMemory;

/// The most clauses of an indexed predicate whose first argument is a variable.
const MOST_ANY: usize = 64;

/// Where a list begins and ends.
#[derive(Clone, Copy, Debug)]
struct Span {
    /// The place of its first element.
    from: usize,
    /// The place behind its last.
    to: usize,
}

/// The lists of candidates by predicate and first argument, one behind another. `Any` has the
/// list for all first arguments that no clause of the predicate has.
///
/// A predicate has lists where some of its clauses have other first arguments than the others.
#[derive(Drop)]
pub struct Candidates {
    ids: Vec<ClauseId>,
    spans: IndexMap<FirstKey, Span>,
}

impl Candidates {
    /// No list.
    #[tactic(auto, unfolding(crate::specs::Candidates::listed_in))]
    fn new(alloc: Global) -> Self
        ensures within { AreWithin result }
        ensures none { (k : FirstKey) → listed_in result k ≡ None }
    {
        Candidates {
            ids: Vec::new(alloc),
            spans: IndexMap::new(alloc),
        }
    }

    /// The list of a key, where it has one.
    #[tactic(auto, unfolding(crate::specs::Candidates::listed_in))]
    pub fn list(&self, key: FirstKey) -> Option<&[ClauseId]>
        requires { AreWithin self.now }
        ensures { option_map (λ ids. ids.now) result ≡ listed_in self.now key }
    {
        let span = self.spans.get(&key)?;
        Some(part(&self.ids, *span))
    }

    /// Adds the list of a key: two lists in text order as one.
    fn add(&mut self, key: FirstKey, own: &[ClauseId], others: &[ClauseId]) -> Result<(), NoMemory>
        requires { AreWithin self.old }
        ensures within { OnOk result (AreWithin self.new) }
        ensures listed { OnOk result ((k : FirstKey) → listed_in self.new k ≡
            (if same_first_key key k then Some (merged own.now others.now)
            else listed_in self.old k)) }
    {
        let from = self.ids.len();
        merge(&mut self.ids, own, others)?;
        let to = self.ids.len();
        self.spans.insert(key, Span { from, to })?;
        Ok(())
    }
}

/// The list of a span.
fn part(ids: &[ClauseId], span: Span) -> &[ClauseId]
    requires order { span.from ≤ span.to }
    requires within { span.to ≤ length ids.now }
    ensures { result.now ≡ in_span ids.now span }
{
    &ids[span.from..span.to]
}

/// Whether the next of two lists is the first list's, from these places on.
fn comes_first(own: &[ClauseId], at: usize, others: &[ClauseId], behind: usize) -> bool
    ensures { result ≡ comes_first (slice_get own.now at) (slice_get others.now behind) }
{
    match (own.get(at), others.get(behind)) {
        (Some(one), Some(other)) => one.at < other.at,
        (one, _) => one.is_some(),
    }
}

/// Adds two lists in text order as one.
fn merge(ids: &mut Vec<ClauseId>, own: &[ClauseId], others: &[ClauseId]) -> Result<(), NoMemory>
    ensures { OnOk result (ids.new.items ≡ ids.old.items ++ merged own.now others.now) }
{
    let mut at = 0;
    for count in 0..own.len() + others.len() {
        if comes_first(own, at, others, count - at) {
            ids.push(own[at])?;
            at += 1;
        } else {
            ids.push(others[count - at])?;
        }
    }
    Ok(())
}

/// The clauses of a base by key and first argument.
fn grouped(alloc: Global, parts: &Parts) -> Result<Index<FirstKey>, NoMemory>
    requires { IsParts parts.now }
    ensures { IfOk result (IsGrouped (contents_of parts.now)) }
{
    let mut groups = Index::new(alloc);
    for at in 0..parts.clauses.len() {
        let key = first_key(parts.store.cells(), parts.clauses[at].head);
        groups.add(alloc, key, ClauseId { at })?;
    }
    Ok(groups)
}

/// Adds the list of a key, where it needs one: where some but not all clauses of the predicate
/// have its first argument.
fn add_list(
    candidates: &mut Candidates,
    key: FirstKey,
    own: &[ClauseId],
    others: &[ClauseId],
    all: &[ClauseId],
) -> Result<(), NoMemory>
    requires { AreWithin candidates.old }
    ensures within { OnOk result (AreWithin candidates.new) }
    ensures listed { OnOk result ((k : FirstKey) → listed_in candidates.new k ≡
        with_list (list_for key.first own.now others.now all.now) (same_first_key key k)
        (listed_in candidates.old k)) }
{
    if own.is_empty() || own.len() == all.len() {
        return Ok(());
    }
    match (others.len() <= MOST_ANY, key.first) {
        (true, FirstArg::Any) => candidates.add(key, own, &[]),
        (true, _) => candidates.add(key, own, others),
        (false, FirstArg::Any) => candidates.add(key, all, &[]),
        (false, _) => Ok(()),
    }
}

/// The lists of a base.
pub fn candidates_of(alloc: Global, parts: &Parts) -> Result<Candidates, NoMemory>
    requires { IsParts parts.now }
    ensures { IfOk result (HasLists (contents_of parts.now)) }
{
    let groups = grouped(alloc, parts)?;
    let mut candidates = Candidates::new(alloc);
    for at in 0..groups.len() {
        let (key, own) = groups.entry(at);
        let others = groups.ids(FirstKey {
            key: key.key,
            first: FirstArg::Any,
        });
        let all = parts.index.ids(key.key);
        add_list(&mut candidates, key, own, others, all)?;
    }
    Ok(candidates)
}
