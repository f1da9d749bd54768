//! Goals that compare terms by the standard order (ISO/IEC 13211-1, clause 8.4).

ghost use Rattle.std.specs.Prelude.{◌≡◌, ◌<◌, length, Ok, IfOk, OnErr};
ghost use Rattle.tp_meaning.specs.Heap.{IsHeap, seen};
ghost use Rattle.tp_build.specs.Answers.{Does, HeapGrows};
ghost use Rattle.tp_build.specs.Builtin.{in_order, ordered};

use crate::decided::decided;
use crate::outcome::Outcome;
use std::cmp::Ordering;
use tp_meaning::Terms;
use tp_terms::{NoMemory, Ref};

/// How two terms may stand in the standard order.
#[derive(Clone, Copy, Debug, PartialEq, Eq)]
pub enum OrderRelation {
    /// `==`.
    Same,
    /// `\==`.
    NotSame,
    /// `@<`.
    Before,
    /// `@=<`.
    BeforeOrSame,
    /// `@>`.
    After,
    /// `@>=`.
    AfterOrSame,
}

impl OrderRelation {
    /// Whether terms that stand like this are in this relation.
    fn holds(self, order: Ordering) -> bool
        ensures { result ≡ in_order self order }
    {
        match self {
            OrderRelation::Same => order.is_eq(),
            OrderRelation::NotSame => order.is_ne(),
            OrderRelation::Before => order.is_lt(),
            OrderRelation::BeforeOrSame => order.is_le(),
            OrderRelation::After => order.is_gt(),
            OrderRelation::AfterOrSame => order.is_ge(),
        }
    }
}

/// Whether the terms of two places are in a relation of the standard order. Nothing is bound.
///
/// # Errors
/// `NoMemory` where memory was refused.
pub fn compare_terms<T: Terms>(
    terms: &mut T,
    relation: OrderRelation,
    x: Ref,
    y: Ref,
) -> Result<Outcome, NoMemory>
    requires heap { IsHeap (T.heap terms.old) }
    requires x { x.at < length (T.heap terms.old).cells }
    requires y { y.at < length (T.heap terms.old).cells }
    ensures does { IfOk result (Does (T.heap terms.old) (T.heap terms.new)
        (ordered relation (T.heap terms.old).subst (T.heap terms.old).next
        (seen (T.heap terms.old) x.at) (seen (T.heap terms.old) y.at))) }
    ensures err { OnErr result ((T.heap terms.new).subst ≡ (T.heap terms.old).subst) }
    ensures grows { HeapGrows (T.heap terms.old) (T.heap terms.new) }
    ensures heap { IsHeap (T.heap terms.new) }
{
    let order = terms.compare(x, y)?;
    Ok(decided(relation.holds(order)))
}
