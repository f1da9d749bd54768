//! Conditions `(C->T)`, by the places of their goals.

ghost use Rattle.std.specs.Prelude.{◌≡◌, ◌<◌, List, length};
ghost use Rattle.tp_terms.specs.Term.{Name};
ghost use Rattle.tp_terms.specs.Names.{IsTable};
ghost use Rattle.tp_terms.specs.Shown.{AreNamed};
ghost use Rattle.tp_store.specs.Contents.{IsStore};
ghost use Rattle.tp_machine.specs.Meets.{IsCall};
ghost use Rattle.tp_machine.specs.Parts.{HasParts};

use crate::goals::met;
use crate::task::{Call, Met};
use tp_store::Store;
use tp_terms::Ref;
use tp_terms::symbols::IF_THEN;

/// The places of the two goals of a condition `(C->T)`, where the goal at a place is one.
pub fn parts_of(store: &Store, goal: Ref) -> Option<(Ref, Ref)>
    requires goal { goal.at < length store.now.cells }
    requires store { IsStore store.now }
    ensures { (names : List Name) → IsTable names → AreNamed (length names) store.now.cells →
        HasParts names store.now goal result }
{
    match met(store, goal) {
        Met::Named(call) => parts_by(store, goal, call),
        Met::Unbound => None,
        Met::Number(_) => None,
    }
}

/// The places of the two goals, by the goal's name and its arguments.
fn parts_by(store: &Store, _goal: Ref, call: Call) -> Option<(Ref, Ref)>
    requires store { IsStore store.now }
    requires call { (names : List Name) → AreNamed (length names) store.now.cells →
        IsCall names store.now _goal call }
    ensures { (names : List Name) → IsTable names → AreNamed (length names) store.now.cells →
        HasParts names store.now _goal result }
{
    if call.name.at == IF_THEN.at {
        if call.count == 2 {
            let _places = store.cells().len();
            let second = Ref {
                at: call.first.at + 1,
            };
            Some((call.first, second))
        } else {
            None
        }
    } else {
        None
    }
}
