//! Which built-in a goal is.

ghost use Rattle.std.specs.Prelude.{◌≡◌, ◌<◌, List, length, IfSome};
ghost use Rattle.tp_terms.specs.Term.{Name};
ghost use Rattle.tp_terms.specs.Names.{IsTable};
ghost use Rattle.tp_terms.specs.Shown.{name_at};
ghost use Rattle.tp_build.specs.Builtin.{built_in};
ghost use Rattle.tp_build.specs.Families.{argument_count};

use tp_meaning::{BuiltId, GoalKind, goal_kind};
use tp_terms::AtomId;

/// The built-in that a name and a number of arguments are; `None` exactly where they are no
/// built-in. Takes the same time for every name.
pub fn find(name: AtomId, count: u8) -> Option<BuiltId>
    ensures value { (names : List Name) → IsTable names → name.at < length names →
        result ≡ built_in (name_at names name.at) count }
    ensures count { (names : List Name) → IsTable names → name.at < length names →
        IfSome result (λ id. argument_count id ≡ count) }
{
    match goal_kind(name, count) {
        Some(GoalKind::BuiltIn(id)) => Some(id),
        _ => None,
    }
}
