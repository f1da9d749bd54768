//! The answer to a test.

ghost use Rattle.std.specs.Prelude.{◌≡◌, Ok};
ghost use Rattle.tp_meaning.specs.Heap.{Heap};
ghost use Rattle.tp_build.specs.Answers.{Does};
ghost use Rattle.tp_meaning.specs.Answers.{succeeds};

use crate::outcome::Outcome;

/// The answer of a goal that succeeds exactly where a test holds.
pub fn decided(holds: bool) -> Outcome
    ensures { (h k : Heap) → k.subst ≡ h.subst → k.next ≡ h.next →
        Does h k (Ok (succeeds holds h.subst h.next)) result }
{
    if holds { Outcome::Yes } else { Outcome::No }
}
