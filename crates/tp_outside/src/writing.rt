//! Bytes that are taken in pieces.

ghost use Rattle.std.specs.Prelude.{◌≡◌, ◌<◌, ◌≤◌, ℕ, List, Option, length, take, IfOk, OnOk};
ghost use Rattle.std.specs.Prelude.{OnErr};
ghost use Rattle.tp_outside.specs.Count.{Rose};
ghost use Rattle.tp_outside.specs.Taken.{added};

use crate::reading::Failed;

/// What takes bytes in pieces.
pub trait Sink {
    /// All the bytes that were taken, where the sink tells them.
    ghost taken: { Self → Option (List ℕ) };

    /// How many writes met a fault.
    ghost faults: { Self → ℕ };

    /// Takes some bytes from the front of `piece`, at least one, and answers how many. A write that
    /// fails takes none and raises the count of faults; one that stands at its last value counts as
    /// risen.
    fn write(&mut self, piece: &[u8]) -> Result<usize, Failed>
        requires { 0 < length piece.now }
        ensures never_falls { faults self.old ≤ faults self.new }
        ensures some { IfOk result (λ n. 0 < n) }
        ensures bound { IfOk result (λ n. n ≤ length piece.now) }
        ensures added { IfOk result (λ n.
            taken self.new ≡ added (taken self.old) (take n piece.now)) }
        ensures no_fault { OnOk result (faults self.new ≡ faults self.old) }
        ensures rose { OnErr result (Rose (faults self.old) (faults self.new)) }
        ensures none_added { OnErr result (taken self.new ≡ taken self.old) };
}
