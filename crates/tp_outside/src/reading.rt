//! Named bytes that are read in pieces.

ghost use Rattle.std.specs.Prelude.{◌≡◌, ◌<◌, ◌≤◌, ℕ, Option, length, IfOk, OnOk, OnErr};
ghost use Rattle.tp_outside.specs.Count.{given_more};
ghost use Rattle.tp_outside.specs.Files.{Files, ReadFails, ReadGives};

/// A read or a write that didn't come about.
#[derive(Clone, Copy, Debug, PartialEq, Eq)]
pub struct Failed;

/// Bytes held under names, which are read in pieces.
pub trait Shelf {
    /// The files that are held, where the shelf tells them.
    ghost held: { Self → Option Files };

    /// How many reads met a fault. A name that isn't held is none.
    ghost faults: { Self → ℕ };

    /// How many bytes were given in all, up to 18446744073709551615.
    ghost given: { Self → ℕ };

    /// Reads some of the bytes held under a name, from the byte with the number `at` on, into the
    /// front of `buf`, and answers how many: 0 is the end, and a piece may be shorter than what is
    /// left. A fault raises the count of faults; one that stands at its last value counts as risen.
    /// Where a shelf tells its files, a name that isn't held is `Failed` too, without a fault.
    fn read(&mut self, name: &str, at: u64, buf: &mut [u8]) -> Result<usize, Failed>
        requires { 0 < length buf.old }
        ensures held_stays { held self.new ≡ held self.old }
        ensures never_falls { faults self.old ≤ faults self.new }
        ensures bound { IfOk result (λ n. n ≤ length buf.new) }
        ensures gives { IfOk result (λ n. ReadGives (held self.old) name.now at n buf.new) }
        ensures no_fault { OnOk result (faults self.new ≡ faults self.old) }
        ensures given { IfOk result (λ n. given self.new ≡ given_more (given self.old) n) }
        ensures fails { OnErr result
            (ReadFails (held self.old) name.now (faults self.old) (faults self.new)) }
        ensures none_given { OnErr result (given self.new ≡ given self.old) };
}
