ghost use Rattle.std.specs.Prelude.{◌≡◌, ◌<◌, ℕ, List, [], Option, take, length, IfOk, OnErr};
ghost use Rattle.std.specs.Io.{ReadsAtMost};
ghost use Rattle.ed_io.specs.Bytes.{Took, NoneLeft};
ghost use Rattle.ed_io.specs.Faults.{HasCause};

use crate::Failed;

/// A source of bytes that counts its faults.
pub trait Source {
    // The bytes that reads will give from here on, where the source tells them.
    ghost left: { Self → Option (List ℕ) };

    // How many reads failed. It stands still at its last value, 2 ^ 64 - 1.
    ghost faults: { Self → ℕ };

    /// Reads into the front of `into` and answers how many bytes: at most its length, and 0 for an
    /// `into` that isn't empty at the end of the input alone.
    ///
    /// # Errors
    /// `Failed` where the read failed. It took no byte, as far as the source tells, and the count of
    /// faults rose.
    fn read(&mut self, into: &mut [u8]) -> Result<usize, Failed>
        ensures bound { ReadsAtMost result into.new }
        ensures taken { IfOk result (λ n. Took (left self.old) (take n into.new) (left self.new)) }
        ensures end { IfOk result (λ n. n ≡ 0 → 0 < length into.new → NoneLeft (left self.new)) }
        ensures not_taken { OnErr result (Took (left self.old) [] (left self.new)) }
        ensures cause { HasCause (faults self.old) (faults self.new) result };
}
