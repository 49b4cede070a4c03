ghost use Rattle.std.specs.Prelude.{◌≡◌, ◌<◌, ℕ, List, [], Option, take, length, IfOk, OnErr};
ghost use Rattle.std.specs.Io.{WritesAtMost};
ghost use Rattle.ed_io.specs.Bytes.{Added};
ghost use Rattle.ed_io.specs.Faults.{HasCause, Rose};

use crate::Failed;

/// A sink of bytes that counts its faults.
pub trait Sink {
    // The bytes that the sink holds, where it tells them.
    ghost held: { Self → Option (List ℕ) };

    // How many writes failed. It stands still at its last value, 2 ^ 64 - 1.
    ghost faults: { Self → ℕ };

    /// Writes the front of `piece` and answers how many bytes of it were taken. 0 for a piece that
    /// isn't empty is to be taken as a failure.
    ///
    /// # Errors
    /// `Failed` where the write failed. It added no byte, as far as the sink tells, and the count of
    /// faults rose, as it does where 0 is answered for a piece that isn't empty.
    fn write(&mut self, piece: &[u8]) -> Result<usize, Failed>
        ensures bound { WritesAtMost result piece.now }
        ensures added { IfOk result (λ n. Added (held self.old) (take n piece.now) (held self.new)) }
        ensures none_taken { IfOk result (λ n. n ≡ 0 → 0 < length piece.now → Rose (faults self.old) (faults self.new)) }
        ensures not_added { OnErr result (Added (held self.old) [] (held self.new)) }
        ensures cause { HasCause (faults self.old) (faults self.new) result };
}
