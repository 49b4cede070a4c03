//! One read, write or flush of std, tried again where a signal interrupts it.
ghost use Rattle.std.specs.Prelude.{◌≡◌, ◌<◌, [], take, length, IfOk, OnErr};
ghost use Rattle.std.specs.Io.{ReadsAtMost, WritesAtMost};
ghost use Rattle.ed_io.specs.Bytes.{Took, Added, NoneLeft};

use crate::Failed;
use std::io::{ErrorKind, Read, Write};

/// A call that was interrupted so often is given up as failed.
const MOST_TRIES: u64 = u64::MAX;

pub(crate) fn read_retrying<R: Read>(reader: &mut R, into: &mut [u8]) -> Result<usize, Failed>
    ensures bound { ReadsAtMost result into.new }
    ensures taken { IfOk result (λ n. Took (R.remaining reader.old) (take n into.new) (R.remaining reader.new)) }
    ensures end { IfOk result (λ n. n ≡ 0 → 0 < length into.new → NoneLeft (R.remaining reader.new)) }
    ensures not_taken { OnErr result (Took (R.remaining reader.old) [] (R.remaining reader.new)) }
{
    for _ in 0..MOST_TRIES {
        match reader.read(into) {
            Ok(count) => return Ok(count),
            Err(error) => {
                if error.kind() != ErrorKind::Interrupted {
                    return Err(Failed);
                }
            }
        }
    }
    Err(Failed)
}

pub(crate) fn write_retrying<W: Write>(writer: &mut W, piece: &[u8]) -> Result<usize, Failed>
    ensures bound { WritesAtMost result piece.now }
    ensures added { IfOk result (λ n. Added (W.contents writer.old) (take n piece.now) (W.contents writer.new)) }
    ensures not_added { OnErr result (Added (W.contents writer.old) [] (W.contents writer.new)) }
{
    for _ in 0..MOST_TRIES {
        match writer.write(piece) {
            Ok(count) => return Ok(count),
            Err(error) => {
                if error.kind() != ErrorKind::Interrupted {
                    return Err(Failed);
                }
            }
        }
    }
    Err(Failed)
}

pub(crate) fn flush_retrying<W: Write>(writer: &mut W) -> Result<(), Failed>
    ensures { Added (W.contents writer.old) [] (W.contents writer.new) }
{
    for _ in 0..MOST_TRIES {
        match writer.flush() {
            Ok(()) => return Ok(()),
            Err(error) => {
                if error.kind() != ErrorKind::Interrupted {
                    return Err(Failed);
                }
            }
        }
    }
    Err(Failed)
}
