ghost use Rattle.std.specs.Prelude.{◌≡◌, ◌<◌, [], take, length, None, IfOk, OnOk, OnErr};
ghost use Rattle.std.specs.Io.{WritesAtMost};
ghost use Rattle.ed_io.specs.Bytes.{Added, AddedFront};
ghost use Rattle.ed_io.specs.Faults.{HasCause, Rose, raised};

use crate::retry::{flush_retrying, write_retrying};
use crate::{Failed, Sink};
use std::io::Write;
use std::marker::Model;

/// A writer of std (Rust's `std::io::Write`) as a sink. It tells no bytes, and counts the writes that
/// failed.
///
/// Each write is flushed, so that bytes of an answered write are in no buffer of the writer. A
/// write or a flush that a signal interrupts before a byte moved is tried again and counts as no
/// failure, as std's own `write_all` does; after 2^64 - 1 tries it is given up as failed. A writer
/// that takes none of a piece that isn't empty has failed.
#[derive(Drop)]
pub struct StdSink<W> {
    writer: W,
    faults: u64,
}

impl<W> Model for StdSink<W> {
    ghost use Rattle.ed_io.specs.Adapted.{Adapted};

    ghost Value = { Adapted W };

    ghost view = { λ s. record { inner = s.writer; faults = s.faults } };
}

impl<W: Write> StdSink<W> {
    /// A sink over this writer, with no failed write yet.
    pub fn new(writer: W) -> StdSink<W>
        ensures { result ≡ record { inner = writer; faults = 0 } }
    {
        StdSink { writer, faults: 0 }
    }
}

impl<W: Write> Sink for StdSink<W> {
    ghost held = { λ _. None };

    ghost faults = { λ s. s.faults };

    fn write(&mut self, piece: &[u8]) -> Result<usize, Failed>
        // As of each sink.
        ensures bound { WritesAtMost result piece.now }
        ensures added { IfOk result (λ n. Added None (take n piece.now) None) }
        ensures none_taken { IfOk result (λ n. n ≡ 0 → 0 < length piece.now → Rose self.old.faults self.new.faults) }
        ensures not_added { OnErr result (Added None [] None) }
        ensures cause { HasCause self.old.faults self.new.faults result }

        // 0 is answered for an empty piece alone.
        ensures some_taken { IfOk result (λ n. 0 < length piece.now → 0 < n) }

        // Where the writer's own bytes are known, what was taken was added to them. A flush that
        // failed may leave a beginning of the piece with the writer.
        ensures writer_added { IfOk result (λ n. Added (W.contents self.old.inner) (take n piece.now) (W.contents self.new.inner)) }
        ensures writer_failed { OnErr result (AddedFront (W.contents self.old.inner) piece.now (W.contents self.new.inner)) }

        // The count rises at each failure and stands still else.
        ensures ok { OnOk result (self.new.faults ≡ self.old.faults) }
        ensures err { OnErr result (self.new.faults ≡ raised self.old.faults) }
    {
        match write_through(&mut self.writer, piece) {
            Ok(count) => Ok(count),
            Err(failed) => {
                self.faults = self.faults.saturating_add(1);
                Err(failed)
            }
        }
    }
}

// One write, flushed. It fails where none of a piece that isn't empty is taken.
fn write_through<W: Write>(writer: &mut W, piece: &[u8]) -> Result<usize, Failed>
    ensures bound { WritesAtMost result piece.now }
    ensures added { IfOk result (λ n. Added (W.contents writer.old) (take n piece.now) (W.contents writer.new)) }
    ensures some_taken { IfOk result (λ n. 0 < length piece.now → 0 < n) }
    ensures failed { OnErr result (AddedFront (W.contents writer.old) piece.now (W.contents writer.new)) }
{
    let count = write_retrying(writer, piece)?;
    if count == 0 && !piece.is_empty() {
        return Err(Failed);
    }
    flush_retrying(writer)?;
    Ok(count)
}
