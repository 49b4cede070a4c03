ghost use Rattle.std.specs.Prelude.{◌≡◌, ◌<◌, [], take, length, None, IfOk, OnOk, OnErr};
ghost use Rattle.std.specs.Io.{ReadsAtMost};
ghost use Rattle.ed_io.specs.Bytes.{Took, NoneLeft};
ghost use Rattle.ed_io.specs.Faults.{HasCause, raised};

use crate::retry::read_retrying;
use crate::{Failed, Source};
use std::io::Read;
use std::marker::Model;

/// A reader of std (Rust's `std::io::Read`) as a source. It tells no bytes, and counts the reads that
/// failed.
///
/// A read that a signal interrupts before a byte moved is tried again and counts as no failure, as
/// std's own `read_to_end` does; after 2^64 - 1 tries it is given up as failed.
#[derive(Drop)]
pub struct StdSource<R> {
    reader: R,
    faults: u64,
}

impl<R> Model for StdSource<R> {
    ghost use Rattle.ed_io.specs.Adapted.{Adapted};

    ghost Value = { Adapted R };

    ghost view = { λ s. record { inner = s.reader; faults = s.faults } };
}

impl<R: Read> StdSource<R> {
    /// A source over this reader, with no failed read yet.
    pub fn new(reader: R) -> StdSource<R>
        ensures { result ≡ record { inner = reader; faults = 0 } }
    {
        StdSource { reader, faults: 0 }
    }
}

impl<R: Read> Source for StdSource<R> {
    ghost left = { λ _. None };

    ghost faults = { λ s. s.faults };

    fn read(&mut self, into: &mut [u8]) -> Result<usize, Failed>
        // As of each source.
        ensures bound { ReadsAtMost result into.new }
        ensures taken { IfOk result (λ n. Took None (take n into.new) None) }
        ensures end { IfOk result (λ n. n ≡ 0 → 0 < length into.new → NoneLeft None) }
        ensures not_taken { OnErr result (Took None [] None) }
        ensures cause { HasCause self.old.faults self.new.faults result }

        // Where the reader's own bytes are known, they are what is given.
        ensures reader_taken { IfOk result (λ n. Took (R.remaining self.old.inner) (take n into.new) (R.remaining self.new.inner)) }
        ensures reader_end { IfOk result (λ n. n ≡ 0 → 0 < length into.new → NoneLeft (R.remaining self.new.inner)) }
        ensures reader_not_taken { OnErr result (Took (R.remaining self.old.inner) [] (R.remaining self.new.inner)) }

        // The count rises at each failure and stands still else.
        ensures ok { OnOk result (self.new.faults ≡ self.old.faults) }
        ensures err { OnErr result (self.new.faults ≡ raised self.old.faults) }
    {
        match read_retrying(&mut self.reader, into) {
            Ok(count) => Ok(count),
            Err(failed) => {
                self.faults = self.faults.saturating_add(1);
                Err(failed)
            }
        }
    }
}
