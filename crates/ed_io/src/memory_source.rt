ghost use Rattle.std.specs.Prelude.{◌≡◌, ◌<◌, ◌↔◌, ◌++◌, [], take, drop, length, Some, IsErr, IfOk, OnErr};
ghost use Rattle.std.specs.Io.{ReadsAtMost};
ghost use Rattle.ed_io.specs.Bytes.{Took, NoneLeft};
ghost use Rattle.ed_io.specs.Faults.{HasCause};
ghost use Rattle.ed_io.specs.Memory.{FailsNext, after_answer, after_failure, read_count};

use crate::calls::Calls;
use crate::{Failed, Source};
use std::marker::Model;

/// A source that gives bytes from memory in short pieces, and fails at listed calls.
#[derive(Drop)]
pub struct MemorySource {
    bytes: Vec<u8>,
    position: usize,
    calls: Calls,
}

impl Model for MemorySource {
    ghost use Rattle.std.specs.Prelude.{◌≤◌, drop, vec_len};
    ghost use Rattle.ed_io.specs.Memory.{SourceMemory};

    ghost Value = { SourceMemory };

    ghost view = { λ s. record { left = drop s.position s.bytes.items; calls = s.calls } };

    ghost invariant = { λ s. s.position ≤ vec_len s.bytes };
}

impl MemorySource {
    /// A source of these bytes that gives at most `piece` of them per read, and fails exactly at the
    /// reads `fail_at`, counted from 1.
    pub fn new(bytes: Vec<u8>, piece: u32, fail_at: Vec<u32>) -> MemorySource
        requires { 0 < piece }
        ensures { result ≡ record {
          left = bytes.items;
          calls = record { piece = piece; fail_at = fail_at.items; made = 0; faults = 0 };
        } }
    {
        MemorySource {
            bytes,
            position: 0,
            calls: Calls::new(piece, fail_at),
        }
    }
}

impl Source for MemorySource {
    ghost left = { λ s. Some s.left };

    ghost faults = { λ s. s.calls.faults };

    fn read(&mut self, into: &mut [u8]) -> Result<usize, Failed>
        // As of each source.
        ensures bound { ReadsAtMost result into.new }
        ensures taken { IfOk result (λ n. Took (Some self.old.left) (take n into.new) (Some self.new.left)) }
        ensures end { IfOk result (λ n. n ≡ 0 → 0 < length into.new → NoneLeft (Some self.new.left)) }
        ensures not_taken { OnErr result (Took (Some self.old.left) [] (Some self.new.left)) }
        ensures cause { HasCause self.old.calls.faults self.new.calls.faults result }

        // Of this one, exactly.
        ensures failed { IsErr result ↔ FailsNext self.old.calls }
        ensures count { IfOk result (λ n. n ≡ read_count self.old (length into.old)) }
        ensures bytes { IfOk result (λ n. into.new ≡ take n self.old.left ++ drop n into.old) }
        ensures ok { IfOk result (λ n. self.new ≡ record { left = drop n self.old.left; calls = after_answer self.old.calls }) }
        ensures err { OnErr result (self.new ≡ record self.old { calls = after_failure self.old.calls }) }
        ensures not_filled { OnErr result (into.new ≡ into.old) }
    {
        self.calls.make(false)?;
        let left = &self.bytes[self.position..];
        let count = into.len().min(self.calls.piece()).min(left.len());
        into[..count].copy_from_slice(&left[..count]);
        self.position += count;
        Ok(count)
    }
}
