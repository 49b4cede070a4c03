ghost use Rattle.std.specs.Prelude.{◌≡◌, ◌<◌, ◌↔◌, ◌⊎◌, ◌++◌, [], take, length, Some, IsErr, IfOk, OnErr};
ghost use Rattle.std.specs.Io.{WritesAtMost};
ghost use Rattle.ed_io.specs.Bytes.{Added};
ghost use Rattle.ed_io.specs.Faults.{HasCause, Rose};
ghost use Rattle.ed_io.specs.Memory.{FailsNext, after_answer, after_failure, room_left, write_count};

use crate::calls::Calls;
use crate::{Failed, Sink};
use ed_base::OutOfMemory;
use std::alloc::Global;
use std::marker::Model;

/// A sink that keeps bytes in memory taken when it is made, takes them in short pieces, and fails
/// at listed calls and where its room is used up.
#[derive(Drop)]
pub struct MemorySink {
    held: Vec<u8>,
    room: u32,
    calls: Calls,
}

impl Model for MemorySink {
    ghost use Rattle.std.specs.Prelude.{◌≤◌, vec_len, vec_capacity};
    ghost use Rattle.ed_io.specs.Memory.{SinkMemory};

    ghost Value = { SinkMemory };

    ghost view = { λ s. record { held = s.held.items; room = s.room; calls = s.calls } };

    ghost invariant = { λ s. (vec_len s.held ≤ s.room) × (s.room ≤ vec_capacity s.held) };
}

impl MemorySink {
    /// An empty sink with memory for `room` bytes, which takes at most `piece` bytes per write. It
    /// fails exactly at the writes `fail_at`, counted from 1, and where no room is left for a piece
    /// that isn't empty.
    ///
    /// # Errors
    /// `OutOfMemory` where memory for the room is refused.
    pub fn new(
        alloc: Global,
        room: u32,
        piece: u32,
        fail_at: Vec<u32>,
    ) -> Result<MemorySink, OutOfMemory>
        requires { 0 < piece }
        ensures { IfOk result (λ s. s ≡ record {
          held = [];
          room = room;
          calls = record { piece = piece; fail_at = fail_at.items; made = 0; faults = 0 };
        }) }
    {
        Ok(MemorySink {
            held: Vec::with_capacity(alloc, room as usize)?,
            room,
            calls: Calls::new(piece, fail_at),
        })
    }

    /// The bytes written so far.
    pub fn written(&self) -> &[u8]
        ensures { result.now ≡ self.now.held }
    {
        self.held.as_slice()
    }
}

impl Sink for MemorySink {
    ghost held = { λ s. Some s.held };

    ghost faults = { λ s. s.calls.faults };

    fn write(&mut self, piece: &[u8]) -> Result<usize, Failed>
        // As of each sink.
        ensures bound { WritesAtMost result piece.now }
        ensures added { IfOk result (λ n. Added (Some self.old.held) (take n piece.now) (Some self.new.held)) }
        ensures none_taken { IfOk result (λ n. n ≡ 0 → 0 < length piece.now → Rose self.old.calls.faults self.new.calls.faults) }
        ensures not_added { OnErr result (Added (Some self.old.held) [] (Some self.new.held)) }
        ensures cause { HasCause self.old.calls.faults self.new.calls.faults result }

        // Of this one, exactly.
        ensures failed { IsErr result ↔ (FailsNext self.old.calls ⊎ ((room_left self.old ≡ 0) × (0 < length piece.now))) }
        ensures count { IfOk result (λ n. n ≡ write_count self.old (length piece.now)) }
        ensures ok { IfOk result (λ n. self.new ≡ record self.old { held = self.old.held ++ take n piece.now; calls = after_answer self.old.calls }) }
        ensures err { OnErr result (self.new ≡ record self.old { calls = after_failure self.old.calls }) }
    {
        let room_left = self.room as usize - self.held.len();
        self.calls.make(room_left == 0 && !piece.is_empty())?;
        let count = piece.len().min(self.calls.piece()).min(room_left);
        self.held.extend_from_slice(&piece[..count]).unwrap();
        Ok(count)
    }
}
