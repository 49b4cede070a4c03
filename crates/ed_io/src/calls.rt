//! How a source or a sink in memory answers its calls.
ghost use Rattle.std.specs.Prelude.{◌≡◌, ◌<◌, ◌↔◌, ◌⊎◌, IsTrue, IsErr, OnOk, OnErr, Contains};
ghost use Rattle.ed_io.specs.Faults.{HasCause};
ghost use Rattle.ed_io.specs.Memory.{FailsNext, after_answer, after_failure};

use crate::Failed;
use std::marker::Model;

/// How many bytes a call moves at most, which calls fail, and how many were made and failed.
#[derive(Drop)]
pub(crate) struct Calls {
    piece: u32,
    fail_at: Vec<u32>,
    made: u64,
    faults: u64,
}

impl Model for Calls {
    ghost use Rattle.std.specs.Prelude.{◌<◌};
    ghost use Rattle.ed_io.specs.Memory.{Calls as CallsValue};

    ghost Value = { CallsValue };

    ghost view = { λ c. record { piece = c.piece; fail_at = c.fail_at.items; made = c.made; faults = c.faults } };

    ghost invariant = { λ c. 0 < c.piece };
}

impl Calls {
    pub(crate) fn new(piece: u32, fail_at: Vec<u32>) -> Calls
        requires { 0 < piece }
        ensures { result ≡ record { piece = piece; fail_at = fail_at.items; made = 0; faults = 0 } }
    {
        Calls {
            piece,
            fail_at,
            made: 0,
            faults: 0,
        }
    }

    /// At most so many bytes move in a call.
    pub(crate) fn piece(&self) -> usize
        ensures value { result ≡ self.now.piece }
        ensures some { 0 < result }
    {
        self.piece as usize
    }

    /// Counts a call, which fails where it is to fail or `is_blocked`.
    pub(crate) fn make(&mut self, is_blocked: bool) -> Result<(), Failed>
        ensures failed { IsErr result ↔ (IsTrue is_blocked ⊎ FailsNext self.old) }
        ensures ok { OnOk result (self.new ≡ after_answer self.old) }
        ensures err { OnErr result (self.new ≡ after_failure self.old) }
        ensures cause { HasCause self.old.faults self.new.faults result }
    {
        self.made = self.made.saturating_add(1);
        if is_blocked || is_listed(&self.fail_at, self.made) {
            self.faults = self.faults.saturating_add(1);
            return Err(Failed);
        }
        Ok(())
    }
}

fn is_listed(calls: &[u32], call: u64) -> bool
    ensures { IsTrue result ↔ Contains calls.now call }
{
    calls.iter().any(|listed| u64::from(*listed) == call)
}
