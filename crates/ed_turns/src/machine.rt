ghost use Rattle.std.specs.Prelude.{◌≡◌, ◌≢◌, ℕ, Bool, IfOk, OnErr};

use crate::twice::Twice;
use ed_base::{OutOfMemory, SeatNo};

/// What is stepped under a lock, by seats that take turns.
pub trait Machine: Send + Drop {
    /// What every step reads and none changes.
    type Aid: Sync;
    /// What a seat asks for.
    type Event: Send + Drop;
    /// What an event brings with it.
    type Load: Drop;
    /// What a step answers.
    type Reply: Send + Drop;

    // An event and a load fit the machine, for this seat.
    ghost fits: { Self → Self.Aid → ℕ → Self.Event → Self.Load → Type 0 };

    // The machine after a step, and its reply.
    ghost after: { Self → Self.Aid → ℕ → Self.Event → Self };

    ghost reply: { Self → Self.Aid → ℕ → Self.Event → Self.Reply };

    ghost is_ready: { Self → Self.Event → Bool };

    // Some machine and some aid, for the view of a seat that was taken in by another. Nothing is said of them.
    ghost blank: { Self };

    ghost blank_aid: { Self.Aid };

    /// Whether the machine is ready for an event: one that isn't may be asked again later.
    fn ready(&self, event: &Self::Event) -> bool
        ensures { result ≡ is_ready self.now event.now };

    /// Steps the machine, and gives the reply twice. After want of memory the machine is as it was.
    fn step(
        &mut self,
        aid: &Self::Aid,
        seat: SeatNo,
        event: &Self::Event,
        load: Self::Load,
    ) -> Result<Twice<Self::Reply>, OutOfMemory>
        requires { fits self.old aid.now seat event.now load }
        ensures machine { IfOk result (λ _. self.new ≡ after self.old aid.now seat event.now) }
        ensures kept { IfOk result (λ t. t.kept ≡ reply self.old aid.now seat event.now) }
        ensures given { IfOk result (λ t. t.given ≡ reply self.old aid.now seat event.now) }
        ensures refused { OnErr result (self.new ≡ self.old) };

    // What fits for a seat still fits after a step of another seat, whose own event and load fit.
    ghost lasts: { (m : Self) (a : Self.Aid) (s t : ℕ) (e f : Self.Event) (l k : Self.Load) → s ≢ t → fits m a s e l → fits m a t f k → fits (after m a t f) a s e l };
}
