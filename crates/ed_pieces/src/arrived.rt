//! All that arrives at a buffer.
ghost use Rattle.std.specs.Prelude.{◌≡◌, ◌≤◌, ◌^◌, length, sum_by, IfOk};
ghost use Rattle.ed_layers.specs.Pieces.{arrived};
ghost use Rattle.ed_pieces.specs.Arrivals.{AllWithin, Arrival, IsArrival};

use crate::order::in_order;
use crate::part::Part;
use crate::pending::swept;
use ed_base::{OutOfMemory, Piece};
use std::alloc::Global;
use std::marker::Model;

/// What arrives at a buffer, brought together: its components by rising place, each unit that is
/// put in with the way that it came. Units that came one way stand in one run, so that a trail is
/// kept once a run.
#[derive(Drop)]
pub struct Arrived {
    old_len: u32,
    parts: Vec<Part>,
}

impl Model for Arrived {
    ghost use Rattle.ed_pieces.specs.Arrivals.{Arrival};

    ghost Value = { Arrival };

    ghost view = { λ a. record { old_len = a.old_len; components = a.parts.items } };

    ghost use Rattle.ed_pieces.specs.Arrivals.{IsArrival};

    ghost invariant = { λ a. IsArrival a.old_len a.parts.items };
}

impl Arrived {
    /// What these pieces do to a text of `len` units: one component for what stands between two
    /// neighbouring kept units. It sorts the pieces and never looks at the text.
    ///
    /// # Errors
    ///
    /// Memory was refused.
    pub fn of(alloc: Global, len: u32, pieces: &[Piece]) -> Result<Arrived, OutOfMemory>
        requires len { len ≤ 2 ^ 22 }
        requires within { AllWithin len pieces.now }
        requires put_in { sum_by (λ p. length p.text) pieces.now ≤ 2 ^ 27 }
        ensures old_len { IfOk result (λ a. a.old_len ≡ len) }
        ensures components { IfOk result (λ a. a.components ≡ arrived pieces.now len) }
    {
        let order = in_order(alloc, pieces)?;
        let parts = swept(alloc, &order)?;
        Ok(Arrived {
            old_len: len,
            parts,
        })
    }

    /// The length of the text, and the components.
    pub(crate) fn into_parts(self) -> (u32, Vec<Part>)
        ensures old_len { result.0 ≡ self.old_len }
        ensures components { result.1.items ≡ self.components }
        ensures arrival { IsArrival self.old_len self.components }
    {
        let Arrived { old_len, parts } = self;
        (old_len, parts)
    }

    /// The length of the text.
    pub fn old_len(&self) -> u32
        ensures { result ≡ self.now.old_len }
    {
        self.old_len
    }

    /// The components, by rising place.
    pub fn parts(&self) -> &[Part]
        ensures components { result.now ≡ self.now.components }
        ensures arrival { IsArrival self.now.old_len self.now.components }
    {
        self.parts.as_slice()
    }
}
