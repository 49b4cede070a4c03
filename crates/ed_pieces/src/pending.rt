//! The pass over sorted pieces.
ghost use Rattle.std.specs.Prelude.{◌≡◌, ℕ, ◌+◌, ◌<◌, ◌≤◌, ◌^◌, List, [], ◌∷◌, ◌++◌, map, max, All, IfOk, OnOk, OnErr};
ghost use Rattle.ed_base.specs.declared.piece.Piece.{Piece};
ghost use Rattle.ed_layers.specs.Pieces.{Component, marked_units};
ghost use Rattle.ed_pieces.specs.Runs.{AreRuns, text_of};
ghost use Rattle.ed_pieces.specs.Arrivals.{component_if, sweep};

use crate::part::Part;
use crate::run::{Run, put_run};
use ed_base::{OutOfMemory, Piece};
use std::alloc::Global;

/// A component that further pieces may still join: it deletes the units from `start` up to `end`
/// and puts the runs in.
#[derive(Drop)]
struct Pending {
    start: u32,
    end: u32,
    runs: Vec<Run>,
}

impl Pending {
    /// A component at the gap that does nothing yet.
    fn begin(alloc: Global, start: u32) -> Pending
        ensures start { result.start ≡ start }
        ensures end { result.end ≡ start }
        ensures runs { result.runs.items ≡ [] }
    {
        Pending {
            start,
            end: start,
            runs: Vec::new(alloc),
        }
    }

    /// Deletes and puts in what the piece does.
    fn join(&mut self, alloc: Global, piece: &Piece) -> Result<(), OutOfMemory>
        requires within { piece.now.start + piece.now.len < 2 ^ 32 }
        requires runs { AreRuns self.old.runs.items }
        ensures start { OnOk result (self.new.start ≡ self.old.start) }
        ensures end { OnOk result (self.new.end ≡ max self.old.end (piece.now.start + piece.now.len)) }
        ensures text { OnOk result (text_of self.new.runs.items ≡ text_of self.old.runs.items ++ marked_units piece.now) }
        ensures runs { OnOk result (AreRuns self.new.runs.items) }
    {
        put_run(alloc, &mut self.runs, &piece.trail, piece.text.as_slice())?;
        self.end = self.end.max(piece.start + piece.len);
        Ok(())
    }

    /// Puts the component at the end of the list, if it does anything.
    fn close(self, list: &mut Vec<Part>) -> Result<(), OutOfMemory>
        requires order { self.start ≤ self.end }
        requires runs { AreRuns self.runs.items }
        ensures { OnOk result (list.new.items ≡ list.old.items ++ component_if self.start self.end (text_of self.runs.items)) }
    {
        if self.start == self.end && self.runs.as_slice().is_empty() {
            return Ok(());
        }
        let old_len = self.end - self.start;
        list.push(Part::of(self.start, old_len, self.runs))?;
        Ok(())
    }

    /// Takes in the next piece: into this component where it begins in it or at its end, else into a
    /// new one.
    fn taken(
        self,
        alloc: Global,
        piece: &Piece,
        list: &mut Vec<Part>,
    ) -> Result<Pending, OutOfMemory>
        requires order { self.start ≤ self.end }
        requires within { piece.now.start + piece.now.len < 2 ^ 32 }
        requires runs { AreRuns self.runs.items }
        ensures order { IfOk result (λ p. p.start ≤ p.end) }
        ensures runs { IfOk result (λ p. AreRuns p.runs.items) }
        ensures swept { IfOk result (λ p. (rest : List Piece) → list.new.items ++ sweep p.start p.end (text_of p.runs.items) rest ≡ list.old.items ++ sweep self.start self.end (text_of self.runs.items) (piece.now ∷ rest)) }
    {
        let mut pending = self;
        if pending.end < piece.start {
            pending.close(list)?;
            pending = Pending::begin(alloc, piece.start);
        }
        pending.join(alloc, piece)?;
        Ok(pending)
    }
}

/// The components of pieces that are in order.
///
/// # Errors
///
/// Memory was refused.
pub fn swept(alloc: Global, order: &[&Piece]) -> Result<Vec<Part>, OutOfMemory>
    requires { All (λ p. p.now.start + p.now.len < 2 ^ 32) order.now }
    ensures { IfOk result (λ v. v.items ≡ sweep 0 0 [] (map (λ p. p.now) order.now)) }
{
    let mut list = Vec::new(alloc);
    let mut pending = Pending::begin(alloc, 0);
    for piece in order {
        pending = pending.taken(alloc, piece, &mut list)?;
    }
    pending.close(&mut list)?;
    Ok(list)
}
