//! The ways by which the units of a text came.
ghost use Rattle.std.specs.Prelude.{◌≡◌, [], IfOk};
ghost use Rattle.ed_pieces.specs.Trails.{AreRising, trail_in};

use ed_base::{BufferNo, OutOfMemory, SharedList, Span, Trail};
use std::alloc::Global;
use std::marker::Model;

/// Units of a text that came one way: their places, and the carriers and members that they passed.
#[derive(Drop)]
pub struct TrailRun {
    pub span: Span,
    pub trail: Trail,
}

/// The ways by which the units of a text came, by rising place. A unit in no run came through no
/// carrier. Holders share the runs.
#[derive(Drop)]
pub struct Trails {
    runs: SharedList<TrailRun>,
}

impl Model for Trails {
    ghost use Rattle.std.specs.Prelude.{List};
    ghost use Rattle.ed_pieces.specs.declared.trails.TrailRun.{TrailRun};
    ghost use Rattle.ed_pieces.specs.Trails.{AreRising};

    ghost Value = { List TrailRun };

    ghost view = { λ t. t.runs };

    ghost invariant = { λ t. AreRising 0 t.runs };
}

impl Trails {
    /// The ways of units that all came through no carrier. It takes no memory.
    pub fn empty() -> Trails
        ensures { result ≡ [] }
    {
        Trails {
            runs: SharedList::empty(),
        }
    }

    /// These ways. Each run ends before the next begins, or where it does.
    ///
    /// # Errors
    ///
    /// Memory was refused.
    pub fn of(alloc: Global, runs: Vec<TrailRun>) -> Result<Trails, OutOfMemory>
        requires { AreRising 0 runs.items }
        ensures { IfOk result (λ t. t ≡ runs.items) }
    {
        let runs = SharedList::of(alloc, runs)?;
        Ok(Trails { runs })
    }

    /// The runs, by rising place.
    pub fn as_slice(&self) -> &[TrailRun]
        ensures runs { result.now ≡ self.now }
        ensures rising { AreRising 0 self.now }
    {
        self.runs.as_slice()
    }

    /// The way of the unit at a place, by a binary search; empty where the place is in no run.
    pub fn at(&self, place: u32) -> &[(BufferNo, u32)]
        ensures { result.now ≡ trail_in self.now place }
    {
        let runs = self.runs.as_slice();
        let begun = runs.partition_point(|run| run.span.start <= place);
        if begun == 0 {
            return &[];
        }
        let run = &runs[begun - 1];
        if place - run.span.start < run.span.len {
            return run.trail.as_slice();
        }
        &[]
    }

    /// A further holder of the same runs.
    ///
    /// # Errors
    ///
    /// A further holder was refused, which counts as want of memory.
    pub fn share(&self) -> Result<Trails, OutOfMemory>
        ensures { IfOk result (λ t. t ≡ self.now) }
    {
        let runs = self.runs.share()?;
        Ok(Trails { runs })
    }
}
