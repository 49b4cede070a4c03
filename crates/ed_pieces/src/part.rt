//! A component of what arrives at a buffer.
ghost use Rattle.std.specs.Prelude.{◌≡◌, ◌+◌};
ghost use Rattle.ed_layers.specs.Pieces.{component};
ghost use Rattle.ed_layers.specs.Sending.{trail_runs};
ghost use Rattle.ed_pieces.specs.Runs.{AreRuns, text_of};

use crate::run::Run;
use std::marker::Model;

/// What stands between two neighbouring kept units: units that are deleted, and runs of units that
/// are put in. Neighbouring runs came different ways.
#[derive(Drop)]
pub struct Part {
    start: u32,
    old_len: u32,
    runs: Vec<Run>,
}

impl Model for Part {
    ghost use Rattle.ed_layers.specs.Pieces.{Component, component};
    ghost use Rattle.ed_pieces.specs.Runs.{AreRuns, text_of};

    ghost Value = { Component };

    ghost view = { λ p. component p.start p.old_len (text_of p.runs.items) };

    ghost invariant = { λ p. AreRuns p.runs.items };
}

impl Part {
    /// The component of these runs.
    pub fn of(start: u32, old_len: u32, runs: Vec<Run>) -> Part
        requires { AreRuns runs.items }
        ensures { result ≡ component start old_len (text_of runs.items) }
    {
        Part {
            start,
            old_len,
            runs,
        }
    }

    /// Where it begins.
    pub fn start(&self) -> u32
        ensures { result ≡ self.now.start }
    {
        self.start
    }

    /// How many units it deletes.
    pub fn old_len(&self) -> u32
        ensures { result ≡ self.now.old_len }
    {
        self.old_len
    }

    /// What it puts in.
    pub fn runs(&self) -> &[Run]
        ensures text { text_of result.now ≡ self.now.text }
        ensures runs { AreRuns result.now }
    {
        self.runs.as_slice()
    }

    /// What it puts in, owned.
    pub fn into_runs(self) -> Vec<Run>
        ensures text { text_of result.items ≡ self.text }
        ensures runs { result.items ≡ trail_runs self.text }
    {
        self.runs
    }
}
