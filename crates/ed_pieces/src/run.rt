//! Units of one trail.
ghost use Rattle.std.specs.Prelude.{◌≡◌, ◌+◌, ◌<◌, ◌≤◌, ◌^◌, ◌++◌, ◌∷◌, List, length, IfOk, OnOk, ◌&&◌, nat_eq, slice_range};
ghost use Rattle.ed_layers.specs.Sending.{Run, is_same_way, trail_runs};
ghost use Rattle.ed_pieces.specs.Runs.{AreRuns, joined_run, put_run, text_of};

use ed_base::{BufferNo, OutOfMemory, Trail, Unit, Units};
use std::alloc::Global;
use std::marker::Model;

/// Units that came the same way.
#[derive(Drop)]
pub struct Run {
    trail: Trail,
    units: Units,
}

impl Model for Run {
    ghost use Rattle.ed_layers.specs.Sending.{Run as RunSeen};

    ghost Value = { RunSeen };

    ghost view = { λ r. record { trail = r.trail; units = r.units } };
}

/// Whether two pairs are the same.
fn is_same_pair(one: &(BufferNo, u32), other: &(BufferNo, u32)) -> bool
    ensures { result ≡ (nat_eq one.now.0 other.now.0 && nat_eq one.now.1 other.now.1) }
{
    let (carrier, member) = one;
    let (other_carrier, other_member) = other;
    carrier.0 == other_carrier.0 && *member == *other_member
}

/// Whether two ways are the same.
pub fn is_same_way(one: &[(BufferNo, u32)], other: &[(BufferNo, u32)]) -> bool
    ensures { result ≡ is_same_way one.now other.now }
{
    match (one.split_first(), other.split_first()) {
        (None, None) => true,
        (Some((pair, rest)), Some((other_pair, other_rest))) => {
            is_same_pair(pair, other_pair) && is_same_way(rest, other_rest)
        }
        _ => false,
    }
}

impl Run {
    /// These units, which came this way.
    pub fn of(trail: Trail, units: Units) -> Run
        ensures { result ≡ record { trail = trail; units = units } }
    {
        Run { trail, units }
    }

    /// The way.
    pub fn trail(&self) -> &Trail
        ensures { result.now ≡ self.now.trail }
    {
        &self.trail
    }

    /// The units.
    pub fn as_slice(&self) -> &[Unit]
        ensures { result.now ≡ self.now.units }
    {
        self.units.as_slice()
    }

    /// The units, owned.
    pub fn into_units(self) -> Units
        ensures { result ≡ self.units }
    {
        self.units
    }

    /// The way and the units, owned.
    pub fn into_parts(self) -> (Trail, Units)
        ensures trail { result.0 ≡ self.trail }
        ensures units { result.1 ≡ self.units }
    {
        let Run { trail, units } = self;
        (trail, units)
    }

    /// Puts units of the same way at the end.
    fn extend(&mut self, units: &[Unit]) -> Result<(), OutOfMemory>
        ensures { OnOk result (self.new ≡ joined_run self.old units.now) }
    {
        self.units.extend(units)?;
        Ok(())
    }

    /// A part of the units, by places.
    fn part(&self, alloc: Global, from: usize, to: usize) -> Result<Run, OutOfMemory>
        requires order { from ≤ to }
        requires within { to ≤ length self.now.units }
        ensures { IfOk result (λ r. r ≡ record { trail = self.now.trail; units = slice_range self.now.units from to }) }
    {
        let mut units = Units::new(alloc);
        units.extend(&self.units.as_slice()[from..to])?;
        let trail = self.trail.share()?;
        Ok(Run { trail, units })
    }
}

/// Puts units that came this way behind the runs: into the last one where that came the same way.
pub fn put_run(
    alloc: Global,
    runs: &mut Vec<Run>,
    trail: &Trail,
    units: &[Unit],
) -> Result<(), OutOfMemory>
    ensures { OnOk result (runs.new.items ≡ put_run runs.old.items trail.now units.now) }
{
    if units.is_empty() {
        return Ok(());
    }
    if let Some(last) = runs.last_mut() {
        if is_same_way(last.trail.as_slice(), trail.as_slice()) {
            return last.extend(units);
        }
    }
    let mut put_in = Units::new(alloc);
    put_in.extend(units)?;
    runs.push(Run::of(trail.share()?, put_in))?;
    Ok(())
}

/// The runs of the units between two places.
pub fn cut_runs(
    alloc: Global,
    runs: &[Run],
    from: usize,
    to: usize,
) -> Result<Vec<Run>, OutOfMemory>
    requires { AreRuns runs.now }
    ensures { IfOk result (λ v. v.items ≡ trail_runs (slice_range (text_of runs.now) from to)) }
{
    let mut share = Vec::new(alloc);
    let mut start = from;
    let mut end = to;
    for run in runs {
        let len = run.as_slice().len();
        let last = end.min(len);
        if start < last {
            share.push(run.part(alloc, start, last)?)?;
        }
        start = start.saturating_sub(len);
        end = end.saturating_sub(len);
    }
    Ok(share)
}
