//! What arrives at a text that takes it: the changes, and the ways of what they put in.
ghost use Rattle.std.specs.Prelude.{◌≡◌, ℕ, ◌+◌, ◌-◌, ◌<◌, ◌≤◌, ◌^◌, ◌++◌, List, length, map, sum_by, IfOk, OnOk};
ghost use Rattle.ed_base.specs.ChangeList.{applied, change_list, step};
ghost use Rattle.ed_layers.specs.Pieces.{marked_text, step_of_pieces};
ghost use Rattle.ed_pieces.specs.Arrivals.{AllWithin};
ghost use Rattle.ed_pieces.specs.Runs.{text_of};
ghost use Rattle.ed_pieces.specs.Trails.{trails_in};
ghost use Rattle.ed_pieces.specs.Ways.{change_of, way_if, ways_from, ways_of};

use crate::arrived::Arrived;
use crate::run::Run;
use crate::trails::{TrailRun, Trails};
use ed_base::{Change, Changes, OutOfMemory, Piece, Span, Trail, Units};
use std::alloc::Global;

/// What pieces do to a text that takes them: what leads to the new text, and the ways by which the
/// units that it puts in came.
#[derive(Drop)]
pub struct Landing {
    pub changes: Changes,
    pub trails: Trails,
}

/// Notes the way of `len` units from `start` on, if they came through a carrier.
fn put_way(ways: &mut Vec<TrailRun>, start: u32, len: u32, trail: Trail) -> Result<(), OutOfMemory>
    ensures { OnOk result (ways.new.items ≡ ways.old.items ++ way_if start len trail) }
{
    if trail.as_slice().is_empty() {
        return Ok(());
    }
    let span = Span { start, len };
    ways.push(TrailRun { span, trail })?;
    Ok(())
}

/// The text with more units behind it. Where it is empty none is copied.
fn joined(text: Units, more: Units) -> Result<Units, OutOfMemory>
    ensures { IfOk result (λ t. t ≡ text ++ more) }
{
    if text.as_slice().is_empty() {
        return Ok(more);
    }
    let mut whole = text;
    whole.extend(more.as_slice())?;
    Ok(whole)
}

/// The units of the runs, one run behind the other. The first stands at `at`, and the ways go
/// behind those that were noted.
fn put_in(
    alloc: Global,
    runs: Vec<Run>,
    at: u32,
    ways: &mut Vec<TrailRun>,
) -> Result<Units, OutOfMemory>
    requires { at + length (text_of runs.items) < 2 ^ 32 }
    ensures text { IfOk result (λ t. t ≡ map (λ u. u.0) (text_of runs.items)) }
    ensures ways { OnOk result (ways.new.items ≡ ways.old.items ++ ways_of at runs.items) }
{
    let mut text = Units::new(alloc);
    let mut start = at;
    for run in runs {
        let (trail, units) = run.into_parts();
        let len = units.as_slice().len() as u32;
        put_way(ways, start, len, trail)?;
        start += len;
        text = joined(text, units)?;
    }
    Ok(text)
}

impl Arrived {
    /// The components as changes, and the ways of what they put in. Units of a component that came
    /// one way are moved and not copied.
    fn landed(self, alloc: Global) -> Result<Landing, OutOfMemory>
        ensures changes { IfOk result (λ l. l.changes ≡ record { old_len = self.old_len; changes = map change_of self.components }) }
        ensures trails { IfOk result (λ l. l.trails ≡ ways_from 0 0 self.components) }
    {
        let (len, parts) = self.into_parts();
        let mut changes = Vec::new(alloc);
        let mut ways = Vec::new(alloc);
        let mut old_end = 0u32;
        let mut new_end = 0u32;
        for part in parts {
            let start = part.start();
            let old_len = part.old_len();
            let at = new_end + (start - old_end);
            let text = put_in(alloc, part.into_runs(), at, &mut ways)?;
            old_end = start + old_len;
            new_end = at + text.as_slice().len() as u32;
            changes.push(Change {
                start,
                old_len,
                text,
            })?;
        }
        Ok(Landing {
            changes: Changes::of(alloc, len, changes)?,
            trails: Trails::of(alloc, ways)?,
        })
    }
}

/// What these pieces make of a text of `len` units, brought together at each gap in their order: the
/// change list, in normal form, and the ways. It never looks at the text.
///
/// # Errors
///
/// Memory was refused.
pub fn land(alloc: Global, len: u32, pieces: &[Piece]) -> Result<Landing, OutOfMemory>
    requires len { len ≤ 2 ^ 22 }
    requires within { AllWithin len pieces.now }
    requires put_in { sum_by (λ p. length p.text) pieces.now ≤ 2 ^ 27 }
    ensures changes { IfOk result (λ l. (text : List ℕ) → length text ≡ len → l.changes ≡ change_list (step_of_pieces pieces.now (length text)) (map (λ u. u.0) (marked_text pieces.now text))) }
    ensures step { IfOk result (λ l. step l.changes ≡ step_of_pieces pieces.now len) }
    ensures text { IfOk result (λ l. (text : List ℕ) → length text ≡ len → applied l.changes text ≡ map (λ u. u.0) (marked_text pieces.now text)) }
    ensures trails { IfOk result (λ l. (text : List ℕ) → length text ≡ len → trails_in l.trails (length (map (λ u. u.0) (marked_text pieces.now text))) ≡ map (λ u. u.1) (marked_text pieces.now text)) }
{
    let arrived = Arrived::of(alloc, len, pieces)?;
    let landing = arrived.landed(alloc)?;
    Ok(landing)
}
