//! Where a gap of a text goes across a step.
ghost use Rattle.std.specs.Prelude.{◌≡◌, ℕ, ◌+◌, ◌<◌, ◌≤◌, ◌^◌, length, slice_get, slice_index};
ghost use Rattle.ed_base.specs.ChangeList.{IsNormal};
ghost use Rattle.ed_base.specs.Tracking.{positive_edge, negative_edge, tracked_point};
ghost use Rattle.ed_track.specs.Ways.{way_step, from_len, to_len, starts, parts};

use ed_base::{Changes, PointMode};

/// Which way a step is gone.
#[derive(Clone, Copy)]
pub enum Way {
    Forward,
    Back,
}

/// A change on the way: where it stands in the text that is left, and where in the text that is
/// reached, in units.
#[derive(Clone, Copy)]
pub struct Part {
    pub from: u32,
    pub from_len: u32,
    pub to: u32,
    pub to_len: u32,
}

/// Where the change with this index begins in the text that is left.
fn start(changes: &Changes, way: Way, i: u32) -> u32
    requires { i < length changes.now.changes }
    ensures { result ≡ slice_index (starts way changes.now) i }
{
    match way {
        Way::Forward => changes.get(i).start,
        Way::Back => changes.new_start(i),
    }
}

/// The change with this index, on the way.
fn part_at(changes: &Changes, way: Way, i: u32) -> Part
    requires index { i < length changes.now.changes }
    requires normal { IsNormal changes.now }
    ensures { slice_get (parts way changes.now) i ≡ Some result }
{
    let change = changes.get(i);
    let new_start = changes.new_start(i);
    let text_len = change.text.as_slice().len() as u32;
    match way {
        Way::Forward => Part {
            from: change.start,
            from_len: change.old_len,
            to: new_start,
            to_len: text_len,
        },
        Way::Back => Part {
            from: new_start,
            from_len: text_len,
            to: change.start,
            to_len: change.old_len,
        },
    }
}

/// How many changes begin before the limit in the text that is left.
fn count_before(changes: &Changes, way: Way, limit: u64) -> u32
    ensures bound { result ≤ length changes.now.changes }
    ensures before { (k : ℕ) → k < result → slice_index (starts way changes.now) k < limit }
    ensures after { (k : ℕ) → result ≤ k → k < length changes.now.changes → limit ≤ slice_index (starts way changes.now) k }
    ensures normal { IsNormal changes.now }
    ensures short { changes.now.old_len < 2 ^ 32 }
{
    let mut low = 0;
    let mut high = changes.as_slice().len() as u32;
    while low < high {
        let middle = low + (high - low) / 2;
        if u64::from(start(changes, way, middle)) < limit {
            low = middle + 1;
        } else {
            high = middle;
        }
    }
    low
}

/// Where a gap goes that stays behind what is put in at it.
fn positive(changes: &Changes, way: Way, p: u32) -> u32
    requires { p ≤ from_len way changes.now }
    ensures edge { result ≡ positive_edge (way_step way changes.now) p }
    ensures within { result ≤ to_len way changes.now }
    ensures fits { from_len way changes.now < 2 ^ 32 }
{
    let before = count_before(changes, way, u64::from(p) + 1);
    if before == 0 {
        return p;
    }
    let last = part_at(changes, way, before - 1);
    last.to + last.to_len + p.saturating_sub(last.from + last.from_len)
}

/// Where a gap goes that stays before what is put in at it.
fn negative(changes: &Changes, way: Way, p: u32) -> u32
    requires { p ≤ from_len way changes.now }
    ensures edge { result ≡ negative_edge (way_step way changes.now) p }
    ensures within { result ≤ to_len way changes.now }
    ensures fits { from_len way changes.now < 2 ^ 32 }
{
    let before = count_before(changes, way, u64::from(p));
    if before == 0 {
        return p;
    }
    let last = part_at(changes, way, before - 1);
    let end = last.from + last.from_len;
    if p <= end {
        last.to
    } else {
        last.to + last.to_len + (p - end)
    }
}

/// Where a point goes on the way.
pub fn tracked(changes: &Changes, way: Way, mode: PointMode, p: u32) -> u32
    requires { p ≤ from_len way changes.now }
    ensures edge { result ≡ tracked_point mode p (way_step way changes.now) }
    ensures within { result ≤ to_len way changes.now }
    ensures fits { from_len way changes.now < 2 ^ 32 }
{
    match mode {
        PointMode::Positive => positive(changes, way, p),
        PointMode::Negative => negative(changes, way, p),
    }
}
