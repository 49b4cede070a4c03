//! Where points go.
ghost use Rattle.std.specs.Prelude.{◌≡◌, ◌≤◌};
ghost use Rattle.ed_base.specs.ChangeList.{new_len, step};
ghost use Rattle.ed_base.specs.Step.{inverse_step};
ghost use Rattle.ed_base.specs.Tracking.{tracked_point};

use crate::edge::{Way, tracked};
use ed_base::{Changes, PointMode};

/// Where a point of the old text goes in the new one. Places are in units.
pub fn point(mode: PointMode, p: u32, changes: &Changes) -> u32
    requires { p ≤ changes.now.old_len }
    ensures tracked { result ≡ tracked_point mode p (step changes.now) }
    ensures within { result ≤ new_len changes.now }
{
    tracked(changes, Way::Forward, mode, p)
}

/// Where a point of the new text goes in the old one. Places are in units.
pub fn back_point(mode: PointMode, p: u32, changes: &Changes) -> u32
    requires { p ≤ new_len changes.now }
    ensures tracked { result ≡ tracked_point mode p (inverse_step (step changes.now)) }
    ensures within { result ≤ changes.now.old_len }
{
    tracked(changes, Way::Back, mode, p)
}
