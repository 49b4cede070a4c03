//! How a group that was planned is made.
ghost use Rattle.std.specs.Prelude.{◌≡◌, ◌≢◌, ℕ, List, length, map, fold, slice_get, Option, MatchOption};
ghost use Rattle.std.specs.Option.{option_map_or};
ghost use Rattle.std.specs.List.{AllByRecursion as Each};
ghost use Rattle.ed_climb.specs.Group.{IsPlanned, MayTurn, known_after, known_made, known_moved, set_known};
ghost use Rattle.ed_held.specs.Making.{CanTurn, known_grown, known_turned};
ghost use Rattle.ed_held.specs.Moves.{AreApart, CanMake, IsPlannedAt};
ghost use Rattle.ed_held.specs.Seen.{known};

use crate::counts::Counts;
use crate::group::Group;
use ed_base::{BufferNo, VersionList};
use ed_graph::Graph;
use ed_held::{Held, Move};

/// Makes a version that was planned.
fn make(buffers: &mut [Held], next: Move)
    requires { IsPlannedAt buffers.old next }
    ensures len { length buffers.new ≡ length buffers.old }
    ensures known { map known buffers.new ≡ known_moved (map known buffers.old) next }
    ensures others { (b : ℕ) → next.buffer ≢ b → slice_get buffers.new b ≡ slice_get buffers.old b }
    ensures turning { (b : ℕ) → MayTurn buffers.old b → MayTurn buffers.new b }
{
    let held = &mut buffers[next.buffer.0 as usize];
    held.commit(next);
}

/// Makes versions that were planned, of buffers apart.
fn make_all(buffers: &mut [Held], moves: Vec<Move>)
    requires made { Each (IsPlannedAt buffers.old) moves.items }
    requires apart { AreApart moves.items }
    ensures len { length buffers.new ≡ length buffers.old }
    ensures known { map known buffers.new ≡ fold known_moved (map known buffers.old) moves.items }
    ensures turning { (b : ℕ) → MayTurn buffers.old b → MayTurn buffers.new b }
{
    for next in moves {
        make(buffers, next);
    }
}

/// One turn more of the buffer that was turned, if one was.
fn turn(buffers: &mut [Held], turned: Option<BufferNo>)
    requires { MatchOption turned (Unit {0}) (MayTurn buffers.old) }
    ensures len { length buffers.new ≡ length buffers.old }
    ensures known { map known buffers.new ≡ option_map_or (λ b. set_known known_turned b (map known buffers.old)) turned (map known buffers.old) }
{
    if let Some(buffer) = turned {
        let held = &mut buffers[buffer.0 as usize];
        held.turn();
    }
}

/// Makes versions that were planned, and then one turn more where one was planned.
fn carry_out(buffers: &mut [Held], moves: Vec<Move>, turned: Option<BufferNo>)
    requires made { Each (IsPlannedAt buffers.old) moves.items }
    requires apart { AreApart moves.items }
    requires turning { MatchOption turned (Unit {0}) (MayTurn buffers.old) }
    ensures len { length buffers.new ≡ length buffers.old }
    ensures known { map known buffers.new ≡ known_made (map known buffers.old) moves.items turned }
{
    make_all(buffers, moves);
    turn(buffers, turned);
}

impl Group {
    /// Makes a group that was planned of these buffers as they are, and gives what is kept beside them
    /// then and the versions as they are told. It takes no memory.
    pub fn make(self, buffers: &mut [Held]) -> (Graph, Counts, VersionList)
        requires { IsPlanned buffers.old self }
        ensures len { length buffers.new ≡ length buffers.old }
        ensures known { map known buffers.new ≡ known_after (map known buffers.old) self }
        ensures graph { result.0 ≡ self.graph }
        ensures counts { result.1 ≡ self.counts }
        ensures versions { result.2 ≡ self.versions }
    {
        let Group {
            moves,
            turned,
            graph,
            counts,
            versions,
        } = self;
        carry_out(buffers, moves, turned);
        (graph, counts, versions)
    }
}
