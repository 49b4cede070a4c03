//! What a projection of these members would stand on.
ghost use Rattle.std.specs.Prelude.{◌≡◌, ◌<◌, ◌++◌, ◌∷◌, List, [], All, length, map, count_by, IfOk, OnOk};
ghost use Rattle.ed_base.specs.declared.Member.{Member};
ghost use Rattle.ed_base.specs.Numbers.{is_among};
ghost use Rattle.ed_layers.specs.Records.{is_tracked};
ghost use Rattle.ed_stock.specs.Making.{sources_in};
ghost use Rattle.ed_held.specs.Moves.{snapshot_now};

use ed_base::{BufferNo, Member, OutOfMemory};
use ed_climb::{is_tracked, newest};
use ed_held::Held;
use ed_text::Text;
use ed_version::Snapshot;
use std::alloc::Global;

/// Whether the buffer is listed.
fn is_listed(sources: &[BufferNo], source: BufferNo) -> bool
    ensures { result ≡ is_among source sources.now }
{
    for listed in sources {
        if *listed == source {
            return true;
        }
    }
    false
}

/// Lists the source of a tracked member that isn't listed yet.
fn put_source(sources: &mut Vec<BufferNo>, member: &Member) -> Result<(), OutOfMemory>
    ensures { OnOk result ((rest : List Member) → sources.old.items ++ sources_in sources.old.items (member.now ∷ rest) ≡ sources.new.items ++ sources_in sources.new.items rest) }
{
    match member {
        Member::Literal(_) => Ok(()),
        Member::Tracked { source, .. } => {
            if !is_listed(sources, *source) {
                sources.push(*source)?;
            }
            Ok(())
        }
    }
}

/// The buffers of the tracked members, each once, as they come.
///
/// # Errors
///
/// Memory was refused.
pub fn sources_in(alloc: Global, members: &[Member]) -> Result<Vec<BufferNo>, OutOfMemory>
    ensures { IfOk result (λ v. v.items ≡ sources_in [] members.now) }
{
    let mut sources = Vec::new(alloc);
    for member in members {
        put_source(&mut sources, member)?;
    }
    Ok(sources)
}

/// The snapshots of these buffers at their current versions.
///
/// # Errors
///
/// Memory was refused.
pub fn newest_all(
    alloc: Global,
    buffers: &[Held],
    sources: &[BufferNo],
) -> Result<Vec<Snapshot>, OutOfMemory>
    requires { All (λ b. b < length buffers.now) sources.now }
    ensures { IfOk result (λ v. v.items ≡ map (snapshot_now buffers.now) sources.now) }
{
    let mut found = Vec::with_capacity(alloc, sources.len())?;
    for source in sources {
        found.push(newest(buffers, *source)?)?;
    }
    Ok(found)
}

/// The length of the text of each of these snapshots, in units.
///
/// # Errors
///
/// Memory was refused.
pub fn lengths(alloc: Global, snapshots: &[Snapshot]) -> Result<Vec<(BufferNo, u32)>, OutOfMemory>
    ensures { IfOk result (λ v. v.items ≡ map (λ s. (s.buffer, length s.text)) snapshots.now) }
{
    let mut found = Vec::with_capacity(alloc, snapshots.len())?;
    for snapshot in snapshots {
        found.push((snapshot.buffer, snapshot.text.len()))?;
    }
    Ok(found)
}

/// How many members follow sources.
pub fn tracked(members: &[Member]) -> u64
    ensures { result ≡ count_by is_tracked members.now }
{
    members.iter().filter(|member| is_tracked(member)).count() as u64
}
