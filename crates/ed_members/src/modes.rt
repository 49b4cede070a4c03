//! Inclusive members and the sources that they are to cover.
ghost use Rattle.std.specs.Prelude.{◌≡◌, ◌<◌, ◌^◌, length, unwrap_or, option_map, find, Some};
ghost use Rattle.std.specs.List.{enumerate_from};
ghost use Rattle.ed_layers.specs.Order.{fails_to_cover};
ghost use Rattle.ed_members.specs.Faults.{len_in, first_uncovered};

use ed_base::{BufferNo, Member, SpanMode};

/// The length of the source, 0 where it isn't listed.
fn source_len(lengths: &[(BufferNo, u32)], source: BufferNo) -> u32
    ensures { result ≡ len_in lengths.now source }
{
    for pair in lengths {
        if pair.0 == source {
            return pair.1;
        }
    }
    0
}

/// Whether the member is to cover its source and doesn't.
fn is_uncovering(lengths: &[(BufferNo, u32)], member: &Member) -> bool
    ensures { result ≡ fails_to_cover (len_in lengths.now) member.now }
{
    match member {
        Member::Tracked {
            source,
            bounds,
            mode: SpanMode::EdgeInclusive,
        } => !(bounds.start == 0 && bounds.len == source_len(lengths, *source)),
        _ => false,
    }
}

/// The index of the first member that is to cover its source and doesn't.
pub fn uncovered(lengths: &[(BufferNo, u32)], members: &[Member]) -> Option<u32>
    requires { length members.now < 2 ^ 32 }
    ensures { result ≡ first_uncovered (len_in lengths.now) members.now }
{
    for index in 0..members.len() as u32 {
        let member = &members[index as usize];
        if is_uncovering(lengths, member) {
            return Some(index);
        }
    }
    None
}
