//! A base of the greatest length, which no script makes. Its other steps are shown by sessions.
ghost use Rattle.std.specs.Prelude.{◌≡◌, ◌≤◌, ◌^◌, length};
ghost use Rattle.ed_version.specs.Chain.{text_now};

use ed_base::{BufferNo, EdgeMode, RegionNo, Span, SpanMode, VersionNo};
use ed_buffer::{Base, BaseFault, Piece, Side, Trail};
use ed_callbacks::Hooks;
use ed_text::Text;
use ed_units::to_units;
use std::alloc::Global;
use std::test::*;

fn len(base: &Base) -> u32
    ensures value { result ≡ length (text_now base.now.chain.versions) }
    ensures most { result ≤ 2 ^ 22 }
{
    base.chain().text_at(base.chain().now()).len()
}

/// Plans one replace and makes it: the new version, or why there is none.
fn edited(
    alloc: Global,
    base: &mut Base,
    start: u32,
    deleted: u32,
    text: &str,
) -> Result<Result<VersionNo, BaseFault>, Fail> {
    let text = to_units(alloc, text)?;
    let most = len(base);
    if start > most || deleted > most - start || base.chain().is_full() {
        return Err("outside".into());
    }
    if text.as_slice().len() > 1000 {
        return Err("too long".into());
    }
    let pieces = [Piece {
        start,
        len: deleted,
        text,
        trail: Trail::empty(),
        side: Side::M,
    }];
    match base.plan(alloc, &Hooks::new(alloc), &pieces, None) {
        Ok(step) => {
            let snapshot = step.snapshot()?;
            let version = base.commit(step);
            if snapshot.version != version || snapshot.text.len() != len(base) {
                return Err("not what was planned".into());
            }
            Ok(Ok(version))
        }
        Err(fault) => Ok(Err(fault)),
    }
}

/// Makes a region that denies at its edges too.
fn guarded(base: &mut Base, span: Span) -> Result<RegionNo, Fail> {
    let most = len(base);
    if span.start > most || span.len > most - span.start {
        return Err("outside".into());
    }
    let mode = SpanMode::EdgeExclusive;
    Ok(base.add_region(span, mode, EdgeMode::Deny, None)?)
}

#[test]
fn a_text_is_filled_and_not_more(rt: HostRuntime) -> Result<(), Fail> {
    let alloc = rt.alloc();
    let units = vec![in alloc; 7; 4_194_303]?;
    let mut base = Base::new(alloc, BufferNo(3), &units)?;
    let too_long = Err(BaseFault::Units { count: 4_194_305 });
    let region = guarded(&mut base, Span { start: 9, len: 1 })?;
    for (start, deleted, text, answer) in [
        (5, 0, "ab", too_long),
        (4_194_303, 0, "a", Ok(VersionNo(1))),
        (0, 0, "a", too_long),
        (0, 1, "a", Ok(VersionNo(2))),
        (9, 0, "a", Err(BaseFault::ReadOnly { region })),
    ] {
        let found = edited(alloc, &mut base, start, deleted, text)?;
        assert_eq!(rt; found, answer, "{start}, {text}");
    }
    assert!(rt; base.remove_region(region) && !base.remove_region(region));
    assert_eq!(rt; len(&base), 4_194_304);
    Ok(())
}
