//! Callers that make the hooks of each rule, and what these answer.
ghost use Rattle.ed_base.specs.declared.rule.QueryRule.{QueryRule};
ghost use Rattle.ed_callbacks.specs.Answering.{AnswersCustom, AnswersQuery};

use ed_base::{CustomRule, Edges, Name, QueryRule, VersionNo};
use ed_callbacks::{Ask, CustomTrack, Hooks, RegionQuery, Track};
use std::alloc::Global;
use std::test::*;

/// The name of these bytes, if they are one.
fn name_of(alloc: Global, text: &str) -> Result<Name, Fail> {
    if Name::is_valid(text) {
        return Ok(Name::of(alloc, text)?);
    }
    Err("not a name".into())
}

/// Keeps a query under a name. It is an error where another one has it.
pub fn keep_query(
    alloc: Global,
    hooks: &mut Hooks,
    name: &str,
    rule: QueryRule,
    ask: Ask,
) -> Result<(), Fail>
    requires { AnswersQuery (Ask.pre ask) (Ask.post ask) rule }
{
    let query = RegionQuery::new(name_of(alloc, name)?, rule, ask);
    if hooks.has_query(query.name.as_str()) {
        return Err("taken".into());
    }
    Ok(hooks.add_query(query)?)
}

/// Keeps a way of tracking under a name. It is an error where another one has it.
fn keep_custom(
    alloc: Global,
    hooks: &mut Hooks,
    name: &str,
    rule: CustomRule,
    track: Track,
) -> Result<(), Fail>
    requires { AnswersCustom (Track.pre track) (Track.post track) rule }
{
    let custom = CustomTrack::new(name_of(alloc, name)?, rule, track);
    if hooks.has_custom(custom.name.as_str()) {
        return Err("taken".into());
    }
    Ok(hooks.add_custom(custom)?)
}

/// Can be called only at what may be sent to another thread and be shared between threads.
fn crosses_threads<T: Send + Sync>(_value: &T) {}

#[test]
fn queries_answer_their_rule(rt: HostRuntime) -> Result<(), Fail> {
    let alloc = rt.alloc();
    let mut hooks = Hooks::new(alloc);
    let always: Ask = Box::new(alloc, |_version: VersionNo, _edit: bool| true)?;
    let edits: Ask = Box::new(alloc, |_version: VersionNo, edit: bool| edit)?;
    let even: Ask = Box::new(alloc, |version: VersionNo, _edit: bool| version.0 % 2 == 0)?;
    keep_query(alloc, &mut hooks, "always", QueryRule::Always, always)?;
    keep_query(alloc, &mut hooks, "edits", QueryRule::EditOnly, edits)?;
    keep_query(alloc, &mut hooks, "even", QueryRule::EvenVersion, even)?;
    for (version, edit, denied) in [
        (0, false, [Some(true), Some(false), Some(true), None]),
        (0, true, [Some(true), Some(true), Some(true), None]),
        (1, false, [Some(true), Some(false), Some(false), None]),
        (u32::MAX, true, [Some(true), Some(true), Some(false), None]),
    ] {
        let found = ["always", "edits", "even", "eve"].map(|name| {
            let query = hooks.query(name);
            query.map(|query| query.denies(VersionNo(version), edit))
        });
        assert_eq!(rt; found, denied, "{version}, {edit}");
    }
    assert!(rt; !hooks.has_custom("even"));
    crosses_threads(&hooks);
    Ok(())
}

/// Where the way of tracking of this name puts a span of these edges: its start and length.
fn place(hooks: &Hooks, name: &str, edges: [u32; 5]) -> Option<(u32, u32)> {
    let [len, start_neg, start_pos, end_neg, end_pos] = edges;
    let custom = hooks.custom(name)?;
    let span = custom.track(Edges {
        len,
        start_neg,
        start_pos,
        end_neg,
        end_pos,
    });
    Some((span.start, span.len))
}

#[test]
fn ways_of_tracking_answer_their_rule(rt: HostRuntime) -> Result<(), Fail> {
    let alloc = rt.alloc();
    let mut hooks = Hooks::new(alloc);
    let sticky: Track = Box::new(alloc, |edges: Edges| {
        if edges.len == 0 {
            (edges.start_pos, edges.start_pos)
        } else {
            (edges.start_neg, edges.end_pos)
        }
    })?;
    let caret: Track = Box::new(alloc, |edges: Edges| (edges.end_pos, edges.end_pos))?;
    keep_custom(alloc, &mut hooks, "caret", CustomRule::Caret, caret)?;
    keep_custom(alloc, &mut hooks, "sticky", CustomRule::Sticky, sticky)?;
    for (name, edges, placed) in [
        ("sticky", [0, 3, 5, 3, 5], Some((5, 0))),
        ("sticky", [4, 3, 5, 7, 9], Some((3, 6))),
        ("sticky", [2, 8, 9, 3, 4], Some((8, 0))),
        ("caret", [4, 3, 5, 7, 9], Some((9, 0))),
        ("Caret", [4, 3, 5, 7, 9], None),
    ] {
        assert_eq!(rt; place(&hooks, name, edges), placed, "{name}, {edges:?}");
    }
    assert!(rt; !hooks.has_query("caret"));
    Ok(())
}
