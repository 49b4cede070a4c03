//! Reading the fields of a command from a JSON object.
ghost use Rattle.std.specs.Prelude.{◌≡◌, IfOk, map, option_map, option_and_then, string_bytes};
ghost use Rattle.std.specs.List.{list_all, list_any};
ghost use Rattle.std.specs.BTreeMap.{keys as keys_of};
ghost use Rattle.std.specs.Str.{bytes_eq};
ghost use Rattle.serde_json.specs.View.{view, members_view, items_view};
ghost use Rattle.serde_json.specs.Find.{get, as_str, as_array};
ghost use Rattle.ed_script.specs.Fields as spec;
ghost use Rattle.ed_base.specs.declared.SpanMode.{SpanMode};

use ed_base::{
    EdgeMode, Name, OutOfMemory, PairList, PointMode, Replace, ReplaceList, ScriptSpan,
    ScriptSpanList, SharedList, Span, SpanHow, SpanMode, Units, VersionNo,
};
use ed_units::to_units;
use serde_json::{Map, Value};
use std::alloc::Global;

fn is_listed(key: &str, keys: &[&str]) -> bool
    ensures { result ≡ list_any (λ k. bytes_eq key.now k.now) keys.now }
{
    keys.iter().any(|other| key == *other)
}

fn are_listed(members: &Map<String, Value>, keys: &[&str]) -> bool
    ensures { result ≡ list_all (λ k. list_any (λ other. bytes_eq (string_bytes k) other.now) keys.now) (keys_of members.now) }
{
    members.keys().all(|key| is_listed(key.as_str(), keys))
}

/// Whether the value is an object with these keys alone.
pub fn has_only(value: &Value, keys: &[&str]) -> bool
    ensures { result ≡ spec.has_only (map (λ k. k.now) keys.now) (view value.now) }
{
    match value.as_object() {
        None => false,
        Some(members) => are_listed(members, keys),
    }
}

/// The string under a key.
pub fn text_at<'v>(value: &'v Value, key: &str) -> Option<&'v str>
    ensures { option_map (λ s. s.now) result ≡ option_and_then as_str (get key.now (view value.now)) }
{
    value.get(key).and_then(Value::as_str)
}

/// The elements of the array under a key.
pub fn array_at<'v>(value: &'v Value, key: &str) -> Option<&'v [Value]>
    ensures { option_map (λ s. items_view s.now) result ≡ option_and_then as_array (get key.now (view value.now)) }
{
    match value.get(key) {
        None => None,
        Some(found) => match found.as_array() {
            None => None,
            Some(items) => Some(items.as_slice()),
        },
    }
}

fn name(alloc: Global, value: &Value) -> Result<Option<Name>, OutOfMemory>
    ensures { IfOk result (λ o. o ≡ spec.name (view value.now)) }
{
    let Some(text) = value.as_str() else {
        return Ok(None);
    };
    if !Name::is_valid(text) {
        return Ok(None);
    }
    Ok(Some(Name::of(alloc, text)?))
}

/// The name under a key.
///
/// # Errors
///
/// Memory was refused.
pub fn name_at(alloc: Global, value: &Value, key: &str) -> Result<Option<Name>, OutOfMemory>
    ensures { IfOk result (λ o. o ≡ spec.required key.now spec.name (view value.now)) }
{
    match value.get(key) {
        None => Ok(None),
        Some(found) => name(alloc, found),
    }
}

/// The name under a key that may be absent.
///
/// # Errors
///
/// Memory was refused.
pub fn name_if_there(
    alloc: Global,
    value: &Value,
    key: &str,
) -> Result<Option<Option<Name>>, OutOfMemory>
    ensures { IfOk result (λ o. o ≡ spec.optional key.now spec.name (view value.now)) }
{
    let Some(found) = value.get(key) else {
        return Ok(Some(None));
    };
    match name(alloc, found)? {
        None => Ok(None),
        Some(name) => Ok(Some(Some(name))),
    }
}

/// A number below 2^32.
pub fn whole(value: &Value) -> Option<u32>
    ensures { result ≡ spec.whole (view value.now) }
{
    match value.as_u64() {
        None => None,
        Some(number) => u32::try_from(number).ok(),
    }
}

/// The number under a key.
pub fn whole_at(value: &Value, key: &str) -> Option<u32>
    ensures { result ≡ spec.required key.now spec.whole (view value.now) }
{
    match value.get(key) {
        None => None,
        Some(found) => whole(found),
    }
}

/// The version under a key that may be absent.
pub fn version_at(value: &Value, key: &str) -> Option<Option<VersionNo>>
    ensures { result ≡ spec.optional key.now spec.whole (view value.now) }
{
    match value.get(key) {
        None => Some(None),
        Some(found) => match whole(found) {
            None => None,
            Some(number) => Some(Some(VersionNo(number))),
        },
    }
}

fn point_mode(word: &str) -> Option<PointMode>
    ensures { result ≡ spec.point_mode_of word.now }
{
    match word {
        "positive" => Some(PointMode::Positive),
        "negative" => Some(PointMode::Negative),
        _ => None,
    }
}

/// The tracking mode of a point under a key.
pub fn point_mode_at(value: &Value, key: &str) -> Option<PointMode>
    ensures { result ≡ spec.required key.now spec.point_mode (view value.now) }
{
    match text_at(value, key) {
        None => None,
        Some(word) => point_mode(word),
    }
}

fn span_mode(word: &str) -> Option<SpanMode>
    ensures { result ≡ spec.span_mode_of word.now }
{
    match word {
        "exclusive" => Some(SpanMode::EdgeExclusive),
        "inclusive" => Some(SpanMode::EdgeInclusive),
        "positive" => Some(SpanMode::EdgePositive),
        "negative" => Some(SpanMode::EdgeNegative),
        _ => None,
    }
}

fn span_mode_of(value: &Value) -> Option<SpanMode>
    ensures { result ≡ spec.span_mode (view value.now) }
{
    match value.as_str() {
        None => None,
        Some(word) => span_mode(word),
    }
}

/// The tracking mode of a span under a key that may be absent.
pub fn span_mode_at(value: &Value, key: &str) -> Option<Option<SpanMode>>
    ensures { result ≡ spec.optional key.now spec.span_mode (view value.now) }
{
    match value.get(key) {
        None => Some(None),
        Some(found) => match span_mode_of(found) {
            None => None,
            Some(mode) => Some(Some(mode)),
        },
    }
}

/// The tracking mode of a span under a key, and where it is absent one that takes nothing in at its
/// edges.
pub fn span_mode_or_exclusive(value: &Value, key: &str) -> Option<SpanMode>
    ensures { result ≡ spec.defaulted SpanMode.EdgeExclusive key.now spec.span_mode (view value.now) }
{
    match span_mode_at(value, key) {
        None => None,
        Some(None) => Some(SpanMode::EdgeExclusive),
        Some(Some(mode)) => Some(mode),
    }
}

fn member_mode(word: &str) -> Option<SpanMode>
    ensures { result ≡ spec.member_mode_of word.now }
{
    match word {
        "exclusive" => Some(SpanMode::EdgeExclusive),
        "inclusive" => Some(SpanMode::EdgeInclusive),
        _ => None,
    }
}

fn member_mode_of(value: &Value) -> Option<SpanMode>
    ensures { result ≡ spec.member_mode (view value.now) }
{
    match value.as_str() {
        None => None,
        Some(word) => member_mode(word),
    }
}

/// The mode of a member under a key, and where it is absent the one that doesn't cover its source.
fn member_mode_or_exclusive(value: &Value, key: &str) -> Option<SpanMode>
    ensures { result ≡ spec.defaulted SpanMode.EdgeExclusive key.now spec.member_mode (view value.now) }
{
    match value.get(key) {
        None => Some(SpanMode::EdgeExclusive),
        Some(found) => member_mode_of(found),
    }
}

fn edge_mode(word: &str) -> Option<EdgeMode>
    ensures { result ≡ spec.edge_mode_of word.now }
{
    match word {
        "allow" => Some(EdgeMode::Allow),
        "deny" => Some(EdgeMode::Deny),
        _ => None,
    }
}

/// What a read-only region lets be put in at its edges, under a key.
pub fn edge_mode_at(value: &Value, key: &str) -> Option<EdgeMode>
    ensures { result ≡ spec.required key.now spec.edge_mode (view value.now) }
{
    match text_at(value, key) {
        None => None,
        Some(word) => edge_mode(word),
    }
}

/// How a span is tracked: by a mode or by a hook, and not by both.
pub fn span_how(mode: Option<SpanMode>, hook: Option<Name>) -> Option<SpanHow>
    ensures { result ≡ spec.one_way mode hook }
{
    match (mode, hook) {
        (Some(mode), None) => Some(SpanHow::Mode(mode)),
        (None, Some(hook)) => Some(SpanHow::Custom(hook)),
        _ => None,
    }
}

/// A string, as UTF-16 units.
///
/// # Errors
///
/// Memory was refused.
pub fn text(alloc: Global, value: &Value) -> Result<Option<Units>, OutOfMemory>
    ensures { IfOk result (λ o. o ≡ spec.text (view value.now)) }
{
    match value.as_str() {
        None => Ok(None),
        Some(characters) => Ok(Some(to_units(alloc, characters)?)),
    }
}

/// The text under a key.
///
/// # Errors
///
/// Memory was refused.
pub fn units_at(alloc: Global, value: &Value, key: &str) -> Result<Option<Units>, OutOfMemory>
    ensures { IfOk result (λ o. o ≡ spec.required key.now spec.text (view value.now)) }
{
    match value.get(key) {
        None => Ok(None),
        Some(found) => text(alloc, found),
    }
}

fn pair_of(start: &Value, len: &Value) -> Option<Span>
    ensures { result ≡ spec.two_fields (view start.now) (view len.now) }
{
    match (whole(start), whole(len)) {
        (Some(start), Some(len)) => Some(Span { start, len }),
        _ => None,
    }
}

/// A span: an array of its start and its length.
#[tactic(auto, unfolding(crate::specs::Fields::pair))]
fn pair(value: &Value) -> Option<Span>
    ensures { result ≡ spec.pair (view value.now) }
{
    let Some(items) = value.as_array() else {
        return None;
    };
    match items.as_slice() {
        [start, len] => pair_of(start, len),
        _ => None,
    }
}

fn each_pair(alloc: Global, items: &[Value]) -> Result<Option<Vec<Span>>, OutOfMemory>
    ensures { IfOk result (λ o. option_map (λ v. v.items) o ≡ spec.each_item spec.pair (items_view items.now)) }
{
    let mut pairs = Vec::new(alloc);
    for item in items {
        match pair(item) {
            None => return Ok(None),
            Some(found) => pairs.push(found)?,
        }
    }
    Ok(Some(pairs))
}

/// The spans under a key, each an array of its start and its length.
///
/// # Errors
///
/// Memory was refused.
pub fn pairs_at(alloc: Global, value: &Value, key: &str) -> Result<Option<PairList>, OutOfMemory>
    ensures { IfOk result (λ o. o ≡ spec.required key.now (spec.list_of spec.pair) (view value.now)) }
{
    let Some(items) = array_at(value, key) else {
        return Ok(None);
    };
    match each_pair(alloc, items)? {
        None => Ok(None),
        Some(pairs) => Ok(Some(SharedList::of(alloc, pairs)?)),
    }
}

fn replace_of(
    alloc: Global,
    start: &Value,
    len: &Value,
    put_in: &Value,
) -> Result<Option<Replace>, OutOfMemory>
    ensures { IfOk result (λ o. o ≡ spec.three_fields (view start.now) (view len.now) (view put_in.now)) }
{
    let (Some(start), Some(len)) = (whole(start), whole(len)) else {
        return Ok(None);
    };
    let Some(text) = text(alloc, put_in)? else {
        return Ok(None);
    };
    Ok(Some(Replace { start, len, text }))
}

/// A replace: an array of its start, its length and its text.
///
/// # Errors
///
/// Memory was refused.
#[tactic(auto, unfolding(crate::specs::Fields::replace))]
fn replace(alloc: Global, value: &Value) -> Result<Option<Replace>, OutOfMemory>
    ensures { IfOk result (λ o. o ≡ spec.replace (view value.now)) }
{
    let Some(items) = value.as_array() else {
        return Ok(None);
    };
    if items.len() != 3 {
        return Ok(None);
    }
    replace_of(alloc, &items[0], &items[1], &items[2])
}

fn each_replace(alloc: Global, items: &[Value]) -> Result<Option<Vec<Replace>>, OutOfMemory>
    ensures { IfOk result (λ o. option_map (λ v. v.items) o ≡ spec.each_item spec.replace (items_view items.now)) }
{
    let mut replaces = Vec::new(alloc);
    for item in items {
        match replace(alloc, item)? {
            None => return Ok(None),
            Some(found) => replaces.push(found)?,
        }
    }
    Ok(Some(replaces))
}

/// The replaces under a key.
///
/// # Errors
///
/// Memory was refused.
pub fn replaces_at(
    alloc: Global,
    value: &Value,
    key: &str,
) -> Result<Option<ReplaceList>, OutOfMemory>
    ensures { IfOk result (λ o. o ≡ spec.required key.now (spec.list_of spec.replace) (view value.now)) }
{
    let Some(items) = array_at(value, key) else {
        return Ok(None);
    };
    match each_replace(alloc, items)? {
        None => Ok(None),
        Some(replaces) => Ok(Some(SharedList::of(alloc, replaces)?)),
    }
}

/// A span of a named buffer.
///
/// # Errors
///
/// Memory was refused.
#[tactic(auto, unfolding(crate::specs::Fields::tracked_span))]
fn tracked_span(alloc: Global, value: &Value) -> Result<Option<ScriptSpan>, OutOfMemory>
    ensures { IfOk result (λ o. o ≡ spec.tracked_span (view value.now)) }
{
    if !has_only(value, &["in", "start", "len", "mode"]) {
        return Ok(None);
    }
    let Some(buffer) = name_at(alloc, value, "in")? else {
        return Ok(None);
    };
    let Some(start) = whole_at(value, "start") else {
        return Ok(None);
    };
    let Some(len) = whole_at(value, "len") else {
        return Ok(None);
    };
    let Some(mode) = member_mode_or_exclusive(value, "mode") else {
        return Ok(None);
    };
    Ok(Some(ScriptSpan::Tracked {
        buffer,
        start,
        len,
        mode,
    }))
}

/// A member of a projection: a text, or a span of a named buffer.
///
/// # Errors
///
/// Memory was refused.
#[tactic(auto, unfolding(crate::specs::Fields::script_span))]
fn script_span(alloc: Global, value: &Value) -> Result<Option<ScriptSpan>, OutOfMemory>
    ensures { IfOk result (λ o. o ≡ spec.script_span (view value.now)) }
{
    match text(alloc, value)? {
        Some(units) => Ok(Some(ScriptSpan::Literal(units))),
        None => tracked_span(alloc, value),
    }
}

fn each_span(alloc: Global, items: &[Value]) -> Result<Option<Vec<ScriptSpan>>, OutOfMemory>
    ensures { IfOk result (λ o. option_map (λ v. v.items) o ≡ spec.each_item spec.script_span (items_view items.now)) }
{
    let mut spans = Vec::new(alloc);
    for item in items {
        match script_span(alloc, item)? {
            None => return Ok(None),
            Some(found) => spans.push(found)?,
        }
    }
    Ok(Some(spans))
}

/// The members of a projection under a key.
///
/// # Errors
///
/// Memory was refused.
pub fn spans_at(
    alloc: Global,
    value: &Value,
    key: &str,
) -> Result<Option<ScriptSpanList>, OutOfMemory>
    ensures { IfOk result (λ o. o ≡ spec.required key.now (spec.list_of spec.script_span) (view value.now)) }
{
    let Some(items) = array_at(value, key) else {
        return Ok(None);
    };
    match each_span(alloc, items)? {
        None => Ok(None),
        Some(spans) => Ok(Some(SharedList::of(alloc, spans)?)),
    }
}
