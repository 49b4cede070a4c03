//! Reading one line of a script.
ghost use Rattle.std.specs.Prelude.{◌≡◌, Ok, Err, IfOk, IsErrOf, option_map};
ghost use Rattle.std.specs.List.{list_all};
ghost use Rattle.std.specs.Str.{is_utf8};
ghost use Rattle.serde_json.specs.View.{view};
ghost use Rattle.ed_script.specs.Lines.{is_blank};
ghost use Rattle.ed_script.specs.Words as spec;
ghost use Rattle.ed_script.specs.Script.{value_of, line_command};
ghost use Rattle.ed_script.specs.declared.bad.BadKind.{BadKind};

use crate::bad::LineFault;
use crate::fields::{
    edge_mode_at, has_only, name_at, name_if_there, pairs_at, point_mode_at, replaces_at, span_how,
    span_mode_at, span_mode_or_exclusive, spans_at, text_at, units_at, version_at, whole_at,
};
use crate::kinds::Command;
use ed_base::{OutOfMemory, RegionNo, SpanHow, VersionNo};
use serde_json::Value;
use std::alloc::Global;

#[tactic(auto, unfolding(crate::specs::Words::buffer_command))]
fn buffer_command(alloc: Global, value: &Value) -> Result<Option<Command>, OutOfMemory>
    ensures { IfOk result (λ o. o ≡ spec.buffer_command (view value.now)) }
{
    if !has_only(value, &["do", "name", "text"]) {
        return Ok(None);
    }
    let Some(name) = name_at(alloc, value, "name")? else {
        return Ok(None);
    };
    let Some(text) = units_at(alloc, value, "text")? else {
        return Ok(None);
    };
    Ok(Some(Command::Buffer { name, text }))
}

#[tactic(auto, unfolding(crate::specs::Words::projection_command))]
fn projection_command(alloc: Global, value: &Value) -> Result<Option<Command>, OutOfMemory>
    ensures { IfOk result (λ o. o ≡ spec.projection_command (view value.now)) }
{
    if !has_only(value, &["do", "name", "spans", "resolver"]) {
        return Ok(None);
    }
    let Some(name) = name_at(alloc, value, "name")? else {
        return Ok(None);
    };
    let Some(spans) = spans_at(alloc, value, "spans")? else {
        return Ok(None);
    };
    let Some(resolver) = name_if_there(alloc, value, "resolver")? else {
        return Ok(None);
    };
    Ok(Some(Command::Projection {
        name,
        spans,
        resolver,
    }))
}

#[tactic(auto, unfolding(crate::specs::Words::elision_command))]
fn elision_command(alloc: Global, value: &Value) -> Result<Option<Command>, OutOfMemory>
    ensures { IfOk result (λ o. o ≡ spec.elision_command (view value.now)) }
{
    if !has_only(value, &["do", "name", "in", "hide", "resolver"]) {
        return Ok(None);
    }
    let Some(name) = name_at(alloc, value, "name")? else {
        return Ok(None);
    };
    let Some(buffer) = name_at(alloc, value, "in")? else {
        return Ok(None);
    };
    let Some(hide) = pairs_at(alloc, value, "hide")? else {
        return Ok(None);
    };
    let Some(resolver) = name_if_there(alloc, value, "resolver")? else {
        return Ok(None);
    };
    Ok(Some(Command::Elision {
        name,
        buffer,
        hide,
        resolver,
    }))
}

#[tactic(auto, unfolding(crate::specs::Words::edit_command))]
fn edit_command(alloc: Global, value: &Value) -> Result<Option<Command>, OutOfMemory>
    ensures { IfOk result (λ o. o ≡ spec.edit_command (view value.now)) }
{
    if !has_only(value, &["do", "in", "replaces", "at"]) {
        return Ok(None);
    }
    let Some(buffer) = name_at(alloc, value, "in")? else {
        return Ok(None);
    };
    let Some(replaces) = replaces_at(alloc, value, "replaces")? else {
        return Ok(None);
    };
    let Some(at) = version_at(value, "at") else {
        return Ok(None);
    };
    Ok(Some(Command::Edit {
        buffer,
        replaces,
        at,
    }))
}

#[tactic(auto, unfolding(crate::specs::Words::spans_command))]
fn spans_command(alloc: Global, value: &Value) -> Result<Option<Command>, OutOfMemory>
    ensures { IfOk result (λ o. o ≡ spec.spans_command (view value.now)) }
{
    if !has_only(value, &["do", "in", "first", "count", "spans", "at"]) {
        return Ok(None);
    }
    let Some(buffer) = name_at(alloc, value, "in")? else {
        return Ok(None);
    };
    let Some(first) = whole_at(value, "first") else {
        return Ok(None);
    };
    let Some(count) = whole_at(value, "count") else {
        return Ok(None);
    };
    let Some(spans) = spans_at(alloc, value, "spans")? else {
        return Ok(None);
    };
    let Some(at) = version_at(value, "at") else {
        return Ok(None);
    };
    Ok(Some(Command::Spans {
        buffer,
        first,
        count,
        spans,
        at,
    }))
}

#[tactic(auto, unfolding(crate::specs::Words::elide_command))]
fn elide_command(alloc: Global, value: &Value) -> Result<Option<Command>, OutOfMemory>
    ensures { IfOk result (λ o. o ≡ spec.elide_command (view value.now)) }
{
    if !has_only(value, &["do", "in", "hide", "show", "at"]) {
        return Ok(None);
    }
    let Some(buffer) = name_at(alloc, value, "in")? else {
        return Ok(None);
    };
    let Some(hide) = pairs_at(alloc, value, "hide")? else {
        return Ok(None);
    };
    let Some(show) = pairs_at(alloc, value, "show")? else {
        return Ok(None);
    };
    let Some(at) = version_at(value, "at") else {
        return Ok(None);
    };
    Ok(Some(Command::Elide {
        buffer,
        hide,
        show,
        at,
    }))
}

#[tactic(auto, unfolding(crate::specs::Words::region_command))]
fn region_command(alloc: Global, value: &Value) -> Result<Option<Command>, OutOfMemory>
    ensures { IfOk result (λ o. o ≡ spec.region_command (view value.now)) }
{
    let keys = &["do", "in", "start", "len", "edge", "mode", "query"];
    if !has_only(value, keys) {
        return Ok(None);
    }
    let Some(buffer) = name_at(alloc, value, "in")? else {
        return Ok(None);
    };
    let Some(start) = whole_at(value, "start") else {
        return Ok(None);
    };
    let Some(len) = whole_at(value, "len") else {
        return Ok(None);
    };
    let Some(edge) = edge_mode_at(value, "edge") else {
        return Ok(None);
    };
    let Some(mode) = span_mode_or_exclusive(value, "mode") else {
        return Ok(None);
    };
    let Some(query) = name_if_there(alloc, value, "query")? else {
        return Ok(None);
    };
    Ok(Some(Command::Region {
        buffer,
        start,
        len,
        edge,
        mode,
        query,
    }))
}

#[tactic(auto, unfolding(crate::specs::Words::unregion_command))]
fn unregion_command(alloc: Global, value: &Value) -> Result<Option<Command>, OutOfMemory>
    ensures { IfOk result (λ o. o ≡ spec.unregion_command (view value.now)) }
{
    if !has_only(value, &["do", "in", "region"]) {
        return Ok(None);
    }
    let Some(buffer) = name_at(alloc, value, "in")? else {
        return Ok(None);
    };
    let Some(region) = whole_at(value, "region") else {
        return Ok(None);
    };
    let region = RegionNo(region);
    Ok(Some(Command::Unregion { buffer, region }))
}

#[tactic(auto, unfolding(crate::specs::Words::readonly_command))]
fn readonly_command(alloc: Global, value: &Value) -> Result<Option<Command>, OutOfMemory>
    ensures { IfOk result (λ o. o ≡ spec.readonly_command (view value.now)) }
{
    if !has_only(value, &["do", "in", "start", "len"]) {
        return Ok(None);
    }
    let Some(buffer) = name_at(alloc, value, "in")? else {
        return Ok(None);
    };
    let Some(start) = whole_at(value, "start") else {
        return Ok(None);
    };
    let Some(len) = whole_at(value, "len") else {
        return Ok(None);
    };
    Ok(Some(Command::Readonly { buffer, start, len }))
}

#[tactic(auto, unfolding(crate::specs::Words::text_command))]
fn text_command(alloc: Global, value: &Value) -> Result<Option<Command>, OutOfMemory>
    ensures { IfOk result (λ o. o ≡ spec.text_command (view value.now)) }
{
    if !has_only(value, &["do", "in", "at"]) {
        return Ok(None);
    }
    let Some(buffer) = name_at(alloc, value, "in")? else {
        return Ok(None);
    };
    let Some(at) = version_at(value, "at") else {
        return Ok(None);
    };
    Ok(Some(Command::Text { buffer, at }))
}

#[tactic(auto, unfolding(crate::specs::Words::lines_command))]
fn lines_command(alloc: Global, value: &Value) -> Result<Option<Command>, OutOfMemory>
    ensures { IfOk result (λ o. o ≡ spec.lines_command (view value.now)) }
{
    if !has_only(value, &["do", "in", "at"]) {
        return Ok(None);
    }
    let Some(buffer) = name_at(alloc, value, "in")? else {
        return Ok(None);
    };
    let Some(at) = version_at(value, "at") else {
        return Ok(None);
    };
    Ok(Some(Command::Lines { buffer, at }))
}

#[tactic(auto, unfolding(crate::specs::Words::versions_command))]
fn versions_command(alloc: Global, value: &Value) -> Result<Option<Command>, OutOfMemory>
    ensures { IfOk result (λ o. o ≡ spec.versions_command (view value.now)) }
{
    if !has_only(value, &["do", "in"]) {
        return Ok(None);
    }
    match name_at(alloc, value, "in")? {
        None => Ok(None),
        Some(buffer) => Ok(Some(Command::Versions { buffer })),
    }
}

#[tactic(auto, unfolding(crate::specs::Words::changes_command))]
fn changes_command(alloc: Global, value: &Value) -> Result<Option<Command>, OutOfMemory>
    ensures { IfOk result (λ o. o ≡ spec.changes_command (view value.now)) }
{
    if !has_only(value, &["do", "in", "from"]) {
        return Ok(None);
    }
    let Some(buffer) = name_at(alloc, value, "in")? else {
        return Ok(None);
    };
    let Some(from) = whole_at(value, "from") else {
        return Ok(None);
    };
    let from = VersionNo(from);
    Ok(Some(Command::Changes { buffer, from }))
}

#[tactic(auto, unfolding(crate::specs::Words::point_command))]
fn point_command(alloc: Global, value: &Value) -> Result<Option<Command>, OutOfMemory>
    ensures { IfOk result (λ o. o ≡ spec.point_command (view value.now)) }
{
    if !has_only(value, &["do", "in", "pos", "mode", "at", "to"]) {
        return Ok(None);
    }
    let Some(buffer) = name_at(alloc, value, "in")? else {
        return Ok(None);
    };
    let Some(pos) = whole_at(value, "pos") else {
        return Ok(None);
    };
    let Some(mode) = point_mode_at(value, "mode") else {
        return Ok(None);
    };
    let Some(at) = version_at(value, "at") else {
        return Ok(None);
    };
    let Some(to) = version_at(value, "to") else {
        return Ok(None);
    };
    Ok(Some(Command::Point {
        buffer,
        pos,
        mode,
        at,
        to,
    }))
}

/// How a span is to be tracked.
fn how(alloc: Global, value: &Value) -> Result<Option<SpanHow>, OutOfMemory>
    ensures { IfOk result (λ o. o ≡ spec.how (view value.now)) }
{
    let Some(mode) = span_mode_at(value, "mode") else {
        return Ok(None);
    };
    match name_if_there(alloc, value, "custom")? {
        None => Ok(None),
        Some(hook) => Ok(span_how(mode, hook)),
    }
}

#[tactic(auto, unfolding(crate::specs::Words::span_command))]
fn span_command(alloc: Global, value: &Value) -> Result<Option<Command>, OutOfMemory>
    ensures { IfOk result (λ o. o ≡ spec.span_command (view value.now)) }
{
    let keys = &["do", "in", "start", "len", "mode", "custom", "at", "to"];
    if !has_only(value, keys) {
        return Ok(None);
    }
    let Some(buffer) = name_at(alloc, value, "in")? else {
        return Ok(None);
    };
    let Some(start) = whole_at(value, "start") else {
        return Ok(None);
    };
    let Some(len) = whole_at(value, "len") else {
        return Ok(None);
    };
    let Some(how) = how(alloc, value)? else {
        return Ok(None);
    };
    let Some(at) = version_at(value, "at") else {
        return Ok(None);
    };
    let Some(to) = version_at(value, "to") else {
        return Ok(None);
    };
    Ok(Some(Command::Span {
        buffer,
        start,
        len,
        how,
        at,
        to,
    }))
}

#[tactic(auto, unfolding(crate::specs::Words::nearest_command))]
fn nearest_command(alloc: Global, value: &Value) -> Result<Option<Command>, OutOfMemory>
    ensures { IfOk result (λ o. o ≡ spec.nearest_command (view value.now)) }
{
    if !has_only(value, &["do", "in", "pos"]) {
        return Ok(None);
    }
    let Some(buffer) = name_at(alloc, value, "in")? else {
        return Ok(None);
    };
    let Some(pos) = whole_at(value, "pos") else {
        return Ok(None);
    };
    Ok(Some(Command::Nearest { buffer, pos }))
}

#[tactic(auto, unfolding(crate::specs::Words::by_word))]
fn by_word(alloc: Global, word: &str, value: &Value) -> Result<Option<Command>, OutOfMemory>
    ensures { IfOk result (λ o. o ≡ spec.by_word word.now (view value.now)) }
{
    match word {
        "buffer" => buffer_command(alloc, value),
        "projection" => projection_command(alloc, value),
        "elision" => elision_command(alloc, value),
        "edit" => edit_command(alloc, value),
        "spans" => spans_command(alloc, value),
        "elide" => elide_command(alloc, value),
        "region" => region_command(alloc, value),
        "unregion" => unregion_command(alloc, value),
        "readonly" => readonly_command(alloc, value),
        "text" => text_command(alloc, value),
        "lines" => lines_command(alloc, value),
        "changes" => changes_command(alloc, value),
        "versions" => versions_command(alloc, value),
        "point" => point_command(alloc, value),
        "span" => span_command(alloc, value),
        "nearest" => nearest_command(alloc, value),
        _ => Ok(None),
    }
}

#[tactic(auto, unfolding(crate::specs::Words::command_of))]
fn command_of(alloc: Global, value: &Value) -> Result<Option<Command>, OutOfMemory>
    ensures { IfOk result (λ o. o ≡ spec.command_of (view value.now)) }
{
    match text_at(value, "do") {
        None => Ok(None),
        Some(word) => by_word(alloc, word, value),
    }
}

fn is_blank_line(line: &[u8]) -> bool
    ensures { result ≡ is_blank line.now }
{
    line.iter()
        .all(|byte| *byte == b'\t' || *byte == b'\r' || *byte == b' ')
}

/// The value of a line, or none where the line isn't JSON.
#[tactic(auto, unfolding(crate::specs::Script::value_of))]
fn value_of_line(alloc: Global, line: &[u8]) -> Result<Option<Value>, OutOfMemory>
    ensures { IfOk result (λ o. option_map view o ≡ value_of line.now) }
{
    match Value::from_slice(alloc, line) {
        Ok(value) => Ok(Some(value)),
        Err(error) => {
            if error.is_memory() {
                Err(OutOfMemory)
            } else {
                Ok(None)
            }
        }
    }
}

/// The command that a line gives, or none where the line is blank.
///
/// # Errors
///
/// The line isn't JSON (RFC 8259), its value isn't a command, or memory was refused.
#[tactic(auto, unfolding(crate::specs::Script::line_command))]
pub fn command(alloc: Global, line: &[u8]) -> Result<Option<Command>, LineFault>
    ensures ok { IfOk result (λ o. line_command line.now ≡ Ok o) }
    ensures not_json { IsErrOf result LineFault.NotJson → line_command line.now ≡ Err BadKind.NotJson }
    ensures not_command { IsErrOf result LineFault.NotCommand → line_command line.now ≡ Err BadKind.NotCommand }
{
    if is_blank_line(line) {
        return Ok(None);
    }
    let Some(value) = value_of_line(alloc, line)? else {
        return Err(LineFault::NotJson);
    };
    match command_of(alloc, &value)? {
        None => Err(LineFault::NotCommand),
        Some(command) => Ok(Some(command)),
    }
}
