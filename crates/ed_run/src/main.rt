//! Replays a session script: reads it from standard input, and writes a line for each command to
//! standard output.
#![tactic(auto)]

ghost use Rattle.std.specs.Prelude.{◌<◌, ◌≤◌, ◌^◌};

use ed_base::{Edges, VersionNo};
use ed_callbacks::Hooks;
use ed_io::{StdSink, StdSource};
use ed_replay::{Status, even_end, keep_hooks, keep_resolvers, run};
use std::io::ErrorKind;
use std::process::ExitCode;
use std::rt::Env;
use std::{env, io};

/// The words after the program's name.
fn words(rt: &(impl Env + AllocGlobal)) -> io::Result<Vec<String>> {
    let mut words = Vec::new(rt.alloc());
    for word in env::args(rt)?.skip(1) {
        words.push(word)?;
    }
    Ok(words)
}

/// How a command line ends whose words can't be had: those that aren't UTF-8 are wrong.
fn without_words(error: io::Error) -> Status {
    if error.kind() == ErrorKind::OutOfMemory {
        Status::Memory
    } else {
        Status::Usage
    }
}

fn main(rt: HostRuntime) -> ExitCode {
    let alloc = rt.alloc();
    let (
        Ok(first_insert),
        Ok(first_replace),
        Ok(last_insert),
        Ok(last_replace),
        Ok(even_insert),
        Ok(even_replace),
    ) = (
        Box::new(alloc, |len: u32, _count: u32, _index: u32| len),
        Box::new(alloc, |len: u32, _count: u32, _index: u32| len),
        Box::new(
            alloc,
            |len: u32, count: u32, index: u32|
                requires { index < count }
            { if index + 1 == count { len } else { 0 } },
        ),
        Box::new(
            alloc,
            |len: u32, count: u32, index: u32|
                requires { index < count }
            { if index + 1 == count { len } else { 0 } },
        ),
        Box::new(
            alloc,
            |len: u32, count: u32, index: u32|
                requires { (len ≤ 2 ^ 22) × (count ≤ 1024) × (index < count) }
            { even_end(len, count, index) },
        ),
        Box::new(
            alloc,
            |len: u32, count: u32, index: u32|
                requires { (len ≤ 2 ^ 22) × (count ≤ 1024) × (index < count) }
            { even_end(len, count, index) },
        ),
    ) else {
        return ExitCode::from(Status::Memory.exit_code());
    };
    let mut hooks = Hooks::new(alloc);
    let Ok(()) = keep_resolvers(
        alloc,
        &mut hooks,
        first_insert,
        first_replace,
        last_insert,
        last_replace,
        even_insert,
        even_replace,
    ) else {
        return ExitCode::from(Status::Memory.exit_code());
    };
    let (Ok(always), Ok(edit_only), Ok(even_version), Ok(sticky), Ok(caret)) = (
        Box::new(alloc, |_version: VersionNo, _edit: bool| true),
        Box::new(alloc, |_version: VersionNo, edit: bool| edit),
        Box::new(alloc, |version: VersionNo, _edit: bool| version.0 % 2 == 0),
        Box::new(alloc, |edges: Edges| {
            if edges.len == 0 {
                (edges.start_pos, edges.start_pos)
            } else {
                (edges.start_neg, edges.end_pos)
            }
        }),
        Box::new(alloc, |edges: Edges| (edges.end_pos, edges.end_pos)),
    ) else {
        return ExitCode::from(Status::Memory.exit_code());
    };
    let Ok(()) = keep_hooks(
        alloc,
        &mut hooks,
        always,
        edit_only,
        even_version,
        sticky,
        caret,
    ) else {
        return ExitCode::from(Status::Memory.exit_code());
    };
    let status = match words(&rt) {
        Ok(words) => {
            let mut source = StdSource::new(rt.reader());
            let mut sink = StdSink::new(io::writer(&rt));
            run(alloc, words.as_slice(), &mut source, &mut sink, &hooks).status
        }
        Err(error) => without_words(error),
    };
    ExitCode::from(status.exit_code())
}
