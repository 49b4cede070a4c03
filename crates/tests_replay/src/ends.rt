//! How replays end.
use crate::played::played;
use ed_replay::Status;
use ed_script::BadKind;
use std::test::*;

const fn bad(line: u32, kind: BadKind) -> Status {
    Status::BadScript { line, kind }
}

/// An edit that deletes and puts in at two places, one past the end, one that changes nothing, and
/// one of a buffer that isn't there.
const SESSION: &str =
    "{\"do\":\"buffer\",\"name\":\"a\",\"text\":\"0123456789\"}\n{\"do\":\"edit\",\"in\":\"a\",\"replaces\":[[0,5,\"a\"],[3,5,\"b\"]]}\n{\"do\":\"text\",\"in\":\"a\"}\n{\"do\":\"edit\",\"in\":\"a\",\"replaces\":[[4,1,\"\"]]}\n{\"do\":\"edit\",\"in\":\"a\",\"replaces\":[[1,0,\"\"]]}\n{\"do\":\"edit\",\"in\":\"z\",\"replaces\":[]}\n";

const OUTPUT: &str =
    "1 0 buffer a: made 0\n2 0 edit a: edited 0@1\n3 0 text a: 0@1 \"ab89\"\n4 0 edit a: refused 5 OutOfRange 5 4\n5 0 edit a: edited none\n6 0 edit z: refused 1 NoBuffer\n";

const ASKED: &str = "{\"do\":\"text\",\"in\":\"a\"}\n";

const ANSWERED: &str = "1 0 text a: refused 1 NoBuffer\n";

/// What stands behind a first command, and what line and kind it is refused as.
const BAD_LINES: [(&str, u32, BadKind); 38] = [
    ("{\"do\":\"fly\"}", 2, BadKind::NotCommand),
    ("\n \t\r\nx", 4, BadKind::NotJson),
    ("{\"do\":", 2, BadKind::NotJson),
    (
        "{\"do\":\"text\",\"in\":\"a\",\"to\":0}\n\nx",
        2,
        BadKind::NotCommand,
    ),
    ("{\"do\":\"text\",\"in\":\"\"}", 2, BadKind::NotCommand),
    (
        "{\"do\":\"buffer\",\"name\":\"a\",\"text\":7}",
        2,
        BadKind::NotCommand,
    ),
    (
        "{\"do\":\"buffer\",\"name\":\"a\",\"text\":\"\\ud800\"}",
        2,
        BadKind::NotJson,
    ),
    (
        "{\"do\":\"edit\",\"in\":\"a\",\"replaces\":[[0,1]]}",
        2,
        BadKind::NotCommand,
    ),
    (
        "{\"do\":\"region\",\"in\":\"a\",\"start\":0,\"len\":1}",
        2,
        BadKind::NotCommand,
    ),
    (
        "{\"do\":\"span\",\"in\":\"a\",\"start\":0,\"len\":1,\"mode\":\"exclusive\",\"custom\":\"caret\"}",
        2,
        BadKind::NotCommand,
    ),
    (
        "{\"do\":\"projection\",\"name\":\"p\",\"spans\":[{\"in\":\"a\",\"start\":1,\"len\":2,\"mode\":\"positive\"}]}",
        2,
        BadKind::NotCommand,
    ),
    (
        "{\"do\":\"projection\",\"name\":\"p\",\"spans\":[{\"in\":\"a\",\"start\":1,\"len\":2,\"at\":0}]}",
        2,
        BadKind::NotCommand,
    ),
    (
        "{\"do\":\"projection\",\"name\":\"p\",\"spans\":[{\"in\":\"a\",\"start\":1}]}",
        2,
        BadKind::NotCommand,
    ),
    (
        "{\"do\":\"projection\",\"name\":\"p\",\"spans\":[7]}",
        2,
        BadKind::NotCommand,
    ),
    (
        "{\"do\":\"projection\",\"name\":\"p\",\"spans\":[],\"resolver\":7}",
        2,
        BadKind::NotCommand,
    ),
    (
        "{\"do\":\"spans\",\"in\":\"p\",\"first\":1,\"spans\":[]}",
        2,
        BadKind::NotCommand,
    ),
    (
        "{\"do\":\"elision\",\"name\":\"e\",\"in\":\"a\"}",
        2,
        BadKind::NotCommand,
    ),
    (
        "{\"do\":\"elision\",\"name\":\"e\",\"hide\":[]}",
        2,
        BadKind::NotCommand,
    ),
    (
        "{\"do\":\"elision\",\"in\":\"a\",\"hide\":[]}",
        2,
        BadKind::NotCommand,
    ),
    (
        "{\"do\":\"elision\",\"name\":\"e\",\"in\":\"a\",\"hide\":[],\"at\":0}",
        2,
        BadKind::NotCommand,
    ),
    (
        "{\"do\":\"elision\",\"name\":\"e\",\"in\":\"a\",\"hide\":[],\"resolver\":7}",
        2,
        BadKind::NotCommand,
    ),
    (
        "{\"do\":\"elision\",\"name\":\"e\",\"in\":\"a\",\"hide\":[],\"show\":[]}",
        2,
        BadKind::NotCommand,
    ),
    (
        "{\"do\":\"elision\",\"name\":\"e\",\"in\":\"a\",\"hide\":[0,1]}",
        2,
        BadKind::NotCommand,
    ),
    (
        "{\"do\":\"elision\",\"name\":\"e\",\"in\":\"a\",\"hide\":[[]]}",
        2,
        BadKind::NotCommand,
    ),
    (
        "{\"do\":\"elision\",\"name\":\"e\",\"in\":\"a\",\"hide\":[[0]]}",
        2,
        BadKind::NotCommand,
    ),
    (
        "{\"do\":\"elision\",\"name\":\"e\",\"in\":\"a\",\"hide\":[[0,1],[0,1,2]]}",
        2,
        BadKind::NotCommand,
    ),
    (
        "{\"do\":\"elision\",\"name\":\"e\",\"in\":\"a\",\"hide\":[[0,4294967296]]}",
        2,
        BadKind::NotCommand,
    ),
    (
        "{\"do\":\"elision\",\"name\":\"e\",\"in\":\"a\",\"hide\":[[-1,1]]}",
        2,
        BadKind::NotCommand,
    ),
    (
        "{\"do\":\"elision\",\"name\":\"e\",\"in\":\"a\",\"hide\":[{\"start\":0,\"len\":1}]}",
        2,
        BadKind::NotCommand,
    ),
    (
        "{\"do\":\"elide\",\"in\":\"e\",\"hide\":[]}",
        2,
        BadKind::NotCommand,
    ),
    (
        "{\"do\":\"elide\",\"in\":\"e\",\"show\":[]}",
        2,
        BadKind::NotCommand,
    ),
    (
        "{\"do\":\"elide\",\"in\":\"e\",\"hide\":[],\"show\":[[0,1.5]]}",
        2,
        BadKind::NotCommand,
    ),
    (
        "{\"do\":\"elide\",\"in\":\"e\",\"hide\":[],\"show\":[],\"at\":null}",
        2,
        BadKind::NotCommand,
    ),
    (
        "{\"do\":\"elide\",\"in\":\"e\",\"hide\":[],\"show\":[],\"resolver\":\"last\"}",
        2,
        BadKind::NotCommand,
    ),
    ("{\"do\":\"nearest\",\"in\":\"e\"}", 2, BadKind::NotCommand),
    (
        "{\"do\":\"nearest\",\"in\":\"e\",\"pos\":0,\"at\":0}",
        2,
        BadKind::NotCommand,
    ),
    (
        "{\"do\":\"nearest\",\"in\":\"e\",\"pos\":\"0\"}",
        2,
        BadKind::NotCommand,
    ),
    (
        "{\"do\":\"nearest\",\"name\":\"e\",\"pos\":0}",
        2,
        BadKind::NotCommand,
    ),
];

#[test]
fn the_first_bad_line_is_named(rt: HostRuntime) -> Result<(), Fail> {
    for (behind, line, kind) in BAD_LINES {
        let script = format!(in rt.alloc(); "{ASKED}{behind}\n{ASKED}")?;
        let replay = played(rt.alloc(), "replay", script.as_str(), 4096, 0, 0)?;
        assert_eq!(rt; replay.status, bad(line, kind), "{behind}");
        assert_eq!(rt; replay.written.as_slice(), ANSWERED.as_bytes(), "{behind}");
    }
    Ok(())
}

#[test]
fn scripts_are_read_and_written_in_pieces(rt: HostRuntime) -> Result<(), Fail> {
    let unended =
        "{\"do\":\"buffer\",\"name\":\"a\",\"text\":\"\"}\n \t\r\n{\"text\":\"b\",\"do\":\"buffer\",\"name\":\"a\"}";
    let taken = "1 0 buffer a: made 0\n2 0 buffer a: refused 2 NameTaken\n";
    for (script, output) in [("", ""), (SESSION, OUTPUT), (unended, taken)] {
        for piece in [1, 7, 5000] {
            let replay = played(rt.alloc(), "replay", script, piece, 0, 0)?;
            assert_eq!(rt; replay.status, Status::Done, "{piece}");
            assert_eq!(rt; replay.written.as_slice(), output.as_bytes(), "{piece}");
        }
    }
    Ok(())
}

#[test]
fn a_failed_read_leaves_nothing_done(rt: HostRuntime) -> Result<(), Fail> {
    let reads = SESSION.len().div_ceil(7) as u32 + 1;
    for failing in 1..=reads {
        let replay = played(rt.alloc(), "replay", SESSION, 7, failing, 0)?;
        assert_eq!(rt; replay.status, Status::ReadFault, "{failing}");
        assert_eq!(rt; replay.entries, 0);
        assert!(rt; replay.written.is_empty());
    }
    let replay = played(rt.alloc(), "replay", SESSION, 7, reads + 1, 0)?;
    assert_eq!(rt; replay.status, Status::Done);
    Ok(())
}

#[test]
fn a_failed_write_ends_the_output(rt: HostRuntime) -> Result<(), Fail> {
    for failing in 1..=OUTPUT.len() {
        let replay = played(rt.alloc(), "replay", SESSION, 1, 0, failing as u32)?;
        let written = &OUTPUT.as_bytes()[..failing - 1];
        assert_eq!(rt; replay.written.as_slice(), written, "{failing}");
        assert_eq!(rt; replay.status, Status::WriteFault);
        assert_eq!(rt; replay.entries, 6);
    }
    Ok(())
}

/// That each line has a write of its own is seen where the second one fails.
#[test]
fn each_line_is_written_by_itself(rt: HostRuntime) -> Result<(), Fail> {
    let replay = played(rt.alloc(), "replay", SESSION, 4096, 0, 2)?;
    assert_eq!(rt; replay.status, Status::WriteFault);
    assert_eq!(rt;
        replay.written.as_slice(),
        b"1 0 buffer a: made 0\n".as_slice()
    );
    Ok(())
}

#[test]
fn wrong_words_read_and_write_nothing(rt: HostRuntime) -> Result<(), Fail> {
    for line in ["", "fly", "replay replay", "replay --workers", "Replay"] {
        let replay = played(rt.alloc(), line, SESSION, 7, 1, 1)?;
        assert_eq!(rt; replay.status, Status::Usage, "{line}");
        assert_eq!(rt; replay.entries, 0);
        assert!(rt; replay.written.is_empty());
    }
    Ok(())
}
