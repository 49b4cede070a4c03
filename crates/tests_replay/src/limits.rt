//! Where limits lie that take a long script.
ghost use Rattle.std.specs.Prelude.{◌<◌};

use crate::played::{answers, played};
use ed_replay::Status;
use ed_script::BadKind;
use std::alloc::Global;
use std::test::*;

/// A base of 2^14 units, sixteen projections of it, sixteen of these each, and one of these, `r`,
/// whose text has 2^22 units.
fn tower(alloc: Global) -> Result<String, Fail> {
    let mut script = String::from_str(alloc, "{\"do\":\"buffer\",\"name\":\"a\",\"text\":\"")?;
    for _ in 0..1024 {
        script.push_str("0123456789abcdef")?;
    }
    script.push_str("\"}\n")?;
    for p in 0..16 {
        let line = format!(in alloc;
            "{{\"do\":\"projection\",\"name\":\"p{p}\",\"spans\":[{{\"in\":\"a\",\"start\":0,\"len\":16384}}]}}\n"
        )?;
        script.push_str(line.as_str())?;
    }
    for q in 0..16 {
        let head = format!(in alloc; "{{\"do\":\"projection\",\"name\":\"q{q}\",\"spans\":[\"\"")?;
        script.push_str(head.as_str())?;
        for p in 0..16 {
            let member = format!(in alloc; ",{{\"in\":\"p{p}\",\"start\":0,\"len\":16384}}")?;
            script.push_str(member.as_str())?;
        }
        script.push_str("]}\n")?;
    }
    script.push_str("{\"do\":\"projection\",\"name\":\"r\",\"spans\":[\"\"")?;
    for q in 0..16 {
        let member = format!(in alloc; ",{{\"in\":\"q{q}\",\"start\":0,\"len\":262144}}")?;
        script.push_str(member.as_str())?;
    }
    script.push_str("]}\n")?;
    Ok(script)
}

#[test]
fn a_text_has_2_to_the_22_units(rt: HostRuntime) -> Result<(), Fail> {
    let alloc = rt.alloc();
    let mut script = tower(alloc)?;
    script.push_str(
        "{\"do\":\"projection\",\"name\":\"s\",\"spans\":[{\"in\":\"r\",\"start\":0,\"len\":4194304},\"xy\"]}\n",
    )?;
    script.push_str("{\"do\":\"spans\",\"in\":\"r\",\"first\":0,\"count\":1,\"spans\":[\"z\"]}\n")?;
    script.push_str("{\"do\":\"edit\",\"in\":\"a\",\"replaces\":[[5,0,\"z\"]]}\n")?;
    script.push_str("{\"do\":\"edit\",\"in\":\"a\",\"replaces\":[[5,1,\"z\"]],\"at\":0}\n")?;
    let end =
        "\n34 0 projection r: made 33\n35 0 projection s: refused 16 Limit Units 4194306\n36 0 spans r: refused 16 Limit Units 4194305\n37 0 edit a: refused 16 Limit Units 4194560\n38 0 edit a: edited 0@1 1@1 2@1 3@1 4@1 5@1 6@1 7@1 8@1 9@1 10@1 11@1 12@1 13@1 14@1 15@1 16@1 17@1 18@1 19@1 20@1 21@1 22@1 23@1 24@1 25@1 26@1 27@1 28@1 29@1 30@1 31@1 32@1 33@1\n";
    assert!(rt; answers(alloc, script.as_str())?.ends_with(end));
    Ok(())
}

/// All of a text of 2^22 units, shown again and again: what shows it puts in all of them.
#[test]
fn changes_put_in_2_to_the_27_units(rt: HostRuntime) -> Result<(), Fail> {
    let alloc = rt.alloc();
    let show = "{\"do\":\"elide\",\"in\":\"e\",\"hide\":[],\"show\":[[0,4194304]]}\n";
    let mut script = tower(alloc)?;
    script.push_str("{\"do\":\"elision\",\"name\":\"e\",\"in\":\"r\",\"hide\":[[0,4194304]]}\n")?;
    for _ in 0..31 {
        script.push_str(show)?;
        script.push_str("{\"do\":\"elide\",\"in\":\"e\",\"hide\":[[0,4194304]],\"show\":[]}\n")?;
    }
    script.push_str(show)?;
    script.push_str("{\"do\":\"text\",\"in\":\"e\"}\n")?;
    let end =
        "\n96 0 elide e: edited 34@61\n97 0 elide e: edited 34@62\n98 0 elide e: refused 16 Limit Inserted 134234112\n99 0 text e: 34@62 \"\"\n";
    assert!(rt; answers(alloc, script.as_str())?.ends_with(end));
    Ok(())
}

#[test]
fn a_script_has_2_to_the_20_bytes(rt: HostRuntime) -> Result<(), Fail> {
    let mut script = String::from_str(rt.alloc(), "{\"do\":\"buffer\",\"name\":\"a\",\"text\":\"")?;
    for _ in 0..100_000 {
        script.push_str("0123456789")?;
    }
    script.push_str("\"}\n{\"do\":\"edit\",\"in\":\"a\",\"replaces\":[[1,999998,\"\"]]}\n")?;
    script.push_str("{\"do\":\"text\",\"in\":\"a\"}\n")?;
    for _ in script.len()..1 << 20 {
        script.push_str("\n")?;
    }
    let output = "1 0 buffer a: made 0\n2 0 edit a: edited 0@1\n3 0 text a: 0@1 \"09\"\n";
    assert_eq!(rt; answers(rt.alloc(), script.as_str())?.as_str(), output);
    script.push_str("\n")?;
    let replay = played(rt.alloc(), "replay", script.as_str(), 4096, 0, 0)?;
    let refused = Status::BadScript {
        line: 1,
        kind: BadKind::NotCommand,
    };
    assert_eq!(rt; replay.status, refused);
    assert_eq!(rt; replay.entries, 0);
    Ok(())
}
