//! A long session, whose output is told by arithmetic.
use crate::played::answers;
use std::alloc::Global;
use std::test::*;

/// How many lines the text has that end with a break. Every other one gets its unit replaced.
const LINES: u32 = 10_000;

/// How many times one unit is put in at the start of the text then.
const EDITS: u32 = 2_000;

fn add(text: &mut String, more: &str) -> Result<(), Fail> {
    Ok(text.push_str(more)?)
}

/// A base of 20,000 units, an edit of 5,000 replaces, 2,000 edits, and what is asked then.
fn script(alloc: Global) -> Result<String, Fail> {
    let mut text = String::from_str(alloc, "{\"do\":\"buffer\",\"name\":\"a\",\"text\":\"")?;
    for _ in 0..LINES {
        add(&mut text, "x\\n")?;
    }
    add(
        &mut text,
        "\"}\n{\"do\":\"edit\",\"in\":\"a\",\"replaces\":[[19996,1,\"yz\"]",
    )?;
    for i in 0..LINES / 2 - 1 {
        let replace = format!(in alloc; ",[{},1,\"yz\"]", 4 * i)?;
        add(&mut text, replace.as_str())?;
    }
    add(&mut text, "]}\n")?;
    for _ in 0..EDITS {
        add(
            &mut text,
            "{\"do\":\"edit\",\"in\":\"a\",\"replaces\":[[0,0,\"-\"]]}\n",
        )?;
    }
    for question in [
        "{\"do\":\"changes\",\"in\":\"a\",\"from\":0}\n",
        "{\"do\":\"point\",\"in\":\"a\",\"pos\":10001,\"mode\":\"negative\",\"at\":0}\n",
        "{\"do\":\"point\",\"in\":\"a\",\"pos\":10001,\"mode\":\"positive\",\"at\":0}\n",
        "{\"do\":\"point\",\"in\":\"a\",\"pos\":14502,\"mode\":\"negative\",\"to\":0}\n",
        "{\"do\":\"versions\",\"in\":\"a\"}\n",
        "{\"do\":\"lines\",\"in\":\"a\"}\n",
    ] {
        add(&mut text, question)?;
    }
    Ok(text)
}

/// The lines from the second one on: two units and one unit in turn.
fn add_lines(alloc: Global, text: &mut String) -> Result<(), Fail> {
    let mut start = EDITS + 3;
    for i in 1..LINES {
        let end = start.wrapping_add(2 - i % 2);
        let line = format!(in alloc; " [{start},{end})1")?;
        add(text, line.as_str())?;
        start = end.wrapping_add(1);
    }
    Ok(())
}

fn output(alloc: Global) -> Result<String, Fail> {
    let mut text = String::from_str(alloc, "1 0 buffer a: made 0\n")?;
    for version in 1..EDITS + 2 {
        let line = format!(in alloc; "{} 0 edit a: edited 0@{version}\n", version + 1)?;
        add(&mut text, line.as_str())?;
    }
    add(&mut text, "2003 0 changes a:")?;
    for i in 0..LINES / 2 {
        let change = format!(in alloc; " ({},1,\"yz\")", 4 * i)?;
        add(&mut text, change.as_str())?;
    }
    add(
        &mut text,
        "\n2004 0 point a: at 14500\n2005 0 point a: at 14502\n2006 0 point a: at 10000\n",
    )?;
    add(&mut text, "2007 0 versions a:")?;
    for version in 0..EDITS + 2 {
        let number = format!(in alloc; " {version}")?;
        add(&mut text, number.as_str())?;
    }
    add(&mut text, "\n2008 0 lines a: [0,2002)1")?;
    add_lines(alloc, &mut text)?;
    add(&mut text, " [27000,27000)0\n")?;
    Ok(text)
}

#[test]
fn a_long_session_is_answered_whole(rt: HostRuntime) -> Result<(), Fail> {
    let written = answers(rt.alloc(), script(rt.alloc())?.as_str())?;
    let expected = output(rt.alloc())?;
    assert_eq!(rt; written.len(), expected.len());
    assert!(rt; written == expected);
    Ok(())
}

/// A projection of two units of a base and a literal of 1,000,000 units, and 900 edits of the base: a
/// copy of the literal for each version would take 1.8 GB.
#[test]
fn a_long_literal_goes_through_many_versions(rt: HostRuntime) -> Result<(), Fail> {
    let alloc = rt.alloc();
    let mut script = String::from_str(
        alloc,
        "{\"do\":\"buffer\",\"name\":\"a\",\"text\":\"ab\"}\n{\"do\":\"projection\",\"name\":\"p\",\"spans\":[{\"in\":\"a\",\"start\":0,\"len\":2},\"",
    )?;
    let mut expected = String::from_str(alloc, "1 0 buffer a: made 0\n2 0 projection p: made 1\n")?;
    for _ in 0..100_000 {
        add(&mut script, "0123456789")?;
    }
    add(&mut script, "\"]}\n")?;
    for version in 1..901 {
        add(
            &mut script,
            "{\"do\":\"edit\",\"in\":\"a\",\"replaces\":[[1,0,\"-\"]]}\n",
        )?;
        let line = format!(in alloc;
            "{} 0 edit a: edited 0@{version} 1@{version}\n",
            version + 2
        )?;
        add(&mut expected, line.as_str())?;
    }
    add(
        &mut script,
        "{\"do\":\"changes\",\"in\":\"p\",\"from\":899}\n{\"do\":\"lines\",\"in\":\"p\"}\n",
    )?;
    add(
        &mut expected,
        "903 0 changes p: (1,0,\"-\")\n904 0 lines p: [0,1000902)0\n",
    )?;
    assert!(rt; answers(alloc, script.as_str())? == expected);
    Ok(())
}
