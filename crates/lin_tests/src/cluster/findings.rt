//! Rules of clusters, each broken alone in a text: what `check` finds.

use crate::samples::{FOUR_LINES, HEADER, add_number, add_place, expect_text, joined};
use lin_cluster::{CheckFault, Finding, check};
use lin_ldf::parse;
use lin_text::Many;
use std::alloc::Global;
use std::process::Abort;
use std::test::Fail;

/// A table, in line 6.
const TABLE: &[u8] = b"Schedule_tables { T { MasterReq delay 10 ms; } }\n";

/// All that is found in a text.
fn findings_of(alloc: Global, text: &[u8]) -> Result<Many<Finding>, Fail> {
    match check(alloc, parse(alloc, text)?) {
        Ok(_cluster) => Ok(Many::new(Vec::new(alloc))),
        Err(CheckFault::Findings(found)) => Ok(found),
        Err(CheckFault::OutOfMemory) => Err(Fail::from("out of memory")),
    }
}

/// Each finding as ` line:column number`.
fn found(alloc: Global, text: &[u8]) -> Result<Vec<u8>, Fail> {
    let mut out = Vec::new(alloc);
    for finding in findings_of(alloc, text)?.as_slice() {
        out.push(b' ')?;
        add_place(alloc, &mut out, finding.line, finding.column)?;
        out.push(b' ')?;
        add_number(alloc, &mut out, u64::from(finding.number))?;
    }
    Ok(out)
}

/// Each line has a text and, after an arrow, what is found. The front stands before each text.
fn expect_findings(
    rt: &impl Abort,
    alloc: Global,
    front: &[&[u8]],
    cases: &str,
) -> Result<(), Fail> {
    let front = joined(alloc, front)?;
    for line in cases.lines() {
        let (text, want) = line.split_once(" =>").ok_or("no arrow")?;
        let found = found(alloc, &joined(alloc, &[&front, text.as_bytes()])?)?;
        expect_text(rt, &found, want.as_bytes(), text);
    }
    Ok(())
}

/// Declarations, in line 7.
const RULES: &str = "Signals { a: 8, 0, m, s; } =>
Signals { a: 8, 0, x, s; } => 7:20 1
Frames { F: 1, x, 1 { } } => 7:16 1
Frames { F: 1, m, 1 { a, 0; } } => 7:23 1
Signals { a: 8, 0, m, s; } Frames { F: 1, m, 2 { a, 0; a, 8; } } => 7:59 7
Frames { F: 1, s, 2 { } G: 2, m, 2 { } } Event_triggered_frames { E: T, 6, F, G; } => 7:79 13
Frames { F: 1, s, 2 { } G: 2, t, 2 { } } Node_attributes { s { LIN_protocol = 1.3; } } Event_triggered_frames { E: T, 6, F, G; } => 7:125 18
Frames { F: 1, s, 2 { } } Event_triggered_frames { E: T, 6, x; } => 7:61 1
Frames { F: 1, s, 2 { } } Event_triggered_frames { E: R, 6, F; } => 7:55 1
Frames { F: 1, m, 2 { } } Sporadic_frames { S: F, x; } => 7:51 1
";

/// Tables, in line 6.
const ENTRIES: &str = "Schedule_tables { T { MasterReq delay 1000000 ms; } } =>
Schedule_tables { T { MasterReq delay 1000000.001 ms; } } => 6:39 17
Schedule_tables { T { F delay 10 ms; } } => 6:23 1
";

#[test]
fn rules_broken_alone(rt: HostRuntime) -> Result<(), Fail> {
    expect_findings(&rt, rt.alloc(), &[HEADER, TABLE], RULES)?;
    expect_findings(&rt, rt.alloc(), &[HEADER], ENTRIES)
}

/// An item of which a text may have so many, with the parts of its text before and after its
/// number.
struct Limit<'a> {
    front: &'a [&'a [u8]],
    item: (&'a [u8], &'a [u8]),
    end: &'a [u8],
    most: u64,
    want: &'a str,
}

const LIMITS: [Limit<'static>; 5] = [
    Limit {
        front: &[FOUR_LINES, b"Nodes { Master: m, 5 ms, 0.1 ms; Slaves: s"],
        item: (b", n", b""),
        end: b"; }\nSchedule_tables { T { MasterReq delay 10 ms; } }",
        most: 14,
        want: " 5:105 17",
    },
    Limit {
        front: &[HEADER, TABLE, b"Signals {"],
        item: (b" n", b": 1, 0, m, s;"),
        end: b"}",
        most: 1024,
        want: " 7:18357 17",
    },
    Limit {
        front: &[
            HEADER,
            TABLE,
            b"Frames { F: 1, m, 1 { } }\nSporadic_frames {",
        ],
        item: (b" n", b": F;"),
        end: b"}",
        most: 256,
        want: " 8:2213 17",
    },
    Limit {
        front: &[HEADER, b"Schedule_tables {"],
        item: (b" n", b" { MasterReq delay 10 ms; }"),
        end: b"}",
        most: 256,
        want: " 6:8101 17",
    },
    Limit {
        front: &[HEADER, b"Schedule_tables { T {"],
        item: (b" n", b" { } delay 10 ms;"),
        end: b"} }",
        most: 1024,
        want: " 6:22465 17",
    },
];

fn add_items(alloc: Global, text: &mut Vec<u8>, limit: &Limit, count: u64) -> Result<(), Fail> {
    let (before, behind) = limit.item;
    for number in 0..count {
        text.extend_from_slice(before)?;
        add_number(alloc, text, number)?;
        text.extend_from_slice(behind)?;
    }
    Ok(())
}

fn repeated(alloc: Global, limit: &Limit, count: u64) -> Result<Vec<u8>, Fail> {
    let mut text = joined(alloc, limit.front)?;
    add_items(alloc, &mut text, limit, count)?;
    text.extend_from_slice(limit.end)?;
    Ok(text)
}

/// As many items as there may be, and one more.
fn expect_limit(rt: &impl Abort, alloc: Global, limit: &Limit) -> Result<(), Fail> {
    let most = limit.most;
    let within = found(alloc, &repeated(alloc, limit, most)?)?;
    assert!(rt; within.is_empty(), "{most} items");
    let beyond = found(alloc, &repeated(alloc, limit, most.saturating_add(1))?)?;
    assert!(rt;
        beyond.as_slice() == limit.want.as_bytes(),
        "one more than {most}"
    );
    Ok(())
}

#[test]
fn limits(rt: HostRuntime) -> Result<(), Fail> {
    for limit in &LIMITS {
        expect_limit(&rt, rt.alloc(), limit)?;
    }
    Ok(())
}
