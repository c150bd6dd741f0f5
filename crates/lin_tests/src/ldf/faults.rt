//! The fault of each text that isn't read, with its place; and texts beside them that are read.

use super::outcomes::{expect_outcomes, outcome};
use crate::samples::{BYTE_ORDER_MARK, DOOR_CLUSTER, FOUR_LINES, HEADER, expect_text, joined};
use std::alloc::Global;
use std::process::Abort;
use std::test::Fail;

/// Texts that are over early.
const TEXTS: &str = " => 1:1 fault 4 Unexpected
LIN_description_file; \"x => 1:23 fault 3 OpenText
LIN_description_file => 1:21 fault 4 Unexpected
LIN_description_file = x; => 1:22 fault 4 Unexpected
lin_description_file; => 1:1 fault 4 Unexpected
Nodes { => 1:1 fault 4 Unexpected
";

/// What stands in the cluster with a door, what stands in its place, and the outcome.
const CHANGES: &str = "19.2 kbps -> 4294967.295 kbps => accepted
19.2 kbps -> 4294967.296 kbps => 4:13 fault 5 NumberTooLarge
19.2 kbps -> 19.2001 kbps => 4:13 fault 4 Unexpected
19.2 kbps -> 19.2000 kbps => accepted
Slaves: door -> Slaves: cem => 5:44 fault 7 NameTwice
LIN_speed -> X_rev = \"7\"; LIN_speed => accepted
cem -> cem => accepted
";

/// The cluster with a door, with a first text in place of the other.
fn changed(alloc: Global, change: &str) -> Result<Vec<u8>, Fail> {
    let (old, new) = change.split_once(" -> ").ok_or("no change")?;
    let text = std::str::from_utf8(DOOR_CLUSTER).unwrap_or("");
    let (front, back) = text.split_once(old).ok_or("nothing to change")?;
    joined(alloc, &[front.as_bytes(), new.as_bytes(), back.as_bytes()])
}

fn expect_changes(rt: &impl Abort, alloc: Global, cases: &str) -> Result<(), Fail> {
    for line in cases.lines() {
        let (change, want) = line.split_once(" => ").ok_or("no arrow")?;
        let found = outcome(alloc, &changed(alloc, change)?)?;
        expect_text(rt, found.as_bytes(), want.as_bytes(), change);
    }
    Ok(())
}

/// A fault of the tokens after one of the grammar, before it and at it: that of the tokens is the first one.
const BOTH_KINDS: &str = "Frames ; \" => 6:10 fault 3 OpenText
Frames ; x /* => 6:12 fault 2 OpenComment
Frames {} Frames {} \x7F => 6:21 fault 1 BadByte
x { } } \x7F \" => 6:9 fault 1 BadByte
Signals { a: 8, 5000000000, m; a: 8, 1, m; } /*/ => 6:46 fault 2 OpenComment
\x7F Frames ; => 6:1 fault 1 BadByte
Frames { \x7F ; => 6:10 fault 1 BadByte
Frames { /* ; => 6:10 fault 2 OpenComment
Frames \x7F => 6:8 fault 1 BadByte
Frames \"{ => 6:8 fault 3 OpenText
Frames /* { => 6:8 fault 2 OpenComment
";

/// Faults at the last byte.
const AT_THE_LAST_BYTE: &str = "\x7F => 6:1 fault 1 BadByte
Frames {}\x7F => 6:10 fault 1 BadByte
Frames {}\" => 6:10 fault 3 OpenText
Frames {}/* => 6:10 fault 2 OpenComment
Frames {}/ => 6:10 fault 4 Unexpected
Frames {}; => 6:10 fault 4 Unexpected
Frames {}} => 6:10 fault 4 Unexpected
Frames {}{ => 6:10 fault 4 Unexpected
Frames {}x => 6:11 fault 4 Unexpected
Frames { f => 6:11 fault 4 Unexpected
Frames { f: 5000000000 => 6:13 fault 5 NumberTooLarge
Signals { a: 8, 1, m; a => 6:23 fault 7 NameTwice
Frames {} Frames => 6:11 fault 6 SectionTwice
";

/// Sections in any order, each used one once.
const SECTIONS: &str = " => accepted
Signals {} Signals => 6:12 fault 6 SectionTwice
Frames {} Frames {} => 6:11 fault 6 SectionTwice
Sporadic_frames {} Sporadic_frames =  => 6:20 fault 6 SectionTwice
Event_triggered_frames {} Event_triggered_frames => 6:27 fault 6 SectionTwice
Node_attributes {} Node_attributes } => 6:20 fault 6 SectionTwice
Schedule_tables {} Schedule_tables => 6:20 fault 6 SectionTwice
Nodes { Master: m => 6:1 fault 6 SectionTwice
Frames {} Nodes => 6:11 fault 6 SectionTwice
Schedule_tables {} Node_attributes {} Event_triggered_frames {} Sporadic_frames {} Frames {} Signals {} => accepted
x {} x {} Sections {} => accepted
LIN_speed {} Master {1.5 ! \"}\" {};,=:/*}*/ } kbps{} => accepted
Sections {}; => 6:12 fault 4 Unexpected
Channel_name = \"x\"; => 6:14 fault 4 Unexpected
1 {} => 6:1 fault 4 Unexpected
{ } => 6:1 fault 4 Unexpected
\"x\" {} => 6:1 fault 4 Unexpected
x {} } => 6:6 fault 4 Unexpected
Frames => 6:7 fault 4 Unexpected
Frames ; => 6:8 fault 4 Unexpected
signals { a: b; } => accepted
Signals { Nodes: 1, 1, m; Signals: 1, 1, m; delay: 1, 0, m; } => accepted
Schedule_tables { delay { delay delay 1 ms; } Nodes { ms delay 0 ms; } } => accepted
";

/// Extra lines of the header.
const HEADER_LINES: &str =
    "LIN_description_file; Signals = { ; }, 7 !; kbps = ; Master = 1; LIN_protocol_version = \"2.2\"; Signals = { ; }, 7 !; kbps = ; Master = 1; LIN_language_version = \"2.2\"; Signals = { ; }, 7 !; kbps = ; Master = 1; LIN_speed = 19.2 kbps; Signals = { ; }, 7 !; kbps = ; Master = 1; Nodes { Master: m, 5 ms, 0.1 ms; Slaves: s; } => accepted
X = 1; LIN_description_file; LIN_protocol_version = \"2.2\"; LIN_language_version = \"2.2\"; LIN_speed = 19.2 kbps; Nodes { Master: m, 5 ms, 0.1 ms; Slaves: s; } => 1:1 fault 4 Unexpected
LIN_description_file; LIN_speed = 1 kbps; => 1:23 fault 4 Unexpected
LIN_description_file; LIN_description_file; => 1:23 fault 4 Unexpected
LIN_description_file; Nodes { } => 1:23 fault 4 Unexpected
LIN_description_file; X { } => 1:25 fault 4 Unexpected
LIN_description_file; X = { } ; { } => 1:33 fault 4 Unexpected
LIN_description_file; X = {  => 1:29 fault 4 Unexpected
LIN_description_file; X = 1 } => 1:29 fault 4 Unexpected
LIN_description_file; X = 1  => 1:29 fault 4 Unexpected
LIN_description_file; X = } ; => 1:27 fault 4 Unexpected
LIN_description_file; LIN_protocol_version = 2.2; => 1:46 fault 4 Unexpected
LIN_description_file; LIN_protocol_version = \"2\"; LIN_protocol_version => 1:51 fault 4 Unexpected
LIN_description_file; LIN_protocol_version = \"2\"; LIN_language_version = \"\"; LIN_speed = 1 bps; => 1:92 fault 4 Unexpected
";

/// Nodes, from line 5 on: their names differ.
const NODES: &str = "Nodes { Master: m, 5 ms, 0.1 ms; Slaves: s, m; } => 5:45 fault 7 NameTwice
Nodes { Master: m, 5 ms, 0.1 ms; Slaves: s, s } => 5:45 fault 7 NameTwice
Nodes { Master: m, 5 ms, 0.1 ms; Slaves: ; } => 5:42 fault 4 Unexpected
Nodes { Master: m, 5 ms, 0.1 ms; Slaves: s, ; } => 5:45 fault 4 Unexpected
Nodes { Master: m, 5 ms, 0.1 ms; Slaves: Nodes, Slaves, Master, ms; } => accepted
Nodes { Master: m, 0x5 ms, 0.1 ms; Slaves: s, t; } => 5:20 fault 4 Unexpected
Nodes { Master: m, 5 s, 0.1 ms; Slaves: s, t; } => 5:22 fault 4 Unexpected
Nodes { Master: m, 4294967.295 ms, 0.1 ms; Slaves: s, t; } => accepted
Nodes { Master: m, 4294967.296 ms, 0.1 ms; Slaves: s, t; } => 5:20 fault 5 NumberTooLarge
";

/// Names of one kind differ; fault 7 is at the second.
const NAMES_TWICE: &str = "Signals { a: 8, 0, m; a => 6:23 fault 7 NameTwice
Signals { a: 8, 0, m; b: 8, 0, m; b ! => 6:35 fault 7 NameTwice
Frames { f: 1, m, 1 { } f => 6:25 fault 7 NameTwice
Sporadic_frames { f: g; f:  => 6:25 fault 7 NameTwice
Event_triggered_frames { f: T, 1, g; f => 6:38 fault 7 NameTwice
Frames { f: 1, m, 1 { } } Sporadic_frames { f: f; } => 6:45 fault 7 NameTwice
Sporadic_frames { f: g; } Frames { f => 6:36 fault 7 NameTwice
Event_triggered_frames { f: T, 1, g; } Frames { g: 1, m, 1 { } f => 6:64 fault 7 NameTwice
Frames { f: 1, m, 1 { } } Event_triggered_frames { f =  => 6:52 fault 7 NameTwice
Sporadic_frames { f: g; } Event_triggered_frames { f: T, 1, g; } => 6:52 fault 7 NameTwice
Event_triggered_frames { f: T, 1, g; } Sporadic_frames { g: g; f => 6:64 fault 7 NameTwice
Schedule_tables { T { } T { } } => 6:25 fault 7 NameTwice
Node_attributes { s { } t { } s => 6:31 fault 7 NameTwice
Node_attributes { m { } m { } } => 6:25 fault 7 NameTwice
Node_attributes { ghost { } s { } ghost { } S { } } => accepted
Node_attributes { s { LIN_protocol = 1; LIN_protocol => 6:41 fault 7 NameTwice
Node_attributes { s { LIN_protocol = \"1\"; x = 1; LIN_protocol { } } } => 6:50 fault 7 NameTwice
Node_attributes { s { LIN_protocol = \"1\"; LIN_protocol } => 6:43 fault 7 NameTwice
Node_attributes { s { configured_NAD = 1; configured_NAD = 2; } } => 6:43 fault 7 NameTwice
Node_attributes { ghost { configured_NAD = 1; configured_NAD => 6:47 fault 7 NameTwice
Node_attributes { s { LIN_protocol { } } } => 6:36 fault 4 Unexpected
Node_attributes { s { LIN_protocol = 1; configured_NAD = 1; } t { configured_NAD = 1; LIN_protocol = 2.1; } } => accepted
Signals { s: 1, 0, m, s, s; m: 1, 0, m; f: 1, 0, m; } Frames { s: 1, m, 1 { f, 0; f, 0; } f: 1, m, 1 { } } Schedule_tables { s { } f { } } => accepted
Sporadic_frames { f: g, g, f; } => accepted
";

/// Tokens that are read and not used.
const LISTS_AND_GROUPS: &str =
    "Node_attributes { s { x = ; y = { ; { } ; } , ! \"}\" 1.5; z { a = ; } w {} } } => accepted
Node_attributes { s { x = 1 } } => 6:29 fault 4 Unexpected
Node_attributes { s { x = { } } ; } } => 6:31 fault 4 Unexpected
Node_attributes { s { x = { ;  => 6:31 fault 4 Unexpected
Node_attributes { s { x ; } } => 6:25 fault 4 Unexpected
Node_attributes { s { x : 1; } } => 6:25 fault 4 Unexpected
Node_attributes { s { x { } ; } } => 6:29 fault 4 Unexpected
Node_attributes { s { x {  => 6:27 fault 4 Unexpected
Node_attributes { s { 1 = 1; } } => 6:23 fault 4 Unexpected
Schedule_tables { T { AssignNAD { 1, { ; } } delay 1 ms; x {} delay 2 ms; } } => accepted
Schedule_tables { T { AssignNAD { } { } delay 1 ms; } } => 6:37 fault 4 Unexpected
Schedule_tables { T { AssignNAD {  => 6:35 fault 4 Unexpected
x {  => 6:5 fault 4 Unexpected
x { { }  => 6:9 fault 4 Unexpected
x { { } } } => 6:11 fault 4 Unexpected
";

/// Initial values, and words after them.
const INITS: &str =
    "Signals { a: 8, {5}, m; b: 16, {1, 2}, m, s, t; c: 8, {1, 1, 1}, m; } => accepted
Signals { a: 8, {}, m; } => 6:18 fault 4 Unexpected
Signals { a: 8, {1, }, m; } => 6:21 fault 4 Unexpected
Signals { a: 8, {1 2}, m; } => 6:20 fault 4 Unexpected
Signals { a: 8, {1, 2; m; } => 6:22 fault 4 Unexpected
Signals { a: 8, m; } => 6:17 fault 4 Unexpected
Signals { a: 8, 1, ; } => 6:20 fault 4 Unexpected
Signals { a: 8, 1, m, ; } => 6:23 fault 4 Unexpected
Sporadic_frames { a: ; } => 6:22 fault 4 Unexpected
Event_triggered_frames { a: T, 1; } => 6:33 fault 4 Unexpected
Event_triggered_frames { a: T, 1, ; } => 6:35 fault 4 Unexpected
";

/// What stands before each text, and the texts.
#[test]
fn ldf_faults_and_findings(rt: HostRuntime) -> Result<(), Fail> {
    let cases: [(&[u8], &str); 17] = [
        (
            b"",
            "LIN_description_file; /* x => 1:23 fault 2 OpenComment",
        ),
        (
            DOOR_CLUSTER,
            "Frames {} Frames {} => 8:11 fault 6 SectionTwice",
        ),
        (b"", TEXTS),
        (b"\n", " => 2:1 fault 4 Unexpected"),
        (b" \t", " => 1:3 fault 4 Unexpected"),
        (b"// x\n", " => 2:1 fault 4 Unexpected"),
        (b"LIN_description_file;\n", " => 2:1 fault 4 Unexpected"),
        (BYTE_ORDER_MARK, " => 1:1 fault 4 Unexpected"),
        (b"LIN_description_file\x80", " => 1:21 fault 1 BadByte"),
        (HEADER, BOTH_KINDS),
        (HEADER, AT_THE_LAST_BYTE),
        (HEADER, SECTIONS),
        (b"", HEADER_LINES),
        (FOUR_LINES, NODES),
        (HEADER, NAMES_TWICE),
        (HEADER, LISTS_AND_GROUPS),
        (HEADER, INITS),
    ];
    for (front, cases) in cases {
        expect_outcomes(&rt, rt.alloc(), front, cases)?;
    }
    expect_changes(&rt, rt.alloc(), CHANGES)
}
