//! Two LDFs, and the lines of their differences.

use crate::clusters::{cluster_of, expect_bytes, replaced};
use crate::samples::LIGHTS;
use lin_export::table_loads;
use lin_ldf::parse;
use lin_sections::{
    Classes, ComparedLdf, compared_things, differences, is_any_listed, read_codings,
    write_differences,
};
use std::alloc::Global;
use std::process::Abort;
use std::test::Fail;

const OLD: &[u8] = b"LIN_description_file;
LIN_protocol_version = \"2.2\";
LIN_language_version = \"2.2\";
LIN_speed = 19.2 kbps;
Nodes { Master: cem, 5 ms, 0.1 ms; Slaves: door; }
Signals { level: 4, 1, cem, door; mode: 3, 0, cem, door; key: 8, { 7 }, door, cem; }
Frames { Light: 1, cem, 2 { level, 0; mode, 4; } Key: 2, door, 2 { key, 8; } }
Node_attributes { door { LIN_protocol = \"2.2\"; configured_NAD = 1; product_id = 0x1, 2; } }
Schedule_tables { Run { Light delay 10 ms; Key delay 10 ms; AssignNAD { door } delay 10 ms; } }
Signal_encoding_types { Step { physical_value, 0, 7, 0.50, 0, \"V\"; } }
Signal_representation { Step: mode; }
";

const NEW: &[u8] = b"LIN_description_file;
LIN_protocol_version = \"2.2\";
LIN_language_version = \"2.2\";
LIN_speed = 19.2 kbps;
Nodes { Master: cem, 5 ms, 0.1 ms; Slaves: gate; }
Signals { mode: 3, 0, cem, gate; level: 4, 2, cem, gate; key: 8, { 7 }, gate, cem; spare: 1, 0, cem, gate; }
Frames { Lamp: 1, cem, 2 { level, 0; mode, 5; spare, 9; } Key: 2, gate, 2 { key, 8; } }
Node_attributes { gate { LIN_protocol = \"2.2\"; configured_NAD = 1; product_id = 1, 2; } }
Schedule_tables { Run { Key delay 10 ms; AssignNAD { gate } delay 10 ms; Lamp delay 15 ms; } }
Signal_encoding_types { Step { physical_value, 0, 7, .5, 1, \"V\"; } }
Signal_representation { Step: mode; }
";

const LINES: &[u8] = b"names old:5:44 new:5:44 node: door -> gate
bytes old:6:21 new:6:44 signal level initial: 1 -> 2
compatible - new:6:84 signal: - -> spare
names old:7:10 new:7:10 frame: Light -> Lamp
bytes old:7:45 new:7:44 frame Lamp place mode: 4 -> 5
compatible old:7:10 new:7:54 frame Lamp place spare: - -> 9
timing old:9:19 new:9:19 table Run cycle: 30000 -> 35000
timing old:9:19 new:9:19 table Run load: 437 -> 375
timing old:9:25 new:9:74 table Run entry Lamp: 0 -> 2
timing old:9:37 new:9:85 table Run delay Lamp: 10000 -> 15000
meaning old:10:25 new:10:25 encoding Step physical 0..7: 0.5 0 \"V\" -> 0.5 1 \"V\"
";

/// Those of two classes.
const FEW: &[u8] = b"names old:5:44 new:5:44 node: door -> gate
names old:7:10 new:7:10 frame: Light -> Lamp
meaning old:10:25 new:10:25 encoding Step physical 0..7: 0.5 0 \"V\" -> 0.5 1 \"V\"
";

const ALL: Classes = Classes {
    bytes: true,
    timing: true,
    meaning: true,
    compatible: true,
    names: true,
};

const NONE: Classes = Classes {
    bytes: false,
    timing: false,
    meaning: false,
    compatible: false,
    names: false,
};

/// Writes the lines of two LDFs.
fn lines_of(
    rt: &impl Abort,
    alloc: Global,
    old: &[u8],
    new: &[u8],
    classes: Classes,
) -> Result<Vec<u8>, Fail> {
    let (old_cluster, new_cluster) = (cluster_of(alloc, old)?, cluster_of(alloc, new)?);
    let (old_description, new_description) = (parse(alloc, old)?, parse(alloc, new)?);
    let (old_codings, new_codings) = (read_codings(alloc, old)?, read_codings(alloc, new)?);
    let old_loads = table_loads(alloc, &old_cluster)?;
    let new_loads = table_loads(alloc, &new_cluster)?;
    let old = ComparedLdf {
        source: old,
        description: &old_description,
        cluster: &old_cluster,
        codings: &old_codings,
        loads: old_loads.as_slice(),
    };
    let new = ComparedLdf {
        source: new,
        description: &new_description,
        cluster: &new_cluster,
        codings: &new_codings,
        loads: new_loads.as_slice(),
    };
    let (olds, news) = compared_things(alloc, old, new)?;
    let found = differences(alloc, olds.as_slice(), news.as_slice())?;
    let mut written = Vec::new(alloc);
    write_differences("old", "new", found.as_slice(), classes, &mut written)?;
    assert!(rt;
        is_any_listed(found.as_slice(), classes) == !written.as_slice().is_empty(),
        "listed"
    );
    Ok(written)
}

/// Compares the lines of two LDFs with expected ones.
fn expect_lines(
    rt: &impl Abort,
    alloc: Global,
    old: &[u8],
    new: &[u8],
    classes: Classes,
    lines: &[u8],
) -> Result<(), Fail> {
    let written = lines_of(rt, alloc, old, new, classes)?;
    expect_bytes(rt, &written, lines, "two LDFs", "differences");
    Ok(())
}

#[test]
fn differences_of_ldfs(rt: HostRuntime) -> Result<(), Fail> {
    let alloc = rt.alloc();
    expect_lines(&rt, alloc, OLD, NEW, ALL, LINES)?;
    let few = Classes {
        meaning: true,
        names: true,
        ..NONE
    };
    expect_lines(&rt, alloc, OLD, NEW, few, FEW)?;
    expect_lines(&rt, alloc, OLD, NEW, NONE, b"")?;
    expect_lines(&rt, alloc, OLD, OLD, ALL, b"")?;
    expect_lines(&rt, alloc, NEW, NEW, ALL, b"")
}

/// Changes of `LIGHTS`: a name, words that are replaced in turn, and the lines.
const CHANGES: &[(&str, &[(&str, &str)], &str)] = &[
    (
        "another order and spelling",
        &[
            ("10 ms", "10.0 ms"),
            ("0x155", "341 /* as before */"),
            ("LeftKey, RightKey;", "RightKey, LeftKey;"),
            ("cem, lsm, rsm;", "cem, rsm, lsm;"),
        ],
        "",
    ),
    (
        "moved bits",
        &[("mode, 4;", "mode, 5;")],
        "bytes old:14:41 new:14:41 frame Light place mode: 4 -> 5\n",
    ),
    (
        "a signal on free bits",
        &[
            ("Signals {", "Signals { spare: 2, 0, cem, lsm;"),
            ("mode, 4;", "mode, 4; spare, 14;"),
        ],
        "compatible - new:6:11 signal: - -> spare\ncompatible old:14:3 new:14:51 frame Light place spare: - -> 14\n",
    ),
    (
        "a signal on the bits of another one",
        &[
            ("Signals {", "Signals { spare: 8, 0, cem, rsm;"),
            ("speed, 0;", "spare, 0;"),
        ],
        "compatible - new:6:11 signal: - -> spare\nbytes old:15:30 new:15:3 frame Fan place speed: 0 -> -\nbytes old:15:3 new:15:30 frame Fan place spare: - -> 0\n",
    ),
    (
        "a new name of a node",
        &[("rsm", "right")],
        "names old:5:49 new:5:49 node: rsm -> right\n",
    ),
    (
        "new names of frames of each kind and of a table",
        &[
            ("Light", "Lamp"),
            ("Spor:", "Order:"),
            ("Spor delay", "Order delay"),
            ("Keys", "AnyKey"),
            ("Main", "Normal"),
        ],
        "names old:14:3 new:14:3 frame: Light -> Lamp\nnames old:19:19 new:19:19 sporadic: Spor -> Order\nnames old:20:26 new:20:26 event: Keys -> AnyKey\nnames old:26:3 new:26:3 table: Main -> Normal\n",
    ),
    (
        "a new name and a new identifier",
        &[("Light", "Lamp"), ("0x00", "0x10")],
        "bytes old:14:3 - frame: Light -> -\ncompatible - new:14:3 frame: - -> Lamp\ntiming old:19:25 new:19:25 sporadic Spor members: Light Fan -> Lamp Fan\ntiming old:26:46 new:26:3 table Main entry Light: 2 -> -\ntiming old:26:3 new:26:46 table Main entry Lamp: - -> 2\n",
    ),
    (
        "names that are exchanged",
        &[("lkey", "xkey"), ("rkey", "lkey"), ("xkey", "rkey")],
        "bytes old:10:15 new:11:15 signal lkey publisher: lsm -> rsm\nbytes old:11:15 new:10:15 signal rkey publisher: rsm -> lsm\nbytes old:16:33 new:16:3 frame LeftKey place lkey: 8 -> -\nbytes old:16:3 new:16:33 frame LeftKey place rkey: - -> 8\nbytes old:17:34 new:17:3 frame RightKey place rkey: 8 -> -\nbytes old:17:3 new:17:34 frame RightKey place lkey: - -> 8\n",
    ),
    (
        "nodes of LIN 1.3",
        &[("LIN_protocol = \"2.2\"", "LIN_protocol = \"1.3\"")],
        "names old:22:3 new:22:3 node lsm protocol: 2.2 -> 1.3\nnames old:23:3 new:23:3 node rsm protocol: 2.2 -> 1.3\nbytes old:14:3 new:14:3 frame Light model: enhanced -> classic\nbytes old:15:3 new:15:3 frame Fan model: enhanced -> classic\nbytes old:16:3 new:16:3 frame LeftKey model: enhanced -> classic\nbytes old:17:3 new:17:3 frame RightKey model: enhanced -> classic\n",
    ),
    (
        "another rank in a sporadic frame",
        &[("Light, Fan;", "Fan, Light;")],
        "timing old:19:25 new:19:25 sporadic Spor members: Light Fan -> Fan Light\n",
    ),
    (
        "the last entry becomes the first one",
        &[
            (" Light delay 10 ms; }", " }"),
            ("Main {", "Main { Light delay 10 ms;"),
        ],
        "timing old:26:46 new:26:10 table Main entry Light: 2 -> 0\n",
    ),
];

fn lines_in(text: &[u8]) -> usize {
    text.iter().filter(|byte| **byte == b'\n').count()
}

/// Compares the lines of a changed LDF: forward, without a change, and in number back.
fn expect_change(
    rt: &impl Abort,
    alloc: Global,
    change: (&str, &[(&str, &str)], &str),
) -> Result<(), Fail> {
    let (name, edits, lines) = change;
    let mut new = Vec::from_slice(alloc, LIGHTS)?;
    for (from, to) in edits {
        new = replaced(alloc, &new, from.as_bytes(), to.as_bytes())?;
    }
    let written = lines_of(rt, alloc, LIGHTS, &new, ALL)?;
    expect_bytes(rt, &written, lines.as_bytes(), name, "differences");
    let same = lines_of(rt, alloc, &new, &new, ALL)?;
    expect_bytes(rt, &same, b"", name, "no differences");
    let back = lines_of(rt, alloc, &new, LIGHTS, ALL)?;
    assert_eq!(rt; lines_in(&back), lines_in(&written), "{name}");
    Ok(())
}

#[test]
fn differences_of_changes(rt: HostRuntime) -> Result<(), Fail> {
    for change in CHANGES {
        expect_change(&rt, rt.alloc(), *change)?;
    }
    Ok(())
}
