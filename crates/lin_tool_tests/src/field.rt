//! Texts of the field: read, settled, checked, and written as plain ones.

use crate::clusters::expect_bytes;
use lin_export::write_frames;
use lin_field::{Checked, Normalized, check_field, read_field, settle, write_plain};
use std::alloc::Global;
use std::process::Abort;
use std::test::Fail;

/// A text of LIN 1.3, with what old editors leave in it.
const OLD: &[u8] =
    b"LIN_description_file;\nLIN_protocol_version = \"1.3\";\nLIN_language_version = \"1.3\";\nLIN_speed = 19.2 kbps;\nNodes { Master: cem, 5 ms, 0.1 ms; Slaves: lsm, rsm; }\nSignals { lkey: 8, 0, lsm, cem, hood,; rkey: 8, 300, rsm, cem; wide: 24, 0x10203, cem, lsm; }\nFrames { Left: 0x21, lsm { lkey, 8; } Right: 0x22, rsm { rkey, 8; } Light: 0x25, cem { wide, 0; } }\nEvent_triggered_frames { Keys: 0x04, Left, Right; }\nDiagnostic_addresses { lsm: 1; rsm: 2; }\nSchedule_tables { Main { Keys delay 6 ms; Light delay 0 ms; } Empty { } }\n";

const OLD_FRAMES: &[u8] =
    b"frame 0 Left 0x21 61 4 lsm classic\nplace 0 8 8 lkey 0\nframe 1 Right 0x22 E2 4 rsm classic\nplace 1 8 8 rkey 44\nframe 2 Light 0x25 25 4 cem classic\nplace 2 0 24 wide x030201\nevent 0 Keys 0x04 C4 Keys.members Left Right\n";

const OLD_PLAIN: &[u8] =
    b"LIN_description_file;\nLIN_protocol_version = \"1.3\";\nLIN_language_version = \"1.3\";\nLIN_speed = 19.2 kbps;\nNodes {\n  Master: cem, 5 ms, 0.1 ms;\n  Slaves: lsm, rsm;\n}\nSignals {\n  lkey: 8, 0, lsm, cem;\n  rkey: 8, 44, rsm, cem;\n  wide: 24, {3, 2, 1}, cem, lsm;\n}\nFrames {\n  Left: 33, lsm, 4 { lkey, 8; }\n  Right: 34, rsm, 4 { rkey, 8; }\n  Light: 37, cem, 4 { wide, 0; }\n}\nEvent_triggered_frames {\n  Keys: Keys_members, 4, Left, Right;\n}\nNode_attributes {\n  cem {\n    LIN_protocol = \"1.3\";\n  }\n  lsm {\n    LIN_protocol = \"1.3\";\n    configured_NAD = 1;\n  }\n  rsm {\n    LIN_protocol = \"1.3\";\n    configured_NAD = 2;\n  }\n}\nSchedule_tables {\n  Main {\n    Keys delay 6 ms;\n    Light delay 10 ms;\n  }\n  Keys_members {\n    Left delay 6 ms;\n    Right delay 6 ms;\n  }\n}\n";

/// The line, the column and the number of each warning.
const OLD_WARNINGS: [(u64, u64, u8); 9] = [
    (6, 33, 1),
    (6, 37, 23),
    (6, 49, 8),
    (6, 70, 21),
    (8, 38, 9),
    (8, 44, 9),
    (10, 26, 9),
    (10, 55, 10),
    (10, 63, 16),
];

fn settled_of(alloc: Global, bytes: &mut [u8]) -> Result<Normalized, Fail> {
    match read_field(alloc, bytes) {
        Ok(text) => Ok(settle(alloc, text)?),
        Err(_) => Err(Fail::from("not read")),
    }
}

fn checked_of(alloc: Global, settled: &Normalized) -> Result<Checked, Fail> {
    match check_field(alloc, settled) {
        Ok(checked) => Ok(checked),
        Err(_) => Err(Fail::from("refused")),
    }
}

fn expect_warnings(rt: &impl Abort, checked: &Checked) {
    let warnings = checked.warnings.as_slice();
    assert_eq!(rt; warnings.len(), OLD_WARNINGS.len());
    for (remark, (line, column, number)) in warnings.iter().zip(OLD_WARNINGS.iter()) {
        assert!(rt; remark.is_warning);
        assert_eq!(rt; remark.finding.line, *line);
        assert_eq!(rt; remark.finding.column, *column);
        assert_eq!(rt; remark.finding.number, *number);
    }
}

#[test]
fn an_old_text_is_settled(rt: HostRuntime) -> Result<(), Fail> {
    let alloc = rt.alloc();
    let mut bytes = Vec::from_slice(alloc, OLD)?;
    let settled = settled_of(alloc, bytes.as_mut_slice())?;
    let checked = checked_of(alloc, &settled)?;
    expect_warnings(&rt, &checked);
    let mut frames = Vec::new(alloc);
    write_frames(&checked.cluster, &mut frames)?;
    expect_bytes(&rt, &frames, OLD_FRAMES, "an old text", "frames");
    let mut plain = Vec::new(alloc);
    write_plain(alloc, &settled, bytes.as_slice(), &mut plain)??;
    expect_bytes(&rt, &plain, OLD_PLAIN, "an old text", "plain");
    Ok(())
}
