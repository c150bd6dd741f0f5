//! What raw values of signals mean, their texts, and the ways back; what is wrong with encodings.

use crate::clusters::{cluster_of, expect_bytes};
use arrayvec::ArrayVec;
use lin_export::{put_line_meaning, write_signals};
use lin_frame::{Value, ValueBytes};
use lin_sections::read_codings;
use lin_text::{TextBuffer, TextWriter};
use lin_values::{Coded, Meaning, coded_by, read_decimal, shown};
use std::alloc::Global;
use std::process::Abort;
use std::test::Fail;

/// Values in numbers, in words, in characters and in digits.
const CODED: &[u8] = b"LIN_description_file;
LIN_protocol_version = \"2.2\";
LIN_language_version = \"2.2\";
LIN_speed = 19.2 kbps;
Nodes { Master: cem, 5 ms, 0.1 ms; Slaves: door; }
Signals { temp: 10, 450, cem, door; state: 3, 1, cem, door; part: 24, {65, 50, 0}, cem, door; date: 16, {0x20, 0x24}, cem, door; plain: 8, 0, cem, door; }
Frames { Status: 1, cem, 8 { temp, 0; state, 10; part, 16; date, 40; plain, 56; } }
Schedule_tables { Run { Status delay 20 ms; } }
Signal_encoding_types {
  Temp { logical_value, 1023, \"invalid\"; physical_value, 0, 1022, 0.1, -40, \"degC\"; }
  State { logical_value, 0, \"stopped\"; logical_value, 1, \"opening\"; logical_value, 7; }
  Part { ascii_value; }
  Date { bcd_value; }
}
Signal_representation { Temp: temp; State: state; Part: part; Date: date; }
";

const CODED_LIST: &[u8] = b"coding 0 temp 10 Temp
value 0 1023 invalid
range 0 0 1022 -40 62.2 degC
initial 0 450 5 degC
coding 1 state 3 State
value 1 0 stopped
value 1 1 opening
value 1 7 7
initial 1 1 opening
coding 2 part 24 Part
ascii 2
initial 2 x413200 \"A2\"
coding 3 date 16 Date
bcd 3
initial 3 x2024 2024
coding 4 plain 8 -
initial 4 0
";

/// Each warning once.
const WARNED: &[u8] = b"LIN_description_file;
LIN_protocol_version = \"2.2\";
LIN_language_version = \"2.2\";
LIN_speed = 19.2 kbps;
Nodes { Master: cem, 5 ms, 0.1 ms; Slaves: door; }
Signals { temp: 10, 450, cem, door; state: 3, 1, cem, door; part: 24, {65, 50, 0}, cem, door; date: 16, {0x20, 0x24}, cem, door; plain: 8, 0, cem, door; }
Frames { Status: 1, cem, 8 { temp, 0; state, 10; part, 16; date, 40; plain, 56; } }
Schedule_tables { Run { Status delay 20 ms; } }
Signal_encoding_types {
  Temp { logical_value, 1, \"a\"; logical_value, 1; physical_value, 5, 2, 1, 0; physical_value, 0, 9, 0, 0; physical_value, 9, 12, 1, 0; other; }
  Temp { }
}
Signal_representation { Temp: temp, none, temp, part, state; Lost: date; }
";

/// The line, the column and the number of each warning.
const WARNINGS: [(u64, u64, u8); 11] = [
    (10, 33, 38),
    (10, 51, 36),
    (10, 79, 40),
    (10, 107, 37),
    (10, 136, 31),
    (11, 3, 32),
    (13, 37, 34),
    (13, 43, 35),
    (13, 49, 41),
    (13, 55, 39),
    (13, 62, 33),
];

/// A scalar's signal, its raw value, and the text of that.
const TEXTS: [(u16, u16, &[u8]); 10] = [
    (0, 0, b"-40 degC"),
    (0, 399, b"-0.1 degC"),
    (0, 400, b"0 degC"),
    (0, 450, b"5 degC"),
    (0, 1022, b"62.2 degC"),
    (0, 1023, b"invalid"),
    (1, 1, b"opening"),
    (1, 7, b"7"),
    (1, 5, b""),
    (4, 3, b""),
];

/// A signal, a text, and which raw value has it.
const WAYS_BACK: [(u16, &[u8], Option<u16>); 9] = [
    (0, b"5 degC", Some(450)),
    (0, b"5.00degC", Some(450)),
    (0, b"-0.1", Some(399)),
    (0, b"5.05 degC", None),
    (0, b"5 %", None),
    (0, b"invalid", Some(1023)),
    (1, b"opening", Some(1)),
    (1, b"closing", None),
    (4, b"3", None),
];

/// A decimal with its unit, and the raw values of the first signal next to it: not above it, not
/// below it, and the nearest.
const NEAREST: [(&[u8], &[u8], Option<u16>, Option<u16>, Option<u16>); 5] = [
    (b"5", b"degC", Some(450), Some(450), Some(450)),
    (b"5.05", b"", Some(450), Some(451), Some(450)),
    (b"5.051", b"degC", Some(450), Some(451), Some(451)),
    (b"-41", b"degC", None, Some(0), Some(0)),
    (b"5", b"%", None, None, None),
];

fn coded_of(alloc: Global, ldf: &[u8], warnings: &[(u64, u64, u8)]) -> Result<Coded, Fail> {
    let cluster = cluster_of(alloc, ldf)?;
    let (coded, told) = coded_by(alloc, &cluster, read_codings(alloc, ldf)?)?;
    if told.as_slice().len() != warnings.len() {
        return Err(Fail::from("other warnings"));
    }
    for (finding, (line, column, number)) in told.as_slice().iter().zip(warnings.iter()) {
        if finding.line != *line || finding.column != *column || finding.number != *number {
            return Err(Fail::from("another warning"));
        }
    }
    Ok(coded)
}

/// The text of what a value means, or nothing.
fn text_of(alloc: Global, coded: &Coded, signal: u16, value: &Value) -> Result<Vec<u8>, Fail> {
    match coded.meaning(signal, value) {
        Some(meaning) => Ok(shown(alloc, &meaning)?),
        None => Ok(Vec::new(alloc)),
    }
}

/// Bytes as the value of an array.
fn bytes(given: &[u8]) -> Result<Value, Fail> {
    match ArrayVec::try_from(given) {
        Ok(bytes) => Ok(Value::Bytes(ValueBytes::new(bytes))),
        Err(_) => Err(Fail::from("too many bytes")),
    }
}

#[test]
fn text_of_a_value_in_a_line(rt: HostRuntime) -> Result<(), Fail> {
    let mut text = Vec::new(rt.alloc());
    let mut buffer = TextBuffer::empty();
    let mut out = TextWriter::new(&mut text, &mut buffer);
    put_line_meaning(&mut out, &Meaning::Named(b"not\nvalid\n"));
    out.finish()?;
    expect_bytes(&rt, &text, b"not?valid?", "a text", "line");
    Ok(())
}

#[test]
fn signals_with_their_encodings(rt: HostRuntime) -> Result<(), Fail> {
    let alloc = rt.alloc();
    let coded = coded_of(alloc, CODED, &[])?;
    let cluster = cluster_of(alloc, CODED)?;
    let mut found = Vec::new(alloc);
    write_signals(&cluster, &coded, &mut found)?;
    expect_bytes(&rt, &found, CODED_LIST, "a cluster", "signals");
    Ok(())
}

#[test]
fn each_warning(rt: HostRuntime) -> Result<(), Fail> {
    let _coded = coded_of(rt.alloc(), WARNED, &WARNINGS)?;
    Ok(())
}

#[test]
fn texts_of_values(rt: HostRuntime) -> Result<(), Fail> {
    let alloc = rt.alloc();
    let coded = coded_of(alloc, CODED, &[])?;
    for (signal, raw, want) in TEXTS.iter() {
        let text = text_of(alloc, &coded, *signal, &Value::Scalar(*raw))?;
        expect_bytes(&rt, &text, want, "a scalar", "text");
    }
    let part = bytes(&[0x41, 0x32, 0])?;
    let text = text_of(alloc, &coded, 2, &part)?;
    expect_bytes(&rt, &text, b"\"A2\"", "an array", "characters");
    let date = bytes(&[0x20, 0x24])?;
    let text = text_of(alloc, &coded, 3, &date)?;
    expect_bytes(&rt, &text, b"2024", "an array", "digits");
    Ok(())
}

#[test]
fn values_of_texts(rt: HostRuntime) -> Result<(), Fail> {
    let alloc = rt.alloc();
    let coded = coded_of(alloc, CODED, &[])?;
    for (signal, text, want) in WAYS_BACK.iter() {
        let raws = coded.raws_of(alloc, *signal, text)?;
        assert_eq!(&rt; raws.only(), want.map(Value::Scalar));
        assert_eq!(&rt; raws.count(), u64::from(want.is_some()));
    }
    let raws = coded.raws_of(alloc, 2, b"\"A2\"")?;
    assert_eq!(&rt; raws.only(), Some(bytes(&[0x41, 0x32, 0])?));
    let tenth: i128 = 100_000_000_000_000_000_000_000;
    let raws = coded.raws_within(alloc, 0, 49 * tenth, 51 * tenth, b"degC")?;
    assert_eq!(&rt; raws.count(), 3);
    assert!(&rt; raws.has(&Value::Scalar(449)));
    assert!(&rt; raws.has(&Value::Scalar(451)));
    assert!(&rt; !raws.has(&Value::Scalar(452)));
    Ok(())
}

#[test]
fn nearest_values(rt: HostRuntime) -> Result<(), Fail> {
    let coded = coded_of(rt.alloc(), CODED, &[])?;
    for (text, unit, below, above, nearest) in NEAREST.iter() {
        let Some(number) = read_decimal(text) else {
            return Err(Fail::from("no decimal"));
        };
        assert_eq!(&rt; coded.neighbours(0, number, unit), (*below, *above));
        assert_eq!(&rt; coded.nearest(0, number, unit), *nearest);
    }
    Ok(())
}
