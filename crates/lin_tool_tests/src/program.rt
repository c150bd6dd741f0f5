//! What the program does with readers and writers that tell their bytes, and with such as fail.

use crate::clusters::{cluster_of, expect_bytes};
use crate::fakes::{Narrow, Piecewise};
use crate::samples::{BUILT_IN, LIGHTS};
use lin_bench::LinePlace;
use lin_log::run_script;
use lin_text::Many;
use lin_tool::{
    Described, Encodings, Extras, Fault, Format, Lists, Notes, Opened, Reading, Settings, Shown,
    Wanted, cluster_of_reader, cluster_of_text, field_of_reader, opening_table, play_script,
    read_levels, read_text, replay_script, write_list, write_lists, write_shown,
};
use std::alloc::Global;
use std::process::Abort;
use std::test::Fail;

/// The cluster alone.
const NO_EXTRAS: Extras = Extras {
    encodings: Encodings::Unread,
    is_linted: false,
    is_configured: false,
};

/// With what the values of signals mean.
const CODINGS: Extras = Extras {
    encodings: Encodings::Told,
    is_linted: false,
    is_configured: false,
};

/// With that, and with what is odd.
const ALL: Extras = Extras {
    encodings: Encodings::Told,
    is_linted: true,
    is_configured: false,
};

/// With what is odd alone.
const LINTED: Extras = Extras {
    encodings: Encodings::Unread,
    is_linted: true,
    is_configured: false,
};

fn cluster_text(alloc: Global, mut rest: &[u8]) -> Result<Vec<u8>, Fault> {
    let mut notes = Notes::new(alloc, Wanted::default());
    let Described {
        cluster,
        coded: _coded,
        limits: _limits,
    } = cluster_of_reader(alloc, &mut rest, NO_EXTRAS, &mut notes)?;
    let mut text = Vec::new(alloc);
    write_list(&cluster, &mut text)?;
    Ok(text)
}

#[test]
fn cluster_is_listed(rt: HostRuntime) {
    let listed = match cluster_text(rt.alloc(), LIGHTS) {
        Ok(text) => text,
        Err(_) => Vec::new(rt.alloc()),
    };
    let wanted =
        b"node 0 cem -\nnode 1 lsm 1\nnode 2 rsm 2\nsignal 0 level\nsignal 1 mode\nsignal 2 speed\nsignal 3 lkey\nsignal 4 rkey\ntable 0 Main 3\ntable 1 Resolve 2\ntable 2 Diag 2\n";
    expect_bytes(&rt, &listed, wanted, "a cluster", "a list");
}

/// A text of LIN 1.3, with a frame without a size, and a value that is too large.
const OLD: &[u8] =
    b"LIN_description_file;\nLIN_protocol_version = 1.3;\nLIN_speed = 19.2 kbps;\nNodes { Master: m, 5 ms, 0.1 ms; Slaves: s; }\nSignals { a: 8, 300, m, s; }\nFrames { A: 0x20, m { a, 0; } }\nDiagnostic_addresses { s: 9; }\nSchedule_tables { T { A delay 10 ms; } }\n";

/// The list of the cluster that a text of the field describes, and with how many warnings it is read.
fn field_text(alloc: Global, mut rest: &[u8]) -> Result<(Vec<u8>, usize), Fault> {
    let mut notes = Notes::new(alloc, Wanted::default());
    let Described {
        cluster,
        coded: _coded,
        limits: _limits,
    } = field_of_reader(alloc, &mut rest, NO_EXTRAS, &mut notes)?;
    let mut text = Vec::new(alloc);
    write_list(&cluster, &mut text)?;
    Ok((text, notes.warnings.as_slice().len()))
}

#[test]
fn text_of_the_field_is_listed(rt: HostRuntime) -> Result<(), Fail> {
    let (listed, warnings) = field_text(rt.alloc(), OLD)?;
    let wanted = b"node 0 m -\nnode 1 s 9\nsignal 0 a\ntable 0 T 1\n";
    expect_bytes(&rt, &listed, wanted, "a text of the field", "a list");
    assert_eq!(rt; warnings, 1);
    assert!(rt;
        matches!(
            field_text(rt.alloc(), b"LIN_description_file"),
            Err(Fault::Ldf(_))
        )
    );
    Ok(())
}

/// A signal with an encoding, in which a value stands twice.
const CODED: &[u8] =
    b"LIN_description_file;\nLIN_protocol_version = \"2.1\";\nLIN_language_version = \"2.1\";\nLIN_speed = 19.2 kbps;\nNodes { Master: m, 5 ms, 0.1 ms; Slaves: s; }\nSignals { a: 8, 9, m, s; }\nFrames { A: 0x20, m, 1 { a, 0; } }\nSchedule_tables { T { A delay 10 ms; } }\nSignal_encoding_types { Temp { physical_value, 0, 250, 0.5, -40, \"degC\"; logical_value, 255; logical_value, 255, \"none\"; } }\nSignal_representation { Temp: a; }\n";

/// The list of signals alone.
const SIGNALS: Lists = Lists {
    frames: false,
    maps: false,
    slots: false,
    signals: true,
    timing: None,
};

/// The lists of a cluster, and what is said on standard error.
fn listed(
    alloc: Global,
    described: Result<Described, Fault>,
    notes: &Notes<'_>,
) -> Result<(Vec<u8>, Vec<u8>), Fault> {
    let Described {
        cluster,
        coded,
        limits: _limits,
    } = described?;
    let mut lists = Vec::new(alloc);
    write_lists(&cluster, coded.as_ref(), SIGNALS, &mut lists)?;
    let mut told = Vec::new(alloc);
    notes.write(None, &mut told)?;
    Ok((lists, told))
}

/// Those of a plain text, or of one of the field, from a reader of three bytes a read.
fn coded_text(
    alloc: Global,
    text: &[u8],
    reading: Reading,
    extras: Extras,
) -> Result<(Vec<u8>, Vec<u8>), Fault> {
    let mut notes = Notes::new(alloc, Wanted::default());
    let mut reader = Piecewise::new(text, 3);
    let described = match reading {
        Reading::Plain => cluster_of_reader(alloc, &mut reader, extras, &mut notes),
        Reading::Field => field_of_reader(alloc, &mut reader, extras, &mut notes),
    };
    listed(alloc, described, &notes)
}

#[test]
fn encodings_are_read_where_they_are_wanted(rt: HostRuntime) -> Result<(), Fail> {
    let alloc = rt.alloc();
    let list = b"node 0 m -\nnode 1 s -\nsignal 0 a\ntable 0 T 1\n";
    let coded =
        b"node 0 m -\nnode 1 s -\nsignal 0 a\ntable 0 T 1\ncoding 0 a 8 Temp\nrange 0 0 250 -40 85 degC\nvalue 0 255 255\nvalue 0 255 none\ninitial 0 9 -35.5 degC\n";
    let warning = b"9:94 warning 38 LogicalTwice\n";
    for reading in [Reading::Plain, Reading::Field] {
        let (lists, told) = coded_text(alloc, CODED, reading, NO_EXTRAS)?;
        expect_bytes(&rt, &lists, list, "without encodings", "lists");
        expect_bytes(&rt, &told, b"", "without encodings", "what is told");
        let (lists, told) = coded_text(alloc, CODED, reading, CODINGS)?;
        expect_bytes(&rt, &lists, coded, "with encodings", "lists");
        expect_bytes(&rt, &told, warning, "with encodings", "what is told");
        let fault = coded_text(alloc, &CODED[..200], reading, CODINGS);
        assert!(rt; matches!(fault, Err(Fault::Ldf(_))));
    }
    Ok(())
}

/// A text with a signal that no frame has and nobody reads, a name that is of no frame, a delay beside the
/// time base, an encoding in which a value stands twice, and one that no signal has.
const ODD: &[u8] =
    b"LIN_description_file;\nLIN_protocol_version = \"2.1\";\nLIN_language_version = \"2.1\";\nLIN_speed = 19.2 kbps;\nNodes { Master: m, 5 ms, 0.1 ms; Slaves: s; }\nSignals { a: 8, 9, m, s; b: 8, 0, s; }\nFrames { A: 0x20, m, 1 { a, 0; } }\nNode_attributes { s { configurable_frames { A; b; } } }\nSchedule_tables { T { A delay 11 ms; } }\nSignal_encoding_types { Temp { logical_value, 255; logical_value, 255; } Old { } }\nSignal_representation { Temp: a; }\n";

#[test]
fn odd_texts_are_told_where_they_are_linted(rt: HostRuntime) -> Result<(), Fail> {
    let alloc = rt.alloc();
    let coded = b"10:52 warning 38 LogicalTwice\n";
    let all =
        b"6:26 warning 51 UnplacedSignal\n6:26 warning 54 NoSubscriber\n8:48 warning 59 BadConfigurable\n9:31 warning 56 OffTimeBase\n10:52 warning 38 LogicalTwice\n10:74 warning 60 UnusedEncoding\n";
    let odd =
        b"6:26 warning 51 UnplacedSignal\n6:26 warning 54 NoSubscriber\n8:48 warning 59 BadConfigurable\n9:31 warning 56 OffTimeBase\n10:74 warning 60 UnusedEncoding\n";
    for reading in [Reading::Plain, Reading::Field] {
        let (lists, told) = coded_text(alloc, ODD, reading, CODINGS)?;
        expect_bytes(&rt, &told, coded, "not linted", "what is told");
        let (linted, told) = coded_text(alloc, ODD, reading, ALL)?;
        expect_bytes(&rt, &told, all, "linted", "what is told");
        expect_bytes(&rt, &linted, &lists, "linted", "lists");
        let (_lists, told) = coded_text(alloc, ODD, reading, LINTED)?;
        expect_bytes(&rt, &told, odd, "linted alone", "what is told");
    }
    Ok(())
}

/// The exit status of a check of that text, which is linted, and what is told on standard error, where
/// these warnings are denied and allowed.
fn leveled(
    alloc: Global,
    denied: Option<&str>,
    allowed: Option<&str>,
) -> Result<(u8, Vec<u8>), Fault> {
    let mut notes = Notes::new(alloc, Wanted::default());
    if let Ok(levels) = read_levels(alloc, denied, allowed, Reading::Plain, LINTED) {
        notes.levels = levels;
    }
    let mut rest = ODD;
    let described = cluster_of_reader(alloc, &mut rest, LINTED, &mut notes);
    let (_lists, told) = listed(alloc, described, &notes)?;
    Ok((notes.status(&Ok(())), told))
}

#[test]
fn allowed_warnings_are_left_out_and_denied_ones_have_a_status(
    rt: HostRuntime,
) -> Result<(), Fail> {
    let alloc = rt.alloc();
    let (status, told) = leveled(alloc, Some("all"), Some("51-56,BadConfigurable"))?;
    let unused = b"10:74 warning 60 UnusedEncoding\n";
    expect_bytes(
        &rt,
        &told,
        unused,
        "all but one are allowed",
        "what is told",
    );
    assert_eq!(rt; status, 6);
    let (status, told) = leveled(alloc, Some("51-59"), Some("51-59"))?;
    expect_bytes(
        &rt,
        &told,
        unused,
        "what is denied is allowed",
        "what is told",
    );
    assert_eq!(rt; status, 0);
    let (status, _told) = leveled(alloc, Some("52,53,55"), None)?;
    assert_eq!(rt; status, 0);
    let (status, told) = leveled(alloc, None, Some("all"))?;
    expect_bytes(&rt, &told, b"", "all are allowed", "what is told");
    assert_eq!(rt; status, 0);
    let kinds = ["36", "28", "54-", "", "all,", "NoSubscribers"];
    for bad in kinds {
        assert!(rt; read_levels(alloc, Some(bad), None, Reading::Plain, LINTED).is_err());
    }
    Ok(())
}

/// How runs of these tests begin.
const SETTINGS: Settings<'static> = Settings {
    file: None,
    reading: Reading::Plain,
    table: None,
    capacity: 16,
    format: Format::Log,
    is_physical: false,
    is_configured: false,
    is_strict: false,
};

fn replayed(alloc: Global, script: &[u8]) -> Result<Vec<u8>, Fault> {
    let mut rest = BUILT_IN;
    let mut reader = script;
    let mut text = Vec::new(alloc);
    let mut notes = Notes::new(alloc, Wanted::default());
    let Described {
        cluster,
        coded: _coded,
        limits: _limits,
    } = cluster_of_reader(alloc, &mut rest, NO_EXTRAS, &mut notes)?;
    let table = opening_table(&cluster, None)?;
    let opened = Opened {
        cluster,
        table,
        coded: None,
        limits: Many::new(Vec::new(alloc)),
        settings: SETTINGS,
    };
    replay_script(alloc, opened, &mut reader, &mut text, &mut notes)?;
    Ok(text)
}

#[test]
fn script_is_replayed(rt: HostRuntime) {
    let log = match replayed(rt.alloc(), b"bus open\nbus finish\n") {
        Ok(text) => text,
        Err(_) => Vec::new(rt.alloc()),
    };
    let wanted = b"bus open\n> slot 0 0 -\nbus finish\n> seen silent\n";
    expect_bytes(&rt, &log, wanted, "a script", "a log");
    let bad = replayed(rt.alloc(), b"bus open\nbus shut\n");
    assert!(rt; matches!(bad, Err(Fault::BadLine { line: 2 })));
}

/// Values in words over the text with an encoding, of which one isn't met.
const WORDS: &[u8] =
    b"write a = -35.0degC\nwrite a ~ 0.3\nslot\nexpect signal s a = 0.3 +- 0.2 degC\nexpect signal s a = 1 degC\n";

/// What a play of a bench script says on standard error, over a text whose encodings are read so.
fn told_of_play(
    alloc: Global,
    script: &[u8],
    encodings: Encodings,
) -> Result<(Result<(), Fault>, Vec<u8>), Fault> {
    let mut notes = Notes::new(alloc, Wanted::default());
    let mut rest = CODED;
    let extras = Extras {
        encodings,
        is_linted: false,
        is_configured: false,
    };
    let Described {
        cluster,
        coded,
        limits,
    } = cluster_of_reader(alloc, &mut rest, extras, &mut notes)?;
    let table = opening_table(&cluster, None)?;
    let mut reader = script;
    let mut log = Vec::new(alloc);
    let mut errors = Vec::new(alloc);
    let opened = Opened {
        cluster,
        table,
        coded,
        limits,
        settings: Settings {
            format: Format::Named,
            is_physical: encodings == Encodings::Told,
            is_configured: false,
            ..SETTINGS
        },
    };
    let done = play_script(
        alloc,
        opened,
        &mut reader,
        &mut log,
        &mut errors,
        &mut notes,
    );
    Ok((done, errors))
}

#[test]
fn values_in_words_are_played_where_encodings_are_read(rt: HostRuntime) -> Result<(), Fail> {
    let alloc = rt.alloc();
    for encodings in [Encodings::Read, Encodings::Told] {
        let (done, told) = told_of_play(alloc, WORDS, encodings)?;
        assert!(rt; matches!(done, Err(Fault::Unmet { .. })));
        let unmet = b"script 5 expected signal s a = 1 degC: 0.5 degC\n";
        expect_bytes(&rt, &told, unmet, "values in words", "what is told");
    }
    let (done, _told) = told_of_play(alloc, WORDS, Encodings::Unread)?;
    assert!(rt;
        matches!(
            done,
            Err(Fault::BadBenchLine {
                place: LinePlace { line: 1, .. },
                ..
            })
        )
    );
    Ok(())
}

/// What is read of an LDF text, one byte a read, where reads fail after so many bytes.
fn read_slowly(alloc: Global, text: &[u8], fails: bool) -> Result<Vec<u8>, Fault> {
    let mut reader = Piecewise {
        rest: text,
        most: 1,
        interrupts: None,
        fails,
    };
    read_text(alloc, &mut reader)
}

#[test]
fn reads_fail_at_each_byte(rt: HostRuntime) -> Result<(), Fail> {
    for good in 0..=LIGHTS.len() {
        let text = read_slowly(rt.alloc(), &LIGHTS[..good], true);
        assert!(rt;
            matches!(text, Err(Fault::ReadFailed)),
            "after {good} reads"
        );
    }
    let text = read_slowly(rt.alloc(), LIGHTS, false)?;
    expect_bytes(&rt, text.as_slice(), LIGHTS, "a cluster", "its text");
    Ok(())
}

#[test]
fn lists_end_where_a_write_fails(rt: HostRuntime) -> Result<(), Fail> {
    let alloc = rt.alloc();
    let mut notes = Notes::new(alloc, Wanted::default());
    let mut rest = CODED;
    let described = cluster_of_reader(alloc, &mut rest, CODINGS, &mut notes)?;
    let Described {
        cluster,
        coded,
        limits: _limits,
    } = described;
    let all = Lists {
        frames: true,
        maps: true,
        slots: true,
        signals: true,
        timing: None,
    };
    let mut whole = Vec::new(alloc);
    write_lists(&cluster, coded.as_ref(), all, &mut whole)?;
    for good in 0..whole.len() {
        let mut writer = Narrow {
            taken: Vec::new(alloc),
            left: good,
        };
        assert!(rt; write_lists(&cluster, coded.as_ref(), all, &mut writer).is_err());
        let wanted = &whole[..good];
        expect_bytes(&rt, &writer.taken, wanted, "a beginning", "lists");
    }
    Ok(())
}

/// A message, a signal that isn't there, and a slot that is open at the end.
const STEPS: &[u8] =
    b"h0 send 0 1 22062E\nbus open\nn0 answer 0\nbus finish\nbus write 0 0 1\nbus open\n";

#[test]
fn formats_end_where_a_write_fails(rt: HostRuntime) -> Result<(), Fail> {
    let alloc = rt.alloc();
    let cluster = cluster_of_text(alloc, BUILT_IN)?;
    let table = opening_table(&cluster, None)?;
    let core = run_script(alloc, cluster, table, 16, STEPS)?;
    for format in [
        Format::Log,
        Format::Named,
        Format::Csv,
        Format::Jsonl("-"),
        Format::Pcap,
        Format::Vcd,
        Format::Html(b"door.ldf"),
    ] {
        let shown = Shown {
            format,
            coded: None,
            table,
            capacity: 16,
            judgements: &[],
            tests: &[],
            script: None,
            files: &[],
        };
        let mut whole = Vec::new(alloc);
        write_shown(alloc, &shown, &core, &mut whole)?;
        // (a page is long: some of its beginnings)
        for good in (0..whole.len()).step_by(1 + whole.len() / 4096) {
            let mut writer = Narrow {
                taken: Vec::new(alloc),
                left: good,
            };
            let written = write_shown(alloc, &shown, &core, &mut writer);
            assert!(rt; written.is_err());
            let wanted = &whole[..good];
            expect_bytes(&rt, &writer.taken, wanted, "a beginning", "a format");
        }
    }
    Ok(())
}
