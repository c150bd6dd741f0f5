//! Rows of scripts and logs over a cluster with diagnostic frames, and readers and writers that
//! fail.

pub mod fakes;

ghost use Rattle.std.specs.Prelude.{◌≤◌};

use crate::runs::core_behind;
use crate::samples::{DOOR_CLUSTER, cluster_of, expect_text};
use fakes::{Broken, Counted, Refusing, Slow};
use lin_core::{Core, PortId, Step};
use lin_log::{ReplayFault, ScriptFault, read_script, replay, steps_of};
use std::alloc::Global;
use std::io::{ErrorKind, Read, Write};
use std::process::Abort;
use std::test::Fail;

const FIRST: &str = "h0 send 0 1 22062E\nbus open\nn0 answer 0\nbus finish\n";

const FIRST_LOG: &str =
    "h0 send 0 1 22062E\n> accepted 0 1\nbus open\n> slot 0 0 3C\n> due 0\nn0 answer 0\n> put 0 010322062EFFFFFFA5\nbus finish\n> seen good 010322062EFFFFFFA5\n> message 0 1 22062E\n> sent 0 1\n";

const SIX_BYTES: &str =
    "h0 send 0 1 010203040506\n> accepted 0 1\nbus open\n> slot 0 0 3C\n> due 0\nbus answer 0\n> put 0 0106010203040506E3\nbus finish\n> seen good 0106010203040506E3\n> message 0 1 010203040506\n> sent 0 1\n";

const LEFT_OUT: &str =
    "h0 send 0 1 01\n> accepted 0 1\nbus open\n> slot 0 0 3C\n> due 0\nbus finish\n> seen none\nbus open\n> slot 0 1 7D\nbus finish\n> seen none\nbus open\n> slot 0 0 3C\n> due 0\nbus answer 0\n> put 0 010101FFFFFFFFFFFC\nbus finish\n> seen good 010101FFFFFFFFFFFC\n> message 0 1 01\n> sent 0 1\n";

const REFUSED: &str =
    "bus finish\n> refused 13\nh0 open\n> refused 14\nh0 send 0 1 01\n> accepted 0 1\nbus open\n> slot 0 0 3C\n> due 0\nbus open\n> refused 12\nn1 answer 0\n> refused 14\nbus answer 1\n> refused 14\nbus answer 0\n> put 0 010101FFFFFFFFFFFC\nbus answer 0\n> refused 15\n";

const QUEUE_OF_ONE: &str =
    "h0 send 0 1 01\n> accepted 0 1\nh0 send 0 1 01\n> refused 9\nbus open\n> slot 0 0 3C\n> due 0\nbus answer 0\n> put 0 010101FFFFFFFFFFFC\nbus finish\n> seen good 010101FFFFFFFFFFFC\n> message 0 1 01\n> sent 0 1\nh0 send 0 1 01\n> accepted 0 2\n";

const LOST: &str =
    "h0 send 0 1 01\n> accepted 0 1\nbus open\n> slot 0 0 3C\n> due 0\nbus answer 0\n> put 0 010101FFFFFFFFFFFC\nbus hurt -\nbus finish\n> seen damaged\n> lost 0 1 damaged\nh0 send 0 1 0102030405060708\n> accepted 0 2\nbus open\n> slot 0 1 7D\nbus finish\n> seen none\nbus open\n> slot 0 0 3C\n> due 0\nbus answer 0\n> put 0 0110080102030405D7\nbus finish\n> seen good 0110080102030405D7\nbus timeout 1 down\n> lost 0 2 timedout\nh1 send 1 0 0102030405060708\n> accepted 1 1\nbus open\n> slot 0 1 7D\n> due 1\nbus answer 1\n> put 1 0110080102030405D7\nbus finish\n> seen good 0110080102030405D7\nbus sleep\nbus open\n> slot 0 0 3C\n> due 0\nbus answer 0\n> put 0 00FFFFFFFFFFFFFF00\nbus finish\n> seen good 00FFFFFFFFFFFFFF00\n> asleep\n> lost 1 1 slept\nbus open\n> refused 10\nbus sleep\n> refused 10\nbus wake\nbus open\n> slot 0 0 -\n";

/// The fault of a replay over the cluster of the rows, from its first table on.
fn fault<R: Read, W: Write>(
    alloc: Global,
    capacity: usize,
    reader: &mut R,
    writer: &mut W,
) -> Result<Option<ReplayFault>, Fail>
    requires { (1 ≤ capacity) × (capacity ≤ 1024) }
{
    let cluster = cluster_of(alloc, DOOR_CLUSTER)?;
    if cluster.tables() == 0 {
        return Err(Fail::from("no table"));
    }
    match replay(alloc, cluster, 0, capacity, reader, writer) {
        Ok(_core) => Ok(None),
        Err(fault) => Ok(Some(fault)),
    }
}

/// A replay of a script writes a log.
fn expect_log(
    rt: &impl Abort,
    alloc: Global,
    capacity: usize,
    script: &str,
    log: &str,
) -> Result<(), Fail>
    requires { (1 ≤ capacity) × (capacity ≤ 1024) }
{
    let mut text = Vec::new(alloc);
    let mut rest = script.as_bytes();
    assert!(rt; fault(alloc, capacity, &mut rest, &mut text)?.is_none());
    expect_text(rt, &text, log.as_bytes(), script);
    Ok(())
}

fn is_first_send(step: &Step) -> bool {
    match step {
        Step::Send {
            from: 0,
            to: 1,
            message,
        } => message.as_slice() == [0x22, 0x06, 0x2E].as_slice(),
        _ => false,
    }
}

fn expect_first_steps(rt: &impl Abort, alloc: Global, core: &Core) -> Result<(), Fail> {
    let steps = steps_of(alloc, core.log())?;
    assert!(rt; steps.len() == 4);
    assert!(rt; matches!(&steps[1], (PortId::Bus, Step::Open)));
    assert!(rt; matches!(&steps[2], (PortId::Node(0), Step::Answer { node: 0 })));
    assert!(rt; matches!(&steps[3], (PortId::Bus, Step::Finish)));
    let (port, send) = &steps[0];
    assert!(rt; *port == PortId::Host(0));
    assert!(rt; is_first_send(&send.copy(alloc)?));
    Ok(())
}

#[test]
fn log_is_a_script(rt: HostRuntime) -> Result<(), Fail> {
    let alloc = rt.alloc();
    expect_log(&rt, alloc, 16, FIRST, FIRST_LOG)?;
    for log in [FIRST_LOG, SIX_BYTES, LEFT_OUT, REFUSED, LOST] {
        expect_log(&rt, alloc, 16, log, log)?;
    }
    expect_log(&rt, alloc, 1, QUEUE_OF_ONE, QUEUE_OF_ONE)?;
    let core = core_behind(&rt, alloc, DOOR_CLUSTER, 16, FIRST_LOG.as_bytes())?;
    expect_first_steps(&rt, alloc, &core)
}

/// Scripts, and the logs of their steps.
const FORMS: &[(&str, &str)] = &[
    ("", ""),
    (
        "#\n\n  \n> x\n#\tany\nbus  answer 000\r\n",
        "bus answer 0\n> refused 13\n",
    ),
    (
        "  bus   answer 0000000255  \r",
        "bus answer 255\n> refused 1\n",
    ),
    (
        "n255 answer 0\nh255 send 0 1 0aFf",
        "n255 answer 0\n> refused 13\nh255 send 0 1 0AFF\n> refused 14\n",
    ),
    (
        "bus write 0 0 0065535\nh0 write 00 65535 x0aFf\nbus write 9 1 x-\nbus switch 00\nbus switch 65535",
        "bus write 0 0 65535\n> refused 2\nh0 write 0 65535 x0AFF\n> refused 2\nbus write 9 1 x-\n> refused 1\nbus switch 0\nbus switch 65535\n> refused 3\n",
    ),
    (
        "bus leave 001\nbus hurt -\nbus hurt 0aFf\nbus timeout 00 down\nbus timeout 1  up\nbus sleep\nbus wake\nbus close 255",
        "bus leave 1\n> refused 13\nbus hurt -\n> refused 13\nbus hurt 0AFF\n> refused 13\nbus timeout 0 down\n> refused 18\nbus timeout 1 up\n> refused 18\nbus sleep\nbus wake\n> refused 11\nbus close 255\n> refused 1\n",
    ),
];

/// Scripts, and their first lines that are in no form.
const BAD_LINES: &[(&str, u64)] = &[
    ("bus open extra", 1),
    ("h256 open", 1),
    ("bus answer 256", 1),
    ("bus answer 00000000000", 1),
    ("bus answer", 1),
    ("bus answer -", 1),
    ("h0 send 0 1 0", 1),
    ("h0 send 0 1 0g", 1),
    ("bus write 0 0 65536", 1),
    ("bus write 0 65536 0", 1),
    ("bus write 0 0 -", 1),
    ("bus write 0 0 x", 1),
    ("bus write 0 0 X00", 1),
    ("bus write 0 0 x010203040506070809", 1),
    ("bus write 0 0", 1),
    ("bus switch 65536", 1),
    ("bus leave 256", 1),
    ("bus hurt 0", 1),
    ("bus hurt", 1),
    ("bus timeout 1", 1),
    ("bus timeout 1 UP", 1),
    ("bus sleep 0", 1),
    ("bus wake 0", 1),
    ("bus close 256", 1),
    ("bus\topen", 1),
    ("bus open\r\r\n", 1),
    ("\n#\n # x\nbus", 3),
    ("bus open\n\nbus\n", 3),
];

fn expect_bad_line(rt: &impl Abort, alloc: Global, script: &str, bad: u64) {
    let mut rest = script.as_bytes();
    let result = read_script(alloc, &mut rest);
    assert!(rt;
        matches!(result, Err(ScriptFault::BadLine { line }) if line == bad),
        "of {script}"
    );
}

/// The number of the last line of a text.
fn last_line(text: &[u8]) -> u64 {
    let mut last = 1u64;
    for byte in text {
        if *byte == b'\n' {
            last = last.saturating_add(1);
        }
    }
    last
}

/// Whether a text is read as a script, or has its fault in its last line.
fn is_read_to_its_last_line(alloc: Global, text: &[u8]) -> bool {
    let mut rest = text;
    match read_script(alloc, &mut rest) {
        Ok(_steps) => true,
        Err(ScriptFault::BadLine { line }) => line == last_line(text),
        Err(_) => false,
    }
}

#[test]
fn forms_of_lines(rt: HostRuntime) -> Result<(), Fail> {
    for (script, log) in FORMS {
        expect_log(&rt, rt.alloc(), 16, script, log)?;
    }
    for (script, bad) in BAD_LINES {
        expect_bad_line(&rt, rt.alloc(), script, *bad);
    }
    let script = FIRST.as_bytes();
    for len in 0..=script.len() {
        assert!(rt;
            is_read_to_its_last_line(rt.alloc(), &script[..len]),
            "of {len} bytes"
        );
    }
    Ok(())
}

fn if_is(holds: bool, what: &'static str) -> &'static str {
    if holds { what } else { "anything else" }
}

/// How often a script of so many spaces is read, and what comes of it.
fn reads_of(alloc: Global, spaces: usize) -> (usize, &'static str) {
    let mut reader = Counted { spaces, reads: 0 };
    let found = match read_script(alloc, &mut reader) {
        Ok(steps) => if_is(steps.is_empty(), "no step"),
        Err(fault) => if_is(matches!(fault, ScriptFault::TooLong), "too long"),
    };
    (reader.reads, found)
}

#[test]
fn reads_and_length(rt: HostRuntime) {
    for (spaces, found) in [(16_777_216, "no step"), (20_000_000, "too long")] {
        assert!(rt; reads_of(rt.alloc(), spaces) == (16_777_217, found));
    }
}

/// Faults, and what is written of them.
const FAULTS: &[(ReplayFault, &str)] = &[
    (
        ReplayFault::Script(ScriptFault::BadLine { line: 70_000 }),
        "script 70000 bad line",
    ),
    (ReplayFault::Script(ScriptFault::TooLong), "script too long"),
    (ReplayFault::Script(ScriptFault::ReadFailed), "read failed"),
    (
        ReplayFault::Script(ScriptFault::OutOfMemory),
        "out of memory",
    ),
    (ReplayFault::OutOfMemory, "out of memory"),
    (ReplayFault::WriteFailed, "write failed"),
];

#[test]
fn texts_of_faults(rt: HostRuntime) -> Result<(), Fail> {
    for (fault, wanted) in FAULTS {
        assert_eq!(rt; fault.to_string(rt.alloc())?.as_str(), *wanted);
        if let ReplayFault::Script(fault) = fault {
            assert_eq!(rt; fault.to_string(rt.alloc())?.as_str(), *wanted);
        }
    }
    Ok(())
}

/// A replay of the first script, where its reader and its writer fail after so many bytes: the
/// fault, and what was written.
fn failing(
    alloc: Global,
    reads: usize,
    writes: usize,
) -> Result<(Option<ReplayFault>, Vec<u8>), Fail> {
    let mut reader = Slow {
        rest: FIRST.as_bytes(),
        good: reads,
    };
    let mut writer = Refusing {
        taken: Vec::new(alloc),
        good: writes,
    };
    let fault = fault(alloc, 16, &mut reader, &mut writer)?;
    Ok((fault, writer.taken))
}

#[test]
fn fails_at_each_read_and_write(rt: HostRuntime) -> Result<(), Fail> {
    for good in 0..=FIRST.len() {
        let (fault, taken) = failing(rt.alloc(), good, 1000)?;
        assert!(rt; matches!(fault, Some(ReplayFault::Script(ScriptFault::ReadFailed))));
        assert!(rt; taken.is_empty());
    }
    let log = FIRST_LOG.as_bytes();
    for good in 0..log.len() {
        let (fault, taken) = failing(rt.alloc(), 1000, good)?;
        assert!(rt; matches!(fault, Some(ReplayFault::WriteFailed)));
        assert!(rt; taken.as_slice() == &log[..good]);
    }
    Ok(())
}

/// A fault writes nothing, and what failed is asked no second time.
#[test]
fn stops_where_it_fails(rt: HostRuntime) -> Result<(), Fail> {
    let mut text = Vec::new(rt.alloc());
    let mut rest = "bus open\nbus open extra".as_bytes();
    let bad = fault(rt.alloc(), 16, &mut rest, &mut text)?;
    assert!(rt;
        matches!(
            bad,
            Some(ReplayFault::Script(ScriptFault::BadLine { line: 2 }))
        )
    );
    assert!(rt; text.is_empty());
    let mut reader = Broken {
        kind: Some(ErrorKind::Interrupted),
        calls: 0,
    };
    let unread = fault(rt.alloc(), 16, &mut reader, &mut text)?;
    assert!(rt; matches!(unread, Some(ReplayFault::Script(ScriptFault::ReadFailed))));
    assert!(rt; reader.calls == 1);
    for kind in [Some(ErrorKind::Interrupted), None] {
        let mut rest = FIRST.as_bytes();
        let mut writer = Broken { kind, calls: 0 };
        let unwritten = fault(rt.alloc(), 16, &mut rest, &mut writer)?;
        assert!(rt; matches!(unwritten, Some(ReplayFault::WriteFailed)));
        assert!(rt; writer.calls == 1);
    }
    Ok(())
}
