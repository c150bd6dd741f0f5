//! What the lines of scripts say.

use crate::clusters::{cluster_of, read_text};
use crate::samples::{BUILT_IN, DOOR_ZONE, WINDOW};
use lin_bench::{
    Carried, Condition, Disturbance, Every, Expected, Extent, Look, Part, Pattern, Rule,
    RuleAnswer, ScriptLine, Since, Slots, Source, When, read,
};
use lin_core::{Cause, Direction, PortId, Refusal, Step};
use lin_frame::Value;
use std::alloc::Global;
use std::process::Abort;
use std::test::Fail;

/// The one line of a text that says something.
fn only_line(alloc: Global, ldf: &[u8], text: &[u8]) -> Result<ScriptLine, Fail> {
    let cluster = cluster_of(alloc, ldf)?;
    let Ok(mut lines) = read_text(alloc, &cluster, text)? else {
        return Err(Fail::from("not read"));
    };
    match (lines.pop(), lines.is_empty()) {
        (Some((_, line)), true) => Ok(line),
        _ => Err(Fail::from("not one line")),
    }
}

#[test]
fn window(rt: HostRuntime) -> Result<(), Fail> {
    let alloc = rt.alloc();
    let cluster = cluster_of(alloc, DOOR_ZONE)?;
    let Ok(lines) = read(alloc, &cluster, None, &[], Source::of(WINDOW)) else {
        return Err(Fail::from("not read"));
    };
    assert!(rt; lines.len() == 29);
    let places = [
        2u64, 3, 4, 5, 6, 7, 8, 9, 10, 13, 14, 15, 16, 17, 18, 19, 20, 21, 22, 23, 24, 25, 26, 27,
        28, 29, 30, 31, 32,
    ];
    for (index, place) in places.iter().enumerate() {
        assert!(rt; lines.as_slice().get(index).map(|line| line.0.line) == Some(*place));
    }
    Ok(())
}

/// The name of what a line says below.
/// Whether a rule has a pattern of two bytes, and two answers, one at once and one 200 ms later.
fn has_two_answers(when: &When) -> bool {
    let answers = when.answers.as_slice();
    when.pattern.bytes.as_slice().len() == 2
        && answers.len() == 2
        && answers[0].parts.as_slice().len() == 2
        && answers[0].wait_ms == 0
        && answers[1].wait_ms == 200
}

fn is_silent_to_all(when: &When) -> bool {
    when.pattern.more
        && when.pattern.bytes.as_slice().is_empty()
        && when.answers.as_slice().is_empty()
}

fn is_send(step: &Step) -> bool {
    match step {
        Step::Send { .. } => true,
        _ => false,
    }
}

fn name_of_when(when: &When) -> &'static str {
    if has_two_answers(when) {
        "two answers"
    } else if is_silent_to_all(when) {
        "silent to all"
    } else {
        "another rule"
    }
}

fn name_of_every(every: &Every) -> &'static str {
    if every.period_ms == 10 && is_send(&every.step) {
        "a repeated send"
    } else {
        "another rule"
    }
}

fn name_of_rule(rule: &Rule) -> &'static str {
    match rule {
        Rule::When(when) => name_of_when(when),
        Rule::Timeouts(_) => "timeouts",
        Rule::TimeoutsOff => "no timeouts",
        Rule::Every(every) => name_of_every(every),
        _ => "another rule",
    }
}

fn name_of_slots(slots: &Slots) -> &'static str {
    match (slots.extent, slots.leave.as_slice()) {
        (Extent::Idle(10_000), []) => "slots until idle",
        (Extent::Milliseconds(5), []) => "slots of 5 ms",
        (Extent::Milliseconds(200), []) => "slots of 200 ms",
        (Extent::Count(3), [1, 0]) => "slots without two nodes",
        _ => "other slots",
    }
}

/// Whether a pattern is for the one byte 7E.
fn is_7e(pattern: &Pattern) -> bool {
    match pattern.bytes.as_slice() {
        [Some(0x7E)] => !pattern.more,
        _ => false,
    }
}

fn name_of(line: &ScriptLine) -> &'static str {
    match line {
        ScriptLine::Step(
            PortId::Bus,
            Step::Write {
                by: 1,
                signal: 5,
                value: Value::Scalar(42),
            },
        ) => "write of 42",
        ScriptLine::Step(
            PortId::Host(3),
            Step::Write {
                by: 3,
                signal: 14,
                value: Value::Bytes(bytes),
            },
        ) if bytes.as_slice().is_empty() => "write of no bytes",
        ScriptLine::Step(
            PortId::Host(0),
            Step::Send {
                from: 0,
                to: 1,
                message,
            },
        ) if message.as_slice() == [0x22, 0xF1, 0x90].as_slice() => "send of three bytes",
        ScriptLine::Step(
            PortId::Bus,
            Step::Timeout {
                node: 1,
                dir: Direction::Down,
            },
        ) => "timeout",
        ScriptLine::Step(PortId::Node(0), Step::Answer { node: 0 }) => "answer",
        ScriptLine::Slots(slots) => name_of_slots(slots),
        ScriptLine::Slot(Disturbance::Leave(nodes)) if nodes.as_slice() == [3u8, 1].as_slice() => {
            "slot with two left out"
        }
        ScriptLine::Expect(Expected::Refused(Refusal::Asleep)) => "refused as asleep",
        ScriptLine::Expect(Expected::Is(Condition::Seen(Look::NoAnswer))) => "seen none",
        ScriptLine::Expect(Expected::Not(Condition::Seen(Look::NoAnswer))) => "not seen none",
        ScriptLine::Expect(
            Expected::Lost {
                host: 1,
                cause: Cause::TimedOut,
            },
        ) => "lost in time",
        ScriptLine::Expect(
            Expected::Is(
                Condition::SignalWithin {
                    node: 0,
                    signal: 7,
                    low: 690,
                    high: 710,
                },
            ),
        ) => "signal in a range",
        ScriptLine::Expect(Expected::NoMessage { from: 0, to: 1 }) => "no message",
        ScriptLine::Expect(
            Expected::NextMessage {
                from: 1,
                to: 0,
                pattern,
            },
        ) if is_7e(pattern) => "the next message of all",
        ScriptLine::Expect(
            Expected::Is(
                Condition::Messages {
                    from: 1,
                    to: 0,
                    low: 2,
                    high: 1_000_000,
                },
            ),
        ) => "two messages or more",
        ScriptLine::Expect(Expected::Table(2)) => "running table",
        ScriptLine::Forget => "forget",
        ScriptLine::Test(name) if name.as_slice() == b"write X = 5 degC".as_slice() => {
            "a test with a name like a line"
        }
        ScriptLine::Rule(rule) => name_of_rule(rule),
        ScriptLine::Until(
            Slots {
                extent: Extent::Count(20),
                ..
            },
            Expected::Message {
                from: 1,
                to: 0,
                pattern,
            },
        ) if is_7e(pattern) => "slots until a message",
        ScriptLine::Expect(
            Expected::MessageWithin {
                from: 1,
                to: 0,
                pattern,
                most_ms: 50,
                since: Since::Last,
            },
        ) if pattern.more => "message after the last one",
        ScriptLine::Expect(
            Expected::Is(
                Condition::Frame {
                    frame: Carried::Request,
                    pattern: Some(pattern),
                },
            ),
        ) if pattern.more => "frame with a pattern",
        ScriptLine::Until(slots, Expected::Asleep) => match name_of_slots(slots) {
            "slots of 200 ms" => "slots of 200 ms until asleep",
            "slots without two nodes" => "slots without two nodes until asleep",
            _ => "anything else",
        },
        ScriptLine::While(
            _,
            Expected::Not(
                Condition::Changed {
                    node: 1,
                    signal: 0,
                    first: None,
                },
            ),
        ) => "slots while a signal is as before",
        ScriptLine::Until(_, Expected::Table(0)) => "slots until a table runs",
        ScriptLine::While(slots, Expected::NoLost { host: None }) => match name_of_slots(slots) {
            "slots of 200 ms" => "slots while nothing is lost",
            _ => "anything else",
        },
        _ => "anything else",
    }
}

/// Lines, and what they say.
type Lines<'a> = &'a [(&'a [u8], &'a str)];

const ON_BUILT_IN: Lines<'static> = &[
    (b"bus timeout 1 down", "timeout"),
    (b"> due 0\nn0 answer 0\n", "answer"),
    (b"\xEF\xBB\xBFslots idle\r\n", "slots until idle"),
    (b"slots 5 ms", "slots of 5 ms"),
    (b"expect refused Asleep", "refused as asleep"),
    (b"expect refused 10", "refused as asleep"),
    (b"expect seen none", "seen none"),
    (b"expect not seen none", "not seen none"),
    (b"expect lost door timedout", "lost in time"),
    (b"expect no message cem 1", "no message"),
    (
        b"expect next message door cem 7E",
        "the next message of all",
    ),
    (b"expect messages door 0 2..1000000", "two messages or more"),
    (b"forget # what was before", "forget"),
    (
        b"test\twrite  X = 5 degC # of no signal",
        "a test with a name like a line",
    ),
    (
        b"slots 20 until message door cem 7E",
        "slots until a message",
    ),
    (
        b"expect message door cem 62..* within 50 ms of last",
        "message after the last one",
    ),
    (b"expect frame MasterReq 01 .. *", "frame with a pattern"),
    (b"slots 200 ms until asleep", "slots of 200 ms until asleep"),
    (b"slots 4 until table 0", "slots until a table runs"),
    (b"slots 3 leave door 0", "slots without two nodes"),
    (
        b"slots 3 leave door cem until asleep",
        "slots without two nodes until asleep",
    ),
    (b"slots 200 ms while no lost", "slots while nothing is lost"),
    (
        b"when door 22..* answer 62 $1 then 7F after 200 ms",
        "two answers",
    ),
    (b"when door * silent", "silent to all"),
    (b"timeouts 1000 ms", "timeouts"),
    (b"timeouts off", "no timeouts"),
    (b"every 10 ms h1 send 1 0 3E", "a repeated send"),
];

const ON_DOOR_ZONE: Lines<'static> = &[
    (b"write WinPos 0x2a", "write of 42"),
    (
        b"h:DCU\tsend DCU WinMot 22 F1 90  # which number",
        "send of three bytes",
    ),
    (b"h3 write 3 14 x-", "write of no bytes"),
    (b"slot leave Panel 1", "slot with two left out"),
    (b"expect signal DCU WinTemp 690..0x2C6", "signal in a range"),
    (b"expect table Mixed", "running table"),
    (
        b"slots 4 while not changed WinMot WinCmd",
        "slots while a signal is as before",
    ),
];

fn expect_lines(rt: &impl Abort, alloc: Global, ldf: &[u8], lines: Lines) -> Result<(), Fail> {
    for (text, wanted) in lines {
        let line = only_line(alloc, ldf, text)?;
        assert_eq!(rt; name_of(&line), *wanted);
    }
    Ok(())
}

#[test]
fn lines_say_what_is_meant(rt: HostRuntime) -> Result<(), Fail> {
    expect_lines(&rt, rt.alloc(), BUILT_IN, ON_BUILT_IN)?;
    expect_lines(&rt, rt.alloc(), DOOR_ZONE, ON_DOOR_ZONE)
}
