//! Runs with scripts, and the logs that they leave.

use crate::samples::{DOOR_CLUSTER, LIGHT_CLUSTER, core_of, expect_log};
use crate::threads::runs::bench::{
    NUMBERS, Numbers, expect_ended, expect_replay, lines, run_scripts,
};
use crate::threads::{DOOR_ANSWERS, DOOR_LEAVES, core_with_sends};
use lin_threads::Ended;
use std::alloc::Global;
use std::process::Abort;
use std::sync::Wait;
use std::test::Fail;
use std::thread::Threads;

/// Enough rounds for a node to answer on a busy machine, too.
const ROUNDS: u32 = 100_000_000;

const EACH_DUE: &[u32] = &[
    0, 1, 2, 3, 4, 5, 6, 7, 8, 9, 10, 11, 12, 13, 14, 15, 16, 17, 18, 19, 20, 21, 22, 23, 24, 25,
    26, 27, 28, 29, 30, 31, 32, 33, 34, 35, 36, 37, 38, 39,
];

/// A run of forty slots, the third damaged, in which three messages are sent and one back, and the
/// responder leaves out its response to this many of the slots in which it is due.
fn expect_faulty_run<R: Abort + Threads + Wait + Copy + Send + 'static>(
    rt: &R,
    alloc: Global,
    leave: &'static [u32],
    row: &str,
) -> Result<(), Fail> {
    let numbers = Numbers {
        slots: 40,
        hurt: &[2],
        leave: [&[], leave],
        ..NUMBERS
    };
    let core = core_of(alloc, DOOR_CLUSTER, 0)?;
    let report = run_scripts(rt, alloc, core, [&[1, 2, 3], &[4]], &numbers)?;
    expect_ended(rt, &report, [Ended::Done, Ended::Done], row);
    for (start, count) in [
        ("bus open", 40),
        ("bus hurt -", 1),
        ("bus finish", 40),
        ("h0 send", 3),
        ("h1 send", 1),
    ] {
        assert_eq!(rt; lines(alloc, &report.core, start)?, count, "{row}: {start}");
    }
    // (the slots may be over before a host has put its messages)
    let due = lines(alloc, &report.core, "> due 1")?;
    let left = lines(alloc, &report.core, "n1 leave 1")?;
    let answers = lines(alloc, &report.core, "n1 answer 1")?;
    assert_eq!(rt; left, due.min(leave.len()), "{row}");
    assert_eq!(rt; answers, due.saturating_sub(left), "{row}");
    let node_0 = lines(alloc, &report.core, "n0 answer 0")?;
    assert_eq!(rt; node_0, lines(alloc, &report.core, "> due 0")?, "{row}");
    expect_replay(rt, alloc, &report.core, row)?;
    if leave.len() == EACH_DUE.len() {
        assert_eq!(rt; lines(alloc, &report.core, "> put 1")?, 0);
        assert!(rt; report.core.cluster().nodes() > 1);
        assert_eq!(rt; report.core.waiting(1), 1);
    }
    Ok(())
}

#[test]
fn faulty_run_replays(rt: HostRuntime) -> Result<(), Fail> {
    expect_faulty_run(&rt, rt.alloc(), &[0], "the first response left out")
}

#[test]
fn node_that_always_leaves(rt: HostRuntime) -> Result<(), Fail> {
    expect_faulty_run(&rt, rt.alloc(), EACH_DUE, "each response left out")
}

/// A responder is due in more slots than a byte counts.
#[test]
fn leave_list_of_a_long_run(rt: HostRuntime) -> Result<(), Fail> {
    let alloc = rt.alloc();
    let numbers = Numbers {
        slots: 300,
        leave: [&[0], &[]],
        ..NUMBERS
    };
    let core = core_of(alloc, LIGHT_CLUSTER, 0)?;
    let report = run_scripts(&rt, alloc, core, [&[], &[]], &numbers)?;
    for (start, count) in [("> due 0", 300), ("n0 leave 0", 1), ("n0 answer 0", 299)] {
        assert_eq!(rt; lines(alloc, &report.core, start)?, count, "{start}");
    }
    Ok(())
}

/// A run with one log: its name, the sends that the core's log has before it, what it does, what
/// the hosts' tasks send, and the log.
struct Row {
    name: &'static str,
    before: &'static [(u8, u8, u8)],
    numbers: Numbers,
    sends: [&'static [u8]; 2],
    log: &'static [u8],
}

const ROWS: &[Row] = &[
    Row {
        name: "a wired log goes on with an answer",
        before: &[(0, 1, 1)],
        numbers: Numbers {
            rounds: ROUNDS,
            ..NUMBERS
        },
        sends: [&[], &[]],
        log: DOOR_ANSWERS,
    },
    Row {
        name: "a wired log goes on without an answer",
        before: &[(0, 1, 1)],
        numbers: Numbers {
            rounds: ROUNDS,
            leave: [&[0], &[]],
            ..NUMBERS
        },
        sends: [&[], &[]],
        log: DOOR_LEAVES,
    },
    Row {
        name: "no rounds",
        before: &[],
        numbers: Numbers {
            ring: 4,
            slots: 2,
            rounds: 0,
            ..NUMBERS
        },
        sends: [&[1], &[]],
        log: b"bus open
> slot 0 0 -
bus finish
> seen silent
bus open
> slot 0 1 7D
bus finish
> seen none
h0 send 0 1 01
> accepted 0 1
",
    },
    Row {
        name: "one round",
        before: &[],
        numbers: Numbers {
            is_put: true,
            rounds: 1,
            ..NUMBERS
        },
        sends: [&[], &[]],
        log: b"bus open
> slot 0 0 -
h0 send 0 1 01
> accepted 0 1
bus finish
> seen silent
",
    },
    Row {
        name: "a faulty run",
        before: &[(0, 1, 1), (0, 1, 2), (0, 1, 3), (1, 0, 4)],
        numbers: Numbers {
            slots: 6,
            rounds: ROUNDS,
            hurt: &[2],
            leave: [&[], &[0]],
            ..NUMBERS
        },
        sends: [&[], &[]],
        log: b"h0 send 0 1 01
> accepted 0 1
h0 send 0 1 02
> accepted 0 2
h0 send 0 1 03
> accepted 0 3
h1 send 1 0 04
> accepted 1 1
bus open
> slot 0 0 3C
> due 0
n0 answer 0
> put 0 010101FFFFFFFFFFFC
bus finish
> seen good 010101FFFFFFFFFFFC
> message 0 1 01
> sent 0 1
bus open
> slot 0 1 7D
> due 1
n1 leave 1
bus finish
> seen none
bus open
> slot 0 0 3C
> due 0
n0 answer 0
> put 0 010102FFFFFFFFFFFB
bus hurt -
bus finish
> seen damaged
> lost 0 2 damaged
bus open
> slot 0 1 7D
> due 1
n1 answer 1
> put 1 010104FFFFFFFFFFF9
bus finish
> seen good 010104FFFFFFFFFFF9
> message 1 0 04
> sent 1 1
bus open
> slot 0 0 3C
> due 0
n0 answer 0
> put 0 010103FFFFFFFFFFFA
bus finish
> seen good 010103FFFFFFFFFFFA
> message 0 1 03
> sent 0 3
bus open
> slot 0 1 7D
bus finish
> seen none
",
    },
];

#[test]
fn logs_of_runs(rt: HostRuntime) -> Result<(), Fail> {
    let alloc = rt.alloc();
    for row in ROWS {
        let core = core_with_sends(&rt, alloc, DOOR_CLUSTER, 0, row.before)?;
        let report = run_scripts(&rt, alloc, core, row.sends, &row.numbers)?;
        expect_ended(&rt, &report, [Ended::Done, Ended::Done], row.name);
        expect_log(&rt, alloc, &report.core, row.log, row.name)?;
        expect_replay(&rt, alloc, &report.core, row.name)?;
    }
    Ok(())
}
