//! Messages from their sends to their receivers.

use super::{ANSWER, FINISH, OPEN, SEND, State, behind};
use crate::samples::{DOOR_CLUSTER, THREE_BYTES, add_number, core_of, joined};
use lin_core::{PortId, Step};
use std::alloc::Global;
use std::process::Abort;
use std::test::Fail;

const SIX_BYTES: &[u8] =
    b"h0 send 0 1 010203040506\n> accepted 0 1\nbus open\n> slot 0 0 3C\n> due 0\nn0 answer 0\n> put 0 0106010203040506E3\n";

const SILENT: &[u8] = b"bus open\n> slot 0 0 -\nbus finish\n> seen silent\n";

const NO_ANSWER: &[u8] = b"bus finish\n> seen none\n";

const OPEN_NEXT: &[u8] = b"bus open\n> slot 0 1 7D\n";

const QUEUE_FULL: &[u8] = b"h0 send 0 1 01\n> refused 9\n";

const SECOND_SEND: &[u8] = b"h0 send 0 1 01\n> accepted 0 2\n";

/// Capacities, runs on the cluster with a door, and the states after them.
const RUNS: &[(usize, &[&[u8]], State)] = &[
    (16, &[THREE_BYTES], (10_000, 0, 0)),
    (16, &[SIX_BYTES], (0, 1, 0)),
    (16, &[SILENT], (10_000, 0, 0)),
    // a response that is left out only delays
    (
        16,
        &[SEND, OPEN, NO_ANSWER, OPEN_NEXT, NO_ANSWER],
        (20_000, 1, 0),
    ),
    (
        16,
        &[
            SEND, OPEN, NO_ANSWER, OPEN_NEXT, NO_ANSWER, OPEN, ANSWER, FINISH,
        ],
        (30_000, 0, 0),
    ),
    // who is due and undecided
    (16, &[], (0, 0, 0)),
    (16, &[SEND], (0, 1, 0)),
    (16, &[SEND, OPEN], (0, 1, 1)),
    (16, &[SEND, OPEN, ANSWER], (0, 1, 0)),
    (16, &[SEND, OPEN, ANSWER, FINISH], (10_000, 0, 0)),
    (16, &[SEND, OPEN, ANSWER, FINISH, OPEN_NEXT], (10_000, 0, 0)),
    // a queue of one message
    (1, &[SEND, QUEUE_FULL], (0, 1, 0)),
    (
        1,
        &[SEND, QUEUE_FULL, OPEN, ANSWER, FINISH, SECOND_SEND],
        (10_000, 1, 0),
    ),
];

/// A run on the cluster with a door, and the state after it.
fn expect_state(
    rt: &impl Abort,
    alloc: Global,
    capacity: usize,
    run: &[&[u8]],
    want: State,
) -> Result<(), Fail> {
    let run = joined(alloc, run)?;
    let (state, _) = behind(rt, alloc, capacity, &run)?;
    let log = std::str::from_utf8(&run).unwrap_or("no text");
    assert_eq!(rt; state, want, "after {log}");
    Ok(())
}

// So many sends, each accepted.
fn sends(alloc: Global, count: u64) -> Result<Vec<u8>, Fail> {
    let mut run = Vec::new(alloc);
    for number in 1..=count {
        run.extend_from_slice(b"h0 send 0 1 01\n> accepted 0 ")?;
        add_number(alloc, &mut run, number)?;
        run.push(b'\n')?;
    }
    Ok(run)
}

const SEND_1025: &[u8] = b"h0 send 0 1 01\n> accepted 0 1025\n";

#[test]
fn states_after_runs(rt: HostRuntime) -> Result<(), Fail> {
    let alloc = rt.alloc();
    for (capacity, run, want) in RUNS {
        expect_state(&rt, alloc, *capacity, run, *want)?;
    }
    let sends = sends(alloc, 1024)?;
    let run = [&sends, QUEUE_FULL, OPEN, ANSWER, FINISH, SEND_1025];
    expect_state(&rt, alloc, 1024, &run, (10_000, 1024, 0))
}

/// Opens a slot, which is the first entry of the log.
#[test]
fn one_step(rt: HostRuntime) -> Result<(), Fail> {
    let mut core = core_of(rt.alloc(), DOOR_CLUSTER, 0)?;
    core.make_room()?;
    assert!(rt; !core.asleep());
    assert!(rt; core.step(PortId::Bus, Step::Open).is_ok());
    assert!(rt; core.log().len() == 1);
    let newest = core.newest();
    assert!(rt; newest.port == PortId::Bus);
    assert!(rt; matches!(newest.step, Step::Open));
    Ok(())
}
