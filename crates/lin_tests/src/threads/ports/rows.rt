//! Rows of acts, and the logs that they leave.

use crate::samples::{DOOR_CLUSTER, KEYS_CLUSTER, MESSAGE_TO_ALL, TWO_RESPONDERS, expect_log};
use crate::threads::ports::bench::{Act, set_up};
use crate::threads::ports::copied::copies;
use crate::threads::{DOOR_ANSWERS, DOOR_LEAVES, core_with_sends};
use lin_core::PortId;
use std::alloc::Global;
use std::process::Abort;
use std::test::Fail;

/// A name, a cluster with the table that opens it, the sends that the core's log has when it is
/// wired, how many items a ring takes, what is done, the log that this leaves, and how many events
/// stand in it.
struct Row {
    name: &'static str,
    cluster: &'static [u8],
    table: u16,
    before: &'static [(u8, u8, u8)],
    ring: usize,
    acts: &'static [Act],
    log: &'static [u8],
    events: usize,
}

fn expect(rt: &impl Abort, alloc: Global, row: &Row) -> Result<(), Fail> {
    let core = core_with_sends(rt, alloc, row.cluster, row.table, row.before)?;
    let mut bench = set_up(rt, alloc, row.name, core, row.ring)?;
    bench.acts(rt, alloc, row.acts)?;
    expect_log(rt, alloc, bench.pump.core(), row.log, row.name)?;
    copies(rt, alloc, bench.pump.core(), row.events)
}

const FULL_RING: Row = Row {
    name: "full ring of one",
    cluster: DOOR_CLUSTER,
    table: 0,
    before: &[],
    ring: 1,
    acts: &[
        Act::Send(0, 1, &[1]),
        Act::SendToFull(0),
        Act::Round(1),
        Act::Send(0, 1, &[1]),
        Act::Round(1),
        Act::Send(0, 1, &[1]),
        Act::Round(1),
        Act::Given(PortId::Host(0), 1),
        Act::Waiting(0, 3),
        Act::HostTakes(0, &["accepted 0 1"]),
        Act::Round(0),
        Act::Given(PortId::Host(0), 2),
        Act::HostTakes(0, &["accepted 0 2"]),
        Act::Given(PortId::Host(1), 0),
        Act::Given(PortId::Host(2), 0),
        Act::Given(PortId::Bus, 0),
    ],
    log: b"h0 send 0 1 01
> accepted 0 1
h0 send 0 1 01
> accepted 0 2
h0 send 0 1 01
> accepted 0 3
",
    events: 3,
};

const LATE_ANSWER: Row = Row {
    name: "late answer",
    cluster: DOOR_CLUSTER,
    table: 0,
    before: &[],
    ring: 4,
    acts: &[
        Act::Send(0, 1, &[1]),
        Act::Round(1),
        Act::Open,
        Act::Round(0),
        Act::NodeTakes(0, &["due 0"]),
        Act::Answer(0),
        Act::Finish,
        Act::Round(1),
        Act::Round(0),
        Act::NodeTakes(0, &["refused NoSlot"]),
        Act::Waiting(0, 1),
    ],
    log: b"h0 send 0 1 01
> accepted 0 1
bus open
> slot 0 0 3C
> due 0
bus finish
> seen none
n0 answer 0
> refused 13
",
    events: 4,
};

const DROPPED_PORT: Row = Row {
    name: "dropped port",
    cluster: DOOR_CLUSTER,
    table: 0,
    before: &[],
    ring: 4,
    acts: &[
        Act::Send(0, 1, &[1]),
        Act::Send(0, 1, &[2]),
        Act::DropHosts,
        Act::Round(1),
        Act::Round(1),
        Act::Round(0),
        Act::Waiting(0, 2),
    ],
    log: b"h0 send 0 1 01
> accepted 0 1
h0 send 0 1 02
> accepted 0 2
",
    events: 2,
};

const ANSWERED: Row = Row {
    name: "wired log goes on with an answer",
    cluster: DOOR_CLUSTER,
    table: 0,
    before: &[(0, 1, 1)],
    ring: 4,
    acts: &[
        Act::Round(0),
        Act::Given(PortId::Host(0), 0),
        Act::AnsweredSlot(0),
        Act::Round(0),
        Act::HostTakes(0, &["sent 0 1"]),
        Act::HostTakes(1, &["message 0 1 [1]"]),
    ],
    log: DOOR_ANSWERS,
    events: 7,
};

const LEFT_OUT: Row = Row {
    name: "wired log goes on without an answer",
    cluster: DOOR_CLUSTER,
    table: 0,
    before: &[(0, 1, 1)],
    ring: 4,
    acts: &[
        Act::Open,
        Act::Round(0),
        Act::NodeTakes(0, &["due 0"]),
        Act::Leave(0),
        Act::Round(1),
        Act::Finish,
        Act::Round(0),
        Act::HostTakes(0, &[]),
    ],
    log: DOOR_LEAVES,
    events: 4,
};

/// Notes of each kind. The last slot puts the cluster to sleep, so that the log has an event of
/// each kind too.
const NOTES: Row = Row {
    name: "notes in the order of the log",
    cluster: KEYS_CLUSTER,
    table: 2,
    before: &[],
    ring: 8,
    acts: &[
        Act::Send(0, 1, &[0x22, 0x06, 0x2E]),
        Act::Send(1, 0, &[0x7E]),
        Act::Round(2),
        Act::AnsweredSlot(0),
        Act::Send(0, 2, &[0x3E]),
        Act::Round(1),
        Act::AnsweredSlot(1),
        Act::Open,
        Act::Round(0),
        Act::NodeTakes(0, &["due 0"]),
        Act::Answer(0),
        Act::Round(1),
        Act::Hurt,
        Act::Finish,
        Act::Send(0, 0, &[1]),
        Act::Round(1),
        Act::HostTakes(
            0,
            &[
                "accepted 0 1",
                "sent 0 1",
                "accepted 0 2",
                "message 1 0 [126]",
                "lost 0 2 Damaged",
                "refused NoAddress",
            ],
        ),
        Act::HostTakes(1, &["accepted 1 1", "message 0 1 [34, 6, 46]", "sent 1 1"]),
        Act::HostTakes(2, &[]),
        Act::AskSleep,
        Act::Open,
        Act::Finish,
        Act::AnsweredSlot(0),
        Act::Round(0),
        Act::NodeTakes(0, &[]),
        Act::NodeTakes(1, &[]),
    ],
    log: b"h0 send 0 1 22062E
> accepted 0 1
h1 send 1 0 7E
> accepted 1 1
bus open
> slot 2 0 3C
> due 0
n0 answer 0
> put 0 010322062EFFFFFFA5
bus finish
> seen good 010322062EFFFFFFA5
> message 0 1 22062E
> sent 0 1
h0 send 0 2 3E
> accepted 0 2
bus open
> slot 2 1 7D
> due 1
n1 answer 1
> put 1 01017EFFFFFFFFFF7F
bus finish
> seen good 01017EFFFFFFFFFF7F
> message 1 0 7E
> sent 1 1
bus open
> slot 2 0 3C
> due 0
n0 answer 0
> put 0 02013EFFFFFFFFFFBE
bus hurt -
bus finish
> seen damaged
> lost 0 2 damaged
h0 send 0 0 01
> refused 6
bus sleep
bus open
> slot 2 1 7D
bus finish
> seen none
bus open
> slot 2 0 3C
> due 0
n0 answer 0
> put 0 00FFFFFFFFFFFFFF00
bus finish
> seen good 00FFFFFFFFFFFFFF00
> asleep
",
    events: 27,
};

/// One of two responders pauses its message while the other one sends.
const INTERLEAVED: Row = Row {
    name: "two responders interleaved",
    cluster: KEYS_CLUSTER,
    table: 2,
    before: &[],
    ring: 8,
    acts: &[
        Act::Send(0, 1, &[0x3E]),
        Act::Send(1, 0, &[0x11, 0x22, 0x33, 0x44, 0x55, 0x66, 0x77, 0x88]),
        Act::Round(2),
        Act::AnsweredSlot(0),
        Act::AnsweredSlot(1),
        Act::Send(0, 2, &[0x3E]),
        Act::Send(2, 0, &[0x7E]),
        Act::Round(2),
        Act::AnsweredSlot(0),
        Act::AnsweredSlot(2),
        Act::Send(0, 1, &[0x3E]),
        Act::Round(1),
        Act::AnsweredSlot(0),
        Act::AnsweredSlot(1),
        Act::Round(0),
        Act::HostTakes(
            0,
            &[
                "accepted 0 1",
                "sent 0 1",
                "accepted 0 2",
                "sent 0 2",
                "message 2 0 [126]",
                "accepted 0 3",
                "sent 0 3",
                "message 1 0 [17, 34, 51, 68, 85, 102, 119, 136]",
            ],
        ),
        Act::HostTakes(
            1,
            &[
                "accepted 1 1",
                "message 0 1 [62]",
                "message 0 1 [62]",
                "sent 1 1",
            ],
        ),
        Act::HostTakes(2, &["accepted 2 1", "message 0 2 [62]", "sent 2 1"]),
    ],
    log: TWO_RESPONDERS,
    events: 39,
};

/// A message to all responders: the ports of both hosts take it, and its sender's that it was sent,
/// once. A responder sends none.
const TO_ALL: Row = Row {
    name: "message to all",
    cluster: KEYS_CLUSTER,
    table: 2,
    before: &[],
    ring: 4,
    acts: &[
        Act::Send(0, 126, &[0x3E, 0x80]),
        Act::Send(1, 126, &[1]),
        Act::Round(2),
        Act::Waiting(0, 1),
        Act::AnsweredSlot(0),
        Act::Open,
        Act::Finish,
        Act::Round(0),
        Act::HostTakes(0, &["accepted 0 1", "sent 0 1"]),
        Act::HostTakes(1, &["refused NoAddress", "message 0 1 [62, 128]"]),
        Act::HostTakes(2, &["message 0 2 [62, 128]"]),
        Act::NodeTakes(1, &[]),
        Act::NodeTakes(2, &[]),
        Act::Waiting(0, 0),
    ],
    log: MESSAGE_TO_ALL,
    events: 10,
};

#[test]
fn rows(rt: HostRuntime) -> Result<(), Fail> {
    for row in [
        &FULL_RING,
        &LATE_ANSWER,
        &DROPPED_PORT,
        &ANSWERED,
        &LEFT_OUT,
        &NOTES,
        &INTERLEAVED,
        &TO_ALL,
    ] {
        expect(&rt, rt.alloc(), row)?;
    }
    Ok(())
}
