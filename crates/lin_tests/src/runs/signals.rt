//! Runs of signals, sporadic and event-triggered frames.

use super::{State, core_behind, state};
use crate::samples::{FOUR_LINES, joined};
use lin_core::Core;
use lin_frame::Value;
use std::alloc::Global;
use std::process::Abort;
use std::test::Fail;

/// A commander and two responders, with a frame of an array.
const BUILD: &[u8] = b"Nodes { Master: cem, 5 ms, 0.1 ms; Slaves: lsm, rsm; }
Signals {
  level: 4, 2, cem, lsm, rsm;
  mode: 10, 0x155, cem, lsm;
  speed: 8, 5, cem, rsm;
  lkey: 8, 0, lsm, cem;
  rkey: 8, 0, rsm, cem;
  pair: 16, {0, 0}, cem, lsm, rsm;
}
Frames {
  Light: 0x00, cem, 2 { level, 0; mode, 4; }
  Fan: 0x01, cem, 1 { speed, 0; }
  LeftKey: 0x02, lsm, 2 { lkey, 8; }
  RightKey: 0x03, rsm, 2 { rkey, 8; }
  Pair: 0x05, cem, 2 { pair, 0; }
}
Node_attributes {
  lsm { LIN_protocol = \"2.2\"; configured_NAD = 0x01; }
  rsm { LIN_protocol = \"2.2\"; configured_NAD = 0x02; }
}
";

/// Two sporadic frames, and the event-triggered frame of the keys, whose collisions the second
/// table resolves.
const KEYED: &[u8] = b"Sporadic_frames { Spor: Light, Fan; Alone: Fan; }
Event_triggered_frames { Keys: Resolve, 0x04, LeftKey, RightKey; }
Schedule_tables {
  Main { Spor delay 10 ms; Keys delay 10 ms; Light delay 10 ms; Alone delay 10 ms; }
  Resolve { LeftKey delay 10 ms; RightKey delay 10 ms; }
  Diag { MasterReq delay 10 ms; SlaveResp delay 10 ms; }
}
";

/// Neither.
const PLAIN: &[u8] = b"Schedule_tables {
  Main { Light delay 10 ms; Fan delay 5 ms; Pair delay 5 ms; }
  Resolve { LeftKey delay 10 ms; RightKey delay 10 ms; }
  Diag { MasterReq delay 10 ms; SlaveResp delay 10 ms; }
}
";

/// A run: whether its cluster has sporadic and event-triggered frames, its log in parts, and what is
/// so after it: the state, and numbers of signals as nodes read them (of an array none).
struct Run {
    is_keyed: bool,
    log: &'static [&'static [u8]],
    state: State,
    reads: &'static [(u8, u16, Option<u16>)],
}

/// The number that a node reads of a signal; of an array none.
fn number(rt: &impl Abort, core: &Core, node: u8, signal: u16) -> Option<u16> {
    let cluster = core.cluster();
    assert!(rt; usize::from(node) < cluster.nodes());
    assert!(rt; usize::from(signal) < cluster.signals());
    match core.signal(node, signal) {
        Value::Scalar(number) => Some(number),
        Value::Bytes(_) => None,
    }
}

fn expect_run(rt: &impl Abort, alloc: Global, run: &Run) -> Result<(), Fail> {
    let frames = if run.is_keyed { KEYED } else { PLAIN };
    let text = joined(alloc, &[FOUR_LINES, BUILD, frames])?;
    let log = joined(alloc, run.log)?;
    let core = core_behind(rt, alloc, &text, 16, &log)?;
    let log = std::str::from_utf8(&log).unwrap_or("no text");
    assert_eq!(rt; state(&core), run.state, "after {log}");
    for (node, signal, want) in run.reads {
        let found = number(rt, &core, *node, *signal);
        assert_eq!(rt; found, *want, "signal {signal} of node {node} after {log}");
    }
    Ok(())
}

const COLLISION: &[u8] = b"h1 write 1 3 17
h2 write 2 4 34
bus open
> slot 0 0 -
bus finish
> seen silent
bus open
> slot 0 1 C4
> due 1
> due 2
n1 answer 1
> put 1 4211E7
n2 answer 2
> put 2 032216
bus finish
> seen collided
bus open
> slot 1 0 42
> due 1
bus answer 1
> put 1 42116A
bus finish
> seen good 42116A
bus open
> slot 1 1 03
> due 2
bus answer 2
> put 2 0322D7
bus finish
> seen good 0322D7
bus open
> slot 0 2 80
> due 0
";

/// A frame that two sporadic frames list goes for each of them.
const UPDATES: &[u8] = b"bus write 0 2 7
bus write 0 0 3
bus open
> slot 0 0 80
> due 0
bus answer 0
> put 0 53D556
bus finish
> seen good 53D556
bus open
> slot 0 1 C4
bus finish
> seen none
bus open
> slot 0 2 80
> due 0
bus answer 0
> put 0 53D556
bus finish
> seen good 53D556
bus open
> slot 0 3 C1
> due 0
bus answer 0
> put 0 0737
bus write 0 2 9
bus finish
> seen good 0737
bus open
> slot 0 0 C1
> due 0
bus answer 0
> put 0 0935
bus finish
> seen good 0935
bus open
> slot 0 1 C4
bus finish
> seen none
bus open
> slot 0 2 80
> due 0
bus finish
> seen none
bus open
> slot 0 3 -
";

/// A switch leaves the table that resolves a collision.
const SWITCH: &[u8] = b"bus write 1 3 17
bus write 2 4 34
bus open
> slot 0 0 -
bus finish
> seen silent
bus open
> slot 0 1 C4
> due 1
> due 2
bus answer 1
> put 1 4211E7
bus answer 2
> put 2 032216
bus finish
> seen collided
bus switch 2
bus open
> slot 2 0 -
bus finish
> seen silent
bus switch 0
bus open
> slot 0 0 -
";

const REFUSED: &[u8] = b"h1 write 0 0 1
> refused 14
h1 write 1 0 1
> refused 4
h0 write 0 0 16
> refused 5
h0 write 0 5 x01
> refused 5
h0 write 0 6 0
> refused 2
bus switch 3
> refused 3
bus finish
> refused 13
";

const TABLES: &[u8] = b"bus open
> slot 0 0 80
> due 0
bus answer 0
> put 0 52D557
bus finish
> seen good 52D557
bus open
> slot 0 1 C1
> due 0
bus answer 0
> put 0 0539
bus switch 0
> refused 12
bus finish
> seen good 0539
bus switch 1
bus open
> slot 1 0 42
> due 1
bus answer 1
> put 1 FF00BD
";

const LIMITS: &[u8] = b"h0 write 0 0 15
h0 write 0 1 1023
h0 write 0 5 xFF01
bus open
> slot 0 0 80
> due 0
bus answer 0
> put 0 FFFF7F
bus finish
> seen good FFFF7F
";

/// The publisher reads at once what it writes, the others once they heard it in a good frame.
const WRITTEN: &[u8] = b"h0 write 0 0 3\n";

const LIGHT_GOES: &[u8] = b"bus open
> slot 0 0 80
> due 0
bus answer 0
> put 0 53D556
";

const HEARD: &[u8] = b"bus finish\n> seen good 53D556\n";

const DAMAGED: &[u8] = b"bus hurt -\nbus finish\n> seen damaged\n";

const RUNS: &[Run] = &[
    Run {
        is_keyed: true,
        log: &[COLLISION],
        state: (40_000, 0, 1),
        reads: &[(0, 3, Some(17)), (1, 4, Some(34))],
    },
    Run {
        is_keyed: true,
        log: &[UPDATES],
        state: (70_000, 0, 0),
        reads: &[(0, 2, Some(9)), (2, 2, Some(9)), (1, 0, Some(3))],
    },
    Run {
        is_keyed: true,
        log: &[SWITCH],
        state: (30_000, 0, 0),
        reads: &[(0, 3, Some(0)), (1, 3, Some(17))],
    },
    Run {
        is_keyed: true,
        log: &[REFUSED],
        state: (0, 0, 0),
        reads: &[(0, 0, Some(2)), (1, 0, Some(2))],
    },
    Run {
        is_keyed: false,
        log: &[REFUSED],
        state: (0, 0, 0),
        reads: &[(0, 0, Some(2)), (1, 0, Some(2))],
    },
    Run {
        is_keyed: true,
        log: &[WRITTEN],
        state: (0, 0, 0),
        reads: &[(0, 0, Some(3)), (1, 0, Some(2)), (2, 0, Some(2))],
    },
    Run {
        is_keyed: true,
        log: &[WRITTEN, LIGHT_GOES],
        state: (0, 0, 0),
        reads: &[(0, 0, Some(3)), (1, 0, Some(2)), (2, 0, Some(2))],
    },
    Run {
        is_keyed: true,
        log: &[WRITTEN, LIGHT_GOES, DAMAGED],
        state: (10_000, 0, 0),
        reads: &[(0, 0, Some(3)), (1, 0, Some(2)), (2, 0, Some(2))],
    },
    Run {
        is_keyed: true,
        log: &[WRITTEN, LIGHT_GOES, HEARD],
        state: (10_000, 0, 0),
        reads: &[(0, 0, Some(3)), (1, 0, Some(3)), (2, 0, Some(3))],
    },
    Run {
        is_keyed: false,
        log: &[TABLES],
        state: (15_000, 0, 0),
        reads: &[(2, 2, Some(5))],
    },
    Run {
        is_keyed: false,
        log: &[LIMITS],
        state: (10_000, 0, 0),
        reads: &[(1, 0, Some(15)), (2, 1, Some(0x3FF)), (0, 5, None)],
    },
];

#[test]
fn signals_after_runs(rt: HostRuntime) -> Result<(), Fail> {
    for run in RUNS {
        expect_run(&rt, rt.alloc(), run)?;
    }
    Ok(())
}
