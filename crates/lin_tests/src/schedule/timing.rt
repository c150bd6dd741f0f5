//! The cycles of tables, how often frames occur in them, and how long nodes wait there.

use crate::samples::{KEYS_CLUSTER, cluster_of};
use lin_cluster::Cluster;
use lin_schedule::{
    Awaited, Extremes, cycle, gaps, longest_cycle, once_wait, own_entries, shared_entries,
    worst_wait,
};
use std::alloc::Global;
use std::process::Abort;
use std::test::Fail;

/// A light beside doors whose answers may collide in every round.
const DOORS_CLUSTER: &[u8] = b"LIN_description_file;
LIN_protocol_version = \"2.2\";
LIN_language_version = \"2.2\";
LIN_speed = 19.2 kbps;
Nodes { Master: body, 5 ms, 0.1 ms; Slaves: left, right; }
Signals {
  Level: 8, 0, body, left, right;
  LeftKey: 8, 0, left, body;
  RightKey: 8, 0, right, body;
}
Frames {
  Light: 0x00, body, 1 { Level, 0; }
  LeftDoor: 0x02, left, 2 { LeftKey, 8; }
  RightDoor: 0x03, right, 2 { RightKey, 8; }
}
Event_triggered_frames { Keys: Resolve, 0x04, LeftDoor, RightDoor; }
Schedule_tables {
  Main { Light delay 10 ms; Keys delay 10 ms; }
  Resolve { LeftDoor delay 10 ms; RightDoor delay 10 ms; }
}
";

/// A sporadic frame of three frames, and an event-triggered frame whose resolving table sends
/// requests too, each twice in a round.
const NIGHT_CLUSTER: &[u8] = b"LIN_description_file;
LIN_protocol_version = \"2.2\";
LIN_language_version = \"2.2\";
LIN_speed = 19.2 kbps;
Nodes { Master: gate, 5 ms, 0.1 ms; Slaves: roof, seat, lamp; }
Signals {
  dim: 8, 0, gate, lamp;
  heat: 4, 0, gate, seat;
  move: 4, 0, gate, roof, seat;
  tilt: 4, 0, roof, gate;
  rain: 8, 0, roof, gate;
  belt: 2, 0, seat, gate;
  lux: 8, 0, lamp, gate;
}
Frames {
  Dim: 0x10, gate, 1 { dim, 0; }
  Heat: 0x11, gate, 2 { heat, 0; move, 8; }
  Move: 0x12, gate, 1 { move, 0; }
  Tilt: 0x20, roof, 2 { tilt, 8; }
  Rain: 0x21, roof, 2 { rain, 0; tilt, 8; }
  Belt: 0x22, seat, 2 { belt, 8; }
  Lux: 0x23, lamp, 2 { lux, 0; }
}
Sporadic_frames { Orders: Dim, Heat, Move; }
Event_triggered_frames { Any: Solve, 0x30, Tilt, Belt; }
Schedule_tables {
  Night {
    Orders delay 10 ms; Any delay 10 ms; Rain delay 10 ms; Orders delay 10 ms;
    Any delay 15 ms; MasterReq delay 10 ms; Lux delay 10 ms; SlaveResp delay 10 ms;
  }
  Solve { Belt delay 10 ms; MasterReq delay 10 ms; Tilt delay 10 ms; }
}
";

/// Resolving tables without the frames that collide.
const FORCED_CLUSTER: &[u8] = b"LIN_description_file;
LIN_protocol_version = \"2.2\";
LIN_language_version = \"2.2\";
LIN_speed = 19.2 kbps;
Nodes { Master: M, 5 ms, 0.1 ms; Slaves: P, Q; }
Signals { s: 8, 0, M, P; a: 8, 0, P, M; b: 8, 0, Q, M; x: 8, 0, M, P; }
Frames {
  F: 1, M, 2 { s, 0; }
  A: 2, P, 2 { a, 8; }
  B: 3, Q, 2 { b, 8; }
  X: 4, M, 2 { x, 0; }
}
Event_triggered_frames { E1: R1, 5, A, B; E2: R2, 6, A, B; }
Schedule_tables {
  T { F delay 10 ms; E2 delay 10 ms; E1 delay 10 ms; X delay 10 ms; }
  R1 { F delay 10 ms; }
  R2 { X delay 10 ms; X delay 10 ms; }
}
";

/// Frames, the entries of their own in a table, and the entries that list them.
type Occurrence = (u16, u16, u16);

/// A frame, and the shortest and the longest time from the start of a slot of its own to the next one.
type Gaps = (u16, u64, u64);

/// The frames of a signal, its longest wait, and the one in which no frame above goes twice.
type Latency<'a> = (&'a [u16], Option<u64>, Option<u64>);

/// A message's frames, and its longest waits as a request and as a response.
type Transfer = (u16, Option<u64>, Option<u64>);

/// A table: its cycle without collisions and with all of them, and times in it in microseconds.
struct Timing<'a> {
    table: u16,
    cycles: (u64, u64),
    occurrences: &'a [Occurrence],
    gaps: &'a [Gaps],
    latencies: &'a [Latency<'a>],
    transfers: &'a [Transfer],
}

/// Clusters and the timing of their tables.
const TIMINGS: &[(&str, &[u8], &[Timing<'static>])] = &[
    (
        "lights",
        KEYS_CLUSTER,
        &[
            Timing {
                table: 0,
                cycles: (30000, 50000),
                occurrences: &[(0, 1, 1), (1, 0, 1), (2, 0, 1), (3, 0, 1)],
                gaps: &[(0, 30000, 50000)],
                latencies: &[
                    (&[0], Some(50000), Some(50000)),
                    (&[1], None, Some(110000)),
                    (&[2], Some(60000), Some(60000)),
                    (&[3], Some(60000), Some(60000)),
                ],
                transfers: &[(1, None, None)],
            },
            Timing {
                table: 1,
                cycles: (20000, 20000),
                occurrences: &[(0, 0, 0), (2, 1, 0), (3, 1, 0)],
                gaps: &[(2, 20000, 20000), (3, 20000, 20000)],
                latencies: &[
                    (&[0], None, None),
                    (&[2], Some(30000), Some(30000)),
                    (&[3], Some(30000), Some(30000)),
                ],
                transfers: &[],
            },
            Timing {
                table: 2,
                cycles: (20000, 20000),
                occurrences: &[],
                gaps: &[],
                latencies: &[],
                transfers: &[(1, Some(30000), Some(30000))],
            },
        ],
    ),
    (
        "doors",
        DOORS_CLUSTER,
        &[
            Timing {
                table: 0,
                cycles: (20000, 40000),
                occurrences: &[(0, 1, 0), (1, 0, 1), (2, 0, 1)],
                gaps: &[(0, 20000, 40000)],
                latencies: &[
                    (&[0], Some(50000), Some(50000)),
                    (&[1], Some(50000), Some(50000)),
                    (&[2], Some(50000), Some(50000)),
                ],
                transfers: &[],
            },
            Timing {
                table: 1,
                cycles: (20000, 20000),
                occurrences: &[(1, 1, 0), (2, 1, 0)],
                gaps: &[(1, 20000, 20000), (2, 20000, 20000)],
                latencies: &[
                    (&[1], Some(30000), Some(30000)),
                    (&[2], Some(30000), Some(30000)),
                ],
                transfers: &[],
            },
        ],
    ),
    (
        "night",
        NIGHT_CLUSTER,
        &[
            Timing {
                table: 0,
                cycles: (85000, 145000),
                occurrences: &[(0, 0, 2), (1, 0, 2), (3, 0, 2), (4, 1, 0), (5, 0, 2)],
                gaps: &[(4, 85000, 145000), (6, 85000, 145000)],
                latencies: &[
                    (&[0], Some(95000), Some(95000)),
                    (&[1], None, Some(155000)),
                    (&[1, 2], None, Some(155000)),
                    (&[3], Some(95000), Some(95000)),
                    (&[3, 4], Some(95000), Some(95000)),
                    (&[4], Some(155000), Some(155000)),
                    (&[5], Some(90000), Some(90000)),
                ],
                transfers: &[
                    (1, Some(105000), Some(155000)),
                    (11, Some(955000), Some(1605000)),
                ],
            },
            Timing {
                table: 1,
                cycles: (30000, 30000),
                occurrences: &[(3, 1, 0), (4, 0, 0), (5, 1, 0)],
                gaps: &[(3, 30000, 30000), (5, 30000, 30000)],
                latencies: &[
                    (&[3, 4], Some(40000), Some(40000)),
                    (&[5], Some(40000), Some(40000)),
                ],
                transfers: &[(1, Some(40000), None), (11, Some(340000), None)],
            },
        ],
    ),
    (
        "forced",
        FORCED_CLUSTER,
        &[
            Timing {
                table: 0,
                cycles: (40000, 70000),
                occurrences: &[(0, 1, 0), (1, 0, 2), (2, 0, 2), (3, 1, 0)],
                gaps: &[(0, 20000, 60000), (3, 10000, 50000)],
                latencies: &[
                    (&[0], Some(70000), Some(70000)),
                    (&[1], None, None),
                    (&[2], None, None),
                    (&[3], Some(60000), Some(60000)),
                ],
                transfers: &[],
            },
            Timing {
                table: 1,
                cycles: (10000, 10000),
                occurrences: &[(0, 1, 0)],
                gaps: &[(0, 10000, 10000)],
                latencies: &[(&[0], Some(20000), Some(20000))],
                transfers: &[],
            },
            Timing {
                table: 2,
                cycles: (20000, 20000),
                occurrences: &[(3, 2, 0)],
                gaps: &[(3, 10000, 10000)],
                latencies: &[(&[3], Some(20000), Some(20000))],
                transfers: &[],
            },
        ],
    ),
];

fn expect_timing(
    rt: &impl Abort,
    alloc: Global,
    cluster: &Cluster,
    timing: &Timing,
    what: &str,
) -> Result<(), Fail> {
    let table = timing.table;
    assert!(rt; usize::from(table) < cluster.tables());
    let cycles = (cycle(cluster, table), longest_cycle(cluster, table));
    assert!(rt; cycles == timing.cycles, "{what} {table}: {cycles:?}");
    for (frame, own, shared) in timing.occurrences {
        assert!(rt;
            own_entries(cluster, table, *frame) == *own
                && shared_entries(cluster, table, *frame) == *shared,
            "{what} {table}: entries of {frame}"
        );
        if *own == 0 {
            assert!(rt; gaps(alloc, cluster, table, *frame)?.is_none());
        }
    }
    for (frame, shortest, longest) in timing.gaps {
        let found = gaps(alloc, cluster, table, *frame)?;
        let wanted = Some(Extremes {
            shortest: *shortest,
            longest: *longest,
        });
        assert!(rt;
            found == wanted,
            "{what} {table}: gaps of {frame}: {found:?}"
        );
    }
    for (frames, worst, once) in timing.latencies {
        let awaited = Awaited::frames(alloc, cluster, frames)?;
        let found = worst_wait(alloc, cluster, table, &awaited, 1)?;
        assert!(rt;
            found == *worst,
            "{what} {table}: {frames:?} waits {found:?}"
        );
        let found = once_wait(alloc, cluster, table, frames)?;
        assert!(rt;
            found == *once,
            "{what} {table}: {frames:?} waits once {found:?}"
        );
    }
    for (frames, request, response) in timing.transfers {
        let frames = *frames;
        assert!(rt; 1 <= frames && frames <= 1024);
        let found = worst_wait(alloc, cluster, table, &Awaited::request(alloc), frames)?;
        assert!(rt;
            found == *request,
            "{what} {table}: {frames} requests {found:?}"
        );
        let found = worst_wait(alloc, cluster, table, &Awaited::response(alloc), frames)?;
        assert!(rt;
            found == *response,
            "{what} {table}: {frames} responses {found:?}"
        );
    }
    Ok(())
}

#[test]
fn timings(rt: HostRuntime) -> Result<(), Fail> {
    for (what, text, tables) in TIMINGS {
        let cluster = cluster_of(rt.alloc(), text)?;
        for timing in *tables {
            expect_timing(&rt, rt.alloc(), &cluster, timing, what)?;
        }
    }
    Ok(())
}
