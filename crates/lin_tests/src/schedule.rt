//! Walks through the tables of a small cluster.

ghost use Rattle.lin_schedule.specs.Walker.{Walks};

mod timing;

use crate::samples::cluster_of;
use lin_cluster::Cluster;
use lin_schedule::{Due, Walker, entries_in_turn, excursions_run_once};
use std::process::Abort;
use std::test::Fail;

/// A commander that sends the first two frames, and two responders. The table `short` has its
/// event-triggered entry last.
const SMALL_CLUSTER: &[u8] = b"LIN_description_file;
LIN_protocol_version = \"2.2\";
LIN_language_version = \"2.2\";
LIN_speed = 19.2 kbps;
Nodes { Master: cem, 5 ms, 0.1 ms; Slaves: left, right; }
Frames { A: 0, cem, 2 { } B: 1, cem, 2 { } C: 2, left, 2 { } D: 3, right, 2 { } }
Sporadic_frames { S: B, A; }
Event_triggered_frames { E: resolve, 4, C, D; F: resolve_short, 5, C; }
Schedule_tables {
  main { S delay 10 ms; E delay 20 ms; A delay 5 ms; }
  resolve { C delay 10 ms; D delay 10 ms; }
  diagnostic { MasterReq delay 10 ms; SlaveResp delay 10 ms; AssignNAD { } delay 10 ms; }
  short { B delay 5 ms; F delay 10 ms; }
  resolve_short { C delay 7.5 ms; }
}
";

// The tables' numbers.
const MAIN: u16 = 0;

const RESOLVE: u16 = 1;

const DIAGNOSTIC: u16 = 2;

const SHORT: u16 = 3;

const RESOLVE_SHORT: u16 = 4;

/// What a schedule goes on by: a slot, with a clash or without one, a switch to a table, or the
/// start of the current one.
#[derive(Clone, Copy)]
enum Move {
    Slot,
    Clash,
    Switch(u16),
    Restart,
}

use Move::{Clash, Restart, Slot, Switch};

fn go_on(rt: &impl Abort, cluster: &Cluster, walker: &mut Walker, by: Move)
    requires { Walks cluster.now walker.old }
    ensures { Walks cluster.now walker.new }
{
    cluster.sound();
    match by {
        Slot => walker.advance(cluster, false),
        Clash => walker.advance(cluster, true),
        Switch(table) => {
            assert!(rt; usize::from(table) < cluster.tables());
            walker.switch(table);
        }
        Restart => walker.restart(),
    }
}

/// The places of a walk: each move, and the table and entry of the slot after it.
type Walk<'a> = &'a [(Move, (u16, u16))];

fn expect_places(rt: &impl Abort, cluster: &Cluster, opening: u16, walk: Walk, what: &str) {
    assert!(rt; usize::from(opening) < cluster.tables());
    cluster.sound();
    let mut walker = Walker::new(opening);
    assert!(rt; walker.place() == (opening, 0));
    for (by, place) in walk {
        go_on(rt, cluster, &mut walker, *by);
        let (table, entry) = walker.place();
        assert!(rt; (table, entry) == *place, "{what}: at {table} {entry}");
    }
}

/// Walks, the tables that open them, and what they show. A clash in the slot of a sporadic frame
/// starts nothing.
const WALKS: &[(&str, u16, Walk<'static>)] = &[
    (
        "three entries run twice round",
        MAIN,
        &[
            (Clash, (MAIN, 1)),
            (Slot, (MAIN, 2)),
            (Slot, (MAIN, 0)),
            (Slot, (MAIN, 1)),
            (Slot, (MAIN, 2)),
            (Clash, (MAIN, 0)),
        ],
    ),
    (
        "collision and resolution",
        MAIN,
        &[
            (Slot, (MAIN, 1)),
            (Clash, (RESOLVE, 0)),
            (Clash, (RESOLVE, 1)),
            (Clash, (MAIN, 2)),
            (Slot, (MAIN, 0)),
        ],
    ),
    (
        "a switch after a damaged event slot",
        MAIN,
        &[
            (Slot, (MAIN, 1)),
            (Clash, (RESOLVE, 0)),
            (Switch(DIAGNOSTIC), (DIAGNOSTIC, 0)),
            (Slot, (DIAGNOSTIC, 1)),
            (Slot, (DIAGNOSTIC, 2)),
            (Slot, (DIAGNOSTIC, 0)),
        ],
    ),
    (
        "an excursion of one slot at the last entry",
        SHORT,
        &[
            (Slot, (SHORT, 1)),
            (Clash, (RESOLVE_SHORT, 0)),
            (Slot, (SHORT, 0)),
            (Slot, (SHORT, 1)),
        ],
    ),
    (
        "a resolving table is a main table too",
        MAIN,
        &[
            (Switch(RESOLVE), (RESOLVE, 0)),
            (Clash, (RESOLVE, 1)),
            (Slot, (RESOLVE, 0)),
            (Slot, (RESOLVE, 1)),
        ],
    ),
    (
        "a restart starts the current table",
        MAIN,
        &[
            (Switch(SHORT), (SHORT, 0)),
            (Slot, (SHORT, 1)),
            (Restart, (SHORT, 0)),
            (Slot, (SHORT, 1)),
            (Clash, (RESOLVE_SHORT, 0)),
            (Restart, (SHORT, 0)),
        ],
    ),
];

#[test]
fn walks(rt: HostRuntime) -> Result<(), Fail> {
    let cluster = cluster_of(rt.alloc(), SMALL_CLUSTER)?;
    for (what, opening, walk) in WALKS {
        expect_places(&rt, &cluster, *opening, walk, what);
    }
    entries_in_turn();
    excursions_run_once();
    Ok(())
}

/// Whether this is due where a table opens the schedule and some slots are over.
fn is_due(cluster: &Cluster, table: u16, slots: u16, pending: [bool; 4], due: Due) -> bool {
    if usize::from(table) >= cluster.tables() || cluster.frames() != 4 {
        return false;
    }
    cluster.sound();
    let mut walker = Walker::new(table);
    for _ in 0..slots {
        walker.advance(cluster, false);
    }
    walker.due(cluster, &pending) == due
}

/// Tables, how many of their slots are over, which frames are pending, and what is due.
const DUE: &[(u16, u16, [bool; 4], Due)] = &[
    (MAIN, 0, [false, false, true, true], Due::Sporadic(None)),
    (MAIN, 0, [true, false, false, false], Due::Sporadic(Some(0))),
    (MAIN, 0, [true, true, false, false], Due::Sporadic(Some(1))),
    (MAIN, 1, [true; 4], Due::Event(0)),
    (MAIN, 2, [false; 4], Due::Frame(0)),
    (DIAGNOSTIC, 0, [false; 4], Due::MasterReq),
    (DIAGNOSTIC, 1, [false; 4], Due::SlaveResp),
    (DIAGNOSTIC, 2, [false; 4], Due::Quiet),
];

#[test]
fn due_by_the_kind_of_entry(rt: HostRuntime) -> Result<(), Fail> {
    let cluster = cluster_of(rt.alloc(), SMALL_CLUSTER)?;
    for (table, slots, pending, due) in DUE {
        assert!(rt;
            is_due(&cluster, *table, *slots, *pending, *due),
            "table {table} after {slots} slots"
        );
    }
    Ok(())
}
