//! Worked runs. A run is a log: its steps, given again, must write that log.

mod messages;
mod refused;
mod room;
mod signals;

use crate::samples::{DOOR_CLUSTER, cluster_of, expect_text};
use lin_core::Core;
use lin_log::replay;
use std::alloc::Global;
use std::process::Abort;
use std::test::Fail;

/// A host's first message, the byte 01.
const SEND: &[u8] = b"h0 send 0 1 01\n> accepted 0 1\n";

/// The slot in which it goes.
const OPEN: &[u8] = b"bus open\n> slot 0 0 3C\n> due 0\n";

const ANSWER: &[u8] = b"bus answer 0\n> put 0 010101FFFFFFFFFFFC\n";

const FINISH: &[u8] = b"bus finish\n> seen good 010101FFFFFFFFFFFC\n> message 0 1 01\n> sent 0 1\n";

/// The core after a run on the cluster of a text, whose schedule opens with the first table.
pub(crate) fn core_behind(
    rt: &impl Abort,
    alloc: Global,
    cluster: &[u8],
    capacity: usize,
    run: &[u8],
) -> Result<Core, Fail> {
    let cluster = cluster_of(alloc, cluster)?;
    assert!(rt; cluster.tables() > 0);
    assert!(rt; capacity >= 1);
    assert!(rt; capacity <= 1024);
    let mut written = Vec::new(alloc);
    let mut steps = run;
    let core = replay(alloc, cluster, 0, capacity, &mut steps, &mut written)?;
    expect_text(rt, &written, run, "log");
    Ok(core)
}

/// The time in microseconds, how many messages of host 0 wait, and how many nodes are due and
/// undecided.
type State = (u64, usize, usize);

fn state(core: &Core) -> State {
    core.cluster().sound();
    (core.time(), core.waiting(0), core.undecided())
}

/// The state after a run on the cluster with a door, and how many entries its log has.
fn behind(
    rt: &impl Abort,
    alloc: Global,
    capacity: usize,
    run: &[u8],
) -> Result<(State, usize), Fail> {
    let core = core_behind(rt, alloc, DOOR_CLUSTER, capacity, run)?;
    Ok((state(&core), core.log().len()))
}
