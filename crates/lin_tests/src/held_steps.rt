//! Logs that are made again from their own text, where a step that is held is made a second time.
//! `checks/refused_memory` refuses each request for memory of these tests in turn: they then end for
//! lack of memory, or with the same text.

use crate::samples::{
    DOOR_CLUSTER, KEYS_CLUSTER, MESSAGE_TO_ALL, THREE_BYTES, TWO_RESPONDERS, core_of, expect_text,
};
use lin_core::{Core, Hold, PortId, Step};
use lin_log::{read_script, write_log};
use std::alloc::Global;
use std::test::Fail;

/// Makes a step, or hands it back where it is held.
fn make_once(core: &mut Core, by: PortId, step: Step) -> Result<(), Step> {
    match core.step(by, step) {
        Ok(()) => Ok(()),
        Err(Hold::OutOfMemory(step) | Hold::LogFull(step)) => Err(step),
    }
}

/// Makes a step, and where it is held makes it once more.
fn make(core: &mut Core, by: PortId, step: Step) -> Result<(), Fail> {
    let Err(step) = make_once(core, by, step) else {
        return Ok(());
    };
    match make_once(core, by, step) {
        Ok(()) => Ok(()),
        Err(_) => Err(Fail::from("held twice")),
    }
}

/// Makes the steps of a log.
fn make_all(alloc: Global, core: &mut Core, log: &[u8]) -> Result<(), Fail> {
    let mut rest = log;
    for (by, step) in read_script(alloc, &mut rest)? {
        make(core, by, step)?;
    }
    Ok(())
}

/// The log of a log's steps, in text.
fn again(alloc: Global, cluster: &[u8], table: u16, log: &[u8]) -> Result<Vec<u8>, Fail> {
    let mut core = core_of(alloc, cluster, table)?;
    make_all(alloc, &mut core, log)?;
    let mut text = Vec::new(alloc);
    write_log(core.log(), &mut text)?;
    Ok(text)
}

#[test]
fn logs_are_made_again(rt: HostRuntime) -> Result<(), Fail> {
    for (cluster, table, log) in [
        (DOOR_CLUSTER, 0, THREE_BYTES),
        (KEYS_CLUSTER, 2, TWO_RESPONDERS),
        (KEYS_CLUSTER, 2, MESSAGE_TO_ALL),
    ] {
        let text = again(rt.alloc(), cluster, table, log)?;
        expect_text(&rt, &text, log, "log");
    }
    Ok(())
}
