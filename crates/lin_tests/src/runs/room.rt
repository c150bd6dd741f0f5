//! Room for a step, before the first and after a long log.

use super::state;
use crate::samples::{DOOR_CLUSTER, THREE_BYTES, core_of, expect_log, joined};
use lin_core::{Core, Payload, PortId, Step};
use std::alloc::Global;
use std::process::Abort;
use std::test::Fail;

/// Makes room for a step, and makes it.
fn expect_step(rt: &impl Abort, core: &mut Core, by: PortId, step: Step) -> Result<(), Fail> {
    core.make_room()?;
    assert!(rt; core.step(by, step).is_ok());
    Ok(())
}

/// A message: its send, its slot, and the schedule from its first entry again.
fn expect_message(
    rt: &impl Abort,
    alloc: Global,
    core: &mut Core,
    bytes: &[u8],
) -> Result<(), Fail> {
    let message = Payload::copied(alloc, bytes)?;
    let send = Step::Send {
        from: 0,
        to: 1,
        message,
    };
    expect_step(rt, core, PortId::Host(0), send)?;
    expect_step(rt, core, PortId::Bus, Step::Open)?;
    expect_step(rt, core, PortId::Node(0), Step::Answer { node: 0 })?;
    expect_step(rt, core, PortId::Bus, Step::Finish)?;
    expect_step(rt, core, PortId::Bus, Step::Switch { table: 0 })
}

#[test]
fn room_before_each_step(rt: HostRuntime) -> Result<(), Fail> {
    let mut core = core_of(rt.alloc(), DOOR_CLUSTER, 0)?;
    expect_message(&rt, rt.alloc(), &mut core, &[0x22, 0x06, 0x2E])?;
    let wanted = joined(rt.alloc(), &[THREE_BYTES, b"bus switch 0\n"])?;
    expect_log(&rt, rt.alloc(), &core, &wanted, "log")?;
    let mut core = core_of(rt.alloc(), DOOR_CLUSTER, 0)?;
    for _ in 0..20_000 {
        expect_message(&rt, rt.alloc(), &mut core, &[1])?;
    }
    assert!(rt; core.log().len() == 100_000);
    assert!(rt; state(&core) == (200_000_000, 0, 0));
    Ok(())
}
