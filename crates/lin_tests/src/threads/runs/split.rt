//! Scripts, host by host.

use crate::samples::{DOOR_CLUSTER, core_of};
use lin_core::Core;
use lin_log::{read_script, steps_of};
use lin_threads::{HostStep, SplitFault, split};
use std::alloc::Global;
use std::process::Abort;
use std::test::Fail;

const FIRST_MESSAGE: &[u8] = b"h0 send 0 1 22062E
bus open
n0 answer 0
bus finish
";

/// A core on which a script's steps were made.
fn core_after(rt: &impl Abort, alloc: Global, script: &[u8]) -> Result<Core, Fail> {
    let mut core = core_of(alloc, DOOR_CLUSTER, 0)?;
    let mut rest = script;
    for (port, step) in read_script(alloc, &mut rest)? {
        assert!(rt; core.step(port, step).is_ok());
    }
    Ok(core)
}

#[test]
fn split_of_the_first_message(rt: HostRuntime) -> Result<(), Fail> {
    let alloc = rt.alloc();
    let core = core_after(&rt, alloc, FIRST_MESSAGE)?;
    match split(alloc, steps_of(alloc, core.log())?, 2) {
        Err(SplitFault::NotHost { index }) => assert_eq!(rt; index, 1),
        _ => return Err(Fail::new("steps of the bus were split")),
    }
    let mut first = steps_of(alloc, core.log())?;
    assert_eq!(rt; first.len(), 4);
    first.truncate(1);
    let lists = split(alloc, first, 2)?;
    assert_eq!(rt; lists.len(), 2);
    assert_eq!(rt; lists[0].len(), 1);
    assert_eq!(rt; lists[1].len(), 0);
    match &lists[0][0] {
        HostStep::Send { to, message } => {
            assert_eq!(rt; *to, 1);
            assert!(rt; message.as_slice() == [0x22, 0x06, 0x2E].as_slice());
        }
        _ => return Err(Fail::new("the first step is no send")),
    }
    Ok(())
}

const TWO_HOSTS: &[u8] = b"h1 send 1 0 7E
h0 send 0 1 3E
h1 write 1 2 5
h0 close 0
h1 close 1
";

#[test]
fn split_of_two_hosts(rt: HostRuntime) -> Result<(), Fail> {
    let alloc = rt.alloc();
    let mut rest = TWO_HOSTS;
    let lists = split(alloc, read_script(alloc, &mut rest)?, 2)?;
    assert_eq!(rt; lists.len(), 2);
    assert_eq!(rt; lists[0].len(), 2);
    assert_eq!(rt; lists[1].len(), 3);
    let mut rest = TWO_HOSTS;
    match split(alloc, read_script(alloc, &mut rest)?, 1) {
        Err(SplitFault::NotHost { index }) => assert_eq!(rt; index, 0),
        _ => return Err(Fail::new("the steps of two hosts were split among one")),
    }
    Ok(())
}
