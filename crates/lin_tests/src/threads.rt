//! Ports and their pump, without threads, and whole runs, with threads.

mod ports;
mod runs;

use crate::samples::core_of;
use lin_core::{Core, Payload, PortId, Step};
use std::alloc::Global;
use std::process::Abort;
use std::test::Fail;

/// The door gets a byte that was sent before the ports were wired.
const DOOR_ANSWERS: &[u8] = b"h0 send 0 1 01
> accepted 0 1
bus open
> slot 0 0 3C
> due 0
n0 answer 0
> put 0 010101FFFFFFFFFFFC
bus finish
> seen good 010101FFFFFFFFFFFC
> message 0 1 01
> sent 0 1
";

/// The commander leaves it out.
const DOOR_LEAVES: &[u8] = b"h0 send 0 1 01
> accepted 0 1
bus open
> slot 0 0 3C
> due 0
n0 leave 0
bus finish
> seen none
";

/// A core on the cluster of a text whose log has sends of single bytes, each given with its sender
/// and its receiver; its schedule opens with this table.
fn core_with_sends(
    rt: &impl Abort,
    alloc: Global,
    text: &[u8],
    table: u16,
    sends: &[(u8, u8, u8)],
) -> Result<Core, Fail> {
    let mut core = core_of(alloc, text, table)?;
    for (from, to, byte) in sends {
        let step = Step::Send {
            from: *from,
            to: *to,
            message: Payload::copied(alloc, &[*byte])?,
        };
        assert!(rt; core.step(PortId::Host(*from), step).is_ok());
    }
    Ok(core)
}
