//! The steps of a log.

ghost use Rattle.std.specs.Prelude.{◌≡◌, IfOk};
ghost use Rattle.lin_core.specs.Fits.{FitsPort, FitsStep};
ghost use Rattle.lin_core.specs.Runs.{steps_of};
ghost use Rattle.lin_log.specs.Replay.{ReadsAgain, RunsAgain};

use lin_core::{Log, LogEntry, PortId, Step};
use std::alloc::{AllocError, Global};

/// The entry's port. A number that was taken out of it shows its range.
fn port_of(entry: &LogEntry) -> PortId
    ensures same { result ≡ entry.now.port }
    ensures fits { FitsPort entry.now.port }
{
    let port = entry.port;
    let _number = match port {
        PortId::Bus => 0,
        PortId::Host(number) => number,
        PortId::Node(number) => number,
    };
    port
}

/// The ports and steps of a log, in order. The log's text, read as a script, gives the same list,
/// and a new core over the same cluster, table and capacity that makes these steps has the same
/// log.
///
/// # Errors
/// Out of memory.
pub fn steps_of(alloc: Global, log: &Log) -> Result<Vec<(PortId, Step)>, AllocError>
    ensures steps { IfOk result (λ v. v.items ≡ steps_of log.now.entries) }
    ensures text { IfOk result (λ v. ReadsAgain log.now.entries v.items) }
    ensures history { IfOk result (λ v. RunsAgain log.now.entries v.items) }
{
    let mut steps = Vec::new(alloc);
    for index in 0..log.len() {
        let entry = log.entry(index);
        steps.push((port_of(entry), entry.step.copy(alloc)?))?;
    }
    Ok(steps)
}
