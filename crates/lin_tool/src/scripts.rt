//! Scripts that are read and made. Where a line is bad, the notes tell which one.

ghost use Rattle.std.specs.Prelude.{◌≡◌, ◌≤◌, ◌<◌, length, IfOk, IfSome};
ghost use Rattle.lin_log.specs.Replay.{ReadsScript, RunsScript};

use crate::notes::Notes;
use lin_core::{Core, PortId, Step};
use lin_log::{ScriptFault, read_bytes, read_script, run_script};
use lin_parts::Cluster;
use std::alloc::Global;
use std::io::Read;

/// Makes the steps of a script of these bytes on a new core, as of `run_script`.
pub(crate) fn noted_run(
    alloc: Global,
    cluster: Cluster,
    table: u16,
    capacity: usize,
    bytes: &[u8],
    notes: &mut Notes<'_>,
) -> Result<Core, ScriptFault>
    requires table { table < length cluster.tables }
    requires capacity { (1 ≤ capacity) × (capacity ≤ 1024) }
    requires few { length bytes.now ≤ 16777216 }
    ensures log { RunsScript cluster table capacity (λ core. core.log) result bytes.now }
    ensures core { IfOk result (λ core. (core.cluster ≡ cluster) × (core.opening ≡ table)
        × (core.capacity ≡ capacity)) }
{
    let core = run_script(alloc, cluster, table, capacity, bytes);
    if let Err(ScriptFault::BadLine { line }) = &core {
        notes.add_line(bytes, *line);
    }
    core
}

/// The ports and steps that a script names, line by line, in order, as of `read_script`.
pub(crate) fn noted_script<R: Read>(
    alloc: Global,
    reader: &mut R,
    notes: &mut Notes<'_>,
) -> Result<Vec<(PortId, Step)>, ScriptFault>
    ensures steps { IfSome (R.remaining reader.old)
        (λ bytes. ReadsScript (λ v. v.items) result bytes) }
    ensures few { IfOk result (λ v. length v.items ≤ 16777217) }
{
    let bytes = read_bytes(alloc, reader)?;
    let steps = read_script(alloc, &mut bytes.as_slice());
    if let Err(ScriptFault::BadLine { line }) = &steps {
        notes.add_line(bytes.as_slice(), *line);
    }
    steps
}
