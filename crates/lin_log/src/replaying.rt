//! Scripts, made and written.

ghost use Rattle.std.specs.Prelude.{◌≡◌, ◌≤◌, ◌<◌, ◌^◌, ◌-◌, ◌++◌, ◌∷◌, [], length, IfOk, OnOk};
ghost use Rattle.lin_core.specs.Core.{IsAlike, entry_with_reply};
ghost use Rattle.lin_log.specs.Judged.{MakesLines};
ghost use Rattle.lin_log.specs.Replay.{IsReplay, RunsScript};
ghost use Rattle.lin_log.specs.Script.{script};

use crate::entries::write_log;
use crate::fault::{ReplayFault, ScriptFault};
use crate::script::{ScriptLines, read_bytes};
use lin_core::{Core, Hold, PortId, Step};
use lin_parts::Cluster;
use std::alloc::{AllocError, Global};
use std::io::{Read, Write};

/// Makes one step on a core whose log has room.
///
/// # Errors
/// Out of memory; nothing was changed then.
#[inline(always)]
pub fn make_step(core: &mut Core, by: PortId, step: Step) -> Result<(), AllocError>
    requires { length core.old.log < 2 ^ 32 - 1 }
    ensures made { OnOk result (core.new.log ≡ core.old.log ++ entry_with_reply core.old by step ∷ []) }
    ensures alike { IsAlike core.old core.new }
{
    match core.step(by, step) {
        Ok(()) => Ok(()),
        Err(Hold::OutOfMemory(_)) => Err(AllocError),
        Err(Hold::LogFull(_)) => unreachable!(),
    }
}

/// Makes each step of a script as its line is read.
fn make_steps(alloc: Global, core: &mut Core, bytes: &[u8]) -> Result<(), ScriptFault>
    requires empty { core.old.log ≡ [] }
    requires few { length bytes.now ≤ 16777216 }
    ensures log { MakesLines core.old.cluster core.old.opening core.old.capacity result
        core.new.log (script bytes.now) }
    ensures alike { IsAlike core.old core.new }
{
    let mut lines = ScriptLines::new(bytes);
    loop {
        match lines.next_step(alloc) {
            Err(fault) => return Err(fault),
            Ok(None) => return Ok(()),
            Ok(Some((by, step))) => {
                if make_step(core, by, step).is_err() {
                    return Err(ScriptFault::OutOfMemory);
                }
            }
        }
    }
}

/// Makes each step of a script of these bytes, at most 16,777,216, on a new core.
///
/// The core begins with schedule table `table` of the cluster; each host may have `capacity`
/// messages waiting, 1 to 1,024.
///
/// # Errors
/// The cluster is dropped after each of them.
/// - `BadLine` with the number of the first line that is in no form;
/// - `OutOfMemory`.
pub fn run_script(
    alloc: Global,
    cluster: Cluster,
    table: u16,
    capacity: usize,
    bytes: &[u8],
) -> Result<Core, ScriptFault>
    requires table { table < length cluster.tables }
    requires capacity { (1 ≤ capacity) × (capacity ≤ 1024) }
    requires few { length bytes.now ≤ 16777216 }
    ensures log { RunsScript cluster table capacity (λ core. core.log) result bytes.now }
    ensures core { IfOk result (λ core. (core.cluster ≡ cluster) × (core.opening ≡ table)
        × (core.capacity ≡ capacity)) }
{
    let Ok(mut core) = Core::new(alloc, cluster, table, capacity) else {
        return Err(ScriptFault::OutOfMemory);
    };
    make_steps(alloc, &mut core, bytes)?;
    Ok(core)
}

/// Reads a script, makes each of its steps on a new core, and writes the core's log.
///
/// The core begins with schedule table `table` of the cluster; each host may have `capacity`
/// messages waiting, 1 to 1,024. What is written is the text of the log of the core that is
/// returned, whatever the reader gave; where the reader's bytes are known, the log is that of the
/// steps of their lines.
///
/// # Errors
/// The cluster is dropped after each of them.
/// - `Script` where the script isn't read; nothing was written;
/// - `OutOfMemory`; nothing was written;
/// - `WriteFailed`; what was written is the beginning of the text.
pub fn replay<R: Read, W: Write>(
    alloc: Global,
    cluster: Cluster,
    table: u16,
    capacity: usize,
    reader: &mut R,
    writer: &mut W,
) -> Result<Core, ReplayFault>
    requires table { table < length cluster.tables }
    requires capacity { (1 ≤ capacity) × (capacity ≤ 1024) }
    ensures text { IsReplay cluster table capacity (λ core. core.log) result
        (R.remaining reader.old) (W.contents writer.old) (W.contents writer.new) }
    ensures core { IfOk result (λ core. (core.cluster ≡ cluster) × (core.opening ≡ table)
        × (core.capacity ≡ capacity)) }
{
    let bytes = read_bytes(alloc, reader)?;
    let core = run_script(alloc, cluster, table, capacity, bytes.as_slice())?;
    if write_log(core.log(), writer).is_err() {
        return Err(ReplayFault::WriteFailed);
    }
    Ok(core)
}
