//! A whole run.

ghost use Rattle.linsim_c.specs.Replaying.{AnswersReplay, Runs};

use crate::entry_texts::put_log;
use crate::fault::Fault;
use crate::settings::{Settings, set_up};
use crate::written_text::Told;
use lin_core::Core;
use lin_log::{ScriptFault, run_script};
use lin_text::TextBuffer;
use std::alloc::Global;

/// The most bytes that a script may have.
const LIMIT: usize = 16_777_216;

/// The core after the steps of a script.
///
/// # Errors
/// Those of `set_up`, then `ScriptTooLong` and `BadLine`. `OutOfMemory`.
fn run(alloc: Global, ldf: &[u8], settings: &Settings, script: &[u8]) -> Result<Core, Fault>
    ensures { Runs result ldf.now settings.now script.now }
{
    let cluster = set_up(alloc, ldf, settings)?;
    if script.len() > LIMIT {
        return Err(Fault::ScriptTooLong);
    }
    match run_script(alloc, cluster, settings.table, settings.capacity, script) {
        Ok(core) => Ok(core),
        Err(ScriptFault::BadLine { line }) => Err(Fault::BadLine { line }),
        Err(ScriptFault::TooLong) => Err(Fault::ScriptTooLong),
        Err(ScriptFault::ReadFailed | ScriptFault::OutOfMemory) => Err(Fault::OutOfMemory),
    }
}

/// Makes the steps of a script over the cluster of an LDF text, and writes the text of their log.
///
/// # Errors
/// Those of `run`, then `NoRoom`. `OutOfMemory`. Nothing is written.
pub(crate) fn replay(
    alloc: Global,
    ldf: &[u8],
    settings: &Settings,
    script: &[u8],
    out: &mut [u8],
) -> Result<Told, Fault>
    ensures { AnswersReplay result ldf.now settings.now script.now out.old out.new }
{
    let core = run(alloc, ldf, settings, script)?;
    put_log(alloc, core.log(), 0, &mut TextBuffer::empty(), out)
}
