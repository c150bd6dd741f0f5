//! `linsim replay`: makes the steps of a script and writes their log, in its own text or in another
//! format.

ghost use Rattle.std.specs.Prelude.{◌≤◌, ◌<◌, length, Option};
ghost use Rattle.lin_values.specs.Coded.{CodedData};
ghost use Rattle.lin_tool.specs.Replaying.{Replays, ReplaysOpened};
ghost use Rattle.lin_tool.specs.declared.formats.Format.TheVariants.{Log};

use crate::fault::Fault;
use crate::formats::{Format, Shown, write_shown};
use crate::notes::Notes;
use crate::opening::{Opened, Settings, begin, within_limits};
use crate::scripts::noted_run;
use lin_log::read_bytes;
use lin_parts::Cluster;
use std::alloc::Global;
use std::fs::Files;
use std::io::{self, Read, Write};
use std::mem;

/// Reads a script, makes its steps over a cluster, and writes the text of their log, as of
/// `lin_log::replay`. (The core's memory is left to the end of the program.)
fn replay_log<R: Read, W: Write>(
    alloc: Global,
    cluster: Cluster,
    table: u16,
    capacity: usize,
    reader: &mut R,
    writer: &mut W,
) -> Result<(), Fault>
    requires table { table < length cluster.tables }
    requires capacity { (1 ≤ capacity) × (capacity ≤ 1024) }
    ensures { (k : Option CodedData) → Replays Log k cluster table capacity result
        (R.remaining reader.old) (W.contents writer.old) (W.contents writer.new) }
{
    let core = lin_log::replay(alloc, cluster, table, capacity, reader, writer)?;
    mem::forget(core);
    Ok(())
}

/// Reads a script, makes its steps over the cluster that was opened, and writes their log in the format
/// of the settings, with what signals mean, as of `write_shown`. The notes tell which steps were
/// refused. (The core's memory is left to the end of the program: it would be let go of entry by
/// entry.)
///
/// # Errors
/// `BadLine` and `ScriptTooLong` for a fault of the script; `ReadFailed` where the reader answers
/// an error. Nothing was written then. `OutOfMemory`, where nothing was written, or in a format
/// other than the log's own text a beginning. `WriteFailed`, where what was written is the
/// beginning of the whole.
pub fn replay_script<R: Read, W: Write>(
    alloc: Global,
    opened: Opened<'_>,
    reader: &mut R,
    writer: &mut W,
    notes: &mut Notes<'_>,
) -> Result<(), Fault>
    requires { opened.table < length opened.cluster.tables }
    ensures { ReplaysOpened opened.entry result
        (R.remaining reader.old) (W.contents writer.old) (W.contents writer.new) }
{
    let Opened {
        cluster,
        table,
        coded,
        limits: _limits,
        settings,
    } = opened;
    let capacity = within_limits(settings.capacity);
    if settings.format == Format::Log && !notes.is_explained() {
        return replay_log(alloc, cluster, table, capacity, reader, writer);
    }
    let bytes = read_bytes(alloc, reader)?;
    let core = noted_run(alloc, cluster, table, capacity, bytes.as_slice(), notes)?;
    let shown = Shown {
        format: settings.format,
        coded: coded.as_ref(),
        table,
        capacity,
        judgements: &[],
        tests: &[],
        script: None::<&'static str>,
        files: &[],
    };
    let written = write_shown(alloc, &shown, &core, writer);
    notes.add_refusals(core.log());
    mem::forget(core);
    match written {
        Ok(()) => Ok(()),
        Err(fault) => Err(Fault::from(fault)),
    }
}

/// Reads the script on standard input, makes its steps over the cluster of the settings, and writes
/// the log on standard output in their format.
///
/// # Errors
/// Those of `cluster_of_file`, and `NoSuchTable`, after which nothing was written; those of
/// `replay_script`.
pub fn replay<R: AllocGlobal + Files + Input + Print>(
    rt: &R,
    settings: &Settings<'_>,
    notes: &mut Notes<'_>,
) -> Result<(), Fault> {
    let opened = begin(rt, settings, false, notes)?;
    let answer = replay_script(
        rt.alloc(),
        opened,
        &mut rt.reader(),
        &mut io::writer(rt),
        notes,
    );
    notes.add_unread(&answer, None);
    answer
}
