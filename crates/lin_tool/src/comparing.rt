//! `linsim replay --same`: whether a script is the text of its own history.

ghost use Rattle.std.specs.Prelude.{◌≡◌, ◌≢◌, ◌≤◌, ◌<◌, length, slice_index, take, IfSome};
ghost use Rattle.std.specs.Prelude.{MatchOption};
ghost use Rattle.lin_tool.specs.Comparing.{Compares, PartInLine};

use crate::fault::Fault;
use crate::notes::Notes;
use crate::opening::{Opened, Settings, begin, within_limits};
use crate::scripts::noted_run;
use lin_log::{read_bytes, write_log};
use lin_parts::Cluster;
use std::alloc::Global;
use std::fs::Files;
use std::io::Read;
use std::mem;

/// How many bytes are the same at the beginning of two texts.
fn common_length(left: &[u8], right: &[u8]) -> usize
    ensures within { (result ≤ length left.now) × (result ≤ length right.now) }
    ensures same { take result left.now ≡ take result right.now }
    ensures part { result < length left.now → result < length right.now
        → slice_index left.now result ≢ slice_index right.now result }
{
    let mut n = 0;
    while n < left.len() && n < right.len() && left[n] == right[n] {
        n += 1;
    }
    n
}

/// The first line, counted from 1, in which two texts differ; none where they are the same. A last
/// line without its LF differs from one with it.
pub fn first_difference(left: &[u8], right: &[u8]) -> Option<u64>
    ensures { MatchOption result (left.now ≡ right.now) (PartInLine left.now right.now) }
{
    let common = common_length(left, right);
    if common == left.len() && common == right.len() {
        return None;
    }
    let ends = left[..common].iter().filter(|b| **b == b'\n').count();
    Some(ends as u64 + 1)
}

/// Makes the steps of a script over a cluster, and compares the script with the text of their log.
/// It begins with the schedule table `table`; each host may have `capacity` messages waiting, 1 to
/// 1,024.
///
/// # Errors
/// `LogDiffers` with the first line in which the two texts differ; `BadLine` and `ScriptTooLong`
/// for a fault of the script; `ReadFailed` where the reader answers an error; `OutOfMemory`.
pub fn compare_script<R: Read>(
    alloc: Global,
    cluster: Cluster,
    table: u16,
    capacity: usize,
    reader: &mut R,
    notes: &mut Notes<'_>,
) -> Result<(), Fault>
    requires table { table < length cluster.tables }
    requires capacity { (1 ≤ capacity) × (capacity ≤ 1024) }
    ensures { IfSome (R.remaining reader.old) (Compares cluster table capacity result) }
{
    let bytes = read_bytes(alloc, reader)?;
    let core = noted_run(alloc, cluster, table, capacity, bytes.as_slice(), notes)?;
    let mut text = Vec::new(alloc);
    let written = write_log(core.log(), &mut text);
    mem::forget(core);
    if written.is_err() {
        return Err(Fault::OutOfMemory);
    }
    match first_difference(bytes.as_slice(), text.as_slice()) {
        None => Ok(()),
        Some(line) => Err(Fault::LogDiffers { line }),
    }
}

/// Reads the log on standard input, makes its steps over the cluster of the settings, and compares
/// their log with what was read. (It is compared with the log's own text, whatever their format.)
///
/// # Errors
/// Those of `cluster_of_file`; `NoSuchTable`; those of `compare_script`.
pub fn compare<R: AllocGlobal + Files + Input>(
    rt: &R,
    settings: &Settings<'_>,
    notes: &mut Notes<'_>,
) -> Result<(), Fault> {
    let Opened {
        cluster,
        table,
        coded: _coded,
        limits: _limits,
        settings: _settings,
    } = begin(rt, settings, false, notes)?;
    let answer = compare_script(
        rt.alloc(),
        cluster,
        table,
        within_limits(settings.capacity),
        &mut rt.reader(),
        notes,
    );
    notes.add_unread(&answer, None);
    answer
}
