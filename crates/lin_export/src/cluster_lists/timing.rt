//! What schedule tables promise if they run undisturbed, as lines.

ghost use Rattle.std.specs.Prelude.{◌≡◌, ◌<◌, ◌≤◌, length};
ghost use Rattle.lin_log.specs.Shown.{word_shown};
ghost use Rattle.lin_parts.specs.Cluster.{line_of, table_of};
ghost use Rattle.lin_text.specs.Written.{Grows};
ghost use Rattle.lin_export.specs.ListedTiming.{WritesTimings, frame_timing_text, signal_timing_text, slot_times};
ghost use Rattle.lin_export.specs.ListedTiming.{table_line, table_text, tightest_slot, time_word};
ghost use Rattle.lin_export.specs.ListedTiming.{timing_text, transfer_text};
ghost use Rattle.lin_export.specs.Listing.{numbered_lines};
ghost use Rattle.lin_export.specs.Timings.{AreTimings};

use crate::cluster_lists::slot_times::{bits_of, permille, put_slack, slot_bytes};
use crate::cluster_lists::timings::{
    FrameTiming, Latency, TableTiming, frames_of_message, table_timings,
};
use crate::fault::ExportFault;
use lin_cluster::needed_us;
use lin_log::{Word, put_head, put_line};
use lin_parts::Cluster;
use lin_schedule::{cycle, longest_cycle};
use lin_text::{TextBuffer, TextWriter};
use std::alloc::Global;
use std::io::Write;

/// A time in microseconds, and `-` for none.
fn time_word(time: Option<u64>) -> Word<'static>
    ensures { word_shown result ≡ time_word time }
{
    match time {
        Some(time) => Word::Number(time),
        None => Word::Fixed("-"),
    }
}

/// The delay of an entry, and the time that its slot needs.
fn slot_times(cluster: &Cluster, table: u16, entry: u16) -> (u64, u64)
    requires table { table < length cluster.now.tables }
    requires entry { entry < length (table_of cluster.now table) }
    ensures times { result ≡ slot_times cluster.now (line_of cluster.now table entry) }
    ensures delay { result.0 ≤ 1000000000 }
    ensures need { result.1 ≤ 5000000000 }
{
    cluster.sound();
    let bytes = slot_bytes(cluster, cluster.entry(table, entry));
    let delay = u64::from(cluster.delay_us(table, entry));
    let needed = needed_us(cluster.jitter_us(), cluster.speed(), u32::from(bytes));
    (delay, needed)
}

/// The delay of the slot with the least slack in a table, and the time that it needs.
pub(super) fn tightest_slot(cluster: &Cluster, table: u16) -> (u64, u64)
    requires { table < length cluster.now.tables }
    ensures { result ≡ tightest_slot cluster.now table }
{
    let entries = cluster.entries(table) as u16;
    let mut least = slot_times(cluster, table, 0);
    for entry in 1..entries {
        let slot = slot_times(cluster, table, entry);
        if slot.0 + least.1 < least.0 + slot.1 {
            least = slot;
        }
    }
    least
}

/// The line of a table.
fn put_table_line<'a, W: Write>(out: &mut TextWriter<'_, W>, cluster: &'a Cluster, table: u16)
    requires { table < length cluster.now.tables }
    ensures { Grows W.contents out.old out.new (table_line cluster.now table) }
{
    let time = cycle(cluster, table);
    let load = permille(bits_of(cluster, table), cluster.speed(), time);
    let (delay, needed) = tightest_slot(cluster, table);
    put_head(
        out,
        b"timing",
        &[
            Word::Number(u64::from(table)),
            Word::Said(cluster.table_name(table)),
            Word::Number(time),
            Word::Number(longest_cycle(cluster, table)),
            Word::Number(load),
        ],
    );
    out.put_byte(b' ');
    put_slack(out, delay, needed);
    out.put_byte(b'\n');
}

/// The line of a frame in a table, if an entry carries it.
fn put_frame<'a, W: Write>(
    out: &mut TextWriter<'_, W>,
    cluster: &'a Cluster,
    table: u16,
    frame: u16,
    timing: FrameTiming,
)
    requires { frame < length cluster.now.frames }
    ensures { Grows W.contents out.old out.new (frame_timing_text cluster.now table frame timing) }
{
    if !timing.occurs() {
        return;
    }
    put_line(
        out,
        b"occurs",
        &[
            Word::Number(u64::from(table)),
            Word::Said(cluster.frame_name(frame)),
            Word::Number(u64::from(timing.own)),
            Word::Number(u64::from(timing.shared)),
            time_word(timing.gaps.map(|gaps| gaps.shortest)),
            time_word(timing.gaps.map(|gaps| gaps.longest)),
        ],
    );
}

fn put_frames<W: Write>(
    out: &mut TextWriter<'_, W>,
    cluster: &Cluster,
    table: u16,
    timings: &[FrameTiming],
)
    requires { length timings.now ≡ length cluster.now.frames }
    ensures { Grows W.contents out.old out.new
        (numbered_lines (frame_timing_text cluster.now table) 0 timings.now) }
{
    cluster.sound();
    for frame in 0..cluster.frames() as u16 {
        put_frame(out, cluster, table, frame, timings[frame as usize]);
    }
}

/// The line of a signal in a table, if it has a latency there.
fn put_signal<'a, W: Write>(
    out: &mut TextWriter<'_, W>,
    cluster: &'a Cluster,
    table: u16,
    signal: u16,
    latency: Option<Latency>,
)
    requires { signal < length cluster.now.signals }
    ensures { Grows W.contents out.old out.new (signal_timing_text cluster.now table signal latency) }
{
    if let Some(latency) = latency {
        put_line(
            out,
            b"latency",
            &[
                Word::Number(u64::from(table)),
                Word::Said(cluster.signal_name(signal)),
                time_word(latency.worst),
                time_word(latency.once),
            ],
        );
    }
}

fn put_signals<W: Write>(
    out: &mut TextWriter<'_, W>,
    cluster: &Cluster,
    table: u16,
    latencies: &[Option<Latency>],
)
    requires { length latencies.now ≡ length cluster.now.signals }
    ensures { Grows W.contents out.old out.new
        (numbered_lines (signal_timing_text cluster.now table) 0 latencies.now) }
{
    for signal in 0..cluster.signals() as u16 {
        put_signal(out, cluster, table, signal, latencies[signal as usize]);
    }
}

/// The line of messages in a direction, if the table has such entries.
fn put_transfer<W: Write>(
    out: &mut TextWriter<'_, W>,
    table: u16,
    direction: &[u8],
    bytes: u16,
    worst: Option<u64>,
)
    requires { bytes ≤ 4095 }
    ensures { Grows W.contents out.old out.new (transfer_text table direction.now bytes worst) }
{
    if let Some(worst) = worst {
        put_line(
            out,
            b"transfer",
            &[
                Word::Number(u64::from(table)),
                Word::Said(direction),
                Word::Number(u64::from(bytes)),
                Word::Number(u64::from(frames_of_message(bytes))),
                Word::Number(worst),
            ],
        );
    }
}

/// The lines of a table.
fn put_table<W: Write>(
    out: &mut TextWriter<'_, W>,
    cluster: &Cluster,
    table: u16,
    bytes: u16,
    timing: &TableTiming,
)
    requires table { table < length cluster.now.tables }
    requires bytes { bytes ≤ 4095 }
    requires frames { length timing.now.frames.items ≡ length cluster.now.frames }
    requires signals { length timing.now.signals.items ≡ length cluster.now.signals }
    ensures { Grows W.contents out.old out.new (table_text cluster.now bytes table timing.now) }
{
    put_table_line(out, cluster, table);
    put_frames(out, cluster, table, timing.frames.as_slice());
    put_signals(out, cluster, table, timing.signals.as_slice());
    put_transfer(out, table, b"down", bytes, timing.down);
    put_transfer(out, table, b"up", bytes, timing.up);
}

fn put_tables<W: Write>(
    out: &mut TextWriter<'_, W>,
    cluster: &Cluster,
    bytes: u16,
    timings: &[TableTiming],
)
    requires bytes { bytes ≤ 4095 }
    requires timings { AreTimings cluster.now bytes timings.now }
    ensures { Grows W.contents out.old out.new (timing_text cluster.now bytes timings.now) }
{
    for table in 0..cluster.tables() as u16 {
        put_table(out, cluster, table, bytes, &timings[table as usize]);
    }
}

/// Writes for each schedule table a line for the table, and lines for the frames, the signals and the
/// diagnostic messages with `bytes` data bytes that it carries. All times are in microseconds and hold
/// if the table runs undisturbed and each due node responds; `-` is a time without a bound, or none
/// (ISO 17987-3, schedule tables; ISO 17987-2, segmented messages).
///
/// The text goes through a buffer of fixed size. The writer isn't flushed.
///
/// # Errors
/// `OutOfMemory`, and then nothing was written. `WriteFailed` at the first error of the writer, an
/// interrupted write too, and at the first write of 0 bytes; what was written then is the beginning
/// of the lines.
pub fn write_timing<W: Write>(
    alloc: Global,
    cluster: &Cluster,
    bytes: u16,
    writer: &mut W,
) -> Result<(), ExportFault>
    requires { bytes ≤ 4095 }
    ensures { WritesTimings cluster.now bytes (W.contents writer.old) (W.contents writer.new) result }
{
    let timings = table_timings(alloc, cluster, bytes)?;
    let mut buffer = TextBuffer::empty();
    let mut out = TextWriter::new(writer, &mut buffer);
    put_tables(&mut out, cluster, bytes, timings.as_slice());
    out.finish()?;
    Ok(())
}
