//! The first slots of a log, as a table of HTML.

ghost use Rattle.std.specs.Prelude.{◌∷◌, ◌++◌, ⊤, [], codes};
ghost use Rattle.lin_text.specs.Written.{Grows, WritesText};
ghost use Rattle.lin_export.specs.FirstSlots.{first_row, first_slot_row, first_slots, slot_row, table_head};
ghost use Rattle.lin_export.specs.Open.{tracked_slot};

use crate::csv::{Cell, put_next, put_slot};
use crate::fault::ExportFault;
use crate::format::{EntryFormat, write_as};
use crate::track::{Track, TrackedEntry};
use crate::tracked_slot::TrackedSlot;
use lin_core::Log;
use lin_parts::Cluster;
use lin_text::TextWriter;
use std::alloc::Global;
use std::io::Write;

/// How many slots have a row.
const MOST: u64 = 200;

/// The row of a slot.
fn put_row<'a, W: Write>(
    out: &mut TextWriter<'_, W>,
    cluster: &'a Cluster,
    track: &Track,
    slot: &TrackedSlot,
)
    ensures { Grows W.contents out.old out.new
        (slot_row cluster.now track.now.slots track.now.time (tracked_slot slot.now)) }
{
    out.put(b"<tr>");
    put_next(out, b"<td>", Cell::Number(track.slots()));
    put_slot(out, b"<td>", cluster, track.time(), slot);
    out.put_byte(b'\n');
}

/// The row of a slot, where it is one of the first.
fn put_first<W: Write>(
    out: &mut TextWriter<'_, W>,
    cluster: &Cluster,
    track: &Track,
    slot: &TrackedSlot,
)
    ensures { Grows W.contents out.old out.new
        (first_slot_row cluster.now track.now.slots track.now.time (tracked_slot slot.now)) }
{
    if track.slots() < MOST {
        put_row(out, cluster, track, slot);
    }
}

/// A table of the first slots.
#[derive(Drop)]
struct FirstSlots;

impl EntryFormat for FirstSlots {
    ghost text = { λ f c. record {
      begins = table_head;
      says = first_row c;
      ends = λ past. codes "</table>" ++ 10 ∷ [];
    } };

    ghost fits = { λ f c. ⊤ };

    ghost keeps = { λ f c past. ⊤ };

    fn put_head<W: Write>(&self, out: &mut TextWriter<'_, W>, _cluster: &Cluster) {
        out.put(b"<table>\n<tr><th>slot<th>time_us<th>delay_us<th>table<th>entry<th>kind");
        out.put(b"<th>frame<th>header<th>nodes<th>seen<th>data<th>checksum\n");
    }

    fn put_entry<W: Write>(&mut self, out: &mut TextWriter<'_, W>, next: &TrackedEntry<'_>) {
        if let Some(slot) = next.track.finished(next.entry) {
            put_first(out, next.cluster, next.track, slot);
        }
    }

    fn put_end<W: Write>(&self, out: &mut TextWriter<'_, W>, _cluster: &Cluster, _track: &Track) {
        out.put(b"</table>\n");
    }
}

/// Writes the first 200 slots of a log as a table of HTML: a row with the names of the columns, and
/// one per finished slot with its number from 0, its times in microseconds, its entry and its
/// response, as `write_csv` has them before the signals. Nothing of it needs an escape, since names
/// of LDFs are words.
///
/// It goes through a buffer of fixed size, and takes memory for what is kept of one slot. The
/// writer isn't flushed.
///
/// # Errors
/// What was written then is the beginning of the table.
/// - `OutOfMemory`;
/// - `WriteFailed` at the first error of the writer, an interrupted write too, and at the first
///   write of 0 bytes.
pub fn write_first_slots<W: Write>(
    alloc: Global,
    cluster: &Cluster,
    log: &Log,
    writer: &mut W,
) -> Result<(), ExportFault>
    ensures { WritesText (W.contents writer.old) (W.contents writer.new) result
        (first_slots cluster.now log.now.entries) }
{
    write_as(&mut FirstSlots, alloc, cluster, log, writer)
}
