//! Logs as lines of values between commas.

ghost use Rattle.std.specs.Prelude.{◌≡◌, ◌++◌, ◌<◌, ℕ, [], Some, None, length, flat_map, map};
ghost use Rattle.std.specs.Fmt.{decimal};
ghost use Rattle.lin_core.specs.Signals.{heard_value, ArePointwise};
ghost use Rattle.lin_frame.specs.declared.value.Value.{Value};
ghost use Rattle.lin_text.specs.Written.{Grows, WritesText};
ghost use Rattle.lin_export.specs.Cells.{cell_text};
ghost use Rattle.lin_export.specs.Csv.{IfPointwise, after_comma, column_cells, column_names, csv, head_line, hex_cell, marked_cell};
ghost use Rattle.lin_export.specs.Csv.{node_name, nodes_cell, response_cells, csv_row, schedule_cells};
ghost use Rattle.lin_export.specs.Csv.{signal_cells, signal_names};
ghost use Rattle.lin_export.specs.Csv.{slot_cells, spaced_name, value_cell};
ghost use Rattle.lin_export.specs.KeptCells.{AreKept, FitKept, AreCellsOf};
ghost use Rattle.lin_export.specs.Look.{seen_as};
ghost use Rattle.lin_export.specs.Open.{tracked_slot};
ghost use Rattle.lin_export.specs.WhereTold.{given_coding};

use crate::fault::ExportFault;
use crate::format::{EntryFormat, write_as};
use crate::hearing::hear_slot;
use crate::kept_cells::{KeptCells, kept_cells};
use crate::meaning_cells::put_coded_names;
use crate::slot_names::{node_name, slot_name, table_name};
use crate::track::{Track, TrackedEntry};
use crate::tracked_slot::{SeenSlot, TrackedSlot, byte_at};
use lin_core::{Listed, Log, initial_values};
use lin_frame::{Answer, Value};
use lin_parts::Cluster;
use lin_text::TextWriter;
use lin_values::Coded;
use std::alloc::Global;
use std::io::Write;

/// A cell of a line.
#[derive(Clone, Copy)]
pub(crate) enum Cell<'a> {
    Text(&'a [u8]),
    Number(u64),
    Byte(Option<u8>),
    Hex(&'a [u8]),
}

/// Puts two digits for each byte, after `0x`.
fn put_hex<W: Write>(out: &mut TextWriter<'_, W>, bytes: &[u8])
    ensures { Grows W.contents out.old out.new (hex_cell bytes.now) }
{
    out.put(b"0x");
    out.put_hex(bytes);
}

fn put_cell<W: Write>(out: &mut TextWriter<'_, W>, cell: Cell<'_>)
    ensures { Grows W.contents out.old out.new (cell_text cell.entry) }
{
    match cell {
        Cell::Text(text) => out.put(text),
        Cell::Number(number) => out.put_number(number),
        Cell::Byte(None) => {}
        Cell::Byte(Some(byte)) => put_hex(out, &[byte]),
        Cell::Hex(bytes) => put_hex(out, bytes),
    }
}

/// A cell after its mark.
pub(crate) fn put_next<W: Write>(out: &mut TextWriter<'_, W>, mark: &[u8], cell: Cell<'_>)
    ensures { Grows W.contents out.old out.new (marked_cell mark.now (cell_text cell.entry)) }
{
    out.put(mark);
    put_cell(out, cell);
}

fn put_cells<W: Write>(out: &mut TextWriter<'_, W>, mark: &[u8], cells: &[Cell<'_>])
    ensures { Grows W.contents out.old out.new
        (flat_map (marked_cell mark.now) (map cell_text cells.now)) }
{
    for cell in cells {
        put_next(out, mark, *cell);
    }
}

/// (A call would take as long as what it does.)
#[inline(always)]
fn put_value<W: Write>(out: &mut TextWriter<'_, W>, value: &Value)
    ensures { Grows W.contents out.old out.new (after_comma (value_cell value.now)) }
{
    match value {
        Value::Scalar(number) if *number < 10 => out.put(&[b',', b'0' + *number as u8]),
        Value::Scalar(number) => put_next(out, b",", Cell::Number(u64::from(*number))),
        Value::Bytes(bytes) => put_next(out, b",", Cell::Hex(bytes.as_slice())),
    }
}

/// The cells of a signal with a value, where what that means isn't told.
fn put_plain_signal<W: Write>(out: &mut TextWriter<'_, W>, signal: u16, value: &Value)
    ensures { (g : ℕ → Value) → value.now ≡ g signal
        → Grows W.contents out.old out.new (flat_map after_comma (signal_cells None g signal)) }
{
    put_value(out, value);
}

fn put_plain_values<W: Write>(out: &mut TextWriter<'_, W>, cluster: &Cluster, values: &[Value])
    requires { length values.now ≡ length cluster.now.signals }
    ensures { IfPointwise values.now (λ g. Grows W.contents out.old out.new
        (flat_map after_comma (column_cells cluster.now None g))) }
{
    for signal in 0..cluster.signals() as u16 {
        put_plain_signal(out, signal, &values[usize::from(signal)]);
    }
}

/// The cells of a signal with a value: that, and what it means.
fn put_coded_signal<W: Write>(
    out: &mut TextWriter<'_, W>,
    coded: &Coded,
    signal: u16,
    value: &Value,
    kept: &mut KeptCells,
)
    requires { AreCellsOf coded.now signal kept.old }
    ensures kept { AreCellsOf coded.now signal kept.new }
    ensures text { (g : ℕ → Value) → value.now ≡ g signal
        → Grows W.contents out.old out.new
        (flat_map after_comma (signal_cells (Some coded.now) g signal)) }
{
    put_value(out, value);
    kept.put(out, coded, signal, value);
}

fn put_coded_values<W: Write>(
    out: &mut TextWriter<'_, W>,
    cluster: &Cluster,
    coded: &Coded,
    values: &[Value],
    kept: &mut Vec<KeptCells>,
)
    requires values { length values.now ≡ length cluster.now.signals }
    requires kept { AreKept coded.now (length cluster.now.signals) kept.old.items }
    ensures kept { AreKept coded.now (length cluster.now.signals) kept.new.items }
    ensures text { IfPointwise values.now (λ g. Grows W.contents out.old out.new
        (flat_map after_comma (column_cells cluster.now (Some coded.now) g))) }
{
    for signal in 0..cluster.signals() as u16 {
        let index = usize::from(signal);
        put_coded_signal(out, coded, signal, &values[index], &mut kept[index]);
    }
}

/// The cells of all signals with their values, and where that is told what these mean.
fn put_values<W: Write>(
    out: &mut TextWriter<'_, W>,
    cluster: &Cluster,
    coded: Option<&Coded>,
    values: &[Value],
    kept: &mut Vec<KeptCells>,
)
    requires values { length values.now ≡ length cluster.now.signals }
    requires kept { FitKept (given_coding coded) (length cluster.now.signals) kept.old.items }
    ensures kept { FitKept (given_coding coded.entry) (length cluster.now.signals) kept.new.items }
    ensures text { IfPointwise values.now (λ g. Grows W.contents out.old out.new
        (flat_map after_comma (column_cells cluster.now (given_coding coded.entry) g))) }
{
    match coded {
        Some(coded) => put_coded_values(out, cluster, coded, values, kept),
        None => put_plain_values(out, cluster, values),
    }
}

/// The name of a signal's column, and of that of what it means.
fn put_signal_name<W: Write>(
    out: &mut TextWriter<'_, W>,
    cluster: &Cluster,
    coded: Option<&Coded>,
    signal: u16,
)
    requires { signal < length cluster.now.signals }
    ensures { Grows W.contents out.old out.new (flat_map after_comma
        (signal_names cluster.now (given_coding coded.entry) signal)) }
{
    put_next(out, b",", Cell::Text(cluster.signal_name(signal)));
    if let Some(coded) = coded {
        put_coded_names(out, cluster, coded, signal);
    }
}

fn put_signal_names<W: Write>(out: &mut TextWriter<'_, W>, cluster: &Cluster, coded: Option<&Coded>)
    ensures { Grows W.contents out.old out.new
        (flat_map after_comma (column_names cluster.now (given_coding coded.entry))) }
{
    for signal in 0..cluster.signals() as u16 {
        put_signal_name(out, cluster, coded, signal);
    }
}

/// The names of the columns.
fn put_head<W: Write>(out: &mut TextWriter<'_, W>, cluster: &Cluster, coded: Option<&Coded>)
    ensures { Grows W.contents out.old out.new
        (head_line cluster.now (given_coding coded.entry)) }
{
    out.put(b"slot,time_us,delay_us,table,entry,kind,frame,header,nodes,seen,data,checksum");
    put_signal_names(out, cluster, coded);
    out.put_byte(b'\n');
}

/// Where a slot stands in the schedule, and what it is for.
fn put_schedule<'a, W: Write>(
    out: &mut TextWriter<'_, W>,
    mark: &[u8],
    cluster: &'a Cluster,
    at: u64,
    slot: &TrackedSlot,
)
    ensures { Grows W.contents out.old out.new
        (flat_map (marked_cell mark.now) (schedule_cells cluster.now at (tracked_slot slot.now))) }
{
    let line = slot.line(cluster);
    put_cells(
        out,
        mark,
        &[
            Cell::Number(at),
            Cell::Number(u64::from(line.delay_us)),
            Cell::Text(table_name(cluster, slot.table())),
            Cell::Number(u64::from(slot.entry())),
            Cell::Text(line.entry.kind()),
            Cell::Text(slot_name(cluster, slot)),
            Cell::Byte(slot.header()),
        ],
    );
}

fn put_node<W: Write>(out: &mut TextWriter<'_, W>, cluster: &Cluster, put: &(u8, Answer))
    ensures { Grows W.contents out.old out.new (node_name cluster.now put.now) }
{
    out.put(node_name(cluster, put.0));
}

fn put_spaced_node<W: Write>(out: &mut TextWriter<'_, W>, cluster: &Cluster, put: &(u8, Answer))
    ensures { Grows W.contents out.old out.new (spaced_name cluster.now put.now) }
{
    out.put_byte(b' ');
    put_node(out, cluster, put);
}

fn put_more_nodes<W: Write>(out: &mut TextWriter<'_, W>, cluster: &Cluster, puts: &[(u8, Answer)])
    ensures { Grows W.contents out.old out.new (flat_map (spaced_name cluster.now) puts.now) }
{
    for put in puts {
        put_spaced_node(out, cluster, put);
    }
}

/// The nodes that put responses.
fn put_nodes<W: Write>(
    out: &mut TextWriter<'_, W>,
    mark: &[u8],
    cluster: &Cluster,
    puts: &[(u8, Answer)],
)
    ensures { Grows W.contents out.old out.new (marked_cell mark.now (nodes_cell cluster.now puts.now)) }
{
    out.put(mark);
    if let [first, rest @ ..] = puts {
        put_node(out, cluster, first);
        put_more_nodes(out, cluster, rest);
    }
}

/// How a slot was seen, with the response of a good one.
fn put_response<W: Write>(out: &mut TextWriter<'_, W>, mark: &[u8], look: SeenSlot<'_>)
    ensures { Grows W.contents out.old out.new
        (flat_map (marked_cell mark.now) (response_cells (seen_as look.entry))) }
{
    let seen = Cell::Text(look.kind().word().as_bytes());
    match look {
        SeenSlot::Good(answer) => {
            let bytes = answer.as_slice();
            let count = bytes.len().saturating_sub(1);
            let checksum = Some(byte_at(bytes, count));
            put_cells(
                out,
                mark,
                &[seen, Cell::Hex(&bytes[..count]), Cell::Byte(checksum)],
            );
        }
        _ => put_cells(out, mark, &[seen, Cell::Byte(None), Cell::Byte(None)]),
    }
}

/// The cells of a slot between its number and the signals, each after a mark.
pub(crate) fn put_slot<'a, W: Write>(
    out: &mut TextWriter<'_, W>,
    mark: &[u8],
    cluster: &'a Cluster,
    at: u64,
    slot: &TrackedSlot,
)
    ensures { Grows W.contents out.old out.new
        (flat_map (marked_cell mark.now) (slot_cells cluster.now at (tracked_slot slot.now))) }
{
    put_schedule(out, mark, cluster, at, slot);
    put_nodes(out, mark, cluster, slot.puts());
    put_response(out, mark, slot.look());
}

/// The cells of a slot before those of the signals.
fn put_first_cells<'a, W: Write>(
    out: &mut TextWriter<'_, W>,
    cluster: &'a Cluster,
    track: &Track,
    slot: &TrackedSlot,
)
    ensures { Grows W.contents out.old out.new
        (decimal track.now.slots
        ++ flat_map after_comma (slot_cells cluster.now track.now.time (tracked_slot slot.now))) }
{
    put_cell(out, Cell::Number(track.slots()));
    put_slot(out, b",", cluster, track.time(), slot);
}

/// A table, the values of the signals that are heard, and where that is told what signals mean, with
/// the cells that stood there last.
#[derive(Drop)]
struct Sheet<'a> {
    values: Vec<Value>,
    coded: Option<&'a Coded>,
    kept: Vec<KeptCells>,
}

impl EntryFormat for Sheet<'_> {
    ghost text = { λ f c. record {
      begins = head_line c (given_coding f.coded);
      says = csv_row c (given_coding f.coded);
      ends = λ past. [];
    } };

    ghost fits = { λ f c. (length f.values.items ≡ length c.signals)
        × FitKept (given_coding f.coded) (length c.signals) f.kept.items };

    ghost keeps = { λ f c past. ArePointwise (heard_value c past) f.values.items };

    fn put_head<W: Write>(&self, out: &mut TextWriter<'_, W>, cluster: &Cluster) {
        put_head(out, cluster, self.coded);
    }

    fn put_entry<W: Write>(&mut self, out: &mut TextWriter<'_, W>, next: &TrackedEntry<'_>) {
        if let Some(slot) = next.track.finished(next.entry) {
            hear_slot(&mut self.values, next.cluster, slot);
            put_first_cells(out, next.cluster, next.track, slot);
            put_values(
                out,
                next.cluster,
                self.coded,
                self.values.as_slice(),
                &mut self.kept,
            );
            out.put_byte(b'\n');
        }
    }

    fn put_end<W: Write>(&self, _out: &mut TextWriter<'_, W>, _cluster: &Cluster, _track: &Track) {}
}

/// Writes the table of a log: a line with the names of the columns, and one per finished slot, with
/// its number from 0, its times in microseconds, its entry, its response, and the values of all
/// signals that are heard after it (RFC 4180, with LF alone). With what signals mean, each that has
/// an encoding has one column more.
///
/// It goes through a buffer of fixed size, and takes memory for what is kept of one slot, for a value
/// of each signal and, with what signals mean, for a short text of each. The writer isn't flushed.
///
/// # Errors
/// What was written then is the beginning of the table.
/// - `OutOfMemory`;
/// - `WriteFailed` at the first error of the writer, an interrupted write too, and at the first
///   write of 0 bytes.
pub fn write_csv<W: Write>(
    alloc: Global,
    cluster: &Cluster,
    coded: Option<&Coded>,
    log: &Log,
    writer: &mut W,
) -> Result<(), ExportFault>
    ensures { WritesText (W.contents writer.old) (W.contents writer.new) result
        (csv cluster.now (given_coding coded.entry) log.now.entries) }
{
    let values = initial_values(alloc, cluster)?;
    let kept = kept_cells(alloc, cluster, coded, values.as_slice())?;
    let mut sheet = Sheet {
        values,
        coded,
        kept,
    };
    write_as(&mut sheet, alloc, cluster, log, writer)
}
