//! How much time the slots of schedule tables leave, as lines.

ghost use Rattle.std.specs.Prelude.{◌≡◌, ◌<◌, ◌≤◌, All, flat_map, length, slice_index};
ghost use Rattle.lin_frame.specs.Words.{numbers};
ghost use Rattle.lin_parts.specs.Cluster.{line_of, table_of};
ghost use Rattle.lin_parts.specs.Rules.{IsEntry};
ghost use Rattle.lin_text.specs.Written.{Grows, WritesText};
ghost use Rattle.lin_cluster.specs.SlotTimes.{frame_bytes, greatest_bytes, slot_bytes};
ghost use Rattle.lin_export.specs.ListedSlots.{bits_of, delay_of, load_line, nominal_bits, permille};
ghost use Rattle.lin_export.specs.ListedSlots.{slack, slot_line, slots, table_lines};

use lin_cluster::needed_us;
use lin_log::{Word, put_head, put_line};
use lin_parts::{Cluster, Entry};
use lin_text::{TextBuffer, TextWriter, WriteFailed};
use std::io::Write;

fn greatest_bytes(cluster: &Cluster, frames: &[u16]) -> u8
    requires { All (λ f. f < length cluster.now.frames) frames.now }
    ensures { result ≡ greatest_bytes cluster.now frames.now }
{
    let mut greatest: u8 = 0;
    for frame in frames {
        greatest = greatest.max(cluster.layout(*frame).len);
    }
    greatest
}

fn first_bytes(cluster: &Cluster, frames: &[u16]) -> u8
    requires some { 0 < length frames.now }
    requires there { All (λ f. f < length cluster.now.frames) frames.now }
    ensures { result ≡ frame_bytes cluster.now (slice_index frames.now 0) }
{
    cluster.layout(frames[0]).len
}

/// The data bytes that the slot of an entry has to hold.
pub(crate) fn slot_bytes(cluster: &Cluster, entry: Entry) -> u8
    requires { IsEntry cluster.now entry }
    ensures { result ≡ slot_bytes cluster.now entry }
{
    cluster.sound();
    match entry {
        Entry::Frame(frame) => cluster.layout(frame).len,
        Entry::Sporadic(sporadic) => greatest_bytes(cluster, cluster.sporadic(sporadic)),
        Entry::Event(event) => first_bytes(cluster, cluster.event_frames(event)),
        Entry::MasterReq | Entry::SlaveResp | Entry::Fixed(_) | Entry::Quiet => 8,
    }
}

/// What is left of a delay, or what is missing after `-`.
pub(crate) fn put_slack<W: Write>(out: &mut TextWriter<'_, W>, delay: u64, needed: u64)
    ensures { Grows W.contents out.old out.new (slack delay needed) }
{
    if needed <= delay {
        out.put_number(delay - needed);
    } else {
        out.put_byte(b'-');
        out.put_number(needed - delay);
    }
}

/// The line of an entry of a table.
fn put_slot<'a, W: Write>(
    out: &mut TextWriter<'_, W>,
    cluster: &'a Cluster,
    table: u16,
    number: u16,
)
    requires table { table < length cluster.now.tables }
    requires entry { number < length (table_of cluster.now table) }
    ensures { Grows W.contents out.old out.new (slot_line cluster.now table number) }
{
    cluster.sound();
    let entry = cluster.entry(table, number);
    let bytes = slot_bytes(cluster, entry);
    let delay = u64::from(cluster.delay_us(table, number));
    let needed = needed_us(cluster.jitter_us(), cluster.speed(), u32::from(bytes));
    put_head(
        out,
        b"slot",
        &[
            Word::Number(u64::from(table)),
            Word::Number(u64::from(number)),
            Word::Said(cluster.entry_name(entry)),
            Word::Said(entry.kind()),
            Word::Number(u64::from(bytes)),
            Word::Number(delay),
            Word::Number(needed),
        ],
    );
    out.put_byte(b' ');
    put_slack(out, delay, needed);
    out.put_byte(b'\n');
}

fn put_table_slots<W: Write>(out: &mut TextWriter<'_, W>, cluster: &Cluster, table: u16)
    requires table { table < length cluster.now.tables }
    ensures { Grows W.contents out.old out.new
        (flat_map (slot_line cluster.now table)
        (numbers (length (table_of cluster.now table)))) }
{
    for entry in 0..cluster.entries(table) as u16 {
        put_slot(out, cluster, table, entry);
    }
}

/// The time in microseconds of one round of a table.
pub(crate) fn delay_of(cluster: &Cluster, table: u16) -> u64
    requires { table < length cluster.now.tables }
    ensures value { result ≡ delay_of cluster.now table }
    ensures few { result ≤ 1024000000000 }
{
    let mut delay: u64 = 0;
    for entry in 0..cluster.entries(table) as u16 {
        delay += u64::from(cluster.delay_us(table, entry));
    }
    delay
}

fn slot_bits(cluster: &Cluster, table: u16, entry: u16) -> u64
    requires table { table < length cluster.now.tables }
    requires entry { entry < length (table_of cluster.now table) }
    ensures value { result ≡ nominal_bits (slot_bytes cluster.now (line_of cluster.now table entry).entry) }
    ensures few { result ≤ 2594 }
{
    cluster.sound();
    44 + 10 * u64::from(slot_bytes(cluster, cluster.entry(table, entry)))
}

/// The bits of the longest frames of one round of a table.
pub(crate) fn bits_of(cluster: &Cluster, table: u16) -> u64
    requires { table < length cluster.now.tables }
    ensures value { result ≡ bits_of cluster.now table }
    ensures few { result ≤ 2656256 }
{
    let mut bits: u64 = 0;
    for entry in 0..cluster.entries(table) as u16 {
        bits += slot_bits(cluster, table, entry);
    }
    bits
}

pub(crate) fn permille(bits: u64, speed: u32, delay: u64) -> u64
    requires bits { bits ≤ 2656256 }
    requires delay { delay ≤ 1024000000000 }
    ensures { result ≡ permille bits speed delay }
{
    let whole = u128::from(speed) * u128::from(delay);
    let thousandths = (1_000_000_000 * u128::from(bits)).checked_div(whole);
    thousandths.unwrap_or(0) as u64
}

/// The line of the load of a table.
fn put_load<'a, W: Write>(out: &mut TextWriter<'_, W>, cluster: &'a Cluster, table: u16)
    requires { table < length cluster.now.tables }
    ensures { Grows W.contents out.old out.new (load_line cluster.now table) }
{
    let delay = delay_of(cluster, table);
    let bits = bits_of(cluster, table);
    put_line(
        out,
        b"load",
        &[
            Word::Number(u64::from(table)),
            Word::Said(cluster.table_name(table)),
            Word::Number(delay),
            Word::Number(permille(bits, cluster.speed(), delay)),
        ],
    );
}

fn put_table<W: Write>(out: &mut TextWriter<'_, W>, cluster: &Cluster, table: u16)
    requires table { table < length cluster.now.tables }
    ensures { Grows W.contents out.old out.new (table_lines cluster.now table) }
{
    put_table_slots(out, cluster, table);
    put_load(out, cluster, table);
}

fn put_slots<W: Write>(out: &mut TextWriter<'_, W>, cluster: &Cluster)
    ensures { Grows W.contents out.old out.new (slots cluster.now) }
{
    for table in 0..cluster.tables() as u16 {
        put_table(out, cluster, table);
    }
}

/// Writes for each schedule table a line for each slot, with the time that it needs and its slack
/// in microseconds, and then one for the table's load (ISO 17987-3, frame slots). The slack of a slot
/// that is short is `-` and what is missing.
///
/// It goes through a buffer of fixed size, and takes no memory. The writer isn't flushed.
///
/// # Errors
/// `WriteFailed` at the first error of the writer, an interrupted write too, and at the first write
/// of 0 bytes. What was written then is the beginning of the lines.
pub fn write_slots<W: Write>(cluster: &Cluster, writer: &mut W) -> Result<(), WriteFailed>
    ensures { WritesText (W.contents writer.old) (W.contents writer.new) result
        (slots cluster.now) }
{
    let mut buffer = TextBuffer::empty();
    let mut out = TextWriter::new(writer, &mut buffer);
    put_slots(&mut out, cluster);
    out.finish()
}
