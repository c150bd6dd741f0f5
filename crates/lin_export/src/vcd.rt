//! Logs as changes of values over time (IEEE 1364-2005, section 18, value change dump).

ghost use Rattle.std.specs.Prelude.{◌≡◌, ◌<◌, ◌-◌, ◌==◌, ◌^◌, if◌then◌else◌, ⊤, ℕ, length};
ghost use Rattle.std.specs.Prelude.{slice_index};
ghost use Rattle.lin_text.specs.Written.{Grows, WritesText};
ghost use Rattle.lin_export.specs.Open.{tracked_slot};
ghost use Rattle.lin_export.specs.PutsGroups.{AreCounts, IfCounts, KeepsChanges, PutsGroups};
ghost use Rattle.lin_export.specs.TrackedEntries.{IfAfter, next_groups};
ghost use Rattle.lin_export.specs.Vcd.{count_after, counted_all, count_group, entry_changes};
ghost use Rattle.lin_export.specs.Vcd.{event_group, event_groups, frame_changes, vcd_head, header_change};
ghost use Rattle.lin_export.specs.Vcd.{heard_group, end_stamp, later, one_more};
ghost use Rattle.lin_export.specs.Vcd.{frame_decimals, heard_changes};
ghost use Rattle.lin_export.specs.Vcd.{slot_changes, stamp, vcd};
ghost use Rattle.lin_export.specs.WhereTold.{given_coding};

use crate::changes::{put_heard, put_number, put_physical, put_unknown, put_waiting, put_written};
use crate::fault::ExportFault;
use crate::format::{EntryFormat, write_as};
use crate::frame_places::{place_count, value_at};
use crate::track::{Track, TrackedEntry};
use crate::tracked_slot::{SeenSlot, TrackedSlot};
use crate::variables::put_head;
use lin_core::{Event, Listed, Log, Reply, Step};
use lin_frame::Answer;
use lin_parts::Cluster;
use lin_text::TextWriter;
use lin_values::Coded;
use std::alloc::Global;
use std::io::Write;

/// How many hosts a number may name.
pub(crate) const HOSTS: usize = 256;

/// Puts a time, where it is later than the last one.
fn put_time<W: Write>(out: &mut TextWriter<'_, W>, last: u64, at: u64)
    ensures { Grows W.contents out.old out.new (stamp last at) }
{
    if last < at {
        out.put_byte(b'#');
        out.put_number(at);
        out.put_byte(b'\n');
    }
}

/// Puts the time of changes, where it is later than the last one, which it then is.
fn put_stamp<W: Write>(out: &mut TextWriter<'_, W>, last: &mut u64, at: u64)
    ensures text { Grows W.contents out.old out.new (stamp last.old at) }
    ensures shown { last.new ≡ later last.old at }
{
    put_time(out, *last, at);
    if *last < at {
        *last = at;
    }
}

fn put_header<W: Write>(out: &mut TextWriter<'_, W>, header: Option<u8>)
    ensures { Grows W.contents out.old out.new (header_change header) }
{
    match header {
        Some(pid) => put_number(out, 8, 3, u64::from(pid)),
        None => put_unknown(out, 3),
    }
}

/// What the bus shows of a slot.
fn put_slot<W: Write>(out: &mut TextWriter<'_, W>, number: u64, slot: &TrackedSlot)
    ensures { Grows W.contents out.old out.new (slot_changes number (tracked_slot slot.now)) }
{
    put_number(out, 32, 0, number);
    put_number(out, 16, 1, u64::from(slot.table()));
    put_number(out, 16, 2, u64::from(slot.entry()));
    put_header(out, slot.header());
    put_number(out, 4, 4, u64::from(slot.look().kind().number()));
}

/// The signals of a frame, with their values in data bytes.
fn put_frame<W: Write>(out: &mut TextWriter<'_, W>, cluster: &Cluster, frame: u16, answer: &Answer)
    requires { frame < length cluster.now.frames }
    ensures { Grows W.contents out.old out.new (frame_changes cluster.now frame answer.now) }
{
    for place in 0..place_count(cluster, frame) {
        let (signal, value) = value_at(cluster, frame, answer, place);
        put_heard(out, cluster, signal, &value);
    }
}

/// What the signals of a frame mean that have a range.
fn put_frame_decimals<W: Write>(
    out: &mut TextWriter<'_, W>,
    cluster: &Cluster,
    coded: &Coded,
    frame: u16,
    answer: &Answer,
)
    requires { frame < length cluster.now.frames }
    ensures { Grows W.contents out.old out.new
        (frame_decimals cluster.now answer.now frame coded.now) }
{
    for place in 0..place_count(cluster, frame) {
        let (signal, value) = value_at(cluster, frame, answer, place);
        put_physical(out, cluster, coded, signal, &value);
    }
}

/// The signals of a frame, and where that is told what they mean.
fn put_heard_changes<W: Write>(
    out: &mut TextWriter<'_, W>,
    cluster: &Cluster,
    coded: Option<&Coded>,
    frame: u16,
    answer: &Answer,
)
    requires { frame < length cluster.now.frames }
    ensures { Grows W.contents out.old out.new
        (heard_changes cluster.now (given_coding coded.entry) answer.now frame) }
{
    put_frame(out, cluster, frame, answer);
    if let Some(coded) = coded {
        put_frame_decimals(out, cluster, coded, frame, answer);
    }
}

/// What the nodes hear at the end of a slot.
fn put_heard_frame<W: Write>(
    out: &mut TextWriter<'_, W>,
    last: &mut u64,
    cluster: &Cluster,
    coded: Option<&Coded>,
    end: u64,
    slot: &TrackedSlot,
)
    ensures { PutsGroups W.contents out.old out.new last.old last.new
        (heard_group cluster.now (given_coding coded.entry) end (tracked_slot slot.now)) }
{
    let SeenSlot::Good(answer) = slot.look() else {
        return;
    };
    let Some(frame) = slot.carried(cluster) else {
        return;
    };
    put_stamp(out, last, end);
    put_heard_changes(out, cluster, coded, frame, answer);
}

/// What the step of an entry changes by itself, where it was done.
fn put_step<W: Write>(
    out: &mut TextWriter<'_, W>,
    last: &mut u64,
    coded: Option<&Coded>,
    next: &TrackedEntry<'_>,
)
    requires { next.now.track.now.time < 2 ^ 63 }
    ensures { IfAfter next.now (λ past. PutsGroups W.contents out.old out.new last.old last.new
        (next_groups next.now (given_coding coded.entry) past)) }
{
    let cluster = next.cluster;
    let track = next.track;
    match &next.entry.step {
        Step::Write {
            by: _,
            signal,
            value,
        } => {
            if (*signal as usize) < cluster.signals() {
                put_stamp(out, last, track.time());
                put_written(out, cluster, *signal, value);
            }
        }
        Step::Finish => {
            if let Some(slot) = track.slot() {
                put_stamp(out, last, track.time());
                put_slot(out, track.slots(), slot);
                let end = track.time_behind(cluster, next.entry);
                put_heard_frame(out, last, cluster, coded, end, slot);
            }
        }
        Step::Wake => {
            put_stamp(out, last, track.time());
            put_number(out, 1, 5, 0);
        }
        _ => {}
    }
}

/// No message of any host waits.
fn no_counts() -> [u16; HOSTS]
    ensures { AreCounts (λ h. 0) result }
{
    [0; HOSTS]
}

/// One message more of a host waits.
fn count_more(counts: &mut [u16; HOSTS], host: u8)
    ensures { (h : ℕ) → h < 256
        → slice_index counts.new h
        ≡ (if host == h then one_more (slice_index counts.old h) else slice_index counts.old h) }
{
    let count = counts[usize::from(host)];
    if count < 2047 {
        counts[usize::from(host)] = count + 1;
    }
}

/// One message of a host waits no more.
fn count_less(counts: &mut [u16; HOSTS], host: u8)
    ensures { (h : ℕ) → h < 256
        → slice_index counts.new h
        ≡ (if host == h then slice_index counts.old h - 1 else slice_index counts.old h) }
{
    let count = counts[usize::from(host)];
    counts[usize::from(host)] = count.saturating_sub(1);
}

fn count(counts: &mut [u16; HOSTS], event: &Event)
    ensures { (h : ℕ) → h < 256
        → slice_index counts.new h ≡ count_after h event.now (slice_index counts.old h) }
{
    match event {
        Event::Accepted { host, number: _ } => count_more(counts, *host),
        Event::Sent { host, number: _ } => count_less(counts, *host),
        Event::Lost {
            host,
            number: _,
            cause: _,
        } => count_less(counts, *host),
        _ => {}
    }
}

/// How many messages of each host wait after these events.
fn count_all(counts: &mut [u16; HOSTS], events: &[Event])
    ensures { (h : ℕ) → h < 256
        → slice_index counts.new h ≡ counted_all h events.now (slice_index counts.old h) }
{
    for event in events {
        count(counts, event);
    }
}

fn put_count<W: Write>(
    out: &mut TextWriter<'_, W>,
    last: &mut u64,
    cluster: &Cluster,
    at: u64,
    counts: &[u16; HOSTS],
    host: u8,
)
    ensures { IfCounts counts.now (λ n. PutsGroups W.contents out.old out.new last.old last.new
        (count_group cluster.now at n host)) }
{
    put_stamp(out, last, at);
    put_waiting(out, cluster, host, counts[usize::from(host)]);
}

/// What an event changes, where so many messages of each host wait.
fn put_event<W: Write>(
    out: &mut TextWriter<'_, W>,
    last: &mut u64,
    cluster: &Cluster,
    at: u64,
    counts: &[u16; HOSTS],
    event: &Event,
)
    ensures { IfCounts counts.now (λ n. PutsGroups W.contents out.old out.new last.old last.new
        (event_group cluster.now at n event.now)) }
{
    match event {
        Event::Accepted { host, number: _ } => put_count(out, last, cluster, at, counts, *host),
        Event::Sent { host, number: _ } => put_count(out, last, cluster, at, counts, *host),
        Event::Lost {
            host,
            number: _,
            cause: _,
        } => put_count(out, last, cluster, at, counts, *host),
        Event::Asleep => {
            put_stamp(out, last, at);
            put_number(out, 1, 5, 1);
        }
        _ => {}
    }
}

fn put_events<W: Write>(
    out: &mut TextWriter<'_, W>,
    last: &mut u64,
    cluster: &Cluster,
    at: u64,
    counts: &[u16; HOSTS],
    events: &[Event],
)
    ensures { IfCounts counts.now (λ n. PutsGroups W.contents out.old out.new last.old last.new
        (event_groups cluster.now at n events.now)) }
{
    for event in events {
        put_event(out, last, cluster, at, counts, event);
    }
}

/// A dump of changes: the last time in it, how many messages of each host wait, and where that is
/// told what signals mean.
#[derive(Drop)]
struct Dump<'a> {
    last: u64,
    counts: [u16; HOSTS],
    coded: Option<&'a Coded>,
}

impl EntryFormat for Dump<'_> {
    ghost text = { λ f c. record {
      begins = vcd_head c (given_coding f.coded);
      says = entry_changes c (given_coding f.coded);
      ends = end_stamp c (given_coding f.coded);
    } };

    ghost fits = { λ f c. ⊤ };

    ghost keeps = { λ f c past.
        KeepsChanges c (given_coding f.coded) past f.last f.counts };

    fn put_head<W: Write>(&self, out: &mut TextWriter<'_, W>, cluster: &Cluster) {
        put_head(out, cluster, self.coded);
    }

    fn put_entry<W: Write>(&mut self, out: &mut TextWriter<'_, W>, next: &TrackedEntry<'_>) {
        let Reply::Done(events) = &next.entry.reply else {
            return;
        };
        let events = events.as_slice();
        put_step(out, &mut self.last, self.coded, next);
        count_all(&mut self.counts, events);
        let end = next.track.time_behind(next.cluster, next.entry);
        put_events(out, &mut self.last, next.cluster, end, &self.counts, events);
    }

    fn put_end<W: Write>(&self, out: &mut TextWriter<'_, W>, _cluster: &Cluster, track: &Track) {
        put_time(out, self.last, track.time());
    }
}

/// Writes the changes of a log over time, in microseconds: what the bus shows of each slot from its
/// start, the values of signals as they are heard from the end of the slot, those that their
/// publishers write, and how many messages of each host wait (IEEE 1364-2005, section 18, value
/// change dump). With what signals mean, those that have a range also have a variable of decimals
/// each, as they are heard.
///
/// It goes through a buffer of fixed size, and takes memory for what is kept of one slot. The
/// writer isn't flushed.
///
/// # Errors
/// What was written then is the beginning of the dump.
/// - `OutOfMemory`;
/// - `WriteFailed` at the first error of the writer, an interrupted write too, and at the first
///   write of 0 bytes.
pub fn write_vcd<W: Write>(
    alloc: Global,
    cluster: &Cluster,
    coded: Option<&Coded>,
    log: &Log,
    writer: &mut W,
) -> Result<(), ExportFault>
    ensures { WritesText (W.contents writer.old) (W.contents writer.new) result
        (vcd cluster.now (given_coding coded.entry) log.now.entries) }
{
    let mut dump = Dump {
        last: 0,
        counts: no_counts(),
        coded,
    };
    write_as(&mut dump, alloc, cluster, log, writer)
}
