//! Logs as objects of JSON, one a line.

ghost use Rattle.std.specs.Prelude.{◌≡◌, ◌<◌, ◌≤◌, ◌^◌, ◌∷◌, ℕ, [], IfOk, List, OnOk, codes, flat_map};
ghost use Rattle.std.specs.Prelude.{length, map, option_map, reverse, slice_index, take};
ghost use Rattle.std.specs.Fmt.{decimal};
ghost use Rattle.lin_parts.specs.Cluster.{nodes};
ghost use Rattle.lin_parts.specs.declared.parts.Parts.{Parts};
ghost use Rattle.lin_core.specs.declared.log.LogEntry.{LogEntry};
ghost use Rattle.lin_frame.specs.Words.{numbers};
ghost use Rattle.lin_text.specs.Written.{Grows, WritesText};
ghost use Rattle.lin_export.specs.Csv.{after_comma};
ghost use Rattle.lin_export.specs.Json.{member, with_commas};
ghost use Rattle.lin_export.specs.Jsonl.{IfObjectsOf, IsObjectTrackOf, accepted_line, end_line, entry_objects, event_line};
ghost use Rattle.lin_export.specs.Jsonl.{last_slot_number, lost_line, message_line, nad_value, node_text};
ghost use Rattle.lin_export.specs.Jsonl.{entries_before, entries_to_end, objects_between, objects_from, receiver_member, refused_line, run_line, sending_members};
ghost use Rattle.lin_export.specs.Jsonl.{sent_line, settled_after, settled_all, step_object};
ghost use Rattle.lin_export.specs.Jsonl.{step_text, test_shown, unmet_object, written_line};
ghost use Rattle.lin_export.specs.Members.{member_shown};
ghost use Rattle.lin_export.specs.PutsGroups.{AreCounts};
ghost use Rattle.lin_export.specs.Putting.{PutsAll};
ghost use Rattle.lin_export.specs.WhereTold.{given_coding};

use crate::json::{
    Member, put_key, put_member, put_members, put_object_line, put_separator, put_type,
};
use crate::slot_meanings::put_meant;
use crate::slot_names::{node_name, signal_name, table_name};
use crate::slot_object::{put_node, put_slot, put_value_member};
use crate::track::Track;
use crate::vcd::HOSTS;
use lin_core::{Cause, Event, Listed, Log, LogEntry, PortId, Refusal, Reply, Step};
use lin_frame::Value;
use lin_log::{put_port, put_step as put_step_words};
use lin_parts::Cluster;
use lin_text::{TextBuffer, TextWriter, WriteFailed};
use lin_values::Coded;
use std::alloc::{AllocError, Global};
use std::io::Write;
use std::marker::Model;

/// With what a run opened: the number of its schedule table, and how many messages of a host there
/// was room for.
#[derive(Clone, Copy, Debug)]
pub struct Opening {
    pub table: u16,
    pub capacity: usize,
}

/// When an event happens: the time in microseconds, and how many slots are finished before it.
#[derive(Clone, Copy)]
struct EventTime {
    at: u64,
    slot: u64,
}

/// The names of all nodes.
fn put_all_names<W: Write>(out: &mut TextWriter<'_, W>, cluster: &Cluster)
    ensures { Grows W.contents out.old out.new
        (with_commas (map (node_text cluster.now) (numbers (nodes cluster.now)))) }
{
    for node in 0..cluster.nodes() {
        put_separator(out, node);
        put_node(out, cluster, node as u8);
    }
}

/// The address of a node, where it has one.
fn put_nad<W: Write>(out: &mut TextWriter<'_, W>, cluster: &Cluster, node: u8)
    requires { node < nodes cluster.now }
    ensures { Grows W.contents out.old out.new (nad_value cluster.now node) }
{
    match cluster.nad(node) {
        Some(nad) => out.put_number(nad),
        None => out.put(b"null"),
    }
}

/// The addresses of all nodes.
fn put_all_nads<W: Write>(out: &mut TextWriter<'_, W>, cluster: &Cluster)
    ensures { Grows W.contents out.old out.new
        (with_commas (map (nad_value cluster.now) (numbers (nodes cluster.now)))) }
{
    for node in 0..cluster.nodes() {
        put_separator(out, node);
        put_nad(out, cluster, node as u8);
    }
}

/// Puts the object that a run begins with: its schedule table, the capacity of the queues, the nodes and
/// their diagnostic addresses.
pub fn put_run<W: Write>(out: &mut TextWriter<'_, W>, cluster: &Cluster, opening: Opening)
    ensures { Grows W.contents out.old out.new
        (run_line cluster.now opening.table opening.capacity) }
{
    put_type(out, "run");
    put_members(
        out,
        &[
            Member::Number("version", 2),
            Member::Text("table", table_name(cluster, opening.table)),
            Member::Number("capacity", opening.capacity as u64),
        ],
    );
    put_key(out, "nodes");
    out.put_byte(b'[');
    put_all_names(out, cluster);
    out.put_byte(b']');
    put_key(out, "nads");
    out.put_byte(b'[');
    put_all_nads(out, cluster);
    out.put_byte(b']');
    out.put(b"}\n");
}

/// The value that a node writes to a signal.
#[derive(Clone, Copy)]
struct WrittenValue<'a> {
    node: u8,
    signal: u16,
    value: &'a Value,
}

/// A write of a value to a signal.
fn put_write<W: Write>(
    out: &mut TextWriter<'_, W>,
    cluster: &Cluster,
    coded: Option<&Coded>,
    at: u64,
    written: WrittenValue<'_>,
)
    ensures { Grows W.contents out.old out.new
        (written_line cluster.now (given_coding coded.entry) at written.entry) }
{
    put_type(out, "write");
    put_members(
        out,
        &[
            Member::Number("time_us", at),
            Member::Text("node", node_name(cluster, written.node)),
            Member::Text("signal", signal_name(cluster, written.signal)),
        ],
    );
    put_value_member(out, written.value);
    put_meant(out, "physical", coded, written.signal, written.value);
    out.put(b"}\n");
}

/// Writes the object that a run begins with.
///
/// # Errors
/// `WriteFailed`, where what was written is a beginning of it.
pub fn write_run<W: Write>(
    cluster: &Cluster,
    opening: Opening,
    writer: &mut W,
) -> Result<(), WriteFailed>
    ensures { WritesText (W.contents writer.old) (W.contents writer.new) result
        (run_line cluster.now opening.table opening.capacity) }
{
    let mut buffer = TextBuffer::empty();
    let mut out = TextWriter::new(writer, &mut buffer);
    put_run(&mut out, cluster, opening);
    out.finish()
}

/// The receiver of a message; 126 is all responders.
fn receiver_member(cluster: &Cluster, to: u8) -> Member<'_>
    ensures { member_shown result ≡ receiver_member cluster.now to }
{
    if to == 126 {
        Member::Null("to")
    } else {
        Member::Text("to", node_name(cluster, to))
    }
}

/// A host, its message's number and the receiver.
fn put_sending<'a, W: Write>(
    out: &mut TextWriter<'_, W>,
    cluster: &'a Cluster,
    at: u64,
    host: u8,
    number: u32,
    to: u8,
)
    ensures { Grows W.contents out.old out.new
        (flat_map after_comma (sending_members cluster.now at host number to)) }
{
    put_members(
        out,
        &[
            Member::Number("time_us", at),
            Member::Text("host", node_name(cluster, host)),
            Member::Number("number", u64::from(number)),
            receiver_member(cluster, to),
        ],
    );
}

/// A message that was accepted, by its step.
fn put_accepted<W: Write>(
    out: &mut TextWriter<'_, W>,
    cluster: &Cluster,
    at: u64,
    host: u8,
    number: u32,
    step: &Step,
)
    ensures { Grows W.contents out.old out.new
        (accepted_line cluster.now at host number step.now) }
{
    let Step::Send {
        from: _,
        to,
        message,
    } = step
    else {
        return;
    };
    put_type(out, "accepted");
    put_sending(out, cluster, at, host, number, *to);
    put_member(out, Member::Hex("bytes", message.as_slice()));
    out.put(b"}\n");
}

/// A message that arrived at the end of a slot.
fn put_arrived<W: Write>(
    out: &mut TextWriter<'_, W>,
    cluster: &Cluster,
    moment: EventTime,
    from: u8,
    to: u8,
    bytes: &[u8],
)
    ensures { Grows W.contents out.old out.new
        (message_line cluster.now moment.at moment.slot from to bytes.now) }
{
    put_type(out, "message");
    put_members(
        out,
        &[
            Member::Number("time_us", moment.at),
            Member::Number("slot", moment.slot),
            Member::Text("from", node_name(cluster, from)),
            Member::Text("to", node_name(cluster, to)),
        ],
    );
    put_member(out, Member::Hex("bytes", bytes));
    out.put(b"}\n");
}

fn put_sent<W: Write>(
    out: &mut TextWriter<'_, W>,
    cluster: &Cluster,
    at: u64,
    host: u8,
    number: u32,
)
    ensures { Grows W.contents out.old out.new (sent_line cluster.now at host number) }
{
    put_object_line(
        out,
        "sent",
        &[
            Member::Number("time_us", at),
            Member::Text("host", node_name(cluster, host)),
            Member::Number("number", u64::from(number)),
        ],
    );
}

fn put_lost<W: Write>(
    out: &mut TextWriter<'_, W>,
    cluster: &Cluster,
    at: u64,
    host: u8,
    number: u32,
    cause: Cause,
)
    ensures { Grows W.contents out.old out.new (lost_line cluster.now at host number cause) }
{
    put_object_line(
        out,
        "lost",
        &[
            Member::Number("time_us", at),
            Member::Text("host", node_name(cluster, host)),
            Member::Number("number", u64::from(number)),
            Member::Text("cause", cause.word().as_bytes()),
        ],
    );
}

/// An event of a step; that of a finish in its slot.
fn put_event<W: Write>(
    out: &mut TextWriter<'_, W>,
    cluster: &Cluster,
    step: &Step,
    moment: EventTime,
    event: &Event,
)
    ensures { Grows W.contents out.old out.new
        (event_line cluster.now step.now moment.slot moment.at event.now) }
{
    let at = moment.at;
    match event {
        Event::Accepted { host, number } => {
            put_accepted(out, cluster, at, *host, *number, step);
        }
        Event::Message { from, to, bytes } => {
            put_arrived(out, cluster, moment, *from, *to, bytes.as_slice());
        }
        Event::Sent { host, number } => put_sent(out, cluster, at, *host, *number),
        Event::Lost {
            host,
            number,
            cause,
        } => put_lost(out, cluster, at, *host, *number, *cause),
        Event::Asleep => put_object_line(out, "asleep", &[Member::Number("time_us", at)]),
        _ => {}
    }
}

fn put_events<W: Write>(
    out: &mut TextWriter<'_, W>,
    cluster: &Cluster,
    step: &Step,
    moment: EventTime,
    events: &[Event],
)
    ensures { Grows W.contents out.old out.new
        (flat_map (event_line cluster.now step.now moment.slot moment.at) events.now) }
{
    for event in events {
        put_event(out, cluster, step, moment, event);
    }
}

/// The line of a step, with names.
fn put_step_text<W: Write>(
    out: &mut TextWriter<'_, W>,
    cluster: &Cluster,
    port: PortId,
    step: &Step,
)
    ensures { Grows W.contents out.old out.new (step_text cluster.now port step.now) }
{
    out.put_byte(b'"');
    put_port(out, cluster, port);
    put_step_words(out, cluster, step);
    out.put_byte(b'"');
}

/// A step that was refused.
fn put_refused<W: Write>(
    out: &mut TextWriter<'_, W>,
    cluster: &Cluster,
    at: u64,
    port: PortId,
    step: &Step,
    refusal: Refusal,
)
    ensures { Grows W.contents out.old out.new
        (refused_line cluster.now at port step.now refusal) }
{
    put_type(out, "refused");
    put_member(out, Member::Number("time_us", at));
    put_key(out, "step");
    put_step_text(out, cluster, port, step);
    put_members(
        out,
        &[
            Member::Number("number", u64::from(refusal.number())),
            Member::Text("name", refusal.word().as_bytes()),
        ],
    );
    out.put(b"}\n");
}

/// No message of any host is sent or lost.
fn none_settled() -> [u32; HOSTS]
    ensures { AreCounts (λ h. 0) result }
{
    [0; HOSTS]
}

/// An event may send or lose a message of a host.
fn settle(last: &mut [u32; HOSTS], event: &Event)
    ensures { (h : ℕ) → h < 256
        → slice_index last.new h ≡ settled_after h event.now (slice_index last.old h) }
{
    match event {
        Event::Sent { host, number } => last[usize::from(*host)] = *number,
        Event::Lost {
            host,
            number,
            cause: _,
        } => last[usize::from(*host)] = *number,
        _ => {}
    }
}

/// The numbers of the last messages of the hosts that are sent or lost after these events.
fn settle_all(last: &mut [u32; HOSTS], events: &[Event])
    ensures { (h : ℕ) → h < 256
        → slice_index last.new h ≡ settled_all h events.now (slice_index last.old h) }
{
    for event in events {
        settle(last, event);
    }
}

/// What is kept of the entries of a log that were read, for the objects of those after them. Contracts
/// see the track of these entries, and the number of the last message of each host that was sent or
/// lost.
#[derive(Drop)]
pub struct ObjectTrack {
    track: Track,
    last: [u32; HOSTS],
}

impl Model for ObjectTrack {
    ghost use Rattle.lin_export.specs.Jsonl.{ObjectTrackData};

    ghost Value = { ObjectTrackData };

    ghost view = { λ t. record { track = t.track; last = t.last } };
}

impl ObjectTrack {
    /// No entry was read.
    pub fn new(alloc: Global) -> ObjectTrack
        ensures { (c : Parts) → IsObjectTrackOf c [] result }
    {
        ObjectTrack {
            track: Track::new(alloc),
            last: none_settled(),
        }
    }

    /// Reads the entries of a log before one.
    ///
    /// # Errors
    /// Out of memory.
    pub fn up_to(
        alloc: Global,
        cluster: &Cluster,
        log: &Log,
        end: usize,
    ) -> Result<ObjectTrack, AllocError>
        requires { end ≤ length log.now.entries }
        ensures { IfOk result
            (IsObjectTrackOf cluster.now (reverse (take end log.now.entries))) }
    {
        cluster.sound();
        let mut objects = ObjectTrack::new(alloc);
        for index in 0..end.min(log.len()) {
            objects.follow(cluster, log.entry(index))?;
        }
        Ok(objects)
    }

    /// What a step that was done says by itself.
    fn put_step<W: Write>(
        &self,
        out: &mut TextWriter<'_, W>,
        cluster: &Cluster,
        coded: Option<&Coded>,
        step: &Step,
    )
        ensures { IfObjectsOf cluster.now self.now (λ past. Grows W.contents out.old out.new
            (step_object cluster.now (given_coding coded.entry) past step.now)) }
    {
        let track = &self.track;
        match step {
            Step::Finish => {
                if let Some(slot) = track.slot() {
                    put_slot(out, cluster, coded, track, &self.last, slot);
                }
            }
            Step::Write { by, signal, value } => {
                let written = WrittenValue {
                    node: *by,
                    signal: *signal,
                    value,
                };
                put_write(out, cluster, coded, track.time(), written);
            }
            Step::Wake => put_object_line(out, "awake", &[Member::Number("time_us", track.time())]),
            _ => {}
        }
    }

    /// The objects of the next entry.
    fn put_entry<W: Write>(
        &self,
        out: &mut TextWriter<'_, W>,
        cluster: &Cluster,
        coded: Option<&Coded>,
        entry: &LogEntry,
    )
        requires { self.now.track.time < 2 ^ 63 }
        ensures { IfObjectsOf cluster.now self.now (λ past. Grows W.contents out.old out.new
            (entry_objects cluster.now (given_coding coded.entry) entry.now past)) }
    {
        let track = &self.track;
        match &entry.reply {
            Reply::Done(events) => {
                let moment = EventTime {
                    at: track.time_behind(cluster, entry),
                    slot: track.slots(),
                };
                self.put_step(out, cluster, coded, &entry.step);
                put_events(out, cluster, &entry.step, moment, events.as_slice());
            }
            Reply::Refused(refusal) => put_refused(
                out,
                cluster,
                track.time(),
                entry.port,
                &entry.step,
                *refusal,
            ),
        }
    }

    /// One entry more was read. An error means out of memory.
    fn follow(&mut self, cluster: &Cluster, entry: &LogEntry) -> Result<(), AllocError>
        requires time { self.old.track.time < 2 ^ 63 }
        requires slots { self.old.track.slots < 2 ^ 63 }
        ensures { OnOk result ((past : List LogEntry) → IsObjectTrackOf cluster.now past self.old
            → IsObjectTrackOf cluster.now (entry.now ∷ past) self.new) }
    {
        self.track.follow(cluster, entry)?;
        if let Reply::Done(events) = &entry.reply {
            settle_all(&mut self.last, events.as_slice());
        }
        Ok(())
    }

    /// Puts the objects of a range of the entries of a log; the entries before it were read.
    /// There is an object for each finished slot (with its schedule entry, its responses and the values
    /// of its signals), each write, each message that was accepted, arrived, was sent or lost, each
    /// sleep and wake-up, and each refused step. If the encodings of signals are given, slots and writes
    /// also have texts and quantities of values.
    ///
    /// # Errors
    /// Out of memory: what was put is a beginning of the objects.
    pub fn put_entries<W: Write>(
        &mut self,
        out: &mut TextWriter<'_, W>,
        cluster: &Cluster,
        coded: Option<&Coded>,
        range: LogRange<'_>,
    ) -> Result<(), AllocError>
        requires order { range.from ≤ range.end }
        requires there { range.end ≤ length range.log.now.entries }
        requires track { IsObjectTrackOf cluster.now (entries_before range) self.old }
        ensures text { PutsAll W.contents out.old out.new result
            (objects_between cluster.now (given_coding coded.entry) range.entry) }
        ensures track { OnOk result
            (IsObjectTrackOf cluster.now (entries_to_end range.entry) self.new) }
    {
        cluster.sound();
        let log = range.log;
        for index in range.from..range.end.min(log.len()) {
            let entry = log.entry(index);
            self.put_entry(out, cluster, coded, entry);
            self.follow(cluster, entry)?;
        }
        Ok(())
    }

    /// The last finished slot, null before the first one.
    fn slot_member(&self) -> Member<'static>
        ensures { member_shown result ≡ member (codes "slot") (last_slot_number self.now.track.slots) }
    {
        match self.track.slots() {
            0 => Member::Null("slot"),
            slots => Member::Number("slot", slots - 1),
        }
    }

    /// Puts the object of a check that failed after the entries that were read.
    pub fn put_unmet<W: Write>(&self, out: &mut TextWriter<'_, W>, unmet: Unmet<'_>)
        ensures { (c : Parts) (past : List LogEntry) → IsObjectTrackOf c past self.now
            → Grows W.contents out.old out.new (unmet_object c past unmet.entry) }
    {
        put_object_line(
            out,
            "unmet",
            &[
                Member::Number("time_us", self.track.time()),
                self.slot_member(),
                Member::Printable("script", unmet.script),
                Member::Number("line", unmet.line),
                test_member(unmet.test),
                Member::Printable("what", unmet.what),
                Member::Printable("got", unmet.got),
            ],
        );
    }

    /// Puts the object that a run ends with after the entries that were read.
    pub fn put_end<W: Write>(&self, out: &mut TextWriter<'_, W>, counts: Counts)
        ensures { (c : Parts) (past : List LogEntry) → IsObjectTrackOf c past self.now
            → Grows W.contents out.old out.new (end_line c past counts) }
    {
        put_type(out, "end");
        put_members(
            out,
            &[
                Member::Number("time_us", self.track.time()),
                Member::Number("slots", self.track.slots()),
            ],
        );
        put_count(out, "expected", counts.expected);
        put_count(out, "unmet", counts.unmet);
        put_count(out, "refused", counts.refused);
        put_count(out, "lost", counts.lost);
        put_count(out, "waiting", counts.waiting);
        out.put(b"}\n");
    }
}

/// The name of a test, null outside of tests.
fn test_member(test: Option<&[u8]>) -> Member<'_>
    ensures { member_shown result ≡ member (codes "test") (test_shown (option_map (λ t. t.now) test.entry)) }
{
    match test {
        Some(name) => Member::Printable("test", name),
        None => Member::Null("test"),
    }
}

/// A range of the entries of a log: from index `from` up to index `end`, without it.
#[derive(Clone, Copy)]
pub struct LogRange<'a> {
    pub log: &'a Log,
    pub from: usize,
    pub end: usize,
}

/// A failed check: the name of the script, the number of its line, the name of its test, what was
/// expected, and what is so instead.
#[derive(Clone, Copy)]
pub struct Unmet<'a> {
    pub script: &'a [u8],
    pub line: u64,
    /// `None` outside of tests.
    pub test: Option<&'a [u8]>,
    pub what: &'a [u8],
    pub got: &'a [u8],
}

/// The numbers of a run: checks, failed checks, refused steps, lost messages, and messages that wait at
/// the end.
#[derive(Clone, Copy)]
pub struct Counts {
    pub expected: u128,
    pub unmet: u128,
    pub refused: u128,
    pub lost: u128,
    pub waiting: u128,
}

/// A number that may be large: a member after a comma.
fn put_count<W: Write>(out: &mut TextWriter<'_, W>, key: &str, count: u128)
    ensures { Grows W.contents out.old out.new (after_comma (member key.now (decimal count))) }
{
    put_key(out, key);
    out.put_number(count);
}

/// Returns the objects of the entries of a log from one on. The track is that of the entries before it,
/// and then that of all.
///
/// # Errors
/// Out of memory; the track can't be used then.
pub fn objects_text(
    alloc: Global,
    objects: &mut ObjectTrack,
    cluster: &Cluster,
    coded: Option<&Coded>,
    log: &Log,
    from: usize,
) -> Result<Vec<u8>, AllocError>
    requires there { from ≤ length log.now.entries }
    requires track { IsObjectTrackOf cluster.now (reverse (take from log.now.entries)) objects.old }
    ensures text { IfOk result (λ text. text.items
        ≡ objects_from cluster.now (given_coding coded.entry) log.now.entries from) }
    ensures track { OnOk result
        (IsObjectTrackOf cluster.now (reverse log.now.entries) objects.new) }
{
    let mut text = Vec::new(alloc);
    let mut buffer = TextBuffer::empty();
    let mut out = TextWriter::new(&mut text, &mut buffer);
    let range = LogRange {
        log,
        from,
        end: log.len(),
    };
    objects.put_entries(&mut out, cluster, coded, range)?;
    match out.finish() {
        Ok(()) => Ok(text),
        Err(_) => Err(AllocError),
    }
}
