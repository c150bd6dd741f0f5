//! Logs with names.

ghost use Rattle.std.specs.Prelude.{◌≡◌, ◌∷◌, ◌<◌, ⊤, [], IfOk, OnOk, codes, flat_map, length};
ghost use Rattle.std.specs.Prelude.{map, option_map, reverse, take};
ghost use Rattle.std.specs.Option.{option_to_list};
ghost use Rattle.lin_parts.specs.Cluster.{frame_name};
ghost use Rattle.lin_parts.specs.Rules.{IsEntry};
ghost use Rattle.lin_parts.specs.declared.parts.Parts.{Parts};
ghost use Rattle.lin_log.specs.Language.{Language, named_language};
ghost use Rattle.lin_log.specs.Shown.{word_shown};
ghost use Rattle.lin_log.specs.Words.{line, reply_line, word_text};
ghost use Rattle.lin_log.specs.Words.Word.{Said};
ghost use Rattle.lin_text.specs.Written.{Grows, WritesText};
ghost use Rattle.lin_export.specs.Named.{words_after_event, control_words, frame_signal_words, frame_words, good_words};
ghost use Rattle.lin_export.specs.Named.{named_event, named_from, named_line, named_log};
ghost use Rattle.lin_export.specs.Named.{named_words, refusal_words, request_words, slot_names};
ghost use Rattle.lin_export.specs.Named.{sporadic_frame_under, time_words, transport, transport_words, who_word};
ghost use Rattle.lin_export.specs.NamedWords.{event_text, line_or_none, named_entry};
ghost use Rattle.lin_export.specs.Open.{tracked_slot};
ghost use Rattle.lin_export.specs.Track.{track_of};
ghost use Rattle.lin_export.specs.WhereTold.{given_coding};

use crate::fault::ExportFault;
use crate::format::{EntryFormat, put_entries, write_as};
use crate::frame_places::{place_count, value_at};
use crate::named_values::{put_told, put_written};
use crate::slot_names::node_name;
use crate::track::{Track, TrackedEntry};
use crate::tracked_slot::{TrackedSlot, byte_at};
use lin_core::{Event, Listed, Log, Refusal, Reply, Seen, Step, frame_under, node_with};
use lin_frame::Answer;
use lin_log::{Word, put_line, put_step_line, put_words};
use lin_parts::{Cluster, Entry};
use lin_text::{TextBuffer, TextWriter};
use lin_values::Coded;
use std::alloc::{AllocError, Global};
use std::io::Write;

/// A line of a reply.
fn put_reply<W: Write>(out: &mut TextWriter<'_, W>, words: &[Word<'_>])
    ensures { Grows W.contents out.old out.new (line (codes ">" ∷ map word_shown words.now)) }
{
    put_line(out, b">", words);
}

/// The frame of a sporadic entry with a header.
fn sporadic_frame(cluster: &Cluster, entry: Entry, header: Option<u8>) -> Option<u16>
    requires { IsEntry cluster.now entry }
    ensures { result ≡ sporadic_frame_under cluster.now entry header }
{
    cluster.sound();
    let Entry::Sporadic(sporadic) = entry else {
        return None;
    };
    match header {
        Some(header) => frame_under(cluster, cluster.sporadic(sporadic), header),
        None => None,
    }
}

/// The name of a member, where there is one.
fn put_member<W: Write>(out: &mut TextWriter<'_, W>, cluster: &Cluster, member: Option<u16>)
    ensures { Grows W.contents out.old out.new
        (named_words cluster.now (map (λ f. Said (frame_name cluster.now f)) (option_to_list member))) }
{
    if let Some(frame) = member {
        put_words(out, &[Word::Said(cluster.frame_name(frame))]);
    }
}

/// What the entry of an opened slot is for.
pub fn put_slot_names<W: Write>(out: &mut TextWriter<'_, W>, cluster: &Cluster, event: &Event)
    ensures { Grows W.contents out.old out.new
        (named_words cluster.now (slot_names cluster.now event.now)) }
{
    if let Event::Slot {
        table,
        entry: number,
        header,
    } = event
    {
        let entry = cluster.line_at(*table, *number).entry;
        put_words(out, &[Word::Said(cluster.entry_name(entry))]);
        put_member(out, cluster, sporadic_frame(cluster, entry, *header));
    }
}

pub(crate) fn put_event<W: Write>(out: &mut TextWriter<'_, W>, cluster: &Cluster, event: &Event)
    ensures { Grows W.contents out.old out.new
        (named_line cluster.now (named_event cluster.now event.now)) }
{
    out.put_byte(b'>');
    lin_log::put_event(out, cluster, event);
    put_slot_names(out, cluster, event);
    out.put_byte(b'\n');
}

/// The signals of a frame, with their values in data bytes.
fn put_signals<W: Write>(
    out: &mut TextWriter<'_, W>,
    cluster: &Cluster,
    frame: u16,
    answer: &Answer,
)
    requires { frame < length cluster.now.frames }
    ensures { Grows W.contents out.old out.new
        (named_words cluster.now (frame_signal_words cluster.now frame answer.now)) }
{
    for place in 0..place_count(cluster, frame) {
        let (signal, value) = value_at(cluster, frame, answer, place);
        let name = cluster.signal_name(signal);
        put_words(out, &[Word::Said(name), Word::Value(&value)]);
    }
}

/// A good frame of signals.
fn put_frame<W: Write>(out: &mut TextWriter<'_, W>, cluster: &Cluster, frame: u16, answer: &Answer)
    requires { frame < length cluster.now.frames }
    ensures { Grows W.contents out.old out.new
        (named_line cluster.now (frame_words cluster.now frame answer.now)) }
{
    out.put_byte(b'>');
    put_words(
        out,
        &[Word::Fixed("frame"), Word::Said(cluster.frame_name(frame))],
    );
    put_signals(out, cluster, frame, answer);
    out.put_byte(b'\n');
}

fn who_word(cluster: &Cluster, address: u8) -> Word<'_>
    ensures { word_shown result
        ≡ word_text (named_language cluster.now) (who_word cluster.now address) }
{
    match node_with(cluster, address) {
        Some(node) => Word::Said(node_name(cluster, node)),
        None => Word::Number(u64::from(address)),
    }
}

/// What a frame of a message is, by its protocol control information (ISO 17987-2).
fn control_words(control: u8, length: u8) -> (Word<'static>, Word<'static>)
    ensures { (l : Language) → word_shown result.0 ∷ word_shown result.1 ∷ []
        ≡ map (word_text l) (control_words control length) }
{
    let low = u64::from(control % 16);
    match control / 16 {
        0 => (Word::Fixed("single"), Word::Number(low)),
        1 => (
            Word::Fixed("first"),
            Word::Number(256 * low + u64::from(length)),
        ),
        2 => (Word::Fixed("next"), Word::Number(low)),
        _ => (Word::Fixed("other"), Word::Byte(control)),
    }
}

/// A good frame of a message.
fn put_transport<'a, W: Write>(
    out: &mut TextWriter<'_, W>,
    cluster: &'a Cluster,
    way: &'a str,
    answer: &[u8],
)
    ensures { Grows W.contents out.old out.new
        (named_line cluster.now (transport_words cluster.now way.now answer.now)) }
{
    let who = who_word(cluster, byte_at(answer, 0));
    let (kind, number) = control_words(byte_at(answer, 1), byte_at(answer, 2));
    put_reply(
        out,
        &[
            Word::Fixed("transport"),
            who,
            Word::Fixed(way),
            kind,
            number,
        ],
    );
}

/// A good master request: a frame of a message, or the one that puts the cluster to sleep.
fn put_request<W: Write>(out: &mut TextWriter<'_, W>, cluster: &Cluster, answer: &[u8])
    ensures { Grows W.contents out.old out.new
        (named_line cluster.now (request_words cluster.now answer.now)) }
{
    if byte_at(answer, 0) == 0 {
        put_reply(out, &[Word::Fixed("transport"), Word::Fixed("sleep")]);
    } else {
        put_transport(out, cluster, "down", answer);
    }
}

fn put_transport_line<W: Write>(
    out: &mut TextWriter<'_, W>,
    cluster: &Cluster,
    header: Option<u8>,
    answer: &[u8],
)
    ensures { Grows W.contents out.old out.new
        (line_or_none cluster.now (transport cluster.now header answer.now)) }
{
    match header {
        Some(0x3C) => put_request(out, cluster, answer),
        Some(0x7D) => put_transport(out, cluster, "up", answer),
        _ => {}
    }
}

/// What a good response means, in the slot that is open.
fn put_good<W: Write>(
    out: &mut TextWriter<'_, W>,
    cluster: &Cluster,
    slot: &TrackedSlot,
    answer: &Answer,
)
    ensures { Grows W.contents out.old out.new
        (line_or_none cluster.now (good_words cluster.now answer.now (tracked_slot slot.now))) }
{
    match slot.frame(cluster) {
        Some(frame) => put_frame(out, cluster, frame, answer),
        None => put_transport_line(out, cluster, slot.header(), answer.as_slice()),
    }
}

/// What stands after an event.
fn put_behind<W: Write>(
    out: &mut TextWriter<'_, W>,
    cluster: &Cluster,
    slot: &Option<TrackedSlot>,
    event: &Event,
)
    ensures { Grows W.contents out.old out.new
        (line_or_none cluster.now
        (words_after_event cluster.now (option_map tracked_slot slot.now) event.now)) }
{
    if let Event::Seen(Seen::Good(answer)) = event
        && let Some(slot) = slot
    {
        put_good(out, cluster, slot, answer);
    }
}

fn put_lines<W: Write>(
    out: &mut TextWriter<'_, W>,
    cluster: &Cluster,
    coded: Option<&Coded>,
    slot: &Option<TrackedSlot>,
    event: &Event,
)
    ensures { Grows W.contents out.old out.new
        (event_text cluster.now (given_coding coded.entry)
        (option_map tracked_slot slot.now) event.now) }
{
    put_event(out, cluster, event);
    put_behind(out, cluster, slot, event);
    put_told(out, cluster, coded, slot, event);
}

fn put_events<W: Write>(
    out: &mut TextWriter<'_, W>,
    cluster: &Cluster,
    coded: Option<&Coded>,
    slot: &Option<TrackedSlot>,
    events: &[Event],
)
    ensures { Grows W.contents out.old out.new
        (flat_map
        (event_text cluster.now (given_coding coded.entry)
        (option_map tracked_slot slot.now)) events.now) }
{
    for event in events {
        put_lines(out, cluster, coded, slot, event);
    }
}

/// The line of a refusal.
fn put_refusal<W: Write>(out: &mut TextWriter<'_, W>, refusal: Refusal)
    ensures { (l : Language) → Grows W.contents out.old out.new
        (reply_line l (refusal_words refusal)) }
{
    put_reply(
        out,
        &[
            Word::Fixed("refused"),
            Word::Number(u64::from(refusal.number())),
            Word::Fixed(refusal.word()),
        ],
    );
}

/// After the lines of a finish, the time.
fn put_time<W: Write>(out: &mut TextWriter<'_, W>, step: &Step, time: u64)
    ensures { (c : Parts) → Grows W.contents out.old out.new
        (line_or_none c (time_words step.now time)) }
{
    if let Step::Finish = step {
        put_reply(out, &[Word::Fixed("time"), Word::Number(time)]);
    }
}

/// A log with names, and where that is told with what values mean.
#[derive(Drop)]
struct NamedLog<'a> {
    coded: Option<&'a Coded>,
}

impl EntryFormat for NamedLog<'_> {
    ghost text = { λ f c. record {
      begins = [];
      says = named_entry c (given_coding f.coded);
      ends = λ past. [];
    } };

    ghost fits = { λ f c. ⊤ };

    ghost keeps = { λ f c past. ⊤ };

    fn put_head<W: Write>(&self, _out: &mut TextWriter<'_, W>, _cluster: &Cluster) {}

    fn put_entry<W: Write>(&mut self, out: &mut TextWriter<'_, W>, next: &TrackedEntry<'_>) {
        let cluster = next.cluster;
        let entry = next.entry;
        put_step_line(out, cluster, entry.port, &entry.step);
        match &entry.reply {
            Reply::Done(events) => {
                put_written(out, cluster, self.coded, &entry.step);
                put_events(
                    out,
                    cluster,
                    self.coded,
                    next.track.slot(),
                    events.as_slice(),
                );
                put_time(out, &entry.step, next.track.time_behind(cluster, entry));
            }
            Reply::Refused(refusal) => put_refusal(out, *refusal),
        }
    }

    fn put_end<W: Write>(&self, _out: &mut TextWriter<'_, W>, _cluster: &Cluster, _track: &Track) {}
}

/// Writes the log with names: its text, in which numbers of nodes, signals and tables are names,
/// and what frames and slots mean on lines of its own, so that it says the same steps. With what
/// signals mean, the values of frames and writes have lines with that, too.
///
/// It goes through a buffer of fixed size, and takes memory for what is kept of one slot. The
/// writer isn't flushed.
///
/// # Errors
/// What was written then is the beginning of the text.
/// - `OutOfMemory`;
/// - `WriteFailed` at the first error of the writer, an interrupted write too, and at the first
///   write of 0 bytes.
pub fn write_named<W: Write>(
    alloc: Global,
    cluster: &Cluster,
    coded: Option<&Coded>,
    log: &Log,
    writer: &mut W,
) -> Result<(), ExportFault>
    ensures { WritesText (W.contents writer.old) (W.contents writer.new) result
        (named_log cluster.now (given_coding coded.entry) log.now.entries) }
{
    write_as(&mut NamedLog { coded }, alloc, cluster, log, writer)
}

/// Writes the entries of a log from one on with names; the track is that of the entries before it,
/// and then that of all.
fn write_entries<W: Write>(
    track: &mut Track,
    cluster: &Cluster,
    coded: Option<&Coded>,
    log: &Log,
    from: usize,
    writer: &mut W,
) -> Result<(), ExportFault>
    requires { track.old ≡ track_of cluster.now (reverse (take from log.now.entries)) }
    ensures text { WritesText (W.contents writer.old) (W.contents writer.new) result
        (named_from cluster.now (given_coding coded.entry) log.now.entries from) }
    ensures track { OnOk result (track.new ≡ track_of cluster.now (reverse log.now.entries)) }
{
    let mut buffer = TextBuffer::empty();
    let mut out = TextWriter::new(writer, &mut buffer);
    let put = put_entries(&mut NamedLog { coded }, &mut out, track, cluster, log, from);
    out.finish()?;
    put?;
    Ok(())
}

/// The text of the entries of a log from one on with names, as `write_named` writes them; the track
/// is that of the entries before it, and then that of all.
///
/// # Errors
/// Out of memory, after which the track is of no use.
pub fn named_text(
    alloc: Global,
    track: &mut Track,
    cluster: &Cluster,
    coded: Option<&Coded>,
    log: &Log,
    from: usize,
) -> Result<Vec<u8>, AllocError>
    requires { track.old ≡ track_of cluster.now (reverse (take from log.now.entries)) }
    ensures text { IfOk result (λ text. text.items
        ≡ named_from cluster.now (given_coding coded.entry) log.now.entries from) }
    ensures track { OnOk result (track.new ≡ track_of cluster.now (reverse log.now.entries)) }
{
    let mut text = Vec::new(alloc);
    match write_entries(track, cluster, coded, log, from, &mut text) {
        Ok(()) => Ok(text),
        Err(_) => Err(AllocError),
    }
}
