//! A slot as an object of JSON.

ghost use Rattle.std.specs.Prelude.{◌<◌, ◌≡◌, ℕ, codes, flat_map, length, map};
ghost use Rattle.std.specs.Option.{option_copied};
ghost use Rattle.lin_text.specs.Written.{Grows};
ghost use Rattle.lin_export.specs.Csv.{after_comma};
ghost use Rattle.lin_export.specs.Json.{with_commas, member};
ghost use Rattle.lin_export.specs.Jsonl.{answer_value, answers_member, carried_signals, due_member};
ghost use Rattle.lin_export.specs.Jsonl.{frame_member, frame_signals, header_member, hurt_member};
ghost use Rattle.lin_export.specs.Jsonl.{is_message_frame, message_member, message_put, message_value};
ghost use Rattle.lin_export.specs.Jsonl.{node_text};
ghost use Rattle.lin_export.specs.Jsonl.{response_members, schedule_members, signal_value};
ghost use Rattle.lin_export.specs.Jsonl.{signals_member, slot_line};
ghost use Rattle.lin_export.specs.Look.{seen_as};
ghost use Rattle.lin_export.specs.Members.{member_shown};
ghost use Rattle.lin_export.specs.Open.{tracked_slot};
ghost use Rattle.lin_export.specs.PutsGroups.{AreCounts, IfCounts};
ghost use Rattle.lin_export.specs.WhereTold.{given_coding};

use crate::frame_places::{place_count, value_at};
use crate::json::{
    Member, put_first, put_key, put_member, put_members, put_quoted, put_separator, put_type,
};
use crate::slot_meanings::put_physical;
use crate::slot_names::{node_name, slot_name, table_name};
use crate::track::Track;
use crate::tracked_slot::{SeenSlot, TrackedSlot, byte_at};
use crate::vcd::HOSTS;
use lin_core::Listed;
use lin_frame::{Answer, Value};
use lin_log::{NumberNaming, Word, put_shown};
use lin_parts::{Cluster, Entry};
use lin_text::TextWriter;
use lin_values::Coded;
use std::io::Write;

/// The name of a node.
pub(crate) fn put_node<W: Write>(out: &mut TextWriter<'_, W>, cluster: &Cluster, node: u8)
    ensures { Grows W.contents out.old out.new (node_text cluster.now node) }
{
    put_quoted(out, node_name(cluster, node));
}

/// The frame of a slot; a configuration entry has none.
pub(crate) fn frame_member<'a>(cluster: &'a Cluster, slot: &TrackedSlot) -> Member<'a>
    ensures { member_shown result ≡ frame_member cluster.now (tracked_slot slot.now) }
{
    match slot.line(cluster).entry {
        Entry::Quiet => Member::Null("frame"),
        _ => Member::Text("frame", slot_name(cluster, slot)),
    }
}

fn header_member(header: Option<u8>) -> Member<'static>
    ensures { member_shown result ≡ header_member header }
{
    match header {
        Some(pid) => Member::Number("header", u64::from(pid)),
        None => Member::Null("header"),
    }
}

/// Where a slot stands in the schedule, and what it is for.
fn put_schedule<'a, W: Write>(
    out: &mut TextWriter<'_, W>,
    cluster: &'a Cluster,
    number: u64,
    at: u64,
    slot: &TrackedSlot,
)
    ensures { Grows W.contents out.old out.new
        (flat_map after_comma (schedule_members cluster.now number at (tracked_slot slot.now))) }
{
    let line = slot.line(cluster);
    put_members(
        out,
        &[
            Member::Number("slot", number),
            Member::Number("time_us", at),
            Member::Number("delay_us", u64::from(line.delay_us)),
            Member::Text("table", table_name(cluster, slot.table())),
            Member::Number("entry", u64::from(slot.entry())),
            Member::Text("kind", line.entry.kind()),
            frame_member(cluster, slot),
            header_member(slot.header()),
        ],
    );
}

/// The names of nodes.
fn put_names<W: Write>(out: &mut TextWriter<'_, W>, cluster: &Cluster, which: &[u8])
    ensures { Grows W.contents out.old out.new (with_commas (map (node_text cluster.now) which.now)) }
{
    for place in 0..which.len() {
        put_separator(out, place);
        put_node(out, cluster, which[place]);
    }
}

/// The nodes that were due.
fn put_due<W: Write>(out: &mut TextWriter<'_, W>, cluster: &Cluster, due: &[u8])
    ensures { Grows W.contents out.old out.new (after_comma (due_member cluster.now due.now)) }
{
    put_key(out, "due");
    out.put_byte(b'[');
    put_names(out, cluster, due);
    out.put_byte(b']');
}

/// A node that answered, with its response.
fn put_answer<W: Write>(out: &mut TextWriter<'_, W>, cluster: &Cluster, put: &(u8, Answer))
    ensures { Grows W.contents out.old out.new (answer_value cluster.now put.now) }
{
    put_first(out, "node", node_name(cluster, put.0));
    put_member(out, Member::Hex("bytes", put.1.as_slice()));
    out.put_byte(b'}');
}

fn put_all_answers<W: Write>(out: &mut TextWriter<'_, W>, cluster: &Cluster, puts: &[(u8, Answer)])
    ensures { Grows W.contents out.old out.new (with_commas (map (answer_value cluster.now) puts.now)) }
{
    for place in 0..puts.len() {
        put_separator(out, place);
        put_answer(out, cluster, &puts[place]);
    }
}

/// The nodes that answered, with their responses.
fn put_answers<W: Write>(out: &mut TextWriter<'_, W>, cluster: &Cluster, puts: &[(u8, Answer)])
    ensures { Grows W.contents out.old out.new (after_comma (answers_member cluster.now puts.now)) }
{
    put_key(out, "answers");
    out.put_byte(b'[');
    put_all_answers(out, cluster, puts);
    out.put_byte(b']');
}

/// The bytes in place of a disturbed response.
fn hurt_member(hurt: bool, bytes: &[u8]) -> Member<'_>
    ensures { member_shown result ≡ hurt_member hurt bytes.now }
{
    if hurt {
        Member::Hex("hurt", bytes)
    } else {
        Member::Null("hurt")
    }
}

/// How a slot was seen, with the response of a good one.
fn put_response<W: Write>(out: &mut TextWriter<'_, W>, look: SeenSlot<'_>)
    ensures { Grows W.contents out.old out.new
        (flat_map after_comma (response_members (seen_as look.entry))) }
{
    let seen = Member::Text("seen", look.kind().word().as_bytes());
    match look {
        SeenSlot::Good(answer) => {
            let bytes = answer.as_slice();
            let count = bytes.len().saturating_sub(1);
            let checksum = u64::from(byte_at(bytes, count));
            put_members(
                out,
                &[
                    seen,
                    Member::Hex("data", &bytes[..count]),
                    Member::Number("checksum", checksum),
                ],
            );
        }
        _ => put_members(out, &[seen, Member::Null("data"), Member::Null("checksum")]),
    }
}

/// A value of a signal.
pub(crate) fn put_value<W: Write>(out: &mut TextWriter<'_, W>, value: &Value)
    ensures { Grows W.contents out.old out.new (signal_value value.now) }
{
    match value {
        Value::Scalar(number) => out.put_number(*number),
        Value::Bytes(_) => {
            out.put_byte(b'"');
            put_shown(out, &NumberNaming, Word::Value(value));
            out.put_byte(b'"');
        }
    }
}

/// Puts a value of a signal: the member `value`, after a comma.
pub fn put_value_member<W: Write>(out: &mut TextWriter<'_, W>, value: &Value)
    ensures { Grows W.contents out.old out.new
        (after_comma (member (codes "value") (signal_value value.now))) }
{
    put_key(out, "value");
    put_value(out, value);
}

/// A signal with its value: a member.
fn put_signal<W: Write>(out: &mut TextWriter<'_, W>, name: &[u8], value: &Value)
    ensures { Grows W.contents out.old out.new (member name.now (signal_value value.now)) }
{
    put_quoted(out, name);
    out.put_byte(b':');
    put_value(out, value);
}

/// The signals of a frame, with their values in data bytes.
fn put_frame_signals<W: Write>(
    out: &mut TextWriter<'_, W>,
    cluster: &Cluster,
    frame: u16,
    answer: &Answer,
)
    requires { frame < length cluster.now.frames }
    ensures { Grows W.contents out.old out.new
        (with_commas (frame_signals cluster.now answer.now frame)) }
{
    for place in 0..place_count(cluster, frame) {
        let (signal, value) = value_at(cluster, frame, answer, place);
        put_separator(out, place);
        put_signal(out, cluster.signal_name(signal), &value);
    }
}

/// The signals that a slot carries, where it is seen good.
fn put_carried_signals<W: Write>(out: &mut TextWriter<'_, W>, cluster: &Cluster, slot: &TrackedSlot)
    ensures { Grows W.contents out.old out.new
        (with_commas (carried_signals cluster.now (tracked_slot slot.now))) }
{
    let SeenSlot::Good(answer) = slot.look() else {
        return;
    };
    let Some(frame) = slot.carried(cluster) else {
        return;
    };
    put_frame_signals(out, cluster, frame, answer);
}

fn put_signals<W: Write>(out: &mut TextWriter<'_, W>, cluster: &Cluster, slot: &TrackedSlot)
    ensures { Grows W.contents out.old out.new
        (after_comma (signals_member cluster.now (tracked_slot slot.now))) }
{
    put_key(out, "signals");
    out.put_byte(b'{');
    put_carried_signals(out, cluster, slot);
    out.put_byte(b'}');
}

/// Whether a response is a frame of a message: of the two diagnostic headers, and no sleep frame
/// (ISO 17987-2).
fn is_message_frame(header: Option<u8>, answer: &[u8]) -> bool
    ensures { result ≡ is_message_frame header answer.now }
{
    match header {
        Some(0x3C) => byte_at(answer, 0) != 0,
        Some(0x7D) => true,
        _ => false,
    }
}

/// The number of the last message of a host that was sent or lost.
fn last_number(last: &[u32; HOSTS], host: u8) -> u32
    ensures { (count : ℕ → ℕ) → AreCounts count last.now → result ≡ count host }
{
    last[usize::from(host)]
}

/// The message of which a response is a frame, by the numbers of the last messages that were sent or
/// lost.
fn put_message_value<W: Write>(
    out: &mut TextWriter<'_, W>,
    cluster: &Cluster,
    last: &[u32; HOSTS],
    header: Option<u8>,
    put: &(u8, Answer),
)
    ensures { (count : ℕ → ℕ) → AreCounts count last.now
        → Grows W.contents out.old out.new (message_value cluster.now count header put.now) }
{
    if !is_message_frame(header, put.1.as_slice()) {
        out.put(b"null");
        return;
    }
    let number = u64::from(last_number(last, put.0)) + 1;
    put_first(out, "host", node_name(cluster, put.0));
    put_member(out, Member::Number("number", number));
    out.put_byte(b'}');
}

/// The last response of a slot of messages; of a slot for a service none.
fn message_put(slot: &TrackedSlot) -> Option<&(u8, Answer)>
    ensures { option_copied result ≡ message_put (tracked_slot slot.now) }
{
    if slot.is_service() {
        None
    } else {
        slot.puts().last()
    }
}

/// The message of which the last response of a slot is a frame.
fn put_message<W: Write>(
    out: &mut TextWriter<'_, W>,
    cluster: &Cluster,
    last: &[u32; HOSTS],
    slot: &TrackedSlot,
)
    ensures { IfCounts last.now (λ n. Grows W.contents out.old out.new
        (after_comma (message_member cluster.now n (tracked_slot slot.now)))) }
{
    put_key(out, "message");
    match message_put(slot) {
        Some(put) => put_message_value(out, cluster, last, slot.header(), put),
        None => out.put(b"null"),
    }
}

/// A slot that is finished.
pub(crate) fn put_slot<'a, W: Write>(
    out: &mut TextWriter<'_, W>,
    cluster: &'a Cluster,
    coded: Option<&Coded>,
    track: &Track,
    last: &[u32; HOSTS],
    slot: &TrackedSlot,
)
    ensures { IfCounts last.now (λ n. Grows W.contents out.old out.new
        (slot_line cluster.now (given_coding coded.entry) track.now n (tracked_slot slot.now))) }
{
    put_type(out, "slot");
    put_schedule(out, cluster, track.slots(), track.time(), slot);
    put_due(out, cluster, slot.due());
    put_answers(out, cluster, slot.puts());
    put_member(out, hurt_member(slot.is_hurt(), track.hurt()));
    put_response(out, slot.look());
    put_signals(out, cluster, slot);
    put_message(out, cluster, last, slot);
    put_physical(out, cluster, coded, slot);
    out.put(b"}\n");
}
