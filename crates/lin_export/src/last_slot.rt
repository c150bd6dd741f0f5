//! The slot that ended last.

ghost use Rattle.std.specs.Prelude.{◌≡◌, ◌≤◌, IfOk, IfSome, List, codes, flat_map, map};
ghost use Rattle.std.specs.Prelude.{option_map, reverse};
ghost use Rattle.std.specs.Option.{option_map_or, option_to_list};
ghost use Rattle.lin_core.specs.History.{good};
ghost use Rattle.lin_core.specs.declared.log.LogEntry.{LogEntry};
ghost use Rattle.lin_log.specs.Words.{hex_word, spaced_word};
ghost use Rattle.lin_parts.specs.declared.parts.Parts.{Parts};
ghost use Rattle.lin_text.specs.Written.{Grows};
ghost use Rattle.lin_export.specs.Json.{hex_text, member, null};
ghost use Rattle.lin_export.specs.LastSlot.{IsKeptOf, end_of_slot, ended_value, ended_words, kept_slot};
ghost use Rattle.lin_export.specs.LastSlot.{last_slot, last_slot_value, last_slot_words, tracked_slot_end};
ghost use Rattle.lin_export.specs.Named.{named_words};
ghost use Rattle.lin_export.specs.Members.{member_shown};
ghost use Rattle.lin_export.specs.Open.{tracked_slot};
ghost use Rattle.lin_export.specs.Shown.{data_of};

use crate::json::{Member, put_members};
use crate::slot_names::{slot_name, table_name};
use crate::slot_object::frame_member;
use crate::track::Track;
use crate::tracked_slot::{SeenSlot, TrackedSlot};
use lin_core::{Listed, Log};
use lin_log::{Word, last_finish, put_words};
use lin_parts::Cluster;
use lin_text::TextWriter;
use std::alloc::{AllocError, Global};
use std::io::Write;
use std::marker::Model;

/// What is kept of the entries of a log before the end of the slot that ended last, and how many they
/// are. As the log grows, each entry is read once. Contracts see both.
#[derive(Drop)]
pub struct LastSlot {
    track: Track,
    entries: usize,
}

impl Model for LastSlot {
    ghost use Rattle.lin_export.specs.LastSlot.{LastSlotData};

    ghost Value = { LastSlotData };

    ghost view = { λ l. record { track = l.track; entries = l.entries } };
}

/// The data bytes of a good response.
fn put_data<W: Write>(out: &mut TextWriter<'_, W>, slot: &TrackedSlot)
    ensures { Grows W.contents out.old out.new (flat_map spaced_word
        (map (λ answer. hex_word (data_of answer)) (option_to_list (good (tracked_slot slot.now))))) }
{
    if let SeenSlot::Good(answer) = slot.look() {
        let bytes = answer.as_slice();
        put_words(out, &[Word::Bytes(&bytes[..bytes.len().saturating_sub(1)])]);
    }
}

/// A slot as it is when it ends, after a space.
fn put_slot<W: Write>(
    out: &mut TextWriter<'_, W>,
    cluster: &Cluster,
    track: &Track,
    slot: &TrackedSlot,
)
    ensures { Grows W.contents out.old out.new
        (named_words cluster.now
        (ended_words cluster.now (end_of_slot track.now (tracked_slot slot.now)))) }
{
    put_words(
        out,
        &[
            Word::Number(track.slots()),
            Word::Number(track.time()),
            Word::Said(table_name(cluster, slot.table())),
            Word::Number(u64::from(slot.entry())),
            Word::Said(slot_name(cluster, slot)),
            Word::Fixed(slot.look().kind().word()),
        ],
    );
    put_data(out, slot);
}

/// The open slot of a track as it is when it ends, after a space.
fn put_ending<W: Write>(out: &mut TextWriter<'_, W>, cluster: &Cluster, track: &Track)
    ensures { Grows W.contents out.old out.new
        (named_words cluster.now (last_slot_words cluster.now (tracked_slot_end track.now))) }
{
    match track.slot() {
        Some(slot) => put_slot(out, cluster, track, slot),
        None => out.put_text(" none"),
    }
}

/// Puts the slot that ended last, after a space: its number, the time at its start, its table, its
/// entry, the name of its frame, how it was seen, and the data bytes of a good response; `none` before
/// the first one.
pub fn put_last_slot<W: Write>(
    out: &mut TextWriter<'_, W>,
    cluster: &Cluster,
    last: Option<&LastSlot>,
)
    ensures { Grows W.contents out.old out.new
        (named_words cluster.now
        (last_slot_words cluster.now (kept_slot (option_map (λ l. l.now) last.entry)))) }
{
    match last {
        Some(last) => put_ending(out, cluster, &last.track),
        None => out.put_text(" none"),
    }
}

/// The data bytes of a good response; null for others.
fn data_member(slot: &TrackedSlot) -> Member<'_>
    ensures { member_shown result ≡ member (codes "data")
        (option_map_or (λ answer. hex_text (data_of answer)) (good (tracked_slot slot.now)) null) }
{
    match slot.look() {
        SeenSlot::Good(answer) => {
            let bytes = answer.as_slice();
            Member::Hex("data", &bytes[..bytes.len().saturating_sub(1)])
        }
        _ => Member::Null("data"),
    }
}

/// A slot as it is when it ends, as a value of JSON.
fn put_slot_value<'a, W: Write>(
    out: &mut TextWriter<'_, W>,
    cluster: &'a Cluster,
    track: &Track,
    slot: &'a TrackedSlot,
)
    ensures { Grows W.contents out.old out.new
        (ended_value cluster.now (end_of_slot track.now (tracked_slot slot.now))) }
{
    out.put(b"{\"slot\":");
    out.put_number(track.slots());
    put_members(
        out,
        &[
            Member::Number("time_us", track.time()),
            Member::Text("table", table_name(cluster, slot.table())),
            Member::Number("entry", u64::from(slot.entry())),
            frame_member(cluster, slot),
            Member::Text("seen", slot.look().kind().word().as_bytes()),
            data_member(slot),
        ],
    );
    out.put_byte(b'}');
}

/// The open slot of a track as it is when it ends, as a value of JSON.
fn put_ending_value<W: Write>(out: &mut TextWriter<'_, W>, cluster: &Cluster, track: &Track)
    ensures { Grows W.contents out.old out.new (last_slot_value cluster.now (tracked_slot_end track.now)) }
{
    match track.slot() {
        Some(slot) => put_slot_value(out, cluster, track, slot),
        None => out.put(b"null"),
    }
}

/// Puts the slot that ended last as an object; null before the first one.
pub fn put_last_slot_value<W: Write>(
    out: &mut TextWriter<'_, W>,
    cluster: &Cluster,
    last: Option<&LastSlot>,
)
    ensures { Grows W.contents out.old out.new
        (last_slot_value cluster.now (kept_slot (option_map (λ l. l.now) last.entry))) }
{
    match last {
        Some(last) => put_ending_value(out, cluster, &last.track),
        None => out.put(b"null"),
    }
}

impl LastSlot {
    /// Nothing is read.
    fn new(alloc: Global) -> LastSlot
        ensures none { result.entries ≡ 0 }
        ensures kept { (c : Parts) (es : List LogEntry) → IsKeptOf c es result }
    {
        LastSlot {
            track: Track::new(alloc),
            entries: 0,
        }
    }

    /// What was found in a beginning of a log, if it isn't longer than this; otherwise nothing is read.
    fn before(alloc: Global, known: Option<LastSlot>, end: usize) -> LastSlot
        ensures within { result.entries ≤ end }
        ensures kept { (c : Parts) (es : List LogEntry) → IfSome known (IsKeptOf c es) → IsKeptOf c es result }
    {
        match known {
            Some(known) => {
                if known.entries <= end {
                    known
                } else {
                    LastSlot::new(alloc)
                }
            }
            None => LastSlot::new(alloc),
        }
    }

    /// Finds the slot that ended last in a log, from what was found in a beginning of it.
    ///
    /// # Errors
    /// Out of memory.
    pub fn find(
        alloc: Global,
        cluster: &Cluster,
        log: &Log,
        known: Option<LastSlot>,
    ) -> Result<Option<LastSlot>, AllocError>
        requires { IfSome known (IsKeptOf cluster.now log.now.entries) }
        ensures last { IfOk result (λ last.
            kept_slot last ≡ last_slot cluster.now (reverse log.now.entries)) }
        ensures kept { IfOk result (λ last. IfSome last (IsKeptOf cluster.now log.now.entries)) }
    {
        let Some(end) = last_finish(log) else {
            return Ok(None);
        };
        let mut last = LastSlot::before(alloc, known, end);
        last.track.follow_to(cluster, log, last.entries, end)?;
        last.entries = end;
        Ok(Some(last))
    }
}
