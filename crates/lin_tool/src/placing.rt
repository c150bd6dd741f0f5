//! Bad lines of a bench script, and judgements that aren't met, after the name of its file; and the
//! moments of a log.

ghost use Rattle.std.specs.Prelude.{◌≡◌, ◌≤◌, ◌+◌, ◌*◌, ◌<◌, ◌^◌, ◌∷◌, [], List};
ghost use Rattle.std.specs.Prelude.{flat_map, length, min, IfOk};
ghost use Rattle.lin_parts.specs.declared.parts.Parts.{Parts};
ghost use Rattle.lin_core.specs.History.{Slot, slot_after_event, slot_after_events};
ghost use Rattle.lin_core.specs.declared.log.LogEntry.{LogEntry};
ghost use Rattle.lin_text.specs.Written.{Grows, WritesText};
ghost use Rattle.lin_tool.specs.Placing.{entry_in, finished_on, last_slot_text, moment_of, moment_text, past_at, AtMoment};
ghost use Rattle.lin_tool.specs.Placing.{bad_line_at, line_place, missed_line, placed_bad, placed_missed, placed_unmet, unread_text};

use lin_bench::{
    Judgement, LinePlace, Reason, ScriptFile, file_name, is_unmet, put_judged, put_place_number,
    put_reason,
};
use lin_core::{Event, Log, LogEntry, Reply, Step};
use lin_parts::Cluster;
use lin_text::{TextBuffer, TextWriter, WriteFailed};
use std::alloc::{AllocError, Global};
use std::io::Write;

/// What of a log is told: the table and the entry of the slot that is open, how many slots are
/// finished, and their delays, in microseconds.
#[derive(Clone, Copy)]
pub(crate) struct Moment {
    slot: Option<(u16, u16)>,
    slots: u64,
    time_us: u64,
}

/// The entry of a slot after an event.
fn told_by(event: &Event, entry: (u16, u16)) -> (u16, u16)
    ensures { (s : Slot) → entry ≡ entry_in s → result ≡ entry_in (slot_after_event event.now s) }
{
    match event {
        Event::Slot { table, entry, .. } => (*table, *entry),
        _ => entry,
    }
}

/// The entry of a slot after events.
fn told_by_all(events: &[Event], entry: (u16, u16)) -> (u16, u16)
    ensures { (s : Slot) → entry ≡ entry_in s
        → result ≡ entry_in (slot_after_events events.now s) }
{
    let mut told = entry;
    for event in events {
        told = told_by(event, told);
    }
    told
}

impl Moment {
    /// That of an empty log.
    pub(crate) fn new() -> Moment
        ensures { (c : Parts) → result ≡ moment_of c [] }
    {
        Moment {
            slot: None,
            slots: 0,
            time_us: 0,
        }
    }

    /// How many slots are finished.
    pub(crate) fn slots(&self) -> u64
        ensures { result ≡ self.now.slots }
    {
        self.slots
    }

    /// That after a finish.
    fn finished(self, cluster: &Cluster) -> Moment
        requires time { self.time_us < 2 ^ 63 }
        requires slots { self.slots < 2 ^ 63 }
        ensures told { result ≡ finished_on cluster.now self }
        ensures time { result.time_us ≤ self.time_us + 1000000000 }
        ensures count { result.slots ≤ self.slots + 1 }
    {
        match self.slot {
            Some((table, entry)) => Moment {
                slot: None,
                slots: self.slots + 1,
                time_us: self.time_us + u64::from(cluster.line_at(table, entry).delay_us),
            },
            None => self,
        }
    }

    /// That after one entry more.
    fn after(self, cluster: &Cluster, entry: &LogEntry) -> Moment
        requires time { self.time_us < 2 ^ 63 }
        requires slots { self.slots < 2 ^ 63 }
        ensures told { (past : List LogEntry) → self ≡ moment_of cluster.now past
            → result ≡ moment_of cluster.now (entry.now ∷ past) }
        ensures time { result.time_us ≤ self.time_us + 1000000000 }
        ensures count { result.slots ≤ self.slots + 1 }
    {
        let Reply::Done(events) = &entry.reply else {
            return self;
        };
        let slot = match (&entry.step, self.slot) {
            (Step::Open, _) => Some(told_by_all(events.as_slice(), (0, 0))),
            (Step::Answer { .. }, Some(slot)) => Some(told_by_all(events.as_slice(), slot)),
            (Step::Finish, _) => return self.finished(cluster),
            (_, slot) => slot,
        };
        Moment { slot, ..self }
    }

    /// That after so many entries of a log, of which some were read.
    fn on_to(self, cluster: &Cluster, log: &Log, read: usize, entries: usize) -> Moment
        requires told { self ≡ moment_of cluster.now (past_at log.now.entries read) }
        requires order { read ≤ entries }
        requires there { entries ≤ length log.now.entries }
        requires few { entries < 2 ^ 32 }
        requires time { self.time_us ≤ 1000000000 * read }
        requires slots { self.slots ≤ read }
        ensures told { result ≡ moment_of cluster.now (past_at log.now.entries entries) }
        ensures time { result.time_us ≤ 1000000000 * entries }
        ensures count { result.slots ≤ entries }
    {
        let mut moment = self;
        for index in read..entries {
            moment = moment.after(cluster, log.entry(index));
        }
        moment
    }

    /// That after so many entries of a log, by the one after some that were read. (A play's log only
    /// grows; where fewer entries are asked for than were read, it is read again.)
    pub(crate) fn at(self, cluster: &Cluster, log: &Log, read: usize, entries: usize) -> Moment
        requires told { self ≡ moment_of cluster.now (past_at log.now.entries read) }
        requires there { entries ≤ length log.now.entries }
        requires few { entries < 2 ^ 32 }
        requires time { self.time_us ≤ 1000000000 * read }
        requires slots { self.slots ≤ read }
        ensures told { result ≡ moment_of cluster.now (past_at log.now.entries entries) }
        ensures time { result.time_us ≤ 1000000000 * entries }
        ensures count { result.slots ≤ entries }
    {
        if read <= entries {
            self.on_to(cluster, log, read, entries)
        } else {
            Moment::new().on_to(cluster, log, 0, entries)
        }
    }
}

/// The names of the files of a bench script.
#[derive(Clone, Copy)]
pub(crate) struct FileNames<'a> {
    /// The name of the script's own file.
    pub(crate) script: &'a str,
    /// The files that it includes.
    pub(crate) files: &'a [ScriptFile],
}

/// A line's number after its file's name.
fn put_placed<W: Write>(out: &mut TextWriter<'_, W>, names: FileNames<'_>, place: LinePlace)
    ensures { Grows W.contents out.old out.new
        (line_place names.entry.script.now names.entry.files.now place) }
{
    out.put(file_name(names.script.as_bytes(), names.files, place.file));
    out.put_text(":");
    out.put_number(place.line);
    out.put_text(":");
}

/// A file that isn't read, and why.
fn put_unread<W: Write>(out: &mut TextWriter<'_, W>, name: &[u8], reason: &Reason)
    ensures { Grows W.contents out.old out.new (unread_text name.now reason.now) }
{
    out.put(name);
    out.put_text(": ");
    put_reason(out, reason);
    out.put_byte(b'\n');
}

/// A line that is bad, and why.
fn put_bad_line<W: Write>(
    out: &mut TextWriter<'_, W>,
    names: FileNames<'_>,
    place: LinePlace,
    reason: &Reason,
)
    ensures { Grows W.contents out.old out.new
        (bad_line_at names.entry.script.now names.entry.files.now place reason.now) }
{
    put_placed(out, names, place);
    out.put_text(" bad line: ");
    put_reason(out, reason);
    out.put_byte(b'\n');
}

fn put_bad<W: Write>(out: &mut TextWriter<'_, W>, names: FileNames<'_>, bad: &(LinePlace, Reason))
    ensures { Grows W.contents out.old out.new
        (placed_bad names.entry.script.now names.entry.files.now bad.now) }
{
    let (place, reason) = bad;
    match reason {
        Reason::Unread(name) => put_unread(out, name.as_slice(), reason),
        Reason::LongFile(name) => put_unread(out, name.as_slice(), reason),
        _ => put_bad_line(out, names, *place, reason),
    }
}

fn put_all_bad<W: Write>(
    out: &mut TextWriter<'_, W>,
    names: FileNames<'_>,
    bad: &[(LinePlace, Reason)],
)
    ensures { Grows W.contents out.old out.new
        (flat_map (placed_bad names.entry.script.now names.entry.files.now) bad.now) }
{
    for one in bad {
        put_bad(out, names, one);
    }
}

/// Writes a line for each bad line of a bench script: `FILE:LINE: bad line: REASON`. For a line that includes
/// a file that isn't read it is `FILE: REASON`, with the name of that file.
///
/// # Errors
/// `WriteFailed` at the first error of the writer; what was written then is the beginning of the
/// lines.
pub(crate) fn write_bad_lines<W: Write>(
    names: FileNames<'_>,
    bad: &[(LinePlace, Reason)],
    writer: &mut W,
) -> Result<(), WriteFailed>
    ensures { WritesText (W.contents writer.old) (W.contents writer.new) result
        (flat_map (placed_bad names.entry.script.now names.entry.files.now) bad.now) }
{
    let mut buffer = TextBuffer::empty();
    let mut out = TextWriter::new(writer, &mut buffer);
    put_all_bad(&mut out, names, bad);
    out.finish()
}

/// The last of so many slots, which are counted from 0.
fn put_last<W: Write>(out: &mut TextWriter<'_, W>, slots: u64)
    ensures { Grows W.contents out.old out.new (last_slot_text slots) }
{
    if slots == 0 {
        out.put_text("no slot");
    } else {
        out.put_text("slot ");
        out.put_number(slots - 1);
    }
}

/// The last slot that was finished, and the time.
fn put_moment<W: Write>(out: &mut TextWriter<'_, W>, moment: Moment)
    ensures { Grows W.contents out.old out.new (moment_text moment.slots moment.time_us) }
{
    out.put_text(" (");
    put_last(out, moment.slots);
    out.put_text(", ");
    out.put_number(moment.time_us);
    out.put_text(" us)");
}

/// What is said of a judgement that isn't met, which was made at this moment of a log, without the
/// line's end.
fn put_missed<W: Write>(
    out: &mut TextWriter<'_, W>,
    names: FileNames<'_>,
    cluster: &Cluster,
    moment: Moment,
    judgement: &Judgement,
)
    ensures { AtMoment cluster.now judgement.now moment (λ log.
        Grows W.contents out.old out.new
        (placed_missed names.entry.script.now names.entry.files.now cluster.now log judgement.now)) }
{
    put_placed(out, names, judgement.place);
    put_judged(out, cluster, &judgement.judged);
    put_moment(out, moment);
}

/// Writes the text of a failed expectation, which was checked at this moment of a log. If the script's
/// file has a name, the text begins with the place in it.
fn put_missed_line<W: Write>(
    out: &mut TextWriter<'_, W>,
    script: Option<&str>,
    files: &[ScriptFile],
    cluster: &Cluster,
    moment: Moment,
    judgement: &Judgement,
)
    ensures { AtMoment cluster.now judgement.now moment (λ log.
        Grows W.contents out.old out.new
        (missed_line script.entry files.now cluster.now log judgement.now)) }
{
    match script {
        Some(script) => {
            let names = FileNames { script, files };
            put_missed(out, names, cluster, moment, judgement);
        }
        None => {
            out.put_text("script ");
            put_place_number(out, files, judgement.place);
            put_judged(out, cluster, &judgement.judged);
        }
    }
}

/// The same as a text. An error means out of memory.
pub(crate) fn missed_line(
    alloc: Global,
    script: Option<&str>,
    files: &[ScriptFile],
    cluster: &Cluster,
    moment: Moment,
    judgement: &Judgement,
) -> Result<Vec<u8>, AllocError>
    ensures { AtMoment cluster.now judgement.now moment (λ log. IfOk result
        (λ v. v.items ≡ missed_line script.entry files.now cluster.now log judgement.now)) }
{
    let mut text = Vec::new(alloc);
    let mut buffer = TextBuffer::empty();
    let mut out = TextWriter::new(&mut text, &mut buffer);
    put_missed_line(&mut out, script, files, cluster, moment, judgement);
    match out.finish() {
        Ok(()) => Ok(text),
        Err(_) => Err(AllocError),
    }
}

/// The line of a judgement, which was made at this moment of a log, where it isn't met.
fn put_unmet<W: Write>(
    out: &mut TextWriter<'_, W>,
    names: FileNames<'_>,
    cluster: &Cluster,
    moment: Moment,
    judgement: &Judgement,
)
    ensures { AtMoment cluster.now judgement.now moment (λ log.
        Grows W.contents out.old out.new
        (placed_unmet names.entry.script.now names.entry.files.now cluster.now log judgement.now)) }
{
    if is_unmet(&judgement.judged) {
        put_missed(out, names, cluster, moment, judgement);
        out.put_byte(b'\n');
    }
}

/// As many entries as a log has at most.
pub(crate) fn within(log: &Log, entries: usize) -> usize
    ensures there { result ≤ length log.now.entries }
    ensures few { result < 2 ^ 32 }
    ensures count { result ≡ min entries (length log.now.entries) }
    ensures same { past_at log.now.entries result ≡ past_at log.now.entries entries }
{
    entries.min(log.len())
}

fn put_all_unmet<W: Write>(
    out: &mut TextWriter<'_, W>,
    names: FileNames<'_>,
    cluster: &Cluster,
    log: &Log,
    judgements: &[Judgement],
)
    ensures { Grows W.contents out.old out.new
        (flat_map (placed_unmet names.entry.script.now names.entry.files.now cluster.now log.now.entries)
        judgements.now) }
{
    let mut read = 0;
    let mut moment = Moment::new();
    for one in judgements {
        let entries = within(log, one.entries);
        moment = moment.at(cluster, log, read, entries);
        read = entries;
        put_unmet(out, names, cluster, moment, one);
    }
}

/// Writes a line for each judgement that isn't met, in order:
/// `FILE:LINE: expected WHAT: GOT (slot N, T us)`, with the number, from 0, of the last slot that
/// was finished when it was judged, and the time in microseconds.
///
/// # Errors
/// `WriteFailed` at the first error of the writer; what was written then is the beginning of the
/// lines.
pub(crate) fn write_placed_unmet<W: Write>(
    names: FileNames<'_>,
    cluster: &Cluster,
    log: &Log,
    judgements: &[Judgement],
    writer: &mut W,
) -> Result<(), WriteFailed>
    ensures { WritesText (W.contents writer.old) (W.contents writer.new) result
        (flat_map (placed_unmet names.entry.script.now names.entry.files.now cluster.now log.now.entries)
        judgements.now) }
{
    let mut buffer = TextBuffer::empty();
    let mut out = TextWriter::new(writer, &mut buffer);
    put_all_unmet(&mut out, names, cluster, log, judgements);
    out.finish()
}
