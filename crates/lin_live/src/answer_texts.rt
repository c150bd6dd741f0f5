//! The answers to lines.

ghost use Rattle.std.specs.Prelude.{◌≡◌, ◌∷◌, ◌≤◌, ◌<◌, ◌==◌, [], IfOk, IfSome, Option, codes, drop};
ghost use Rattle.std.specs.Prelude.{flat_map, if◌then◌else◌, length, map, reverse, take};
ghost use Rattle.lin_export.specs.Named.{named_from};
ghost use Rattle.lin_export.specs.WhereTold.{given_coding};
ghost use Rattle.lin_frame.specs.Words.{numbers};
ghost use Rattle.lin_log.specs.Language.{Language, named_language, plain};
ghost use Rattle.lin_log.specs.Shown.{as_word};
ghost use Rattle.lin_log.specs.Words.{text};
ghost use Rattle.lin_log.specs.Words.Word.{Fixed};
ghost use Rattle.lin_parts.specs.Cluster.{nodes};
ghost use Rattle.lin_parts.specs.declared.parts.Parts.{Parts};
ghost use Rattle.lin_text.specs.Written.{Grows, WritesText};
ghost use Rattle.lin_live.specs.Held.{IsBoxedTrack, WritesLine, hash_line_ending, value_line};
ghost use Rattle.lin_bench.specs.LineWords.{spaced_words};
ghost use Rattle.lin_live.specs.Told.{bad_line_words, hash_ending, hash_line, question_reason_text, question_reason_words};
ghost use Rattle.lin_live.specs.Told.{steps_ending};
ghost use Rattle.lin_live.specs.Values.{addressed_node, as_said, idle_words, node_words, rule_words, said_text};
ghost use Rattle.lin_live.specs.Values.{slot_words, value_words};
ghost use Rattle.lin_values.specs.Coded.{CodedData};

use crate::answer_value::{AnswerValue, unboxed};
use crate::reason::Reason;
use crate::versions::{OBJECTS_VERSION, PROGRAM_VERSION};
use lin_bench::{
    Pending, Verdict, WordList, first_refusal, put_all_after, put_pending, put_verdict,
    put_word_list, reason_line,
};
use lin_core::{Core, Event, Listed, Log, Refusal};
use lin_export::{
    Track, address_word, named_text, put_last_slot, put_line_meaning, put_slot_names,
};
use lin_frame::Value;
use lin_log::{Naming, NumberNaming, Word, put_entries, put_number, put_table};
use lin_parts::Cluster;
use lin_text::{Text, TextBuffer, TextWriter, WriteFailed};
use lin_values::Coded;
use std::alloc::{AllocError, Global};
use std::io::Write;

/// A last line: `#`, and words.
fn put_hash_line<N: Naming, W: Write>(out: &mut TextWriter<'_, W>, names: &N, words: &[Word<'_>])
    ensures { Grows W.contents out.old out.new
        (hash_line (N.language names.now) (map as_word words.now)) }
{
    out.put_byte(b'#');
    put_all_after(out, names, words);
    out.put_byte(b'\n');
}

/// A last line that nothing was refused.
fn put_ok<W: Write>(out: &mut TextWriter<'_, W>)
    ensures { (l : Language) → Grows W.contents out.old out.new
        (hash_line l (Fixed (codes "ok") ∷ [])) }
{
    out.put_text("# ok\n");
}

/// Writes that nothing was refused.
pub(crate) fn write_ok<W: Write>(writer: &mut W, buffer: &mut TextBuffer) -> Result<(), WriteFailed>
    ensures { WritesText (W.contents writer.old) (W.contents writer.new) result
        (hash_line plain (Fixed (codes "ok") ∷ [])) }
{
    let mut out = TextWriter::new(writer, buffer);
    put_ok(&mut out);
    out.finish()
}

/// Why a line is bad.
fn question_reason_line(reason: &Reason) -> WordList<'_>
    ensures { result ≡ question_reason_words reason.now }
{
    match reason {
        Reason::Script(reason) => return reason_line(reason),
        Reason::AskForm => return WordList::of(&[Word::Fixed("missing question after ?")]),
        Reason::UnknownQuestion(fields) => return WordList::of(&[
            Word::Fixed("unknown question"),
            Word::Fields(fields.as_slice()),
        ]),
        Reason::MarkForm => return WordList::of(&[Word::Fixed("usage: mark NAME")]),
        Reason::BackForm => return WordList::of(&[Word::Fixed("usage: back NAME")]),
        Reason::NoName(field) => return WordList::of(&[
            Word::Fixed("expected a name, not"),
            Word::Said(field.as_slice()),
        ]),
        Reason::StartMark => {
            return WordList::of(&[Word::Fixed("start is the mark of the beginning")]);
        }
        Reason::NoMark(name) => return WordList::of(&[
            Word::Fixed("unknown mark"),
            Word::Said(name.as_slice()),
        ]),
        Reason::TooLong => {
            return WordList::of(&[Word::Fixed("the line has more than 16,777,216 bytes")]);
        }
    }
}

/// Why a line is bad.
pub(crate) fn put_why<W: Write>(out: &mut TextWriter<'_, W>, reason: &Reason)
    ensures { Grows W.contents out.old out.new (question_reason_text reason.now) }
{
    put_word_list(out, &NumberNaming, &question_reason_line(reason));
}

/// Writes that a line is bad, and why.
pub(crate) fn write_bad<W: Write>(
    writer: &mut W,
    buffer: &mut TextBuffer,
    reason: &Reason,
) -> Result<(), WriteFailed>
    ensures { WritesText (W.contents writer.old) (W.contents writer.new) result
        (hash_line plain (bad_line_words reason.now)) }
{
    let mut out = TextWriter::new(writer, buffer);
    out.put_text("# bad line: ");
    put_why(&mut out, reason);
    out.put_byte(b'\n');
    out.finish()
}

/// What waits, and what is noted, after a space.
#[inline(never)]
fn put_idle<W: Write>(out: &mut TextWriter<'_, W>, cluster: &Cluster, pending: &[Pending])
    ensures { Grows W.contents out.old out.new
        (spaced_words (named_language cluster.now) (idle_words pending.now)) }
{
    match pending {
        [] => out.put_text(" idle"),
        [_, ..] => {
            out.put_byte(b' ');
            put_pending(out, cluster, pending);
        }
    }
}

/// The table, the entry and the frame of a slot, after a space.
#[inline(never)]
fn put_slot<W: Write>(
    out: &mut TextWriter<'_, W>,
    cluster: &Cluster,
    table: u16,
    entry: u16,
    header: Option<u8>,
)
    ensures { Grows W.contents out.old out.new
        (spaced_words (named_language cluster.now) (slot_words cluster.now (table, entry) header)) }
{
    put_table(out, cluster, table);
    put_number(out, entry);
    let slot = Event::Slot {
        table,
        entry,
        header,
    };
    put_slot_names(out, cluster, &slot);
}

/// A value of a signal and, if the encodings are given, its meaning, each after a space.
#[inline(never)]
fn put_signal<W: Write>(
    out: &mut TextWriter<'_, W>,
    cluster: &Cluster,
    coded: Option<&Coded>,
    signal: u16,
    value: &Value,
)
    ensures { Grows W.contents out.old out.new (spaced_words (named_language cluster.now)
        (value_words (given_coding coded.entry) signal value.now)) }
{
    put_all_after(out, cluster, &[Word::Value(value)]);
    let Some(coded) = coded else {
        return;
    };
    let Some(meaning) = coded.meaning(signal, value) else {
        return;
    };
    out.put_byte(b' ');
    put_line_meaning(out, &meaning);
}

/// A node with its diagnostic address, `-` for none, after a space.
fn put_node<W: Write>(out: &mut TextWriter<'_, W>, cluster: &Cluster, node: u8)
    requires { node < nodes cluster.now }
    ensures { Grows W.contents out.old out.new
        (spaced_words (named_language cluster.now) (addressed_node cluster.now node)) }
{
    let address = address_word(cluster.nad(node));
    put_all_after(out, cluster, &[Word::Node(node), address]);
}

/// What precedes a node in a list: a comma, except for the first one.
fn put_gap<W: Write>(out: &mut TextWriter<'_, W>, node: usize)
    ensures { Grows W.contents out.old out.new (if node == 0 then [] else codes ",") }
{
    if node > 0 {
        out.put_byte(b',');
    }
}

/// The nodes with their diagnostic addresses, after a space.
#[inline(never)]
fn put_nodes<W: Write>(out: &mut TextWriter<'_, W>, cluster: &Cluster)
    ensures { Grows W.contents out.old out.new (spaced_words (named_language cluster.now)
        (flat_map (node_words cluster.now) (numbers (nodes cluster.now)))) }
{
    for node in 0..cluster.nodes() {
        put_gap(out, node);
        put_node(out, cluster, node as u8);
    }
}

/// The lines of rules, after a space.
#[inline(never)]
fn put_rules<W: Write>(out: &mut TextWriter<'_, W>, cluster: &Cluster, lines: &[Text])
    ensures { Grows W.contents out.old out.new
        (spaced_words (named_language cluster.now) (rule_words lines.now)) }
{
    match lines {
        [] => out.put_text(" none"),
        [_, ..] => put_all_after(out, cluster, &[Word::Lines(lines)]),
    }
}

/// The value that answers a question, after a space.
pub(crate) fn put_answer<W: Write>(
    out: &mut TextWriter<'_, W>,
    cluster: &Cluster,
    coded: Option<&Coded>,
    value: &AnswerValue,
)
    ensures { Grows W.contents out.old out.new
        (said_text cluster.now (given_coding coded.entry) (as_said cluster.now value.now)) }
{
    match value {
        AnswerValue::Signal { signal, value } => put_signal(out, cluster, coded, *signal, value),
        AnswerValue::Number(number) => put_number(out, *number),
        AnswerValue::Pending(pending) => put_idle(out, cluster, pending.as_slice()),
        AnswerValue::Asleep(true) => out.put_text(" asleep"),
        AnswerValue::Asleep(false) => out.put_text(" awake"),
        AnswerValue::Open => out.put_text(" open"),
        AnswerValue::Slot {
            table,
            entry,
            header,
        } => put_slot(out, cluster, *table, *entry, *header),
        AnswerValue::Version => put_all_after(
            out,
            cluster,
            &[
                Word::Fixed(PROGRAM_VERSION),
                Word::Number(u64::from(OBJECTS_VERSION)),
            ],
        ),
        AnswerValue::Nodes => put_nodes(out, cluster),
        AnswerValue::LastSlot(last) => put_last_slot(out, cluster, unboxed(last)),
        AnswerValue::Rules(lines) => put_rules(out, cluster, lines.as_slice()),
    }
}

/// Writes the answer to a question.
pub(crate) fn write_value<W: Write>(
    writer: &mut W,
    buffer: &mut TextBuffer,
    cluster: &Cluster,
    coded: Option<&Coded>,
    value: &AnswerValue,
) -> Result<(), WriteFailed>
    ensures { WritesText (W.contents writer.old) (W.contents writer.new) result
        (value_line cluster.now coded.entry value.now) }
{
    let mut out = TextWriter::new(writer, buffer);
    out.put_text("# is");
    put_answer(&mut out, cluster, coded, value);
    out.put_byte(b'\n');
    out.finish()
}

/// That the steps of a line were done, or the first that was refused.
fn put_steps_ending<W: Write>(out: &mut TextWriter<'_, W>, refusal: Option<Refusal>)
    ensures { (c : Parts) (k : Option CodedData) → Grows W.contents out.old out.new
        (hash_ending c k (steps_ending refusal)) }
{
    match refusal {
        None => put_ok(out),
        Some(refusal) => put_hash_line(
            out,
            &NumberNaming,
            &[
                Word::Fixed("refused"),
                Word::Number(u64::from(refusal.number())),
                Word::Fixed(refusal.word()),
            ],
        ),
    }
}

/// What a line came to, whose entries are those of the log from one on.
fn put_verdict_ending<W: Write>(
    out: &mut TextWriter<'_, W>,
    core: &Core,
    from: usize,
    verdict: &Verdict,
)
    ensures { (k : Option CodedData) → Grows W.contents out.old out.new
        (hash_line_ending core.now from k verdict.now) }
{
    match verdict {
        Verdict::SlotLimit => put_hash_line(out, &NumberNaming, &[Word::Fixed("slot limit")]),
        Verdict::Unmet(expected, got) => {
            out.put_byte(b'#');
            put_verdict(out, core.cluster(), expected, got);
        }
        Verdict::Nothing | Verdict::Met(_) => {
            put_steps_ending(out, first_refusal(core.log(), from));
        }
    }
}

/// Writes the entries of a line by numbers, which are those of the log from one on, and what it came
/// to.
pub(crate) fn write_line<W: Write>(
    writer: &mut W,
    buffer: &mut TextBuffer,
    core: &Core,
    from: usize,
    verdict: &Verdict,
) -> Result<(), WriteFailed>
    ensures { WritesLine (W.contents writer.old) (W.contents writer.new) result
        (text (drop from core.now.log)) core.now from verdict.now }
{
    let mut out = TextWriter::new(writer, buffer);
    put_entries(&mut out, core.log(), from);
    put_verdict_ending(&mut out, core, from, verdict);
    out.finish()
}

/// Returns the track of the entries of a log before one. An error means out of memory.
#[inline(never)]
fn boxed_track(alloc: Global, core: &Core, from: usize) -> Result<Box<Track>, AllocError>
    requires { from ≤ length core.now.log }
    ensures { IfOk result (IsBoxedTrack core.now.cluster (reverse (take from core.now.log))) }
{
    let track = Track::up_to(alloc, core.cluster(), core.log(), from)?;
    Ok(Box::new(alloc, track)?)
}

/// Returns the text of the entries of a log from one on with names, and the track of all entries. The entries
/// before are read again if their track isn't at hand. An error means out of memory.
pub(crate) fn with_names(
    alloc: Global,
    core: &Core,
    coded: Option<&Coded>,
    track: Option<Box<Track>>,
    from: usize,
) -> Result<(Vec<u8>, Box<Track>), AllocError>
    requires there { from ≤ length core.now.log }
    requires track { IfSome track (IsBoxedTrack core.now.cluster (reverse (take from core.now.log))) }
    ensures text { IfOk result (λ made. made.0.items
        ≡ named_from core.now.cluster (given_coding coded.entry) core.now.log from) }
    ensures track { IfOk result (λ made. IsBoxedTrack core.now.cluster (reverse core.now.log) made.1) }
{
    let mut track = match track {
        Some(track) => track,
        None => boxed_track(alloc, core, from)?,
    };
    let text = named_text(alloc, &mut *track, core.cluster(), coded, core.log(), from)?;
    Ok((text, track))
}

/// Writes the text of the entries of a line with names, which are those of the log from one on, and how
/// the line ends.
pub(crate) fn write_named_line<W: Write>(
    writer: &mut W,
    buffer: &mut TextBuffer,
    core: &Core,
    from: usize,
    entries: &[u8],
    verdict: &Verdict,
) -> Result<(), WriteFailed>
    ensures { WritesLine (W.contents writer.old) (W.contents writer.new) result
        entries.now core.now from verdict.now }
{
    let mut out = TextWriter::new(writer, buffer);
    out.put(entries);
    put_verdict_ending(&mut out, core, from, verdict);
    out.finish()
}
