//! Answers as objects of JSON (RFC 8259), one a line.

ghost use Rattle.std.specs.Prelude.{◌≡◌, ◌++◌, ◌<◌, ◌≤◌, IfOk, IfSome, None, Option, drop};
ghost use Rattle.std.specs.Prelude.{flat_map, length, map, reverse, take};
ghost use Rattle.lin_export.specs.Csv.{after_comma};
ghost use Rattle.lin_export.specs.Json.{printable_text, with_commas};
ghost use Rattle.lin_export.specs.Jsonl.{objects_from};
ghost use Rattle.lin_export.specs.Members.{member_shown};
ghost use Rattle.lin_export.specs.WhereTold.{given_coding};
ghost use Rattle.lin_frame.specs.Words.{numbers};
ghost use Rattle.lin_parts.specs.Cluster.{nodes};
ghost use Rattle.lin_parts.specs.declared.parts.Parts.{Parts};
ghost use Rattle.lin_text.specs.Written.{Grows, WritesText};
ghost use Rattle.lin_live.specs.Held.{IsBoxedTrackOf, WritesLineObject, ending_of, value_object};
ghost use Rattle.lin_live.specs.Serving.{WritesAlone};
ghost use Rattle.lin_live.specs.Told.{Bad, answer_beginning, answer_object, object_ending, question_reason_text};
ghost use Rattle.lin_live.specs.Told.{steps_ending, verdict_ending};
ghost use Rattle.lin_live.specs.Values.{as_said, node_value, said_members, said_text, versions_value};
ghost use Rattle.lin_values.specs.Coded.{CodedData};

use crate::answer_texts::{put_answer, put_why};
use crate::answer_value::{AnswerValue, unboxed};
use crate::check_texts::{found_text, what_text, without_space};
use crate::fault::Fault;
use crate::reason::Reason;
use crate::versions::{OBJECTS_VERSION, PROGRAM_VERSION};
use lin_bench::{Judged, Verdict, first_refusal};
use lin_core::{Core, Listed, Refusal};
use lin_export::{
    Member, ObjectTrack, nad_member, objects_text, put_first, put_key, put_last_slot_value,
    put_meant, put_member, put_members, put_printable, put_separator, put_type, put_value_member,
};
use lin_parts::Cluster;
use lin_text::{Text, TextBuffer, TextWriter, WriteFailed};
use lin_values::Coded;
use std::alloc::{AllocError, Global};
use std::io::Write;

/// The beginning of the last object of an answer: how the answer ends.
fn put_end<W: Write>(out: &mut TextWriter<'_, W>, end: &str)
    ensures { Grows W.contents out.old out.new (answer_beginning end.now) }
{
    put_type(out, "answer");
    put_member(out, Member::Text("end", end.as_bytes()));
}

/// Writes objects, and after them the last one of an answer.
pub(crate) fn write_object<W: Write>(
    writer: &mut W,
    buffer: &mut TextBuffer,
    told: &[u8],
    end: &str,
    members: &[Member<'_>],
) -> Result<(), WriteFailed>
    ensures { WritesText (W.contents writer.old) (W.contents writer.new) result
        (told.now ++ answer_object end.now (map member_shown members.now)) }
{
    let mut out = TextWriter::new(writer, buffer);
    out.put(told);
    put_end(&mut out, end);
    put_members(&mut out, members);
    out.put(b"}\n");
    out.finish()
}

/// Why a line is bad, as a text. An error means out of memory.
fn reason_text(
    alloc: Global,
    buffer: &mut TextBuffer,
    reason: &Reason,
) -> Result<Vec<u8>, AllocError>
    ensures { IfOk result (λ v. v.items ≡ question_reason_text reason.now) }
{
    let mut text = Vec::new(alloc);
    let mut out = TextWriter::new(&mut text, buffer);
    put_why(&mut out, reason);
    match out.finish() {
        Ok(()) => Ok(text),
        Err(_) => Err(AllocError),
    }
}

/// Writes that a line is bad, and why.
pub(crate) fn write_bad_object<W: Write>(
    alloc: Global,
    writer: &mut W,
    buffer: &mut TextBuffer,
    reason: &Reason,
) -> Result<(), Fault>
    ensures { (c : Parts) (k : Option CodedData) → WritesAlone (W.contents writer.old) (W.contents writer.new)
        (object_ending c k (Bad reason.now)) result }
{
    let text = reason_text(alloc, buffer, reason)?;
    let why = Member::Printable("reason", text.as_slice());
    write_object(writer, buffer, &[], "bad line", &[why])?;
    Ok(())
}

/// The answer to a question as words, after a space. An error means out of memory.
fn words_of(
    alloc: Global,
    buffer: &mut TextBuffer,
    cluster: &Cluster,
    value: &AnswerValue,
) -> Result<Vec<u8>, AllocError>
    ensures { IfOk result (λ v. v.items
        ≡ said_text cluster.now None (as_said cluster.now value.now)) }
{
    let mut text = Vec::new(alloc);
    let mut out = TextWriter::new(&mut text, buffer);
    put_answer(&mut out, cluster, None, value);
    match out.finish() {
        Ok(()) => Ok(text),
        Err(_) => Err(AllocError),
    }
}

/// The versions of the program and of its objects.
fn put_versions<W: Write>(out: &mut TextWriter<'_, W>)
    ensures { Grows W.contents out.old out.new versions_value }
{
    put_first(out, "program", PROGRAM_VERSION.as_bytes());
    put_member(out, Member::Number("answers", u64::from(OBJECTS_VERSION)));
    out.put_byte(b'}');
}

/// A node with its diagnostic address.
fn put_node<W: Write>(out: &mut TextWriter<'_, W>, cluster: &Cluster, node: u8)
    requires { node < nodes cluster.now }
    ensures { Grows W.contents out.old out.new (node_value cluster.now node) }
{
    put_first(out, "name", cluster.node_name(node));
    put_member(out, nad_member(cluster, node));
    out.put_byte(b'}');
}

/// The nodes with their diagnostic addresses.
fn put_nodes<W: Write>(out: &mut TextWriter<'_, W>, cluster: &Cluster)
    ensures { Grows W.contents out.old out.new
        (with_commas (map (node_value cluster.now) (numbers (nodes cluster.now)))) }
{
    for node in 0..cluster.nodes() {
        put_separator(out, node);
        put_node(out, cluster, node as u8);
    }
}

/// The lines of rules as texts with a comma between two.
fn put_rule_values<W: Write>(out: &mut TextWriter<'_, W>, lines: &[Text])
    ensures { Grows W.contents out.old out.new (with_commas (map printable_text lines.now)) }
{
    for place in 0..lines.len() {
        put_separator(out, place);
        put_printable(out, lines[place].as_slice());
    }
}

/// The answer to a question as a member and, if the encodings are given, the meaning of a signal's
/// value. The answer is also given as words, after a space.
fn put_said<W: Write>(
    out: &mut TextWriter<'_, W>,
    cluster: &Cluster,
    coded: Option<&Coded>,
    value: &AnswerValue,
    words: &[u8],
)
    requires { words.now ≡ said_text cluster.now None (as_said cluster.now value.now) }
    ensures { Grows W.contents out.old out.new (flat_map after_comma
        (said_members cluster.now (given_coding coded.entry) (as_said cluster.now value.now))) }
{
    match value {
        AnswerValue::Signal { signal, value } => {
            put_value_member(out, value);
            put_meant(out, "text", coded, *signal, value);
        }
        AnswerValue::Number(number) => put_member(out, Member::Number("value", *number)),
        AnswerValue::Version => {
            put_key(out, "value");
            put_versions(out);
        }
        AnswerValue::Nodes => {
            put_key(out, "value");
            out.put_byte(b'[');
            put_nodes(out, cluster);
            out.put_byte(b']');
        }
        AnswerValue::LastSlot(last) => {
            put_key(out, "value");
            put_last_slot_value(out, cluster, unboxed(last));
        }
        AnswerValue::Rules(lines) => {
            put_key(out, "value");
            out.put_byte(b'[');
            put_rule_values(out, lines.as_slice());
            out.put_byte(b']');
        }
        AnswerValue::Pending(_)
        | AnswerValue::Asleep(_)
        | AnswerValue::Open
        | AnswerValue::Slot { .. } => put_member(out, Member::Text("value", without_space(words))),
    }
}

/// Writes the answer to a question, which is also given as words after a space.
fn write_said<W: Write>(
    writer: &mut W,
    buffer: &mut TextBuffer,
    cluster: &Cluster,
    coded: Option<&Coded>,
    value: &AnswerValue,
    words: &[u8],
) -> Result<(), WriteFailed>
    requires { words.now ≡ said_text cluster.now None (as_said cluster.now value.now) }
    ensures { WritesText (W.contents writer.old) (W.contents writer.new) result
        (value_object cluster.now coded.entry value.now) }
{
    let mut out = TextWriter::new(writer, buffer);
    put_end(&mut out, "is");
    put_said(&mut out, cluster, coded, value, words);
    out.put(b"}\n");
    out.finish()
}

/// Writes the answer to a question.
#[inline(never)]
pub(crate) fn write_value_object<W: Write>(
    alloc: Global,
    writer: &mut W,
    buffer: &mut TextBuffer,
    cluster: &Cluster,
    coded: Option<&Coded>,
    value: &AnswerValue,
) -> Result<(), Fault>
    ensures { WritesAlone (W.contents writer.old) (W.contents writer.new)
        (value_object cluster.now coded.entry value.now) result }
{
    let words = words_of(alloc, buffer, cluster, value)?;
    write_said(writer, buffer, cluster, coded, value, words.as_slice())?;
    Ok(())
}

/// Returns the track of the entries of a log before one. An error means out of memory.
#[inline(never)]
fn boxed_track(alloc: Global, core: &Core, from: usize) -> Result<Box<ObjectTrack>, AllocError>
    requires { from ≤ length core.now.log }
    ensures { IfOk result (IsBoxedTrackOf core.now.cluster (reverse (take from core.now.log))) }
{
    let track = ObjectTrack::up_to(alloc, core.cluster(), core.log(), from)?;
    Ok(Box::new(alloc, track)?)
}

/// Returns the objects of the entries of a log from one on, and the track of all entries. The entries
/// before are read again if their track isn't at hand. An error means out of memory.
pub(crate) fn with_objects(
    alloc: Global,
    core: &Core,
    coded: Option<&Coded>,
    objects: Option<Box<ObjectTrack>>,
    from: usize,
) -> Result<(Vec<u8>, Box<ObjectTrack>), AllocError>
    requires there { from ≤ length core.now.log }
    requires track { IfSome objects (IsBoxedTrackOf core.now.cluster (reverse (take from core.now.log))) }
    ensures text { IfOk result (λ made. made.0.items
        ≡ objects_from core.now.cluster (given_coding coded.entry) core.now.log from) }
    ensures track { IfOk result (λ made.
        IsBoxedTrackOf core.now.cluster (reverse core.now.log) made.1) }
{
    let mut track = match objects {
        Some(track) => track,
        None => boxed_track(alloc, core, from)?,
    };
    let text = objects_text(alloc, &mut *track, core.cluster(), coded, core.log(), from)?;
    Ok((text, track))
}

/// How a line ends.
#[derive(Drop)]
pub(crate) enum LineEnding {
    Fine,
    Limit,
    /// What was expected, and what is so instead, each after a space.
    Failed { what: Vec<u8>, got: Vec<u8> },
    Refused(Refusal),
}

/// How a line without a failed check ends: its first refusal counts.
fn steps_ending(refusal: Option<Refusal>) -> LineEnding
    ensures { ending_of result ≡ steps_ending refusal }
{
    match refusal {
        None => LineEnding::Fine,
        Some(refusal) => LineEnding::Refused(refusal),
    }
}

/// How a line ends, whose entries are those of the log from one on. An error means out of memory.
#[inline(never)]
pub(crate) fn line_ending(
    alloc: Global,
    core: &Core,
    from: usize,
    verdict: Verdict,
) -> Result<LineEnding, AllocError>
    ensures { IfOk result (λ ending. ending_of ending
        ≡ verdict_ending core.now.cluster verdict (drop from core.now.log)) }
{
    match verdict {
        Verdict::SlotLimit => Ok(LineEnding::Limit),
        Verdict::Unmet(expected, got) => {
            let judged = Judged::Unmet(expected, got);
            let what = what_text(alloc, core.cluster(), &judged)?;
            let got = found_text(alloc, core.cluster(), &judged)?;
            Ok(LineEnding::Failed { what, got })
        }
        Verdict::Nothing | Verdict::Met(_) => Ok(steps_ending(first_refusal(core.log(), from))),
    }
}

/// Writes how a line ends, after the objects of its entries.
#[inline(never)]
pub(crate) fn write_line_object<W: Write>(
    writer: &mut W,
    buffer: &mut TextBuffer,
    told: &[u8],
    ending: &LineEnding,
) -> Result<(), WriteFailed>
    ensures { WritesLineObject (W.contents writer.old) (W.contents writer.new) result
        told.now ending.now }
{
    match ending {
        LineEnding::Fine => write_object(writer, buffer, told, "ok", &[]),
        LineEnding::Limit => write_object(writer, buffer, told, "slot limit", &[]),
        LineEnding::Failed { what, got } => write_object(
            writer,
            buffer,
            told,
            "expected",
            &[
                Member::Printable("what", without_space(what.as_slice())),
                Member::Printable("got", without_space(got.as_slice())),
            ],
        ),
        LineEnding::Refused(refusal) => write_object(
            writer,
            buffer,
            told,
            "refused",
            &[
                Member::Number("number", u64::from(refusal.number())),
                Member::Text("name", refusal.word().as_bytes()),
            ],
        ),
    }
}
