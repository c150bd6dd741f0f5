//! `--explain` of a bad line of a bench script: the line, and the names that there are.

ghost use Rattle.std.specs.Prelude.{◌<◌, length};

use crate::explaining::{put_line, put_shown};
use crate::fault_text::FaultReason;
use crate::play_command::given_names;
use lin_bench::{
    FileText, LineFault, LinePlace, Reason, Source, file_text, parameter_of_line, present_signal,
};
use lin_core::{Listed, Refusal};
use lin_log::{Reason as StepReason, first_field, first_line, without_return};
use lin_parts::Cluster;
use std::alloc::{AllocError, Global};
use strsim::generic_damerau_levenshtein;

/// How many bytes of a name are compared.
const COMPARED: usize = 64;

/// The words that a line begins with.
static WORDS: [&str; 30] = [
    "send",
    "write",
    "open",
    "answer",
    "leave",
    "hurt",
    "finish",
    "timeout",
    "switch",
    "sleep",
    "wake",
    "close",
    "slot",
    "slots",
    "expect",
    "forget",
    "test",
    "set",
    "repeat",
    "end",
    "include",
    "when",
    "state",
    "node",
    "on",
    "timeouts",
    "every",
    "response_errors",
    "services",
    "bus",
];

/// The frames of messages.
static MESSAGE_FRAMES: [&str; 2] = ["MasterReq", "SlaveResp"];

/// What `expect` and `until` take.
const FORMS: &str =
    "signal NODE SIGNAL VALUE (LOW..HIGH, = TEXT), waiting NODE K, message FROM TO PATTERN \
                     (within N ms (of last)), next message FROM TO PATTERN, messages FROM TO K (LOW..HIGH), \
                     sent NODE, lost NODE damaged (timedout, slept), seen silent (none, good, damaged, collided), frame NAME (PATTERN), slot TABLE ENTRY, table TABLE, cycle FRAME T (+- D) ms, asleep, awake, not signal .. (waiting, \
                     messages, seen, frame, slot)";

/// What `while` takes of these.
const HOLDING: &str =
    "signal NODE SIGNAL VALUE (LOW..HIGH, = TEXT), waiting NODE K, messages FROM TO K (LOW..HIGH), seen silent \
                       (none, good, damaged, collided), frame NAME (PATTERN), slot TABLE ENTRY, table TABLE, cycle FRAME T (+- D) ms, asleep, awake, not signal .. (waiting, \
                       messages, seen, frame, slot)";

/// What `on` takes.
const CALLING: &str =
    "signal NODE SIGNAL VALUE (LOW..HIGH, = TEXT), changed NODE SIGNAL, seen silent \
                       (none, good, damaged, collided), frame NAME (PATTERN), slot TABLE ENTRY, \
                       not signal .. (seen, frame, slot)";

/// The forms of faults.
const FAULTS: &str =
    "SLOT:damage, SLOT:absent:NODE, FIRST..LAST in place of SLOT for slots, or FIRST.. to the end; \
                      + between several";

/// The beginning of a name.
fn beginning(name: &[u8]) -> &[u8] {
    name.get(..COMPARED).unwrap_or(name)
}

/// How many edits two names are apart by their beginnings: bytes that are put in, left out or replaced,
/// and neighbours that are exchanged.
pub(crate) fn edits_between(alloc: Global, a: &[u8], b: &[u8]) -> Result<usize, AllocError> {
    generic_damerau_levenshtein(alloc, beginning(a), beginning(b))
}

/// Puts names, the ones nearest to the name that was read first.
fn put_nearest(
    alloc: Global,
    out: &mut String,
    things: &str,
    names: &[&[u8]],
    read: &[u8],
) -> Result<(), AllocError> {
    let mut near: Vec<(usize, &[u8])> = Vec::new(alloc);
    for name in names {
        near.push((edits_between(alloc, name, read)?, *name))?;
    }
    near.as_mut_slice().sort_by_key(alloc, |pair| pair.0)?;
    write!(out, "  valid {things}, most similar first:")?;
    for (_, name) in near.iter() {
        out.push_str(" ")?;
        put_shown(out, name)?;
    }
    out.push_str("\n")
}

fn put_nodes(
    alloc: Global,
    out: &mut String,
    cluster: &Cluster,
    read: &[u8],
) -> Result<(), AllocError> {
    let mut names = Vec::new(alloc);
    for node in 0..cluster.nodes() as u8 {
        names.push(cluster.node_name(node))?;
    }
    put_nearest(alloc, out, "nodes", names.as_slice(), read)
}

fn put_signals(
    alloc: Global,
    out: &mut String,
    cluster: &Cluster,
    read: &[u8],
) -> Result<(), AllocError> {
    let mut names = Vec::new(alloc);
    for signal in 0..cluster.signals() as u16 {
        names.push(cluster.signal_name(signal))?;
    }
    put_nearest(alloc, out, "signals", names.as_slice(), read)
}

fn has_name(names: &[&[u8]], name: &[u8]) -> bool {
    names.iter().any(|other| *other == name)
}

/// Whether a node publishes or subscribes a signal.
fn takes_part(cluster: &Cluster, node: u8, signal: u16) -> bool
    requires { signal < length cluster.now.signals }
{
    let mut subscribers = cluster.subscribers(signal).iter();
    cluster.publisher(signal) == node || subscribers.any(|other| *other == node)
}

/// Puts the nodes that publish or subscribe a signal.
fn put_nodes_with(
    alloc: Global,
    out: &mut String,
    cluster: &Cluster,
    signal: u16,
    read: &[u8],
) -> Result<(), AllocError>
    requires { signal < length cluster.now.signals }
{
    let mut names = Vec::new(alloc);
    for node in 0..cluster.nodes() as u8 {
        if takes_part(cluster, node, signal) {
            names.push(cluster.node_name(node))?;
        }
    }
    put_nearest(alloc, out, "nodes", names.as_slice(), read)
}

/// Puts the nodes that publish or subscribe the signal with a name or a number.
fn put_nodes_of(
    alloc: Global,
    out: &mut String,
    cluster: &Cluster,
    signal: &[u8],
    read: &[u8],
) -> Result<(), AllocError> {
    match present_signal(alloc, cluster, signal) {
        Ok(number) if usize::from(number) < cluster.signals() => {
            put_nodes_with(alloc, out, cluster, number, read)
        }
        Err(LineFault::OutOfMemory) => Err(AllocError),
        _ => Ok(()),
    }
}

/// The name of the parameter that a line sets, if it sets one. An error means out of memory.
fn set_name<'a>(
    alloc: Global,
    cluster: &Cluster,
    line: &'a [u8],
) -> Result<Option<&'a [u8]>, AllocError> {
    let Some((word, rest)) = first_field(cluster, line) else {
        return Ok(None);
    };
    if word != b"set".as_slice() {
        return Ok(None);
    }
    match parameter_of_line(alloc, cluster, rest) {
        Ok(_) => match first_field(cluster, rest) {
            Some((name, _)) => Ok(Some(name)),
            None => Ok(None),
        },
        Err(LineFault::Bad(_)) => Ok(None),
        Err(LineFault::OutOfMemory) => Err(AllocError),
    }
}

/// Adds the names of the parameters that the lines of a text set, each once.
fn add_set_names<'a>(
    alloc: Global,
    names: &mut Vec<&'a [u8]>,
    cluster: &Cluster,
    text: &'a [u8],
) -> Result<(), AllocError> {
    let mut rest = text;
    for _ in 0..text.len() {
        let (line, others) = first_line(rest);
        if let Some(name) = set_name(alloc, cluster, without_return(line))?
            && !has_name(names.as_slice(), name)
        {
            names.push(name)?;
        }
        match others {
            Some(others) => rest = others,
            None => return Ok(()),
        }
    }
    Ok(())
}

/// Puts the names of the parameters that are given with a script, or that a line of it sets.
fn put_parameters(
    alloc: Global,
    out: &mut String,
    cluster: &Cluster,
    script: Source<'_>,
    read: &[u8],
) -> Result<(), AllocError> {
    let mut names = given_names(alloc, script.given)?;
    add_set_names(alloc, &mut names, cluster, script.text)?;
    for file in script.files {
        if let FileText::Read(text) = &file.text {
            add_set_names(alloc, &mut names, cluster, text.as_slice())?;
        }
    }
    if names.is_empty() {
        return out.push_str("  no line sets a parameter\n");
    }
    put_nearest(alloc, out, "parameters", names.as_slice(), read)
}

/// The names of frames that `expect frame` takes: those of signals, and of messages.
fn put_frames(
    alloc: Global,
    out: &mut String,
    cluster: &Cluster,
    read: &[u8],
) -> Result<(), AllocError> {
    cluster.sound();
    let mut names = Vec::new(alloc);
    for frame in 0..cluster.frames() as u16 {
        names.push(cluster.frame_name(frame))?;
    }
    for frame in MESSAGE_FRAMES.iter() {
        if !has_name(names.as_slice(), frame.as_bytes()) {
            names.push(frame.as_bytes())?;
        }
    }
    put_nearest(alloc, out, "frames", names.as_slice(), read)
}

fn put_tables(
    alloc: Global,
    out: &mut String,
    cluster: &Cluster,
    read: &[u8],
) -> Result<(), AllocError> {
    let mut names = Vec::new(alloc);
    for table in 0..cluster.tables() as u16 {
        names.push(cluster.table_name(table))?;
    }
    put_nearest(alloc, out, "schedule tables", names.as_slice(), read)
}

fn put_refusals(alloc: Global, out: &mut String, read: &[u8]) -> Result<(), AllocError> {
    let mut names = Vec::new(alloc);
    for refusal in Refusal::all() {
        names.push(refusal.word().as_bytes())?;
    }
    put_nearest(alloc, out, "refusals", names.as_slice(), read)
}

fn put_words(alloc: Global, out: &mut String, read: &[u8]) -> Result<(), AllocError> {
    let mut names = Vec::new(alloc);
    for word in WORDS.iter() {
        names.push(word.as_bytes())?;
    }
    put_nearest(alloc, out, "words", names.as_slice(), read)
}

/// The name that no node has, if that is the reason.
fn unknown_node(reason: &FaultReason) -> Option<&[u8]> {
    let FaultReason::Field(Reason::Step(StepReason::NoNode(name))) = reason else {
        return None;
    };
    Some(name.as_slice())
}

/// Puts the forms of a fault that isn't valid, or if it has a name that no node has, those of the nodes.
pub(crate) fn put_fault_form(
    alloc: Global,
    out: &mut String,
    cluster: &Cluster,
    reason: &FaultReason,
) -> Result<(), AllocError> {
    match unknown_node(reason) {
        Some(name) => put_nodes(alloc, out, cluster, name),
        None => writeln!(out, "  valid faults: {FAULTS}"),
    }
}

/// Puts the name of the file that can't be read.
fn put_file(out: &mut String, name: &[u8]) -> Result<(), AllocError> {
    out.push_str("  while reading ")?;
    put_shown(out, name)?;
    out.push_str("\n")
}

/// Puts a bad line of a bench script, and where it has a name that there isn't, those that there
/// are.
pub(crate) fn put_bad_bench_line(
    alloc: Global,
    out: &mut String,
    script: Source<'_>,
    place: LinePlace,
    cluster: &Cluster,
    reason: &Reason,
) -> Result<(), AllocError> {
    put_line(out, file_text(script, place.file), place.line)?;
    match reason {
        Reason::Step(StepReason::NoNode(name)) => put_nodes(alloc, out, cluster, name.as_slice()),
        Reason::Step(StepReason::NoSignal(name)) => {
            put_signals(alloc, out, cluster, name.as_slice())
        }
        Reason::Step(StepReason::NoTable(name)) => put_tables(alloc, out, cluster, name.as_slice()),
        Reason::NoFrame(name) => put_frames(alloc, out, cluster, name.as_slice()),
        Reason::NotItsSignal { node, signal } => {
            put_nodes_of(alloc, out, cluster, signal.as_slice(), node.as_slice())
        }
        Reason::NoParameter(name) => put_parameters(alloc, out, cluster, script, name.as_slice()),
        Reason::Unread(name) => put_file(out, name.as_slice()),
        Reason::NoRefusal(name) => put_refusals(alloc, out, name.as_slice()),
        Reason::Step(StepReason::UnknownStep(word)) => put_words(alloc, out, word.as_slice()),
        Reason::ExpectForm | Reason::UnknownExpectation(_) => {
            writeln!(
                out,
                "  expect takes {FORMS}, done, refused NAME, no message FROM TO, no lost (NODE)"
            )
        }
        Reason::UntilForm | Reason::UnknownUntil(_) => {
            writeln!(out, "  until takes {FORMS}, changed NODE SIGNAL")
        }
        Reason::WhileForm | Reason::UnknownWhile(_) => {
            writeln!(
                out,
                "  while takes {HOLDING}, changed NODE SIGNAL, not changed NODE SIGNAL, no message FROM TO, no lost (NODE)"
            )
        }
        Reason::OnForm | Reason::UnknownOn(_) => { writeln!(out, "  on takes {CALLING}") }
        _ => Ok(()),
    }
}
