//! The words of steps and replies, each with the space before it.

ghost use Rattle.std.specs.Prelude.{◌∷◌, ◌++◌, flat_map, map};
ghost use Rattle.std.specs.Fmt.{decimal};
ghost use Rattle.std.specs.Option.{option_map_or, option_to_list};
ghost use Rattle.lin_text.specs.Written.{Grows};
ghost use Rattle.lin_log.specs.CallerTexts.{seen_text};
ghost use Rattle.lin_log.specs.Language.{Language};
ghost use Rattle.lin_log.specs.Words.{event_words, hex_word, port_number_word, seen_words};
ghost use Rattle.lin_log.specs.Words.{spaced_word, step_words, value_word, word_text};
ghost use Rattle.lin_log.specs.Words.Word.{Node, Port, Signal, Table};

use crate::caller_texts::put_seen;
use crate::naming::Naming;
use itoa::Integer;
use lin_core::{Event, Listed, PortId, Seen, Step};
use lin_frame::Value;
use lin_text::TextWriter;
use std::io::Write;

/// A space and a word.
#[inline]
pub fn put_word<W: Write>(out: &mut TextWriter<'_, W>, word: &str)
    ensures { Grows W.contents out.old out.new (spaced_word word.now) }
{
    out.put_byte(b' ');
    out.put_text(word);
}

/// A space and a number.
#[inline]
pub fn put_number<W: Write, I: Integer>(out: &mut TextWriter<'_, W>, number: I)
    ensures { Grows W.contents out.old out.new (spaced_word (I.text number)) }
{
    out.put_byte(b' ');
    out.put_number(number);
}

/// A space, and a name, or the number of what has none.
#[inline(always)]
pub(crate) fn put_called<W: Write>(out: &mut TextWriter<'_, W>, name: Option<&[u8]>, number: u64)
    ensures { Grows W.contents out.old out.new
        (spaced_word (option_map_or (λ w. seen_text w.now) name.entry (decimal number))) }
{
    match name {
        Some(name) => {
            out.put_byte(b' ');
            put_seen(out, name);
        }
        None => out.put_numbered(b' ', number),
    }
}

/// A space, and a node's name, or its number where it has none.
#[inline(always)]
pub fn put_node<N: Naming, W: Write>(out: &mut TextWriter<'_, W>, names: &N, node: u8)
    ensures { Grows W.contents out.old out.new
        (spaced_word (word_text (N.language names.now) (Node node))) }
{
    put_called(out, names.name_of_node(node), u64::from(node));
}

/// A space, and a signal's name, or its number where it has none.
#[inline]
pub fn put_signal<N: Naming, W: Write>(out: &mut TextWriter<'_, W>, names: &N, signal: u16)
    ensures { Grows W.contents out.old out.new
        (spaced_word (word_text (N.language names.now) (Signal signal))) }
{
    put_called(out, names.name_of_signal(signal), u64::from(signal));
}

/// A space, and a schedule table's name, or its number where it has none.
#[inline]
pub fn put_table<N: Naming, W: Write>(out: &mut TextWriter<'_, W>, names: &N, table: u16)
    ensures { Grows W.contents out.old out.new
        (spaced_word (word_text (N.language names.now) (Table table))) }
{
    put_called(out, names.name_of_table(table), u64::from(table));
}

/// A letter and a node: after a colon its name, or its number where it has none.
#[inline(always)]
fn put_lettered<N: Naming, W: Write>(out: &mut TextWriter<'_, W>, names: &N, letter: u8, node: u8)
    ensures { Grows W.contents out.old out.new
        (letter ∷ seen_text (port_number_word (N.language names.now) node)) }
{
    match names.name_of_node(node) {
        Some(name) => {
            out.put_byte(letter);
            out.put_byte(b':');
            put_seen(out, name);
        }
        None => out.put_numbered(letter, u64::from(node)),
    }
}

/// A port.
pub fn put_port<N: Naming, W: Write>(out: &mut TextWriter<'_, W>, names: &N, port: PortId)
    ensures { Grows W.contents out.old out.new (word_text (N.language names.now) (Port port)) }
{
    match port {
        PortId::Bus => out.put_text("bus"),
        PortId::Host(node) => put_lettered(out, names, b'h', node),
        PortId::Node(node) => put_lettered(out, names, b'n', node),
    }
}

/// Bytes in hexadecimal digits, and `-` for none.
pub fn put_hex<W: Write>(out: &mut TextWriter<'_, W>, bytes: &[u8])
    ensures { Grows W.contents out.old out.new (hex_word bytes.now) }
{
    if bytes.is_empty() {
        out.put_byte(b'-');
    } else {
        out.put_hex(bytes);
    }
}

/// A space and bytes.
pub fn put_bytes<W: Write>(out: &mut TextWriter<'_, W>, bytes: &[u8])
    ensures { Grows W.contents out.old out.new (spaced_word (hex_word bytes.now)) }
{
    out.put_byte(b' ');
    put_hex(out, bytes);
}

/// A space and a value: a scalar's number, or `x` and the bytes of an array.
pub fn put_value<W: Write>(out: &mut TextWriter<'_, W>, value: &Value)
    ensures { Grows W.contents out.old out.new (spaced_word (value_word value.now)) }
{
    match value {
        Value::Scalar(number) => put_called(out, None, u64::from(*number)),
        Value::Bytes(bytes) => {
            out.put_text(" x");
            put_hex(out, bytes.as_slice());
        }
    }
}

/// A step.
pub fn put_step<N: Naming, W: Write>(out: &mut TextWriter<'_, W>, names: &N, step: &Step)
    ensures { Grows W.contents out.old out.new
        (flat_map spaced_word (map (word_text (N.language names.now)) (step_words step.now))) }
{
    match step {
        Step::Send { from, to, message } => {
            out.put_text(" send");
            put_node(out, names, *from);
            put_node(out, names, *to);
            put_bytes(out, message.as_slice());
        }
        Step::Write { by, signal, value } => {
            out.put_text(" write");
            put_node(out, names, *by);
            put_signal(out, names, *signal);
            put_value(out, value);
        }
        Step::Open => out.put_text(" open"),
        Step::Answer { node } => put_lone_node(out, names, " answer", *node),
        Step::Leave { node } => put_lone_node(out, names, " leave", *node),
        Step::Hurt { bytes } => {
            out.put_text(" hurt");
            put_bytes(out, bytes.as_slice());
        }
        Step::Finish => out.put_text(" finish"),
        Step::Timeout { node, dir } => {
            out.put_text(" timeout");
            put_node(out, names, *node);
            put_word(out, dir.word());
        }
        Step::Switch { table } => {
            out.put_text(" switch");
            put_table(out, names, *table);
        }
        Step::AskSleep => out.put_text(" sleep"),
        Step::Wake => out.put_text(" wake"),
        Step::Close { host } => put_lone_node(out, names, " close", *host),
    }
}

/// A word with the space before it, and a node.
#[inline(always)]
fn put_lone_node<N: Naming, W: Write>(out: &mut TextWriter<'_, W>, names: &N, word: &str, node: u8)
    ensures { Grows W.contents out.old out.new
        (word.now ++ spaced_word (word_text (N.language names.now) (Node node))) }
{
    out.put_text(word);
    put_node(out, names, node);
}

fn put_header<W: Write>(out: &mut TextWriter<'_, W>, header: Option<u8>)
    ensures { Grows W.contents out.old out.new (spaced_word (hex_word (option_to_list header))) }
{
    match header {
        Some(pid) => put_bytes(out, &[pid]),
        None => out.put_text(" -"),
    }
}

fn put_seen_words<W: Write>(out: &mut TextWriter<'_, W>, seen: &Seen)
    ensures { (l : Language) → Grows W.contents out.old out.new
        (flat_map spaced_word (map (word_text l) (seen_words seen.now))) }
{
    out.put_text(" seen");
    put_word(out, seen.look().word());
    if let Seen::Good(answer) = seen {
        put_bytes(out, answer.as_slice());
    }
}

/// What became of a host's message, with its number.
fn put_fate<N: Naming, W: Write>(
    out: &mut TextWriter<'_, W>,
    names: &N,
    word: &str,
    host: u8,
    number: u32,
)
    ensures { Grows W.contents out.old out.new
        (word.now ++ (spaced_word (word_text (N.language names.now) (Node host))
        ++ spaced_word (decimal number))) }
{
    put_lone_node(out, names, word, host);
    put_called(out, None, u64::from(number));
}

/// An event.
pub fn put_event<N: Naming, W: Write>(out: &mut TextWriter<'_, W>, names: &N, event: &Event)
    ensures { Grows W.contents out.old out.new
        (flat_map spaced_word (map (word_text (N.language names.now)) (event_words event.now))) }
{
    match event {
        Event::Accepted { host, number } => put_fate(out, names, " accepted", *host, *number),
        Event::Slot {
            table,
            entry,
            header,
        } => {
            out.put_text(" slot");
            put_table(out, names, *table);
            put_called(out, None, u64::from(*entry));
            put_header(out, *header);
        }
        Event::Service => out.put_text(" service"),
        Event::Due { node } => put_lone_node(out, names, " due", *node),
        Event::Put { node, answer } => {
            put_lone_node(out, names, " put", *node);
            put_bytes(out, answer.as_slice());
        }
        Event::Seen(seen) => put_seen_words(out, seen),
        Event::Message { from, to, bytes } => {
            put_lone_node(out, names, " message", *from);
            put_node(out, names, *to);
            put_bytes(out, bytes.as_slice());
        }
        Event::Sent { host, number } => put_fate(out, names, " sent", *host, *number),
        Event::Lost {
            host,
            number,
            cause,
        } => {
            put_fate(out, names, " lost", *host, *number);
            put_word(out, cause.word());
        }
        Event::Asleep => out.put_text(" asleep"),
    }
}
