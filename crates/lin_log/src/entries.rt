//! Logs as text.

ghost use Rattle.std.specs.Prelude.{◌++◌, drop, flat_map};
ghost use Rattle.lin_text.specs.Written.{Grows, WritesText};
ghost use Rattle.lin_log.specs.Language.{plain};
ghost use Rattle.lin_log.specs.Words.{event_words, reply_line, reply_words, step_line, text};

use crate::naming::{Naming, NumberNaming};
use crate::writing::{put_called, put_event, put_port, put_step};
use lin_core::{Event, Listed, Log, LogEntry, PortId, Reply, Step};
use lin_text::{TextBuffer, TextWriter, WriteFailed};
use std::io::Write;

/// The line of a port and its step.
pub fn put_step_line<N: Naming, W: Write>(
    out: &mut TextWriter<'_, W>,
    names: &N,
    port: PortId,
    step: &Step,
)
    ensures { Grows W.contents out.old out.new (step_line (N.language names.now) port step.now) }
{
    put_port(out, names, port);
    put_step(out, names, step);
    out.put_byte(b'\n');
}

/// The line of an event.
pub fn put_event_line<N: Naming, W: Write>(out: &mut TextWriter<'_, W>, names: &N, event: &Event)
    ensures { Grows W.contents out.old out.new
        (reply_line (N.language names.now) (event_words event.now)) }
{
    out.put_byte(b'>');
    put_event(out, names, event);
    out.put_byte(b'\n');
}

fn put_events<W: Write>(out: &mut TextWriter<'_, W>, events: &[Event])
    ensures { Grows W.contents out.old out.new
        (flat_map (λ e. reply_line plain (event_words e)) events.now) }
{
    for event in events {
        put_event_line(out, &NumberNaming, event);
    }
}

fn put_reply<W: Write>(out: &mut TextWriter<'_, W>, reply: &Reply)
    ensures { Grows W.contents out.old out.new (flat_map (reply_line plain) (reply_words reply.now)) }
{
    match reply {
        Reply::Done(events) => put_events(out, events.as_slice()),
        Reply::Refused(refusal) => {
            out.put_text("> refused");
            put_called(out, None, u64::from(refusal.number()));
            out.put_byte(b'\n');
        }
    }
}

fn put_entry<W: Write>(out: &mut TextWriter<'_, W>, entry: &LogEntry)
    ensures { Grows W.contents out.old out.new (step_line plain entry.now.port entry.now.step
        ++ flat_map (reply_line plain) (reply_words entry.now.reply)) }
{
    put_step_line(out, &NumberNaming, entry.port, &entry.step);
    put_reply(out, &entry.reply);
}

/// The lines of the entries of a log from one on.
pub fn put_entries<W: Write>(out: &mut TextWriter<'_, W>, log: &Log, from: usize)
    ensures { Grows W.contents out.old out.new (text (drop from log.now.entries)) }
{
    for index in from..log.len() {
        put_entry(out, log.entry(index));
    }
}

/// Writes the text of a log: for each entry the line of its port and step, then a line for each
/// event, or the line of its refusal.
///
/// It goes through a buffer of 64 KiB and takes no memory. The writer isn't flushed.
///
/// # Errors
/// `WriteFailed` at the first error of the writer, an interrupted write too, and at the first write
/// of 0 bytes. What was written then is the beginning of the text.
pub fn write_log<W: Write>(log: &Log, writer: &mut W) -> Result<(), WriteFailed>
    ensures { WritesText (W.contents writer.old) (W.contents writer.new) result
        (text log.now.entries) }
{
    let mut buffer = TextBuffer::empty();
    let mut lines = TextWriter::new(writer, &mut buffer);
    put_entries(&mut lines, log, 0);
    lines.finish()
}
