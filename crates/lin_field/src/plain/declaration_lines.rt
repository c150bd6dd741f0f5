//! Declarations of a plain text, one a line.

ghost use Rattle.std.specs.Prelude.{◌≡◌, drop, flat_map, length, zip};
ghost use Rattle.lin_text.specs.Written.{Grows};
ghost use Rattle.lin_field.specs.Plain.{init_text, signal_text, placed_text, frame_text};
ghost use Rattle.lin_field.specs.Plain.{sporadic_text, event_text_by, protocol_line, nad_text};
ghost use Rattle.lin_field.specs.Plain.{entry_text, table_entries_text, group_text};

use crate::plain::text_parts::{after, bytes_of, up_to};
use crate::plain::written_words::{
    put_between, put_more_names, put_names, put_number, put_numbers, put_thousandths,
};
use lin_ldf::{Token, TokenKind};
use lin_parts::description::{
    EventFrame, Frame, Init, Number, PlacedSignal, Signal, Sporadic, TableEntry,
};
use lin_text::{Text, TextWriter};
use std::io::Write;

fn put_init<W: Write>(out: &mut TextWriter<'_, W>, init: &Init)
    ensures { Grows W.contents out.old out.new (init_text init.now) }
{
    match init {
        Init::Scalar(number) => out.put_number(number.value),
        Init::Array(_, numbers) => {
            out.put_text("{");
            put_numbers(out, numbers.as_slice());
            out.put_text("}");
        }
    }
}

fn put_signal<W: Write>(out: &mut TextWriter<'_, W>, signal: &Signal)
    ensures { Grows W.contents out.old out.new (signal_text signal.now) }
{
    put_between(out, "  ", signal.name.text.as_slice(), ": ");
    put_number(out, signal.size, ", ");
    put_init(out, &signal.init);
    out.put_text(", ");
    out.put(signal.publisher.text.as_slice());
    put_more_names(out, signal.subscribers.as_slice());
    out.put_text(";\n");
}

fn put_placed<W: Write>(out: &mut TextWriter<'_, W>, placed: &PlacedSignal)
    ensures { Grows W.contents out.old out.new (placed_text placed.now) }
{
    out.put(placed.signal.text.as_slice());
    out.put_text(", ");
    put_number(out, placed.offset, "; ");
}

fn put_all_placed<W: Write>(out: &mut TextWriter<'_, W>, placed: &[PlacedSignal])
    ensures { Grows W.contents out.old out.new (flat_map placed_text placed.now) }
{
    for it in placed {
        put_placed(out, it);
    }
}

fn put_frame<W: Write>(out: &mut TextWriter<'_, W>, frame: &Frame)
    ensures { Grows W.contents out.old out.new (frame_text frame.now) }
{
    put_between(out, "  ", frame.name.text.as_slice(), ": ");
    put_number(out, frame.id, ", ");
    out.put(frame.publisher.text.as_slice());
    out.put_text(", ");
    put_number(out, frame.size, " { ");
    put_all_placed(out, frame.placed.as_slice());
    out.put_text("}\n");
}

fn put_sporadic<W: Write>(out: &mut TextWriter<'_, W>, frame: &Sporadic)
    ensures { Grows W.contents out.old out.new (sporadic_text frame.now) }
{
    put_between(out, "  ", frame.name.text.as_slice(), ": ");
    put_names(out, frame.members.as_slice());
    out.put_text(";\n");
}

/// An event-triggered frame, with the name of its table.
fn put_event<W: Write>(out: &mut TextWriter<'_, W>, event: &EventFrame, table: &Text)
    ensures { Grows W.contents out.old out.new (event_text_by event.now table.now) }
{
    put_between(out, "  ", event.name.text.as_slice(), ": ");
    out.put(table.as_slice());
    out.put_text(", ");
    put_number(out, event.id, ", ");
    put_names(out, event.members.as_slice());
    out.put_text(";\n");
}

/// Writes the protocol version of a node, if it has one.
pub fn put_protocol<W: Write>(out: &mut TextWriter<'_, W>, protocol: &Option<Text>)
    ensures { Grows W.contents out.old out.new (protocol_line protocol.now) }
{
    if let Some(protocol) = protocol {
        put_between(out, "    LIN_protocol = \"", protocol.as_slice(), "\";\n");
    }
}

/// Writes the configured NAD of a node, if it has one.
pub fn put_nad<W: Write>(out: &mut TextWriter<'_, W>, nad: Option<Number>)
    ensures { Grows W.contents out.old out.new (nad_text nad) }
{
    if let Some(nad) = nad {
        out.put_text("    configured_NAD = ");
        put_number(out, nad, ";\n");
    }
}

/// The tokens after the first.
fn behind(tokens: &[Token]) -> &[Token]
    ensures { result.now ≡ drop 1 tokens.now }
{
    match tokens {
        [_, behind @ ..] => behind,
        [] => &[],
    }
}

/// The group between the name of an entry and its delay, of the tokens from the name on.
fn put_group<W: Write>(
    out: &mut TextWriter<'_, W>,
    source: &[u8],
    entry: &TableEntry,
    tokens: &[Token],
)
    ensures { Grows W.contents out.old out.new (group_text source.now entry.now tokens.now) }
{
    if entry.has_group {
        out.put(bytes_of(source, up_to(behind(tokens), TokenKind::CloseBrace)));
        out.put_text(" ");
    }
}

fn put_entry<W: Write>(
    out: &mut TextWriter<'_, W>,
    source: &[u8],
    entry: &TableEntry,
    tokens: &[Token],
)
    ensures { Grows W.contents out.old out.new (entry_text source.now entry.now tokens.now) }
{
    put_between(out, "    ", entry.name.text.as_slice(), " ");
    put_group(out, source, entry, tokens);
    out.put_text("delay ");
    put_thousandths(out, entry.delay, " ms;\n");
}

/// The entries of a table, of which these are the tokens.
pub fn put_entries<W: Write>(
    out: &mut TextWriter<'_, W>,
    source: &[u8],
    entries: &[TableEntry],
    tokens: &[Token],
)
    ensures { Grows W.contents out.old out.new (table_entries_text source.now entries.now tokens.now) }
{
    let mut rest = tokens;
    for entry in entries {
        put_entry(out, source, entry, rest);
        rest = after(rest, TokenKind::Semicolon);
    }
}

/// Writes a line for each signal.
pub fn put_all_signals<W: Write>(out: &mut TextWriter<'_, W>, signals: &[Signal])
    ensures { Grows W.contents out.old out.new (flat_map signal_text signals.now) }
{
    for signal in signals {
        put_signal(out, signal);
    }
}

/// Writes each unconditional frame with its signals.
pub fn put_all_frames<W: Write>(out: &mut TextWriter<'_, W>, frames: &[Frame])
    ensures { Grows W.contents out.old out.new (flat_map frame_text frames.now) }
{
    for frame in frames {
        put_frame(out, frame);
    }
}

/// Writes a line for each sporadic frame.
pub fn put_all_sporadic<W: Write>(out: &mut TextWriter<'_, W>, frames: &[Sporadic])
    ensures { Grows W.contents out.old out.new (flat_map sporadic_text frames.now) }
{
    for frame in frames {
        put_sporadic(out, frame);
    }
}

/// Event-triggered frames, each with the name of its table.
pub fn put_all_events<W: Write>(out: &mut TextWriter<'_, W>, events: &[EventFrame], tables: &[Text])
    requires { length tables.now ≡ length events.now }
    ensures { Grows W.contents out.old out.new
        (flat_map (λ p. event_text_by p.0 p.1) (zip events.now tables.now)) }
{
    for number in 0..events.len() {
        put_event(out, &events[number], &tables[number]);
    }
}
