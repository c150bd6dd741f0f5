//! The settled description as a plain LDF text, with what the text has beside it.

ghost use Rattle.std.specs.Prelude.{◌≡◌, [], map, zip, length, codes, if◌then◌else◌};
ghost use Rattle.std.specs.Prelude.{IfErr, IfOk};
ghost use Rattle.std.specs.Io.KnownBytes.{Keeps};
ghost use Rattle.lin_text.specs.Written.{Grows};
ghost use Rattle.lin_field.specs.Plain.{signal_text, frame_text, sporadic_text, kept_text, kept_lines};
ghost use Rattle.lin_field.specs.Plain.{kept_line, kept_section, kept_sections, other_section};
ghost use Rattle.lin_field.specs.Plain.{other_sections, language};
ghost use Rattle.lin_field.specs.Plain.{attribute_text, kept_attributes, block_text, table_text_by};
ghost use Rattle.lin_field.specs.Plain.{header_text, nodes_text, section_text, events_text, table_texts, with_parts};
ghost use Rattle.lin_field.specs.Plain.{blocks_text, tables_text, header_part, frames_part};
ghost use Rattle.lin_field.specs.Plain.{tables_part, plain_of, plain_text, WritesPlainText};

mod declaration_lines;
mod table_names;
mod text_parts;
mod written_words;

use crate::loose::Header;
use crate::normalizing::Normalized;
use declaration_lines::{
    put_all_events, put_all_frames, put_all_signals, put_all_sporadic, put_entries, put_nad,
    put_protocol,
};
use lin_ldf::Token;
use lin_parts::description::{Attributes, Description, EventFrame, Frame, Signal, Sporadic, Table};
use lin_text::{Text, TextBuffer, TextWriter, WriteFailed};
use std::alloc::{AllocError, Global};
use std::io::Write;
use std::marker::Model;
use table_names::{declared_names, event_tables, node_names, table_names};
use text_parts::{
    behind_head, bytes_of, filled_parts, inside_at, is_line, is_one_of, is_section, is_section_of,
    next_part, node_blocks, parts, tokens_of, word_of,
};
use written_words::{put_between, put_names, put_thousandths};

/// The lines of a header that are read.
static LINES: [&[u8]; 3] = [
    b"LIN_protocol_version",
    b"LIN_language_version",
    b"LIN_speed",
];

/// The sections that a description tells, and the nodes.
static USED: [&[u8]; 8] = [
    b"Nodes",
    b"Signals",
    b"Frames",
    b"Sporadic_frames",
    b"Event_triggered_frames",
    b"Node_attributes",
    b"Diagnostic_addresses",
    b"Schedule_tables",
];

/// Sections that stand between those (LIN 2.2A, section 9.2): after the nodes, after the signals,
/// after the event-triggered frames.
static BETWEEN: [&[u8]; 3] = [b"composite", b"Diagnostic_signals", b"Diagnostic_frames"];

/// The attributes that a description tells.
static ATTRIBUTES: [&[u8]; 2] = [b"LIN_protocol", b"configured_NAD"];

/// What is written: a description with the text that it was settled from. The text's parts, and the
/// names of tables, are worked out once. Contracts see `PlainData`.
struct Plain<'a> {
    header: &'a Header,
    description: &'a Description,
    source: &'a [u8],
    tokens: &'a [Token],
    parts: Vec<&'a [Token]>,
    blocks: Vec<&'a [Token]>,
    tables: Vec<&'a [Token]>,
    table_names: Vec<Text>,
    event_tables: Vec<Text>,
}

impl<'a> Model for Plain<'a> {
    ghost use Rattle.std.specs.Prelude.{◌≡◌, map};
    ghost use Rattle.lin_field.specs.Plain.{PlainData, plain_data, sections_of, blocks_in, tables_in};
    ghost use Rattle.lin_field.specs.Plain.{names_of_tables, names_of_events};

    ghost Value = { PlainData };

    ghost view = { λ p. plain_data p.header.now p.description.now p.source.now p.tokens.now };

    ghost invariant = { λ p. let d = plain_data p.header.now p.description.now p.source.now p.tokens.now in
        (map (λ x. x.now) p.parts.items ≡ sections_of d)
        × (map (λ x. x.now) p.blocks.items ≡ blocks_in d)
        × (map (λ x. x.now) p.tables.items ≡ tables_in d)
        × (p.table_names.items ≡ names_of_tables d.description)
        × (p.event_tables.items ≡ names_of_events d.description) };
}

// (written out, so that an owner has one call)
impl<'a> Drop for Plain<'a> {
    fn drop(self) {
        let Plain {
            header: _,
            description: _,
            source: _,
            tokens: _,
            parts: _parts,
            blocks: _blocks,
            tables: _tables,
            table_names: _table_names,
            event_tables: _event_tables,
        } = self;
    }
}

/// A part of the text as it stands, on a line of its own.
fn put_part<W: Write>(out: &mut TextWriter<'_, W>, source: &[u8], before: &str, part: &[Token])
    ensures { Grows W.contents out.old out.new (kept_text source.now before.now part.now) }
{
    put_between(out, before, bytes_of(source, part), "\n");
}

/// The same, where it is kept.
fn put_kept<W: Write>(
    out: &mut TextWriter<'_, W>,
    source: &[u8],
    before: &str,
    part: &[Token],
    is_kept: bool,
)
    ensures { Grows W.contents out.old out.new
        (if is_kept then kept_text source.now before.now part.now else []) }
{
    if is_kept {
        put_part(out, source, before, part);
    }
}

/// An attribute, where it isn't used.
fn put_attribute<W: Write>(out: &mut TextWriter<'_, W>, source: &[u8], part: &[Token])
    ensures { Grows W.contents out.old out.new (attribute_text source.now part.now) }
{
    let is_kept = !is_one_of(word_of(source, part), ATTRIBUTES.as_slice());
    put_kept(out, source, "    ", part, is_kept);
}

/// Attributes that aren't used.
fn put_attributes<W: Write>(out: &mut TextWriter<'_, W>, source: &[u8], tokens: &[Token])
    ensures { Grows W.contents out.old out.new (kept_attributes source.now tokens.now) }
{
    let mut rest = tokens;
    while let Some((part, after)) = next_part(rest) {
        put_attribute(out, source, part);
        rest = after;
    }
}

fn put_block<W: Write>(
    out: &mut TextWriter<'_, W>,
    source: &[u8],
    block: &Attributes,
    tokens: &[Token],
)
    ensures { Grows W.contents out.old out.new (block_text source.now block.now tokens.now) }
{
    put_between(out, "  ", block.node.text.as_slice(), " {\n");
    put_protocol(out, &block.protocol);
    put_nad(out, block.configured_nad);
    put_attributes(out, source, tokens);
    out.put_text("  }\n");
}

/// A table by its name, of which these are the tokens.
fn put_table<W: Write>(
    out: &mut TextWriter<'_, W>,
    source: &[u8],
    table: &Table,
    name: &Text,
    tokens: &[Token],
)
    ensures { Grows W.contents out.old out.new
        (table_text_by source.now table.now name.now tokens.now) }
{
    put_between(out, "  ", name.as_slice(), " {\n");
    put_entries(out, source, table.entries.as_slice(), tokens);
    out.put_text("  }\n");
}

/// The version of the language; that of the protocol where it isn't said.
fn language(header: &Header) -> &[u8]
    ensures { result.now ≡ language header.now }
{
    match &header.language {
        Some(language) => language.as_slice(),
        None => header.version.as_slice(),
    }
}

fn put_header<W: Write>(out: &mut TextWriter<'_, W>, header: &Header, description: &Description)
    ensures { Grows W.contents out.old out.new (header_text header.now description.now.speed) }
{
    out.put_text("LIN_description_file;\n");
    put_between(
        out,
        "LIN_protocol_version = \"",
        header.version.as_slice(),
        "\";\n",
    );
    put_between(out, "LIN_language_version = \"", language(header), "\";\n");
    out.put_text("LIN_speed = ");
    put_thousandths(out, description.speed(), " kbps;\n");
}

fn put_nodes<W: Write>(out: &mut TextWriter<'_, W>, description: &Description)
    ensures { Grows W.contents out.old out.new (nodes_text description.now) }
{
    let master = description.master().text.as_slice();
    put_between(out, "Nodes {\n  Master: ", master, ", ");
    put_thousandths(out, description.time_base(), " ms, ");
    put_thousandths(out, description.jitter(), " ms;\n  Slaves: ");
    put_names(out, description.slaves());
    out.put_text(";\n}\n");
}

fn put_signals<W: Write>(out: &mut TextWriter<'_, W>, signals: &[Signal])
    ensures { Grows W.contents out.old out.new
        (section_text (codes "Signals") signal_text signals.now) }
{
    if signals.is_empty() {
        return;
    }
    out.put_text("Signals {\n");
    put_all_signals(out, signals);
    out.put_text("}\n");
}

fn put_frames<W: Write>(out: &mut TextWriter<'_, W>, frames: &[Frame])
    ensures { Grows W.contents out.old out.new
        (section_text (codes "Frames") frame_text frames.now) }
{
    if frames.is_empty() {
        return;
    }
    out.put_text("Frames {\n");
    put_all_frames(out, frames);
    out.put_text("}\n");
}

fn put_sporadic_frames<W: Write>(out: &mut TextWriter<'_, W>, frames: &[Sporadic])
    ensures { Grows W.contents out.old out.new
        (section_text (codes "Sporadic_frames") sporadic_text frames.now) }
{
    if frames.is_empty() {
        return;
    }
    out.put_text("Sporadic_frames {\n");
    put_all_sporadic(out, frames);
    out.put_text("}\n");
}

/// Event-triggered frames, with the names of their tables.
fn put_events<W: Write>(out: &mut TextWriter<'_, W>, events: &[EventFrame], tables: &[Text])
    requires { length tables.now ≡ length events.now }
    ensures { Grows W.contents out.old out.new (events_text events.now tables.now) }
{
    if events.is_empty() {
        return;
    }
    out.put_text("Event_triggered_frames {\n");
    put_all_events(out, events, tables);
    out.put_text("}\n");
}

/// The attributes of nodes, with the blocks that stand in the text.
fn put_blocks<W: Write>(
    out: &mut TextWriter<'_, W>,
    source: &[u8],
    blocks: &[Attributes],
    parts: &[&[Token]],
)
    ensures { Grows W.contents out.old out.new
        (blocks_text source.now blocks.now (map (λ p. p.now) parts.now)) }
{
    if blocks.is_empty() {
        return;
    }
    out.put_text("Node_attributes {\n");
    put_all_blocks(out, source, blocks, parts);
    out.put_text("}\n");
}

fn put_all_blocks<W: Write>(
    out: &mut TextWriter<'_, W>,
    source: &[u8],
    blocks: &[Attributes],
    parts: &[&[Token]],
)
    ensures { Grows W.contents out.old out.new
        (with_parts (block_text source.now) (map (λ p. p.now) parts.now) 0 blocks.now) }
{
    for number in 0..blocks.len() {
        put_block(out, source, &blocks[number], inside_at(parts, number));
    }
}

/// Schedule tables, with their names and with what stands of each in the text.
#[derive(Clone, Copy)]
struct NamedTables<'a> {
    tables: &'a [Table],
    names: &'a [Text],
    parts: &'a [&'a [Token]],
}

/// Schedule tables by their names, with what stands of them in the text.
fn put_tables<W: Write>(out: &mut TextWriter<'_, W>, source: &[u8], named: NamedTables<'_>)
    requires { length named.names.now ≡ length named.tables.now }
    ensures { Grows W.contents out.old out.new
        (tables_text source.now named.entry.tables.now named.entry.names.now (map (λ p. p.now) named.entry.parts.now)) }
{
    if named.tables.is_empty() {
        return;
    }
    out.put_text("Schedule_tables {\n");
    put_all_tables(out, source, named);
    out.put_text("}\n");
}

fn put_all_tables<W: Write>(out: &mut TextWriter<'_, W>, source: &[u8], named: NamedTables<'_>)
    requires { length named.names.now ≡ length named.tables.now }
    ensures { Grows W.contents out.old out.new
        (table_texts source.now named.entry.tables.now named.entry.names.now
        (map (λ p. p.now) named.entry.parts.now)) }
{
    let NamedTables {
        tables,
        names,
        parts,
    } = named;
    for number in 0..tables.len() {
        let tokens = inside_at(parts, number);
        put_table(out, source, &tables[number], &names[number], tokens);
    }
}

/// A line of the header, where it isn't used.
fn put_kept_line<W: Write>(out: &mut TextWriter<'_, W>, source: &[u8], part: &[Token])
    ensures { Grows W.contents out.old out.new (kept_line source.now part.now) }
{
    let is_kept = is_line(part) && !is_one_of(word_of(source, part), LINES.as_slice());
    put_kept(out, source, "", part, is_kept);
}

/// Lines of the header that aren't used.
fn put_lines<W: Write>(out: &mut TextWriter<'_, W>, source: &[u8], parts: &[&[Token]])
    ensures { Grows W.contents out.old out.new
        (kept_lines source.now (map (λ p. p.now) parts.now)) }
{
    for part in parts {
        put_kept_line(out, source, *part);
    }
}

/// A section, where it has this word.
fn put_section<W: Write>(out: &mut TextWriter<'_, W>, source: &[u8], part: &[Token], word: &[u8])
    ensures { Grows W.contents out.old out.new (kept_section source.now word.now part.now) }
{
    put_kept(out, source, "", part, is_section_of(source, part, word));
}

/// The sections of this word.
fn put_sections<W: Write>(
    out: &mut TextWriter<'_, W>,
    source: &[u8],
    parts: &[&[Token]],
    word: &[u8],
)
    ensures { Grows W.contents out.old out.new
        (kept_sections source.now (map (λ p. p.now) parts.now) word.now) }
{
    for part in parts {
        put_section(out, source, *part, word);
    }
}

/// A section, where it has no place between those that are read.
fn put_other_section<W: Write>(out: &mut TextWriter<'_, W>, source: &[u8], part: &[Token])
    ensures { Grows W.contents out.old out.new (other_section source.now part.now) }
{
    let word = word_of(source, part);
    let has_place = is_one_of(word, USED.as_slice()) || is_one_of(word, BETWEEN.as_slice());
    put_kept(out, source, "", part, is_section(part) && !has_place);
}

/// The other sections that aren't used.
fn put_other_sections<W: Write>(out: &mut TextWriter<'_, W>, source: &[u8], parts: &[&[Token]])
    ensures { Grows W.contents out.old out.new
        (other_sections source.now (map (λ p. p.now) parts.now)) }
{
    for part in parts {
        put_other_section(out, source, *part);
    }
}

impl<'a> Plain<'a> {
    /// An error means out of memory.
    fn new(
        alloc: Global,
        settled: &'a Normalized,
        source: &'a [u8],
        tokens: &'a [Token],
    ) -> Result<Plain<'a>, AllocError>
        ensures { IfOk result
            (λ p. p ≡ plain_of settled.now source.now tokens.now) }
    {
        let description = &settled.description;
        let parts = parts(alloc, behind_head(tokens))?;
        let nodes = node_names(alloc, description)?;
        let blocks = node_blocks(alloc, source, parts.as_slice(), nodes.as_slice())?;
        let tables = filled_parts(alloc, source, parts.as_slice())?;
        let names = declared_names(alloc, description)?;
        let table_names = table_names(alloc, names.as_slice(), description.tables())?;
        let event_tables = event_tables(alloc, names.as_slice(), description.events())?;
        Ok(Plain {
            header: &settled.header,
            description,
            source,
            tokens,
            parts,
            blocks,
            tables,
            table_names,
            event_tables,
        })
    }

    /// The header and the nodes.
    fn put_header_part<W: Write>(&self, out: &mut TextWriter<'_, W>)
        ensures { Grows W.contents out.old out.new (header_part self.now) }
    {
        let parts = self.parts.as_slice();
        put_header(out, self.header, self.description);
        put_lines(out, self.source, parts);
        put_nodes(out, self.description);
        put_sections(out, self.source, parts, b"composite");
    }

    /// Signals and frames.
    fn put_frames_part<W: Write>(&self, out: &mut TextWriter<'_, W>)
        ensures { Grows W.contents out.old out.new (frames_part self.now) }
    {
        let description = self.description;
        let parts = self.parts.as_slice();
        put_signals(out, description.signals());
        put_sections(out, self.source, parts, b"Diagnostic_signals");
        put_frames(out, description.frames());
        put_sporadic_frames(out, description.sporadic());
        put_events(out, description.events(), self.event_tables.as_slice());
        put_sections(out, self.source, parts, b"Diagnostic_frames");
    }

    /// Attributes, schedule tables, and the sections that aren't used.
    fn put_tables_part<W: Write>(&self, out: &mut TextWriter<'_, W>)
        ensures { Grows W.contents out.old out.new (tables_part self.now) }
    {
        let blocks = self.description.attributes();
        put_blocks(out, self.source, blocks, self.blocks.as_slice());
        let named = NamedTables {
            tables: self.description.tables(),
            names: self.table_names.as_slice(),
            parts: self.tables.as_slice(),
        };
        put_tables(out, self.source, named);
        put_other_sections(out, self.source, self.parts.as_slice());
    }

    fn put<W: Write>(&self, out: &mut TextWriter<'_, W>)
        ensures { Grows W.contents out.old out.new (plain_text self.now) }
    {
        self.put_header_part(out);
        self.put_frames_part(out);
        self.put_tables_part(out);
    }
}

/// Writes what a text of the field was settled to as a plain LDF text: its sections in the order of
/// LIN 2.2A, section 9.2, one declaration a line. The table of an event-triggered frame's members
/// has the name `E_members`, with `_` added until nothing has it. Lines of the header, sections,
/// attributes and groups that aren't used are those of the text, whose bytes `read_field` has left.
///
/// # Errors
/// Out of memory, after which nothing was written; otherwise as of `TextWriter::finish`.
pub fn write_plain<W: Write>(
    alloc: Global,
    settled: &Normalized,
    source: &[u8],
    writer: &mut W,
) -> Result<Result<(), WriteFailed>, AllocError>
    ensures text { IfOk result (λ written. WritesPlainText settled.now source.now
        (W.contents writer.old) (W.contents writer.new) written) }
    ensures kept { IfErr result (λ _. Keeps (W.contents writer.old) (W.contents writer.new)) }
{
    let tokens = tokens_of(alloc, source)?;
    let plain = Plain::new(alloc, settled, source, tokens.as_slice())?;
    let mut buffer = TextBuffer::empty();
    let mut out = TextWriter::new(writer, &mut buffer);
    plain.put(&mut out);
    Ok(out.finish())
}
