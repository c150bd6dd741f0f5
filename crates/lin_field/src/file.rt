//! The sections of a text of the field, and the whole of it.

ghost use Rattle.std.specs.Prelude.{◌≡◌};
ghost use Rattle.lin_ldf.specs.Forms.{Gives, end, ◌<&◌};
ghost use Rattle.lin_ldf.specs.Loops.{gathering};
ghost use Rattle.lin_ldf.specs.Words.{no_word};
ghost use Rattle.lin_field.specs.Grammar.{field_word, field_file, loose_section};
ghost use Rattle.lin_field.specs.Grammar.{no_loose_sections, loose_of};

use crate::header::read_header;
use crate::loose::{
    Header, Loose, LooseAttributes, LooseEvent, LooseFrame, LooseNodes, LooseSignal, LooseTable,
    NodeAddress,
};
use crate::nodes::nodes;
use lin_ldf::{Gathered, LdfFault, Names, Parser, Sections, Whole, gather, or_empty, used_section};
use lin_text::Many;
use std::alloc::Global;

/// The sections that were read: those that are spelled as in plain texts, and those that aren't.
pub struct LooseSections<'a> {
    pub plain: Sections<'a>,
    pub signals: Option<Many<LooseSignal>>,
    pub frames: Option<Many<LooseFrame>>,
    pub events: Option<Many<LooseEvent>>,
    pub attributes: Option<Many<LooseAttributes>>,
    pub addresses: Option<Many<NodeAddress>>,
    pub tables: Option<Many<LooseTable>>,
}

// (written out, so that an owner has one call)
impl<'a> Drop for LooseSections<'a> {
    fn drop(self) {
        let LooseSections {
            plain: _plain,
            signals: _signals,
            frames: _frames,
            events: _events,
            attributes: _attributes,
            addresses: _addresses,
            tables: _tables,
        } = self;
    }
}

/// What the word of a section says.
#[derive(Clone, Copy)]
pub enum FieldWord {
    Signals,
    Frames,
    Event,
    Attributes,
    Addresses,
    Tables,
    Plain,
}

fn field_word(word: &[u8]) -> FieldWord
    ensures { result ≡ field_word word.now }
{
    if word == b"Signals".as_slice() {
        FieldWord::Signals
    } else if word == b"Frames".as_slice() {
        FieldWord::Frames
    } else if word == b"Event_triggered_frames".as_slice() {
        FieldWord::Event
    } else if word == b"Node_attributes".as_slice() {
        FieldWord::Attributes
    } else if word == b"Diagnostic_addresses".as_slice() {
        FieldWord::Addresses
    } else if word == b"Schedule_tables".as_slice() {
        FieldWord::Tables
    } else {
        FieldWord::Plain
    }
}

impl<'a> Whole for LooseSections<'a> {
    ghost use Rattle.lin_field.specs.Grammar.{loose_section};
    ghost use Rattle.lin_field.specs.GrammarLaws.{loose_section_takes};

    ghost form = { loose_section };

    ghost shrinks = { λ s. (loose_section_takes s).shrinks };
}

impl<'a> Gathered<'a> for LooseSections<'a> {
    // section = signals | frames | event | attributes | addresses | tables | one of plain texts, the
    // used ones once at most
    fn add(&mut self, parser: &mut Parser<'a>) -> Result<(), LdfFault> {
        match field_word(parser.text()) {
            FieldWord::Signals => used_section(
                parser,
                b"Signals",
                &mut self.signals,
                &mut Names::new(parser.alloc()),
            ),
            FieldWord::Frames => used_section(
                parser,
                b"Frames",
                &mut self.frames,
                &mut self.plain.frame_names,
            ),
            FieldWord::Event => used_section(
                parser,
                b"Event_triggered_frames",
                &mut self.events,
                &mut self.plain.frame_names,
            ),
            FieldWord::Attributes => used_section(
                parser,
                b"Node_attributes",
                &mut self.attributes,
                &mut self.plain.blocks,
            ),
            FieldWord::Addresses => used_section(
                parser,
                b"Diagnostic_addresses",
                &mut self.addresses,
                &mut (),
            ),
            FieldWord::Tables => used_section(
                parser,
                b"Schedule_tables",
                &mut self.tables,
                &mut Names::new(parser.alloc()),
            ),
            FieldWord::Plain => self.plain.add(parser),
        }
    }
}

impl<'a> LooseSections<'a> {
    /// No section, in a cluster of these nodes.
    fn new(alloc: Global, nodes: Names<'a>) -> LooseSections<'a>
        ensures { result ≡ no_loose_sections nodes.entry }
    {
        LooseSections {
            plain: Sections::new(alloc, nodes),
            signals: None,
            frames: None,
            events: None,
            attributes: None,
            addresses: None,
            tables: None,
        }
    }

    /// What these sections say after a header and nodes.
    fn described(self, alloc: Global, header: Header, nodes: LooseNodes) -> Loose
        ensures { result ≡ loose_of ((header, nodes), self.entry) }
    {
        let LooseSections {
            plain,
            signals,
            frames,
            events,
            attributes,
            addresses,
            tables,
        } = self;
        let (_, sporadic) = plain.signals_and_sporadic(alloc);
        Loose {
            header,
            nodes,
            signals: or_empty(alloc, signals),
            frames: or_empty(alloc, frames),
            sporadic,
            events: or_empty(alloc, events),
            attributes: or_empty(alloc, attributes),
            addresses: or_empty(alloc, addresses),
            tables: or_empty(alloc, tables),
        }
    }
}

// { section }*, and nothing after
fn read_sections<'a>(
    parser: &mut Parser<'a>,
    nodes: Names<'a>,
) -> Result<LooseSections<'a>, LdfFault>
    ensures { Gives result parser.new
        ((gathering no_word loose_section (no_loose_sections nodes.entry) <& end).read parser.old) }
{
    let mut sections = LooseSections::new(parser.alloc(), nodes);
    gather(parser, &mut sections)?;
    parser.end()?;
    Ok(sections)
}

/// Reads an LDF to its end: `header nodes { section }*`, and nothing after.
pub fn file(parser: &mut Parser<'_>) -> Result<Loose, LdfFault>
    ensures { Gives result parser.new (field_file.read parser.old) }
{
    let header = read_header(parser)?;
    let mut names = Names::new(parser.alloc());
    let nodes = nodes(parser, &mut names)?;
    let sections = read_sections(parser, names)?;
    Ok(sections.described(parser.alloc(), header, nodes))
}
