//! `--explain` of names that nothing declares, and of words that LIN doesn't have.

use crate::describing::Reading;
use crate::explaining::put_shown;
use crate::nearest::edits_between;
use crate::wanted::before;
use lin_cluster::Finding;
use lin_field::{Normalized, read_field, settle};
use lin_ldf::{
    ATTRIBUTE_WORDS, Description, LdfFault, Location, MOST_UNKNOWN, Parser, SECTION_WORDS,
    TokenKind, UnknownWord, UnknownWords, parse,
};
use lin_sections::unknown_words;
use std::alloc::{AllocError, Global};

/// The words of node configuration commands (LIN 2.2A, 9.2.5).
static COMMAND_WORDS: [&[u8]; 7] = [
    b"AssignNAD",
    b"AssignFrameId",
    b"AssignFrameIdRange",
    b"ConditionalChangeNAD",
    b"DataDump",
    b"SaveConfiguration",
    b"FreeFormat",
];

/// What a name that nothing declares should be.
#[derive(Clone, Copy)]
enum Kind {
    Node,
    Signal,
    Frame,
    Table,
    Entry,
}

/// What an LDF text describes; nothing where it is at fault.
pub(crate) fn described(
    alloc: Global,
    reading: Reading,
    text: &[u8],
) -> Result<Option<Description>, AllocError> {
    let read = match reading {
        Reading::Plain => parse(alloc, text),
        Reading::Field => {
            let mut copy = Vec::from_slice(alloc, text)?;
            match read_field(alloc, copy.as_mut_slice()) {
                Ok(read) => {
                    let Normalized {
                        header: _header,
                        description,
                        wide: _wide,
                        placed_elsewhere: _placed_elsewhere,
                        warnings: _warnings,
                        byte_order: _byte_order,
                    } = settle(alloc, read)?;
                    Ok(description)
                }
                Err(fault) => Err(fault),
            }
        }
    };
    match read {
        Ok(description) => Ok(Some(description)),
        Err(LdfFault::OutOfMemory) => Err(AllocError),
        Err(_) => Ok(None),
    }
}

/// The name that is most similar to a word, if at most half of its letters differ. Names that differ
/// only by upper and lower case are the most similar.
#[derive(Drop)]
struct Nearest<'w, 'a> {
    alloc: Global,
    word: &'w [u8],
    edits: usize,
    name: Option<&'a [u8]>,
}

impl<'w, 'a> Nearest<'w, 'a> {
    fn new(alloc: Global, word: &'w [u8]) -> Nearest<'w, 'a> {
        Nearest {
            alloc,
            word,
            edits: word.len() / 2 + 1,
            name: None,
        }
    }

    fn ask(&mut self, name: &'a [u8]) -> Result<(), AllocError> {
        let edits = if name.eq_ignore_ascii_case(self.word) {
            0
        } else {
            edits_between(self.alloc, name, self.word)?
        };
        if edits < self.edits {
            self.edits = edits;
            self.name = Some(name);
        }
        Ok(())
    }

    fn ask_nodes(&mut self, description: &'a Description) -> Result<(), AllocError> {
        self.ask(description.master().text.as_slice())?;
        for node in description.slaves() {
            self.ask(node.text.as_slice())?;
        }
        Ok(())
    }

    fn ask_signals(&mut self, description: &'a Description) -> Result<(), AllocError> {
        for signal in description.signals() {
            self.ask(signal.name.text.as_slice())?;
        }
        Ok(())
    }

    fn ask_plain_frames(&mut self, description: &'a Description) -> Result<(), AllocError> {
        for frame in description.frames() {
            self.ask(frame.name.text.as_slice())?;
        }
        Ok(())
    }

    fn ask_sporadic(&mut self, description: &'a Description) -> Result<(), AllocError> {
        for frame in description.sporadic() {
            self.ask(frame.name.text.as_slice())?;
        }
        Ok(())
    }

    fn ask_events(&mut self, description: &'a Description) -> Result<(), AllocError> {
        for frame in description.events() {
            self.ask(frame.name.text.as_slice())?;
        }
        Ok(())
    }

    fn ask_tables(&mut self, description: &'a Description) -> Result<(), AllocError> {
        for table in description.tables() {
            self.ask(table.name.text.as_slice())?;
        }
        Ok(())
    }
}

/// Puts a name that is similar to the one in a text, and what has this name; nothing without one.
fn put_similar(out: &mut String, what: &str, name: Option<&[u8]>) -> Result<(), AllocError> {
    let Some(name) = name else {
        return Ok(());
    };
    write!(out, "  similar name: the {what} ")?;
    put_shown(out, name)?;
    out.push_str("\n")
}

/// The word that begins a text.
pub(crate) fn first_word(text: &[u8]) -> &[u8] {
    let len = text
        .iter()
        .take_while(|byte| byte.is_ascii_alphanumeric() || **byte == b'_')
        .count();
    text.get(..len).unwrap_or(text)
}

/// The word at a place of a text.
fn name_at(text: &[u8], place: Location) -> &[u8] {
    first_word(text.get(before(text, place).len()..).unwrap_or(&[]))
}

/// Puts the declared name that is nearest to one that nothing declares, of the kind that is wanted
/// there; nothing where none is near.
pub(crate) fn put_near(
    alloc: Global,
    out: &mut String,
    text: &[u8],
    description: &Description,
    place: Location,
) -> Result<(), AllocError> {
    let mut near = Nearest::new(alloc, name_at(text, place));
    let kind = match kind_at(alloc, text, place) {
        Kind::Node => {
            near.ask_nodes(description)?;
            "node"
        }
        Kind::Signal => {
            near.ask_signals(description)?;
            "signal"
        }
        Kind::Table => {
            near.ask_tables(description)?;
            "schedule table"
        }
        Kind::Frame => {
            near.ask_plain_frames(description)?;
            near.ask_sporadic(description)?;
            near.ask_events(description)?;
            "frame"
        }
        Kind::Entry => {
            near.ask_plain_frames(description)?;
            near.ask_sporadic(description)?;
            near.ask_events(description)?;
            near.ask(b"MasterReq")?;
            near.ask(b"SlaveResp")?;
            "frame"
        }
    };
    put_similar(out, kind, near.name)
}

/// Puts the node configuration command whose word is the most similar to the one at a place, which no
/// command has; nothing if none is similar.
pub(crate) fn put_near_command(
    alloc: Global,
    out: &mut String,
    text: &[u8],
    place: Location,
) -> Result<(), AllocError> {
    let mut nearest = Nearest::new(alloc, name_at(text, place));
    for command in COMMAND_WORDS.iter() {
        nearest.ask(*command)?;
    }
    put_similar(out, "command", nearest.name)
}

/// A scan of a text: how many braces are open, and the last section's word.
#[derive(Drop)]
pub(crate) struct Scan<'a> {
    pub parser: Parser<'a>,
    pub depth: u64,
    pub section: &'a [u8],
}

impl<'a> Scan<'a> {
    pub(crate) fn new(alloc: Global, text: &'a [u8]) -> Scan<'a> {
        Scan {
            parser: Parser::new(alloc, text),
            depth: 0,
            section: &[],
        }
    }

    /// What a name behind a token should be: a member or an entry is a frame.
    fn kind_after(&self, last: Option<TokenKind>) -> Kind {
        match (self.section, self.depth) {
            (b"Nodes" | b"Signals" | b"Diagnostic_addresses", _)
            | (b"Frames" | b"Node_attributes", 1) => Kind::Node,
            (b"Frames" | b"Node_attributes", 2)
            | (b"Signal_groups" | b"Signal_representation", _) => Kind::Signal,
            (b"Event_triggered_frames", _) if last == Some(TokenKind::Colon) => Kind::Table,
            (b"Schedule_tables", _) => Kind::Entry,
            _ => Kind::Frame,
        }
    }

    /// Passes over a token.
    pub(crate) fn pass(&mut self, kind: TokenKind, word: &'a [u8]) {
        match kind {
            TokenKind::OpenBrace => self.depth = self.depth.saturating_add(1),
            TokenKind::CloseBrace => self.depth = self.depth.saturating_sub(1),
            TokenKind::Word if self.depth == 0 => self.section = word,
            _ => {}
        }
    }

    /// Passes over the tokens before a place, and returns the kind of the last one.
    fn pass_to(&mut self, place: Location) -> Option<TokenKind> {
        let mut last = None;
        for _ in 0..self.parser.left() {
            let Location { line, column } = self.parser.place();
            let Some(kind) = self.parser.front_kind() else {
                break;
            };
            if (line, column) >= (place.line, place.column) {
                break;
            }
            let word = self.parser.text();
            self.parser.skip();
            self.pass(kind, word);
            last = Some(kind);
        }
        last
    }
}

/// What a name at a place of an LDF text should be: told by the section in which it is, since a name
/// that nothing declares may be left out of what the text describes.
fn kind_at(alloc: Global, text: &[u8], place: Location) -> Kind {
    let mut scan = Scan::new(alloc, text);
    let last = scan.pass_to(place);
    scan.kind_after(last)
}

/// The word at a place that isn't before the scan's: outside of all braces it is a section's, and
/// otherwise an attribute's.
fn word_at<'a>(scan: &mut Scan<'a>, place: Location) -> UnknownWord<'a> {
    let _last = scan.pass_to(place);
    UnknownWord {
        is_section: scan.depth == 0,
        text: scan.parser.text(),
    }
}

/// What a word is the name of.
fn named_by(word: UnknownWord<'_>) -> &'static str {
    if word.is_section {
        "section"
    } else {
        "attribute"
    }
}

/// The word of a section or an attribute of LIN that is the most similar to one that LIN doesn't have;
/// nothing if none is similar.
fn similar_word(alloc: Global, word: UnknownWord<'_>) -> Result<Option<&'static [u8]>, AllocError> {
    let known = if word.is_section {
        SECTION_WORDS.as_slice()
    } else {
        ATTRIBUTE_WORDS.as_slice()
    };
    let mut nearest = Nearest::new(alloc, word.text);
    for other in known {
        nearest.ask(*other)?;
    }
    Ok(nearest.name)
}

/// The place of a finding.
fn place_at(finding: &Finding) -> Location {
    Location {
        line: finding.line,
        column: finding.column,
    }
}

/// Puts the section or attribute of LIN whose word is the most similar to the one at a place, which LIN
/// doesn't have; nothing if none is similar.
pub(crate) fn put_near_word(
    alloc: Global,
    out: &mut String,
    text: &[u8],
    place: Location,
) -> Result<(), AllocError> {
    let word = word_at(&mut Scan::new(alloc, text), place);
    put_similar(out, named_by(word), similar_word(alloc, word)?)
}

/// Puts each of the first 256 sections and attributes of an LDF text that LIN doesn't have, if its word
/// is similar to one that LIN has.
pub(crate) fn put_unread(alloc: Global, out: &mut String, text: &[u8]) -> Result<(), AllocError> {
    let unknown = unknown_words(alloc, text)?;
    let mut scan = Scan::new(alloc, text);
    for finding in unknown.as_slice().iter().take(MOST_UNKNOWN) {
        let place = place_at(finding);
        let word = word_at(&mut scan, place);
        if let Some(similar) = similar_word(alloc, word)? {
            let what = named_by(word);
            write!(out, "  {}:{} the {what} ", place.line, place.column)?;
            put_shown(out, word.text)?;
            out.push_str(" is ignored; did you mean ")?;
            put_shown(out, similar)?;
            out.push_str("?\n")?;
        }
    }
    Ok(())
}

/// How many sections and attributes of an LDF text LIN doesn't have, if one of the first 256 is similar
/// to one that it has; otherwise 0.
pub(crate) fn count_if_similar(
    alloc: Global,
    unknown: &UnknownWords<'_>,
) -> Result<usize, AllocError> {
    for word in unknown.first.as_slice() {
        if similar_word(alloc, *word)?.is_some() {
            return Ok(unknown.number);
        }
    }
    Ok(0)
}
