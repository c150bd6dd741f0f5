//! `--explain` of a token that can't stand where it does: what could, and where a mark is missing.

use crate::describing::Reading;
use crate::explaining::{place_of, put_place};
use lin_field::read_field;
use lin_ldf::{LdfFault, Location, Parser, parse};
use std::alloc::{AllocError, Global};

/// Names, numbers, texts and marks: what each is called, and one of them.
static TOKENS: [(&str, &[u8]); 9] = [
    ("a name", b"linsim"),
    ("a number", b"1.5"),
    ("a text", b"\"1\""),
    ("','", b","),
    ("';'", b";"),
    ("':'", b":"),
    ("'='", b"="),
    ("'{'", b"{"),
    ("'}'", b"}"),
];

/// The words with which the parts of a text before its sections begin.
static HEADER: [(&str, &[u8]); 5] = [
    ("'LIN_description_file'", b"LIN_description_file"),
    ("'LIN_protocol_version'", b"LIN_protocol_version"),
    ("'LIN_language_version'", b"LIN_language_version"),
    ("'LIN_speed'", b"LIN_speed"),
    ("'Nodes'", b"Nodes"),
];

/// Words that stand in place of a name.
static WITHIN: [(&str, &[u8]); 5] = [
    ("'Master'", b"Master"),
    ("'Slaves'", b"Slaves"),
    ("'kbps'", b"kbps"),
    ("'ms'", b"ms"),
    ("'delay'", b"delay"),
];

/// How many things are told at most.
const MOST: usize = 5;

/// An LDF text up to a place, behind which tokens are tried.
#[derive(Drop)]
struct Beginning<'a> {
    alloc: Global,
    reading: Reading,
    text: &'a [u8],
    tried: Vec<u8>,
    place: Location,
}

/// The part of a text before a place.
pub(crate) fn before(text: &[u8], place: Location) -> &[u8] {
    let mut line: u64 = 1;
    let mut start: usize = 0;
    for (at, byte) in text.iter().enumerate() {
        if line == place.line {
            break;
        }
        if *byte == b'\n' {
            line = line.saturating_add(1);
            start = at.saturating_add(1);
        }
    }
    let end = start.saturating_add(place.column.saturating_sub(1) as usize);
    text.get(..end).unwrap_or(text)
}

impl<'a> Beginning<'a> {
    /// (A token is tried in a line of its own, so that it continues neither the token before it nor a
    /// comment.)
    fn new(alloc: Global, reading: Reading, text: &'a [u8], place: Location) -> Beginning<'a> {
        Beginning {
            alloc,
            reading,
            text: before(text, place),
            tried: Vec::new(alloc),
            place: Location {
                line: place.line.saturating_add(1),
                column: 1,
            },
        }
    }

    /// The first fault of this text with a token behind it.
    fn fault_with(&mut self, token: &[u8]) -> Result<Option<LdfFault>, AllocError> {
        self.tried.clear();
        self.tried.extend_from_slice(self.text)?;
        self.tried.push(b'\n')?;
        self.tried.extend_from_slice(token)?;
        let fault = match self.reading {
            Reading::Plain => parse(self.alloc, self.tried.as_slice()).err(),
            Reading::Field => read_field(self.alloc, self.tried.as_mut_slice()).err(),
        };
        match fault {
            Some(LdfFault::OutOfMemory) => Err(AllocError),
            fault => Ok(fault),
        }
    }

    /// Whether a token can stand here: then the text has no fault up to its end.
    fn takes(&mut self, token: &[u8]) -> Result<bool, AllocError> {
        let Some(fault) = self.fault_with(token)? else {
            return Ok(true);
        };
        let Some((at, _)) = place_of(&fault) else {
            return Ok(false);
        };
        Ok((at.line, at.column) > (self.place.line, self.place.column))
    }

    /// Whether a section can begin here: then `Nodes` would be one twice.
    fn takes_a_section(&mut self) -> Result<bool, AllocError> {
        Ok(matches!(self.fault_with(b"Nodes")?, Some(LdfFault::SectionTwice(_))))
    }

    /// Which of some tokens can stand here.
    fn taken(
        &mut self,
        tokens: &[(&'static str, &'static [u8])],
    ) -> Result<Vec<&'static str>, AllocError> {
        let mut taken = Vec::new(self.alloc);
        for (name, token) in tokens {
            if self.takes(token)? {
                taken.push(*name)?;
            }
        }
        Ok(taken)
    }
}

/// Whether a list of words has one.
fn has(words: &[&str], word: &str) -> bool {
    words.iter().any(|other| *other == word)
}

/// Whether all words are marks, each in quotes.
fn are_marks(words: &[&str]) -> bool {
    words.iter().all(|word| word.len() == 3)
}

/// Where any token can stand, what ends that: a brace, or outside of braces a semicolon.
fn end_of_any(tokens: &[&str]) -> Option<&'static str> {
    let any = ["a name", "a number", "','", "':'", "'='"];
    if !any.iter().all(|word| has(tokens, word)) {
        return None;
    }
    if has(tokens, "'}'") {
        Some("'}'")
    } else {
        Some("';'")
    }
}

/// What can stand at a place of an LDF text in which something stands that can't.
fn wanted(here: &mut Beginning<'_>) -> Result<Vec<&'static str>, AllocError> {
    let mut wanted = Vec::new(here.alloc);
    if here.takes_a_section()? {
        wanted.push("a section")?;
        return Ok(wanted);
    }
    let tokens = here.taken(&TOKENS)?;
    if let Some(end) = end_of_any(tokens.as_slice()) {
        wanted.push(end)?;
        return Ok(wanted);
    }
    let header = here.taken(&HEADER)?;
    if header.len() == 1 {
        wanted.extend_from_slice(header.as_slice())?;
    }
    if !has(tokens.as_slice(), "a name") {
        let within = here.taken(&WITHIN)?;
        wanted.extend_from_slice(within.as_slice())?;
    }
    if !has(tokens.as_slice(), "a number") && here.takes(b"1")? {
        wanted.push("a whole number")?;
    }
    wanted.extend_from_slice(tokens.as_slice())?;
    wanted.truncate(MOST);
    Ok(wanted)
}

/// Where the token before a place ends.
fn end_before(alloc: Global, text: &[u8], place: Location) -> Option<Location> {
    let mut parser = Parser::new(alloc, text);
    let mut end = None;
    for _ in 0..parser.left() {
        let Location { line, column } = parser.place();
        if parser.front_kind().is_none() || (line, column) >= (place.line, place.column) {
            break;
        }
        end = Some(Location {
            line,
            column: column.saturating_add(parser.text().len() as u64),
        });
        parser.skip();
    }
    end
}

/// Puts words, with `or` before the last one.
fn put_words(out: &mut String, words: &[&str]) -> Result<(), AllocError> {
    for (at, word) in words.iter().enumerate() {
        if at > 0 {
            let is_last = at.saturating_add(1) == words.len();
            out.push_str(if is_last { " or " } else { ", " })?;
        }
        out.push_str(word)?;
    }
    Ok(())
}

/// Puts what could stand at a place of an LDF text in which something stands that can't; and where a
/// mark is missing at the end of an earlier line, that line.
pub(crate) fn put_wanted(
    alloc: Global,
    out: &mut String,
    reading: Reading,
    text: &[u8],
    place: Location,
) -> Result<(), AllocError> {
    let mut here = Beginning::new(alloc, reading, text, place);
    let words = wanted(&mut here)?;
    if words.is_empty() {
        return Ok(());
    }
    out.push_str("  expected: ")?;
    put_words(out, words.as_slice())?;
    match end_before(alloc, text, place) {
        Some(end) if end.line < place.line && are_marks(words.as_slice()) => {
            writeln!(out, ", at the end of line {}", end.line)?;
            put_place(out, text, end)
        }
        _ => out.push_str("\n"),
    }
}
