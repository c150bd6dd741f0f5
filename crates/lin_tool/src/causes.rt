//! `--explain` of a fault of an LDF text whose cause is known: what is wrong, and what to change.

use crate::explaining::put_shown;
use crate::misspelled::first_word;
use crate::wanted::before;
use lin_ldf::{LdfFault, Location, Parser, TokenKind};
use std::alloc::{AllocError, Global};

/// Quotes of word processors, in UTF-8 and in Windows-1252.
static QUOTES: [&[u8]; 6] = [
    b"\xE2\x80\x9C",
    b"\xE2\x80\x9D",
    b"\xE2\x80\x9E",
    b"\x93",
    b"\x94",
    b"\x84",
];

/// Words with which sections begin.
static SECTIONS: [&[u8]; 10] = [
    b"Nodes",
    b"Signals",
    b"Diagnostic_signals",
    b"Frames",
    b"Sporadic_frames",
    b"Event_triggered_frames",
    b"Diagnostic_frames",
    b"Node_attributes",
    b"Schedule_tables",
    b"Signal_encoding_types",
];

/// Whether a text begins with the byte-order mark of UTF-16.
pub(crate) fn is_utf16(text: &[u8]) -> bool {
    text.starts_with(b"\xFF\xFE") || text.starts_with(b"\xFE\xFF")
}

/// What is wrong at a place of a text, by the bytes before it and from it on; nothing where that isn't
/// known.
fn cause_of(before: &[u8], rest: &[u8], last: Option<TokenKind>) -> Option<&'static str> {
    let is_after_digit = before.last().is_some_and(|byte| byte.is_ascii_digit());
    let is_before_digit = rest.get(1).is_some_and(|byte| byte.is_ascii_digit());
    if rest.starts_with(b",") && is_after_digit && is_before_digit {
        Some("decimal comma\n  help: write a decimal point")
    } else if QUOTES.iter().any(|quote| rest.starts_with(*quote)) {
        Some("typographic quote\n  help: write \" around strings")
    } else if rest.starts_with(b";") && last == Some(TokenKind::CloseBrace) {
        Some("semicolon after a closing brace\n  help: delete the semicolon")
    } else if before.ends_with(b"_endian") || first_word(rest).ends_with(b"_endian") {
        Some("byte order of ISO 17987\n  help: use --field")
    } else {
        None
    }
}

/// A brace that is open: the first word of what it belongs to, and where the brace is.
#[derive(Clone, Copy)]
struct Brace<'a> {
    word: &'a [u8],
    place: Location,
}

/// What precedes a place: the braces that are open there, the last token, and its kind.
#[derive(Drop)]
struct Preceding<'a> {
    braces: Vec<Brace<'a>>,
    token: &'a [u8],
    last: Option<TokenKind>,
}

impl Preceding<'_> {
    /// Whether what is from a place on shows that the last brace should be closed: the end of the text,
    /// the beginning of a section, or the colon of a frame within another.
    fn is_unclosed(&self, rest: &[u8]) -> bool {
        let word = if rest.starts_with(b"{") {
            self.token
        } else {
            first_word(rest)
        };
        let is_section = SECTIONS.iter().any(|section| *section == word);
        rest.is_empty() || is_section || (rest.starts_with(b":") && self.braces.len() > 1)
    }
}

/// What precedes a place of a text.
fn preceding_at(alloc: Global, text: &[u8], place: Location) -> Result<Preceding<'_>, AllocError> {
    let mut parser = Parser::new(alloc, text);
    let mut opened = Preceding {
        braces: Vec::new(alloc),
        token: &[],
        last: None,
    };
    let mut word: &[u8] = &[];
    for _ in 0..parser.left() {
        let Location { line, column } = parser.place();
        let Some(kind) = parser.front_kind() else {
            break;
        };
        if (line, column) >= (place.line, place.column) {
            break;
        }
        match kind {
            TokenKind::OpenBrace => {
                let place = Location { line, column };
                opened.braces.push(Brace { word, place })?;
                word = &[];
            }
            TokenKind::CloseBrace => {
                opened.braces.pop();
                word = &[];
            }
            TokenKind::Semicolon => word = &[],
            TokenKind::Word if word.is_empty() => word = parser.text(),
            _ => {}
        }
        opened.token = parser.text();
        opened.last = Some(kind);
        parser.skip();
    }
    Ok(opened)
}

/// Puts the last brace that is open, where it should be closed.
fn put_open_brace(out: &mut String, opened: &Preceding<'_>, rest: &[u8]) -> Result<(), AllocError> {
    match opened.braces.last() {
        Some(Brace { word, place }) if opened.is_unclosed(rest) => {
            out.push_str("  the brace of ")?;
            put_shown(out, word)?;
            let Location { line, column } = *place;
            writeln!(
                out,
                " isn't closed: opened at {line}:{column}\n  help: add the missing brace"
            )
        }
        _ => Ok(()),
    }
}

/// Puts what causes the fault at a place of a text, where that is known.
pub(crate) fn put_cause(
    alloc: Global,
    out: &mut String,
    text: &[u8],
    fault: &LdfFault,
    place: Location,
) -> Result<(), AllocError> {
    let before = before(text, place);
    let rest = text.get(before.len()..).unwrap_or(&[]);
    let opened = preceding_at(alloc, text, place)?;
    if let Some(cause) = cause_of(before, rest, opened.last) {
        return writeln!(out, "  {cause}");
    }
    match fault {
        LdfFault::Unexpected(_) => put_open_brace(out, &opened, rest),
        _ => Ok(()),
    }
}
