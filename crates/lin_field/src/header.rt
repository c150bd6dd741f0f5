//! The header of a text of the field, whose lines may stand in any order.

ghost use Rattle.std.specs.Prelude.{◌≡◌};
ghost use Rattle.std.specs.Prelude.{◌++◌, OnOk};
ghost use Rattle.lin_ldf.specs.Forms.{Gives, Gathers};
ghost use Rattle.lin_field.specs.Grammar.{line_word, loose_version, loose_speed, other_line, order_line, header_line};
ghost use Rattle.lin_field.specs.Grammar.{header_lines, loose_header, no_lines, is_line_next, order_left_out};

use crate::loose::{Header, RoundedDecimal};
use crate::rounded_decimals::decimal_in;
use lin_ldf::{LdfFault, Parser, TokenKind, once};
use lin_parts::Location;
use lin_parts::description::Name;
use lin_text::{Many, Text};
use std::alloc::{AllocError, Global};

/// The lines of a header that were read.
#[derive(Drop)]
pub struct Lines {
    pub version: Option<Text>,
    pub language: Option<Text>,
    pub speed: Option<RoundedDecimal>,
    pub little_endian: Option<Name>,
    pub big_endian: Option<Name>,
    pub unknown: Many<Name>,
}

const LITTLE_ENDIAN: &[u8] = b"LIN_sig_byte_order_little_endian";

const BIG_ENDIAN: &[u8] = b"LIN_sig_byte_order_big_endian";

/// What the word of a line says.
#[derive(Clone, Copy)]
pub enum LineWord {
    Version,
    Language,
    Speed,
    LittleEndian,
    BigEndian,
    Other,
}

fn line_word(word: &[u8]) -> LineWord
    ensures { result ≡ line_word word.now }
{
    if word == b"LIN_protocol_version".as_slice() {
        LineWord::Version
    } else if word == b"LIN_language_version".as_slice() {
        LineWord::Language
    } else if word == b"LIN_speed".as_slice() {
        LineWord::Speed
    } else if word == LITTLE_ENDIAN {
        LineWord::LittleEndian
    } else if word == BIG_ENDIAN {
        LineWord::BigEndian
    } else {
        LineWord::Other
    }
}

// version = word '=' ( TEXT | NUM ) ';'
fn version(parser: &mut Parser<'_>, word: &[u8]) -> Result<Text, LdfFault>
    ensures { Gives result parser.new ((loose_version word.now).read parser.old) }
{
    parser.keyword_before(word, TokenKind::Equals)?;
    let text = parser.protocol_text()?;
    parser.mark(TokenKind::Semicolon)?;
    Ok(text)
}

// speed = 'LIN_speed' '=' DECR 'kbps' ';'
fn speed(parser: &mut Parser<'_>) -> Result<RoundedDecimal, LdfFault>
    ensures { Gives result parser.new (loose_speed.read parser.old) }
{
    parser.keyword_before(b"LIN_speed", TokenKind::Equals)?;
    decimal_in(parser, b"kbps", TokenKind::Semicolon)
}

// word ';', whose place counts
fn order_line(parser: &mut Parser<'_>, word: &[u8]) -> Result<Name, LdfFault>
    ensures { Gives result parser.new ((order_line word.now).read parser.old) }
{
    if !parser.is_at_word(word) {
        return Err(LdfFault::Unexpected(parser.place()));
    }
    let Location { line, column } = parser.place();
    let text = Text::copied(parser.alloc(), parser.text())?;
    parser.skip();
    parser.mark(TokenKind::Semicolon)?;
    Ok(Name { text, line, column })
}

// other = WORD '=' list ';' | WORD ';', of which the second's word is kept
fn other(parser: &mut Parser<'_>) -> Result<Option<Name>, LdfFault>
    ensures { Gives result parser.new (other_line.read parser.old) }
{
    let name = parser.word()?;
    if parser.is_at(TokenKind::Equals) {
        parser.mark(TokenKind::Equals)?;
        parser.list()?;
        return Ok(None);
    }
    parser.mark(TokenKind::Semicolon)?;
    Ok(Some(name))
}

impl Lines {
    fn new(alloc: Global) -> Lines
        ensures { result ≡ no_lines }
    {
        Lines {
            version: None,
            language: None,
            speed: None,
            little_endian: None,
            big_endian: None,
            unknown: Many::new(Vec::new(alloc)),
        }
    }

    // line = version | language | speed | byte order | other, the first five once at most
    fn add(&mut self, parser: &mut Parser<'_>) -> Result<(), LdfFault>
        ensures { Gathers result self.new parser.new ((header_line self.old).read parser.old) }
    {
        let twice = LdfFault::NameTwice(parser.place());
        match line_word(parser.text()) {
            LineWord::Version => {
                once(&self.version, twice)?;
                self.version = Some(version(parser, b"LIN_protocol_version")?);
            }
            LineWord::Language => {
                once(&self.language, twice)?;
                self.language = Some(version(parser, b"LIN_language_version")?);
            }
            LineWord::Speed => {
                once(&self.speed, twice)?;
                self.speed = Some(speed(parser)?);
            }
            LineWord::LittleEndian => {
                once(&self.little_endian, twice)?;
                self.little_endian = Some(order_line(parser, LITTLE_ENDIAN)?);
            }
            LineWord::BigEndian => {
                once(&self.big_endian, twice)?;
                self.big_endian = Some(order_line(parser, BIG_ENDIAN)?);
            }
            LineWord::Other => {
                if let Some(name) = other(parser)? {
                    self.unknown.push(name)?;
                }
            }
        }
        Ok(())
    }
}

fn is_at_line(parser: &Parser<'_>) -> bool
    ensures { result ≡ is_line_next parser.now }
{
    parser.is_at(TokenKind::Word)
        && !parser.is_at_word(b"LIN_description_file")
        && !parser.is_at_word(b"Nodes")
}

// 'LIN_description_file' ';' { line }*
fn read_lines(parser: &mut Parser<'_>) -> Result<Lines, LdfFault>
    ensures { Gives result parser.new (header_lines.read parser.old) }
{
    parser.keyword_before(b"LIN_description_file", TokenKind::Semicolon)?;
    let mut lines = Lines::new(parser.alloc());
    while is_at_line(parser) {
        lines.add(parser)?;
    }
    Ok(lines)
}

/// Of both lines of the byte order big endian counts, and the other one is left out.
fn add_left_out(
    unknown: &mut Many<Name>,
    little_endian: Option<Name>,
    big_endian: &Option<Name>,
) -> Result<(), AllocError>
    ensures { OnOk result
        (unknown.new ≡ unknown.old ++ order_left_out little_endian big_endian.now) }
{
    match little_endian {
        Some(line) if big_endian.is_some() => unknown.push(line)?,
        _ => {}
    }
    Ok(())
}

/// Reads the header: lines in any order, among them a version and a speed.
pub fn read_header(parser: &mut Parser<'_>) -> Result<Header, LdfFault>
    ensures { Gives result parser.new (loose_header.read parser.old) }
{
    let lines = read_lines(parser)?;
    let mut unknown = lines.unknown;
    add_left_out(&mut unknown, lines.little_endian, &lines.big_endian)?;
    match (lines.version, lines.speed) {
        (Some(version), Some(speed)) => Ok(Header {
            version,
            language: lines.language,
            speed,
            is_big_endian: lines.big_endian.is_some(),
            unknown,
        }),
        _ => Err(LdfFault::Unexpected(parser.place())),
    }
}
