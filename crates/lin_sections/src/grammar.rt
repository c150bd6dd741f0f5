//! How items and lines of the two sections are spelled (LIN 2.2A, section 9.2.6).

ghost use Rattle.std.specs.Prelude.{◌≡◌};
ghost use Rattle.lin_ldf.specs.Forms.{Gives};
ghost use Rattle.lin_sections.specs.Coding.{raw_value, next_raw_value, between_quotes, logical, physical};
ghost use Rattle.lin_sections.specs.Coding.{text_of_item, item, type_head, coded_line};

use crate::reals::real;
use crate::shown_texts::shown_text;
use lin_field::wide_int;
use lin_ldf::{LdfFault, Parser, TokenKind, one_or_more};
use lin_parts::description::Name;
use lin_text::Text;
use lin_values::{CodedLine, Item};

// V = WIDE up to a limit
fn raw_value(parser: &mut Parser<'_>, most: u64) -> Result<u64, LdfFault>
    ensures { Gives result parser.new (raw_value most parser.old) }
{
    let place = parser.place();
    let number = wide_int(parser)?;
    if number.value <= most {
        Ok(number.value)
    } else {
        Err(LdfFault::Unexpected(place))
    }
}

// ',' V
fn next_raw_value(parser: &mut Parser<'_>, most: u64) -> Result<u64, LdfFault>
    ensures { Gives result parser.new (next_raw_value most parser.old) }
{
    parser.mark(TokenKind::Comma)?;
    raw_value(parser, most)
}

fn between_quotes(text: &[u8]) -> &[u8]
    ensures { result.now ≡ between_quotes text.now }
{
    match text {
        [_, inside @ .., _] => inside,
        _ => &[],
    }
}

// [ ',' TEXT ] ';'
fn text_of_item(parser: &mut Parser<'_>) -> Result<Text, LdfFault>
    ensures { Gives result parser.new (text_of_item parser.old) }
{
    let mut text: &[u8] = &[];
    if parser.is_at(TokenKind::Comma) {
        parser.skip();
        if !parser.is_at(TokenKind::Text) {
            return Err(LdfFault::Unexpected(parser.place()));
        }
        text = between_quotes(parser.text());
        parser.skip();
    }
    parser.mark(TokenKind::Semicolon)?;
    Ok(shown_text(parser.alloc(), text)?)
}

// 'logical_value' ',' V [ ',' TEXT ] ';'
fn logical(parser: &mut Parser<'_>, most: u64) -> Result<Item, LdfFault>
    ensures { Gives result parser.new (logical most parser.old) }
{
    parser.keyword(b"logical_value")?;
    let value = next_raw_value(parser, most)?;
    let text = text_of_item(parser)?;
    Ok(Item::Logical { value, text })
}

// 'physical_value' ',' V ',' V ',' REAL ',' REAL [ ',' TEXT ] ';'
fn physical(parser: &mut Parser<'_>, most: u64) -> Result<Item, LdfFault>
    ensures { Gives result parser.new (physical most parser.old) }
{
    parser.keyword(b"physical_value")?;
    let min = next_raw_value(parser, most)?;
    let max = next_raw_value(parser, most)?;
    parser.mark(TokenKind::Comma)?;
    let scale = real(parser)?;
    parser.mark(TokenKind::Comma)?;
    let offset = real(parser)?;
    let unit = text_of_item(parser)?;
    Ok(Item::Physical {
        min,
        max,
        scale,
        offset,
        unit,
    })
}

// item = logical | physical | 'bcd_value' ';' | 'ascii_value' ';'
pub(crate) fn item(parser: &mut Parser<'_>, most: u64) -> Result<Item, LdfFault>
    ensures { Gives result parser.new (item most parser.old) }
{
    if parser.is_at_word(b"logical_value") {
        logical(parser, most)
    } else if parser.is_at_word(b"physical_value") {
        physical(parser, most)
    } else if parser.is_at_word(b"bcd_value") {
        parser.keyword_before(b"bcd_value", TokenKind::Semicolon)?;
        Ok(Item::Bcd)
    } else {
        parser.keyword_before(b"ascii_value", TokenKind::Semicolon)?;
        Ok(Item::Ascii)
    }
}

// WORD '{'
pub(crate) fn type_head(parser: &mut Parser<'_>) -> Result<Name, LdfFault>
    ensures { Gives result parser.new (type_head parser.old) }
{
    parser.word_before(TokenKind::OpenBrace)
}

// WORD ':' words ';'
pub(crate) fn coded_line(parser: &mut Parser<'_>) -> Result<CodedLine, LdfFault>
    ensures { Gives result parser.new (coded_line parser.old) }
{
    let encoding = parser.word_before(TokenKind::Colon)?;
    let signals = one_or_more(parser, &mut (), TokenKind::Semicolon)?;
    Ok(CodedLine { encoding, signals })
}
