//! What the attributes of nodes say (LIN 2.2A, section 9.2.2.2), and the version in the header (section
//! 9.1).

ghost use Rattle.std.specs.Prelude.{◌≡◌, IfOk, List};
ghost use Rattle.std.specs.Option.{option_map};
ghost use Rattle.lin_ldf.specs.Forms.{Gives, tail};
ghost use Rattle.lin_ldf.specs.Stream.{start_of};
ghost use Rattle.lin_ldf.specs.Symbols.{symbols_in};
ghost use Rattle.lin_ldf.specs.Tokens.{AreTokens};
ghost use Rattle.lin_ldf.specs.declared.token.Token.{Token};
ghost use Rattle.lin_sections.specs.AttributeValues.{header_version, is_one_word, is_timing};
ghost use Rattle.lin_sections.specs.AttributeValues.{product_id, product_of, milliseconds_form, milliseconds_in};
ghost use Rattle.lin_sections.specs.AttributeValues.{variant, version_line};
ghost use Rattle.lin_sections.specs.Stops.{Stops};

use crate::attribute_blocks::Attribute;
use crate::skipping::has_line;
use crate::statements::pass_statement;
use crate::stops::{mark_next, next_to, number_next, value_read};
use lin_ldf::{LdfFault, Parser, TokenKind};
use lin_parts::Product;
use lin_parts::description::Number;
use lin_text::Text;
use std::alloc::{AllocError, Global};

/// Returns what was read, or `None` if it wasn't in its form.
pub(crate) fn if_read<T: Drop>(read: Result<T, LdfFault>) -> Result<Option<T>, AllocError>
    ensures { (form : _) (left : _) → Gives read left form
        → IfOk result (λ found. found ≡ option_map (λ r. r.0) form) }
{
    match read {
        Ok(value) => Ok(Some(value)),
        Err(fault) => match fault {
            LdfFault::OutOfMemory => Err(AllocError),
            _ => Ok(None),
        },
    }
}

// '=' DEC 'ms' ';'
fn time(parser: &mut Parser<'_>) -> Result<Number, LdfFault>
    ensures { Gives result parser.new (milliseconds_form.read parser.old) }
{
    parser.mark(TokenKind::Equals)?;
    parser.dec_in(b"ms", TokenKind::Semicolon)
}

// [ ',' INT up to 255 ]
fn variant(parser: &mut Parser<'_>) -> Result<u8, LdfFault>
    ensures { Stops result parser.new (variant parser.old) }
{
    if !parser.is_at(TokenKind::Comma) {
        return Ok(0);
    }
    let number = next_to(parser, 0xFF)?;
    Ok(number.value as u8)
}

/// Reads `= S, F [, V] ;`, the value of `product_id`.
pub(crate) fn product_id(parser: &mut Parser<'_>) -> Result<Product, LdfFault>
    ensures { Stops result parser.new (product_id parser.old) }
{
    mark_next(parser, TokenKind::Equals)?;
    let supplier = number_next(parser, 0, 0x7FFE)?;
    let function = next_to(parser, 0xFFFE)?;
    let variant = variant(parser)?;
    mark_next(parser, TokenKind::Semicolon)?;
    Ok(Product {
        supplier: supplier.value as u16,
        function: function.value as u16,
        variant,
    })
}

/// Whether a parser is at '=' WORD ';'.
fn is_one_word(parser: Parser<'_>) -> bool
    ensures { result ≡ is_one_word parser.entry }
{
    let mut ahead = parser;
    if !ahead.is_at(TokenKind::Equals) {
        return false;
    }
    ahead.skip();
    if !ahead.is_at(TokenKind::Word) {
        return false;
    }
    ahead.skip();
    ahead.is_at(TokenKind::Semicolon)
}

impl<'a> Attribute<'a> {
    /// Returns its time in microseconds, as of `= 50 ms ;`, or `None` if its value isn't a time.
    ///
    /// An error means out of memory.
    pub fn time(&self) -> Result<Option<u32>, AllocError>
        ensures { IfOk result (λ time. time ≡ milliseconds_in self.now) }
    {
        let mut value = self.value();
        match if_read(time(&mut value))? {
            Some(number) => Ok(Some(number.value)),
            None => Ok(None),
        }
    }

    /// Returns its product identification, as of `= 0x7D, 0x103, 1 ;`, or `None` if its value isn't one.
    ///
    /// An error means out of memory.
    pub fn product(&self) -> Result<Option<Product>, AllocError>
        ensures { IfOk result (λ product. product ≡ product_of self.now) }
    {
        let mut value = self.value();
        value_read(product_id(&mut value))
    }

    /// Whether its value is one word, as `= Error ;`.
    pub fn is_one_word(&self) -> bool
        ensures { result ≡ is_one_word (tail self.now) }
    {
        is_one_word(self.value())
    }

    /// Whether it has the word of a time (`P2_min`, `ST_min`, `N_As_timeout`, `N_Cr_timeout`).
    pub fn is_timing(&self) -> bool
        ensures { result ≡ is_timing self.now }
    {
        self.is(b"P2_min")
            || self.is(b"ST_min")
            || self.is(b"N_As_timeout")
            || self.is(b"N_Cr_timeout")
    }
}

// 'LIN_protocol_version' '=' ( TEXT | NUM ) ';'
fn version_line(parser: &mut Parser<'_>) -> Result<Text, LdfFault>
    ensures { Gives result parser.new (version_line.read parser.old) }
{
    parser.keyword_before(b"LIN_protocol_version", TokenKind::Equals)?;
    let text = parser.protocol_text()?;
    parser.mark(TokenKind::Semicolon)?;
    Ok(text)
}

/// Reads the version in the header of an LDF text, `LIN_protocol_version`, without its quotes.
///
/// The text is one that was read as an LDF text. In any other, reading ends as that of `read_attributes`
/// does. An error means out of memory.
pub fn header_version(alloc: Global, source: &[u8]) -> Result<Option<Text>, AllocError>
    ensures read { IfOk result
        (λ v. v ≡ header_version (symbols_in source.now (start_of source.now).tokens)) }
    ensures tokens { (ts : List Token) → AreTokens source.now ts
        → IfOk result (λ v. v ≡ header_version (symbols_in source.now ts)) }
{
    let mut parser = Parser::new(alloc, source);
    while has_line(&parser) {
        if parser.is_at_word(b"LIN_protocol_version") {
            return if_read(version_line(&mut parser));
        }
        pass_statement(&mut parser)?;
    }
    Ok(None)
}
