//! The two sections of encodings, read from a text. What is in no form is noted, and passed over.

ghost use Rattle.std.specs.Prelude.{◌≡◌, ℕ, IfOk, List, OnOk, false, true};
ghost use Rattle.lin_ldf.specs.Forms.{Gives, has_front};
ghost use Rattle.lin_ldf.specs.Symbols.{symbols_in};
ghost use Rattle.lin_ldf.specs.Stream.{start_of};
ghost use Rattle.lin_ldf.specs.Tokens.{AreTokens};
ghost use Rattle.lin_ldf.specs.declared.token.Token.{Token};
ghost use Rattle.lin_sections.specs.Passed.{has_line};
ghost use Rattle.lin_sections.specs.Reading.{IsOrBad, codings, codings_up_to, field_codings, found_of};
ghost use Rattle.lin_sections.specs.Reading.{nothing_read, with_item};
ghost use Rattle.lin_sections.specs.Reading.{with_items, with_coded_line, with_lines, with_statement};
ghost use Rattle.lin_sections.specs.Reading.{with_type, with_types};

use crate::grammar::{coded_line, item, type_head};
use crate::mentioned::mentions;
use crate::skipping::{has_line, pass_block, pass_closing, pass_group, pass_line};
use lin_field::copied;
use lin_ldf::{LdfFault, Parser, TokenKind};
use lin_parts::Location;
use lin_parts::description::Name;
use lin_text::Many;
use lin_values::{CodedLine, CodingType, Codings, PlacedItem};
use std::alloc::{AllocError, Global};

/// What was read so far.
#[derive(Drop)]
struct ReadCodings {
    types: Vec<CodingType>,
    lines: Vec<CodedLine>,
    bad: Vec<Location>,
}

/// What was read ahead, if it is in a form; the parser then stands behind it. Else the place where
/// it begins is noted, and the parser stays there.
fn or_bad<'a, T: Drop>(
    parser: &mut Parser<'a>,
    ahead: Parser<'a>,
    read: Result<T, LdfFault>,
    bad: &mut Vec<Location>,
) -> Result<Option<T>, AllocError>
    requires { has_front parser.old ≡ true }
    ensures { (form : _) → Gives read ahead.entry form → IfOk result
        (λ found. IsOrBad found form parser.old parser.new bad.old.items bad.new.items) }
{
    match read {
        Ok(value) => {
            *parser = ahead;
            Ok(Some(value))
        }
        Err(LdfFault::OutOfMemory) => Err(AllocError),
        Err(_) => {
            bad.push(parser.place())?;
            Ok(None)
        }
    }
}

/// An item, or a line that is none.
fn add_item(
    parser: &mut Parser<'_>,
    most: u64,
    items: &mut Vec<PlacedItem>,
    bad: &mut Vec<Location>,
) -> Result<(), AllocError>
    requires { has_line parser.old ≡ true }
    ensures { OnOk result ((parser.new, (items.new.items, bad.new.items))
        ≡ with_item most (parser.old, (items.old.items, bad.old.items))) }
{
    let place = parser.place();
    let mut ahead = parser.ahead();
    let read = item(&mut ahead, most);
    match or_bad(parser, ahead, read, bad)? {
        Some(item) => items.push(PlacedItem { item, place })?,
        None => pass_line(parser),
    }
    Ok(())
}

/// The items of a type, up to its closing brace.
fn items(
    parser: &mut Parser<'_>,
    most: u64,
    bad: &mut Vec<Location>,
) -> Result<Vec<PlacedItem>, AllocError>
    ensures { IfOk result (λ items. (parser.new, (items.items, bad.new.items))
        ≡ with_items most parser.old bad.old.items) }
{
    let mut items = Vec::new(parser.alloc());
    while has_line(parser) {
        add_item(parser, most, &mut items, bad)?;
    }
    pass_closing(parser);
    Ok(items)
}

/// A type, or what is none, up to the end of its group.
fn add_type(parser: &mut Parser<'_>, most: u64, found: &mut ReadCodings) -> Result<(), AllocError>
    requires { has_line parser.old ≡ true }
    ensures { OnOk result
        ((parser.new, found_of found.new) ≡ with_type most parser.old (found_of found.old)) }
{
    let mut ahead = parser.ahead();
    let read = type_head(&mut ahead);
    let Some(name) = or_bad(parser, ahead, read, &mut found.bad)? else {
        pass_block(parser);
        return Ok(());
    };
    let items = items(parser, most, &mut found.bad)?;
    let items = Many::new(items);
    found.types.push(CodingType { name, items })?;
    Ok(())
}

/// The types of a section, from its opening brace on.
fn add_types(parser: &mut Parser<'_>, most: u64, found: &mut ReadCodings) -> Result<(), AllocError>
    ensures { OnOk result
        ((parser.new, found_of found.new) ≡ with_types most parser.old (found_of found.old)) }
{
    parser.skip();
    while has_line(parser) {
        add_type(parser, most, found)?;
    }
    pass_closing(parser);
    Ok(())
}

/// A line of signals, or one that is none.
fn add_line(parser: &mut Parser<'_>, found: &mut ReadCodings) -> Result<(), AllocError>
    requires { has_line parser.old ≡ true }
    ensures { OnOk result
        ((parser.new, found_of found.new) ≡ with_coded_line parser.old (found_of found.old)) }
{
    let mut ahead = parser.ahead();
    let read = coded_line(&mut ahead);
    match or_bad(parser, ahead, read, &mut found.bad)? {
        Some(line) => found.lines.push(line)?,
        None => pass_line(parser),
    }
    Ok(())
}

/// The lines of a section, from its opening brace on.
fn add_lines(parser: &mut Parser<'_>, found: &mut ReadCodings) -> Result<(), AllocError>
    ensures { OnOk result
        ((parser.new, found_of found.new) ≡ with_lines parser.old (found_of found.old)) }
{
    parser.skip();
    while has_line(parser) {
        add_line(parser, found)?;
    }
    pass_closing(parser);
    Ok(())
}

/// One of the two sections, or what else begins with the next token outside of all braces: a
/// section, or a line.
fn add_statement(
    parser: &mut Parser<'_>,
    most: u64,
    found: &mut ReadCodings,
) -> Result<(), AllocError>
    requires { has_front parser.old ≡ true }
    ensures { OnOk result
        ((parser.new, found_of found.new) ≡ with_statement most parser.old (found_of found.old)) }
{
    let is_word = parser.is_at(TokenKind::Word);
    let word = parser.text();
    parser.skip();
    if !is_word {
        return Ok(());
    }
    if !parser.is_at(TokenKind::OpenBrace) {
        pass_line(parser);
        return Ok(());
    }
    if word == b"Signal_encoding_types".as_slice() {
        add_types(parser, most, found)
    } else if word == b"Signal_representation".as_slice() {
        add_lines(parser, found)
    } else {
        pass_group(parser);
        Ok(())
    }
}

/// Whether a text may have one of the two sections.
fn may_have_sections(source: &[u8]) -> bool
    ensures { (ts : List Token) → result ≡ false
        → (most : ℕ) → codings_up_to most (symbols_in source.now ts) ≡ nothing_read }
{
    mentions(source, b"Signal_encoding_types") || mentions(source, b"Signal_representation")
}

/// What the two sections of a text say, with values up to a limit.
fn found_in(alloc: Global, source: &[u8], most: u64) -> Result<ReadCodings, AllocError>
    ensures { IfOk result (λ f. found_of f
        ≡ codings_up_to most (symbols_in source.now (start_of source.now).tokens)) }
{
    let mut found = ReadCodings {
        types: Vec::new(alloc),
        lines: Vec::new(alloc),
        bad: Vec::new(alloc),
    };
    if !may_have_sections(source) {
        return Ok(found);
    }
    let mut parser = Parser::new(alloc, source);
    while parser.front_kind().is_some() {
        add_statement(&mut parser, most, &mut found)?;
    }
    Ok(found)
}

/// What the sections `Signal_encoding_types` and `Signal_representation` of an LDF text say (LIN
/// 2.2A, section 9.2.6), wherever they stand among its sections. It is never a fault: an item or a
/// line that is in no form is noted, and reading goes on behind the next semicolon of its depth. A
/// type whose name isn't a word is noted, and reading goes on behind its group. A text that doesn't
/// mention the sections is only searched for their words.
///
/// The text is one that was read as an LDF text; of any other the tokens before the first fault of
/// its tokens are read. An error means out of memory.
pub fn read_codings(alloc: Global, source: &[u8]) -> Result<Codings, AllocError>
    ensures read { IfOk result
        (λ c. c ≡ codings (symbols_in source.now (start_of source.now).tokens)) }
    ensures tokens { (ts : List Token) → AreTokens source.now ts
        → IfOk result (λ c. c ≡ codings (symbols_in source.now ts)) }
{
    let ReadCodings { types, lines, bad } = found_in(alloc, source, 65_535)?;
    Ok(Codings {
        types: Many::new(types),
        lines: Many::new(lines),
        bad: Many::new(bad),
        wide: Many::new(Vec::new(alloc)),
    })
}

/// Copies names.
fn copied_names(alloc: Global, names: &[Name]) -> Result<Many<Name>, AllocError>
    ensures { IfOk result (λ all. all ≡ names.now) }
{
    let mut all = Vec::with_capacity(alloc, names.len())?;
    for name in names {
        all.push(copied(alloc, name)?)?;
    }
    Ok(Many::new(all))
}

/// What the two sections of a text say that `--field` reads, whose values have up to 64 bits. `wide` are
/// the names of the wide signals.
///
/// An error means out of memory.
pub fn read_field_codings(
    alloc: Global,
    source: &[u8],
    wide: &[Name],
) -> Result<Codings, AllocError>
    ensures read { IfOk result
        (λ c. c ≡ field_codings wide.now (symbols_in source.now (start_of source.now).tokens)) }
    ensures tokens { (ts : List Token) → AreTokens source.now ts
        → IfOk result (λ c. c ≡ field_codings wide.now (symbols_in source.now ts)) }
{
    let ReadCodings { types, lines, bad } = found_in(alloc, source, u64::MAX)?;
    Ok(Codings {
        types: Many::new(types),
        lines: Many::new(lines),
        bad: Many::new(bad),
        wide: copied_names(alloc, wide)?,
    })
}
