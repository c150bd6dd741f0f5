//! The facts of the header.

ghost use Rattle.std.specs.Prelude.{◌≡◌, ◌++◌, ◌∷◌, [], IfOk, OnOk, filter, find, if◌then◌else◌, map};
ghost use Rattle.std.specs.Option.{option_copied};
ghost use Rattle.lin_ldf.specs.Words.{is_word_next};
ghost use Rattle.lin_sections.specs.Facts.{place_of_number};
ghost use Rattle.lin_sections.specs.Things.{compared_data, header_facts, header_thing, is_other_line};
ghost use Rattle.lin_sections.specs.Things.{line_fact, number_fact, version_fact, version_facts};
ghost use Rattle.lin_sections.specs.Things.{version_value, IsReadOf};

use crate::attribute_blocks::Attribute;
use crate::diff::compared::LdfFacts;
use crate::diff::fact::{Class, Fact, Thing, ThingKind, add_fact};
use crate::diff::fact_text::{FactText, two_words};
use crate::diff::numbering::numbered;
use crate::diff::tokens::{Spelling, between_quotes, value_text};
use crate::shown_texts::shown_text;
use lin_ldf::{Parser, TokenKind};
use lin_parts::Location;
use lin_parts::description::Number;
use std::alloc::{AllocError, Global};

/// Returns the place of a number.
pub(crate) fn place_of(number: Number) -> Location
    ensures { result ≡ place_of_number number }
{
    Location {
        line: number.line,
        column: number.column,
    }
}

/// Adds the fact of a number.
pub(crate) fn add_number<'a>(
    alloc: Global,
    facts: &mut Vec<Fact<'a>>,
    key: &'static [u8],
    number: Number,
    class: Class,
) -> Result<(), AllocError>
    ensures { OnOk result
        (facts.new.items ≡ facts.old.items ++ number_fact key.now number class ∷ []) }
{
    let value = FactText::number(alloc, u64::from(number.value))?;
    add_fact(facts, key, value, place_of(number), class)
}

/// Returns a version without its quotes.
fn version_text<'a>(alloc: Global, parser: &Parser<'a>) -> Result<FactText<'a>, AllocError>
    ensures { IfOk result (λ t. t ≡ version_value parser.now) }
{
    if parser.is_at(TokenKind::Text) {
        return Ok(FactText::made(shown_text(alloc, between_quotes(parser.text()))?));
    }
    Ok(FactText::lent(parser.text()))
}

/// Returns the first line that begins with a word.
fn line_with<'l, 'a>(lines: &'l [Attribute<'a>], word: &[u8]) -> Option<&'l Attribute<'a>>
    ensures { option_copied result ≡ find (is_word_next word.now) lines.now }
{
    for line in lines {
        if line.is(word) {
            return Some(line);
        }
    }
    None
}

/// Adds the version in a line if the line has one.
#[tactic(auto, using(crate::proofs::StatementSteps::nothing_more))]
fn add_version_line<'a>(
    alloc: Global,
    facts: &mut Vec<Fact<'a>>,
    line: &Attribute<'a>,
    key: &'static [u8],
) -> Result<(), AllocError>
    ensures { OnOk result (facts.new.items ≡ facts.old.items ++ version_fact key.now line.now) }
{
    let mut parser = line.value();
    if parser.is_at(TokenKind::Equals) {
        parser.skip();
    }
    if parser.front_kind().is_some() {
        let value = version_text(alloc, &parser)?;
        add_fact(facts, key, value, parser.place(), Class::Names)?;
    }
    Ok(())
}

/// Adds the version in the first line that begins with a word.
#[tactic(auto, using(crate::proofs::StatementSteps::nothing_more))]
fn add_version<'a>(
    alloc: Global,
    facts: &mut Vec<Fact<'a>>,
    lines: &[Attribute<'a>],
    word: &'static [u8],
    key: &'static [u8],
) -> Result<(), AllocError>
    ensures { OnOk result
        (facts.new.items ≡ facts.old.items ++ version_facts word.now key.now lines.now) }
{
    match line_with(lines, word) {
        Some(line) => add_version_line(alloc, facts, line, key),
        None => Ok(()),
    }
}

/// Whether a line of the header isn't one of the lines that each LDF has.
fn is_other(line: &Attribute<'_>) -> bool
    ensures { result ≡ is_other_line line.now }
{
    !(line.is(b"LIN_description_file")
        || line.is(b"LIN_protocol_version")
        || line.is(b"LIN_language_version")
        || line.is(b"LIN_speed"))
}

/// Returns the fact of a further line.
fn line_fact<'a>(alloc: Global, line: &Attribute<'a>) -> Result<Fact<'a>, AllocError>
    ensures { IfOk result (λ f. f ≡ line_fact line.now) }
{
    let key = two_words(alloc, b"header", line.word())?;
    let value = value_text(alloc, line, Spelling::AsTheyAre)?;
    Ok(Fact::new(key, value, line.place(), Class::Names))
}

/// Adds a line if it isn't one of the lines that each LDF has.
#[tactic(auto, using(crate::proofs::StatementSteps::nothing_more))]
fn add_line<'a>(
    alloc: Global,
    facts: &mut Vec<Fact<'a>>,
    line: &Attribute<'a>,
) -> Result<(), AllocError>
    ensures { OnOk result (facts.new.items ≡ facts.old.items
        ++ (if is_other_line line.now then line_fact line.now ∷ [] else [])) }
{
    if is_other(line) {
        facts.push(line_fact(alloc, line)?)?;
    }
    Ok(())
}

/// Adds the lines that not each LDF has.
fn add_lines<'a>(
    alloc: Global,
    facts: &mut Vec<Fact<'a>>,
    lines: &[Attribute<'a>],
) -> Result<(), AllocError>
    ensures { OnOk result
        (facts.new.items ≡ facts.old.items ++ map line_fact (filter is_other_line lines.now)) }
{
    for line in lines {
        add_line(alloc, facts, line)?;
    }
    Ok(())
}

/// Returns the facts of a header.
fn facts_of<'a>(alloc: Global, facts: &LdfFacts<'a>) -> Result<Vec<Fact<'a>>, AllocError>
    requires { IsReadOf facts.now }
    ensures { IfOk result (λ found. found.items ≡ header_facts (compared_data facts.now.ldf)) }
{
    let description = facts.ldf.description;
    let lines = facts.lines.as_slice();
    let mut found = Vec::new(alloc);
    let (speed, time_base) = (description.speed(), description.time_base());
    add_number(alloc, &mut found, b"speed", speed, Class::Bytes)?;
    add_number(alloc, &mut found, b"time_base", time_base, Class::Timing)?;
    add_number(
        alloc,
        &mut found,
        b"jitter",
        description.jitter(),
        Class::Timing,
    )?;
    add_version(
        alloc,
        &mut found,
        lines,
        b"LIN_protocol_version",
        b"protocol",
    )?;
    add_version(
        alloc,
        &mut found,
        lines,
        b"LIN_language_version",
        b"language",
    )?;
    add_lines(alloc, &mut found, lines)?;
    Ok(found)
}

/// Returns the header of an LDF as a thing.
pub(crate) fn thing<'a>(alloc: Global, facts: &LdfFacts<'a>) -> Result<Thing<'a>, AllocError>
    requires { IsReadOf facts.now }
    ensures { IfOk result (λ t. t ≡ header_thing (compared_data facts.now.ldf)) }
{
    let start = Location { line: 1, column: 1 };
    let found = numbered(alloc, facts_of(alloc, facts)?)?;
    let none: &'static [u8] = &[];
    Ok(Thing::new(alloc, ThingKind::Header, (none, none), start, found))
}
