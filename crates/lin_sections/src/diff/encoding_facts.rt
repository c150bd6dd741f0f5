//! The facts of encodings.

ghost use Rattle.std.specs.Prelude.{◌≡◌, ◌++◌, ◌∷◌, ◌≤◌, [], IfOk, OnOk, fold, length, map, take};
ghost use Rattle.lin_cluster.specs.Names.{NumbersFirst};
ghost use Rattle.lin_sections.specs.FactTexts.{with_word};
ghost use Rattle.lin_sections.specs.NewNames.{renames_data};
ghost use Rattle.lin_sections.specs.Renames.{all_encoding_names, encoding_key, encoding_keys, with_item};
ghost use Rattle.lin_values.specs.Shown.{decimal_shown};
ghost use Rattle.lin_sections.specs.Things.{compared_data, encoding_items, encoding_thing, first_type, first_types};
ghost use Rattle.lin_sections.specs.Things.{item_fact, item_key, item_value, physical_value, quoted_words, IsReadOf};
ghost use Rattle.lin_sections.specs.NewNames.{AddsKeys};
ghost use Rattle.lin_sections.specs.Renames.{AreKeys};

use crate::diff::compared::LdfFacts;
use crate::diff::fact::{Class, Fact, Thing, ThingKind};
use crate::diff::fact_text::{FactText, put_number, put_quoted, put_word};
use crate::diff::new_names::{Keyed, KnownNames};
use crate::diff::node_facts::place_of;
use crate::diff::numbering::numbered;
use crate::diff::renames::Renames;
use lin_cluster::{Numbers, number_by};
use lin_parts::Location;
use lin_text::{TextBuffer, TextWriter};
use lin_values::{CodingType, Coefficient, Item, put_decimal};
use std::alloc::{AllocError, Global};

/// Memory that is used again for each text.
#[derive(Drop)]
struct Scratch {
    text: Vec<u8>,
    buffer: TextBuffer,
}

impl Scratch {
    fn new(alloc: Global) -> Scratch {
        Scratch {
            text: Vec::new(alloc),
            buffer: TextBuffer::empty(),
        }
    }
}

/// Appends a unit in quotes, unless it is empty.
fn put_unit(text: &mut Vec<u8>, unit: &[u8]) -> Result<(), AllocError>
    ensures { OnOk result (text.new.items ≡ fold with_word text.old.items (quoted_words unit.now)) }
{
    if unit.is_empty() {
        return Ok(());
    }
    put_quoted(text, unit)
}

/// Appends the shortest form of a decimal number.
fn put_coefficient(
    text: &mut Vec<u8>,
    buffer: &mut TextBuffer,
    coefficient: Coefficient,
) -> Result<(), AllocError>
    ensures { OnOk result (text.new.items ≡ text.old.items ++ decimal_shown coefficient) }
{
    let mut out = TextWriter::new(text, buffer);
    put_decimal(&mut out, coefficient.decimal());
    match out.finish() {
        Ok(()) => Ok(()),
        Err(_) => Err(AllocError),
    }
}

/// Returns the key of an item.
fn key_text<'a>(alloc: Global, text: &mut Vec<u8>, item: &Item) -> Result<FactText<'a>, AllocError>
    ensures { IfOk result (λ t. t ≡ item_key item.now) }
{
    match item {
        Item::Logical { value, .. } => {
            text.clear();
            text.extend_from_slice(b"logical ")?;
            put_number(text, *value)?;
            FactText::copied(alloc, text.as_slice())
        }
        Item::Physical { min, max, .. } => {
            text.clear();
            text.extend_from_slice(b"physical ")?;
            put_number(text, *min)?;
            text.extend_from_slice(b"..")?;
            put_number(text, *max)?;
            FactText::copied(alloc, text.as_slice())
        }
        Item::Bcd => Ok(FactText::lent(b"bcd")),
        Item::Ascii => Ok(FactText::lent(b"ascii")),
    }
}

/// Returns the value of a range: its scale, its offset, and its unit if it has one.
#[tactic(auto, using(crate::proofs::FactSteps::word_goes_on))]
fn physical_text<'a>(
    alloc: Global,
    scratch: &mut Scratch,
    scale: Coefficient,
    offset: Coefficient,
    unit: &[u8],
) -> Result<FactText<'a>, AllocError>
    ensures { IfOk result (λ t. t ≡ physical_value scale offset unit.now) }
{
    let Scratch { text, buffer } = scratch;
    text.clear();
    put_coefficient(text, buffer, scale)?;
    put_word(text, &[])?;
    put_coefficient(text, buffer, offset)?;
    put_unit(text, unit)?;
    FactText::copied(alloc, text.as_slice())
}

/// Returns the value of an item.
fn item_text<'a>(
    alloc: Global,
    scratch: &mut Scratch,
    item: &Item,
) -> Result<FactText<'a>, AllocError>
    ensures { IfOk result (λ t. t ≡ item_value item.now) }
{
    match item {
        Item::Logical { text, .. } if text.as_slice().is_empty() => Ok(FactText::lent(b"-")),
        Item::Logical { text, .. } => {
            scratch.text.clear();
            put_quoted(&mut scratch.text, text.as_slice())?;
            FactText::copied(alloc, scratch.text.as_slice())
        }
        Item::Physical {
            scale,
            offset,
            unit,
            ..
        } => physical_text(alloc, scratch, *scale, *offset, unit.as_slice()),
        Item::Bcd | Item::Ascii => Ok(FactText::lent(b"yes")),
    }
}

/// Returns the fact of an item. `place` is the place of the encoding's name.
fn item_fact<'a>(
    alloc: Global,
    scratch: &mut Scratch,
    item: &Item,
    place: Location,
) -> Result<Fact<'a>, AllocError>
    ensures { IfOk result (λ f. f ≡ item_fact place item.now) }
{
    let key = key_text(alloc, &mut scratch.text, item)?;
    let value = item_text(alloc, scratch, item)?;
    Ok(Fact::new(key, value, place, Class::Meaning))
}

/// Returns the facts of an encoding: its items. Their place is the place of the encoding's name.
fn facts_of<'a>(
    alloc: Global,
    scratch: &mut Scratch,
    coding: &'a CodingType,
) -> Result<Vec<Fact<'a>>, AllocError>
    ensures { IfOk result (λ v. v.items ≡ encoding_items coding.now) }
{
    let place = place_of(&coding.name);
    let items = coding.items.as_slice();
    let mut found = Vec::with_capacity(alloc, items.len())?;
    for one in items {
        found.push(item_fact(alloc, scratch, &one.item, place)?)?;
    }
    numbered(alloc, found)
}

/// Returns an encoding as a thing.
fn thing<'a>(
    alloc: Global,
    scratch: &mut Scratch,
    coding: &'a CodingType,
    renames: &Renames<'a>,
) -> Result<Thing<'a>, AllocError>
    ensures { IfOk result (λ t. t ≡ encoding_thing (renames_data renames.now) coding.now) }
{
    let found = facts_of(alloc, scratch, coding)?;
    let name = &coding.name;
    Ok(Thing::named(alloc, ThingKind::Encoding, name, &renames.encodings, found))
}

/// Adds an encoding if none of the first `number` encodings has its name. `numbers` has the number of each
/// name.
#[tactic(auto, using(crate::proofs::StatementSteps::nothing_more))]
fn add_first<'a>(
    firsts: &mut Vec<&'a CodingType>,
    types: &[CodingType],
    numbers: &Numbers<'_>,
    number: usize,
    coding: &'a CodingType,
) -> Result<(), AllocError>
    requires numbers { NumbersFirst (λ t. t.name) types.now numbers.now.map }
    requires within { number ≤ length types.now }
    ensures { OnOk result (map (λ t. t.now) firsts.new.items ≡ map (λ t. t.now) firsts.old.items
        ++ first_type (take number types.now) coding.now) }
{
    if number_by(numbers, types, &coding.name) < number {
        return Ok(());
    }
    firsts.push(coding)?;
    Ok(())
}

/// Returns the first encoding of each name. `numbers` has the number of each name.
pub(crate) fn first_types<'a>(
    alloc: Global,
    types: &'a [CodingType],
    numbers: &Numbers<'_>,
) -> Result<Vec<&'a CodingType>, AllocError>
    requires { NumbersFirst (λ t. t.name) types.now numbers.now.map }
    ensures { IfOk result (λ v. map (λ t. t.now) v.items ≡ first_types [] types.now) }
{
    let mut firsts = Vec::new(alloc);
    for number in 0..types.len() {
        add_first(&mut firsts, types, numbers, number, &types[number])?;
    }
    Ok(firsts)
}

/// Returns the encodings as things: the first encoding of each name.
pub(crate) fn things<'a>(
    alloc: Global,
    facts: &LdfFacts<'a>,
    renames: &Renames<'a>,
) -> Result<Vec<Thing<'a>>, AllocError>
    requires { IsReadOf facts.now }
    ensures { IfOk result (λ v. v.items ≡ map (encoding_thing (renames_data renames.now))
        (first_types [] facts.now.ldf.codings.now.types)) }
{
    let types = facts.types.as_slice();
    let mut scratch = Scratch::new(alloc);
    let mut things = Vec::new(alloc);
    for coding in types {
        things.push(thing(alloc, &mut scratch, *coding, renames)?)?;
    }
    Ok(things)
}

/// Appends the key and the value of an item.
#[tactic(auto, using(crate::proofs::FactSteps::word_goes_on))]
fn put_item(text: &mut Vec<u8>, fact: &Fact<'_>) -> Result<(), AllocError>
    ensures { OnOk result (text.new.items ≡ with_item text.old.items fact.now) }
{
    put_word(text, fact.key.as_slice())?;
    text.push(b':')?;
    put_word(text, fact.value.as_slice())?;
    text.push(b';')?;
    Ok(())
}

/// Returns the key of an encoding: all its items.
fn items_text<'a>(alloc: Global, facts: &[Fact<'_>]) -> Result<FactText<'a>, AllocError>
    ensures { IfOk result (λ t. t ≡ fold with_item [] facts.now) }
{
    let mut text = Vec::new(alloc);
    for fact in facts {
        put_item(&mut text, fact)?;
    }
    FactText::copied(alloc, text.as_slice())
}

/// Adds the key of an encoding if its name isn't among `others`.
#[tactic(auto, using(crate::proofs::StatementSteps::nothing_more))]
fn add_key<'a>(
    alloc: Global,
    keys: &mut Vec<Keyed<'a>>,
    scratch: &mut Scratch,
    coding: &'a CodingType,
    others: &KnownNames<'_>,
) -> Result<(), AllocError>
    ensures { OnOk result (AddsKeys others.now keys.old.items keys.new.items (encoding_key coding.now ∷ [])) }
{
    let name = coding.name.text.as_slice();
    if others.has(name) {
        return Ok(());
    }
    let found = facts_of(alloc, scratch, coding)?;
    let key = items_text(alloc, found.as_slice())?;
    keys.push(Keyed { name, key })?;
    Ok(())
}

/// Returns the keys of the encodings whose names the other LDF doesn't have.
pub(crate) fn keys<'a>(
    alloc: Global,
    facts: &LdfFacts<'a>,
    other: &LdfFacts<'_>,
) -> Result<Vec<Keyed<'a>>, AllocError>
    requires { IsReadOf facts.now }
    ensures { IfOk result (λ v. AreKeys all_encoding_names other.now v.items
        (encoding_keys (compared_data facts.now.ldf))) }
{
    let others = KnownNames::of(alloc, other.ldf.codings.types.as_slice())?;
    let mut scratch = Scratch::new(alloc);
    let mut keys = Vec::new(alloc);
    for coding in facts.types.as_slice() {
        add_key(alloc, &mut keys, &mut scratch, *coding, &others)?;
    }
    Ok(keys)
}
