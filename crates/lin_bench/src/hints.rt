//! The hint about the values that a signal has, for a reason of a bad line.

ghost use Rattle.std.specs.Prelude.{◌≡◌, ◌++◌, IfOk, OnOk};
ghost use Rattle.lin_values.specs.Meaning.{meant};
ghost use Rattle.lin_values.specs.Shown.{plain_shown};
ghost use Rattle.lin_values.specs.Value.{IsReadable, scaled_value};
ghost use Rattle.lin_bench.specs.Hints.{any_hash, few, has_hash, has_sign, some_has_unit, is_among_texts};
ghost use Rattle.lin_bench.specs.Hints.{is_strange, is_text_of_signal, names_hash, near_number, near_words};
ghost use Rattle.lin_bench.specs.Hints.{number_hint, range_hint, text_hint, item_text, texts_in};
ghost use Rattle.lin_bench.specs.Hints.{unit_hint, item_unit, units_hint, units_in, value_hint};
ghost use Rattle.lin_bench.specs.Hints.{values_hint, with_text, with_text_of};

use crate::meant::MeantValues;
use crate::reason::Hint;
use lin_frame::Value;
use lin_text::{Many, Text, TextBuffer, TextWriter};
use lin_values::{Coded, Decimal, Item, Meaning, PlacedItem, number_and_unit, put_plain};
use std::alloc::{AllocError, Global};

/// How many texts a hint lists.
const FEW: usize = 8;

fn is_among(texts: &[Text], text: &[u8]) -> bool
    ensures { result ≡ is_among_texts texts.now text.now }
{
    texts.iter().any(|other| other.as_slice() == text)
}

/// Adds a text if it isn't empty, it isn't among the others, and they aren't more than can be listed.
fn add_text(alloc: Global, texts: &mut Vec<Text>, text: &[u8]) -> Result<(), AllocError>
    ensures { OnOk result (texts.new.items ≡ with_text texts.old.items text.now) }
{
    if text.is_empty() || texts.len() > FEW || is_among(texts.as_slice(), text) {
        return Ok(());
    }
    texts.push(Text::copied(alloc, text)?)?;
    Ok(())
}

/// The text of a logical value; empty for other items.
fn text_of(item: &Item) -> &[u8]
    ensures { result.now ≡ item_text item.now }
{
    match item {
        Item::Logical { text, .. } => text.as_slice(),
        _ => b"",
    }
}

/// The unit of a range; empty for other items.
fn unit_of(item: &Item) -> &[u8]
    ensures { result.now ≡ item_unit item.now }
{
    match item {
        Item::Physical { unit, .. } => unit.as_slice(),
        _ => b"",
    }
}

/// Whether a raw value of a signal has this text.
fn is_text(alloc: Global, coded: &Coded, signal: u16, text: &[u8]) -> Result<bool, AllocError>
    ensures { IfOk result (λ is. is ≡ is_text_of_signal coded.now signal text.now) }
{
    Ok(MeantValues::of_text(alloc, coded, signal, text)?.count() > 0)
}

/// Adds the text of an item if a raw value of a signal has it.
fn add_text_of(
    alloc: Global,
    coded: &Coded,
    signal: u16,
    texts: &mut Vec<Text>,
    one: &PlacedItem,
) -> Result<(), AllocError>
    ensures { OnOk result
        (texts.new.items ≡ with_text_of coded.now signal texts.old.items one.now) }
{
    let text = text_of(&one.item);
    if texts.len() > FEW || text.is_empty() || !is_text(alloc, coded, signal, text)? {
        return Ok(());
    }
    add_text(alloc, texts, text)
}

/// The texts of a signal, each once, in the order of the items; nine at most.
pub(crate) fn texts_in(
    alloc: Global,
    coded: &Coded,
    signal: u16,
    items: &[PlacedItem],
) -> Result<Vec<Text>, AllocError>
    ensures { IfOk result (λ v. v.items ≡ texts_in coded.now signal items.now) }
{
    let mut texts = Vec::new(alloc);
    for one in items {
        add_text_of(alloc, coded, signal, &mut texts, one)?;
    }
    Ok(texts)
}

/// The units of a signal, each once, in the order of the items; nine at most.
pub(crate) fn units_in(alloc: Global, items: &[PlacedItem]) -> Result<Vec<Text>, AllocError>
    ensures { IfOk result (λ v. v.items ≡ units_in items.now) }
{
    let mut units = Vec::new(alloc);
    for one in items {
        add_text(alloc, &mut units, unit_of(&one.item))?;
    }
    Ok(units)
}

fn has_sign(text: &[u8]) -> bool
    ensures { result ≡ has_sign text.now }
{
    text.iter().any(|sign| *sign == b'#')
}

/// Whether the text or the unit of an item has a `#`.
fn has_hash(one: &PlacedItem) -> bool
    ensures { result ≡ has_hash one.now }
{
    has_sign(text_of(&one.item)) || has_sign(unit_of(&one.item))
}

fn any_hash(items: &[PlacedItem]) -> bool
    ensures { result ≡ any_hash items.now }
{
    items.iter().any(|one| has_hash(one))
}

/// Whether a text or a unit of a signal has a `#`.
pub(crate) fn names_hash(coded: &Coded, signal: u16) -> bool
    ensures { result ≡ names_hash coded.now signal }
{
    match coded.encoding_of(signal) {
        Some(encoding) => any_hash(encoding.coding().items.as_slice()),
        None => false,
    }
}

/// At most eight texts, and `..` for the others.
fn few(alloc: Global, mut texts: Vec<Text>) -> Result<Many<Text>, AllocError>
    ensures { IfOk result (λ t. t ≡ few texts.items) }
{
    if texts.len() > FEW {
        texts.truncate(FEW);
        texts.push(Text::copied(alloc, b"..")?)?;
    }
    Ok(Many::new(texts))
}

/// The units, if there are some.
pub(crate) fn units_hint(alloc: Global, units: Vec<Text>) -> Result<Hint, AllocError>
    ensures { IfOk result (λ h. h ≡ units_hint units.items) }
{
    if units.is_empty() {
        return Ok(Hint::Nothing);
    }
    Ok(Hint::Units(few(alloc, units)?))
}

/// The texts of values, or the units if there are none.
pub(crate) fn values_hint(
    alloc: Global,
    units: Vec<Text>,
    texts: Vec<Text>,
) -> Result<Hint, AllocError>
    ensures { IfOk result (λ h. h ≡ values_hint units.items texts.items) }
{
    if texts.is_empty() {
        return units_hint(alloc, units);
    }
    Ok(Hint::Values(few(alloc, texts)?))
}

/// Whether an item has this unit, or none if it is empty.
fn has_unit(items: &[PlacedItem], unit: &[u8]) -> bool
    ensures { result ≡ some_has_unit items.now unit.now }
{
    items.iter().any(|one| unit_of(&one.item) == unit)
}

/// Whether a signal with units, which these are, doesn't have this one.
fn is_strange(units: &[Text], items: &[PlacedItem], unit: &[u8]) -> bool
    requires { units.now ≡ units_in items.now }
    ensures { result ≡ is_strange items.now unit.now }
{
    if unit.is_empty() || units.is_empty() {
        return false;
    }
    !has_unit(items, unit)
}

/// The text of a meaning without its unit and without quotes.
fn plain_text(alloc: Global, meaning: &Meaning<'_>) -> Result<Vec<u8>, AllocError>
    ensures { IfOk result (λ text. text.items ≡ plain_shown (meant meaning.now)) }
{
    let mut text = Vec::new(alloc);
    let mut buffer = TextBuffer::empty();
    let mut out = TextWriter::new(&mut text, &mut buffer);
    put_plain(&mut out, meaning);
    match out.finish() {
        Ok(()) => Ok(text),
        Err(_) => Err(AllocError),
    }
}

/// Adds the text, without unit, of what a raw value of a signal means.
fn add_near(
    alloc: Global,
    coded: &Coded,
    signal: u16,
    raw: Option<u16>,
    texts: &mut Vec<Text>,
) -> Result<(), AllocError>
    ensures { OnOk result (texts.new.items ≡ texts.old.items ++ near_words coded.now signal raw) }
{
    let Some(raw) = raw else {
        return Ok(());
    };
    if let Some(meaning) = coded.meaning(signal, &Value::Scalar(raw)) {
        let text = plain_text(alloc, &meaning)?;
        texts.push(Text::copied(alloc, text.as_slice())?)?;
    }
    Ok(())
}

/// The texts of the decimals next to a number.
fn near_number(
    alloc: Global,
    coded: &Coded,
    signal: u16,
    number: Decimal,
    unit: &[u8],
) -> Result<Vec<Text>, AllocError>
    requires { IsReadable number }
    ensures { IfOk result
        (λ v. v.items ≡ near_number coded.now signal (scaled_value number, unit.now)) }
{
    let mut texts = Vec::new(alloc);
    let (below, above) = coded.neighbours(signal, number, unit);
    add_near(alloc, coded, signal, below, &mut texts)?;
    add_near(alloc, coded, signal, above, &mut texts)?;
    Ok(texts)
}

/// The hint for a number with a unit, or without one.
fn number_hint(
    alloc: Global,
    coded: &Coded,
    signal: u16,
    items: &[PlacedItem],
    number: Decimal,
    unit: &[u8],
) -> Result<Hint, AllocError>
    requires { IsReadable number }
    ensures { IfOk result
        (λ h. h ≡ number_hint coded.now signal items.now (scaled_value number, unit.now)) }
{
    let units = units_in(alloc, items)?;
    if is_strange(units.as_slice(), items, unit) {
        return units_hint(alloc, units);
    }
    let near = near_number(alloc, coded, signal, number, unit)?;
    if near.is_empty() {
        return values_hint(alloc, units, texts_in(alloc, coded, signal, items)?);
    }
    Ok(Hint::Nearest(Many::new(near)))
}

/// The hint for a text, by the items of the signal's encoding.
fn text_hint(
    alloc: Global,
    coded: &Coded,
    signal: u16,
    text: &[u8],
    items: &[PlacedItem],
) -> Result<Hint, AllocError>
    ensures { IfOk result (λ h. h ≡ text_hint coded.now signal text.now items.now) }
{
    if let Some((number, unit)) = number_and_unit(text) {
        return number_hint(alloc, coded, signal, items, number, unit);
    }
    let units = units_in(alloc, items)?;
    values_hint(alloc, units, texts_in(alloc, coded, signal, items)?)
}

/// The hint for a text that no raw value of a signal has.
pub(crate) fn value_hint(
    alloc: Global,
    coded: &Coded,
    signal: u16,
    text: &[u8],
) -> Result<Hint, AllocError>
    ensures { IfOk result (λ h. h ≡ value_hint coded.now signal text.now) }
{
    match coded.encoding_of(signal) {
        Some(encoding) => {
            text_hint(
                alloc,
                coded,
                signal,
                text,
                encoding.coding().items.as_slice(),
            )
        }
        None => Ok(Hint::NoEncoding),
    }
}

/// The hint for a tolerance or a range with a unit, or without one, by the items of the signal's
/// encoding.
fn range_hint(alloc: Global, unit: &[u8], items: &[PlacedItem]) -> Result<Hint, AllocError>
    ensures { IfOk result (λ h. h ≡ range_hint unit.now items.now) }
{
    let units = units_in(alloc, items)?;
    if is_strange(units.as_slice(), items, unit) {
        return units_hint(alloc, units);
    }
    Ok(Hint::Nothing)
}

/// The hint for a tolerance or a range in which no raw value of a signal is.
pub(crate) fn unit_hint(
    alloc: Global,
    coded: &Coded,
    signal: u16,
    unit: &[u8],
) -> Result<Hint, AllocError>
    ensures { IfOk result (λ h. h ≡ unit_hint coded.now signal unit.now) }
{
    match coded.encoding_of(signal) {
        Some(encoding) => range_hint(alloc, unit, encoding.coding().items.as_slice()),
        None => Ok(Hint::NoEncoding),
    }
}
