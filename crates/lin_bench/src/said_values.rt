//! The values of signals that words say: the one that is written, and those that are expected.

ghost use Rattle.std.specs.Prelude.{◌≡◌, ◌≤◌, ◌<◌, ◌^◌, ◌++◌, IfOk, flat_map, unsigned_abs};
ghost use Rattle.lin_log.specs.Words.{spaced_word};
ghost use Rattle.lin_bench.specs.Hints.{unit_hint};
ghost use Rattle.lin_bench.specs.Parts.{fields_of, said_value};
ghost use Rattle.lin_bench.specs.Read.{Gives};
ghost use Rattle.lin_bench.specs.LineWords.{fields_text};
ghost use Rattle.lin_bench.specs.Words.{around, begins_number, values_between, by_text, decimal_field};
ghost use Rattle.lin_bench.specs.Words.{decimal_fields, expected_values, from_to, is_bad_number};
ghost use Rattle.lin_bench.specs.Words.{nearest_value, no_value, some_between, why_none};
ghost use Rattle.lin_bench.specs.declared.fault.LineFault.{LineFault};
ghost use Rattle.lin_bench.specs.declared.reason.Reason.{Reason};

use crate::fault::LineFault;
use crate::fields::Fields;
use crate::hints::{unit_hint, value_hint};
use crate::meant::MeantValues;
use crate::reason::Reason;
use lin_frame::Value;
use lin_text::Text;
use lin_values::{Coded, is_small, number_and_unit, read_decimal, units};
use std::alloc::{AllocError, Global};

/// What a line says in words: the number and the field of the signal, the text of the words, the first
/// of them, and the others.
#[derive(Clone, Copy)]
pub(crate) struct Said<'a> {
    pub(crate) signal: u16,
    pub(crate) field: &'a [u8],
    pub(crate) text: &'a [u8],
    pub(crate) first: &'a [u8],
    pub(crate) others: Fields<'a>,
}

/// Adds fields to a text, each after a space.
pub(crate) fn add_spaced(text: &mut Vec<u8>, fields: Fields<'_>) -> Result<(), AllocError>
    ensures { IfOk result (λ _. text.new.items
        ≡ text.old.items ++ flat_map spaced_word (fields_of fields.entry)) }
{
    let mut left = fields;
    while let Some((field, rest)) = left.first() {
        text.push(b' ')?;
        text.extend_from_slice(field)?;
        left = rest;
    }
    Ok(())
}

/// Fields with one space between two.
pub(crate) fn joined(alloc: Global, fields: Fields<'_>) -> Result<Vec<u8>, AllocError>
    ensures { IfOk result (λ text. text.items ≡ fields_text (fields_of fields.entry)) }
{
    let mut text = Vec::new(alloc);
    let Some((first, others)) = fields.first() else {
        return Ok(text);
    };
    text.extend_from_slice(first)?;
    add_spaced(&mut text, others)?;
    Ok(text)
}

/// Whether a text begins like a number.
fn begins_number(text: &[u8]) -> bool
    ensures { result ≡ begins_number text.now }
{
    match text {
        [b'-' | b'+', c, ..] => c.is_ascii_digit(),
        [c, ..] => c.is_ascii_digit(),
        [] => false,
    }
}

/// That a field is no number.
fn no_decimal(alloc: Global, field: &[u8]) -> Result<LineFault, AllocError>
    ensures { IfOk result (λ fault. fault ≡ LineFault.Bad (Reason.NoDecimal field.now)) }
{
    Ok(LineFault::Bad(Reason::NoDecimal(Text::copied(alloc, field)?)))
}

/// That no value of a signal is meant by words.
fn no_value(alloc: Global, coded: &Coded, said: Said<'_>) -> Result<LineFault, AllocError>
    ensures { IfOk result (λ fault. fault ≡ LineFault.Bad
        (no_value coded.now said.entry.signal said.entry.field.now said.entry.text.now)) }
{
    Ok(LineFault::Bad(Reason::NoValue {
        text: Text::copied(alloc, said.text)?,
        signal: Text::copied(alloc, said.field)?,
        hint: value_hint(alloc, coded, said.signal, said.text)?,
    }))
}

/// Whether a text begins like a number and is none within the limits.
fn is_bad_number(text: &[u8]) -> bool
    ensures { result ≡ is_bad_number text.now }
{
    match number_and_unit(text) {
        Some((number, _)) => !is_small(number),
        None => begins_number(text),
    }
}

/// Why words say no value.
fn why_none(alloc: Global, coded: &Coded, said: Said<'_>) -> Result<LineFault, AllocError>
    ensures { IfOk result (λ fault. fault ≡ LineFault.Bad (why_none coded.now said.entry.signal
        said.entry.field.now said.entry.text.now said.entry.first.now)) }
{
    if is_bad_number(said.text) {
        no_decimal(alloc, said.first)
    } else {
        no_value(alloc, coded, said)
    }
}

/// The one value that words say.
pub(crate) fn only_value(alloc: Global, coded: &Coded, said: Said<'_>) -> Result<Value, LineFault>
    ensures { Gives (λ v. v) result (said_value coded.now said.entry) }
{
    let values = MeantValues::of_text(alloc, coded, said.signal, said.text)?;
    if let Some(value) = values.only() {
        return Ok(value);
    }
    let count = values.count();
    if count == 0 {
        return Err(why_none(alloc, coded, said)?);
    }
    Err(LineFault::Bad(Reason::SeveralValues {
        count,
        text: Text::copied(alloc, said.text)?,
        signal: Text::copied(alloc, said.field)?,
    }))
}

/// The value nearest to the number that words say.
pub(crate) fn nearest_value(
    alloc: Global,
    coded: &Coded,
    said: Said<'_>,
) -> Result<Value, LineFault>
    ensures { Gives (λ v. v) result (nearest_value coded.now said.entry.signal
        said.entry.field.now said.entry.text.now said.entry.first.now) }
{
    let Some((number, unit)) = number_and_unit(said.text) else {
        return Err(no_decimal(alloc, said.first)?);
    };
    if !is_small(number) {
        return Err(no_decimal(alloc, said.first)?);
    }
    match coded.nearest(said.signal, number, unit) {
        Some(raw) => Ok(Value::Scalar(raw)),
        None => Err(no_value(alloc, coded, said)?),
    }
}

/// A decimal within the limits, in units of 10 ^ -24, by its field.
fn decimal_field(alloc: Global, field: &[u8]) -> Result<i128, LineFault>
    ensures same { Gives (λ z. z) result (decimal_field field.now) }
    ensures small { IfOk result (λ z. unsigned_abs z < 10 ^ 33) }
{
    match read_decimal(field) {
        Some(number) if is_small(number) => Ok(units(number)),
        _ => Err(no_decimal(alloc, field)?),
    }
}

/// A decimal within the limits, in units of 10 ^ -24, and a unit, by their fields and these joined.
fn decimal_fields<'a>(
    alloc: Global,
    text: &'a [u8],
    fields: Fields<'_>,
) -> Result<(i128, &'a [u8]), LineFault>
    requires { text.now ≡ fields_text (fields_of fields) }
    ensures same { Gives (λ p. (p.0, p.1.now)) result (decimal_fields (fields_of fields.entry)) }
    ensures small { IfOk result (λ p. unsigned_abs p.0 < 10 ^ 33) }
{
    let Some((first, _)) = fields.first() else {
        return Err(LineFault::Bad(Reason::NoWords));
    };
    match number_and_unit(text) {
        Some((number, unit)) if is_small(number) => Ok((units(number), unit)),
        _ => Err(no_decimal(alloc, first)?),
    }
}

/// That no value of a signal is in a tolerance or a range with a unit.
fn none_between(
    alloc: Global,
    coded: &Coded,
    said: Said<'_>,
    unit: &[u8],
) -> Result<LineFault, AllocError>
    ensures { IfOk result (λ fault. fault ≡ LineFault.Bad (Reason.NoValue said.entry.text.now
        said.entry.field.now (unit_hint coded.now said.entry.signal unit.now))) }
{
    Ok(LineFault::Bad(Reason::NoValue {
        text: Text::copied(alloc, said.text)?,
        signal: Text::copied(alloc, said.field)?,
        hint: unit_hint(alloc, coded, said.signal, unit)?,
    }))
}

/// The values of a signal from one decimal to another with a unit, of which there are some.
fn some_between(
    alloc: Global,
    coded: &Coded,
    said: Said<'_>,
    low: i128,
    high: i128,
    unit: &[u8],
) -> Result<MeantValues, LineFault>
    requires low { unsigned_abs low ≤ 10 ^ 38 }
    requires high { unsigned_abs high ≤ 10 ^ 38 }
    ensures { Gives (λ m. m) result (some_between coded.now said.entry.signal
        said.entry.field.now said.entry.text.now low high unit.now) }
{
    let values = MeantValues::within(alloc, coded, said.signal, low, high, unit)?;
    if values.count() > 0 {
        return Ok(values);
    }
    Err(none_between(alloc, coded, said, unit)?)
}

/// The values of a signal from one decimal to another, which a text says.
fn between(
    alloc: Global,
    coded: &Coded,
    said: Said<'_>,
    low: i128,
    high: i128,
    unit: &[u8],
) -> Result<MeantValues, LineFault>
    requires low { unsigned_abs low ≤ 10 ^ 38 }
    requires high { unsigned_abs high ≤ 10 ^ 38 }
    ensures { Gives (λ m. m) result
        (values_between coded.now said.entry.signal said.entry.field.now said.entry.text.now low high unit.now) }
{
    if low > high {
        return Err(LineFault::Bad(Reason::NoRange(Text::copied(alloc, said.text)?)));
    }
    some_between(alloc, coded, said, low, high, unit)
}

/// The values of a signal within a tolerance of a decimal.
fn around(
    alloc: Global,
    coded: &Coded,
    said: Said<'_>,
    others: Fields<'_>,
) -> Result<MeantValues, LineFault>
    ensures { Gives (λ m. m) result (around coded.now said.entry.signal said.entry.field.now
        said.entry.text.now said.entry.first.now (fields_of others.entry)) }
{
    let middle = decimal_field(alloc, said.first)?;
    let rest = joined(alloc, others)?;
    let (tolerance, unit) = decimal_fields(alloc, rest.as_slice(), others)?;
    between(
        alloc,
        coded,
        said,
        middle - tolerance,
        middle + tolerance,
        unit,
    )
}

/// The values of a signal from one decimal to another.
fn from_to(
    alloc: Global,
    coded: &Coded,
    said: Said<'_>,
    others: Fields<'_>,
) -> Result<MeantValues, LineFault>
    ensures { Gives (λ m. m) result (from_to coded.now said.entry.signal said.entry.field.now
        said.entry.text.now said.entry.first.now (fields_of others.entry)) }
{
    let low = decimal_field(alloc, said.first)?;
    let rest = joined(alloc, others)?;
    let (high, unit) = decimal_fields(alloc, rest.as_slice(), others)?;
    between(alloc, coded, said, low, high, unit)
}

/// The values of a signal with the text of words.
fn by_text(alloc: Global, coded: &Coded, said: Said<'_>) -> Result<MeantValues, LineFault>
    ensures { Gives (λ m. m) result (by_text coded.now said.entry.signal said.entry.field.now
        said.entry.text.now said.entry.first.now) }
{
    let values = MeantValues::of_text(alloc, coded, said.signal, said.text)?;
    if values.count() > 0 {
        return Ok(values);
    }
    Err(why_none(alloc, coded, said)?)
}

/// The values of a signal that words say: those of a text, those within a tolerance of a decimal, or
/// those from one decimal to another.
pub(crate) fn expected_values(
    alloc: Global,
    coded: &Coded,
    said: Said<'_>,
) -> Result<MeantValues, LineFault>
    ensures { Gives (λ m. m) result (expected_values coded.now said.entry.signal said.entry.field.now
        said.entry.text.now said.entry.first.now (fields_of said.entry.others)) }
{
    let Some((mark, others)) = said.others.first() else {
        return by_text(alloc, coded, said);
    };
    if !begins_number(said.first) {
        return by_text(alloc, coded, said);
    }
    if mark == b"+-".as_slice() {
        return around(alloc, coded, said, others);
    }
    if mark == b"..".as_slice() {
        return from_to(alloc, coded, said, others);
    }
    by_text(alloc, coded, said)
}
