//! What a raw value of a signal means, and its text (LIN 2.2A, section 9.2.6.1).

ghost use Rattle.std.specs.Prelude.{◌≡◌, ◌<◌, ◌≤◌, ◌+◌, ◌++◌, ◌∷◌, [], IfOk, MatchBool};
ghost use Rattle.std.specs.Prelude.{flat_map, length, option_map, reverse};
ghost use Rattle.lin_text.specs.Written.{Grows};
ghost use Rattle.lin_values.specs.Coded.{signal_at};
ghost use Rattle.lin_values.specs.Meaning.{meaning, meaning_in, meant, numeric_meaning, bcd_digits};
ghost use Rattle.lin_values.specs.Meaning.{shown_character, shown_characters, coded_meaning, digits_of_scalar};
ghost use Rattle.lin_values.specs.Meaning.{as_digits, bytes_of_scalar, fours, meaning_by};
ghost use Rattle.lin_values.specs.Meaning.{raw_number, plain_signal, value_bytes, wide_number};
ghost use Rattle.lin_values.specs.Meaning.{without_front_zeros, CountsFor};
ghost use Rattle.lin_values.specs.Raws.{is_coded};
ghost use Rattle.lin_values.specs.Shown.{shown, plain_shown};

use crate::coded::{Coded, CodedSignal};
use crate::codings::Item;
use crate::decimal_limits::PhysicalValue;
use crate::decimals::put_decimal;
use crate::encoding::{Coding, Encoding};
use arrayvec::ArrayVec;
use lin_frame::Value;
use lin_text::{TextBuffer, TextWriter};
use std::alloc::{AllocError, Global};
use std::io::Write;

/// What a raw value means.
#[derive(Drop)]
pub enum Meaning<'a> {
    /// A text of a value.
    Named(&'a [u8]),
    /// A value without a text.
    Number(u64),
    /// A decimal and its unit, which may be empty.
    Physical(PhysicalValue, &'a [u8]),
    /// Digits, four bits for each.
    Digits(ArrayVec<u8, 16>),
    /// Characters, a byte for each.
    Letters(ArrayVec<u8, 8>),
}

impl Meaning<'_> {
    /// The same without a unit.
    pub fn without_unit(self) -> Self {
        match self {
            Meaning::Physical(value, _) => Meaning::Physical(value, &[]),
            other => other,
        }
    }

    /// Whether it is of digits or characters.
    pub(crate) fn is_coded(&self) -> bool
        ensures { result ≡ is_coded (meant self.now) }
    {
        match self {
            Meaning::Digits(_) | Meaning::Letters(_) => true,
            Meaning::Named(_) | Meaning::Number(_) | Meaning::Physical(_, _) => false,
        }
    }
}

/// What the item means that counts for a number.
fn numeric_meaning(item: &Item, number: u64) -> Option<Meaning<'_>>
    requires { CountsFor number item.now }
    ensures { option_map meant result ≡ numeric_meaning item.now number }
{
    match item {
        Item::Logical { text, .. } if text.as_slice().is_empty() => Some(Meaning::Number(number)),
        Item::Logical { text, .. } => Some(Meaning::Named(text.as_slice())),
        Item::Physical {
            scale,
            offset,
            unit,
            ..
        } => Some(Meaning::Physical(PhysicalValue::new(number, *scale, *offset), unit.as_slice())),
        Item::Bcd | Item::Ascii => None,
    }
}

/// The digit of four bits, where they are 0 to 9.
fn push_digit(digits: &mut ArrayVec<u8, 16>, four: u8) -> bool
    requires { length digits.old.items < 16 }
    ensures { MatchBool result ((four < 10) × (digits.new.items ≡ digits.old.items ++ (48 + four) ∷ []))
        (10 ≤ four) }
{
    if four > 9 {
        return false;
    }
    digits.try_push(b'0' + four).is_ok()
}

/// The last `count` digits of a scalar, the highest first, where all are 0 to 9.
fn digits_of_scalar(raw: u16, bits: u8) -> Option<ArrayVec<u8, 16>>
    ensures { option_map (λ a. a.items) result ≡ digits_of_scalar raw bits }
{
    let mut digits = ArrayVec::new();
    let mut left = bits.min(16).div_ceil(4);
    while left > 0 {
        left -= 1;
        if !push_digit(&mut digits, ((raw >> (4 * left)) % 16) as u8) {
            return None;
        }
    }
    Some(digits)
}

/// Two digits for each byte, where all are 0 to 9.
fn digits_of_bytes(bytes: &[u8]) -> Option<ArrayVec<u8, 16>>
    requires { length bytes.now ≤ 8 }
    ensures { option_map (λ a. a.items) result ≡ as_digits (flat_map (fours 2) bytes.now) }
{
    let mut digits = ArrayVec::new();
    for byte in bytes {
        if !push_digit(&mut digits, *byte / 16) || !push_digit(&mut digits, *byte % 16) {
            return None;
        }
    }
    Some(digits)
}

fn bcd_digits(signal: CodedSignal, value: &Value) -> Option<ArrayVec<u8, 16>>
    ensures { option_map (λ a. a.items) result ≡ bcd_digits (plain_signal signal) value.now }
{
    match value {
        Value::Scalar(raw) => digits_of_scalar(*raw, signal.bits),
        Value::Bytes(bytes) => digits_of_bytes(bytes.as_slice()),
    }
}

/// Bytes without 00 at the end.
fn without_zeros(bytes: &[u8]) -> &[u8]
    ensures { result.now ≡ reverse (without_front_zeros (reverse bytes.now)) }
{
    let mut rest = bytes;
    while let [front @ .., 0] = rest {
        rest = front;
    }
    rest
}

/// The character of a byte; what isn't visible, nor a space, is `?`.
fn shown_character(byte: u8) -> u8
    ensures { result ≡ shown_character byte }
{
    if byte >= 0x20 && byte <= 0x7E {
        byte
    } else {
        b'?'
    }
}

/// Characters of bytes up to zeros at the end.
fn shown_characters(bytes: &[u8]) -> ArrayVec<u8, 8>
    requires { length bytes.now ≤ 8 }
    ensures { result.items ≡ shown_characters bytes.now }
{
    let mut letters = ArrayVec::new();
    for byte in without_zeros(bytes) {
        letters.push(shown_character(*byte));
    }
    letters
}

/// The characters of a scalar, of as many bytes as its bits need, the lowest first.
fn letters_of_scalar(raw: u16, bits: u8) -> ArrayVec<u8, 8>
    ensures { result.items ≡ shown_characters (bytes_of_scalar raw bits) }
{
    let bytes = raw.to_le_bytes();
    if bits > 8 {
        shown_characters(&bytes)
    } else {
        shown_characters(&[bytes[0]])
    }
}

fn letters(signal: CodedSignal, value: &Value) -> ArrayVec<u8, 8>
    ensures { result.items ≡ shown_characters (value_bytes (plain_signal signal) value.now) }
{
    match value {
        Value::Scalar(raw) => letters_of_scalar(*raw, signal.bits),
        Value::Bytes(bytes) => shown_characters(bytes.as_slice()),
    }
}

fn meaning_by<'a>(signal: CodedSignal, coding: Coding, value: &Value) -> Option<Meaning<'a>>
    ensures { option_map meant result ≡ meaning_by (plain_signal signal) value.now coding }
{
    match coding {
        Coding::Bcd => match bcd_digits(signal, value) {
            Some(digits) => Some(Meaning::Digits(digits)),
            None => None,
        },
        Coding::Ascii => Some(Meaning::Letters(letters(signal, value))),
    }
}

/// What a value means by digits or characters, in the order of the items.
fn coded_meaning<'a>(
    signal: CodedSignal,
    encoding: &'a Encoding,
    value: &Value,
) -> Option<Meaning<'a>>
    ensures { option_map meant result
        ≡ coded_meaning (plain_signal signal) encoding.now.items value.now }
{
    let traits = encoding.traits();
    let found = meaning_by(signal, traits.first?, value);
    if found.is_some() {
        return found;
    }
    meaning_by(signal, traits.second?, value)
}

/// The number of a wide signal: the sum of its bytes times 256 ^ k.
fn wide_number(bytes: &[u8]) -> u64
    requires { length bytes.now ≤ 8 }
    ensures { result ≡ wide_number bytes.now }
{
    let mut number = 0;
    for place in 0..bytes.len() {
        number = 256 * number + u64::from(bytes[bytes.len() - 1 - place]);
    }
    number
}

/// The number of a value, if it has one: that of a scalar or of a wide signal.
fn raw_number(is_wide: bool, value: &Value) -> Option<u64>
    ensures { result ≡ raw_number is_wide value.now }
{
    match value {
        Value::Scalar(raw) => Some(u64::from(*raw)),
        Value::Bytes(bytes) if is_wide => Some(wide_number(bytes.as_slice())),
        Value::Bytes(_) => None,
    }
}

/// What a value means: a number by the item that counts for it, and else digits or characters.
fn meaning_in<'a>(signal: CodedSignal, encoding: &'a Encoding, value: &Value) -> Option<Meaning<'a>>
    ensures { option_map meant result
        ≡ meaning_in (plain_signal signal) encoding.now.items value.now }
{
    if let Some(number) = raw_number(signal.is_wide, value)
        && let Some(item) = encoding.item_for(number)
    {
        return numeric_meaning(item, number);
    }
    coded_meaning(signal, encoding, value)
}

impl Coded {
    /// The number of a signal's value, if it has one: that of a scalar or of a wide signal.
    pub fn number(&self, signal: u16, value: &Value) -> Option<u64>
        ensures { result ≡ raw_number (signal_at self.now signal).is_wide value.now }
    {
        raw_number(self.is_wide(signal), value)
    }

    /// What a raw value of a signal means, the first that holds: the text of a value, the decimal of
    /// a range, and in the order of the items digits and characters. Arrays that aren't wide have
    /// digits and characters alone.
    pub fn meaning(&self, signal: u16, value: &Value) -> Option<Meaning<'_>>
        ensures { option_map meant result ≡ meaning self.now signal value.now }
    {
        meaning_in(self.signal(signal)?, self.encoding_of(signal)?, value)
    }
}

/// Puts a meaning without its unit and without quotes.
pub fn put_plain<W: Write>(out: &mut TextWriter<'_, W>, meaning: &Meaning<'_>)
    ensures { Grows W.contents out.old out.new (plain_shown (meant meaning.now)) }
{
    match meaning {
        Meaning::Named(text) => out.put(text),
        Meaning::Number(number) => out.put_number(*number),
        Meaning::Physical(value, _) => put_decimal(out, value.decimal()),
        Meaning::Digits(digits) => out.put(digits.as_slice()),
        Meaning::Letters(letters) => out.put(letters.as_slice()),
    }
}

/// Puts the text of a meaning: a decimal with its unit behind a space, characters in quotes.
pub fn put_meaning<W: Write>(out: &mut TextWriter<'_, W>, meaning: &Meaning<'_>)
    ensures { Grows W.contents out.old out.new (shown (meant meaning.now)) }
{
    match meaning {
        Meaning::Physical(value, unit) if !unit.is_empty() => {
            put_decimal(out, value.decimal());
            out.put_byte(b' ');
            out.put(unit);
        }
        Meaning::Letters(letters) => {
            out.put_byte(b'"');
            out.put(letters.as_slice());
            out.put_byte(b'"');
        }
        _ => put_plain(out, meaning),
    }
}

/// The text of a meaning. An error means out of memory.
pub fn shown(alloc: Global, meaning: &Meaning<'_>) -> Result<Vec<u8>, AllocError>
    ensures { IfOk result (λ v. v.items ≡ shown (meant meaning.now)) }
{
    let mut text = Vec::new(alloc);
    let mut buffer = TextBuffer::empty();
    let mut out = TextWriter::new(&mut text, &mut buffer);
    put_meaning(&mut out, meaning);
    match out.finish() {
        Ok(()) => Ok(text),
        Err(_) => Err(AllocError),
    }
}
