//! The values that digits and characters spell.

ghost use Rattle.std.specs.Prelude.{◌≡◌, ◌≢◌, ◌<◌, ◌≤◌, ◌++◌, ◌-◌, ℕ, List, Some, None, IfSome};
ghost use Rattle.std.specs.Prelude.{MatchOption, length, nat_le, option_map, slice_index, true, false, replicate, if◌then◌else◌};
ghost use Rattle.lin_values.specs.Spelled.{in_quotes, bcd_after, pairs, character_scalar, IsHeld, IsArrayOfDigits, IsArrayOfLetters, IsScalarOfDigits, IsScalarOfLetters};

use crate::coded::{CodedSignal, most_of};
use arrayvec::ArrayVec;
use lin_frame::{Value, ValueBytes};

/// The bytes that digits spell, two for each.
fn coded_pairs(text: &[u8]) -> Option<ArrayVec<u8, 8>>
    ensures { MatchOption result ((bs : List ℕ) → pairs text.now ≡ Some bs → 8 < length bs)
        (λ b. pairs text.now ≡ Some b.items) }
{
    let mut bytes = ArrayVec::new();
    let mut rest = text;
    while let [high, low, others @ ..] = rest {
        if !high.is_ascii_digit() || !low.is_ascii_digit() {
            return None;
        }
        if bytes.try_push((*high - b'0') * 16 + (*low - b'0')).is_err() {
            return None;
        }
        rest = others;
    }
    if rest.is_empty() { Some(bytes) } else { None }
}

/// The characters between quotes.
fn quoted(text: &[u8]) -> Option<&[u8]>
    ensures has { (ls : List ℕ) → text.now ≡ in_quotes ls → option_map (λ t. t.now) result ≡ Some ls }
    ensures only { IfSome result (λ t. text.now ≡ in_quotes t.now) }
{
    match text {
        [b'"', letters @ .., b'"'] => Some(letters),
        _ => None,
    }
}

/// The bytes of a text between quotes, or of digits, two for each byte.
fn coded_bytes(text: &[u8]) -> Option<ArrayVec<u8, 8>>
    ensures letters { (ls : List ℕ) → text.now ≡ in_quotes ls → length ls ≤ 8
        → option_map (λ b. b.items) result ≡ Some ls }
    ensures digits { (bs : List ℕ) → slice_index text.now 0 ≢ 34 → pairs text.now ≡ Some bs
        → length bs ≤ 8 → option_map (λ b. b.items) result ≡ Some bs }
{
    let Some(letters) = quoted(text) else {
        return coded_pairs(text);
    };
    let mut bytes = ArrayVec::new();
    match bytes.try_extend_from_slice(letters) {
        Ok(()) => Some(bytes),
        Err(_) => None,
    }
}

/// The number of up to four digits, four bits for each.
fn coded_number(text: &[u8]) -> Option<u16>
    ensures { result ≡ (if nat_le (length text.now) 4 then bcd_after 0 text.now else None) }
{
    if text.len() > 4 {
        return None;
    }
    let mut number = 0u16;
    for digit in text {
        if !digit.is_ascii_digit() {
            return None;
        }
        number = number * 16 + u16::from(*digit - b'0');
    }
    Some(number)
}

/// The scalar of two characters at most.
fn coded_letters(text: &[u8]) -> Option<u16>
    ensures has { (ls : List ℕ) → text.now ≡ in_quotes ls → length ls ≤ 2
        → result ≡ Some (character_scalar ls) }
    ensures only { IfSome result (λ n. slice_index text.now 0 ≡ 34) }
{
    match text {
        [b'"', b'"'] => Some(0),
        [b'"', low, b'"'] => Some(u16::from(*low)),
        [b'"', low, high, b'"'] => Some(u16::from(*low) + 256 * u16::from(*high)),
        _ => None,
    }
}

/// Bytes filled up with 00.
fn filled(bytes: ArrayVec<u8, 8>, size: usize) -> Option<ArrayVec<u8, 8>>
    ensures sized { IfSome result (λ b. length b.items ≡ size) }
    ensures few { IfSome result (λ b. length b.items ≤ 8) }
    ensures value { length bytes.items ≤ size → size ≤ 8 → option_map (λ b. b.items) result
        ≡ Some (bytes.items ++ replicate (size - length bytes.items) 0) }
{
    let mut all = bytes;
    while all.len() < size {
        if all.try_push(0).is_err() {
            return None;
        }
    }
    if all.len() > size { None } else { Some(all) }
}

/// The array that digits or characters spell, filled up with 00.
fn coded_array(bits: u8, text: &[u8]) -> Option<Value>
    ensures letters { IsArrayOfLetters bits text.now result }
    ensures digits { IsArrayOfDigits bits text.now result }
    ensures held { IfSome result (λ v. IsHeld bits true v) }
{
    let bytes = filled(coded_bytes(text)?, usize::from(bits / 8))?;
    Some(Value::Bytes(ValueBytes::new(bytes)))
}

/// The scalar that digits or characters spell.
fn coded_scalar(bits: u8, text: &[u8]) -> Option<Value>
    ensures letters { IsScalarOfLetters bits text.now result }
    ensures digits { IsScalarOfDigits bits text.now result }
    ensures held { IfSome result (λ v. IsHeld bits false v) }
{
    let number = match coded_letters(text) {
        Some(number) => number,
        None => coded_number(text)?,
    };
    if number > most_of(bits) {
        return None;
    }
    Some(Value::Scalar(number))
}

/// The value that digits or characters may spell.
pub(crate) fn coded_value(signal: CodedSignal, text: &[u8]) -> Option<Value>
    ensures array_letters { signal.is_array ≡ true → IsArrayOfLetters signal.bits text.now result }
    ensures array_digits { signal.is_array ≡ true → IsArrayOfDigits signal.bits text.now result }
    ensures scalar_letters { signal.is_array ≡ false → IsScalarOfLetters signal.bits text.now result }
    ensures scalar_digits { signal.is_array ≡ false → IsScalarOfDigits signal.bits text.now result }
    ensures held { IfSome result (λ v. IsHeld signal.bits signal.is_array v) }
{
    if signal.is_array {
        coded_array(signal.bits, text)
    } else {
        coded_scalar(signal.bits, text)
    }
}
