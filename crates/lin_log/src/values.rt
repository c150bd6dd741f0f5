//! Names, bytes of messages, and values of signals.

ghost use Rattle.std.specs.Prelude.{◌≡◌, ◌<◌, ◌∷◌, IfOk, IfSome, option_map};
ghost use Rattle.std.specs.Result.{result_ok};
ghost use Rattle.hex.specs.Hex.{decode_of, hex_digit_value};
ghost use Rattle.lin_log.specs.Read.{Gives};
ghost use Rattle.lin_log.specs.Said.{array_form, bytes_fields, bytes_of, direction_field, fields};
ghost use Rattle.lin_log.specs.Said.{hex_bytes, SplitsField};
ghost use Rattle.lin_log.specs.Said.{hex_number, is_hex_number, node_field, hex_row, signal_field};
ghost use Rattle.lin_log.specs.Said.{table_field, value_field};

use crate::digits::decoded;
use crate::fields::{copied, first_field, is_number, is_over, number_field, one};
use crate::naming::Naming;
use crate::reason::{LineFault, Reason};
use arrayvec::ArrayVec;
use lin_core::{Direction, Payload, named};
use lin_frame::{Value, ValueBytes};
use lin_text::Text;
use std::alloc::{AllocError, Global};

/// A node or its host, by its name or its number.
#[tactic(auto, unfolding(crate::specs::Said::node_field))]
#[inline(always)]
pub fn node_field<N: Naming>(alloc: Global, names: &N, field: &[u8]) -> Result<u8, LineFault>
    ensures { Gives (λ n. n) result (node_field (N.language names.now) field.now) }
{
    if is_number(field) {
        return Ok(number_field(alloc, field, 255)? as u8);
    }
    match names.node_called(field) {
        Some(node) => Ok(node),
        None => Err(LineFault::Bad(Reason::NoNode(Text::copied(alloc, field)?))),
    }
}

/// A signal, by its name or its number.
#[tactic(auto, unfolding(crate::specs::Said::signal_field))]
#[inline(always)]
pub fn signal_field<N: Naming>(alloc: Global, names: &N, field: &[u8]) -> Result<u16, LineFault>
    ensures { Gives (λ n. n) result (signal_field (N.language names.now) field.now) }
{
    if is_number(field) {
        return Ok(number_field(alloc, field, 65_535)? as u16);
    }
    match names.signal_called(field) {
        Some(signal) => Ok(signal),
        None => Err(LineFault::Bad(Reason::NoSignal(Text::copied(alloc, field)?))),
    }
}

/// A schedule table, by its name or its number.
#[tactic(auto, unfolding(crate::specs::Said::table_field))]
#[inline(always)]
pub fn table_field<N: Naming>(alloc: Global, names: &N, field: &[u8]) -> Result<u16, LineFault>
    ensures { Gives (λ n. n) result (table_field (N.language names.now) field.now) }
{
    if is_number(field) {
        return Ok(number_field(alloc, field, 65_535)? as u16);
    }
    match names.table_called(field) {
        Some(table) => Ok(table),
        None => Err(LineFault::Bad(Reason::NoTable(Text::copied(alloc, field)?))),
    }
}

/// The bytes of one field: `-` for none, or hexadecimal digits, two for each byte.
pub fn hex_bytes(alloc: Global, digits: &[u8]) -> Result<Option<Vec<u8>>, AllocError>
    ensures { IfOk result (λ bytes. option_map (λ v. v.items) bytes ≡ hex_bytes digits.now) }
{
    match digits {
        [] => Ok(None),
        b"-" => Ok(Some(Vec::new(alloc))),
        _ => decoded(alloc, digits),
    }
}

/// The bytes of several fields, if each is of hexadecimal digits.
fn row<N: Naming>(alloc: Global, names: &N, line: &[u8]) -> Result<Option<Vec<u8>>, AllocError>
    ensures { IfOk result (λ bytes. option_map (λ v. v.items) bytes
        ≡ hex_row (fields (N.language names.now).free line.now)) }
{
    let mut row = Vec::new(alloc);
    let mut left = line;
    while let Some((field, rest)) = first_field(names, left) {
        let Some(bytes) = decoded(alloc, field)? else {
            return Ok(None);
        };
        row.extend_from_slice(bytes.as_slice())?;
        left = rest;
    }
    Ok(Some(row))
}

/// The bytes of one field, or of several in a free line; `line` has them all.
fn bytes_of<N: Naming>(
    alloc: Global,
    names: &N,
    line: &[u8],
    field: &[u8],
    rest: &[u8],
) -> Result<Option<Vec<u8>>, AllocError>
    requires { SplitsField (N.language names.now).free line.now field.now rest.now }
    ensures { IfOk result (λ row. option_map (λ v. v.items) row
        ≡ bytes_of (N.language names.now).free field.now
        (fields (N.language names.now).free rest.now)) }
{
    if is_over(names, rest) {
        hex_bytes(alloc, field)
    } else if names.is_free() {
        row(alloc, names, line)
    } else {
        Ok(None)
    }
}

/// The bytes that the fields of a line spell.
#[tactic(auto, unfolding(crate::specs::Said::bytes_fields))]
pub fn bytes_fields<N: Naming>(alloc: Global, names: &N, line: &[u8]) -> Result<Payload, LineFault>
    ensures { Gives (λ p. p) result
        (bytes_fields (N.language names.now) (fields (N.language names.now).free line.now)) }
{
    let Some((field, rest)) = first_field(names, line) else {
        return Err(LineFault::Bad(Reason::NoBytes));
    };
    match bytes_of(alloc, names, line, field, rest)? {
        Some(bytes) => Ok(Payload::copied(alloc, bytes.as_slice())?),
        None => Err(LineFault::Bad(Reason::NotBytes(copied(alloc, names, line)?))),
    }
}

/// The value of a hexadecimal digit.
fn digit_value(digit: u8) -> Option<u16>
    ensures value { result ≡ hex_digit_value digit }
    ensures small { IfSome result (λ v. v < 16) }
{
    match digit {
        b'0'..=b'9' => Some(u16::from(digit - b'0')),
        b'a'..=b'f' => Some(u16::from(digit - b'a' + 10)),
        b'A'..=b'F' => Some(u16::from(digit - b'A' + 10)),
        _ => None,
    }
}

/// The number of 1 to 4 hexadecimal digits, if they are such.
fn hex_number(digits: &[u8]) -> Option<u16>
    ensures { result ≡ hex_number digits.now }
{
    if digits.is_empty() || digits.len() > 4 {
        return None;
    }
    let mut number = 0u16;
    for digit in digits {
        number = number * 16 + digit_value(*digit)?;
    }
    Some(number)
}

/// The value of an array.
fn array_value(alloc: Global, field: &[u8], digits: &[u8]) -> Result<Value, LineFault>
    ensures { Gives (λ v. v) result (array_form field.now digits.now) }
{
    let Some(bytes) = hex_bytes(alloc, digits)? else {
        return Err(LineFault::Bad(Reason::NotBytes(one(alloc, field)?)));
    };
    let mut array = ArrayVec::new();
    match array.try_extend_from_slice(bytes.as_slice()) {
        Ok(()) => Ok(Value::Bytes(ValueBytes::new(array))),
        Err(_) => Err(LineFault::Bad(Reason::TooManyBytes(Text::copied(alloc, field)?))),
    }
}

/// Whether a field begins with `0x`, in a free line.
fn is_hex_number<N: Naming>(names: &N, field: &[u8]) -> bool
    ensures { result ≡ is_hex_number (N.language names.now) field.now }
{
    names.is_free() && matches!(field, [b'0', b'x', ..])
}

/// A signal's value: `x` and an array's bytes, or a scalar's number, decimal or in a free line with
/// `0x` before hexadecimal digits.
#[tactic(auto, unfolding(crate::specs::Said::value_field))]
pub fn value_field<N: Naming>(alloc: Global, names: &N, field: &[u8]) -> Result<Value, LineFault>
    ensures { Gives (λ v. v) result (value_field (N.language names.now) field.now) }
{
    if let [b'x', digits @ ..] = field {
        return array_value(alloc, field, digits);
    }
    if is_hex_number(names, field) {
        return match hex_number(&field[2..]) {
            Some(number) => Ok(Value::Scalar(number)),
            None => Err(LineFault::Bad(Reason::NoNumber {
                field: Text::copied(alloc, field)?,
                most: 65_535,
            })),
        };
    }
    Ok(Value::Scalar(number_field(alloc, field, 65_535)? as u16))
}

/// The direction of a transfer.
#[tactic(auto, unfolding(crate::specs::Said::direction_field))]
pub(crate) fn direction_field(field: &[u8]) -> Result<Direction, LineFault>
    ensures { Gives (λ d. d) result (direction_field field.now) }
{
    match named(field) {
        Some(direction) => Ok(direction),
        None => Err(LineFault::Bad(Reason::TimeoutForm)),
    }
}
