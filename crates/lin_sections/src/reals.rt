//! REALs of LDF texts: decimals with any spelling of their point and exponent.

ghost use Rattle.std.specs.Prelude.{◌≡◌, ◌+◌, ◌-◌, ◌^◌, ◌<◌, ◌≤◌, IfSome, IfOk, drop, length};
ghost use Rattle.std.specs.Prelude.{option_map, true};
ghost use Rattle.std.specs.Char.{is_ascii_digit};
ghost use Rattle.lin_ldf.specs.Forms.{Gives, is_front};
ghost use Rattle.lin_ldf.specs.Numbers.{point_at};
ghost use Rattle.lin_sections.specs.Coding.{is_part, may_be_part, optional_sign, real, run};
ghost use Rattle.lin_sections.specs.Real.{HasRoom, digit_units, digits_units, exponent, exponent_at};
ghost use Rattle.lin_sections.specs.Real.{exponent_size, mantissa_units, real_units, shift_of};
ghost use Rattle.lin_values.specs.Value.{IsInLimits, IsShortest};

use lin_ldf::{LdfFault, Parser, TokenKind};
use lin_parts::Location;
use lin_values::{Coefficient, shortest, ten_to};
use std::alloc::AllocError;

/// What an exponent of ten multiplies or divides by: one of the two is 0.
#[derive(Clone, Copy)]
struct Shift {
    up: usize,
    down: usize,
}

/// One digit more of a number of units, which counts 10 ^ (left - 1 - down) units; nothing where it
/// isn't 0 and that is no whole number of units, or 10 ^ 33 or more.
fn with_digit(units: u128, left: usize, down: usize, c: u8) -> Option<u128>
    requires digit { is_ascii_digit c ≡ true }
    requires room { HasRoom units left down }
    ensures same { result ≡ digit_units units left down c }
    ensures room { IfSome result (λ n. HasRoom n (left - 1) down) }
{
    if c == b'0' {
        return Some(units);
    }
    if left <= down || left - down > 33 {
        return None;
    }
    let power = ten_to((left - down - 1) as u8);
    Some(units + u128::from(c - b'0') * power)
}

/// The units of digits of which the first counts 10 ^ (left - 1 - down), after those before.
fn with_digits(units: u128, left: usize, down: usize, text: &[u8]) -> Option<u128>
    requires { HasRoom units left down }
    ensures same { result ≡ digits_units units left down text.now }
    ensures room { IfSome result (λ n. HasRoom n (left - length text.now) down) }
{
    let mut sum = units;
    let mut rest = left;
    for c in text {
        if !c.is_ascii_digit() {
            return None;
        }
        sum = with_digit(sum, rest, down, *c)?;
        rest = rest.saturating_sub(1);
    }
    Some(sum)
}

/// The units of a number's whole part and fraction.
fn mantissa_units(whole: &[u8], fraction: &[u8], shift: Shift) -> Option<u128>
    requires { shift.up ≤ 999 }
    ensures same { result ≡ mantissa_units whole.now fraction.now shift.up shift.down }
    ensures fits { IfSome result (λ n. n < 10 ^ 33) }
{
    if whole.is_empty() && fraction.is_empty() {
        return None;
    }
    let Shift { up, down } = shift;
    let units = with_digits(0, 24 + whole.len() + up, down, whole)?;
    with_digits(units, 24 + up, down, fraction)
}

/// The number of an exponent's 1 to 3 digits.
fn exponent_size(digits: &[u8]) -> Option<usize>
    ensures value { result ≡ exponent_size digits.now }
    ensures small { IfSome result (λ n. n ≤ 999) }
{
    if digits.is_empty() || digits.len() > 3 {
        return None;
    }
    let mut size = 0;
    for c in digits {
        if !c.is_ascii_digit() {
            return None;
        }
        size = 10 * size + usize::from(*c - b'0');
    }
    Some(size)
}

/// What an exponent, from behind its `e` on, shifts by.
fn exponent(text: &[u8]) -> Option<Shift>
    ensures same { option_map (λ s. (s.up, s.down)) result ≡ exponent text.now }
    ensures small { IfSome result (λ s. s.up ≤ 999) }
{
    match text {
        [b'-', digits @ ..] => Some(Shift {
            up: 0,
            down: exponent_size(digits)?,
        }),
        [b'+', digits @ ..] => Some(Shift {
            up: exponent_size(digits)?,
            down: 0,
        }),
        digits => Some(Shift {
            up: exponent_size(digits)?,
            down: 0,
        }),
    }
}

/// How many bytes stand before the first `e` or `E`.
fn exponent_at(text: &[u8]) -> usize
    ensures value { result ≡ exponent_at text.now }
    ensures within { result ≤ length text.now }
{
    text.iter()
        .take_while(|c| **c != b'e' && **c != b'E')
        .count()
}

/// How many bytes stand before the first point.
fn point_at(text: &[u8]) -> usize
    ensures value { result ≡ point_at text.now }
    ensures within { result ≤ length text.now }
{
    text.iter().take_while(|c| **c != b'.').count()
}

/// What stands behind the byte at an index, if there is one.
fn behind(text: &[u8], index: usize) -> &[u8]
    requires { index ≤ length text.now }
    ensures { result.now ≡ drop (index + 1) text.now }
{
    text.get(index + 1..).unwrap_or(&[])
}

/// What the exponent of a number shifts by, if it has one.
fn shift_of(text: &[u8]) -> Option<Shift>
    ensures same { option_map (λ s. (s.up, s.down)) result ≡ shift_of text.now }
    ensures small { IfSome result (λ s. s.up ≤ 999) }
{
    let end = exponent_at(text);
    if end < text.len() {
        exponent(behind(text, end))
    } else {
        Some(Shift { up: 0, down: 0 })
    }
}

/// The units of 10 ^ -24 that a number without a sign spells, below 10 ^ 33.
fn real_units(text: &[u8]) -> Option<u128>
    ensures same { result ≡ real_units text.now }
    ensures fits { IfSome result (λ n. n < 10 ^ 33) }
{
    let shift = shift_of(text)?;
    let mantissa = &text[..exponent_at(text)];
    let point = point_at(mantissa);
    mantissa_units(&mantissa[..point], behind(mantissa, point), shift)
}

/// Whether a sign is next; it is passed over.
fn is_negative(parser: &mut Parser<'_>) -> bool
    ensures { (result, parser.new) ≡ optional_sign parser.old }
{
    let is_minus = parser.is_at(TokenKind::Other) && parser.text() == b"-".as_slice();
    let is_plus = parser.is_at(TokenKind::Other) && parser.text() == b"+".as_slice();
    if is_minus || is_plus {
        parser.skip();
    }
    is_minus
}

/// Whether a token that a number may have is next.
fn is_at_part(parser: &Parser<'_>) -> bool
    ensures { result ≡ is_front may_be_part parser.now }
{
    match parser.front_kind() {
        Some(TokenKind::Number | TokenKind::Word | TokenKind::Other) => true,
        _ => false,
    }
}

/// Whether such a token is next, so many bytes behind a place in its line.
fn is_at_part_behind(parser: &Parser<'_>, place: Location, length: usize) -> bool
    ensures { result ≡ is_front (is_part place.line (place.column + length)) parser.now }
{
    let next = parser.place();
    is_at_part(parser)
        && next.line == place.line
        && next.column >= place.column
        && next.column - place.column == length as u64
}

/// The text of the tokens that stand one behind the other without a gap, up to a mark.
fn run(parser: &mut Parser<'_>) -> Result<Vec<u8>, AllocError>
    ensures { IfOk result (λ text. (text.items, parser.new) ≡ run parser.old) }
{
    let mut text = Vec::new(parser.alloc());
    let mut place = parser.place();
    let mut length = 0;
    while is_at_part_behind(parser, place, length) {
        let token = parser.text();
        text.extend_from_slice(token)?;
        place = parser.place();
        length = token.len();
        parser.skip();
    }
    Ok(text)
}

/// A decimal.
// [ '-' | '+' ] ( NUM in decimal form [ '.' ] | '.' digits ) [ exponent ]
pub(crate) fn real(parser: &mut Parser<'_>) -> Result<Coefficient, LdfFault>
    ensures read { Gives result parser.new (real parser.old) }
    ensures form { IfOk result (λ d. IsInLimits d × IsShortest d) }
{
    let is_negative = is_negative(parser);
    let place = parser.place();
    let text = run(parser)?;
    match real_units(text.as_slice()) {
        Some(units) => Ok(Coefficient::new(shortest(is_negative, units, 24))),
        None => Err(LdfFault::Unexpected(place)),
    }
}
