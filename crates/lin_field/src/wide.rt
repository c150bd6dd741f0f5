//! Numbers of up to 64 bits.

ghost use Rattle.std.specs.Prelude.{◌≡◌, ◌≤◌, ◌^◌, min};
ghost use Rattle.lin_ldf.specs.Forms.{Gives};
ghost use Rattle.lin_ldf.specs.Numbers.{decimal_value, has_point, hex_digit, hex_value};
ghost use Rattle.lin_ldf.specs.Numbers.{int_value};
ghost use Rattle.lin_field.specs.Grammar.{number_in_wide_limit, wide_int};

use crate::loose::WideNumber;
use lin_ldf::{LdfFault, Parser, TokenKind, is_hexadecimal};

/// One above the greatest number.
const LIMIT: u128 = 1 << 64;

/// The value of decimal digits, or the limit if it isn't below that.
#[tactic(auto, using(crate::proofs::Capped::capping))]
fn decimal_value(digits: &[u8]) -> u128
    ensures { result ≡ min (decimal_value digits.now) (2 ^ 64) }
{
    let mut value: u128 = 0;
    for c in digits {
        value = (10 * value + u128::from(c.saturating_sub(b'0'))).min(LIMIT);
    }
    value
}

fn hex_digit(c: u8) -> u8
    ensures { result ≡ hex_digit c }
{
    if c < b'A' {
        c.saturating_sub(b'0')
    } else if c < b'a' {
        c - 55
    } else {
        c - 87
    }
}

/// The value of hexadecimal digits, or the limit if it isn't below that.
#[tactic(auto, using(crate::proofs::Capped::capping))]
fn hex_value(digits: &[u8]) -> u128
    ensures { result ≡ min (hex_value digits.now) (2 ^ 64) }
{
    let mut value: u128 = 0;
    for c in digits {
        value = (16 * value + u128::from(hex_digit(*c))).min(LIMIT);
    }
    value
}

fn limited(value: u128) -> Option<u64>
    ensures { result ≡ number_in_wide_limit value }
{
    if value < LIMIT {
        Some(value as u64)
    } else {
        None
    }
}

/// The value of a number without fraction, if it is below the limit.
fn int_value(text: &[u8]) -> Option<u64>
    ensures { result ≡ number_in_wide_limit (int_value text.now) }
{
    match text {
        [_, _, digits @ ..] if is_hexadecimal(text) => limited(hex_value(digits)),
        _ => limited(decimal_value(text)),
    }
}

fn has_point(text: &[u8]) -> bool
    ensures { result ≡ has_point text.now }
{
    text.iter().any(|c| *c == b'.')
}

/// Reads a number without a fraction, of up to 64 bits: `WIDE`.
pub fn wide_int(parser: &mut Parser<'_>) -> Result<WideNumber, LdfFault>
    ensures { Gives result parser.new (wide_int.read parser.old) }
{
    let place = parser.place();
    if !parser.is_at(TokenKind::Number) || has_point(parser.text()) {
        return Err(LdfFault::Unexpected(place));
    }
    match int_value(parser.text()) {
        Some(value) => {
            parser.skip();
            Ok(WideNumber { value, place })
        }
        None => Err(LdfFault::NumberTooLarge(place)),
    }
}
