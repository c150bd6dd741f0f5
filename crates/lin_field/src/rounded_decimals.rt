//! Numbers in decimal form with any number of decimals.

ghost use Rattle.std.specs.Prelude.{◌≡◌, not};
ghost use Rattle.lin_ldf.specs.Forms.{Gives};
ghost use Rattle.lin_ldf.specs.Numbers.{fraction_part, has_zero_tail, number_in_limit};
ghost use Rattle.lin_field.specs.Grammar.{rounded_thousandths, decimal, decimal_in};

use crate::loose::RoundedDecimal;
use lin_ldf::{
    LdfFault, Parser, TokenKind, fraction_digit, fraction_part, has_zero_tail, is_hexadecimal,
    thousandths,
};

/// The thousandths of a number in decimal form, rounded half up, where they are within the limit.
fn rounded(text: &[u8]) -> Option<u32>
    ensures { result ≡ number_in_limit (rounded_thousandths text.now) }
{
    match thousandths(text) {
        Some(value) if fraction_digit(fraction_part(text), 3) >= 5 => value.checked_add(1),
        value => value,
    }
}

fn is_rounded(text: &[u8]) -> bool
    ensures { result ≡ not (has_zero_tail (fraction_part text.now)) }
{
    !has_zero_tail(fraction_part(text))
}

/// Reads a number with decimals as thousandths of a unit: `DECR`, which may have more than three decimals.
pub fn read_decimal(parser: &mut Parser<'_>) -> Result<RoundedDecimal, LdfFault>
    ensures { Gives result parser.new (decimal.read parser.old) }
{
    if !parser.is_at(TokenKind::Number) || is_hexadecimal(parser.text()) {
        return Err(LdfFault::Unexpected(parser.place()));
    }
    let text = parser.text();
    let number = parser.number(rounded(text))?;
    Ok(RoundedDecimal {
        number,
        is_rounded: is_rounded(text),
    })
}

/// Reads a number with decimals, its unit and a mark: `DECR unit mark`.
pub fn decimal_in(
    parser: &mut Parser<'_>,
    unit: &[u8],
    end: TokenKind,
) -> Result<RoundedDecimal, LdfFault>
    ensures { Gives result parser.new ((decimal_in unit.now end).read parser.old) }
{
    let number = read_decimal(parser)?;
    parser.keyword_before(unit, end)?;
    Ok(number)
}
