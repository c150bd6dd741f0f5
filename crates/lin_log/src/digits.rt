//! Bytes in hexadecimal digits.

ghost use Rattle.std.specs.Prelude.{ℕ, ◌≡◌, IfOk, option_map};
ghost use Rattle.std.specs.Option.{unwrap_or};
ghost use Rattle.std.specs.Result.{result_ok};
ghost use Rattle.hex.specs.Hex.{decode_of, hex_digit_value, pair_value};

use std::alloc::{AllocError, Global};

/// The value of each byte as a hexadecimal digit, and 255 for what is none.
static DIGITS: [u8; 256] = *b"\
    \xff\xff\xff\xff\xff\xff\xff\xff\xff\xff\xff\xff\xff\xff\xff\xff\
    \xff\xff\xff\xff\xff\xff\xff\xff\xff\xff\xff\xff\xff\xff\xff\xff\
    \xff\xff\xff\xff\xff\xff\xff\xff\xff\xff\xff\xff\xff\xff\xff\xff\
    \x00\x01\x02\x03\x04\x05\x06\x07\x08\x09\xff\xff\xff\xff\xff\xff\
    \xff\x0a\x0b\x0c\x0d\x0e\x0f\xff\xff\xff\xff\xff\xff\xff\xff\xff\
    \xff\xff\xff\xff\xff\xff\xff\xff\xff\xff\xff\xff\xff\xff\xff\xff\
    \xff\x0a\x0b\x0c\x0d\x0e\x0f\xff\xff\xff\xff\xff\xff\xff\xff\xff\
    \xff\xff\xff\xff\xff\xff\xff\xff\xff\xff\xff\xff\xff\xff\xff\xff\
    \xff\xff\xff\xff\xff\xff\xff\xff\xff\xff\xff\xff\xff\xff\xff\xff\
    \xff\xff\xff\xff\xff\xff\xff\xff\xff\xff\xff\xff\xff\xff\xff\xff\
    \xff\xff\xff\xff\xff\xff\xff\xff\xff\xff\xff\xff\xff\xff\xff\xff\
    \xff\xff\xff\xff\xff\xff\xff\xff\xff\xff\xff\xff\xff\xff\xff\xff\
    \xff\xff\xff\xff\xff\xff\xff\xff\xff\xff\xff\xff\xff\xff\xff\xff\
    \xff\xff\xff\xff\xff\xff\xff\xff\xff\xff\xff\xff\xff\xff\xff\xff\
    \xff\xff\xff\xff\xff\xff\xff\xff\xff\xff\xff\xff\xff\xff\xff\xff\
    \xff\xff\xff\xff\xff\xff\xff\xff\xff\xff\xff\xff\xff\xff\xff\xff";

/// The value of a hexadecimal digit, and 255 where it is none.
#[inline(always)]
fn value_of(digit: u8) -> u8
    ensures { result ≡ unwrap_or (hex_digit_value digit) 255 }
{
    DIGITS[digit as usize]
}

/// The byte of two hexadecimal digits, if they are such.
#[inline(always)]
fn byte_of(high: u8, low: u8) -> Option<u8>
    ensures { (index : ℕ) → result ≡ result_ok (pair_value high low index) }
{
    let first = value_of(high);
    let second = value_of(low);
    if first < 16 && second < 16 {
        Some(first * 16 + second)
    } else {
        None
    }
}

/// The bytes of hexadecimal digits, two for each, if they are such. (By a table, since
/// `hex::decode` takes half as many instructions again.)
pub fn decoded(alloc: Global, digits: &[u8]) -> Result<Option<Vec<u8>>, AllocError>
    ensures { IfOk result
        (λ bytes. option_map (λ v. v.items) bytes ≡ result_ok (decode_of digits.now)) }
{
    if digits.len() % 2 != 0 {
        return Ok(None);
    }
    let count = digits.len() / 2;
    let mut bytes = vec![in alloc; 0u8; count]?;
    for at in 0..count {
        match byte_of(digits[2 * at], digits[2 * at + 1]) {
            Some(byte) => bytes[at] = byte,
            None => return Ok(None),
        }
    }
    Ok(Some(bytes))
}
