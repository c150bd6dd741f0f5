//! Exact decimals, and the physical values of raw values (LIN 2.2A, section 9.2.6.1).

ghost use Rattle.std.specs.Prelude.{◌≡◌, ◌+◌, ◌-◌, ◌*◌, ◌^◌, ◌<◌, ◌≤◌, nat_lt, true};
ghost use lib.IntN.{◌+ℤ◌, ◌*ℤ◌, pos};
ghost use Rattle.lin_text.specs.Written.{Grows};
ghost use Rattle.lin_values.specs.Shown.{fraction, last_digits, decimal_shown};
ghost use Rattle.lin_values.specs.Value.{with_sign, shortest_at, scaled_value, IsInLimits, IsReadable};
ghost use Rattle.lin_values.specs.Value.{fits, is_small, without_zeros, IsExact, IsShortest};

use lin_text::TextWriter;
use std::io::Write;

/// The decimal `digits / 10 ^ places`, or that below 0.
#[derive(Clone, Copy, Debug, PartialEq, Eq)]
pub struct Decimal {
    pub negative: bool,
    pub digits: u128,
    pub places: u8,
}

/// Returns 10 to the power of `k`, which is at most 33.
pub fn ten_to(k: u8) -> u128
    requires { k ≤ 33 }
    ensures { result ≡ 10 ^ k }
{
    let mut power = 1u128;
    let mut left = k;
    while left > 0 {
        if left < 8 {
            power *= 10;
            left -= 1;
        } else {
            power *= 100_000_000;
            left -= 8;
        }
    }
    power
}

/// The digits of a decimal with so many places.
fn digits_at(d: Decimal, places: u8) -> u128
    requires limits { IsInLimits d }
    requires more { d.places ≤ places }
    requires few { places ≤ 24 }
    ensures same { result ≡ d.digits * 10 ^ (places - d.places) }
    ensures fits { result < 10 ^ (9 + places) }
{
    d.digits * ten_to(places - d.places)
}

/// The sum of two numbers with signs, where 0 may have either.
fn sum(minus_a: bool, a: u128, minus_b: bool, b: u128) -> (bool, u128)
    requires { a + b < 2 ^ 127 }
    ensures same { with_sign result.0 result.1 ≡ with_sign minus_a a +ℤ with_sign minus_b b }
    ensures fits { result.1 ≤ a + b }
{
    if minus_a == minus_b {
        (minus_a, a + b)
    } else if a >= b {
        (minus_a, a - b)
    } else {
        (minus_b, b - a)
    }
}

/// So many digits and places without zeros at the end, eight at a time, up to those that are fewer.
fn without_eights(digits: u128, places: u8) -> (u128, u8)
    requires { places ≤ 24 }
    ensures same { result.0 * 10 ^ (24 - result.1) ≡ digits * 10 ^ (24 - places) }
    ensures few { result.1 ≤ places }
    ensures exact { without_zeros result.0 result.1 ≡ without_zeros digits places }
    ensures some { nat_lt 0 result.0 ≡ nat_lt 0 digits }
{
    let mut rest = digits;
    let mut left = places;
    while left >= 8 && rest % 100_000_000 == 0 {
        rest /= 100_000_000;
        left -= 8;
    }
    (rest, left)
}

/// The same value without zeros at the end.
pub fn shortest(negative: bool, digits: u128, places: u8) -> Decimal
    requires { places ≤ 24 }
    ensures same { scaled_value result ≡ with_sign negative (digits * 10 ^ (24 - places)) }
    ensures size { result.digits * 10 ^ (24 - result.places) ≡ digits * 10 ^ (24 - places) }
    ensures exact { result ≡ shortest_at negative digits places }
    ensures places { result.places ≤ places }
    ensures form { IsShortest result }
{
    let (mut rest, mut left) = without_eights(digits, places);
    while left > 0 && rest % 10 == 0 {
        rest /= 10;
        left -= 1;
    }
    Decimal {
        negative: negative && rest > 0,
        digits: rest,
        places: left,
    }
}

/// Whether `number * scale + offset` is told exactly.
pub fn fits(number: u64, scale: Decimal, offset: Decimal) -> bool
    requires scale { IsInLimits scale }
    requires offset { IsInLimits offset }
    ensures { result ≡ fits number scale offset }
{
    let places = scale.places.max(offset.places);
    let Some(slope) = u128::from(number).checked_mul(digits_at(scale, places)) else {
        return false;
    };
    match slope.checked_add(digits_at(offset, places)) {
        Some(size) => size < 1 << 127,
        None => false,
    }
}

/// `number * scale + offset`, exactly.
pub fn physical(number: u64, scale: Decimal, offset: Decimal) -> Decimal
    requires scale { IsInLimits scale }
    requires offset { IsInLimits offset }
    requires fits { fits number scale offset ≡ true }
    ensures same { scaled_value result ≡ pos number *ℤ scaled_value scale +ℤ scaled_value offset }
    ensures size { IsExact result }
    ensures readable { number < 65536 → IsReadable result }
    ensures form { IsShortest result }
{
    let places = scale.places.max(offset.places);
    let slope = u128::from(number) * digits_at(scale, places);
    let (negative, digits) = sum(
        scale.negative,
        slope,
        offset.negative,
        digits_at(offset, places),
    );
    shortest(negative, digits, places)
}

/// The value in units of 10 ^ -24.
pub fn units(d: Decimal) -> i128
    requires { IsReadable d }
    ensures { result ≡ scaled_value d }
{
    let size = (d.digits * ten_to(24 - d.places)) as i128;
    if d.negative { -size } else { size }
}

/// Whether a decimal is below 10 ^ 9 in size, with at most 24 places.
pub fn is_small(d: Decimal) -> bool
    requires { IsReadable d }
    ensures same { result ≡ is_small (scaled_value d) }
    ensures limits { result ≡ true → IsInLimits d }
{
    d.digits < ten_to(9 + d.places)
}

/// Puts the digits of a number that has at most so many.
fn put_last_digits<W: Write>(out: &mut TextWriter<'_, W>, number: u128, count: u8)
    requires few { count ≤ 24 }
    requires fits { number < 10 ^ count }
    ensures { Grows W.contents out.old out.new (last_digits count number) }
{
    let mut rest = number;
    let mut left = count;
    while left > 0 {
        left -= 1;
        let power = ten_to(left);
        out.put_byte(b'0' + (rest / power) as u8);
        rest %= power;
    }
}

fn put_fraction<W: Write>(out: &mut TextWriter<'_, W>, number: u128, places: u8)
    requires few { places ≤ 24 }
    requires fits { number < 10 ^ places }
    ensures { Grows W.contents out.old out.new (fraction places number) }
{
    if places > 0 {
        out.put_byte(b'.');
        put_last_digits(out, number, places);
    }
}

/// Puts the shortest text of a decimal.
pub fn put_decimal<W: Write>(out: &mut TextWriter<'_, W>, d: Decimal)
    requires { d.places ≤ 24 }
    ensures { Grows W.contents out.old out.new (decimal_shown d) }
{
    if d.negative {
        out.put_byte(b'-');
    }
    let power = ten_to(d.places);
    out.put_number(d.digits / power);
    put_fraction(out, d.digits % power, d.places);
}
