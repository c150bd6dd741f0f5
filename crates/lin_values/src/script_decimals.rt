//! Decimals of scripts, and the units behind them.

ghost use Rattle.std.specs.Prelude.{◌≡◌, ◌+◌, ◌*◌, ◌/◌, ◌^◌, ◌<◌, ◌≤◌, ◌∷◌, IfSome};
ghost use Rattle.std.specs.Prelude.{MatchOption, None, Some, List, ℕ, false, length, option_map};
ghost use Rattle.std.specs.Prelude.{slice_index};
ghost use Rattle.std.specs.Char.{is_ascii_digit};
ghost use Rattle.lin_values.specs.Read.{places_after, signed_number, unsigned_number, whole_after, number_end, IsPlaced, IsShortestOf};
ghost use Rattle.lin_values.specs.Read.{spaces_at_front, without_spaces, number_and_unit, is_number_byte};
ghost use Rattle.lin_values.specs.Value.{with_sign, scaled_value, IsReadable, IsShortest};

use crate::decimals::{Decimal, shortest, ten_to};

/// 10 ^ 24, of which a number's units are parts.
const ONE: u128 = 1_000_000_000_000_000_000_000_000;

/// Whole parts are below this.
const LIMIT: u128 = 100_000_000_000_000;

/// One digit more of the places of a number of units, and how many places are left.
fn place(n: u128, left: u8, c: u8) -> Option<(u128, u8)>
    requires few { left ≤ 24 }
    requires fits { n + 10 ^ left ≤ 10 ^ 38 }
    ensures { MatchOption result ((cs : List ℕ) → places_after n left (c ∷ cs) ≡ None)
        (IsPlaced n left c) }
{
    if left == 0 {
        return if c == b'0' { Some((n, 0)) } else { None };
    }
    if !c.is_ascii_digit() {
        return None;
    }
    Some((n + u128::from(c - b'0') * ten_to(left - 1), left - 1))
}

/// The units of a whole part and its places.
fn with_places(units: u128, text: &[u8]) -> Option<u128>
    requires { units + 10 ^ 24 ≤ 10 ^ 38 }
    ensures same { result ≡ places_after units 24 text.now }
    ensures fits { IfSome result (λ n. n < 10 ^ 38) }
{
    let mut n = units;
    let mut left = 24u8;
    for c in text {
        let (next, fewer) = place(n, left, *c)?;
        n = next;
        left = fewer;
    }
    Some(n)
}

/// The units that a text spells from its first byte that is no digit on.
fn after_point(n: u128, text: &[u8]) -> Option<u128>
    requires few { n < 10 ^ 14 }
    requires some { 0 < length text.now }
    requires ended { is_ascii_digit (slice_index text.now 0) ≡ false }
    ensures same { result ≡ whole_after n text.now }
    ensures fits { IfSome result (λ n. n < 10 ^ 38) }
{
    if text[0] != b'.' || text.len() == 1 {
        return None;
    }
    with_places(n * ONE, &text[1..])
}

/// The units that a text without a sign spells.
fn whole(text: &[u8]) -> Option<u128>
    ensures same { result ≡ whole_after 0 text.now }
    ensures fits { IfSome result (λ n. n < 10 ^ 38) }
{
    let mut n = 0u128;
    let mut i = 0;
    while i < text.len() {
        let c = text[i];
        if !c.is_ascii_digit() {
            return after_point(n, &text[i..]);
        }
        n = n * 10 + u128::from(c - b'0');
        if n >= LIMIT {
            return None;
        }
        i += 1;
    }
    Some(n * ONE)
}

fn with_sign(negative: bool, text: &[u8]) -> Option<Decimal>
    ensures { MatchOption result (unsigned_number text.now ≡ None)
        (IsShortestOf (option_map (with_sign negative) (unsigned_number text.now))) }
{
    if text.is_empty() || !text[0].is_ascii_digit() {
        return None;
    }
    let units = whole(text)?;
    Some(shortest(negative, units, 24))
}

/// The decimal that a text spells: `[-|+] digits [. digits]`, below 10 ^ 14 in size, with at most 24
/// places before zeros.
pub fn read_decimal(text: &[u8]) -> Option<Decimal>
    ensures { MatchOption result (signed_number text.now ≡ None)
        (λ d. (signed_number text.now ≡ Some (scaled_value d)) × IsReadable d × IsShortest d) }
{
    match text {
        [b'-', rest @ ..] => with_sign(true, rest),
        [b'+', rest @ ..] => with_sign(false, rest),
        _ => with_sign(false, text),
    }
}

fn is_number_byte(c: u8) -> bool
    ensures { result ≡ is_number_byte c }
{
    c.is_ascii_digit() || c == b'.' || c == b'-' || c == b'+'
}

/// How many bytes at the front of a text are digits, points and signs.
fn number_end(text: &[u8]) -> usize
    ensures value { result ≡ number_end text.now }
    ensures within { result ≤ length text.now }
{
    text.iter().take_while(|c| is_number_byte(**c)).count()
}

/// How many spaces stand at the front of a text.
fn spaces_at_front(text: &[u8]) -> usize
    ensures value { result ≡ spaces_at_front text.now }
    ensures within { result ≤ length text.now }
{
    text.iter().take_while(|c| **c == b' ').count()
}

/// A text without spaces at its front.
fn without_spaces(text: &[u8]) -> &[u8]
    ensures { result.now ≡ without_spaces text.now }
{
    &text[spaces_at_front(text)..]
}

/// The decimal that a text begins with, and the unit behind it, with or without spaces between.
pub fn number_and_unit(text: &[u8]) -> Option<(Decimal, &[u8])>
    ensures same { option_map (λ r. (scaled_value r.0, r.1.now)) result ≡ number_and_unit text.now }
    ensures form { IfSome result (λ r. IsReadable r.0 × IsShortest r.0) }
{
    let (number, behind) = text.split_at(number_end(text));
    Some((read_decimal(number)?, without_spaces(behind)))
}
