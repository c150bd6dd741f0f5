//! The scalars that have a text, or mean a decimal from one to another.

ghost use Rattle.std.specs.Prelude.{◌≡◌, ◌+◌, ◌*◌, ◌<◌, ◌≤◌, ◌^◌, ◌&&◌, ℕ, not, AllPairs, All, IfOk, IfSome, MatchOption};
ghost use Rattle.std.specs.Prelude.{option_map, unsigned_abs, true, Some, None, nat_lt, int_lt, ◌≤ℤ◌};
ghost use lib.IntN.{◌+ℤ◌, ◌*ℤ◌, ◌-ℤ◌, pos};
ghost use Rattle.lin_values.specs.Layers.{IsBefore, IsSomeSpan};
ghost use Rattle.lin_values.specs.Raws.{has_unit, in_option_span, lies_within, is_mapped_within};
ghost use Rattle.lin_values.specs.Raws.{seeks_item, seeks_part, seeks_raw, sought_range, sought_value, AreWide, HaveNumbers};

use crate::coded::{CodedSignal, most_of};
use crate::codings::Item;
use crate::encoding::{Encoding, Range};
use crate::layers::{RangePart, Span};
use std::alloc::{AllocError, Global};

/// What is looked for: a text of values, and decimals from one to another, in units of 10 ^ -24,
/// with their unit; without one any unit will do.
#[derive(Clone, Copy)]
pub(crate) struct Sought<'a> {
    pub(crate) text: Option<&'a [u8]>,
    pub(crate) decimals: Option<(i128, i128)>,
    pub(crate) unit: &'a [u8],
}

/// The first number n with low ≤ n * step.
fn first_multiple(step: u128, low: i128) -> u128
    requires { 0 < step }
    ensures { (n : ℕ) → nat_lt n result ≡ int_lt (pos (n * step)) low }
{
    if low <= 0 {
        0
    } else {
        (low as u128).div_ceil(step)
    }
}

/// The last number n, up to 65,535, with n * step ≤ high.
fn last_multiple(step: u128, high: i128) -> u128
    requires some { 0 < step }
    requires high { pos 0 ≤ℤ high }
    ensures found { (n : ℕ) → n < 65536 → nat_lt result n ≡ int_lt high (pos (n * step)) }
    ensures fits { result < 65536 }
{
    (high as u128 / step).min(65_535)
}

/// The whole numbers n from 0 on, up to 65,535, with low ≤ n * step ≤ high.
fn multiples(step: u128, low: i128, high: i128) -> Option<Span>
    requires { 0 < step }
    ensures found { (n : ℕ) → n < 65536
        → lies_within low high (pos (n * step)) ≡ in_option_span result n }
    ensures some { IfSome result IsSomeSpan }
{
    if high < 0 {
        return None;
    }
    let first = first_multiple(step, low);
    let last = last_multiple(step, high);
    if first > last {
        return None;
    }
    Some(Span {
        from: first as u64,
        to: last as u64,
    })
}

pub(crate) fn difference(a: i128, b: i128) -> i128
    requires { unsigned_abs a + unsigned_abs b < 2 ^ 127 }
    ensures { result ≡ a -ℤ b }
{
    a - b
}

/// The whole numbers n from 0 on, up to 65,535, with low ≤ n * scale + offset ≤ high.
fn between(scale: i128, offset: i128, low: i128, high: i128) -> Option<Span>
    requires low { unsigned_abs low + unsigned_abs offset < 2 ^ 127 }
    requires high { unsigned_abs high + unsigned_abs offset < 2 ^ 127 }
    ensures found { (n : ℕ) → n < 65536
        → lies_within low high (pos n *ℤ scale +ℤ offset) ≡ in_option_span result n }
    ensures some { IfSome result IsSomeSpan }
{
    if scale > 0 {
        multiples(
            scale.unsigned_abs(),
            difference(low, offset),
            difference(high, offset),
        )
    } else if scale < 0 {
        multiples(
            scale.unsigned_abs(),
            difference(offset, high),
            difference(offset, low),
        )
    } else if low <= offset && offset <= high {
        Some(Span {
            from: 0,
            to: 65_535,
        })
    } else {
        None
    }
}

/// The raw values n with low ≤ n * scale + offset ≤ high.
fn solved(range: &Range<'_>, low: i128, high: i128) -> Option<Span>
    requires low { unsigned_abs low ≤ 10 ^ 38 }
    requires high { unsigned_abs high ≤ 10 ^ 38 }
    ensures found { (n : ℕ) → n < 65536 → is_mapped_within range.now low high n ≡ in_option_span result n }
    ensures some { IfSome result IsSomeSpan }
{
    between(range.scale.units(), range.offset.units(), low, high)
}

impl Sought<'_> {
    fn has_unit(&self, unit: &[u8]) -> bool
        ensures { result ≡ has_unit self.now.unit.now unit.now }
    {
        self.unit.is_empty() || self.unit == unit
    }

    /// Whether a value is meant that has this text, or without one as a number.
    fn is_named(&self, value: u64, text: &[u8]) -> bool
        requires { value < 65536 }
        ensures { result
            ≡ sought_value (option_map (λ t. t.now) self.now.text) self.now.decimals
            self.now.unit.now value text.now }
    {
        if !text.is_empty() {
            return self.text == Some(text);
        }
        let number = i128::from(value) * 1_000_000_000_000_000_000_000_000;
        self.text.is_some() && self.unit.is_empty() && self.decimals == Some((number, number))
    }

    /// The raw values that a range gives what is looked for; of a value none.
    fn range_span(&self, item: &Item) -> Option<Span>
        requires { AreWide self.now.decimals }
        ensures some { IfSome result IsSomeSpan }
        ensures found { (n : ℕ) → n < 65536
            → sought_range self.now.decimals self.now.unit.now item.now n ≡ in_option_span result n }
    {
        let Some((low, high)) = self.decimals else {
            return None;
        };
        match item.as_range() {
            Some(range) => if self.has_unit(range.unit) {
                solved(&range, low, high)
            } else {
                None
            },
            None => None,
        }
    }

    /// The raw values that an item gives what is looked for, where it counts.
    fn span_of(&self, item: &Item) -> Option<Span>
        requires { AreWide self.now.decimals }
        ensures some { IfSome result IsSomeSpan }
        ensures found { (n : ℕ) → n < 65536
            → seeks_item self.now item.now n ≡ in_option_span result n }
    {
        match item {
            Item::Logical { value, text } => if *value <= 65_535
                && self.is_named(*value, text.as_slice())
            {
                Some(Span {
                    from: *value,
                    to: *value,
                })
            } else {
                None
            },
            _ => self.range_span(item),
        }
    }
}

/// The raw values of a scalar's part that are looked for.
fn part_span(
    encoding: &Encoding,
    signal: CodedSignal,
    sought: &Sought<'_>,
    part: &RangePart,
) -> Option<Span>
    requires { AreWide sought.now.decimals }
    ensures some { IfSome result IsSomeSpan }
    ensures within { IfSome result
        (λ s. (part.now.span.from ≤ s.from) × (s.to ≤ part.now.span.to)) }
    ensures found { (n : ℕ) → n < 65536
        → seeks_part sought.now encoding.now.items signal.bits part.now n ≡ in_option_span result n }
{
    let span = sought
        .span_of(encoding.item(part.item)?)?
        .common(part.span)?;
    span.common(Span {
        from: 0,
        to: u64::from(most_of(signal.bits)),
    })
}

/// The raw values of a signal that are looked for.
pub(crate) fn spans_of(
    alloc: Global,
    signal: CodedSignal,
    encoding: &Encoding,
    sought: &Sought<'_>,
) -> Result<Vec<Span>, AllocError>
    requires { AreWide sought.now.decimals }
    ensures found { IfOk result (λ spans. HaveNumbers
        (λ n. not signal.is_array && seeks_raw sought.now encoding.now.items signal.bits n)
        spans.items) }
    ensures some { IfOk result (λ spans. All IsSomeSpan spans.items) }
    ensures apart { IfOk result (λ spans. AllPairs IsBefore spans.items) }
{
    let mut spans = Vec::new(alloc);
    if signal.is_array {
        return Ok(spans);
    }
    for part in encoding.parts() {
        if let Some(span) = part_span(encoding, signal, sought, part) {
            spans.push(span)?;
        }
    }
    Ok(spans)
}
