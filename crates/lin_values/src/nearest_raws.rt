//! The raw values next to a decimal, and the nearest.

ghost use Rattle.std.specs.Prelude.{◌≡◌, ◌≤◌, ◌^◌, ◌⊎◌, ◌||◌, ◌&&◌, ◌==◌, ℕ, nat_lt, None, option_and_then, option_map, true, unsigned_abs};
ghost use Rattle.lin_values.specs.Layers.{in_span, IsSomeSpan};
ghost use Rattle.lin_values.specs.Nearest.{distance_above, distance_below, near_of, nearer, range_value, part_distance, raw_distance, AddsSpan};
ghost use Rattle.lin_values.specs.Nearest.{signal_decimal, with_near, with_raw};
ghost use Rattle.lin_values.specs.Nearest.{IsLeast, IsAtLeastAsNear};
ghost use Rattle.lin_values.specs.Raws.{above, below, has_unit, nearest};
ghost use Rattle.lin_values.specs.Value.{scaled_value, IsReadable};

use crate::coded::{Coded, CodedSignal, most_of};
use crate::decimals::{Decimal, physical, units};
use crate::encoding::{Encoding, Range};
use crate::layers::{RangePart, Span};
use crate::sought::difference;

/// A raw value, and how far what it means is from a decimal, in units of 10 ^ -24.
#[derive(Clone, Copy)]
struct Near {
    raw: u16,
    distance: u128,
}

/// The raw values next to a decimal.
#[derive(Clone, Copy)]
struct Neighbours {
    below: Option<Near>,
    above: Option<Near>,
}

fn has_unit(sought: &[u8], unit: &[u8]) -> bool
    ensures { result ≡ has_unit sought.now unit.now }
{
    sought.is_empty() || sought == unit
}

/// The two raw values of a span between which n * scale is a distance, or the nearest end twice.
fn around(span: Span, scale: i128, distance: i128) -> (u16, u16)
    requires { IsSomeSpan span }
    ensures first { in_span span result.0 ≡ true }
    ensures second { in_span span result.1 ≡ true }
    ensures order { result.0 ≤ result.1 }
    ensures next { (n : ℕ) → in_span span n ≡ true
        → IsAtLeastAsNear scale distance result.0 n ⊎ IsAtLeastAsNear scale distance result.1 n }
{
    if scale == 0 || (scale < 0) != (distance < 0) {
        return (span.from as u16, span.from as u16);
    }
    let count = distance.unsigned_abs() / scale.unsigned_abs();
    let from = u128::from(span.from);
    let to = u128::from(span.to);
    (
        count.clamp(from, to) as u16,
        (count + 1).clamp(from, to) as u16,
    )
}

impl Near {
    /// The nearer of two, and of two as near the first.
    fn or_nearer(self, known: Option<Near>) -> Option<Near>
        ensures { option_map near_of result ≡ with_near (near_of self) (option_map near_of known) }
    {
        match known {
            Some(other) if self.distance >= other.distance => Some(other),
            _ => Some(self),
        }
    }

    /// Whether it is the nearer of two, and of two as near the lower.
    fn is_nearer(self, other: Near) -> bool
        ensures { result
            ≡ (nat_lt self.distance other.distance
            || self.distance == other.distance && nat_lt self.raw other.raw) }
    {
        self.distance < other.distance || self.distance == other.distance && self.raw < other.raw
    }
}

impl Neighbours {
    /// Nothing is next to it yet.
    fn none() -> Neighbours
        ensures below { result.below ≡ None }
        ensures above { result.above ≡ None }
    {
        Neighbours {
            below: None,
            above: None,
        }
    }

    /// Adds a raw value with what it means.
    fn add(&mut self, sought: i128, raw: u16, value: i128)
        ensures below { option_map near_of self.new.below
            ≡ with_raw (distance_below sought value) raw (option_map near_of self.old.below) }
        ensures above { option_map near_of self.new.above
            ≡ with_raw (distance_above sought value) raw (option_map near_of self.old.above) }
    {
        let near = Near {
            raw,
            distance: sought.abs_diff(value),
        };
        if value <= sought {
            self.below = near.or_nearer(self.below);
        }
        if value >= sought {
            self.above = near.or_nearer(self.above);
        }
    }

    /// Adds a raw value of a range.
    fn add_raw(&mut self, sought: i128, range: &Range<'_>, raw: u16)
        ensures below { option_map near_of self.new.below
            ≡ with_raw (distance_below sought (range_value range.now raw)) raw
            (option_map near_of self.old.below) }
        ensures above { option_map near_of self.new.above
            ≡ with_raw (distance_above sought (range_value range.now raw)) raw
            (option_map near_of self.old.above) }
    {
        let value = units(physical(
            u64::from(raw),
            range.scale.decimal(),
            range.offset.decimal(),
        ));
        self.add(sought, raw, value);
    }

    /// Adds the raw values of a span of a range that are next to it.
    fn add_range(&mut self, sought: i128, range: &Range<'_>, span: Span)
        requires wide { unsigned_abs sought ≤ 10 ^ 38 }
        requires some { IsSomeSpan span }
        ensures below { AddsSpan span (λ n. distance_below sought (range_value range.now n))
            self.old.below self.new.below }
        ensures above { AddsSpan span (λ n. distance_above sought (range_value range.now n))
            self.old.above self.new.above }
    {
        let distance = difference(sought, range.offset.units());
        let (first, second) = around(span, range.scale.units(), distance);
        self.add_raw(sought, range, first);
        self.add_raw(sought, range, second);
    }

    /// Adds the raw values of a part of a scalar's encoding that are next to it, if it has a range
    /// with the unit.
    fn add_part(
        &mut self,
        signal: CodedSignal,
        encoding: &Encoding,
        sought: i128,
        unit: &[u8],
        part: &RangePart,
    )
        requires { unsigned_abs sought ≤ 10 ^ 38 }
        ensures below { AddsSpan part.now.span
            (part_distance (distance_below sought) encoding.now.items signal.bits unit.now part.now)
            self.old.below self.new.below }
        ensures above { AddsSpan part.now.span
            (part_distance (distance_above sought) encoding.now.items signal.bits unit.now part.now)
            self.old.above self.new.above }
    {
        let Some(item) = encoding.item(part.item) else {
            return;
        };
        let Some(range) = item.as_range() else {
            return;
        };
        if !has_unit(unit, range.unit) {
            return;
        }
        let all = Span {
            from: 0,
            to: u64::from(most_of(signal.bits)),
        };
        let Some(span) = part.span.common(all) else {
            return;
        };
        self.add_range(sought, &range, span);
    }

    /// The raw value that isn't above it.
    fn below(&self) -> Option<u16>
        ensures { result ≡ option_map (λ p. p.0) (option_map near_of self.now.below) }
    {
        Some(self.below?.raw)
    }

    /// The raw value that isn't below it.
    fn above(&self) -> Option<u16>
        ensures { result ≡ option_map (λ p. p.0) (option_map near_of self.now.above) }
    {
        Some(self.above?.raw)
    }

    /// The nearest raw value, of two the lower.
    fn nearest(&self) -> Option<u16>
        ensures { result ≡ option_map (λ p. p.0)
            (nearer (option_map near_of self.now.below) (option_map near_of self.now.above)) }
    {
        match (self.below, self.above) {
            (Some(below), Some(above)) => if below.is_nearer(above) {
                Some(below.raw)
            } else {
                Some(above.raw)
            },
            (Some(near), None) | (None, Some(near)) => Some(near.raw),
            (None, None) => None,
        }
    }
}

/// The raw values of a scalar that are next to a decimal with a unit.
fn neighbours_in(signal: CodedSignal, encoding: &Encoding, sought: i128, unit: &[u8]) -> Neighbours
    requires { unsigned_abs sought ≤ 10 ^ 38 }
    ensures below { IsLeast
        (raw_distance (distance_below sought) encoding.now.items signal.bits unit.now)
        (option_map near_of result.below) }
    ensures above { IsLeast
        (raw_distance (distance_above sought) encoding.now.items signal.bits unit.now)
        (option_map near_of result.above) }
{
    let mut found = Neighbours::none();
    for part in encoding.parts() {
        found.add_part(signal, encoding, sought, unit, part);
    }
    found
}

impl Coded {
    /// The raw values of a signal that are next to a decimal with a unit.
    fn next_to(&self, signal: u16, sought: i128, unit: &[u8]) -> Neighbours
        requires { unsigned_abs sought ≤ 10 ^ 38 }
        ensures below { IsLeast
            (λ n. option_and_then (distance_below sought) (signal_decimal self.now signal unit.now n))
            (option_map near_of result.below) }
        ensures above { IsLeast
            (λ n. option_and_then (distance_above sought) (signal_decimal self.now signal unit.now n))
            (option_map near_of result.above) }
    {
        match (self.signal(signal), self.encoding_of(signal)) {
            (Some(known), Some(encoding)) if !known.is_array => {
                neighbours_in(known, encoding, sought, unit)
            }
            _ => Neighbours::none(),
        }
    }

    /// The raw values of a signal that are next to a decimal with a unit, or with any where it is
    /// empty: the greatest that isn't above it, and the least that isn't below it, of several the
    /// lowest.
    pub fn neighbours(
        &self,
        signal: u16,
        number: Decimal,
        unit: &[u8],
    ) -> (Option<u16>, Option<u16>)
        requires { IsReadable number }
        ensures below { result.0 ≡ below self.now signal (scaled_value number) unit.now }
        ensures above { result.1 ≡ above self.now signal (scaled_value number) unit.now }
    {
        let found = self.next_to(signal, units(number), unit);
        (found.below(), found.above())
    }

    /// The raw value of a signal whose meaning is nearest to a decimal with a unit, of two the lower.
    pub fn nearest(&self, signal: u16, number: Decimal, unit: &[u8]) -> Option<u16>
        requires { IsReadable number }
        ensures { result ≡ nearest self.now signal (scaled_value number) unit.now }
    {
        self.next_to(signal, units(number), unit).nearest()
    }
}
