//! Ranges of bits.

ghost use Rattle.std.specs.Prelude.{◌≡◌, ◌<◌, ◌⊎◌, ◌↔◌, ℕ, Some, true, IfSome, IfNone, OnOk};
ghost use Rattle.std.specs.BTreeMap.{get};
ghost use Rattle.std.specs.Int.{bit_at};
ghost use Rattle.std.specs.Ordering.{nat_cmp};
ghost use Rattle.lin_cluster.specs.FindingsRanges.{Meets, AreApart, Covers, IsNoneBelow};
ghost use Rattle.lin_cluster.specs.FindingsRanges.{IsLastBelow, HasFar, IsFar, IsNear, IsBeyond};
ghost use Rattle.lin_cluster.specs.FindingsRanges.{HasBit, IsRanges};

use std::alloc::{AllocError, Global};
use std::collections::BTreeMap;

/// Ranges as a map from starts to ends, in which no two share a bit.
type Map = BTreeMap<u64, u64>;

/// Ranges of bits from 64 on. The newest one, from `first` to before `after`, stands beside the map
/// of the others, and grows where the next begins at its end.
struct Far {
    first: u64,
    after: u64,
    others: Map,
}

// Written out, so that what owns one lets it go in one step.
impl Drop for Far {
    fn drop(self) {
        let Far {
            first: _,
            after: _,
            others: _others,
        } = self;
    }
}

/// Ranges of bits: a mask of those below 64, which are all that a frame has, and ranges of the others.
pub(super) struct Ranges {
    near: u64,
    far: Far,
}

// Written out, so that what owns one lets it go in one step.
impl Drop for Ranges {
    fn drop(self) {
        let Ranges { near: _, far: _far } = self;
    }
}

fn last_below(ranges: &Map, end: u64) -> Option<(u64, u64)>
    ensures some { IfSome result (IsLastBelow ranges.now end) }
    ensures none { IfNone result (IsNoneBelow ranges.now end) }
{
    match ranges.range(..end).next_back() {
        Some((start, last)) => Some((*start, *last)),
        None => None,
    }
}

// A range with a bit of another range.
#[tactic(auto, using(crate::proofs::FindingsRanges::none_met, crate::proofs::FindingsRanges::last_unmet))]
fn meeting(ranges: &Map, start: u64, end: u64) -> Option<(u64, u64)>
    requires { AreApart ranges.now }
    ensures some { IfSome result
        (λ r. (get nat_cmp ranges.now r.0 ≡ Some r.1) × (r.0 < end) × (start < r.1)) }
    ensures none { IfNone result (Meets ranges.now start end → ⊥) }
{
    match last_below(ranges, end) {
        Some((other, last)) if start < last => Some((other, last)),
        Some(_) | None => None,
    }
}

// Takes out the ranges that have a bit of a range, and gives the range of all their bits.
fn merged(ranges: &mut Map, start: u64, end: u64) -> (u64, u64)
    requires apart { AreApart ranges.old }
    requires some { start < end }
    ensures apart { AreApart ranges.new }
    ensures some { result.0 < result.1 }
    ensures free { Meets ranges.new result.0 result.1 → ⊥ }
    ensures same { (a b : ℕ) → a < b
        → Covers ranges.new result.0 result.1 a b ↔ Covers ranges.old start end a b }
{
    let mut first = start;
    let mut after = end;
    while let Some((other, last)) = meeting(ranges, first, after) {
        ranges.remove(&other);
        first = first.min(other);
        after = after.max(last);
    }
    (first, after)
}

/// Adds the bits of one more range, which is none where it ends at 0.
fn add(ranges: &mut Map, start: u64, end: u64) -> Result<(), AllocError>
    requires apart { AreApart ranges.old }
    requires some { 0 < end → start < end }
    ensures apart { OnOk result (AreApart ranges.new) }
    ensures meets { OnOk result ((a b : ℕ) → a < b → Meets ranges.new a b ↔ Covers ranges.old start end a b) }
{
    if end == 0 {
        return Ok(());
    }
    let (first, after) = merged(ranges, start, end);
    ranges.insert(first, after)?;
    Ok(())
}

/// Whether the range has a bit of one of these.
fn is_far_met(ranges: &Far, start: u64, end: u64) -> bool
    requires { IsFar ranges.now }
    ensures { (result ≡ true) ↔ HasFar ranges.now start end }
{
    if ranges.first < end && start < ranges.after {
        return true;
    }
    meeting(&ranges.others, start, end).is_some()
}

/// Adds the bits of one more range.
fn add_far(ranges: &mut Far, start: u64, end: u64) -> Result<(), AllocError>
    requires ranges { IsFar ranges.old }
    requires some { start < end }
    ensures ranges { OnOk result (IsFar ranges.new) }
    ensures bits { OnOk result
        ((a b : ℕ) → a < b
        → HasFar ranges.new a b ↔ (HasFar ranges.old a b ⊎ ((start < b) × (a < end)))) }
{
    if start == ranges.after {
        ranges.after = end;
        return Ok(());
    }
    add(&mut ranges.others, ranges.first, ranges.after)?;
    ranges.first = start;
    ranges.after = end;
    Ok(())
}

/// The bits below 64 of a range.
fn mask(start: u64, end: u64) -> u64
    ensures { (i : ℕ) → (bit_at result i ≡ 1) ↔ IsNear start end i }
{
    let after = end.min(64);
    if after <= start {
        return 0;
    }
    (u64::MAX << start) & (u64::MAX >> (64 - after))
}

/// No range.
pub(super) fn no_ranges(alloc: Global) -> Ranges
    ensures ranges { IsRanges result }
    ensures none { (a b : ℕ) → HasBit result a b → ⊥ }
{
    Ranges {
        near: 0,
        far: Far {
            first: 0,
            after: 0,
            others: BTreeMap::new(alloc),
        },
    }
}

/// Whether the range has a bit of one of these.
pub(super) fn is_met(ranges: &Ranges, start: u64, end: u64) -> bool
    requires ranges { IsRanges ranges.now }
    requires some { start < end }
    ensures { (result ≡ true) ↔ HasBit ranges.now start end }
{
    if ranges.near & mask(start, end) != 0 {
        return true;
    }
    64 < end && is_far_met(&ranges.far, start, end)
}

/// Adds the bits from 64 on of one more range.
fn add_beyond(ranges: &mut Far, start: u64, end: u64) -> Result<(), AllocError>
    requires ranges { IsFar ranges.old }
    requires some { start < end }
    ensures ranges { OnOk result (IsFar ranges.new) }
    ensures bits { OnOk result
        ((a b : ℕ) → a < b
        → HasFar ranges.new a b ↔ (HasFar ranges.old a b ⊎ IsBeyond start end a b)) }
{
    if end <= 64 {
        return Ok(());
    }
    add_far(ranges, start.max(64), end)
}

/// Adds the bits of one more range; an error means out of memory.
pub(super) fn add_range(ranges: &mut Ranges, start: u64, end: u64) -> Result<(), AllocError>
    requires ranges { IsRanges ranges.old }
    requires some { start < end }
    ensures ranges { OnOk result (IsRanges ranges.new) }
    ensures bits { OnOk result
        ((a b : ℕ) → a < b
        → HasBit ranges.new a b ↔ (HasBit ranges.old a b ⊎ ((start < b) × (a < end)))) }
{
    add_beyond(&mut ranges.far, start, end)?;
    ranges.near = ranges.near | mask(start, end);
    Ok(())
}
