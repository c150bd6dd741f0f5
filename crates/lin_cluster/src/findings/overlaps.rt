//! Signals overlap (7): they share bits of their frame, or stand in it twice.

ghost use Rattle.std.specs.Prelude.{◌≡◌, ◌++◌, ◌↔◌, true, OnOk};
ghost use Rattle.lin_cluster.specs.FindingsRanges.{IsRanges};
ghost use Rattle.lin_cluster.specs.FindingsPlaces.{AddsBits, FindsOverlap, IsTaken};

use super::facts::SignalFacts;
use super::ranges::{Ranges, add_range, is_met};
use super::walk::{at_number, push_when};
use crate::finding::{Finding, FindingKind};
use lin_parts::description::PlacedSignal;
use std::alloc::AllocError;

// Whether the signal stands in its frame already, or one of the ranges has a bit of it.
fn is_taken(twice: bool, ranges: &Ranges, placed: &PlacedSignal, size: u32) -> bool
    requires { IsRanges ranges.now }
    ensures { (result ≡ true) ↔ IsTaken twice ranges.now placed.now size }
{
    let start = u64::from(placed.offset.value);
    let size = u64::from(size);
    if twice {
        return true;
    }
    0 < size && is_met(ranges, start, start + size)
}

/// A signal, by what is known of it, that stands in its frame already, or shares a bit with an
/// earlier one.
pub(super) fn overlap(
    found: &mut Vec<Finding>,
    twice: bool,
    ranges: &Ranges,
    placed: &PlacedSignal,
    signal: Option<SignalFacts>,
) -> Result<(), AllocError>
    requires { IsRanges ranges.now }
    ensures { OnOk result (FindsOverlap twice ranges.now placed.now signal
        (λ overlap. found.new.items ≡ found.old.items ++ overlap)) }
{
    if let Some(signal) = signal {
        let is_wrong = is_taken(twice, ranges, placed, signal.size);
        push_when(
            found,
            is_wrong,
            at_number(FindingKind::SignalsOverlap, &placed.offset),
        )?;
    }
    Ok(())
}

/// Adds the bits of one more signal, by what is known of it.
pub(super) fn add_bits(
    ranges: &mut Ranges,
    placed: &PlacedSignal,
    signal: Option<SignalFacts>,
) -> Result<(), AllocError>
    requires { IsRanges ranges.old }
    ensures apart { OnOk result (IsRanges ranges.new) }
    ensures meets { OnOk result (AddsBits ranges.old placed.now signal ranges.new) }
{
    if let Some(signal) = signal {
        if 0 < signal.size {
            let start = u64::from(placed.offset.value);
            add_range(ranges, start, start + u64::from(signal.size))?;
        }
    }
    Ok(())
}
