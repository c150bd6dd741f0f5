//! Signals in their frames: unknown name (1), wrong publisher (2), signal outside (6) and, by
//! `overlaps`, signals overlap (7).

ghost use Rattle.std.specs.Prelude.{◌≡◌, ◌++◌, ◌||◌, ℕ, false, nat_eq, OnOk};
ghost use Rattle.std.specs.List.{flat_map, enumerate_from};
ghost use Rattle.lin_cluster.specs.Findings.{in_placed};
ghost use Rattle.lin_cluster.specs.FindingsNodes.{are_two};
ghost use Rattle.lin_cluster.specs.FindingsPlaces.{AddsBits, FindsPlaced, has_number, in_placed_by};
ghost use Rattle.lin_cluster.specs.FindingsPlaces.{is_outside_by};
ghost use Rattle.lin_cluster.specs.FindingsRanges.{IsRanges};

use super::facts::{AllSignalFacts, SignalFacts};
use super::numbers::{NumberSet, no_numbers, stands_twice};
use super::overlaps::{add_bits, overlap};
use super::ranges::{Ranges, no_ranges};
use super::walk::{at_name, at_number, push_when};
use crate::finding::{Finding, FindingKind};
use lin_parts::description::{Frame, PlacedSignal};
use std::alloc::AllocError;

// A name that is no node's is no other node's.
fn are_two(node: Option<usize>, other: Option<usize>) -> bool
    ensures { result ≡ are_two node other }
{
    match (node, other) {
        (Some(node), Some(other)) => node != other,
        _ => false,
    }
}

fn is_outside(frame: &Frame, placed: &PlacedSignal, signal: SignalFacts) -> bool
    ensures { result ≡ is_outside_by frame.now placed.now signal }
{
    let bytes: u32 = frame.size.value;
    let end = u64::from(placed.offset.value) + u64::from(signal.size);
    8 * u64::from(bytes) < end || (signal.is_array && !(placed.offset.value % 8 == 0))
}

fn find_placed(
    found: &mut Vec<Finding>,
    frame: &Frame,
    publisher: Option<usize>,
    placed: &PlacedSignal,
    signal: Option<SignalFacts>,
) -> Result<(), AllocError>
    ensures { OnOk result
        (found.new.items ≡ found.old.items ++ in_placed_by frame.now publisher placed.now signal) }
{
    match signal {
        Some(signal) => {
            let is_elsewhere = are_two(signal.publisher, publisher);
            push_when(
                found,
                is_elsewhere,
                at_name(FindingKind::WrongPublisher, &placed.signal),
            )?;
            push_when(
                found,
                is_outside(frame, placed, signal),
                at_number(FindingKind::SignalOutside, &placed.offset),
            )
        }
        None => Ok(found.push(at_name(FindingKind::UnknownName, &placed.signal))?),
    }
}

/// The signals that a frame places before one: their numbers, and the ranges of their bits.
struct EarlierSignals {
    numbers: NumberSet,
    ranges: Ranges,
}

// Written out, so that what owns one lets it go in one step.
impl Drop for EarlierSignals {
    fn drop(self) {
        let EarlierSignals {
            numbers: _numbers,
            ranges: _ranges,
        } = self;
    }
}

// What is wrong with a signal behind these, to which it is added. Its number is known, and where
// there is such a signal, its facts.
fn add_placed(
    found: &mut Vec<Finding>,
    earlier: &mut EarlierSignals,
    frame: &Frame,
    publisher: Option<usize>,
    placed: &PlacedSignal,
    known: (usize, Option<SignalFacts>),
) -> Result<(), AllocError>
    requires { IsRanges earlier.old.ranges }
    ensures found { OnOk result (FindsPlaced earlier.old frame.now publisher placed.now known
        found.old.items found.new.items) }
    ensures apart { OnOk result (IsRanges earlier.new.ranges) }
    ensures numbers { OnOk result
        ((q : ℕ) → has_number earlier.new.numbers q
        ≡ (has_number earlier.old.numbers q || nat_eq known.0 q)) }
    ensures ranges { OnOk result
        (AddsBits earlier.old.ranges placed.now known.1 earlier.new.ranges) }
{
    let (number, signal) = known;
    let twice = stands_twice(&mut earlier.numbers, number)?;
    find_placed(found, frame, publisher, placed, signal)?;
    overlap(found, twice, &earlier.ranges, placed, signal)?;
    add_bits(&mut earlier.ranges, placed, signal)
}

/// What is wrong with the signals that a frame places; each name is looked up once.
pub(super) fn signals_in_order(
    found: &mut Vec<Finding>,
    signals: &AllSignalFacts,
    frame: &Frame,
    all_placed: &[PlacedSignal],
) -> Result<(), AllocError>
    ensures { OnOk result
        (found.new.items
        ≡ found.old.items
        ++ flat_map (in_placed signals.now frame.now all_placed.now)
        (enumerate_from 0 all_placed.now)) }
{
    let publisher = signals.known.node(&frame.publisher);
    let mut earlier = EarlierSignals {
        numbers: no_numbers(signals.alloc),
        ranges: no_ranges(signals.alloc),
    };
    for placed in all_placed {
        let known = signals.numbered(&placed.signal);
        add_placed(found, &mut earlier, frame, publisher, placed, known)?;
    }
    Ok(())
}
