//! Slot too short (9) and zero delay (10).

ghost use Rattle.std.specs.Prelude.{◌≡◌, ◌++◌, ◌<◌, OnOk};
ghost use Rattle.lin_cluster.specs.Slots.{needed_us, is_speed, good_size, frame_size};
ghost use Rattle.lin_cluster.specs.Slots.{greatest_size, first_size, short_slot, zero_delay};

use super::known::Known;
use super::sizes::is_frame_size;
use super::walk::{at_name, at_number, push_when};
use crate::finding::{Finding, FindingKind};
use lin_parts::description::{Name, TableEntry};
use std::alloc::AllocError;

/// The time in microseconds that the slot of a frame of `size` data bytes takes at most, at a speed
/// in bits per second, with the jitter in microseconds: 1.4 times its nominal time (ISO 17987-3,
/// frame slots).
pub fn needed_us(jitter: u32, speed: u32, size: u32) -> u64
    requires speed { 0 < speed }
    ensures { result ≡ needed_us jitter speed size }
{
    let bits = 34 + 10 * (u64::from(size) + 1);
    u64::from(jitter) + (1_400_000 * bits + (u64::from(speed) - 1)) / u64::from(speed)
}

/// Whether a bus may have this speed, in bits per second.
pub fn is_speed(speed: u32) -> bool
    ensures { result ≡ is_speed speed }
{
    1 <= speed && speed <= 20_000
}

/// The size of a frame in bytes, where a frame may have it.
pub(super) fn good_size(size: u32) -> Option<u32>
    ensures { result ≡ good_size size }
{
    if is_frame_size(size) {
        Some(size)
    } else {
        None
    }
}

fn frame_size(known: &Known, name: &Name) -> Option<u32>
    ensures { result ≡ frame_size known.now name.now }
{
    match known.frame(name) {
        Some(frame) => good_size(frame.size.value),
        None => None,
    }
}

/// The greatest size of some members, where all are frames of good sizes.
pub(super) fn greatest_size(known: &Known, members: &[Name]) -> Option<u32>
    ensures { result ≡ greatest_size known.now members.now }
{
    let mut greatest: u32 = 0;
    for member in members {
        match frame_size(known, member) {
            Some(size) => greatest = greatest.max(size),
            None => return None,
        }
    }
    Some(greatest)
}

/// The size of the first member.
pub(super) fn first_size(known: &Known, members: &[Name]) -> Option<u32>
    ensures { result ≡ first_size known.now members.now }
{
    match members.first() {
        Some(member) => frame_size(known, member),
        None => None,
    }
}

/// A slot of this number of data bytes, where that is known, whose delay is below the time that it
/// takes at most.
pub(super) fn short_slot(
    found: &mut Vec<Finding>,
    known: &Known,
    entry: &TableEntry,
    size: Option<u32>,
) -> Result<(), AllocError>
    ensures { OnOk result
        (found.new.items
        ≡ found.old.items ++ short_slot known.now.jitter.value known.now.speed.value entry.now size) }
{
    let description = known.description;
    let speed = description.speed.value;
    if let Some(size) = size {
        if !(entry.delay.value == 0) && is_speed(speed) {
            let needed_us = needed_us(description.jitter.value, speed, size);
            if u64::from(entry.delay.value) < needed_us {
                let kind = FindingKind::SlotTooShort { needed_us };
                found.push(at_name(kind, &entry.name))?;
            }
        }
    }
    Ok(())
}

/// An entry without a delay.
pub(super) fn zero_delay(found: &mut Vec<Finding>, entry: &TableEntry) -> Result<(), AllocError>
    ensures { OnOk result (found.new.items ≡ found.old.items ++ zero_delay entry.now) }
{
    push_when(
        found,
        entry.delay.value == 0,
        at_number(FindingKind::ZeroDelay, &entry.delay),
    )
}
