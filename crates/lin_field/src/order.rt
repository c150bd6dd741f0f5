//! The order of the bytes of signals, where a text says that it is big endian.

ghost use Rattle.std.specs.Prelude.{◌≡◌, ◌++◌, flat_map, filter, not, IfOk, OnOk};
ghost use Rattle.lin_cluster.specs.Names.{NumbersFirst};
ghost use Rattle.lin_field.specs.Frames.{is_diagnostic_frame};
ghost use Rattle.lin_field.specs.Order.{is_across, scalar_size, placed_order, frame_order};
ghost use Rattle.lin_field.specs.Order.{byte_order};

use crate::frames::is_diagnostic_frame;
use crate::loose::{Loose, LooseFrame, LooseInit, LooseSignal};
use lin_cluster::{Finding, FindingKind, Numbers, at_number, find_by, numbers_of, push_when};
use lin_parts::description::{Name, PlacedSignal};
use std::alloc::{AllocError, Global};

/// Whether so many bits at an offset reach over the border of a byte.
fn is_across(offset: u32, size: u32) -> bool
    ensures { result ≡ is_across offset size }
{
    8 < u64::from(offset % 8) + u64::from(size)
}

/// The size of a scalar of this name.
fn scalar_size(signals: &[LooseSignal], numbers: &Numbers<'_>, name: &Name) -> Option<u32>
    requires { NumbersFirst (λ s. s.name) signals.now numbers.now.map }
    ensures { result ≡ scalar_size signals.now name.now }
{
    match find_by(numbers, signals, name) {
        Some(signal) => match &signal.init {
            LooseInit::Scalar(_) => Some(signal.size.value),
            LooseInit::Array(_, _) => None,
        },
        None => None,
    }
}

fn in_frame(
    found: &mut Vec<Finding>,
    signals: &[LooseSignal],
    numbers: &Numbers<'_>,
    all_placed: &[PlacedSignal],
) -> Result<(), AllocError>
    requires { NumbersFirst (λ s. s.name) signals.now numbers.now.map }
    ensures { OnOk result
        (found.new.items ≡ found.old.items ++ flat_map (placed_order signals.now) all_placed.now) }
{
    for placed in all_placed {
        let is_found = match scalar_size(signals, numbers, &placed.signal) {
            Some(size) => is_across(placed.offset.value, size),
            None => false,
        };
        push_when(
            found,
            is_found,
            at_number(FindingKind::ByteOrder, &placed.offset),
        )?;
    }
    Ok(())
}

fn in_frames(
    alloc: Global,
    signals: &[LooseSignal],
    frames: &[LooseFrame],
) -> Result<Vec<Finding>, AllocError>
    ensures { IfOk result
        (λ found. found.items
        ≡ flat_map (frame_order signals.now)
        (filter (λ f. not (is_diagnostic_frame f)) frames.now)) }
{
    let numbers = numbers_of(alloc, signals)?;
    let mut found = Vec::new(alloc);
    for frame in frames {
        if !is_diagnostic_frame(frame) {
            in_frame(&mut found, signals, &numbers, frame.placed.as_slice())?;
        }
    }
    Ok(found)
}

/// Scalars over the border of a byte, in a text that is big endian. (Wide ones are scalars in the
/// text.)
pub fn byte_order(alloc: Global, loose: &Loose) -> Result<Vec<Finding>, AllocError>
    ensures { IfOk result (λ found. found.items ≡ byte_order loose.now) }
{
    if loose.header.is_big_endian {
        in_frames(alloc, loose.signals.as_slice(), loose.frames.as_slice())
    } else {
        Ok(Vec::new(alloc))
    }
}
