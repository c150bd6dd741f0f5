//! Bad size (5) of signals and frames, and bad initial value (8).

ghost use Rattle.std.specs.Prelude.{◌≡◌, ◌++◌, OnOk, nat_lt, IsTrue};
ghost use Rattle.std.specs.List.{list_any};
ghost use Rattle.lin_cluster.specs.Sizes.{is_array_init, is_good_size, bad_signal_size, is_frame_size};
ghost use Rattle.lin_cluster.specs.Sizes.{bad_frame_size, is_good_init, bad_init};

use super::walk::{at_number, push_when};
use crate::finding::{Finding, FindingKind};
use lin_parts::Location;
use lin_parts::description::{Frame, Init, Number, Signal};
use std::alloc::AllocError;

pub(super) fn is_array(init: &Init) -> bool
    ensures { result ≡ is_array_init init.now }
{
    match init {
        Init::Scalar(_) => false,
        Init::Array(_, _) => true,
    }
}

fn is_good_size(signal: &Signal) -> bool
    ensures { result ≡ is_good_size signal.now }
{
    let size = signal.size.value;
    if is_array(&signal.init) {
        8 <= size && size <= 64 && size % 8 == 0
    } else {
        1 <= size && size <= 16
    }
}

/// A size that a signal may not have.
pub(super) fn bad_signal_size(found: &mut Vec<Finding>, signal: &Signal) -> Result<(), AllocError>
    ensures { OnOk result (found.new.items ≡ found.old.items ++ bad_signal_size signal.now) }
{
    push_when(
        found,
        !is_good_size(signal),
        at_number(FindingKind::BadSize, &signal.size),
    )
}

/// Whether a frame may have this number of bytes.
pub fn is_frame_size(size: u32) -> bool
    ensures { result ≡ is_frame_size size }
{
    1 <= size && size <= 8
}

/// A size that a frame may not have.
pub(super) fn bad_frame_size(found: &mut Vec<Finding>, frame: &Frame) -> Result<(), AllocError>
    ensures { OnOk result (found.new.items ≡ found.old.items ++ bad_frame_size frame.now) }
{
    let is_good = is_frame_size(frame.size.value);
    push_when(
        found,
        !is_good,
        at_number(FindingKind::BadSize, &frame.size),
    )
}

fn has_wide_item(items: &[Number]) -> bool
    ensures { result ≡ list_any (λ n. nat_lt 255 n.value) items.now }
{
    items.iter().any(|item| 255 < item.value)
}

fn is_good_init(signal: &Signal) -> bool
    requires { IsTrue (is_good_size signal.now) }
    ensures { result ≡ is_good_init signal.now.size.value signal.now.init }
{
    let size = signal.size.value;
    match &signal.init {
        Init::Scalar(number) => u64::from(number.value) < 1u64 << size,
        Init::Array(_, items) => {
            let items = items.as_slice();
            items.len() == (size / 8) as usize && !has_wide_item(items)
        }
    }
}

/// An initial value that doesn't fit its signal.
pub(super) fn bad_init(found: &mut Vec<Finding>, signal: &Signal) -> Result<(), AllocError>
    ensures { OnOk result (found.new.items ≡ found.old.items ++ bad_init signal.now) }
{
    let is_bad = is_good_size(signal) && !is_good_init(signal);
    let place = match &signal.init {
        Init::Scalar(number) => Location {
            line: number.line,
            column: number.column,
        },
        Init::Array(place, _) => *place,
    };
    push_when(found, is_bad, Finding::new(FindingKind::BadInit, place))
}
