//! Settling of frames: diagnostic ones, and sizes that the identifier tells.

ghost use Rattle.std.specs.Prelude.{◌≡◌, ◌++◌, flat_map, filter_map, map, IfOk, OnOk};
ghost use Rattle.lin_field.specs.Frames.{is_diagnostic_frame, usual_size, settled_frame};
ghost use Rattle.lin_field.specs.Frames.{diagnostic_signals, kept_frame, frame_warnings};

use crate::loose::LooseFrame;
use lin_cluster::{Finding, FindingKind, at_number, push_when};
use lin_parts::description::{Frame, Name, Number, PlacedSignal};
use lin_text::Many;
use std::alloc::{AllocError, Global};

/// `MasterReq` with 60, and `SlaveResp` with 61.
pub fn is_diagnostic_frame(frame: &LooseFrame) -> bool
    ensures { result ≡ is_diagnostic_frame frame.now }
{
    let name = frame.name.text.as_slice();
    (name == b"MasterReq".as_slice() && frame.id.value == 60)
        || (name == b"SlaveResp".as_slice() && frame.id.value == 61)
}

/// The size in bytes that bits 5 and 4 of an identifier tell (LIN 1.3, 3.2), at its place.
fn usual_size(id: Number) -> Number
    ensures { result ≡ usual_size id }
{
    Number {
        value: match id.value / 16 % 4 {
            0 | 1 => 2,
            2 => 4,
            _ => 8,
        },
        line: id.line,
        column: id.column,
    }
}

fn settled_frame(frame: LooseFrame) -> Frame
    ensures { result ≡ settled_frame frame }
{
    let LooseFrame {
        name,
        id,
        publisher,
        size,
        placed,
    } = frame;
    Frame {
        name,
        id,
        publisher,
        size: size.unwrap_or(usual_size(id)),
        placed,
    }
}

fn warn_of_frame(
    warned: &mut Vec<Finding>,
    is_old: bool,
    frame: &LooseFrame,
) -> Result<(), AllocError>
    ensures { OnOk result (warned.new.items ≡ warned.old.items ++ frame_warnings is_old frame.now) }
{
    let is_diagnostic = is_diagnostic_frame(frame);
    push_when(
        warned,
        is_diagnostic,
        at_number(FindingKind::BadId, &frame.id),
    )?;
    push_when(
        warned,
        !is_diagnostic && !is_old && frame.size.is_none(),
        at_number(FindingKind::NoSize, &frame.id),
    )
}

/// Adds the names of the signals that a frame has.
fn add_signals(signals: &mut Vec<Name>, frame: LooseFrame) -> Result<(), AllocError>
    ensures { OnOk result
        (signals.new.items ≡ signals.old.items ++ map (λ p. p.signal) frame.placed) }
{
    let LooseFrame {
        name: _name,
        id: _,
        publisher: _publisher,
        size: _,
        placed,
    } = frame;
    for placed in placed.into_vec() {
        let PlacedSignal { signal, offset: _ } = placed;
        signals.push(signal)?;
    }
    Ok(())
}

/// Returns the frames without the diagnostic ones, each with a size, and the names of the signals that
/// the diagnostic ones have.
pub fn settle_frames(
    alloc: Global,
    is_old: bool,
    frames: Many<LooseFrame>,
    warned: &mut Vec<Finding>,
) -> Result<(Many<Frame>, Many<Name>), AllocError>
    ensures settled { IfOk result (λ r. r.0 ≡ filter_map kept_frame frames) }
    ensures elsewhere { IfOk result (λ r. r.1 ≡ flat_map diagnostic_signals frames) }
    ensures warned { OnOk result
        (warned.new.items ≡ warned.old.items ++ flat_map (frame_warnings is_old) frames) }
{
    let mut settled = Vec::new(alloc);
    let mut elsewhere = Vec::new(alloc);
    for frame in frames.into_vec() {
        warn_of_frame(warned, is_old, &frame)?;
        if is_diagnostic_frame(&frame) {
            add_signals(&mut elsewhere, frame)?;
        } else {
            settled.push(settled_frame(frame))?;
        }
    }
    Ok((Many::new(settled), Many::new(elsewhere)))
}
