//! The frames of each signal.

ghost use Rattle.std.specs.Prelude.{◌≡◌, ◌<◌, ◌≤◌, length, IfOk};
ghost use Rattle.lin_parts.specs.Cluster.{frame_of, frames_with, has_signal};
ghost use Rattle.lin_parts.specs.Carriers.{all_carriers};

use crate::parts::Parts;
use lin_text::Many;
use std::alloc::{AllocError, Global};

// The signals of a frame.
fn signals_in(parts: &Parts, frame: u16) -> &[u16]
    requires { frame < length parts.now.frames }
    ensures { result.now ≡ (frame_of parts.now frame).signals }
{
    parts.frames.as_slice()[frame as usize].signals.as_slice()
}

// Whether a frame has a signal.
fn has_signal(parts: &Parts, signal: u16, frame: u16) -> bool
    requires { frame < length parts.now.frames }
    ensures { result ≡ has_signal parts.now signal frame }
{
    signals_in(parts, frame)
        .iter()
        .any(|other| *other == signal)
}

// The frames that have a signal.
#[tactic(auto, using(crate::proofs::Carrying::frames_added, crate::proofs::Carrying::frames_same))]
fn frames_with(alloc: Global, parts: &Parts, signal: u16) -> Result<Many<u16>, AllocError>
    requires { length parts.now.frames ≤ 60 }
    ensures { IfOk result (λ frames. frames ≡ frames_with parts.now signal) }
{
    let mut found = Vec::new(alloc);
    for frame in 0..parts.frames.as_slice().len() as u16 {
        if has_signal(parts, signal, frame) {
            found.push(frame)?;
        }
    }
    Ok(Many::new(found))
}

// The frames that have each signal.
#[tactic(auto, using(crate::proofs::Carrying::signals_more))]
pub(crate) fn all_carriers(alloc: Global, parts: &Parts) -> Result<Vec<Many<u16>>, AllocError>
    requires frames { length parts.now.frames ≤ 60 }
    requires signals { length parts.now.signals ≤ 1024 }
    ensures { IfOk result (λ all. all.items ≡ all_carriers parts.now) }
{
    let mut all = Vec::new(alloc);
    for signal in 0..parts.signals.as_slice().len() as u16 {
        all.push(frames_with(alloc, parts, signal)?)?;
    }
    Ok(all)
}
