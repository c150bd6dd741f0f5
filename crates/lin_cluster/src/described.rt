//! The cluster that an LDF description says: a function for each kind of part. These are called
//! where nothing was found, so that every number fits. Names are looked up one by one, since a
//! cluster's limits are small; but for those of signals, of which there may be 1,024.

ghost use Rattle.std.specs.Prelude.{◌≡◌, map, IfOk, OnOk};
ghost use Rattle.lin_cluster.specs.Described.{parts_of};
ghost use Rattle.lin_cluster.specs.Fitting.{FitsParts, HasMembers};
ghost use Rattle.lin_cluster.specs.Models.{frame_model};

use lin_frame::SumKind;
use lin_parts::Parts;
use lin_parts::description::Description;
use lin_text::Many;
use signals::NumberedSignals;
use std::alloc::{AllocError, Global};

mod error_signals;
mod frames;
mod nodes;
mod numbers;
mod signals;
mod tables;

pub(crate) use error_signals::subscribes;

/// The parts of the cluster that a description says; an error means out of memory. With them its
/// caller knows that no list of names is empty.
pub(crate) fn parts_of(
    alloc: Global,
    d: &Description,
    models: &[SumKind],
) -> Result<Parts, AllocError>
    requires fits { FitsParts d.now }
    requires models { models.now ≡ map (frame_model d.now) d.now.frames }
    ensures parts { IfOk result (λ parts. parts ≡ parts_of d.now) }
    ensures members { OnOk result (HasMembers d.now) }
{
    let signals = NumberedSignals::new(alloc, d)?;
    let frames = frames::frames_of(alloc, d, &signals, models, d.frames())?;
    let errors = error_signals::error_signals(alloc, d, &signals, frames.as_slice())?;
    Ok(Parts {
        nodes: nodes::nodes_of(alloc, d, d.slaves())?,
        signals: signals.into_signals(),
        frames,
        sporadic: frames::sporadic_frames_of(alloc, d, d.sporadic())?,
        events: frames::events_of(alloc, d, models, d.events())?,
        tables: tables::tables_of(alloc, d, d.tables())?,
        errors,
        identities: Many::new(Vec::new(alloc)),
        speed: d.speed().value,
        jitter_us: d.jitter().value,
        base_us: d.time_base().value,
    })
}
