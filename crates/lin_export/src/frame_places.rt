//! The signals of a frame, by the places of its layout.

ghost use Rattle.std.specs.Prelude.{◌≡◌, ◌<◌, length, slice_index_or};
ghost use Rattle.lin_frame.specs.declared.layout.Place.{Place};
ghost use Rattle.lin_parts.specs.Cluster.{frame_of};
ghost use Rattle.lin_export.specs.ListedFrames.{places};
ghost use Rattle.lin_export.specs.PlacedValues.{placed_value};

use lin_frame::{Answer, Place, Value, unpack};
use lin_parts::Cluster;

/// How many signals a frame has.
pub(crate) fn place_count(cluster: &Cluster, frame: u16) -> usize
    requires { frame < length cluster.now.frames }
    ensures { result ≡ length (places (frame_of cluster.now frame)) }
{
    cluster.sound();
    cluster.frame_signals(frame).len()
}

/// The signal at a place of a frame, and the place.
pub(crate) fn place_at(cluster: &Cluster, frame: u16, index: usize) -> (u16, Place)
    requires frame { frame < length cluster.now.frames }
    requires index { index < length (places (frame_of cluster.now frame)) }
    ensures known { result.0 < length cluster.now.signals }
    ensures placed { (none : Place)
        → result ≡ slice_index_or (places (frame_of cluster.now frame)) index (0, none) }
{
    cluster.sound();
    let signal = cluster.frame_signals(frame)[index];
    let place = cluster.layout(frame).places.as_slice()[index];
    (signal, place)
}

/// The signal at a place of a frame, and its value in a response.
pub(crate) fn value_at(cluster: &Cluster, frame: u16, answer: &Answer, index: usize) -> (u16, Value)
    requires frame { frame < length cluster.now.frames }
    requires index { index < length (places (frame_of cluster.now frame)) }
    ensures known { result.0 < length cluster.now.signals }
    ensures value { (none : Place) → result ≡ placed_value answer.now
        (slice_index_or (places (frame_of cluster.now frame)) index (0, none)) }
{
    cluster.sound();
    let signal = cluster.frame_signals(frame)[index];
    let value = unpack(cluster.layout(frame), &answer.data(), index);
    (signal, value)
}
