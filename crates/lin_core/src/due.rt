//! What a slot is for: its header, and who is due in it (ISO 17987-3, frame transfer; ISO 17987-2,
//! diagnostic schedules).

ghost use Rattle.std.specs.Prelude.{◌≡◌, ◌==◌, ◌&&◌, ◌||◌, ◌<◌, ◌≤◌, All, filter, length};
ghost use Rattle.std.specs.Prelude.{slice_index_or, false};
ghost use Rattle.std.specs.List.{list_any};
ghost use Rattle.lin_frame.specs.Words.{numbers};
ghost use Rattle.lin_parts.specs.Cluster.{frame_of, nodes};
ghost use Rattle.lin_core.specs.kept.Slots.{header_of, is_due_of, HasDue};

use crate::slot::{MASTER_REQUEST, NODES, SLAVE_RESPONSE};
use arrayvec::ArrayVec;
use lin_parts::Cluster;
use lin_schedule::Due;

/// Whether the commander has something to request: a message waits, or sleep is asked.
pub(crate) fn has_request(waits: bool, asked: bool) -> bool
    ensures { result ≡ (waits || asked) }
{
    waits || asked
}

/// The header of a slot, where the commander has something to request or doesn't.
pub(crate) fn header_of(cluster: &Cluster, due: Due, waits: bool) -> Option<u8>
    requires { HasDue cluster.now due }
    ensures { result ≡ header_of cluster.now waits due }
{
    match due {
        Due::Frame(frame) => Some(cluster.frame_pid(frame)),
        Due::Sporadic(Some(frame)) => Some(cluster.frame_pid(frame)),
        Due::Event(event) => Some(cluster.event_pid(event)),
        Due::MasterReq if waits => Some(MASTER_REQUEST),
        Due::SlaveResp => Some(SLAVE_RESPONSE),
        Due::Fixed => Some(MASTER_REQUEST),
        Due::Sporadic(None) | Due::MasterReq | Due::Quiet => None,
    }
}

/// Whether a node publishes one of these frames that is pending.
fn publishes_pending(cluster: &Cluster, frames: &[u16], pending: &[bool], node: u8) -> bool
    requires there { All (λ f. f < length cluster.now.frames) frames.now }
    requires count { length pending.now ≡ length cluster.now.frames }
    ensures { result
        ≡ list_any
        (λ f. node == (frame_of cluster.now f).publisher && slice_index_or pending.now f false)
        frames.now }
{
    frames.iter().any(|frame| node == cluster.frame_publisher(*frame) && pending[*frame as usize])
}

/// Whether a node is due in a slot.
fn is_due_of(
    cluster: &Cluster,
    due: Due,
    waits: bool,
    responder: Option<u8>,
    pending: &[bool],
    node: u8,
) -> bool
    requires there { HasDue cluster.now due }
    requires count { length pending.now ≡ length cluster.now.frames }
    ensures { result ≡ is_due_of cluster.now pending.now waits responder due node }
{
    cluster.sound();
    match due {
        Due::Frame(frame) => node == cluster.frame_publisher(frame),
        Due::Sporadic(frame) => node == 0 && frame.is_some(),
        Due::Event(event) => {
            publishes_pending(cluster, cluster.event_frames(event), pending, node)
        }
        Due::MasterReq => node == 0 && waits,
        Due::SlaveResp => responder == Some(node),
        Due::Fixed | Due::Quiet => false,
    }
}

/// The nodes that are due in a slot, by rising number.
pub(crate) fn due_nodes(
    cluster: &Cluster,
    due: Due,
    waits: bool,
    responder: Option<u8>,
    pending: &[bool],
) -> ArrayVec<u8, NODES>
    requires there { HasDue cluster.now due }
    requires count { length pending.now ≡ length cluster.now.frames }
    ensures due { result.items
        ≡ filter (is_due_of cluster.now pending.now waits responder due)
        (numbers (nodes cluster.now)) }
    ensures few { length result.items ≤ 16 }
{
    let mut nodes = ArrayVec::new();
    for node in 0..cluster.nodes() as u8 {
        if is_due_of(cluster, due, waits, responder, pending, node) {
            nodes.push(node);
        }
    }
    nodes
}
