//! Which frame of signals a response carries, and its checksum model.

ghost use Rattle.std.specs.Prelude.{◌≡◌, ◌==◌, ◌<◌, List, All, find, length, IfSome, Some};
ghost use Rattle.lin_parts.specs.Cluster.{frame_of};
ghost use Rattle.lin_parts.specs.Rules.{IsEntry};
ghost use Rattle.lin_core.specs.kept.Slots.{frame_by, frame_answered, response_model, slot_in, IsOpen};
ghost use Rattle.lin_core.specs.History.{open_slot};
ghost use Rattle.lin_core.specs.Slots.{model_of};
ghost use Rattle.lin_core.specs.declared.log.LogEntry.{LogEntry};

use crate::slot::OpenSlot;
use lin_frame::SumKind;
use lin_parts::{Cluster, Entry};

/// The first of these frames with a protected identifier.
pub fn frame_under(cluster: &Cluster, frames: &[u16], header: u8) -> Option<u16>
    requires { All (λ f. f < length cluster.now.frames) frames.now }
    ensures { result ≡ find (λ f. header == (frame_of cluster.now f).pid) frames.now }
{
    frames
        .iter()
        .copied()
        .find(|frame| header == cluster.frame_pid(*frame))
}

/// The first of these frames that a node publishes.
fn frame_from(cluster: &Cluster, frames: &[u16], node: u8) -> Option<u16>
    requires { All (λ f. f < length cluster.now.frames) frames.now }
    ensures { result ≡ find (λ f. node == (frame_of cluster.now f).publisher) frames.now }
{
    frames
        .iter()
        .copied()
        .find(|frame| node == cluster.frame_publisher(*frame))
}

/// The frame that a node's response carries in a slot for an entry, under its header; none where it
/// carries a frame of a message.
pub(crate) fn frame_by(cluster: &Cluster, entry: Entry, header: u8, node: u8) -> Option<u16>
    requires { IsEntry cluster.now entry }
    ensures frame { result ≡ frame_by cluster.now entry header node }
    ensures there { IfSome result (λ f. f < length cluster.now.frames) }
{
    cluster.sound();
    match entry {
        Entry::Frame(frame) => Some(frame),
        Entry::Sporadic(sporadic) => frame_under(cluster, cluster.sporadic(sporadic), header),
        Entry::Event(event) => frame_from(cluster, cluster.event_frames(event), node),
        Entry::MasterReq | Entry::SlaveResp | Entry::Fixed(_) | Entry::Quiet => None,
    }
}

impl OpenSlot {
    /// The frame that a node's response carries in the slot.
    pub(crate) fn frame_answered(&self, cluster: &Cluster, node: u8) -> Option<u16>
        requires { IsOpen cluster.now self.now }
        ensures frame { (past : List LogEntry) → open_slot past ≡ Some (slot_in self.now)
            → result ≡ frame_answered cluster.now past node }
        ensures there { IfSome result (λ f. f < length cluster.now.frames) }
    {
        match self.header {
            Some(header) => frame_by(cluster, self.kind, header, node),
            None => None,
        }
    }

    /// The checksum model of a response with a frame in the slot.
    pub(crate) fn frame_model(&self, cluster: &Cluster, frame: u16) -> SumKind
        requires slot { IsOpen cluster.now self.now }
        requires frame { frame < length cluster.now.frames }
        ensures { result ≡ response_model cluster.now self.now.kind frame }
    {
        match self.kind {
            Entry::Event(event) => cluster.event_model(event),
            _ => cluster.model(frame),
        }
    }
}

/// The checksum model of the responses in a slot for an entry, under its header, a protected
/// identifier (ISO 17987-3, checksum; LIN 2.2A, 2.3.1.5).
pub fn model_under(cluster: &Cluster, entry: Entry, header: u8) -> SumKind
    requires { IsEntry cluster.now entry }
    ensures { result ≡ model_of cluster.now entry header }
{
    cluster.sound();
    match entry {
        Entry::Frame(frame) => cluster.model(frame),
        Entry::Sporadic(sporadic) => {
            let frame = frame_under(cluster, cluster.sporadic(sporadic), header).unwrap_or(0);
            if (frame as usize) < cluster.frames() {
                cluster.model(frame)
            } else {
                SumKind::Enhanced
            }
        }
        Entry::Event(event) => cluster.event_model(event),
        Entry::MasterReq | Entry::SlaveResp | Entry::Fixed(_) | Entry::Quiet => SumKind::Classic,
    }
}
