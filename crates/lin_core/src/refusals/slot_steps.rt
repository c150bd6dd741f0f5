//! When a step of a slot is refused.

ghost use Rattle.std.specs.Prelude.{◌≡◌, ℕ, ◌<◌, List};
ghost use Rattle.lin_core.specs.History.{asleep};
ghost use Rattle.lin_core.specs.kept.Slots.{slot_in, IsOpen, IsOpenSlot, IsThere};
ghost use Rattle.lin_core.specs.Replies.{refusal, may, passes_in};
ghost use Rattle.lin_parts.specs.declared.parts.Parts.{Parts};
ghost use Rattle.lin_core.specs.declared.log.LogEntry.{LogEntry};

use crate::port::PortId;
use crate::reply::Refusal;
use crate::response_frames::model_under;
use crate::slot::{OpenSlot, Slot};
use crate::step::Step;
use lin_frame::passes;
use lin_parts::Cluster;

/// Whether a port may answer for a node, or leave its response out.
fn may_answer(by: PortId, node: u8) -> bool
    ensures answer { result ≡ may by (Step.Answer node) }
    ensures leave { result ≡ may by (Step.Leave node) }
{
    match by {
        PortId::Bus => true,
        PortId::Host(_) => false,
        PortId::Node(own) => node == own,
    }
}

/// Why an open is refused, where the cluster is asleep or not.
pub(crate) fn refuse_open(slot: &Slot, sleeps: bool, by: PortId) -> Option<Refusal>
    ensures { (c : Parts) (capacity : ℕ) (past : List LogEntry)
        → IsOpenSlot slot.now past → sleeps ≡ asleep past
        → result ≡ refusal c capacity past by Step.Open }
{
    if sleeps {
        return Some(Refusal::Asleep);
    }
    if slot.is_open() {
        return Some(Refusal::SlotOpen);
    }
    match by {
        PortId::Bus => None,
        _ => Some(Refusal::NotYours),
    }
}

/// Why an answer, or a response left out, is refused.
pub(crate) fn refuse_answer(cluster: &Cluster, slot: &Slot, by: PortId, node: u8) -> Option<Refusal>
    ensures answer { (capacity : ℕ) (past : List LogEntry) → IsOpenSlot slot.now past
        → result ≡ refusal cluster.now capacity past by (Step.Answer node) }
    ensures leave { (capacity : ℕ) (past : List LogEntry) → IsOpenSlot slot.now past
        → result ≡ refusal cluster.now capacity past by (Step.Leave node) }
{
    if node as usize >= cluster.nodes() {
        return Some(Refusal::NoSuchNode);
    }
    if !slot.is_open() {
        return Some(Refusal::NoSlot);
    }
    let slot = slot.open();
    if !may_answer(by, node) || !slot.is_due(node) {
        return Some(Refusal::NotYours);
    }
    if slot.has_decided(node) {
        return Some(Refusal::Decided);
    }
    None
}

/// Whether bytes pass the check of an answer in a slot: its length, and its checksum by the model
/// of the slot's entry over the slot's header (ISO 17987-3, checksum).
fn passes_in(cluster: &Cluster, slot: &OpenSlot, answer: &[u8], bytes: &[u8]) -> bool
    requires there { IsOpen cluster.now slot.now }
    ensures { result ≡ passes_in cluster.now (slot_in slot.now) answer.now bytes.now }
{
    match slot.header {
        Some(header) => {
            let model = model_under(cluster, slot.kind, header);
            passes(model, header, answer.len().saturating_sub(1), bytes)
        }
        None => false,
    }
}

/// Why a disturbance is refused.
pub(crate) fn refuse_hurt(
    cluster: &Cluster,
    slot: &Slot,
    by: PortId,
    bytes: &[u8],
) -> Option<Refusal>
    requires { IsThere cluster.now slot.now }
    ensures { (capacity : ℕ) (past : List LogEntry) → IsOpenSlot slot.now past
        → result ≡ refusal cluster.now capacity past by (Step.Hurt bytes.now) }
{
    if !slot.is_open() {
        return Some(Refusal::NoSlot);
    }
    let slot = slot.open();
    if !matches!(by, PortId::Bus) {
        return Some(Refusal::NotYours);
    }
    if slot.hurt {
        return Some(Refusal::Decided);
    }
    if slot.puts.len() != 1 {
        return Some(Refusal::NothingOnWire);
    }
    if passes_in(cluster, slot, slot.puts[0].answer.as_slice(), bytes) {
        return Some(Refusal::PassesCheck);
    }
    None
}

/// Why a finish is refused.
pub(crate) fn refuse_finish(slot: &Slot, by: PortId) -> Option<Refusal>
    ensures { (c : Parts) (capacity : ℕ) (past : List LogEntry)
        → IsOpenSlot slot.now past
        → result ≡ refusal c capacity past by Step.Finish }
{
    if !slot.is_open() {
        return Some(Refusal::NoSlot);
    }
    match by {
        PortId::Bus => None,
        _ => Some(Refusal::NotYours),
    }
}
