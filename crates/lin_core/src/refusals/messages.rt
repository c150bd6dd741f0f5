//! When a send, a timeout or a close is refused.

ghost use Rattle.std.specs.Prelude.{◌≡◌, ◌≢◌, ◌||◌, ℕ, ◌<◌, List};
ghost use Rattle.lin_parts.specs.Cluster.{nodes};
ghost use Rattle.lin_core.specs.kept.State.{send_step};
ghost use Rattle.lin_core.specs.kept.Refusals.{KnowsClosed, KnowsQueue, RefusesTimeout};
ghost use Rattle.lin_core.specs.Replies.{has_route, has_responder_address, most_message_bytes, refusal};
ghost use Rattle.lin_transport.specs.Transport.{functional};
ghost use Rattle.lin_core.specs.declared.log.LogEntry.{LogEntry};

use crate::link::Link;
use crate::port::PortId;
use crate::refusals::may_act;
use crate::reply::Refusal;
use crate::slot::Slot;
use crate::step::{SendStep, Step};
use lin_parts::Cluster;
use lin_transport::FUNCTIONAL;

/// The most bytes that a message has, and one to all responders, which is a single frame (ISO
/// 17987-2, transport layer).
const MESSAGE_BYTES: usize = 4095;

const TO_ALL_BYTES: usize = 6;

/// The most bytes of a message to a receiver.
fn longest(to: u8) -> usize
    ensures { result ≡ most_message_bytes to }
{
    if to == FUNCTIONAL {
        return TO_ALL_BYTES;
    }
    MESSAGE_BYTES
}

/// Whether one or the other holds.
fn either(one: bool, other: bool) -> bool
    ensures { result ≡ (one || other) }
{
    one || other
}

/// Whether a responder has an address.
fn is_addressed(cluster: &Cluster) -> bool
    ensures { result ≡ has_responder_address cluster.now }
{
    let mut found = false;
    for node in 0..cluster.nodes() as u8 {
        found = either(found, cluster.nad(node).is_some());
    }
    found
}

/// Whether exactly one of sender and receiver is host 0, and the other one has an address; or host
/// 0 sends to all responders, and one of them has an address.
fn has_address(cluster: &Cluster, from: u8, to: u8) -> bool
    requires from { from < nodes cluster.now }
    requires to { to ≢ functional → to < nodes cluster.now }
    ensures { result ≡ has_route cluster.now from to }
{
    if to == FUNCTIONAL {
        return from == 0 && is_addressed(cluster);
    }
    (from == 0 && to != 0 && cluster.nad(to).is_some())
        || (to == 0 && from != 0 && cluster.nad(from).is_some())
}

/// How many messages of a host wait, how many may, and whether it is closed.
#[derive(Clone, Copy)]
pub(crate) struct Queue {
    pub(crate) waiting: usize,
    pub(crate) capacity: usize,
    pub(crate) is_closed: bool,
}

/// Why a send is refused, where the sender's queue is so.
pub(crate) fn refuse_send(
    cluster: &Cluster,
    queue: Queue,
    by: PortId,
    sent: SendStep<'_>,
) -> Option<Refusal>
    ensures { (past : List LogEntry) → KnowsQueue cluster.now past sent.entry.from queue
        → result ≡ refusal cluster.now queue.capacity past by (send_step sent.entry) }
{
    let nodes = cluster.nodes();
    let SendStep { from, to, message } = sent;
    if from as usize >= nodes || (to as usize >= nodes && to != FUNCTIONAL) {
        return Some(Refusal::NoSuchNode);
    }
    if !has_address(cluster, from, to) {
        return Some(Refusal::NoAddress);
    }
    let length = message.as_slice().len();
    if length == 0 || length > longest(to) {
        return Some(Refusal::BadLength);
    }
    if queue.is_closed {
        return Some(Refusal::Closed);
    }
    if queue.waiting >= queue.capacity {
        return Some(Refusal::QueueFull);
    }
    if !may_act(by, from) {
        return Some(Refusal::NotYours);
    }
    None
}

/// Why a timeout is refused, where a message is begun there or not.
pub(crate) fn refuse_timeout(
    cluster: &Cluster,
    slot: &Slot,
    begun: bool,
    by: PortId,
    link: Link,
) -> Option<Refusal>
    ensures { RefusesTimeout cluster.now slot.now begun by link result }
{
    if link.node as usize >= cluster.nodes() {
        return Some(Refusal::NoSuchNode);
    }
    if slot.is_open() {
        return Some(Refusal::SlotOpen);
    }
    if !matches!(by, PortId::Bus) {
        return Some(Refusal::NotYours);
    }
    if !begun {
        return Some(Refusal::NoTransfer);
    }
    None
}

/// Why a close is refused, where the host is closed or not.
pub(crate) fn refuse_close(cluster: &Cluster, shut: bool, by: PortId, host: u8) -> Option<Refusal>
    ensures { (capacity : ℕ) (past : List LogEntry)
        → KnowsClosed cluster.now past host shut
        → result ≡ refusal cluster.now capacity past by (Step.Close host) }
{
    if host as usize >= cluster.nodes() {
        return Some(Refusal::NoSuchNode);
    }
    if shut {
        return Some(Refusal::Closed);
    }
    if !may_act(by, host) {
        return Some(Refusal::NotYours);
    }
    None
}
