//! The responses to requests of node configuration that responders have ready (LIN 2.2A, section 4.2).

ghost use Rattle.std.specs.Prelude.{◌≡◌, ◌≤◌, ◌==◌, filter, find, length, map, not};
ghost use Rattle.lin_parts.specs.Cluster.{line_of, responses};
ghost use Rattle.lin_core.specs.History.{header_is};
ghost use Rattle.lin_core.specs.Slots.{ready_bytes, has_put, responses_after, responses_to};
ghost use Rattle.lin_core.specs.Slots.{service_bytes};
ghost use Rattle.lin_core.specs.kept.Ready.{node_in, response_in};
ghost use Rattle.lin_core.specs.kept.Slots.{due_where, is_served, served_by, slot_in, HasDue};

use crate::bus_state::request_byte;
use crate::due::due_nodes;
use crate::slot::{NODES, OpenSlot, SLAVE_RESPONSE};
use arrayvec::ArrayVec;
use lin_parts::{Cluster, Entry};
use lin_schedule::Due;

/// The functional address (ISO 17987-2, node addresses).
const FUNCTIONAL: u8 = 126;

/// A response that a responder has ready: the responder, and the data bytes.
#[derive(Clone, Copy)]
pub(crate) struct Response {
    pub(crate) node: u8,
    pub(crate) bytes: [u8; 8],
}

impl Default for Response {
    fn default() -> Response {
        Response {
            node: 0,
            bytes: [0; 8],
        }
    }
}

/// Responses that are ready, by rising number of their responders.
pub(crate) type Responses = ArrayVec<Response, NODES>;

/// The responses of all responders to a request.
fn responses(cluster: &Cluster, request: &[u8; 8]) -> Responses
    ensures responses { map response_in result.items ≡ responses cluster.now request.now }
    ensures few { length result.items ≤ 16 }
{
    let mut all = ArrayVec::new();
    for identity in cluster.identities() {
        if let Some(bytes) = cluster.response_of(identity, request) {
            all.push(Response {
                node: identity.node,
                bytes,
            });
        }
    }
    all
}

/// The responses to the request of an entry.
fn responses_to(cluster: &Cluster, entry: Entry) -> Responses
    ensures responses { map response_in result.items ≡ responses_to cluster.now entry }
    ensures few { length result.items ≤ 16 }
{
    match entry {
        Entry::Fixed(request) => responses(cluster, &request),
        _ => ArrayVec::new(),
    }
}

/// The responses of nodes that put nothing in a slot.
fn unsent(slot: &OpenSlot, ready: &[Response]) -> Responses
    requires { length ready.now ≤ 16 }
    ensures left { result.items
        ≡ filter (λ r. not (has_put (slot_in slot.now) r.node)) ready.now }
    ensures few { length result.items ≤ 16 }
{
    let mut left = ArrayVec::new();
    for response in ready {
        if !slot.has_put(response.node) {
            left.push(*response);
        }
    }
    left
}

/// Whether a slot has the header of the slave response frame.
fn is_slave_response(slot: &OpenSlot) -> bool
    ensures { result ≡ header_is 0x7D (slot_in slot.now).header }
{
    match slot.header {
        Some(header) => header == SLAVE_RESPONSE,
        None => false,
    }
}

/// A slot ends: the responses that are ready after it.
pub(crate) fn pass_slot(cluster: &Cluster, slot: &OpenSlot, ready: &mut Responses)
    requires kind { slot.now.kind ≡ (line_of cluster.now slot.now.table slot.now.entry).entry }
    requires few { length ready.old.items ≤ 16 }
    ensures ready { map response_in ready.new.items
        ≡ responses_after cluster.now (slot_in slot.now) (map response_in ready.old.items) }
    ensures few { length ready.new.items ≤ 16 }
{
    match request_byte(slot) {
        Some(0) => ready.clear(),
        Some(FUNCTIONAL) => (),
        Some(_) => *ready = responses_to(cluster, slot.kind),
        None => {
            if is_slave_response(slot) {
                *ready = unsent(slot, ready.as_slice());
            }
        }
    }
}

/// The nodes of responses.
fn nodes_of(ready: &[Response]) -> ArrayVec<u8, NODES>
    requires { length ready.now ≤ 16 }
    ensures { result.items ≡ map node_in ready.now }
{
    let mut nodes = ArrayVec::new();
    for response in ready {
        nodes.push(response.node);
    }
    nodes
}

/// The nodes that are due in a slot for a service; none if it is for no service.
fn served_nodes(due: Due, ready: &[Response]) -> ArrayVec<u8, NODES>
    requires { length ready.now ≤ 16 }
    ensures nodes { result.items ≡ served_by due (map node_in ready.now) }
    ensures few { length result.items ≤ 16 }
{
    match due {
        Due::Fixed => {
            let mut nodes = ArrayVec::new();
            nodes.push(0);
            nodes
        }
        Due::SlaveResp => nodes_of(ready),
        _ => ArrayVec::new(),
    }
}

/// Whether a slot is for a service, where these responses are ready.
pub(crate) fn is_service(due: Due, ready: &[Response]) -> bool
    ensures { result ≡ is_served due (map node_in ready.now) }
{
    match due {
        Due::Fixed => true,
        Due::SlaveResp => !ready.is_empty(),
        _ => false,
    }
}

/// The nodes that are due in a slot, by rising number, where these responses are ready.
pub(crate) fn slot_nodes(
    cluster: &Cluster,
    due: Due,
    waits: bool,
    responder: Option<u8>,
    pending: &[bool],
    ready: &[Response],
) -> ArrayVec<u8, NODES>
    requires there { HasDue cluster.now due }
    requires count { length pending.now ≡ length cluster.now.frames }
    requires ready { length ready.now ≤ 16 }
    ensures due { result.items
        ≡ due_where cluster.now pending.now waits responder due (map node_in ready.now) }
    ensures few { length result.items ≤ 16 }
{
    if is_service(due, ready) {
        served_nodes(due, ready)
    } else {
        due_nodes(cluster, due, waits, responder, pending)
    }
}

/// The response of a node, if it has one.
fn response_of(ready: &[Response], node: u8) -> Option<Response>
    ensures { result ≡ find (λ r. r.node == node) ready.now }
{
    ready.iter().copied().find(|response| response.node == node)
}

/// The bytes of a node among responses; those of a node without a response are FF.
fn bytes_of(ready: &[Response], node: u8) -> [u8; 8]
    ensures { result ≡ ready_bytes (map response_in ready.now) node }
{
    match response_of(ready, node) {
        Some(response) => response.bytes,
        None => [255; 8],
    }
}

/// The data bytes that a node puts in a slot for a service, where these responses are ready: the
/// commander the request of the entry, a responder its response.
pub(crate) fn service_bytes(entry: Entry, ready: &[Response], node: u8) -> [u8; 8]
    ensures { result ≡ service_bytes (map response_in ready.now) entry node }
{
    match entry {
        Entry::Fixed(request) => request,
        _ => bytes_of(ready, node),
    }
}
