//! Messages to all responders, as they are told of them.

ghost use Rattle.std.specs.Prelude.{◌≡◌, ◌<◌, ◌≤◌, ◌+◌, ◌++◌, ◌∷◌, [], ℕ, List, length};
ghost use Rattle.std.specs.Prelude.{slice_index, vec_capacity};
ghost use Rattle.lin_parts.specs.Cluster.{nodes};
ghost use Rattle.lin_transport.specs.Transport.{Heard};
ghost use Rattle.lin_core.specs.kept.Hosts.{told_one};
ghost use Rattle.lin_core.specs.kept.Receivers.{Completes, HaveRoom, HearAll, HearsToo, TellsAll};

use crate::event::{Event, Seen};
use crate::payload::{Events, Payload};
use crate::receivers::Receivers;
use crate::setup::Setup;
use std::alloc::Global;

/// A responder hears a frame to all, and is told of the message that it completes.
fn tell_one(
    alloc: Global,
    receivers: &mut Receivers,
    node: u8,
    frame: &[u8; 8],
    events: &mut Vec<Event>,
)
    requires single { slice_index frame.now 1 < 16 }
    requires ready { 1 ≤ receivers.old.down.spare }
    requires room { length events.old.items + 1 ≤ vec_capacity events.old }
    ensures hears { HearsToo frame.now receivers.old receivers.new }
    ensures told { (heard : List Heard) (m : List ℕ)
        → Completes frame.now m receivers.old.down heard
        → events.new.items ≡ events.old.items ++ told_one node m }
    ensures few { length events.new.items ≤ length events.old.items + 1 }
    ensures room { vec_capacity events.old ≤ vec_capacity events.new }
{
    if let Some(message) = receivers.down.hear(frame).unwrap() {
        let whole = Event::Message {
            from: 0,
            to: node,
            bytes: Payload::copied(alloc, message.as_slice()).unwrap(),
        };
        events.push(whole).unwrap();
    }
}

/// Each responder with an address hears a frame to all, and is told of the message that it
/// completes, by rising node.
fn tell_each(
    setup: &Setup,
    receivers: &mut Vec<Receivers>,
    frame: &[u8; 8],
    events: &mut Vec<Event>,
)
    requires count { length receivers.old.items ≡ nodes setup.now.cluster }
    requires few { length receivers.old.items ≤ 16 }
    requires single { slice_index frame.now 1 < 16 }
    requires ready { HaveRoom receivers.old.items }
    requires room { length events.old.items + length receivers.old.items ≤ vec_capacity events.old }
    ensures hears { HearAll setup.now.cluster frame.now receivers.old.items receivers.new.items }
    ensures told { TellsAll setup.now.cluster frame.now receivers.old.items
        (λ told. events.new.items ≡ events.old.items ++ told) }
    ensures few { length events.new.items ≤ length events.old.items + length receivers.old.items }
    ensures room { vec_capacity events.old ≤ vec_capacity events.new }
{
    for node in 0..receivers.len() as u8 {
        if setup.cluster.nad(node).is_some() {
            tell_one(
                setup.alloc,
                &mut receivers[node as usize],
                node,
                frame,
                events,
            );
        }
    }
}

/// A message to all is whole at the end of a slot that is seen so: each responder with an address is
/// told of it, and then its host. The events, in the room that was made for them.
pub(crate) fn events_to_all(
    room: Vec<Event>,
    seen: Seen,
    setup: &Setup,
    receivers: &mut Vec<Receivers>,
    frame: &[u8; 8],
    number: u32,
) -> Events
    requires empty { room.items ≡ [] }
    requires count { length receivers.old.items ≡ nodes setup.now.cluster }
    requires few { length receivers.old.items ≤ 16 }
    requires single { slice_index frame.now 1 < 16 }
    requires ready { HaveRoom receivers.old.items }
    requires room { 2 + length receivers.old.items ≤ vec_capacity room }
    ensures hears { HearAll setup.now.cluster frame.now receivers.old.items receivers.new.items }
    ensures told { TellsAll setup.now.cluster frame.now receivers.old.items
        (λ told. result ≡ Event.Seen seen ∷ told ++ Event.Sent 0 number ∷ []) }
{
    let mut events = room;
    events.push(Event::Seen(seen)).unwrap();
    tell_each(setup, receivers, frame, &mut events);
    let sent = Event::Sent { host: 0, number };
    events.push(sent).unwrap();
    Events::new(events)
}
