//! The open slot, as the core keeps it.

ghost use Rattle.std.specs.Prelude.{◌≡◌, ◌<◌, ◌≤◌, ◌++◌, ◌∷◌, [], ◌==◌, ◌&&◌, not, true, false};
ghost use Rattle.std.specs.Prelude.{length, filter};
ghost use Rattle.std.specs.Prelude.{IfOk, Some, None, is_some, map, take};
ghost use Rattle.std.specs.List.{list_any};
ghost use Rattle.lin_schedule.specs.Walker.{HasEntry};
ghost use Rattle.lin_core.specs.History.{first_node, good, has_decided, is_clash_seen, is_in, seen_of};
ghost use Rattle.lin_core.specs.Slots.{has_put};
ghost use Rattle.lin_core.specs.Replies.{service_events};
ghost use Rattle.lin_core.specs.kept.Slots.{opening_slot_kept, slot_in};
ghost use Rattle.lin_core.specs.declared.slot.OpenSlot.{OpenSlot};
ghost use Rattle.lin_core.specs.declared.slot.Put.{Put};

use crate::event::{Event, Seen};
use crate::payload::Events;
use arrayvec::ArrayVec;
use lin_frame::Answer;
use lin_parts::{Cluster, Entry};
use std::alloc::{AllocError, Global};
use std::marker::Model;

/// The protected identifier of the master request frame (ISO 17987-3, frame identifier 60).
pub const MASTER_REQUEST: u8 = 0x3C;

/// The protected identifier of the slave response frame (ISO 17987-3, frame identifier 61).
pub const SLAVE_RESPONSE: u8 = 0x7D;

/// The most nodes of a cluster (ISO 17987-2, node addresses).
pub const NODES: usize = 16;

/// A response, the node that put it, and the frame that was pending until then, if it carries one.
#[derive(Drop)]
pub(crate) struct Put {
    pub(crate) node: u8,
    pub(crate) answer: Answer,
    pub(crate) cleared: Option<u16>,
}

impl Default for Put {
    /// A response without bytes, for the places of a slot in which nothing was put.
    fn default() -> Put {
        Put {
            node: 0,
            answer: Answer::new(ArrayVec::new()),
            cleared: None,
        }
    }
}

/// The open slot: its place in the schedule and what that entry is for, its header, who is due, who
/// put what, in the order of the responses, who left its response out, and whether the response was
/// disturbed. A cluster has at most 16 nodes, and each decides at most once.
#[derive(Drop)]
pub(crate) struct OpenSlot {
    pub(crate) table: u16,
    pub(crate) entry: u16,
    pub(crate) kind: Entry,
    pub(crate) header: Option<u8>,
    pub(crate) service: bool,
    pub(crate) due: ArrayVec<u8, NODES>,
    pub(crate) puts: ArrayVec<Put, NODES>,
    pub(crate) left: ArrayVec<u8, NODES>,
    pub(crate) hurt: bool,
}

/// Whether a node has put one of these responses.
fn has_put(puts: &[Put], node: u8) -> bool
    ensures { result ≡ list_any (λ put. put.node == node) puts.now }
{
    puts.iter().any(|put| put.node == node)
}

/// Whether a node is one of those that left their responses out.
fn has_left(left: &[u8], node: u8) -> bool
    ensures { result ≡ is_in left.now node }
{
    left.iter().any(|other| *other == node)
}

/// The first events of an open, in a list with room for so many more. An error means out of memory.
fn first_events(
    alloc: Global,
    opened: Event,
    service: bool,
    more: usize,
) -> Result<Vec<Event>, AllocError>
    requires { more ≤ 16 }
    ensures { IfOk result (λ events. events.items ≡ opened ∷ service_events service) }
{
    let mut events = Vec::with_capacity(alloc, 2 + more)?;
    events.push(opened)?;
    if service {
        events.push(Event::Service)?;
    }
    Ok(events)
}

/// The events of an open of a slot for an entry of a table, under a header, in which these nodes
/// are due, and which may be for a service. An error means out of memory.
pub(crate) fn opening_events(
    alloc: Global,
    place: (u16, u16),
    header: Option<u8>,
    service: bool,
    due: &[u8],
) -> Result<Events, AllocError>
    requires { length due.now ≤ 16 }
    ensures { IfOk result
        (λ events. events
        ≡ Event.Slot place.0 place.1 header ∷ (service_events service ++ map Event.Due due.now)) }
{
    let opened = Event::Slot {
        table: place.0,
        entry: place.1,
        header,
    };
    if due.is_empty() && !service {
        return Ok(Events::one(opened));
    }
    let mut events = first_events(alloc, opened, service, due.len())?;
    for node in due {
        events.push(Event::Due { node: *node })?;
    }
    Ok(Events::new(events))
}

impl OpenSlot {
    /// Whether a node is due in the slot.
    pub(crate) fn is_due(&self, node: u8) -> bool
        ensures { result ≡ is_in (slot_in self.now).due node }
    {
        self.due.iter().any(|due| *due == node)
    }

    /// Whether a node has decided in the slot.
    pub(crate) fn has_decided(&self, node: u8) -> bool
        ensures { result ≡ has_decided (slot_in self.now) node }
    {
        has_put(self.puts.as_slice(), node) || has_left(self.left.as_slice(), node)
    }

    /// Whether a node has put a response in the slot.
    pub(crate) fn has_put(&self, node: u8) -> bool
        ensures { result ≡ has_put (slot_in self.now) node }
    {
        has_put(self.puts.as_slice(), node)
    }

    /// How many nodes that are due have decided nothing.
    pub(crate) fn undecided(&self) -> usize
        ensures { result
            ≡ length (filter (λ n. not (has_decided (slot_in self.now) n)) (slot_in self.now).due) }
    {
        let due = self.due.as_slice();
        let mut count = 0;
        for node in due {
            if !self.has_decided(*node) {
                count += 1;
            }
        }
        count
    }

    /// Whether the slot is seen good when it ends: it has a header and one response, which wasn't
    /// disturbed.
    pub(crate) fn is_good(&self) -> bool
        ensures { result ≡ is_some (good (slot_in self.now)) }
    {
        self.header.is_some() && self.puts.len() == 1 && !self.hurt
    }

    /// Its header, which it has.
    pub(crate) fn header(&self) -> u8
        requires { is_some self.now.header ≡ true }
        ensures { Some result ≡ self.now.header }
    {
        self.header.unwrap()
    }

    /// The data bytes of its only response; zeros where there isn't just one.
    pub(crate) fn data(&self) -> [u8; 8]
        ensures { (put : Put) → self.now.puts.items ≡ put ∷ [] → 8 ≤ length put.answer
            → result ≡ take 8 put.answer }
    {
        match self.puts.as_slice() {
            [put] => put.answer.data(),
            _ => [0; 8],
        }
    }

    /// The first node that has answered in it.
    pub(crate) fn first_node(&self) -> Option<u8>
        ensures { result ≡ first_node (slot_in self.now) }
    {
        match self.puts.as_slice() {
            [] => None,
            [put, ..] => Some(put.node),
        }
    }

    /// How the slot is seen when it ends.
    pub(crate) fn seen(&self) -> Seen
        ensures { result ≡ seen_of (slot_in self.now) }
    {
        if self.header.is_none() {
            return Seen::Silent;
        }
        match self.puts.as_slice() {
            [] => Seen::NoAnswer,
            [_] if self.hurt => Seen::Damaged,
            [put] => Seen::Good(put.answer),
            _ => Seen::Collided,
        }
    }
}

/// Whether a slot that is seen so was damaged or collided.
pub(crate) fn is_clash(seen: &Seen) -> bool
    ensures { result ≡ is_clash_seen seen.now }
{
    matches!(seen, Seen::Damaged | Seen::Collided)
}

/// Whether the commander puts the sleep frame in a slot with this header, unless a message is
/// begun: sleep is asked for, and the header is the master request's.
pub(crate) fn is_sleep_asked(header: u8, asked: bool) -> bool
    ensures { result ≡ (header == 0x3C && asked) }
{
    header == MASTER_REQUEST && asked
}

/// The place of a slot, which is open or not: what a closed one keeps counts for nothing. Contracts
/// see the slot, if it is open.
#[derive(Drop)]
pub(crate) struct Slot {
    is_open: bool,
    kept: OpenSlot,
}

impl Model for Slot {
    ghost use Rattle.std.specs.Prelude.{Option, Some, None, if◌then◌else◌};
    ghost use Rattle.lin_core.specs.declared.slot.OpenSlot.{OpenSlot};

    ghost Value = { Option OpenSlot };

    ghost view = { λ s. if s.is_open then Some s.kept else None };
}

impl Slot {
    /// A closed one.
    pub(crate) fn new() -> Slot
        ensures { result ≡ None }
    {
        Slot {
            is_open: false,
            kept: OpenSlot {
                table: 0,
                entry: 0,
                kind: Entry::Quiet,
                header: None,
                service: false,
                due: ArrayVec::new(),
                puts: ArrayVec::new(),
                left: ArrayVec::new(),
                hurt: false,
            },
        }
    }

    /// Whether it is open.
    pub(crate) fn is_open(&self) -> bool
        ensures { result ≡ is_some self.now }
    {
        self.is_open
    }

    /// The slot, which is open.
    pub(crate) fn open(&self) -> &OpenSlot
        requires { is_some self.now ≡ true }
        ensures { self.now ≡ Some result.now }
    {
        &self.kept
    }

    /// It opens for an entry of a schedule table, under a header, with these nodes due.
    pub(crate) fn begin(
        &mut self,
        cluster: &Cluster,
        place: (u16, u16),
        header: Option<u8>,
        service: bool,
        due: ArrayVec<u8, NODES>,
    )
        requires { HasEntry cluster.now place }
        ensures { self.new ≡ Some (opening_slot_kept cluster.now place header service due.items) }
    {
        self.is_open = true;
        let slot = &mut self.kept;
        slot.table = place.0;
        slot.entry = place.1;
        slot.kind = cluster.entry(place.0, place.1);
        slot.header = header;
        slot.service = service;
        slot.due = due;
        slot.puts.clear();
        slot.left.clear();
        slot.hurt = false;
    }

    /// A node puts its response in it.
    pub(crate) fn put(&mut self, put: Put)
        requires open { is_some self.old ≡ true }
        requires room { (kept : OpenSlot) → self.old ≡ Some kept → length kept.puts.items < 16 }
        ensures { (kept : OpenSlot) → self.old ≡ Some kept
            → self.new
            ≡ Some (record kept { puts = record { items = kept.puts.items ++ put ∷ [] } }) }
    {
        self.kept.puts.push(put);
    }

    /// A node leaves its response out.
    pub(crate) fn leave(&mut self, node: u8)
        requires open { is_some self.old ≡ true }
        requires room { (kept : OpenSlot) → self.old ≡ Some kept → length kept.left.items < 16 }
        ensures { (kept : OpenSlot) → self.old ≡ Some kept
            → self.new
            ≡ Some (record kept { left = record { items = kept.left.items ++ node ∷ [] } }) }
    {
        self.kept.left.push(node);
    }

    /// The response in it is disturbed.
    pub(crate) fn hurt(&mut self)
        requires { is_some self.old ≡ true }
        ensures { (kept : OpenSlot) → self.old ≡ Some kept
            → self.new ≡ Some (record kept { hurt = true }) }
    {
        self.kept.hurt = true;
    }

    /// It ends.
    pub(crate) fn close(&mut self)
        ensures { self.new ≡ None }
    {
        self.is_open = false;
    }
}
