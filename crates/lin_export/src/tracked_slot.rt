//! The slot that is open at a place in a log.

ghost use Rattle.std.specs.Prelude.{◌≡◌, ◌≤◌, ◌<◌, is_some, length, slice_index, IfSome, OnOk};
ghost use Rattle.lin_parts.specs.Cluster.{line_of};
ghost use Rattle.lin_parts.specs.Rules.{IsEntry};
ghost use Rattle.lin_core.specs.History.{good, slot_after_hurt, is_sleep_slot, no_slot, seen_of};
ghost use Rattle.lin_core.specs.History.{slot_after_event, slot_after_events};
ghost use Rattle.lin_core.specs.Signals.{carried_frame};
ghost use Rattle.lin_core.specs.Tables.{look_of};
ghost use Rattle.lin_export.specs.Look.{seen_as};
ghost use Rattle.lin_export.specs.Open.{tracked_slot};
ghost use Rattle.lin_export.specs.Shown.{slot_frame};
ghost use Rattle.lin_export.specs.Track.{shown_slot};

use crate::slot_purpose::frame_put;
use lin_core::{Event, frame_under};
use lin_frame::Answer;
use lin_parts::{Cluster, Entry, Line};
use std::alloc::{AllocError, Global};

/// What of a slot is shown: its entry, its header, the nodes that are due, those that put responses
/// with these, in order, and whether the response was disturbed.
#[derive(Drop)]
pub(crate) struct TrackedSlot {
    table: u16,
    entry: u16,
    header: Option<u8>,
    service: bool,
    due: Vec<u8>,
    puts: Vec<(u8, Answer)>,
    hurt: bool,
}

/// The byte at an index; 0 after the last.
pub(crate) fn byte_at(bytes: &[u8], index: usize) -> u8
    ensures { result ≡ slice_index bytes.now index }
{
    if index < bytes.len() {
        return bytes[index];
    }
    0
}

/// How the nodes see a slot when it ends.
#[derive(Clone, Copy)]
pub(crate) enum SeenSlot<'a> {
    Silent,
    NoAnswer,
    Good(&'a Answer),
    Damaged,
    Collided,
}

impl SeenSlot<'_> {
    /// How the slot is seen, whatever bytes it carries.
    pub(crate) fn kind(self) -> lin_core::Look
        ensures { result ≡ look_of (seen_as self.entry) }
    {
        match self {
            SeenSlot::Silent => lin_core::Look::Silent,
            SeenSlot::NoAnswer => lin_core::Look::NoAnswer,
            SeenSlot::Good(_) => lin_core::Look::Good,
            SeenSlot::Damaged => lin_core::Look::Damaged,
            SeenSlot::Collided => lin_core::Look::Collided,
        }
    }
}

impl TrackedSlot {
    /// A slot of which nothing is told yet.
    pub(crate) fn new(alloc: Global) -> TrackedSlot
        ensures { tracked_slot result ≡ no_slot }
    {
        TrackedSlot {
            table: 0,
            entry: 0,
            header: None,
            service: false,
            due: Vec::new(alloc),
            puts: Vec::new(alloc),
            hurt: false,
        }
    }

    /// An event tells something of the slot. An error means out of memory.
    fn tell(&mut self, event: &Event) -> Result<(), AllocError>
        ensures { OnOk result
            (tracked_slot self.new ≡ shown_slot (slot_after_event event.now (tracked_slot self.old))) }
    {
        match event {
            Event::Slot {
                table,
                entry,
                header,
            } => {
                self.table = *table;
                self.entry = *entry;
                self.header = *header;
            }
            Event::Service => self.service = true,
            Event::Due { node } => self.due.push(*node)?,
            Event::Put { node, answer } => self.puts.push((*node, *answer))?,
            _ => {}
        }
        Ok(())
    }

    /// The events of a step tell something of the slot. An error means out of memory.
    pub(crate) fn tell_all(&mut self, events: &[Event]) -> Result<(), AllocError>
        ensures { OnOk result
            (tracked_slot self.new ≡ shown_slot (slot_after_events events.now (tracked_slot self.old))) }
    {
        for event in events {
            self.tell(event)?;
        }
        Ok(())
    }

    /// The response is disturbed.
    pub(crate) fn hurt(&mut self)
        ensures { tracked_slot self.new ≡ slot_after_hurt (tracked_slot self.old) }
    {
        self.hurt = true;
    }

    /// Whether it is for a service.
    pub(crate) fn is_service(&self) -> bool
        ensures { result ≡ self.now.service }
    {
        self.service
    }

    /// Its header, a protected identifier, where it has one.
    pub(crate) fn header(&self) -> Option<u8>
        ensures { result ≡ self.now.header }
    {
        self.header
    }

    /// The number of its table.
    pub(crate) fn table(&self) -> u16
        ensures { result ≡ self.now.table }
    {
        self.table
    }

    /// The number of its entry.
    pub(crate) fn entry(&self) -> u16
        ensures { result ≡ self.now.entry }
    {
        self.entry
    }

    /// The nodes that are due, in order.
    pub(crate) fn due(&self) -> &[u8]
        ensures { result.now ≡ (tracked_slot self.now).due }
    {
        self.due.as_slice()
    }

    /// The nodes that put responses, with these, in order.
    pub(crate) fn puts(&self) -> &[(u8, Answer)]
        ensures { result.now ≡ (tracked_slot self.now).puts }
    {
        self.puts.as_slice()
    }

    /// Whether the response was disturbed.
    pub(crate) fn is_hurt(&self) -> bool
        ensures { result ≡ self.now.hurt }
    {
        self.hurt
    }

    /// What it is for, with its delay.
    pub(crate) fn line(&self, cluster: &Cluster) -> Line
        ensures line { result ≡ line_of cluster.now self.now.table self.now.entry }
        ensures there { IsEntry cluster.now result.entry }
        ensures delay { result.delay_us ≤ 1000000000 }
    {
        cluster.line_at(self.table, self.entry)
    }

    /// The frame that it carries (ISO 17987-3, unconditional, sporadic and event-triggered frames).
    pub(crate) fn carried(&self, cluster: &Cluster) -> Option<u16>
        ensures frame { result ≡ carried_frame cluster.now (tracked_slot self.now) }
        ensures there { IfSome result (λ f. f < length cluster.now.frames) }
    {
        cluster.sound();
        match self.line(cluster).entry {
            Entry::Frame(frame) => Some(frame),
            Entry::Sporadic(sporadic) => match self.header {
                Some(header) => frame_under(cluster, cluster.sporadic(sporadic), header),
                None => None,
            },
            Entry::Event(event) => frame_put(cluster, cluster.event_frames(event), self.puts()),
            Entry::MasterReq | Entry::SlaveResp | Entry::Fixed(_) | Entry::Quiet => None,
        }
    }

    /// Whether it is seen good when it ends.
    fn is_good(&self) -> bool
        ensures { result ≡ is_some (good (tracked_slot self.now)) }
    {
        matches!(self.look(), SeenSlot::Good(_))
    }

    /// The frame that is shown: an event-triggered slot has one only where it is seen good.
    pub(crate) fn frame(&self, cluster: &Cluster) -> Option<u16>
        ensures frame { result ≡ slot_frame cluster.now
            (line_of cluster.now self.now.table self.now.entry).entry (tracked_slot self.now) }
        ensures there { IfSome result (λ f. f < length cluster.now.frames) }
    {
        match self.line(cluster).entry {
            Entry::Event(_) if !self.is_good() => None,
            _ => self.carried(cluster),
        }
    }

    /// How the slot is seen when it ends.
    pub(crate) fn look(&self) -> SeenSlot<'_>
        ensures { seen_as result ≡ seen_of (tracked_slot self.now) }
    {
        if self.header.is_none() {
            return SeenSlot::Silent;
        }
        match self.puts.as_slice() {
            [] => SeenSlot::NoAnswer,
            [_] if self.hurt => SeenSlot::Damaged,
            [put] => SeenSlot::Good(&put.1),
            _ => SeenSlot::Collided,
        }
    }

    /// Whether the slot puts the cluster to sleep: a good master request whose first data byte is 0
    /// (ISO 17987-3, go-to-sleep).
    pub(crate) fn is_sleep(&self) -> bool
        ensures { result ≡ is_sleep_slot (tracked_slot self.now) }
    {
        match self.look() {
            SeenSlot::Good(answer) => self.header == Some(0x3C)
                && byte_at(answer.as_slice(), 0) == 0,
            _ => false,
        }
    }
}
