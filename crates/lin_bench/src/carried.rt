//! What the last slot that ended carried.

ghost use Rattle.std.specs.Prelude.{◌≡◌, ◌==◌, ◌<◌, ◌≤◌, List, All, find, length, map, option_map, reverse, take, slice_index_or, true, ◌∷◌, IfOk, IfSome, OnOk};
ghost use Rattle.std.specs.List.{list_any};
ghost use Rattle.lin_parts.specs.Cluster.{frame_of, line_of};
ghost use Rattle.lin_parts.specs.Rules.{IsEntry};
ghost use Rattle.lin_core.specs.History.{Slot, did, no_slot, slot_after_event, slot_after_events};
ghost use Rattle.lin_core.specs.declared.log.LogEntry.{LogEntry};
ghost use Rattle.lin_bench.specs.Carried.{KeepsOpenSlot, is_open_step, shape, shape_in};
ghost use Rattle.lin_bench.specs.Verdicts.{carried_by_slot, last_carried};
ghost use Rattle.lin_core.specs.Signals.{carried_by};

use crate::replies::is_done;
use crate::taken::events_of;
use lin_core::{Event, Log, LogEntry, Step, frame_under};
use lin_log::{Carried, last_finish};
use lin_parts::{Cluster, Entry};
use std::alloc::{AllocError, Global};

/// A slot that is open at a place in a log: its entry, its header, and the nodes that put responses.
#[derive(Drop)]
pub(crate) struct OpenSlot {
    pub table: u16,
    pub entry: u16,
    pub header: Option<u8>,
    pub nodes: Vec<u8>,
}

impl OpenSlot {
    /// A slot of which nothing is told yet.
    fn new(alloc: Global) -> OpenSlot
        ensures { shape_in result ≡ shape no_slot }
    {
        OpenSlot {
            table: 0,
            entry: 0,
            header: None,
            nodes: Vec::new(alloc),
        }
    }

    /// An event tells something of the slot.
    fn tell(&mut self, event: &Event) -> Result<(), AllocError>
        ensures { OnOk result ((s : Slot) → shape_in self.old ≡ shape s
            → shape_in self.new ≡ shape (slot_after_event event.now s)) }
    {
        match event {
            Event::Slot {
                table,
                entry,
                header,
            } => {
                self.table = *table;
                self.entry = *entry;
                self.header = *header;
            }
            Event::Put { node, .. } => self.nodes.push(*node)?,
            _ => {}
        }
        Ok(())
    }

    /// Events tell something of the slot.
    fn tell_all(&mut self, events: &[Event]) -> Result<(), AllocError>
        ensures { OnOk result ((s : Slot) → shape_in self.old ≡ shape s
            → shape_in self.new ≡ shape (slot_after_events events.now s)) }
    {
        for event in events {
            self.tell(event)?;
        }
        Ok(())
    }
}

/// A slot of which these events tell.
fn told(alloc: Global, events: &[Event]) -> Result<OpenSlot, AllocError>
    ensures { IfOk result (λ slot. shape_in slot ≡ shape (slot_after_events events.now no_slot)) }
{
    let mut slot = OpenSlot::new(alloc);
    slot.tell_all(events)?;
    Ok(slot)
}

/// A slot of which these events tell more.
fn told_more(slot: OpenSlot, events: &[Event]) -> Result<OpenSlot, AllocError>
    ensures { IfOk result (λ more. (s : Slot) → shape_in slot ≡ shape s
        → shape_in more ≡ shape (slot_after_events events.now s)) }
{
    let mut slot = slot;
    slot.tell_all(events)?;
    Ok(slot)
}

/// The slot that is open after one entry more.
pub(crate) fn follow(
    alloc: Global,
    slot: Option<OpenSlot>,
    entry: &LogEntry,
) -> Result<Option<OpenSlot>, AllocError>
    ensures kept { IfOk result (λ o. (past : List LogEntry) → KeepsOpenSlot slot past
        → KeepsOpenSlot o (entry.now ∷ past)) }
    ensures anew { IfOk result (λ o. did is_open_step entry.now ≡ true → (past : List LogEntry)
        → KeepsOpenSlot o (entry.now ∷ past)) }
{
    if !is_done(entry) {
        return Ok(slot);
    }
    match (&entry.step, slot) {
        (Step::Open, _) => Ok(Some(told(alloc, events_of(entry))?)),
        (Step::Finish, _) => Ok(None),
        (Step::Answer { .. }, Some(slot)) => Ok(Some(told_more(slot, events_of(entry))?)),
        (_, slot) => Ok(slot),
    }
}

/// The slot that is open after so many entries, by the one that is open after these fewer ones.
fn walk(
    alloc: Global,
    log: &Log,
    slot: Option<OpenSlot>,
    start: usize,
    end: usize,
) -> Result<Option<OpenSlot>, AllocError>
    requires kept { KeepsOpenSlot slot (reverse (take start log.now.entries)) }
    requires order { start ≤ end }
    requires within { end ≤ length log.now.entries }
    ensures { IfOk result (λ o. KeepsOpenSlot o (reverse (take end log.now.entries))) }
{
    let mut slot = slot;
    for index in start..end {
        slot = follow(alloc, slot, log.entry(index))?;
    }
    Ok(slot)
}

/// Whether an entry opened a slot.
fn opens(entry: &LogEntry) -> bool
    ensures { result ≡ did is_open_step entry.now }
{
    is_done(entry) && matches!(entry.step, Step::Open)
}

/// The last of so many entries that opened a slot.
fn last_open(log: &Log, end: usize) -> Option<usize>
    requires { end ≤ length log.now.entries }
    ensures within { IfSome result (λ i. i < end) }
    ensures opens { IfSome result (λ i. (e : LogEntry)
        → did is_open_step (slice_index_or log.now.entries i e) ≡ true) }
{
    let mut left = end;
    while left > 0 {
        left -= 1;
        if opens(log.entry(left)) {
            return Some(left);
        }
    }
    None
}

/// The slot that is open after so many entries.
pub(crate) fn open_after(
    alloc: Global,
    log: &Log,
    end: usize,
) -> Result<Option<OpenSlot>, AllocError>
    requires { end ≤ length log.now.entries }
    ensures { IfOk result (λ o. KeepsOpenSlot o (reverse (take end log.now.entries))) }
{
    match last_open(log, end) {
        None => walk(alloc, log, None, 0, end),
        Some(index) => {
            let slot = follow(alloc, None, log.entry(index))?;
            walk(alloc, log, slot, index + 1, end)
        }
    }
}

/// What an entry of a table is for; a configuration entry where the cluster has none there.
pub(crate) fn entry_at(cluster: &Cluster, table: u16, entry: u16) -> Entry
    ensures entry { result ≡ (line_of cluster.now table entry).entry }
    ensures there { IsEntry cluster.now result }
{
    cluster.sound();
    if (table as usize) < cluster.tables() && (entry as usize) < cluster.entries(table) {
        cluster.entry(table, entry)
    } else {
        Entry::Quiet
    }
}

/// Whether a node is one of these.
pub(crate) fn has(nodes: &[u8], node: u8) -> bool
    ensures { result ≡ list_any (λ n. n == node) nodes.now }
{
    nodes.iter().any(|n| *n == node)
}

/// The first of these frames whose publisher is one of these nodes.
fn frame_from(cluster: &Cluster, frames: &[u16], nodes: &[u8]) -> Option<u16>
    requires { All (λ f. f < length cluster.now.frames) frames.now }
    ensures { result ≡ find (λ f. list_any (λ n. n == (frame_of cluster.now f).publisher) nodes.now)
        frames.now }
{
    frames
        .iter()
        .copied()
        .find(|frame| has(nodes, cluster.frame_publisher(*frame)))
}

/// The frame of signals that a slot carries.
pub(crate) fn signals_in(cluster: &Cluster, slot: &OpenSlot, entry: Entry) -> Option<u16>
    requires { IsEntry cluster.now entry }
    ensures { (s : Slot) → shape_in slot.now ≡ shape s → result ≡ carried_by cluster.now entry s }
{
    cluster.sound();
    match entry {
        Entry::Frame(frame) => Some(frame),
        Entry::Sporadic(sporadic) => match slot.header {
            Some(header) => frame_under(cluster, cluster.sporadic(sporadic), header),
            None => None,
        },
        Entry::Event(event) => {
            frame_from(cluster, cluster.event_frames(event), slot.nodes.as_slice())
        }
        Entry::MasterReq | Entry::SlaveResp | Entry::Fixed(_) | Entry::Quiet => None,
    }
}

/// The frame that a slot carries.
pub(crate) fn carried(cluster: &Cluster, slot: &OpenSlot) -> Option<Carried>
    ensures { (s : Slot) → shape_in slot.now ≡ shape s → result ≡ carried_by_slot cluster.now s }
{
    match entry_at(cluster, slot.table, slot.entry) {
        Entry::MasterReq | Entry::Fixed(_) => Some(Carried::Request),
        Entry::SlaveResp => Some(Carried::Response),
        entry => match signals_in(cluster, slot, entry) {
            Some(frame) => Some(Carried::Signals(frame)),
            None => None,
        },
    }
}

/// The frame that the last slot that ended carried.
pub(crate) fn last_carried(
    alloc: Global,
    cluster: &Cluster,
    log: &Log,
) -> Result<Option<Carried>, AllocError>
    ensures { IfOk result
        (λ c. c ≡ last_carried cluster.now (reverse log.now.entries)) }
{
    let Some(end) = last_finish(log) else {
        return Ok(None);
    };
    match open_after(alloc, log, end)? {
        Some(slot) => Ok(carried(cluster, &slot)),
        None => Ok(None),
    }
}
