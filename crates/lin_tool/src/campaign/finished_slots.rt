//! The slots that a log finished, in order, as the rows of a campaign need them.

ghost use Rattle.std.specs.Prelude.{◌≡◌, ◌<◌, ◌==◌, [], All, List, None, ℕ, find, if◌then◌else◌};
ghost use Rattle.std.specs.Prelude.{length, nat_lt, slice_set, true};
ghost use Rattle.std.specs.Option.{option_map_or};
ghost use Rattle.lin_parts.specs.Cluster.{frame_of, named_table};
ghost use Rattle.lin_core.specs.History.{Slot, no_slot, seen_of, slot_after_event};
ghost use Rattle.lin_core.specs.History.{slot_after_events};
ghost use Rattle.lin_core.specs.Tables.{look_of};
ghost use Rattle.lin_core.specs.declared.event.Event.TheVariants.{Put};
ghost use Rattle.lin_bench.specs.Faults.{is_intact};
ghost use Rattle.lin_tool.specs.campaign.Slots.{HasRead, ReadsEntry, frame_shown, kept_of_slot, frame_or_entry_name};

use lin_core::{Event, LogEntry, Look, NODES, Reply, Step, frame_under};
use lin_parts::{Cluster, Entry};

/// What is kept of a slot.
#[derive(Clone, Copy)]
pub(crate) struct KeptSlot {
    pub(crate) table: u16,
    pub(crate) entry: u16,
    header: Option<u8>,
    /// Which nodes responded.
    pub(crate) answered: [bool; NODES],
    /// The first node that responded.
    first: Option<u8>,
    /// How many responses there are; 255 if there are more.
    responses: u8,
    /// Whether a step corrupted the response.
    is_hurt: bool,
}

/// A reader of the slots of a log, after some entries.
#[derive(Drop)]
pub(crate) struct SlotReader {
    open: Option<KeptSlot>,
}

/// Returns the first of these frames whose publisher is this node.
fn frame_by(cluster: &Cluster, frames: &[u16], node: u8) -> Option<u16>
    requires { All (λ f. f < length cluster.now.frames) frames.now }
    ensures { result ≡ find (λ f. (frame_of cluster.now f).publisher == node) frames.now }
{
    frames
        .iter()
        .copied()
        .find(|frame| cluster.frame_publisher(*frame) == node)
}

/// Returns the first of these frames whose publisher is the first node that responded, if one did.
fn frame_of(cluster: &Cluster, frames: &[u16], first: Option<u8>) -> Option<u16>
    requires { All (λ f. f < length cluster.now.frames) frames.now }
    ensures { result ≡ option_map_or
        (λ node. find (λ f. (frame_of cluster.now f).publisher == node) frames.now) first None }
{
    match first {
        Some(node) => frame_by(cluster, frames, node),
        None => None,
    }
}

/// Which nodes responded, after one more did.
fn with_node(answered: [bool; NODES], node: u8) -> [bool; NODES]
    ensures { result ≡ (if nat_lt node 16 then slice_set answered node true else answered) }
{
    let mut answered = answered;
    if usize::from(node) < NODES {
        answered[usize::from(node)] = true;
    }
    answered
}

impl KeptSlot {
    /// Returns a slot before its first event.
    fn new() -> KeptSlot
        ensures { result ≡ kept_of_slot no_slot }
    {
        KeptSlot {
            table: 0,
            entry: 0,
            header: None,
            answered: [false; NODES],
            first: None,
            responses: 0,
            is_hurt: false,
        }
    }

    /// A node responded.
    fn respond(&mut self, node: u8)
        ensures { (s : Slot) → (answer : List ℕ) → self.old ≡ kept_of_slot s
            → self.new ≡ kept_of_slot (slot_after_event (Put node answer) s) }
    {
        self.answered = with_node(self.answered, node);
        self.first = self.first.or(Some(node));
        self.responses = self.responses.saturating_add(1);
    }

    /// Keeps an event of the slot.
    fn tell(&mut self, event: &Event)
        ensures { (s : Slot) → self.old ≡ kept_of_slot s
            → self.new ≡ kept_of_slot (slot_after_event event.now s) }
    {
        match event {
            Event::Slot {
                table,
                entry,
                header,
            } => {
                self.table = *table;
                self.entry = *entry;
                self.header = *header;
            }
            Event::Put { node, .. } => self.respond(*node),
            _ => {}
        }
    }

    /// Keeps the events of a step in the slot.
    fn tell_all(&mut self, events: &[Event])
        ensures { (s : Slot) → self.old ≡ kept_of_slot s
            → self.new ≡ kept_of_slot (slot_after_events events.now s) }
    {
        for event in events {
            self.tell(event);
        }
    }

    /// Whether exactly one node responded, and no step corrupted the response.
    pub(crate) fn is_intact(&self) -> bool
        ensures { (s : Slot) → self.now ≡ kept_of_slot s → result ≡ is_intact s }
    {
        self.responses == 1 && !self.is_hurt
    }

    /// How the slot is seen when it is finished.
    pub(crate) fn look(&self) -> Look
        ensures { (s : Slot) → self.now ≡ kept_of_slot s → result ≡ look_of (seen_of s) }
    {
        if self.header.is_none() {
            return Look::Silent;
        }
        match self.responses {
            0 => Look::NoAnswer,
            1 if self.is_hurt => Look::Damaged,
            1 => Look::Good,
            _ => Look::Collided,
        }
    }

    /// Returns the frame of a good slot or, unless the entry is event-triggered, of any other; `None` if the
    /// slot has the name of its entry.
    pub(crate) fn frame(&self, cluster: &Cluster) -> Option<u16>
        ensures { (s : Slot) → self.now ≡ kept_of_slot s → result ≡ frame_shown cluster.now s }
    {
        cluster.sound();
        match cluster.line_at(self.table, self.entry).entry {
            Entry::Frame(frame) => Some(frame),
            Entry::Sporadic(sporadic) => match self.header {
                Some(header) => frame_under(cluster, cluster.sporadic(sporadic), header),
                None => None,
            },
            Entry::Event(event) if self.header.is_some() && self.is_intact() => {
                frame_of(cluster, cluster.event_frames(event), self.first)
            }
            _ => None,
        }
    }
}

impl SlotReader {
    /// No entry was read.
    pub(crate) fn new() -> SlotReader
        ensures { HasRead result [] }
    {
        SlotReader { open: None }
    }

    /// Reads the next entry of the log, and returns the slot that it finished, if it did.
    pub(crate) fn next(&mut self, entry: &LogEntry) -> Option<KeptSlot>
        ensures { ReadsEntry self.old entry.now self.new result }
    {
        let Reply::Done(events) = &entry.reply else {
            return None;
        };
        let events = events.as_slice();
        match (&entry.step, &mut self.open) {
            (Step::Open, _) => {
                let mut open = KeptSlot::new();
                open.tell_all(events);
                self.open = Some(open);
                None
            }
            (Step::Answer { .. }, Some(open)) => {
                open.tell_all(events);
                None
            }
            (Step::Hurt { .. }, Some(open)) => {
                open.is_hurt = true;
                None
            }
            (Step::Finish, _) => self.open.take(),
            _ => None,
        }
    }
}

/// The name of a schedule table; no bytes if none has this number.
pub(crate) fn table_name(cluster: &Cluster, table: u16) -> &[u8]
    ensures { result.now ≡ (named_table cluster.now table).name }
{
    if usize::from(table) < cluster.tables() {
        cluster.table_name(table)
    } else {
        &[]
    }
}

/// Returns the name of a slot's frame, or of what its entry is for.
pub(crate) fn slot_name(cluster: &Cluster, table: u16, entry: u16, frame: Option<u16>) -> &[u8]
    ensures { result.now ≡ frame_or_entry_name cluster.now table entry frame }
{
    match frame {
        Some(frame) => cluster.frame_name(frame),
        None => cluster.entry_name(cluster.line_at(table, entry).entry),
    }
}
