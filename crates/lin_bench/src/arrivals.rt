//! When messages arrived.

ghost use Rattle.std.specs.Prelude.{◌≡◌, ◌&&◌, ◌+◌, ◌-◌, ◌<◌, ◌≤◌, ◌^◌, ◌∷◌, false, true, List, length, None, not, reverse, slice_index};
ghost use Rattle.std.specs.Prelude.{slice_index_or as get_or, take};
ghost use Rattle.std.specs.List.{list_any};
ghost use Rattle.std.specs.Option.{unwrap_or};
ghost use Rattle.lin_parts.specs.declared.parts.Parts.{Parts};
ghost use Rattle.lin_core.specs.History.{Slot, did, events, is_finish, slot_after_event, slot_after_events, time};
ghost use Rattle.lin_core.specs.declared.log.LogEntry.{LogEntry};
ghost use Rattle.lin_bench.specs.Arrivals.{precedes, entry_place, slot_left, time_left, whole};
ghost use Rattle.lin_bench.specs.Searches.{before};
ghost use Rattle.lin_bench.specs.Verdicts.{last_time, times_taken};

use crate::expected::Since;
use crate::replies::is_done;
use crate::taken::{EventKind, LogPlace, events_of, skipped};
use lin_core::{Event, Log, LogEntry, Step};
use lin_log::finishes;
use lin_parts::Cluster;

/// What a walk back over the entries of a log keeps: the time in microseconds of the slots that ended
/// behind, whether it has seen the finish of a slot and not its open, the table and the entry of that
/// slot where an entry has told them, and whether it has met the last earlier message.
#[derive(Clone, Copy)]
struct Walk {
    time: u64,
    finishes: bool,
    told: Option<(u16, u16)>,
    asked: bool,
}

/// The table and the entry that an event tells.
fn place_in(event: &Event) -> Option<(u16, u16)>
    ensures { (s : Slot) → entry_place (slot_after_event event.now s) ≡ unwrap_or result (entry_place s) }
{
    match event {
        Event::Slot { table, entry, .. } => Some((*table, *entry)),
        _ => None,
    }
}

/// The table and the entry that the last one of events tells, if one does.
fn place_told(events: &[Event]) -> Option<(u16, u16)>
    ensures { (s : Slot) → entry_place (slot_after_events events.now s) ≡ unwrap_or result (entry_place s) }
{
    let mut told = None;
    for event in events {
        told = place_in(event).or(told);
    }
    told
}

/// The earlier messages from which the time of a message from one host to another counts.
#[derive(Clone, Copy)]
pub(crate) struct EarlierMessages {
    pub(crate) since: Since,
    pub(crate) from: u8,
    pub(crate) to: u8,
}

impl EarlierMessages {
    /// Whether an event is one of them.
    fn has(self, event: &Event) -> bool
        ensures { result ≡ precedes self event.now }
    {
        let other = EventKind::Messages {
            from: self.to,
            to: self.from,
        };
        match self.since {
            Since::Request => other.has(event),
            Since::Last => {
                let same = EventKind::Messages {
                    from: self.from,
                    to: self.to,
                };
                other.has(event) || same.has(event)
            }
        }
    }
}

/// Whether an entry tells of one of the earlier messages.
fn tells(entry: &LogEntry, earlier: EarlierMessages) -> bool
    ensures { result ≡ list_any (precedes earlier) (events entry.now) }
{
    events_of(entry).iter().any(|event| earlier.has(event))
}

impl Walk {
    /// A walk that begins before an entry.
    fn before(entry: &LogEntry) -> Walk
        ensures walk { result ≡
            record { time = 0; finishes = did is_finish entry.now; told = None; asked = false } }
    {
        Walk {
            time: 0,
            finishes: finishes(entry),
            told: None,
            asked: false,
        }
    }

    /// Whether it has found what it is for.
    fn is_over(&self) -> bool
        ensures { result ≡ (self.now.asked && not self.now.finishes) }
    {
        self.asked && !self.finishes
    }

    /// The walk after an entry more, as far as the slot is concerned whose finish it has seen.
    fn meet_slot(self, cluster: &Cluster, entry: &LogEntry) -> Walk
        requires { self.time < 2 ^ 63 }
        ensures slot { (past : List LogEntry) → result.time + slot_left cluster.now result past
            ≡ self.time + slot_left cluster.now self (entry.now ∷ past) }
        ensures asked { result.asked ≡ self.asked }
        ensures finishes { did is_finish entry.now ≡ true → result.finishes ≡ false }
        ensures time { result.time ≤ self.time + 1000000000 }
    {
        if !self.finishes || !is_done(entry) {
            return self;
        }
        let told = self.told.or(place_told(events_of(entry)));
        match &entry.step {
            Step::Open => {
                let (table, number) = told.unwrap_or((0, 0));
                Walk {
                    time: self.time + u64::from(cluster.line_at(table, number).delay_us),
                    finishes: false,
                    ..self
                }
            }
            Step::Answer { .. } => Walk { told, ..self },
            Step::Finish => Walk {
                finishes: false,
                ..self
            },
            _ => self,
        }
    }

    /// The walk after an entry more, as far as the earlier messages are concerned.
    fn meet_request(self, earlier: EarlierMessages, entry: &LogEntry) -> Walk
        requires { did is_finish entry.now ≡ true → self.finishes ≡ false }
        ensures whole { (c : Parts) → (past : List LogEntry) → whole c (precedes earlier) result past
            ≡ self.time + (slot_left c self past + time_left c (precedes earlier) self (entry.now ∷ past)) }
        ensures time { result.time ≡ self.time }
    {
        if self.asked {
            return self;
        }
        if tells(entry, earlier) {
            return Walk {
                asked: true,
                ..self
            };
        }
        if finishes(entry) {
            return Walk {
                finishes: true,
                told: None,
                ..self
            };
        }
        self
    }

    /// The walk after an entry more.
    fn back(self, cluster: &Cluster, earlier: EarlierMessages, entry: &LogEntry) -> Walk
        requires { self.time < 2 ^ 63 }
        ensures whole { (past : List LogEntry) → whole cluster.now (precedes earlier) result past
            ≡ whole cluster.now (precedes earlier) self (entry.now ∷ past) }
        ensures time { result.time ≤ self.time + 1000000000 }
    {
        self.meet_slot(cluster, entry).meet_request(earlier, entry)
    }
}

/// How long the last earlier message before an entry was ago when it came, in microseconds.
fn time_since(cluster: &Cluster, log: &Log, earlier: EarlierMessages, index: usize) -> u64
    requires within { index < length log.now.entries }
    requires few { index < 2 ^ 32 }
    ensures { (e : LogEntry) → e ≡ get_or log.now.entries index e
        → result ≡ time cluster.now (e ∷ reverse (take index log.now.entries))
        - last_time cluster.now (precedes earlier) (reverse (take index log.now.entries)) }
{
    let mut walk = Walk::before(log.entry(index));
    let mut left = index;
    while left > 0 && !walk.is_over() {
        left -= 1;
        walk = walk.back(cluster, earlier, log.entry(left));
    }
    walk.time
}

/// How long the first answer from a place on came after the last earlier message before it, in
/// microseconds; 0 where there is none.
pub(crate) fn time_taken(
    cluster: &Cluster,
    log: &Log,
    earlier: EarlierMessages,
    answer: EventKind,
    from: LogPlace,
) -> u64
    requires { from.entry ≤ length log.now.entries }
    ensures { result ≡ slice_index
        (times_taken cluster.now (precedes earlier) answer (reverse log.now.entries))
        (before log.now.entries answer from) }
{
    let end = log.len();
    let mut skip = from.events;
    for index in from.entry..end {
        let entry = log.entry(index);
        match skipped(events_of(entry), answer, skip) {
            Ok(_) => return time_since(cluster, log, earlier, index),
            Err(left) => skip = left,
        }
    }
    0
}
