//! Events that expectations speak of.

ghost use Rattle.std.specs.Prelude.{◌≡◌, ◌≤◌, [], IfOk, List, length, filter, find, option_map, replicate, reverse};
ghost use Rattle.lin_core.specs.History.{events};
ghost use Rattle.lin_core.specs.declared.event.Event.{Event};
ghost use Rattle.lin_core.specs.declared.log.LogEntry.{LogEntry as Entry};
ghost use Rattle.lin_bench.specs.Searches.{Finds, IsReached, IsSearchState, KeepsCleared, Skips, cleared_count};
ghost use Rattle.lin_bench.specs.Searches.{last_end, last_search, place_before, taken_by};
ghost use Rattle.lin_bench.specs.Verdicts.{all_events, is_of_kind, same_kind};

use lin_core::{Event, Log, LogEntry, Reply};
use std::alloc::{AllocError, Global};

/// A kind of events that expectations speak of.
#[derive(Clone, Copy)]
pub(crate) enum EventKind {
    /// Messages from one host to another.
    Messages { from: u8, to: u8 },
    /// What became of a host's messages.
    Fates { host: u8 },
    /// How slots were seen.
    Ends,
    /// Which slots began.
    Begins,
}

impl EventKind {
    /// Whether it is this one.
    pub(crate) fn is(self, other: EventKind) -> bool
        ensures { result ≡ same_kind self other }
    {
        match (self, other) {
            (EventKind::Messages { from, to }, EventKind::Messages { from: f, to: t }) => {
                from == f && to == t
            }
            (EventKind::Fates { host }, EventKind::Fates { host: h }) => host == h,
            (EventKind::Ends, EventKind::Ends) | (EventKind::Begins, EventKind::Begins) => true,
            _ => false,
        }
    }

    /// Whether an event is of this kind.
    pub(crate) fn has(self, event: &Event) -> bool
        ensures { result ≡ is_of_kind self event.now }
    {
        match (self, event) {
            (EventKind::Messages { from, to }, Event::Message { from: f, to: t, .. }) => {
                from == *f && to == *t
            }
            (
                EventKind::Fates { host },
                Event::Sent { host: h, .. } | Event::Lost { host: h, .. },
            ) => { host == *h }
            (EventKind::Ends, Event::Seen(_)) | (EventKind::Begins, Event::Slot { .. }) => true,
            _ => false,
        }
    }
}

/// A place in a log.
#[derive(Clone, Copy)]
pub(crate) struct LogPlace {
    /// The number of an entry.
    pub(crate) entry: usize,
    /// How many events of a kind stand before the place, of those of the entry on.
    pub(crate) events: usize,
}

/// A search for the oldest event of a kind that no expectation has taken.
#[derive(Clone, Copy)]
pub(crate) struct Search {
    pub(crate) kind: EventKind,
    /// Whether there was one, which is taken.
    pub(crate) found: bool,
    /// Where the next search for the kind goes on.
    pub(crate) end: LogPlace,
}

/// Events that a search is for.
#[derive(Clone, Copy)]
pub(crate) enum EventsSought {
    /// Losses, of a message of this host where there is one.
    Losses(Option<u8>),
    /// Messages of all hosts.
    Messages,
}

/// How many numbers of hosts there are.
const HOSTS: usize = 256;

/// How many entries hold no event that a search is for and that isn't taken: no loss of any host's
/// messages, none of each host's, and no message.
#[derive(Clone, Copy)]
pub(crate) struct Cleared {
    losses: usize,
    hosts: [usize; HOSTS],
    messages: usize,
}

impl Cleared {
    /// So many entries hold none.
    pub(crate) fn of(entries: usize) -> Cleared
        ensures losses { result.losses ≡ entries }
        ensures hosts { result.hosts ≡ replicate 256 entries }
        ensures messages { result.messages ≡ entries }
    {
        Cleared {
            losses: entries,
            hosts: [entries; HOSTS],
            messages: entries,
        }
    }

    /// How many entries hold no event that a search is for.
    pub(crate) fn before(&self, sought: EventsSought) -> usize
        ensures { result ≡ cleared_count self.now sought }
    {
        match sought {
            EventsSought::Losses(Some(host)) => self.hosts[host as usize],
            EventsSought::Losses(None) => self.losses,
            EventsSought::Messages => self.messages,
        }
    }

    /// Keeps how many entries hold no event that a search is for.
    pub(crate) fn keep(&mut self, sought: EventsSought, entries: usize)
        ensures { KeepsCleared sought entries self.old self.new }
    {
        match sought {
            EventsSought::Losses(Some(host)) => self.hosts[host as usize] = entries,
            EventsSought::Losses(None) => self.losses = entries,
            EventsSought::Messages => self.messages = entries,
        }
    }
}

/// What expectations have taken.
#[derive(Drop)]
pub(crate) struct TakenEvents {
    /// All events of so many entries are taken.
    pub(crate) forgotten: usize,
    /// The searches since these, each behind them.
    pub(crate) searches: Vec<Search>,
    /// How many entries hold no event that a search is for and that isn't taken.
    pub(crate) cleared: Cleared,
}

impl TakenEvents {
    /// Returns that no event is taken.
    pub(crate) fn none(alloc: Global) -> TakenEvents
        ensures { (es : List Entry) → IsSearchState es result × (taken_by es result ≡ []) }
    {
        TakenEvents {
            forgotten: 0,
            searches: Vec::new(alloc),
            cleared: Cleared::of(0),
        }
    }

    /// Returns equal ones. An error means out of memory.
    pub(crate) fn copy(&self, alloc: Global) -> Result<TakenEvents, AllocError>
        ensures { IfOk result (λ copy. (es : List Entry)
            → (IsSearchState es self.now → IsSearchState es copy)
            × (taken_by es copy ≡ taken_by es self.now)) }
    {
        let mut searches = Vec::new(alloc);
        searches.extend_from_slice(self.searches.as_slice())?;
        Ok(TakenEvents {
            forgotten: self.forgotten,
            searches,
            cleared: self.cleared,
        })
    }
}

/// The events of an entry.
pub(crate) fn events_of(entry: &LogEntry) -> &[Event]
    ensures { result.now ≡ events entry.now }
{
    match &entry.reply {
        Reply::Done(events) => events.as_slice(),
        Reply::Refused(_) => &[],
    }
}

/// The event of a kind after so many others of it, and how many there are up to it; or how many of
/// the others are left to skip.
pub(crate) fn skipped(
    events: &[Event],
    kind: EventKind,
    skip: usize,
) -> Result<(&Event, usize), usize>
    ensures { Skips (λ e. e.now) events.now kind skip result }
{
    let mut left = skip;
    for event in events {
        if kind.has(event) {
            if left == 0 {
                return Ok((event, skip + 1));
            }
            left -= 1;
        }
    }
    Err(left)
}

/// The first event of a kind from a place on, and the place behind it: the end of the log where
/// there is none.
pub(crate) fn event_from(log: &Log, kind: EventKind, from: LogPlace) -> (Option<&Event>, LogPlace)
    requires within { from.entry ≤ length log.now.entries }
    requires reached { IsReached log.now.entries kind from }
    ensures { Finds log.now.entries kind from (option_map (λ e. e.now) result.0) result.1 }
{
    let mut skip = from.events;
    for index in from.entry..log.len() {
        match skipped(events_of(log.entry(index)), kind, skip) {
            Ok((event, events)) => {
                let end = LogPlace {
                    entry: index,
                    events,
                };
                return (Some(event), end);
            }
            Err(left) => skip = left,
        }
    }
    let end = LogPlace {
        entry: log.len(),
        events: skip,
    };
    (None, end)
}

/// The last search for a kind.
fn last_search(searches: &[Search], kind: EventKind) -> Option<&Search>
    ensures { option_map (λ s. s.now) result ≡ last_search kind searches.now }
{
    searches.iter().rev().find(|search| kind.is(search.kind))
}

/// Where it ended, or the end of what is forgotten.
pub(crate) fn last_end(taken: &TakenEvents, kind: EventKind) -> LogPlace
    ensures { result ≡ last_end kind taken.now }
{
    match last_search(taken.searches.as_slice(), kind) {
        Some(search) => search.end,
        None => LogPlace {
            entry: taken.forgotten,
            events: 0,
        },
    }
}

/// The place before an event that a search found, by the place behind it.
pub(crate) fn place_before(event: Option<&Event>, end: LogPlace) -> LogPlace
    ensures { result ≡ place_before (option_map (λ e. e.now) event.entry) end }
{
    match event {
        Some(_) => LogPlace {
            events: end.events.saturating_sub(1),
            ..end
        },
        None => end,
    }
}

/// The last event of a kind among events.
fn last_in(events: &[Event], kind: EventKind) -> Option<&Event>
    ensures { option_map (λ e. e.now) result ≡ find (is_of_kind kind) (reverse events.now) }
{
    events.iter().rev().find(|event| kind.has(event))
}

/// The last event of a kind in a log.
pub(crate) fn last_event(log: &Log, kind: EventKind) -> Option<&Event>
    ensures { option_map (λ e. e.now) result
        ≡ find (is_of_kind kind) (reverse (all_events (reverse log.now.entries))) }
{
    let mut left = log.len();
    while left > 0 {
        left -= 1;
        match last_in(events_of(log.entry(left)), kind) {
            Some(event) => return Some(event),
            None => {}
        }
    }
    None
}
