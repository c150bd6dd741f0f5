//! Events that no expectation has taken.

ghost use Rattle.std.specs.Prelude.{◌≡◌, ◌≤◌, ◌+◌, IfSome, List, count_by, flat_map, length, option_map, reverse, take, true};
ghost use Rattle.lin_core.specs.History.{events};
ghost use Rattle.lin_core.specs.declared.log.LogEntry.{LogEntry as Entry};
ghost use Rattle.lin_bench.specs.LeftEvents.{TellsFirst, TellsIfLeft, TellsIfSo, first_left};
ghost use Rattle.lin_bench.specs.Searches.{AreClear, IsSearchState, before, is_sought, taken_by};
ghost use Rattle.lin_bench.specs.Verdicts.{first_loss, first_message, is_host, is_loss_left};
ghost use Rattle.lin_bench.specs.Verdicts.{is_message_left, is_of_kind, left_count};
ghost use Rattle.lin_bench.specs.Watches.{IsEventCount};

use crate::taken::{EventKind, EventsSought, LogPlace, TakenEvents, events_of, last_end};
use lin_core::{Event, Log};

/// How many events of a kind some entries of a log have.
#[derive(Clone, Copy)]
pub(crate) struct EventCount {
    kind: EventKind,
    /// The first of these entries.
    first: usize,
    /// The entry after the last of them.
    end: usize,
    count: u128,
}

/// How many events of a kind there are.
pub(crate) fn count_of(told: &[Event], kind: EventKind) -> usize
    ensures { result ≡ count_by (is_of_kind kind) told.now }
{
    told.iter().filter(|event| kind.has(event)).count()
}

impl EventCount {
    /// Whether it is of a kind, and of the entries from one on.
    fn is_of(self, kind: EventKind, first: usize) -> bool
        ensures kind { result ≡ true → self.kind ≡ kind }
        ensures first { result ≡ true → self.first ≡ first }
    {
        self.kind.is(kind) && self.first == first
    }
}

/// The kept count of events of a kind from an entry on; that of no entries if another one is kept.
fn count_kept(kept: Option<EventCount>, kind: EventKind, first: usize) -> EventCount
    ensures count { (es : List Entry) → first ≤ length es → IfSome kept (IsEventCount es)
        → IsEventCount es result }
    ensures kind { result.kind ≡ kind }
    ensures first { result.first ≡ first }
{
    if let Some(count) = kept {
        if count.is_of(kind, first) {
            return count;
        }
    }
    EventCount {
        kind,
        first,
        end: first,
        count: 0,
    }
}

/// How many events of a kind the entries of a log from one on have. The next count continues at the
/// end of the log.
fn count_from(log: &Log, kept: &mut Option<EventCount>, kind: EventKind, first: usize) -> u128
    requires within { first ≤ length log.now.entries }
    requires kept { IfSome kept.old (IsEventCount log.now.entries) }
    ensures count { count_by (is_of_kind kind) (flat_map events (take first log.now.entries)) + result
        ≡ count_by (is_of_kind kind) (flat_map events log.now.entries) }
    ensures kept { IfSome kept.new (IsEventCount log.now.entries) }
{
    let so_far = count_kept(*kept, kind, first);
    let mut count = so_far.count;
    for index in so_far.end..log.len() {
        count += count_of(events_of(log.entry(index)), kind) as u128;
    }
    *kept = Some(EventCount {
        kind,
        first,
        end: log.len(),
        count,
    });
    count
}

/// How many events of a kind stand before a place.
pub(crate) fn count_before(log: &Log, kind: EventKind, place: LogPlace) -> u128
    requires { place.entry ≤ length log.now.entries }
    ensures { result ≡ before log.now.entries kind place }
{
    let mut count = place.events as u128;
    for index in 0..place.entry {
        count += count_of(events_of(log.entry(index)), kind) as u128;
    }
    count
}

/// How many events of a kind no expectation has taken.
pub(crate) fn count_left(
    log: &Log,
    taken: &TakenEvents,
    kept: &mut Option<EventCount>,
    kind: EventKind,
) -> u128
    requires known { IsSearchState log.now.entries taken.now }
    requires kept { IfSome kept.old (IsEventCount log.now.entries) }
    ensures count { result
        ≡ left_count (reverse log.now.entries) (taken_by log.now.entries taken.now) kind }
    ensures kept { IfSome kept.new (IsEventCount log.now.entries) }
{
    let end = last_end(taken, kind);
    count_from(log, kept, kind, end.entry) - end.events as u128
}

/// Whether an event of a kind isn't taken, by its entry and the events before it there.
fn is_left(taken: &TakenEvents, kind: EventKind, entry: usize, before: &[Event]) -> bool
    ensures { TellsIfLeft taken.now kind entry before.now result }
{
    let end = last_end(taken, kind);
    if entry == end.entry {
        return end.events <= count_of(before, kind);
    }
    entry > end.entry
}

fn is_host(which: Option<u8>, host: u8) -> bool
    ensures { result ≡ is_host which host }
{
    match which {
        Some(h) => h == host,
        None => true,
    }
}

/// Whether an event is a loss, of a message of this host where there is one, that isn't taken.
fn is_loss_left(
    taken: &TakenEvents,
    which: Option<u8>,
    entry: usize,
    before: &[Event],
    event: &Event,
) -> bool
    ensures { TellsIfSo (is_loss_left which) taken.now entry before.now event.now result }
{
    match event {
        Event::Lost { host, .. } => {
            let kind = EventKind::Fates { host: *host };
            is_host(which, *host) && is_left(taken, kind, entry, before)
        }
        _ => false,
    }
}

/// Whether an event is a message that isn't taken.
fn is_message_left(taken: &TakenEvents, entry: usize, before: &[Event], event: &Event) -> bool
    ensures { TellsIfSo is_message_left taken.now entry before.now event.now result }
{
    match event {
        Event::Message { from, to, .. } => {
            let kind = EventKind::Messages {
                from: *from,
                to: *to,
            };
            is_left(taken, kind, entry, before)
        }
        _ => false,
    }
}

/// Whether an event is one that a search is for, and isn't taken.
fn is_sought(
    taken: &TakenEvents,
    sought: EventsSought,
    entry: usize,
    before: &[Event],
    event: &Event,
) -> bool
    ensures { TellsIfSo (is_sought sought) taken.now entry before.now event.now result }
{
    match sought {
        EventsSought::Losses(which) => is_loss_left(taken, which, entry, before, event),
        EventsSought::Messages => is_message_left(taken, entry, before, event),
    }
}

/// The first among the events of an entry that a search is for, and that isn't taken.
pub(crate) fn first_in<'a>(
    taken: &TakenEvents,
    sought: EventsSought,
    entry: usize,
    told: &'a [Event],
) -> Option<&'a Event>
    ensures { TellsFirst (is_sought sought) taken.now entry told.now (option_map (λ e. e.now) result) }
{
    for index in 0..told.len() {
        if is_sought(taken, sought, entry, &told[..index], &told[index]) {
            return Some(&told[index]);
        }
    }
    None
}

/// The first event that a search is for and that isn't taken; and how many entries hold none.
fn find_left<'a>(
    log: &'a Log,
    taken: &TakenEvents,
    sought: EventsSought,
) -> (Option<&'a Event>, usize)
    requires { IsSearchState log.now.entries taken.now }
    ensures event { option_map (λ e. e.now) result.0
        ≡ first_left (reverse log.now.entries) (taken_by log.now.entries taken.now) sought }
    ensures clear { AreClear log.now.entries taken.now sought result.1 }
{
    for index in taken.cleared.before(sought)..log.len() {
        let told = events_of(log.entry(index));
        if let Some(event) = first_in(taken, sought, index, told) {
            return (Some(event), index);
        }
    }
    (None, log.len())
}

/// The first event that a search is for and that isn't taken. The next search for it begins there.
fn first_left<'a>(log: &'a Log, taken: &mut TakenEvents, sought: EventsSought) -> Option<&'a Event>
    requires { IsSearchState log.now.entries taken.old }
    ensures event { option_map (λ e. e.now) result
        ≡ first_left (reverse log.now.entries) (taken_by log.now.entries taken.old) sought }
    ensures taken { taken_by log.now.entries taken.new ≡ taken_by log.now.entries taken.old }
    ensures known { IsSearchState log.now.entries taken.new }
{
    let (event, clear) = find_left(log, taken, sought);
    taken.cleared.keep(sought, clear);
    event
}

/// The first loss, of a message of this host where there is one, that isn't taken.
pub(crate) fn first_loss<'a>(
    log: &'a Log,
    taken: &mut TakenEvents,
    which: Option<u8>,
) -> Option<&'a Event>
    requires { IsSearchState log.now.entries taken.old }
    ensures loss { option_map (λ e. e.now) result
        ≡ first_loss (reverse log.now.entries) (taken_by log.now.entries taken.old) which }
    ensures taken { taken_by log.now.entries taken.new ≡ taken_by log.now.entries taken.old }
    ensures known { IsSearchState log.now.entries taken.new }
{
    first_left(log, taken, EventsSought::Losses(which))
}

/// The oldest message of all that no expectation has taken.
pub(crate) fn first_message<'a>(log: &'a Log, taken: &mut TakenEvents) -> Option<&'a Event>
    requires { IsSearchState log.now.entries taken.old }
    ensures message { option_map (λ e. e.now) result
        ≡ first_message (reverse log.now.entries) (taken_by log.now.entries taken.old) }
    ensures taken { taken_by log.now.entries taken.new ≡ taken_by log.now.entries taken.old }
    ensures known { IsSearchState log.now.entries taken.new }
{
    first_left(log, taken, EventsSought::Messages)
}
