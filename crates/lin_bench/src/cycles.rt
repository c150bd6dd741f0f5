//! How far apart slots with a frame began.

ghost use Rattle.std.specs.Prelude.{◌≡◌, ◌≤◌, ◌++◌, ◌∷◌, [], IfOk, IfSome, List, ℕ, length, true};
ghost use Rattle.std.specs.List.{list_any};
ghost use Rattle.std.specs.Option.{option_or};
ghost use Rattle.lin_parts.specs.declared.parts.Parts.{Parts};
ghost use Rattle.lin_core.specs.Core.{past_of};
ghost use Rattle.lin_core.specs.History.{events};
ghost use Rattle.lin_core.specs.declared.log.LogEntry.{LogEntry as Entry};
ghost use Rattle.lin_bench.specs.Carried.{KeepsOpenSlot};
ghost use Rattle.lin_bench.specs.Searches.{IsSearchState, taken_by};
ghost use Rattle.lin_bench.specs.Verdicts.{begins_with, carries, cycle_verdict, distances, ended_delay};
ghost use Rattle.lin_bench.specs.Verdicts.{is_good, is_near};
ghost use Rattle.lin_bench.specs.Watches.{AreBegins, IsCycleState, first_other};

use crate::carried::{OpenSlot, carried, follow};
use crate::conditions::same_frame;
use crate::got::Got;
use crate::left_events::{count_before, count_of};
use crate::taken::{EventKind, LogPlace, TakenEvents, events_of, last_end};
use lin_core::{Core, Event, Log, LogEntry, Seen};
use lin_log::{Carried, finishes};
use lin_parts::Cluster;
use std::alloc::{AllocError, Global};

/// The cycle that is expected of a frame.
#[derive(Clone, Copy)]
pub(crate) struct FrameCycle {
    pub(crate) frame: Carried,
    /// The time from each slot to the next one, in microseconds.
    pub(crate) time_us: u32,
    /// How much longer or shorter it may be, in microseconds.
    pub(crate) within_us: u32,
}

impl FrameCycle {
    /// Whether it is this one.
    fn is(self, other: FrameCycle) -> bool
        ensures { result ≡ true → self ≡ other }
    {
        same_frame(self.frame, other.frame)
            && self.time_us == other.time_us
            && self.within_us == other.within_us
    }

    /// Whether the time from one slot to the next is as expected.
    fn is_near(self, distance: u64) -> bool
        ensures { result ≡ is_near self.time_us self.within_us distance }
    {
        u64::from(self.time_us.saturating_sub(self.within_us)) <= distance
            && distance <= u64::from(self.time_us) + u64::from(self.within_us)
    }

    /// The first distance that isn't as expected, after one more.
    fn first_other(self, other: Option<u64>, distance: u64) -> Option<u64>
        ensures { result ≡ option_or other (first_other self (distance ∷ [])) }
    {
        match other {
            Some(other) => Some(other),
            None => if self.is_near(distance) {
                None
            } else {
                Some(distance)
            },
        }
    }
}

/// When the slots of a cycle began.
#[derive(Clone, Copy)]
struct Begins {
    /// When the last one began, in microseconds, if there was one.
    last: Option<u64>,
    /// Whether there were two.
    are_two: bool,
    /// The first time from one to the next that isn't as expected.
    other: Option<u64>,
}

impl Begins {
    /// No slot began.
    fn none() -> Begins
        ensures { (cycle : FrameCycle) → AreBegins cycle [] result }
    {
        Begins {
            last: None,
            are_two: false,
            other: None,
        }
    }

    /// One more slot began at a time in microseconds.
    fn one_more(self, cycle: FrameCycle, time: u64) -> Begins
        ensures { (ts : List ℕ) → AreBegins cycle ts self → AreBegins cycle (ts ++ time ∷ []) result }
    {
        match self.last {
            None => Begins {
                last: Some(time),
                are_two: false,
                other: self.other,
            },
            Some(last) => Begins {
                last: Some(time),
                are_two: true,
                other: cycle.first_other(self.other, time.saturating_sub(last)),
            },
        }
    }

    /// The verdict on the cycle.
    fn verdict(self) -> Option<Got>
        ensures { (cycle : FrameCycle) → (ts : List ℕ) → AreBegins cycle ts self
            → result ≡ cycle_verdict cycle.time_us cycle.within_us (distances ts) }
    {
        if !self.are_two {
            return Some(Got::NoEvent);
        }
        match self.other {
            Some(distance) => Some(Got::Took(distance)),
            None => None,
        }
    }
}

/// What the first entries of a log tell of a cycle.
#[derive(Drop)]
pub(crate) struct CycleState {
    cycle: FrameCycle,
    /// Slots count that ended after this place.
    from: LogPlace,
    /// How many entries these are.
    entries: usize,
    /// How many of the next slots that end don't count.
    skip: u128,
    /// The slot that is open after the entries.
    slot: Option<OpenSlot>,
    /// The time after the entries, in microseconds.
    time: u64,
    begins: Begins,
}

/// Whether an event tells that a slot was seen good.
fn is_good(event: &Event) -> bool
    ensures { result ≡ is_good event.now }
{
    match event {
        Event::Seen(Seen::Good(_)) => true,
        _ => false,
    }
}

/// Whether an entry tells that a slot was seen good.
fn tells_good(entry: &LogEntry) -> bool
    ensures { result ≡ list_any is_good (events entry.now) }
{
    events_of(entry).iter().any(|event| is_good(event))
}

/// Whether an entry ends a slot that was seen good with a frame.
fn carries(cluster: &Cluster, frame: Carried, entry: &LogEntry, slot: &Option<OpenSlot>) -> bool
    ensures { (past : List Entry) → KeepsOpenSlot slot.now past
        → result ≡ carries cluster.now frame entry.now past }
{
    if !finishes(entry) || !tells_good(entry) {
        return false;
    }
    match slot {
        Some(slot) => match carried(cluster, slot) {
            Some(other) => same_frame(other, frame),
            None => false,
        },
        None => false,
    }
}

/// The delay in microseconds of the slot that an entry ends; 0 if it ends none.
fn ended_delay(cluster: &Cluster, entry: &LogEntry, slot: &Option<OpenSlot>) -> u64
    ensures delay { (past : List Entry) → KeepsOpenSlot slot.now past
        → result ≡ ended_delay cluster.now entry.now past }
    ensures few { result ≤ 1000000000 }
{
    if !finishes(entry) {
        return 0;
    }
    match slot {
        Some(slot) => u64::from(cluster.line_at(slot.table, slot.entry).delay_us),
        None => 0,
    }
}

impl CycleState {
    /// No entry is read.
    fn new(log: &Log, cycle: FrameCycle, from: LogPlace) -> CycleState
        requires { from.entry ≤ length log.now.entries }
        ensures state { (c : Parts) → IsCycleState c log.now.entries result }
        ensures cycle { result.cycle ≡ cycle }
        ensures from { result.from ≡ from }
    {
        CycleState {
            cycle,
            from,
            entries: 0,
            skip: count_before(log, EventKind::Ends, from),
            slot: None,
            time: 0,
            begins: Begins::none(),
        }
    }

    /// Whether it is of a cycle, and of the slots that ended after a place.
    fn is_of(&self, cycle: FrameCycle, from: LogPlace) -> bool
        ensures cycle { result ≡ true → self.now.cycle ≡ cycle }
        ensures from { result ≡ true → self.now.from ≡ from }
    {
        self.cycle.is(cycle) && self.from.entry == from.entry && self.from.events == from.events
    }

    /// Reads the other entries of the log. An error means out of memory.
    fn read(self, alloc: Global, cluster: &Cluster, log: &Log) -> Result<CycleState, AllocError>
        requires { IsCycleState cluster.now log.now.entries self }
        ensures state { IfOk result (λ s. IsCycleState cluster.now log.now.entries s) }
        ensures entries { IfOk result (λ s. s.entries ≡ length log.now.entries) }
        ensures cycle { IfOk result (λ s. s.cycle ≡ self.cycle) }
        ensures from { IfOk result (λ s. s.from ≡ self.from) }
    {
        let CycleState {
            cycle,
            from,
            entries,
            mut skip,
            mut slot,
            mut time,
            mut begins,
        } = self;
        for index in entries..log.len() {
            let entry = log.entry(index);
            if skip == 0 && carries(cluster, cycle.frame, entry, &slot) {
                begins = begins.one_more(cycle, time);
            }
            skip = skip.saturating_sub(count_of(events_of(entry), EventKind::Ends) as u128);
            time += ended_delay(cluster, entry, &slot);
            slot = follow(alloc, slot, entry)?;
        }
        Ok(CycleState {
            cycle,
            from,
            entries: log.len(),
            skip,
            slot,
            time,
            begins,
        })
    }
}

/// The kept state of a cycle; that before the first entry if another one is kept.
fn state_kept(kept: Option<CycleState>, log: &Log, cycle: FrameCycle, from: LogPlace) -> CycleState
    requires { from.entry ≤ length log.now.entries }
    ensures state { (c : Parts) → IfSome kept (IsCycleState c log.now.entries)
        → IsCycleState c log.now.entries result }
    ensures cycle { result.cycle ≡ cycle }
    ensures from { result.from ≡ from }
{
    if let Some(state) = kept {
        if state.is_of(cycle, from) {
            return state;
        }
    }
    CycleState::new(log, cycle, from)
}

/// Whether a frame has a cycle. The next check of the cycle continues at the end of the log.
pub(crate) fn cycle(
    alloc: Global,
    core: &Core,
    taken: &TakenEvents,
    kept: &mut Option<CycleState>,
    cycle: FrameCycle,
) -> Result<Option<Got>, AllocError>
    requires known { IsSearchState core.now.log taken.now }
    requires kept { IfSome kept.old (IsCycleState core.now.cluster core.now.log) }
    ensures verdict { IfOk result
        (λ v. v ≡ cycle_verdict cycle.time_us cycle.within_us (distances (begins_with
        core.now.cluster cycle.frame (taken_by core.now.log taken.now) (past_of core.now)))) }
    ensures kept { IfSome kept.new (IsCycleState core.now.cluster core.now.log) }
{
    let log = core.log();
    let from = last_end(taken, EventKind::Ends);
    let before = state_kept(kept.take(), log, cycle, from);
    let state = before.read(alloc, core.cluster(), log)?;
    let verdict = state.begins.verdict();
    *kept = Some(state);
    Ok(verdict)
}
