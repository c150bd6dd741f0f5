//! How far apart the slots of a frame are in schedule tables that run undisturbed.

ghost use Rattle.std.specs.Prelude.{◌≡◌, ◌+◌, ◌<◌, ◌≤◌, IfOk, IfSome, List, None, Some, ◌∷◌, MatchOption, length, max, min, ℕ};
ghost use Rattle.lin_parts.specs.Cluster.{table_of};
ghost use Rattle.lin_parts.specs.Rules.{IsEntry};
ghost use Rattle.lin_parts.specs.declared.parts.Entry.TheVariants.{Event};
ghost use Rattle.lin_parts.specs.declared.parts.Line.{Line};
ghost use Rattle.lin_parts.specs.declared.parts.Parts.{Parts};
ghost use Rattle.lin_schedule.specs.Rounds.{back_from};
ghost use Rattle.lin_schedule.specs.Spacing.{AreBrief, AreGaps, AreInside, AreStretches, HasItsOwn, HasNoOwn, HasStretches, IsOwnSlot};
ghost use Rattle.lin_schedule.specs.Spacing.{IsBrief, IsStretch, IsStretchOf, one, own_added};
ghost use Rattle.lin_schedule.specs.Spacing.{gaps_after, gaps_before, gaps_by, least_of, most_of, next_by};
ghost use Rattle.lin_schedule.specs.Spacing.{pair, spread, with_gap};

use crate::awaited::can_collide;
use crate::occurs::is_own;
use lin_parts::{Cluster, Entry, Line};
use std::alloc::{AllocError, Global};

/// The shortest and the longest of some times in microseconds.
#[derive(Clone, Copy, Debug, PartialEq, Eq)]
pub struct Extremes {
    pub shortest: u64,
    pub longest: u64,
}

/// The shortest and the longest time from the start of a slot of a frame's own to that of the next
/// one, over all walks through a table; `None` where it has no entry of its own (ISO 17987-3,
/// schedule tables).
///
/// # Errors
/// Out of memory.
pub fn gaps(
    alloc: Global,
    cluster: &Cluster,
    table: u16,
    frame: u16,
) -> Result<Option<Extremes>, AllocError>
    requires { table < length cluster.now.tables }
    ensures { IfOk result (λ gaps. MatchOption gaps (HasNoOwn cluster.now table frame)
        (λ times. AreGaps cluster.now table frame times.shortest times.longest)) }
{
    cluster.sound();
    match first_own(cluster, table, frame) {
        Some(own) => {
            let stretches = stretches(alloc, cluster, frame)?;
            Ok(gaps_from(cluster, table, frame, own, stretches.as_slice()))
        }
        None => Ok(None),
    }
}

// The first main slot of the frame's own.
fn first_own(cluster: &Cluster, table: u16, frame: u16) -> Option<u16>
    requires { table < length cluster.now.tables }
    ensures { MatchOption result (HasNoOwn cluster.now table frame)
        (λ own. IsOwnSlot cluster.now table frame own) }
{
    for slot in 0..cluster.entries(table) as u16 {
        if is_own(cluster.line_at(table, slot).entry, frame) {
            return Some(slot);
        }
    }
    None
}

// The gaps of the walks from a main slot of the frame's own to the same one of the next round.
fn gaps_from(
    cluster: &Cluster,
    table: u16,
    frame: u16,
    own: u16,
    stretches: &[Option<Stretch>],
) -> Option<Extremes>
    requires table { table < length cluster.now.tables }
    requires own { own < length (table_of cluster.now table) }
    requires brief { AreBrief stretches.now }
    ensures { AreStretches cluster.now frame stretches.now
        → result ≡ gaps_after cluster.now table frame own (length (table_of cluster.now table)) }
{
    let slots = cluster.entries(table) as u16;
    let mut walked = Walked::at_own();
    for back in 0..slots {
        let slot = slot_before(slots, own, back);
        walked.add_main(cluster.line_at(table, slot), frame, stretches);
    }
    walked.gaps
}

// The main slot that is so many slots and one before the slot `own`.
fn slot_before(slots: u16, own: u16, back: u16) -> u16
    requires few { slots ≤ 1024 }
    requires own { own < slots }
    requires back { back < slots }
    ensures value { result ≡ back_from slots own (back + 1) }
    ensures slot { result < slots }
{
    if back < own {
        own - 1 - back
    } else {
        own + slots - 1 - back
    }
}

// What is kept of the slots of a resolving table: the time of all of them, and its own ones, if the
// frame has some there.
#[derive(Clone, Copy)]
struct Stretch {
    total: u64,
    own: Option<OwnSlots>,
}

// The times before the start of the first own slot, and from the start of the last one on, and those
// between the starts of two that follow each other.
#[derive(Clone, Copy)]
struct OwnSlots {
    before: u64,
    after: u64,
    gaps: Option<Extremes>,
}

impl Stretch {
    // The slots of a table.
    fn of(cluster: &Cluster, table: u16, frame: u16) -> Stretch
        requires { table < length cluster.now.tables }
        ensures is { IsStretch frame (table_of cluster.now table) result.total result.own }
        ensures brief { IsBrief result }
    {
        let mut stretch = Stretch {
            total: 0,
            own: None,
        };
        for entry in (0..cluster.entries(table) as u16).rev() {
            let line = cluster.line_at(table, entry);
            stretch.add(line.delay_us, is_own(line.entry, frame));
        }
        stretch
    }

    // One more slot, in front of the others.
    fn add(&mut self, delay_us: u32, is_own: bool)
        requires delay { delay_us ≤ 1000000000 }
        requires total { self.old.total ≤ 1024000000000 }
        requires own { HasItsOwn self.old }
        ensures total { self.new.total ≡ self.old.total + delay_us }
        ensures slots { self.new.own ≡ own_added self.old.own self.old.total delay_us is_own }
        ensures own { HasItsOwn self.new }
    {
        let delay = u64::from(delay_us);
        self.own = own_added(self.own, self.total, delay, is_own);
        self.total += delay;
    }
}

// The own slots with one more slot in front of slots that last so long.
fn own_added(own: Option<OwnSlots>, total: u64, delay: u64, is_own: bool) -> Option<OwnSlots>
    requires delay { delay ≤ 1000000000 }
    requires total { total ≤ 1024000000000 }
    requires own { IfSome own (AreInside total) }
    ensures slots { result ≡ own_added own total delay is_own }
    ensures own { IfSome result (AreInside (total + delay)) }
{
    match own {
        Some(own) if is_own => Some(OwnSlots {
            before: 0,
            gaps: with_gap(own.gaps, at(own.before + delay)),
            ..own
        }),
        Some(own) => Some(OwnSlots {
            before: own.before + delay,
            ..own
        }),
        None if is_own => Some(OwnSlots {
            before: 0,
            after: total + delay,
            gaps: None,
        }),
        None => None,
    }
}

// The slots of the resolving table of each event-triggered frame, or none where its answers can't
// collide.
fn stretches(
    alloc: Global,
    cluster: &Cluster,
    frame: u16,
) -> Result<Vec<Option<Stretch>>, AllocError>
    ensures each { IfOk result (λ stretches. AreStretches cluster.now frame stretches.items) }
    ensures brief { IfOk result (λ stretches. AreBrief stretches.items) }
{
    cluster.sound();
    let mut all = Vec::new(alloc);
    for event in 0..cluster.events() as u16 {
        all.push(stretch_in(cluster, event, frame))?;
    }
    Ok(all)
}

// The slots of the resolving table of an event-triggered frame.
fn stretch_in(cluster: &Cluster, event: u16, frame: u16) -> Option<Stretch>
    requires { event < length cluster.now.events }
    ensures is { IsStretchOf cluster.now frame (Event event) result }
    ensures brief { IfSome result IsBrief }
{
    cluster.sound();
    if can_collide(cluster, Entry::Event(event)) {
        Some(Stretch::of(cluster, cluster.event_table(event), frame))
    } else {
        None
    }
}

// The slots that may follow the slot of an entry.
fn stretch_of(stretches: &[Option<Stretch>], entry: Entry) -> Option<Stretch>
    requires { AreBrief stretches.now }
    ensures is { (c : Parts) (f : ℕ) → AreStretches c f stretches.now → IsEntry c entry
        → IsStretchOf c f entry result }
    ensures brief { IfSome result IsBrief }
{
    match entry {
        Entry::Event(event) => match stretches.get(event as usize) {
            Some(stretch) => *stretch,
            None => None,
        },
        _ => None,
    }
}

// The times from the start of a slot to that of the next slot of the frame's own, and those between
// its slots from there on.
#[derive(Clone, Copy)]
struct Walked {
    next: Extremes,
    gaps: Option<Extremes>,
}

impl Walked {
    // At a slot of the frame's own.
    fn at_own() -> Walked
        ensures shortest { result.next.shortest ≡ 0 }
        ensures longest { result.next.longest ≡ 0 }
        ensures gaps { result.gaps ≡ None }
    {
        Walked {
            next: at(0),
            gaps: None,
        }
    }

    // One more main slot before, and the resolving table that it may start.
    fn add_main(&mut self, line: Line, frame: u16, stretches: &[Option<Stretch>])
        requires delay { line.delay_us ≤ 1000000000 }
        requires shortest { self.old.next.shortest ≤ 2000000000000000 }
        requires longest { self.old.next.longest ≤ 2000000000000000 }
        requires brief { AreBrief stretches.now }
        ensures shortest { self.new.next.shortest ≤ self.old.next.shortest + 1025000000000 }
        ensures longest { self.new.next.longest ≤ self.old.next.longest + 1025000000000 }
        ensures least { (c : Parts) → HasStretches c frame stretches.now line.entry
            → self.new.next.shortest ≡ least_of c frame line self.old.next.shortest }
        ensures most { (c : Parts) → HasStretches c frame stretches.now line.entry
            → self.new.next.longest ≡ most_of c frame line self.old.next.longest }
        ensures gaps { (c : Parts) → HasStretches c frame stretches.now line.entry
            → self.new.gaps ≡ gaps_before c frame line self.old }
    {
        if is_own(line.entry, frame) {
            self.add_own(line.delay_us);
            return;
        }
        if let Some(stretch) = stretch_of(stretches, line.entry) {
            self.add_round(stretch);
        }
        self.next = later(self.next, u64::from(line.delay_us));
    }

    // A main slot of the frame's own before.
    fn add_own(&mut self, delay_us: u32)
        requires delay { delay_us ≤ 1000000000 }
        requires shortest { self.old.next.shortest ≤ 2000000000000000 }
        requires longest { self.old.next.longest ≤ 2000000000000000 }
        ensures next { self.new.next ≡ one 0 }
        ensures gaps { self.new.gaps ≡ with_gap self.old.gaps
            (pair (delay_us + self.old.next.shortest) (delay_us + self.old.next.longest)) }
    {
        let gap = later(self.next, u64::from(delay_us));
        self.gaps = with_gap(self.gaps, gap);
        self.next = at(0);
    }

    // The slots of a resolving table before, or none.
    fn add_round(&mut self, stretch: Stretch)
        requires shortest { self.old.next.shortest ≤ 2000000000000000 }
        requires longest { self.old.next.longest ≤ 2000000000000000 }
        requires brief { IsBrief stretch }
        ensures shortest { self.new.next.shortest
            ≡ min self.old.next.shortest (next_by stretch.total stretch.own self.old.next.shortest) }
        ensures longest { self.new.next.longest
            ≡ max self.old.next.longest (next_by stretch.total stretch.own self.old.next.longest) }
        ensures gaps { self.new.gaps ≡ spread self.old.gaps
            (gaps_by stretch.own self.old.next.shortest) (gaps_by stretch.own self.old.next.longest) }
    {
        let next = self.next;
        match stretch.own {
            Some(own) => {
                self.gaps = with_own(self.gaps, own, next);
                self.next = both(next, at(own.before));
            }
            None => self.next = both(next, later(next, stretch.total)),
        }
    }
}

// Gaps with those of a resolving table too, where so much is between its end and the next own slot.
fn with_own(gaps: Option<Extremes>, own: OwnSlots, next: Extremes) -> Option<Extremes>
    requires after { own.after ≤ 1024000000000 }
    requires shortest { next.shortest ≤ 2000000000000000 }
    requires longest { next.longest ≤ 2000000000000000 }
    ensures { result ≡ spread gaps (gaps_by (Some own) next.shortest) (gaps_by (Some own) next.longest) }
{
    let last = later(next, own.after);
    let with_last = with_gap(gaps, last);
    match own.gaps {
        Some(inside) => with_gap(with_last, inside),
        None => with_last,
    }
}

// One time.
fn at(time: u64) -> Extremes
    ensures { result ≡ one time }
{
    Extremes {
        shortest: time,
        longest: time,
    }
}

// Times that are so much longer.
fn later(times: Extremes, by: u64) -> Extremes
    requires shortest { times.shortest ≤ 3100000000000000 }
    requires longest { times.longest ≤ 3100000000000000 }
    requires by { by ≤ 1024000000000 }
    ensures { result ≡ pair (by + times.shortest) (by + times.longest) }
{
    Extremes {
        shortest: by + times.shortest,
        longest: by + times.longest,
    }
}

fn both(a: Extremes, b: Extremes) -> Extremes
    ensures { result ≡ pair (min a.shortest b.shortest) (max a.longest b.longest) }
{
    Extremes {
        shortest: a.shortest.min(b.shortest),
        longest: a.longest.max(b.longest),
    }
}

// Gaps with these times too.
fn with_gap(gaps: Option<Extremes>, times: Extremes) -> Option<Extremes>
    ensures { result ≡ with_gap gaps times }
{
    match gaps {
        Some(gaps) => Some(both(gaps, times)),
        None => Some(times),
    }
}
