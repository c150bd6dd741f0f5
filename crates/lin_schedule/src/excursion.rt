//! What is kept of the table that resolves the collisions of an event-triggered frame.

ghost use Rattle.std.specs.Prelude.{◌≡◌, ◌+◌, ◌*◌, ◌<◌, ◌≤◌, max, ℕ, All, IfOk, IfSome, OnOk};
ghost use Rattle.std.specs.Prelude.{length};
ghost use Rattle.std.specs.Option.{option_copied};
ghost use Rattle.lin_parts.specs.Cluster.{table_of};
ghost use Rattle.lin_parts.specs.Rules.{IsEntry};
ghost use Rattle.lin_parts.specs.declared.parts.Parts.{Parts};
ghost use Rattle.lin_schedule.specs.Carriers.{Carriers};
ghost use Rattle.lin_schedule.specs.Excursions.{AddsLine, AreExcursions, HaveSmallSums, HasSmallSums};
ghost use Rattle.lin_schedule.specs.Excursions.{IsExcursionOf, IsSummary};
ghost use Rattle.lin_parts.specs.declared.parts.Entry.TheVariants.{Event};
ghost use Rattle.lin_schedule.specs.Excursions.{through_by, longest_open, within_from};
ghost use Rattle.lin_schedule.specs.Rounds.{HasRows, after_by};

use crate::after::After;
use crate::awaited::{Awaited, can_collide};
use lin_parts::{Cluster, Entry};
use std::alloc::{AllocError, Global};

/// The times of an excursion, of which some slots carry what is waited for. Of these, the last one
/// first, `ends` has the times from their ends to the excursion's end, and `starts` those from their
/// starts; `within` is the longest wait from one to the last of so many later ones as are waited
/// for. All times are in microseconds.
#[derive(Drop)]
pub(crate) struct Excursion {
    pub(crate) total: u64,
    pub(crate) ends: Vec<u64>,
    pub(crate) starts: Vec<u64>,
    pub(crate) within: u64,
}

impl Excursion {
    // The times of a resolving table.
    fn new(
        alloc: Global,
        cluster: &Cluster,
        table: u16,
        awaited: &Awaited,
        count: usize,
    ) -> Result<Excursion, AllocError>
        requires table { table < length cluster.now.tables }
        requires some { 1 ≤ count }
        ensures { IfOk result (λ x. IsSummary awaited.now (table_of cluster.now table) count x) }
    {
        let mut excursion = Excursion {
            total: 0,
            ends: Vec::new(alloc),
            starts: Vec::new(alloc),
            within: 0,
        };
        for entry in (0..cluster.entries(table) as u16).rev() {
            let line = cluster.line_at(table, entry);
            excursion.add(line.delay_us, awaited.carries(line.entry), count)?;
        }
        Ok(excursion)
    }

    // One more slot, in front of the others.
    fn add(&mut self, delay_us: u32, is_carrying: bool, count: usize) -> Result<(), AllocError>
        requires some { 1 ≤ count }
        requires delay { delay_us ≤ 1000000000 }
        requires total { self.old.total ≤ 1024000000000 }
        requires ends { All (λ time. time ≤ self.old.total) self.old.ends.items }
        ensures { OnOk result (AddsLine delay_us is_carrying count self.old self.new) }
    {
        let start = self.total + u64::from(delay_us);
        if is_carrying {
            self.within = self.within_from(start, count);
            self.ends.push(self.total)?;
            self.starts.push(start)?;
        }
        self.total = start;
        Ok(())
    }

    // The longest wait inside the excursion, where one more slot that carries it starts so long
    // before its end.
    fn within_from(&self, start: u64, count: usize) -> u64
        requires some { 1 ≤ count }
        requires start { self.now.total ≤ start }
        requires ends { All (λ time. time ≤ self.now.total) self.now.ends.items }
        ensures { result ≡ within_from self.now.within start self.now.ends.items count }
    {
        let later = self.ends.len();
        if count <= later {
            self.within.max(start - self.ends[later - count])
        } else {
            self.within
        }
    }

    /// The time from the excursion's start to the end of the slot that is the last of so many that
    /// carry it.
    pub(crate) fn through(&self, wanted: usize, after: &After) -> u64
        requires some { 1 ≤ wanted }
        requires few { wanted ≤ 1024 }
        requires short { HasSmallSums self.now }
        requires rows { HasRows after.now }
        ensures value { result ≡ through_by self.now.total self.now.ends.items wanted (after_by after.now) }
        ensures short { result ≤ 1024000000000 + length after.now.times.now * 1025000000000 }
    {
        let carrying = self.ends.len();
        if wanted <= carrying {
            self.total - self.ends[carrying - wanted]
        } else {
            self.total + after.of(wanted - carrying)
        }
    }

    /// The longest time from the start of a slot that carries it to the end of the last of so many
    /// later ones.
    pub(crate) fn longest(&self, wanted: usize, after: &After) -> u64
        requires few { wanted ≤ 1024 }
        requires short { HasSmallSums self.now }
        requires rows { HasRows after.now }
        ensures { result ≡ max self.now.within (longest_open self.now.starts.items wanted (after_by after.now)) }
    {
        let mut longest = self.within;
        for open in 0..self.starts.len().min(wanted) {
            longest = longest.max(self.starts[open] + after.of(wanted - open));
        }
        longest
    }
}

/// The excursion of each event-triggered frame, or none where its answers can't collide.
///
/// # Errors
/// Out of memory.
pub(crate) fn excursions(
    alloc: Global,
    cluster: &Cluster,
    awaited: &Awaited,
    count: usize,
) -> Result<Vec<Option<Excursion>>, AllocError>
    requires some { 1 ≤ count }
    ensures each { IfOk result (λ xs. AreExcursions cluster.now awaited.now count xs.items) }
    ensures short { IfOk result (λ xs. HaveSmallSums xs.items) }
{
    cluster.sound();
    let mut all = Vec::new(alloc);
    for event in 0..cluster.events() as u16 {
        all.push(excursion_in(alloc, cluster, event, awaited, count)?)?;
    }
    Ok(all)
}

// The excursion of an event-triggered frame.
fn excursion_in(
    alloc: Global,
    cluster: &Cluster,
    event: u16,
    awaited: &Awaited,
    count: usize,
) -> Result<Option<Excursion>, AllocError>
    requires some { 1 ≤ count }
    requires there { event < length cluster.now.events }
    ensures is { IfOk result (λ x. IsExcursionOf cluster.now awaited.now count (Event event) x) }
    ensures short { IfOk result (λ x. IfSome x HasSmallSums) }
{
    cluster.sound();
    if can_collide(cluster, Entry::Event(event)) {
        let table = cluster.event_table(event);
        Ok(Some(Excursion::new(alloc, cluster, table, awaited, count)?))
    } else {
        Ok(None)
    }
}

/// The excursion that the slot of an entry may begin.
pub(crate) fn excursion_of<'a>(
    excursions: &'a [Option<Excursion>],
    entry: Entry,
) -> Option<&'a Excursion>
    requires { HaveSmallSums excursions.now }
    ensures is { (c : Parts) (k : Carriers) (n : ℕ) → AreExcursions c k n excursions.now
        → IsEntry c entry → IsExcursionOf c k n entry (option_copied result) }
    ensures short { IfSome result (λ x. HasSmallSums x.now) }
{
    match entry {
        Entry::Event(event) => match excursions.get(event as usize) {
            Some(excursion) => excursion.as_ref(),
            None => None,
        },
        _ => None,
    }
}
