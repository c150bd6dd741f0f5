//! How long nodes wait in schedule tables that run undisturbed.

ghost use Rattle.std.specs.Prelude.{◌≡◌, ◌+◌, ◌*◌, ◌/◌, ◌<◌, ◌≤◌, ℕ, suc, List, IfOk};
ghost use Rattle.std.specs.Prelude.{length, slice_index, true};
ghost use Rattle.lin_parts.specs.Cluster.{table_of, line_of};
ghost use Rattle.lin_parts.specs.Rules.{IsCluster, IsEntry};
ghost use Rattle.lin_parts.specs.declared.parts.Parts.{Parts};
ghost use Rattle.lin_parts.specs.declared.parts.Line.{Line};
ghost use Rattle.lin_schedule.specs.Carriers.{Carriers};
ghost use Rattle.lin_schedule.specs.Ahead.{AreTimesAhead, ahead_of, longest_from, next_entry};
ghost use Rattle.lin_schedule.specs.Excursions.{AreExcursions, HasExcursions, HaveSmallSums};
ghost use Rattle.lin_schedule.specs.Rounds.{AreRows, HasRows, IsSureSlot, after_by, back_from, is_sure};
ghost use Rattle.lin_schedule.specs.Rounds.{longest_in, next_time, times_in};
ghost use Rattle.lin_schedule.specs.Walk.{IsWorst};

use crate::after::After;
use crate::awaited::Awaited;
use crate::excursion::{Excursion, excursion_of, excursions};
use lin_parts::{Cluster, Entry, Line};
use std::alloc::{AllocError, Global};

/// The longest time in microseconds from the start of the slot in which something is written or
/// sent, behind whose answer it may be, to the end of the last of `count` later slots that carry it;
/// `None` where some walk through the table waits for ever. Collisions are free in it, as long as
/// each due node answers and nothing else disturbs the table (ISO 17987-3, schedule tables).
///
/// # Errors
/// Out of memory.
pub fn worst_wait(
    alloc: Global,
    cluster: &Cluster,
    table: u16,
    awaited: &Awaited,
    count: u16,
) -> Result<Option<u64>, AllocError>
    requires table { table < length cluster.now.tables }
    requires some { 1 ≤ count }
    requires few { count ≤ 1024 }
    ensures { IfOk result (λ worst. IsWorst cluster.now table awaited.now count worst) }
{
    cluster.sound();
    let count = count as usize;
    let excursions = excursions(alloc, cluster, awaited, count)?;
    let excursions = excursions.as_slice();
    match sure_slot(cluster, table, awaited, excursions) {
        Some(slot) => {
            let last = MainSlot { table, slot };
            let times = times_ahead(alloc, cluster, last, awaited, excursions, count)?;
            let times = times.as_slice();
            Ok(Some(longest_wait(cluster, last, excursions, count, times)))
        }
        None => Ok(None),
    }
}

// A slot of a table that runs undisturbed, by the number of its entry.
#[derive(Clone, Copy)]
struct MainSlot {
    table: u16,
    slot: u16,
}

// The first main slot that no walk passes without a slot that carries it.
fn sure_slot(
    cluster: &Cluster,
    table: u16,
    awaited: &Awaited,
    excursions: &[Option<Excursion>],
) -> Option<u16>
    requires table { table < length cluster.now.tables }
    requires short { HaveSmallSums excursions.now }
    ensures { (n : ℕ) → AreExcursions cluster.now awaited.now n excursions.now
        → IsSureSlot cluster.now awaited.now table result }
{
    for slot in 0..cluster.entries(table) as u16 {
        if is_sure(awaited, excursions, cluster.line_at(table, slot).entry) {
            return Some(slot);
        }
    }
    None
}

fn is_sure(awaited: &Awaited, excursions: &[Option<Excursion>], entry: Entry) -> bool
    requires { HaveSmallSums excursions.now }
    ensures { (c : Parts) (n : ℕ) → AreExcursions c awaited.now n excursions.now → IsEntry c entry
        → result ≡ is_sure c awaited.now entry }
{
    awaited.carries(entry)
        && match excursion_of(excursions, entry) {
            Some(excursion) => !excursion.ends.is_empty(),
            None => true,
        }
}

// The times ahead of the main slots, in rows that go back from the slot `last`.
fn times_ahead(
    alloc: Global,
    cluster: &Cluster,
    last: MainSlot,
    awaited: &Awaited,
    excursions: &[Option<Excursion>],
    count: usize,
) -> Result<Vec<u64>, AllocError>
    requires table { last.table < length cluster.now.tables }
    requires short { HaveSmallSums excursions.now }
    requires last { last.slot < length (table_of cluster.now last.table) }
    requires few { count ≤ 1024 }
    requires excursions { AreExcursions cluster.now awaited.now count excursions.now }
    requires sure { is_sure cluster.now awaited.now (line_of cluster.now last.table last.slot).entry ≡ true }
    ensures times { IfOk result (λ times. AreTimesAhead cluster.now last.table awaited.now count
        (times_in (length (table_of cluster.now last.table)) last.slot times.items)) }
    ensures rows { IfOk result (λ times.
        AreRows times.items (length (table_of cluster.now last.table)) last.slot) }
    ensures done { IfOk result (λ times. (place : ℕ)
        → place < length (table_of cluster.now last.table) → slice_index times.items place ≡ 0) }
{
    let slots = cluster.entries(last.table);
    let mut times = vec![in alloc; 0u64; slots]?;
    for _made in 0..slots * count {
        let time = next_time(cluster, last, awaited, excursions, times.as_slice());
        times.push(time)?;
    }
    Ok(times)
}

// The place of a main slot in a row, and the main slot at a place.
fn back_from(slots: u16, last: u16, slot: u16) -> u16
    requires few { slots ≤ 1024 }
    requires last { last < slots }
    requires slot { slot < slots }
    ensures value { result ≡ back_from slots last slot }
    ensures place { result < slots }
{
    if slot <= last {
        last - slot
    } else {
        last + slots - slot
    }
}

// The times ahead of the slot after a main slot.
fn after<'a>(slots: u16, last: u16, slot: u16, times: &'a [u64]) -> After<'a>
    requires few { slots ≤ 1024 }
    requires last { last < slots }
    requires slot { slot < slots }
    ensures times { result.times.now ≡ times.now }
    ensures slots { result.slots ≡ slots }
    ensures place { (table : List Line) → length table ≡ slots
        → result.place ≡ back_from slots last (next_entry table slot) }
    ensures in_row { result.place < slots }
{
    let next = if slot + 1 < slots { slot + 1 } else { 0 };
    After {
        times,
        slots: slots as usize,
        place: back_from(slots, last, next) as usize,
    }
}

// The time that comes after these.
fn next_time(
    cluster: &Cluster,
    last: MainSlot,
    awaited: &Awaited,
    excursions: &[Option<Excursion>],
    times: &[u64],
) -> u64
    requires table { last.table < length cluster.now.tables }
    requires short { HaveSmallSums excursions.now }
    requires rows { AreRows times.now (length (table_of cluster.now last.table)) last.slot }
    requires first { length (table_of cluster.now last.table) ≤ length times.now }
    requires few { length times.now < 1025 * length (table_of cluster.now last.table) }
    requires done { (place : ℕ) → place < length (table_of cluster.now last.table)
        → slice_index times.now place ≡ 0 }
    ensures value { (n : ℕ) → AreExcursions cluster.now awaited.now n excursions.now
        → result ≡ next_time cluster.now awaited.now last.table last.slot times.now }
    ensures short { result ≤ suc (length times.now) * 1025000000000 }
{
    let slots = cluster.entries(last.table) as u16;
    let place = times.len() % slots as usize;
    let slot = back_from(slots, last.slot, place as u16);
    ahead_of(
        awaited,
        excursions,
        cluster.line_at(last.table, slot),
        times.len() / slots as usize,
        &after(slots, last.slot, slot, times),
    )
}

// The time ahead of a main slot.
fn ahead_of(
    awaited: &Awaited,
    excursions: &[Option<Excursion>],
    line: Line,
    wanted: usize,
    after: &After,
) -> u64
    requires short { HaveSmallSums excursions.now }
    requires delay { line.delay_us ≤ 1000000000 }
    requires some { 1 ≤ wanted }
    requires few { wanted ≤ 1024 }
    requires rows { HasRows after.now }
    requires done { slice_index after.now.times.now after.now.place ≡ 0 }
    ensures value { (c : Parts) (n : ℕ) → HasExcursions c awaited.now n excursions.now line.entry
        → result ≡ ahead_of c awaited.now line wanted (after_by after.now) }
    ensures short { result ≤ suc (length after.now.times.now) * 1025000000000 }
{
    let left = if awaited.carries(line.entry) {
        wanted - 1
    } else {
        wanted
    };
    let straight = after.of(left);
    let longer = match excursion_of(excursions, line.entry) {
        Some(excursion) => straight.max(excursion.through(wanted, after)),
        None => straight,
    };
    u64::from(line.delay_us) + longer
}

// The longest wait from a slot of the table.
fn longest_wait(
    cluster: &Cluster,
    last: MainSlot,
    excursions: &[Option<Excursion>],
    count: usize,
    times: &[u64],
) -> u64
    requires table { last.table < length cluster.now.tables }
    requires short { HaveSmallSums excursions.now }
    requires rows { AreRows times.now (length (table_of cluster.now last.table)) last.slot }
    requires some { 1 ≤ count }
    requires few { count ≤ 1024 }
    requires done { (place : ℕ) → place < length (table_of cluster.now last.table)
        → slice_index times.now place ≡ 0 }
    ensures { (k : Carriers) → AreExcursions cluster.now k count excursions.now
        → result ≡ longest_in cluster.now k last.table last.slot count times.now }
{
    let slots = cluster.entries(last.table) as u16;
    let mut longest: u64 = 0;
    for slot in 0..slots {
        let line = cluster.line_at(last.table, slot);
        let after = after(slots, last.slot, slot, times);
        longest = longest.max(longest_from(excursions, line, count, &after));
    }
    longest
}

// The longest wait from a main slot, or from a slot of the excursion that it begins.
fn longest_from(excursions: &[Option<Excursion>], line: Line, count: usize, after: &After) -> u64
    requires short { HaveSmallSums excursions.now }
    requires delay { line.delay_us ≤ 1000000000 }
    requires some { 1 ≤ count }
    requires few { count ≤ 1024 }
    requires rows { HasRows after.now }
    requires done { slice_index after.now.times.now after.now.place ≡ 0 }
    ensures { (c : Parts) (k : Carriers) → HasExcursions c k count excursions.now line.entry
        → result ≡ longest_from c k line count (after_by after.now) }
{
    let straight = after.of(count);
    let delay = u64::from(line.delay_us);
    match excursion_of(excursions, line.entry) {
        Some(excursion) => {
            let main = delay + straight.max(excursion.through(count, after));
            main.max(excursion.longest(count, after))
        }
        None => delay + straight,
    }
}
