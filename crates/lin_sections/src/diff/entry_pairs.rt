//! The differences between the entries of a schedule table in two LDFs.

ghost use Rattle.std.specs.Prelude.{◌≡◌, ◌++◌, ◌∷◌, ◌==◌, ◌&&◌, ◌||◌, [], ℕ, Bool, false, IfOk, List, OnOk, flat_map, map, option_map, slice_index_or};
ghost use Rattle.std.specs.List.{range_with_len};
ghost use Rattle.std.specs.Option.{option_copied, option_map_or};
ghost use Rattle.lin_sections.specs.Differences.{delay_difference, difference_data, entry_difference, moved_entries, new_entry};
ghost use Rattle.lin_sections.specs.Differences.{old_entry, old_places, pair_differences, was_moved};
ghost use Rattle.lin_sections.specs.declared.diff.fact.EntryFact.{EntryFact};
ghost use Rattle.lin_sections.specs.Numbering.{entry_id, ArePlaces};
ghost use Rattle.lin_sections.specs.Differences.{AddsDifferences};
ghost use Rattle.lin_sections.specs.Differences.{entry_differences, AreFlags, TellsMoved};

use crate::diff::chain::moved;
use crate::diff::difference::Difference;
use crate::diff::fact::{Class, EntryFact, Thing};
use crate::diff::index::{Identified, Index};
use lin_parts::Location;
use std::alloc::{AllocError, Global};

fn entry_place(entry: Option<&EntryFact<'_>>, thing: &Thing<'_>) -> Location
    ensures { result ≡ option_map_or (λ e. e.now.place) entry.entry thing.now.place }
{
    match entry {
        Some(entry) => entry.place,
        None => thing.place,
    }
}

fn entry_position<'t>(entry: Option<&'t EntryFact<'_>>) -> Option<&'t [u8]>
    ensures { option_map (λ p. p.now) result ≡ option_map (λ e. e.now.position) entry.entry }
{
    match entry {
        Some(entry) => Some(entry.position.as_slice()),
        None => None,
    }
}

/// Returns the difference of an entry's position.
fn entry_difference<'t>(
    things: (&'t Thing<'_>, &'t Thing<'_>),
    entry: &'t EntryFact<'_>,
    old: Option<&'t EntryFact<'_>>,
    new: Option<&'t EntryFact<'_>>,
) -> Difference<'t>
    ensures { difference_data result ≡ entry_difference things.entry.0.now things.entry.1.now entry.now
        (option_copied old.entry) (option_copied new.entry) }
{
    Difference {
        class: Class::Timing,
        kind: things.0.kind,
        old_place: Some(entry_place(old, things.0)),
        new_place: Some(entry_place(new, things.1)),
        name: things.1.name.as_slice(),
        label: b"entry",
        entry: entry.word.as_slice(),
        old: entry_position(old),
        new: entry_position(new),
    }
}

/// Returns the difference of an entry's delay.
fn delay_difference<'t>(
    things: (&'t Thing<'_>, &'t Thing<'_>),
    old: &'t EntryFact<'_>,
    new: &'t EntryFact<'_>,
) -> Difference<'t>
    ensures { difference_data result
        ≡ delay_difference things.entry.0.now things.entry.1.now old.now new.now }
{
    Difference {
        class: Class::Timing,
        kind: things.0.kind,
        old_place: Some(old.delay_place),
        new_place: Some(new.delay_place),
        name: things.1.name.as_slice(),
        label: b"delay",
        entry: old.word.as_slice(),
        old: Some(old.delay.as_slice()),
        new: Some(new.delay.as_slice()),
    }
}

/// Adds a place if there is one.
#[tactic(auto, using(crate::proofs::StatementSteps::nothing_more))]
fn add_place(places: &mut Vec<usize>, place: Option<usize>) -> Result<(), AllocError>
    ensures { OnOk result
        (places.new.items ≡ places.old.items ++ option_map_or (λ p. p ∷ []) place []) }
{
    match place {
        Some(place) => {
            places.push(place)?;
            Ok(())
        }
        None => Ok(()),
    }
}

/// Returns the places in the old table of the new entries, in the order of the new table. It skips the
/// entries that the old table doesn't have.
fn old_places(
    alloc: Global,
    olds: &Index<'_>,
    news: &[EntryFact<'_>],
) -> Result<Vec<usize>, AllocError>
    ensures { IfOk result (λ v. (entries : List EntryFact) → ArePlaces (map entry_id entries) olds.now.map
        → v.items ≡ old_places entries news.now) }
{
    let mut places = Vec::new(alloc);
    for new in news {
        add_place(&mut places, olds.place_of(new.id()))?;
    }
    Ok(places)
}

/// Sets the flag of a place if it was moved and has a flag.
fn mark(flags: &mut Vec<bool>, place: usize, is_moved: bool)
    ensures { (f : ℕ → Bool) (count : ℕ) → AreFlags count f flags.old.items
        → AreFlags count (λ p. f p || (is_moved && place == p)) flags.new.items }
{
    if !is_moved {
        return;
    }
    if flags.len() <= place {
        return;
    }
    flags[place] = true;
}

/// Returns for each entry of the old table whether it was moved.
fn moved_entries(alloc: Global, count: usize, places: &[usize]) -> Result<Vec<bool>, AllocError>
    ensures { IfOk result (λ v. v.items ≡ map (was_moved places.now) (range_with_len 0 count)) }
{
    let by_pair = moved(alloc, places)?;
    let mut by_place = Vec::new(alloc);
    for _place in 0..count {
        by_place.push(false)?;
    }
    for pair in 0..places.len().min(by_pair.len()) {
        mark(&mut by_place, places[pair], by_pair[pair]);
    }
    Ok(by_place)
}

/// Adds the differences between the two entries of a pair.
fn add_pair<'t>(
    found: &mut Vec<Difference<'t>>,
    things: (&'t Thing<'_>, &'t Thing<'_>),
    old: &'t EntryFact<'_>,
    new: &'t EntryFact<'_>,
    is_moved: bool,
) -> Result<(), AllocError>
    ensures { OnOk result (AddsDifferences found.old.items found.new.items (pair_differences things.entry.0.now things.entry.1.now is_moved old.now new.now)) }
{
    if is_moved {
        found.push(entry_difference(things, old, Some(old), Some(new)))?;
    }
    if old.delay.as_slice() != new.delay.as_slice() {
        found.push(delay_difference(things, old, new))?;
    }
    Ok(())
}

/// Returns the flag of a place, or `false` if the place has no flag.
fn flag_at(flags: &[bool], place: usize) -> bool
    ensures { result ≡ slice_index_or flags.now place false }
{
    match flags.get(place) {
        Some(flag) => *flag,
        None => false,
    }
}

/// Whether an entry of the old table was moved. `moved` has a flag for each place of that table.
fn is_moved(moved: &[bool], olds: &Index<'_>, entry: &EntryFact<'_>) -> bool
    ensures { TellsMoved moved.now olds.now.map entry.now result }
{
    match olds.place_of(entry.id()) {
        Some(place) => flag_at(moved, place),
        None => false,
    }
}

/// Adds the differences of an entry of the old table. `places` are the places of the entries in both tables.
fn add_old_entry<'t>(
    found: &mut Vec<Difference<'t>>,
    things: (&'t Thing<'_>, &'t Thing<'_>),
    places: (&Index<'_>, &Index<'_>),
    moved: &[bool],
    entry: &'t EntryFact<'_>,
) -> Result<(), AllocError>
    requires olds { ArePlaces (map entry_id things.0.now.entries) places.0.now.map }
    requires news { ArePlaces (map entry_id things.1.now.entries) places.1.now.map }
    requires moved { moved.now ≡ moved_entries things.0.now.entries
        (old_places things.0.now.entries things.1.now.entries) }
    ensures { OnOk result (AddsDifferences found.old.items found.new.items (old_entry things.entry.0.now things.entry.1.now entry.now)) }
{
    match places.1.find(things.1.entries.as_slice(), entry.id()) {
        Some(other) => {
            let is_moved = is_moved(moved, places.0, entry);
            add_pair(found, things, entry, other, is_moved)
        }
        None => {
            found.push(entry_difference(things, entry, Some(entry), None))?;
            Ok(())
        }
    }
}

/// Adds the differences of the entries of the old table.
fn add_old_entries<'t>(
    alloc: Global,
    found: &mut Vec<Difference<'t>>,
    old: &'t Thing<'_>,
    new: &'t Thing<'_>,
    places: (&Index<'_>, &Index<'_>),
) -> Result<(), AllocError>
    requires olds { ArePlaces (map entry_id old.now.entries) places.0.now.map }
    requires news { ArePlaces (map entry_id new.now.entries) places.1.now.map }
    ensures { OnOk result (AddsDifferences found.old.items found.new.items (flat_map (old_entry old.now new.now) old.now.entries)) }
{
    let count = old.entries.as_slice().len();
    let pairs = old_places(alloc, places.0, new.entries.as_slice())?;
    let moved = moved_entries(alloc, count, pairs.as_slice())?;
    for entry in old.entries.as_slice() {
        add_old_entry(found, (old, new), places, moved.as_slice(), entry)?;
    }
    Ok(())
}

/// Adds an entry of the new table if the old table doesn't have it.
fn add_new_entry<'t>(
    found: &mut Vec<Difference<'t>>,
    things: (&'t Thing<'_>, &'t Thing<'_>),
    index: &Index<'_>,
    entry: &'t EntryFact<'_>,
) -> Result<(), AllocError>
    requires { ArePlaces (map entry_id things.0.now.entries) index.now.map }
    ensures { OnOk result (AddsDifferences found.old.items found.new.items (new_entry things.entry.0.now things.entry.1.now entry.now)) }
{
    if index
        .find(things.0.entries.as_slice(), entry.id())
        .is_some()
    {
        return Ok(());
    }
    found.push(entry_difference(things, entry, None, Some(entry)))?;
    Ok(())
}

/// Adds the entries that only the new table has.
fn add_new_entries<'t>(
    found: &mut Vec<Difference<'t>>,
    old: &'t Thing<'_>,
    new: &'t Thing<'_>,
    olds: &Index<'_>,
) -> Result<(), AllocError>
    requires { ArePlaces (map entry_id old.now.entries) olds.now.map }
    ensures { OnOk result (AddsDifferences found.old.items found.new.items (flat_map (new_entry old.now new.now) new.now.entries)) }
{
    for entry in new.entries.as_slice() {
        add_new_entry(found, (old, new), olds, entry)?;
    }
    Ok(())
}

/// Adds the differences of the entries of two tables.
pub(crate) fn add_entries<'t>(
    alloc: Global,
    found: &mut Vec<Difference<'t>>,
    old: &'t Thing<'_>,
    new: &'t Thing<'_>,
) -> Result<(), AllocError>
    ensures { OnOk result (AddsDifferences found.old.items found.new.items (entry_differences old.now new.now)) }
{
    if old.entries.as_slice().is_empty() && new.entries.as_slice().is_empty() {
        return Ok(());
    }
    let olds = Index::of(alloc, old.entries.as_slice())?;
    let news = Index::of(alloc, new.entries.as_slice())?;
    add_old_entries(alloc, found, old, new, (&olds, &news))?;
    add_new_entries(found, old, new, &olds)
}
