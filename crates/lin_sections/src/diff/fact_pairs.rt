//! The differences between the facts of a thing in two LDFs.

ghost use Rattle.std.specs.Prelude.{◌≡◌, false, IfOk, IfSome, OnOk, flat_map, map, option_map};
ghost use Rattle.std.specs.List.{list_any};
ghost use Rattle.std.specs.Option.{option_copied, option_map_or};
ghost use Rattle.lin_sections.specs.Differences.{class_of_new, difference_data, fact_difference, fact_with, new_fact, old_fact};
ghost use Rattle.lin_sections.specs.Facts.{overlap};
ghost use Rattle.lin_sections.specs.Numbering.{ArePlaces};
ghost use Rattle.std.specs.Str.{bytes_eq};
ghost use Rattle.lin_sections.specs.Differences.{AddsDifferences};

use crate::diff::difference::Difference;
use crate::diff::fact::{Bits, Class, Fact, Thing};
use crate::diff::index::Index;
use lin_parts::Location;
use std::alloc::{AllocError, Global};

/// Returns the place of a fact, or the place of the thing if there is no fact.
fn fact_place(fact: Option<&Fact<'_>>, thing: &Thing<'_>) -> Location
    ensures { result ≡ option_map_or (λ f. f.now.place) fact.entry thing.now.place }
{
    match fact {
        Some(fact) => fact.place,
        None => thing.place,
    }
}

fn fact_value<'t>(fact: Option<&'t Fact<'_>>) -> Option<&'t [u8]>
    ensures { option_map (λ v. v.now) result ≡ option_map (λ f. f.now.value) fact.entry }
{
    match fact {
        Some(fact) => Some(fact.value.as_slice()),
        None => None,
    }
}

/// Returns the difference of a fact. `old` and `new` are the fact in each LDF, and `fact` is one of them.
fn fact_difference<'t>(
    class: Class,
    things: (&'t Thing<'_>, &'t Thing<'_>),
    fact: &'t Fact<'_>,
    old: Option<&'t Fact<'_>>,
    new: Option<&'t Fact<'_>>,
) -> Difference<'t>
    ensures { difference_data result ≡ fact_difference class things.entry.0.now things.entry.1.now fact.now
        (option_copied old.entry) (option_copied new.entry) }
{
    Difference {
        class,
        kind: things.0.kind,
        old_place: Some(fact_place(old, things.0)),
        new_place: Some(fact_place(new, things.1)),
        name: things.1.name.as_slice(),
        label: fact.label(),
        entry: &[],
        old: fact_value(old),
        new: fact_value(new),
    }
}

/// Whether a signal or the protected identifier of the old frame occupies one of these bits.
fn is_taken(taken: &[Bits], bits: Bits) -> bool
    ensures { result ≡ list_any (λ other. overlap other bits) taken.now }
{
    for other in taken {
        if other.overlap(bits) {
            return true;
        }
    }
    false
}

/// Returns the class of a fact that the old thing doesn't have. A signal on unused bits is compatible.
fn class_if_new(old: &Thing<'_>, fact: &Fact<'_>) -> Class
    ensures { result ≡ class_of_new old.now fact.now }
{
    match fact.bits {
        Some(bits) if !is_taken(old.taken.as_slice(), bits) => Class::Compatible,
        _ => fact.class,
    }
}

/// The maximum number of facts that are searched without an index.
const FEW: usize = 8;

/// Returns the places of facts by their keys, or `None` for up to `FEW` facts.
fn index_of<'t>(alloc: Global, facts: &'t [Fact<'_>]) -> Result<Option<Index<'t>>, AllocError>
    ensures { IfOk result (λ index. IfSome index (λ i. ArePlaces (map (λ f. f.key) facts.now) i.map)) }
{
    if facts.len() <= FEW {
        return Ok(None);
    }
    Ok(Some(Index::of(alloc, facts)?))
}

/// Returns the first fact with a key.
fn first_with<'t, 'a>(facts: &'t [Fact<'a>], key: &[u8]) -> Option<&'t Fact<'a>>
    ensures { option_copied result ≡ fact_with key.now facts.now }
{
    for fact in facts {
        if fact.key.as_slice() == key {
            return Some(fact);
        }
    }
    None
}

/// Returns the fact with a key. `index` has the places of all keys, if there is an index.
fn fact_with<'t, 'a>(
    facts: &'t [Fact<'a>],
    index: Option<&Index<'_>>,
    key: &[u8],
) -> Option<&'t Fact<'a>>
    requires { IfSome index (λ i. ArePlaces (map (λ f. f.key) facts.now) i.now.map) }
    ensures { option_copied result ≡ fact_with key.now facts.now }
{
    match index {
        Some(index) => index.find(facts, key),
        None => first_with(facts, key),
    }
}

/// Whether there is a fact and it has this value.
fn has_value(fact: Option<&Fact<'_>>, value: &[u8]) -> bool
    ensures { result ≡ option_map_or (λ f. bytes_eq f.now.value value.now) fact.entry false }
{
    match fact {
        Some(fact) => fact.value.as_slice() == value,
        None => false,
    }
}

/// Adds the difference of a fact of the old thing, unless the new thing has the fact with the same value.
fn add_old_fact<'t>(
    found: &mut Vec<Difference<'t>>,
    things: (&'t Thing<'_>, &'t Thing<'_>),
    index: Option<&Index<'_>>,
    fact: &'t Fact<'_>,
) -> Result<(), AllocError>
    requires { IfSome index
        (λ i. ArePlaces (map (λ f. f.key) things.1.now.facts) i.now.map) }
    ensures { OnOk result (AddsDifferences found.old.items found.new.items (old_fact things.entry.0.now things.entry.1.now fact.now)) }
{
    let other = fact_with(things.1.facts.as_slice(), index, fact.key.as_slice());
    if has_value(other, fact.value.as_slice()) {
        return Ok(());
    }
    found.push(fact_difference(fact.class, things, fact, Some(fact), other))?;
    Ok(())
}

/// Adds the differences of the facts of the old thing.
pub(crate) fn add_old_facts<'t>(
    alloc: Global,
    found: &mut Vec<Difference<'t>>,
    old: &'t Thing<'_>,
    new: &'t Thing<'_>,
) -> Result<(), AllocError>
    ensures { OnOk result (AddsDifferences found.old.items found.new.items (flat_map (old_fact old.now new.now) old.now.facts)) }
{
    let index = index_of(alloc, new.facts.as_slice())?;
    let places = index.as_ref();
    for fact in old.facts.as_slice() {
        add_old_fact(found, (old, new), places, fact)?;
    }
    Ok(())
}

/// Adds a fact of the new thing if the old thing doesn't have it.
fn add_new_fact<'t>(
    found: &mut Vec<Difference<'t>>,
    things: (&'t Thing<'_>, &'t Thing<'_>),
    index: Option<&Index<'_>>,
    fact: &'t Fact<'_>,
) -> Result<(), AllocError>
    requires { IfSome index
        (λ i. ArePlaces (map (λ f. f.key) things.0.now.facts) i.now.map) }
    ensures { OnOk result (AddsDifferences found.old.items found.new.items (new_fact things.entry.0.now things.entry.1.now fact.now)) }
{
    if fact_with(things.0.facts.as_slice(), index, fact.key.as_slice()).is_some() {
        return Ok(());
    }
    let class = class_if_new(things.0, fact);
    found.push(fact_difference(class, things, fact, None, Some(fact)))?;
    Ok(())
}

/// Adds the facts that only the new thing has.
pub(crate) fn add_new_facts<'t>(
    alloc: Global,
    found: &mut Vec<Difference<'t>>,
    old: &'t Thing<'_>,
    new: &'t Thing<'_>,
) -> Result<(), AllocError>
    ensures { OnOk result (AddsDifferences found.old.items found.new.items (flat_map (new_fact old.now new.now) new.now.facts)) }
{
    let index = index_of(alloc, old.facts.as_slice())?;
    let places = index.as_ref();
    for fact in new.facts.as_slice() {
        add_new_fact(found, (old, new), places, fact)?;
    }
    Ok(())
}
