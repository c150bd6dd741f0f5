//! The differences between two LDFs, thing by thing.

ghost use Rattle.std.specs.Prelude.{◌≡◌, IfOk, OnOk, flat_map, map};
ghost use Rattle.lin_sections.specs.Differences.{all_differences, differences_data, kind_differences, new_thing, old_thing, thing_differences};
ghost use Rattle.lin_sections.specs.Numbering.{ArePlaces};
ghost use Rattle.lin_sections.specs.Differences.{AddsDifferences};

use crate::diff::difference::{Difference, named, thing_difference};
use crate::diff::entry_pairs::add_entries;
use crate::diff::fact::{Class, Thing};
use crate::diff::fact_pairs::{add_new_facts, add_old_facts};
use crate::diff::index::Index;
use lin_text::Many;
use std::alloc::{AllocError, Global};

/// Adds the differences of a thing that both LDFs have.
fn add_thing<'t>(
    alloc: Global,
    found: &mut Vec<Difference<'t>>,
    old: &'t Thing<'_>,
    new: &'t Thing<'_>,
) -> Result<(), AllocError>
    ensures { OnOk result (AddsDifferences found.old.items found.new.items (thing_differences old.now new.now)) }
{
    if old.name.as_slice() != new.name.as_slice() {
        let (old_name, new_name) = (named(old), named(new));
        found.push(thing_difference(Class::Names, old.kind, Some(old_name), Some(new_name)))?;
    }
    add_old_facts(alloc, found, old, new)?;
    add_new_facts(alloc, found, old, new)?;
    add_entries(alloc, found, old, new)
}

/// Adds the differences of a thing of the old LDF.
fn add_old_thing<'t>(
    alloc: Global,
    found: &mut Vec<Difference<'t>>,
    old: &'t Thing<'_>,
    news: &'t [Thing<'_>],
    index: &Index<'_>,
) -> Result<(), AllocError>
    requires { ArePlaces (map (λ t. t.new_name) news.now) index.now.map }
    ensures { OnOk result (AddsDifferences found.old.items found.new.items (old_thing news.now old.now)) }
{
    match index.find(news, old.new_name.as_slice()) {
        Some(new) => add_thing(alloc, found, old, new),
        None => {
            let class = old.kind.class_if_gone();
            found.push(thing_difference(class, old.kind, Some(named(old)), None))?;
            Ok(())
        }
    }
}

/// Adds the differences of the things of the old LDF.
fn add_old_things<'t>(
    alloc: Global,
    found: &mut Vec<Difference<'t>>,
    olds: &'t [Thing<'_>],
    news: &'t [Thing<'_>],
) -> Result<(), AllocError>
    ensures { OnOk result (AddsDifferences found.old.items found.new.items (flat_map (old_thing news.now) olds.now)) }
{
    let index = Index::of(alloc, news)?;
    for old in olds {
        add_old_thing(alloc, found, old, news, &index)?;
    }
    Ok(())
}

/// Adds a thing of the new LDF if the old LDF doesn't have it.
fn add_new_thing<'t>(
    found: &mut Vec<Difference<'t>>,
    olds: &[Thing<'_>],
    new: &'t Thing<'_>,
    index: &Index<'_>,
) -> Result<(), AllocError>
    requires { ArePlaces (map (λ t. t.new_name) olds.now) index.now.map }
    ensures { OnOk result (AddsDifferences found.old.items found.new.items (new_thing olds.now new.now)) }
{
    if index.find(olds, new.new_name.as_slice()).is_some() {
        return Ok(());
    }
    let class = new.kind.class_if_new();
    found.push(thing_difference(class, new.kind, None, Some(named(new))))?;
    Ok(())
}

/// Adds the things that only the new LDF has.
fn add_new_things<'t>(
    alloc: Global,
    found: &mut Vec<Difference<'t>>,
    olds: &'t [Thing<'_>],
    news: &'t [Thing<'_>],
) -> Result<(), AllocError>
    ensures { OnOk result (AddsDifferences found.old.items found.new.items (flat_map (new_thing olds.now) news.now)) }
{
    let index = Index::of(alloc, olds)?;
    for new in news {
        add_new_thing(found, olds, new, &index)?;
    }
    Ok(())
}

/// Adds the differences of the things of a kind.
fn add_kind<'t>(
    alloc: Global,
    found: &mut Vec<Difference<'t>>,
    olds: &'t [Thing<'_>],
    news: &'t [Thing<'_>],
) -> Result<(), AllocError>
    ensures { OnOk result (AddsDifferences found.old.items found.new.items (kind_differences olds.now news.now)) }
{
    add_old_things(alloc, found, olds, news)?;
    add_new_things(alloc, found, olds, news)
}

/// Returns the differences between two LDFs, ordered by kind. In each kind, the things of the old LDF come
/// first, then the things that only the new LDF has.
///
/// An error means out of memory.
pub fn differences<'t>(
    alloc: Global,
    olds: &'t [Many<Thing<'_>>],
    news: &'t [Many<Thing<'_>>],
) -> Result<Vec<Difference<'t>>, AllocError>
    ensures { IfOk result (λ v. differences_data v.items ≡ all_differences olds.now news.now) }
{
    let mut found = Vec::new(alloc);
    for kind in 0..olds.len().min(news.len()) {
        add_kind(
            alloc,
            &mut found,
            olds[kind].as_slice(),
            news[kind].as_slice(),
        )?;
    }
    Ok(found)
}
