//! The names of tables in a plain text.

ghost use Rattle.std.specs.Prelude.{◌≡◌, ◌++◌, length, map, IfOk, OnOk};
ghost use Rattle.lin_ldf.specs.Names.{has_name};
ghost use Rattle.lin_field.specs.Plain.{declared_names, described_node_names, without_points, free_from};
ghost use Rattle.lin_field.specs.Plain.{plain_name};

use crate::plain::text_parts::is_one_of;
use crate::tables::is_members_name;
use lin_cluster::Named;
use lin_parts::description::{Description, EventFrame, Name, Table};
use lin_text::Text;
use std::alloc::{AllocError, Global};

fn add_names<'a, T: Named>(names: &mut Vec<&'a [u8]>, all: &'a [T]) -> Result<(), AllocError>
    ensures { OnOk result
        (map (λ n. n.now) names.new.items
        ≡ map (λ n. n.now) names.old.items ++ map (λ x. (T.name_of x).text) all.now) }
{
    for declared in all {
        names.push(declared.name().text.as_slice())?;
    }
    Ok(())
}

/// The names of the nodes.
pub fn node_names(alloc: Global, description: &Description) -> Result<Vec<&[u8]>, AllocError>
    ensures { IfOk result (λ v. map (λ n. n.now) v.items ≡ described_node_names description.now) }
{
    let mut names = Vec::new(alloc);
    names.push(description.master().text.as_slice())?;
    add_names(&mut names, description.slaves())?;
    Ok(names)
}

/// All names that a description declares.
pub fn declared_names(alloc: Global, description: &Description) -> Result<Vec<&[u8]>, AllocError>
    ensures { IfOk result (λ v. map (λ n. n.now) v.items ≡ declared_names description.now) }
{
    let mut names = node_names(alloc, description)?;
    add_names(&mut names, description.signals())?;
    add_names(&mut names, description.frames())?;
    add_names(&mut names, description.sporadic())?;
    add_names(&mut names, description.events())?;
    add_names(&mut names, description.tables())?;
    Ok(names)
}

/// A name with `_` in place of points.
fn without_points(alloc: Global, name: &[u8]) -> Result<Vec<u8>, AllocError>
    ensures { IfOk result (λ v. v.items ≡ without_points name.now) }
{
    let mut text = Vec::new(alloc);
    for byte in name {
        text.push(if *byte == b'.' { b'_' } else { *byte })?;
    }
    Ok(text)
}

/// A text with `_` added until none of the declared names is it.
fn free(declared: &[&[u8]], text: Vec<u8>) -> Result<Vec<u8>, AllocError>
    ensures { IfOk result
        (λ v. v.items ≡ free_from (length declared.now) (map (λ n. n.now) declared.now) text.items) }
{
    let mut text = text;
    for _ in 0..declared.len() {
        if !is_one_of(text.as_slice(), declared) {
            return Ok(text);
        }
        text.push(b'_')?;
    }
    Ok(text)
}

/// The name of a table: that of a table of members is `E_members`, with `_` added until nothing has
/// it.
fn plain_name(alloc: Global, declared: &[&[u8]], name: &Name) -> Result<Text, AllocError>
    ensures { IfOk result (λ t. t ≡ plain_name (map (λ n. n.now) declared.now) name.now) }
{
    let text = name.text.as_slice();
    if !is_members_name(name) {
        return Text::copied(alloc, text);
    }
    let free = free(declared, without_points(alloc, text)?)?;
    Text::copied(alloc, free.as_slice())
}

/// The names of tables.
pub fn table_names(
    alloc: Global,
    declared: &[&[u8]],
    tables: &[Table],
) -> Result<Vec<Text>, AllocError>
    ensures { IfOk result
        (λ v. v.items ≡ map (λ t. plain_name (map (λ n. n.now) declared.now) t.name) tables.now) }
{
    let mut names = Vec::new(alloc);
    for table in tables {
        names.push(plain_name(alloc, declared, &table.name)?)?;
    }
    Ok(names)
}

/// The names of the tables of event-triggered frames.
pub fn event_tables(
    alloc: Global,
    declared: &[&[u8]],
    events: &[EventFrame],
) -> Result<Vec<Text>, AllocError>
    ensures { IfOk result
        (λ v. v.items ≡ map (λ e. plain_name (map (λ n. n.now) declared.now) e.table) events.now) }
{
    let mut names = Vec::new(alloc);
    for event in events {
        names.push(plain_name(alloc, declared, &event.table)?)?;
    }
    Ok(names)
}
