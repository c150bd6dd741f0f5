//! Settling of schedule tables: empty ones, and the tables that event-triggered frames name.

ghost use Rattle.std.specs.Prelude.{◌≡◌, ◌++◌, flat_map, map, IfOk, OnOk};
ghost use Rattle.std.specs.List.{list_any};
ghost use Rattle.lin_field.specs.Tables.{is_filled, plain_entry, rounded_warnings, entry_rounded};
ghost use Rattle.lin_field.specs.Tables.{kept_tables, table_warnings, names_left_out};
ghost use Rattle.lin_field.specs.Tables.{members_name, is_members_name, kept_table_name};
ghost use Rattle.lin_field.specs.Tables.{settled_event, event_warnings};

use crate::loose::{LooseEntry, LooseEvent, LooseTable, RoundedDecimal};
use lin_cluster::{
    Finding, FindingKind, Numbers, at_name, at_number, find_by, numbers_of, push_when,
};
use lin_parts::description::{EventFrame, Name, Number, Table, TableEntry};
use lin_text::{Many, Text};
use std::alloc::{AllocError, Global};
use std::marker::Model;

/// What follows the name of an event-triggered frame in that of the table of its members.
const MEMBERS: &[u8] = b".members";

/// Adds a warning (22 Rounded) if a number was rounded to thousandths.
pub fn warn_of_rounding(
    warned: &mut Vec<Finding>,
    decimal: &RoundedDecimal,
) -> Result<(), AllocError>
    ensures { OnOk result (warned.new.items ≡ warned.old.items ++ rounded_warnings decimal.now) }
{
    push_when(
        warned,
        decimal.is_rounded,
        at_number(FindingKind::Rounded, &decimal.number),
    )
}

fn plain_entries(
    alloc: Global,
    entries: Many<LooseEntry>,
    warned: &mut Vec<Finding>,
) -> Result<Many<TableEntry>, AllocError>
    ensures entries { IfOk result (λ e. e ≡ map plain_entry entries) }
    ensures warned { OnOk result
        (warned.new.items ≡ warned.old.items ++ flat_map entry_rounded entries) }
{
    let mut plain = Vec::new(alloc);
    for entry in entries.into_vec() {
        warn_of_rounding(warned, &entry.delay)?;
        plain.push(TableEntry {
            name: entry.name,
            has_group: entry.has_group,
            delay: entry.delay.number,
        })?;
    }
    Ok(Many::new(plain))
}

fn is_filled(table: &LooseTable) -> bool
    ensures { result ≡ is_filled table.now }
{
    !table.entries.as_slice().is_empty()
}

/// Whether some table has entries.
fn has_filled(tables: &[LooseTable]) -> bool
    ensures { result ≡ list_any is_filled tables.now }
{
    tables.iter().any(|table| is_filled(table))
}

/// The tables without those that are left out: the empty ones, but in a text that has no others.
pub fn keep_tables(
    alloc: Global,
    tables: Many<LooseTable>,
    warned: &mut Vec<Finding>,
) -> Result<Vec<Table>, AllocError>
    ensures kept { IfOk result (λ t. t.items ≡ kept_tables tables) }
    ensures warned { OnOk result
        (warned.new.items ≡ warned.old.items ++ table_warnings tables) }
{
    let has_filled = has_filled(tables.as_slice());
    let mut kept = Vec::new(alloc);
    for table in tables.into_vec() {
        if has_filled && !is_filled(&table) {
            warned.push(at_name(FindingKind::EmptyTable, &table.name))?;
        } else {
            kept.push(Table {
                name: table.name,
                entries: plain_entries(alloc, table.entries, warned)?,
            })?;
        }
    }
    Ok(kept)
}

/// The name of the table of a frame's members, at its identifier. No WORD has a point.
fn members_name(alloc: Global, event: &Name, id: Number) -> Result<Name, AllocError>
    ensures { IfOk result (λ n. n ≡ members_name event.now id) }
{
    let mut text = Vec::from_slice(alloc, event.text.as_slice())?;
    text.extend_from_slice(MEMBERS)?;
    Ok(Name {
        text: Text::copied(alloc, text.as_slice())?,
        line: id.line,
        column: id.column,
    })
}

/// Whether a name is that of a table of members.
pub fn is_members_name(name: &Name) -> bool
    ensures { result ≡ is_members_name name.now }
{
    name.text.as_slice().ends_with(MEMBERS)
}

/// Tables, found by their names. Contracts see the tables.
struct TableNames<'a> {
    tables: &'a [LooseTable],
    numbers: Numbers<'a>,
    has_filled: bool,
}

impl<'a> Model for TableNames<'a> {
    ghost use Rattle.std.specs.Prelude.{◌≡◌, List};
    ghost use Rattle.std.specs.List.{list_any};
    ghost use Rattle.lin_cluster.specs.Names.{NumbersFirst};
    ghost use Rattle.lin_field.specs.Tables.{is_filled};
    ghost use Rattle.lin_field.specs.declared.loose.LooseTable.{LooseTable};

    ghost Value = { List LooseTable };

    ghost view = { λ t. t.tables.now };

    ghost invariant = { λ t. NumbersFirst (λ x. x.name) t.tables.now t.numbers.map
        × (t.has_filled ≡ list_any is_filled t.tables.now) };
}

// (written out, so that an owner has one call)
impl<'a> Drop for TableNames<'a> {
    fn drop(self) {
        let TableNames {
            tables: _,
            numbers: _numbers,
            has_filled: _,
        } = self;
    }
}

impl<'a> TableNames<'a> {
    /// An error means out of memory.
    fn new(alloc: Global, tables: &'a [LooseTable]) -> Result<TableNames<'a>, AllocError>
        ensures { IfOk result (λ t. t ≡ tables.now) }
    {
        let numbers = numbers_of(alloc, tables)?;
        let has_filled = has_filled(tables);
        Ok(TableNames {
            tables,
            numbers,
            has_filled,
        })
    }

    /// Whether a table of this name is left out.
    fn is_left_out(&self, name: &Name) -> bool
        ensures { result ≡ names_left_out self.now name.now }
    {
        match find_by(&self.numbers, self.tables, name) {
            Some(table) => self.has_filled && !is_filled(table),
            None => false,
        }
    }

    /// The table that an event-triggered frame names, where it isn't left out.
    fn named_table(&self, table: Option<Name>) -> Option<Name>
        ensures { result ≡ kept_table_name self.now table }
    {
        let name = table?;
        if self.is_left_out(&name) {
            None
        } else {
            Some(name)
        }
    }

    /// An event-triggered frame with a table that resolves its collisions: where none is named, or
    /// one that is left out, the table of its members.
    fn settle_event(
        &self,
        alloc: Global,
        is_told: bool,
        event: LooseEvent,
        warned: &mut Vec<Finding>,
    ) -> Result<EventFrame, AllocError>
        ensures settled { IfOk result (λ e. e ≡ settled_event self.now event) }
        ensures warned { OnOk result
            (warned.new.items ≡ warned.old.items ++ event_warnings is_told self.now event) }
    {
        let LooseEvent {
            name,
            table,
            id,
            members,
        } = event;
        let table = match self.named_table(table) {
            Some(table) => table,
            None => {
                push_when(warned, is_told, at_number(FindingKind::NoTable, &id))?;
                members_name(alloc, &name, id)?
            }
        };
        Ok(EventFrame {
            name,
            table,
            id,
            members,
        })
    }
}

/// The event-triggered frames, each with a table that resolves its collisions.
pub fn settle_events(
    alloc: Global,
    is_told: bool,
    tables: &[LooseTable],
    events: Many<LooseEvent>,
    warned: &mut Vec<Finding>,
) -> Result<Many<EventFrame>, AllocError>
    ensures settled { IfOk result (λ e. e ≡ map (settled_event tables.now) events) }
    ensures warned { OnOk result
        (warned.new.items
        ≡ warned.old.items ++ flat_map (event_warnings is_told tables.now) events) }
{
    let names = TableNames::new(alloc, tables)?;
    let mut settled = Vec::new(alloc);
    for event in events.into_vec() {
        settled.push(names.settle_event(alloc, is_told, event, warned)?)?;
    }
    Ok(Many::new(settled))
}
