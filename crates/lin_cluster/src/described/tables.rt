//! The schedule tables that a description says.

ghost use Rattle.std.specs.Prelude.{◌≡◌, IfOk, map};
ghost use Rattle.lin_cluster.specs.Described.{frame_entry, described_entry, described_line};
ghost use Rattle.lin_cluster.specs.Described.{described_table};
ghost use Rattle.lin_cluster.specs.Fitting.{FitsNumbers};

use super::numbers::{event_number, frame_number, sporadic_number};
use lin_parts::description::{Description, Name, TableEntry};
use lin_parts::{Entry, Line, Table};
use lin_text::{Many, Text};
use std::alloc::{AllocError, Global};

fn frame_entry(d: &Description, name: &Name) -> Entry
    requires { FitsNumbers d.now }
    ensures { result ≡ frame_entry d.now name.now }
{
    let frame = frame_number(d, name);
    if usize::from(frame) < d.frames().len() {
        return Entry::Frame(frame);
    }
    let sporadic = sporadic_number(d, name);
    if usize::from(sporadic) < d.sporadic().len() {
        return Entry::Sporadic(sporadic);
    }
    let event = event_number(d, name);
    if usize::from(event) < d.events().len() {
        return Entry::Event(event);
    }
    Entry::Quiet
}

fn entry_of(d: &Description, entry: &TableEntry) -> Entry
    requires { FitsNumbers d.now }
    ensures { result ≡ described_entry d.now entry.now }
{
    let name = entry.name.text.as_slice();
    if entry.has_group {
        Entry::Quiet
    } else if name == b"MasterReq".as_slice() {
        Entry::MasterReq
    } else if name == b"SlaveResp".as_slice() {
        Entry::SlaveResp
    } else {
        frame_entry(d, &entry.name)
    }
}

fn lines_of(
    alloc: Global,
    d: &Description,
    entries: &[TableEntry],
) -> Result<Many<Line>, AllocError>
    requires { FitsNumbers d.now }
    ensures { IfOk result (λ lines. lines ≡ map (described_line d.now) entries.now) }
{
    let mut lines = Vec::new(alloc);
    for entry in entries {
        lines.push(Line {
            entry: entry_of(d, entry),
            delay_us: entry.delay.value,
        })?;
    }
    Ok(Many::new(lines))
}

fn table_of(
    alloc: Global,
    d: &Description,
    table: &lin_parts::description::Table,
) -> Result<Table, AllocError>
    requires { FitsNumbers d.now }
    ensures { IfOk result (λ made. made ≡ described_table d.now table.now) }
{
    Ok(Table {
        name: Text::copied(alloc, table.name.text.as_slice())?,
        lines: lines_of(alloc, d, table.entries.as_slice())?,
    })
}

pub(super) fn tables_of(
    alloc: Global,
    d: &Description,
    tables: &[lin_parts::description::Table],
) -> Result<Many<Table>, AllocError>
    requires { FitsNumbers d.now }
    ensures { IfOk result (λ made. made ≡ map (described_table d.now) tables.now) }
{
    let mut made = Vec::new(alloc);
    for table in tables {
        made.push(table_of(alloc, d, table)?)?;
    }
    Ok(Many::new(made))
}
