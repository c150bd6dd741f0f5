//! The times that slots take: delays of 0, tables of members, and slots that are tight.

ghost use Rattle.std.specs.Prelude.{◌≡◌, ◌++◌, ◌<◌, ◌^◌, flat_map, map, filter, not, IfOk};
ghost use Rattle.std.specs.Prelude.{IfSome, OnOk};
ghost use Rattle.std.specs.Option.{option_map};
ghost use Rattle.std.specs.Prelude.{find};
ghost use Rattle.std.specs.List.{list_any};
ghost use Rattle.lin_cluster.specs.FindingsNames.{same_name};
ghost use Rattle.lin_cluster.specs.Names.{NumbersFirst};
ghost use Rattle.lin_field.specs.Tables.{is_members_name};
ghost use Rattle.lin_field.specs.Times.{nominal_us, rounded_up, asked_us, rounded_delay, timed_entry};
ghost use Rattle.lin_field.specs.Times.{delay_warnings, timed_tables, timing_warnings};
ghost use Rattle.lin_field.specs.Times.{member_entry, member_table_by, member_tables, or_idle, calls};
ghost use Rattle.lin_field.specs.Times.{has_no_delay, is_timed, all_tables};
ghost use Rattle.lin_field.specs.Times.{tight_slot, tight_slots};
ghost use Rattle.lin_field.specs.Attributes.{as_list};

use crate::node_names::copied;
use crate::tables::is_members_name;
use lin_cluster::{
    Finding, FindingKind, Named, Numbers, SlotSizes, at_name, at_number, find_by, is_speed,
    needed_us, numbers_of,
};
use lin_parts::description::{Description, EventFrame, Name, Number, Table, TableEntry};
use lin_text::Many;
use std::alloc::{AllocError, Global};
use std::marker::Model;

/// A description, and the sizes of its slots. Contracts see the description.
pub struct SizedDescription<'a> {
    description: &'a Description,
    sizes: SlotSizes<'a>,
}

impl<'a> Model for SizedDescription<'a> {
    ghost use Rattle.std.specs.Prelude.{◌≡◌};
    ghost use Rattle.lin_parts.specs.declared.description.Description.{Description};

    ghost Value = { Description };

    ghost view = { λ s. s.description.now };

    ghost invariant = { λ s. s.sizes ≡ s.description.now };
}

// (written out, so that an owner has one call)
impl<'a> Drop for SizedDescription<'a> {
    fn drop(self) {
        let SizedDescription {
            description: _,
            sizes: _sizes,
        } = self;
    }
}

/// The time in microseconds of a frame of `size` data bytes by itself (ISO 17987-3, frame slots).
fn nominal_us(speed: u32, size: u32) -> u64
    requires { 0 < speed }
    ensures { result ≡ nominal_us speed size }
{
    let bits = 34 + 10 * (u64::from(size) + 1);
    (1_000_000 * bits).div_ceil(u64::from(speed))
}

/// The next multiple of a time base.
fn rounded_up(us: u64, base: u32) -> u64
    requires { us < 2 ^ 63 }
    ensures { result ≡ rounded_up us base }
{
    if base == 0 {
        us
    } else {
        us.div_ceil(u64::from(base)) * u64::from(base)
    }
}

/// The greatest delay within its limit, in microseconds. It stands where a time isn't known, since
/// something else is wrong, so that no more is found of its slot.
const LONGEST_US: u32 = 1_000_000_000;

/// A slot without a frame, where there are no entries.
fn add_idle(
    alloc: Global,
    event: &EventFrame,
    entries: &mut Vec<TableEntry>,
) -> Result<(), AllocError>
    ensures { OnOk result (entries.new.items ≡ or_idle event.now entries.old.items) }
{
    if entries.is_empty() {
        entries.push(TableEntry {
            name: copied(alloc, &event.table)?,
            has_group: true,
            delay: Number {
                value: LONGEST_US,
                ..event.id
            },
        })?;
    }
    Ok(())
}

impl<'a> SizedDescription<'a> {
    /// An error means out of memory.
    pub fn new(
        alloc: Global,
        description: &'a Description,
    ) -> Result<SizedDescription<'a>, AllocError>
        ensures { IfOk result (λ s. s ≡ description.now) }
    {
        Ok(SizedDescription {
            description,
            sizes: SlotSizes::new(alloc, description)?,
        })
    }

    /// The time that a slot takes at most, where it is known.
    fn asked_us(&self, entry: &TableEntry) -> Option<u64>
        ensures asked { result ≡ asked_us self.now entry.now }
        ensures room { IfSome result (λ us. us < 2 ^ 63) }
    {
        let speed = self.description.speed().value;
        match self.sizes.of(entry) {
            Some(size) if is_speed(speed) => {
                Some(needed_us(self.description.jitter().value, speed, size))
            }
            _ => None,
        }
    }

    /// That time as a multiple of the time base, where it is known and a number can be it.
    fn time_of(&self, entry: &TableEntry) -> Option<u32>
        ensures { result ≡ rounded_delay self.now entry.now }
    {
        let us = self.asked_us(entry)?;
        u32::try_from(rounded_up(us, self.description.time_base().value)).ok()
    }

    /// A delay of 0 becomes the time that the slot takes.
    fn time_entry(
        &self,
        entry: &mut TableEntry,
        warned: &mut Vec<Finding>,
    ) -> Result<(), AllocError>
        ensures timed { OnOk result (entry.new ≡ timed_entry self.now entry.old) }
        ensures warned { OnOk result
            (warned.new.items ≡ warned.old.items ++ delay_warnings self.now entry.old) }
    {
        if entry.delay.value == 0
            && let Some(time) = self.time_of(entry)
        {
            warned.push(at_number(FindingKind::ZeroDelay, &entry.delay))?;
            entry.delay.value = time;
        }
        Ok(())
    }

    fn time_entries(
        &self,
        alloc: Global,
        entries: Many<TableEntry>,
        warned: &mut Vec<Finding>,
    ) -> Result<Many<TableEntry>, AllocError>
        ensures timed { IfOk result (λ e. e ≡ map (timed_entry self.now) entries) }
        ensures warned { OnOk result
            (warned.new.items ≡ warned.old.items ++ flat_map (delay_warnings self.now) entries) }
    {
        let mut timed = Vec::new(alloc);
        for mut entry in entries.into_vec() {
            self.time_entry(&mut entry, warned)?;
            timed.push(entry)?;
        }
        Ok(Many::new(timed))
    }

    /// The tables, with times in place of delays of 0.
    fn time_tables(
        &self,
        alloc: Global,
        tables: Vec<Table>,
        warned: &mut Vec<Finding>,
    ) -> Result<Vec<Table>, AllocError>
        ensures timed { IfOk result (λ t. t.items ≡ timed_tables self.now tables.items) }
        ensures warned { OnOk result
            (warned.new.items ≡ warned.old.items ++ timing_warnings self.now tables.items) }
    {
        let mut timed = Vec::new(alloc);
        for table in tables {
            timed.push(Table {
                name: table.name,
                entries: self.time_entries(alloc, table.entries, warned)?,
            })?;
        }
        Ok(timed)
    }

    /// An entry for a member, with this delay, or without one or with 0 with the time that its slot
    /// takes.
    fn member_entry(
        &self,
        alloc: Global,
        member: &Name,
        id: Number,
        delay: Option<Number>,
    ) -> Result<TableEntry, AllocError>
        ensures { IfOk result (λ e. e ≡ member_entry self.now id delay member.now) }
    {
        let mut entry = TableEntry {
            name: copied(alloc, member)?,
            has_group: false,
            delay: Number { value: 0, ..id },
        };
        entry.delay = match delay {
            Some(delay) if delay.value != 0 => delay,
            _ => Number {
                value: self.time_of(&entry).unwrap_or(LONGEST_US),
                ..id
            },
        };
        Ok(entry)
    }

    /// The table of the members that are frames.
    fn member_table(
        &self,
        alloc: Global,
        event: &EventFrame,
        delay: Option<Number>,
    ) -> Result<Table, AllocError>
        ensures { IfOk result (λ t. t ≡ member_table_by self.now delay event.now) }
    {
        let mut entries = Vec::new(alloc);
        for member in event.members.as_slice() {
            if self.sizes.has_frame(member) {
                entries.push(self.member_entry(alloc, member, event.id, delay)?)?;
            }
        }
        add_idle(alloc, event, &mut entries)?;
        Ok(Table {
            name: copied(alloc, &event.table)?,
            entries: Many::new(entries),
        })
    }

    /// The tables of members, for the event-triggered frames that name them.
    fn member_tables(&self, alloc: Global, tables: &[Table]) -> Result<Vec<Table>, AllocError>
        ensures { IfOk result (λ made. made.items ≡ member_tables self.now tables.now) }
    {
        let calls = calls(alloc, tables)?;
        let numbers = numbers_of(alloc, calls.as_slice())?;
        let mut made = Vec::new(alloc);
        for event in self.description.events() {
            if is_members_name(&event.table) {
                let delay = first_delay(&numbers, calls.as_slice(), &event.name);
                made.push(self.member_table(alloc, event, delay)?)?;
            }
        }
        Ok(made)
    }

    /// That a slot is shorter than it may take, where the frame's own time fits.
    fn tight_slot(&self, entry: &TableEntry) -> Option<Finding>
        ensures { as_list result ≡ tight_slot self.now entry.now }
    {
        let size = self.sizes.of(entry)?;
        let needed_us = self.asked_us(entry)?;
        let delay = u64::from(entry.delay.value);
        let speed = self.description.speed().value;
        if delay == 0 || needed_us <= delay || delay < nominal_us(speed, size) {
            return None;
        }
        Some(at_name(FindingKind::SlotTooShort { needed_us }, &entry.name))
    }

    fn add_tight(&self, entries: &[TableEntry], tight: &mut Vec<Finding>) -> Result<(), AllocError>
        ensures { OnOk result
            (tight.new.items ≡ tight.old.items ++ flat_map (tight_slot self.now) entries.now) }
    {
        for entry in entries {
            if let Some(finding) = self.tight_slot(entry) {
                tight.push(finding)?;
            }
        }
        Ok(())
    }

    /// The slots that are shorter than they may take, and hold their frame's own time.
    pub fn tight_slots(&self, alloc: Global) -> Result<Vec<Finding>, AllocError>
        ensures { IfOk result (λ tight. tight.items ≡ tight_slots self.now) }
    {
        let mut tight = Vec::new(alloc);
        for table in self.description.tables() {
            self.add_tight(table.entries.as_slice(), &mut tight)?;
        }
        Ok(tight)
    }
}

fn has_zero(entries: &[TableEntry]) -> bool
    ensures { result ≡ list_any has_no_delay entries.now }
{
    entries.iter().any(|entry| entry.delay.value == 0)
}

fn has_zeros(tables: &[Table]) -> bool
    ensures { result ≡ list_any (λ t. list_any has_no_delay t.entries) tables.now }
{
    tables
        .iter()
        .any(|table| has_zero(table.entries.as_slice()))
}

fn name_members(events: &[EventFrame]) -> bool
    ensures { result ≡ list_any (λ e. is_members_name e.table) events.now }
{
    events.iter().any(|event| is_members_name(&event.table))
}

/// Whether some delay is 0, or some event-triggered frame names a table of its members.
fn is_timed(events: &[EventFrame], tables: &[Table]) -> bool
    ensures { result ≡ is_timed events.now tables.now }
{
    name_members(events) || has_zeros(tables)
}

/// The tables with times in place of delays of 0, and behind them the tables of members.
pub fn all_tables(
    alloc: Global,
    description: &Description,
    tables: Vec<Table>,
    warned: &mut Vec<Finding>,
) -> Result<Vec<Table>, AllocError>
    ensures timed { IfOk result (λ t. t.items ≡ all_tables description.now tables.items) }
    ensures warned { OnOk result
        (warned.new.items ≡ warned.old.items ++ timing_warnings description.now tables.items) }
{
    if !is_timed(description.events(), tables.as_slice()) {
        return Ok(tables);
    }
    let slots = SizedDescription::new(alloc, description)?;
    let mut timed = slots.time_tables(alloc, tables, warned)?;
    for table in slots.member_tables(alloc, timed.as_slice())? {
        timed.push(table)?;
    }
    Ok(timed)
}

/// An entry that names a frame.
#[derive(Clone, Copy)]
struct Call<'a> {
    entry: &'a TableEntry,
}

impl<'a> Named for Call<'a> {
    ghost name_of = { λ c. c.entry.now.name };

    fn name(&self) -> &Name {
        &self.entry.name
    }
}

fn add_calls<'a>(calls: &mut Vec<Call<'a>>, entries: &'a [TableEntry]) -> Result<(), AllocError>
    ensures { OnOk result
        (map (λ c. c.entry.now) calls.new.items
        ≡ map (λ c. c.entry.now) calls.old.items ++ filter (λ e. not e.has_group) entries.now) }
{
    for entry in entries {
        if !entry.has_group {
            calls.push(Call { entry })?;
        }
    }
    Ok(())
}

/// The entries of all tables that name frames, in order.
fn calls<'a>(alloc: Global, tables: &'a [Table]) -> Result<Vec<Call<'a>>, AllocError>
    ensures { IfOk result (λ v. map (λ c. c.entry.now) v.items ≡ calls tables.now) }
{
    let mut calls = Vec::new(alloc);
    for table in tables {
        add_calls(&mut calls, table.entries.as_slice())?;
    }
    Ok(calls)
}

/// The delay of the first entry that names a frame.
fn first_delay(numbers: &Numbers<'_>, calls: &[Call<'_>], name: &Name) -> Option<Number>
    requires { NumbersFirst (λ c. c.entry.now.name) calls.now numbers.now.map }
    ensures { result
        ≡ option_map (λ c. c.entry.now.delay)
        (find (λ c. same_name c.entry.now.name name.now) calls.now) }
{
    match find_by(numbers, calls, name) {
        Some(call) => Some(call.entry.delay),
        None => None,
    }
}
