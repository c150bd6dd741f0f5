//! Members of event-triggered and sporadic frames beside these, and the tables that resolve collisions
//! (61 to 64).

ghost use Rattle.std.specs.Prelude.{◌≡◌, ◌++◌, List, ℕ, OnOk, IfOk};
ghost use Rattle.std.specs.List.{flat_map};
ghost use Rattle.lin_cluster.specs.FindingsNames.{table_named};
ghost use Rattle.lin_cluster.specs.Lint.{of_entry, unresolved_member};
ghost use Rattle.lin_cluster.specs.LintNames.{has_text, has_entry, has_event_of, has_sporadic_of};
ghost use Rattle.lin_cluster.specs.LintNames.{is_resolving};

use super::sets::{Adds, NameSet, add_each, no_names};
use super::uses::{Standing, Uses};
use crate::finding::{Finding, FindingKind};
use crate::findings::{Finds, at_name, at_number, carries_frame, each, push_when};
use crate::names::is_name;
use lin_parts::description::{Description, EventFrame, Name, Sporadic, Table, TableEntry};
use std::alloc::{AllocError, Global};

// The names of the frames that a table has entries for, of whatever kind.
fn entries_of<'a>(alloc: Global, table: &'a Table) -> Result<NameSet<'a>, AllocError>
    ensures { IfOk result (λ s. (q : List ℕ) → has_text s.names q ≡ has_entry table.now q) }
{
    let mut names = no_names(alloc, table.entries.as_slice().len())?;
    add_each(&mut names, &Standing, table.entries.as_slice())?;
    Ok(names)
}

/// The frames that a table has entries for.
#[derive(Clone, Copy)]
struct Entries<'s, 'a> {
    names: &'s NameSet<'a>,
}

// The members of an event-triggered frame with an entry.
impl<'s, 'b> Adds<EventFrame> for Entries<'s, 'b> {
    ghost use Rattle.std.specs.Prelude.{◌&&◌};
    ghost use Rattle.lin_cluster.specs.LintNames.{has_text, is_among_names};

    ghost adds = { λ s v q. has_text s.names.now.names v.name.text && is_among_names v.members q };

    fn add_of<'a>(&self, names: &mut NameSet<'a>, event: &'a EventFrame) -> Result<(), AllocError> {
        if self.names.has(&event.name) {
            add_each(names, &Standing, event.members.as_slice())?;
        }
        Ok(())
    }
}

// The members of a sporadic frame with an entry.
impl<'s, 'b> Adds<Sporadic> for Entries<'s, 'b> {
    ghost use Rattle.std.specs.Prelude.{◌&&◌};
    ghost use Rattle.lin_cluster.specs.LintNames.{has_text, is_among_names};

    ghost adds = { λ s f q. has_text s.names.now.names f.name.text && is_among_names f.members q };

    fn add_of<'a>(&self, names: &mut NameSet<'a>, frame: &'a Sporadic) -> Result<(), AllocError> {
        if self.names.has(&frame.name) {
            add_each(names, &Standing, frame.members.as_slice())?;
        }
        Ok(())
    }
}

// The frames that the event-triggered frames of a table list.
fn event_members<'a>(
    alloc: Global,
    description: &'a Description,
    table: &Table,
) -> Result<NameSet<'a>, AllocError>
    ensures { IfOk result
        (λ s. (q : List ℕ)
        → has_text s.names q ≡ has_event_of description.now table.now q) }
{
    let entries = entries_of(alloc, table)?;
    let mut names = no_names(alloc, 0)?;
    add_each(
        &mut names,
        &Entries { names: &entries },
        description.events(),
    )?;
    Ok(names)
}

// Those that its sporadic frames list.
fn sporadic_members<'a>(
    alloc: Global,
    description: &'a Description,
    table: &Table,
) -> Result<NameSet<'a>, AllocError>
    ensures { IfOk result
        (λ s. (q : List ℕ)
        → has_text s.names q ≡ has_sporadic_of description.now table.now q) }
{
    let entries = entries_of(alloc, table)?;
    let mut names = no_names(alloc, 0)?;
    add_each(
        &mut names,
        &Entries { names: &entries },
        description.sporadic(),
    )?;
    Ok(names)
}

// Whether a table resolves the collisions of an event-triggered frame.
fn is_resolving(description: &Description, table: &Table) -> bool
    ensures { result ≡ is_resolving description.now table.now }
{
    description
        .events()
        .iter()
        .any(|event| is_name(&event.table, &table.name))
}

/// A table of the text, with the frames that its event-triggered and its sporadic frames list.
struct TableMembers<'u, 'b, 'a> {
    uses: &'u Uses<'b>,
    events: NameSet<'a>,
    sporadic: NameSet<'a>,
    is_resolving: bool,
}

// Written out, so that what owns one lets it go in one step.
impl<'u, 'b, 'a> Drop for TableMembers<'u, 'b, 'a> {
    fn drop(self) {
        let TableMembers {
            uses: _,
            events: _events,
            sporadic: _sporadic,
            is_resolving: _,
        } = self;
    }
}

// A member beside its event-triggered (61) or its sporadic frame (62), an entry that resolves no
// collision (64), and a delay off the time base (56).
impl<'u, 'b, 'a> Finds<TableEntry> for TableMembers<'u, 'b, 'a> {
    ghost use Rattle.std.specs.Prelude.{◌++◌, ◌&&◌, not};
    ghost use Rattle.lin_cluster.specs.FindingsNames.{at_name, carries_frame, when};
    ghost use Rattle.lin_cluster.specs.Lint.{off_time_base};
    ghost use Rattle.lin_cluster.specs.LintNames.{has_text, is_frame};
    ghost use Rattle.lin_cluster.specs.declared.finding.FindingKind.TheVariants.{EventMemberBeside};
    ghost use Rattle.lin_cluster.specs.declared.finding.FindingKind.TheVariants.{SporadicMemberBeside};
    ghost use Rattle.lin_cluster.specs.declared.finding.FindingKind.TheVariants.{ResolvingEntry};

    ghost finds = { λ l e.
        when (carries_frame e && has_text l.events.names e.name.text)
        (at_name EventMemberBeside e.name)
        ++ when (carries_frame e && has_text l.sporadic.names e.name.text)
        (at_name SporadicMemberBeside e.name)
        ++ when (l.is_resolving && not (carries_frame e && is_frame l.uses.now e.name.text))
        (at_name ResolvingEntry e.name)
        ++ off_time_base l.uses.now e };

    fn find(&self, found: &mut Vec<Finding>, entry: &TableEntry) -> Result<(), AllocError> {
        let is_beside_event = carries_frame(entry) && self.events.has(&entry.name);
        push_when(
            found,
            is_beside_event,
            at_name(FindingKind::EventMemberBeside, &entry.name),
        )?;
        let is_beside_sporadic = carries_frame(entry) && self.sporadic.has(&entry.name);
        push_when(
            found,
            is_beside_sporadic,
            at_name(FindingKind::SporadicMemberBeside, &entry.name),
        )?;
        let resolves = carries_frame(entry) && self.uses.is_frame(&entry.name);
        push_when(
            found,
            self.is_resolving && !resolves,
            at_name(FindingKind::ResolvingEntry, &entry.name),
        )?;
        push_when(
            found,
            self.uses.is_off_time_base(entry),
            at_number(FindingKind::OffTimeBase, &entry.delay),
        )
    }
}

/// What is warned of each entry of a table of the text.
pub(super) fn of_entries(
    found: &mut Vec<Finding>,
    uses: &Uses<'_>,
    table: &Table,
) -> Result<(), AllocError>
    ensures { OnOk result
        (found.new.items
        ≡ found.old.items ++ flat_map (of_entry uses.now table.now) table.now.entries) }
{
    let description = uses.whole();
    let events = event_members(uses.alloc, description, table)?;
    let sporadic = sporadic_members(uses.alloc, description, table)?;
    let is_resolving = is_resolving(description, table);
    let listed = TableMembers {
        uses,
        events,
        sporadic,
        is_resolving,
    };
    each(found, &listed, table.entries.as_slice())
}

/// The frames for which a table that resolves collisions has entries.
#[derive(Drop)]
struct Resolved<'a> {
    entries: NameSet<'a>,
}

// A member that isn't resolved (63).
impl<'a> Finds<Name> for Resolved<'a> {
    ghost use Rattle.std.specs.Prelude.{not};
    ghost use Rattle.lin_cluster.specs.FindingsNames.{at_name, when};
    ghost use Rattle.lin_cluster.specs.LintNames.{has_text};
    ghost use Rattle.lin_cluster.specs.declared.finding.FindingKind.TheVariants.{UnresolvedMember};

    ghost finds = { λ r m. when (not (has_text r.entries.names m.text))
        (at_name UnresolvedMember m) };

    fn find(&self, found: &mut Vec<Finding>, member: &Name) -> Result<(), AllocError> {
        push_when(
            found,
            !self.entries.has(member),
            at_name(FindingKind::UnresolvedMember, member),
        )
    }
}

/// The members of an event-triggered frame that the table of its collisions, if it is declared, has no
/// entry for.
pub(super) fn unresolved_members(
    found: &mut Vec<Finding>,
    uses: &Uses<'_>,
    event: &EventFrame,
) -> Result<(), AllocError>
    ensures { OnOk result
        (found.new.items
        ≡ found.old.items
        ++ flat_map (unresolved_member (table_named uses.now event.now.table)) event.now.members) }
{
    let Some(table) = uses.table(&event.table) else {
        return Ok(());
    };
    let entries = entries_of(uses.alloc, table)?;
    each(found, &Resolved { entries }, event.members.as_slice())
}
