//! Where the names of a description stand, looked up once.

ghost use Rattle.std.specs.Prelude.{◌≡◌, List, ℕ, IfOk};
ghost use Rattle.std.specs.List.{list_any};
ghost use Rattle.std.specs.Option.{option_copied};
ghost use Rattle.lin_cluster.specs.FindingsNames.{signal_named, table_named};
ghost use Rattle.lin_cluster.specs.Lint.{is_off};
ghost use Rattle.lin_cluster.specs.LintNames.{has_dot, has_text, is_member_name, is_of_text};
ghost use Rattle.lin_cluster.specs.LintNames.{is_scheduled, is_addressed, is_diagnostic_entry};
ghost use Rattle.lin_cluster.specs.LintNames.{has_diagnostics, is_frame, AreUses};

use super::sets::{Adds, NameSet, add_each, no_names};
use super::warned::is_off;
use crate::findings::{carries_frame, is_diagnostic};
use crate::names::{Numbers, find_by, numbers_of};
use lin_parts::description::{
    Attributes, Description, EventFrame, Frame, Name, PlacedSignal, Signal, Sporadic, Table,
    TableEntry,
};
use std::alloc::{AllocError, Global};
use std::marker::Model;

/// What adds names as they stand.
#[derive(Clone, Copy)]
pub(super) struct Standing;

impl Adds<PlacedSignal> for Standing {
    ghost use Rattle.std.specs.Str.{bytes_eq};

    ghost adds = { λ x p q. bytes_eq p.signal.text q };

    fn add_of<'a>(
        &self,
        names: &mut NameSet<'a>,
        placed: &'a PlacedSignal,
    ) -> Result<(), AllocError> {
        names.add(&placed.signal)
    }
}

// The signals of a frame.
impl Adds<Frame> for Standing {
    ghost use Rattle.std.specs.List.{list_any};
    ghost use Rattle.std.specs.Str.{bytes_eq};

    ghost adds = { λ x f q. list_any (λ p. bytes_eq p.signal.text q) f.placed };

    fn add_of<'a>(&self, names: &mut NameSet<'a>, frame: &'a Frame) -> Result<(), AllocError> {
        add_each(names, self, frame.placed.as_slice())
    }
}

impl Adds<Name> for Standing {
    ghost use Rattle.std.specs.Str.{bytes_eq};

    ghost adds = { λ x n q. bytes_eq n.text q };

    fn add_of<'a>(&self, names: &mut NameSet<'a>, name: &'a Name) -> Result<(), AllocError> {
        names.add(name)
    }
}

// The members of a sporadic frame.
impl Adds<Sporadic> for Standing {
    ghost use Rattle.lin_cluster.specs.LintNames.{is_among_names};

    ghost adds = { λ x f q. is_among_names f.members q };

    fn add_of<'a>(&self, names: &mut NameSet<'a>, frame: &'a Sporadic) -> Result<(), AllocError> {
        add_each(names, self, frame.members.as_slice())
    }
}

// The members of an event-triggered frame.
impl Adds<EventFrame> for Standing {
    ghost use Rattle.lin_cluster.specs.LintNames.{is_among_names};

    ghost adds = { λ x e q. is_among_names e.members q };

    fn add_of<'a>(&self, names: &mut NameSet<'a>, event: &'a EventFrame) -> Result<(), AllocError> {
        add_each(names, self, event.members.as_slice())
    }
}

// What an entry is for, where that is a frame.
impl Adds<TableEntry> for Standing {
    ghost use Rattle.lin_cluster.specs.LintNames.{is_entry_for};

    ghost adds = { λ x e q. is_entry_for q e };

    fn add_of<'a>(&self, names: &mut NameSet<'a>, entry: &'a TableEntry) -> Result<(), AllocError> {
        if carries_frame(entry) {
            names.add(&entry.name)?;
        }
        Ok(())
    }
}

fn has_dot(text: &[u8]) -> bool
    ensures { result ≡ has_dot text.now }
{
    text.iter().any(|c| *c == b'.')
}

/// Whether a table is one of the text, and none that settling a text of the field adds.
pub(super) fn is_of_text(table: &Table) -> bool
    ensures { result ≡ is_of_text table.now }
{
    !has_dot(table.name.text.as_slice())
}

// What the entries of a table of the text are for.
impl Adds<Table> for Standing {
    ghost use Rattle.std.specs.Prelude.{◌&&◌};
    ghost use Rattle.std.specs.List.{list_any};
    ghost use Rattle.lin_cluster.specs.LintNames.{is_entry_for, is_of_text};

    ghost adds = { λ x t q. is_of_text t && list_any (is_entry_for q) t.entries };

    fn add_of<'a>(&self, names: &mut NameSet<'a>, table: &'a Table) -> Result<(), AllocError> {
        if is_of_text(table) {
            add_each(names, self, table.entries.as_slice())?;
        }
        Ok(())
    }
}

// The node of a block of attributes that tells an address.
impl Adds<Attributes> for Standing {
    ghost use Rattle.std.specs.Prelude.{◌&&◌, is_some};
    ghost use Rattle.std.specs.Str.{bytes_eq};

    ghost adds = { λ x a q. is_some a.configured_nad && bytes_eq a.node.text q };

    fn add_of<'a>(&self, names: &mut NameSet<'a>, block: &'a Attributes) -> Result<(), AllocError> {
        if block.configured_nad.is_some() {
            names.add(&block.node)?;
        }
        Ok(())
    }
}

/// What adds the names of declarations.
#[derive(Clone, Copy)]
struct OwnNames;

impl Adds<Frame> for OwnNames {
    ghost use Rattle.std.specs.Str.{bytes_eq};

    ghost adds = { λ x f q. bytes_eq f.name.text q };

    fn add_of<'a>(&self, names: &mut NameSet<'a>, frame: &'a Frame) -> Result<(), AllocError> {
        names.add(&frame.name)
    }
}

fn declared<'a>(alloc: Global, description: &'a Description) -> Result<NameSet<'a>, AllocError>
    ensures { IfOk result (λ s. (q : List ℕ) → has_text s.names q ≡ is_frame description.now q) }
{
    let mut names = no_names(alloc, description.frames().len())?;
    add_each(&mut names, &OwnNames, description.frames())?;
    Ok(names)
}

fn listed<'a>(alloc: Global, description: &'a Description) -> Result<NameSet<'a>, AllocError>
    ensures { IfOk result (λ s. (q : List ℕ) → has_text s.names q ≡ is_member_name description.now q) }
{
    let mut names = no_names(alloc, 0)?;
    add_each(&mut names, &Standing, description.sporadic())?;
    add_each(&mut names, &Standing, description.events())?;
    Ok(names)
}

fn scheduled<'a>(alloc: Global, description: &'a Description) -> Result<NameSet<'a>, AllocError>
    ensures { IfOk result
        (λ s. (q : List ℕ) → has_text s.names q ≡ is_scheduled description.now q) }
{
    let mut names = no_names(alloc, description.frames().len())?;
    add_each(&mut names, &Standing, description.tables())?;
    Ok(names)
}

fn addressed<'a>(alloc: Global, description: &'a Description) -> Result<NameSet<'a>, AllocError>
    ensures { IfOk result
        (λ s. (q : List ℕ) → has_text s.names q ≡ is_addressed description.now q) }
{
    let mut names = no_names(alloc, description.attributes().len())?;
    add_each(&mut names, &Standing, description.attributes())?;
    Ok(names)
}

fn is_diagnostic_entry(entry: &TableEntry) -> bool
    ensures { result ≡ is_diagnostic_entry entry.now }
{
    !entry.has_group && is_diagnostic(&entry.name)
}

fn has_diagnostic_entry(entries: &[TableEntry]) -> bool
    ensures { result ≡ list_any is_diagnostic_entry entries.now }
{
    entries.iter().any(|entry| is_diagnostic_entry(entry))
}

fn has_diagnostics(description: &Description) -> bool
    ensures { result ≡ has_diagnostics description.now }
{
    description.tables().iter().any(|table| is_of_text(table)
        && has_diagnostic_entry(table.entries.as_slice()))
}

/// Where the names of a description stand. Contracts see the description.
pub(super) struct Uses<'a> {
    pub(super) alloc: Global,
    pub(super) description: &'a Description,
    listed: NameSet<'a>,
    scheduled: NameSet<'a>,
    addressed: NameSet<'a>,
    signals: Numbers<'a>,
    frames: NameSet<'a>,
    tables: Numbers<'a>,
    has_diagnostics: bool,
}

impl<'a> Model for Uses<'a> {
    ghost use Rattle.lin_cluster.specs.LintNames.{AreUses};
    ghost use Rattle.lin_parts.specs.declared.description.Description.{Description};

    ghost Value = { Description };

    ghost view = { λ u. u.description.now };

    ghost invariant = { λ u. AreUses u.description.now u.listed.names u.scheduled.names
        u.addressed.names u.signals.map u.frames.names u.tables.map u.has_diagnostics };
}

// Written out, so that what owns one lets it go in one step.
impl<'a> Drop for Uses<'a> {
    fn drop(self) {
        let Uses {
            alloc: _,
            description: _,
            listed: _listed,
            scheduled: _scheduled,
            addressed: _addressed,
            signals: _signals,
            frames: _frames,
            tables: _tables,
            has_diagnostics: _,
        } = self;
    }
}

impl<'a> Uses<'a> {
    /// Each name is looked at once; an error means out of memory.
    pub(super) fn new(alloc: Global, description: &'a Description) -> Result<Uses<'a>, AllocError>
        ensures { IfOk result (λ u. u ≡ description.now) }
    {
        let listed = listed(alloc, description)?;
        let scheduled = scheduled(alloc, description)?;
        let addressed = addressed(alloc, description)?;
        let signals = numbers_of(alloc, description.signals())?;
        let frames = declared(alloc, description)?;
        let tables = numbers_of(alloc, description.tables())?;
        let has_diagnostics = has_diagnostics(description);
        Ok(Uses {
            alloc,
            description,
            listed,
            scheduled,
            addressed,
            signals,
            frames,
            tables,
            has_diagnostics,
        })
    }

    /// Whether a sporadic or an event-triggered frame lists the frame.
    pub(super) fn is_listed(&self, name: &Name) -> bool
        ensures { result ≡ is_member_name self.now name.now.text }
    {
        self.listed.has(name)
    }

    /// Whether a table has an entry for the frame, of whatever kind.
    pub(super) fn is_scheduled(&self, name: &Name) -> bool
        ensures { result ≡ is_scheduled self.now name.now.text }
    {
        self.scheduled.has(name)
    }

    /// Whether a block of attributes tells an address of the node.
    pub(super) fn is_addressed(&self, name: &Name) -> bool
        ensures { result ≡ is_addressed self.now name.now.text }
    {
        self.addressed.has(name)
    }

    /// Whether a table has an entry for a diagnostic frame.
    pub(super) fn has_diagnostics(&self) -> bool
        ensures { result ≡ has_diagnostics self.now }
    {
        self.has_diagnostics
    }

    /// Whether an unconditional frame has the name.
    pub(super) fn is_frame(&self, name: &Name) -> bool
        ensures { result ≡ is_frame self.now name.now.text }
    {
        self.frames.has(name)
    }

    /// The description.
    pub(super) fn whole(&self) -> &'a Description
        ensures { result.now ≡ self.now }
    {
        self.description
    }

    /// Whether the delay of an entry is no multiple of the time base.
    pub(super) fn is_off_time_base(&self, entry: &TableEntry) -> bool
        ensures { result ≡ is_off self.now.time_base.value entry.now.delay.value }
    {
        is_off(self.description.time_base.value, entry.delay.value)
    }

    pub(super) fn table(&self, name: &Name) -> Option<&'a Table>
        ensures { option_copied result ≡ table_named self.now name.now }
    {
        find_by(&self.tables, self.description.tables(), name)
    }

    pub(super) fn signal(&self, name: &Name) -> Option<&'a Signal>
        ensures { option_copied result ≡ signal_named self.now name.now }
    {
        find_by(&self.signals, self.description.signals(), name)
    }
}
