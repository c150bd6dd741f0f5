//! The walk over a description: each condition is asked where the walk comes to what it speaks of.

ghost use Rattle.std.specs.Prelude.{◌≡◌, ◌++◌, OnOk};
ghost use Rattle.lin_cluster.specs.Findings.{in_frames, in_declarations};

use super::facts::AllSignalFacts;
use super::judged::DeclarationFacts;
use super::known::Known;
use super::limits::{long_table, too_long};
use super::members::members_in_order;
use super::places::signals_in_order;
use super::sizes::{bad_frame_size, bad_init, bad_signal_size};
use super::slots::{short_slot, zero_delay};
use super::tables::{empty_table, resolving_table};
use super::unknown_names::unknown_node;
use super::walk::{Finds, at_name, each, push_when};
use crate::finding::{Finding, FindingKind};
use lin_parts::description::{Attributes, EventFrame, Frame, Signal, Sporadic, Table, TableEntry};
use std::alloc::AllocError;

impl<'a> Finds<Signal> for Known<'a> {
    ghost use Rattle.lin_cluster.specs.Findings.{in_signal};

    ghost finds = { in_signal };

    fn find(&self, found: &mut Vec<Finding>, signal: &Signal) -> Result<(), AllocError> {
        unknown_node(found, self, &signal.publisher)?;
        each(found, self, signal.subscribers.as_slice())?;
        bad_signal_size(found, signal)?;
        bad_init(found, signal)
    }
}

impl<'a> Finds<Frame> for AllSignalFacts<'a> {
    ghost use Rattle.lin_cluster.specs.Findings.{in_frame};

    ghost finds = { in_frame };

    fn find(&self, found: &mut Vec<Finding>, frame: &Frame) -> Result<(), AllocError> {
        unknown_node(found, &self.known, &frame.publisher)?;
        bad_frame_size(found, frame)?;
        signals_in_order(found, self, frame, frame.placed.as_slice())
    }
}

impl<'a> Finds<Sporadic> for DeclarationFacts<'a> {
    ghost use Rattle.lin_cluster.specs.Findings.{in_sporadic};

    ghost finds = { in_sporadic };

    fn find(&self, found: &mut Vec<Finding>, frame: &Sporadic) -> Result<(), AllocError> {
        each(found, self, frame.members.as_slice())
    }
}

impl<'a> Finds<EventFrame> for DeclarationFacts<'a> {
    ghost use Rattle.lin_cluster.specs.Findings.{in_event};

    ghost finds = { in_event };

    fn find(&self, found: &mut Vec<Finding>, event: &EventFrame) -> Result<(), AllocError> {
        resolving_table(found, self, event)?;
        members_in_order(found, self, event.members.as_slice())
    }
}

impl<'a> Finds<Attributes> for Known<'a> {
    ghost use Rattle.lin_cluster.specs.Findings.{in_attributes};

    ghost finds = { in_attributes };

    fn find(&self, found: &mut Vec<Finding>, block: &Attributes) -> Result<(), AllocError> {
        unknown_node(found, self, &block.node)
    }
}

impl<'a> Finds<TableEntry> for DeclarationFacts<'a> {
    ghost use Rattle.lin_cluster.specs.Findings.{in_entry};

    ghost finds = { in_entry };

    fn find(&self, found: &mut Vec<Finding>, entry: &TableEntry) -> Result<(), AllocError> {
        let slot = self.slot(entry);
        push_when(
            found,
            slot.is_unknown,
            at_name(FindingKind::UnknownName, &entry.name),
        )?;
        short_slot(found, &self.signals.known, entry, slot.size)?;
        zero_delay(found, entry)?;
        too_long(found, &entry.delay)
    }
}

impl<'a> Finds<Table> for DeclarationFacts<'a> {
    ghost use Rattle.lin_cluster.specs.Findings.{in_table};

    ghost finds = { in_table };

    fn find(&self, found: &mut Vec<Finding>, table: &Table) -> Result<(), AllocError> {
        empty_table(found, table)?;
        long_table(found, table)?;
        each(found, self, table.entries.as_slice())
    }
}

fn in_frames(found: &mut Vec<Finding>, judged: &DeclarationFacts) -> Result<(), AllocError>
    ensures { OnOk result (found.new.items ≡ found.old.items ++ in_frames judged.now) }
{
    let signals = &judged.signals;
    let description = signals.known.description;
    each(found, signals, description.frames())?;
    each(found, judged, description.sporadic())?;
    each(found, judged, description.events())
}

/// What is wrong with each declaration; an error means out of memory.
pub(super) fn in_declarations(
    found: &mut Vec<Finding>,
    judged: &DeclarationFacts,
) -> Result<(), AllocError>
    ensures { OnOk result (found.new.items ≡ found.old.items ++ in_declarations judged.now) }
{
    let known = &judged.signals.known;
    let description = known.description;
    each(found, known, description.signals())?;
    in_frames(found, judged)?;
    each(found, known, description.attributes())?;
    each(found, judged, description.tables())
}
