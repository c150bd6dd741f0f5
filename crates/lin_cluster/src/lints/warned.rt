//! Warnings of each declaration other than signals.

ghost use Rattle.std.specs.Prelude.{◌≡◌, ◌++◌, OnOk, false};
ghost use Rattle.std.specs.Option.{option_map_or};
ghost use Rattle.lin_cluster.specs.FindingsNames.{signal_named};
ghost use Rattle.lin_cluster.specs.Lint.{unscheduled_frame, is_off, is_j2602, has_error_size};
ghost use Rattle.lin_cluster.specs.Lint.{is_response_error};

use super::configurable::{Configurable, bad_configurables};
use super::resolving::{of_entries, unresolved_members};
use super::uses::{Uses, is_of_text};
use crate::finding::{Finding, FindingKind};
use crate::findings::{Finds, at_name, push_when};
use crate::names::is_name;
use lin_parts::description::{Attributes, EventFrame, Frame, Name, Sporadic, Table};
use std::alloc::AllocError;

// Unused frame (52).
impl<'a> Finds<Frame> for Uses<'a> {
    ghost use Rattle.lin_cluster.specs.Lint.{unused_frame};

    ghost finds = { unused_frame };

    fn find(&self, found: &mut Vec<Finding>, frame: &Frame) -> Result<(), AllocError> {
        let is_used = self.is_scheduled(&frame.name) || self.is_listed(&frame.name);
        push_when(
            found,
            !is_used,
            at_name(FindingKind::UnusedFrame, &frame.name),
        )
    }
}

// Unscheduled frame (53).
fn unscheduled(found: &mut Vec<Finding>, uses: &Uses, name: &Name) -> Result<(), AllocError>
    ensures { OnOk result (found.new.items ≡ found.old.items ++ unscheduled_frame uses.now name.now) }
{
    push_when(
        found,
        !uses.is_scheduled(name),
        at_name(FindingKind::UnscheduledFrame, name),
    )
}

impl<'a> Finds<Sporadic> for Uses<'a> {
    ghost use Rattle.lin_cluster.specs.Lint.{unscheduled_sporadic};

    ghost finds = { unscheduled_sporadic };

    fn find(&self, found: &mut Vec<Finding>, frame: &Sporadic) -> Result<(), AllocError> {
        unscheduled(found, self, &frame.name)
    }
}

impl<'a> Finds<EventFrame> for Uses<'a> {
    ghost use Rattle.lin_cluster.specs.Lint.{of_event};

    ghost finds = { of_event };

    fn find(&self, found: &mut Vec<Finding>, event: &EventFrame) -> Result<(), AllocError> {
        unscheduled(found, self, &event.name)?;
        unresolved_members(found, self, event)
    }
}

/// Whether a delay is no multiple of the time base.
pub(super) fn is_off(base: u32, delay: u32) -> bool
    ensures { result ≡ is_off base delay }
{
    if base == 0 {
        return false;
    }
    !(delay % base == 0)
}

impl<'a> Finds<Table> for Uses<'a> {
    ghost use Rattle.lin_cluster.specs.Lint.{of_table};

    ghost finds = { of_table };

    fn find(&self, found: &mut Vec<Finding>, table: &Table) -> Result<(), AllocError> {
        if is_of_text(table) {
            of_entries(found, self, table)?;
        }
        Ok(())
    }
}

// A responder: no address (57).
impl<'a> Finds<Name> for Uses<'a> {
    ghost use Rattle.lin_cluster.specs.Lint.{no_address};

    ghost finds = { no_address };

    fn find(&self, found: &mut Vec<Finding>, node: &Name) -> Result<(), AllocError> {
        let is_missing = self.has_diagnostics() && !self.is_addressed(node);
        push_when(found, is_missing, at_name(FindingKind::NoAddress, node))
    }
}

// Whether a node's attributes tell a version of SAE J2602.
fn is_j2602(block: &Attributes) -> bool
    ensures { result ≡ is_j2602 block.now }
{
    match &block.protocol {
        Some(version) => version.as_slice().starts_with(b"J2602".as_slice()),
        None => false,
    }
}

// A bit, or the status byte of a node of SAE J2602.
fn has_error_size(block: &Attributes, size: u32) -> bool
    ensures { result ≡ has_error_size block.now size }
{
    size == 1 || is_j2602(block) && size == 8
}

// Whether the name is that of a signal of such a size that the node publishes.
fn is_response_error(uses: &Uses, block: &Attributes, name: &Name) -> bool
    ensures { result
        ≡ option_map_or (is_response_error block.now) (signal_named uses.now name.now) false }
{
    match uses.signal(name) {
        Some(signal) => {
            is_name(&signal.publisher, &block.node) && has_error_size(block, signal.size.value)
        }
        None => false,
    }
}

// Bad response error (58).
impl<'a> Finds<Attributes> for Uses<'a> {
    ghost use Rattle.lin_cluster.specs.Lint.{bad_response_error};

    ghost finds = { bad_response_error };

    fn find(&self, found: &mut Vec<Finding>, block: &Attributes) -> Result<(), AllocError> {
        match &block.response_error {
            Some(name) => push_when(
                found,
                !is_response_error(self, block, name),
                at_name(FindingKind::BadResponseError, name),
            ),
            None => Ok(()),
        }
    }
}

// Bad configurable frame (59).
impl<'a> Finds<Configurable> for Uses<'a> {
    ghost use Rattle.lin_cluster.specs.Lint.{bad_configurables};

    ghost finds = { bad_configurables };

    fn find(
        &self,
        found: &mut Vec<Finding>,
        configurable: &Configurable,
    ) -> Result<(), AllocError> {
        bad_configurables(self.alloc, found, self.description, configurable)
    }
}
