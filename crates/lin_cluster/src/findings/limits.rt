//! Limit passed (17): of what is counted the first one too many is found.

ghost use Rattle.std.specs.Prelude.{◌≡◌, ◌++◌, OnOk, slice_get};
ghost use Rattle.lin_cluster.specs.Limits.{past, too_long, long_table, frame_limits, time_limits};
ghost use Rattle.lin_cluster.specs.Limits.{limits_passed};

use super::slots::is_speed;
use super::walk::{at_name, at_number, push_when};
use crate::finding::{Finding, FindingKind};
use crate::names::Named;
use lin_parts::description::{Description, Name, Number, Table, TableEntry};
use std::alloc::AllocError;

impl Named for TableEntry {
    ghost name_of = { λ e. e.name };

    fn name(&self) -> &Name {
        &self.name
    }
}

fn past<T: Named>(found: &mut Vec<Finding>, all: &[T], limit: usize) -> Result<(), AllocError>
    ensures { OnOk result
        (found.new.items ≡ found.old.items ++ past T.name_of (slice_get all.now limit)) }
{
    match all.get(limit) {
        Some(one) => Ok(found.push(at_name(FindingKind::LimitPassed, one.name()))?),
        None => Ok(()),
    }
}

/// A time above its limit.
pub(super) fn too_long(found: &mut Vec<Finding>, time: &Number) -> Result<(), AllocError>
    ensures { OnOk result (found.new.items ≡ found.old.items ++ too_long time.now) }
{
    push_when(
        found,
        1_000_000_000 < time.value,
        at_number(FindingKind::LimitPassed, time),
    )
}

/// The first entry too many of a table.
pub(super) fn long_table(found: &mut Vec<Finding>, table: &Table) -> Result<(), AllocError>
    ensures { OnOk result (found.new.items ≡ found.old.items ++ long_table table.now) }
{
    past(found, table.entries.as_slice(), 1024)
}

fn frame_limits(found: &mut Vec<Finding>, description: &Description) -> Result<(), AllocError>
    ensures { OnOk result (found.new.items ≡ found.old.items ++ frame_limits description.now) }
{
    past(found, description.signals(), 1024)?;
    past(found, description.frames(), 60)?;
    past(found, description.sporadic(), 256)?;
    past(found, description.events(), 60)
}

fn time_limits(found: &mut Vec<Finding>, description: &Description) -> Result<(), AllocError>
    ensures { OnOk result (found.new.items ≡ found.old.items ++ time_limits description.now) }
{
    let is_good = is_speed(description.speed.value);
    push_when(
        found,
        !is_good,
        at_number(FindingKind::LimitPassed, &description.speed),
    )?;
    too_long(found, &description.time_base)?;
    too_long(found, &description.jitter)
}

/// What is counted or measured beyond its limit.
pub(super) fn limits_passed(
    found: &mut Vec<Finding>,
    description: &Description,
) -> Result<(), AllocError>
    ensures { OnOk result (found.new.items ≡ found.old.items ++ limits_passed description.now) }
{
    past(found, description.slaves(), 15)?;
    frame_limits(found, description)?;
    past(found, description.tables(), 256)?;
    time_limits(found, description)
}
