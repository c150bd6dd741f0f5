//! Resolving tables of event-triggered frames: unknown name (1) and nested collision (15); empty
//! table (16).

ghost use Rattle.std.specs.Prelude.{◌≡◌, ◌++◌, ◌==◌, OnOk, length};
ghost use Rattle.lin_cluster.specs.UnknownNames.{unknown_table};
ghost use Rattle.lin_cluster.specs.FindingsNames.{when};
ghost use Rattle.lin_cluster.specs.Tables.{nested_at, empty_table};
ghost use Rattle.lin_cluster.specs.Kinds.{finding_at};
ghost use Rattle.lin_cluster.specs.declared.finding.FindingKind.TheVariants.{EmptyTable};

use super::judged::DeclarationFacts;
use super::walk::{at_name, push_when};
use crate::finding::{Finding, FindingKind};
use lin_parts::Location;
use lin_parts::description::{EventFrame, Table};
use std::alloc::AllocError;

/// A resolving table that isn't there, or that has an event-triggered entry.
pub(super) fn resolving_table(
    found: &mut Vec<Finding>,
    judged: &DeclarationFacts,
    event: &EventFrame,
) -> Result<(), AllocError>
    ensures { OnOk result
        (found.new.items
        ≡ found.old.items ++ unknown_table judged.now event.now ++ nested_at judged.now event.now) }
{
    match judged.nested(&event.table) {
        Some(is_nested) => push_when(
            found,
            is_nested,
            at_name(FindingKind::NestedCollision, &event.table),
        ),
        None => Ok(found.push(at_name(FindingKind::UnknownName, &event.table))?),
    }
}

/// A table without entries.
pub(super) fn empty_table(found: &mut Vec<Finding>, table: &Table) -> Result<(), AllocError>
    ensures { OnOk result (found.new.items ≡ found.old.items ++ empty_table table.now) }
{
    push_when(
        found,
        table.entries.as_slice().is_empty(),
        at_name(FindingKind::EmptyTable, &table.name),
    )
}

/// That there is no table.
pub(super) fn no_table(found: &mut Vec<Finding>, tables: &[Table]) -> Result<(), AllocError>
    ensures { OnOk result
        (found.new.items
        ≡ found.old.items ++ when (length tables.now == 0) (finding_at EmptyTable 1 1)) }
{
    let start = Location { line: 1, column: 1 };
    push_when(
        found,
        tables.is_empty(),
        Finding::new(FindingKind::EmptyTable, start),
    )
}
