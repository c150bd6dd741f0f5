//! Findings at places, the one walk over items that adds what is found of each, and the one that
//! makes a list of what is worked out of each.

ghost use Rattle.std.specs.Prelude.{◌≡◌, ◌++◌, OnOk, IfOk, map};
ghost use Rattle.std.specs.List.{flat_map};
ghost use Rattle.lin_cluster.specs.FindingsNames.{at_name, at_number, when};

use crate::finding::{Finding, FindingKind};
use lin_parts::Location;
use lin_parts::description::{Name, Number};
use std::alloc::{AllocError, Global};

/// What finds what is wrong with an item.
pub(crate) trait Finds<T> {
    ghost use Rattle.std.specs.Prelude.{◌≡◌, ◌++◌, OnOk, List};
    ghost use Rattle.lin_cluster.specs.declared.finding.Finding.{Finding};

    ghost finds: { Self → T → List Finding };

    /// Adds what is wrong with the item; an error means out of memory.
    fn find(&self, found: &mut Vec<Finding>, item: &T) -> Result<(), AllocError>
        ensures { OnOk result (found.new.items ≡ found.old.items ++ finds self.now item.now) };
}

/// Adds what is wrong with each item, in order; an error means out of memory.
pub(crate) fn each<T, F: Finds<T>>(
    found: &mut Vec<Finding>,
    finder: &F,
    items: &[T],
) -> Result<(), AllocError>
    ensures { OnOk result
        (found.new.items ≡ found.old.items ++ flat_map (F.finds finder.now) items.now) }
{
    for item in items {
        finder.find(found, item)?;
    }
    Ok(())
}

/// What works something out of an item.
pub(super) trait Makes<T, V> {
    ghost makes: { Self → T → V };

    fn make(&self, item: &T) -> V
        ensures { result ≡ makes self.now item.now };
}

/// What is worked out of each item, in order; an error means out of memory.
pub(super) fn made_of_each<T, V, M: Makes<T, V>>(
    alloc: Global,
    maker: &M,
    items: &[T],
) -> Result<Vec<V>, AllocError>
where
    V: Drop,
    ensures { IfOk result (λ made. made.items ≡ map (M.makes maker.now) items.now) }
{
    let mut made = Vec::with_capacity(alloc, items.len())?;
    for item in items {
        made.push(maker.make(item))?;
    }
    Ok(made)
}

/// The finding of this kind at a name.
pub fn at_name(kind: FindingKind, name: &Name) -> Finding
    ensures { result ≡ at_name kind name.now }
{
    Finding::new(
        kind,
        Location {
            line: name.line,
            column: name.column,
        },
    )
}

/// The finding of this kind at a number.
pub fn at_number(kind: FindingKind, place: &Number) -> Finding
    ensures { result ≡ at_number kind place.now }
{
    Finding::new(
        kind,
        Location {
            line: place.line,
            column: place.column,
        },
    )
}

/// Adds the finding where the condition holds; an error means out of memory.
pub fn push_when(found: &mut Vec<Finding>, holds: bool, finding: Finding) -> Result<(), AllocError>
    ensures { OnOk result (found.new.items ≡ found.old.items ++ when holds finding) }
{
    if holds {
        found.push(finding)?;
    }
    Ok(())
}
