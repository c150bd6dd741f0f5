//! Warnings of a description in which nothing is wrong, 51 to 59 and 61 to 64.

mod configurable;
mod resolving;
mod sets;
mod signals;
mod uses;
mod warned;

ghost use Rattle.std.specs.Prelude.{◌≡◌, ◌++◌, IfOk, OnOk};
ghost use Rattle.lin_cluster.specs.Lint.{lints, of_frames, of_nodes, AreLints};

use crate::finding::Finding;
use crate::findings::each;
pub use configurable::Configurable;
use lin_parts::description::{Description, Name};
use signals::of_signals;
use std::alloc::{AllocError, Global};
use uses::Uses;

fn of_frames(found: &mut Vec<Finding>, uses: &Uses) -> Result<(), AllocError>
    ensures { OnOk result (found.new.items ≡ found.old.items ++ of_frames uses.now) }
{
    let description = uses.description;
    each(found, uses, description.frames())?;
    each(found, uses, description.sporadic())?;
    each(found, uses, description.events())
}

fn of_nodes(found: &mut Vec<Finding>, uses: &Uses) -> Result<(), AllocError>
    ensures { OnOk result (found.new.items ≡ found.old.items ++ of_nodes uses.now) }
{
    let description = uses.description;
    each(found, uses, description.slaves())?;
    each(found, uses, description.attributes())
}

fn unordered(
    alloc: Global,
    description: &Description,
    placed_elsewhere: &[Name],
    configurables: &[Configurable],
) -> Result<Vec<Finding>, AllocError>
    ensures { IfOk result
        (λ found. found.items
        ≡ lints description.now placed_elsewhere.now configurables.now) }
{
    let uses = Uses::new(alloc, description)?;
    let mut found = Vec::new(alloc);
    of_signals(&mut found, alloc, description, placed_elsewhere)?;
    of_frames(&mut found, &uses)?;
    each(&mut found, &uses, description.tables())?;
    of_nodes(&mut found, &uses)?;
    each(&mut found, &uses, configurables)?;
    Ok(found)
}

/// Finds all that is warned of a description in which nothing is wrong, and of the configurable frames
/// of its nodes, by place and then by number. `placed_elsewhere` has the names of signals that frames
/// outside the description have, such as the diagnostic frames that an LDF may declare.
///
/// An error means out of memory.
pub fn lint(
    alloc: Global,
    description: &Description,
    placed_elsewhere: &[Name],
    configurables: &[Configurable],
) -> Result<Vec<Finding>, AllocError>
    ensures { IfOk result
        (λ found. AreLints description.now placed_elsewhere.now configurables.now found.items) }
{
    let mut found = unordered(alloc, description, placed_elsewhere, configurables)?;
    found.sort()?;
    Ok(found)
}
