//! Bad identifier (3) and identifier twice (4), of frames and of event-triggered frames.

ghost use Rattle.std.specs.Prelude.{◌≡◌, ◌++◌, OnOk, IfOk};
ghost use Rattle.lin_cluster.specs.Identifiers.{ids, bad_ids, ids_twice};

use super::repeats::Repeats;
use super::walk::{Finds, at_number, each, push_when};
use crate::finding::{Finding, FindingKind};
use lin_parts::description::{Description, Number};
use std::alloc::{AllocError, Global};

/// What is asked of an identifier by itself.
#[derive(Clone, Copy)]
struct EachIdentifier;

impl Finds<Number> for EachIdentifier {
    ghost use Rattle.lin_cluster.specs.Identifiers.{bad_id};

    ghost finds = { λ identifiers id. bad_id id };

    fn find(&self, found: &mut Vec<Finding>, id: &Number) -> Result<(), AllocError> {
        push_when(found, 59 < id.value, at_number(FindingKind::BadId, id))
    }
}

impl Finds<Number> for Repeats {
    ghost use Rattle.lin_cluster.specs.Identifiers.{id_twice};

    ghost finds = { id_twice };

    fn find(&self, found: &mut Vec<Finding>, id: &Number) -> Result<(), AllocError> {
        push_when(
            found,
            self.is_repeated(id),
            at_number(FindingKind::IdTwice, id),
        )
    }
}

fn ids(alloc: Global, description: &Description) -> Result<Vec<Number>, AllocError>
    ensures { IfOk result (λ v. v.items ≡ ids description.now) }
{
    let events = description.events();
    description
        .frames()
        .iter()
        .map(|frame| frame.id)
        .chain(events.iter().map(|event| event.id))
        .collect(alloc)
}

/// Identifiers that no signals' frame has, and identifiers that an earlier frame has.
pub(super) fn bad_identifiers(
    alloc: Global,
    found: &mut Vec<Finding>,
    description: &Description,
) -> Result<(), AllocError>
    ensures { OnOk result
        (found.new.items ≡ found.old.items ++ bad_ids description.now ++ ids_twice description.now) }
{
    let ids = Repeats::new(alloc, ids(alloc, description)?)?;
    each(found, &EachIdentifier, ids.numbers())?;
    each(found, &ids, ids.numbers())
}
