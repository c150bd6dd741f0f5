//! The findings of a description: one function for each condition.

mod addresses;
mod declarations;
mod facts;
mod identifiers;
mod judged;
mod known;
mod limits;
mod members;
mod numbers;
mod overlaps;
mod places;
mod ranges;
mod repeats;
mod sizes;
mod slots;
mod tables;
mod unknown_names;
mod walk;

ghost use Rattle.std.specs.Prelude.{◌≡◌, ◌++◌, IfOk, OnOk, map};
ghost use Rattle.lin_cluster.specs.Findings.{candidates, beside_ids, AreFindings};
ghost use Rattle.lin_cluster.specs.Models.{frame_model};

use crate::finding::Finding;
use addresses::bad_addresses;
use declarations::in_declarations;
use identifiers::bad_identifiers;
pub(crate) use judged::DeclarationFacts;
pub(crate) use known::{carries_frame, is_diagnostic};
use limits::limits_passed;
use lin_frame::SumKind;
use lin_parts::description::Description;
pub use repeats::Repeats;
pub use sizes::is_frame_size;
pub use slots::{is_speed, needed_us};
use std::alloc::{AllocError, Global};
use tables::no_table;
pub(crate) use walk::{Finds, each};
pub use walk::{at_name, at_number, push_when};

/// All that is wrong with a description, and the checksum model of each of its frames.
#[derive(Drop)]
pub struct Examined {
    pub found: Vec<Finding>,
    pub models: Vec<SumKind>,
}

fn gather(
    alloc: Global,
    found: &mut Vec<Finding>,
    judged: &DeclarationFacts,
) -> Result<(), AllocError>
    ensures { OnOk result (found.new.items ≡ found.old.items ++ beside_ids judged.now) }
{
    let known = &judged.signals.known;
    in_declarations(found, judged)?;
    bad_addresses(alloc, found, known)?;
    no_table(found, known.description.tables())?;
    limits_passed(found, known.description)
}

fn unordered(alloc: Global, description: &Description) -> Result<Examined, AllocError>
    ensures found { IfOk result (λ x. x.found.items ≡ candidates description.now) }
    ensures models { IfOk result
        (λ x. x.models.items ≡ map (frame_model description.now) description.now.frames) }
{
    let mut found = Vec::new(alloc);
    // first, so that the list of identifiers is gone where names are kept
    bad_identifiers(alloc, &mut found, description)?;
    let judged = DeclarationFacts::new(alloc, description)?;
    gather(alloc, &mut found, &judged)?;
    let models = judged.models(alloc)?;
    Ok(Examined { found, models })
}

/// All that is wrong with a description, by place and number, and the checksum model of each frame.
/// An error means out of memory.
pub fn examine(alloc: Global, description: &Description) -> Result<Examined, AllocError>
    ensures found { IfOk result (λ x. AreFindings description.now x.found.items) }
    ensures models { IfOk result
        (λ x. x.models.items ≡ map (frame_model description.now) description.now.frames) }
{
    let Examined { mut found, models } = unordered(alloc, description)?;
    found.sort()?;
    Ok(Examined { found, models })
}
