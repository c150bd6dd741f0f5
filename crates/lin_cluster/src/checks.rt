//! The check of a description: the cluster that it says, or all that is wrong with it.

ghost use Rattle.std.specs.Prelude.{◌≡◌, map, IfErr, IfOk};
ghost use Rattle.lin_cluster.specs.Checks.{IsCheckFault};
ghost use Rattle.lin_cluster.specs.Described.{parts_of};
ghost use Rattle.lin_cluster.specs.Findings.{AreFindings, IsFree, HasOnlyShortSlots};
ghost use Rattle.lin_cluster.specs.Models.{frame_model};
ghost use Rattle.lin_cluster.specs.SlotTimes.{NoSlotIsShort};
ghost use Rattle.lin_cluster.specs.declared.finding.CheckFault.TheVariants.{OutOfMemory};

use crate::described::parts_of;
use crate::finding::{CheckFault, Finding};
use crate::findings::{Examined, examine};
use lin_frame::SumKind;
use lin_parts::Cluster;
use lin_parts::description::Description;
use lin_text::Many;
use std::alloc::{AllocError, Global};

impl From<AllocError> for CheckFault {
    ghost from_gives = { λ _ e. e ≡ OutOfMemory };

    fn from(_error: AllocError) -> CheckFault {
        CheckFault::OutOfMemory
    }
}

/// The cluster of a description in which nothing is found but slots that are too short (9), with the
/// checksum model of each of its frames. An error means out of memory.
pub fn cluster_of(
    alloc: Global,
    description: &Description,
    models: &[SumKind],
) -> Result<Cluster, AllocError>
    requires sound { HasOnlyShortSlots description.now }
    requires models { models.now ≡ map (frame_model description.now) description.now.frames }
    ensures cluster { IfOk result (λ cluster. cluster ≡ parts_of description.now) }
    ensures slots { IfOk result (λ cluster. IsFree description.now → NoSlotIsShort cluster) }
{
    Cluster::new(alloc, parts_of(alloc, description, models)?)
}

// What is answered where this is all that is found.
fn answer_to(
    alloc: Global,
    description: &Description,
    found: Vec<Finding>,
    models: &[SumKind],
) -> Result<Cluster, CheckFault>
    requires found { AreFindings description.now found.items }
    requires models { models.now ≡ map (frame_model description.now) description.now.frames }
    ensures ok { IfOk result (λ cluster. IsFree description.now × (cluster ≡ parts_of description.now)) }
    ensures slots { IfOk result NoSlotIsShort }
    ensures findings { IfErr result (IsCheckFault description.now) }
{
    if found.as_slice().is_empty() {
        return Ok(cluster_of(alloc, description, models)?);
    }
    Err(CheckFault::Findings(Many::new(found)))
}

/// The cluster that a description says, where nothing is wrong with it (LIN 2.2A, section 9). Each of
/// its slots is as long as it needs (ISO 17987-3, frame slots).
///
/// # Errors
/// All that is wrong, by place and then by number; or out of memory, which says nothing of the
/// description. The description is used up either way.
pub fn check(alloc: Global, description: Description) -> Result<Cluster, CheckFault>
    ensures ok { IfOk result (λ cluster. IsFree description × (cluster ≡ parts_of description)) }
    ensures slots { IfOk result NoSlotIsShort }
    ensures findings { IfErr result (IsCheckFault description) }
{
    let Examined { found, models } = examine(alloc, &description)?;
    answer_to(alloc, &description, found, models.as_slice())
}
