//! The check of a text of the field: its cluster, or all that is wrong with it; and all warnings.

ghost use Rattle.std.specs.Prelude.{◌≡◌, ◌++◌, ◌==◌, false, map, filter, not, IsPermutation, IsSorted};
ghost use Rattle.std.specs.Prelude.{IfOk, IfErr, OnOk, length};
ghost use Rattle.std.specs.List.{list_any};
ghost use Rattle.lin_cluster.specs.Described.{parts_of};
ghost use Rattle.lin_cluster.specs.Findings.{candidates, finding_cmp};
ghost use Rattle.lin_field.specs.Times.{tight_slots};
ghost use Rattle.lin_field.specs.Checks.{is_found, remark, wrong, IsFieldFree, AreRemarks};
ghost use Rattle.lin_field.specs.Checks.{IsRefusalOf};
ghost use Rattle.lin_field.specs.declared.field_check.FieldFault.TheVariants.{OutOfMemory};

use crate::normalizing::Normalized;
use crate::times::SizedDescription;
use lin_cluster::{Cluster, Examined, Finding, cluster_of, examine};
use lin_parts::description::Description;
use lin_text::Many;
use std::alloc::{AllocError, Global};

/// A finding, or a warning, which says what was settled or is tight.
#[derive(Clone, Copy, Debug, PartialEq, Eq, PartialOrd, Ord)]
pub struct Remark {
    pub finding: Finding,
    pub is_warning: bool,
}

/// The cluster of a text of the field, and all warnings, by place and then by number.
#[derive(Drop)]
pub struct Checked {
    pub cluster: Cluster,
    pub warnings: Many<Remark>,
}

/// Why a text of the field gives no cluster: all findings and warnings, by place and then by
/// number; or out of memory.
#[derive(Debug, Drop)]
pub enum FieldFault {
    Remarks(Many<Remark>),
    OutOfMemory,
}

impl From<AllocError> for FieldFault {
    ghost from_gives = { λ _ e. e ≡ OutOfMemory };

    fn from(_error: AllocError) -> FieldFault {
        FieldFault::OutOfMemory
    }
}

/// So few findings are kept until all are gone.
const FEW: usize = 1024;

/// Whether a slot is too short (9).
fn has_short(found: &[Finding]) -> bool
    ensures { result ≡ list_any (λ f. f.number == 9) found.now }
{
    found.iter().any(|finding| finding.number == 9)
}

/// Slots that are shorter than they may take, and hold their frame's own time, in order. Where this
/// is what is found, none is too short unless one of these is.
fn tight_slots(
    alloc: Global,
    description: &Description,
    found: &[Finding],
) -> Result<Vec<Finding>, AllocError>
    requires { IsPermutation (candidates description.now) found.now }
    ensures all { IfOk result (λ t. IsPermutation (tight_slots description.now) t.items) }
    ensures ordered { IfOk result (λ t. IsSorted finding_cmp t.items) }
{
    if !has_short(found) {
        return Ok(Vec::new(alloc));
    }
    let mut tight = SizedDescription::new(alloc, description)?.tight_slots(alloc)?;
    tight.sort()?;
    Ok(tight)
}

fn add_remarks(
    remarks: &mut Vec<Remark>,
    findings: &[Finding],
    is_warning: bool,
) -> Result<(), AllocError>
    ensures { OnOk result
        (remarks.new.items ≡ remarks.old.items ++ map (remark is_warning) findings.now) }
{
    for finding in findings {
        remarks.push(Remark {
            finding: *finding,
            is_warning,
        })?;
    }
    Ok(())
}

/// Gives back memory where an eighth of it or more is unused.
fn give_back(found: &mut Vec<Finding>)
    ensures { found.new.items ≡ found.old.items }
{
    let capacity = found.capacity();
    if FEW < capacity && found.len() <= capacity - capacity / 8 {
        found.shrink_to_fit();
    }
}

/// What is found that isn't a tight slot. What is found goes bit by bit, so that it is never in
/// memory as a whole beside the remarks.
fn add_findings(
    remarks: &mut Vec<Remark>,
    found: Vec<Finding>,
    tight: &[Finding],
) -> Result<(), AllocError>
    requires { IsSorted finding_cmp tight.now }
    ensures { OnOk result
        (IsPermutation
        (remarks.old.items
        ++ map (remark false) (filter (λ f. not (is_found tight.now f)) found.items))
        remarks.new.items) }
{
    let mut found = found;
    // (from its end on, so that what is in order stays in order)
    found.reverse();
    while let Some(finding) = found.pop() {
        if tight.binary_search(&finding).is_err() {
            remarks.push(Remark {
                finding,
                is_warning: false,
            })?;
        }
        give_back(&mut found);
    }
    Ok(())
}

/// All that is remarked, by place and then by number, and whether nothing is wrong.
#[derive(Drop)]
struct AllRemarks {
    remarks: Vec<Remark>,
    is_free: bool,
}

fn remarks_of(
    alloc: Global,
    settled: &Normalized,
    found: Vec<Finding>,
    tight: &[Finding],
) -> Result<AllRemarks, AllocError>
    requires found { IsPermutation (candidates settled.now.description) found.items }
    requires tight { IsPermutation (tight_slots settled.now.description) tight.now }
    requires ordered { IsSorted finding_cmp tight.now }
    ensures all { IfOk result (λ r. AreRemarks settled.now r.remarks.items) }
    ensures free { IfOk result (λ r. r.is_free ≡ (length (wrong settled.now) == 0)) }
{
    let mut remarks = Vec::new(alloc);
    let most = found.len().saturating_add(settled.byte_order.len());
    let warnings = tight.len().saturating_add(settled.warnings.len());
    remarks.reserve_exact(most.saturating_add(warnings))?;
    add_findings(&mut remarks, found, tight)?;
    add_remarks(&mut remarks, settled.byte_order.as_slice(), false)?;
    let is_free = remarks.as_slice().is_empty();
    add_remarks(&mut remarks, tight, true)?;
    add_remarks(&mut remarks, settled.warnings.as_slice(), true)?;
    remarks.sort()?;
    Ok(AllRemarks { remarks, is_free })
}

/// The cluster of what a text of the field is settled to, where nothing is found but slots that are
/// tight and possible.
///
/// # Errors
/// All that is wrong, among the warnings; or out of memory, which says nothing of the text.
pub fn check_field(alloc: Global, settled: &Normalized) -> Result<Checked, FieldFault>
    ensures free { IfOk result (λ checked. IsFieldFree settled.now) }
    ensures cluster { IfOk result (λ checked. checked.cluster ≡ parts_of settled.now.description) }
    ensures warnings { IfOk result (λ checked. AreRemarks settled.now checked.warnings) }
    ensures refused { IfErr result (IsRefusalOf settled.now) }
{
    let description = &settled.description;
    let Examined { found, models } = examine(alloc, description)?;
    let tight = tight_slots(alloc, description, found.as_slice())?;
    let AllRemarks { remarks, is_free } = remarks_of(alloc, settled, found, tight.as_slice())?;
    if !is_free {
        return Err(FieldFault::Remarks(Many::new(remarks)));
    }
    Ok(Checked {
        cluster: cluster_of(alloc, description, models.as_slice())?,
        warnings: Many::new(remarks),
    })
}
