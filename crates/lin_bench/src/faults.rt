//! Faults under which lines are played: corrupted responses, and nodes that don't respond.

ghost use Rattle.std.specs.Prelude.{◌≡◌, [], IfOk, count_by, map, not};
ghost use Rattle.std.specs.List.{list_any};
ghost use Rattle.lin_core.specs.Core.{past_of};
ghost use Rattle.lin_core.specs.Replies.{in_slot};
ghost use Rattle.lin_core.specs.declared.step.Step.TheVariants.{Hurt};
ghost use Rattle.lin_bench.specs.Faults.{is_for, is_intact, is_struck, armed_fault, same_kind, struck_by, target};

use lin_core::{Core, Payload, PortId, Step};
use lin_text::Many;
use std::alloc::{AllocError, Global};

/// The effect of a fault in its slots.
#[derive(Clone, Copy, Debug)]
pub enum FaultKind {
    /// The response is corrupted if it is the only one.
    Damage,
    /// This node omits its response.
    Absent(u8),
}

/// A fault in a range of slots. The number of a slot is how many slots were finished before it.
#[derive(Clone, Copy, Debug)]
pub struct SlotFault {
    /// The number of the first slot.
    pub first: u32,
    /// The number of the last slot; `None` if the fault doesn't end.
    pub last: Option<u32>,
    pub kind: FaultKind,
}

/// A fault, and whether it has changed a step.
#[derive(Clone, Copy, Debug)]
pub struct ArmedFault {
    pub fault: SlotFault,
    pub has_struck: bool,
}

fn same_kind(one: FaultKind, other: FaultKind) -> bool
    ensures { result ≡ same_kind one other }
{
    match (one, other) {
        (FaultKind::Damage, FaultKind::Damage) => true,
        (FaultKind::Absent(node), FaultKind::Absent(absent)) => node == absent,
        _ => false,
    }
}

/// Whether a slot is in the range of a fault.
fn is_for(fault: SlotFault, slot: u64) -> bool
    ensures { result ≡ is_for fault slot }
{
    match fault.last {
        Some(last) => u64::from(fault.first) <= slot && slot <= u64::from(last),
        None => u64::from(fault.first) <= slot,
    }
}

/// Returns a fault that hasn't changed a step yet.
fn arm(fault: SlotFault) -> ArmedFault
    ensures { result ≡ armed_fault fault }
{
    ArmedFault {
        fault,
        has_struck: false,
    }
}

fn all_armed(alloc: Global, faults: &[SlotFault]) -> Result<Vec<ArmedFault>, AllocError>
    ensures { IfOk result (λ v. v.items ≡ map armed_fault faults.now) }
{
    faults.iter().map(|fault| arm(*fault)).collect(alloc)
}

/// Returns these faults, none of which has changed a step yet. An error means out of memory.
pub(crate) fn arm_all(alloc: Global, faults: &[SlotFault]) -> Result<Many<ArmedFault>, AllocError>
    ensures { IfOk result (λ p. p ≡ map armed_fault faults.now) }
{
    Ok(Many::new(all_armed(alloc, faults)?))
}

/// Returns the step that puts no bytes at all in place of the response. An error means out of memory.
pub(crate) fn no_bytes(alloc: Global) -> Result<Step, AllocError>
    ensures { IfOk result (λ step. step ≡ Hurt []) }
{
    Ok(Step::Hurt {
        bytes: Payload::copied(alloc, &[])?,
    })
}

/// Whether the open slot has exactly one response, and it isn't corrupted. An error means out of memory.
fn is_intact(alloc: Global, core: &Core) -> Result<bool, AllocError>
    ensures { IfOk result (λ is. is ≡ in_slot (past_of core.now) is_intact) }
{
    Ok(core.refusal_of(PortId::Bus, &no_bytes(alloc)?).is_none())
}

/// Returns the kind of faults that change a step by a port, or `None` if no fault changes it. An error
/// means out of memory.
pub(crate) fn target(
    alloc: Global,
    core: &Core,
    by: PortId,
    step: &Step,
) -> Result<Option<FaultKind>, AllocError>
    ensures { IfOk result (λ kind. kind
        ≡ target core.now.cluster core.now.capacity (past_of core.now) (by, step.now)) }
{
    match step {
        Step::Answer { node } if core.refusal_of(by, step).is_none() => {
            Ok(Some(FaultKind::Absent(*node)))
        }
        Step::Finish if core.refusal_of(by, step).is_none() && is_intact(alloc, core)? => {
            Ok(Some(FaultKind::Damage))
        }
        _ => Ok(None),
    }
}

/// Whether a fault changes a step of a slot that faults of this kind change.
fn is_struck(one: ArmedFault, slot: u64, kind: FaultKind) -> bool
    ensures { result ≡ is_struck slot kind one }
{
    is_for(one.fault, slot) && same_kind(one.fault.kind, kind)
}

/// Returns a fault after a step of a slot that faults of this kind change.
fn struck(one: ArmedFault, slot: u64, kind: FaultKind) -> ArmedFault
    ensures { result ≡ struck_by slot kind one }
{
    ArmedFault {
        has_struck: is_struck(one, slot, kind) || one.has_struck,
        ..one
    }
}

/// Marks the faults of a kind that are for a slot.
fn mark(faults: &mut Many<ArmedFault>, slot: u64, kind: FaultKind)
    ensures { faults.new ≡ map (struck_by slot kind) faults.old }
{
    for index in 0..faults.as_slice().len() {
        let one = faults.as_slice()[index];
        faults.set(index, struck(one, slot, kind));
    }
}

/// Whether one of these faults changes a step of a slot that faults of this kind change.
fn some_struck(faults: &[ArmedFault], slot: u64, kind: FaultKind) -> bool
    ensures { result ≡ list_any (is_struck slot kind) faults.now }
{
    faults.iter().any(|one| is_struck(*one, slot, kind))
}

/// Marks the faults of a kind that are for a slot, and returns whether there is one.
pub(crate) fn strike(faults: &mut Many<ArmedFault>, slot: u64, kind: FaultKind) -> bool
    ensures changed { result ≡ list_any (is_struck slot kind) faults.old }
    ensures faults { faults.new ≡ map (struck_by slot kind) faults.old }
{
    let is_changed = some_struck(faults.as_slice(), slot, kind);
    if is_changed {
        mark(faults, slot, kind);
    }
    is_changed
}

/// Returns how many of these faults changed no step.
pub(crate) fn missed(faults: &[ArmedFault]) -> usize
    ensures { result ≡ count_by (λ f. not f.has_struck) faults.now }
{
    faults.iter().filter(|one| !one.has_struck).count()
}
