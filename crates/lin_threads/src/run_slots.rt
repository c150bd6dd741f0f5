//! The slots of a run.

ghost use Rattle.std.specs.Prelude.{◌∷◌, [], IfErr, OnOk};
ghost use Rattle.lin_threads.specs.Faults.{StopsFor};
ghost use Rattle.lin_threads.specs.Runs.{Advances, MakesAtMost, bus_steps, damage, slot_steps};

use crate::ports::Pump;
use crate::runs::RunFault;
use crate::shared::Shared;
use lin_core::{Payload, PortId, Step};
use std::alloc::Global;
use std::thread;

/// Makes a step of the bus.
fn own(pump: &mut Pump, step: Step) -> Result<(), RunFault>
    ensures advances { OnOk result (Advances pump.old pump.new (step ∷ [])) }
    ensures stops { IfErr result (λ e. StopsFor pump.old pump.new e) }
{
    match pump.own(step) {
        Ok(()) => Ok(()),
        Err(hold) => Err(RunFault::from(hold)),
    }
}

/// Wakes each node whose port was given notes since it was last woken.
fn wake_told(pump: &Pump, shared: &Shared) {
    let nodes = pump.core().cluster().nodes() as u8;
    for number in 0..nodes {
        shared.wake_node(number, pump.given(PortId::Node(number)));
    }
}

/// Makes rounds until one was made and each node that is due has answered or left its response out,
/// or until so many were made.
fn make_rounds(pump: &mut Pump, shared: &Shared, rounds: u32) -> Result<(), RunFault>
    ensures advances { OnOk result (Advances pump.old pump.new []) }
    ensures most { OnOk result (MakesAtMost rounds pump.old pump.new) }
    ensures stops { IfErr result (λ e. StopsFor pump.old pump.new e) }
{
    for _ in 0..rounds {
        if let Err(fault) = pump.round() {
            return Err(RunFault::from(fault));
        }
        if pump.core().undecided() == 0 {
            return Ok(());
        }
        wake_told(pump, shared);
        thread::yield_now();
    }
    Ok(())
}

/// Damages the response of the slot with this number, where the plan names it.
fn hurt_slot(alloc: Global, pump: &mut Pump, number: u32, hurt: &[u32]) -> Result<(), RunFault>
    ensures advances { OnOk result (Advances pump.old pump.new (damage hurt.now number)) }
    ensures stops { IfErr result (λ e. StopsFor pump.old pump.new e) }
{
    if !hurt.contains(&number) {
        return Ok(());
    }
    let bytes = Payload::copied(alloc, &[]).unwrap();
    own(pump, Step::Hurt { bytes })
}

/// Makes the slot with this number.
fn one_slot(
    alloc: Global,
    pump: &mut Pump,
    shared: &Shared,
    number: u32,
    rounds: u32,
    hurt: &[u32],
) -> Result<(), RunFault>
    ensures advances { OnOk result (Advances pump.old pump.new (slot_steps hurt.now number)) }
    ensures stops { IfErr result (λ e. StopsFor pump.old pump.new e) }
{
    own(pump, Step::Open)?;
    make_rounds(pump, shared, rounds)?;
    hurt_slot(alloc, pump, number, hurt)?;
    own(pump, Step::Finish)
}

/// Makes so many slots, of which each has at most so many rounds.
pub(crate) fn all_slots(
    alloc: Global,
    pump: &mut Pump,
    shared: &Shared,
    slots: u32,
    rounds: u32,
    hurt: &[u32],
) -> Result<(), RunFault>
    ensures advances { OnOk result (Advances pump.old pump.new (bus_steps hurt.now slots)) }
    ensures stops { IfErr result (λ e. StopsFor pump.old pump.new e) }
{
    for number in 0..slots {
        one_slot(alloc, pump, shared, number, rounds, hurt)?;
    }
    Ok(())
}
