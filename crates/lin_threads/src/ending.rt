//! The end of a run, once its slots are over.

ghost use Rattle.std.specs.Prelude.{◌≡◌, ◌≤◌, [], All, IfOk, IfErr, OnOk, vec_len};
ghost use Rattle.std.specs.List.{AllZip};
ghost use Rattle.std.specs.Vec.{vec_capacity};
ghost use Rattle.lin_threads.specs.Ports.{receipt_wiring};
ghost use Rattle.lin_threads.specs.Pumps.{IsWired};
ghost use Rattle.lin_threads.specs.Faults.{StopsFor};
ghost use Rattle.lin_threads.specs.Runs.{Advances, IsSettledAs, IsWiredReceipt};

use crate::ports::{Pump, Receipt, Settled};
use crate::runs::RunFault;
use crate::shared::Shared;
use std::sync::Wait;
use std::thread;

/// Makes rounds until all threads have ended and a round after that takes no step.
pub(crate) fn make_last_rounds(
    rt: &impl Wait,
    pump: &mut Pump,
    shared: &Shared,
    threads: u64,
) -> Result<(), RunFault>
    ensures advances { OnOk result (Advances pump.old pump.new []) }
    ensures stops { IfErr result (λ e. StopsFor pump.old pump.new e) }
{
    for _ in rt.forever() {
        let ended = shared.ended();
        match pump.round() {
            Ok(taken) if ended >= threads && taken.steps == 0 => return Ok(()),
            Ok(_) => thread::yield_now(),
            Err(fault) => return Err(RunFault::from(fault)),
        }
    }
    unreachable!()
}

/// Settles a receipt, with a further round where steps are left.
fn settle_whole(rt: &impl Wait, pump: &mut Pump, mut receipt: Receipt) -> Result<Receipt, RunFault>
    requires { IsWired pump.old (receipt_wiring receipt) }
    ensures advances { OnOk result (Advances pump.old pump.new []) }
    ensures settled { IfOk result (λ r. IsSettledAs pump.new receipt r) }
    ensures stops { IfErr result (λ e. StopsFor pump.old pump.new e) }
{
    for _ in rt.forever() {
        match pump.settle(receipt) {
            Settled::Whole(whole) => return Ok(whole),
            Settled::Left(left) => receipt = left,
        }
        if let Err(fault) = pump.round() {
            return Err(RunFault::from(fault));
        }
    }
    unreachable!()
}

/// Settles receipts in order.
pub(crate) fn settle_all(
    rt: &impl Wait,
    pump: &mut Pump,
    receipts: Vec<Receipt>,
    settled: &mut Vec<Receipt>,
) -> Result<(), RunFault>
    requires wired { All (IsWiredReceipt pump.old) receipts.items }
    requires none { settled.old.items ≡ [] }
    requires room { vec_len receipts ≤ vec_capacity settled.old }
    ensures advances { OnOk result (Advances pump.old pump.new []) }
    ensures settled { OnOk result (AllZip (IsSettledAs pump.new) receipts.items settled.new.items) }
    ensures stops { IfErr result (λ e. StopsFor pump.old pump.new e) }
{
    for receipt in receipts {
        let whole = settle_whole(rt, pump, receipt)?;
        settled.push_reserved(whole);
    }
    Ok(())
}
