//! Plays under faults.

use crate::clusters::{cluster_of, expect_bytes, lines_of};
use crate::samples::BUILT_IN;
use lin_bench::{FaultKind, PlayFault, PlayedUnder, SlotFault, play_under, some_unmet};
use lin_log::write_log;
use std::alloc::Global;
use std::process::Abort;
use std::test::Fail;

/// A request in one frame, and an empty slot for a response.
const REQUEST: &[u8] = b"send cem door 3E\nslots 2\nexpect message cem door 3E\n";

const DAMAGED_LOG: &[u8] =
    b"bus send 0 1 3E\n> accepted 0 1\nbus open\n> slot 0 0 3C\n> due 0\nbus answer 0\n> put 0 01013EFFFFFFFFFFBF\nbus hurt -\nbus finish\n> seen damaged\n> lost 0 1 damaged\nbus open\n> slot 0 1 7D\nbus finish\n> seen none\n";

/// A fault in one slot.
fn in_slot(slot: u32, kind: FaultKind) -> SlotFault {
    SlotFault {
        first: slot,
        last: Some(slot),
        kind,
    }
}

/// The request, played under faults.
fn played_under(alloc: Global, faults: &[SlotFault]) -> Result<PlayedUnder, Fail> {
    let cluster = cluster_of(alloc, BUILT_IN)?;
    let lines = lines_of(alloc, &cluster, REQUEST)?;
    if cluster.tables() == 0 {
        return Err(Fail::from("no table"));
    }
    match play_under(alloc, cluster, 0, 16, lines, false, faults) {
        Ok(played) => Ok(played),
        Err(PlayFault::SlotLimit { .. }) => Err(Fail::from("slot limit")),
        Err(PlayFault::LogFull) => Err(Fail::from("log full")),
        Err(PlayFault::OutOfMemory) => Err(Fail::from("OutOfMemory")),
    }
}

#[test]
fn fault_changes_its_slot(rt: HostRuntime) -> Result<(), Fail> {
    let alloc = rt.alloc();
    let undisturbed = played_under(alloc, &[])?;
    assert!(rt; !some_unmet(undisturbed.judgements.as_slice()));
    assert_eq!(rt; undisturbed.missed, 0);
    assert_eq!(rt; undisturbed.ends.as_slice().len(), 3);
    assert!(rt; undisturbed.limit.is_none());
    let damaged = played_under(alloc, &[in_slot(0, FaultKind::Damage)])?;
    assert!(rt; some_unmet(damaged.judgements.as_slice()));
    assert_eq!(rt; damaged.missed, 0);
    let mut log = Vec::new(alloc);
    write_log(damaged.core.log(), &mut log)?;
    expect_bytes(&rt, log.as_slice(), DAMAGED_LOG, "a damage", "a log");
    Ok(())
}

#[test]
fn fault_without_effect_missed(rt: HostRuntime) -> Result<(), Fail> {
    let faults = [
        in_slot(0, FaultKind::Absent(1)),
        in_slot(1, FaultKind::Damage),
        in_slot(2, FaultKind::Absent(0)),
    ];
    let missed = played_under(rt.alloc(), &faults)?;
    assert!(rt; !some_unmet(missed.judgements.as_slice()));
    assert_eq!(rt; missed.missed, 3);
    Ok(())
}
