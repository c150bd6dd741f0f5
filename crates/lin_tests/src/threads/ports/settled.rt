//! Ports that end, and what settling them finds.

ghost use Rattle.std.specs.Prelude.{◌≡◌, IfOk};
ghost use Rattle.lin_threads.specs.Ports.{host_wiring, receipt_wiring};
ghost use Rattle.lin_threads.specs.Pumps.{IsWired, wirings};

use crate::samples::{DOOR_CLUSTER, core_of, expect_log};
use crate::threads::ports::bench::{is_taken, makes, send};
use crate::threads::ports::copied::copies;
use lin_core::PortId;
use lin_threads::{Full, HostPort, HostStep, Pump, Receipt, Settled, wire};
use std::alloc::Global;
use std::process::Abort;
use std::test::Fail;

/// A pump on rings of four items, and the port of host 0.
fn wired(rt: &impl Abort, alloc: Global) -> Result<(Pump, HostPort), Fail>
    ensures { IfOk result (λ r. IsWired r.0 (host_wiring r.1)) }
{
    let core = core_of(alloc, DOOR_CLUSTER, 0)?;
    let (pump, mut hosts, _nodes) = wire(alloc, core, 4)?;
    assert!(rt; !hosts.is_empty());
    Ok((pump, hosts.swap_remove(0)))
}

/// A host's port puts a send.
fn puts(rt: &impl Abort, alloc: Global, port: &mut HostPort) -> Result<(), Fail>
    ensures { host_wiring port.new ≡ host_wiring port.old }
{
    let step = send(alloc, 1, &[1])?;
    assert!(rt; port.put(step).is_ok());
    Ok(())
}

/// A full ring hands a send back.
fn hands_back(rt: &impl Abort, alloc: Global, port: &mut HostPort) -> Result<(), Fail>
    ensures { host_wiring port.new ≡ host_wiring port.old }
{
    let step = send(alloc, 1, &[1])?;
    match port.put(step) {
        Err(Full(HostStep::Send { to: 1, message })) => {
            assert_eq!(rt; message.as_slice(), [1].as_slice());
            Ok(())
        }
        _ => Err(Fail::from("not handed back")),
    }
}

/// Settling leaves steps over.
fn left(pump: &mut Pump, receipt: Receipt) -> Result<Receipt, Fail>
    requires { IsWired pump.old (receipt_wiring receipt) }
    ensures pump { wirings pump.new ≡ wirings pump.old }
    ensures receipt { IfOk result (λ r. receipt_wiring r ≡ receipt_wiring receipt) }
{
    match pump.settle(receipt) {
        Settled::Left(receipt) => Ok(receipt),
        Settled::Whole(_) => Err(Fail::from("settled early")),
    }
}

/// Settling finds all steps in the log.
fn whole(rt: &impl Abort, pump: &mut Pump, receipt: Receipt) -> Result<(), Fail>
    requires { IsWired pump.old (receipt_wiring receipt) }
{
    match pump.settle(receipt) {
        Settled::Whole(receipt) => assert!(rt; receipt.id() == PortId::Host(0)),
        Settled::Left(_) => return Err(Fail::from("steps are left")),
    }
    makes(rt, pump, 0, "settled")
}

/// Four of five sends find room; the rounds make them one by one.
fn four_sends(
    rt: &impl Abort,
    alloc: Global,
    pump: &mut Pump,
    mut port: HostPort,
) -> Result<(), Fail>
    requires { IsWired pump.old (host_wiring port) }
{
    puts(rt, alloc, &mut port)?;
    puts(rt, alloc, &mut port)?;
    puts(rt, alloc, &mut port)?;
    puts(rt, alloc, &mut port)?;
    hands_back(rt, alloc, &mut port)?;
    makes(rt, pump, 1, "four sends")?;
    is_taken(rt, alloc, port.take(), "accepted 0 1", "four sends")?;
    let receipt = left(pump, port.end())?;
    makes(rt, pump, 1, "four sends")?;
    makes(rt, pump, 1, "four sends")?;
    makes(rt, pump, 1, "four sends")?;
    whole(rt, pump, receipt)
}

/// Two sends, and a round for each.
fn two_sends(
    rt: &impl Abort,
    alloc: Global,
    pump: &mut Pump,
    mut port: HostPort,
) -> Result<(), Fail>
    requires { IsWired pump.old (host_wiring port) }
{
    puts(rt, alloc, &mut port)?;
    puts(rt, alloc, &mut port)?;
    let receipt = left(pump, port.end())?;
    makes(rt, pump, 1, "two sends")?;
    let receipt = left(pump, receipt)?;
    makes(rt, pump, 1, "two sends")?;
    whole(rt, pump, receipt)
}

#[test]
fn ring_of_four(rt: HostRuntime) -> Result<(), Fail> {
    let alloc = rt.alloc();
    let (mut pump, port) = wired(&rt, alloc)?;
    four_sends(&rt, alloc, &mut pump, port)?;
    expect_log(
        &rt,
        alloc,
        pump.core(),
        b"h0 send 0 1 01\n> accepted 0 1\nh0 send 0 1 01\n> accepted 0 2\nh0 send 0 1 01\n> accepted 0 3\nh0 send 0 1 01\n> accepted 0 4\n",
        "four sends",
    )?;
    copies(&rt, alloc, pump.core(), 4)
}

#[test]
fn settled_after_two_rounds(rt: HostRuntime) -> Result<(), Fail> {
    let alloc = rt.alloc();
    let (mut pump, port) = wired(&rt, alloc)?;
    two_sends(&rt, alloc, &mut pump, port)?;
    expect_log(
        &rt,
        alloc,
        pump.core(),
        b"h0 send 0 1 01\n> accepted 0 1\nh0 send 0 1 01\n> accepted 0 2\n",
        "two sends",
    )?;
    copies(&rt, alloc, pump.core(), 2)
}
