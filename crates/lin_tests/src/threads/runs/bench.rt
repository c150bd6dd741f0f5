//! Runs on small clusters, and what they leave.

ghost use Rattle.lin_threads.specs.States.{ArePortsOf};

use crate::samples::{CAPACITY, DOOR_CLUSTER, cluster_of, log_of};
use lin_core::{Core, Payload, PortId};
use lin_log::replay;
use lin_threads::{
    Ended, HostPort, HostStep, HostTask, NodePort, Plan, Players, Pump, RunReport, ScriptTask,
    Turn, run_cluster, wire,
};
use std::alloc::Global;
use std::process::Abort;
use std::sync::Wait;
use std::test::Fail;
use std::thread::Threads;

/// What a run does: how many items a ring takes, whether host 0's port puts a send of the byte 1
/// before the run, the numbers of a plan, the slots that are damaged, and what each node leaves out.
#[derive(Clone, Copy)]
pub struct Numbers {
    pub ring: usize,
    pub is_put: bool,
    pub slots: u32,
    pub turns: u32,
    pub rounds: u32,
    pub hurt: &'static [u32],
    pub leave: [&'static [u32]; 2],
}

/// The numbers that the program runs with.
pub const NUMBERS: Numbers = Numbers {
    ring: 64,
    is_put: false,
    slots: 1,
    turns: 4_000_000_000,
    rounds: 1_000_000,
    hurt: &[],
    leave: [&[], &[]],
};

fn plan_of(alloc: Global, numbers: &Numbers) -> Result<Plan, Fail> {
    let mut leave = Vec::new(alloc);
    for list in numbers.leave {
        leave.push(list.to_vec(alloc)?)?;
    }
    Ok(Plan {
        slots: numbers.slots,
        turns: numbers.turns,
        rounds: numbers.rounds,
        hurt: numbers.hurt.to_vec(alloc)?,
        leave,
    })
}

/// The first host's port puts a send of the byte 1.
fn put_send(
    rt: &impl Abort,
    alloc: Global,
    pump: &Pump,
    hosts: &mut Vec<HostPort>,
    nodes: &Vec<NodePort>,
) -> Result<(), Fail>
    requires { ArePortsOf pump.now hosts.old.items nodes.now.items }
    ensures { ArePortsOf pump.now hosts.new.items nodes.now.items }
{
    let message = Payload::copied(alloc, &[1])?;
    assert!(rt; !hosts.is_empty());
    let is_put = hosts[0].put(HostStep::Send { to: 1, message }).is_ok();
    assert!(rt; is_put);
    Ok(())
}

/// Runs tasks on the ports of a core.
pub fn run<R: Abort + Threads + Wait + Copy + Send + 'static>(
    rt: &R,
    alloc: Global,
    core: Core,
    tasks: Vec<Box<dyn HostTask + Send>>,
    numbers: &Numbers,
) -> Result<RunReport, Fail> {
    let ring = numbers.ring;
    assert!(rt; ring >= 1);
    assert!(rt; ring <= 1024);
    let (pump, mut hosts, nodes) = wire(alloc, core, ring)?;
    if numbers.is_put {
        put_send(rt, alloc, &pump, &mut hosts, &nodes)?;
    }
    let plan = plan_of(alloc, numbers)?;
    assert_eq!(rt; tasks.len(), hosts.len());
    assert_eq!(rt; plan.leave.len(), nodes.len());
    let players = Players {
        hosts,
        nodes,
        tasks,
    };
    let report = run_cluster(rt, alloc, pump, players, plan)?;
    assert_eq!(rt; report.receipts.len(), 4);
    assert!(rt; report.receipts[0].id() == PortId::Host(0));
    assert!(rt; report.receipts[1].id() == PortId::Host(1));
    assert!(rt; report.receipts[2].id() == PortId::Node(0));
    assert!(rt; report.receipts[3].id() == PortId::Node(1));
    assert_eq!(rt; report.ended.len(), 2);
    Ok(report)
}

/// A task that puts a send of each of these bytes alone.
pub fn script(alloc: Global, to: u8, bytes: &[u8]) -> Result<ScriptTask, Fail> {
    let mut steps = Vec::new(alloc);
    for byte in bytes {
        let message = Payload::copied(alloc, &[*byte])?;
        steps.push(HostStep::Send { to, message })?;
    }
    Ok(ScriptTask::new(steps))
}

/// Runs a task that puts sends of single bytes for each of the two hosts.
pub fn run_scripts<R: Abort + Threads + Wait + Copy + Send + 'static>(
    rt: &R,
    alloc: Global,
    core: Core,
    sends: [&[u8]; 2],
    numbers: &Numbers,
) -> Result<RunReport, Fail> {
    let mut tasks: Vec<Box<dyn HostTask + Send>> = Vec::new(alloc);
    tasks.push(Box::new(alloc, script(alloc, 1, sends[0])?)?)?;
    tasks.push(Box::new(alloc, script(alloc, 0, sends[1])?)?)?;
    run(rt, alloc, core, tasks, numbers)
}

/// How the tasks of the two hosts ended.
pub fn expect_ended(rt: &impl Abort, report: &RunReport, wanted: [Ended; 2], row: &str) {
    assert_eq!(rt; report.ended.as_slice(), wanted.as_slice(), "{row}");
}

/// A replay of a log's text writes it again.
pub fn expect_replay(rt: &impl Abort, alloc: Global, core: &Core, row: &str) -> Result<(), Fail> {
    let text = log_of(alloc, core)?;
    let cluster = cluster_of(alloc, DOOR_CLUSTER)?;
    assert!(rt; cluster.tables() > 0);
    let mut again = Vec::new(alloc);
    let mut reader = text.as_slice();
    let _core = replay(alloc, cluster, 0, CAPACITY, &mut reader, &mut again)?;
    assert!(rt; again.as_slice() == text.as_slice(), "{row}");
    Ok(())
}

/// How many lines of a core's log begin so.
pub fn lines(alloc: Global, core: &Core, start: &str) -> Result<usize, Fail> {
    let text = log_of(alloc, core)?;
    let log = std::str::from_utf8(text.as_slice()).unwrap_or("");
    let mut count: usize = 0;
    for line in log.lines() {
        if line.starts_with(start) {
            count = count.saturating_add(1);
        }
    }
    Ok(count)
}
