//! Whole runs.

ghost use Rattle.std.specs.Prelude.{◌≡◌, ◌≤◌, ◌+◌, ◌++◌, [], drop, length, IfOk, IfErr, OnOk, vec_len};
ghost use Rattle.std.specs.List.{AllZip};
ghost use Rattle.std.specs.Vec.{vec_capacity};
ghost use mathlib.Core.List.{IsPrefix};
ghost use Rattle.lin_core.specs.Core.{IsAlike};
ghost use Rattle.lin_core.specs.declared.port.PortId.TheVariants.{Bus};
ghost use Rattle.lin_threads.specs.Lanes.{OnlyOwn};
ghost use Rattle.lin_threads.specs.Pumps.{core_of, since, first_entry};
ghost use Rattle.lin_threads.specs.Steps.{logged};
ghost use Rattle.lin_threads.specs.Faults.{EndsFor, IsFaultOf};
ghost use Rattle.lin_threads.specs.Nodes.{IsByList, no_lists, node_lists};
ghost use Rattle.lin_threads.specs.Started.{all_lent, all_lists};
ghost use Rattle.lin_threads.specs.States.{ArePortsOf, IsSettledReceipt, handed_in};
ghost use Rattle.lin_threads.specs.Runs.{Advances, bus_steps};

use crate::ending::{make_last_rounds, settle_all};
use crate::ports::{HostPort, NodePort, Pump, Receipt, RoundFault};
use crate::run_slots::all_slots;
use crate::shared::Shared;
use crate::starting::{StartedThreads, give_up, join_all, start_hosts, start_nodes};
use crate::tasks::HostTask;
use lin_core::{Core, Hold};
use std::alloc::{AllocError, Global};
use std::sync::{Arc, Wait};
use std::thread::Threads;

/// What a run does.
#[derive(Drop)]
pub struct Plan {
    /// How many slots it makes.
    pub slots: u32,
    /// How many turns each task gets at most.
    pub turns: u32,
    /// How many rounds a slot has at most; where there are none, no node answers in time.
    pub rounds: u32,
    /// The numbers of the slots, from 0, in which the response is damaged.
    pub hurt: Vec<u32>,
    /// For each node, which of the slots in which it is due, from 0, it leaves its response out of.
    pub leave: Vec<Vec<u32>>,
}

/// How a task ended.
#[derive(Clone, Copy, Debug, PartialEq, Eq)]
pub enum Ended {
    /// It was done.
    Done,
    /// It had all turns that it may take.
    Limit,
}

/// What a run leaves: the core, how each task ended, and the receipt of each port, hosts' before
/// nodes', all settled.
#[derive(Drop)]
pub struct RunReport {
    pub core: Core,
    pub ended: Vec<Ended>,
    pub receipts: Vec<Receipt>,
}

/// Why a run ended early. All its threads have ended then, and the core is dropped.
#[derive(Clone, Copy, Debug, PartialEq, Eq)]
pub enum RunFault {
    /// The log has 4,294,967,295 entries.
    LogFull,
    OutOfMemory,
    /// A thread couldn't be started, out of memory or for another cause.
    NoThread,
}

impl From<AllocError> for RunFault {
    ghost use Rattle.std.specs.Prelude.{◌≡◌};
    ghost use Rattle.lin_threads.specs.declared.runs.RunFault.TheVariants.{OutOfMemory};

    ghost from_gives = { λ _ e. e ≡ OutOfMemory };

    fn from(_: AllocError) -> RunFault {
        RunFault::OutOfMemory
    }
}

impl From<RoundFault> for RunFault {
    ghost use Rattle.std.specs.Prelude.{◌≡◌};
    ghost use Rattle.lin_threads.specs.Faults.{of_round};

    ghost from_gives = { λ fault e. e ≡ of_round fault };

    fn from(fault: RoundFault) -> RunFault {
        match fault {
            RoundFault::LogFull => RunFault::LogFull,
            RoundFault::OutOfMemory => RunFault::OutOfMemory,
        }
    }
}

impl From<Hold> for RunFault {
    ghost use Rattle.std.specs.Prelude.{◌≡◌};
    ghost use Rattle.lin_threads.specs.Faults.{of_hold};

    ghost from_gives = { λ hold e. e ≡ of_hold hold };

    fn from(hold: Hold) -> RunFault {
        match hold {
            Hold::LogFull(_) => RunFault::LogFull,
            Hold::OutOfMemory(_) => RunFault::OutOfMemory,
        }
    }
}

/// What takes part in a run: the ports of its hosts and nodes, by number, and a task for each host.
#[derive(Drop)]
pub struct Players {
    pub hosts: Vec<HostPort>,
    pub nodes: Vec<NodePort>,
    pub tasks: Vec<Box<dyn HostTask + Send>>,
}

/// Starts the threads, makes the slots, and makes rounds until all threads have ended.
fn drive<R: Threads + Wait + Copy + Send + 'static>(
    rt: &R,
    pump: &mut Pump,
    players: Players,
    plan: Plan,
    shared: &Arc<Shared, Global>,
    threads: &mut Vec<StartedThreads>,
) -> Result<(), RunFault>
    requires tasks { vec_len players.tasks ≡ vec_len players.hosts }
    requires leave { vec_len plan.leave ≡ vec_len players.nodes }
    requires none { threads.old.items ≡ [] }
    requires room { vec_len players.hosts + vec_len players.nodes ≤ vec_capacity threads.old }
    ensures lent { OnOk result
        (all_lent threads.new.items ≡ handed_in players.hosts.items players.nodes.items) }
    ensures lists { OnOk result (all_lists threads.new.items
        ≡ no_lists players.hosts.items ++ node_lists players.nodes.items plan.leave.items) }
    ensures advances { OnOk result
        (Advances pump.old pump.new (bus_steps plan.hurt.items plan.slots)) }
    ensures fault { IfErr result (λ e. EndsFor pump.old pump.new e) }
{
    let Players {
        hosts,
        nodes,
        tasks,
    } = players;
    let alloc = *threads.allocator();
    start_hosts(rt, threads, hosts, tasks, plan.turns, shared)?;
    start_nodes(rt, threads, nodes, plan.leave, shared)?;
    all_slots(
        alloc,
        pump,
        shared,
        plan.slots,
        plan.rounds,
        plan.hurt.as_slice(),
    )?;
    shared.finish();
    make_last_rounds(rt, pump, shared, threads.len() as u64)
}

/// Runs the threads and the slots, and settles each port. All memory is asked for before the first
/// thread starts.
fn run<R: Threads + Wait + Copy + Send + 'static>(
    rt: &R,
    alloc: Global,
    pump: &mut Pump,
    players: Players,
    plan: Plan,
) -> Result<(Vec<Ended>, Vec<Receipt>), RunFault>
    requires ports { ArePortsOf pump.old players.hosts.items players.nodes.items }
    requires tasks { vec_len players.tasks ≡ vec_len players.hosts }
    requires leave { vec_len plan.leave ≡ vec_len players.nodes }
    ensures advances { OnOk result
        (Advances pump.old pump.new (bus_steps plan.hurt.items plan.slots)) }
    ensures receipts { IfOk result (λ r.
        AllZip (IsSettledReceipt (since pump.new))
        (handed_in players.hosts.items players.nodes.items) r.1.items) }
    ensures lists { IfOk result (λ r. AllZip IsByList
        (no_lists players.hosts.items ++ node_lists players.nodes.items plan.leave.items)
        r.1.items) }
    ensures ended { IfOk result (λ r. vec_len r.0 ≡ vec_len players.tasks) }
    ensures fault { IfErr result (λ e. EndsFor pump.old pump.new e) }
{
    let tasks = players.tasks.len();
    let ports = players.hosts.len() + players.nodes.len();
    let shared = Shared::new(alloc, tasks, players.nodes.len())?;
    let Ok(shared) = Arc::new(alloc, shared) else {
        return Err(RunFault::OutOfMemory);
    };
    let mut threads = Vec::with_capacity(alloc, ports)?;
    let mut receipts = Vec::with_capacity(alloc, ports)?;
    let mut ended = Vec::with_capacity(alloc, ports)?;
    let mut settled = Vec::with_capacity(alloc, ports)?;
    if let Err(fault) = drive(rt, pump, players, plan, &shared, &mut threads) {
        shared.stop();
        give_up(rt, threads);
        return Err(fault);
    }
    join_all(rt, threads, &mut receipts, &mut ended);
    settle_all(rt, pump, receipts, &mut settled)?;
    ended.truncate(tasks);
    Ok((ended, settled))
}

/// Runs a cluster: each host's task in a thread of its own, until it is done or had all its turns,
/// and each node in a thread of its own, which answers the slots in which it is due or leaves its
/// response out, as the plan says. The calling thread makes the slots of the plan: it opens one,
/// makes rounds until one was made and no node is undecided (or all that the plan allows), damages
/// the response where the plan says so, and finishes the slot. After the last slot rounds go on
/// until all threads have ended and all that they put is in the log.
///
/// The ports must be those of this pump, with one task and one list of left-out slots per node.
/// After each fault all threads have ended.
pub fn run_cluster<R: Threads + Wait + Copy + Send + 'static>(
    rt: &R,
    alloc: Global,
    mut pump: Pump,
    players: Players,
    plan: Plan,
) -> Result<RunReport, RunFault>
    requires ports { ArePortsOf pump players.hosts.items players.nodes.items }
    requires tasks { vec_len players.tasks ≡ vec_len players.hosts }
    requires leave { vec_len plan.leave ≡ vec_len players.nodes }
    ensures alike { IfOk result (λ r. IsAlike (core_of pump) r.core) }
    ensures log { IfOk result (λ r. IsPrefix (core_of pump).log r.core.log) }
    ensures slots { IfOk result (λ r.
        logged (drop (length (core_of pump).log) r.core.log) Bus
        ≡ bus_steps plan.hurt.items plan.slots) }
    ensures own { IfOk result (λ r. OnlyOwn (drop (first_entry pump) r.core.log)) }
    ensures receipts { IfOk result (λ r.
        AllZip (IsSettledReceipt (drop (first_entry pump) r.core.log))
        (handed_in players.hosts.items players.nodes.items) r.receipts.items) }
    ensures lists { IfOk result (λ r. AllZip IsByList
        (no_lists players.hosts.items ++ node_lists players.nodes.items plan.leave.items)
        r.receipts.items) }
    ensures ended { IfOk result (λ r. vec_len r.ended ≡ vec_len players.tasks) }
    ensures fault { IfErr result (λ e. IsFaultOf pump e) }
{
    match run(rt, alloc, &mut pump, players, plan) {
        Ok((ended, receipts)) => Ok(RunReport {
            core: pump.close(),
            ended,
            receipts,
        }),
        Err(fault) => Err(fault),
    }
}
