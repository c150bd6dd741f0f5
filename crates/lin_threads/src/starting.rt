//! Starting the threads of a run, and joining them.

ghost use Rattle.std.specs.Prelude.{◌≡◌, ◌≤◌, ◌+◌, ◌++◌, [], ℕ, map, None, Some, IfOk, IfErr};
ghost use Rattle.std.specs.Prelude.{OnOk, vec_len};
ghost use Rattle.std.specs.List.{AllZip};
ghost use Rattle.std.specs.Vec.{vec_capacity};
ghost use Rattle.lin_threads.specs.States.{IsFurther, IsReceiptFrom, handed_in, host_state};
ghost use Rattle.lin_threads.specs.States.{node_state, receipt_state};
ghost use Rattle.lin_threads.specs.Nodes.{FollowsList, IsByList, no_lists, node_lists};
ghost use Rattle.lin_threads.specs.Started.{lent, list_lent, all_lent, all_lists};
ghost use Rattle.lin_threads.specs.declared.runs.RunFault.TheVariants.{NoThread};

use crate::hosts::run_task;
use crate::node_threads::run_node;
use crate::ports::{HostPort, NodePort, Receipt};
use crate::runs::{Ended, RunFault};
use crate::shared::Shared;
use crate::tasks::HostTask;
use std::alloc::Global;
use std::snapshot::Snapshot;
use std::sync::{Arc, Wait};
use std::thread;
use std::thread::{Promise, PromisedHandle, Threads};

/// What the thread of a port hands back.
#[derive(Drop)]
pub(crate) struct Finished {
    pub(crate) receipt: Receipt,
    pub(crate) ended: Ended,
}

/// The promise of a port's thread: the receipt that it hands back is that of the port that it was
/// lent, further on, and that of a node's port is by its list of left-out slots.
#[derive(Drop)]
pub(crate) enum Keeps {
    Host(Snapshot<HostPort>),
    Node(Snapshot<NodePort>, Snapshot<Vec<u32>>),
}

impl Promise<Finished> for Keeps {
    ghost use Rattle.lin_threads.specs.States.{IsFurther, receipt_state};
    ghost use Rattle.lin_threads.specs.Nodes.{IsByList};
    ghost use Rattle.lin_threads.specs.Started.{lent, list_lent};

    ghost kept_by = { λ p f.
        IsFurther (lent p) (receipt_state f.receipt) × IsByList (list_lent p) f.receipt };
}

/// The threads that were started, and what they share.
pub(crate) type StartedThreads = PromisedHandle<Finished, Keeps>;

/// Starts the thread of a host.
fn start_host<R: Threads + Wait + Copy + Send + 'static>(
    rt: &R,
    port: HostPort,
    task: Box<dyn HostTask + Send>,
    turns: u32,
    shared: Arc<Shared, Global>,
) -> Result<StartedThreads, RunFault>
    ensures lent { IfOk result (λ h. lent h.promise ≡ host_state port) }
    ensures list { IfOk result (λ h. list_lent h.promise ≡ None) }
    ensures refused { IfErr result (λ e. e ≡ NoThread) }
{
    let own = *rt;
    let promise = Keeps::Host(Snapshot::of(&port));
    let started = thread::spawn_with(
        rt,
        promise,
        move || -> Finished
            ensures { IsFurther (host_state port) (receipt_state result.receipt) }
        { run_task(&own, task, port, shared, turns) },
    );
    match started {
        Ok(handle) => Ok(handle),
        Err(_) => Err(RunFault::NoThread),
    }
}

/// Starts the thread of a node.
fn start_node<R: Threads + Wait + Copy + Send + 'static>(
    rt: &R,
    port: NodePort,
    leave: Vec<u32>,
    shared: Arc<Shared, Global>,
) -> Result<StartedThreads, RunFault>
    ensures lent { IfOk result (λ h. lent h.promise ≡ node_state port) }
    ensures list { IfOk result (λ h. list_lent h.promise ≡ Some (port, leave.items)) }
    ensures refused { IfErr result (λ e. e ≡ NoThread) }
{
    let own = *rt;
    let promise = Keeps::Node(Snapshot::of(&port), Snapshot::of(&leave));
    let started = thread::spawn_with(
        rt,
        promise,
        move || -> Finished
            ensures further { IsFurther (node_state port) (receipt_state result.receipt) }
            ensures listed { (due : ℕ)
                × FollowsList leave.items due port (receipt_state result.receipt) }
        { run_node(&own, port, leave, shared) },
    );
    match started {
        Ok(handle) => Ok(handle),
        Err(_) => Err(RunFault::NoThread),
    }
}

/// Another owner of what the threads share.
fn another(shared: &Arc<Shared, Global>) -> Result<Arc<Shared, Global>, RunFault>
    ensures { IfErr result (λ e. e ≡ NoThread) }
{
    match Arc::try_clone(shared) {
        Ok(own) => Ok(own),
        Err(_) => Err(RunFault::NoThread),
    }
}

/// Starts the threads of hosts.
pub(crate) fn start_hosts<R: Threads + Wait + Copy + Send + 'static>(
    rt: &R,
    started: &mut Vec<StartedThreads>,
    ports: Vec<HostPort>,
    tasks: Vec<Box<dyn HostTask + Send>>,
    turns: u32,
    shared: &Arc<Shared, Global>,
) -> Result<(), RunFault>
    requires tasks { vec_len tasks ≡ vec_len ports }
    requires room { vec_len started.old + vec_len ports ≤ vec_capacity started.old }
    ensures lent { OnOk result
        (all_lent started.new.items ≡ all_lent started.old.items ++ map host_state ports.items) }
    ensures lists { OnOk result
        (all_lists started.new.items ≡ all_lists started.old.items ++ no_lists ports.items) }
    ensures room { OnOk result (vec_capacity started.new ≡ vec_capacity started.old) }
    ensures refused { IfErr result (λ e. e ≡ NoThread) }
{
    let mut tasks = tasks.into_iter();
    for port in ports {
        let Some(task) = tasks.next() else {
            unreachable!()
        };
        let handle = start_host(rt, port, task, turns, another(shared)?)?;
        started.push_reserved(handle);
    }
    Ok(())
}

/// Starts the threads of nodes.
pub(crate) fn start_nodes<R: Threads + Wait + Copy + Send + 'static>(
    rt: &R,
    started: &mut Vec<StartedThreads>,
    ports: Vec<NodePort>,
    leave: Vec<Vec<u32>>,
    shared: &Arc<Shared, Global>,
) -> Result<(), RunFault>
    requires leave { vec_len leave ≡ vec_len ports }
    requires room { vec_len started.old + vec_len ports ≤ vec_capacity started.old }
    ensures lent { OnOk result
        (all_lent started.new.items ≡ all_lent started.old.items ++ map node_state ports.items) }
    ensures lists { OnOk result (all_lists started.new.items
        ≡ all_lists started.old.items ++ node_lists ports.items leave.items) }
    ensures refused { IfErr result (λ e. e ≡ NoThread) }
{
    let mut leave = leave.into_iter();
    for port in ports {
        let Some(list) = leave.next() else {
            unreachable!()
        };
        let handle = start_node(rt, port, list, another(shared)?)?;
        started.push_reserved(handle);
    }
    Ok(())
}

/// Joins the threads in order.
pub(crate) fn join_all(
    rt: &impl Threads,
    started: Vec<StartedThreads>,
    receipts: &mut Vec<Receipt>,
    ended: &mut Vec<Ended>,
)
    requires none { (receipts.old.items ≡ []) × (ended.old.items ≡ []) }
    requires room { (vec_len started ≤ vec_capacity receipts.old)
        × (vec_len started ≤ vec_capacity ended.old) }
    ensures receipts { AllZip IsReceiptFrom (all_lent started.items) receipts.new.items }
    ensures lists { AllZip IsByList (all_lists started.items) receipts.new.items }
    ensures count { vec_len receipts.new ≡ vec_len started }
    ensures ended { vec_len ended.new ≡ vec_len started }
{
    for handle in started {
        let finished = handle.join(rt);
        receipts.push_reserved(finished.receipt);
        ended.push_reserved(finished.ended);
    }
}

/// Joins the threads of a run that ended early.
pub(crate) fn give_up(rt: &impl Threads, started: Vec<StartedThreads>) {
    for handle in started {
        handle.join(rt);
    }
}
