//! `linsim run`: runs slots of a cluster whose hosts put the steps of a script, with hosts and
//! nodes in threads of their own, and writes the log.

ghost use Rattle.std.specs.Prelude.{◌≡◌, ◌≤◌, ◌<◌, [], length, vec_len, IfOk, IfSome};
ghost use Rattle.std.specs.List.{All};
ghost use Rattle.lin_parts.specs.Cluster.{nodes};
ghost use Rattle.lin_core.specs.declared.port.PortId.TheVariants.{Bus};
ghost use Rattle.lin_threads.specs.Steps.{logged};
ghost use Rattle.lin_threads.specs.Runs.{bus_steps};
ghost use Rattle.lin_tool.specs.Formats.{shown_log};
ghost use Rattle.lin_tool.specs.Running.{ReadsHosts, WritesRun};

use crate::fault::Fault;
use crate::formats::{Shown, write_shown};
use crate::notes::Notes;
use crate::opening::{Opened, Settings, begin, within_limits};
use crate::scripts::noted_script;
use lin_core::Core;
use lin_parts::Cluster;
use lin_threads::{
    Ended, HostStep, HostTask, Plan, Players, RunReport, ScriptTask, run_cluster, split, wire,
};
use std::alloc::{AllocError, Global};
use std::fs::Files;
use std::io::{self, Read, Write};
use std::mem;
use std::sync::Wait;
use std::thread::Threads;

/// How many items each ring of a port takes.
const RING: usize = 64;

/// How many turns a host's task gets at most.
const TURNS: u32 = 4_000_000_000;

/// How many rounds a slot has at most.
const ROUNDS: u32 = 1_000_000;

/// The steps of each host, from the script that a reader gives.
///
/// # Errors
/// `BadLine` and `ScriptTooLong`; `NotHostStep` for the first step that is no send, write or close
/// of a host of the cluster by its own port; `ReadFailed`; `OutOfMemory`.
fn host_steps<R: Read>(
    alloc: Global,
    reader: &mut R,
    hosts: usize,
    notes: &mut Notes<'_>,
) -> Result<Vec<Vec<HostStep>>, Fault>
    ensures lists { IfSome (R.remaining reader.old) (λ bytes. ReadsHosts hosts result bytes) }
    ensures count { IfOk result (λ lists. vec_len lists ≡ hosts) }
{
    let steps = noted_script(alloc, reader, notes)?;
    Ok(split(alloc, steps, hosts)?)
}

/// A plan of so many slots, in which no response is damaged and no node leaves its response out.
fn undisturbed(alloc: Global, slots: u32, nodes: usize) -> Result<Plan, AllocError>
    ensures slots { IfOk result (λ plan. plan.slots ≡ slots) }
    ensures turns { IfOk result (λ plan. plan.turns ≡ 4000000000) }
    ensures rounds { IfOk result (λ plan. plan.rounds ≡ 1000000) }
    ensures hurt { IfOk result (λ plan. plan.hurt.items ≡ []) }
    ensures leave { IfOk result (λ plan. vec_len plan.leave ≡ nodes) }
    ensures none { IfOk result (λ plan. All (λ own. own.items ≡ []) plan.leave.items) }
{
    let mut leave = Vec::with_capacity(alloc, nodes)?;
    for _ in 0..nodes {
        leave.push_reserved(Vec::new(alloc));
    }
    Ok(Plan {
        slots,
        turns: TURNS,
        rounds: ROUNDS,
        hurt: Vec::new(alloc),
        leave,
    })
}

/// Runs the tasks, one for each host, as planned. (The core is owned here alone, since letting one
/// go is long to prove.)
fn run_tasks<R: AllocGlobal + Threads + Wait + Copy + Send + 'static>(
    rt: &R,
    cluster: Cluster,
    table: u16,
    capacity: usize,
    tasks: Vec<Box<dyn HostTask + Send>>,
    plan: Plan,
) -> Result<RunReport, Fault>
    requires table { table < length cluster.tables }
    requires capacity { (1 ≤ capacity) × (capacity ≤ 1024) }
    requires tasks { vec_len tasks ≡ nodes cluster }
    requires leave { vec_len plan.leave ≡ nodes cluster }
    ensures core { IfOk result (λ r. (r.core.cluster ≡ cluster) × (r.core.opening ≡ table)
        × (r.core.capacity ≡ capacity)) }
    ensures slots { IfOk result
        (λ r. logged r.core.log Bus ≡ bus_steps plan.hurt.items plan.slots) }
    ensures ended { IfOk result (λ r. vec_len r.ended ≡ nodes cluster) }
{
    let alloc = rt.alloc();
    let core = Core::new(alloc, cluster, table, capacity)?;
    let (pump, hosts, others) = wire(alloc, core, RING)?;
    let players = Players {
        hosts,
        nodes: others,
        tasks,
    };
    Ok(run_cluster(rt, alloc, pump, players, plan)?)
}

/// Runs a task for the steps of each host.
fn run_steps<R: AllocGlobal + Threads + Wait + Copy + Send + 'static>(
    rt: &R,
    cluster: Cluster,
    table: u16,
    capacity: usize,
    slots: u32,
    lists: Vec<Vec<HostStep>>,
) -> Result<RunReport, Fault>
    requires table { table < length cluster.tables }
    requires capacity { (1 ≤ capacity) × (capacity ≤ 1024) }
    requires lists { vec_len lists ≡ nodes cluster }
    ensures core { IfOk result (λ r. (r.core.cluster ≡ cluster) × (r.core.opening ≡ table)
        × (r.core.capacity ≡ capacity)) }
    ensures slots { IfOk result (λ r. logged r.core.log Bus ≡ bus_steps [] slots) }
    ensures ended { IfOk result (λ r. vec_len r.ended ≡ nodes cluster) }
{
    let alloc = rt.alloc();
    let plan = undisturbed(alloc, slots, lists.len())?;
    let mut tasks: Vec<Box<dyn HostTask + Send>> = Vec::new(alloc);
    for steps in lists {
        tasks.push(Box::new(alloc, ScriptTask::new(steps))?)?;
    }
    run_tasks(rt, cluster, table, capacity, tasks, plan)
}

/// Writes the log of a run as it is to be shown, with the table and the capacity with which it opened.
///
/// # Errors
/// `WriteFailed`, and in a format other than the log's own text `OutOfMemory`, where what was
/// written is the beginning of the whole; `TaskLimit` after all was written, where a task had all
/// its turns before it was done.
fn put_report<W: Write>(
    alloc: Global,
    shown: &Shown<'_, '_>,
    report: &RunReport,
    writer: &mut W,
) -> Result<(), Fault>
    requires table { report.now.core.opening ≡ shown.now.table }
    requires capacity { report.now.core.capacity ≡ shown.now.capacity }
    ensures { WritesRun shown.now.format
        (shown_log shown.now report.now.core)
        report.now.ended.items (W.contents writer.old) (W.contents writer.new) result }
{
    write_shown(alloc, shown, &report.core, writer)?;
    if report.ended.contains(&Ended::Limit) {
        return Err(Fault::TaskLimit);
    }
    Ok(())
}

/// Runs the steps on standard input over a cluster. (The cluster is owned here, and the core
/// above.)
fn run_over<R: AllocGlobal + Input + Print + Eprint + Threads + Wait + Copy + Send + 'static>(
    rt: &R,
    opened: Opened<'_>,
    slots: u32,
    is_watched: bool,
    notes: &mut Notes<'_>,
) -> Result<(), Fault>
    requires { opened.table < length opened.cluster.tables }
{
    let Opened {
        cluster,
        table,
        coded,
        limits: _limits,
        settings,
    } = opened;
    let mut reader = rt.reader();
    let lists = host_steps(rt.alloc(), &mut reader, cluster.nodes(), notes)?;
    if is_watched {
        let _ = eprintln!(rt; "linsim: {slots} slots, {} hosts", lists.len());
    }
    let capacity = within_limits(settings.capacity);
    let report = run_steps(rt, cluster, table, capacity, slots, lists)?;
    let shown = Shown {
        format: settings.format,
        coded: coded.as_ref(),
        table,
        capacity,
        judgements: &[],
        tests: &[],
        script: None::<&'static str>,
        files: &[],
    };
    let written = put_report(rt.alloc(), &shown, &report, &mut io::writer(rt));
    notes.add_refusals(report.core.log());
    mem::forget(report);
    written
}

/// Reads a script of hosts' steps on standard input, runs so many slots of the cluster of the
/// settings, while each host puts its steps and each node answers in a thread of its own, and writes
/// the log on standard output in their format. Where standard error is watched, a line there says at
/// the start how many slots and hosts run.
///
/// # Errors
/// Those of `cluster_of_file`; `NoSuchTable`; `BadLine`, `ScriptTooLong` and `NotHostStep` for a
/// fault of the script; `ReadFailed` where standard input couldn't be read; `OutOfMemory`;
/// `NoThread`; `LogFull`. Nothing was written then. `WriteFailed`, and in a format other than the
/// log's own text `OutOfMemory`, where what was written is the beginning of the whole. `TaskLimit`,
/// after all was written.
pub fn run<
    R: AllocGlobal + Files + Input + Print + Eprint + Threads + Wait + Copy + Send + 'static,
>(
    rt: &R,
    settings: &Settings<'_>,
    slots: u32,
    is_watched: bool,
    notes: &mut Notes<'_>,
) -> Result<(), Fault> {
    let opened = begin(rt, settings, false, notes)?;
    let answer = run_over(rt, opened, slots, is_watched, notes);
    notes.add_unread(&answer, None);
    answer
}
