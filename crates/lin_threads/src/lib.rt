//! Whole runs of a cluster: ports of hosts and nodes, each with a ring of steps and a ring of notes;
//! the pump that makes their steps on a core; the hosts' tasks and the nodes' answers in threads of
//! their own; and the slots of the schedule.
//!
//! ```
//! let (pump, hosts, nodes) = wire(alloc, core, 64)?;
//! let players = Players { hosts, nodes, tasks };
//! let report = run_cluster(rt, alloc, pump, players, plan)?;
//! write_log(report.core.log(), &mut writer)?;
//! ```
//!
//! Without threads, step by step:
//!
//! ```
//! let (mut pump, mut hosts, mut nodes) = wire(alloc, core, 64)?;
//! hosts[0].put(HostStep::Send { to: 1, message })?;
//! pump.round()?;
//! let note = hosts[0].take();
//! ```
#![tactic(auto)]

mod ending;
mod hosts;
mod node_threads;
mod ports;
mod run_slots;
mod runs;
mod script_task;
mod shared;
mod splitting;
mod starting;
mod tasks;

pub use ports::{
    Full, HostPort, HostStep, NodePort, NodeStep, Note, Pump, Receipt, RoundFault, Settled, Taken,
    taken_messages, tells_messages, wire,
};
pub use runs::{Ended, Plan, Players, RunFault, RunReport, run_cluster};
pub use script_task::ScriptTask;
pub use splitting::{SplitFault, split};
pub use tasks::{HostTask, Turn};
