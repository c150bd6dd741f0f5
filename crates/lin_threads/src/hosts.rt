//! The threads of hosts.

ghost use Rattle.lin_threads.specs.States.{IsFurther, host_state, receipt_state};

use crate::ports::HostPort;
use crate::runs::Ended;
use crate::shared::Shared;
use crate::starting::Finished;
use crate::tasks::{HostTask, Turn};
use std::alloc::Global;
use std::sync::{Arc, Wait};
use std::thread;

/// Gives a task its turns on its port: until it is done, or had as many as it may take, or the run
/// ends early. The thread of an idle task sleeps until the run's slots are over.
fn take_turns(
    rt: &impl Wait,
    mut task: Box<dyn HostTask + Send>,
    port: &mut HostPort,
    shared: &Shared,
    turns: u32,
) -> Ended
    ensures { IsFurther (host_state port.old) (host_state port.new) }
{
    for _ in 0..turns {
        if shared.is_stopped() {
            return Ended::Limit;
        }
        let over = shared.is_over();
        match task.turn(port, over) {
            Turn::Done => return Ended::Done,
            Turn::Again if !over && task.is_idle() => shared.sleep_host(rt, port.number),
            Turn::Again => thread::yield_now(),
        }
    }
    Ended::Limit
}

/// The whole of a host's thread.
pub(crate) fn run_task(
    rt: &impl Wait,
    task: Box<dyn HostTask + Send>,
    mut port: HostPort,
    shared: Arc<Shared, Global>,
    turns: u32,
) -> Finished
    ensures { IsFurther (host_state port) (receipt_state result.receipt) }
{
    let ended = take_turns(rt, task, &mut port, &shared, turns);
    let receipt = port.end();
    shared.end();
    Finished { receipt, ended }
}
