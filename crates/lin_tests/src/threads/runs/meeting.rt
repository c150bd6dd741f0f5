//! Tasks that wait for one another.

use crate::samples::{DOOR_CLUSTER, core_of};
use crate::threads::runs::bench::{NUMBERS, Numbers, expect_ended, run};
use lin_threads::{Ended, HostPort, HostTask, Turn};
use std::alloc::Global;
use std::process::Abort;
use std::sync::atomic::{AtomicBool, Ordering};
use std::sync::{Arc, Wait};
use std::test::Fail;
use std::thread;
use std::thread::Threads;

/// How often a task looks for the other one.
const LOOKS: u32 = 100_000_000;

/// A task that says in its first turn that it has come, and is done once it saw that the other one
/// has; in that turn, or it says that it missed it.
#[derive(Drop)]
struct Meeting {
    come: Arc<AtomicBool, Global>,
    other: Arc<AtomicBool, Global>,
    missed: Arc<AtomicBool, Global>,
}

impl HostTask for Meeting {
    fn turn(&mut self, _port: &mut HostPort, _over: bool) -> Turn {
        self.come.store(true, Ordering::SeqCst);
        for _ in 0..LOOKS {
            if self.other.load(Ordering::SeqCst) {
                return Turn::Done;
            }
            thread::yield_now();
        }
        self.missed.store(true, Ordering::SeqCst);
        Turn::Done
    }
}

/// Both tasks see that the other one has come, each in its first turn.
fn both_meet<R: Abort + Threads + Wait + Copy + Send + 'static>(
    rt: &R,
    alloc: Global,
    numbers: &Numbers,
) -> Result<(), Fail> {
    let first = Arc::new(alloc, AtomicBool::new(false))?;
    let second = Arc::new(alloc, AtomicBool::new(false))?;
    let missed = Arc::new(alloc, AtomicBool::new(false))?;
    let mut tasks: Vec<Box<dyn HostTask + Send>> = Vec::new(alloc);
    tasks.push(Box::new(
        alloc,
        Meeting {
            come: Arc::try_clone(&first)?,
            other: Arc::try_clone(&second)?,
            missed: Arc::try_clone(&missed)?,
        },
    )?)?;
    tasks.push(Box::new(
        alloc,
        Meeting {
            come: second,
            other: first,
            missed: Arc::try_clone(&missed)?,
        },
    )?)?;
    let core = core_of(alloc, DOOR_CLUSTER, 0)?;
    let report = run(rt, alloc, core, tasks, numbers)?;
    assert!(rt; !missed.load(Ordering::SeqCst));
    expect_ended(rt, &report, [Ended::Done, Ended::Done], "meeting");
    Ok(())
}

#[test]
fn tasks_run_at_once(rt: HostRuntime) -> Result<(), Fail> {
    for ring in [64, 1] {
        let numbers = Numbers {
            ring,
            slots: 4,
            ..NUMBERS
        };
        both_meet(&rt, rt.alloc(), &numbers)?;
    }
    Ok(())
}
