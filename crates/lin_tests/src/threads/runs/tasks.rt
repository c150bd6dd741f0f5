//! Tasks that take all turns that they get, and that wait for the rounds after the last slot.

use crate::samples::{DOOR_CLUSTER, core_of, expect_log};
use crate::threads::runs::bench::{NUMBERS, Numbers, expect_ended, run, run_scripts, script};
use lin_core::Event;
use lin_threads::{Ended, HostPort, HostTask, Note, ScriptTask, Turn};
use std::alloc::Global;
use std::sync::Arc;
use std::sync::atomic::{AtomicU64, Ordering};
use std::test::Fail;

/// A task that is never done, and counts its turns.
#[derive(Drop)]
struct Restless {
    turns: Arc<AtomicU64, Global>,
}

impl HostTask for Restless {
    fn turn(&mut self, _port: &mut HostPort, _over: bool) -> Turn {
        self.turns.fetch_add(1, Ordering::SeqCst);
        Turn::Again
    }
}

#[test]
fn task_that_never_ends(rt: HostRuntime) -> Result<(), Fail> {
    let alloc = rt.alloc();
    let turns = Arc::new(alloc, AtomicU64::new(0))?;
    let restless = Restless {
        turns: Arc::try_clone(&turns)?,
    };
    let mut tasks: Vec<Box<dyn HostTask + Send>> = Vec::new(alloc);
    tasks.push(Box::new(alloc, script(alloc, 1, &[1])?)?)?;
    tasks.push(Box::new(alloc, restless)?)?;
    let numbers = Numbers {
        ring: 4,
        slots: 2,
        turns: 10,
        rounds: 0,
        ..NUMBERS
    };
    let core = core_of(alloc, DOOR_CLUSTER, 0)?;
    let report = run(&rt, alloc, core, tasks, &numbers)?;
    assert_eq!(rt; report.ended.len(), 2);
    assert_eq!(rt; report.ended[1], Ended::Limit);
    assert_eq!(rt; turns.load(Ordering::SeqCst), 10);
    Ok(())
}

/// A task with nothing left sleeps: four turns are enough for a run of 2,000 slots.
#[test]
fn tasks_with_nothing_left_take_no_turns(rt: HostRuntime) -> Result<(), Fail> {
    let alloc = rt.alloc();
    let numbers = Numbers {
        slots: 2_000,
        turns: 4,
        ..NUMBERS
    };
    let core = core_of(alloc, DOOR_CLUSTER, 0)?;
    let report = run_scripts(&rt, alloc, core, [&[1], &[]], &numbers)?;
    expect_ended(&rt, &report, [Ended::Done, Ended::Done], "nothing left");
    Ok(())
}

/// A task with steps left isn't idle, since its thread sleeps then until the run's slots are over.
#[test]
fn task_with_steps_left_is_not_idle(rt: HostRuntime) -> Result<(), Fail> {
    let alloc = rt.alloc();
    let two = script(alloc, 1, &[1, 2])?;
    let one = script(alloc, 1, &[1])?;
    let none = script(alloc, 1, &[])?;
    assert!(rt; !two.is_idle());
    assert!(rt; !one.is_idle());
    assert!(rt; none.is_idle());
    Ok(())
}

/// A task that is always idle, and is done a few turns after the run's slots are over.
#[derive(Drop)]
struct Idle {
    turns: u32,
}

impl HostTask for Idle {
    fn turn(&mut self, _port: &mut HostPort, over: bool) -> Turn {
        if over && self.turns == 0 {
            return Turn::Done;
        }
        if over {
            self.turns = self.turns.saturating_sub(1);
        }
        Turn::Again
    }

    fn is_idle(&self) -> bool {
        true
    }
}

/// Once the run's slots are over an idle task gets its turns without a sleep, which nothing would
/// end.
#[test]
fn idle_task_gets_turns_after_the_slots(rt: HostRuntime) -> Result<(), Fail> {
    let alloc = rt.alloc();
    let mut tasks: Vec<Box<dyn HostTask + Send>> = Vec::new(alloc);
    tasks.push(Box::new(alloc, Idle { turns: 5 })?)?;
    tasks.push(Box::new(alloc, Idle { turns: 0 })?)?;
    let core = core_of(alloc, DOOR_CLUSTER, 0)?;
    let report = run(&rt, alloc, core, tasks, &NUMBERS)?;
    expect_ended(&rt, &report, [Ended::Done, Ended::Done], "idle");
    Ok(())
}

/// A task that puts its step this many turns after the run's slots are over, and is done once it
/// took the note that a message was accepted.
#[derive(Drop)]
struct Late {
    step: ScriptTask,
    turns: u32,
    has_put: bool,
}

impl HostTask for Late {
    fn turn(&mut self, port: &mut HostPort, over: bool) -> Turn {
        if over && self.turns > 0 {
            self.turns = self.turns.saturating_sub(1);
            return Turn::Again;
        }
        if over && !self.has_put {
            self.has_put = true;
            let _turn = self.step.turn(port, over);
            return Turn::Again;
        }
        match port.take() {
            Some(Note::Event(Event::Accepted { .. })) => Turn::Done,
            _ => Turn::Again,
        }
    }
}

const LATE_SEND: &[u8] = b"bus open
> slot 0 0 -
bus finish
> seen silent
h0 send 0 1 01
> accepted 0 1
";

#[test]
fn rounds_go_on_while_a_task_does(rt: HostRuntime) -> Result<(), Fail> {
    let alloc = rt.alloc();
    let late = Late {
        step: script(alloc, 1, &[1])?,
        turns: 5_000,
        has_put: false,
    };
    let numbers = Numbers {
        turns: 20_000_000,
        ..NUMBERS
    };
    let mut tasks: Vec<Box<dyn HostTask + Send>> = Vec::new(alloc);
    tasks.push(Box::new(alloc, late)?)?;
    tasks.push(Box::new(alloc, script(alloc, 0, &[])?)?)?;
    let core = core_of(alloc, DOOR_CLUSTER, 0)?;
    let report = run(&rt, alloc, core, tasks, &numbers)?;
    expect_ended(&rt, &report, [Ended::Done, Ended::Done], "late");
    expect_log(&rt, alloc, &report.core, LATE_SEND, "late")
}
