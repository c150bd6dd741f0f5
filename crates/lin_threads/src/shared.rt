//! What the threads of a run share.

use std::alloc::{AllocError, Global};
use std::sync::Wait;
use std::sync::atomic::{AtomicBool, AtomicU64, Ordering};
use std::thread::Parker;

/// Where a thread sleeps, and how many notes its port had been given when it was last woken for
/// them.
#[derive(Drop)]
struct Seat {
    parker: Parker,
    told: AtomicU64,
}

fn seats(alloc: Global, count: usize) -> Result<Vec<Seat>, AllocError> {
    let mut seats = Vec::with_capacity(alloc, count)?;
    for _ in 0..count {
        seats.push_reserved(Seat {
            parker: Parker::new(),
            told: AtomicU64::new(0),
        });
    }
    Ok(seats)
}

/// How far a run is, and where its threads sleep. No contract says what a thread reads here, or how
/// long one sleeps.
#[derive(Drop)]
pub(crate) struct Shared {
    over: AtomicBool,
    stopped: AtomicBool,
    ended: AtomicU64,
    hosts: Vec<Seat>,
    nodes: Vec<Seat>,
}

impl Shared {
    pub(crate) fn new(alloc: Global, hosts: usize, nodes: usize) -> Result<Shared, AllocError> {
        Ok(Shared {
            over: AtomicBool::new(false),
            stopped: AtomicBool::new(false),
            ended: AtomicU64::new(0),
            hosts: seats(alloc, hosts)?,
            nodes: seats(alloc, nodes)?,
        })
    }

    /// The run's slots are over: all threads are woken.
    pub(crate) fn finish(&self) {
        self.over.store(true, Ordering::SeqCst);
        for seat in self.hosts.iter() {
            seat.parker.unpark();
        }
        for seat in self.nodes.iter() {
            seat.parker.unpark();
        }
    }

    /// Sleeps until the run's slots are over: the thread of the host with this number.
    pub(crate) fn sleep_host(&self, rt: &impl Wait, number: u8) {
        if let Some(seat) = self.hosts.get(usize::from(number)) {
            seat.parker.park(rt);
        }
    }

    /// Sleeps until it is woken: the thread of the node with this number.
    pub(crate) fn sleep_node(&self, rt: &impl Wait, number: u8) {
        if let Some(seat) = self.nodes.get(usize::from(number)) {
            seat.parker.park(rt);
        }
    }

    /// Wakes the thread of a node, if its port was given more notes than when it was last woken
    /// here.
    pub(crate) fn wake_node(&self, number: u8, given: u64) {
        let Some(seat) = self.nodes.get(usize::from(number)) else {
            return;
        };
        if seat.told.load(Ordering::SeqCst) != given {
            seat.told.store(given, Ordering::SeqCst);
            seat.parker.unpark();
        }
    }

    /// The run ends early: its slots are over, and no task gets another turn.
    pub(crate) fn stop(&self) {
        self.stopped.store(true, Ordering::SeqCst);
        self.finish();
    }

    /// One more thread has ended.
    pub(crate) fn end(&self) {
        self.ended.fetch_add(1, Ordering::SeqCst);
    }

    pub(crate) fn is_over(&self) -> bool {
        self.over.load(Ordering::SeqCst)
    }

    pub(crate) fn is_stopped(&self) -> bool {
        self.stopped.load(Ordering::SeqCst)
    }

    /// How many threads have ended.
    pub(crate) fn ended(&self) -> u64 {
        self.ended.load(Ordering::SeqCst)
    }
}
