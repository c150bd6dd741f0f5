//! The core.

ghost use Rattle.std.specs.Prelude.{◌≡◌, ◌≤◌, ◌∷◌, [], vec_capacity};

mod finish;
mod make;
mod next;
mod refused;
mod timeout;

use crate::bus_state::BusState;
use crate::event::Event;
use crate::hold::Hold;
use crate::host::hosts;
use crate::log::{Log, LogEntry};
use crate::payload::Events;
use crate::port::PortId;
use crate::receivers::fresh_receivers;
use crate::reply::Reply;
use crate::setup::Setup;
use crate::signals::Signals;
use crate::slot::Slot;
use crate::state::State;
use crate::step::Step;
use arrayvec::ArrayVec;
use lin_frame::Value;
use lin_parts::Cluster;
use lin_schedule::Walker;
use std::alloc::{AllocError, Global};
use std::marker::Model;

/// The most entries of a log: each has a place of 32 bits.
const MOST_ENTRIES: usize = 0xffff_ffff;

/// The core: a cluster, and the log of the steps that were made on it. Contracts see the cluster,
/// the table that the schedule opened with, the capacity of the queues, the log (the oldest entry
/// first) and how much room was made.
pub struct Core {
    setup: Setup,
    log: Log,
    state: State,
}

impl Model for Core {
    ghost use Rattle.std.specs.Prelude.{◌≡◌, ◌<◌, ◌≤◌, ◌-◌, ◌^◌, [], length, vec_capacity};
    ghost use Rattle.lin_core.specs.Core.{CoreData, core_data};

    ghost Value = { CoreData };

    ghost use Rattle.lin_core.specs.kept.State.{IsWhole};

    ghost view = { core_data };

    ghost invariant = { IsWhole };
}

// Written out, so that what owns a core lets it go in one step of its proof.
impl Drop for Core {
    fn drop(self) {
        let Core {
            setup: _setup,
            log: _log,
            state: _state,
        } = self;
    }
}

/// The two events of a step, in the room that was made for them.
fn two_events(room: Vec<Event>, first: Event, second: Event) -> Events
    requires empty { room.items ≡ [] }
    requires room { 2 ≤ vec_capacity room }
    ensures { result ≡ first ∷ second ∷ [] }
{
    let mut events = room;
    events.push(first).unwrap();
    events.push(second).unwrap();
    Events::new(events)
}

/// The three events of a step, in the room that was made for them.
fn three_events(room: Vec<Event>, first: Event, second: Event, third: Event) -> Events
    requires empty { room.items ≡ [] }
    requires room { 3 ≤ vec_capacity room }
    ensures { result ≡ first ∷ second ∷ third ∷ [] }
{
    let mut events = room;
    events.push(first).unwrap();
    events.push(second).unwrap();
    events.push(third).unwrap();
    Events::new(events)
}

/// No events.
fn no_events(setup: &Setup) -> Events
    ensures { result ≡ [] }
{
    Events::new(Vec::new(setup.alloc))
}

impl Core {
    ghost use Rattle.std.specs.Prelude.{◌≡◌, ◌<◌, ◌≤◌, ◌-◌, ◌^◌, [], length, OnOk, IfOk, ◌↔◌};
    ghost use Rattle.std.specs.Prelude.{false, slice_index_or};
    ghost use Rattle.std.specs.Option.{option_map_or};
    ghost use Rattle.lin_core.specs.Promises.{CarriesFrames, DeliversExactly, FatesAreFinal};
    ghost use Rattle.lin_core.specs.Promises.{LosesNothing, PutsInOrder, StaysClosed};
    ghost use Rattle.lin_parts.specs.Cluster.{nodes};
    ghost use Rattle.lin_core.specs.History.{asleep, header_and_first, open_slot, time, undecided_count};
    ghost use Rattle.std.specs.Prelude.{option_map};
    ghost use Rattle.lin_core.specs.Signals.{value_at};
    ghost use Rattle.lin_core.specs.Links.{waiting};
    ghost use Rattle.lin_core.specs.Core.{past_of, IsAlike, IsHistory, IsLogFull, IsOutOfMemory};
    ghost use Rattle.lin_core.specs.Core.{IsSmall, IsStepped};

    /// A core with an empty log, on a cluster whose schedule opens with this table. At most
    /// `capacity` messages of a host (1 to 1,024) wait. An error means out of memory, and the
    /// cluster is dropped.
    pub fn new(
        alloc: Global,
        cluster: Cluster,
        table: u16,
        capacity: usize,
    ) -> Result<Core, AllocError>
        requires table { table < length cluster.tables }
        requires some { 1 ≤ capacity }
        requires few { capacity ≤ 1024 }
        ensures { IfOk result
            (λ core. (core.log ≡ []) × (core.cluster ≡ cluster) × (core.opening ≡ table)
            × (core.capacity ≡ capacity)) }
    {
        cluster.sound();
        let hosts = hosts(alloc, cluster.nodes(), capacity)?;
        let receivers = fresh_receivers(alloc, &cluster)?;
        let signals = Signals::new(alloc, &cluster)?;
        Ok(Core {
            setup: Setup {
                alloc,
                cluster,
                opening: table,
                capacity,
            },
            log: Log::new(alloc),
            state: State {
                slot: Slot::new(),
                time: 0,
                walker: Walker::new(table),
                hosts,
                receivers,
                signals,
                bus: BusState {
                    asleep: false,
                    asked: false,
                    selected: None,
                },
                ready: ArrayVec::new(),
            },
        })
    }

    /// The log, of which the laws hold: the receivers read exactly the messages that were sent
    /// whole and are told of these alone; each link carries its messages' frames in order; each
    /// message has one final fate, which its host is told once; each slot carries the frame that
    /// the schedule names and tells each node that is due; nothing of a host is accepted after its
    /// close; and where nothing is disturbed no message is lost.
    pub fn log(&self) -> &Log
        ensures entries { result.now.entries ≡ self.now.log }
        ensures history { IsHistory self.now }
        ensures exact_delivery { DeliversExactly self.now.cluster (past_of self.now) }
        ensures blocks_are_prefixes { PutsInOrder self.now.cluster (past_of self.now) }
        ensures one_final_fate { FatesAreFinal self.now.cluster (past_of self.now) }
        ensures slots_carry_frames { CarriesFrames self.now.cluster self.now.opening (past_of self.now) }
        ensures nothing_after_close { StaysClosed (past_of self.now) }
        ensures nothing_lost { LosesNothing self.now.cluster (past_of self.now) }
    {
        &self.log
    }

    /// Returns the cluster, for another core; the log is dropped.
    pub fn into_cluster(self) -> Cluster
        ensures { result ≡ self.cluster }
    {
        let Core {
            setup,
            log: _log,
            state: _state,
        } = self;
        let Setup { cluster, .. } = setup;
        cluster
    }

    /// The cluster.
    pub fn cluster(&self) -> &Cluster
        ensures { result.now ≡ self.now.cluster }
    {
        &self.setup.cluster
    }

    /// The delays of all finished slots, in microseconds.
    pub fn time(&self) -> u64
        ensures { result ≡ time self.now.cluster (past_of self.now) }
    {
        self.state.time
    }

    /// Whether the cluster is asleep (ISO 17987-3, go-to-sleep and wake-up).
    pub fn asleep(&self) -> bool
        ensures { result ≡ asleep (past_of self.now) }
    {
        self.state.bus.asleep
    }

    /// How many messages of a host were accepted and neither sent nor lost.
    pub fn waiting(&self, host: u8) -> usize
        requires { host < nodes self.now.cluster }
        ensures { result ≡ length (waiting self.now.cluster (past_of self.now) host) }
    {
        self.state.hosts[host as usize].queue.len()
    }

    /// The value of a signal that a node sees: its publisher the one that was written last, each
    /// other node the one in the last good frame that has the signal; the initial value before (ISO
    /// 17987-3, signals).
    pub fn signal(&self, node: u8, signal: u16) -> Value
        requires node { node < nodes self.now.cluster }
        requires signal { signal < length self.now.cluster.signals }
        ensures { result ≡ value_at self.now.cluster (past_of self.now) node signal }
    {
        let signals = &self.state.signals;
        if node == self.setup.cluster.publisher(signal) {
            signals.values[signal as usize]
        } else {
            signals.heard[signal as usize]
        }
    }

    /// How many nodes that are due in the open slot have decided nothing; 0 where no slot is open.
    pub fn undecided(&self) -> usize
        ensures { result ≡ undecided_count (past_of self.now) }
    {
        let slot = &self.state.slot;
        if slot.is_open() {
            return slot.open().undecided();
        }
        0
    }

    /// Whether a slot is open that is for a service of node configuration (LIN 2.2A, section 4.2).
    pub fn is_in_service(&self) -> bool
        ensures { result ≡ option_map_or (λ s. s.service) (open_slot (past_of self.now)) false }
    {
        self.state.slot.is_open() && self.state.slot.open().service
    }

    /// The header of the open slot, where it has one, and the first node that has answered in it,
    /// where one has; none where no slot is open (ISO 17987-3, frame slots).
    pub fn open_slot(&self) -> Option<(Option<u8>, Option<u8>)>
        ensures { result ≡ option_map header_and_first (open_slot (past_of self.now)) }
    {
        let slot = &self.state.slot;
        if slot.is_open() {
            let open = slot.open();
            return Some((open.header, open.first_node()));
        }
        None
    }

    /// Makes room, so that the next step isn't held because of memory, unless it is an open or a
    /// finish. It changes nothing else; an error means out of memory.
    pub fn make_room(&mut self) -> Result<(), AllocError>
        ensures alike { IsAlike self.old self.new }
        ensures log { self.new.log ≡ self.old.log }
        ensures spare { OnOk result (1 ≤ self.new.spare) }
    {
        self.log.make_room()?;
        Ok(())
    }

    /// Makes a step by a port (ISO 17987-3, frame transfer; ISO 17987-2, diagnostic schedules): it
    /// is done or refused, and logged with its reply, which `newest` then lends. A refused step
    /// changes nothing but the log. An error hands the step back, and nothing is logged or changed:
    /// the log is full, with 4,294,967,295 entries, or there was no memory.
    #[inline(always)]
    pub fn step(&mut self, by: PortId, step: Step) -> Result<(), Hold>
        ensures stepped { IsStepped self.old by step result self.new }
        ensures full { IsLogFull result ↔ (length self.old.log ≡ 2 ^ 32 - 1) }
        ensures room { 1 ≤ self.old.spare → IsSmall step → IsOutOfMemory result → ⊥ }
    {
        if self.log.len() >= MOST_ENTRIES {
            return Err(Hold::LogFull(step));
        }
        let refusal = self.refusal_of(by, &step);
        if self.log.make_room().is_err() {
            return Err(Hold::OutOfMemory(step));
        }
        let reply = match refusal {
            Some(refusal) => Reply::Refused(refusal),
            None => match self.state.make(&self.setup, &self.log, by, &step) {
                Ok(events) => Reply::Done(events),
                Err(_) => return Err(Hold::OutOfMemory(step)),
            },
        };
        self.log.push(LogEntry {
            port: by,
            step,
            reply,
        });
        Ok(())
    }

    /// The newest entry of the log, which isn't empty.
    pub fn newest(&self) -> &LogEntry
        requires { 0 < length self.now.log }
        ensures { result.now ≡ slice_index_or self.now.log (length self.now.log - 1) result.now }
    {
        self.log.entry(self.log.len() - 1)
    }
}
