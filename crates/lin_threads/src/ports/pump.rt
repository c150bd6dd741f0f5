//! The pump.

ghost use Rattle.std.specs.Prelude.{◌≡◌, ◌<◌, ◌≤◌, ◌+◌, drop, vec_len, length};
ghost use Rattle.lin_parts.specs.Cluster.{nodes};
ghost use Rattle.lin_threads.specs.Lanes.{AllServe, AreInPortOrder, OnlyOwn};

use crate::ports::Receipt;
use crate::ports::lane::Lane;
use crate::ports::settling::Settled;
use lin_core::{Core, Hold, PortId, Step};
use std::alloc::{AllocError, Global};

/// What a round did: how many steps of ports it took, each of which is an entry of the log now.
#[derive(Clone, Copy, Debug, PartialEq, Eq)]
pub struct Taken {
    pub steps: u32,
}

/// Why a round ended early. What it added to the log stays, and each note that wasn't pushed is
/// held for the next round.
#[derive(Clone, Copy, Debug, PartialEq, Eq)]
pub enum RoundFault {
    /// The log has 4,294,967,295 entries.
    LogFull,
    OutOfMemory,
}

/// The pump: it owns the core, makes the steps of all ports on it, and tells each port its notes.
/// Contracts see its core, the entries that the log got since `wire`, which ports it serves, and
/// the notes that were pushed to each.
#[derive(Drop)]
pub struct Pump {
    pub(crate) alloc: Global,
    pub(crate) core: Core,
    pub(crate) base: usize,
    pub(crate) lanes: Vec<Lane>,
    ghost begun: { base ≤ length core.log },
    ghost count: { vec_len lanes ≡ nodes core.cluster + nodes core.cluster },
    ghost few: { nodes core.cluster ≤ 16 },
    ghost serves: { AllServe base core.log lanes.items },
    ghost order: { AreInPortOrder (nodes core.cluster) lanes.items },
    ghost own: { OnlyOwn (drop base core.log) },
}

impl Pump {
    ghost use Rattle.std.specs.Prelude.{◌≡◌, ◌≢◌, ◌<◌, ◌+◌, ◌-◌, ◌^◌, ◌↔◌, ℕ, vec_len, length};
    ghost use Rattle.std.specs.Prelude.{IfOk, IfErr, OnOk, IfSome, IfNone};
    ghost use mathlib.Core.List.{IsPrefix};
    ghost use Rattle.lin_parts.specs.Cluster.{nodes};
    ghost use Rattle.lin_core.specs.Core.{IsStepped, IsLogFull};
    ghost use Rattle.lin_core.specs.declared.port.PortId.TheVariants.{Bus};
    ghost use Rattle.lin_threads.specs.Lanes.{Served, FirstTold, IsFullLog, OnlyOwn};
    ghost use Rattle.lin_threads.specs.Ports.{receipt_wiring};
    ghost use Rattle.lin_threads.specs.Pumps.{core_of, since, given_to, AllTold, IsWired, KeepsPump};
    ghost use Rattle.lin_threads.specs.Rounds.{AddsUpTo, RoundAdds};
    ghost use Rattle.lin_threads.specs.Settled.{Settles, StaysSettled};
    ghost use Rattle.lin_threads.specs.Steps.{port_at, notes};

    /// Takes at most one step of a port.
    fn serve(&mut self, i: u8) -> Result<bool, RoundFault>
        requires { i < vec_len self.old.lanes }
        ensures pump { KeepsPump self.old self.new }
        ensures adds { Served
            (port_at (nodes self.old.core.cluster) i) self.old.core self.new.core result }
        ensures full { IfErr result
            (λ fault. IsFullLog fault → length self.old.core.log ≡ 2 ^ 32 - 1) }
        ensures stays { StaysSettled self.old self.new }
    {
        let lane = &mut self.lanes[i as usize];
        lane.serve(&mut self.core)
    }

    /// Takes at most one step of each port, in their order.
    fn serve_all(&mut self, count: u8) -> Result<u32, RoundFault>
        requires { count ≡ vec_len self.old.lanes }
        ensures pump { KeepsPump self.old self.new }
        ensures adds { (n : ℕ) × AddsUpTo count self.old.core self.new.core n
            × IfOk result (λ steps. steps ≡ n) }
        ensures full { IfErr result
            (λ fault. IsFullLog fault → length self.new.core.log ≡ 2 ^ 32 - 1) }
        ensures stays { StaysSettled self.old self.new }
    {
        let mut steps = 0;
        for i in 0..count {
            let took = match self.serve(i) {
                Ok(took) => took,
                Err(fault) => return Err(fault),
            };
            if took {
                steps += 1;
            }
        }
        Ok(steps)
    }

    /// Tells a port its notes.
    fn tell(&mut self, i: u8) -> Result<(), AllocError>
        requires { i < vec_len self.old.lanes }
        ensures pump { KeepsPump self.old self.new }
        ensures core { self.new.core ≡ self.old.core }
        ensures stays { StaysSettled self.old self.new }
        ensures told { FirstTold i (since self.old) self.old.lanes.items
            → OnOk result (FirstTold (i + 1) (since self.new) self.new.lanes.items) }
    {
        let lane = &mut self.lanes[i as usize];
        lane.tell(self.alloc, &self.core)
    }

    /// Takes at most one step of each port, hosts by number and then nodes, and then tells the
    /// ports their notes while their rings have room. `LogFull` comes only where the log is full. A
    /// step is taken only after room was made for its entry, so that none is lost.
    pub fn round(&mut self) -> Result<Taken, RoundFault>
        ensures pump { KeepsPump self.old self.new }
        ensures adds { (n : ℕ) × RoundAdds (core_of self.old) (core_of self.new) n
            × IfOk result (λ taken. taken.steps ≡ n) }
        ensures full { IfErr result
            (λ fault. IsFullLog fault → length (core_of self.new).log ≡ 2 ^ 32 - 1) }
        ensures stays { StaysSettled self.old self.new }
        ensures told { OnOk result (AllTold self.new) }
    {
        let count = self.lanes.len() as u8;
        let steps = match self.serve_all(count) {
            Ok(steps) => steps,
            Err(fault) => return Err(fault),
        };
        for i in 0..count {
            if self.tell(i).is_err() {
                return Err(RoundFault::OutOfMemory);
            }
        }
        Ok(Taken { steps })
    }

    /// Makes a step of the bus, or hands it back; the newest entry of the core's log has the
    /// answer.
    pub fn own(&mut self, step: Step) -> Result<(), Hold>
        ensures stepped { IsStepped (core_of self.old) Bus step result (core_of self.new) }
        ensures full { IsLogFull result ↔ (length (core_of self.old).log ≡ 2 ^ 32 - 1) }
        ensures pump { KeepsPump self.old self.new }
        ensures stays { StaysSettled self.old self.new }
    {
        self.core.step(PortId::Bus, step)
    }

    /// The core. Since `wire`, its log has of each host only its own Sends, Writes and Closes, and
    /// of each node only its own Answers and Leaves.
    pub fn core(&self) -> &Core
        ensures core { result.now ≡ core_of self.now }
        ensures own { OnlyOwn (since self.now) }
    {
        &self.core
    }

    /// Hands the core out, of which the same holds. What stands in the rings is dropped.
    pub fn close(self) -> Core
        ensures core { result ≡ core_of self }
        ensures own { OnlyOwn (since self) }
    {
        self.core
    }

    /// The place of a port's lane.
    fn place(&self, port: PortId) -> Option<usize>
        ensures some { IfSome result
            (λ i. (i < vec_len self.now.lanes) × (port_at (nodes self.now.core.cluster) i ≡ port)) }
        ensures none { IfNone result
            ((i : ℕ) → i < vec_len self.now.lanes
            → port_at (nodes self.now.core.cluster) i ≢ port) }
    {
        let nodes = self.core.cluster().nodes();
        match port {
            PortId::Host(number) if (number as usize) < nodes => Some(number as usize),
            PortId::Node(number) if (number as usize) < nodes => Some(nodes + number as usize),
            _ => None,
        }
    }

    /// How many notes were pushed to a port so far; 0 for the bus and for a number that is no node.
    /// They are the first ones of those that the log names for it since `wire`.
    pub fn given(&self, port: PortId) -> u64
        ensures count { result ≡ length (given_to self.now port) }
        ensures first { IsPrefix (given_to self.now port) (notes (since self.now) port) }
    {
        match self.place(port) {
            Some(i) => self.lanes[i].given,
            None => 0,
        }
    }

    /// Compares what a port of this pump put with what is logged. After `Whole` no step of it is
    /// taken and no note is pushed to it any more.
    pub fn settle(&mut self, receipt: Receipt) -> Settled
        requires { IsWired self.old (receipt_wiring receipt) }
        ensures settles { Settles self.new receipt result }
        ensures core { core_of self.new ≡ core_of self.old }
        ensures pump { KeepsPump self.old self.new }
        ensures stays { StaysSettled self.old self.new }
    {
        self.core.cluster().sound();
        self.core.log();
        match self.place(receipt.id()) {
            Some(i) => {
                let lane = &mut self.lanes[i];
                lane.settle(receipt)
            }
            None => unreachable!(),
        }
    }
}
