//! How a port that has ended is compared with what was logged.

ghost use Rattle.std.specs.Prelude.{◌≡◌, ◌<◌, ◌++◌, ℕ, true, length};

use crate::ports::incoming::Incoming;
use crate::ports::lane::Lane;
use crate::ports::{Outgoing, Receipt};

/// What settling found: all steps of the port are logged and the pump passes it over from now on,
/// or some still stand in its ring.
#[derive(Drop)]
pub enum Settled {
    Whole(Receipt),
    Left(Receipt),
}

impl Incoming {
    ghost use Rattle.std.specs.Prelude.{◌≡◌, ◌++◌, ℕ, List, length};
    ghost use Rattle.lin_core.specs.declared.step.Step.{Step};
    ghost use Rattle.lin_threads.specs.Lanes.{SameIncoming, steps_from_ring, port_in, ring_in};
    ghost use Rattle.lin_threads.specs.Ports.{port_out, ring_out, puts};

    /// How many steps still stand in the ring, with both ends in one thread.
    pub(crate) fn left_beside(&mut self, put: &mut Outgoing) -> usize
        requires kind { port_out 0 put.old ≡ port_in 0 self.old }
        requires ring { ring_out put.old ≡ ring_in self.old }
        ensures same { SameIncoming self.old self.new }
        ensures popped { (n : ℕ) → steps_from_ring n self.new ≡ steps_from_ring n self.old }
        ensures port { (n : ℕ) → port_out n put.new ≡ port_out n put.old }
        ensures ring { ring_out put.new ≡ ring_out put.old }
        ensures puts { (n : ℕ) → puts n put.new ≡ puts n put.old }
        ensures fifo { (n : ℕ)
            → (rest : List Step) × (steps_from_ring n self.new ++ rest ≡ puts n put.new)
            × (length rest ≡ result) }
    {
        match self {
            Incoming::Host(popped) => match put {
                Outgoing::Host(pushed) => popped.slots_beside(pushed),
                Outgoing::Node(_) => unreachable!(),
            },
            Incoming::Node(popped) => match put {
                Outgoing::Node(pushed) => popped.slots_beside(pushed),
                Outgoing::Host(_) => unreachable!(),
            },
        }
    }
}

impl Lane {
    ghost use Rattle.std.specs.Prelude.{◌≡◌};
    ghost use Rattle.lin_threads.specs.Ports.{receipt_wiring};
    ghost use Rattle.lin_threads.specs.Settled.{KeptLane, LaneSettles};
    ghost use Rattle.lin_threads.specs.Lanes.{lane_wiring};

    /// Compares what the port put with what came out of its ring.
    pub(crate) fn settle(&mut self, receipt: Receipt) -> Settled
        requires { receipt_wiring receipt ≡ lane_wiring self.old }
        ensures kept { KeptLane self.old self.new }
        ensures settles { LaneSettles self.old self.new receipt result }
    {
        let Receipt {
            number,
            mut steps,
            mut notes,
        } = receipt;
        notes.slots_beside(&mut self.notes);
        let left = self.steps.left_beside(&mut steps);
        let receipt = Receipt {
            number,
            steps,
            notes,
        };
        let is_whole = left == 0;
        if is_whole {
            self.settled = true;
            Settled::Whole(receipt)
        } else {
            Settled::Left(receipt)
        }
    }
}
