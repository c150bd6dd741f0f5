//! The pump's end of a port's ring of steps.

ghost use Rattle.std.specs.Prelude.{◌≡◌, ◌++◌, ◌∷◌, [], true, IfSome, IfNone};

use crate::ports::steps::{HostStep, NodeStep, by_host, by_node};
use lin_core::Step;
use rtrb::Consumer;

/// The pump's end of a port's ring of steps.
#[derive(Drop)]
pub(crate) enum Incoming {
    Host(Consumer<HostStep>),
    Node(Consumer<NodeStep>),
}

impl Incoming {
    ghost use Rattle.std.specs.Prelude.{◌≡◌, ◌++◌, ◌∷◌, [], true, IfSome, IfNone};
    ghost use Rattle.lin_core.specs.Core.{IsSmall};
    ghost use Rattle.lin_core.specs.Replies.{may};
    ghost use Rattle.lin_threads.specs.Lanes.{SameIncoming, steps_from_ring, port_in};

    /// The next step of the port with this number.
    pub(crate) fn pop(&mut self, number: u8) -> Option<Step>
        ensures same { SameIncoming self.old self.new }
        ensures some { IfSome result
            (λ s. steps_from_ring number self.new ≡ steps_from_ring number self.old ++ s ∷ []) }
        ensures none { IfNone result (steps_from_ring number self.new ≡ steps_from_ring number self.old) }
        ensures own { IfSome result (λ s. may (port_in number self.old) s ≡ true) }
        ensures small { IfSome result (λ s. IsSmall s) }
    {
        match self {
            Incoming::Host(ring) => match ring.pop() {
                Ok(step) => Some(by_host(number, step)),
                Err(_) => None,
            },
            Incoming::Node(ring) => match ring.pop() {
                Ok(step) => Some(by_node(number, step)),
                Err(_) => None,
            },
        }
    }
}
