//! Ports of hosts and nodes, each with a ring of steps and a ring of notes, and the pump that makes
//! their steps on a core. What both kinds of port have in common stands here.

mod host_port;
mod incoming;
mod lane;
mod law;
mod node_port;
mod notifying;
mod pump;
mod settling;
mod steps;
mod wiring;

ghost use Rattle.std.specs.Prelude.{◌≡◌};

pub use host_port::HostPort;
pub use law::{taken_messages, tells_messages};
use lin_core::PortId;
pub use node_port::NodePort;
pub use pump::{Pump, RoundFault, Taken};
use rtrb::{Consumer, Producer};
pub use settling::Settled;
pub use steps::{HostStep, NodeStep, Note};
pub use wiring::wire;

/// A step that found no room in its ring.
#[derive(Drop)]
pub struct Full<S>(pub S);

/// The port's end of its ring of steps.
#[derive(Drop)]
pub(crate) enum Outgoing {
    Host(Producer<HostStep>),
    Node(Producer<NodeStep>),
}

/// What is left of a port that has ended: its ends of both rings, for `Pump::settle`.
#[derive(Drop)]
pub struct Receipt {
    pub(crate) number: u8,
    pub(crate) steps: Outgoing,
    pub(crate) notes: Consumer<Note>,
}

impl Receipt {
    ghost use Rattle.lin_threads.specs.Ports.{receipt_id};

    /// Whose port it was.
    pub fn id(&self) -> PortId
        ensures { result ≡ receipt_id self.now }
    {
        match &self.steps {
            Outgoing::Host(_) => PortId::Host(self.number),
            Outgoing::Node(_) => PortId::Node(self.number),
        }
    }
}
