//! The ports of nodes.

ghost use Rattle.std.specs.Prelude.{◌≡◌, ◌≤◌, ◌++◌, ◌∷◌, [], length, OnOk, OnErr, IfErr, IfSome};
ghost use Rattle.std.specs.Prelude.{IfNone};

use crate::ports::steps::{NodeStep, Note};
use crate::ports::{Full, Outgoing, Receipt};
use lin_core::PortId;
use rtrb::{Consumer, Producer, PushError};

/// A node's port. Contracts see the same of it as of a host's.
#[derive(Drop)]
pub struct NodePort {
    pub(crate) number: u8,
    pub(crate) steps: Producer<NodeStep>,
    pub(crate) notes: Consumer<Note>,
}

impl NodePort {
    ghost use Rattle.std.specs.Prelude.{◌≡◌, ◌≤◌, ◌++◌, ◌∷◌, [], length, OnOk, OnErr, IfErr};
    ghost use Rattle.std.specs.Prelude.{IfSome, IfNone};
    ghost use Rattle.lin_threads.specs.Ports.{node_wiring, node_put, node_took, node_seen, node_ring};
    ghost use Rattle.lin_threads.specs.Ports.{by_node_port, IsReceiptOf};

    /// Puts a step, or hands it back where the ring is full: then at least as many steps were put
    /// as it takes.
    pub fn put(&mut self, step: NodeStep) -> Result<(), Full<NodeStep>>
        ensures port { node_wiring self.new ≡ node_wiring self.old }
        ensures ok { OnOk result
            (node_put self.new ≡ node_put self.old ++ by_node_port self.old step ∷ []) }
        ensures back { IfErr result (λ e. (e.0 ≡ step) × (node_put self.new ≡ node_put self.old)) }
        ensures full { OnErr result (node_ring self.old ≤ length (node_put self.old)) }
        ensures took { node_took self.new ≡ node_took self.old }
    {
        match self.steps.push(step) {
            Ok(()) => Ok(()),
            Err(PushError::Full(back)) => Err(Full(back)),
        }
    }

    /// Takes the next note, if one has come: none only where none was seen that isn't taken.
    pub fn take(&mut self) -> Option<Note>
        ensures port { node_wiring self.new ≡ node_wiring self.old }
        ensures some { IfSome result (λ n. node_took self.new ≡ node_took self.old ++ n ∷ []) }
        ensures none { IfNone result (node_took self.new ≡ node_took self.old) }
        ensures empty { IfNone result (node_seen self.new ≡ []) }
        ensures put { node_put self.new ≡ node_put self.old }
    {
        self.notes.pop().ok()
    }

    /// Ends the port. What it put and isn't yet logged is made all the same.
    pub fn end(self) -> Receipt
        ensures { IsReceiptOf (node_wiring self) (node_put self) (node_took self) result }
    {
        let NodePort {
            number,
            steps,
            notes,
        } = self;
        Receipt {
            number,
            steps: Outgoing::Node(steps),
            notes,
        }
    }

    /// Whose port it is.
    pub fn id(&self) -> PortId
        ensures { result ≡ (node_wiring self.now).port }
    {
        PortId::Node(self.number)
    }
}
