//! The ports of hosts.

ghost use Rattle.std.specs.Prelude.{◌≡◌, ◌≤◌, ◌++◌, ◌∷◌, [], length, OnOk, OnErr, IfErr, IfSome};
ghost use Rattle.std.specs.Prelude.{IfNone};

use crate::ports::steps::{HostStep, Note};
use crate::ports::{Full, Outgoing, Receipt};
use lin_core::PortId;
use rtrb::{Consumer, Producer, PushError};

/// A host's port. Contracts see which port it is, the steps that it put, with its number filled in,
/// and the notes that it took.
#[derive(Drop)]
pub struct HostPort {
    pub(crate) number: u8,
    pub(crate) steps: Producer<HostStep>,
    pub(crate) notes: Consumer<Note>,
}

impl HostPort {
    ghost use Rattle.std.specs.Prelude.{◌≡◌, ◌≤◌, ◌++◌, ◌∷◌, [], length, OnOk, OnErr, IfErr};
    ghost use Rattle.std.specs.Prelude.{IfSome, IfNone};
    ghost use Rattle.lin_threads.specs.Ports.{host_wiring, host_put, host_took, host_seen, host_ring};
    ghost use Rattle.lin_threads.specs.Ports.{by_port, IsReceiptOf};

    /// Puts a step, or hands it back where the ring is full: then at least as many steps were put
    /// as it takes.
    pub fn put(&mut self, step: HostStep) -> Result<(), Full<HostStep>>
        ensures port { host_wiring self.new ≡ host_wiring self.old }
        ensures ok { OnOk result
            (host_put self.new ≡ host_put self.old ++ by_port self.old step ∷ []) }
        ensures back { IfErr result (λ e. (e.0 ≡ step) × (host_put self.new ≡ host_put self.old)) }
        ensures full { OnErr result (host_ring self.old ≤ length (host_put self.old)) }
        ensures took { host_took self.new ≡ host_took self.old }
    {
        match self.steps.push(step) {
            Ok(()) => Ok(()),
            Err(PushError::Full(back)) => Err(Full(back)),
        }
    }

    /// Takes the next note, if one has come: none only where none was seen that isn't taken.
    pub fn take(&mut self) -> Option<Note>
        ensures port { host_wiring self.new ≡ host_wiring self.old }
        ensures some { IfSome result (λ n. host_took self.new ≡ host_took self.old ++ n ∷ []) }
        ensures none { IfNone result (host_took self.new ≡ host_took self.old) }
        ensures empty { IfNone result (host_seen self.new ≡ []) }
        ensures put { host_put self.new ≡ host_put self.old }
    {
        self.notes.pop().ok()
    }

    /// Ends the port. What it put and isn't yet logged is made all the same.
    pub fn end(self) -> Receipt
        ensures { IsReceiptOf (host_wiring self) (host_put self) (host_took self) result }
    {
        let HostPort {
            number,
            steps,
            notes,
        } = self;
        Receipt {
            number,
            steps: Outgoing::Host(steps),
            notes,
        }
    }

    /// Whose port it is.
    pub fn id(&self) -> PortId
        ensures { result ≡ (host_wiring self.now).port }
    {
        PortId::Host(self.number)
    }
}
