//! The pump's side of a port.

ghost use Rattle.std.specs.Prelude.{◌≡◌, ◌<◌, ◌≤◌, ◌+◌, ◌-◌, ◌^◌, true, length, IfErr};

use crate::ports::incoming::Incoming;
use crate::ports::pump::RoundFault;
use crate::ports::steps::Note;
use lin_core::{Core, Hold, PortId};
use rtrb::Producer;

/// The pump's side of a port: its ends of the two rings, and how far the port was told of the log:
/// all events of the entries before `seen`, and the first `part` events of the entry there.
#[derive(Drop)]
pub(crate) struct Lane {
    pub(crate) number: u8,
    pub(crate) steps: Incoming,
    pub(crate) notes: Producer<Note>,
    pub(crate) seen: usize,
    pub(crate) part: usize,
    pub(crate) given: u64,
    pub(crate) settled: bool,
}

impl Lane {
    ghost use Rattle.std.specs.Prelude.{◌≡◌, ◌-◌, ◌^◌, ℕ, true, length, IfErr};
    ghost use Rattle.rtrb.specs.Ring.{sent};
    ghost use Rattle.lin_core.specs.Core.{IsAlike};
    ghost use Rattle.lin_threads.specs.Lanes.{Served, Serves, SameLane, IsFullLog, port_of};

    /// The port.
    pub(crate) fn port(&self) -> PortId
        ensures { result ≡ port_of self.now }
    {
        match &self.steps {
            Incoming::Host(_) => PortId::Host(self.number),
            Incoming::Node(_) => PortId::Node(self.number),
        }
    }

    /// Takes at most one step of the port, and makes it on the core.
    pub(crate) fn serve(&mut self, core: &mut Core) -> Result<bool, RoundFault>
        ensures serves { (base : ℕ) → Serves base core.old.log self.old
            → Serves base core.new.log self.new }
        ensures same { SameLane self.old self.new }
        ensures adds { Served (port_of self.old) core.old core.new result }
        ensures alike { IsAlike core.old core.new }
        ensures full { IfErr result (λ fault. IsFullLog fault → length core.old.log ≡ 2 ^ 32 - 1) }
        ensures settled { self.old.settled ≡ true → core.new.log ≡ core.old.log }
        ensures notes { sent self.new.notes ≡ sent self.old.notes }
    {
        if self.settled {
            return Ok(false);
        }
        if core.log().len() >= 0xffff_ffff {
            return Err(RoundFault::LogFull);
        }
        if core.make_room().is_err() {
            return Err(RoundFault::OutOfMemory);
        }
        let port = self.port();
        let Some(step) = self.steps.pop(self.number) else {
            return Ok(false);
        };
        match core.step(port, step) {
            Ok(()) => Ok(true),
            Err(Hold::LogFull(_)) => unreachable!(),
            Err(Hold::OutOfMemory(_)) => unreachable!(),
        }
    }
}
