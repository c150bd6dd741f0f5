//! What a host does.

use crate::ports::HostPort;

/// What a task answers at the end of a turn.
#[derive(Clone, Copy, Debug, PartialEq, Eq)]
pub enum Turn {
    /// It wants another turn.
    Again,
    /// It has done all that it will do.
    Done,
}

/// What a host does: a task that works on its port a turn at a time.
pub trait HostTask: Drop {
    ghost use Rattle.lin_threads.specs.Ports.{Continues};

    /// One turn of a host's task on its port; `over` once the run's slots are over. The port is
    /// still that port afterwards, and what it put and what it took begin with what it had put and
    /// taken before.
    fn turn(&mut self, port: &mut HostPort, over: bool) -> Turn
        ensures port { Continues port.old port.new };

    /// Whether it needs no turn until the run's slots are over.
    fn is_idle(&self) -> bool {
        false
    }
}
