//! When a step is refused: the first reason that holds, in the order of their numbers.

ghost use Rattle.std.specs.Prelude.{◌≡◌, ℕ, List};
ghost use Rattle.lin_core.specs.Replies.{may};

pub(crate) mod cluster_steps;
pub(crate) mod messages;
pub(crate) mod slot_steps;

use crate::port::PortId;
use crate::step::Step;
use lin_frame::Value;

/// Whether a port may give a step of a host: send from it, write its node's signals, or close it.
fn may_act(by: PortId, host: u8) -> bool
    ensures send { (to : ℕ) (message : List ℕ) → result ≡ may by (Step.Send host to message) }
    ensures write { (signal : ℕ) (value : Value) → result ≡ may by (Step.Write host signal value) }
    ensures close { result ≡ may by (Step.Close host) }
{
    match by {
        PortId::Bus => true,
        PortId::Host(own) => host == own,
        PortId::Node(_) => false,
    }
}
