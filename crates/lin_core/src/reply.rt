//! What a step is answered.

use crate::payload::Events;

/// Why a step is refused. A step for which several reasons hold is refused for the first of them,
/// in this order. A refused step is logged and changes nothing else.
#[derive(Clone, Copy, Debug, PartialEq, Eq)]
pub enum Refusal {
    /// 1: a number in the step is no node's; 126 as the receiver of a message is all responders.
    NoSuchNode,
    /// 2: the signal's number is no signal's.
    NoSuchSignal,
    /// 3: the table's number is no table's.
    NoSuchTable,
    /// 4: the node doesn't publish the signal.
    NotPublisher,
    /// 5: the value isn't of the signal's kind or size: an array for a scalar signal or the other
    /// way round, a scalar with more bits, an array of another length.
    BadValue,
    /// 6: not exactly one of sender and receiver is host 0, or the other one has no address; of a
    /// message to all responders, the sender isn't host 0, or no responder has an address.
    NoAddress,
    /// 7: the message has no bytes, or more than 4,095; to all responders, more than 6.
    BadLength,
    /// 8: the host is closed.
    Closed,
    /// 9: as many messages of the host wait as the core's capacity.
    QueueFull,
    /// 10: the cluster is asleep.
    Asleep,
    /// 11: the cluster isn't asleep.
    Awake,
    /// 12: a slot is open.
    SlotOpen,
    /// 13: no slot is open.
    NoSlot,
    /// 14: the port may not give this step, or the node isn't due in the open slot.
    NotYours,
    /// 15: the node has answered in this slot already, or left its response out; or the response
    /// was disturbed already.
    Decided,
    /// 16: the slot has no response, or more than one.
    NothingOnWire,
    /// 17: the bytes pass the check of the slot's response.
    PassesCheck,
    /// 18: no message is begun there.
    NoTransfer,
}

/// What a step is answered: it was done with these events, or refused.
#[derive(Debug, PartialEq, Drop)]
pub enum Reply {
    Done(Events),
    Refused(Refusal),
}
