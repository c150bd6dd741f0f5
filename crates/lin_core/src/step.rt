//! Steps.

use crate::link::Direction;
use crate::payload::Payload;
use lin_frame::Value;

/// A step of the cluster.
#[derive(Debug, PartialEq, Drop)]
pub enum Step {
    /// Host `from` sends `message`, of 1 to 4,095 bytes, to host `to`: one of both is host 0, and
    /// the other one has an address. With `to` 126 host 0 sends it to each responder that has an
    /// address at once; such a message has 1 to 6 bytes, those of a single frame (ISO 17987-2,
    /// functional node address).
    Send { from: u8, to: u8, message: Payload },
    /// Node `by`, which publishes a signal, gives it a value (ISO 17987-3, signals).
    Write { by: u8, signal: u16, value: Value },
    /// The next slot of the schedule begins with its header.
    Open,
    /// A node that is due in the open slot puts its response.
    Answer { node: u8 },
    /// A node that is due in the open slot leaves its response out.
    Leave { node: u8 },
    /// The one response in the open slot is disturbed: the nodes see these bytes in its place.
    Hurt { bytes: Payload },
    /// The open slot ends.
    Finish,
    /// The message that is begun between host 0 and a responder, in a direction, takes too long
    /// (ISO 17987-2, timing).
    Timeout { node: u8, dir: Direction },
    /// The schedule goes on with the first entry of a table (ISO 17987-3, schedule tables).
    Switch { table: u16 },
    /// The commander is asked to put the cluster to sleep (ISO 17987-2, go-to-sleep).
    AskSleep,
    /// The cluster wakes: the schedule's table starts again (ISO 17987-2, wake-up).
    Wake,
    /// A host sends no more messages; those that wait still go.
    Close { host: u8 },
}

/// A message that a step sends, with its sender and its receiver.
#[derive(Clone, Copy)]
pub(crate) struct SendStep<'a> {
    pub(crate) from: u8,
    pub(crate) to: u8,
    pub(crate) message: &'a Payload,
}

/// A value that a step writes, with the node that writes it and its signal.
#[derive(Clone, Copy)]
pub(crate) struct WriteStep<'a> {
    pub(crate) node: u8,
    pub(crate) signal: u16,
    pub(crate) value: &'a Value,
}
