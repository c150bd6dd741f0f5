//! What a step that is done tells.

use crate::link::Cause;
use crate::payload::Payload;
use lin_frame::Answer;

/// How the nodes see a slot when it ends (ISO 17987-3, frame slots).
#[derive(Clone, Copy, Debug, PartialEq, Eq)]
pub enum Seen {
    /// The slot had no header.
    Silent,
    /// It had a header, and nobody answered.
    NoAnswer,
    /// One response, which passes its check: data bytes and checksum.
    Good(Answer),
    /// One response, which fails its check.
    Damaged,
    /// More than one response.
    Collided,
}

/// How a slot is seen, whatever bytes it carries (ISO 17987-3, frame slots).
#[derive(Clone, Copy, Debug, PartialEq, Eq)]
pub enum Look {
    Silent,
    NoAnswer,
    Good,
    Damaged,
    Collided,
}

impl Seen {
    ghost use Rattle.std.specs.Prelude.{◌≡◌};
    ghost use Rattle.lin_core.specs.Tables.{look_of};

    /// How the slot is seen.
    pub fn look(&self) -> Look
        ensures { result ≡ look_of self.now }
    {
        match self {
            Seen::Silent => Look::Silent,
            Seen::NoAnswer => Look::NoAnswer,
            Seen::Good(_) => Look::Good,
            Seen::Damaged => Look::Damaged,
            Seen::Collided => Look::Collided,
        }
    }
}

/// What a step that is done tells.
#[derive(Debug, PartialEq, Drop)]
pub enum Event {
    /// The message of a host was accepted under this number; a host's messages are numbered from 1.
    Accepted {
        host: u8,
        number: u32,
    },
    /// A slot was opened for an entry of a schedule table; the header is a protected identifier, or
    /// there is none.
    Slot {
        table: u16,
        entry: u16,
        header: Option<u8>,
    },
    /// The slot that was opened is for a service of node configuration (LIN 2.2A, section 4.2): it carries
    /// no frame of a message.
    Service,
    /// A node is due to answer in the open slot.
    Due {
        node: u8,
    },
    /// A node put these data bytes and checksum.
    Put {
        node: u8,
        answer: Answer,
    },
    /// How the slot was seen.
    Seen(Seen),
    /// The host of `to` received a message from host `from`. Of a message to all responders each
    /// that has an address is told, by rising node (ISO 17987-2, functional node address).
    Message {
        from: u8,
        to: u8,
        bytes: Payload,
    },
    /// A host's message was sent whole.
    Sent {
        host: u8,
        number: u32,
    },
    /// A host's message was cut short.
    Lost {
        host: u8,
        number: u32,
        cause: Cause,
    },
    /// The cluster was put to sleep.
    Asleep,
}
