//! What a cluster is made of. Nodes, signals, frames of each kind and tables are numbered, each
//! kind from 0.

ghost use Rattle.std.specs.Prelude.{◌≡◌};
ghost use Rattle.lin_parts.specs.Cluster.{entry_kind};
ghost use Rattle.lin_parts.specs.Rules.{is_array, place_at};

use lin_frame::{Layout, Place, SumKind, Value};
use lin_text::{Many, Text};

/// A node: the commander (number 0) or a responder. `nad` is its diagnostic address (ISO 17987-2),
/// where it has one.
#[derive(Drop)]
pub struct Node {
    pub name: Text,
    pub nad: Option<u8>,
}

/// A signal of `size` bits, which the node `publisher` sends and the nodes `subscribers` receive (ISO
/// 17987-3, signals).
#[derive(Drop)]
pub struct Signal {
    pub name: Text,
    pub publisher: u8,
    pub subscribers: Many<u8>,
    pub size: u8,
    pub initial: Value,
}

impl Signal {
    /// Whether the signal is an array of bytes, as its initial value is (ISO 17987-3, signals).
    pub fn is_array(&self) -> bool
        ensures { result ≡ is_array self.now.initial }
    {
        match &self.initial {
            Value::Scalar(_) => false,
            Value::Bytes(_) => true,
        }
    }

    /// The signal's place in a frame in which it begins at this bit (ISO 17987-3, signals).
    pub fn place_at(&self, offset: u8) -> Place
        ensures { result ≡ place_at offset self.now }
    {
        Place {
            offset,
            size: self.size,
            array: self.is_array(),
        }
    }
}

/// An unconditional frame: its name, its protected identifier, its checksum model, the node that
/// sends it, and its signals in the order of the places of its layout (ISO 17987-3, unconditional
/// frames).
#[derive(Drop)]
pub struct SignalFrame {
    pub name: Text,
    pub pid: u8,
    pub model: SumKind,
    pub publisher: u8,
    pub layout: Layout,
    pub signals: Many<u16>,
}

/// A sporadic frame: its name and its frames, the first one first in rank (ISO 17987-3, sporadic
/// frames).
#[derive(Drop)]
pub struct SporadicFrame {
    pub name: Text,
    pub frames: Many<u16>,
}

/// An event-triggered frame: its name, its protected identifier, the checksum model of its answers,
/// the table that resolves a collision, and its frames (ISO 17987-3, event-triggered frames).
#[derive(Drop)]
pub struct EventFrame {
    pub name: Text,
    pub pid: u8,
    pub model: SumKind,
    pub table: u16,
    pub frames: Many<u16>,
}

/// What a slot of a schedule table is for (LIN 2.2A, section 9.2.5, schedule tables).
#[derive(Clone, Copy, Debug, PartialEq, Eq)]
pub enum Entry {
    /// An unconditional frame, by its number.
    Frame(u16),
    /// A sporadic frame, by its number.
    Sporadic(u16),
    /// An event-triggered frame, by its number.
    Event(u16),
    /// The master request frame.
    MasterReq,
    /// The slave response frame.
    SlaveResp,
    /// A configuration entry: a master request frame with these data bytes.
    Fixed([u8; 8]),
    /// A configuration entry that stays silent.
    Quiet,
}

impl Entry {
    /// What kind of frame it is for: `unconditional`, `sporadic`, `event`, `request`, `response`, or
    /// `configuration` (ISO 17987-3, frame slots).
    pub fn kind(self) -> &'static [u8]
        ensures { result.now ≡ entry_kind self }
    {
        match self {
            Entry::Frame(_) => b"unconditional",
            Entry::Sporadic(_) => b"sporadic",
            Entry::Event(_) => b"event",
            Entry::MasterReq => b"request",
            Entry::SlaveResp => b"response",
            Entry::Fixed(_) | Entry::Quiet => b"configuration",
        }
    }
}

/// An entry of a schedule table with its delay in microseconds.
#[derive(Clone, Copy, Debug, PartialEq, Eq)]
pub struct Line {
    pub entry: Entry,
    pub delay_us: u32,
}

/// A schedule table.
#[derive(Drop)]
pub struct Table {
    pub name: Text,
    pub lines: Many<Line>,
}

/// A scalar signal by which the responder that publishes it tells an error in a response, and the
/// unconditional frames that the responder publishes or of which it subscribes a signal, by rising
/// numbers (LIN 2.2A, section 9.2.2.2, response_error).
#[derive(Drop)]
pub struct ErrorSignal {
    pub node: u8,
    pub signal: u16,
    pub frames: Many<u16>,
}

/// A product identification: the numbers of the supplier (at most 0x7FFE), of its function (at most
/// 0xFFFE) and of its variant (LIN 2.2A, section 9.2.2.2, product_id).
#[derive(Clone, Copy, Debug, Drop, PartialEq, Eq)]
pub struct Product {
    pub supplier: u16,
    pub function: u16,
    pub variant: u8,
}

/// What node configuration needs to know of a responder that has an address: the NAD that it has
/// before it is configured, its product identification, and for each of its configurable frames the
/// message identifier, if the frame has one (LIN 2.2A, section 9.2.2.2, initial_NAD, product_id and
/// configurable_frames).
#[derive(Drop)]
pub struct Identity {
    pub node: u8,
    pub initial: u8,
    pub product: Option<Product>,
    pub messages: Many<Option<u16>>,
}

/// All that a cluster is made of, with its speed in bits per second, and its jitter and time base in
/// microseconds (LIN 2.2A, sections 9.2.1 and 9.2.2).
#[derive(Drop)]
pub struct Parts {
    pub nodes: Many<Node>,
    pub signals: Many<Signal>,
    pub frames: Many<SignalFrame>,
    pub sporadic: Many<SporadicFrame>,
    pub events: Many<EventFrame>,
    pub tables: Many<Table>,
    pub errors: Many<ErrorSignal>,
    pub identities: Many<Identity>,
    pub speed: u32,
    pub jitter_us: u32,
    pub base_us: u32,
}
