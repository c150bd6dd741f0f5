//! What a text of the field describes, before it is settled.

use lin_parts::Location;
use lin_parts::description::{Attributes, Name, Number, PlacedSignal, Sporadic};
use lin_text::{Many, OneOrMore, Text};

/// A number in thousandths of a unit, and whether its text has more decimals, so that it is rounded.
#[derive(Clone, Copy, Debug)]
pub struct RoundedDecimal {
    pub number: Number,
    pub is_rounded: bool,
}

/// The header: the speed is in bits per second. A line that is a word alone, and isn't known, is
/// kept by its word.
#[derive(Debug, Drop)]
pub struct Header {
    /// `LIN_protocol_version`: a text without its quotes, or a number as it is spelled.
    pub version: Text,
    /// `LIN_language_version`, likewise.
    pub language: Option<Text>,
    pub speed: RoundedDecimal,
    pub is_big_endian: bool,
    pub unknown: Many<Name>,
}

/// The nodes: the times are in microseconds.
#[derive(Debug, Drop)]
pub struct LooseNodes {
    pub master: Name,
    pub time_base: RoundedDecimal,
    pub jitter: RoundedDecimal,
    pub slaves: OneOrMore<Name>,
}

/// A number of up to 64 bits, and the place of its first byte.
#[derive(Clone, Copy, Debug)]
pub struct WideNumber {
    pub value: u64,
    pub place: Location,
}

/// The initial value of a signal: a number, or for an array the place of its brace and the value of
/// each byte.
#[derive(Debug, Drop)]
pub enum LooseInit {
    Scalar(WideNumber),
    Array(Location, OneOrMore<Number>),
}

/// A signal whose initial value may have up to 64 bits: its size is in bits.
#[derive(Debug, Drop)]
pub struct LooseSignal {
    pub name: Name,
    pub size: Number,
    pub init: LooseInit,
    pub publisher: Name,
    pub subscribers: Many<Name>,
}

/// A frame whose size in bytes may be left to its identifier (LIN 1.3).
#[derive(Debug, Drop)]
pub struct LooseFrame {
    pub name: Name,
    pub id: Number,
    pub publisher: Name,
    pub size: Option<Number>,
    pub placed: Many<PlacedSignal>,
}

/// An event-triggered frame that may have no table for its collisions (LIN 1.3, LIN 2.0).
#[derive(Debug, Drop)]
pub struct LooseEvent {
    pub name: Name,
    pub table: Option<Name>,
    pub id: Number,
    pub members: OneOrMore<Name>,
}

/// The attributes of a node, and its `initial_NAD`.
#[derive(Debug, Drop)]
pub struct LooseAttributes {
    pub block: Attributes,
    pub initial_nad: Option<Number>,
}

/// A line of `Diagnostic_addresses` (LIN 1.3).
#[derive(Debug, Drop)]
pub struct NodeAddress {
    pub node: Name,
    pub nad: Number,
}

/// An entry of a schedule table; its delay is in microseconds.
#[derive(Debug, Drop)]
pub struct LooseEntry {
    pub name: Name,
    pub has_group: bool,
    pub delay: RoundedDecimal,
}

/// A schedule table.
#[derive(Debug, Drop)]
pub struct LooseTable {
    pub name: Name,
    pub entries: Many<LooseEntry>,
}

/// What a text of the field describes: each declaration in file order, with the places of its names
/// and numbers. A section that is absent is empty.
#[derive(Debug, Drop)]
pub struct Loose {
    pub header: Header,
    pub nodes: LooseNodes,
    pub signals: Many<LooseSignal>,
    pub frames: Many<LooseFrame>,
    pub sporadic: Many<Sporadic>,
    pub events: Many<LooseEvent>,
    pub attributes: Many<LooseAttributes>,
    pub addresses: Many<NodeAddress>,
    pub tables: Many<LooseTable>,
}
