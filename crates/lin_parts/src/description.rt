//! What an LDF text describes.

ghost use Rattle.std.specs.Prelude.{◌≡◌, ◌≤◌, length};

use crate::place::Location;
use lin_text::{Many, OneOrMore, Text};

/// A name and the place of its first byte.
#[derive(Debug)]
pub struct Name {
    pub text: Text,
    pub line: u64,
    pub column: u64,
}

// (written out, so that a function that owns names has one call at each of its ends)
impl Drop for Name {
    fn drop(self) {
        let Name {
            text: _text,
            line: _,
            column: _,
        } = self;
    }
}

/// A number and the place of its first byte.
#[derive(Clone, Copy, Debug)]
pub struct Number {
    pub value: u32,
    pub line: u64,
    pub column: u64,
}

/// The initial value of a signal: a number, or for an array the place of its brace and the value of
/// each byte.
#[derive(Debug, Drop)]
pub enum Init {
    Scalar(Number),
    Array(Location, OneOrMore<Number>),
}

/// A signal (LIN 2.2A, section 9.2.3): its size is in bits.
#[derive(Debug, Drop)]
pub struct Signal {
    pub name: Name,
    pub size: Number,
    pub init: Init,
    pub publisher: Name,
    pub subscribers: Many<Name>,
}

/// A signal of a frame and its offset in bits.
#[derive(Debug, Drop)]
pub struct PlacedSignal {
    pub signal: Name,
    pub offset: Number,
}

/// An unconditional frame (LIN 2.2A, section 9.2.4.1): its size is in bytes.
#[derive(Debug, Drop)]
pub struct Frame {
    pub name: Name,
    pub id: Number,
    pub publisher: Name,
    pub size: Number,
    pub placed: Many<PlacedSignal>,
}

/// A sporadic frame (LIN 2.2A, section 9.2.4.2) and the frames that it can carry.
#[derive(Debug, Drop)]
pub struct Sporadic {
    pub name: Name,
    pub members: OneOrMore<Name>,
}

/// An event-triggered frame (LIN 2.2A, section 9.2.4.3), the schedule table that resolves its
/// collisions, and the frames that it can carry.
#[derive(Debug, Drop)]
pub struct EventFrame {
    pub name: Name,
    pub table: Name,
    pub id: Number,
    pub members: OneOrMore<Name>,
}

/// The attributes of a node (LIN 2.2A, section 9.2.2.2).
#[derive(Debug, Drop)]
pub struct Attributes {
    pub node: Name,
    /// `LIN_protocol`: a text without its quotes, or a number as it is spelled.
    pub protocol: Option<Text>,
    pub configured_nad: Option<Number>,
    /// `response_error`: a signal's name.
    pub response_error: Option<Name>,
}

/// An entry of a schedule table; its delay is in microseconds. With a group it is a configuration
/// entry.
#[derive(Debug, Drop)]
pub struct TableEntry {
    pub name: Name,
    pub has_group: bool,
    pub delay: Number,
}

/// A schedule table (LIN 2.2A, section 9.2.5).
#[derive(Debug, Drop)]
pub struct Table {
    pub name: Name,
    pub entries: Many<TableEntry>,
}

/// What an LDF text describes: each declaration in file order, with the places of its names and
/// numbers. The speed is in bits per second, the times are in microseconds; a section that is
/// absent is empty.
#[derive(Debug)]
pub struct Description {
    pub speed: Number,
    pub master: Name,
    pub time_base: Number,
    pub jitter: Number,
    pub slaves: OneOrMore<Name>,
    pub signals: Many<Signal>,
    pub frames: Many<Frame>,
    pub sporadic: Many<Sporadic>,
    pub events: Many<EventFrame>,
    pub attributes: Many<Attributes>,
    pub tables: Many<Table>,
}

// (written out, like a name's)
impl Drop for Description {
    fn drop(self) {
        let Description {
            speed: _,
            master: _master,
            time_base: _,
            jitter: _,
            slaves: _slaves,
            signals: _signals,
            frames: _frames,
            sporadic: _sporadic,
            events: _events,
            attributes: _attributes,
            tables: _tables,
        } = self;
    }
}

impl Description {
    /// The speed in bits per second.
    pub fn speed(&self) -> Number
        ensures { result ≡ self.now.speed }
    {
        self.speed
    }

    /// The commander's name.
    pub fn master(&self) -> &Name
        ensures { result.now ≡ self.now.master }
    {
        &self.master
    }

    /// The time base in microseconds.
    pub fn time_base(&self) -> Number
        ensures { result ≡ self.now.time_base }
    {
        self.time_base
    }

    /// The jitter in microseconds.
    pub fn jitter(&self) -> Number
        ensures { result ≡ self.now.jitter }
    {
        self.jitter
    }

    /// The responders' names, one at least.
    pub fn slaves(&self) -> &[Name]
        ensures value { result.now ≡ self.now.slaves }
        ensures some { 1 ≤ length result.now }
    {
        self.slaves.as_slice()
    }

    /// The signals, in the order of the LDF.
    pub fn signals(&self) -> &[Signal]
        ensures { result.now ≡ self.now.signals }
    {
        self.signals.as_slice()
    }

    /// The unconditional frames, in the order of the LDF.
    pub fn frames(&self) -> &[Frame]
        ensures { result.now ≡ self.now.frames }
    {
        self.frames.as_slice()
    }

    /// The sporadic frames.
    pub fn sporadic(&self) -> &[Sporadic]
        ensures { result.now ≡ self.now.sporadic }
    {
        self.sporadic.as_slice()
    }

    /// The event-triggered frames.
    pub fn events(&self) -> &[EventFrame]
        ensures { result.now ≡ self.now.events }
    {
        self.events.as_slice()
    }

    /// The blocks of node attributes.
    pub fn attributes(&self) -> &[Attributes]
        ensures { result.now ≡ self.now.attributes }
    {
        self.attributes.as_slice()
    }

    /// The schedule tables.
    pub fn tables(&self) -> &[Table]
        ensures { result.now ≡ self.now.tables }
    {
        self.tables.as_slice()
    }
}
