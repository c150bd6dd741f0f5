//! Why a line is bad.

ghost use Rattle.std.specs.Prelude.{◌≡◌};
ghost use Rattle.lin_log.specs.declared.reason.LineFault.TheVariants.{OutOfMemory};

use lin_text::{Many, Text};
use std::alloc::AllocError;

/// Why a line of a step is bad. The fields are as they stand in the line.
#[derive(Debug, Drop)]
pub enum Reason {
    /// The line begins with no port.
    NoPort,
    /// A port stands alone.
    NoStep,
    /// No step begins with this word.
    UnknownStep(Text),
    /// No node has this name.
    NoNode(Text),
    /// No signal has this name.
    NoSignal(Text),
    /// No schedule table has this name.
    NoTable(Text),
    /// A field that is no number up to the most that may stand there.
    NoNumber { field: Text, most: u32 },
    /// No field is left where bytes are wanted.
    NoBytes,
    /// Fields that aren't all of an even number of hexadecimal digits.
    NotBytes(Many<Text>),
    /// The bytes of an array that are more than 8.
    TooManyBytes(Text),
    /// After this word stand so many fields, and here there are more or less.
    Takes { word: Text, fields: u8 },
    /// `send` takes two nodes and bytes.
    SendForm,
    /// `write` takes a signal and a value.
    WriteForm,
    /// `timeout` takes `down` or `up`.
    TimeoutForm,
}

/// A line is bad, or there was no memory for what it says.
#[derive(Debug, Drop)]
pub enum LineFault {
    Bad(Reason),
    OutOfMemory,
}

impl From<AllocError> for LineFault {
    ghost from_gives = { λ _ e. e ≡ OutOfMemory };

    fn from(_: AllocError) -> LineFault {
        LineFault::OutOfMemory
    }
}
