//! Why a line is bad.

ghost use Rattle.std.specs.Prelude.{◌≡◌};
ghost use Rattle.lin_live.specs.Asked.{script_fault};
ghost use Rattle.lin_live.specs.declared.reason.LineFault.TheVariants.{OutOfMemory};

use lin_text::{Many, Text};
use std::alloc::AllocError;

/// Why a line isn't one to answer. The fields are as they stand in the line.
#[derive(Debug, Drop)]
pub enum Reason {
    /// It is bad as a line of a bench script.
    Script(lin_bench::Reason),
    /// `?` takes what is asked.
    AskForm,
    /// `?` has no form of these fields.
    UnknownQuestion(Many<Text>),
    /// `mark` takes a name.
    MarkForm,
    /// `back` takes a name.
    BackForm,
    /// A field that isn't letters, digits and `_`, or begins with a digit.
    NoName(Text),
    /// A mark can't have the name of the mark of the beginning.
    StartMark,
    /// No mark has this name.
    NoMark(Text),
    /// It has more than 16,777,216 bytes.
    TooLong,
}

/// A line is bad, or there was no memory for what it says.
#[derive(Debug, Drop)]
pub enum LineFault {
    Bad(Reason),
    OutOfMemory,
}

impl From<lin_bench::LineFault> for LineFault {
    ghost from_gives = { λ fault e. e ≡ script_fault fault };

    fn from(fault: lin_bench::LineFault) -> LineFault {
        match fault {
            lin_bench::LineFault::Bad(reason) => LineFault::Bad(Reason::Script(reason)),
            lin_bench::LineFault::OutOfMemory => LineFault::OutOfMemory,
        }
    }
}

impl From<AllocError> for LineFault {
    ghost from_gives = { λ _ e. e ≡ OutOfMemory };

    fn from(_: AllocError) -> LineFault {
        LineFault::OutOfMemory
    }
}
