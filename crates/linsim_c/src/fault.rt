//! What a call of C's is answered: a status, and a report of what the status is about.

ghost use Rattle.std.specs.Prelude.{◌≡◌};
ghost use Rattle.linsim_c.specs.Statuses.{fault_number, fault_place, report_of, status_of};
ghost use Rattle.linsim_c.specs.declared.fault.Fault.TheVariants.{OutOfMemory as NoMemory};

use crate::written_text::Told;
use lin_cluster::Finding;
use lin_ldf::LdfFault;
use lin_parts::Location;
use std::alloc::AllocError;

/// Why a call didn't do what it is for.
#[derive(Drop)]
pub(crate) enum Fault {
    /// A bit of the flags has no meaning.
    UnknownFlags,
    /// The capacity isn't 1 to 1,024.
    BadCapacity,
    /// The LDF text has more than 4,194,304 bytes.
    LdfTooLong,
    /// The first fault of the LDF text.
    Ldf(LdfFault),
    /// The first finding in what the LDF text describes.
    Finding(Finding),
    NoSuchTable,
    /// The script has more than 16,777,216 bytes.
    ScriptTooLong,
    /// The first line that has no form, or is too long, counted from 1.
    BadLine { line: u64 },
    /// There is less room than this text has bytes.
    NoRoom(Told),
    OutOfMemory,
    /// The log has 4,294,967,295 entries.
    LogFull,
    /// The step is made, and there was no memory for its text.
    Untold,
    /// The handle has a core already.
    IsOpen,
    /// The handle has no core.
    IsClosed,
    /// The size of the settings isn't 8 to 4,096, or a further byte isn't 0.
    BadSize,
    /// The format has no meaning.
    UnknownFormat,
}

impl From<AllocError> for Fault {
    ghost from_gives = { λ _ fault. fault ≡ NoMemory };

    fn from(_: AllocError) -> Fault {
        Fault::OutOfMemory
    }
}

/// What a status is about; what it isn't about is 0, and so is all of an LDF text that is too long.
#[derive(Drop)]
#[repr(C)]
pub struct Report {
    /// How many bytes the text has: those that were written, or those that there is no room for.
    pub length: usize,
    /// The line of an LDF text or of a script, from 1.
    pub line: u64,
    /// The column of an LDF text in bytes, from 1.
    pub column: u64,
    /// The number of the LDF text's fault, 1 to 7, or of its first finding; or that of the text.
    pub number: u32,
}

/// The number of a fault of an LDF text, 1 to 7; 0 for want of memory.
fn fault_number_of(fault: &LdfFault) -> u32
    ensures { result ≡ fault_number fault.now }
{
    match fault {
        LdfFault::BadByte(_) => 1,
        LdfFault::OpenComment(_) => 2,
        LdfFault::OpenText(_) => 3,
        LdfFault::Unexpected(_) => 4,
        LdfFault::NumberTooLarge(_) => 5,
        LdfFault::SectionTwice(_) => 6,
        LdfFault::NameTwice(_) => 7,
        LdfFault::OutOfMemory => 0,
    }
}

/// Where an LDF text is at fault; line and column 0 for want of memory.
fn place_of_fault(fault: &LdfFault) -> Location
    ensures { result ≡ fault_place fault.now }
{
    match fault {
        LdfFault::BadByte(at)
        | LdfFault::OpenComment(at)
        | LdfFault::OpenText(at)
        | LdfFault::Unexpected(at)
        | LdfFault::NumberTooLarge(at)
        | LdfFault::SectionTwice(at)
        | LdfFault::NameTwice(at) => *at,
        LdfFault::OutOfMemory => Location { line: 0, column: 0 },
    }
}

/// The status of a call that was answered so.
fn status(answer: &Result<Told, Fault>) -> u32
    ensures { result ≡ status_of answer.now }
{
    match answer {
        Ok(_) => 0,
        Err(Fault::UnknownFlags) => 1,
        Err(Fault::BadCapacity) => 2,
        Err(Fault::LdfTooLong | Fault::Ldf(_)) => 3,
        Err(Fault::Finding(_)) => 4,
        Err(Fault::NoSuchTable) => 5,
        Err(Fault::ScriptTooLong) => 6,
        Err(Fault::BadLine { line: _ }) => 7,
        Err(Fault::NoRoom(_)) => 8,
        Err(Fault::OutOfMemory) => 9,
        Err(Fault::LogFull) => 10,
        Err(Fault::Untold) => 11,
        Err(Fault::IsOpen) => 12,
        Err(Fault::IsClosed) => 13,
        Err(Fault::BadSize) => 14,
        Err(Fault::UnknownFormat) => 15,
    }
}

/// What the status is about.
fn reported(answer: &Result<Told, Fault>) -> Report
    ensures { result ≡ report_of answer.now }
{
    let mut report = Report {
        length: 0,
        line: 0,
        column: 0,
        number: 0,
    };
    match answer {
        Ok(text) | Err(Fault::NoRoom(text)) => {
            report.length = text.length;
            report.number = text.number;
        }
        Err(Fault::BadLine { line }) => report.line = *line,
        Err(Fault::Ldf(fault)) => {
            let at = place_of_fault(fault);
            report.line = at.line;
            report.column = at.column;
            report.number = fault_number_of(fault);
        }
        Err(Fault::Finding(finding)) => {
            report.line = finding.line;
            report.column = finding.column;
            report.number = u32::from(finding.number);
        }
        _ => {}
    }
    report
}

/// Reports how a call ended, and answers its status.
pub(crate) fn told(answer: Result<Told, Fault>, to: &mut Report) -> u32
    ensures status { result ≡ status_of answer }
    ensures report { to.new ≡ report_of answer }
{
    *to = reported(&answer);
    status(&answer)
}
