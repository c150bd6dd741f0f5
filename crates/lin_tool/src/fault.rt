//! Why the program ends early.

ghost use Rattle.std.specs.Prelude.{◌≡◌};
ghost use Rattle.lin_tool.specs.Formats.{export_fault};
ghost use Rattle.lin_tool.specs.Living.{live_fault};
ghost use Rattle.lin_tool.specs.Playing.{play_fault};
ghost use Rattle.lin_tool.specs.Replaying.{fault_of_replay, fault_of_script};
ghost use Rattle.lin_tool.specs.Running.{run_fault, split_fault};
ghost use Rattle.lin_tool.specs.Statuses.{end_status, exit_status};
ghost use Rattle.lin_tool.specs.declared.fault.Fault.TheVariants.{OutOfMemory, WriteFailed as NotWritten};

use crate::finding_lines::{Findings, Remarks};
use lin_bench::{LinePlace, PlayFault};
use lin_export::ExportFault;
use lin_ldf::LdfFault;
use lin_log::{ReplayFault, ScriptFault};
use lin_text::{Text, WriteFailed};
use lin_threads::{RunFault, SplitFault};
use std::alloc::{AllocError, AllocFailed};

/// Why the program ends early.
#[derive(Debug, Drop)]
pub enum Fault {
    /// The script's first line that is in no form, counted from 1.
    BadLine {
        line: u64,
    },
    /// The LDF text has a fault.
    Ldf(LdfFault),
    /// The LDF text describes no cluster: a line for each reason.
    Findings(Findings),
    /// The LDF text of the field describes no cluster: a line for each reason and each warning.
    Remarks(Remarks),
    /// The LDF text is longer than 4,194,304 bytes.
    LdfTooLong,
    /// The script is longer than 16,777,216 bytes.
    ScriptTooLong,
    /// The script's first step, counted from 0, that is none of a host of the cluster by its own
    /// port.
    NotHostStep {
        index: usize,
    },
    /// The cluster has no schedule table of the name that the command line gives.
    NoSuchTable,
    OutOfMemory,
    /// Standard input or the LDF file couldn't be read.
    ReadFailed,
    /// Standard output didn't take what was written.
    WriteFailed,
    /// A host's task had all its turns before it was done. The log was written.
    TaskLimit,
    /// A thread couldn't be started.
    NoThread,
    /// The log has 4,294,967,295 entries, and takes no more.
    LogFull,
    /// A script isn't the text of its own history. Here is its first line, counted from 1, that
    /// differs from that text.
    LogDiffers {
        line: u64,
    },
    /// A bench script's first line that is bad. Why it is was told where the script was played, if that
    /// could be written.
    BadBenchLine {
        place: LinePlace,
        told: Result<(), WriteFailed>,
    },
    /// A file that a bench script includes can't be read, as was told where the script was played, if that
    /// could be written.
    UnreadFile {
        told: Result<(), WriteFailed>,
    },
    /// With a file that it includes, a bench script is longer than 16,777,216 bytes, as was told where it was
    /// played, if that could be written.
    LongFile {
        told: Result<(), WriteFailed>,
    },
    /// Two LDFs differ, as the lines of their differences say.
    Differs,
    /// Lines that were answered were bad, or made more than 1,000,000 slots, as their answers say.
    BadLines,
    /// No line of a bench script uses the parameter of this name, which was given with it.
    UnusedParameter(Text),
    /// By this line a bench script makes more than 1,000,000 slots. If the line is in a file that the script
    /// includes, the fault has the name of that file.
    SlotLimit {
        place: LinePlace,
        file: Option<Text>,
    },
    /// A bench script or the lines of a session failed: an expectation did, or each fault under which
    /// the script was played changed no slot. The reasons were reported where it was played, if they
    /// could be written.
    Unmet {
        told: Result<(), WriteFailed>,
    },
    /// A fault under which a script is to be played isn't valid. Why it isn't was reported where it was
    /// read, if that could be written.
    BadFaults {
        told: Result<(), WriteFailed>,
    },
    /// What the rows of a campaign came to is denied. They were written.
    Denied,
    /// Several scripts, or a script and its report, came to faults, which were told. The smallest of their exit
    /// statuses is this one.
    Several {
        status: u8,
    },
}

impl Fault {
    /// The exit status: 1 for a fault of the input, 3 where memory ran out, 4 for a failed read or
    /// write, 5 where a run met a limit, 6 where a log isn't the text of its own history, two LDFs
    /// differ, an expectation failed, each fault of a bench script changed no slot or a campaign has a
    /// denied result. (0 is for a run without a fault, and 2 for a wrong command line.)
    pub fn status(&self) -> u8
        ensures { result ≡ exit_status self.now }
    {
        match self {
            Fault::Ldf(_)
            | Fault::Findings(_)
            | Fault::Remarks(_)
            | Fault::LdfTooLong
            | Fault::BadLine { .. }
            | Fault::ScriptTooLong
            | Fault::NotHostStep { .. }
            | Fault::NoSuchTable
            | Fault::BadBenchLine { .. }
            | Fault::LongFile { .. }
            | Fault::UnusedParameter(_)
            | Fault::BadLines
            | Fault::BadFaults { .. }
            | Fault::SlotLimit { .. } => 1,
            Fault::OutOfMemory => 3,
            Fault::ReadFailed | Fault::UnreadFile { .. } | Fault::WriteFailed => 4,
            Fault::TaskLimit | Fault::NoThread | Fault::LogFull => 5,
            Fault::LogDiffers { .. } | Fault::Differs | Fault::Unmet { .. } | Fault::Denied => 6,
            Fault::Several { status } => *status,
        }
    }

    /// Whether a fault is why a script isn't played.
    pub(crate) fn is_unplayed(&self) -> bool {
        matches!(
            self,
            Fault::Ldf(_)
                | Fault::Findings(_)
                | Fault::Remarks(_)
                | Fault::LdfTooLong
                | Fault::NoSuchTable
                | Fault::BadFaults { .. }
                | Fault::BadBenchLine { .. }
                | Fault::UnreadFile { .. }
                | Fault::LongFile { .. }
                | Fault::UnusedParameter(_)
                | Fault::SlotLimit { .. }
                | Fault::ScriptTooLong
                | Fault::ReadFailed
        )
    }
}

/// The exit status of the program: 0 where it did all that was asked for, or that of its fault.
pub fn exit_status(done: &Result<(), Fault>) -> u8
    ensures { result ≡ end_status done.now }
{
    match done {
        Ok(()) => 0,
        Err(fault) => fault.status(),
    }
}

impl From<ScriptFault> for Fault {
    ghost from_gives = { λ x y. y ≡ fault_of_script x };

    fn from(fault: ScriptFault) -> Fault {
        match fault {
            ScriptFault::BadLine { line } => Fault::BadLine { line },
            ScriptFault::TooLong => Fault::ScriptTooLong,
            ScriptFault::ReadFailed => Fault::ReadFailed,
            ScriptFault::OutOfMemory => Fault::OutOfMemory,
        }
    }
}

impl From<ReplayFault> for Fault {
    ghost from_gives = { λ x y. y ≡ fault_of_replay x };

    fn from(fault: ReplayFault) -> Fault {
        match fault {
            ReplayFault::Script(fault) => Fault::from(fault),
            ReplayFault::OutOfMemory => Fault::OutOfMemory,
            ReplayFault::WriteFailed => Fault::WriteFailed,
        }
    }
}

impl From<SplitFault> for Fault {
    ghost from_gives = { λ x y. y ≡ split_fault x };

    fn from(fault: SplitFault) -> Fault {
        match fault {
            SplitFault::NotHost { index } => Fault::NotHostStep { index },
            SplitFault::OutOfMemory => Fault::OutOfMemory,
        }
    }
}

impl From<RunFault> for Fault {
    ghost from_gives = { λ x y. y ≡ run_fault x };

    fn from(fault: RunFault) -> Fault {
        match fault {
            RunFault::LogFull => Fault::LogFull,
            RunFault::OutOfMemory => Fault::OutOfMemory,
            RunFault::NoThread => Fault::NoThread,
        }
    }
}

impl From<PlayFault> for Fault {
    ghost from_gives = { λ x y. y ≡ play_fault x };

    fn from(fault: PlayFault) -> Fault {
        match fault {
            PlayFault::SlotLimit { place } => Fault::SlotLimit { place, file: None },
            PlayFault::LogFull => Fault::LogFull,
            PlayFault::OutOfMemory => Fault::OutOfMemory,
        }
    }
}

impl From<ExportFault> for Fault {
    ghost from_gives = { λ x y. y ≡ export_fault x };

    fn from(fault: ExportFault) -> Fault {
        match fault {
            ExportFault::OutOfMemory => Fault::OutOfMemory,
            ExportFault::WriteFailed => Fault::WriteFailed,
        }
    }
}

impl From<WriteFailed> for Fault {
    ghost from_gives = { λ x y. y ≡ NotWritten };

    fn from(_error: WriteFailed) -> Fault {
        Fault::WriteFailed
    }
}

impl From<AllocError> for Fault {
    ghost from_gives = { λ x y. y ≡ OutOfMemory };

    fn from(_error: AllocError) -> Fault {
        Fault::OutOfMemory
    }
}

impl<T: Drop> From<AllocFailed<T>> for Fault {
    ghost from_gives = { λ x y. y ≡ OutOfMemory };

    fn from(_error: AllocFailed<T>) -> Fault {
        Fault::OutOfMemory
    }
}

impl From<lin_live::Fault> for Fault {
    ghost from_gives = { λ x y. y ≡ live_fault x };

    fn from(fault: lin_live::Fault) -> Fault {
        match fault {
            lin_live::Fault::ReadFailed => Fault::ReadFailed,
            lin_live::Fault::WriteFailed => Fault::WriteFailed,
            lin_live::Fault::OutOfMemory => Fault::OutOfMemory,
            lin_live::Fault::LogFull => Fault::LogFull,
        }
    }
}
