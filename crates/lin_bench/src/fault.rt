//! Why a line or a script isn't read.

ghost use Rattle.std.specs.Prelude.{◌≡◌};
ghost use Rattle.lin_bench.specs.Read.{step_fault};
ghost use Rattle.lin_bench.specs.declared.fault.MakeFault.TheVariants.{OutOfMemory as NotMade};
ghost use Rattle.lin_bench.specs.declared.fault.PlayFault.TheVariants.{OutOfMemory as NoMemory};
ghost use Rattle.lin_bench.specs.declared.fault.ReadFault.TheVariants.{OutOfMemory as NotRead};
ghost use Rattle.lin_bench.specs.declared.fault.LineFault.TheVariants.{OutOfMemory};

use crate::place::LinePlace;
use crate::reason::Reason;
use std::alloc::AllocError;

/// A line is bad, or there was no memory for what it says.
#[derive(Debug, Drop)]
pub enum LineFault {
    Bad(Reason),
    OutOfMemory,
}

impl From<lin_log::LineFault> for LineFault {
    ghost from_gives = { λ fault e. e ≡ step_fault fault };

    fn from(fault: lin_log::LineFault) -> LineFault {
        match fault {
            lin_log::LineFault::Bad(reason) => LineFault::Bad(Reason::Step(reason)),
            lin_log::LineFault::OutOfMemory => LineFault::OutOfMemory,
        }
    }
}

impl From<AllocError> for LineFault {
    ghost from_gives = { λ _ e. e ≡ OutOfMemory };

    fn from(_: AllocError) -> LineFault {
        LineFault::OutOfMemory
    }
}

/// Why a bench script isn't read.
#[derive(Debug, Drop)]
pub enum ReadFault {
    /// The first line that is bad.
    BadLine { place: LinePlace, reason: Reason },
    OutOfMemory,
}

impl From<AllocError> for ReadFault {
    ghost from_gives = { λ _ fault. fault ≡ NotRead };

    fn from(_: AllocError) -> ReadFault {
        ReadFault::OutOfMemory
    }
}

/// Why a line isn't made.
#[derive(Debug, Drop)]
pub enum MakeFault {
    /// Its steps are more than the log has room for, which takes 4,294,967,295 entries.
    LogFull,
    OutOfMemory,
}

impl From<AllocError> for MakeFault {
    ghost from_gives = { λ _ fault. fault ≡ NotMade };

    fn from(_: AllocError) -> MakeFault {
        MakeFault::OutOfMemory
    }
}

/// Why a bench script isn't played.
#[derive(Debug, Drop)]
pub enum PlayFault {
    /// By this line, counted from 1, the lines of slots make more than 1,000,000 of them.
    SlotLimit { place: LinePlace },
    /// The steps of the lines are more than the log has room for, which takes 4,294,967,295 entries.
    LogFull,
    OutOfMemory,
}

impl From<AllocError> for PlayFault {
    ghost from_gives = { λ _ fault. fault ≡ NoMemory };

    fn from(_: AllocError) -> PlayFault {
        PlayFault::OutOfMemory
    }
}
