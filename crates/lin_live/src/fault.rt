//! Why lines aren't answered.

ghost use Rattle.std.specs.Prelude.{◌≡◌};
ghost use Rattle.lin_live.specs.Held.{fault_of};
ghost use Rattle.lin_live.specs.declared.fault.Fault.TheVariants.{OutOfMemory as NoMemory};
ghost use Rattle.lin_live.specs.declared.fault.Fault.TheVariants.{WriteFailed as NotWritten};

use std::alloc::AllocError;
use thiserror::Error;

/// Why a line isn't answered, or answers end before the lines do.
#[derive(Clone, Copy, Debug, Drop, Error)]
pub enum Fault {
    /// The reader reported an error, other than that it was interrupted, or was asked 2^64 - 1
    /// times.
    #[error("read failed")]
    ReadFailed,
    /// A write or a flush failed.
    #[error("{}", lin_text::WriteFailed)]
    WriteFailed,
    #[error("out of memory")]
    OutOfMemory,
    /// There is no place for what the line makes.
    #[error("log full")]
    LogFull,
}

impl From<AllocError> for Fault {
    ghost from_gives = { λ _ fault. fault ≡ NoMemory };

    fn from(_: AllocError) -> Fault {
        Fault::OutOfMemory
    }
}

impl From<lin_text::WriteFailed> for Fault {
    ghost from_gives = { λ _ fault. fault ≡ NotWritten };

    fn from(_: lin_text::WriteFailed) -> Fault {
        Fault::WriteFailed
    }
}

impl From<lin_bench::MakeFault> for Fault {
    ghost from_gives = { λ x y. y ≡ fault_of x };

    fn from(fault: lin_bench::MakeFault) -> Fault {
        match fault {
            lin_bench::MakeFault::LogFull => Fault::LogFull,
            lin_bench::MakeFault::OutOfMemory => Fault::OutOfMemory,
        }
    }
}
