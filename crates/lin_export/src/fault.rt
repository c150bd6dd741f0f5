//! Why an export isn't whole.

use lin_text::WriteFailed;
use std::alloc::AllocError;
use thiserror::Error;

/// Why an export isn't whole. What was written before is the beginning of what it says.
#[derive(Clone, Copy, Debug, Drop, Error)]
pub enum ExportFault {
    #[error("out of memory")]
    OutOfMemory,
    /// The writer answered an error or took no byte; it was asked no second time.
    #[error("write failed")]
    WriteFailed,
}

impl From<AllocError> for ExportFault {
    fn from(_error: AllocError) -> ExportFault {
        ExportFault::OutOfMemory
    }
}

impl From<WriteFailed> for ExportFault {
    fn from(_error: WriteFailed) -> ExportFault {
        ExportFault::WriteFailed
    }
}
