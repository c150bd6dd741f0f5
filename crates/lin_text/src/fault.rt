//! Why a text isn't written.

use thiserror::Error;

/// The writer reported an error or took no byte; it was asked no second time.
/// What it took before is the beginning of the text.
#[derive(Clone, Copy, Debug, Drop, Error)]
#[error("write failed")]
pub struct WriteFailed;
