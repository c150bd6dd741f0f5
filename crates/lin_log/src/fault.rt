//! Why a script isn't read, a log isn't written, or a replay ends early.

ghost use Rattle.std.specs.Prelude.{◌≡◌};
ghost use Rattle.lin_log.specs.Replay.{replay_fault};

use thiserror::Error;

/// Why a script gives no steps. Nothing but the reader has changed then.
#[derive(Debug, Drop, Error)]
pub enum ScriptFault {
    /// The first line that is in no form, counted from 1 over all lines.
    #[error("script {line} bad line")]
    BadLine { line: u64 },
    /// The text is longer than 16,777,216 bytes.
    #[error("script too long")]
    TooLong,
    /// The reader reported an error; it was asked no second time.
    #[error("read failed")]
    ReadFailed,
    #[error("out of memory")]
    OutOfMemory,
}

/// Why a replay gives no core.
#[derive(Debug, Drop, Error)]
pub enum ReplayFault {
    /// The script wasn't read; nothing was written.
    #[error(transparent)]
    Script(ScriptFault),
    /// Nothing was written.
    #[error("{}", ScriptFault::OutOfMemory)]
    OutOfMemory,
    /// What was written is the beginning of the text.
    #[error("{}", lin_text::WriteFailed)]
    WriteFailed,
}

impl From<ScriptFault> for ReplayFault {
    ghost from_gives = { λ x y. y ≡ replay_fault x };

    fn from(fault: ScriptFault) -> ReplayFault {
        match fault {
            ScriptFault::OutOfMemory => ReplayFault::OutOfMemory,
            fault => ReplayFault::Script(fault),
        }
    }
}
