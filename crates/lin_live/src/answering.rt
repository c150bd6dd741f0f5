//! What answers lines.

ghost use Rattle.std.specs.Prelude.{◌≤◌, ℕ, List, Option, IfSome, length};
ghost use Rattle.lin_live.specs.Serving.{RepliesTo};

use crate::fault::Fault;
use lin_text::TextBuffer;
use std::alloc::Global;
use std::io::Write;

/// A state that answers lines.
pub trait Answering {
    /// What the state is, wherever it lies in memory.
    ghost State: { Type 0 };

    ghost state: { Self → Self.State };

    /// What a line makes of the state, and the answer to it; none stands for a line of more than
    /// 16,777,216 bytes.
    ghost reply: { Self.State → Option (List ℕ) → Self.State × List ℕ };

    /// A line for which the state has no place.
    ghost is_full: { Self.State → Option (List ℕ) → Type 0 };

    /// Writes the whole answer to a line; none stands for a line of more than 16,777,216 bytes. The
    /// writer isn't flushed. The text waits in the buffer until it is written.
    ///
    /// # Errors
    /// - `WriteFailed`: what was written is the beginning of the answer;
    /// - `OutOfMemory`, and `LogFull` where the state has no place for the line: nothing was
    ///   written.
    fn answer<W: Write>(
        &mut self,
        alloc: Global,
        line: Option<&[u8]>,
        writer: &mut W,
        buffer: &mut TextBuffer,
    ) -> Result<(), Fault>
        requires short { IfSome line (λ l. length l.now ≤ 16777216) }
        ensures { RepliesTo Self.reply Self.is_full (Self.state self.old) (Self.state self.new)
            (W.contents writer.old) (W.contents writer.new) line.entry result };
}
