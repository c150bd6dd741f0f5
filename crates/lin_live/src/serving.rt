//! The loop.

ghost use Rattle.std.specs.Prelude.{◌≡◌, ◌≤◌, [], IfSome, OnOk, Some, length};
ghost use Rattle.lin_live.specs.Serving.{EndsBegun, FeedsBegun, RepliesTo, RunsLive, ServesBegun};

use crate::answering::Answering;
use crate::begun::{Begun, ended_line};
use crate::fault::Fault;
use lin_text::TextBuffer;
use memchr::memchr;
use std::alloc::Global;
use std::io::{ErrorKind, Read, Write};

/// Answers a line, and flushes the writer. `None` is a line that is too long.
fn answer_line<S: Answering, W: Write>(
    alloc: Global,
    state: &mut S,
    line: Option<&[u8]>,
    writer: &mut W,
    buffer: &mut TextBuffer,
) -> Result<(), Fault>
    requires short { IfSome line (λ l. length l.now ≤ 16777216) }
    ensures { RepliesTo S.reply S.is_full (S.state state.old) (S.state state.new)
        (W.contents writer.old) (W.contents writer.new) line.entry result }
{
    state.answer(alloc, line, writer, buffer)?;
    match writer.flush() {
        Ok(()) => Ok(()),
        Err(_) => Err(Fault::WriteFailed),
    }
}

/// Answers the line that ends after these bytes, and begins the next one.
fn end_line<S: Answering, W: Write>(
    alloc: Global,
    state: &mut S,
    begun: &mut Begun,
    bytes: &[u8],
    writer: &mut W,
    buffer: &mut TextBuffer,
) -> Result<(), Fault>
    ensures answered { EndsBegun S.reply S.is_full S.state W.contents state.old state.new
        writer.old writer.new begun.old bytes.now result }
    ensures begun { OnOk result (begun.new ≡ Some []) }
{
    if !begun.is_nothing() {
        begun.add(alloc, bytes)?;
        answer_line(alloc, state, begun.line(), writer, buffer)?;
        begun.clear();
        return Ok(());
    }
    answer_line(alloc, state, ended_line(bytes), writer, buffer)
}

/// Answers each line that ends in a piece of the input, and keeps the beginning of the next one.
fn feed<S: Answering, W: Write>(
    alloc: Global,
    state: &mut S,
    begun: &mut Begun,
    piece: &[u8],
    writer: &mut W,
    buffer: &mut TextBuffer,
) -> Result<(), Fault>
    ensures { FeedsBegun S.reply S.is_full S.state W.contents state.old state.new
        writer.old writer.new begun.old begun.new piece.now result }
{
    let mut rest = piece;
    while let Some(end) = memchr(b'\n', rest) {
        end_line(alloc, state, begun, &rest[..end], writer, buffer)?;
        let (_, behind) = rest.split_at(end + 1);
        rest = behind;
    }
    begun.add(alloc, rest)?;
    Ok(())
}

/// Answers what stands after the last LF, if anything does.
fn finish<S: Answering, W: Write>(
    alloc: Global,
    state: &mut S,
    begun: &Begun,
    writer: &mut W,
    buffer: &mut TextBuffer,
) -> Result<(), Fault>
    ensures { ServesBegun S.reply S.is_full S.state W.contents state.old state.new
        writer.old writer.new begun.now result }
{
    if begun.is_nothing() {
        return Ok(());
    }
    answer_line(alloc, state, begun.line(), writer, buffer)
}

/// Answers each line of a reader on a writer: writes the whole answer and flushes the writer before
/// it reads on. A line stands before an LF, or at the end of the input without one where it has a
/// byte; one CR before its end belongs to no line. A line of more than 16,777,216 bytes is passed
/// over in no more memory than these take, and answered as such.
///
/// An interrupted reader is asked again. Memory grows with the longest line.
///
/// # Errors
/// What was written then is the beginning of the transcript of the lines.
/// - `ReadFailed` at the first other error of the reader: the answers to all lines that an LF ended
///   before;
/// - `OutOfMemory`, and `LogFull` where the state has no place for a line: the answers to the lines
///   before the one that isn't answered;
/// - `WriteFailed` at the first failed write or flush.
pub fn live<S: Answering, R: Read, W: Write>(
    alloc: Global,
    state: &mut S,
    reader: &mut R,
    writer: &mut W,
) -> Result<(), Fault>
    ensures { RunsLive S.reply S.is_full S.state R.remaining W.contents state.old state.new
        reader.old reader.new writer.old writer.new result }
{
    let mut begun = Begun::new(alloc);
    let mut buffer = [0u8; 65_536];
    let mut text = TextBuffer::empty();
    for _ in 0..u64::MAX {
        match reader.read(&mut buffer) {
            Ok(0) => return finish(alloc, state, &begun, writer, &mut text),
            Ok(count) => feed(
                alloc,
                state,
                &mut begun,
                &buffer[..count],
                writer,
                &mut text,
            )?,
            Err(fault) => {
                if fault.kind() != ErrorKind::Interrupted {
                    return Err(Fault::ReadFailed);
                }
            }
        }
    }
    Err(Fault::ReadFailed)
}
