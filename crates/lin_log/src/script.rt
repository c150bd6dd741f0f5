//! Scripts.

ghost use Rattle.std.specs.Prelude.{◌≡◌, ◌<◌, ◌≤◌, ◌∷◌, ◌==◌, ◌+◌, false, length, slice_index};
ghost use Rattle.std.specs.Prelude.{take, IfOk, IfSome};
ghost use Rattle.std.specs.List.{All, slice_split};
ghost use Rattle.std.specs.Str.Lines.{strip_carriage_return};
ghost use Rattle.lin_log.specs.Judged.{Judges, NextStep, left_length, lines_left, steps_left};
ghost use Rattle.lin_log.specs.Replay.{ReadsBytes, ReadsScript};
ghost use Rattle.lin_log.specs.Script.{script};

use crate::fault::ScriptFault;
use crate::forms::line_step;
use crate::naming::NumberNaming;
use crate::reason::LineFault;
use lin_core::{PortId, Step};
use lin_text::{ReadFault, read_whole};
use memchr::memchr;
use std::alloc::Global;
use std::io::Read;

/// The most bytes that a script may have.
const LIMIT: usize = 16_777_216;

/// A line without the CR at its end, if one stands there.
pub fn without_return(line: &[u8]) -> &[u8]
    ensures { result.now ≡ strip_carriage_return line.now }
{
    if !line.is_empty() && line[line.len() - 1] == b'\r' {
        &line[..line.len() - 1]
    } else {
        line
    }
}

/// How many bytes there are before the first LF.
fn line_length(text: &[u8]) -> usize
    ensures within { result ≤ length text.now }
    ensures clean { All (λ x. (x == 10) ≡ false) (take result text.now) }
    ensures ends { result < length text.now → slice_index text.now result ≡ 10 }
{
    match memchr(b'\n', text) {
        Some(end) => end,
        None => text.len(),
    }
}

/// The first line, without its LF, and the text after that, where there is one.
pub fn first_line(text: &[u8]) -> (&[u8], Option<&[u8]>)
    ensures lines { slice_split (λ b. b == 10) text.now ≡ result.0.now ∷ lines_left result.1 }
    ensures shorter { left_length result.1 ≤ length text.now }
{
    let end = line_length(text);
    if end == text.len() {
        return (text, None);
    }
    (&text[..end], Some(&text[end + 1..]))
}

/// The lines of a script that are left, and the number of the first of them.
#[derive(Drop)]
pub(crate) struct ScriptLines<'a> {
    left: Option<&'a [u8]>,
    number: u64,
}

impl<'a> ScriptLines<'a> {
    #[tactic(auto, unfolding(crate::specs::Script::script, crate::specs::Said::text_says))]
    pub(crate) fn new(bytes: &'a [u8]) -> ScriptLines<'a>
        ensures said { steps_left result ≡ script bytes.now }
        ensures first { result.number ≡ 1 }
        ensures left { left_length result.left ≡ length bytes.now + 1 }
    {
        ScriptLines {
            left: Some(bytes),
            number: 1,
        }
    }

    /// The step of the next line that says one; none where no line is left that does.
    #[inline(always)]
    pub(crate) fn next_step(&mut self, alloc: Global) -> Result<Option<(PortId, Step)>, ScriptFault>
        requires { self.old.number + left_length self.old.left ≤ 16777218 }
        ensures step { NextStep result (steps_left self.old) (steps_left self.new) }
        ensures bound { self.new.number + left_length self.new.left
            ≤ self.old.number + left_length self.old.left }
        ensures passed { IfOk result
            (λ step. IfSome step (λ _. self.old.number + 1 ≤ self.new.number)) }
    {
        while let Some(text) = self.left {
            let (line, rest) = first_line(text);
            let number = self.number;
            self.left = rest;
            self.number = number + 1;
            match line_step(alloc, &NumberNaming, without_return(line)) {
                Err(LineFault::Bad(_)) => return Err(ScriptFault::BadLine { line: number }),
                Err(LineFault::OutOfMemory) => return Err(ScriptFault::OutOfMemory),
                Ok(None) => {}
                Ok(step) => return Ok(step),
            }
        }
        Ok(None)
    }
}

/// The steps that the lines of a script say.
fn judge(alloc: Global, bytes: &[u8]) -> Result<Vec<(PortId, Step)>, ScriptFault>
    requires { length bytes.now ≤ 16777216 }
    ensures steps { Judges (λ v. v.items) result (script bytes.now) }
    ensures few { IfOk result (λ v. length v.items ≤ 16777217) }
{
    let mut lines = ScriptLines::new(bytes);
    let mut steps = Vec::new(alloc);
    while let Some(step) = lines.next_step(alloc)? {
        if steps.push(step).is_err() {
            return Err(ScriptFault::OutOfMemory);
        }
    }
    Ok(steps)
}

/// The bytes of a script, at most 16,777,216.
///
/// # Errors
/// `TooLong`, `ReadFailed` and `OutOfMemory`, as of `read_script`.
pub fn read_bytes<R: Read>(alloc: Global, reader: &mut R) -> Result<Vec<u8>, ScriptFault>
    ensures { ReadsBytes (λ v. v.items) result (R.remaining reader.old) }
{
    match read_whole(alloc, reader, LIMIT) {
        Ok(bytes) => Ok(bytes),
        Err(ReadFault::TooLong) => Err(ScriptFault::TooLong),
        Err(ReadFault::ReadFailed) => Err(ScriptFault::ReadFailed),
        Err(ReadFault::OutOfMemory) => Err(ScriptFault::OutOfMemory),
    }
}

/// The ports and steps that a script names, line by line, in order.
///
/// The whole text is read, by at most 16,777,217 reads, before any line is judged.
///
/// # Errors
/// The reader alone has changed after each of them.
/// - `BadLine` with the number of the first line that is in no form;
/// - `TooLong` where the text is longer than 16,777,216 bytes;
/// - `ReadFailed` at the first error of the reader, an interrupted read too;
/// - `OutOfMemory`.
pub fn read_script<R: Read>(
    alloc: Global,
    reader: &mut R,
) -> Result<Vec<(PortId, Step)>, ScriptFault>
    ensures steps { IfSome (R.remaining reader.old)
        (λ bytes. ReadsScript (λ v. v.items) result bytes) }
    ensures few { IfOk result (λ v. length v.items ≤ 16777217) }
{
    let bytes = read_bytes(alloc, reader)?;
    judge(alloc, bytes.as_slice())
}
