//! A bench in hand that keeps its newest answer.

ghost use Rattle.std.specs.Prelude.{◌≡◌, ◌≤◌, [], IfSome, length, option_map};
ghost use Rattle.linsim_c.specs.Answering.{AnswersOn, end_line_in, end_said, ending_in, heard_line, last_line_of_answer, says_end};
ghost use Rattle.linsim_c.specs.Writing.{Writes};

use crate::bench_settings::after;
use crate::entry_texts::put;
use crate::fault::Fault;
use crate::line_call::LONGEST_LINE;
use crate::written_text::Told;
use lin_live::{Answering, Hand};
use lin_log::without_return;
use lin_text::TextBuffer;
use std::alloc::Global;
use std::marker::Model;

/// A bench in hand, and its answer to the newest line, which is empty before the first one.
#[derive(Drop)]
pub struct SessionBench {
    hand: Hand,
    answer: Vec<u8>,
}

impl Model for SessionBench {
    ghost use Rattle.linsim_c.specs.Answering.{AnsweringBench};

    ghost Value = { AnsweringBench };

    ghost view = { λ b. record { hand = b.hand; answer = b.answer.items } };
}

/// What the last line of an answer begins with, as text.
const TEXT_MARK: &[u8] = b"# ";

/// What the last line of an answer begins with, as an object.
const OBJECT_MARK: &[u8] = b"{\"type\":\"answer\",\"end\":\"";

/// Whether a line says how an answer ended.
fn says_end(line: &[u8]) -> bool
    ensures { result ≡ says_end line.now }
{
    line.starts_with(TEXT_MARK) || line.starts_with(OBJECT_MARK)
}

/// The line of an answer that says how it ended, without its LF.
fn end_line(answer: &[u8]) -> Option<&[u8]>
    ensures { option_map (λ l. l.now) result ≡ end_line_in answer.now }
{
    answer
        .split(|byte| *byte == b'\n')
        .find(|line| says_end(line))
}

/// The last line of an answer, without its LF: the only one that says how it ended. Empty if there is
/// none.
fn last_line(answer: &[u8]) -> &[u8]
    ensures { result.now ≡ last_line_of_answer answer.now }
{
    match end_line(answer) {
        Some(line) => line,
        None => b"",
    }
}

/// What the last line of an answer says after its mark.
fn end_said(last: &[u8]) -> &[u8]
    ensures { result.now ≡ end_said last.now }
{
    if last.starts_with(TEXT_MARK) {
        after(last, TEXT_MARK.len())
    } else {
        after(last, OBJECT_MARK.len())
    }
}

/// How an answer with this last line ended, 1 to 6; 0 for an empty line.
fn ending(last: &[u8]) -> u32
    ensures { result ≡ ending_in last.now }
{
    let said = end_said(last);
    if said.starts_with(b"ok") {
        1
    } else if said.starts_with(b"is") {
        2
    } else if said.starts_with(b"refused") {
        3
    } else if said.starts_with(b"expected") {
        4
    } else if said.starts_with(b"bad line") {
        5
    } else if said.starts_with(b"slot limit") {
        6
    } else {
        0
    }
}

/// A line without its return; none if it is too long.
fn short(line: &[u8]) -> Option<&[u8]>
    ensures line { option_map (λ l. l.now) result ≡ heard_line line.now }
    ensures length { IfSome result (λ l. length l.now ≤ 16777216) }
{
    let line = without_return(line);
    if line.len() > LONGEST_LINE {
        None
    } else {
        Some(line)
    }
}

impl SessionBench {
    pub(crate) fn new(alloc: Global, hand: Hand) -> SessionBench
        ensures { result ≡ record { hand = hand; answer = [] } }
    {
        SessionBench {
            hand,
            answer: Vec::new(alloc),
        }
    }

    /// Answers a line, and keeps the answer.
    ///
    /// # Errors
    /// `OutOfMemory` and `LogFull`, after which nothing is known of the bench: the line may have been
    /// made in part.
    pub(crate) fn answer(
        &mut self,
        alloc: Global,
        line: &[u8],
        buffer: &mut TextBuffer,
    ) -> Result<(), Fault>
        ensures { AnswersOn result line.now self.old self.new }
    {
        self.answer.clear();
        match self
            .hand
            .answer(alloc, short(line), &mut self.answer, buffer)
        {
            Ok(()) => Ok(()),
            Err(lin_live::Fault::LogFull) => Err(Fault::LogFull),
            Err(_) => Err(Fault::OutOfMemory),
        }
    }

    /// Writes the newest answer at the beginning of `out`. Its number is how it ended.
    ///
    /// # Errors
    /// `NoRoom`; nothing was written.
    pub(crate) fn put_answer(&self, out: &mut [u8]) -> Result<Told, Fault>
        ensures { Writes (ending_in (last_line_of_answer self.now.answer)) result self.now.answer out.old out.new }
    {
        let answer = self.answer.as_slice();
        put(answer, ending(last_line(answer)), out)
    }
}
