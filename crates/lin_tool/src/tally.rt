//! A play in numbers, as the last line of a strict one says them.

ghost use Rattle.std.specs.Prelude.{◌≡◌};
ghost use Rattle.std.specs.List.{count_by};
ghost use Rattle.lin_bench.specs.declared.got.Judgement.{Judgement};
ghost use Rattle.lin_bench.specs.Played.{is_unmet};
ghost use Rattle.lin_core.specs.Core.{past_of};
ghost use Rattle.lin_text.specs.Written.{Grows, WritesText};
ghost use Rattle.lin_tool.specs.Tally.{count_with_word, missed_faults, missed_line, tally_text, waiting_in};

use crate::page::summary::{messages_lost, slots_finished, steps_refused};
use lin_bench::{Judgement, is_unmet};
use lin_core::Core;
use lin_text::{TextBuffer, TextWriter, WriteFailed};
use std::io::Write;

/// How many judgements aren't met.
pub(crate) fn unmet_in(judgements: &[Judgement]) -> usize
    ensures { result ≡ count_by (λ j. is_unmet j.judged) judgements.now }
{
    let mut count = 0;
    for one in judgements {
        if is_unmet(&one.judged) {
            count += 1;
        }
    }
    count
}

/// How many messages wait, of all hosts.
pub(crate) fn waiting_in(core: &Core) -> u128
    ensures { result ≡ waiting_in core.now.cluster (past_of core.now) }
{
    let mut count: u128 = 0;
    for host in 0..core.cluster().nodes() as u8 {
        count += core.waiting(host) as u128;
    }
    count
}

/// A number, and what it counts.
fn put_counted<W: Write>(out: &mut TextWriter<'_, W>, count: u128, word: &str)
    ensures { Grows W.contents out.old out.new (count_with_word count word.now) }
{
    out.put_number(count);
    out.put_text(word);
}

/// Writes the last line of a strict play: how many judgements there are and how many of them aren't
/// met, how many slots were finished, the time in microseconds, how many steps were refused and
/// messages lost, and how many messages wait.
///
/// # Errors
/// `WriteFailed`, where what was written is the beginning of the line.
pub(crate) fn write_tally<W: Write>(
    core: &Core,
    judgements: &[Judgement],
    writer: &mut W,
) -> Result<(), WriteFailed>
    ensures { WritesText (W.contents writer.old) (W.contents writer.new) result
        (tally_text core.now.cluster core.now.log judgements.now) }
{
    let mut buffer = TextBuffer::empty();
    let mut out = TextWriter::new(writer, &mut buffer);
    let log = core.log();
    out.put_text("play: ");
    put_counted(&mut out, judgements.len() as u128, " expected, ");
    put_counted(&mut out, unmet_in(judgements) as u128, " unmet, ");
    put_counted(&mut out, slots_finished(log), " slots, ");
    put_counted(&mut out, u128::from(core.time()), " us, ");
    put_counted(&mut out, steps_refused(log) as u128, " refused, ");
    put_counted(&mut out, messages_lost(log), " lost, ");
    put_counted(&mut out, waiting_in(core), " waiting\n");
    out.finish()
}

/// How many of the faults of a play changed no slot.
fn put_missed_line<W: Write>(out: &mut TextWriter<'_, W>, faults: usize, missed: usize)
    ensures { Grows W.contents out.old out.new (missed_line faults missed) }
{
    out.put_text("faults: ");
    put_counted(out, missed as u128, " of ");
    put_counted(out, faults as u128, " changed no slot\n");
}

/// The same, if there are such.
fn put_missed_faults<W: Write>(out: &mut TextWriter<'_, W>, faults: usize, missed: usize)
    ensures { Grows W.contents out.old out.new (missed_faults faults missed) }
{
    if missed != 0 {
        put_missed_line(out, faults, missed);
    }
}

/// Writes how many of the faults of a play changed no slot, if there are such.
///
/// # Errors
/// `WriteFailed`, where what was written is the beginning of the line.
pub(crate) fn write_missed_faults<W: Write>(
    faults: usize,
    missed: usize,
    writer: &mut W,
) -> Result<(), WriteFailed>
    ensures { WritesText (W.contents writer.old) (W.contents writer.new) result
        (missed_faults faults missed) }
{
    let mut buffer = TextBuffer::empty();
    let mut out = TextWriter::new(writer, &mut buffer);
    put_missed_faults(&mut out, faults, missed);
    out.finish()
}
