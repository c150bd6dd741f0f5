//! `linsim live`: a bench in hand, which answers each line as it comes.

ghost use Rattle.std.specs.Prelude.{◌≡◌, ◌<◌, ℕ, IfErr, IfOk, List, length};
ghost use Rattle.std.specs.Borrow.{Bor};
ghost use Rattle.lin_tool.specs.Living.{BeginsAnswers, Lives, ends, hand_of_opened, opened_line};
ghost use Rattle.lin_live.specs.declared.answer_format.AnswerFormat.TheVariants.{Log, Named, Jsonl};
ghost use Rattle.lin_tool.specs.declared.fault.Fault.TheVariants.{OutOfMemory as NoMemory};
ghost use Rattle.lin_tool.specs.declared.formats.Format.TheVariants.{Log as LogFormat};
ghost use Rattle.lin_tool.specs.declared.formats.Format.TheVariants.{Jsonl as JsonlFormat, Named as NamedFormat};

use crate::fault::Fault;
use crate::formats::Format;
use crate::notes::Notes;
use crate::opening::{Opened, Settings, begin, within_limits};
use lin_export::{Opening, write_run};
use lin_live::{AnswerFormat, Hand};
use std::alloc::Global;
use std::fs::Files;
use std::io::{self, Read, Write};
use std::mem;

/// How answering lines ends on a bench.
fn ending(hand: &Hand, done: Result<(), lin_live::Fault>) -> Result<(), Fault>
    ensures { result ≡ ends hand.now done }
{
    match done {
        Err(fault) => Err(Fault::from(fault)),
        Ok(()) if hand.was_bad() => Err(Fault::BadLines),
        Ok(()) if hand.was_unmet() => Err(Fault::Unmet { told: Ok(()) }),
        Ok(()) => Ok(()),
    }
}

/// A bench in hand over the cluster that was opened, on which no line was made, and which tells entries
/// so. Lines may say values in words where what signals mean is known; where the settings want it,
/// answers tell it.
///
/// # Errors
/// `OutOfMemory`.
pub fn bench_in_hand(alloc: Global, opened: Opened<'_>, format: AnswerFormat) -> Result<Hand, Fault>
    requires { opened.table < length opened.cluster.tables }
    ensures hand { IfOk result (λ hand. hand ≡ hand_of_opened format opened.entry) }
    ensures memory { IfErr result (λ fault. fault ≡ NoMemory) }
{
    let Opened {
        cluster,
        table,
        coded,
        limits,
        settings,
    } = opened;
    let opening = Opening {
        table,
        capacity: within_limits(settings.capacity),
    };
    let is_physical = settings.is_physical;
    match Hand::new(alloc, cluster, opening, format, coded, limits, is_physical) {
        Ok(hand) => Ok(hand),
        Err(_) => Err(Fault::OutOfMemory),
    }
}

/// Answers each line of a reader on a writer before it reads on, as `lin_live::live`, on a bench in
/// hand. The notes tell which steps were refused. (The bench's memory is left to the end of the
/// program.)
///
/// # Errors
/// Those of `lin_live::live`; after all lines were answered `BadLines`, where one was bad or made
/// more than 1,000,000 slots, and else `Unmet`, where an expectation wasn't met.
pub fn answer_lines<R: Read, W: Write>(
    alloc: Global,
    mut hand: Hand,
    reader: &mut R,
    writer: &mut W,
    notes: &mut Notes<'_>,
) -> Result<(), Fault>
    ensures { Lives hand result (R.remaining reader.old) (R.remaining reader.new)
        (W.contents writer.old) (W.contents writer.new) }
{
    let done = lin_live::live(alloc, &mut hand, reader, writer);
    let ended = ending(&hand, done);
    if let Some(log) = hand.log() {
        notes.add_refusals(log);
    }
    mem::forget(hand);
    ended
}

/// How entries are told in a format of logs: with names, as objects, or as the log's own text in place
/// of any other one.
fn answer_format(format: Format<'_>) -> AnswerFormat
    ensures named { format.entry ≡ NamedFormat → result ≡ Named }
    ensures objects { (script : Bor (List ℕ)) → format.entry ≡ JsonlFormat script → result ≡ Jsonl }
    ensures log { format.entry ≡ LogFormat → result ≡ Log }
{
    match format {
        Format::Named => AnswerFormat::Named,
        Format::Jsonl(_) => AnswerFormat::Jsonl,
        _ => AnswerFormat::Log,
    }
}

/// Writes what answers begin with: as objects, the one that a run begins with. The writer is flushed.
///
/// # Errors
/// `WriteFailed`.
fn begin_answers<W: Write>(
    opened: &Opened<'_>,
    format: AnswerFormat,
    writer: &mut W,
) -> Result<(), Fault>
    ensures { BeginsAnswers format (opened_line opened.now) result
        (W.contents writer.old) (W.contents writer.new) }
{
    match format {
        AnswerFormat::Log | AnswerFormat::Named => return Ok(()),
        AnswerFormat::Jsonl => {}
    }
    let opening = Opening {
        table: opened.table,
        capacity: within_limits(opened.settings.capacity),
    };
    if write_run(&opened.cluster, opening, writer).is_err() {
        return Err(Fault::WriteFailed);
    }
    match writer.flush() {
        Ok(()) => Ok(()),
        Err(_) => Err(Fault::WriteFailed),
    }
}

/// Answers each line on standard input on standard output before it reads on, over the cluster of
/// the settings; entries are told as the log with names or as objects where the settings have that
/// format, and else as the log's own text. Warnings of the LDF go to `errors` first.
///
/// # Errors
/// Those of `cluster_of_file`, and `NoSuchTable`, after which nothing was read; those of
/// `bench_in_hand` and `answer_lines`.
pub fn live<R: AllocGlobal + Files + Input + Print, E: Write>(
    rt: &R,
    settings: &Settings<'_>,
    errors: &mut E,
    notes: &mut Notes<'_>,
) -> Result<(), Fault> {
    let opened = begin(rt, settings, true, notes)?;
    notes.tell_warnings(errors);
    let format = answer_format(settings.format);
    let mut writer = io::writer(rt);
    begin_answers(&opened, format, &mut writer)?;
    let hand = bench_in_hand(rt.alloc(), opened, format)?;
    let answer = answer_lines(rt.alloc(), hand, &mut rt.reader(), &mut writer, notes);
    notes.add_unread(&answer, None);
    answer
}
