//! One line, made on what a handle keeps.

ghost use Rattle.std.specs.Prelude.{◌≡◌, ◌-◌, drop, length};
ghost use Rattle.lin_log.specs.Words.{text};
ghost use Rattle.linsim_c.specs.Lines.{MakesAtHandle, MakesOn, MakesStep, StepsBy, TellsNewest, TellsOn, is_session_lost};
ghost use Rattle.linsim_c.specs.Answering.{AnswersLine};

use crate::entry_texts::put_log;
use crate::fault::Fault;
use crate::handle::Handle;
use crate::kept::{KeptSession, Session};
use crate::session_bench::SessionBench;
use crate::written_text::Told;
use lin_core::{Core, Hold};
use lin_log::{LineFault, NumberNaming, line_step, without_return};
use lin_text::TextBuffer;
use std::alloc::Global;

/// The most bytes that a line may have, without its return.
pub(crate) const LONGEST_LINE: usize = 16_777_216;

/// Makes the step that a line says, if it says one.
///
/// # Errors
/// `BadLine`, also if the line is too long, `LogFull` and `OutOfMemory`; nothing was changed.
fn step_by(alloc: Global, core: &mut Core, line: &[u8]) -> Result<(), Fault>
    ensures { StepsBy result line.now core.old core.new }
{
    let line = without_return(line);
    if line.len() > LONGEST_LINE {
        return Err(Fault::BadLine { line: 1 });
    }
    match line_step(alloc, &NumberNaming, line) {
        Ok(None) => Ok(()),
        Ok(Some((by, step))) => match core.step(by, step) {
            Ok(()) => Ok(()),
            Err(Hold::LogFull(_)) => Err(Fault::LogFull),
            Err(Hold::OutOfMemory(_)) => Err(Fault::OutOfMemory),
        },
        Err(LineFault::Bad(_)) => Err(Fault::BadLine { line: 1 }),
        Err(LineFault::OutOfMemory) => Err(Fault::OutOfMemory),
    }
}

/// Makes the step of a line of a script, and writes its entry.
///
/// # Errors
/// Those of `step_by`; `NoRoom` and `Untold` after the step. Nothing is written.
fn make_step(
    alloc: Global,
    core: &mut Core,
    buffer: &mut TextBuffer,
    line: &[u8],
    out: &mut [u8],
) -> Result<Told, Fault>
    ensures { MakesStep result line.now core.old core.new out.old out.new }
{
    let from = core.log().len();
    step_by(alloc, core, line)?;
    match put_log(alloc, core.log(), from, buffer, out) {
        Err(Fault::OutOfMemory) => Err(Fault::Untold),
        written => written,
    }
}

/// Answers a line of a bench script, and writes the answer.
///
/// # Errors
/// `NoRoom` after the line was answered; `OutOfMemory` and `LogFull`, after which nothing is known of
/// the bench. Nothing is written.
fn answer_line(
    alloc: Global,
    bench: &mut SessionBench,
    buffer: &mut TextBuffer,
    line: &[u8],
    out: &mut [u8],
) -> Result<Told, Fault>
    ensures { AnswersLine result line.now bench.old bench.new out.old out.new }
{
    bench.answer(alloc, line, buffer)?;
    bench.put_answer(out)
}

/// Makes a line on what a handle keeps, and writes its text.
///
/// # Errors
/// Those of `make_step` or of `answer_line`.
fn make_on(
    alloc: Global,
    kept: &mut KeptSession,
    line: &[u8],
    out: &mut [u8],
) -> Result<Told, Fault>
    ensures { MakesOn result line.now kept.old kept.new out.old out.new }
{
    let KeptSession { session, buffer } = kept;
    match session {
        Session::Script(core) => make_step(alloc, core, buffer, line, out),
        Session::Bench(bench) => answer_line(alloc, bench, buffer, line, out),
    }
}

/// Whether nothing is known of a session that ended a line so.
fn is_lost(session: &Session, made: &Result<Told, Fault>) -> bool
    ensures { result ≡ is_session_lost session.now made.now }
{
    match (session, made) {
        (Session::Bench(_), Err(Fault::OutOfMemory | Fault::LogFull)) => true,
        _ => false,
    }
}

/// Makes a line on what a handle keeps, and writes its text.
///
/// # Errors
/// `IsClosed`; those of `make_on`. A bench of which nothing is known is closed.
pub(crate) fn make(
    alloc: Global,
    handle: &mut Handle,
    line: &[u8],
    out: &mut [u8],
) -> Result<Told, Fault>
    ensures { MakesAtHandle handle.old.value handle.new.value result line.now out.old out.new }
{
    let Some(mut kept) = handle.take(alloc) else {
        return Err(Fault::IsClosed);
    };
    let made = make_on(alloc, &mut kept, line, out);
    if !is_lost(&kept.session, &made) {
        handle.put(alloc, kept);
    }
    made
}

/// Writes the newest entry, or the newest answer.
///
/// # Errors
/// `NoRoom` and `OutOfMemory`. Nothing is written.
fn put_newest(alloc: Global, kept: &mut KeptSession, out: &mut [u8]) -> Result<Told, Fault>
    ensures same { kept.new ≡ kept.old }
    ensures text { TellsOn result kept.old out.old out.new }
{
    let KeptSession { session, buffer } = kept;
    match session {
        Session::Script(core) => {
            let log = core.log();
            put_log(alloc, log, log.len().saturating_sub(1), buffer, out)
        }
        Session::Bench(bench) => bench.put_answer(out),
    }
}

/// Writes the newest entry or answer of what a handle keeps.
///
/// # Errors
/// `IsClosed`; `NoRoom` and `OutOfMemory`. Nothing is written.
pub(crate) fn tell_newest(alloc: Global, handle: &mut Handle, out: &mut [u8]) -> Result<Told, Fault>
    ensures { TellsNewest handle.old.value handle.new.value result out.old out.new }
{
    let Some(mut kept) = handle.take(alloc) else {
        return Err(Fault::IsClosed);
    };
    let told = put_newest(alloc, &mut kept, out);
    handle.put(alloc, kept);
    told
}
