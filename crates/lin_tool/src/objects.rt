//! The objects of a run, with the failed checks of its script.

ghost use Rattle.std.specs.Prelude.{◌≡◌, [], IfOk, List, OnOk, option_map, reverse};
ghost use Rattle.lin_parts.specs.declared.parts.Parts.{Parts};
ghost use Rattle.lin_core.specs.declared.log.LogEntry.{LogEntry};
ghost use Rattle.lin_export.specs.Jsonl.{IsObjectTrackOf, unmet_line, unmet_object};
ghost use Rattle.lin_export.specs.Putting.{PutsAll};
ghost use Rattle.lin_text.specs.Written.{WritesText};
ghost use Rattle.lin_tool.specs.Objects.{AfterTrack, failed_check_object, counts_of, shown_checked, shown_objects};
ghost use Rattle.lin_tool.specs.Objects.{test_named};

use crate::formats::Shown;
use crate::junit::shown_name;
use crate::page::summary::{messages_lost, steps_refused};
use crate::placing::within;
use crate::tally::{unmet_in, waiting_in};
use lin_bench::{Judgement, TestName, file_name, is_unmet};
use lin_core::Core;
use lin_export::{Counts, ExportFault, LogRange, ObjectTrack, Opening, Unmet, put_run};
use lin_live::{found_text, what_text, without_space};
use lin_parts::Cluster;
use lin_text::{TextBuffer, TextWriter};
use std::alloc::{AllocError, Global};
use std::io::Write;

/// A run in numbers.
fn counts_of(core: &Core, judgements: &[Judgement]) -> Counts
    ensures { result ≡ counts_of core.now.cluster core.now.log judgements.now }
{
    Counts {
        expected: judgements.len() as u128,
        unmet: unmet_in(judgements) as u128,
        refused: steps_refused(core.log()) as u128,
        lost: messages_lost(core.log()),
        waiting: waiting_in(core),
    }
}

/// The name of a test by its number, which is 0 outside of tests. An error means out of memory.
fn test_named(
    alloc: Global,
    tests: &[TestName],
    number: usize,
) -> Result<Option<Vec<u8>>, AllocError>
    ensures { IfOk result (λ name. option_map (λ v. v.items) name ≡ test_named tests.now number) }
{
    if number == 0 || tests.len() < number {
        return Ok(None);
    }
    Ok(Some(shown_name(alloc, &tests[number - 1])?))
}

/// The bytes of a name, if there is one.
fn bytes_of(name: &Option<Vec<u8>>) -> Option<&[u8]>
    ensures { option_map (λ n. n.now) result ≡ option_map (λ v. v.items) name.now }
{
    match name {
        Some(name) => Some(name.as_slice()),
        None => None,
    }
}

/// The names in the object of a failed check: that of its file, and those of the script's tests.
#[derive(Clone, Copy)]
struct CheckNames<'a> {
    script: &'a [u8],
    tests: &'a [TestName],
}

/// The failed check of a line of a script, with the name of its test, what was expected, and what is so instead.
fn unmet_of<'a>(
    script: &'a [u8],
    line: u64,
    test: Option<&'a [u8]>,
    what: &'a [u8],
    got: &'a [u8],
) -> Unmet<'a>
    ensures { (c : Parts) (past : List LogEntry) → unmet_object c past result
        ≡ unmet_line c past script.now line (option_map (λ n. n.now) test.entry) what.now got.now }
{
    Unmet {
        script,
        line,
        test,
        what,
        got,
    }
}

/// A check, if it failed. An error means out of memory; nothing was put then.
fn put_check<W: Write>(
    out: &mut TextWriter<'_, W>,
    alloc: Global,
    objects: &ObjectTrack,
    names: CheckNames<'_>,
    cluster: &Cluster,
    judgement: &Judgement,
) -> Result<(), AllocError>
    ensures { AfterTrack cluster.now objects.now (λ past. PutsAll W.contents out.old out.new result
        (failed_check_object cluster.now names.entry.script.now names.entry.tests.now past judgement.now)) }
{
    let judged = &judgement.judged;
    if !is_unmet(judged) {
        return Ok(());
    }
    let what = what_text(alloc, cluster, judged)?;
    let got = found_text(alloc, cluster, judged)?;
    let name = test_named(alloc, names.tests, judgement.place.test)?;
    let test = bytes_of(&name);
    let unmet = unmet_of(
        names.script,
        judgement.place.line,
        test,
        without_space(what.as_slice()),
        without_space(got.as_slice()),
    );
    objects.put_unmet(out, unmet);
    Ok(())
}

/// The objects of a log, with the failed checks. An error means out of memory.
fn put_checked<W: Write>(
    out: &mut TextWriter<'_, W>,
    alloc: Global,
    objects: &mut ObjectTrack,
    shown: &Shown<'_, '_>,
    script: &str,
    core: &Core,
) -> Result<(), AllocError>
    requires { IsObjectTrackOf core.now.cluster [] objects.old }
    ensures text { PutsAll W.contents out.old out.new result
        (shown_checked shown.now script.now core.now) }
    ensures track { OnOk result
        (IsObjectTrackOf core.now.cluster (reverse core.now.log) objects.new) }
{
    let cluster = core.cluster();
    let log = core.log();
    let mut read = 0;
    for one in shown.judgements {
        let end = within(log, one.entries).max(read);
        let range = LogRange {
            log,
            from: read,
            end,
        };
        objects.put_entries(out, cluster, shown.coded, range)?;
        let names = CheckNames {
            script: file_name(script.as_bytes(), shown.files, one.place.file),
            tests: shown.tests,
        };
        put_check(out, alloc, objects, names, cluster, one)?;
        read = end;
    }
    let rest = LogRange {
        log,
        from: read,
        end: log.len(),
    };
    objects.put_entries(out, cluster, shown.coded, rest)?;
    Ok(())
}

/// The objects of a run. An error means out of memory.
fn put_objects<W: Write>(
    out: &mut TextWriter<'_, W>,
    alloc: Global,
    shown: &Shown<'_, '_>,
    script: &str,
    core: &Core,
) -> Result<(), AllocError>
    ensures { PutsAll W.contents out.old out.new result
        (shown_objects shown.now script.now core.now) }
{
    let opening = Opening {
        table: shown.table,
        capacity: shown.capacity,
    };
    put_run(out, core.cluster(), opening);
    let mut objects = ObjectTrack::new(alloc);
    put_checked(out, alloc, &mut objects, shown, script, core)?;
    objects.put_end(out, counts_of(core, shown.judgements));
    Ok(())
}

/// Writes the objects of a run: JSON objects (RFC 8259), one a line. The first one has what the run
/// opened with. Then each entry of the log has its objects, and each failed check of the script its
/// own, after the entries that the log had then. The last one has the run in numbers.
///
/// It goes through a buffer of fixed size, and takes memory for what is kept of one slot and for the
/// texts of one check. The writer isn't flushed.
///
/// # Errors
/// What was written then is the beginning of the objects.
/// - `OutOfMemory`;
/// - `WriteFailed` at the first error of the writer, an interrupted write too, and at the first
///   write of 0 bytes.
pub(crate) fn write_objects<W: Write>(
    alloc: Global,
    shown: &Shown<'_, '_>,
    script: &str,
    core: &Core,
    writer: &mut W,
) -> Result<(), ExportFault>
    ensures { WritesText (W.contents writer.old) (W.contents writer.new) result
        (shown_objects shown.now script.now core.now) }
{
    let mut buffer = TextBuffer::empty();
    let mut out = TextWriter::new(writer, &mut buffer);
    let put = put_objects(&mut out, alloc, shown, script, core);
    out.finish()?;
    put?;
    Ok(())
}
