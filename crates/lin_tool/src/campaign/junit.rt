//! The rows of a campaign as a report for what reads those of tests (JUnit's, in XML 1.0).

ghost use Rattle.std.specs.Prelude.{◌≡◌, ◌++◌, ◌∷◌, [], IfOk, codes, map};
ghost use Rattle.std.specs.Fmt.{decimal};
ghost use Rattle.lin_text.specs.Written.{Grows};
ghost use Rattle.lin_export.specs.Putting.{PutsAll};
ghost use Rattle.lin_tool.specs.Junit.{xml_text};
ghost use Rattle.lin_tool.specs.Placing.{placed_missed};
ghost use Rattle.lin_tool.specs.Separated.{with_separators};
ghost use Rattle.lin_tool.specs.campaign.Junit.{broken_failure, case_end, case_text, failure, failure_lines};
ghost use Rattle.lin_tool.specs.campaign.Junit.{report_head, row_case};
ghost use Rattle.lin_tool.specs.campaign.Shown.{row_data};
ghost use Rattle.lin_tool.specs.campaign.Text.{row_name};

use crate::campaign::checks::first_checks;
use crate::campaign::row::RowVerdict;
use crate::campaign::shown::ShownRow;
use crate::campaign::text::put_name;
use crate::junit::put_escaped;
use crate::placing::{FileNames, Moment, missed_line, within};
use lin_bench::Judgement;
use lin_core::Log;
use lin_parts::Cluster;
use lin_text::{TextBuffer, TextWriter};
use std::alloc::{AllocError, Global};
use std::io::Write;

/// What is written after the cases.
pub(crate) const TAIL: &str = "</testsuite>\n</testsuites>\n";

/// The part of the report before its cases, with their number.
pub(crate) fn put_head<W: Write>(out: &mut TextWriter<'_, W>, script: &str, cases: u64)
    ensures { Grows W.contents out.old out.new (report_head script.now cases) }
{
    out.put_text("<?xml version=\"1.0\" encoding=\"UTF-8\"?>\n<testsuites>\n<testsuite name=\"");
    put_escaped(out, script.as_bytes());
    out.put_text("\" tests=\"");
    out.put_number(cases);
    out.put_text("\">\n");
}

/// Returns the name of a case. An error means out of memory.
fn case_name(alloc: Global, cluster: &Cluster, shown: &ShownRow<'_>) -> Result<Vec<u8>, AllocError>
    ensures { IfOk result (λ v. v.items ≡ row_name cluster.now (row_data shown.now)) }
{
    let mut text = Vec::new(alloc);
    let mut buffer = TextBuffer::empty();
    let mut out = TextWriter::new(&mut text, &mut buffer);
    put_name(&mut out, cluster, shown);
    match out.finish() {
        Ok(()) => Ok(text),
        Err(_) => Err(AllocError),
    }
}

/// The lines of failed expectations. An error means out of memory.
fn put_failures<W: Write>(
    out: &mut TextWriter<'_, W>,
    alloc: Global,
    names: FileNames<'_>,
    cluster: &Cluster,
    log: &Log,
    failed: &[&Judgement],
) -> Result<(), AllocError>
    ensures { PutsAll W.contents out.old out.new result (with_separators [] (10 ∷ [])
        (map (λ j. xml_text (placed_missed names.entry.script.now names.entry.files.now cluster.now
        log.now.entries j.now)) failed.now)) }
{
    let mut read = 0;
    let mut moment = Moment::new();
    let mut mark: &[u8] = b"";
    for one in failed {
        let entries = within(log, one.entries);
        moment = moment.at(cluster, log, read, entries);
        read = entries;
        let missed = missed_line(
            alloc,
            Some(names.script),
            names.files,
            cluster,
            moment,
            *one,
        )?;
        out.put(mark);
        put_escaped(out, missed.as_slice());
        mark = b"\n";
    }
    Ok(())
}

/// The lines of the failed expectations, that of a line that is repeated once. An error means out of memory.
fn put_failed<W: Write>(
    out: &mut TextWriter<'_, W>,
    alloc: Global,
    names: FileNames<'_>,
    cluster: &Cluster,
    log: &Log,
    judgements: &[Judgement],
) -> Result<(), AllocError>
    ensures { PutsAll W.contents out.old out.new result
        (failure_lines names.entry.script.now names.entry.files.now cluster.now log.now.entries judgements.now) }
{
    let failed = first_checks(alloc, cluster, true, judgements)?;
    put_failures(out, alloc, names, cluster, log, failed.as_slice())
}

/// The failure of a row that isn't tolerated, with its failed lines. An error means out of memory.
fn put_broken<W: Write>(
    out: &mut TextWriter<'_, W>,
    alloc: Global,
    names: FileNames<'_>,
    shown: &ShownRow<'_>,
) -> Result<(), AllocError>
    ensures { PutsAll W.contents out.old out.new result
        (broken_failure names.entry.script.now names.entry.files.now shown.now.core.now.cluster (row_data shown.now)) }
{
    out.put_text(">\n<failure message=\"");
    out.put_number(shown.row.lines.as_slice().len() as u64);
    out.put_text(" unmet\">");
    let cluster = shown.core.cluster();
    let log = shown.core.log();
    put_failed(out, alloc, names, cluster, log, shown.judgements)?;
    out.put_text("</failure>\n</testcase>\n");
    Ok(())
}

/// The failure of a row at the slot limit.
fn put_limit<W: Write>(out: &mut TextWriter<'_, W>, script: &str, line: u64)
    ensures { Grows W.contents out.old out.new (failure (codes "slot limit")
        (xml_text script.now ++ (codes ":" ++ (decimal line ++ codes ": slot limit")))) }
{
    out.put_text(">\n<failure message=\"slot limit\">");
    put_escaped(out, script.as_bytes());
    out.put_numbered(b':', line);
    out.put_text(": slot limit</failure>\n</testcase>\n");
}

/// The end of the case of a row. An error means out of memory.
fn put_end<W: Write>(
    out: &mut TextWriter<'_, W>,
    alloc: Global,
    names: FileNames<'_>,
    shown: &ShownRow<'_>,
) -> Result<(), AllocError>
    ensures { PutsAll W.contents out.old out.new result
        (case_end names.entry.script.now names.entry.files.now shown.now.core.now.cluster (row_data shown.now)
        shown.now.row.now.verdict) }
{
    match shown.row.verdict {
        RowVerdict::Tolerated => {
            out.put_text("/>\n");
            Ok(())
        }
        RowVerdict::Broken => put_broken(out, alloc, names, shown),
        RowVerdict::Limit(line) => {
            put_limit(out, names.script, line);
            Ok(())
        }
    }
}

/// The case of a row. An error means out of memory.
fn put_case<W: Write>(
    out: &mut TextWriter<'_, W>,
    alloc: Global,
    names: FileNames<'_>,
    shown: &ShownRow<'_>,
) -> Result<(), AllocError>
    ensures { PutsAll W.contents out.old out.new result
        (case_text names.entry.script.now names.entry.files.now shown.now.core.now.cluster (row_data shown.now)) }
{
    let name = case_name(alloc, shown.core.cluster(), shown)?;
    out.put_text("<testcase classname=\"");
    put_escaped(out, names.script.as_bytes());
    out.put_text("\" name=\"");
    put_escaped(out, name.as_slice());
    out.put_byte(b'"');
    put_end(out, alloc, names, shown)
}

/// The case of a row; nothing for row 0. An error means out of memory.
pub(crate) fn put_row<W: Write>(
    out: &mut TextWriter<'_, W>,
    alloc: Global,
    names: FileNames<'_>,
    shown: &ShownRow<'_>,
) -> Result<(), AllocError>
    ensures { PutsAll W.contents out.old out.new result
        (row_case names.entry.script.now names.entry.files.now shown.now.core.now.cluster (row_data shown.now)) }
{
    if shown.number == 0 {
        return Ok(());
    }
    put_case(out, alloc, names, shown)
}
