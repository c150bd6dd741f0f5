//! The judgements of a play as a report for what reads those of tests (JUnit's, in XML 1.0).

ghost use Rattle.std.specs.Prelude.{◌≡◌, ◌<◌, ◌+◌, ◌^◌, ◌∷◌, ◌++◌, [], flat_map, length, IfOk, List, OnOk, Some, ℕ};
ghost use Rattle.std.specs.List.{count_by};
ghost use Rattle.std.specs.Str.{is_utf8};
ghost use Rattle.lin_parts.specs.declared.parts.Parts.{Parts};
ghost use Rattle.lin_core.specs.declared.log.LogEntry.{LogEntry};
ghost use Rattle.lin_bench.specs.Tests.{test_text};
ghost use Rattle.lin_bench.specs.declared.files.ScriptFile.{ScriptFile};
ghost use Rattle.lin_bench.specs.declared.got.Judgement.{Judgement};
ghost use Rattle.lin_log.specs.Words.{spaced_word};
ghost use Rattle.lin_export.specs.Putting.{PutsAll};
ghost use Rattle.lin_text.specs.Written.{Grows, WritesText};
ghost use Rattle.lin_tool.specs.Junit.{case_end, case_mark, case_name, case_place, case_text, error_suite, has_failed, report_of};
ghost use Rattle.lin_tool.specs.Junit.{is_failed_untested, is_untested, shown_junit, shown_suite, suite_head, test_case};
ghost use Rattle.lin_tool.specs.Junit.{test_case_text, test_case_texts, test_cases, test_end, untested_text};
ghost use Rattle.lin_tool.specs.Junit.{without_last_end, xml_byte, xml_lines, xml_text, xml_texts};
ghost use Rattle.lin_tool.specs.Placing.{AtMoment};

use crate::formats::Shown;
use crate::placing::{FileNames, Moment, missed_line, within};
use lin_bench::{Judgement, LinePlace, ScriptFile, TestName, file_name, is_unmet, put_test_name};
use lin_core::{Core, Log};
use lin_export::ExportFault;
use lin_live::{found_text, what_text, without_space};
use lin_log::first_line;
use lin_parts::Cluster;
use lin_text::{Many, Text, TextBuffer, TextWriter, WriteFailed};
use std::alloc::{AllocError, Global};
use std::io::Write;

/// What is written before the suites.
const HEAD: &str = "<?xml version=\"1.0\" encoding=\"UTF-8\"?>\n<testsuites>\n";

/// What is written after the cases of a suite.
const SUITE_TAIL: &str = "</testsuite>\n";

/// What is written after the suites.
const TAIL: &str = "</testsuites>\n";

fn is_utf8(text: &[u8]) -> bool
    ensures { result ≡ is_utf8 text.now }
{
    std::str::from_utf8(text).is_ok()
}

/// A byte as it stands in XML: `?` for one that isn't printable, and for one above 7F but in UTF-8.
fn put_escaped_byte<W: Write>(out: &mut TextWriter<'_, W>, byte: u8, is_text: bool)
    ensures { Grows W.contents out.old out.new (xml_byte is_text byte) }
{
    if byte == b'&' {
        out.put_text("&amp;");
    } else if byte == b'<' {
        out.put_text("&lt;");
    } else if byte == b'>' {
        out.put_text("&gt;");
    } else if byte == b'"' {
        out.put_text("&quot;");
    } else if 32 <= byte && byte <= 126 || is_text && 128 <= byte {
        out.put_byte(byte);
    } else {
        out.put_byte(b'?');
    }
}

pub(crate) fn put_escaped<W: Write>(out: &mut TextWriter<'_, W>, text: &[u8])
    ensures { Grows W.contents out.old out.new (xml_text text.now) }
{
    let is_text = is_utf8(text);
    for byte in text {
        put_escaped_byte(out, *byte, is_text);
    }
}

/// What stands before a line's number: `line `, or `FILE:` in a file that the script includes.
fn put_case_mark<W: Write>(out: &mut TextWriter<'_, W>, files: &[ScriptFile], number: usize)
    ensures { Grows W.contents out.old out.new (case_mark files.now number) }
{
    if number == 0 {
        out.put_text("line ");
    } else {
        put_escaped(out, file_name(b"", files, number));
        out.put_text(":");
    }
}

/// The place of a line: `line LINE`, or `FILE:LINE` in a file that the script includes.
fn put_case_place<W: Write>(out: &mut TextWriter<'_, W>, files: &[ScriptFile], place: LinePlace)
    ensures { Grows W.contents out.old out.new (case_place files.now place) }
{
    put_case_mark(out, files, place.file);
    out.put_number(place.line);
}

/// What was judged of a line, under the script's name.
fn put_name<W: Write>(
    out: &mut TextWriter<'_, W>,
    names: FileNames<'_>,
    place: LinePlace,
    what: &[u8],
)
    ensures { (text : List ℕ) → what.now ≡ spaced_word text
        → Grows W.contents out.old out.new
        (case_name names.entry.script.now names.entry.files.now place text) }
{
    out.put_text("<testcase classname=\"");
    put_escaped(out, names.script.as_bytes());
    out.put_text("\" name=\"");
    put_case_place(out, names.files, place);
    out.put_text(":");
    put_escaped(out, what);
    out.put_text("\"");
}

/// What is so in its place, and what is said of that.
fn put_failure<W: Write>(out: &mut TextWriter<'_, W>, found: &[u8], missed: &[u8])
    ensures { (text : List ℕ) → found.now ≡ spaced_word text
        → Grows W.contents out.old out.new (case_end missed.now (Some text)) }
{
    out.put_text(">\n<failure message=\"");
    put_escaped(out, without_space(found));
    out.put_text("\">");
    put_escaped(out, missed);
    out.put_text("</failure>\n</testcase>\n");
}

/// The case of a judgement at this moment of a log. An error means out of memory; nothing was put
/// then.
fn put_case<W: Write>(
    out: &mut TextWriter<'_, W>,
    alloc: Global,
    names: FileNames<'_>,
    cluster: &Cluster,
    moment: Moment,
    judgement: &Judgement,
) -> Result<(), AllocError>
    ensures { AtMoment cluster.now judgement.now moment (λ log.
        PutsAll W.contents out.old out.new result
        (case_text names.entry.script.now names.entry.files.now cluster.now log judgement.now)) }
{
    let judged = &judgement.judged;
    let what = what_text(alloc, cluster, judged)?;
    if is_unmet(judged) {
        let found = found_text(alloc, cluster, judged)?;
        let missed = missed_line(
            alloc,
            Some(names.script),
            names.files,
            cluster,
            moment,
            judgement,
        )?;
        put_name(out, names, judgement.place, what.as_slice());
        put_failure(out, found.as_slice(), missed.as_slice());
    } else {
        put_name(out, names, judgement.place, what.as_slice());
        out.put_text("/>\n");
    }
    Ok(())
}

/// The case of a test: how many checks it has, and what is said of each that failed.
#[derive(Drop)]
struct TestCase {
    checks: usize,
    missed: Many<Text>,
}

impl TestCase {
    /// A case without checks.
    fn new(alloc: Global) -> TestCase
        ensures { (file : List ℕ) (fs : List ScriptFile) (c : Parts) (log : List LogEntry)
            → result ≡ test_case file fs c log [] }
    {
        TestCase {
            checks: 0,
            missed: Many::new(Vec::new(alloc)),
        }
    }

    /// Adds a check, which was made at this moment of a log. An error means out of memory.
    fn add(
        &mut self,
        alloc: Global,
        names: FileNames<'_>,
        cluster: &Cluster,
        moment: Moment,
        judgement: &Judgement,
    ) -> Result<(), AllocError>
        ensures { AtMoment cluster.now judgement.now moment (λ log. (js : List Judgement)
            → length js + 1 < 2 ^ 63
            → self.old ≡ test_case names.entry.script.now names.entry.files.now cluster.now log js → OnOk result
            (self.new ≡ test_case names.entry.script.now names.entry.files.now cluster.now log
            (js ++ judgement.now ∷ []))) }
    {
        self.checks = self.checks.saturating_add(1);
        if !is_unmet(&judgement.judged) {
            return Ok(());
        }
        let missed = missed_line(
            alloc,
            Some(names.script),
            names.files,
            cluster,
            moment,
            judgement,
        )?;
        self.missed.push(Text::copied(alloc, missed.as_slice())?)
    }
}

/// Cases without checks, so many. An error means out of memory.
fn no_checks(alloc: Global, tests: usize) -> Result<Vec<TestCase>, AllocError>
    ensures { (file : List ℕ) (fs : List ScriptFile) (c : Parts) (log : List LogEntry) → IfOk result
        (λ v. v.items ≡ test_cases file fs c log 1 tests []) }
{
    let mut cases = Vec::with_capacity(alloc, tests)?;
    for _ in 0..tests {
        cases.push(TestCase::new(alloc))?;
    }
    Ok(cases)
}

/// Adds a check, which was made at this moment of a log, to the case of its test, if it is in one. An error
/// means out of memory.
fn add_check(
    cases: &mut [TestCase],
    alloc: Global,
    names: FileNames<'_>,
    cluster: &Cluster,
    moment: Moment,
    judgement: &Judgement,
) -> Result<(), AllocError>
    ensures { AtMoment cluster.now judgement.now moment (λ log. (tests : ℕ) (js : List Judgement)
        → length js + 1 < 2 ^ 63
        → cases.old ≡ test_cases names.entry.script.now names.entry.files.now cluster.now log 1 tests js
        → OnOk result
        (cases.new ≡ test_cases names.entry.script.now names.entry.files.now cluster.now log 1 tests
        (js ++ judgement.now ∷ []))) }
{
    let test = judgement.place.test;
    if test == 0 {
        return Ok(());
    }
    if cases.len() < test {
        return Ok(());
    }
    cases[test - 1].add(alloc, names, cluster, moment, judgement)
}

/// The cases of so many tests. An error means out of memory.
fn test_cases(
    alloc: Global,
    names: FileNames<'_>,
    cluster: &Cluster,
    log: &Log,
    judgements: &[Judgement],
    tests: usize,
) -> Result<Vec<TestCase>, AllocError>
    ensures { IfOk result
        (λ v. v.items ≡ test_cases names.entry.script.now names.entry.files.now cluster.now
        log.now.entries 1 tests judgements.now) }
{
    let mut cases = no_checks(alloc, tests)?;
    let mut read = 0;
    let mut moment = Moment::new();
    for one in judgements {
        let entries = within(log, one.entries);
        moment = moment.at(cluster, log, read, entries);
        read = entries;
        add_check(cases.as_mut_slice(), alloc, names, cluster, moment, one)?;
    }
    Ok(cases)
}

/// The case of a check that is in no test, made at this moment of a log; nothing of another one. An error
/// means out of memory; nothing was put then.
fn put_untested<W: Write>(
    out: &mut TextWriter<'_, W>,
    alloc: Global,
    names: FileNames<'_>,
    cluster: &Cluster,
    moment: Moment,
    judgement: &Judgement,
) -> Result<(), AllocError>
    ensures { AtMoment cluster.now judgement.now moment (λ log.
        PutsAll W.contents out.old out.new result
        (untested_text names.entry.script.now names.entry.files.now cluster.now log judgement.now)) }
{
    if judgement.place.test == 0 {
        put_case(out, alloc, names, cluster, moment, judgement)
    } else {
        Ok(())
    }
}

/// The cases of the checks that are in no test.
fn put_untested_cases<W: Write>(
    out: &mut TextWriter<'_, W>,
    alloc: Global,
    names: FileNames<'_>,
    cluster: &Cluster,
    log: &Log,
    judgements: &[Judgement],
) -> Result<(), AllocError>
    ensures { PutsAll W.contents out.old out.new result
        (flat_map (untested_text names.entry.script.now names.entry.files.now cluster.now log.now.entries)
        judgements.now) }
{
    let mut read = 0;
    let mut moment = Moment::new();
    for one in judgements {
        let entries = within(log, one.entries);
        moment = moment.at(cluster, log, read, entries);
        read = entries;
        put_untested(out, alloc, names, cluster, moment, one)?;
    }
    Ok(())
}

/// Texts as they stand in XML, with a line feed between two.
fn put_texts<W: Write>(out: &mut TextWriter<'_, W>, texts: &[Text])
    ensures { Grows W.contents out.old out.new (xml_texts texts.now) }
{
    let mut mark: &[u8] = b"";
    for text in texts {
        out.put(mark);
        put_escaped(out, text.as_slice());
        mark = b"\n";
    }
}

/// The failure of a test, if one of its checks failed.
fn put_test_end<W: Write>(out: &mut TextWriter<'_, W>, case: &TestCase)
    ensures { Grows W.contents out.old out.new (test_end case.now) }
{
    let missed = case.missed.as_slice();
    if missed.is_empty() {
        out.put_text("/>\n");
        return;
    }
    out.put_text(">\n<failure message=\"");
    out.put_number(missed.len());
    out.put_text(" of ");
    out.put_number(case.checks);
    out.put_text(" not met\">");
    put_texts(out, missed);
    out.put_text("</failure>\n</testcase>\n");
}

/// The name of a test. An error means out of memory.
pub(crate) fn shown_name(alloc: Global, test: &TestName) -> Result<Vec<u8>, AllocError>
    ensures { IfOk result (λ v. v.items ≡ test_text test.now) }
{
    let mut text = Vec::new(alloc);
    let mut buffer = TextBuffer::empty();
    let mut out = TextWriter::new(&mut text, &mut buffer);
    put_test_name(&mut out, test);
    match out.finish() {
        Ok(()) => Ok(text),
        Err(_) => Err(AllocError),
    }
}

/// The case of a test, under the script's name. An error means out of memory; nothing was put then.
fn put_test<W: Write>(
    out: &mut TextWriter<'_, W>,
    alloc: Global,
    file: &str,
    test: &TestName,
    case: &TestCase,
) -> Result<(), AllocError>
    ensures { PutsAll W.contents out.old out.new result (test_case_text file.now test.now case.now) }
{
    let name = shown_name(alloc, test)?;
    out.put_text("<testcase classname=\"");
    put_escaped(out, file.as_bytes());
    out.put_text("\" name=\"");
    put_escaped(out, name.as_slice());
    out.put_text("\"");
    put_test_end(out, case);
    Ok(())
}

/// The cases of tests.
fn put_tests<W: Write>(
    out: &mut TextWriter<'_, W>,
    alloc: Global,
    file: &str,
    tests: &[TestName],
    cases: &[TestCase],
) -> Result<(), AllocError>
    requires { length cases.now ≡ length tests.now }
    ensures { PutsAll W.contents out.old out.new result
        (test_case_texts file.now tests.now cases.now) }
{
    for i in 0..tests.len() {
        put_test(out, alloc, file, &tests[i], &cases[i])?;
    }
    Ok(())
}

/// How many of these tests failed.
fn failed_tests(cases: &[TestCase]) -> usize
    ensures { result ≡ count_by has_failed cases.now }
{
    let mut count = 0;
    for case in cases {
        if !case.missed.as_slice().is_empty() {
            count += 1;
        }
    }
    count
}

/// How many checks are in no test.
fn untested(judgements: &[Judgement]) -> usize
    ensures { result ≡ count_by is_untested judgements.now }
{
    let mut count = 0;
    for one in judgements {
        if one.place.test == 0 {
            count += 1;
        }
    }
    count
}

/// How many of those failed.
fn failed_untested(judgements: &[Judgement]) -> usize
    ensures { result ≡ count_by is_failed_untested judgements.now }
{
    let mut count = 0;
    for one in judgements {
        if one.place.test == 0 && is_unmet(&one.judged) {
            count += 1;
        }
    }
    count
}

/// The start of a suite of the script's name with so many cases, of which so many failed, and so many
/// have an error.
fn put_suite_head<W: Write>(
    out: &mut TextWriter<'_, W>,
    file: &str,
    cases: u64,
    failed: u64,
    errors: u64,
)
    ensures { Grows W.contents out.old out.new (suite_head file.now cases failed errors) }
{
    out.put_text("<testsuite name=\"");
    put_escaped(out, file.as_bytes());
    out.put_text("\" tests=\"");
    out.put_number(cases);
    out.put_text("\" failures=\"");
    out.put_number(failed);
    out.put_text("\" errors=\"");
    out.put_number(errors);
    out.put_text("\" skipped=\"0\">\n");
}

/// The start of the suite of a play with these checks and these tests.
fn put_play_head<W: Write>(
    out: &mut TextWriter<'_, W>,
    file: &str,
    judgements: &[Judgement],
    cases: &[TestCase],
)
    ensures { Grows W.contents out.old out.new (suite_head file.now
        (count_by is_untested judgements.now + length cases.now)
        (count_by is_failed_untested judgements.now + count_by has_failed cases.now) 0) }
{
    let count = untested(judgements) + cases.len();
    let failed = failed_untested(judgements) + failed_tests(cases);
    put_suite_head(out, file, count as u64, failed as u64, 0);
}

/// The suite of a play: first a case for each check that is in no test, and then one for each test. An
/// error means out of memory.
fn put_suite<W: Write>(
    out: &mut TextWriter<'_, W>,
    alloc: Global,
    shown: &Shown<'_, '_>,
    script: &str,
    core: &Core,
) -> Result<(), AllocError>
    ensures { PutsAll W.contents out.old out.new result (shown_suite shown.now script.now core.now) }
{
    let cluster = core.cluster();
    let log = core.log();
    let judgements = shown.judgements;
    let tests = shown.tests;
    let names = FileNames {
        script,
        files: shown.files,
    };
    let cases = test_cases(alloc, names, cluster, log, judgements, tests.len())?;
    put_play_head(out, script, judgements, cases.as_slice());
    put_untested_cases(out, alloc, names, cluster, log, judgements)?;
    put_tests(out, alloc, script, tests, cases.as_slice())?;
    out.put_text(SUITE_TAIL);
    Ok(())
}

/// The report with the suite of a play. An error means out of memory.
fn put_report<W: Write>(
    out: &mut TextWriter<'_, W>,
    alloc: Global,
    shown: &Shown<'_, '_>,
    script: &str,
    core: &Core,
) -> Result<(), AllocError>
    ensures { PutsAll W.contents out.old out.new result (shown_junit shown.now script.now core.now) }
{
    out.put_text(HEAD);
    put_suite(out, alloc, shown, script, core)?;
    out.put_text(TAIL);
    Ok(())
}

/// Writes the suite of a play, under the name of the script.
///
/// # Errors
/// `OutOfMemory` and `WriteFailed`, where what was written is the beginning of the suite.
pub(crate) fn write_suite<W: Write>(
    alloc: Global,
    shown: &Shown<'_, '_>,
    script: &str,
    core: &Core,
    writer: &mut W,
) -> Result<(), ExportFault>
    ensures { WritesText (W.contents writer.old) (W.contents writer.new) result
        (shown_suite shown.now script.now core.now) }
{
    let mut buffer = TextBuffer::empty();
    let mut out = TextWriter::new(writer, &mut buffer);
    let put = put_suite(&mut out, alloc, shown, script, core);
    out.finish()?;
    put?;
    Ok(())
}

/// Writes the judgements of a play as a report for what reads those of tests, under the name of the script:
/// a case for each that is in no test, in order, and then a case for each test. Bytes that aren't 20 to 7E
/// are `?`, except those above in UTF-8.
///
/// # Errors
/// `OutOfMemory` and `WriteFailed`, where what was written is the beginning of the report.
pub(crate) fn write_junit<W: Write>(
    alloc: Global,
    shown: &Shown<'_, '_>,
    script: &str,
    core: &Core,
    writer: &mut W,
) -> Result<(), ExportFault>
    ensures { WritesText (W.contents writer.old) (W.contents writer.new) result
        (shown_junit shown.now script.now core.now) }
{
    let mut buffer = TextBuffer::empty();
    let mut out = TextWriter::new(writer, &mut buffer);
    let put = put_report(&mut out, alloc, shown, script, core);
    out.finish()?;
    put?;
    Ok(())
}

/// Lines as they stand in XML, with a line feed between two, of lines that each have one at their end.
fn put_escaped_lines<W: Write>(out: &mut TextWriter<'_, W>, lines: &[u8])
    ensures { Grows W.contents out.old out.new (xml_lines lines.now) }
{
    let mut left = Some(without_last_end(lines));
    let mut mark: &[u8] = b"";
    while let Some(text) = left {
        let (line, rest) = first_line(text);
        out.put(mark);
        put_escaped(out, line);
        mark = b"\n";
        left = rest;
    }
}

/// Lines without the line feed at their end.
fn without_last_end(lines: &[u8]) -> &[u8]
    ensures { result.now ≡ without_last_end lines.now }
{
    match lines {
        [text @ .., b'\n'] => text,
        text => text,
    }
}

/// The suite of a script that wasn't played: one case with an error, by the lines about it.
fn put_error<W: Write>(out: &mut TextWriter<'_, W>, file: &str, lines: &[u8])
    ensures { Grows W.contents out.old out.new (error_suite file.now lines.now) }
{
    put_suite_head(out, file, 1, 0, 1);
    out.put_text("<testcase classname=\"");
    put_escaped(out, file.as_bytes());
    out.put_text("\" name=\"script\">\n<error message=\"");
    let (first, _) = first_line(lines);
    put_escaped(out, first);
    out.put_text("\">");
    put_escaped_lines(out, lines);
    out.put_text("</error>\n</testcase>\n");
    out.put_text(SUITE_TAIL);
}

/// Writes the suite of a script that wasn't played, under its name: one case with an error, whose message is
/// the first of the lines about it.
///
/// # Errors
/// `WriteFailed`, where what was written is the beginning of the suite.
pub(crate) fn write_error_suite<W: Write>(
    file: &str,
    lines: &[u8],
    writer: &mut W,
) -> Result<(), WriteFailed>
    ensures { WritesText (W.contents writer.old) (W.contents writer.new) result
        (error_suite file.now lines.now) }
{
    let mut buffer = TextBuffer::empty();
    let mut out = TextWriter::new(writer, &mut buffer);
    put_error(&mut out, file, lines);
    out.finish()
}

/// Writes the report with these suites.
///
/// # Errors
/// `WriteFailed`, where what was written is the beginning of the report.
pub(crate) fn write_report<W: Write>(suites: &[u8], writer: &mut W) -> Result<(), WriteFailed>
    ensures { WritesText (W.contents writer.old) (W.contents writer.new) result (report_of suites.now) }
{
    let mut buffer = TextBuffer::empty();
    let mut out = TextWriter::new(writer, &mut buffer);
    out.put_text(HEAD);
    out.put(suites);
    out.put_text(TAIL);
    out.finish()
}
