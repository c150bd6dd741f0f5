//! The findings of a description, as lines.

ghost use Rattle.std.specs.Prelude.{◌≡◌, [], flat_map, if◌then◌else◌};
ghost use Rattle.lin_text.specs.Written.{Grows};
ghost use Rattle.lin_log.specs.Words.{line_tail};
ghost use Rattle.lin_tool.specs.Telling.{finding_line, reported_line, remark_line, remark_word, needed_words};
ghost use Rattle.lin_tool.specs.Telling.{place_word};
ghost use Rattle.lin_tool.specs.Levels.{is_reported, reported_remarks};

use crate::levels::Levels;
use lin_cluster::Finding;
use lin_field::Remark;
use lin_text::{Many, TextWriter};
use std::io::Write;

/// All that is wrong with a description.
#[derive(Debug, Drop)]
pub struct Findings(pub Many<Finding>);

/// All that is wrong with a text of the field, among its warnings.
#[derive(Debug, Drop)]
pub struct Remarks(pub Many<Remark>);

/// A line and a column, both from 1.
pub(crate) fn put_place<W: Write>(out: &mut TextWriter<'_, W>, line: u64, column: u64)
    ensures { Grows W.contents out.old out.new (place_word line column) }
{
    out.put_number(line);
    out.put_numbered(b':', column);
}

/// Of a slot that is too short (9) the time in microseconds that it needs, and the line's end.
fn put_needed<W: Write>(out: &mut TextWriter<'_, W>, finding: &Finding)
    ensures { Grows W.contents out.old out.new (line_tail (needed_words finding.now)) }
{
    if finding.number == 9 {
        out.put_byte(b' ');
        out.put_number(finding.needed_us);
        out.put_byte(b'\n');
    } else {
        out.put(b"\n");
    }
}

/// The line of a finding or a warning: its place, its number and its name, and for a slot that is
/// too short the time that it needs.
fn put_reported<W: Write>(out: &mut TextWriter<'_, W>, finding: &Finding, word: &str)
    ensures { Grows W.contents out.old out.new (reported_line word.now finding.now) }
{
    put_place(out, finding.line, finding.column);
    out.put_byte(b' ');
    out.put_text(word);
    out.put_numbered(b' ', u64::from(finding.number));
    out.put_byte(b' ');
    out.put(finding.name().as_bytes());
    put_needed(out, finding);
}

/// A line for each finding.
pub(crate) fn put_findings<W: Write>(out: &mut TextWriter<'_, W>, findings: &[Finding])
    ensures { Grows W.contents out.old out.new (flat_map finding_line findings.now) }
{
    for finding in findings {
        put_reported(out, finding, "finding");
    }
}

/// What a remark is.
pub(crate) fn remark_word(remark: &Remark) -> &'static str
    ensures { result.now ≡ remark_word remark.now }
{
    if remark.is_warning {
        "warning"
    } else {
        "finding"
    }
}

/// A line for each finding and each warning.
pub(crate) fn put_remarks<W: Write>(out: &mut TextWriter<'_, W>, remarks: &[Remark])
    ensures { Grows W.contents out.old out.new (flat_map remark_line remarks.now) }
{
    for remark in remarks {
        put_reported(out, &remark.finding, remark_word(remark));
    }
}

/// The line of a finding or a warning, if it is reported.
fn put_if_reported<W: Write>(out: &mut TextWriter<'_, W>, levels: &Levels, remark: &Remark)
    ensures { Grows W.contents out.old out.new
        (if is_reported levels.now.allowed remark.now then remark_line remark.now else []) }
{
    if levels.is_reported(remark) {
        put_reported(out, &remark.finding, remark_word(remark));
    }
}

/// A line for each finding and each warning that is reported.
pub(crate) fn put_reported_remarks<W: Write>(
    out: &mut TextWriter<'_, W>,
    levels: &Levels,
    remarks: &[Remark],
)
    ensures { Grows W.contents out.old out.new
        (flat_map remark_line (reported_remarks levels.now.allowed remarks.now)) }
{
    for remark in remarks {
        put_if_reported(out, levels, remark);
    }
}
