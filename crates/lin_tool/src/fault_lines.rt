//! What the program says of a fault, as lines.

ghost use Rattle.std.specs.Prelude.{◌++◌};
ghost use Rattle.std.specs.Fmt.{decimal};
ghost use Rattle.lin_text.specs.Written.{Grows, WritesText};
ghost use Rattle.lin_tool.specs.Telling.{fault_text, file_text, ldf_line, ldf_text};

use crate::fault::Fault;
use crate::finding_lines::{put_findings, put_place, put_remarks};
use lin_ldf::{LdfFault, Location};
use lin_text::{Text, TextBuffer, TextWriter, WriteFailed};
use std::io::Write;

/// A fault of an LDF text, by its number and name.
fn put_ldf_line<W: Write>(out: &mut TextWriter<'_, W>, place: Location, name: &str)
    ensures { Grows W.contents out.old out.new (ldf_line place name.now) }
{
    out.put_text("ldf ");
    put_place(out, place.line, place.column);
    out.put_text(" fault ");
    out.put_text(name);
    out.put_byte(b'\n');
}

fn put_ldf<W: Write>(out: &mut TextWriter<'_, W>, fault: &LdfFault)
    ensures { Grows W.contents out.old out.new (ldf_text fault.now) }
{
    match fault {
        LdfFault::BadByte(place) => put_ldf_line(out, *place, "1 BadByte"),
        LdfFault::OpenComment(place) => put_ldf_line(out, *place, "2 OpenComment"),
        LdfFault::OpenText(place) => put_ldf_line(out, *place, "3 OpenText"),
        LdfFault::Unexpected(place) => put_ldf_line(out, *place, "4 Unexpected"),
        LdfFault::NumberTooLarge(place) => put_ldf_line(out, *place, "5 NumberTooLarge"),
        LdfFault::SectionTwice(place) => put_ldf_line(out, *place, "6 SectionTwice"),
        LdfFault::NameTwice(place) => put_ldf_line(out, *place, "7 NameTwice"),
        LdfFault::OutOfMemory => out.put_text("ldf out of memory\n"),
    }
}

/// A number between two words.
fn put_numbered<W: Write>(out: &mut TextWriter<'_, W>, before: &str, number: u64, after: &str)
    ensures { Grows W.contents out.old out.new (before.now ++ (decimal number ++ after.now)) }
{
    out.put_text(before);
    out.put_number(number);
    out.put_text(after);
}

/// The name of a file before the number of one of its lines, if there is one.
fn put_file<W: Write>(out: &mut TextWriter<'_, W>, file: &Option<Text>)
    ensures { Grows W.contents out.old out.new (file_text file.now) }
{
    if let Some(name) = file {
        out.put(name.as_slice());
        out.put_text(":");
    }
}

/// The line of a fault, or the lines of findings; nothing of what was told while a bench script was
/// played, or before.
pub(crate) fn put_fault<W: Write>(out: &mut TextWriter<'_, W>, fault: &Fault)
    ensures { Grows W.contents out.old out.new (fault_text fault.now) }
{
    match fault {
        Fault::BadLine { line } => put_numbered(out, "script ", *line, " bad line\n"),
        Fault::Ldf(fault) => put_ldf(out, fault),
        Fault::Findings(findings) => put_findings(out, findings.0.as_slice()),
        Fault::Remarks(remarks) => put_remarks(out, remarks.0.as_slice()),
        Fault::LdfTooLong => out.put_text("ldf too long\n"),
        Fault::ScriptTooLong => out.put_text("script too long\n"),
        Fault::NotHostStep { index } => {
            put_numbered(out, "script step ", *index as u64, " not a host step\n")
        }
        Fault::NoSuchTable => out.put_text("no such table\n"),
        Fault::OutOfMemory => out.put_text("out of memory\n"),
        Fault::ReadFailed => out.put_text("read failed\n"),
        Fault::WriteFailed => out.put_text("write failed\n"),
        Fault::TaskLimit => out.put_text("task limit\n"),
        Fault::NoThread => out.put_text("no thread\n"),
        Fault::LogFull => out.put_text("log full\n"),
        Fault::LogDiffers { line } => put_numbered(out, "log ", *line, " differs\n"),
        Fault::UnusedParameter(name) => {
            out.put_text("set ");
            out.put(name.as_slice());
            out.put_text(": no line uses it\n");
        }
        Fault::SlotLimit { place, file } => {
            out.put_text("script ");
            put_file(out, file);
            put_numbered(out, "", place.line, " slot limit\n");
        }
        Fault::BadBenchLine { .. }
        | Fault::UnreadFile { .. }
        | Fault::LongFile { .. }
        | Fault::BadLines
        | Fault::Differs
        | Fault::Unmet { .. }
        | Fault::BadFaults { .. }
        | Fault::Denied
        | Fault::Several { .. } => {}
    }
}

/// Writes the line of a fault, or a line for each finding; nothing of what was told while a bench
/// script was played. It takes no memory.
///
/// # Errors
/// `WriteFailed`, where what was written is the beginning of the lines. A failed write is tried
/// once.
pub fn write_fault<W: Write>(fault: &Fault, writer: &mut W) -> Result<(), WriteFailed>
    ensures { WritesText (W.contents writer.old) (W.contents writer.new) result
        (fault_text fault.now) }
{
    let mut buffer = TextBuffer::empty();
    let mut lines = TextWriter::new(writer, &mut buffer);
    put_fault(&mut lines, fault);
    lines.finish()
}
