//! The formats in which the log of a run is written.

ghost use Rattle.std.specs.Prelude.{◌≡◌, IfErr};
ghost use Rattle.lin_export.specs.declared.fault.ExportFault.TheVariants.{WriteFailed};
ghost use Rattle.lin_text.specs.Written.{WritesText};
ghost use Rattle.lin_tool.specs.Formats.{shown_log};
ghost use Rattle.lin_tool.specs.declared.formats.Format.TheVariants.{Log};

use crate::junit::write_junit;
use crate::objects::write_objects;
use crate::page::write_page;
use lin_bench::{Judgement, ScriptFile, TestName};
use lin_core::Core;
use lin_export::{ExportFault, write_csv, write_named, write_pcap, write_vcd};
use lin_log::write_log;
use lin_values::Coded;
use std::alloc::Global;
use std::io::Write;

/// A format in which a log is written.
#[derive(Clone, Copy, Debug, Drop, PartialEq)]
pub enum Format<'a> {
    /// The log's own text, which is a script of the same steps.
    Log,
    /// The log with names.
    Named,
    /// A table of the slots (RFC 4180).
    Csv,
    /// The run, its slots and what became of messages as objects (JSON, RFC 8259), one a line, and failed
    /// checks under this name of the script.
    Jsonl(&'a str),
    /// A capture of the frames (pcap, LINKTYPE_LIN).
    Pcap,
    /// A dump of changes over time (IEEE 1364-2005, section 18).
    Vcd,
    /// A picture of the run (HTML), one file, under this name of the LDF.
    Html(&'a [u8]),
    /// A report of the judgements of a play, for what reads those of tests (JUnit's, in XML 1.0),
    /// under this name of the script.
    Junit(&'a str),
}

/// How the log of a run is shown, and what is shown beside it.
#[derive(Clone, Copy)]
pub struct Shown<'a, 's> {
    pub format: Format<'a>,
    /// What signals mean, which the log with names, tables, objects, dumps and pictures tell, too.
    pub coded: Option<&'a Coded>,
    /// The number of the schedule table with which the run opened, which objects tell.
    pub table: u16,
    /// How many messages of a host there was room for, which objects tell.
    pub capacity: usize,
    /// The judgements of a play, which objects, a picture and a report have.
    pub judgements: &'a [Judgement],
    /// The tests of a play, which objects and a report have.
    pub tests: &'a [TestName],
    /// The name of the play's script, where a picture tells judgements by their places in it.
    pub script: Option<&'s str>,
    /// The files that the play's script includes.
    pub files: &'a [ScriptFile],
}

/// Writes the log of a core as it is to be shown. A log's own text takes no memory, and the other
/// formats take little.
///
/// # Errors
/// `OutOfMemory`, which a log's own text hasn't, and `WriteFailed`. What was written then is the
/// beginning of the whole.
pub fn write_shown<W: Write>(
    alloc: Global,
    shown: &Shown<'_, '_>,
    core: &Core,
    writer: &mut W,
) -> Result<(), ExportFault>
    ensures text { WritesText (W.contents writer.old) (W.contents writer.new) result
        (shown_log shown.now core.now) }
    ensures memory { shown.now.format ≡ Log → IfErr result (λ fault. fault ≡ WriteFailed) }
{
    let cluster = core.cluster();
    let log = core.log();
    let coded = shown.coded;
    match shown.format {
        Format::Log => match write_log(log, writer) {
            Ok(()) => Ok(()),
            Err(_) => Err(ExportFault::WriteFailed),
        },
        Format::Named => write_named(alloc, cluster, coded, log, writer),
        Format::Csv => write_csv(alloc, cluster, coded, log, writer),
        Format::Jsonl(script) => write_objects(alloc, shown, script, core, writer),
        Format::Pcap => write_pcap(alloc, cluster, log, writer),
        Format::Vcd => write_vcd(alloc, cluster, coded, log, writer),
        Format::Html(file) => write_page(alloc, shown, file, core, writer),
        Format::Junit(script) => write_junit(alloc, shown, script, core, writer),
    }
}
