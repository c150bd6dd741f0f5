//! What is said on standard error of how a subcommand ended: the lines of its fault, with
//! `--where` in the form of compilers, and with `--explain` more below them.

ghost use Rattle.std.specs.Prelude.{◌≡◌, flat_map};
ghost use Rattle.lin_text.specs.Written.{WritesText};
ghost use Rattle.lin_tool.specs.Levels.{level_status, reported_remarks};
ghost use Rattle.lin_tool.specs.Telling.{remark_line};

use crate::describing::Reading;
use crate::explaining::{
    MOST, put_accepted_field, put_bad_line, put_refusals, put_refused_field, put_remarks,
    put_tables, put_text,
};
use crate::fault::{Fault, exit_status};
use crate::fault_lines::{put_fault, write_fault};
use crate::fault_text::FaultReason;
use crate::field::is_read_otherwise;
use crate::finding_lines::put_reported_remarks;
use crate::formats::Shown;
use crate::junit::{write_error_suite, write_suite};
use crate::levels::Levels;
use crate::locating::{problems_of_fault, problems_of_remarks, put_places};
use crate::misspelled::count_if_similar;
use crate::nearest::{put_bad_bench_line, put_fault_form};
use crate::placing::{FileNames, write_bad_lines};
use lin_bench::{LinePlace, Reason, Source};
use lin_core::{Core, Log};
use lin_field::Remark;
use lin_ldf::UnknownWords;
use lin_parts::Cluster;
use lin_text::{Many, Text, TextBuffer, TextWriter, WriteFailed, write_out};
use std::alloc::{AllocError, Global};
use std::io::Write;

/// What is wanted on standard error beside the lines of a fault.
#[derive(Clone, Copy, Debug, Default, Drop)]
pub struct Wanted<'a> {
    /// Lines that explain.
    pub explained: bool,
    /// Places in the form of compilers, after the name of this LDF file.
    pub file: Option<&'a str>,
    /// Places of a bench script, after the name of this file.
    pub script: Option<&'a str>,
    /// A report of the play of a bench script, under the name of this file.
    pub report: Option<&'a str>,
    /// Whether the report has plays beside the one whose output it is.
    pub is_report_kept: bool,
}

/// What was met that is said on standard error. Where memory for what explains runs out, the rest
/// is left out, and a last line says so.
#[derive(Drop)]
pub struct Notes<'a> {
    pub wanted: Wanted<'a>,
    /// The warnings of an LDF text that is accepted, also those that aren't reported.
    pub warnings: Many<Remark>,
    /// Which warnings are reported, and which of these are denied.
    pub levels: Levels,
    is_script_read: bool,
    is_old: bool,
    are_warnings_told: bool,
    unknown: usize,
    places: Vec<u8>,
    /// The lines about the bad lines of a bench script, for a report.
    bad_lines: Vec<u8>,
    /// The suites of a report.
    suites: Vec<u8>,
    text: String,
    is_cut: bool,
}

/// Puts the line of a fault that is of a whole file, after its name.
fn put_named<W: Write>(lines: &mut TextWriter<'_, W>, file: &str, fault: &Fault) {
    lines.put_text(file);
    lines.put_text(": ");
    put_fault(lines, fault);
}

/// Puts that a line of a script makes more slots than a play may have. If the line is in a file that the script
/// includes, that file is given.
fn put_limit<W: Write>(
    lines: &mut TextWriter<'_, W>,
    script: &str,
    file: &Option<Text>,
    place: LinePlace,
) {
    match file {
        Some(name) => lines.put(name.as_slice()),
        None => lines.put_text(script),
    }
    lines.put_numbered(b':', place.line);
    lines.put_text(": slot limit\n");
}

impl<'a> Notes<'a> {
    /// Nothing was met yet, each warning is reported, and none is denied.
    pub fn new(alloc: Global, wanted: Wanted<'a>) -> Notes<'a> {
        Notes {
            wanted,
            warnings: Many::new(Vec::new(alloc)),
            levels: Levels::new(alloc),
            is_script_read: false,
            is_old: false,
            are_warnings_told: false,
            unknown: 0,
            places: Vec::new(alloc),
            bad_lines: Vec::new(alloc),
            suites: Vec::new(alloc),
            text: String::new(alloc),
            is_cut: false,
        }
    }

    /// What is at fault from now on is the bench script.
    pub(crate) fn begin_script(&mut self) {
        self.is_script_read = true;
    }

    /// The name of the file that is read, where places are wanted.
    fn named(&self) -> Option<&'a str> {
        if self.is_script_read {
            self.wanted.script
        } else {
            self.wanted.file
        }
    }

    /// Whether lines that explain are wanted.
    pub(crate) fn is_explained(&self) -> bool {
        self.wanted.explained
    }

    /// Whether they are, and memory for them hasn't run out yet.
    fn is_more_explained(&self) -> bool {
        self.wanted.explained && !self.is_cut
    }

    /// Writes the lines of a fault, if there is one, and those that explain.
    ///
    /// # Errors
    /// `WriteFailed`, where what was written is the beginning of the lines. A failed write is tried
    /// once.
    pub fn write<W: Write>(
        &self,
        fault: Option<&Fault>,
        writer: &mut W,
    ) -> Result<(), WriteFailed> {
        if !self.are_warnings_told {
            self.write_about(writer)?;
            self.write_warnings(writer)?;
        }
        if let Some(fault) = fault {
            self.write_lines(fault, writer)?;
        }
        write_out(writer, self.text.as_bytes())?;
        if self.is_cut {
            write_out(writer, b"\n  (out of memory: explanation truncated)\n")?;
        }
        Ok(())
    }

    /// Writes the warnings of an LDF text that is accepted before what else is said.
    pub(crate) fn tell_warnings<W: Write>(&mut self, writer: &mut W) {
        let _ = self.write_about(writer);
        let _ = self.write_warnings(writer);
        self.are_warnings_told = true;
    }

    /// Writes the lines about a whole LDF text: that one of LIN 1.x was read as one of LIN 2.x, and how
    /// many of its sections and attributes LIN doesn't have.
    fn write_about<W: Write>(&self, writer: &mut W) -> Result<(), WriteFailed> {
        if !self.is_old && self.unknown == 0 {
            return Ok(());
        }
        let mut buffer = TextBuffer::empty();
        let mut lines = TextWriter::new(writer, &mut buffer);
        if self.is_old {
            self.put_file(&mut lines);
            lines.put_text("ldf of LIN 1.x read as LIN 2.x; use --field\n");
        }
        if self.unknown > 0 {
            self.put_file(&mut lines);
            lines.put_text("ldf with unknown sections or attributes: ");
            lines.put_number(self.unknown as u64);
            lines.put_text(" ignored; check --lint lists them\n");
        }
        lines.finish()
    }

    /// Puts the name of the LDF's file before a line about the whole LDF, if places are wanted.
    fn put_file<W: Write>(&self, lines: &mut TextWriter<'_, W>) {
        if let Some(file) = self.wanted.file {
            lines.put_text(file);
            lines.put_text(": ");
        }
    }

    /// Writes the warnings of an LDF text that is accepted, if they are reported.
    fn write_warnings<W: Write>(&self, writer: &mut W) -> Result<(), WriteFailed>
        ensures { self.now.wanted.file ≡ None
            → WritesText (W.contents writer.old) (W.contents writer.new) result
            (flat_map remark_line (reported_remarks self.now.levels.allowed self.now.warnings)) }
    {
        let warnings = self.warnings.as_slice();
        if !warnings.is_empty() && self.wanted.file.is_some() {
            return write_out(writer, self.places.as_slice());
        }
        self.write_remarks(warnings, writer)
    }

    /// Writes the lines of findings and warnings that are reported.
    fn write_remarks<W: Write>(&self, remarks: &[Remark], writer: &mut W) -> Result<(), WriteFailed>
        ensures { WritesText (W.contents writer.old) (W.contents writer.new) result
            (flat_map remark_line (reported_remarks self.now.levels.allowed remarks.now)) }
    {
        let mut buffer = TextBuffer::empty();
        let mut lines = TextWriter::new(writer, &mut buffer);
        put_reported_remarks(&mut lines, &self.levels, remarks);
        lines.finish()
    }

    /// The exit status of the program: that of `exit_status`, but 6 if it did all that was asked for
    /// and a warning that is reported is denied.
    pub fn status(&self, done: &Result<(), Fault>) -> u8
        ensures { result ≡ level_status self.now.levels self.now.warnings done.now }
    {
        if done.is_ok() && self.levels.is_any_denied(self.warnings.as_slice()) {
            6
        } else {
            exit_status(done)
        }
    }

    fn write_lines<W: Write>(&self, fault: &Fault, writer: &mut W) -> Result<(), WriteFailed> {
        match (self.named(), fault) {
            (Some(_), Fault::Ldf(_) | Fault::Findings(_) | Fault::Remarks(_)) => {
                write_out(writer, self.places.as_slice())
            }
            (Some(file), Fault::LdfTooLong | Fault::ScriptTooLong | Fault::ReadFailed) => {
                let mut buffer = TextBuffer::empty();
                let mut lines = TextWriter::new(writer, &mut buffer);
                put_named(&mut lines, file, fault);
                lines.finish()
            }
            (Some(script), Fault::SlotLimit { place, file }) => {
                let mut buffer = TextBuffer::empty();
                let mut lines = TextWriter::new(writer, &mut buffer);
                put_limit(&mut lines, script, file, *place);
                lines.finish()
            }
            (None, Fault::Remarks(remarks)) => self.write_remarks(remarks.0.as_slice(), writer),
            _ => write_fault(fault, writer),
        }
    }

    /// Keeps the lines about the bad lines of a bench script of this name, for a report.
    ///
    /// # Errors
    /// Out of memory.
    pub(crate) fn add_bad_lines(
        &mut self,
        names: FileNames<'_>,
        bad: &[(LinePlace, Reason)],
    ) -> Result<(), AllocError>
        ensures { self.new.warnings ≡ self.old.warnings }
    {
        match write_bad_lines(names, bad, &mut self.bad_lines) {
            Ok(()) => Ok(()),
            Err(_) => Err(AllocError),
        }
    }

    /// Writes the lines about a bench script of this name that wasn't played because of a fault: those of
    /// `--where`, or of a fault of the LDF, the schedule table or the option `--fault` what it is of.
    ///
    /// # Errors
    /// `WriteFailed`, where what was written is the beginning of the lines.
    pub(crate) fn write_unplayed<W: Write>(
        &self,
        file: &str,
        fault: &Fault,
        writer: &mut W,
    ) -> Result<(), WriteFailed> {
        let mut buffer = TextBuffer::empty();
        let mut lines = TextWriter::new(writer, &mut buffer);
        match fault {
            Fault::Ldf(_) | Fault::Findings(_) | Fault::Remarks(_) | Fault::LdfTooLong => {
                lines.put_text("bad LDF\n");
            }
            Fault::BadFaults { .. } => lines.put_text("bad fault\n"),
            Fault::BadBenchLine { .. } | Fault::UnreadFile { .. } | Fault::LongFile { .. } => {
                lines.put(self.bad_lines.as_slice());
            }
            Fault::SlotLimit {
                place,
                file: included,
            } => put_limit(&mut lines, file, included, *place),
            Fault::ScriptTooLong | Fault::ReadFailed if self.is_script_read => {
                put_named(&mut lines, file, fault);
            }
            _ => put_fault(&mut lines, fault),
        }
        lines.finish()
    }

    /// Adds the suite of a play to the report, if that is kept.
    ///
    /// # Errors
    /// Out of memory.
    pub(crate) fn add_suite(
        &mut self,
        alloc: Global,
        shown: &Shown<'_, '_>,
        core: &Core,
    ) -> Result<(), AllocError> {
        let Some(script) = self.wanted.report else {
            return Ok(());
        };
        if !self.wanted.is_report_kept {
            return Ok(());
        }
        match write_suite(alloc, shown, script, core, &mut self.suites) {
            Ok(()) => Ok(()),
            Err(_) => Err(AllocError),
        }
    }

    /// Adds the suite of a script to the report, if it wasn't played and there is one.
    ///
    /// # Errors
    /// Out of memory.
    pub(crate) fn add_unplayed(
        &mut self,
        alloc: Global,
        answer: &Result<(), Fault>,
    ) -> Result<(), AllocError> {
        if let (Some(file), Err(fault)) = (self.wanted.report, answer)
            && fault.is_unplayed()
        {
            let mut lines = Vec::new(alloc);
            if self.write_unplayed(file, fault, &mut lines).is_err() {
                return Err(AllocError);
            }
            if write_error_suite(file, lines.as_slice(), &mut self.suites).is_err() {
                return Err(AllocError);
            }
        }
        Ok(())
    }

    /// Returns the suites of the report.
    pub(crate) fn suites(&self) -> &[u8] {
        self.suites.as_slice()
    }

    /// Writes what `write` does now, and keeps no explanation of it.
    pub(crate) fn tell_now<W: Write>(&mut self, fault: Option<&Fault>, writer: &mut W) {
        let _ = self.write(fault, writer);
        self.are_warnings_told = true;
        self.text.clear();
        self.is_cut = false;
    }

    /// What is at fault from now on is the script of this name, if it is played.
    pub(crate) fn begin_next(&mut self, script: &'a str) {
        self.wanted.script = Some(script);
        if self.wanted.report.is_some() {
            self.wanted.report = Some(script);
        }
        self.is_script_read = false;
        self.bad_lines.clear();
    }

    /// Where what was to be read couldn't be, adds the file, by its path; without one standard input.
    pub(crate) fn add_unread<T>(&mut self, answer: &Result<T, Fault>, path: Option<&str>)
        ensures { self.new.warnings ≡ self.old.warnings }
    {
        if let Err(Fault::ReadFailed) = answer
            && self.is_more_explained()
        {
            let put = match path {
                Some(path) => writeln!(self.text, "  while reading {path}"),
                None => writeln!(self.text, "  while reading standard input"),
            };
            self.is_cut |= put.is_err();
        }
    }

    /// Adds the names of the schedule tables.
    pub(crate) fn add_tables(&mut self, cluster: &Cluster) {
        if self.is_more_explained() {
            self.is_cut |= put_tables(&mut self.text, cluster).is_err();
        }
    }

    /// Whether the LDF text is wanted where it is at fault.
    pub(crate) fn is_text_wanted(&self) -> bool {
        self.wanted.explained || self.wanted.file.is_some()
    }

    /// Adds where an LDF text is at fault, and what that means.
    ///
    /// # Errors
    /// Out of memory for the places of compilers.
    pub(crate) fn add_text(
        &mut self,
        alloc: Global,
        reading: Reading,
        text: &[u8],
        fault: &Fault,
    ) -> Result<(), AllocError> {
        if let Some(file) = self.wanted.file {
            let problems = problems_of_fault(alloc, text, fault)?;
            put_places(&mut self.places, file, problems.as_slice())?;
        }
        if self.is_more_explained() {
            self.is_cut |= put_text(alloc, &mut self.text, reading, text, fault).is_err();
        }
        Ok(())
    }

    /// Adds where an LDF text is remarked on, and what that means, if it is reported; and what of it
    /// isn't read.
    ///
    /// # Errors
    /// Out of memory for the places of compilers.
    pub(crate) fn add_remarks(
        &mut self,
        alloc: Global,
        text: &[u8],
        remarks: &[Remark],
    ) -> Result<(), AllocError> {
        if !self.is_text_wanted() {
            return Ok(());
        }
        match self.levels.reported(alloc, remarks) {
            Ok(reported) => self.add_reported(alloc, text, reported.as_slice()),
            Err(error) if self.wanted.file.is_some() => Err(error),
            Err(_) => {
                self.is_cut = true;
                Ok(())
            }
        }
    }

    /// Adds all of these, as of `add_remarks`.
    fn add_reported(
        &mut self,
        alloc: Global,
        text: &[u8],
        reported: &[Remark],
    ) -> Result<(), AllocError> {
        if let Some(file) = self.wanted.file
            && !reported.is_empty()
        {
            let problems = problems_of_remarks(alloc, text, reported)?;
            put_places(&mut self.places, file, problems.as_slice())?;
        }
        if self.is_more_explained() {
            self.is_cut |= put_remarks(alloc, &mut self.text, text, reported).is_err();
        }
        Ok(())
    }

    /// Keeps how many sections and attributes of an LDF text LIN doesn't have, if the word of one is
    /// similar to one that it has.
    ///
    /// # Errors
    /// Out of memory.
    pub(crate) fn count_unknown(
        &mut self,
        alloc: Global,
        unknown: &UnknownWords<'_>,
    ) -> Result<(), AllocError>
        ensures { self.new.warnings ≡ self.old.warnings }
    {
        self.unknown = count_if_similar(alloc, unknown)?;
        Ok(())
    }

    /// Keeps the warnings of an LDF text that is accepted.
    pub(crate) fn keep_warnings(&mut self, warnings: Many<Remark>)
        ensures { self.new.warnings ≡ warnings }
    {
        self.warnings = warnings;
    }

    /// Keeps that an LDF of LIN 1.x was read as one of LIN 2.x, if `--field` accepts it and reads
    /// another cluster.
    pub(crate) fn add_old(&mut self, alloc: Global, text: &mut [u8], cluster: &Cluster)
        ensures { self.new.warnings ≡ self.old.warnings }
    {
        self.is_old = is_read_otherwise(alloc, text, cluster).unwrap_or(false);
    }

    /// Adds what `--field` would make of an LDF text that was read without it.
    pub(crate) fn add_field<T>(&mut self, alloc: Global, text: &mut [u8], answer: &Result<T, Fault>)
        ensures { self.new.warnings ≡ self.old.warnings }
    {
        if !self.is_more_explained() {
            return;
        }
        let put = match answer {
            Ok(_) => put_accepted_field(alloc, &mut self.text, text),
            Err(Fault::Ldf(_) | Fault::Findings(_)) => {
                put_refused_field(alloc, &mut self.text, text)
            }
            Err(_) => Ok(()),
        };
        self.is_cut |= put.is_err();
    }

    /// Adds the line of a script that is in no form.
    pub(crate) fn add_line(&mut self, script: &[u8], line: u64) {
        if self.is_more_explained() {
            self.is_cut |= put_bad_line(&mut self.text, script, line).is_err();
        }
    }

    /// Adds the first bad lines of a bench script, and names that there are.
    pub(crate) fn add_bench_lines(
        &mut self,
        alloc: Global,
        script: Source<'_>,
        cluster: &Cluster,
        bad: &[(LinePlace, Reason)],
    ) {
        for (place, reason) in bad.iter().take(MOST) {
            self.add_bench_line(alloc, script, *place, cluster, reason);
        }
    }

    /// Adds a bad line of a bench script, and names that there are.
    pub(crate) fn add_bench_line(
        &mut self,
        alloc: Global,
        script: Source<'_>,
        place: LinePlace,
        cluster: &Cluster,
        reason: &Reason,
    ) {
        if self.is_more_explained() {
            let put = put_bad_bench_line(alloc, &mut self.text, script, place, cluster, reason);
            self.is_cut |= put.is_err();
        }
    }

    /// Adds the form of a fault, and names that there are, for one that isn't valid.
    pub(crate) fn add_bad_fault(&mut self, alloc: Global, cluster: &Cluster, reason: &FaultReason) {
        if self.is_more_explained() {
            self.is_cut |= put_fault_form(alloc, &mut self.text, cluster, reason).is_err();
        }
    }

    /// Adds how many steps of a log were refused, and why.
    pub(crate) fn add_refusals(&mut self, log: &Log) {
        if self.is_more_explained() {
            self.is_cut |= put_refusals(&mut self.text, log).is_err();
        }
    }
}
