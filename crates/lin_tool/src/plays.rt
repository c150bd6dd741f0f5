//! `linsim play`: reads bench scripts with the files that they include, plays each, and writes the report of
//! all of them.

ghost use Rattle.std.specs.Prelude.{◌≡◌, ◌≤◌, ◌<◌, length, IfOk};
ghost use Rattle.lin_bench.specs.Files.{source_data};
ghost use Rattle.lin_tool.specs.Playing.{AreIncluded, TakesFaults};
ghost use Rattle.lin_tool.specs.Statuses.{least_status};

use crate::fault::{Fault, exit_status};
use crate::fault_text::{FaultsFault, read_faults, write_bad_fault};
use crate::formats::Format;
use crate::junit::write_report;
use crate::notes::{Notes, Wanted};
use crate::opening::{Opened, Settings, begin};
use crate::play_command::{
    DisturbedPlay, first_of_names, given_names, is_valid, play_source, unused_names,
};
use lin_bench::{FileText, GivenParameter, ScriptFile, SlotFault, Source, missing_file};
use lin_log::{ScriptFault, read_bytes};
use lin_parts::Cluster;
use lin_text::{Many, Text};
use std::alloc::{AllocError, Global};
use std::fs::{self, Files};
use std::io::{self, Write};
use std::marker::Model;

/// A bench script that is to be read.
#[derive(Clone, Copy)]
pub struct ScriptInput<'a> {
    /// The path of its file. `None` is standard input.
    pub path: Option<&'a str>,
    /// Parameters that are given with it.
    pub given: &'a [GivenParameter<'a>],
}

/// What bench scripts are played with.
#[derive(Clone, Copy)]
pub struct PlayOptions<'a> {
    /// Faults under which each is played.
    pub faults: Option<&'a str>,
    /// Parameters that are given with each.
    pub given: &'a [GivenParameter<'a>],
    /// The file for a report of all of them.
    pub report: Option<&'a str>,
}

/// A bench script that is to be played, by the path of its file, and what it is played with.
#[derive(Drop)]
struct PlayedFile<'a> {
    path: Option<&'a str>,
    options: PlayOptions<'a>,
    /// The script that was read, if it was read with others.
    read: Option<Result<ReadScript, Fault>>,
}

/// A bench script that was read, and the files that it includes.
#[derive(Drop)]
pub(crate) struct ReadScript {
    text: Vec<u8>,
    files: Vec<ScriptFile>,
}

impl Model for ReadScript {
    ghost use Rattle.std.specs.Prelude.{◌≤◌, length};
    ghost use Rattle.lin_tool.specs.Playing.{ReadScriptData};

    ghost Value = { ReadScriptData };

    ghost view = { λ s. record { text = s.text.items; files = s.files.items } };

    ghost invariant = { λ s. length s.text.items ≤ 16777216 };
}

impl ReadScript {
    /// The script with its path and its parameters.
    pub(crate) fn source<'a>(&'a self, script: ScriptInput<'a>) -> Source<'a>
        ensures text { result.text.now ≡ self.now.text }
        ensures files { result.files.now ≡ self.now.files }
        ensures few { length result.text.now ≤ 16777216 }
    {
        Source {
            name: script.path.unwrap_or("").as_bytes(),
            text: self.text.as_slice(),
            files: self.files.as_slice(),
            given: script.given,
        }
    }
}

/// Reads the faults under which a script is to be played, if there are any, and writes to `errors` why the
/// first one that isn't valid isn't.
///
/// # Errors
/// `BadFaults`, `OutOfMemory`.
fn faults_of<E: Write>(
    alloc: Global,
    cluster: &Cluster,
    faults: Option<&str>,
    errors: &mut E,
    notes: &mut Notes<'_>,
) -> Result<Vec<SlotFault>, Fault>
    ensures { TakesFaults (λ v. v.items) cluster.now faults.entry result
        (E.contents errors.old) (E.contents errors.new) }
{
    let Some(text) = faults else {
        return Ok(Vec::new(alloc));
    };
    match read_faults(alloc, cluster, text.as_bytes()) {
        Ok(faults) => Ok(faults),
        Err(FaultsFault::Bad(bad)) => {
            notes.add_bad_fault(alloc, cluster, &bad.reason);
            Err(Fault::BadFaults {
                told: write_bad_fault(&bad, errors),
            })
        }
        Err(FaultsFault::OutOfMemory) => Err(Fault::OutOfMemory),
    }
}

/// How many files a bench script includes at most.
const MOST_FILES: usize = 1_000_000;

/// Reads a file that a bench script includes. An error means out of memory.
fn included_file<R: AllocGlobal + Files>(rt: &R, name: &[u8]) -> Result<FileText, AllocError> {
    let Ok(path) = std::str::from_utf8(name) else {
        return Ok(FileText::Unread);
    };
    let Ok(mut file) = fs::open(rt, path) else {
        return Ok(FileText::Unread);
    };
    match read_bytes(rt.alloc(), &mut file) {
        Ok(bytes) => Ok(FileText::Read(Many::new(bytes))),
        Err(ScriptFault::TooLong) => Ok(FileText::TooLong),
        Err(ScriptFault::OutOfMemory) => Err(AllocError),
        Err(ScriptFault::ReadFailed) => Ok(FileText::Unread),
        Err(ScriptFault::BadLine { .. }) => Ok(FileText::Unread),
    }
}

/// Reads the files that the lines of a bench script include, each once, and at most 1,000,000 of them. An error
/// means out of memory.
fn included_files<R: AllocGlobal + Files>(
    rt: &R,
    cluster: &Cluster,
    source: Source<'_>,
) -> Result<Vec<ScriptFile>, AllocError>
    requires { length source.text.now ≤ 16777216 }
    ensures { IfOk result (λ files. AreIncluded (source_data source.entry) files.items) }
{
    let mut files: Vec<ScriptFile> = Vec::new(rt.alloc());
    'files: while files.len() < MOST_FILES {
        let read = Source {
            files: files.as_slice(),
            ..source
        };
        let Some(name) = missing_file(rt.alloc(), cluster, read)? else {
            return Ok(files);
        };
        let text = included_file(rt, name.as_slice())?;
        files.push(ScriptFile { name, text })?;
    }
    Ok(files)
}

/// Reads the bench script in the file at a path, or without one that on standard input.
///
/// # Errors
/// `ReadFailed`, `ScriptTooLong`, `OutOfMemory`.
fn script_bytes<R: AllocGlobal + Files + Input>(
    rt: &R,
    path: Option<&str>,
) -> Result<Vec<u8>, Fault>
    ensures { IfOk result (λ v. length v.items ≤ 16777216) }
{
    match path {
        None => Ok(read_bytes(rt.alloc(), &mut rt.reader())?),
        Some(path) => match fs::open(rt, path) {
            Ok(mut file) => Ok(read_bytes(rt.alloc(), &mut file)?),
            Err(_) => Err(Fault::ReadFailed),
        },
    }
}

/// Reads a bench script with the files that it includes.
///
/// # Errors
/// `ReadFailed`, `ScriptTooLong`, `OutOfMemory`.
pub(crate) fn read_script<R: AllocGlobal + Files + Input>(
    rt: &R,
    cluster: &Cluster,
    script: ScriptInput<'_>,
) -> Result<ReadScript, Fault> {
    let text = script_bytes(rt, script.path)?;
    let source = Source {
        name: script.path.unwrap_or("").as_bytes(),
        text: text.as_slice(),
        files: &[],
        given: script.given,
    };
    let files = included_files(rt, cluster, source)?;
    Ok(ReadScript { text, files })
}

/// Plays a bench script over a cluster that was opened. The script is read with the files that it includes, unless
/// it was read before.
///
/// # Errors
/// `ReadFailed`, `ScriptTooLong`; those of `play_source`.
fn play_opened<R: AllocGlobal + Files + Input, W: Write, E: Write>(
    rt: &R,
    play: DisturbedPlay<'_>,
    file: PlayedFile<'_>,
    writer: &mut W,
    errors: &mut E,
    notes: &mut Notes<'_>,
) -> Result<(), Fault>
    requires { play.opened.table < length play.opened.cluster.tables }
{
    let script = ScriptInput {
        path: file.path,
        given: file.options.given,
    };
    let read = match file.read {
        Some(read) => read?,
        None => read_script(rt, &play.opened.cluster, script)?,
    };
    let source = read.source(script);
    play_source(rt.alloc(), play, source, writer, errors, notes)
}

/// Plays a bench script as `play_opened` does, under faults if there are any. Why faults aren't valid is told on
/// `errors`.
///
/// # Errors
/// `BadFaults`; those of `play_opened`.
fn play_script_file<R: AllocGlobal + Files + Input, W: Write, E: Write>(
    rt: &R,
    opened: Opened<'_>,
    file: PlayedFile<'_>,
    writer: &mut W,
    errors: &mut E,
    notes: &mut Notes<'_>,
) -> Result<(), Fault>
    requires { opened.table < length opened.cluster.tables }
{
    let (path, given) = (file.path, file.options.faults);
    let faults = faults_of(rt.alloc(), &opened.cluster, given, errors, notes)?;
    notes.begin_script();
    let play = DisturbedPlay {
        opened,
        faults: faults.as_slice(),
        is_alone: file.read.is_none(),
    };
    let answer = play_opened(rt, play, file, writer, errors, notes);
    notes.add_unread(&answer, path);
    answer
}

/// Plays the bench script in the file at a path, or without one that on standard input, over the cluster of the
/// settings, and writes the log on standard output in their format. Warnings of the LDF, and what is said of a
/// bad line, of faults that changed no slot and of expectations that aren't met, go to `errors`.
///
/// # Errors
/// Those of `cluster_of_file`, and `NoSuchTable`, after which nothing was written; those of `play_script_file`.
fn play_file<R: AllocGlobal + Files + Input + Print, E: Write>(
    rt: &R,
    settings: &Settings<'_>,
    script: Option<&str>,
    options: PlayOptions<'_>,
    errors: &mut E,
    notes: &mut Notes<'_>,
) -> Result<(), Fault> {
    let opened = begin(rt, settings, true, notes)?;
    notes.tell_warnings(errors);
    let file = PlayedFile {
        path: script,
        options,
        read: None,
    };
    play_script_file(rt, opened, file, &mut io::writer(rt), errors, notes)
}

/// Writes the report of the plays that were noted to standard output.
///
/// # Errors
/// `WriteFailed`.
fn print_report<R: Print>(rt: &R, notes: &Notes<'_>) -> Result<(), Fault> {
    Ok(write_report(notes.suites(), &mut io::writer(rt))?)
}

/// Writes the report of the plays that were noted to a file, if one is named.
///
/// # Errors
/// `WriteFailed`.
fn write_report_file<R: Files>(rt: &R, path: Option<&str>, notes: &Notes<'_>) -> Result<(), Fault> {
    let Some(path) = path else {
        return Ok(());
    };
    match fs::create(rt, path) {
        Ok(mut file) => Ok(write_report(notes.suites(), &mut file)?),
        Err(_) => Err(Fault::WriteFailed),
    }
}

/// Plays a bench script as `play_file` does. If the format is a report, that of a script that wasn't played
/// has an error. The report is also written to the file of the options, if there is one.
///
/// # Errors
/// As of `play_file`. `WriteFailed` also if a report can't be written.
pub fn play<R: AllocGlobal + Files + Input + Print, E: Write>(
    rt: &R,
    settings: &Settings<'_>,
    script: Option<&str>,
    options: PlayOptions<'_>,
    errors: &mut E,
    notes: &mut Notes<'_>,
) -> Result<(), Fault> {
    let answer = play_file(rt, settings, script, options, errors, notes);
    notes.add_unplayed(rt.alloc(), &answer)?;
    if let (Format::Junit(_), Err(fault)) = (settings.format, &answer)
        && fault.is_unplayed()
    {
        let _ = print_report(rt, notes);
    }
    match write_report_file(rt, options.report, notes) {
        Ok(()) => answer,
        Err(fault) => {
            let status = least(exit_status(&answer), fault.status());
            notes.tell_now(answer.as_ref().err(), errors);
            notes.tell_now(Some(&fault), errors);
            Err(Fault::Several { status })
        }
    }
}

/// The smaller one of two exit statuses that isn't 0.
fn least(one: u8, other: u8) -> u8
    ensures { result ≡ least_status one other }
{
    if one == 0 || (other != 0 && other < one) {
        other
    } else {
        one
    }
}

/// The path of a script that is named on the command line; `None` for standard input.
fn path_of(script: &str) -> Option<&str> {
    if script == "-" { None } else { Some(script) }
}

/// Reads bench scripts with the files that they include, in order. Of those without a bad line, if there are any,
/// a line has to use each parameter.
///
/// # Errors
/// `UnusedParameter` for the first parameter, in the order of bytes, that no line of these uses; `OutOfMemory`.
fn read_all<R: AllocGlobal + Files + Input>(
    rt: &R,
    opened: &Opened<'_>,
    scripts: &[&str],
    given: &[GivenParameter<'_>],
) -> Result<Vec<Result<ReadScript, Fault>>, Fault> {
    let mut all = Vec::new(rt.alloc());
    let mut unused = given_names(rt.alloc(), given)?;
    let mut is_some_valid = false;
    for name in scripts {
        let path = path_of(*name);
        let script = ScriptInput { path, given };
        let answer = read_script(rt, &opened.cluster, script);
        if let Ok(read) = &answer
            && !unused.is_empty()
            && is_valid(rt.alloc(), opened, read.source(script))?
        {
            let source = read.source(script);
            unused = unused_names(rt.alloc(), &opened.cluster, source, unused.as_slice())?;
            is_some_valid = true;
        }
        all.push(answer)?;
    }
    match first_of_names(unused.as_slice()) {
        Some(name) if is_some_valid => {
            Err(Fault::UnusedParameter(Text::copied(rt.alloc(), name)?))
        }
        _ => Ok(all),
    }
}

/// Plays one of several bench scripts, which was read, on a cluster that was opened. What is said of it goes to
/// `errors`. Returns its exit status.
///
/// # Errors
/// `OutOfMemory`.
fn play_next<'a, R: AllocGlobal + Files + Input, E: Write>(
    rt: &R,
    opened: Opened<'_>,
    script: &'a str,
    file: PlayedFile<'_>,
    errors: &mut E,
    notes: &mut Notes<'a>,
) -> Result<u8, Fault>
    requires { opened.table < length opened.cluster.tables }
{
    notes.begin_next(script);
    let answer = play_script_file(rt, opened, file, &mut io::sink(), errors, notes);
    notes.add_unplayed(rt.alloc(), &answer)?;
    notes.tell_now(answer.as_ref().err(), errors);
    Ok(exit_status(&answer))
}

/// Plays bench scripts that were read, in order, each on a new cluster, of which the first was opened. What is said
/// of each goes to `errors` before the next one begins. Returns the smallest exit status that isn't 0.
///
/// # Errors
/// `OutOfMemory`.
fn play_in_turn<'a, R: AllocGlobal + Files + Input, E: Write>(
    rt: &R,
    opened: Opened<'_>,
    scripts: &[&'a str],
    read: Vec<Result<ReadScript, Fault>>,
    options: PlayOptions<'_>,
    errors: &mut E,
    notes: &mut Notes<'a>,
) -> Result<u8, Fault>
    requires { opened.table < length opened.cluster.tables }
{
    let [first, rest @ ..] = scripts else {
        return Ok(0);
    };
    let settings = opened.settings;
    let mut left = read.into_iter();
    let file = PlayedFile {
        path: path_of(*first),
        options,
        read: left.next(),
    };
    let mut status = play_next(rt, opened, *first, file, errors, notes)?;
    for script in rest {
        let mut quiet = Notes::new(rt.alloc(), Wanted::default());
        let opened = begin(rt, &settings, true, &mut quiet)?;
        let file = PlayedFile {
            path: path_of(*script),
            options,
            read: left.next(),
        };
        let next = play_next(rt, opened, *script, file, errors, notes)?;
        status = least(status, next);
    }
    Ok(status)
}

/// Opens the cluster of the settings, reads bench scripts as `read_all` does, and plays them as `play_in_turn`
/// does.
///
/// # Errors
/// Those of `cluster_of_file`, and `NoSuchTable`; those of `read_all`; those of `play_in_turn`.
fn play_all<'a, R: AllocGlobal + Files + Input, E: Write>(
    rt: &R,
    settings: &Settings<'_>,
    scripts: &[&'a str],
    options: PlayOptions<'_>,
    errors: &mut E,
    notes: &mut Notes<'a>,
) -> Result<u8, Fault> {
    let opened = begin(rt, settings, true, notes)?;
    notes.tell_warnings(errors);
    let read = read_all(rt, &opened, scripts, options.given)?;
    play_in_turn(rt, opened, scripts, read, options, errors, notes)
}

/// Adds the suite of each script to the report, if none of them was played.
///
/// # Errors
/// Out of memory.
fn add_all_unplayed<'a>(
    alloc: Global,
    scripts: &[&'a str],
    answer: &Result<(), Fault>,
    notes: &mut Notes<'a>,
) -> Result<(), AllocError> {
    for script in scripts {
        notes.begin_next(*script);
        notes.add_unplayed(alloc, answer)?;
    }
    Ok(())
}

/// Plays several bench scripts in order, each on a new cluster. Standard output has the report of all of them if
/// the format is one, and nothing else. The report is also written to the file of the options, if there is one.
///
/// # Errors
/// Those of `cluster_of_file`, and `NoSuchTable` and `UnusedParameter`, after which nothing but a report was written;
/// `Several` if one of the scripts came to a fault, or a report can't be written; `OutOfMemory`.
pub fn play_scripts<'a, R: AllocGlobal + Files + Input + Print, E: Write>(
    rt: &R,
    settings: &Settings<'_>,
    scripts: &[&'a str],
    options: PlayOptions<'_>,
    errors: &mut E,
    notes: &mut Notes<'a>,
) -> Result<(), Fault> {
    let mut status = match play_all(rt, settings, scripts, options, errors, notes) {
        Ok(status) => status,
        Err(fault) => {
            let answer: Result<(), Fault> = Err(fault);
            notes.tell_now(answer.as_ref().err(), errors);
            add_all_unplayed(rt.alloc(), scripts, &answer, notes)?;
            exit_status(&answer)
        }
    };
    if let Format::Junit(_) = settings.format {
        let printed = print_report(rt, notes);
        notes.tell_now(printed.as_ref().err(), errors);
        status = least(status, exit_status(&printed));
    }
    let written = write_report_file(rt, options.report, notes);
    notes.tell_now(written.as_ref().err(), errors);
    status = least(status, exit_status(&written));
    if status == 0 {
        Ok(())
    } else {
        Err(Fault::Several { status })
    }
}
