//! `linsim play`: makes the slots and steps that a bench script says, writes their log, and judges
//! what the script expects.

ghost use Rattle.std.specs.Prelude.{◌≡◌, ◌≤◌, ◌<◌, [], is_ok, length, map, option_map, IfOk};
ghost use Rattle.lin_text.specs.Written.{WritesText};
ghost use Rattle.lin_export.specs.WhereTold.{given_coding};
ghost use Rattle.lin_tool.specs.Placing.{missed_text};
ghost use Rattle.lin_tool.specs.Playing.{judgements_with_meanings, coding_if_physical};
ghost use Rattle.lin_bench.specs.Files.{source_data};
ghost use Rattle.std.specs.Option.{option_map_or};
ghost use Rattle.lin_bench.specs.Scripts.{read};
ghost use Rattle.lin_tool.specs.Playing.{fault_of_bad, first_of_names, given_names, goes_before, included_file, last_reason};
ghost use Rattle.lin_tool.specs.Playing.{least_name, limit_fault, unused_alone, unused_names};
ghost use Rattle.lin_tool.specs.Playing.{play_fails, script_counts, script_verdict};
ghost use Rattle.lin_tool.specs.Playing.{unused_parameter, ChecksUsed, PlaysOpened};
ghost use Rattle.lin_tool.specs.Playing.{PlaysSource, ReadsScriptLines, ReportsPlay, TellsBad, WritesShown};

use crate::fault::Fault;
use crate::formats::{Shown, write_shown};
use crate::notes::Notes;
use crate::opening::{Opened, within_limits};
use crate::placing::{FileNames, write_bad_lines, write_placed_unmet};
use crate::tally::{write_missed_faults, write_tally};
use lin_bench::{
    GivenParameter, Judgement, LinePlace, PlayedUnder, ReadFault, Reason, ScriptFile, ScriptLine,
    SlotFault, Source, bad_lines, file_name, play_under, read, some_unmet, test_names,
    told_meanings, uses_parameter, write_bad_line, write_unmet,
};
use lin_core::Core;
use lin_log::read_bytes;
use lin_parts::Cluster;
use lin_text::{Many, Text, WriteFailed};
use lin_values::Coded;
use std::alloc::{AllocError, Global};
use std::cmp::Ordering;
use std::io::{Read, Write};
use std::mem;

/// A bench script, as it is played.
#[derive(Clone, Copy)]
pub(crate) struct Script<'a> {
    /// Its text, with its files and parameters.
    pub(crate) source: Source<'a>,
    /// The name of its file, with which lines begin that tell of the script, where it is given.
    pub(crate) name: Option<&'a str>,
    /// Whether the play is strict, as `lin_bench::play` says.
    pub(crate) is_strict: bool,
    /// How many faults its steps are made under.
    pub(crate) faults: usize,
    /// How many of these changed no slot, as far as it was played.
    pub(crate) missed: usize,
    /// Whether no other script is played with the same parameters.
    pub(crate) is_alone: bool,
}

/// The names of a script's files, where its own one has this name.
fn names_of<'a>(source: Source<'a>, script: &'a str) -> FileNames<'a>
    ensures { (result.script.now ≡ script.now) × (result.files.now ≡ source.entry.files.now) }
{
    FileNames {
        script,
        files: source.files,
    }
}

/// The name of the file with a number, if the script includes it. An error means out of memory.
fn included_file(
    alloc: Global,
    files: &[ScriptFile],
    number: usize,
) -> Result<Option<Text>, AllocError>
    ensures { IfOk result (λ file. file ≡ included_file files.now number) }
{
    if number == 0 {
        return Ok(None);
    }
    Ok(Some(Text::copied(alloc, file_name(b"", files, number))?))
}

/// The fault of a bench script that makes more slots than it may by a line at this place. An error means out of
/// memory.
pub(crate) fn limit_fault(
    alloc: Global,
    source: Source<'_>,
    place: LinePlace,
) -> Result<Fault, AllocError>
    ensures { IfOk result (λ fault. fault ≡ limit_fault source.entry.files.now place) }
{
    let file = included_file(alloc, source.files, place.file)?;
    Ok(Fault::SlotLimit { place, file })
}

/// The fault of a bench script with this bad line, which was told.
fn fault_of_bad(place: LinePlace, reason: &Reason, told: Result<(), WriteFailed>) -> Fault
    ensures { result ≡ fault_of_bad place reason.now told }
{
    match reason {
        Reason::Unread(_) => Fault::UnreadFile { told },
        Reason::LongFile(_) => Fault::LongFile { told },
        _ => Fault::BadBenchLine { place, told },
    }
}

/// Why the last of the bad lines of a bench script is bad, or without one the first one.
fn last_reason<'r>(first: &'r Reason, bad: &'r [(LinePlace, Reason)]) -> &'r Reason
    ensures { result.now ≡ last_reason first.now bad.now }
{
    match bad {
        [.., last] => &last.1,
        [] => first,
    }
}

/// Writes to `errors` what is wrong with a bench script, of which this line is the first bad one:
/// where the script has a name, a line for each bad one. Returns the fault of the script.
///
/// # Errors
/// `OutOfMemory`, after which nothing was written.
fn tell_bad<E: Write>(
    alloc: Global,
    opened: &Opened<'_>,
    script: Script<'_>,
    first: &(LinePlace, Reason),
    errors: &mut E,
    notes: &mut Notes<'_>,
) -> Result<Fault, AllocError>
    requires { length script.source.text.now ≤ 16777216 }
    ensures { TellsBad result script.entry opened.now first.now
        (E.contents errors.old) (E.contents errors.new) }
{
    let (cluster, source) = (&opened.cluster, script.source);
    let (place, reason) = first;
    match script.name {
        None => {
            let told = write_bad_line(source.files, *place, reason, errors);
            notes.add_bench_line(alloc, source, *place, cluster, reason);
            Ok(fault_of_bad(*place, reason, told))
        }
        Some(file) => {
            let coded = opened.coded.as_ref();
            let bad = bad_lines(alloc, cluster, coded, opened.limits.as_slice(), source)?;
            let told = write_bad_lines(names_of(source, file), bad.as_slice(), errors);
            notes.add_bench_lines(alloc, source, cluster, bad.as_slice());
            let last = last_reason(reason, bad.as_slice());
            Ok(fault_of_bad(*place, last, told))
        }
    }
}

/// Adds the bad lines of a bench script to the notes, if a report is wanted. An error means out of memory.
fn note_bad(
    alloc: Global,
    opened: &Opened<'_>,
    script: Script<'_>,
    notes: &mut Notes<'_>,
) -> Result<(), AllocError>
    requires { length script.source.text.now ≤ 16777216 }
{
    let Some(file) = notes.wanted.report else {
        return Ok(());
    };
    let (cluster, limits) = (&opened.cluster, opened.limits.as_slice());
    let bad = bad_lines(alloc, cluster, opened.coded.as_ref(), limits, script.source)?;
    notes.add_bad_lines(names_of(script.source, file), bad.as_slice())
}

/// What the lines of a bench script say, each with its place.
///
/// # Errors
/// `BadBenchLine` for the first line that is bad, after its line, or where the script has a name
/// those of all bad lines, was written to `errors`; `UnreadFile` and `LongFile` likewise, for the first of these
/// lines, or where the script has a name for the last one; `OutOfMemory`.
pub(crate) fn bench_lines<E: Write>(
    alloc: Global,
    opened: &Opened<'_>,
    script: Script<'_>,
    errors: &mut E,
    notes: &mut Notes<'_>,
) -> Result<Vec<(LinePlace, ScriptLine)>, Fault>
    requires { length script.source.text.now ≤ 16777216 }
    ensures lines { ReadsScriptLines script.entry opened.now (λ v. v.items) result
        (E.contents errors.old) (E.contents errors.new) }
    ensures few { IfOk result (λ v. length v.items ≤ 17777217) }
{
    let (cluster, limits) = (&opened.cluster, opened.limits.as_slice());
    match read(alloc, cluster, opened.coded.as_ref(), limits, script.source) {
        Ok(lines) => Ok(lines),
        Err(ReadFault::BadLine { place, reason }) => {
            let first = (place, reason);
            note_bad(alloc, opened, script, notes)?;
            Err(tell_bad(alloc, opened, script, &first, errors, notes)?)
        }
        Err(ReadFault::OutOfMemory) => Err(Fault::OutOfMemory),
    }
}

/// Whether a text goes before another one in the order of bytes.
fn goes_before(one: &[u8], other: &[u8]) -> bool
    ensures { result ≡ goes_before one.now other.now }
{
    match one.cmp(other) {
        Ordering::Less => true,
        Ordering::Equal | Ordering::Greater => false,
    }
}

/// The first one of these names in the order of bytes.
fn first_name<'a>(least: Option<&'a [u8]>, name: &'a [u8]) -> &'a [u8]
    ensures { result.now ≡ option_map_or (λ l. least_name l.now name.now) least.entry name.now }
{
    match least {
        Some(least) => {
            if goes_before(name, least) {
                name
            } else {
                least
            }
        }
        None => name,
    }
}

/// The names of the parameters that are given with a script. An error means out of memory.
pub(crate) fn given_names<'a>(
    alloc: Global,
    given: &[GivenParameter<'a>],
) -> Result<Vec<&'a [u8]>, AllocError>
    ensures { IfOk result (λ v. map (λ n. n.now) v.items ≡ given_names given.now) }
{
    let mut names = Vec::new(alloc);
    for one in given {
        names.push(one.name)?;
    }
    Ok(names)
}

/// Those of these names of parameters that no line of a script uses. An error means out of memory.
pub(crate) fn unused_names<'a>(
    alloc: Global,
    cluster: &Cluster,
    source: Source<'_>,
    names: &[&'a [u8]],
) -> Result<Vec<&'a [u8]>, AllocError>
    requires { length source.text.now ≤ 16777216 }
    ensures { IfOk result (λ v. map (λ n. n.now) v.items
        ≡ unused_names (source_data source.entry) (map (λ n. n.now) names.now)) }
{
    let mut unused = Vec::new(alloc);
    for name in names {
        if !uses_parameter(alloc, cluster, source, *name)? {
            unused.push(*name)?;
        }
    }
    Ok(unused)
}

/// The first one of some names in the order of bytes.
pub(crate) fn first_of_names<'a>(names: &[&'a [u8]]) -> Option<&'a [u8]>
    ensures { option_map (λ n. n.now) result ≡ first_of_names (map (λ n. n.now) names.now) }
{
    let mut first: Option<&'a [u8]> = None;
    for name in names {
        first = Some(first_name(first, *name));
    }
    first
}

/// The first of the parameters, in the order of bytes, that no line of a script uses. An error means out of
/// memory.
fn unused_parameter<'a>(
    alloc: Global,
    cluster: &Cluster,
    script: Script<'a>,
) -> Result<Option<&'a [u8]>, AllocError>
    requires { length script.source.text.now ≤ 16777216 }
    ensures { IfOk result (λ name. option_map (λ n. n.now) name
        ≡ unused_parameter (source_data script.entry.source)) }
{
    let names = given_names(alloc, script.source.given)?;
    let unused = unused_names(alloc, cluster, script.source, names.as_slice())?;
    Ok(first_of_names(unused.as_slice()))
}

/// Checks that the lines of a script use each of its parameters, unless others are played with the same ones.
///
/// # Errors
/// `UnusedParameter`, `OutOfMemory`.
pub(crate) fn check_used(alloc: Global, cluster: &Cluster, script: Script<'_>) -> Result<(), Fault>
    requires { length script.source.text.now ≤ 16777216 }
    ensures { ChecksUsed result (unused_alone script.entry) }
{
    if !script.is_alone {
        return Ok(());
    }
    match unused_parameter(alloc, cluster, script)? {
        Some(name) => Err(Fault::UnusedParameter(Text::copied(alloc, name)?)),
        None => Ok(()),
    }
}

/// Whether no line of a bench script is bad. An error means out of memory.
pub(crate) fn is_valid(
    alloc: Global,
    opened: &Opened<'_>,
    source: Source<'_>,
) -> Result<bool, AllocError>
    requires { length source.text.now ≤ 16777216 }
    ensures { IfOk result (λ valid. valid
        ≡ is_ok (read opened.now.cluster opened.now.coded opened.now.limits (source_data source.entry))) }
{
    let (cluster, limits) = (&opened.cluster, opened.limits.as_slice());
    match read(alloc, cluster, opened.coded.as_ref(), limits, source) {
        Ok(_) => Ok(true),
        Err(ReadFault::BadLine { .. }) => Ok(false),
        Err(ReadFault::OutOfMemory) => Err(AllocError),
    }
}

/// Writes a line for each failed expectation; where the script has a name, with the place.
///
/// # Errors
/// `WriteFailed`, where what was written is the beginning of the lines.
fn tell_unmet<E: Write>(
    core: &Core,
    script: Script<'_>,
    judgements: &[Judgement],
    errors: &mut E,
) -> Result<(), WriteFailed>
    ensures { WritesText (E.contents errors.old) (E.contents errors.new) result
        (missed_text script.entry.name script.entry.source.files.now core.now.cluster core.now.log
        judgements.now) }
{
    let (cluster, source) = (core.cluster(), script.source);
    match script.name {
        None => write_unmet(cluster, source.files, judgements, errors),
        Some(file) => {
            let names = names_of(source, file);
            write_placed_unmet(names, cluster, core.log(), judgements, errors)
        }
    }
}

/// Writes how many of the script's faults changed no slot, if any, and a line of numbers if the play is
/// strict.
///
/// # Errors
/// `WriteFailed`, where what was written is the beginning of the lines.
fn tell_counts<E: Write>(
    core: &Core,
    script: Script<'_>,
    judgements: &[Judgement],
    errors: &mut E,
) -> Result<(), WriteFailed>
    ensures { WritesText (E.contents errors.old) (E.contents errors.new) result
        (script_counts script.entry core.now judgements.now) }
{
    write_missed_faults(script.faults, script.missed, errors)?;
    if script.is_strict {
        write_tally(core, judgements, errors)
    } else {
        Ok(())
    }
}

/// Writes the failed expectations of a play and its counts.
///
/// # Errors
/// `WriteFailed`, where what was written is the beginning of the lines.
fn tell<E: Write>(
    core: &Core,
    script: Script<'_>,
    judgements: &[Judgement],
    errors: &mut E,
) -> Result<(), WriteFailed>
    ensures { WritesText (E.contents errors.old) (E.contents errors.new) result
        (script_verdict script.entry core.now judgements.now) }
{
    tell_unmet(core, script, judgements, errors)?;
    tell_counts(core, script, judgements, errors)
}

/// Whether an expectation failed, or the script has faults and none of them changed a slot.
fn fails(script: Script<'_>, judgements: &[Judgement]) -> bool
    ensures { result ≡ play_fails script.entry.faults script.entry.missed judgements.now }
{
    if some_unmet(judgements) {
        true
    } else if script.faults == 0 {
        false
    } else {
        script.missed == script.faults
    }
}

/// Writes the failed expectations of a play and its counts to `errors`.
///
/// # Errors
/// `Unmet` if it fails.
pub(crate) fn judge<E: Write>(
    core: &Core,
    script: Script<'_>,
    judgements: &[Judgement],
    errors: &mut E,
) -> Result<(), Fault>
    ensures { ReportsPlay result script.entry core.now judgements.now (E.contents errors.old)
        (E.contents errors.new) }
{
    let told = tell(core, script, judgements, errors);
    if fails(script, judgements) {
        Err(Fault::Unmet { told })
    } else {
        Ok(())
    }
}

/// Writes the log of a play as it is to be shown, and then to `errors` what is told of it.
///
/// # Errors
/// `WriteFailed`, and in a format other than the log's own text `OutOfMemory`, where what was
/// written is the beginning of the whole; `Unmet` after all was written, as of `judge`.
fn put_played<W: Write, E: Write>(
    alloc: Global,
    shown: &Shown<'_, '_>,
    core: &Core,
    script: Script<'_>,
    writer: &mut W,
    errors: &mut E,
) -> Result<(), Fault>
    ensures { WritesShown shown.now core.now script.entry result
        (W.contents writer.old) (W.contents writer.new)
        (E.contents errors.old) (E.contents errors.new) }
{
    write_shown(alloc, shown, core, writer)?;
    judge(core, script, shown.judgements, errors)
}

/// What was judged; where words were expected, with what values mean.
///
/// An error means out of memory.
pub(crate) fn in_words(
    alloc: Global,
    coded: Option<&Coded>,
    judgements: Many<Judgement>,
) -> Result<Many<Judgement>, AllocError>
    ensures { IfOk result (λ js. js ≡ judgements_with_meanings (given_coding coded.entry) judgements) }
{
    match coded {
        Some(coded) => told_meanings(alloc, coded, judgements),
        None => Ok(judgements),
    }
}

/// What signals mean, where values are shown as that.
fn shown(coded: Option<&Coded>, is_physical: bool) -> Option<&Coded>
    ensures { given_coding result ≡ coding_if_physical (given_coding coded.entry) is_physical }
{
    if is_physical { coded } else { None }
}

/// Reads a bench script, makes the steps that its lines say over the cluster that was opened, and
/// writes their log as the settings want it; for each judgement that isn't met, and for a bad line, a
/// line goes to `errors`. Where the notes have the script's name, these lines begin with it, each bad
/// line has one, and that of a judgement ends with the last slot that was finished, and the time.
/// Where the play is strict, as `lin_bench::play` says, a line of numbers is the last. The notes tell
/// which steps were refused. Where what signals mean is known, lines may say values in words; where it
/// is shown, the log tells it, as of `write_shown`. (The core's memory is left to the end of the
/// program: it would be let go of entry by entry.)
///
/// # Errors
/// `BadBenchLine`, `UnreadFile`, `SlotLimit` and `ScriptTooLong` for a fault of the script, which has no files;
/// `ReadFailed` where the reader answers an error. No log was written then. `OutOfMemory`, where none was
/// written, or in a format other than the log's own text a beginning. `WriteFailed`, where what was written is
/// the beginning of the whole. `Unmet`, after all of it was written, where a judgement isn't met.
pub fn play_script<R: Read, W: Write, E: Write>(
    alloc: Global,
    opened: Opened<'_>,
    reader: &mut R,
    writer: &mut W,
    errors: &mut E,
    notes: &mut Notes<'_>,
) -> Result<(), Fault>
    requires { opened.table < length opened.cluster.tables }
    ensures { PlaysOpened opened.entry notes.old.wanted.script result
        (R.remaining reader.old)
        (W.contents writer.old) (W.contents writer.new)
        (E.contents errors.old) (E.contents errors.new) }
{
    let play = DisturbedPlay {
        opened,
        faults: &[],
        is_alone: true,
    };
    let bytes = read_bytes(alloc, reader)?;
    let source = Source::of(bytes.as_slice());
    play_source(alloc, play, source, writer, errors, notes)
}

/// A cluster that was opened, and how a script is played on it.
#[derive(Drop)]
pub struct DisturbedPlay<'a> {
    pub opened: Opened<'a>,
    /// The faults under which it is played.
    pub faults: &'a [SlotFault],
    /// Whether no other script is played with the same parameters.
    pub is_alone: bool,
}

/// Plays a bench script as `play_script` does, with its files and parameters, where the steps of its lines are
/// made under faults. If some of these changed no slot, a line of `errors` says how many.
///
/// # Errors
/// As of `play_script`; `LongFile`; `UnusedParameter` for the first parameter, in the order of bytes, that no
/// line uses, if no line is bad and the script is alone; `Unmet` also if there are faults, and none of them changed a slot.
pub fn play_source<W: Write, E: Write>(
    alloc: Global,
    play: DisturbedPlay<'_>,
    source: Source<'_>,
    writer: &mut W,
    errors: &mut E,
    notes: &mut Notes<'_>,
) -> Result<(), Fault>
    requires table { play.opened.table < length play.opened.cluster.tables }
    requires text { length source.text.now ≤ 16777216 }
    ensures { PlaysSource play.entry.faults.now (source_data source.entry) play.entry.opened notes.old.wanted.script
        result
        (W.contents writer.old) (W.contents writer.new)
        (E.contents errors.old) (E.contents errors.new) }
{
    let is_alone = play.is_alone;
    let DisturbedPlay { opened, faults, .. } = play;
    let script = Script {
        source,
        name: notes.wanted.script,
        is_strict: opened.settings.is_strict,
        faults: faults.len(),
        missed: 0,
        is_alone,
    };
    let lines = bench_lines(alloc, &opened, script, errors, notes)?;
    check_used(alloc, &opened.cluster, script)?;
    let tests = test_names(alloc, lines.as_slice())?;
    let Opened {
        cluster,
        table,
        coded,
        limits: _limits,
        settings,
    } = opened;
    let capacity = within_limits(settings.capacity);
    let PlayedUnder {
        core,
        judgements,
        missed,
        limit,
        ..
    } = play_under(
        alloc,
        cluster,
        table,
        capacity,
        lines,
        settings.is_strict,
        faults,
    )?;
    match limit {
        Some(place) => {
            mem::forget(core);
            return Err(limit_fault(alloc, source, place)?);
        }
        None => {}
    }
    let judgements = in_words(alloc, coded.as_ref(), judgements)?;
    let shown = Shown {
        format: settings.format,
        coded: shown(coded.as_ref(), settings.is_physical),
        table,
        capacity,
        judgements: judgements.as_slice(),
        tests: tests.as_slice(),
        script: script.name,
        files: source.files,
    };
    notes.add_suite(alloc, &shown, &core)?;
    let script = Script { missed, ..script };
    let judged = put_played(alloc, &shown, &core, script, writer, errors);
    notes.add_refusals(core.log());
    mem::forget(core);
    judged
}
