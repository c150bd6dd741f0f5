//! Bench scripts, played.

ghost use Rattle.std.specs.Prelude.{◌≡◌, ◌<◌, ◌≤◌, ◌∷◌, ◌++◌, [], false, length, true, OnOk};
ghost use Rattle.lin_bench.specs.Played.{nothing_expected, on_line};
ghost use Rattle.lin_bench.specs.Plays.{EndsWithFullLog, Plays, PlaysLine, PlaysOn, PlaysUnder, has_rule, limit_of};

use crate::bench::Bench;
use crate::fault::{MakeFault, PlayFault};
use crate::faults::{SlotFault, arm_all};
use crate::got::{Judged, Judgement, Verdict};
use crate::line::ScriptLine;
use crate::place::LinePlace;
use crate::strict::{left_out, silent_lines, speaks_of_last, strictly};
use lin_core::{Core, Log};
use lin_parts::Cluster;
use lin_text::Many;
use std::alloc::{AllocError, Global};

/// A bench script that was played.
#[derive(Drop)]
pub struct Played {
    /// The core, with the log of all steps that the lines say.
    pub core: Core,
    /// The judgements on what is expected, in order.
    pub judgements: Many<Judgement>,
}

/// A line that was played, by its place, and how many entries the log had after it.
#[derive(Clone, Copy, Debug)]
pub struct LineEnd {
    pub place: LinePlace,
    pub entries: usize,
}

/// A bench script that was played under faults.
#[derive(Drop)]
pub struct PlayedUnder {
    /// The core, with the log of all steps that were made.
    pub core: Core,
    /// The judgements on what is expected, in order; up to the limit if it was reached.
    pub judgements: Many<Judgement>,
    /// The ends of the lines, in order.
    pub ends: Many<LineEnd>,
    /// How many of the faults changed no step.
    pub missed: usize,
    /// The line by which lines of slots make more than 1,000,000, if there is one. The slots up to
    /// there were made.
    pub limit: Option<LinePlace>,
}

/// Adds a judgement on a line after all entries of a log, if there is one. An error means out of
/// memory.
fn add(
    judgements: &mut Vec<Judgement>,
    place: LinePlace,
    log: &Log,
    judged: Option<Judged>,
) -> Result<(), AllocError>
    ensures { OnOk result (judgements.new.items
        ≡ judgements.old.items ++ on_line place (length log.now.entries) judged) }
{
    if let Some(judged) = judged {
        judgements.push(Judgement {
            place,
            entries: log.len(),
            judged,
        })?;
    }
    Ok(())
}

/// Adds the end of a line after all entries of a log. An error means out of memory.
fn add_end(ends: &mut Vec<LineEnd>, place: LinePlace, log: &Log) -> Result<(), AllocError>
    ensures { OnOk result (ends.new.items
        ≡ ends.old.items ++ record { place = place; entries = length log.now.entries } ∷ []) }
{
    ends.push(LineEnd {
        place,
        entries: log.len(),
    })?;
    Ok(())
}

/// Makes a line with its place, and judges what it expects.
fn play_line(
    alloc: Global,
    bench: &mut Bench,
    judgements: &mut Vec<Judgement>,
    place: LinePlace,
    line: ScriptLine,
) -> Result<(), PlayFault>
    ensures { PlaysLine false bench.old judgements.old.items (place, line) false result
        bench.new judgements.new.items }
{
    let own = match bench.make(alloc, line) {
        Ok(Verdict::Nothing) => None,
        Ok(Verdict::Met(expected)) => Some(Judged::Met(expected)),
        Ok(Verdict::Unmet(expected, got)) => Some(Judged::Unmet(expected, got)),
        Ok(Verdict::SlotLimit) => return Err(PlayFault::SlotLimit { place }),
        Err(MakeFault::OutOfMemory) => return Err(PlayFault::OutOfMemory),
        Err(MakeFault::LogFull) => return Err(PlayFault::LogFull),
    };
    add(judgements, place, bench.core().log(), own)?;
    Ok(())
}

/// The same, where the play is strict, by whether the next line speaks of the line's last step.
#[inline(never)]
fn play_strictly(
    alloc: Global,
    bench: &mut Bench,
    judgements: &mut Vec<Judgement>,
    place: LinePlace,
    line: ScriptLine,
    is_told: bool,
) -> Result<(), PlayFault>
    ensures { PlaysLine true bench.old judgements.old.items (place, line)
        is_told result bench.new judgements.new.items }
{
    let from = bench.core().log().len();
    let nodes = left_out(alloc, &line)?;
    match play_line(alloc, bench, judgements, place, line) {
        Ok(()) => {}
        Err(fault) => return Err(fault),
    }
    let log = bench.core().log();
    let judged = strictly(log, from, nodes.as_slice(), is_told);
    add(judgements, place, log, judged)?;
    Ok(())
}

/// Makes a line with its place, and judges it, strictly or not, by whether the next line speaks of
/// the line's last step.
fn play_placed(
    alloc: Global,
    is_strict: bool,
    bench: &mut Bench,
    judgements: &mut Vec<Judgement>,
    placed: (LinePlace, ScriptLine),
    is_told: bool,
) -> Result<(), PlayFault>
    ensures { PlaysLine is_strict bench.old judgements.old.items placed is_told result
        bench.new judgements.new.items }
{
    let (place, line) = placed;
    if is_strict {
        play_strictly(alloc, bench, judgements, place, line, is_told)
    } else {
        play_line(alloc, bench, judgements, place, line)
    }
}

/// Adds, for each of these lines, the judgement that nothing is expected. An error means out of memory.
fn add_silent(
    judgements: &mut Vec<Judgement>,
    silent: &[LinePlace],
    log: &Log,
) -> Result<(), AllocError>
    ensures { OnOk result (judgements.new.items
        ≡ judgements.old.items ++ nothing_expected (length log.now.entries) silent.now) }
{
    for place in silent {
        judgements.push(Judgement {
            place: *place,
            entries: log.len(),
            judged: Judged::NothingExpected,
        })?;
    }
    Ok(())
}

/// Plays lines on a bench, of which these judgements and ends of lines are kept, and then judges that
/// something is expected where it is to be.
fn play_on(
    alloc: Global,
    is_strict: bool,
    bench: &mut Bench,
    judgements: &mut Vec<Judgement>,
    ends: &mut Vec<LineEnd>,
    lines: Vec<(LinePlace, ScriptLine)>,
) -> Result<(), PlayFault>
    ensures { PlaysOn is_strict bench.old judgements.old.items ends.old.items lines.items result
        bench.new judgements.new.items ends.new.items }
{
    let silent = silent_lines(alloc, is_strict, lines.as_slice())?;
    let mut rest = lines.into_iter();
    let mut next = rest.next();
    while let Some(line) = next {
        next = rest.next();
        let place = line.0;
        let is_told = speaks_of_last(&next);
        match play_placed(alloc, is_strict, bench, judgements, line, is_told) {
            Ok(()) => {}
            Err(fault) => return Err(fault),
        }
        add_end(ends, place, bench.core().log())?;
    }
    add_silent(judgements, silent.as_slice(), bench.core().log())?;
    Ok(())
}

/// Plays a bench script of these lines, each with its place, on a new core over a cluster: makes
/// the steps that each line says after those before it, and judges what is expected at its line.
/// Where it is strict, it also judges that no step was refused of which the next line doesn't speak,
/// that each node whose response a line leaves out was due, and after all others that something is
/// expected in each test, at its first line, or in a script without tests, at line 1.
///
/// The core begins with schedule table `table` of the cluster; each host may have `capacity`
/// messages waiting, 1 to 1,024. Its log is the history of these steps, and of those that the rules of
/// the lines add. Without a rule 17,777,217 lines don't fill it: a slot has 19 steps at most.
///
/// # Errors
/// The cluster is dropped after each of them.
/// - `SlotLimit` with the first line by which lines of slots make more than 1,000,000;
/// - `LogFull`: the steps, with those that rules add, are more than fit;
/// - `OutOfMemory`.
pub fn play(
    alloc: Global,
    cluster: Cluster,
    table: u16,
    capacity: usize,
    lines: Vec<(LinePlace, ScriptLine)>,
    is_strict: bool,
) -> Result<Played, PlayFault>
    requires table { table < length cluster.tables }
    requires capacity { (1 ≤ capacity) × (capacity ≤ 1024) }
    ensures plays { Plays is_strict cluster table capacity lines.items result }
    ensures few { length lines.items ≤ 17777217 → EndsWithFullLog result → has_rule lines.items ≡ true }
{
    cluster.sound();
    let mut bench = Bench::new(alloc, Core::new(alloc, cluster, table, capacity)?);
    let mut judgements = Vec::new(alloc);
    let mut ends = Vec::new(alloc);
    match play_on(
        alloc,
        is_strict,
        &mut bench,
        &mut judgements,
        &mut ends,
        lines,
    ) {
        Ok(()) => Ok(Played {
            core: bench.into_core(),
            judgements: Many::new(judgements),
        }),
        Err(fault) => Err(fault),
    }
}

/// Returns the line by which a play reached the slot limit, or `None` if it didn't.
///
/// # Errors
/// All other errors of the play.
fn limit_of(played: Result<(), PlayFault>) -> Result<Option<LinePlace>, PlayFault>
    ensures { result ≡ limit_of played }
{
    match played {
        Ok(()) => Ok(None),
        Err(PlayFault::SlotLimit { place }) => Ok(Some(place)),
        Err(PlayFault::LogFull) => Err(PlayFault::LogFull),
        Err(PlayFault::OutOfMemory) => Err(PlayFault::OutOfMemory),
    }
}

/// Plays a bench script as `play` does, but makes the steps of its lines under faults.
///
/// - In the slots of an absence of node N, the node omits its response: an `answer N` that would be done
///   becomes `leave N`, by the same port.
/// - In the slots of a damage, `bus hurt -` goes before a `finish` that would be done, if the slot has
///   exactly one response and it isn't corrupted.
///
/// The slot limit isn't an error here: the core has the slots up to it.
///
/// # Errors
/// The cluster is dropped after each of them: `LogFull` and `OutOfMemory`, as of `play`.
pub fn play_under(
    alloc: Global,
    cluster: Cluster,
    table: u16,
    capacity: usize,
    lines: Vec<(LinePlace, ScriptLine)>,
    is_strict: bool,
    faults: &[SlotFault],
) -> Result<PlayedUnder, PlayFault>
    requires table { table < length cluster.tables }
    requires capacity { (1 ≤ capacity) × (capacity ≤ 1024) }
    ensures plays { PlaysUnder is_strict cluster table capacity faults.now lines.items result }
    ensures few { length lines.items ≤ 17777217 → EndsWithFullLog result → has_rule lines.items ≡ true }
{
    cluster.sound();
    let core = Core::new(alloc, cluster, table, capacity)?;
    let armed = arm_all(alloc, faults)?;
    let mut bench = Bench::under(alloc, core, armed);
    let mut judgements = Vec::new(alloc);
    let mut ends = Vec::with_capacity(alloc, lines.len())?;
    let played = play_on(
        alloc,
        is_strict,
        &mut bench,
        &mut judgements,
        &mut ends,
        lines,
    );
    let limit = limit_of(played)?;
    let missed = bench.missed();
    Ok(PlayedUnder {
        core: bench.into_core(),
        judgements: Many::new(judgements),
        ends: Many::new(ends),
        missed,
        limit,
    })
}
