//! Bench scripts.

ghost use Rattle.std.specs.Prelude.{◌≡◌, ◌≤◌, ◌<◌, ◌+◌, ◌^◌, length, option_map, IfOk, IfSome};
ghost use Rattle.lin_bench.specs.Files.{source_data};
ghost use Rattle.lin_bench.specs.Read.{AreBadOf, Gives, IsWhy, NextLine, ReadsBenchScript, item_text_read};
ghost use Rattle.lin_bench.specs.Resolving.{items_left};
ghost use Rattle.lin_bench.specs.Scripts.{bad_lines, read, read_items, tests_after};
ghost use Rattle.lin_bench.specs.Written.{without_mark};

use crate::fault::{LineFault, ReadFault};
use crate::files::Source;
use crate::line::ScriptLine;
use crate::listed::ListedLines;
use crate::place::LinePlace;
use crate::reason::Reason;
use crate::resolving::{Item, ScriptReader};
use crate::rules::NodeLimits;
use crate::words::read_worded_line;
use lin_parts::Cluster;
use lin_values::Coded;
use std::alloc::{AllocError, Global};

/// A text without the mark EF BB BF at its start.
pub fn without_mark(text: &[u8]) -> &[u8]
    ensures same { result.now ≡ without_mark text.now }
    ensures shorter { length result.now ≤ length text.now }
{
    match text {
        [0xEF, 0xBB, 0xBF, rest @ ..] => rest,
        _ => text,
    }
}

/// What a line says after what it resolves.
///
/// # Errors
/// `Bad` with why the line is; `OutOfMemory`.
fn read_item(
    alloc: Global,
    cluster: &Cluster,
    coded: Option<&Coded>,
    limits: &[NodeLimits],
    item: Item<'_>,
) -> Result<Option<ScriptLine>, LineFault>
    ensures { Gives (λ l. l) result
        (item_text_read cluster.now (option_map (λ k. k.now) coded.entry) limits.now item.entry) }
{
    match item {
        Item::Line(text) => read_worded_line(alloc, cluster, coded, limits, text.as_slice()),
        Item::Bad(reason) => Err(LineFault::Bad(reason)),
    }
}

/// The next line of a script that says something, with its place; none after the last one.
///
/// # Errors
/// `BadLine` for the first line that is bad; `OutOfMemory`.
fn next_line(
    alloc: Global,
    cluster: &Cluster,
    coded: Option<&Coded>,
    limits: &[NodeLimits],
    script: &mut ScriptReader<'_>,
) -> Result<Option<(LinePlace, ScriptLine)>, ReadFault>
    ensures line { NextLine result
        (read_items cluster.now (option_map (λ k. k.now) coded.entry) limits.now (items_left script.old))
        (read_items cluster.now (option_map (λ k. k.now) coded.entry) limits.now (items_left script.new)) }
    ensures fewer { IfOk result (λ line. IfSome line
        (λ _. length (items_left script.new) < length (items_left script.old))) }
{
    while let Some((place, item)) = script.next(alloc, cluster)? {
        match read_item(alloc, cluster, coded, limits, item) {
            Err(LineFault::Bad(reason)) => return Err(ReadFault::BadLine { place, reason }),
            Err(LineFault::OutOfMemory) => return Err(ReadFault::OutOfMemory),
            Ok(None) => {}
            Ok(Some(line)) => return Ok(Some((place, line))),
        }
    }
    Ok(None)
}

/// How many tests have begun after a line, if so many had before it.
fn tests_after(tests: usize, line: &ScriptLine) -> usize
    requires { tests < 2 ^ 63 }
    ensures after { result ≡ tests_after tests line.now }
    ensures few { result ≤ tests + 1 }
{
    match line {
        ScriptLine::Test(_) => tests + 1,
        _ => tests,
    }
}

/// What the lines of a bench script say that say something, each with its place. Lines are counted from
/// 1 over all lines of a file, and tests from 1. Long lines, files, parameters and repetition are resolved;
/// lines don't change the parameters that are given.
///
/// Nodes, signals and schedule tables are those of the cluster; values stand in words where what
/// signals mean is known; `limits` are those of the LDF. The text has at most 16,777,216 bytes. At most
/// 1,000,000 lines are read beside those that it has.
///
/// # Errors
/// `BadLine` with the place of the first line that is bad, and why; `OutOfMemory`.
pub fn read(
    alloc: Global,
    cluster: &Cluster,
    coded: Option<&Coded>,
    limits: &[NodeLimits],
    source: Source<'_>,
) -> Result<Vec<(LinePlace, ScriptLine)>, ReadFault>
    requires { length source.text.now ≤ 16777216 }
    ensures said { ReadsBenchScript (λ v. v.items) result
        (read cluster.now (option_map (λ k. k.now) coded.entry) limits.now (source_data source.entry)) }
    ensures few { IfOk result (λ v. length v.items ≤ length source.entry.text.now + 1000001) }
{
    let mut script = ScriptReader::new(alloc, cluster, source)?;
    let mut lines = Vec::new(alloc);
    let mut test = 0;
    while let Some((place, line)) = next_line(alloc, cluster, coded, limits, &mut script)? {
        test = tests_after(test, &line);
        if lines.push((LinePlace { test, ..place }, line)).is_err() {
            return Err(ReadFault::OutOfMemory);
        }
    }
    Ok(lines)
}

/// Why a line is bad; none if it isn't. An error means out of memory.
fn why_bad(
    alloc: Global,
    cluster: &Cluster,
    coded: Option<&Coded>,
    limits: &[NodeLimits],
    item: Item<'_>,
) -> Result<Option<Reason>, AllocError>
    ensures { IfOk result (IsWhy
        (item_text_read cluster.now (option_map (λ k. k.now) coded.entry) limits.now item.entry)) }
{
    match read_item(alloc, cluster, coded, limits, item) {
        Ok(_) => Ok(None),
        Err(LineFault::Bad(reason)) => Ok(Some(reason)),
        Err(LineFault::OutOfMemory) => Err(AllocError),
    }
}

/// The lines of a bench script that are bad, each with its place, and why it is. A line that is read
/// several times is listed once, with its first reason. Nothing is listed after a line that includes a file
/// that isn't read. Lines are counted from 1 over all lines of a file; a bad one is in no test. Nodes, signals
/// and schedule tables are those of the cluster. The text has at most 16,777,216 bytes. An error means out of
/// memory.
#[tactic(auto, unfolding(crate::specs::Scripts::bad_lines))]
pub fn bad_lines(
    alloc: Global,
    cluster: &Cluster,
    coded: Option<&Coded>,
    limits: &[NodeLimits],
    source: Source<'_>,
) -> Result<Vec<(LinePlace, Reason)>, AllocError>
    requires { length source.text.now ≤ 16777216 }
    ensures lines { IfOk result (λ v. v.items
        ≡ bad_lines cluster.now (option_map (λ k. k.now) coded.entry) limits.now (source_data source.entry)) }
    ensures first { IfOk result (λ v. AreBadOf
        (read cluster.now (option_map (λ k. k.now) coded.entry) limits.now (source_data source.entry)) v.items) }
{
    let mut script = ScriptReader::new(alloc, cluster, source)?;
    let mut listed = ListedLines::none(alloc);
    let mut bad = Vec::new(alloc);
    while let Some((place, item)) = script.next(alloc, cluster)? {
        if let Some(reason) = why_bad(alloc, cluster, coded, limits, item)?
            && !listed.has(place)
        {
            listed.add(alloc, place)?;
            bad.push((place, reason))?;
        }
    }
    Ok(bad)
}
