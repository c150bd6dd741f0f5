//! What a strict play judges of a line, beside what the line expects.

ghost use Rattle.std.specs.Prelude.{◌≡◌, drop, find, is_some, not, IfOk};
ghost use Rattle.lin_bench.specs.Made.{expects};
ghost use Rattle.lin_bench.specs.Strict.{begins_test, expects_something, has_test, is_due_event, is_never_due, left_out};
ghost use Rattle.lin_bench.specs.Strict.{lines_of_test, not_due, quiet_lines, quiet_tests, silent_lines, speaks_of_last};
ghost use Rattle.lin_bench.specs.Strict.{strictly, tells_due};

use crate::expected::Expected;
use crate::got::{Got, Judged};
use crate::line::{Disturbance, Extent, ScriptLine, Slots};
use crate::place::{LinePlace, line_place};
use crate::replies::{counted_refusal, first_refusal};
use crate::slot_runs::due_node;
use crate::taken::events_of;
use lin_core::{Event, Log, LogEntry};
use std::alloc::{AllocError, Global};

/// Whether a line expects something.
fn expects(line: &ScriptLine) -> bool
    ensures { result ≡ is_some (expects line.now) }
{
    match line {
        ScriptLine::Slots(
            Slots {
                extent: Extent::Idle(_),
                ..
            },
        ) => true,
        ScriptLine::Until(_, _) | ScriptLine::While(_, _) | ScriptLine::Expect(_) => true,
        _ => false,
    }
}

/// Whether one of these lines expects something.
fn expects_something(lines: &[(LinePlace, ScriptLine)]) -> bool
    ensures { result ≡ expects_something lines.now }
{
    lines.iter().any(|line| expects(&line.1))
}

/// Whether a line begins a test.
fn begins_test(line: &ScriptLine) -> bool
    ensures { result ≡ begins_test line.now }
{
    matches!(line, ScriptLine::Test(_))
}

/// Whether one of these lines begins a test.
fn has_test(lines: &[(LinePlace, ScriptLine)]) -> bool
    ensures { result ≡ has_test lines.now }
{
    lines.iter().any(|line| begins_test(&line.1))
}

/// Whether nothing is expected in a test that has begun, by the lines after its first one.
fn is_quiet(lines: &[(LinePlace, ScriptLine)]) -> bool
    ensures { result ≡ not (expects_something (lines_of_test lines.now)) }
{
    for line in lines {
        if begins_test(&line.1) {
            return true;
        }
        if expects(&line.1) {
            return false;
        }
    }
    true
}

/// The lines that begin a test in which nothing is expected. An error means out of memory.
fn quiet_tests(
    alloc: Global,
    lines: &[(LinePlace, ScriptLine)],
) -> Result<Vec<LinePlace>, AllocError>
    ensures { IfOk result (λ v. v.items ≡ quiet_tests lines.now) }
{
    let mut quiet = Vec::new(alloc);
    let mut left = lines;
    while let [line, rest @ ..] = left {
        if begins_test(&line.1) && is_quiet(rest) {
            quiet.push(line.0)?;
        }
        left = rest;
    }
    Ok(quiet)
}

/// The lines at which it is judged that nothing is expected: those of tests, or of a script without tests
/// its first line. An error means out of memory.
fn quiet_lines(
    alloc: Global,
    lines: &[(LinePlace, ScriptLine)],
) -> Result<Vec<LinePlace>, AllocError>
    ensures { IfOk result (λ v. v.items ≡ quiet_lines lines.now) }
{
    if has_test(lines) {
        return quiet_tests(alloc, lines);
    }
    if expects_something(lines) {
        return Ok(Vec::new(alloc));
    }
    Vec::from_slice(alloc, &[line_place(1)])
}

/// Those at which a strict play judges that; none if the play isn't strict. An error means out of memory.
pub(crate) fn silent_lines(
    alloc: Global,
    is_strict: bool,
    lines: &[(LinePlace, ScriptLine)],
) -> Result<Vec<LinePlace>, AllocError>
    ensures { IfOk result (λ v. v.items ≡ silent_lines is_strict lines.now) }
{
    if is_strict {
        quiet_lines(alloc, lines)
    } else {
        Ok(Vec::new(alloc))
    }
}

/// Whether what a line expects, if there is one, is said of the last step before it.
pub(crate) fn speaks_of_last(line: &Option<(LinePlace, ScriptLine)>) -> bool
    ensures { result ≡ speaks_of_last line.now }
{
    match line {
        Some((_, ScriptLine::Expect(Expected::Done | Expected::Refused(_)))) => true,
        _ => false,
    }
}

/// The nodes whose responses a line leaves out.
pub(crate) fn left_out(alloc: Global, line: &ScriptLine) -> Result<Vec<u8>, AllocError>
    ensures { IfOk result (λ v. v.items ≡ left_out line.now) }
{
    match line {
        ScriptLine::Slot(Disturbance::Leave(nodes)) => Vec::from_slice(alloc, nodes.as_slice()),
        ScriptLine::Slots(slots) | ScriptLine::Until(slots, _) | ScriptLine::While(slots, _) => {
            Vec::from_slice(alloc, slots.leave.as_slice())
        }
        _ => Ok(Vec::new(alloc)),
    }
}

fn is_due(event: &Event, node: u8) -> bool
    ensures { result ≡ is_due_event node event.now }
{
    due_node(event) == Some(node)
}

/// Whether an entry tells that a node is due.
fn tells_due(entry: &LogEntry, node: u8) -> bool
    ensures { result ≡ tells_due node entry.now }
{
    events_of(entry).iter().any(|event| is_due(event, node))
}

/// Whether a node is due in none of the slots that the entries of a log from one on opened.
fn is_never_due(log: &Log, from: usize, node: u8) -> bool
    ensures { result ≡ is_never_due (drop from log.now.entries) node }
{
    for index in from..log.len() {
        if tells_due(log.entry(index), node) {
            return false;
        }
    }
    true
}

/// The first of these nodes that is due in none of the slots that the entries of a log from one on
/// opened.
fn first_undue(log: &Log, from: usize, nodes: &[u8]) -> Option<u8>
    ensures { result ≡ find (is_never_due (drop from log.now.entries)) nodes.now }
{
    nodes
        .iter()
        .copied()
        .find(|node| is_never_due(log, from, *node))
}

/// The same; none where there is no entry.
fn not_due(log: &Log, from: usize, nodes: &[u8]) -> Option<u8>
    ensures { result ≡ not_due nodes.now (drop from log.now.entries) }
{
    if from >= log.len() {
        return None;
    }
    first_undue(log, from, nodes)
}

/// What a strict play judges of a line: its entries are those of the log from one on, it leaves out
/// the responses of these nodes, and the line after it may speak of its last step.
pub(crate) fn strictly(log: &Log, from: usize, left_out: &[u8], is_told: bool) -> Option<Judged>
    ensures { result ≡ strictly left_out.now is_told (drop from log.now.entries) }
{
    if first_refusal(log, from).is_none() {
        return match not_due(log, from, left_out) {
            Some(node) => Some(Judged::NotDue { node }),
            None => None,
        };
    }
    match counted_refusal(log, from, is_told) {
        Some(why) => Some(Judged::Unmet(Expected::Done, Got::Refused(why))),
        None => None,
    }
}
