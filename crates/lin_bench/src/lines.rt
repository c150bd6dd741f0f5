//! The forms of lines.

ghost use Rattle.std.specs.Prelude.{◌≡◌, option_map};
ghost use Rattle.lin_bench.specs.Fields.{line_fields};
ghost use Rattle.lin_bench.specs.Lines.{after_count, all_answer, count_form, early_form, ends_early};
ghost use Rattle.lin_bench.specs.Lines.{extent_of, forget_form, idle_form, is_resolved, leave_form, left_form};
ghost use Rattle.lin_bench.specs.Lines.{line_form, node_fields, nodes_and_early, nodes_read, read_line};
ghost use Rattle.lin_bench.specs.Lines.{rule_or_step_form, slot_form, slots_form, test_form, BeginsNodes};
ghost use Rattle.lin_bench.specs.Read.{Gives};

use crate::expectations::{expectation, holding, until};
use crate::fault::LineFault;
use crate::fields::{Fields, bytes_fields, count_field, node_field};
use crate::line::{Disturbance, Extent, ScriptLine, Slots};
use crate::on_lines::on;
use crate::reason::Reason;
use crate::rule_lines::{every, power, response_errors, services, state, timeouts, when};
use crate::said_values::joined;
use lin_core::PortId;
use lin_log::{first_field, is_over, is_port, port_step, step};
use lin_parts::Cluster;
use lin_text::{Many, Text};
use std::alloc::Global;

/// How many slots are made where no message waits any more, and no number says how many at most.
const IDLE: u32 = 10_000;

/// Slots in which each node that is due answers.
fn all_answer(alloc: Global, extent: Extent) -> Slots
    ensures { result ≡ all_answer extent }
{
    Slots {
        extent,
        leave: Many::new(Vec::new(alloc)),
    }
}

/// Slots until no message waits, by the fields after `idle`.
fn idle(alloc: Global, cluster: &Cluster, line: &[u8]) -> Result<ScriptLine, LineFault>
    ensures { Gives (λ l. l) result (idle_form (line_fields line.now)) }
{
    let Some((count, rest)) = first_field(cluster, line) else {
        return Ok(ScriptLine::Slots(all_answer(alloc, Extent::Idle(IDLE))));
    };
    if !is_over(cluster, rest) {
        return Err(LineFault::Bad(Reason::SlotsForm));
    }
    let count = count_field(alloc, count)?;
    Ok(ScriptLine::Slots(all_answer(alloc, Extent::Idle(count))))
}

fn ends_early(word: &[u8]) -> bool
    ensures { result ≡ ends_early word.now }
{
    word == b"until".as_slice() || word == b"while".as_slice()
}

/// Slots, and what ends them early, by the fields after them.
fn early(
    alloc: Global,
    cluster: &Cluster,
    slots: Slots,
    line: &[u8],
) -> Result<ScriptLine, LineFault>
    ensures { Gives (λ l. l) result (early_form cluster.now slots (line_fields line.now)) }
{
    let Some((word, rest)) = first_field(cluster, line) else {
        return Ok(ScriptLine::Slots(slots));
    };
    if word == b"until".as_slice() {
        Ok(ScriptLine::Until(slots, until(alloc, cluster, rest)?))
    } else if word == b"while".as_slice() {
        Ok(ScriptLine::While(slots, holding(alloc, cluster, rest)?))
    } else {
        Err(LineFault::Bad(Reason::SlotsForm))
    }
}

/// The first field of a line and the rest, unless it ends slots early.
fn field_before_early<'a>(cluster: &Cluster, line: &'a [u8]) -> Option<(&'a [u8], &'a [u8])>
    ensures { BeginsNodes (option_map (λ f. (f.0.now, line_fields f.1.now)) result) (line_fields line.now) }
{
    match first_field(cluster, line) {
        Some((field, rest)) if !ends_early(field) => Some((field, rest)),
        _ => None,
    }
}

/// The nodes that leave their responses out, by the fields up to what ends slots early, and the rest of
/// the line from that on.
fn nodes_and_early<'a>(
    alloc: Global,
    cluster: &Cluster,
    line: &'a [u8],
) -> Result<(Many<u8>, &'a [u8]), LineFault>
    ensures { Gives (λ r. (r.0, line_fields r.1.now)) result
        (nodes_read cluster.now (nodes_and_early (line_fields line.now))) }
{
    let mut nodes = Vec::new(alloc);
    let mut left = line;
    while let Some((field, rest)) = field_before_early(cluster, left) {
        let node = node_field(alloc, cluster, field)?;
        if nodes.push(node).is_err() {
            return Err(LineFault::OutOfMemory);
        }
        left = rest;
    }
    Ok((Many::new(nodes), left))
}

/// Slots in which nodes leave their responses out, by the fields after `leave`.
fn left_out(
    alloc: Global,
    cluster: &Cluster,
    extent: Extent,
    line: &[u8],
) -> Result<ScriptLine, LineFault>
    ensures { Gives (λ l. l) result
        (left_form cluster.now extent (nodes_and_early (line_fields line.now))) }
{
    if field_before_early(cluster, line).is_none() {
        return Err(LineFault::Bad(Reason::SlotsLeaveForm));
    }
    let (leave, rest) = nodes_and_early(alloc, cluster, line)?;
    early(alloc, cluster, Slots { extent, leave }, rest)
}

/// How many slots are made, by their number or that of a time.
fn extent_of(alloc: Global, is_time: bool, count: &[u8]) -> Result<Extent, LineFault>
    ensures { Gives (λ e. e) result (extent_of is_time count.now) }
{
    let count = count_field(alloc, count)?;
    Ok(if is_time {
        Extent::Milliseconds(count)
    } else {
        Extent::Count(count)
    })
}

/// Slots, by their number or that of a time and the fields after it.
fn after_count(
    alloc: Global,
    cluster: &Cluster,
    is_time: bool,
    count: &[u8],
    line: &[u8],
) -> Result<ScriptLine, LineFault>
    ensures { Gives (λ l. l) result (after_count cluster.now is_time count.now (line_fields line.now)) }
{
    let Some((word, rest)) = first_field(cluster, line) else {
        let extent = extent_of(alloc, is_time, count)?;
        return Ok(ScriptLine::Slots(all_answer(alloc, extent)));
    };
    if word == b"leave".as_slice() {
        let extent = extent_of(alloc, is_time, count)?;
        left_out(alloc, cluster, extent, rest)
    } else if ends_early(word) {
        let extent = extent_of(alloc, is_time, count)?;
        early(alloc, cluster, all_answer(alloc, extent), line)
    } else {
        Err(LineFault::Bad(Reason::SlotsForm))
    }
}

/// Slots, by their number or that of a time and the fields after it.
fn counted(
    alloc: Global,
    cluster: &Cluster,
    count: &[u8],
    line: &[u8],
) -> Result<ScriptLine, LineFault>
    ensures { Gives (λ l. l) result (count_form cluster.now count.now (line_fields line.now)) }
{
    match first_field(cluster, line) {
        Some((word, rest)) if word == b"ms".as_slice() => {
            after_count(alloc, cluster, true, count, rest)
        }
        _ => after_count(alloc, cluster, false, count, line),
    }
}

/// Slots, by the fields after `slots`.
#[tactic(auto, unfolding(crate::specs::Lines::slots_form))]
fn slots(alloc: Global, cluster: &Cluster, line: &[u8]) -> Result<ScriptLine, LineFault>
    ensures { Gives (λ l. l) result (slots_form cluster.now (line_fields line.now)) }
{
    let Some((count, rest)) = first_field(cluster, line) else {
        return Err(LineFault::Bad(Reason::SlotsForm));
    };
    if count == b"idle".as_slice() {
        idle(alloc, cluster, rest)
    } else {
        counted(alloc, cluster, count, rest)
    }
}

/// That all events so far are taken, where no field stands after its word.
fn forget(alloc: Global, cluster: &Cluster, line: &[u8]) -> Result<ScriptLine, LineFault>
    ensures { Gives (λ l. l) result (forget_form (line_fields line.now)) }
{
    if is_over(cluster, line) {
        return Ok(ScriptLine::Forget);
    }
    Err(LineFault::Bad(Reason::Step(lin_log::Reason::Takes {
        word: Text::copied(alloc, b"forget")?,
        fields: 0,
    })))
}

/// That a test begins, by the fields of its name.
fn test(alloc: Global, cluster: &Cluster, line: &[u8]) -> Result<ScriptLine, LineFault>
    ensures { Gives (λ l. l) result (test_form (line_fields line.now)) }
{
    let name = Fields::of(cluster, line);
    if name.is_empty() {
        return Err(LineFault::Bad(Reason::TestForm));
    }
    let name = joined(alloc, name)?;
    Ok(ScriptLine::Test(Text::copied(alloc, name.as_slice())?))
}

fn node_fields(alloc: Global, cluster: &Cluster, line: &[u8]) -> Result<Many<u8>, LineFault>
    ensures { Gives (λ nodes. nodes) result (node_fields cluster.now (line_fields line.now)) }
{
    let mut nodes = Vec::new(alloc);
    let mut left = line;
    while let Some((field, rest)) = first_field(cluster, left) {
        let node = node_field(alloc, cluster, field)?;
        if nodes.push(node).is_err() {
            return Err(LineFault::OutOfMemory);
        }
        left = rest;
    }
    Ok(Many::new(nodes))
}

/// The nodes that leave their responses out.
fn leave(alloc: Global, cluster: &Cluster, line: &[u8]) -> Result<Disturbance, LineFault>
    ensures { Gives (λ d. d) result (leave_form cluster.now (line_fields line.now)) }
{
    if is_over(cluster, line) {
        return Err(LineFault::Bad(Reason::LeaveForm));
    }
    Ok(Disturbance::Leave(node_fields(alloc, cluster, line)?))
}

/// How a slot is disturbed, by the fields after `slot`.
#[tactic(auto, unfolding(crate::specs::Lines::slot_form))]
fn slot(alloc: Global, cluster: &Cluster, line: &[u8]) -> Result<Disturbance, LineFault>
    ensures { Gives (λ d. d) result (slot_form cluster.now (line_fields line.now)) }
{
    let Some((word, rest)) = first_field(cluster, line) else {
        return Ok(Disturbance::Undisturbed);
    };
    if word == b"hurt".as_slice() {
        Ok(Disturbance::Hurt(bytes_fields(alloc, cluster, rest)?))
    } else if word == b"leave".as_slice() {
        leave(alloc, cluster, rest)
    } else {
        Err(LineFault::Bad(Reason::SlotForm(Text::copied(alloc, word)?)))
    }
}

/// Whether a word is one of lines that are resolved while a script is read.
fn is_resolved(word: &[u8]) -> bool
    ensures { result ≡ is_resolved word.now }
{
    word == b"set".as_slice()
        || word == b"repeat".as_slice()
        || word == b"end".as_slice()
        || word == b"include".as_slice()
}

/// What a line of a rule says, or of a step by the bus, by its first field and the rest of it.
fn rule_or_step(
    alloc: Global,
    cluster: &Cluster,
    word: &[u8],
    rest: &[u8],
) -> Result<ScriptLine, LineFault>
    ensures { Gives (λ l. l) result (rule_or_step_form cluster.now word.now (line_fields rest.now)) }
{
    if word == b"when".as_slice() {
        Ok(ScriptLine::Rule(when(alloc, cluster, rest)?))
    } else if word == b"timeouts".as_slice() {
        Ok(ScriptLine::Rule(timeouts(alloc, cluster, rest)?))
    } else if word == b"every".as_slice() {
        Ok(ScriptLine::Rule(every(alloc, cluster, rest)?))
    } else if word == b"services".as_slice() {
        Ok(ScriptLine::Rule(services(cluster, rest)?))
    } else if word == b"response_errors".as_slice() {
        Ok(ScriptLine::Rule(response_errors(alloc, cluster, rest)?))
    } else if word == b"state".as_slice() {
        Ok(ScriptLine::Rule(state(alloc, cluster, rest)?))
    } else if word == b"node".as_slice() {
        Ok(ScriptLine::Rule(power(alloc, cluster, rest)?))
    } else if word == b"on".as_slice() {
        Ok(ScriptLine::Rule(on(alloc, cluster, rest)?))
    } else {
        Ok(ScriptLine::Step(PortId::Bus, step(alloc, cluster, word, rest)?))
    }
}

/// What a line says, by its first field and the rest of it.
#[tactic(auto, unfolding(crate::specs::Lines::line_form))]
fn of_word(
    alloc: Global,
    cluster: &Cluster,
    word: &[u8],
    rest: &[u8],
) -> Result<ScriptLine, LineFault>
    ensures { Gives (λ l. l) result (line_form cluster.now word.now (line_fields rest.now)) }
{
    if is_port(word) {
        let (by, step) = port_step(alloc, cluster, word, rest)?;
        Ok(ScriptLine::Step(by, step))
    } else if word == b"slots".as_slice() {
        slots(alloc, cluster, rest)
    } else if word == b"slot".as_slice() {
        Ok(ScriptLine::Slot(slot(alloc, cluster, rest)?))
    } else if word == b"expect".as_slice() {
        Ok(ScriptLine::Expect(expectation(alloc, cluster, rest)?))
    } else if word == b"forget".as_slice() {
        forget(alloc, cluster, rest)
    } else if word == b"test".as_slice() {
        test(alloc, cluster, rest)
    } else if is_resolved(word) {
        Err(LineFault::Bad(Reason::ForScripts(Text::copied(alloc, word)?)))
    } else {
        rule_or_step(alloc, cluster, word, rest)
    }
}

/// What a line of a bench script, without its end, says; nothing where it has no field or begins
/// with `>`. Nodes, signals and schedule tables are those of the cluster.
///
/// # Errors
/// `Bad` with why the line is; `OutOfMemory`.
#[tactic(auto, unfolding(crate::specs::Lines::read_line))]
pub fn read_line(
    alloc: Global,
    cluster: &Cluster,
    line: &[u8],
) -> Result<Option<ScriptLine>, LineFault>
    ensures { Gives (λ l. l) result (read_line cluster.now line.now) }
{
    if let [b'>', ..] = line {
        return Ok(None);
    }
    match first_field(cluster, line) {
        None => Ok(None),
        Some((word, rest)) => Ok(Some(of_word(alloc, cluster, word, rest)?)),
    }
}
