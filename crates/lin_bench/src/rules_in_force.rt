//! The rules in force as the lines that make them.

ghost use Rattle.std.specs.Prelude.{◌≡◌, ◌∷◌, ◌++◌, [], IfOk, None, OnOk, flat_map, map};
ghost use Rattle.lin_text.specs.Written.{Grows};
ghost use Rattle.lin_bench.specs.RulesInForce.{answer_text, answers_text, every_line, further_answer_text};
ghost use Rattle.lin_bench.specs.RulesInForce.{limit_text, line_if, lines_of_rules, name_text, own_limit_line, off_line, off_lines, on_line, own_limit_lines, part_gap, part_word, parts_text};
ghost use Rattle.lin_bench.specs.RulesInForce.{port_text, rule_line, time_text, timeouts_lines};
ghost use Rattle.lin_bench.specs.RulesInForce.{state_line, state_lines, switch_lines, wait_text, when_line};

use crate::limits::own_limit;
use crate::powers::is_off;
use crate::rules::{
    Every, Limit, NodeState, On, OwnLimit, Part, Repeated, RuleAnswer, Rules, Watched, When,
};
use crate::states::kept_state;
use crate::texts::condition_line;
use crate::word_list::put_word_list;
use lin_core::PortId;
use lin_log::{put_node, put_pattern, put_port, put_step};
use lin_parts::Cluster;
use lin_text::{Text, TextBuffer, TextWriter};
use std::alloc::{AllocError, Global};
use std::io::Write;

/// What stands between a part of an answer and the one before it.
fn put_gap<W: Write>(out: &mut TextWriter<'_, W>, before: Option<Part>, part: Part)
    ensures { Grows W.contents out.old out.new (part_gap before part) }
{
    match (before, part) {
        (Some(Part::Byte(_)), Part::Byte(_)) => {}
        _ => out.put_byte(b' '),
    }
}

fn put_part<W: Write>(out: &mut TextWriter<'_, W>, part: Part)
    ensures { Grows W.contents out.old out.new (part_word part) }
{
    match part {
        Part::Byte(byte) => out.put_hex_byte(byte),
        Part::Copied(k) => out.put_numbered(b'$', u64::from(k)),
    }
}

/// The parts of an answer.
fn put_parts<W: Write>(out: &mut TextWriter<'_, W>, parts: &[Part])
    ensures { Grows W.contents out.old out.new (parts_text None parts.now) }
{
    let mut before = None;
    for part in parts {
        put_gap(out, before, *part);
        put_part(out, *part);
        before = Some(*part);
    }
}

/// A time in milliseconds with its unit, after a word.
fn put_time<W: Write>(out: &mut TextWriter<'_, W>, word: &str, ms: u32)
    ensures { Grows W.contents out.old out.new (time_text word.now ms) }
{
    out.put_text(word);
    out.put_number(ms);
    out.put_text(" ms");
}

fn put_wait<W: Write>(out: &mut TextWriter<'_, W>, wait_ms: u32)
    ensures { Grows W.contents out.old out.new (wait_text wait_ms) }
{
    if wait_ms > 0 {
        put_time(out, " after ", wait_ms);
    }
}

fn put_answer<W: Write>(out: &mut TextWriter<'_, W>, answer: &RuleAnswer)
    ensures { Grows W.contents out.old out.new (answer_text answer.now) }
{
    put_parts(out, answer.parts.as_slice());
    put_wait(out, answer.wait_ms);
}

fn put_further_answers<W: Write>(out: &mut TextWriter<'_, W>, answers: &[RuleAnswer])
    ensures { Grows W.contents out.old out.new (flat_map further_answer_text answers.now) }
{
    for answer in answers {
        out.put_text(" then");
        put_answer(out, answer);
    }
}

fn put_answers<W: Write>(out: &mut TextWriter<'_, W>, answers: &[RuleAnswer])
    ensures { Grows W.contents out.old out.new (answers_text answers.now) }
{
    match answers {
        [] => out.put_text(" silent"),
        [first, rest @ ..] => {
            out.put_text(" answer");
            put_answer(out, first);
            put_further_answers(out, rest);
        }
    }
}

/// A state after a word, if there is one.
fn put_name<W: Write>(out: &mut TextWriter<'_, W>, word: &str, name: &Option<Text>)
    ensures { Grows W.contents out.old out.new (name_text word.now name.now) }
{
    if let Some(name) = name {
        out.put_text(word);
        out.put(name.as_slice());
    }
}

fn put_when<W: Write>(out: &mut TextWriter<'_, W>, cluster: &Cluster, when: &When)
    ensures { Grows W.contents out.old out.new (when_line cluster.now when.now) }
{
    out.put_text("when");
    put_node(out, cluster, when.node);
    put_name(out, " in ", &when.state);
    out.put_byte(b' ');
    put_pattern(out, &when.pattern);
    put_answers(out, when.answers.as_slice());
    put_name(out, " enter ", &when.enter);
}

fn put_state<W: Write>(out: &mut TextWriter<'_, W>, cluster: &Cluster, state: &NodeState)
    ensures { Grows W.contents out.old out.new (state_line cluster.now state.now) }
{
    out.put_text("state");
    put_node(out, cluster, state.node);
    out.put_byte(b' ');
    out.put(state.name.as_slice());
}

/// The port of a step that is repeated; nothing for the bus.
pub(crate) fn put_repeating_port<W: Write>(
    out: &mut TextWriter<'_, W>,
    cluster: &Cluster,
    by: PortId,
)
    ensures { Grows W.contents out.old out.new (port_text cluster.now by) }
{
    match by {
        PortId::Bus => {}
        _ => {
            out.put_byte(b' ');
            put_port(out, cluster, by);
        }
    }
}

fn put_every<W: Write>(out: &mut TextWriter<'_, W>, cluster: &Cluster, every: &Every)
    ensures { Grows W.contents out.old out.new (every_line cluster.now every.now) }
{
    put_time(out, "every ", every.period_ms);
    put_repeating_port(out, cluster, every.by);
    put_step(out, cluster, &every.step);
}

/// A limit, or that there is none.
fn put_limit<W: Write>(out: &mut TextWriter<'_, W>, limit_ms: Option<u32>)
    ensures { Grows W.contents out.old out.new (limit_text limit_ms) }
{
    match limit_ms {
        Some(ms) => put_time(out, " ", ms),
        None => out.put_text(" off"),
    }
}

fn put_own_limit<W: Write>(out: &mut TextWriter<'_, W>, cluster: &Cluster, limit: OwnLimit)
    ensures { Grows W.contents out.old out.new (own_limit_line cluster.now limit) }
{
    out.put_text("timeouts");
    put_node(out, cluster, limit.node);
    put_limit(out, limit.limit_ms);
}

fn put_on<W: Write>(out: &mut TextWriter<'_, W>, cluster: &Cluster, on: &On)
    ensures { Grows W.contents out.old out.new (on_line cluster.now on.now) }
{
    out.put_text("on ");
    put_word_list(out, cluster, &condition_line(&on.form.what, on.form.wanted));
    out.put_text(" do");
    put_repeating_port(out, cluster, on.by);
    put_step(out, cluster, &on.step);
}

fn put_off<W: Write>(out: &mut TextWriter<'_, W>, cluster: &Cluster, node: u8)
    ensures { Grows W.contents out.old out.new (off_line cluster.now node) }
{
    out.put_text("node");
    put_node(out, cluster, node);
    out.put_text(" off");
}

/// A rule that has a line.
#[derive(Clone, Copy)]
enum RuleLine<'r> {
    When(&'r When),
    Timeouts(u32),
    /// A rule that is on or off; its line is always the same.
    Switch(&'r str),
    Every(&'r Every),
    On(&'r On),
    State(&'r NodeState),
    OwnLimit(OwnLimit),
    /// A node that is off.
    Off(u8),
}

fn put_rule<W: Write>(out: &mut TextWriter<'_, W>, cluster: &Cluster, rule: RuleLine<'_>)
    ensures { Grows W.contents out.old out.new (rule_line cluster.now rule.entry) }
{
    match rule {
        RuleLine::When(when) => put_when(out, cluster, when),
        RuleLine::Timeouts(ms) => put_time(out, "timeouts ", ms),
        RuleLine::Switch(line) => out.put_text(line),
        RuleLine::Every(every) => put_every(out, cluster, every),
        RuleLine::On(on) => put_on(out, cluster, on),
        RuleLine::State(state) => put_state(out, cluster, state),
        RuleLine::OwnLimit(limit) => put_own_limit(out, cluster, limit),
        RuleLine::Off(node) => put_off(out, cluster, node),
    }
}

/// The line of a rule. An error means out of memory.
fn line_text(alloc: Global, cluster: &Cluster, rule: RuleLine<'_>) -> Result<Vec<u8>, AllocError>
    ensures { IfOk result (λ text. text.items ≡ rule_line cluster.now rule.entry) }
{
    let mut text = Vec::new(alloc);
    let mut buffer = TextBuffer::empty();
    let mut out = TextWriter::new(&mut text, &mut buffer);
    put_rule(&mut out, cluster, rule);
    match out.finish() {
        Ok(()) => Ok(text),
        Err(_) => Err(AllocError),
    }
}

/// Adds the line of a rule. An error means out of memory.
fn add_line(
    alloc: Global,
    cluster: &Cluster,
    rule: RuleLine<'_>,
    lines: &mut Vec<Text>,
) -> Result<(), AllocError>
    ensures { OnOk result (lines.new.items ≡ lines.old.items ++ rule_line cluster.now rule.entry ∷ []) }
{
    let text = line_text(alloc, cluster, rule)?;
    lines.push(Text::copied(alloc, text.as_slice())?)?;
    Ok(())
}

fn add_whens(
    alloc: Global,
    cluster: &Cluster,
    whens: &[When],
    lines: &mut Vec<Text>,
) -> Result<(), AllocError>
    ensures { OnOk result (lines.new.items ≡ lines.old.items ++ map (when_line cluster.now) whens.now) }
{
    for when in whens {
        add_line(alloc, cluster, RuleLine::When(when), lines)?;
    }
    Ok(())
}

fn add_timeouts(
    alloc: Global,
    cluster: &Cluster,
    limit: &Option<Limit>,
    lines: &mut Vec<Text>,
) -> Result<(), AllocError>
    ensures { OnOk result (lines.new.items ≡ lines.old.items ++ timeouts_lines limit.now) }
{
    match limit {
        Some(Limit::Milliseconds(ms)) => add_line(alloc, cluster, RuleLine::Timeouts(*ms), lines),
        Some(Limit::Ldf(_)) => add_line(alloc, cluster, RuleLine::Switch("timeouts ldf"), lines),
        None => Ok(()),
    }
}

/// Adds the lines of the limits of single responders, by rising node.
fn add_own_limits(
    alloc: Global,
    cluster: &Cluster,
    limits: &[OwnLimit],
    lines: &mut Vec<Text>,
) -> Result<(), AllocError>
    ensures { OnOk result (lines.new.items ≡ lines.old.items ++ own_limit_lines cluster.now limits.now) }
{
    for node in 0..cluster.nodes() as u8 {
        if let Some(limit) = own_limit(limits, node) {
            add_line(alloc, cluster, RuleLine::OwnLimit(*limit), lines)?;
        }
    }
    Ok(())
}

/// Adds a line that is always the same, if its rule is on.
fn add_if(
    alloc: Global,
    cluster: &Cluster,
    is_on: bool,
    line: &str,
    lines: &mut Vec<Text>,
) -> Result<(), AllocError>
    ensures { OnOk result (lines.new.items ≡ lines.old.items ++ line_if is_on line.now) }
{
    if is_on {
        add_line(alloc, cluster, RuleLine::Switch(line), lines)?;
    }
    Ok(())
}

fn add_everies(
    alloc: Global,
    cluster: &Cluster,
    everies: &[Repeated],
    lines: &mut Vec<Text>,
) -> Result<(), AllocError>
    ensures { OnOk result (lines.new.items
        ≡ lines.old.items ++ map (λ repeated. every_line cluster.now repeated.every) everies.now) }
{
    for repeated in everies {
        add_line(alloc, cluster, RuleLine::Every(&repeated.every), lines)?;
    }
    Ok(())
}

fn add_ons(
    alloc: Global,
    cluster: &Cluster,
    ons: &[Watched],
    lines: &mut Vec<Text>,
) -> Result<(), AllocError>
    ensures { OnOk result (lines.new.items
        ≡ lines.old.items ++ map (λ watched. on_line cluster.now watched.on) ons.now) }
{
    for watched in ons {
        add_line(alloc, cluster, RuleLine::On(&watched.on), lines)?;
    }
    Ok(())
}

/// Adds the lines of states that aren't `default`, by rising node.
fn add_states(
    alloc: Global,
    cluster: &Cluster,
    states: &[NodeState],
    lines: &mut Vec<Text>,
) -> Result<(), AllocError>
    ensures { OnOk result (lines.new.items ≡ lines.old.items ++ state_lines cluster.now states.now) }
{
    for node in 0..cluster.nodes() as u8 {
        if let Some(state) = kept_state(states, node) {
            add_line(alloc, cluster, RuleLine::State(state), lines)?;
        }
    }
    Ok(())
}

/// Adds the lines of the nodes that are off, by rising node.
fn add_offs(
    alloc: Global,
    cluster: &Cluster,
    offs: &[u8],
    lines: &mut Vec<Text>,
) -> Result<(), AllocError>
    ensures { OnOk result (lines.new.items ≡ lines.old.items ++ off_lines cluster.now offs.now) }
{
    for node in 0..cluster.nodes() as u8 {
        if is_off(offs, node) {
            add_line(alloc, cluster, RuleLine::Off(node), lines)?;
        }
    }
    Ok(())
}

/// Adds the lines of `response_errors on` and `services on`, if they are. An error means out of memory.
fn add_switches(
    alloc: Global,
    cluster: &Cluster,
    rules: &Rules,
    lines: &mut Vec<Text>,
) -> Result<(), AllocError>
    ensures { OnOk result (lines.new.items ≡ lines.old.items ++ switch_lines rules.now) }
{
    add_if(alloc, cluster, rules.errors, "response_errors on", lines)?;
    add_if(alloc, cluster, rules.services, "services on", lines)
}

/// The lines that make the rules in force: each `when` in the order of the first lines of its node, state
/// and pattern, `timeouts` of all and then of single responders by rising node, `response_errors on`,
/// `services on`, each `every` and each `on` in the order of the lines, and by rising node the states that
/// aren't `default` and the nodes that are off.
///
/// # Errors
/// Out of memory.
pub(crate) fn lines_of_rules(
    alloc: Global,
    cluster: &Cluster,
    rules: &Rules,
) -> Result<Vec<Text>, AllocError>
    ensures { IfOk result (λ lines. lines.items ≡ lines_of_rules cluster.now rules.now) }
{
    let mut lines = Vec::new(alloc);
    add_whens(alloc, cluster, rules.whens.as_slice(), &mut lines)?;
    add_timeouts(alloc, cluster, &rules.limit, &mut lines)?;
    add_own_limits(alloc, cluster, rules.own_limits.as_slice(), &mut lines)?;
    add_switches(alloc, cluster, rules, &mut lines)?;
    add_everies(alloc, cluster, rules.everies.as_slice(), &mut lines)?;
    add_ons(alloc, cluster, rules.ons.as_slice(), &mut lines)?;
    add_states(alloc, cluster, rules.states.as_slice(), &mut lines)?;
    add_offs(alloc, cluster, rules.offs.as_slice(), &mut lines)?;
    Ok(lines)
}
