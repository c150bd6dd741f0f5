//! The end of single rules.

ghost use Rattle.std.specs.Prelude.{◌≡◌, filter, not, OnOk};
ghost use Rattle.std.specs.List.{list_any};
ghost use Rattle.lin_bench.specs.Rules.{has_rule, is_ended_every, is_ended_on, is_ended_when, is_send, is_write};
ghost use Rattle.lin_bench.specs.Rules.{same_port, same_step, same_value, without_rule};

use crate::answers::same_pattern;
use crate::forms::same_form;
use crate::rules::{Repeated, RuleEnd, Rules, Watched, When};
use crate::states::same_state;
use lin_core::{PortId, Step};
use lin_frame::Value;
use lin_text::Many;
use std::alloc::{AllocError, Global};
use std::mem;

fn same_port(a: PortId, b: PortId) -> bool
    ensures { result ≡ same_port a b }
{
    match (a, b) {
        (PortId::Bus, PortId::Bus) => true,
        (PortId::Host(a), PortId::Host(b)) | (PortId::Node(a), PortId::Node(b)) => a == b,
        _ => false,
    }
}

/// Whether two values are equal.
pub(crate) fn same_value(a: &Value, b: &Value) -> bool
    ensures { result ≡ same_value a.now b.now }
{
    match (a, b) {
        (Value::Scalar(a), Value::Scalar(b)) => *a == *b,
        (Value::Bytes(a), Value::Bytes(b)) => a.as_slice() == b.as_slice(),
        _ => false,
    }
}

/// Whether two steps are the same send, or the same write.
fn same_step(a: &Step, b: &Step) -> bool
    ensures { result ≡ same_step a.now b.now }
{
    match a {
        Step::Send { from, to, message } => is_send(b, *from, *to, message.as_slice()),
        Step::Write { by, signal, value } => is_write(b, *by, *signal, value),
        _ => false,
    }
}

/// Whether a step is this send.
fn is_send(step: &Step, from: u8, to: u8, message: &[u8]) -> bool
    ensures { result ≡ is_send from to message.now step.now }
{
    match step {
        Step::Send {
            from: f,
            to: t,
            message: m,
        } => from == *f && to == *t && message == m.as_slice(),
        _ => false,
    }
}

/// Whether a step is this write.
fn is_write(step: &Step, node: u8, signal: u16, value: &Value) -> bool
    ensures { result ≡ is_write node signal value.now step.now }
{
    match step {
        Step::Write {
            by,
            signal: s,
            value: v,
        } => node == *by && signal == *s && same_value(value, v),
        _ => false,
    }
}

/// Whether a rule of a responder is one of those that end.
fn is_ended_when(end: &RuleEnd, when: &When) -> bool
    ensures { result ≡ is_ended_when end.now when.now }
{
    match end {
        RuleEnd::When {
            node,
            state,
            pattern,
        } => {
            when.node == *node
                && same_state(&when.state, state)
                && same_pattern(&when.pattern, pattern)
        }
        RuleEnd::WhensOf(node) => when.node == *node,
        RuleEnd::Every { .. } | RuleEnd::On(_) => false,
    }
}

/// Whether a repetition is one of those that end.
fn is_ended_every(end: &RuleEnd, repeated: &Repeated) -> bool
    ensures { result ≡ is_ended_every end.now repeated.now }
{
    match end {
        RuleEnd::Every { by, step } => {
            same_port(repeated.every.by, *by) && same_step(&repeated.every.step, step)
        }
        RuleEnd::When { .. } | RuleEnd::WhensOf(_) | RuleEnd::On(_) => false,
    }
}

/// Whether a step that a form calls for is one of those that end.
fn is_ended_on(end: &RuleEnd, watched: &Watched) -> bool
    ensures { result ≡ is_ended_on end.now watched.now }
{
    match end {
        RuleEnd::On(form) => same_form(&watched.on.form, form),
        RuleEnd::When { .. } | RuleEnd::WhensOf(_) | RuleEnd::Every { .. } => false,
    }
}

fn some_when(whens: &[When], end: &RuleEnd) -> bool
    ensures { result ≡ list_any (is_ended_when end.now) whens.now }
{
    whens.iter().any(|when| is_ended_when(end, when))
}

fn some_every(everies: &[Repeated], end: &RuleEnd) -> bool
    ensures { result ≡ list_any (is_ended_every end.now) everies.now }
{
    everies.iter().any(|repeated| is_ended_every(end, repeated))
}

fn some_on(ons: &[Watched], end: &RuleEnd) -> bool
    ensures { result ≡ list_any (is_ended_on end.now) ons.now }
{
    ons.iter().any(|watched| is_ended_on(end, watched))
}

/// Whether one of the rules in force is one of those that a line ends.
pub(crate) fn has_rule(rules: &Rules, end: &RuleEnd) -> bool
    ensures { result ≡ has_rule rules.now end.now }
{
    some_when(rules.whens.as_slice(), end)
        || some_every(rules.everies.as_slice(), end)
        || some_on(rules.ons.as_slice(), end)
}

/// Keeps the rules of responders that don't end.
fn keep_whens(alloc: Global, whens: &mut Many<When>, end: &RuleEnd) -> Result<(), AllocError>
    ensures { OnOk result (whens.new ≡ filter (λ w. not (is_ended_when end.now w)) whens.old) }
{
    let all = mem::replace(whens, Many::new(Vec::new(alloc)));
    for when in all.into_vec() {
        if !is_ended_when(end, &when) {
            whens.push(when)?;
        }
    }
    Ok(())
}

/// Keeps the repetitions that don't end.
fn keep_everies(
    alloc: Global,
    everies: &mut Many<Repeated>,
    end: &RuleEnd,
) -> Result<(), AllocError>
    ensures { OnOk result
        (everies.new ≡ filter (λ r. not (is_ended_every end.now r)) everies.old) }
{
    let all = mem::replace(everies, Many::new(Vec::new(alloc)));
    for repeated in all.into_vec() {
        if !is_ended_every(end, &repeated) {
            everies.push(repeated)?;
        }
    }
    Ok(())
}

/// Keeps the steps that forms call for that don't end.
fn keep_ons(alloc: Global, ons: &mut Many<Watched>, end: &RuleEnd) -> Result<(), AllocError>
    ensures { OnOk result (ons.new ≡ filter (λ o. not (is_ended_on end.now o)) ons.old) }
{
    let all = mem::replace(ons, Many::new(Vec::new(alloc)));
    for watched in all.into_vec() {
        if !is_ended_on(end, &watched) {
            ons.push(watched)?;
        }
    }
    Ok(())
}

/// Puts single rules out of force. An error means out of memory.
pub(crate) fn end_rules(alloc: Global, rules: &mut Rules, end: &RuleEnd) -> Result<(), AllocError>
    ensures { OnOk result (rules.new ≡ without_rule rules.old end.now) }
{
    keep_whens(alloc, &mut rules.whens, end)?;
    keep_everies(alloc, &mut rules.everies, end)?;
    keep_ons(alloc, &mut rules.ons, end)
}
