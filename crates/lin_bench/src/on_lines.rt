//! The forms of lines of steps that signals and frames call for.

ghost use Rattle.std.specs.Prelude.{◌≡◌, ◌&&◌, ◌||◌, ◌∷◌, IfOk, option_map};
ghost use Rattle.lin_bench.specs.Fields.{line_fields};
ghost use Rattle.lin_bench.specs.OnLines.{after_do, called_step, form_fields, form_of, is_called, may_call};
ghost use Rattle.lin_bench.specs.OnLines.{off_at, on_do, on_end, on_form, on_step, step_after};
ghost use Rattle.lin_bench.specs.Parts.{fields_of};
ghost use Rattle.lin_bench.specs.Read.{Gives};
ghost use Rattle.lin_bench.specs.declared.fault.LineFault.{LineFault};
ghost use Rattle.lin_bench.specs.declared.reason.Reason.{Reason};

use crate::expectations::condition;
use crate::fault::LineFault;
use crate::fields::{Fields, copied_fields};
use crate::reason::Reason;
use crate::rules::{Form, On, Rule, RuleEnd, Watched};
use lin_core::{PortId, Step};
use lin_log::{first_field, is_port, port_step, step};
use lin_parts::Cluster;
use std::alloc::{AllocError, Global};

/// The fault of a line of `on` that is none of its forms.
fn no_form(alloc: Global, all: Fields<'_>) -> Result<LineFault, AllocError>
    ensures { IfOk result (λ fault. fault ≡ LineFault.Bad (Reason.UnknownOn (fields_of all.entry))) }
{
    Ok(LineFault::Bad(Reason::UnknownOn(copied_fields(alloc, all)?)))
}

/// Whether a word names a condition that a step may wait for: that it holds, or that it doesn't.
fn may_call(word: &[u8], wanted: bool) -> bool
    ensures { result ≡ may_call wanted word.now }
{
    word == b"signal".as_slice()
        || word == b"seen".as_slice()
        || word == b"frame".as_slice()
        || word == b"slot".as_slice()
        || wanted && word == b"changed".as_slice()
}

/// The form of a condition that is to hold, or isn't, by its word and the fields after it; `all` are the
/// fields of the form.
fn form_of(
    alloc: Global,
    cluster: &Cluster,
    all: Fields<'_>,
    wanted: bool,
    word: &[u8],
    parts: Fields<'_>,
) -> Result<Form, LineFault>
    ensures { Gives (λ f. f) result
        (form_of cluster.now (fields_of all.entry) wanted word.now (fields_of parts.entry)) }
{
    if !may_call(word, wanted) {
        return Err(no_form(alloc, all)?);
    }
    match condition(alloc, cluster, all, word, parts) {
        Ok(Some(what)) => Ok(Form { wanted, what }),
        Ok(None) => Err(no_form(alloc, all)?),
        Err(LineFault::Bad(why)) => Err(LineFault::Bad(why.of_on(alloc, all)?)),
        Err(fault) => Err(fault),
    }
}

/// The form that a step waits for, by its fields.
fn form_fields(alloc: Global, cluster: &Cluster, all: Fields<'_>) -> Result<Form, LineFault>
    ensures { Gives (λ f. f) result (form_fields cluster.now (fields_of all.entry)) }
{
    let Some((first, others)) = all.first() else {
        return Err(LineFault::Bad(Reason::OnForm));
    };
    match others.first() {
        Some((word, parts)) if first == b"not".as_slice() => {
            form_of(alloc, cluster, all, false, word, parts)
        }
        _ => form_of(alloc, cluster, all, true, first, others),
    }
}

/// A step that a form may call for.
fn called_step(by: PortId, step: Step) -> Result<(PortId, Step), LineFault>
    ensures { Gives (λ s. s) result (called_step (by, step)) }
{
    match step {
        Step::Send { .. } | Step::Write { .. } | Step::Switch { .. } | Step::AskSleep => {
            Ok((by, step))
        }
        _ => Err(LineFault::Bad(Reason::OnStep)),
    }
}

/// Whether a word names a step that a form may call for.
fn is_called(word: &[u8]) -> bool
    ensures { result ≡ is_called word.now }
{
    word == b"send".as_slice()
        || word == b"write".as_slice()
        || word == b"switch".as_slice()
        || word == b"sleep".as_slice()
}

/// The step of a reaction. Without a port before it, its port is `bus`.
fn on_step(
    alloc: Global,
    cluster: &Cluster,
    word: &[u8],
    rest: &[u8],
) -> Result<(PortId, Step), LineFault>
    ensures { Gives (λ s. s) result (on_step cluster.now word.now (line_fields rest.now)) }
{
    if is_port(word) {
        let (by, step) = port_step(alloc, cluster, word, rest)?;
        return called_step(by, step);
    }
    if is_called(word) {
        return Ok((PortId::Bus, step(alloc, cluster, word, rest)?));
    }
    Err(LineFault::Bad(Reason::OnStep))
}

/// The line after its first field `do`; none if there is no such field.
fn after_do<'a>(cluster: &Cluster, line: &'a [u8]) -> Option<&'a [u8]>
    ensures { option_map (λ l. line_fields l.now) result ≡ after_do (line_fields line.now) }
{
    let mut left = line;
    while let Some((word, rest)) = first_field(cluster, left) {
        if word == b"do".as_slice() {
            return Some(rest);
        }
        left = rest;
    }
    None
}

/// The first field after `do`, and the line after it.
fn step_after<'a>(cluster: &Cluster, line: &'a [u8]) -> Option<(&'a [u8], &'a [u8])>
    ensures { option_map (λ s. s.0.now ∷ line_fields s.1.now) result ≡ step_after (line_fields line.now) }
{
    first_field(cluster, after_do(cluster, line)?)
}

/// A step that these fields of a form call for; `line` is the line after `on`.
fn on_do(alloc: Global, cluster: &Cluster, line: &[u8], form: Fields<'_>) -> Result<Rule, LineFault>
    ensures { Gives (λ r. r) result (on_do cluster.now (fields_of form.entry) (line_fields line.now)) }
{
    let Some((word, rest)) = step_after(cluster, line) else {
        return Err(LineFault::Bad(Reason::OnForm));
    };
    let form = form_fields(alloc, cluster, form)?;
    let (by, step) = on_step(alloc, cluster, word, rest)?;
    Ok(Rule::On(Watched {
        on: On { form, by, step },
        held: false,
    }))
}

/// The place of `off` at the end.
pub(crate) fn off_at(all: Fields<'_>) -> Option<usize>
    ensures { result ≡ off_at (fields_of all.entry) }
{
    let (before, last) = all.last()?;
    if last == b"off".as_slice() {
        Some(before.len())
    } else {
        None
    }
}

/// The end of the steps that a form calls for, by its fields and `off`.
fn on_end(alloc: Global, cluster: &Cluster, all: Fields<'_>) -> Result<Rule, LineFault>
    ensures { Gives (λ r. r) result (on_end cluster.now (fields_of all.entry)) }
{
    match off_at(all) {
        None => Err(LineFault::Bad(Reason::OnForm)),
        Some(0) => Ok(Rule::OnOff),
        Some(end) => {
            let form = form_fields(alloc, cluster, all.take(end))?;
            Ok(Rule::End(RuleEnd::On(form)))
        }
    }
}

/// What a signal or a frame calls for, by the fields after `on`.
#[tactic(auto, unfolding(crate::specs::OnLines::on_form))]
pub(crate) fn on(alloc: Global, cluster: &Cluster, line: &[u8]) -> Result<Rule, LineFault>
    ensures { Gives (λ r. r) result (on_form cluster.now (line_fields line.now)) }
{
    let all = Fields::of(cluster, line);
    match all.word_at(b"do".as_slice()) {
        Some(end) => on_do(alloc, cluster, line, all.take(end)),
        None => on_end(alloc, cluster, all),
    }
}
