//! The forms of questions.

ghost use Rattle.std.specs.Prelude.{◌≡◌, IfOk, IfSome, Ok, true};
ghost use Rattle.lin_log.specs.Said.{fields};
ghost use Rattle.lin_parts.specs.declared.parts.Parts.{Parts};
ghost use Rattle.lin_live.specs.Asked.{Gives, IsAskable, asked_alone, has_fields, question};
ghost use Rattle.lin_live.specs.Asked.{signal_asked, signal_question, waiting_question};
ghost use Rattle.lin_live.specs.Asked.{word_question};
ghost use Rattle.lin_live.specs.declared.reason.LineFault.{LineFault};
ghost use Rattle.lin_live.specs.declared.reason.Reason.{Reason};

use crate::question::Question;
use crate::reason::{LineFault, Reason};
use lin_bench::{present_node, present_signal};
use lin_log::{copied, first_field, is_over};
use lin_parts::Cluster;
use std::alloc::{AllocError, Global};

/// There is no form of these fields after `?`.
#[inline(never)]
fn no_form(alloc: Global, cluster: &Cluster, all: &[u8]) -> Result<LineFault, AllocError>
    ensures { IfOk result
        (λ fault. fault ≡ LineFault.Bad (Reason.UnknownQuestion (fields true all.now))) }
{
    Ok(LineFault::Bad(Reason::UnknownQuestion(copied(alloc, cluster, all)?)))
}

/// The question for a signal at a node, by their fields.
fn signal_of(
    alloc: Global,
    cluster: &Cluster,
    node: &[u8],
    signal: &[u8],
) -> Result<Question, LineFault>
    ensures asked { Gives result (signal_asked cluster.now node.now signal.now) }
    ensures askable { IfOk result (IsAskable cluster.now) }
{
    let node = present_node(alloc, cluster, node)?;
    let signal = present_signal(alloc, cluster, signal)?;
    Ok(Question::Signal { node, signal })
}

fn signal(alloc: Global, cluster: &Cluster, all: &[u8], line: &[u8]) -> Result<Question, LineFault>
    ensures asked { Gives result (signal_question cluster.now (fields true all.now) (fields true line.now)) }
    ensures askable { IfOk result (IsAskable cluster.now) }
{
    let Some((node, rest)) = first_field(cluster, line) else {
        return Err(no_form(alloc, cluster, all)?);
    };
    let Some((signal, rest)) = first_field(cluster, rest) else {
        return Err(no_form(alloc, cluster, all)?);
    };
    if !is_over(cluster, rest) {
        return Err(no_form(alloc, cluster, all)?);
    }
    signal_of(alloc, cluster, node, signal)
}

fn waiting(alloc: Global, cluster: &Cluster, all: &[u8], line: &[u8]) -> Result<Question, LineFault>
    ensures asked { Gives result (waiting_question cluster.now (fields true all.now) (fields true line.now)) }
    ensures askable { IfOk result (IsAskable cluster.now) }
{
    let Some((host, rest)) = first_field(cluster, line) else {
        return Err(no_form(alloc, cluster, all)?);
    };
    if !is_over(cluster, rest) {
        return Err(no_form(alloc, cluster, all)?);
    }
    Ok(Question::Waiting {
        host: present_node(alloc, cluster, host)?,
    })
}

/// Whether the question that a word names has fields after the word.
fn has_fields(word: &[u8]) -> bool
    ensures { result ≡ has_fields word.now }
{
    word == b"signal".as_slice() || word == b"waiting".as_slice()
}

/// The question that such a word names, with the fields after it; `all` are the line of the word and these.
#[inline(never)]
fn with_fields(
    alloc: Global,
    cluster: &Cluster,
    all: &[u8],
    word: &[u8],
    line: &[u8],
) -> Result<Question, LineFault>
    requires { has_fields word.now ≡ true }
    ensures asked { Gives result
        (word_question cluster.now (fields true all.now) word.now (fields true line.now)) }
    ensures askable { IfOk result (IsAskable cluster.now) }
{
    if word == b"signal".as_slice() {
        signal(alloc, cluster, all, line)
    } else {
        waiting(alloc, cluster, all, line)
    }
}

/// The question that a word asks without a field after it.
fn asked_alone(word: &[u8]) -> Option<Question>
    ensures asked { result ≡ asked_alone word.now }
    ensures askable { (c : Parts) → IfSome result (IsAskable c) }
{
    if word == b"idle".as_slice() {
        Some(Question::Idle)
    } else if word == b"time".as_slice() {
        Some(Question::Time)
    } else if word == b"asleep".as_slice() {
        Some(Question::Asleep)
    } else if word == b"next".as_slice() {
        Some(Question::Next)
    } else if word == b"version".as_slice() {
        Some(Question::Version)
    } else if word == b"nodes".as_slice() {
        Some(Question::Nodes)
    } else if word == b"slot".as_slice() {
        Some(Question::LastSlot)
    } else if word == b"rules".as_slice() {
        Some(Question::Rules)
    } else {
        None
    }
}

/// The question that a word names, with the fields after it; `all` are the line of the word and these.
fn of_word(
    alloc: Global,
    cluster: &Cluster,
    all: &[u8],
    word: &[u8],
    line: &[u8],
) -> Result<Question, LineFault>
    ensures asked { Gives result
        (word_question cluster.now (fields true all.now) word.now (fields true line.now)) }
    ensures askable { IfOk result (IsAskable cluster.now) }
{
    if has_fields(word) {
        return with_fields(alloc, cluster, all, word, line);
    }
    match asked_alone(word) {
        Some(what) if is_over(cluster, line) => Ok(what),
        _ => Err(no_form(alloc, cluster, all)?),
    }
}

/// What is asked, by the fields after `?`, if a word alone asks it.
// (Most questions are asked so, and a fault takes much more room than a question.)
#[tactic(auto, unfolding(crate::specs::Asked::question))]
pub(crate) fn question_alone(cluster: &Cluster, line: &[u8]) -> Option<Question>
    ensures asked { IfSome result (λ asked. question cluster.now (fields true line.now) ≡ Ok asked) }
    ensures askable { IfSome result (IsAskable cluster.now) }
{
    let (word, rest) = first_field(cluster, line)?;
    if has_fields(word) || !is_over(cluster, rest) {
        return None;
    }
    asked_alone(word)
}

/// What is asked, by the fields after `?`.
#[tactic(auto, unfolding(crate::specs::Asked::question))]
pub(crate) fn question(alloc: Global, cluster: &Cluster, line: &[u8]) -> Result<Question, LineFault>
    ensures asked { Gives result (question cluster.now (fields true line.now)) }
    ensures askable { IfOk result (IsAskable cluster.now) }
{
    match first_field(cluster, line) {
        None => Err(LineFault::Bad(Reason::AskForm)),
        Some((word, rest)) => of_word(alloc, cluster, line, word, rest),
    }
}
