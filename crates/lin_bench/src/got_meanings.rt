//! What values mean that are told where words were expected.

ghost use Rattle.std.specs.Prelude.{◌≡◌, IfOk};
ghost use Rattle.lin_bench.specs.Meanings.{judged_meaning, judgement_meaning, meaning_got};
ghost use Rattle.lin_bench.specs.Meanings.{signal_in_words, told_meaning, value_meaning, with_meaning, with_meanings, worded_signal};

use crate::expected::{Condition, Expected};
use crate::got::{Got, Judged, Judgement, Verdict};
use lin_frame::Value;
use lin_text::{Many, Text};
use lin_values::{Coded, shown};
use std::alloc::{AllocError, Global};

/// What a value of a signal means, where it means something.
fn meaning_of(alloc: Global, coded: &Coded, signal: u16, value: Value) -> Result<Got, AllocError>
    ensures { IfOk result (λ g. g ≡ meaning_got coded.now signal value) }
{
    match coded.meaning(signal, &value) {
        Some(meaning) => {
            let text = shown(alloc, &meaning)?;
            Ok(Got::Meaning(Text::copied(alloc, text.as_slice())?))
        }
        None => Ok(Got::Value(value)),
    }
}

/// What is so in place of what is expected in words of a signal: what its value means.
fn value_meaning(alloc: Global, coded: &Coded, signal: u16, got: Got) -> Result<Got, AllocError>
    ensures { IfOk result (λ g. g ≡ value_meaning coded.now signal got) }
{
    match got {
        Got::Value(value) => meaning_of(alloc, coded, signal, value),
        got => Ok(got),
    }
}

/// The signal of a condition in words.
fn worded_signal(condition: &Condition) -> Option<u16>
    ensures { result ≡ worded_signal condition.now }
{
    match condition {
        Condition::SignalMeans { signal, .. } => Some(*signal),
        _ => None,
    }
}

/// The signal of what is expected in words.
fn signal_in_words(expected: &Expected) -> Option<u16>
    ensures { result ≡ signal_in_words expected.now }
{
    match expected {
        Expected::Is(what) | Expected::Not(what) => worded_signal(what),
        _ => None,
    }
}

/// What is so in place of what is expected; where that is in words, what the value means.
fn with_meaning(
    alloc: Global,
    coded: &Coded,
    expected: &Expected,
    got: Got,
) -> Result<Got, AllocError>
    ensures { IfOk result (λ g. g ≡ with_meaning coded.now expected.now got) }
{
    match signal_in_words(expected) {
        Some(signal) => value_meaning(alloc, coded, signal, got),
        None => Ok(got),
    }
}

fn judged_meaning(alloc: Global, coded: &Coded, judged: Judged) -> Result<Judged, AllocError>
    ensures { IfOk result (λ j. j ≡ judged_meaning coded.now judged) }
{
    match judged {
        Judged::Unmet(expected, got) => {
            let got = with_meaning(alloc, coded, &expected, got)?;
            Ok(Judged::Unmet(expected, got))
        }
        other => Ok(other),
    }
}

/// A verdict on a line; where what it expects in words isn't so, with what the value means.
///
/// An error means out of memory.
pub fn told_meaning(alloc: Global, coded: &Coded, verdict: Verdict) -> Result<Verdict, AllocError>
    ensures { IfOk result (λ v. v ≡ told_meaning coded.now verdict) }
{
    match verdict {
        Verdict::Unmet(expected, got) => {
            let got = with_meaning(alloc, coded, &expected, got)?;
            Ok(Verdict::Unmet(expected, got))
        }
        other => Ok(other),
    }
}

/// A judgement; where what is expected in words isn't so, with what the value means.
fn judgement_meaning(
    alloc: Global,
    coded: &Coded,
    judgement: Judgement,
) -> Result<Judgement, AllocError>
    ensures { IfOk result (λ j. j ≡ judgement_meaning coded.now judgement) }
{
    let Judgement {
        place,
        entries,
        judged,
    } = judgement;
    Ok(Judgement {
        place,
        entries,
        judged: judged_meaning(alloc, coded, judged)?,
    })
}

/// Judgements; where what is expected in words isn't so, with what the value means.
///
/// An error means out of memory.
pub fn told_meanings(
    alloc: Global,
    coded: &Coded,
    judgements: Many<Judgement>,
) -> Result<Many<Judgement>, AllocError>
    ensures { IfOk result (λ js. js ≡ with_meanings coded.now judgements) }
{
    let mut all = Vec::new(alloc);
    for judgement in judgements.into_vec() {
        all.push(judgement_meaning(alloc, coded, judgement)?)?;
    }
    Ok(Many::new(all))
}
