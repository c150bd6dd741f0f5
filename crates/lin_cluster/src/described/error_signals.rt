//! The signals by which a description's responders tell errors in responses.

ghost use Rattle.std.specs.Prelude.{◌≡◌, ◌≤◌, IfOk, false, length, map, option_and_then, slice_get};
ghost use Rattle.std.specs.Prelude.{slice_index_or};
ghost use Rattle.std.specs.List.{list_any};
ghost use Rattle.std.specs.Option.{option_copied, option_map_or};
ghost use Rattle.lin_cluster.specs.Described.{frames_of, response_error_name};
ghost use Rattle.lin_cluster.specs.Described.{is_error_signal, error_named, error_number, subscribes};
ghost use Rattle.lin_cluster.specs.Described.{is_concerned, is_concerned_by, frames_concerning};
ghost use Rattle.lin_cluster.specs.Described.{error_signal, error_signals};
ghost use Rattle.lin_cluster.specs.Fitting.{FitsNumbers};

use super::nodes::block_of;
use super::signals::NumberedSignals;
use crate::names::is_name;
use lin_parts::description::{Description, Name};
use lin_parts::{ErrorSignal, Signal, SignalFrame};
use lin_text::Many;
use std::alloc::{AllocError, Global};

fn response_error<'a>(d: &'a Description, node: u8) -> Option<&'a Name>
    requires { length d.now.slaves ≤ 15 }
    ensures { option_copied result ≡ response_error_name d.now node }
{
    match block_of(d, node) {
        Some(block) => block.response_error.as_ref(),
        None => None,
    }
}

fn is_error_signal(node: u8, signal: &Signal) -> bool
    ensures { result ≡ is_error_signal node signal.now }
{
    signal.publisher == node && !signal.is_array()
}

// The number of the signal with this name, where it may tell errors.
fn error_named(signals: &NumberedSignals, node: u8, name: &Name) -> Option<u16>
    requires { length signals.now.signals ≤ 1024 }
    ensures { result ≡ error_named signals.now node name.now }
{
    let number = signals.number(name);
    match signals.as_slice().get(usize::from(number)) {
        Some(signal) if is_error_signal(node, signal) => Some(number),
        _ => None,
    }
}

// The number of the signal by which a node tells errors.
fn error_number(d: &Description, signals: &NumberedSignals, node: u8) -> Option<u16>
    requires few_slaves { length d.now.slaves ≤ 15 }
    requires few { length d.now.signals ≤ 1024 }
    requires all { signals.now ≡ d.now }
    ensures { result ≡ error_number d.now node }
{
    match response_error(d, node) {
        Some(name) => error_named(signals, node, name),
        None => None,
    }
}

pub(crate) fn subscribes(node: &Name, signal: &lin_parts::description::Signal) -> bool
    ensures { result ≡ subscribes node.now signal.now }
{
    signal
        .subscribers
        .as_slice()
        .iter()
        .any(|other| is_name(node, other))
}

// Which signals the node with this name subscribes. Each signal's subscribers are looked at once.
fn subscribed(
    alloc: Global,
    node: &Name,
    signals: &[lin_parts::description::Signal],
) -> Result<Many<bool>, AllocError>
    ensures { IfOk result (λ all. all ≡ map (subscribes node.now) signals.now) }
{
    let mut all = Vec::new(alloc);
    for signal in signals {
        all.push(subscribes(node, signal))?;
    }
    Ok(Many::new(all))
}

fn is_subscribed(subscribed: &[bool], signal: u16) -> bool
    ensures { result ≡ slice_index_or subscribed.now signal false }
{
    match subscribed.get(usize::from(signal)) {
        Some(is_subscribed) => *is_subscribed,
        None => false,
    }
}

fn has_subscribed(subscribed: &[bool], frame: &SignalFrame) -> bool
    ensures { result ≡ list_any (λ s. slice_index_or subscribed.now s false) frame.now.signals }
{
    frame
        .signals
        .as_slice()
        .iter()
        .any(|signal| is_subscribed(subscribed, *signal))
}

fn is_concerned(node: u8, subscribed: &[bool], frame: &SignalFrame) -> bool
    ensures { result ≡ is_concerned node subscribed.now frame.now }
{
    frame.publisher == node || has_subscribed(subscribed, frame)
}

fn is_concerned_by(node: u8, subscribed: &[bool], frames: &[SignalFrame], frame: u16) -> bool
    ensures { result ≡ is_concerned_by node subscribed.now frames.now frame }
{
    match frames.get(usize::from(frame)) {
        Some(frame) => is_concerned(node, subscribed, frame),
        None => false,
    }
}

// The numbers of the frames that concern a node.
#[tactic(auto, using(lin_parts::proofs::Carrying::kept_added, lin_parts::proofs::Carrying::kept_same,))]
fn frames_concerning(
    alloc: Global,
    node: u8,
    subscribed: &[bool],
    frames: &[SignalFrame],
) -> Result<Many<u16>, AllocError>
    requires { length frames.now ≤ 60 }
    ensures { IfOk result (λ found. found ≡ frames_concerning node subscribed.now frames.now) }
{
    let mut found = Vec::new(alloc);
    for frame in 0..frames.len() as u16 {
        if is_concerned_by(node, subscribed, frames, frame) {
            found.push(frame)?;
        }
    }
    Ok(Many::new(found))
}

fn error_signal(
    alloc: Global,
    d: &Description,
    signals: &NumberedSignals,
    frames: &[SignalFrame],
    node: u8,
    name: &Name,
) -> Result<Option<ErrorSignal>, AllocError>
    requires few { FitsNumbers d.now }
    requires signals { signals.now ≡ d.now }
    requires frames { frames.now ≡ frames_of d.now }
    ensures { IfOk result (λ made. made ≡ error_signal d.now (node, name.now)) }
{
    match error_number(d, signals, node) {
        Some(signal) => {
            let subscribed = subscribed(alloc, name, d.signals())?;
            let frames = frames_concerning(alloc, node, subscribed.as_slice(), frames)?;
            Ok(Some(ErrorSignal {
                node,
                signal,
                frames,
            }))
        }
        None => Ok(None),
    }
}

pub(super) fn error_signals(
    alloc: Global,
    d: &Description,
    signals: &NumberedSignals,
    frames: &[SignalFrame],
) -> Result<Many<ErrorSignal>, AllocError>
    requires few { FitsNumbers d.now }
    requires signals { signals.now ≡ d.now }
    requires frames { frames.now ≡ frames_of d.now }
    ensures { IfOk result (λ all. all ≡ error_signals d.now) }
{
    let mut all = Vec::new(alloc);
    for (i, name) in d.slaves().iter().enumerate() {
        if let Some(signal) = error_signal(alloc, d, signals, frames, i as u8 + 1, name)? {
            all.push(signal)?;
        }
    }
    Ok(Many::new(all))
}
