//! The steps by which responders tell errors in responses.

ghost use Rattle.std.specs.Prelude.{◌≡◌, ◌<◌, ◌++◌, false, filter_map, length, true, IfOk, List};
ghost use Rattle.std.specs.Prelude.{OnOk, Some};
ghost use Rattle.std.specs.Option.{option_map_or};
ghost use Rattle.lin_parts.specs.Cluster.{has_signal, nodes};
ghost use Rattle.lin_parts.specs.Rules.{IsErrorSignal, is_event};
ghost use Rattle.lin_core.specs.Core.{past_of};
ghost use Rattle.lin_core.specs.History.{Slot, events, good, header_is, is_in, seen_of};
ghost use Rattle.lin_core.specs.Signals.{heard_value, value};
ghost use Rattle.lin_core.specs.declared.log.LogEntry.{LogEntry};
ghost use Rattle.lin_core.specs.declared.port.PortId.{PortId};
ghost use Rattle.lin_bench.specs.Adding.{AfterFinish, HasFinished, damaged_in, good_in};
ghost use Rattle.lin_bench.specs.Carried.{shape, shape_in};
ghost use Rattle.lin_bench.specs.Errors.{concerns, ended_slot, error_told, errors_told, is_damaged_seen};
ghost use Rattle.lin_bench.specs.Errors.{equals_scalar, reports_error, set_after, set_to, set_unless_off, error_write};

use crate::carried::{OpenSlot, entry_at, has, open_after, signals_in};
use crate::powers::is_off;
use crate::replies::{good_bytes, is_damaged};
use lin_core::{Core, LogEntry, MASTER_REQUEST, PortId, SLAVE_RESPONSE, Step};
use lin_frame::Value;
use lin_parts::{Cluster, Entry, ErrorSignal};
use lin_text::Many;
use std::alloc::{AllocError, Global};

/// What of a slot that has ended decides which errors are told.
#[derive(Drop)]
pub(crate) struct EndedSlot {
    /// Whether its response was seen damaged, and was no answer to an event-triggered header.
    pub has_error: bool,
    pub is_good: bool,
    pub header: Option<u8>,
    /// The nodes that answered.
    pub nodes: Many<u8>,
    /// The frame of signals that it carried.
    pub frame: Option<u16>,
}

fn is_event(entry: Entry) -> bool
    ensures { result ≡ is_event entry }
{
    match entry {
        Entry::Event(_) => true,
        _ => false,
    }
}

/// What is known of a slot that was open before an entry that finished it.
fn ended_by(cluster: &Cluster, slot: OpenSlot, finish: &LogEntry) -> EndedSlot
    ensures { (s : Slot) → shape_in slot ≡ shape s → good_in (events finish.now) ≡ good s
        → damaged_in (events finish.now) ≡ is_damaged_seen (seen_of s)
        → result ≡ ended_slot cluster.now s }
{
    let entry = entry_at(cluster, slot.table, slot.entry);
    let frame = signals_in(cluster, &slot, entry);
    EndedSlot {
        has_error: is_damaged(finish) && !is_event(entry),
        is_good: good_bytes(finish).is_some(),
        header: slot.header,
        nodes: Many::new(slot.nodes),
        frame,
    }
}

/// The slot that the newest entry of a core finished. It costs as many steps as entries stand in
/// the log since the slot was opened.
fn last_ended(alloc: Global, core: &Core) -> Result<Option<EndedSlot>, AllocError>
    requires { 0 < length core.now.log }
    ensures { IfOk result (λ o. (by : PortId) → (past : List LogEntry) → (s : Slot)
        → HasFinished core.now by past s → o ≡ Some (ended_slot core.now.cluster s)) }
{
    let log = core.log();
    match open_after(alloc, log, log.len() - 1)? {
        Some(slot) => Ok(Some(ended_by(core.cluster(), slot, core.newest()))),
        None => Ok(None),
    }
}

fn has_header(ended: &EndedSlot, header: u8) -> bool
    ensures { result ≡ header_is header ended.now.header }
{
    match ended.header {
        Some(own) => own == header,
        None => false,
    }
}

fn is_among(numbers: &[u16], number: u16) -> bool
    ensures { result ≡ is_in numbers.now number }
{
    numbers.iter().any(|other| *other == number)
}

fn concerns(cluster: &Cluster, ended: &EndedSlot, signal: &ErrorSignal) -> bool
    requires { signal.now.node < nodes cluster.now }
    ensures { result ≡ concerns cluster.now ended.now signal.now }
{
    if has_header(ended, MASTER_REQUEST) {
        return cluster.nad(signal.node).is_some();
    }
    if has_header(ended, SLAVE_RESPONSE) {
        return has(ended.nodes.as_slice(), signal.node);
    }
    match ended.frame {
        Some(frame) => is_among(signal.frames.as_slice(), frame),
        None => false,
    }
}

fn has_signal(cluster: &Cluster, signal: u16, frame: u16) -> bool
    ensures { result ≡ has_signal cluster.now signal frame }
{
    if (frame as usize) < cluster.frames() {
        is_among(cluster.frame_signals(frame), signal)
    } else {
        false
    }
}

fn carries(cluster: &Cluster, ended: &EndedSlot, signal: u16) -> bool
    ensures { result ≡ option_map_or (has_signal cluster.now signal) ended.now.frame false }
{
    match ended.frame {
        Some(frame) => has_signal(cluster, signal, frame),
        None => false,
    }
}

fn is_number(number: u16, value: Value) -> bool
    ensures { result ≡ equals_scalar number value }
{
    match value {
        Value::Scalar(own) => own == number,
        Value::Bytes(_) => false,
    }
}

fn set_to(number: u16, value: Value) -> Option<u16>
    ensures { result ≡ set_to number value }
{
    if is_number(number, value) {
        None
    } else {
        Some(number)
    }
}

/// The value of a signal that its publisher sees.
fn value(core: &Core, signal: &ErrorSignal) -> Value
    requires { IsErrorSignal core.now.cluster signal.now }
    ensures { result ≡ value core.now.cluster (past_of core.now) signal.now.signal }
{
    core.signal(signal.node, signal.signal)
}

/// The value of a signal that the other nodes see, of which the commander is one.
fn heard(core: &Core, signal: &ErrorSignal) -> Value
    requires { IsErrorSignal core.now.cluster signal.now }
    ensures { result ≡ heard_value core.now.cluster (past_of core.now) signal.now.signal }
{
    core.signal(0, signal.signal)
}

fn is_told(core: &Core, ended: &EndedSlot, signal: &ErrorSignal) -> bool
    requires { IsErrorSignal core.now.cluster signal.now }
    ensures { result ≡ reports_error core.now.cluster (past_of core.now) ended.now signal.now }
{
    ended.is_good
        && carries(core.cluster(), ended, signal.signal)
        && !is_number(0, heard(core, signal))
}

/// What a signal is set to after a slot.
fn set_after(core: &Core, ended: &EndedSlot, signal: &ErrorSignal) -> Option<u16>
    requires { IsErrorSignal core.now.cluster signal.now }
    ensures { result ≡ set_after core.now.cluster (past_of core.now) ended.now signal.now }
{
    if ended.has_error && concerns(core.cluster(), ended, signal) {
        set_to(1, value(core, signal))
    } else if is_told(core, ended, signal) {
        set_to(0, value(core, signal))
    } else {
        None
    }
}

fn write_of(signal: &ErrorSignal, number: u16) -> (PortId, Step)
    ensures { result ≡ error_write signal.now number }
{
    let step = Step::Write {
        by: signal.node,
        signal: signal.signal,
        value: Value::Scalar(number),
    };
    (PortId::Host(signal.node), step)
}

/// What the signal of a node is set to after a slot, unless the node is off.
fn set_unless_off(core: &Core, ended: &EndedSlot, offs: &[u8], signal: &ErrorSignal) -> Option<u16>
    requires { IsErrorSignal core.now.cluster signal.now }
    ensures { result ≡ set_unless_off core.now.cluster (past_of core.now) ended.now offs.now signal.now }
{
    if is_off(offs, signal.node) {
        None
    } else {
        set_after(core, ended, signal)
    }
}

/// Adds the writes by which responders that aren't off tell what they know of a slot.
fn add_writes(
    core: &Core,
    ended: &EndedSlot,
    offs: &[u8],
    steps: &mut Vec<(PortId, Step)>,
) -> Result<(), AllocError>
    ensures { OnOk result (steps.new.items ≡ steps.old.items ++ filter_map
        (error_told core.now.cluster (past_of core.now) ended.now offs.now) core.now.cluster.errors) }
{
    core.cluster().sound();
    for signal in core.cluster().error_signals() {
        if let Some(number) = set_unless_off(core, ended, offs, signal) {
            steps.push(write_of(signal, number))?;
        }
    }
    Ok(())
}

/// Adds the steps by which responders that aren't off tell errors after the finish that is the newest
/// entry of a core. An error means out of memory.
pub(crate) fn tell_errors(
    alloc: Global,
    core: &Core,
    offs: &[u8],
    steps: &mut Vec<(PortId, Step)>,
) -> Result<(), AllocError>
    requires { 0 < length core.now.log }
    ensures { OnOk result (AfterFinish core.now (λ e past. steps.new.items
        ≡ steps.old.items ++ errors_told core.now.cluster e past offs.now true)) }
{
    match last_ended(alloc, core)? {
        Some(ended) => add_writes(core, &ended, offs, steps),
        None => Ok(()),
    }
}
