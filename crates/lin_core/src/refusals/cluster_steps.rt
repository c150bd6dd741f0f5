//! When a write, a switch, an ask for sleep or a wake is refused.

ghost use Rattle.std.specs.Prelude.{◌≡◌, ℕ, List};
ghost use Rattle.lin_parts.specs.declared.parts.Parts.{Parts};
ghost use Rattle.lin_core.specs.History.{asleep};
ghost use Rattle.lin_core.specs.kept.Slots.{IsOpenSlot};
ghost use Rattle.lin_core.specs.Replies.{refusal};
ghost use Rattle.lin_core.specs.declared.log.LogEntry.{LogEntry};

use crate::port::PortId;
use crate::refusals::may_act;
use crate::reply::Refusal;
use crate::slot::Slot;
use crate::step::Step;
use lin_frame::{Place, Value};
use lin_parts::Cluster;

/// Why a write is refused.
pub(crate) fn refuse_write(
    cluster: &Cluster,
    by: PortId,
    node: u8,
    signal: u16,
    value: &Value,
) -> Option<Refusal>
    ensures { (capacity : ℕ) (past : List LogEntry)
        → result ≡ refusal cluster.now capacity past by (Step.Write node signal value.now) }
{
    if node as usize >= cluster.nodes() {
        return Some(Refusal::NoSuchNode);
    }
    if signal as usize >= cluster.signals() {
        return Some(Refusal::NoSuchSignal);
    }
    if node != cluster.publisher(signal) {
        return Some(Refusal::NotPublisher);
    }
    let place = Place {
        offset: 0,
        size: cluster.signal_size(signal),
        array: matches!(cluster.initial(signal), Value::Bytes(_)),
    };
    if !place.fits(value) {
        return Some(Refusal::BadValue);
    }
    if !may_act(by, node) {
        return Some(Refusal::NotYours);
    }
    None
}

/// Why a switch is refused.
pub(crate) fn refuse_switch(
    cluster: &Cluster,
    slot: &Slot,
    by: PortId,
    table: u16,
) -> Option<Refusal>
    ensures { (capacity : ℕ) (past : List LogEntry) → IsOpenSlot slot.now past
        → result ≡ refusal cluster.now capacity past by (Step.Switch table) }
{
    if table as usize >= cluster.tables() {
        return Some(Refusal::NoSuchTable);
    }
    if slot.is_open() {
        return Some(Refusal::SlotOpen);
    }
    match by {
        PortId::Bus => None,
        _ => Some(Refusal::NotYours),
    }
}

/// Why an ask for sleep is refused, where the cluster is asleep or not.
pub(crate) fn refuse_ask_sleep(sleeps: bool, by: PortId) -> Option<Refusal>
    ensures { (c : Parts) (capacity : ℕ) (past : List LogEntry) → sleeps ≡ asleep past
        → result ≡ refusal c capacity past by Step.AskSleep }
{
    if sleeps {
        return Some(Refusal::Asleep);
    }
    match by {
        PortId::Bus => None,
        _ => Some(Refusal::NotYours),
    }
}

/// Why a wake is refused, where the cluster is asleep or not.
pub(crate) fn refuse_wake(sleeps: bool, by: PortId) -> Option<Refusal>
    ensures { (c : Parts) (capacity : ℕ) (past : List LogEntry) → sleeps ≡ asleep past
        → result ≡ refusal c capacity past by Step.Wake }
{
    if !sleeps {
        return Some(Refusal::Awake);
    }
    match by {
        PortId::Bus => None,
        _ => Some(Refusal::NotYours),
    }
}
