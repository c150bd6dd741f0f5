//! Whether conditions hold.

ghost use Rattle.std.specs.Prelude.{◌≡◌, ◌==◌, ◌<◌, ◌≤◌, ◌&&◌, IfOk, None, Some, option_map};
ghost use Rattle.lin_core.specs.Core.{past_of};
ghost use Rattle.lin_bench.specs.Meant.{is_among_values};
ghost use Rattle.lin_bench.specs.Searches.{IsSearchState, taken_by};
ghost use Rattle.lin_bench.specs.Verdicts.{changed_finding, data_of, fits_data, found, frame_finding, good_finding};
ghost use Rattle.lin_bench.specs.Verdicts.{is_within, messages_finding, same_frame, same_value};
ghost use Rattle.lin_bench.specs.Verdicts.{seen_finding, slot_finding, unknown, value_finding};
ghost use Rattle.lin_bench.specs.Verdicts.{value_seen, waiting_finding};
ghost use Rattle.lin_bench.specs.Watches.{IsWatch};

use crate::answers::fits;
use crate::carried::last_carried;
use crate::ended_rules::same_value;
use crate::expected::Condition;
use crate::got::Got;
use crate::left_events::count_left;
use crate::meant::MeantValues;
use crate::taken::{EventKind, TakenEvents, last_event};
use crate::watches::Watch;
use lin_core::{Core, Event, Look, Payload, Seen};
use lin_frame::Value;
use lin_log::{Carried, Pattern};
use std::alloc::{AllocError, Global};

/// What is found of a condition.
#[derive(Drop)]
pub(crate) struct Finding {
    /// Whether it holds; none where there is nothing yet of which it could.
    pub(crate) holds: Option<bool>,
    /// What is so.
    pub(crate) got: Got,
}

impl Finding {
    /// Whether it holds can't be said.
    fn unknown(got: Got) -> Finding
        ensures { result ≡ unknown got }
    {
        Finding { holds: None, got }
    }
}

/// Returns the value of a signal that a node sees, or `None` if the cluster doesn't have the node or the signal.
pub(crate) fn value_seen(core: &Core, node: u8, signal: u16) -> Option<Value>
    ensures { result ≡ value_seen core.now.cluster (past_of core.now) node signal }
{
    let cluster = core.cluster();
    if (node as usize) < cluster.nodes() && (signal as usize) < cluster.signals() {
        Some(core.signal(node, signal))
    } else {
        None
    }
}

fn signal(seen: Option<Value>, value: &Value) -> Finding
    ensures { result ≡ value_finding (λ v. same_value v value.now) seen }
{
    match seen {
        None => Finding::unknown(Got::NoNodeOrSignal),
        Some(seen) => Finding {
            holds: Some(same_value(&seen, value)),
            got: Got::Value(seen),
        },
    }
}

/// Whether a value is a scalar from one number to another.
fn is_within(value: &Value, low: u16, high: u16) -> bool
    ensures { result ≡ is_within low high value.now }
{
    match value {
        Value::Scalar(n) => low <= *n && *n <= high,
        Value::Bytes(_) => false,
    }
}

fn signal_within(seen: Option<Value>, low: u16, high: u16) -> Finding
    ensures { result ≡ value_finding (is_within low high) seen }
{
    match seen {
        None => Finding::unknown(Got::NoNodeOrSignal),
        Some(seen) => Finding {
            holds: Some(is_within(&seen, low, high)),
            got: Got::Value(seen),
        },
    }
}

/// Whether a value is one that words say.
fn signal_means(seen: Option<Value>, values: &MeantValues) -> Finding
    ensures { result ≡ value_finding (is_among_values values.now) seen }
{
    match seen {
        None => Finding::unknown(Got::NoNodeOrSignal),
        Some(seen) => Finding {
            holds: Some(values.has(&seen)),
            got: Got::Value(seen),
        },
    }
}

fn waiting(core: &Core, host: u8, count: u16) -> Finding
    ensures { result ≡ waiting_finding core.now.cluster (past_of core.now) host count }
{
    if (host as usize) < core.cluster().nodes() {
        let waiting = core.waiting(host);
        Finding {
            holds: Some(waiting == count as usize),
            got: Got::Waiting(waiting),
        }
    } else {
        Finding::unknown(Got::NoNode)
    }
}

/// Whether so many messages, from one number to another, aren't taken.
fn messages(count: u128, low: u32, high: u32) -> Finding
    ensures { result ≡ messages_finding low high count }
{
    Finding {
        holds: Some(u128::from(low) <= count && count <= u128::from(high)),
        got: Got::Messages(count),
    }
}

fn seen(event: Option<&Event>, how: Look) -> Finding
    ensures { result ≡ seen_finding how (option_map (λ e. e.now) event.entry) }
{
    match event {
        Some(Event::Seen(seen)) => {
            let look = seen.look();
            Finding {
                holds: Some(look == how),
                got: Got::Seen(look),
            }
        }
        _ => Finding::unknown(Got::NoSlot),
    }
}

pub(crate) fn same_frame(a: Carried, b: Carried) -> bool
    ensures { result ≡ same_frame a b }
{
    match (a, b) {
        (Carried::Signals(f), Carried::Signals(g)) => f == g,
        (Carried::Request, Carried::Request) | (Carried::Response, Carried::Response) => true,
        _ => false,
    }
}

fn fits_data(pattern: &Option<Pattern>, row: &[u8]) -> bool
    ensures { result ≡ fits_data pattern.now row.now }
{
    match pattern {
        Some(pattern) => fits(pattern, row),
        None => true,
    }
}

/// The data bytes of a response: all but its checksum.
fn data_of(answer: &[u8]) -> &[u8]
    ensures { result.now ≡ data_of answer.now }
{
    match answer {
        [] => answer,
        [row @ .., _] => row,
    }
}

/// What is found of a frame in a slot that was seen good, and carried this frame with these data bytes.
fn good(
    alloc: Global,
    frame: Carried,
    pattern: &Option<Pattern>,
    row: &[u8],
    last: Option<Carried>,
) -> Result<Finding, AllocError>
    ensures { IfOk result (λ f. f ≡ good_finding frame pattern.now row.now last) }
{
    match last {
        None => Ok(Finding {
            holds: Some(false),
            got: Got::Seen(Look::Good),
        }),
        Some(last) => Ok(Finding {
            holds: Some(same_frame(last, frame) && fits_data(pattern, row)),
            got: Got::Frame {
                frame: last,
                bytes: Payload::copied(alloc, row)?,
            },
        }),
    }
}

fn frame_seen(
    alloc: Global,
    event: Option<&Event>,
    frame: Carried,
    pattern: &Option<Pattern>,
    last: Option<Carried>,
) -> Result<Finding, AllocError>
    ensures { IfOk result
        (λ f. f ≡ frame_finding frame pattern.now last (option_map (λ e. e.now) event.entry)) }
{
    match event {
        Some(Event::Seen(Seen::Good(answer))) => {
            good(alloc, frame, pattern, data_of(answer.as_slice()), last)
        }
        Some(Event::Seen(how)) => Ok(Finding {
            holds: Some(false),
            got: Got::Seen(how.look()),
        }),
        _ => Ok(Finding::unknown(Got::NoSlot)),
    }
}

fn slot(event: Option<&Event>, table: u16, entry: u16) -> Finding
    ensures { result ≡ slot_finding table entry (option_map (λ e. e.now) event.entry) }
{
    match event {
        Some(
            Event::Slot {
                table: t,
                entry: e,
                ..
            },
        ) => Finding {
            holds: Some(*t == table && *e == entry),
            got: Got::Slot {
                table: *t,
                entry: *e,
            },
        },
        _ => Finding::unknown(Got::NoSlot),
    }
}

/// Whether a value is another one than at the beginning of the line.
fn changed(first: &Option<Value>, seen: Option<Value>) -> Finding
    ensures { result ≡ changed_finding first.now seen }
{
    let Some(first) = first else {
        return Finding::unknown(Got::NoStep);
    };
    match seen {
        None => Finding::unknown(Got::NoNodeOrSignal),
        Some(seen) => Finding {
            holds: Some(!same_value(&seen, first)),
            got: Got::Value(seen),
        },
    }
}

/// What is found of a condition.
#[tactic(auto, unfolding(crate::specs::Verdicts::found))]
pub(crate) fn found(
    alloc: Global,
    core: &Core,
    taken: &TakenEvents,
    watch: &mut Watch,
    condition: &Condition,
) -> Result<Finding, AllocError>
    requires known { IsSearchState core.now.log taken.now }
    requires watch { IsWatch core.now.cluster core.now.log watch.old }
    ensures found { IfOk result (λ f. f ≡ found core.now.cluster (past_of core.now)
        (taken_by core.now.log taken.now) condition.now) }
    ensures watch { IsWatch core.now.cluster core.now.log watch.new }
{
    match condition {
        Condition::Signal {
            node,
            signal: number,
            value,
        } => Ok(signal(value_seen(core, *node, *number), value)),
        Condition::SignalWithin {
            node,
            signal,
            low,
            high,
        } => Ok(signal_within(value_seen(core, *node, *signal), *low, *high)),
        Condition::SignalMeans {
            node,
            signal,
            text: _,
            values,
        } => Ok(signal_means(value_seen(core, *node, *signal), values)),
        Condition::Waiting { host, count } => Ok(waiting(core, *host, *count)),
        Condition::Messages {
            from,
            to,
            low,
            high,
        } => {
            let kind = EventKind::Messages {
                from: *from,
                to: *to,
            };
            let count = count_left(core.log(), taken, &mut watch.count, kind);
            Ok(messages(count, *low, *high))
        }
        Condition::Seen(how) => Ok(seen(last_event(core.log(), EventKind::Ends), *how)),
        Condition::Frame { frame, pattern } => {
            let last = last_carried(alloc, core.cluster(), core.log())?;
            let event = last_event(core.log(), EventKind::Ends);
            frame_seen(alloc, event, *frame, pattern, last)
        }
        Condition::Slot { table, entry } => {
            let event = last_event(core.log(), EventKind::Begins);
            Ok(slot(event, *table, *entry))
        }
        Condition::Changed {
            node,
            signal,
            first,
        } => Ok(changed(first, value_seen(core, *node, *signal))),
    }
}
