//! The forms of expectations.

ghost use Rattle.std.specs.Prelude.{◌≡◌, ◌<◌, ◌&&◌, IfOk, codes, length, option_map};
ghost use Rattle.std.specs.Str.{bytes_eq};
ghost use Rattle.lin_bench.specs.Expectations.{begins_change, changed_form, condition_form, cycle_form, cycle_within_form, exact_cycle, near_cycle, needs_slots, never_comes, no_change, not_form, other_expectation};
ghost use Rattle.lin_bench.specs.Expectations.{before_last, data_length, data_pattern, entry_field, expectation, frame_form, frame_with, lone_form};
ghost use Rattle.lin_bench.specs.Expectations.{loss_expectation, lost_form, pattern_form, rows_and_limit};
ghost use Rattle.lin_bench.specs.Expectations.{message_form, messages_form, next_form, next_message_form, no_form, no_lost_form, no_message_form, signal_expectation};
ghost use Rattle.lin_bench.specs.Expectations.{refusal_called, refusal_field, refused_form, seen_form, sent_form};
ghost use Rattle.lin_bench.specs.Expectations.{passes, signal_form, slot_form, table_form, until_form, waiting_form, while_form};
ghost use Rattle.lin_bench.specs.Expectations.{word_expectation};
ghost use Rattle.lin_bench.specs.Fields.{line_fields, range_ends};
ghost use Rattle.lin_bench.specs.Parts.{fields_of};
ghost use Rattle.lin_bench.specs.Read.{Gives};
ghost use Rattle.lin_bench.specs.declared.fault.LineFault.{LineFault};
ghost use Rattle.lin_bench.specs.declared.reason.Reason.{Reason};

use crate::answers::has_length;
use crate::expected::{Condition, Expected, Since};
use crate::fault::LineFault;
use crate::fields::{
    Fields, copied_fields, count_field, counts_field, frame_field, host_field, number_field,
    pair_fields, present_table, range_ends, rows_and_time, signal_fields,
};
use crate::raw_values::{raw_range, raw_value};
use crate::reason::Reason;
use crate::rule_lines::pattern;
use crate::times::time_field;
use lin_core::{Refusal, named, numbered};
use lin_log::{Carried, Pattern, is_number, number};
use lin_parts::Cluster;
use lin_text::Text;
use std::alloc::{AllocError, Global};

/// The refusal with a number or a name.
fn refusal_called(field: &[u8]) -> Option<Refusal>
    ensures { result ≡ refusal_called field.now }
{
    if is_number(field) {
        return numbered(number(field, 18)?);
    }
    named(field)
}

/// A refusal, by its number or its name.
#[tactic(auto, unfolding(crate::specs::Expectations::refusal_field))]
fn refusal_field(alloc: Global, field: &[u8]) -> Result<Refusal, LineFault>
    ensures { Gives (λ r. r) result (refusal_field field.now) }
{
    match refusal_called(field) {
        Some(refusal) => Ok(refusal),
        None => Err(LineFault::Bad(Reason::NoRefusal(Text::copied(alloc, field)?))),
    }
}

/// There is no form of these fields after `expect`.
fn no_form(alloc: Global, all: Fields<'_>) -> Result<LineFault, AllocError>
    ensures { IfOk result
        (λ fault. fault ≡ LineFault.Bad (Reason.UnknownExpectation (fields_of all.entry))) }
{
    Ok(LineFault::Bad(Reason::UnknownExpectation(copied_fields(alloc, all)?)))
}

/// A value of a signal, or a range of them, by its field; `name` is the signal's field.
fn signal_value(
    alloc: Global,
    cluster: &Cluster,
    node: u8,
    name: &[u8],
    signal: u16,
    value: &[u8],
) -> Result<Condition, LineFault>
    requires { signal < length cluster.now.signals }
    ensures { Gives (λ w. w) result
        (signal_expectation cluster.now name.now node signal value.now (range_ends value.now)) }
{
    match range_ends(value) {
        Some((low, high)) => {
            let (low, high) = raw_range(alloc, cluster, name, signal, value, low, high)?;
            Ok(Condition::SignalWithin {
                node,
                signal,
                low,
                high,
            })
        }
        None => Ok(Condition::Signal {
            node,
            signal,
            value: raw_value(alloc, cluster, name, signal, value)?,
        }),
    }
}

fn signal(
    alloc: Global,
    cluster: &Cluster,
    all: Fields<'_>,
    parts: Fields<'_>,
) -> Result<Condition, LineFault>
    ensures { Gives (λ w. w) result (signal_form cluster.now (fields_of all.entry) (fields_of parts.entry)) }
{
    match parts.three() {
        Some((node, name, value)) => {
            let (node, signal) = signal_fields(alloc, cluster, node, name)?;
            signal_value(alloc, cluster, node, name, signal, value)
        }
        None => Err(no_form(alloc, all)?),
    }
}

fn waiting(
    alloc: Global,
    cluster: &Cluster,
    all: Fields<'_>,
    parts: Fields<'_>,
) -> Result<Condition, LineFault>
    ensures { Gives (λ w. w) result (waiting_form cluster.now (fields_of all.entry) (fields_of parts.entry)) }
{
    match parts.two() {
        Some((host, count)) => Ok(Condition::Waiting {
            host: host_field(alloc, cluster, host)?,
            count: number_field(alloc, count, 1024)? as u16,
        }),
        None => Err(no_form(alloc, all)?),
    }
}

fn is_of_last(of: &[u8], last: &[u8]) -> bool
    ensures { result ≡ (bytes_eq last.now (codes "last") && bytes_eq of.now (codes "of")) }
{
    last == b"last".as_slice() && of == b"of".as_slice()
}

/// The fields before `of last` at the end.
fn before_last<'l>(all: Fields<'l>) -> Option<Fields<'l>>
    ensures { option_map fields_of result ≡ before_last (fields_of all.entry) }
{
    let (others, last) = all.last()?;
    let (before, of) = others.last()?;
    if is_of_last(of, last) {
        Some(before)
    } else {
        None
    }
}

/// Rows, and the field of the number after them where they end with `within`, a number and `ms`, and
/// then `of last` or nothing: from which earlier message the time counts.
#[tactic(auto, unfolding(crate::specs::Expectations::rows_and_limit))]
fn rows_and_limit<'l>(all: Fields<'l>) -> (Fields<'l>, Option<(&'l [u8], Since)>)
    ensures { (fields_of result.0, option_map (λ limit. (limit.0.now, limit.1)) result.1)
        ≡ rows_and_limit (fields_of all.entry) }
{
    match before_last(all) {
        Some(before) => match rows_and_time(b"within".as_slice(), before) {
            (rows, Some(most)) => (rows, Some((most, Since::Last))),
            (_, None) => (all, None),
        },
        None => match rows_and_time(b"within".as_slice(), all) {
            (rows, Some(most)) => (rows, Some((most, Since::Request))),
            (rows, None) => (rows, None),
        },
    }
}

/// A message's pattern, and in how many milliseconds it is to arrive, where that is said.
#[tactic(auto, unfolding(crate::specs::Expectations::pattern_form))]
fn message_pattern(
    alloc: Global,
    from: u8,
    to: u8,
    all: Fields<'_>,
    parts: Fields<'_>,
) -> Result<Expected, LineFault>
    ensures { Gives (λ e. e) result
        (pattern_form (fields_of all.entry) from to (rows_and_limit (fields_of parts.entry))) }
{
    let (rows, limit) = rows_and_limit(parts);
    if rows.is_empty() {
        return Err(no_form(alloc, all)?);
    }
    let pattern = pattern(alloc, rows)?;
    match limit {
        None => Ok(Expected::Message { from, to, pattern }),
        Some((most, since)) => Ok(Expected::MessageWithin {
            from,
            to,
            pattern,
            most_ms: count_field(alloc, most)?,
            since,
        }),
    }
}

fn message(
    alloc: Global,
    cluster: &Cluster,
    all: Fields<'_>,
    parts: Fields<'_>,
) -> Result<Expected, LineFault>
    ensures { Gives (λ e. e) result (message_form cluster.now (fields_of all.entry) (fields_of parts.entry)) }
{
    let Some((from, rest)) = parts.first() else {
        return Err(no_form(alloc, all)?);
    };
    let Some((to, rest)) = rest.first() else {
        return Err(no_form(alloc, all)?);
    };
    if rest.is_empty() {
        return Err(no_form(alloc, all)?);
    }
    let (from, to) = pair_fields(alloc, cluster, from, to)?;
    message_pattern(alloc, from, to, all, rest)
}

/// The oldest message of all, by the fields after `next message`.
fn next_message(
    alloc: Global,
    cluster: &Cluster,
    all: Fields<'_>,
    parts: Fields<'_>,
) -> Result<Expected, LineFault>
    ensures { Gives (λ e. e) result
        (next_message_form cluster.now (fields_of all.entry) (fields_of parts.entry)) }
{
    let Some((from, rest)) = parts.first() else {
        return Err(no_form(alloc, all)?);
    };
    let Some((to, rest)) = rest.first() else {
        return Err(no_form(alloc, all)?);
    };
    if rest.is_empty() {
        return Err(no_form(alloc, all)?);
    }
    let (from, to) = pair_fields(alloc, cluster, from, to)?;
    let pattern = pattern(alloc, rest)?;
    Ok(Expected::NextMessage { from, to, pattern })
}

/// What is next, by the fields after `next`.
fn next(
    alloc: Global,
    cluster: &Cluster,
    all: Fields<'_>,
    parts: Fields<'_>,
) -> Result<Expected, LineFault>
    ensures { Gives (λ e. e) result (next_form cluster.now (fields_of all.entry) (fields_of parts.entry)) }
{
    let Some((word, rest)) = parts.first() else {
        return Err(no_form(alloc, all)?);
    };
    if word == b"message".as_slice() {
        next_message(alloc, cluster, all, rest)
    } else {
        Err(no_form(alloc, all)?)
    }
}

fn sent(
    alloc: Global,
    cluster: &Cluster,
    all: Fields<'_>,
    parts: Fields<'_>,
) -> Result<Expected, LineFault>
    ensures { Gives (λ e. e) result (sent_form cluster.now (fields_of all.entry) (fields_of parts.entry)) }
{
    match parts.one() {
        Some(host) => Ok(Expected::Sent {
            host: host_field(alloc, cluster, host)?,
        }),
        None => Err(no_form(alloc, all)?),
    }
}

/// The loss of a host's next message, by its fields.
fn loss(
    alloc: Global,
    cluster: &Cluster,
    all: Fields<'_>,
    host: &[u8],
    why: &[u8],
) -> Result<Expected, LineFault>
    ensures { Gives (λ e. e) result (loss_expectation cluster.now (fields_of all.entry) host.now why.now) }
{
    let host = host_field(alloc, cluster, host)?;
    match named(why) {
        Some(cause) => Ok(Expected::Lost { host, cause }),
        None => Err(no_form(alloc, all)?),
    }
}

fn lost(
    alloc: Global,
    cluster: &Cluster,
    all: Fields<'_>,
    parts: Fields<'_>,
) -> Result<Expected, LineFault>
    ensures { Gives (λ e. e) result (lost_form cluster.now (fields_of all.entry) (fields_of parts.entry)) }
{
    match parts.two() {
        Some((host, why)) => loss(alloc, cluster, all, host, why),
        None => Err(no_form(alloc, all)?),
    }
}

/// How many data bytes a frame has; 1 if the cluster has no such frame.
fn data_length(cluster: &Cluster, frame: Carried) -> u8
    ensures { result ≡ data_length cluster.now frame }
{
    match frame {
        Carried::Signals(number) if (number as usize) < cluster.frames() => {
            cluster.layout(number).len
        }
        Carried::Signals(_) => 1,
        Carried::Request | Carried::Response => 8,
    }
}

/// A pattern that data of a frame may match; `name` is the frame's field.
fn data_pattern(
    alloc: Global,
    cluster: &Cluster,
    name: &[u8],
    frame: Carried,
    pattern: Pattern,
) -> Result<Pattern, LineFault>
    ensures { Gives (λ p. p) result (data_pattern cluster.now name.now frame pattern) }
{
    let bytes = data_length(cluster, frame);
    if has_length(&pattern, bytes as usize) {
        return Ok(pattern);
    }
    Err(LineFault::Bad(Reason::NoData {
        frame: Text::copied(alloc, name)?,
        bytes,
    }))
}

/// A frame with the data bytes in these fields.
fn frame_with(
    alloc: Global,
    cluster: &Cluster,
    name: &[u8],
    rows: Fields<'_>,
) -> Result<Condition, LineFault>
    ensures { Gives (λ w. w) result (frame_with cluster.now name.now (fields_of rows.entry)) }
{
    let frame = frame_field(alloc, cluster, name)?;
    let said = pattern(alloc, rows)?;
    let pattern = data_pattern(alloc, cluster, name, frame, said)?;
    Ok(Condition::Frame {
        frame,
        pattern: Some(pattern),
    })
}

fn frame(
    alloc: Global,
    cluster: &Cluster,
    all: Fields<'_>,
    parts: Fields<'_>,
) -> Result<Condition, LineFault>
    ensures { Gives (λ w. w) result (frame_form cluster.now (fields_of all.entry) (fields_of parts.entry)) }
{
    let Some((name, rows)) = parts.first() else {
        return Err(no_form(alloc, all)?);
    };
    if rows.is_empty() {
        return Ok(Condition::Frame {
            frame: frame_field(alloc, cluster, name)?,
            pattern: None,
        });
    }
    frame_with(alloc, cluster, name, rows)
}

fn seen(alloc: Global, all: Fields<'_>, parts: Fields<'_>) -> Result<Condition, LineFault>
    ensures { Gives (λ w. w) result (seen_form (fields_of all.entry) (fields_of parts.entry)) }
{
    let Some(word) = parts.one() else {
        return Err(no_form(alloc, all)?);
    };
    match named(word) {
        Some(look) => Ok(Condition::Seen(look)),
        None => Err(no_form(alloc, all)?),
    }
}

/// An entry that a schedule table has, by its number; `name` is the table's field.
fn entry_field(
    alloc: Global,
    cluster: &Cluster,
    name: &[u8],
    table: u16,
    field: &[u8],
) -> Result<u16, LineFault>
    requires { table < length cluster.now.tables }
    ensures { Gives (λ e. e) result (entry_field cluster.now name.now table field.now) }
{
    let entry = number_field(alloc, field, 1023)? as u16;
    let entries = cluster.entries(table);
    if (entry as usize) < entries {
        return Ok(entry);
    }
    Err(LineFault::Bad(Reason::NoEntry {
        table: Text::copied(alloc, name)?,
        entries: entries as u16,
    }))
}

fn slot(
    alloc: Global,
    cluster: &Cluster,
    all: Fields<'_>,
    parts: Fields<'_>,
) -> Result<Condition, LineFault>
    ensures { Gives (λ w. w) result (slot_form cluster.now (fields_of all.entry) (fields_of parts.entry)) }
{
    match parts.two() {
        Some((name, entry)) => {
            let table = present_table(alloc, cluster, name)?;
            let entry = entry_field(alloc, cluster, name, table, entry)?;
            Ok(Condition::Slot { table, entry })
        }
        None => Err(no_form(alloc, all)?),
    }
}

/// The running schedule table, by its field.
fn table(
    alloc: Global,
    cluster: &Cluster,
    all: Fields<'_>,
    parts: Fields<'_>,
) -> Result<Expected, LineFault>
    ensures { Gives (λ e. e) result (table_form cluster.now (fields_of all.entry) (fields_of parts.entry)) }
{
    match parts.one() {
        Some(table) => Ok(Expected::Table(present_table(alloc, cluster, table)?)),
        None => Err(no_form(alloc, all)?),
    }
}

/// A frame in a cycle of exactly this time.
fn exact_cycle(
    alloc: Global,
    cluster: &Cluster,
    frame: &[u8],
    time: &[u8],
) -> Result<Expected, LineFault>
    ensures { Gives (λ e. e) result (exact_cycle cluster.now frame.now time.now) }
{
    Ok(Expected::Cycle {
        frame: frame_field(alloc, cluster, frame)?,
        time: time_field(alloc, time)?,
        within: None,
    })
}

/// A frame in a cycle of this time, within a tolerance.
fn near_cycle(
    alloc: Global,
    cluster: &Cluster,
    frame: &[u8],
    time: &[u8],
    within: &[u8],
) -> Result<Expected, LineFault>
    ensures { Gives (λ e. e) result (near_cycle cluster.now frame.now time.now within.now) }
{
    let frame = frame_field(alloc, cluster, frame)?;
    let time = time_field(alloc, time)?;
    let within = time_field(alloc, within)?;
    Ok(Expected::Cycle {
        frame,
        time,
        within: Some(within),
    })
}

fn is_unit(unit: &[u8]) -> bool
    ensures { result ≡ bytes_eq unit.now (codes "ms") }
{
    unit == b"ms".as_slice()
}

fn is_tolerance(sign: &[u8], unit: &[u8]) -> bool
    ensures { result ≡ (bytes_eq sign.now (codes "+-") && bytes_eq unit.now (codes "ms")) }
{
    sign == b"+-".as_slice() && unit == b"ms".as_slice()
}

/// The cycle of a frame with a tolerance, by the fields after `cycle`.
fn cycle_within(
    alloc: Global,
    cluster: &Cluster,
    all: Fields<'_>,
    parts: Fields<'_>,
) -> Result<Expected, LineFault>
    ensures { Gives
        (λ e. e) result (cycle_within_form cluster.now (fields_of all.entry) (fields_of parts.entry)) }
{
    let Some((frame, others)) = parts.first() else {
        return Err(no_form(alloc, all)?);
    };
    let Some((time, others)) = others.first() else {
        return Err(no_form(alloc, all)?);
    };
    match others.three() {
        Some((sign, within, unit)) if is_tolerance(sign, unit) => {
            near_cycle(alloc, cluster, frame, time, within)
        }
        _ => Err(no_form(alloc, all)?),
    }
}

/// The cycle of a frame, by the fields after `cycle`.
fn cycle(
    alloc: Global,
    cluster: &Cluster,
    all: Fields<'_>,
    parts: Fields<'_>,
) -> Result<Expected, LineFault>
    ensures { Gives (λ e. e) result (cycle_form cluster.now (fields_of all.entry) (fields_of parts.entry)) }
{
    let Some((frame, time, unit)) = parts.three() else {
        return cycle_within(alloc, cluster, all, parts);
    };
    if !is_unit(unit) {
        return Err(no_form(alloc, all)?);
    }
    exact_cycle(alloc, cluster, frame, time)
}

fn refused(alloc: Global, all: Fields<'_>, parts: Fields<'_>) -> Result<Expected, LineFault>
    ensures { Gives (λ e. e) result (refused_form (fields_of all.entry) (fields_of parts.entry)) }
{
    match parts.one() {
        Some(why) => Ok(Expected::Refused(refusal_field(alloc, why)?)),
        None => Err(no_form(alloc, all)?),
    }
}

fn no_message(
    alloc: Global,
    cluster: &Cluster,
    all: Fields<'_>,
    parts: Fields<'_>,
) -> Result<Expected, LineFault>
    ensures { Gives (λ e. e) result
        (no_message_form cluster.now (fields_of all.entry) (fields_of parts.entry)) }
{
    match parts.two() {
        Some((from, to)) => {
            let (from, to) = pair_fields(alloc, cluster, from, to)?;
            Ok(Expected::NoMessage { from, to })
        }
        None => Err(no_form(alloc, all)?),
    }
}

fn no_lost(
    alloc: Global,
    cluster: &Cluster,
    all: Fields<'_>,
    parts: Fields<'_>,
) -> Result<Expected, LineFault>
    ensures { Gives (λ e. e) result (no_lost_form cluster.now (fields_of all.entry) (fields_of parts.entry)) }
{
    let Some((host, others)) = parts.first() else {
        return Ok(Expected::NoLost { host: None });
    };
    if !others.is_empty() {
        return Err(no_form(alloc, all)?);
    }
    let host = Some(host_field(alloc, cluster, host)?);
    Ok(Expected::NoLost { host })
}

/// How many messages there are, by the fields after `messages`.
fn messages(
    alloc: Global,
    cluster: &Cluster,
    all: Fields<'_>,
    parts: Fields<'_>,
) -> Result<Condition, LineFault>
    ensures { Gives (λ w. w) result
        (messages_form cluster.now (fields_of all.entry) (fields_of parts.entry)) }
{
    match parts.three() {
        Some((from, to, count)) => {
            let (from, to) = pair_fields(alloc, cluster, from, to)?;
            let (low, high) = counts_field(alloc, count)?;
            Ok(Condition::Messages {
                from,
                to,
                low,
                high,
            })
        }
        None => Err(no_form(alloc, all)?),
    }
}

/// What isn't to be, by the fields after `no`.
fn nothing(
    alloc: Global,
    cluster: &Cluster,
    all: Fields<'_>,
    parts: Fields<'_>,
) -> Result<Expected, LineFault>
    ensures { Gives (λ e. e) result (no_form cluster.now (fields_of all.entry) (fields_of parts.entry)) }
{
    let Some((word, rest)) = parts.first() else {
        return Err(no_form(alloc, all)?);
    };
    if word == b"message".as_slice() {
        no_message(alloc, cluster, all, rest)
    } else if word == b"lost".as_slice() {
        no_lost(alloc, cluster, all, rest)
    } else {
        Err(no_form(alloc, all)?)
    }
}

/// What is expected, where no field stands after its word.
fn lone(
    alloc: Global,
    what: Expected,
    all: Fields<'_>,
    parts: Fields<'_>,
) -> Result<Expected, LineFault>
    ensures { Gives (λ e. e) result (lone_form (fields_of all.entry) what (fields_of parts.entry)) }
{
    if parts.is_empty() {
        return Ok(what);
    }
    Err(no_form(alloc, all)?)
}

/// A signal that is to change, by the fields after `changed`.
fn changed(
    alloc: Global,
    cluster: &Cluster,
    all: Fields<'_>,
    parts: Fields<'_>,
) -> Result<Condition, LineFault>
    ensures { Gives (λ w. w) result (changed_form cluster.now (fields_of all.entry) (fields_of parts.entry)) }
{
    match parts.two() {
        Some((node, signal)) => {
            let (node, signal) = signal_fields(alloc, cluster, node, signal)?;
            Ok(Condition::Changed {
                node,
                signal,
                first: None,
            })
        }
        None => Err(no_form(alloc, all)?),
    }
}

/// The condition that a word names, with the fields after it, if it names one; `all` are the line.
pub(crate) fn condition(
    alloc: Global,
    cluster: &Cluster,
    all: Fields<'_>,
    word: &[u8],
    parts: Fields<'_>,
) -> Result<Option<Condition>, LineFault>
    ensures { Gives (λ w. w) result
        (condition_form cluster.now (fields_of all.entry) word.now (fields_of parts.entry)) }
{
    if word == b"signal".as_slice() {
        Ok(Some(signal(alloc, cluster, all, parts)?))
    } else if word == b"waiting".as_slice() {
        Ok(Some(waiting(alloc, cluster, all, parts)?))
    } else if word == b"messages".as_slice() {
        Ok(Some(messages(alloc, cluster, all, parts)?))
    } else if word == b"seen".as_slice() {
        Ok(Some(seen(alloc, all, parts)?))
    } else if word == b"frame".as_slice() {
        Ok(Some(frame(alloc, cluster, all, parts)?))
    } else if word == b"slot".as_slice() {
        Ok(Some(slot(alloc, cluster, all, parts)?))
    } else if word == b"changed".as_slice() {
        Ok(Some(changed(alloc, cluster, all, parts)?))
    } else {
        Ok(None)
    }
}

/// What isn't to hold, by the fields after `not`.
fn negated(
    alloc: Global,
    cluster: &Cluster,
    all: Fields<'_>,
    parts: Fields<'_>,
) -> Result<Expected, LineFault>
    ensures { Gives (λ e. e) result (not_form cluster.now (fields_of all.entry) (fields_of parts.entry)) }
{
    let Some((word, rest)) = parts.first() else {
        return Err(no_form(alloc, all)?);
    };
    match condition(alloc, cluster, all, word, rest)? {
        Some(what) => Ok(Expected::Not(what)),
        None => Err(no_form(alloc, all)?),
    }
}

/// The expectation of something else than a condition that a word names, with the fields after it.
fn other(
    alloc: Global,
    cluster: &Cluster,
    all: Fields<'_>,
    word: &[u8],
    parts: Fields<'_>,
) -> Result<Expected, LineFault>
    ensures { Gives
        (λ e. e) result (other_expectation cluster.now (fields_of all.entry) word.now (fields_of parts.entry)) }
{
    if word == b"not".as_slice() {
        negated(alloc, cluster, all, parts)
    } else if word == b"message".as_slice() {
        message(alloc, cluster, all, parts)
    } else if word == b"next".as_slice() {
        next(alloc, cluster, all, parts)
    } else if word == b"no".as_slice() {
        nothing(alloc, cluster, all, parts)
    } else if word == b"sent".as_slice() {
        sent(alloc, cluster, all, parts)
    } else if word == b"lost".as_slice() {
        lost(alloc, cluster, all, parts)
    } else if word == b"cycle".as_slice() {
        cycle(alloc, cluster, all, parts)
    } else if word == b"table".as_slice() {
        table(alloc, cluster, all, parts)
    } else if word == b"done".as_slice() {
        lone(alloc, Expected::Done, all, parts)
    } else if word == b"refused".as_slice() {
        refused(alloc, all, parts)
    } else if word == b"asleep".as_slice() {
        lone(alloc, Expected::Asleep, all, parts)
    } else if word == b"awake".as_slice() {
        lone(alloc, Expected::Awake, all, parts)
    } else {
        Err(no_form(alloc, all)?)
    }
}

/// The expectation that a word names, with the fields after it; `all` are the line of the word and these.
#[tactic(auto, unfolding(crate::specs::Expectations::word_expectation))]
fn of_word(
    alloc: Global,
    cluster: &Cluster,
    all: Fields<'_>,
    word: &[u8],
    parts: Fields<'_>,
) -> Result<Expected, LineFault>
    ensures { Gives
        (λ e. e) result (word_expectation cluster.now (fields_of all.entry) word.now (fields_of parts.entry)) }
{
    match condition(alloc, cluster, all, word, parts)? {
        Some(what) => Ok(Expected::Is(what)),
        None => other(alloc, cluster, all, word, parts),
    }
}

/// Whether fields begin with `changed`.
fn begins_change(parts: Fields<'_>) -> bool
    ensures { result ≡ begins_change (fields_of parts.entry) }
{
    match parts.first() {
        Some((word, _)) => word == b"changed".as_slice(),
        None => false,
    }
}

/// Whether a word and the fields after it are `not changed`: no signal has changed at the beginning of its line.
fn no_change(word: &[u8], parts: Fields<'_>) -> bool
    ensures { result ≡ no_change word.now (fields_of parts.entry) }
{
    word == b"not".as_slice() && begins_change(parts)
}

/// Whether `until` doesn't accept a word: `done` and `refused` are about the last step, and `no` is about
/// what doesn't occur.
fn never_comes(word: &[u8]) -> bool
    ensures { result ≡ never_comes word.now }
{
    word == b"done".as_slice() || word == b"refused".as_slice() || word == b"no".as_slice()
}

/// What is waited for, by the fields after `until`.
#[tactic(auto, unfolding(crate::specs::Expectations::until_form))]
pub(crate) fn until(alloc: Global, cluster: &Cluster, line: &[u8]) -> Result<Expected, LineFault>
    ensures { Gives (λ e. e) result (until_form cluster.now (line_fields line.now)) }
{
    let all = Fields::of(cluster, line);
    let Some((word, parts)) = all.first() else {
        return Err(LineFault::Bad(Reason::UntilForm));
    };
    if never_comes(word) || no_change(word, parts) {
        return Err(LineFault::Bad(Reason::UnknownUntil(copied_fields(alloc, all)?)));
    }
    match of_word(alloc, cluster, all, word, parts) {
        Err(LineFault::Bad(why)) => Err(LineFault::Bad(why.of_until())),
        answer => answer,
    }
}

/// Whether a word begins what speaks of single events or of a step.
fn passes(word: &[u8]) -> bool
    ensures { result ≡ passes word.now }
{
    word == b"message".as_slice()
        || word == b"next".as_slice()
        || word == b"sent".as_slice()
        || word == b"lost".as_slice()
        || word == b"done".as_slice()
        || word == b"refused".as_slice()
}

/// What is to hold, by the fields after `while`.
#[tactic(auto, unfolding(crate::specs::Expectations::while_form))]
pub(crate) fn holding(alloc: Global, cluster: &Cluster, line: &[u8]) -> Result<Expected, LineFault>
    ensures { Gives (λ e. e) result (while_form cluster.now (line_fields line.now)) }
{
    let all = Fields::of(cluster, line);
    let Some((word, parts)) = all.first() else {
        return Err(LineFault::Bad(Reason::WhileForm));
    };
    if passes(word) {
        return Err(LineFault::Bad(Reason::UnknownWhile(copied_fields(alloc, all)?)));
    }
    match of_word(alloc, cluster, all, word, parts) {
        Err(LineFault::Bad(why)) => Err(LineFault::Bad(why.of_while())),
        answer => answer,
    }
}

/// Whether a word and the fields after it are for slots alone: a signal changes from the beginning of its
/// line on.
fn needs_slots(word: &[u8], parts: Fields<'_>) -> bool
    ensures { result ≡ needs_slots word.now (fields_of parts.entry) }
{
    word == b"changed".as_slice() || no_change(word, parts)
}

/// What is expected, by the fields after `expect`.
#[tactic(auto, unfolding(crate::specs::Expectations::expectation))]
pub(crate) fn expectation(
    alloc: Global,
    cluster: &Cluster,
    line: &[u8],
) -> Result<Expected, LineFault>
    ensures { Gives (λ e. e) result (expectation cluster.now (line_fields line.now)) }
{
    let all = Fields::of(cluster, line);
    let Some((word, parts)) = all.first() else {
        return Err(LineFault::Bad(Reason::ExpectForm));
    };
    if needs_slots(word, parts) {
        return Err(no_form(alloc, all)?);
    }
    of_word(alloc, cluster, all, word, parts)
}
