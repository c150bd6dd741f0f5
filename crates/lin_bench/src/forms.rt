//! Whether two forms after `on` are the same.

ghost use Rattle.std.specs.Prelude.{◌≡◌};
ghost use Rattle.lin_bench.specs.Rules.{is_change_of, is_entry, is_look, is_meant_by, is_pattern_of, is_value_of};
ghost use Rattle.lin_bench.specs.Rules.{is_value_within, same_condition, same_data, same_form};

use crate::answers::same_pattern;
use crate::conditions::same_frame;
use crate::ended_rules::same_value;
use crate::expected::Condition;
use crate::rules::Form;
use lin_core::Look;
use lin_frame::Value;
use lin_log::{Carried, Pattern};

fn same_data(a: &Option<Pattern>, b: &Option<Pattern>) -> bool
    ensures { result ≡ same_data a.now b.now }
{
    match (a, b) {
        (None, None) => true,
        (Some(a), Some(b)) => same_pattern(a, b),
        _ => false,
    }
}

/// Whether a condition is that a node sees this value of a signal.
fn is_value_of(what: &Condition, node: u8, signal: u16, value: &Value) -> bool
    ensures { result ≡ is_value_of node signal value.now what.now }
{
    match what {
        Condition::Signal {
            node: n,
            signal: s,
            value: v,
        } => node == *n && signal == *s && same_value(value, v),
        _ => false,
    }
}

/// Whether a condition is that a node sees a value of a signal from one to another.
fn is_value_within(what: &Condition, node: u8, signal: u16, low: u16, high: u16) -> bool
    ensures { result ≡ is_value_within node signal low high what.now }
{
    match what {
        Condition::SignalWithin {
            node: n,
            signal: s,
            low: l,
            high: h,
        } => node == *n && signal == *s && low == *l && high == *h,
        _ => false,
    }
}

/// Whether a condition is that a node sees a value of a signal that this text says.
fn is_meant_by(what: &Condition, node: u8, signal: u16, text: &[u8]) -> bool
    ensures { result ≡ is_meant_by node signal text.now what.now }
{
    match what {
        Condition::SignalMeans {
            node: n,
            signal: s,
            text: t,
            values: _,
        } => node == *n && signal == *s && text == t.as_slice(),
        _ => false,
    }
}

/// Whether a condition is that the last slot was seen so.
fn is_look(what: &Condition, look: Look) -> bool
    ensures { result ≡ is_look look what.now }
{
    match what {
        Condition::Seen(how) => look == *how,
        _ => false,
    }
}

/// Whether a condition is that the last slot carried this frame, with data bytes of this pattern.
fn is_pattern_of(what: &Condition, frame: Carried, pattern: &Option<Pattern>) -> bool
    ensures { result ≡ is_pattern_of frame pattern.now what.now }
{
    match what {
        Condition::Frame {
            frame: f,
            pattern: p,
        } => same_frame(frame, *f) && same_data(pattern, p),
        _ => false,
    }
}

/// Whether a condition is that the last slot was for this entry of a schedule table.
fn is_entry(what: &Condition, table: u16, entry: u16) -> bool
    ensures { result ≡ is_entry table entry what.now }
{
    match what {
        Condition::Slot { table: t, entry: e } => table == *t && entry == *e,
        _ => false,
    }
}

/// Whether a condition is that a node sees another value of a signal than before.
fn is_change_of(what: &Condition, node: u8, signal: u16) -> bool
    ensures { result ≡ is_change_of node signal what.now }
{
    match what {
        Condition::Changed {
            node: n,
            signal: s,
            first: _,
        } => node == *n && signal == *s,
        _ => false,
    }
}

/// Whether two conditions are the same, of those that a form after `on` has.
fn same_condition(a: &Condition, b: &Condition) -> bool
    ensures { result ≡ same_condition a.now b.now }
{
    match a {
        Condition::Signal {
            node,
            signal,
            value,
        } => is_value_of(b, *node, *signal, value),
        Condition::SignalWithin {
            node,
            signal,
            low,
            high,
        } => is_value_within(b, *node, *signal, *low, *high),
        Condition::SignalMeans {
            node,
            signal,
            text,
            values: _,
        } => is_meant_by(b, *node, *signal, text.as_slice()),
        Condition::Seen(look) => is_look(b, *look),
        Condition::Frame { frame, pattern } => is_pattern_of(b, *frame, pattern),
        Condition::Slot { table, entry } => is_entry(b, *table, *entry),
        Condition::Changed {
            node,
            signal,
            first: _,
        } => is_change_of(b, *node, *signal),
        Condition::Waiting { .. } | Condition::Messages { .. } => false,
    }
}

/// Whether two forms after `on` are the same.
pub(crate) fn same_form(a: &Form, b: &Form) -> bool
    ensures { result ≡ same_form a.now b.now }
{
    a.wanted == b.wanted && same_condition(&a.what, &b.what)
}
