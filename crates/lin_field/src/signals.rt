//! Settling of signals: wide ones, initial values that are too large, and subscribers that are no
//! nodes.

ghost use Rattle.std.specs.Prelude.{◌≡◌, ◌++◌, ◌≤◌, ◌<◌, flat_map, map, filter, IfOk, OnOk};
ghost use Rattle.std.specs.List.{list_all};
ghost use Rattle.lin_field.specs.Names.{is_loose_node};
ghost use Rattle.lin_field.specs.Signals.{is_wide, is_narrow, low_bits, kept_bits, number_with_value};
ghost use Rattle.lin_field.specs.Signals.{byte_numbers, settled_init, size_warnings};
ghost use Rattle.lin_field.specs.Signals.{is_wide_signal, settled_signal, signal_warnings};
ghost use Rattle.lin_field.specs.Signals.{unknown_loose_node, wide_names};

use crate::loose::{LooseInit, LooseSignal, WideNumber};
use crate::node_names::{NodeNames, copied};
use lin_cluster::{Finding, FindingKind, at_name, at_number, push_when};
use lin_parts::description::{Init, Name, Number, Signal};
use lin_text::{Many, OneOrMore};
use std::alloc::{AllocError, Global};

/// A scalar of so many bits is an array.
fn is_wide(size: u32) -> bool
    ensures { result ≡ is_wide size }
{
    24 <= size && size <= 64 && size % 8 == 0
}

fn is_narrow(size: u32) -> bool
    ensures { result ≡ is_narrow size }
{
    1 <= size && size <= 16
}

/// Of how many bits a scalar has the low ones: a number has 32.
fn kept_bits(size: u32) -> u32
    ensures value { result ≡ kept_bits size }
    ensures within { result ≤ 32 }
{
    if is_narrow(size) { size } else { 32 }
}

/// The value that the low bits of a number have: a number has 64.
fn low_bits(value: u64, size: u32) -> u64
    ensures { result ≡ low_bits value size }
{
    if size < 64 {
        value % (1 << size)
    } else {
        value
    }
}

/// A number with this value, at the place of another.
fn value_at(number: WideNumber, value: u32) -> Number
    ensures { result ≡ number_with_value number value }
{
    Number {
        value,
        line: number.place.line,
        column: number.place.column,
    }
}

/// The low bits of a number, at its place.
fn low_number(number: WideNumber, bits: u32) -> Number
    requires { bits ≤ 32 }
    ensures { result ≡ number_with_value number (low_bits number.value bits) }
{
    value_at(number, low_bits(number.value, bits) as u32)
}

/// The bytes of a number, the lowest first, each at the number's place.
fn byte_numbers(
    alloc: Global,
    number: WideNumber,
    count: u32,
) -> Result<OneOrMore<Number>, AllocError>
    requires { (1 ≤ count) × (count ≤ 8) }
    ensures { IfOk result (λ bytes. bytes ≡ byte_numbers number count) }
{
    let mut bytes = Vec::new(alloc);
    let mut rest = number.value;
    for _ in 0..count {
        bytes.push(value_at(number, (rest % 256) as u32))?;
        rest /= 256;
    }
    Ok(OneOrMore::new(bytes))
}

fn settled_init(alloc: Global, size: u32, init: LooseInit) -> Result<Init, AllocError>
    ensures { IfOk result (λ i. i ≡ settled_init size init) }
{
    match init {
        LooseInit::Scalar(number) if is_wide(size) => Ok(Init::Array(
            number.place,
            byte_numbers(alloc, number, size / 8)?,
        )),
        LooseInit::Scalar(number) => Ok(Init::Scalar(low_number(number, kept_bits(size)))),
        LooseInit::Array(place, items) => Ok(Init::Array(place, items)),
    }
}

/// Whether a signal becomes an array because of its width.
fn is_wide_signal(signal: &LooseSignal) -> bool
    ensures { result ≡ is_wide_signal signal.now }
{
    match &signal.init {
        LooseInit::Scalar(_) => is_wide(signal.size.value),
        LooseInit::Array(_, _) => false,
    }
}

/// Returns the names of the signals that become arrays because of their width.
pub fn wide_names(alloc: Global, signals: &[LooseSignal]) -> Result<Many<Name>, AllocError>
    ensures { IfOk result (λ names. names ≡ wide_names signals.now) }
{
    let mut names = Vec::new(alloc);
    for signal in signals {
        if is_wide_signal(signal) {
            names.push(copied(alloc, &signal.name)?)?;
        }
    }
    Ok(Many::new(names))
}

fn warn_of_size(warned: &mut Vec<Finding>, signal: &LooseSignal) -> Result<(), AllocError>
    ensures { OnOk result (warned.new.items ≡ warned.old.items ++ size_warnings signal.now) }
{
    let size = signal.size.value;
    let LooseInit::Scalar(number) = &signal.init else {
        return Ok(());
    };
    let is_wide = is_wide(size);
    push_when(
        warned,
        is_wide,
        at_number(FindingKind::WideSignal, &signal.size),
    )?;
    push_when(
        warned,
        (is_wide || is_narrow(size)) && low_bits(number.value, size) != number.value,
        Finding::new(FindingKind::BadInit, number.place),
    )
}

fn are_nodes(nodes: &NodeNames<'_>, names: &[Name]) -> bool
    ensures { result ≡ list_all (is_loose_node nodes.now) names.now }
{
    names.iter().all(|name| nodes.is_node(name))
}

/// The names that are nodes'. (Where all are, they stay where they are.)
fn kept_nodes(
    alloc: Global,
    nodes: &NodeNames<'_>,
    names: Many<Name>,
    warned: &mut Vec<Finding>,
) -> Result<Many<Name>, AllocError>
    ensures kept { IfOk result (λ n. n ≡ filter (is_loose_node nodes.now) names) }
    ensures warned { OnOk result
        (warned.new.items ≡ warned.old.items ++ flat_map (unknown_loose_node nodes.now) names) }
{
    if are_nodes(nodes, names.as_slice()) {
        return Ok(names);
    }
    let mut kept = Vec::new(alloc);
    for name in names.into_vec() {
        let is_known = nodes.is_node(&name);
        push_when(warned, !is_known, at_name(FindingKind::UnknownName, &name))?;
        if is_known {
            kept.push(name)?;
        }
    }
    Ok(Many::new(kept))
}

fn settle_signal(
    alloc: Global,
    nodes: &NodeNames<'_>,
    signal: LooseSignal,
    warned: &mut Vec<Finding>,
) -> Result<Signal, AllocError>
    ensures settled { IfOk result (λ s. s ≡ settled_signal nodes.now signal) }
    ensures warned { OnOk result
        (warned.new.items ≡ warned.old.items ++ signal_warnings nodes.now signal) }
{
    warn_of_size(warned, &signal)?;
    let LooseSignal {
        name,
        size,
        init,
        publisher,
        subscribers,
    } = signal;
    Ok(Signal {
        name,
        size,
        init: settled_init(alloc, size.value, init)?,
        publisher,
        subscribers: kept_nodes(alloc, nodes, subscribers, warned)?,
    })
}

/// The signals, whose values fit and whose subscribers are nodes.
pub fn settle_signals(
    alloc: Global,
    nodes: &NodeNames<'_>,
    signals: Many<LooseSignal>,
    warned: &mut Vec<Finding>,
) -> Result<Many<Signal>, AllocError>
    ensures settled { IfOk result (λ s. s ≡ map (settled_signal nodes.now) signals) }
    ensures warned { OnOk result
        (warned.new.items ≡ warned.old.items ++ flat_map (signal_warnings nodes.now) signals) }
{
    let mut settled = Vec::new(alloc);
    for signal in signals.into_vec() {
        settled.push(settle_signal(alloc, nodes, signal, warned)?)?;
    }
    Ok(Many::new(settled))
}
