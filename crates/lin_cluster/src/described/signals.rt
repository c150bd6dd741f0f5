//! The signals that a description says.

ghost use Rattle.std.specs.Prelude.{◌≡◌, ◌<◌, ◌≤◌, ◌^◌, All, IfOk, length, map};
ghost use Rattle.lin_cluster.specs.Described.{initial_of, described_signal, signals_of, node_number};
ghost use Rattle.lin_cluster.specs.Described.{signal_number};
ghost use Rattle.lin_cluster.specs.Fitting.{FitsInitial, FitsSignal};

use super::numbers::node_number;
use crate::names::{Numbers, number_by, numbers_of};
use arrayvec::ArrayVec;
use lin_frame::{Value, ValueBytes};
use lin_parts::Signal;
use lin_parts::description::{Description, Init, Name, Number};
use lin_text::{Many, Text};
use std::alloc::{AllocError, Global};
use std::marker::Model;

fn bytes_of(items: &[Number]) -> ArrayVec<u8, 8>
    requires few { length items.now ≤ 8 }
    requires bytes { All (λ n. n.value < 2 ^ 8) items.now }
    ensures { result.items ≡ map (λ n. n.value) items.now }
{
    let mut bytes = ArrayVec::new();
    for item in items {
        bytes.push(item.value as u8);
    }
    bytes
}

fn initial_of(init: &Init) -> Value
    requires { FitsInitial init.now }
    ensures { result ≡ initial_of init.now }
{
    match init {
        Init::Scalar(number) => Value::Scalar(number.value as u16),
        Init::Array(_, items) => Value::Bytes(ValueBytes::new(bytes_of(items.as_slice()))),
    }
}

fn subscribers_of(alloc: Global, d: &Description, names: &[Name]) -> Result<Many<u8>, AllocError>
    requires { length d.now.slaves ≤ 15 }
    ensures { IfOk result (λ nodes. nodes ≡ map (node_number d.now) names.now) }
{
    let mut nodes = Vec::with_capacity(alloc, names.len())?;
    for name in names {
        nodes.push(node_number(d, name))?;
    }
    Ok(Many::new(nodes))
}

fn signal_of(
    alloc: Global,
    d: &Description,
    signal: &lin_parts::description::Signal,
) -> Result<Signal, AllocError>
    requires few { length d.now.slaves ≤ 15 }
    requires fits { FitsSignal signal.now }
    ensures { IfOk result (λ made. made ≡ described_signal d.now signal.now) }
{
    Ok(Signal {
        name: Text::copied(alloc, signal.name.text.as_slice())?,
        publisher: node_number(d, &signal.publisher),
        subscribers: subscribers_of(alloc, d, signal.subscribers.as_slice())?,
        size: signal.size.value as u8,
        initial: initial_of(&signal.init),
    })
}

fn signals_of(
    alloc: Global,
    d: &Description,
    signals: &[lin_parts::description::Signal],
) -> Result<Many<Signal>, AllocError>
    requires few { length d.now.slaves ≤ 15 }
    requires fits { All FitsSignal signals.now }
    ensures { IfOk result (λ made. made ≡ map (described_signal d.now) signals.now) }
{
    let mut made = Vec::new(alloc);
    for signal in signals {
        made.push(signal_of(alloc, d, signal)?)?;
    }
    Ok(Many::new(made))
}

/// The signals that a description says, and their numbers by their names: there are up to 1,024, and
/// each place in a frame names one. Contracts see the description.
#[derive(Drop)]
pub(super) struct NumberedSignals<'a> {
    description: &'a Description,
    signals: Many<Signal>,
    numbers: Numbers<'a>,
}

impl<'a> Model for NumberedSignals<'a> {
    ghost use Rattle.lin_cluster.specs.Known.{AreNumberedSignals};
    ghost use Rattle.lin_parts.specs.declared.description.Description.{Description};

    ghost Value = { Description };

    ghost view = { λ s. s.description.now };

    ghost invariant = { λ s. AreNumberedSignals s.description.now s.signals s.numbers.map };
}

impl<'a> NumberedSignals<'a> {
    /// An error means out of memory.
    pub(super) fn new(
        alloc: Global,
        description: &'a Description,
    ) -> Result<NumberedSignals<'a>, AllocError>
        requires few { length description.now.slaves ≤ 15 }
        requires fits { All FitsSignal description.now.signals }
        ensures { IfOk result (λ s. s ≡ description.now) }
    {
        let signals = signals_of(alloc, description, description.signals())?;
        let numbers = numbers_of(alloc, description.signals())?;
        Ok(NumberedSignals {
            description,
            signals,
            numbers,
        })
    }

    /// The number of the signal with this name, or the one after the last.
    #[tactic(auto, using(crate::proofs::Enumerated::number_within))]
    pub(super) fn number(&self, name: &Name) -> u16
        requires { length self.now.signals ≤ 1024 }
        ensures { result ≡ signal_number self.now name.now }
    {
        number_by(&self.numbers, self.description.signals(), name) as u16
    }

    pub(super) fn as_slice(&self) -> &[Signal]
        ensures { result.now ≡ signals_of self.now }
    {
        self.signals.as_slice()
    }

    pub(super) fn into_signals(self) -> Many<Signal>
        ensures { result ≡ signals_of self.entry }
    {
        let NumberedSignals { signals, .. } = self;
        signals
    }
}
