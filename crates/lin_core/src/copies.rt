//! Copies of steps and events.

ghost use Rattle.std.specs.Prelude.{◌≡◌, ◌≤◌, length, IfOk};
ghost use Rattle.lin_core.specs.Fits.{AreBytes, FitsStep, FitsValue};

use crate::event::Event;
use crate::payload::Payload;
use crate::step::Step;
use arrayvec::ArrayVec;
use lin_frame::{Value, ValueBytes};
use std::alloc::{AllocError, Global};

impl Payload {
    /// Equal bytes; an error means out of memory.
    pub(crate) fn copy(&self, alloc: Global) -> Result<Payload, AllocError>
        ensures same { IfOk result (λ p. p ≡ self.now) }
        ensures fits { AreBytes self.now }
    {
        let bytes = self.as_slice();
        Payload::copied(alloc, bytes)
    }
}

/// The same bytes.
fn copied_bytes(bytes: &ValueBytes) -> ValueBytes
    ensures same { result ≡ bytes.now }
    ensures few { length bytes.now ≤ 8 }
    ensures fits { AreBytes bytes.now }
{
    let source = bytes.as_slice();
    let mut copy = ArrayVec::new();
    copy.try_extend_from_slice(source).unwrap();
    ValueBytes::new(copy)
}

/// The same value.
fn copied(value: &Value) -> Value
    ensures same { result ≡ value.now }
    ensures fits { FitsValue value.now }
{
    match value {
        Value::Scalar(number) => Value::Scalar(*number),
        Value::Bytes(bytes) => Value::Bytes(copied_bytes(bytes)),
    }
}

impl Step {
    /// An equal step; an error means out of memory.
    pub fn copy(&self, alloc: Global) -> Result<Step, AllocError>
        ensures same { IfOk result (λ s. s ≡ self.now) }
        ensures fits { FitsStep self.now }
    {
        match self {
            Step::Send { from, to, message } => Ok(Step::Send {
                from: *from,
                to: *to,
                message: message.copy(alloc)?,
            }),
            Step::Write { by, signal, value } => Ok(Step::Write {
                by: *by,
                signal: *signal,
                value: copied(value),
            }),
            Step::Open => Ok(Step::Open),
            Step::Answer { node } => Ok(Step::Answer { node: *node }),
            Step::Leave { node } => Ok(Step::Leave { node: *node }),
            Step::Hurt { bytes } => Ok(Step::Hurt {
                bytes: bytes.copy(alloc)?,
            }),
            Step::Finish => Ok(Step::Finish),
            Step::Timeout { node, dir } => Ok(Step::Timeout {
                node: *node,
                dir: *dir,
            }),
            Step::Switch { table } => Ok(Step::Switch { table: *table }),
            Step::AskSleep => Ok(Step::AskSleep),
            Step::Wake => Ok(Step::Wake),
            Step::Close { host } => Ok(Step::Close { host: *host }),
        }
    }
}

impl Event {
    /// An equal event; an error means out of memory.
    pub fn copy(&self, alloc: Global) -> Result<Event, AllocError>
        ensures { IfOk result (λ e. e ≡ self.now) }
    {
        match *self {
            Event::Accepted { host, number } => Ok(Event::Accepted { host, number }),
            Event::Slot {
                table,
                entry,
                header,
            } => Ok(Event::Slot {
                table,
                entry,
                header,
            }),
            Event::Service => Ok(Event::Service),
            Event::Due { node } => Ok(Event::Due { node }),
            Event::Put { node, answer } => Ok(Event::Put { node, answer }),
            Event::Seen(seen) => Ok(Event::Seen(seen)),
            Event::Message {
                from,
                to,
                ref bytes,
            } => Ok(Event::Message {
                from,
                to,
                bytes: bytes.copy(alloc)?,
            }),
            Event::Sent { host, number } => Ok(Event::Sent { host, number }),
            Event::Lost {
                host,
                number,
                cause,
            } => Ok(Event::Lost {
                host,
                number,
                cause,
            }),
            Event::Asleep => Ok(Event::Asleep),
        }
    }
}
