//! What is expected.

ghost use Rattle.std.specs.Prelude.{◌≡◌};
ghost use Rattle.lin_core.specs.Core.{past_of};
ghost use Rattle.lin_bench.specs.Made.{expected_begun, condition_begun};
ghost use Rattle.lin_bench.specs.Words.{meant_by, meant_condition};

use crate::conditions::value_seen;
use crate::meant::MeantValues;
use crate::rules::RuleEnd;
use lin_core::{Cause, Core, Look, Refusal};
use lin_frame::Value;
use lin_log::{Carried, Pattern};
use lin_text::Text;

/// The earlier message from which the time of a message counts. If there is none, it counts from 0.
#[derive(Clone, Copy, Debug)]
pub enum Since {
    /// The last one the other way.
    Request,
    /// The last one between the two nodes, in either direction.
    Last,
}

/// A time, at most 1,000,000 milliseconds, in microseconds, and its text in milliseconds.
#[derive(Drop)]
pub struct SaidTime {
    pub us: u32,
    pub text: Text,
}

/// What holds after some steps, and may not hold after others.
pub enum Condition {
    /// A node sees this value of a signal (ISO 17987-3, signals).
    Signal {
        node: u8,
        signal: u16,
        value: Value,
    },
    /// A node sees a value of a scalar signal from one to another.
    SignalWithin {
        node: u8,
        signal: u16,
        low: u16,
        high: u16,
    },
    /// A node sees a value of a signal that words say, by their text and all these values.
    SignalMeans {
        node: u8,
        signal: u16,
        text: Text,
        values: MeantValues,
    },
    /// So many messages of a host wait.
    Waiting {
        host: u8,
        count: u16,
    },
    /// So many messages from one host to another, from one number to another, have arrived that aren't
    /// taken.
    Messages {
        from: u8,
        to: u8,
        low: u32,
        high: u32,
    },
    /// The last slot that ended was seen so.
    Seen(Look),
    /// The last slot that ended was seen good, and carried this frame, whose data bytes match the
    /// pattern, if there is one.
    Frame {
        frame: Carried,
        pattern: Option<Pattern>,
    },
    /// The last slot that began was for this entry of a schedule table.
    Slot {
        table: u16,
        entry: u16,
    },
    /// A node sees another value of a signal than at the beginning of the line; the value then, once the
    /// line has begun.
    Changed {
        node: u8,
        signal: u16,
        first: Option<Value>,
    },
}

// Written out, as that of what is expected, so that what owns one lets it go in one step of its proof.
impl Drop for Condition {
    fn drop(self) {
        match self {
            Condition::Signal {
                node: _,
                signal: _,
                value: _value,
            } => {}
            Condition::SignalWithin {
                node: _,
                signal: _,
                low: _,
                high: _,
            } => {}
            Condition::SignalMeans {
                node: _,
                signal: _,
                text: _text,
                values: _values,
            } => {}
            Condition::Waiting { host: _, count: _ } => {}
            Condition::Messages {
                from: _,
                to: _,
                low: _,
                high: _,
            } => {}
            Condition::Seen(_) => {}
            Condition::Frame {
                frame: _,
                pattern: _pattern,
            } => {}
            Condition::Slot { table: _, entry: _ } => {}
            Condition::Changed {
                node: _,
                signal: _,
                first: _first,
            } => {}
        }
    }
}

impl Condition {
    /// The condition of a line that begins now: a signal is to change from the value that it has now.
    pub(crate) fn begun(self, core: &Core) -> Condition
        ensures { result ≡ condition_begun core.now.cluster (past_of core.now) self }
    {
        match self {
            Condition::Changed {
                node,
                signal,
                first: _first,
            } => Condition::Changed {
                node,
                signal,
                first: value_seen(core, node, signal),
            },
            other => other,
        }
    }

    /// The condition, with the values that words say in the place of the one of a line in numbers.
    pub(crate) fn meant(self, text: Text, values: MeantValues) -> Condition
        ensures { result ≡ meant_condition self text values }
    {
        match self {
            Condition::Signal {
                node,
                signal,
                value: _value,
            } => Condition::SignalMeans {
                node,
                signal,
                text,
                values,
            },
            other => other,
        }
    }
}

/// What a bench script expects of the steps before.
pub enum Expected {
    /// This holds.
    Is(Condition),
    /// This doesn't hold. Where it is of a slot, there was one.
    Not(Condition),
    /// The next message from one host to another matches this pattern (ISO 17987-2).
    Message {
        from: u8,
        to: u8,
        pattern: Pattern,
    },
    /// The next message from one host to another matches this pattern, and arrived at most so many
    /// milliseconds, 1 to 1,000,000, after the earlier one before it.
    MessageWithin {
        from: u8,
        to: u8,
        pattern: Pattern,
        most_ms: u32,
        since: Since,
    },
    /// The next message of all hosts is from this one to another, and matches this pattern.
    NextMessage {
        from: u8,
        to: u8,
        pattern: Pattern,
    },
    /// No message from one host to another has arrived that isn't taken.
    NoMessage {
        from: u8,
        to: u8,
    },
    /// No message of a host, or of any, was lost that isn't taken.
    NoLost {
        host: Option<u8>,
    },
    /// The next message of a host that waits no longer was sent.
    Sent {
        host: u8,
    },
    /// The next message of a host that waits no longer was lost.
    Lost {
        host: u8,
        cause: Cause,
    },
    /// Of the slots that ended since the last `forget`, two or more were seen good with this frame, and each
    /// of them began this time after the one before, within this tolerance if there is one.
    Cycle {
        frame: Carried,
        time: SaidTime,
        within: Option<SaidTime>,
    },
    /// The running schedule table is this one: the table of the open slot or, if no slot is open, of the
    /// next slot.
    Table(u16),
    /// The last step was done.
    Done,
    /// The last step was refused for this reason.
    Refused(Refusal),
    Asleep,
    Awake,
    /// No message of any host waits, and no answer is noted: `slots idle` expects it after its slots.
    Idle,
    /// There is a rule that this line ends. The line checks this itself, and reports only that there is none.
    HasRule(RuleEnd),
}

impl Drop for Expected {
    fn drop(self) {
        match self {
            Expected::Is(_condition) => {}
            Expected::Not(_condition) => {}
            Expected::Message {
                from: _,
                to: _,
                pattern: _pattern,
            } => {}
            Expected::MessageWithin {
                from: _,
                to: _,
                pattern: _pattern,
                most_ms: _,
                since: _,
            } => {}
            Expected::NextMessage {
                from: _,
                to: _,
                pattern: _pattern,
            } => {}
            Expected::NoMessage { from: _, to: _ } => {}
            Expected::NoLost { host: _ } => {}
            Expected::Sent { host: _ } => {}
            Expected::Lost { host: _, cause: _ } => {}
            Expected::Cycle {
                frame: _,
                time: _time,
                within: _within,
            } => {}
            Expected::Table(_) => {}
            Expected::Done => {}
            Expected::Refused(_) => {}
            Expected::Asleep => {}
            Expected::Awake => {}
            Expected::Idle => {}
            Expected::HasRule(_end) => {}
        }
    }
}

impl Expected {
    /// What is expected of a line that begins now.
    pub(crate) fn begun(self, core: &Core) -> Expected
        ensures { result ≡ expected_begun core.now.cluster (past_of core.now) self }
    {
        match self {
            Expected::Is(what) => Expected::Is(what.begun(core)),
            Expected::Not(what) => Expected::Not(what.begun(core)),
            other => other,
        }
    }

    /// What is expected, with the values that words say in the place of the one of a line in numbers.
    pub(crate) fn meant(self, text: Text, values: MeantValues) -> Expected
        ensures { result ≡ meant_by self text values }
    {
        match self {
            Expected::Is(what) => Expected::Is(what.meant(text, values)),
            Expected::Not(what) => Expected::Not(what.meant(text, values)),
            other => other,
        }
    }
}
