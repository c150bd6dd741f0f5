//! Why a line is bad.

ghost use Rattle.std.specs.Prelude.{◌≡◌, IfOk};
ghost use Rattle.lin_bench.specs.Expectations.{until_reason, while_reason};
ghost use Rattle.lin_bench.specs.OnLines.{on_reason};
ghost use Rattle.lin_bench.specs.Parts.{fields_of};
ghost use Rattle.lin_bench.specs.Resolved.{unread_file};

use crate::fields::{Fields, copied_fields};
use lin_text::{Many, Text};
use std::alloc::{AllocError, Global};

/// The hint about the values of a signal that doesn't have a value. Of more than eight units or texts it
/// has the first eight, and `..`.
#[derive(Debug, Drop)]
pub enum Hint {
    /// No hint.
    Nothing,
    /// The signal has no encoding.
    NoEncoding,
    /// The units of its ranges.
    Units(Many<Text>),
    /// The decimals next to a number.
    Nearest(Many<Text>),
    /// The texts of its values.
    Values(Many<Text>),
}

/// Why a line of a bench script is bad. The fields are as they stand in the line.
#[derive(Debug)]
pub enum Reason {
    /// A port, a step, or a field of one.
    Step(lin_log::Reason),
    /// No refusal has this name or this number.
    NoRefusal(Text),
    /// No frame has this name.
    NoFrame(Text),
    /// A frame has so many data bytes, and no such row of bytes matches a pattern.
    NoData {
        frame: Text,
        bytes: u8,
    },
    /// A schedule table has no entry with this number.
    NoEntry {
        table: Text,
        entries: u16,
    },
    /// A field of two numbers of which the first is above the second, or that aren't both numbers.
    NoRange(Text),
    /// A field that is no time in milliseconds, of at most 1,000,000, with at most three decimal places.
    NoTime(Text),
    /// A 0 where a number from 1 on is wanted.
    TooSmall,
    /// `slots` takes a number, a number and `ms`, or `idle`, and after a number `leave`, `until` or `while`.
    SlotsForm,
    /// `slot` takes `hurt` or `leave`, and not this word.
    SlotForm(Text),
    /// `slot leave` takes nodes.
    LeaveForm,
    /// `slots .. leave` takes nodes.
    SlotsLeaveForm,
    /// `expect` takes what is expected.
    ExpectForm,
    /// `expect` has no form of these fields.
    UnknownExpectation(Many<Text>),
    /// `until` takes what is expected.
    UntilForm,
    /// `until` has no form of these fields.
    UnknownUntil(Many<Text>),
    /// `while` takes what is expected.
    WhileForm,
    /// `while` has no form of these fields.
    UnknownWhile(Many<Text>),
    /// `test` takes a name.
    TestForm,
    /// `set` takes a name and a value.
    SetForm,
    /// No parameter has this name.
    NoParameter(Text),
    /// A field of a parameter's text that would begin a comment.
    HashField(Text),
    /// A line in which parameters were replaced is too long.
    LongLine,
    /// `repeat` takes a number.
    RepeatForm,
    /// An `end` without `repeat`.
    EndWithoutRepeat,
    /// A `repeat` without `end`.
    RepeatWithoutEnd,
    /// More lines are read than may be.
    TooManyLines,
    /// `include` takes a file.
    IncludeForm,
    /// A file is included more than 16 deep.
    IncludeDepth,
    /// The file that a line includes under this name can't be read.
    Unread(Text),
    /// With the file that a line includes under this name, the script has more than 16,777,216 bytes.
    LongFile(Text),
    /// Only scripts have lines that begin with this word.
    ForScripts(Text),
    /// `when` takes a node, a pattern and answers, `silent` or `off`.
    WhenForm,
    /// `on` takes a form, `do` and a step, or `off`.
    OnForm,
    /// `on` has no form of these fields.
    UnknownOn(Many<Text>),
    /// `on` takes a send, a write, a switch or a sleep.
    OnStep,
    /// `state` takes a node and a name.
    StateForm,
    /// `node` takes a node, and `off` or `on`.
    NodeForm,
    /// A field is no name: a letter or `_`, then letters, digits and `_`.
    NoName(Text),
    /// No responder with an address has this name or number.
    NoResponder(Text),
    /// No responder has this name or number.
    NotResponder(Text),
    /// No message goes from the first of these nodes to the second: not exactly one is the commander.
    NoMessages {
        from: Text,
        to: Text,
    },
    /// A node neither publishes nor subscribes a signal.
    NotItsSignal {
        node: Text,
        signal: Text,
    },
    /// These fields are no pattern.
    NoPattern(Many<Text>),
    /// An answer of `when` has more bytes than a message may have.
    LongAnswer,
    /// `timeouts` takes a time and `ms`, or `off`.
    TimeoutsForm,
    /// `every` takes a time and a step, or `off`.
    EveryForm,
    /// `every` takes a send or a write.
    EveryStep,
    /// `response_errors` takes `on` or `off`.
    ErrorsForm,
    /// `services` takes `on` or `off`.
    ServicesForm,
    /// No responder answers services.
    NoServices,
    /// No responder has a signal by which it tells errors in responses.
    NoErrorSignal,
    /// The signal by which a responder tells errors in responses has more than one bit.
    WideErrorSignal {
        signal: Text,
        bits: u8,
    },
    /// A field is no decimal below 1,000,000,000 with at most 24 places.
    NoDecimal(Text),
    /// No value behind `=` or `~`.
    NoWords,
    /// A value in words of a wide signal.
    WideSignal(Text),
    /// No raw value of a signal has this text, or is in this tolerance or this range.
    NoValue {
        text: Text,
        signal: Text,
        hint: Hint,
    },
    /// A range, a tolerance or a text of values that has every value of a signal.
    EveryValue {
        text: Text,
        signal: Text,
    },
    /// A range of numbers of messages that has every number.
    EveryNumber(Text),
    /// These fields aren't a raw value, nor a range if one is possible there: `=` is missing.
    Unmarked {
        fields: Many<Text>,
        ranged: bool,
        hint: Hint,
    },
    /// Several values of a signal mean this text.
    SeveralValues {
        count: u64,
        text: Text,
        signal: Text,
    },
}

// Written out, so that what owns a reason lets it go in one step of its proof.
impl Drop for Reason {
    fn drop(self) {
        match self {
            Reason::Step(_field) => {}
            Reason::NoRefusal(_field) => {}
            Reason::NoFrame(_field) => {}
            Reason::NoData {
                frame: _frame,
                bytes: _,
            } => {}
            Reason::NoEntry {
                table: _table,
                entries: _,
            } => {}
            Reason::NoRange(_field) => {}
            Reason::NoTime(_field) => {}
            Reason::TooSmall => {}
            Reason::SlotsForm => {}
            Reason::SlotForm(_field) => {}
            Reason::LeaveForm => {}
            Reason::SlotsLeaveForm => {}
            Reason::ExpectForm => {}
            Reason::UnknownExpectation(_field) => {}
            Reason::UntilForm => {}
            Reason::UnknownUntil(_field) => {}
            Reason::WhileForm => {}
            Reason::UnknownWhile(_field) => {}
            Reason::TestForm => {}
            Reason::SetForm => {}
            Reason::NoParameter(_field) => {}
            Reason::HashField(_field) => {}
            Reason::LongLine => {}
            Reason::RepeatForm => {}
            Reason::EndWithoutRepeat => {}
            Reason::RepeatWithoutEnd => {}
            Reason::TooManyLines => {}
            Reason::IncludeForm => {}
            Reason::IncludeDepth => {}
            Reason::Unread(_field) => {}
            Reason::LongFile(_field) => {}
            Reason::ForScripts(_field) => {}
            Reason::WhenForm => {}
            Reason::OnForm => {}
            Reason::UnknownOn(_field) => {}
            Reason::OnStep => {}
            Reason::StateForm => {}
            Reason::NodeForm => {}
            Reason::NoName(_field) => {}
            Reason::NoResponder(_field) => {}
            Reason::NotResponder(_field) => {}
            Reason::NoMessages {
                from: _from,
                to: _to,
            } => {}
            Reason::NotItsSignal {
                node: _node,
                signal: _signal,
            } => {}
            Reason::NoPattern(_field) => {}
            Reason::LongAnswer => {}
            Reason::TimeoutsForm => {}
            Reason::EveryForm => {}
            Reason::EveryStep => {}
            Reason::ErrorsForm => {}
            Reason::ServicesForm => {}
            Reason::NoServices => {}
            Reason::NoErrorSignal => {}
            Reason::WideErrorSignal {
                signal: _signal,
                bits: _,
            } => {}
            Reason::NoDecimal(_field) => {}
            Reason::NoWords => {}
            Reason::WideSignal(_field) => {}
            Reason::NoValue {
                text: _text,
                signal: _signal,
                hint: _hint,
            } => {}
            Reason::EveryValue {
                text: _text,
                signal: _signal,
            } => {}
            Reason::EveryNumber(_field) => {}
            Reason::Unmarked {
                fields: _fields,
                ranged: _,
                hint: _hint,
            } => {}
            Reason::SeveralValues {
                count: _,
                text: _text,
                signal: _signal,
            } => {}
        }
    }
}

impl Reason {
    /// The same of fields after `until`.
    pub(crate) fn of_until(self) -> Reason
        ensures { result ≡ until_reason self }
    {
        match self {
            Reason::UnknownExpectation(fields) => Reason::UnknownUntil(fields),
            other => other,
        }
    }

    /// The same of fields after `while`.
    pub(crate) fn of_while(self) -> Reason
        ensures { result ≡ while_reason self }
    {
        match self {
            Reason::UnknownExpectation(fields) => Reason::UnknownWhile(fields),
            other => other,
        }
    }

    /// The same of these fields of a form after `on`. An error means out of memory.
    pub(crate) fn of_on(self, alloc: Global, all: Fields<'_>) -> Result<Reason, AllocError>
        ensures { IfOk result (λ why. why ≡ on_reason (fields_of all.entry) self) }
    {
        match self {
            Reason::UnknownExpectation(_fields) => Ok(Reason::UnknownOn(copied_fields(
                alloc, all,
            )?)),
            other => Ok(other),
        }
    }

    /// The name of the file that the line includes, if the line is bad because that file can't be read.
    pub(crate) fn unread_file(self) -> Option<Text>
        ensures { result ≡ unread_file self }
    {
        match self {
            Reason::Unread(name) => Some(name),
            _ => None,
        }
    }
}
