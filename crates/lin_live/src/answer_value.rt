//! Answers to questions.

ghost use Rattle.std.specs.Prelude.{◌≡◌, IfOk, IfSome, option_map};
ghost use Rattle.lin_core.specs.Core.{past_of};
ghost use Rattle.lin_export.specs.LastSlot.{kept_slot, last_slot};
ghost use Rattle.lin_live.specs.Asked.{IsAskable};
ghost use Rattle.lin_live.specs.Values.{IsBoxedKeptOf, KeepsLastSlot, Words, as_said, next_words, said_of};
ghost use Rattle.lin_live.specs.Values.{slot_in_box};

use crate::question::Question;
use lin_bench::{Bench, Pending};
use lin_core::Core;
use lin_export::LastSlot;
use lin_frame::Value;
use lin_text::{Many, Text};
use std::alloc::{AllocError, Global};

/// What is said to a question.
#[derive(Drop)]
pub(crate) enum AnswerValue {
    /// A node sees this value of a signal.
    Signal {
        signal: u16,
        value: Value,
    },
    /// So many messages wait, or so many microseconds have passed.
    Number(u64),
    /// What waits, and what is noted.
    Pending(Many<Pending>),
    Asleep(bool),
    /// A slot is open.
    Open,
    /// The next slot is for this entry of a schedule table, and has this header.
    Slot {
        table: u16,
        entry: u16,
        header: Option<u8>,
    },
    /// The versions of the program and of its objects.
    Version,
    /// The nodes of the cluster.
    Nodes,
    /// The slot that ended last.
    LastSlot(Option<Box<LastSlot>>),
    /// The lines that make the rules in force.
    Rules(Many<Text>),
}

/// Which slot comes next.
fn next(core: &Core) -> AnswerValue
    ensures { as_said core.now.cluster result
        ≡ Words (next_words core.now.cluster core.now.opening (past_of core.now)) }
{
    if core.asleep() {
        return AnswerValue::Asleep(true);
    }
    match core.next_slot() {
        None => AnswerValue::Open,
        Some((table, entry, header)) => AnswerValue::Slot {
            table,
            entry,
            header,
        },
    }
}

/// The slot in a box.
pub(crate) fn unboxed(last: &Option<Box<LastSlot>>) -> Option<&LastSlot>
    ensures { option_map (λ l. l.now) result ≡ slot_in_box last.now }
{
    match last {
        Some(last) => Some(&**last),
        None => None,
    }
}

/// The slot that ended last, from what was found before. An error means out of memory.
#[inline(never)]
fn last_slot(
    alloc: Global,
    core: &Core,
    known: Option<Box<LastSlot>>,
) -> Result<Option<Box<LastSlot>>, AllocError>
    requires { IfSome known (IsBoxedKeptOf core.now.cluster core.now.log) }
    ensures slot { IfOk result (λ last. kept_slot (slot_in_box last)
        ≡ last_slot core.now.cluster (past_of core.now)) }
    ensures kept { IfOk result (λ last. IfSome last (IsBoxedKeptOf core.now.cluster core.now.log)) }
{
    let known = match known {
        Some(known) => Some(Box::into_inner(known)),
        None => None,
    };
    match LastSlot::find(alloc, core.cluster(), core.log(), known)? {
        Some(last) => Ok(Some(Box::new(alloc, last)?)),
        None => Ok(None),
    }
}

/// The answer to a question to a bench. The slot that ended last is found from what was found before.
pub(crate) fn value_of(
    alloc: Global,
    bench: &Bench,
    known: Option<Box<LastSlot>>,
    question: Question,
) -> Result<AnswerValue, AllocError>
    requires askable { IsAskable bench.now.core.cluster question }
    requires known { IfSome known (IsBoxedKeptOf bench.now.core.cluster bench.now.core.log) }
    ensures said { IfOk result
        (λ value. as_said bench.now.core.cluster value ≡ said_of bench.now question) }
    ensures last { IfOk result (KeepsLastSlot bench.now.core.cluster bench.now.core.log) }
{
    let core = bench.core();
    match question {
        Question::Signal { node, signal } => Ok(AnswerValue::Signal {
            signal,
            value: core.signal(node, signal),
        }),
        Question::Waiting { host } => Ok(AnswerValue::Number(core.waiting(host) as u64)),
        Question::Idle => Ok(AnswerValue::Pending(Many::new(bench.pending(alloc)?))),
        Question::Time => Ok(AnswerValue::Number(core.time())),
        Question::Asleep => Ok(AnswerValue::Asleep(core.asleep())),
        Question::Next => Ok(next(core)),
        Question::Version => Ok(AnswerValue::Version),
        Question::Nodes => Ok(AnswerValue::Nodes),
        Question::LastSlot => Ok(AnswerValue::LastSlot(last_slot(alloc, core, known)?)),
        Question::Rules => Ok(AnswerValue::Rules(Many::new(bench.rules(alloc)?))),
    }
}
