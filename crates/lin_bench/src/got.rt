//! Verdicts on lines, and judgements of a play.

ghost use Rattle.std.specs.Prelude.{◌≡◌};
ghost use Rattle.lin_bench.specs.Played.{is_unmet, some_unmet};

use crate::expected::Expected;
use crate::place::LinePlace;
use lin_core::{Cause, Look, Payload, Refusal};
use lin_frame::Value;
use lin_log::Carried;
use lin_text::{Many, Text};

/// What keeps a cluster from being idle.
#[derive(Clone, Copy, Debug)]
pub enum Pending {
    /// So many messages of a host wait.
    MessagesWait(u8, usize),
    /// So many answers of a node are noted.
    AnswersNoted(u8, usize),
}

/// What is so in place of what a bench script expects.
#[derive(Drop)]
pub enum Got {
    /// The node sees this value of the signal.
    Value(Value),
    /// The node sees a value of the signal that has this text.
    Meaning(Text),
    /// So many messages of the host wait.
    Waiting(usize),
    /// The next message has these bytes.
    Message(Payload),
    /// The next message of all hosts is from this one to another, with these bytes.
    MessageOf { from: u8, to: u8, bytes: Payload },
    /// So many messages have arrived that aren't taken.
    Messages(u128),
    /// The next message came so many microseconds after the last one the other way before it.
    Took(u64),
    /// The host's message with this number was sent.
    Sent { number: u32 },
    /// The host's message with this number was lost.
    Lost { number: u32, cause: Cause },
    /// This host's message with this number was lost.
    LostOf { host: u8, number: u32, cause: Cause },
    /// No event is left that no expectation has taken.
    NoEvent,
    /// The last slot that ended was seen so.
    Seen(Look),
    /// The last slot that ended carried this frame with these data bytes.
    Frame { frame: Carried, bytes: Payload },
    /// The last slot that began was for this entry of a schedule table.
    Slot { table: u16, entry: u16 },
    /// The running schedule table is this one.
    Table(u16),
    /// No slot began, or none ended.
    NoSlot,
    /// The last step was done.
    Done,
    /// The last step was refused for this reason.
    Refused(Refusal),
    /// No step was made.
    NoStep,
    Asleep,
    Awake,
    /// Messages of hosts wait still, or answers of nodes are noted.
    StillPending(Many<Pending>),
    /// No such rule is in force.
    NoRule,
    /// No node has this number.
    NoNode,
    /// No node, or no signal, has this number.
    NoNodeOrSignal,
}

/// What a line came to.
#[derive(Drop)]
pub enum Verdict {
    /// Its steps were made, and it expects nothing.
    Nothing,
    /// Its steps were made, and what it expects is so.
    Met(Expected),
    /// Its steps were made, and what it expects isn't so, but this.
    Unmet(Expected, Got),
    /// It makes more slots than are left. Those that are left were made, and no more.
    SlotLimit,
}

/// What was judged, and what came of it.
#[derive(Drop)]
pub enum Judged {
    /// What is expected is so.
    Met(Expected),
    /// What is expected isn't so, but this.
    Unmet(Expected, Got),
    /// A line leaves out the response of this node, which isn't due in its slot.
    NotDue { node: u8 },
    /// The script, or a test of it, expects nothing.
    NothingExpected,
}

/// A judgement on a line of a bench script.
#[derive(Drop)]
pub struct Judgement {
    /// The line.
    pub place: LinePlace,
    /// How many entries the log had when it was judged.
    pub entries: usize,
    pub judged: Judged,
}

/// Whether something isn't as it is expected.
pub fn is_unmet(judged: &Judged) -> bool
    ensures { result ≡ is_unmet judged.now }
{
    match judged {
        Judged::Met(_) => false,
        Judged::Unmet(_, _) | Judged::NotDue { .. } | Judged::NothingExpected => true,
    }
}

/// Whether something isn't as it is expected, of what was judged.
pub fn some_unmet(judgements: &[Judgement]) -> bool
    ensures { result ≡ some_unmet judgements.now }
{
    judgements.iter().any(|one| is_unmet(&one.judged))
}
