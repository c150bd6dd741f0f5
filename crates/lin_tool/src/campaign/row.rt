//! What the play of a script came to under faults: a row of a campaign.

ghost use Rattle.std.specs.Prelude.{◌≡◌, ◌≤◌, ◌++◌, [], IfOk, OnOk, drop, length, take};
ghost use Rattle.std.specs.List.{filter_map, list_any};
ghost use Rattle.std.specs.Option.{option_to_list};
ghost use Rattle.lin_core.specs.History.{is_in, reply_events};
ghost use Rattle.lin_tool.specs.campaign.Row.{has_refusal, is_same_loss, is_same_refusal, loss_in, lost_messages};
ghost use Rattle.lin_tool.specs.campaign.Row.{new_refusal, refusal_on, refused_after, refused_steps};
ghost use Rattle.lin_tool.specs.campaign.Row.{row_of, unmet_lines, verdict_of};

use crate::page::summary::slots_finished;
use crate::tally::waiting_in;
use lin_bench::{Judgement, LineEnd, LinePlace, PlayedUnder, is_unmet};
use lin_core::{Cause, Event, Listed, Log, Refusal, Reply};
use lin_text::Many;
use std::alloc::{AllocError, Global};

/// The verdict of a row.
#[derive(Clone, Copy)]
pub(crate) enum RowVerdict {
    /// Each expectation is met.
    Tolerated,
    /// An expectation failed.
    Broken,
    /// By this line, lines of slots make more than 1,000,000.
    Limit(u64),
}

/// A message that was lost.
#[derive(Clone, Copy)]
pub(crate) struct LostMessage {
    pub(crate) host: u8,
    pub(crate) number: u32,
    pub(crate) cause: Cause,
}

/// A step that was refused, by the line that it is of.
#[derive(Clone, Copy)]
pub(crate) struct RefusedStep {
    pub(crate) line: u64,
    pub(crate) refusal: Refusal,
}

/// What a play came to. After the limit, only `verdict` and `missed` count.
#[derive(Drop)]
pub(crate) struct Row {
    pub(crate) verdict: RowVerdict,
    /// How many faults changed no step.
    pub(crate) missed: usize,
    /// The lines with a failed expectation, each once, in the order of their first failures.
    pub(crate) lines: Many<u64>,
    /// The messages that were lost, in order.
    pub(crate) lost: Many<LostMessage>,
    /// The refused steps, the same two once, in order.
    pub(crate) refused: Many<RefusedStep>,
    /// How many slots were finished.
    pub(crate) slots: u128,
    /// The delays of these slots, in microseconds.
    pub(crate) time_us: u64,
    /// How many messages are waiting at the end, of all hosts.
    pub(crate) waiting: u128,
}

fn is_same_loss(one: &LostMessage, other: &LostMessage) -> bool
    ensures { result ≡ is_same_loss one.now other.now }
{
    one.host == other.host
        && one.number == other.number
        && one.cause.number() == other.cause.number()
}

/// Whether a message is one of these lost ones.
pub(crate) fn has_lost(lost: &[LostMessage], message: &LostMessage) -> bool
    ensures { result ≡ list_any (λ other. is_same_loss other message.now) lost.now }
{
    lost.iter().any(|other| is_same_loss(other, message))
}

fn is_same_refusal(one: &RefusedStep, other: &RefusedStep) -> bool
    ensures { result ≡ is_same_refusal one.now other.now }
{
    one.line == other.line && one.refusal.number() == other.refusal.number()
}

/// Whether a step is one of these refused ones.
pub(crate) fn has_refused(refused: &[RefusedStep], step: &RefusedStep) -> bool
    ensures { result ≡ has_refusal refused.now step.now }
{
    refused.iter().any(|other| is_same_refusal(other, step))
}

/// Whether a line is one of these.
fn is_listed(lines: &[u64], line: u64) -> bool
    ensures { result ≡ is_in lines.now line }
{
    lines.iter().any(|other| *other == line)
}

/// Returns the lines with a failed expectation, each once, in the order of their first failures.
fn unmet_lines(alloc: Global, judgements: &[Judgement]) -> Result<Vec<u64>, AllocError>
    ensures { IfOk result (λ v. v.items ≡ unmet_lines judgements.now) }
{
    let mut lines = Vec::new(alloc);
    for one in judgements {
        let line = one.place.own;
        if is_unmet(&one.judged) && !is_listed(lines.as_slice(), line) {
            lines.push(line)?;
        }
    }
    Ok(lines)
}

/// The message that an event loses, if it does.
fn loss_in(event: &Event) -> Option<LostMessage>
    ensures { result ≡ loss_in event.now }
{
    match event {
        Event::Lost {
            host,
            number,
            cause,
        } => Some(LostMessage {
            host: *host,
            number: *number,
            cause: *cause,
        }),
        _ => None,
    }
}

/// Adds the message that an event loses, if it does.
fn add_loss(lost: &mut Vec<LostMessage>, event: &Event) -> Result<(), AllocError>
    ensures { OnOk result
        (lost.new.items ≡ lost.old.items ++ option_to_list (loss_in event.now)) }
{
    if let Some(message) = loss_in(event) {
        lost.push(message)?;
    }
    Ok(())
}

/// Adds the messages that the events of a reply lose.
fn add_lost(lost: &mut Vec<LostMessage>, reply: &Reply) -> Result<(), AllocError>
    ensures { OnOk result
        (lost.new.items ≡ lost.old.items ++ filter_map loss_in (reply_events reply.now)) }
{
    let Reply::Done(events) = reply else {
        return Ok(());
    };
    for event in events.as_slice() {
        add_loss(lost, event)?;
    }
    Ok(())
}

/// Returns the messages that a log lists as lost, in order.
fn all_lost(alloc: Global, log: &Log) -> Result<Vec<LostMessage>, AllocError>
    ensures { IfOk result (λ v. v.items ≡ lost_messages log.now.entries) }
{
    let mut lost = Vec::new(alloc);
    for index in 0..log.len() {
        add_lost(&mut lost, &log.entry(index).reply)?;
    }
    Ok(lost)
}

/// A refused step of a line, by its reply.
fn refusal_on(line: u64, reply: &Reply) -> Option<RefusedStep>
    ensures { result ≡ refusal_on line reply.now }
{
    match reply {
        Reply::Refused(refusal) => Some(RefusedStep {
            line,
            refusal: *refusal,
        }),
        Reply::Done(_) => None,
    }
}

/// Adds a step with this reply if it was refused and isn't among the refused ones from a place on.
fn add_refusal(
    refused: &mut Vec<RefusedStep>,
    from: usize,
    line: u64,
    reply: &Reply,
) -> Result<(), AllocError>
    requires { from ≤ length refused.old.items }
    ensures { OnOk result (refused.new.items ≡ refused.old.items
        ++ new_refusal (drop from refused.old.items) (refusal_on line reply.now)) }
{
    let Some(step) = refusal_on(line, reply) else {
        return Ok(());
    };
    if !has_refused(&refused.as_slice()[from..], &step) {
        refused.push(step)?;
    }
    Ok(())
}

/// Adds the refused steps of a line, whose entries are those of a log from one up to another.
fn add_refused(
    refused: &mut Vec<RefusedStep>,
    log: &Log,
    line: u64,
    from: usize,
    to: usize,
) -> Result<(), AllocError>
    ensures { OnOk result (refused.new.items ≡ refused.old.items
        ++ refused_after [] line (drop from (take to log.now.entries))) }
{
    let before = refused.len();
    for index in from..to.min(log.len()) {
        add_refusal(refused, before, line, &log.entry(index).reply)?;
    }
    Ok(())
}

/// Returns the refused steps of the lines of a log with these ends.
fn all_refused(alloc: Global, log: &Log, ends: &[LineEnd]) -> Result<Vec<RefusedStep>, AllocError>
    ensures { IfOk result (λ v. v.items ≡ refused_steps log.now.entries ends.now) }
{
    let mut refused = Vec::new(alloc);
    let mut from = 0;
    for end in ends {
        add_refused(&mut refused, log, end.place.own, from, end.entries)?;
        from = end.entries;
    }
    Ok(refused)
}

fn verdict_of(limit: Option<LinePlace>, lines: &[u64]) -> RowVerdict
    ensures { result ≡ verdict_of limit lines.now }
{
    match (limit, lines) {
        (Some(place), _) => RowVerdict::Limit(place.own),
        (None, []) => RowVerdict::Tolerated,
        (None, _) => RowVerdict::Broken,
    }
}

/// Returns the row of a play. An error means out of memory.
pub(crate) fn row_of(alloc: Global, played: &PlayedUnder) -> Result<Row, AllocError>
    ensures { IfOk result (λ row. row ≡ row_of played.now) }
{
    let core = &played.core;
    let log = core.log();
    let lost = all_lost(alloc, log)?;
    let refused = all_refused(alloc, log, played.ends.as_slice())?;
    let lines = unmet_lines(alloc, played.judgements.as_slice())?;
    Ok(Row {
        verdict: verdict_of(played.limit, lines.as_slice()),
        missed: played.missed,
        lines: Many::new(lines),
        lost: Many::new(lost),
        refused: Many::new(refused),
        slots: slots_finished(log),
        time_us: core.time(),
        waiting: waiting_in(core),
    })
}
