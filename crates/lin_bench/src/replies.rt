//! What the newest entries of logs say.

ghost use Rattle.std.specs.Prelude.{◌≡◌, ◌==◌, ◌≤◌, drop, false, is_some, length, option_map, slice_index, take};
ghost use Rattle.std.specs.Option.{option_map_or};
ghost use Rattle.lin_core.specs.History.{done, events, is_finish};
ghost use Rattle.lin_transport.specs.Transport.{functional};
ghost use Rattle.lin_bench.specs.Adding.{damaged_in, good_in};
ghost use Rattle.lin_bench.specs.Strict.{counted_entries, first_refusal, refusal_in};

use lin_core::{Event, Log, LogEntry, Refusal, Reply, Seen, Step};
use lin_transport::FUNCTIONAL;

/// The first byte; 0 where there is none.
pub(crate) fn first_byte(bytes: &[u8]) -> u8
    ensures { result ≡ slice_index bytes.now 0 }
{
    match bytes {
        [] => 0,
        [first, ..] => *first,
    }
}

/// The bytes of the slot that an entry finished, where it was seen good.
pub(crate) fn good_bytes(entry: &LogEntry) -> Option<&[u8]>
    ensures { option_map (λ b. b.now) result ≡ good_in (events entry.now) }
{
    match &entry.reply {
        Reply::Done(events) => match events.as_slice() {
            [Event::Seen(Seen::Good(answer)), ..] => Some(answer.as_slice()),
            _ => None,
        },
        Reply::Refused(_) => None,
    }
}

/// Whether an entry finished a slot that was seen damaged.
pub(crate) fn is_damaged(entry: &LogEntry) -> bool
    ensures { result ≡ damaged_in (events entry.now) }
{
    match &entry.reply {
        Reply::Done(events) => match events.as_slice() {
            [Event::Seen(Seen::Damaged), ..] => true,
            _ => false,
        },
        Reply::Refused(_) => false,
    }
}

/// Whether a step was done.
pub(crate) fn is_done(entry: &LogEntry) -> bool
    ensures { result ≡ is_some (done entry.now) }
{
    match &entry.reply {
        Reply::Done(_) => true,
        Reply::Refused(_) => false,
    }
}

/// Whether an entry finished a slot that was seen good, with a frame to all responders.
pub(crate) fn went_to_all(entry: &LogEntry) -> bool
    ensures { result ≡ option_map_or (λ bytes. slice_index bytes 0 == functional)
        (good_in (events entry.now)) false }
{
    match good_bytes(entry) {
        Some(bytes) => first_byte(bytes) == FUNCTIONAL,
        None => false,
    }
}

pub(crate) fn is_finish(step: &Step) -> bool
    ensures { result ≡ is_finish step.now }
{
    match step {
        Step::Finish => true,
        _ => false,
    }
}

/// Why a reply refuses, if it does.
fn refusal_in(reply: &Reply) -> Option<Refusal>
    ensures { result ≡ refusal_in reply.now }
{
    match reply {
        Reply::Done(_) => None,
        Reply::Refused(refusal) => Some(*refusal),
    }
}

/// The first refusal among the entries of a log from one up to another, which isn't of them.
fn refusal_among(log: &Log, from: usize, to: usize) -> Option<Refusal>
    requires { to ≤ length log.now.entries }
    ensures { result ≡ first_refusal (drop from (take to log.now.entries)) }
{
    for index in from..to {
        if let Some(refusal) = refusal_in(&log.entry(index).reply) {
            return Some(refusal);
        }
    }
    None
}

/// The first refusal among the entries of a log from one on.
pub fn first_refusal(log: &Log, from: usize) -> Option<Refusal>
    ensures { result ≡ first_refusal (drop from log.now.entries) }
{
    refusal_among(log, from, log.len())
}

/// The first refusal among the entries of a log from one on, of which the last one may not count.
pub(crate) fn counted_refusal(log: &Log, from: usize, is_told: bool) -> Option<Refusal>
    ensures { result ≡ first_refusal (counted_entries is_told (drop from log.now.entries)) }
{
    if is_told {
        refusal_among(log, from, log.len().saturating_sub(1))
    } else {
        first_refusal(log, from)
    }
}
