//! Verdicts on what is expected.

ghost use Rattle.std.specs.Prelude.{◌≡◌, ◌==◌, ◌≤◌, ◌&&◌, IfOk, OnOk, None, Some, if◌then◌else◌, option_and_then, option_map};
ghost use Rattle.lin_core.specs.Core.{past_of};
ghost use Rattle.lin_bench.specs.Made.{comes};
ghost use Rattle.lin_bench.specs.Searches.{IsSearchState, taken_by};
ghost use Rattle.lin_bench.specs.Making.{course_on};
ghost use Rattle.lin_bench.specs.Slots.{pending};
ghost use Rattle.lin_bench.specs.Verdicts.{bytes_verdict, done_verdict, first_message, got_unless, idle_verdict, judged_so};
ghost use Rattle.lin_bench.specs.Verdicts.{kind_taken, lost_verdict, message_kind, message_verdict, newest_reply};
ghost use Rattle.lin_bench.specs.Verdicts.{next_event, next_message_verdict, no_lost_verdict, no_message_verdict};
ghost use Rattle.lin_bench.specs.Verdicts.{refused_verdict, running_table, sent_verdict, table_verdict, taking};
ghost use Rattle.lin_bench.specs.Verdicts.{time_taken, tolerance, verdict, with_taken, within_verdict};
ghost use Rattle.lin_bench.specs.declared.got.Got.TheVariants.{Asleep, Awake};
ghost use Rattle.lin_bench.specs.declared.taken.EventKind.TheVariants.{Messages};
ghost use Rattle.lin_bench.specs.Watches.{IsWatch};

use crate::answers::fits;
use crate::arrivals::{self, EarlierMessages};
use crate::carried::open_after;
use crate::conditions::{Finding, found};
use crate::cycles::{FrameCycle, cycle};
use crate::expected::{Expected, SaidTime, Since};
use crate::got::Got;
use crate::left_events::{first_loss, first_message};
use crate::ruled::{RuledCore, pending};
use crate::taken::{EventKind, Search, TakenEvents, event_from, last_end, place_before};
use crate::watches::Watch;
use lin_core::{Cause, Core, Event, Payload, Refusal, Reply};
use lin_log::Pattern;
use lin_text::Many;
use std::alloc::{AllocError, Global};

/// A tolerance in microseconds; 0 if there is none.
fn tolerance(within: &Option<SaidTime>) -> u32
    ensures { result ≡ tolerance within.now }
{
    match within {
        Some(time) => time.us,
        None => 0,
    }
}

/// The verdict on a condition that is to hold, or not to hold, by what is found of it.
pub(crate) fn judged(finding: Finding, wanted: bool) -> Option<Got>
    ensures { result ≡ judged_so wanted finding }
{
    let Finding { holds, got } = finding;
    let met = match holds {
        Some(holds) => if wanted { holds } else { !holds },
        None => false,
    };
    if met { None } else { Some(got) }
}

/// Whether the bytes of a message match a pattern.
fn message_bytes(alloc: Global, bytes: &[u8], pattern: &Pattern) -> Result<Option<Got>, AllocError>
    ensures { IfOk result (λ v. v ≡ bytes_verdict pattern.now bytes.now) }
{
    if fits(pattern, bytes) {
        Ok(None)
    } else {
        Ok(Some(Got::Message(Payload::copied(alloc, bytes)?)))
    }
}

fn message(
    alloc: Global,
    event: Option<&Event>,
    pattern: &Pattern,
) -> Result<Option<Got>, AllocError>
    ensures { IfOk result
        (λ v. v ≡ message_verdict pattern.now (option_map (λ e. e.now) event.entry)) }
{
    match event {
        Some(Event::Message { bytes, .. }) => message_bytes(alloc, bytes.as_slice(), pattern),
        _ => Ok(Some(Got::NoEvent)),
    }
}

/// Whether the oldest message of all is from one host to another, and matches a pattern.
fn next_message(
    alloc: Global,
    event: Option<&Event>,
    from: u8,
    to: u8,
    pattern: &Pattern,
) -> Result<Option<Got>, AllocError>
    ensures { IfOk result
        (λ v. v ≡ next_message_verdict from to pattern.now (option_map (λ e. e.now) event.entry)) }
{
    match event {
        Some(
            Event::Message {
                from: f,
                to: t,
                bytes,
            },
        ) => {
            if *f == from && *t == to {
                message_bytes(alloc, bytes.as_slice(), pattern)
            } else {
                Ok(Some(Got::MessageOf {
                    from: *f,
                    to: *t,
                    bytes: Payload::copied(alloc, bytes.as_slice())?,
                }))
            }
        }
        _ => Ok(Some(Got::NoEvent)),
    }
}

/// Whether a message that is right came in so many milliseconds; it took this time in microseconds.
fn within(first: Option<Got>, most_ms: u32, took: u64) -> Option<Got>
    ensures { result ≡ within_verdict most_ms took first }
{
    match first {
        None => if took <= 1000 * u64::from(most_ms) {
            None
        } else {
            Some(Got::Took(took))
        },
        Some(got) => Some(got),
    }
}

/// How long the next message took from the earlier one, in microseconds.
fn time_taken(core: &Core, taken: &TakenEvents, since: Since, from: u8, to: u8) -> u64
    requires { IsSearchState core.now.log taken.now }
    ensures { result ≡ time_taken core.now.cluster (past_of core.now)
        (taken_by core.now.log taken.now) since from to }
{
    let answer = EventKind::Messages { from, to };
    let earlier = EarlierMessages { since, from, to };
    let place = last_end(taken, answer);
    arrivals::time_taken(core.cluster(), core.log(), earlier, answer, place)
}

fn no_message(alloc: Global, event: Option<&Event>) -> Result<Option<Got>, AllocError>
    ensures { IfOk result (λ v. v ≡ no_message_verdict (option_map (λ e. e.now) event.entry)) }
{
    match event {
        Some(Event::Message { bytes, .. }) => {
            Ok(Some(Got::Message(Payload::copied(alloc, bytes.as_slice())?)))
        }
        _ => Ok(None),
    }
}

fn no_lost(event: Option<&Event>) -> Option<Got>
    ensures { result ≡ no_lost_verdict (option_map (λ e. e.now) event.entry) }
{
    match event {
        Some(
            Event::Lost {
                host,
                number,
                cause,
            },
        ) => Some(Got::LostOf {
            host: *host,
            number: *number,
            cause: *cause,
        }),
        _ => None,
    }
}

fn sent(event: Option<&Event>) -> Option<Got>
    ensures { result ≡ sent_verdict (option_map (λ e. e.now) event.entry) }
{
    match event {
        Some(Event::Sent { .. }) => None,
        Some(Event::Lost { number, cause, .. }) => Some(Got::Lost {
            number: *number,
            cause: *cause,
        }),
        _ => Some(Got::NoEvent),
    }
}

fn lost(event: Option<&Event>, why: Cause) -> Option<Got>
    ensures { result ≡ lost_verdict why (option_map (λ e. e.now) event.entry) }
{
    match event {
        Some(Event::Sent { number, .. }) => Some(Got::Sent { number: *number }),
        Some(Event::Lost { number, cause, .. }) => {
            if *cause == why {
                None
            } else {
                Some(Got::Lost {
                    number: *number,
                    cause: *cause,
                })
            }
        }
        _ => Some(Got::NoEvent),
    }
}

/// The running schedule table: the table of the open slot or, if no slot is open, of the next slot.
fn running_table(alloc: Global, core: &Core) -> Result<u16, AllocError>
    ensures { IfOk result
        (λ t. t ≡ running_table core.now.cluster core.now.opening (past_of core.now)) }
{
    if let Some((table, _, _)) = core.next_slot() {
        return Ok(table);
    }
    let log = core.log();
    let open = open_after(alloc, log, log.len())?;
    Ok(open.unwrap().table)
}

fn table(running: u16, table: u16) -> Option<Got>
    ensures { result ≡ table_verdict table running }
{
    if running == table {
        None
    } else {
        Some(Got::Table(running))
    }
}

/// What the last step was answered.
fn newest_reply(core: &Core) -> Option<&Reply>
    ensures { option_map (λ r. r.now) result ≡ newest_reply (past_of core.now) }
{
    if core.log().len() == 0 {
        None
    } else {
        Some(&core.newest().reply)
    }
}

fn done(reply: Option<&Reply>) -> Option<Got>
    ensures { result ≡ done_verdict (option_map (λ r. r.now) reply.entry) }
{
    match reply {
        None => Some(Got::NoStep),
        Some(Reply::Done(_)) => None,
        Some(Reply::Refused(refusal)) => Some(Got::Refused(*refusal)),
    }
}

fn refused(reply: Option<&Reply>, why: Refusal) -> Option<Got>
    ensures { result ≡ refused_verdict why (option_map (λ r. r.now) reply.entry) }
{
    match reply {
        None => Some(Got::NoStep),
        Some(Reply::Done(_)) => Some(Got::Done),
        Some(Reply::Refused(refusal)) => {
            if *refusal == why {
                None
            } else {
                Some(Got::Refused(*refusal))
            }
        }
    }
}

/// Whether no message waits, and no answer is noted.
fn idle(alloc: Global, ruled: &RuledCore) -> Result<Option<Got>, AllocError>
    ensures { IfOk result (λ v. v ≡ idle_verdict
        (pending ruled.now.core.cluster (past_of ruled.now.core) ruled.now.rules.noted)) }
{
    let all = pending(alloc, ruled)?;
    if all.is_empty() {
        return Ok(None);
    }
    Ok(Some(Got::StillPending(Many::new(all))))
}

fn asleep(is_asleep: bool) -> Option<Got>
    ensures { result ≡ got_unless is_asleep Awake }
{
    if is_asleep { None } else { Some(Got::Awake) }
}

fn awake(is_asleep: bool) -> Option<Got>
    ensures { result ≡ (if is_asleep then Some Asleep else None) }
{
    if is_asleep { Some(Got::Asleep) } else { None }
}

/// The kind of the messages from one host to another.
fn messages(from: u8, to: u8) -> EventKind
    ensures { result ≡ Messages from to }
{
    EventKind::Messages { from, to }
}

/// The oldest event of a kind that isn't taken.
fn look_for<'a>(
    core: &'a Core,
    taken: &mut TakenEvents,
    kind: EventKind,
) -> Result<Option<&'a Event>, AllocError>
    requires { IsSearchState core.now.log taken.old }
    ensures event { IfOk result (λ e. option_map (λ e. e.now) e
        ≡ next_event (past_of core.now) (taken_by core.now.log taken.old) kind) }
    ensures taken { OnOk result
        (taken_by core.now.log taken.new ≡ taken_by core.now.log taken.old) }
    ensures known { IsSearchState core.now.log taken.new }
{
    let from = last_end(taken, kind);
    let (event, end) = event_from(core.log(), kind, from);
    taken.searches.push(Search {
        kind,
        found: false,
        end: place_before(event, end),
    })?;
    Ok(event)
}

/// The oldest event of a kind that no expectation has taken, which is taken now.
fn take_next<'a>(
    core: &'a Core,
    taken: &mut TakenEvents,
    kind: EventKind,
) -> Result<Option<&'a Event>, AllocError>
    requires { IsSearchState core.now.log taken.old }
    ensures event { IfOk result (λ e. option_map (λ e. e.now) e
        ≡ next_event (past_of core.now) (taken_by core.now.log taken.old) kind) }
    ensures taken { OnOk result (taken_by core.now.log taken.new ≡ with_taken
        (next_event (past_of core.now) (taken_by core.now.log taken.old) kind) kind
        (taken_by core.now.log taken.old)) }
    ensures known { IsSearchState core.now.log taken.new }
{
    let from = last_end(taken, kind);
    let (event, end) = event_from(core.log(), kind, from);
    taken.searches.push(Search {
        kind,
        found: event.is_some(),
        end,
    })?;
    Ok(event)
}

/// The kind of an event that is a message.
fn message_kind(event: Option<&Event>) -> Option<EventKind>
    ensures { result ≡ option_and_then message_kind (option_map (λ e. e.now) event.entry) }
{
    match event {
        Some(Event::Message { from, to, .. }) => Some(messages(*from, *to)),
        _ => None,
    }
}

/// The oldest message of all that no expectation has taken, which is taken now.
fn take_first<'a>(core: &'a Core, taken: &mut TakenEvents) -> Result<Option<&'a Event>, AllocError>
    requires { IsSearchState core.now.log taken.old }
    ensures event { IfOk result (λ e. option_map (λ e. e.now) e
        ≡ first_message (past_of core.now) (taken_by core.now.log taken.old)) }
    ensures taken { OnOk result (taken_by core.now.log taken.new
        ≡ taking (past_of core.now) (taken_by core.now.log taken.old)
        (option_and_then message_kind (first_message (past_of core.now) (taken_by core.now.log taken.old)))) }
    ensures known { IsSearchState core.now.log taken.new }
{
    let event = first_message(core.log(), taken);
    match message_kind(event) {
        Some(kind) => {
            take_next(core, taken, kind)?;
        }
        None => {}
    }
    Ok(event)
}

/// The kind of event that an expectation takes, if it takes one.
fn kind_taken(core: &Core, taken: &mut TakenEvents, expected: &Expected) -> Option<EventKind>
    requires { IsSearchState core.now.log taken.old }
    ensures kind { result
        ≡ kind_taken (past_of core.now) (taken_by core.now.log taken.old) expected.now }
    ensures taken { taken_by core.now.log taken.new ≡ taken_by core.now.log taken.old }
    ensures known { IsSearchState core.now.log taken.new }
{
    match expected {
        Expected::Message { from, to, .. } | Expected::MessageWithin { from, to, .. } => {
            Some(messages(*from, *to))
        }
        Expected::NextMessage { .. } => message_kind(first_message(core.log(), taken)),
        Expected::Sent { host } | Expected::Lost { host, .. } => {
            Some(EventKind::Fates { host: *host })
        }
        _ => None,
    }
}

/// Whether what is waited for comes. It takes nothing.
pub(crate) fn comes(
    alloc: Global,
    ruled: &RuledCore,
    taken: &mut TakenEvents,
    watch: &mut Watch,
    expected: &Expected,
) -> Result<bool, AllocError>
    requires known { IsSearchState ruled.now.core.log taken.old }
    requires watch { IsWatch ruled.now.core.cluster ruled.now.core.log watch.old }
    ensures comes { IfOk result (λ is. is ≡ comes ruled.now.core.cluster ruled.now.core.opening
        (taken_by ruled.now.core.log taken.old) expected.now (course_on ruled.now)) }
    ensures taken { OnOk result
        (taken_by ruled.now.core.log taken.new ≡ taken_by ruled.now.core.log taken.old) }
    ensures known { IsSearchState ruled.now.core.log taken.new }
    ensures watch { IsWatch ruled.now.core.cluster ruled.now.core.log watch.new }
{
    match kind_taken(ruled.core(), taken, expected) {
        Some(kind) => Ok(look_for(ruled.core(), taken, kind)?.is_some()),
        None => Ok(verdict(alloc, ruled, taken, watch, expected)?.is_none()),
    }
}

/// Whether what is expected is so, and what is so where it isn't; the event that it speaks of is
/// taken.
#[tactic(auto, unfolding(crate::specs::Verdicts::verdict))]
pub(crate) fn verdict(
    alloc: Global,
    ruled: &RuledCore,
    taken: &mut TakenEvents,
    watch: &mut Watch,
    expected: &Expected,
) -> Result<Option<Got>, AllocError>
    requires known { IsSearchState ruled.now.core.log taken.old }
    requires watch { IsWatch ruled.now.core.cluster ruled.now.core.log watch.old }
    ensures verdict { IfOk result
        (λ v. v ≡ verdict ruled.now.core.cluster ruled.now.core.opening (past_of ruled.now.core)
        ruled.now.rules.noted (taken_by ruled.now.core.log taken.old) expected.now) }
    ensures taken { OnOk result (taken_by ruled.now.core.log taken.new
        ≡ taking (past_of ruled.now.core) (taken_by ruled.now.core.log taken.old)
        (kind_taken (past_of ruled.now.core) (taken_by ruled.now.core.log taken.old) expected.now)) }
    ensures known { IsSearchState ruled.now.core.log taken.new }
    ensures watch { IsWatch ruled.now.core.cluster ruled.now.core.log watch.new }
{
    let core = ruled.core();
    match expected {
        Expected::Is(what) => Ok(judged(found(alloc, core, taken, watch, what)?, true)),
        Expected::Not(what) => Ok(judged(found(alloc, core, taken, watch, what)?, false)),
        Expected::Message { from, to, pattern } => {
            let event = take_next(core, taken, messages(*from, *to))?;
            message(alloc, event, pattern)
        }
        Expected::MessageWithin {
            from,
            to,
            pattern,
            most_ms,
            since,
        } => {
            let took = time_taken(core, taken, *since, *from, *to);
            let event = take_next(core, taken, messages(*from, *to))?;
            Ok(within(message(alloc, event, pattern)?, *most_ms, took))
        }
        Expected::NextMessage { from, to, pattern } => {
            let event = take_first(core, taken)?;
            next_message(alloc, event, *from, *to, pattern)
        }
        Expected::NoMessage { from, to } => {
            let event = look_for(core, taken, messages(*from, *to))?;
            no_message(alloc, event)
        }
        Expected::NoLost { host } => Ok(no_lost(first_loss(core.log(), taken, *host))),
        Expected::Sent { host } => {
            let event = take_next(core, taken, EventKind::Fates { host: *host })?;
            Ok(sent(event))
        }
        Expected::Lost { host, cause } => {
            let event = take_next(core, taken, EventKind::Fates { host: *host })?;
            Ok(lost(event, *cause))
        }
        Expected::Cycle {
            frame,
            time,
            within,
        } => {
            let wanted = FrameCycle {
                frame: *frame,
                time_us: time.us,
                within_us: tolerance(within),
            };
            cycle(alloc, core, taken, &mut watch.cycle, wanted)
        }
        Expected::Table(number) => Ok(table(running_table(alloc, core)?, *number)),
        Expected::Done => Ok(done(newest_reply(core))),
        Expected::Refused(why) => Ok(refused(newest_reply(core), *why)),
        Expected::Asleep => Ok(asleep(core.asleep())),
        Expected::Awake => Ok(awake(core.asleep())),
        Expected::Idle => idle(alloc, ruled),
        Expected::HasRule(_) => Ok(Some(Got::NoRule)),
    }
}
