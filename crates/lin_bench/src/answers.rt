//! What rules answer to messages.

ghost use Rattle.std.specs.Prelude.{◌≡◌, ◌==◌, ◌<◌, ◌≤◌, ◌^◌, ◌&&◌, ℕ, length, not};
ghost use Rattle.std.specs.Prelude.{IfOk, IfSome, OnOk, find, Option, option_map, position, zip};
ghost use Rattle.std.specs.Cmp.Lexicographic.{pointwise};
ghost use Rattle.std.specs.List.{list_all};
ghost use Rattle.std.specs.Option.{option_copied, option_map_or};
ghost use Rattle.lin_parts.specs.Cluster.{nodes};
ghost use Rattle.lin_core.specs.History.{is_in};
ghost use Rattle.lin_bench.specs.Rules.{all_noted, answer_bytes, fits, fits_byte, has_length, noted_with, noted_answers};
ghost use Rattle.lin_bench.specs.Rules.{is_below, is_rule_for, more_specific, rank_at, rule_for};
ghost use Rattle.lin_bench.specs.Rules.{after_event, after_events, with_answers, states_after_entering, is_below_pattern};
ghost use Rattle.lin_bench.specs.Rules.{part_byte, rules_after_message, same_byte, same_pattern, same_rule};
ghost use Rattle.lin_bench.specs.Rules.{data_by, request_byte, request_of, service_answer};
ghost use Rattle.lin_bench.specs.Rules.{service_data, service_notes, whens_with};

use crate::powers::is_off;
use crate::rules::{NodeState, Noted, Part, RuleAnswer, Rules, When};
use crate::states::{enter, is_for_state, same_state, state_of};
use lin_core::{Event, Payload};
use lin_log::Pattern;
use lin_parts::{Cluster, Identity};
use lin_text::Many;
use std::alloc::{AllocError, Global};

fn fits_byte(byte: Option<u8>, other: u8) -> bool
    ensures { result ≡ fits_byte byte other }
{
    match byte {
        None => true,
        Some(byte) => byte == other,
    }
}

/// Whether rows of so many bytes may match a pattern.
pub(crate) fn has_length(pattern: &Pattern, len: usize) -> bool
    ensures { result ≡ has_length pattern.now len }
{
    let needed = pattern.bytes.as_slice().len();
    if pattern.more {
        needed <= len
    } else {
        needed == len
    }
}

fn fits_bytes(bytes: &[Option<u8>], message: &[u8]) -> bool
    ensures { result ≡ list_all (λ (x : Option ℕ × ℕ). fits_byte x.0 x.1) (zip bytes.now message.now) }
{
    bytes
        .iter()
        .zip(message)
        .all(|(byte, other)| fits_byte(*byte, *other))
}

/// Whether a row of bytes matches a pattern.
pub(crate) fn fits(pattern: &Pattern, message: &[u8]) -> bool
    ensures { result ≡ fits pattern.now message.now }
{
    has_length(pattern, message.len()) && fits_bytes(pattern.bytes.as_slice(), message)
}

/// How specific a pattern is at a place, counted from 0: 3 if it has a byte there, 2 for `..`. After its last byte: 1 if
/// the message must end there, 0 if more bytes may follow.
fn rank_at(pattern: &Pattern, place: usize) -> u8
    ensures { result ≡ rank_at pattern.now place }
{
    match pattern.bytes.as_slice().get(place) {
        Some(Some(_)) => 3,
        Some(None) => 2,
        None => if pattern.more { 0 } else { 1 },
    }
}

/// Whether a pattern is less specific than another one at the first place where they differ.
fn is_below_pattern(pattern: &Pattern, other: &Pattern) -> bool
    ensures { result ≡ is_below_pattern pattern.now other.now }
{
    let end = pattern.bytes.as_slice().len();
    let mut place = 0;
    while place < end && rank_at(pattern, place) == rank_at(other, place) {
        place += 1;
    }
    rank_at(pattern, place) < rank_at(other, place)
}

/// Whether a rule is less specific than another one: a rule for every state is less specific than one for
/// a state, and otherwise their patterns decide.
fn is_below(when: &When, other: &When) -> bool
    ensures { result ≡ is_below when.now other.now }
{
    match (&when.state, &other.state) {
        (None, Some(_)) => true,
        (Some(_), None) => false,
        _ => is_below_pattern(&when.pattern, &other.pattern),
    }
}

/// The more specific one of a rule and another one, if there is another one.
fn more_specific<'r>(when: &'r When, other: Option<&'r When>) -> &'r When
    ensures { result.now ≡ option_map_or (λ o. more_specific when.now o.now) other.entry when.now }
{
    match other {
        Some(other) if is_below(when, other) => other,
        _ => when,
    }
}

/// Whether a rule is one of a node in a state, and matches a message.
fn is_rule_for(when: &When, node: u8, state: &[u8], message: &[u8]) -> bool
    ensures { result ≡ is_rule_for node state.now message.now when.now }
{
    when.node == node && is_for_state(&when.state, state) && fits(&when.pattern, message)
}

/// The rule of a node in a state for a message: of those that match, the most specific one.
fn rule_for<'r>(whens: &'r [When], node: u8, state: &[u8], message: &[u8]) -> Option<&'r When>
    ensures { option_map (λ w. w.now) result ≡ rule_for whens.now node state.now message.now }
{
    let mut best = None;
    let mut index = whens.len();
    while index > 0 {
        index -= 1;
        if is_rule_for(&whens[index], node, state, message) {
            best = Some(more_specific(&whens[index], best));
        }
    }
    best
}

fn part_byte(message: &[u8], part: Part) -> Option<u8>
    ensures { result ≡ part_byte message.now part }
{
    match part {
        Part::Byte(byte) => Some(byte),
        Part::Copied(k) => message.get(k as usize).copied(),
    }
}

/// The bytes of an answer to a message; none where it takes a byte that the message hasn't.
fn answer_bytes(
    alloc: Global,
    message: &[u8],
    parts: &[Part],
) -> Result<Option<Payload>, AllocError>
    ensures { IfOk result (λ bytes. bytes ≡ answer_bytes message.now parts.now) }
{
    let mut bytes = Vec::new(alloc);
    for part in parts {
        match part_byte(message, *part) {
            Some(byte) => bytes.push(byte)?,
            None => return Ok(None),
        }
    }
    Ok(Some(Payload::copied(alloc, bytes.as_slice())?))
}

/// Notes an answer behind those of its time and before the later ones.
fn note(noted: &mut Many<Noted>, one: Noted) -> Result<(), AllocError>
    ensures { OnOk result (noted.new ≡ noted_with noted.old one) }
{
    let all = noted.as_slice();
    let mut index = 0;
    while index < all.len() && all[index].time <= one.time {
        index += 1;
    }
    noted.insert(index, one)
}

/// Notes a node's answers to a message, from a time on.
fn note_answers(
    alloc: Global,
    noted: &mut Many<Noted>,
    time: u128,
    node: u8,
    message: &[u8],
    answers: &[RuleAnswer],
) -> Result<(), AllocError>
    requires { time < 2 ^ 64 }
    ensures { OnOk result
        (noted.new ≡ all_noted noted.old (noted_answers time node message.now answers.now)) }
{
    let mut at = time;
    for answer in answers {
        at += 1000 * u128::from(answer.wait_ms);
        if let Some(bytes) = answer_bytes(alloc, message, answer.parts.as_slice())? {
            let one = Noted {
                time: at,
                node,
                bytes,
            };
            note(noted, one)?;
        }
    }
    Ok(())
}

/// Returns a byte of a message; FF if it isn't there.
fn request_byte(message: &[u8], k: usize) -> u8
    ensures { result ≡ request_byte message.now k }
{
    match message.get(k) {
        Some(byte) => *byte,
        None => 0xFF,
    }
}

/// Returns the request that a message of at most six bytes is to a node with this NAD.
fn request_of(nad: u8, message: &[u8]) -> [u8; 8]
    requires { length message.now ≤ 6 }
    ensures { result ≡ request_of nad message.now }
{
    [
        nad,
        message.len() as u8,
        request_byte(message, 0),
        request_byte(message, 1),
        request_byte(message, 2),
        request_byte(message, 3),
        request_byte(message, 4),
        request_byte(message, 5),
    ]
}

/// Returns the service identifier and the data of a response, if it is by this NAD.
fn data_by(alloc: Global, nad: u8, response: &[u8; 8]) -> Result<Option<Payload>, AllocError>
    ensures { IfOk result (λ found. found ≡ data_by nad response.now) }
{
    if response[0] != nad {
        return Ok(None);
    }
    let end = 2 + usize::from(response[1]).min(6);
    Ok(Some(Payload::copied(alloc, &response[2..end])?))
}

/// Returns what is known of a node.
fn identity_of(cluster: &Cluster, node: u8) -> Option<&Identity>
    ensures known { option_copied result ≡ find (λ i. i.node == node) cluster.now.identities }
    ensures there { IfSome result (λ i. i.now.node < nodes cluster.now) }
{
    cluster
        .identities()
        .iter()
        .find(|identity| identity.node == node)
}

/// Returns what a node with this NAD responds to a message of at most six bytes by itself.
fn service_data(
    alloc: Global,
    cluster: &Cluster,
    node: u8,
    nad: u8,
    message: &[u8],
) -> Result<Option<Payload>, AllocError>
    requires { length message.now ≤ 6 }
    ensures { IfOk result (λ found. found ≡ service_data cluster.now node nad message.now) }
{
    let Some(identity) = identity_of(cluster, node) else {
        return Ok(None);
    };
    match cluster.response_of(identity, &request_of(nad, message)) {
        Some(response) => data_by(alloc, nad, &response),
        None => Ok(None),
    }
}

/// Returns what a node responds to a message by itself.
fn service_answer(
    alloc: Global,
    cluster: &Cluster,
    node: u8,
    message: &[u8],
) -> Result<Option<Payload>, AllocError>
    requires { node < nodes cluster.now }
    ensures { IfOk result (λ found. found ≡ service_answer cluster.now node message.now) }
{
    if message.is_empty() || message.len() > 6 {
        return Ok(None);
    }
    match cluster.nad(node) {
        Some(nad) => service_data(alloc, cluster, node, nad, message),
        None => Ok(None),
    }
}

/// Notes what a node responds to a message by itself, where the responders of a cluster do so.
fn note_service(
    alloc: Global,
    noted: &mut Many<Noted>,
    served: Option<&Cluster>,
    time: u64,
    node: u8,
    message: &[u8],
) -> Result<(), AllocError>
    ensures { OnOk result (noted.new ≡ all_noted noted.old
        (service_notes (option_copied served.entry) time node message.now)) }
{
    let Some(cluster) = served else {
        return Ok(());
    };
    if usize::from(node) >= cluster.nodes() {
        return Ok(());
    }
    if let Some(bytes) = service_answer(alloc, cluster, node, message)? {
        let time = u128::from(time);
        note(noted, Noted { time, node, bytes })?;
    }
    Ok(())
}

/// Where and when a message arrived that may be answered.
#[derive(Clone, Copy)]
struct Arrival<'a> {
    /// The cluster, if its responders answer messages that ask for a service.
    served: Option<&'a Cluster>,
    /// Whether the message went to all responders.
    to_all: bool,
    time: u64,
    node: u8,
    message: &'a [u8],
}

/// Notes what a rule answers to a message, unless it went to all responders; its responder enters the
/// state that the rule names.
fn apply(
    alloc: Global,
    when: &When,
    states: &mut Many<NodeState>,
    noted: &mut Many<Noted>,
    at: Arrival<'_>,
) -> Result<(), AllocError>
    ensures states { OnOk result (states.new ≡ states_after_entering states.old at.entry.node when.now.enter) }
    ensures noted { OnOk result (noted.new ≡ with_answers at.entry.to_all noted.old
        (noted_answers at.entry.time at.entry.node at.entry.message.now when.now.answers)) }
{
    enter(alloc, states, at.node, &when.enter)?;
    if at.to_all {
        return Ok(());
    }
    let answers = when.answers.as_slice();
    note_answers(
        alloc,
        noted,
        u128::from(at.time),
        at.node,
        at.message,
        answers,
    )
}

/// Changes what a message changes that arrived at a responder.
fn react(alloc: Global, rules: &mut Rules, at: Arrival<'_>) -> Result<(), AllocError>
    ensures { OnOk result (rules.new ≡ rules_after_message (option_copied at.entry.served) at.entry.to_all
        at.entry.time rules.old at.entry.node at.entry.message.now) }
{
    let whens = rules.whens.as_slice();
    let state = state_of(rules.states.as_slice(), at.node);
    match rule_for(whens, at.node, state, at.message) {
        Some(when) => apply(alloc, when, &mut rules.states, &mut rules.noted, at),
        None if at.to_all => Ok(()),
        None => note_service(
            alloc,
            &mut rules.noted,
            at.served,
            at.time,
            at.node,
            at.message,
        ),
    }
}

/// Whether a receiver reacts to a message: host 0 sent it, and the receiver isn't off.
fn may_react(from: u8, offs: &[u8], to: u8) -> bool
    ensures { result ≡ (from == 0 && not (is_in offs.now to)) }
{
    from == 0 && !is_off(offs, to)
}

/// Changes what an event changes.
fn react_to_event(
    alloc: Global,
    rules: &mut Rules,
    served: Option<&Cluster>,
    to_all: bool,
    time: u64,
    event: &Event,
) -> Result<(), AllocError>
    ensures { OnOk result (rules.new ≡ after_event (option_copied served.entry) to_all time rules.old event.now) }
{
    match event {
        Event::Message { from, to, bytes } if may_react(*from, rules.offs.as_slice(), *to) => react(
            alloc,
            rules,
            Arrival {
                served,
                to_all,
                time,
                node: *to,
                message: bytes.as_slice(),
            },
        ),
        _ => Ok(()),
    }
}

/// Changes what the events of a finish change, each on what those before it left: messages are answered,
/// unless they went to all responders, and responders enter states.
pub(crate) fn react_to_events(
    alloc: Global,
    rules: &mut Rules,
    served: Option<&Cluster>,
    to_all: bool,
    time: u64,
    events: &[Event],
) -> Result<(), AllocError>
    ensures { OnOk result (rules.new ≡ after_events (option_copied served.entry) to_all time rules.old events.now) }
{
    for event in events {
        react_to_event(alloc, rules, served, to_all, time, event)?;
    }
    Ok(())
}

fn same_byte(a: Option<u8>, b: Option<u8>) -> bool
    ensures { result ≡ same_byte a b }
{
    match (a, b) {
        (None, None) => true,
        (Some(a), Some(b)) => a == b,
        _ => false,
    }
}

fn same_pairs(xs: &[Option<u8>], ys: &[Option<u8>]) -> bool
    ensures { result ≡
        list_all (λ (x : Option ℕ × Option ℕ). same_byte x.0 x.1) (zip xs.now ys.now) }
{
    xs.iter().zip(ys).all(|(x, y)| same_byte(*x, *y))
}

fn same_bytes(xs: &[Option<u8>], ys: &[Option<u8>]) -> bool
    ensures { result ≡ pointwise same_byte xs.now ys.now }
{
    xs.len() == ys.len() && same_pairs(xs, ys)
}

pub(crate) fn same_pattern(a: &Pattern, b: &Pattern) -> bool
    ensures { result ≡ same_pattern a.now b.now }
{
    a.more == b.more && same_bytes(a.bytes.as_slice(), b.bytes.as_slice())
}

/// Whether two rules are for the same node, state and pattern.
fn same_rule(when: &When, other: &When) -> bool
    ensures { result ≡ same_rule when.now other.now }
{
    other.node == when.node
        && same_state(&other.state, &when.state)
        && same_pattern(&other.pattern, &when.pattern)
}

/// The number of the rule with the node, the state and the pattern of another one.
fn place_of(whens: &[When], when: &When) -> Option<usize>
    ensures { result ≡ position (same_rule when.now) whens.now }
{
    whens.iter().position(|other| same_rule(when, other))
}

/// Replaces the rule with the same node, state and pattern by this one, or adds this one at the end.
pub(crate) fn add_when(whens: &mut Many<When>, when: When) -> Result<(), AllocError>
    ensures { OnOk result (whens.new ≡ whens_with whens.old when) }
{
    match place_of(whens.as_slice(), &when) {
        Some(index) => {
            whens.set(index, when);
            Ok(())
        }
        None => whens.push(when),
    }
}
