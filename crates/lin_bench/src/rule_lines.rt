//! The forms of lines of rules.

ghost use Rattle.std.specs.Prelude.{◌≡◌, ◌<◌, ◌&&◌, ◌∷◌, [], ◌++◌, find, length, option_map};
ghost use Rattle.std.specs.Prelude.{IfOk, IfSome};
ghost use Rattle.std.specs.List.{list_all};
ghost use Rattle.hex.specs.Hex.{hex_digit_value};
ghost use Rattle.lin_bench.specs.Fields.{line_fields, maybe_text};
ghost use Rattle.lin_bench.specs.Parts.{fields_of, when_with};
ghost use Rattle.lin_bench.specs.Read.{Gives};
ghost use Rattle.lin_bench.specs.RuleLines.{AddsRow, answer_form, answer_parts, answers_form, copied_part};
ghost use Rattle.lin_bench.specs.RuleLines.{after_state, before_enter, errors_form, errors_on, every_off, is_digit, is_letter};
ghost use Rattle.lin_bench.specs.RuleLines.{ends_rule, is_name, is_name_sign, maybe_name, name_field, state_form, state_of_node, silent_or_end};
ghost use Rattle.lin_bench.specs.RuleLines.{any_responder_field, is_on_word, power_form};
ghost use Rattle.lin_bench.specs.RuleLines.{when_end, when_in, whens_end};
ghost use Rattle.lin_bench.specs.RuleLines.{services_form, services_on, has_several_bits, every_fields, every_form, has_star, hex_byte, hex_part};
ghost use Rattle.lin_bench.specs.RuleLines.{all_parts, parts_field, parts_fields, pattern_byte};
ghost use Rattle.lin_bench.specs.RuleLines.{pattern_fields, pattern_of, repeated_step, responder_field};
ghost use Rattle.lin_bench.specs.RuleLines.{row_of_pairs, sends_or_writes, timeouts_form};
ghost use Rattle.lin_bench.specs.RuleLines.{timeouts_fields, timeouts_of_all, timeouts_of_one};
ghost use Rattle.lin_bench.specs.RuleLines.{wait_field, when_fields, when_form, without_star};
ghost use Rattle.lin_bench.specs.declared.rules.Part.{Part};

use crate::fault::LineFault;
use crate::fields::{Fields, copied_fields, count_field, node_field, number_field, rows_and_time};
use crate::reason::Reason;
use crate::rules::{Every, Part, Rule, RuleAnswer, RuleEnd, When};
use lin_core::{PortId, Step};
use lin_log::{Pattern, Reason as StepReason, first_field, is_port, number, port_step, step};
use lin_parts::Cluster;
use lin_text::{Many, Text};
use std::alloc::{AllocError, Global};

/// The most that a wait may be, in milliseconds.
const LONGEST_WAIT: u32 = 1_000_000;

/// How many bytes a message has at most.
const LONGEST_MESSAGE: usize = 4_095;

/// The last byte of a message that may be copied into an answer.
const LAST_BYTE: u32 = 4_094;

/// The value of a hexadecimal digit.
pub(crate) fn digit(sign: u8) -> Option<u8>
    ensures value { result ≡ hex_digit_value sign }
    ensures small { IfSome result (λ v. v < 16) }
{
    match sign {
        b'0'..=b'9' => Some(sign - b'0'),
        b'a'..=b'f' => Some(sign - b'a' + 10),
        b'A'..=b'F' => Some(sign - b'A' + 10),
        _ => None,
    }
}

/// The byte of two hexadecimal digits.
fn hex_byte(x: u8, y: u8) -> Option<u8>
    ensures { result ≡ hex_byte x y }
{
    Some(16 * digit(x)? + digit(y)?)
}

/// What two signs of a pattern stand for: any byte, or this one.
fn pattern_byte(x: u8, y: u8) -> Option<Option<u8>>
    ensures { result ≡ pattern_byte x y }
{
    if x == b'.' && y == b'.' {
        return Some(None);
    }
    Some(Some(hex_byte(x, y)?))
}

/// Adds what a row of a pattern stands for, and answers whether it is one.
fn add_row(bytes: &mut Vec<Option<u8>>, signs: &[u8]) -> Result<bool, AllocError>
    ensures { IfOk result
        (λ is. AddsRow (row_of_pairs pattern_byte signs.now) bytes.old.items is bytes.new.items) }
{
    let mut left = signs;
    while let [x, y, rest @ ..] = left {
        match pattern_byte(*x, *y) {
            Some(byte) => bytes.push(byte)?,
            None => return Ok(false),
        }
        left = rest;
    }
    Ok(left.is_empty())
}

/// Adds what rows of a pattern stand for, and answers whether they are rows.
fn add_rows(bytes: &mut Vec<Option<u8>>, rows: Fields<'_>) -> Result<bool, AllocError>
    ensures { IfOk result
        (λ is. AddsRow (all_parts (row_of_pairs pattern_byte) (fields_of rows.entry)) bytes.old.items is
        bytes.new.items) }
{
    let mut left = rows;
    while let Some((row, rest)) = left.first() {
        if !add_row(bytes, row)? {
            return Ok(false);
        }
        left = rest;
    }
    Ok(true)
}

/// Adds what rows and a last one stand for, and answers whether they are rows.
fn add_fields(
    bytes: &mut Vec<Option<u8>>,
    before: Fields<'_>,
    last: &[u8],
) -> Result<bool, AllocError>
    ensures { IfOk result
        (λ is. AddsRow (all_parts (row_of_pairs pattern_byte) (fields_of before.entry ++ last.now ∷ []))
        bytes.old.items is bytes.new.items) }
{
    if !add_rows(bytes, before)? {
        return Ok(false);
    }
    add_row(bytes, last)
}

/// A field without `*` at its end, and whether it has one there.
fn without_star(field: &[u8]) -> (&[u8], bool)
    ensures before { result.0.now ≡ without_star field.now }
    ensures more { result.1 ≡ has_star field.now }
{
    match field {
        [before @ .., b'*'] => (before, true),
        field => (field, false),
    }
}

/// The pattern of one or more fields, of which the last one may end with `*`; none where they are no
/// pattern.
fn pattern_of(alloc: Global, fields: Fields<'_>) -> Result<Option<Pattern>, AllocError>
    ensures { IfOk result (λ p. p ≡ pattern_of (fields_of fields.entry)) }
{
    let Some((before, last)) = fields.last() else {
        return Ok(None);
    };
    let (row, more) = without_star(last);
    let mut bytes = Vec::new(alloc);
    if !add_fields(&mut bytes, before, row)? {
        return Ok(None);
    }
    Ok(Some(Pattern {
        bytes: Many::new(bytes),
        more,
    }))
}

/// The pattern of fields.
pub(crate) fn pattern(alloc: Global, all: Fields<'_>) -> Result<Pattern, LineFault>
    ensures { Gives (λ p. p) result (pattern_fields (fields_of all.entry)) }
{
    match pattern_of(alloc, all)? {
        Some(pattern) => Ok(pattern),
        None => Err(LineFault::Bad(Reason::NoPattern(copied_fields(alloc, all)?))),
    }
}

/// Adds what a row of an answer stands for, and answers whether it is one.
fn add_hex(parts: &mut Vec<Part>, signs: &[u8]) -> Result<bool, AllocError>
    ensures { IfOk result
        (λ is. AddsRow (row_of_pairs hex_part signs.now) parts.old.items is parts.new.items) }
{
    let mut left = signs;
    while let [x, y, rest @ ..] = left {
        match hex_byte(*x, *y) {
            Some(byte) => parts.push(Part::Byte(byte))?,
            None => return Ok(false),
        }
        left = rest;
    }
    Ok(left.is_empty())
}

/// The number of the byte that is copied, by the digits after `$`.
fn copied(digits: &[u8]) -> Option<u16>
    ensures { option_map (λ k. Part.Copied k ∷ []) result ≡ copied_part (36 ∷ digits.now) }
{
    if digits.len() > 4 {
        return None;
    }
    match number(digits, LAST_BYTE) {
        Some(number) => Some(number as u16),
        None => None,
    }
}

/// Adds what a field of an answer stands for, and answers whether it is a row or a byte that is
/// copied.
fn add_part(parts: &mut Vec<Part>, field: &[u8]) -> Result<bool, AllocError>
    ensures { IfOk result
        (λ is. AddsRow (parts_field field.now) parts.old.items is parts.new.items) }
{
    match field {
        [b'$', digits @ ..] => match copied(digits) {
            Some(k) => {
                parts.push(Part::Copied(k))?;
                Ok(true)
            }
            None => Ok(false),
        },
        row => add_hex(parts, row),
    }
}

/// The bytes of an answer.
#[tactic(auto, unfolding(crate::specs::RuleLines::parts_fields))]
fn parts(alloc: Global, all: Fields<'_>) -> Result<Many<Part>, LineFault>
    ensures { Gives (λ p. p) result (parts_fields (fields_of all.entry)) }
{
    if all.is_empty() {
        return Err(LineFault::Bad(Reason::Step(StepReason::NoBytes)));
    }
    let mut parts = Vec::new(alloc);
    let mut left = all;
    while let Some((field, rest)) = left.first() {
        if !add_part(&mut parts, field)? {
            let fields = copied_fields(alloc, all)?;
            return Err(LineFault::Bad(Reason::Step(StepReason::NotBytes(fields))));
        }
        left = rest;
    }
    Ok(Many::new(parts))
}

fn wait(alloc: Global, number: Option<&[u8]>) -> Result<u32, LineFault>
    ensures { Gives (λ n. n) result (wait_field (option_map (λ n. n.now) number.entry)) }
{
    match number {
        Some(number) => number_field(alloc, number, LONGEST_WAIT),
        None => Ok(0),
    }
}

/// The bytes of an answer, at most as many as a message has.
fn answer_parts(alloc: Global, all: Fields<'_>) -> Result<Many<Part>, LineFault>
    ensures { Gives (λ p. p) result (answer_parts (fields_of all.entry)) }
{
    let parts = parts(alloc, all)?;
    if parts.as_slice().len() > LONGEST_MESSAGE {
        return Err(LineFault::Bad(Reason::LongAnswer));
    }
    Ok(parts)
}

/// An answer: its rows, and its wait.
fn answer(alloc: Global, all: Fields<'_>) -> Result<RuleAnswer, LineFault>
    ensures { Gives (λ a. a) result (answer_form (fields_of all.entry)) }
{
    let (rows, number) = rows_and_time(b"after".as_slice(), all);
    let parts = answer_parts(alloc, rows)?;
    let wait_ms = wait(alloc, number)?;
    Ok(RuleAnswer { parts, wait_ms })
}

/// An answer, and each further one after `then`.
fn answers(alloc: Global, all: Fields<'_>) -> Result<Many<RuleAnswer>, LineFault>
    ensures { Gives (λ a. a) result (answers_form (fields_of all.entry)) }
{
    let mut answers = Many::new(Vec::new(alloc));
    let mut left = all;
    while let Some(end) = left.word_at(b"then".as_slice()) {
        let one = answer(alloc, left.take(end))?;
        answers.push(one)?;
        left = left.skip(end).skip(1);
    }
    let last = answer(alloc, left)?;
    answers.push(last)?;
    Ok(answers)
}

/// A responder that has an address, by its name or its number.
fn responder(alloc: Global, cluster: &Cluster, field: &[u8]) -> Result<u8, LineFault>
    ensures { Gives (λ n. n) result (responder_field cluster.now field.now) }
{
    let node = node_field(alloc, cluster, field)?;
    if (node as usize) < cluster.nodes() && cluster.nad(node).is_some() {
        Ok(node)
    } else {
        Err(LineFault::Bad(Reason::NoResponder(Text::copied(alloc, field)?)))
    }
}

fn is_letter(sign: u8) -> bool
    ensures { result ≡ is_letter sign }
{
    matches!(sign, b'A'..=b'Z' | b'a'..=b'z' | b'_')
}

fn is_digit(sign: u8) -> bool
    ensures { result ≡ is_digit sign }
{
    matches!(sign, b'0'..=b'9')
}

pub(crate) fn is_name_sign(sign: u8) -> bool
    ensures { result ≡ is_name_sign sign }
{
    is_letter(sign) || is_digit(sign)
}

fn are_name_signs(signs: &[u8]) -> bool
    ensures { result ≡ list_all is_name_sign signs.now }
{
    signs.iter().all(|sign| is_name_sign(*sign))
}

/// Whether a field is a name: a letter or `_`, then letters, digits and `_`.
pub fn is_name(field: &[u8]) -> bool
    ensures { result ≡ is_name field.now }
{
    match field {
        [first, ..] => is_letter(*first) && are_name_signs(field),
        [] => false,
    }
}

/// A name.
fn name(alloc: Global, field: &[u8]) -> Result<Text, LineFault>
    ensures { Gives (λ n. n) result (name_field field.now) }
{
    let text = Text::copied(alloc, field)?;
    if is_name(field) {
        Ok(text)
    } else {
        Err(LineFault::Bad(Reason::NoName(text)))
    }
}

/// A name, if there is a field for it.
fn maybe_name(alloc: Global, field: Option<&[u8]>) -> Result<Option<Text>, LineFault>
    ensures { Gives (λ n. n) result (maybe_name (maybe_text field.entry)) }
{
    match field {
        Some(field) => Ok(Some(name(alloc, field)?)),
        None => Ok(None),
    }
}

/// The node of a rule, and the state that the rule is for, if it names one.
#[derive(Clone, Copy)]
struct Whose<'a> {
    node: &'a [u8],
    state: Option<&'a [u8]>,
}

/// That a node answers messages of a pattern, by the fields of these and the answers, and which state it
/// enters then.
fn when_with(
    alloc: Global,
    cluster: &Cluster,
    whose: Whose<'_>,
    fields: Fields<'_>,
    answers_in: Option<Fields<'_>>,
    next: Option<&[u8]>,
) -> Result<Rule, LineFault>
    ensures { Gives (λ r. r) result
        (when_with cluster.now whose.entry fields.entry answers_in.entry (maybe_text next.entry)) }
{
    let node = responder(alloc, cluster, whose.node)?;
    let state = maybe_name(alloc, whose.state)?;
    let pattern = pattern(alloc, fields)?;
    let answers = match answers_in {
        Some(fields) => answers(alloc, fields)?,
        None => Many::new(Vec::new(alloc)),
    };
    let enter = maybe_name(alloc, next)?;
    Ok(Rule::When(When {
        node,
        state,
        pattern,
        answers,
        enter,
    }))
}

/// The end of what a node answers to messages that match a pattern.
fn when_end(
    alloc: Global,
    cluster: &Cluster,
    whose: Whose<'_>,
    rows: Fields<'_>,
) -> Result<Rule, LineFault>
    ensures { Gives (λ r. r) result (when_end cluster.now whose.entry.node.now
        (maybe_text whose.entry.state) (fields_of rows.entry)) }
{
    let node = responder(alloc, cluster, whose.node)?;
    let state = maybe_name(alloc, whose.state)?;
    let pattern = pattern(alloc, rows)?;
    Ok(Rule::End(RuleEnd::When {
        node,
        state,
        pattern,
    }))
}

/// The end of all that a node answers.
fn whens_end(alloc: Global, cluster: &Cluster, node: &[u8]) -> Result<Rule, LineFault>
    ensures { Gives (λ r. r) result (whens_end cluster.now node.now) }
{
    let node = responder(alloc, cluster, node)?;
    Ok(Rule::End(RuleEnd::WhensOf(node)))
}

/// The state after `in` at the beginning of fields, and the fields after it.
fn after_state<'l>(fields: Fields<'l>) -> (Option<&'l [u8]>, Fields<'l>)
    ensures { (option_map (λ s. s.now) result.0, fields_of result.1)
        ≡ after_state (fields_of fields.entry) }
{
    let Some((word, others)) = fields.first() else {
        return (None, fields);
    };
    match others.first() {
        Some((state, rest)) if word == b"in".as_slice() => (Some(state), rest),
        _ => (None, fields),
    }
}

/// The fields before `enter` and a state at their end, and the state.
fn before_enter<'l>(fields: Fields<'l>) -> (Fields<'l>, Option<&'l [u8]>)
    ensures { (fields_of result.0, option_map (λ s. s.now) result.1)
        ≡ before_enter (fields_of fields.entry) }
{
    let Some((others, state)) = fields.last() else {
        return (fields, None);
    };
    match others.last() {
        Some((before, word)) if word == b"enter".as_slice() => (before, Some(state)),
        _ => (fields, None),
    }
}

/// Whether the last field is `off`, and no state is entered.
fn ends_rule(last: &[u8], next: Option<&[u8]>) -> bool
    ensures { result ≡ ends_rule last.now (maybe_text next.entry) }
{
    match next {
        None => last == b"off".as_slice(),
        Some(_) => false,
    }
}

/// Of a node in a state, if one is named: a pattern of a field at least, and `silent`, or `off` alone.
fn unanswered(
    alloc: Global,
    cluster: &Cluster,
    whose: Whose<'_>,
    fields: Fields<'_>,
    next: Option<&[u8]>,
) -> Result<Rule, LineFault>
    ensures { Gives (λ r. r) result (silent_or_end cluster.now whose.entry.node.now
        (maybe_text whose.entry.state) (fields_of fields.entry) (maybe_text next.entry)) }
{
    let Some((pattern, last)) = fields.last() else {
        return Err(LineFault::Bad(Reason::WhenForm));
    };
    if pattern.is_empty() {
        return Err(LineFault::Bad(Reason::WhenForm));
    }
    if last == b"silent".as_slice() {
        return when_with(alloc, cluster, whose, pattern, None, next);
    }
    if ends_rule(last, next) {
        return when_end(alloc, cluster, whose, pattern);
    }
    Err(LineFault::Bad(Reason::WhenForm))
}

/// Of a node in a state, if one is named: a pattern of a field at least, and answers, `silent` or `off`.
fn when_in(
    alloc: Global,
    cluster: &Cluster,
    whose: Whose<'_>,
    fields: Fields<'_>,
) -> Result<Rule, LineFault>
    ensures { Gives (λ r. r) result (when_in cluster.now whose.entry.node.now
        (maybe_text whose.entry.state, fields_of fields.entry)) }
{
    let (fields, next) = before_enter(fields);
    let Some((_, rest)) = fields.first() else {
        return Err(LineFault::Bad(Reason::WhenForm));
    };
    if let Some(end) = rest.word_at(b"answer".as_slice()) {
        let pattern = fields.take(end + 1);
        let answers = rest.skip(end + 1);
        return when_with(alloc, cluster, whose, pattern, Some(answers), next);
    }
    unanswered(alloc, cluster, whose, fields, next)
}

/// A node, and `off`; or what it answers in a state or in every state.
fn when_by(alloc: Global, cluster: &Cluster, all: Fields<'_>) -> Result<Rule, LineFault>
    ensures { Gives (λ r. r) result (when_fields cluster.now (fields_of all.entry)) }
{
    let Some((node, fields)) = all.first() else {
        return Err(LineFault::Bad(Reason::WhenForm));
    };
    if fields.is_only(b"off".as_slice()) {
        return whens_end(alloc, cluster, node);
    }
    let (state, fields) = after_state(fields);
    when_in(alloc, cluster, Whose { node, state }, fields)
}

/// What a node answers, by the fields after `when`.
#[tactic(auto, unfolding(crate::specs::RuleLines::when_form))]
pub(crate) fn when(alloc: Global, cluster: &Cluster, line: &[u8]) -> Result<Rule, LineFault>
    ensures { Gives (λ r. r) result (when_form cluster.now (line_fields line.now)) }
{
    let all = Fields::of(cluster, line);
    if all.is_only(b"off".as_slice()) {
        return Ok(Rule::WhenOff);
    }
    when_by(alloc, cluster, all)
}

/// The limit of all responders, or that one has none, by two fields after `timeouts`.
fn timeouts_of_all(
    alloc: Global,
    cluster: &Cluster,
    field: &[u8],
    word: &[u8],
) -> Result<Rule, LineFault>
    ensures { Gives (λ r. r) result (timeouts_of_all cluster.now field.now word.now) }
{
    if word == b"ms".as_slice() {
        return Ok(Rule::Timeouts(count_field(alloc, field)?));
    }
    if word == b"off".as_slice() {
        let node = responder(alloc, cluster, field)?;
        return Ok(Rule::TimeoutsOf {
            node,
            limit_ms: None,
        });
    }
    Err(LineFault::Bad(Reason::TimeoutsForm))
}

/// The limit of one responder.
fn timeouts_of_one(
    alloc: Global,
    cluster: &Cluster,
    node: &[u8],
    number: &[u8],
) -> Result<Rule, LineFault>
    ensures { Gives (λ r. r) result (timeouts_of_one cluster.now node.now number.now) }
{
    let node = responder(alloc, cluster, node)?;
    let ms = count_field(alloc, number)?;
    Ok(Rule::TimeoutsOf {
        node,
        limit_ms: Some(ms),
    })
}

/// The limit of all responders or of one, by the fields after `timeouts`.
fn timeouts_by(alloc: Global, cluster: &Cluster, all: Fields<'_>) -> Result<Rule, LineFault>
    ensures { Gives (λ r. r) result (timeouts_fields cluster.now (fields_of all.entry)) }
{
    if let Some((field, word)) = all.two() {
        return timeouts_of_all(alloc, cluster, field, word);
    }
    match all.three() {
        Some((node, number, unit)) if unit == b"ms".as_slice() => {
            timeouts_of_one(alloc, cluster, node, number)
        }
        _ => Err(LineFault::Bad(Reason::TimeoutsForm)),
    }
}

/// When transfers are given up, by the fields after `timeouts`.
#[tactic(auto, unfolding(crate::specs::RuleLines::timeouts_form))]
pub(crate) fn timeouts(alloc: Global, cluster: &Cluster, line: &[u8]) -> Result<Rule, LineFault>
    ensures { Gives (λ r. r) result (timeouts_form cluster.now (line_fields line.now)) }
{
    let all = Fields::of(cluster, line);
    if all.is_only(b"off".as_slice()) {
        Ok(Rule::TimeoutsOff)
    } else if all.is_only(b"ldf".as_slice()) {
        Ok(Rule::TimeoutsLdf(Many::new(Vec::new(alloc))))
    } else {
        timeouts_by(alloc, cluster, all)
    }
}

/// A step that is a send or a write.
fn send_or_write(by: PortId, step: Step) -> Result<(PortId, Step), LineFault>
    ensures { Gives (λ s. s) result (sends_or_writes (by, step)) }
{
    match step {
        Step::Send { .. } | Step::Write { .. } => Ok((by, step)),
        _ => Err(LineFault::Bad(Reason::EveryStep)),
    }
}

/// A send or a write, which the bus gives where no port stands before it.
fn repeated_step(
    alloc: Global,
    cluster: &Cluster,
    word: &[u8],
    rest: &[u8],
) -> Result<(PortId, Step), LineFault>
    ensures { Gives (λ s. s) result (repeated_step cluster.now word.now (line_fields rest.now)) }
{
    if is_port(word) {
        let (by, step) = port_step(alloc, cluster, word, rest)?;
        return send_or_write(by, step);
    }
    if word == b"send".as_slice() || word == b"write".as_slice() {
        return Ok((PortId::Bus, step(alloc, cluster, word, rest)?));
    }
    Err(LineFault::Bad(Reason::EveryStep))
}

/// A step that is repeated, by the fields after its period.
fn every_of(
    alloc: Global,
    cluster: &Cluster,
    number: &[u8],
    unit: &[u8],
    rest: &[u8],
) -> Result<Rule, LineFault>
    ensures { Gives (λ r. r) result
        (every_fields cluster.now (number.now ∷ unit.now ∷ line_fields rest.now)) }
{
    let Some((word, rest)) = first_field(cluster, rest) else {
        return Err(LineFault::Bad(Reason::EveryForm));
    };
    if unit != b"ms".as_slice() {
        return Err(LineFault::Bad(Reason::EveryForm));
    }
    let period_ms = count_field(alloc, number)?;
    let (by, step) = repeated_step(alloc, cluster, word, rest)?;
    Ok(Rule::Every(Every {
        period_ms,
        by,
        step,
    }))
}

/// The end of repetitions, of all or of those of a step, by the fields after `off`.
fn every_off(alloc: Global, cluster: &Cluster, line: &[u8]) -> Result<Rule, LineFault>
    ensures { Gives (λ r. r) result (every_off cluster.now (line_fields line.now)) }
{
    let Some((word, rest)) = first_field(cluster, line) else {
        return Ok(Rule::EveryOff);
    };
    let (by, step) = repeated_step(alloc, cluster, word, rest)?;
    Ok(Rule::End(RuleEnd::Every { by, step }))
}

/// What is repeated, by the fields after `every`.
#[tactic(auto, unfolding(crate::specs::RuleLines::every_form))]
pub(crate) fn every(alloc: Global, cluster: &Cluster, line: &[u8]) -> Result<Rule, LineFault>
    ensures { Gives (λ r. r) result (every_form cluster.now (line_fields line.now)) }
{
    let Some((number, rest)) = first_field(cluster, line) else {
        return Err(LineFault::Bad(Reason::EveryForm));
    };
    if number == b"off".as_slice() {
        return every_off(alloc, cluster, rest);
    }
    match first_field(cluster, rest) {
        Some((unit, rest)) => every_of(alloc, cluster, number, unit, rest),
        None => Err(LineFault::Bad(Reason::EveryForm)),
    }
}

/// The first signal by which a responder tells errors in responses that has more than one bit.
fn wide_signal(cluster: &Cluster) -> Option<u16>
    ensures wide { result ≡ option_map (λ e. e.signal) (find (has_several_bits cluster.now) cluster.now.errors) }
    ensures range { IfSome result (λ s. s < length cluster.now.signals) }
{
    cluster.sound();
    for error in cluster.error_signals() {
        if cluster.signal_size(error.signal) > 1 {
            return Some(error.signal);
        }
    }
    None
}

/// That responders tell errors in responses, where each that does has a signal of one bit for them.
fn errors_on(alloc: Global, cluster: &Cluster) -> Result<Rule, LineFault>
    ensures { Gives (λ r. r) result (errors_on cluster.now cluster.now.errors) }
{
    if cluster.error_signals().is_empty() {
        return Err(LineFault::Bad(Reason::NoErrorSignal));
    }
    match wide_signal(cluster) {
        None => Ok(Rule::Errors(true)),
        Some(signal) => Err(LineFault::Bad(Reason::WideErrorSignal {
            signal: Text::copied(alloc, cluster.signal_name(signal))?,
            bits: cluster.signal_size(signal),
        })),
    }
}

/// That responders answer messages that ask for a service, where some have an address.
fn services_on(cluster: &Cluster) -> Result<Rule, LineFault>
    ensures { Gives (λ r. r) result (services_on cluster.now) }
{
    if cluster.identities().is_empty() {
        Err(LineFault::Bad(Reason::NoServices))
    } else {
        Ok(Rule::Services(true))
    }
}

/// Whether responders answer messages that ask for a service, by the fields after `services`.
#[tactic(auto, unfolding(crate::specs::RuleLines::services_form))]
pub(crate) fn services(cluster: &Cluster, line: &[u8]) -> Result<Rule, LineFault>
    ensures { Gives (λ r. r) result (services_form cluster.now (line_fields line.now)) }
{
    let all = Fields::of(cluster, line);
    if all.is_only(b"on".as_slice()) {
        services_on(cluster)
    } else if all.is_only(b"off".as_slice()) {
        Ok(Rule::Services(false))
    } else {
        Err(LineFault::Bad(Reason::ServicesForm))
    }
}

/// Whether responders tell errors in responses, by the fields after `response_errors`.
#[tactic(auto, unfolding(crate::specs::RuleLines::errors_form))]
pub(crate) fn response_errors(
    alloc: Global,
    cluster: &Cluster,
    line: &[u8],
) -> Result<Rule, LineFault>
    ensures { Gives (λ r. r) result (errors_form cluster.now (line_fields line.now)) }
{
    let all = Fields::of(cluster, line);
    if all.is_only(b"on".as_slice()) {
        errors_on(alloc, cluster)
    } else if all.is_only(b"off".as_slice()) {
        Ok(Rule::Errors(false))
    } else {
        Err(LineFault::Bad(Reason::ErrorsForm))
    }
}

/// A responder that enters a state.
fn state_of_node(
    alloc: Global,
    cluster: &Cluster,
    node: &[u8],
    field: &[u8],
) -> Result<Rule, LineFault>
    ensures { Gives (λ r. r) result (state_of_node cluster.now node.now field.now) }
{
    let node = responder(alloc, cluster, node)?;
    let name = name(alloc, field)?;
    Ok(Rule::State { node, name })
}

/// A responder that enters a state, by the fields after `state`.
#[tactic(auto, unfolding(crate::specs::RuleLines::state_form))]
pub(crate) fn state(alloc: Global, cluster: &Cluster, line: &[u8]) -> Result<Rule, LineFault>
    ensures { Gives (λ r. r) result (state_form cluster.now (line_fields line.now)) }
{
    match Fields::of(cluster, line).two() {
        Some((node, field)) => state_of_node(alloc, cluster, node, field),
        None => Err(LineFault::Bad(Reason::StateForm)),
    }
}

/// A responder, with an address or without, by its name or its number.
fn any_responder(alloc: Global, cluster: &Cluster, field: &[u8]) -> Result<u8, LineFault>
    ensures { Gives (λ n. n) result (any_responder_field cluster.now field.now) }
{
    let node = node_field(alloc, cluster, field)?;
    if node > 0 && (node as usize) < cluster.nodes() {
        Ok(node)
    } else {
        Err(LineFault::Bad(Reason::NotResponder(Text::copied(alloc, field)?)))
    }
}

/// Whether a word is `on`; none if it is neither `on` nor `off`.
fn is_on(word: &[u8]) -> Option<bool>
    ensures { result ≡ is_on_word word.now }
{
    if word == b"on".as_slice() {
        Some(true)
    } else if word == b"off".as_slice() {
        Some(false)
    } else {
        None
    }
}

/// Whether a responder has power, by the fields after `node`.
#[tactic(auto, unfolding(crate::specs::RuleLines::power_form))]
pub(crate) fn power(alloc: Global, cluster: &Cluster, line: &[u8]) -> Result<Rule, LineFault>
    ensures { Gives (λ r. r) result (power_form cluster.now (line_fields line.now)) }
{
    let Some((node, word)) = Fields::of(cluster, line).two() else {
        return Err(LineFault::Bad(Reason::NodeForm));
    };
    let Some(is_on) = is_on(word) else {
        return Err(LineFault::Bad(Reason::NodeForm));
    };
    let node = any_responder(alloc, cluster, node)?;
    Ok(Rule::Power { node, is_on })
}
