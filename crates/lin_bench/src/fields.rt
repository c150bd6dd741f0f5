//! The fields of a line, as the language of a cluster's names has them.

ghost use Rattle.std.specs.Prelude.{◌≡◌, ◌≢◌, ◌+◌, ◌<◌, ◌≤◌, ◌&&◌, ◌∷◌, ◌++◌, [], codes, drop, false, length, map, option_map, position};
ghost use Rattle.std.specs.Prelude.{IfOk, IfSome, MatchOption, take};
ghost use Rattle.std.specs.Str.{bytes_eq};
ghost use Rattle.lin_log.specs.Said.{fields as said_fields, no_fields, SplitsField};
ghost use Rattle.lin_bench.specs.Fields.{bytes_fields, count_field, line_fields, node_field, number_up_to};
ghost use Rattle.lin_bench.specs.Fields.{counts_between, counts_field};
ghost use Rattle.lin_bench.specs.Fields.{after_dots, frame_called, frame_field, frame_numbered};
ghost use Rattle.lin_bench.specs.Fields.{has_commander, lacks_end, message_frame};
ghost use Rattle.lin_log.specs.Language.{named_language, number_named};
ghost use Rattle.lin_parts.specs.Cluster.{nodes};
ghost use Rattle.lin_bench.specs.Fields.{or_bad, range_ends, range_field, rows_and_time};
ghost use Rattle.lin_bench.specs.Fields.{host_field, pair_fields, present_node, present_signal};
ghost use Rattle.lin_bench.specs.Fields.{present_table, sends, signal_field, signal_fields};
ghost use Rattle.lin_bench.specs.Fields.{table_field, takes_part, tab_as_space, value_field};
ghost use Rattle.lin_bench.specs.Fields.{Cuts};
ghost use Rattle.lin_bench.specs.Parts.{fields_of};
ghost use Rattle.lin_bench.specs.Read.{Gives};
ghost use Rattle.lin_bench.specs.RuleLines.{is_only};
ghost use Rattle.lin_bench.specs.declared.reason.Reason.{Reason};

use crate::carried::has;
use crate::fault::LineFault;
use crate::reason::Reason;
use lin_core::Payload;
use lin_frame::Value;
use lin_log::{Carried, NumberNaming, Reason as StepReason, first_field, is_number};
use lin_parts::Cluster;
use lin_text::{Many, Text};
use std::alloc::{AllocError, Global};

/// The first fields of a line, `count` of them at most, where they are in the line.
#[derive(Clone, Copy)]
pub(crate) struct Fields<'l> {
    cluster: &'l Cluster,
    is_free: bool,
    line: &'l [u8],
    count: usize,
}

/// The first field of a line, which is free or not, and the rest of the line.
fn split<'l>(cluster: &Cluster, is_free: bool, line: &'l [u8]) -> Option<(&'l [u8], &'l [u8])>
    ensures { MatchOption result (said_fields is_free line.now ≡ [])
        (λ x. SplitsField is_free line.now x.0.now x.1.now) }
{
    if is_free {
        first_field(cluster, line)
    } else {
        first_field(&NumberNaming, line)
    }
}

impl<'l> Fields<'l> {
    /// The fields of a line. If `is_free` is false, a tab separates no fields, and `#` begins no comment.
    pub(crate) fn whole(cluster: &'l Cluster, is_free: bool, line: &'l [u8]) -> Fields<'l>
        ensures { fields_of result ≡ said_fields is_free line.now }
    {
        let count = line.len();
        Fields {
            cluster,
            is_free,
            line,
            count,
        }
    }

    /// All fields of a line.
    pub(crate) fn of(cluster: &'l Cluster, line: &'l [u8]) -> Fields<'l>
        ensures { fields_of result ≡ line_fields line.now }
    {
        Fields::whole(cluster, true, line)
    }

    /// The first field, and the others.
    pub(crate) fn first(self) -> Option<(&'l [u8], Fields<'l>)>
        ensures split { MatchOption result (fields_of self.entry ≡ [])
            (λ x. fields_of self.entry ≡ x.0.now ∷ fields_of x.1) }
        ensures fewer { IfSome result (λ x. x.1.count + 1 ≡ self.entry.count) }
    {
        if self.count == 0 {
            return None;
        }
        let (field, line) = split(self.cluster, self.is_free, self.line)?;
        let count = self.count - 1;
        Some((
            field,
            Fields {
                line,
                count,
                ..self
            },
        ))
    }

    /// Whether there are no fields.
    pub(crate) fn is_empty(self) -> bool
        ensures { result ≡ no_fields (fields_of self.entry) }
    {
        self.first().is_none()
    }

    /// How many fields there are.
    pub(crate) fn len(self) -> usize
        ensures { result ≡ length (fields_of self.entry) }
    {
        let mut left = self;
        while let Some((_, rest)) = left.first() {
            left = rest;
        }
        self.count - left.count
    }

    /// The first `n` fields, or all if there are fewer.
    pub(crate) fn take(self, n: usize) -> Fields<'l>
        ensures { fields_of result ≡ take n (fields_of self.entry) }
    {
        Fields {
            count: self.count.min(n),
            ..self
        }
    }

    /// The fields after the first `n`.
    pub(crate) fn skip(self, n: usize) -> Fields<'l>
        ensures { fields_of result ≡ drop n (fields_of self.entry) }
    {
        let mut left = self;
        for _ in 0..n {
            let Some((_, rest)) = left.first() else {
                return left;
            };
            left = rest;
        }
        left
    }

    /// The fields before field `at`, this field, and those after it.
    pub(crate) fn cut(self, at: usize) -> Option<(Fields<'l>, &'l [u8], Fields<'l>)>
        ensures { MatchOption result (length (fields_of self.entry) ≤ at)
            (λ x. Cuts (fields_of self.entry) at (fields_of x.0) x.1.now (fields_of x.2)) }
    {
        let (field, after) = self.skip(at).first()?;
        Some((self.take(at), field, after))
    }

    /// The fields before the last one, and the last one.
    pub(crate) fn last(self) -> Option<(Fields<'l>, &'l [u8])>
        ensures { MatchOption result (fields_of self.entry ≡ [])
            (λ x. fields_of self.entry ≡ fields_of x.0 ++ x.1.now ∷ []) }
    {
        let count = self.len();
        if count == 0 {
            return None;
        }
        let (before, last, _) = self.cut(count - 1)?;
        Some((before, last))
    }

    /// The place of the first field that is a word.
    pub(crate) fn word_at(self, word: &[u8]) -> Option<usize>
        ensures first { result ≡ position (λ f. bytes_eq f word.now) (fields_of self.entry) }
        ensures within { IfSome result (λ at. at < length (fields_of self.entry)) }
        ensures few { IfSome result (λ at. at < self.entry.count) }
    {
        let mut left = self;
        while let Some((field, rest)) = left.first() {
            if field == word {
                return Some(self.count - left.count);
            }
            left = rest;
        }
        None
    }

    /// The only field, if there is one.
    pub(crate) fn one(self) -> Option<&'l [u8]>
        ensures { MatchOption result (length (fields_of self.entry) ≢ 1) (λ x. fields_of self.entry ≡ x.now ∷ []) }
    {
        let (field, others) = self.first()?;
        if others.is_empty() { Some(field) } else { None }
    }

    /// The fields, if there are two.
    pub(crate) fn two(self) -> Option<(&'l [u8], &'l [u8])>
        ensures { MatchOption result (length (fields_of self.entry) ≢ 2)
            (λ x. fields_of self.entry ≡ x.0.now ∷ x.1.now ∷ []) }
    {
        let (first, others) = self.first()?;
        Some((first, others.one()?))
    }

    /// The fields, if there are three.
    pub(crate) fn three(self) -> Option<(&'l [u8], &'l [u8], &'l [u8])>
        ensures { MatchOption result (length (fields_of self.entry) ≢ 3)
            (λ x. fields_of self.entry ≡ x.0.now ∷ x.1.now ∷ x.2.now ∷ []) }
    {
        let (first, others) = self.first()?;
        let (second, third) = others.two()?;
        Some((first, second, third))
    }

    /// Whether the only field is a word.
    pub(crate) fn is_only(self, word: &[u8]) -> bool
        ensures { result ≡ is_only word.now (fields_of self.entry) }
    {
        match self.one() {
            Some(field) => field == word,
            None => false,
        }
    }
}

fn without_tab(byte: u8) -> u8
    ensures { result ≡ tab_as_space byte }
{
    if byte == b'\t' { b' ' } else { byte }
}

/// A line with a space in place of each tab.
pub(crate) fn untabbed(alloc: Global, line: &[u8]) -> Result<Vec<u8>, AllocError>
    ensures { IfOk result (λ text. text.items ≡ map tab_as_space line.now) }
{
    let mut text = Vec::new(alloc);
    for byte in line {
        text.push(without_tab(*byte))?;
    }
    Ok(text)
}

/// A number of 1 to 10 digits, at most a limit.
pub(crate) fn number_field(alloc: Global, field: &[u8], most: u32) -> Result<u32, LineFault>
    ensures { Gives (λ n. n) result (number_up_to most field.now) }
{
    Ok(lin_log::number_field(alloc, field, most)?)
}

/// A number from 1 to 1,000,000.
pub(crate) fn count_field(alloc: Global, field: &[u8]) -> Result<u32, LineFault>
    ensures { Gives (λ n. n) result (count_field field.now) }
{
    match number_field(alloc, field, 1_000_000)? {
        0 => Err(LineFault::Bad(Reason::TooSmall)),
        count => Ok(count),
    }
}

/// Copies of fields.
pub(crate) fn copied_fields(alloc: Global, fields: Fields<'_>) -> Result<Many<Text>, AllocError>
    ensures { IfOk result (λ all. all ≡ fields_of fields.entry) }
{
    let mut all = Vec::new(alloc);
    let mut left = fields;
    while let Some((field, rest)) = left.first() {
        all.push(Text::copied(alloc, field)?)?;
        left = rest;
    }
    Ok(Many::new(all))
}

/// A node or its host, by its name or its number.
pub(crate) fn node_field(alloc: Global, cluster: &Cluster, field: &[u8]) -> Result<u8, LineFault>
    ensures { Gives (λ n. n) result (node_field cluster.now field.now) }
{
    Ok(lin_log::node_field(alloc, cluster, field)?)
}

/// A signal, by its name or its number.
pub(crate) fn signal_field(alloc: Global, cluster: &Cluster, field: &[u8]) -> Result<u16, LineFault>
    ensures { Gives (λ n. n) result (signal_field cluster.now field.now) }
{
    Ok(lin_log::signal_field(alloc, cluster, field)?)
}

/// A schedule table, by its name or its number.
pub(crate) fn table_field(alloc: Global, cluster: &Cluster, field: &[u8]) -> Result<u16, LineFault>
    ensures { Gives (λ n. n) result (table_field cluster.now field.now) }
{
    Ok(lin_log::table_field(alloc, cluster, field)?)
}

/// Returns a node that the cluster has, by its name or its number.
///
/// # Errors
/// - `Bad`: no node has the name or the number, or the number is above 255;
/// - `OutOfMemory`.
pub fn present_node(alloc: Global, cluster: &Cluster, field: &[u8]) -> Result<u8, LineFault>
    ensures number { Gives (λ n. n) result (present_node cluster.now field.now) }
    ensures range { IfOk result (λ n. n < nodes cluster.now) }
{
    let node = node_field(alloc, cluster, field)?;
    if (node as usize) < cluster.nodes() {
        return Ok(node);
    }
    Err(LineFault::Bad(Reason::Step(StepReason::NoNode(Text::copied(alloc, field)?))))
}

/// Returns a signal that the cluster has, by its name or its number.
///
/// # Errors
/// - `Bad`: no signal has the name or the number, or the number is above 65,535;
/// - `OutOfMemory`.
#[inline(always)]
pub fn present_signal(alloc: Global, cluster: &Cluster, field: &[u8]) -> Result<u16, LineFault>
    ensures number { Gives (λ n. n) result (present_signal cluster.now field.now) }
    ensures range { IfOk result (λ n. n < length cluster.now.signals) }
{
    let signal = signal_field(alloc, cluster, field)?;
    if (signal as usize) < cluster.signals() {
        return Ok(signal);
    }
    Err(LineFault::Bad(Reason::Step(StepReason::NoSignal(Text::copied(alloc, field)?))))
}

/// A schedule table that the cluster has, by its name or its number.
pub(crate) fn present_table(
    alloc: Global,
    cluster: &Cluster,
    field: &[u8],
) -> Result<u16, LineFault>
    ensures number { Gives (λ n. n) result (present_table cluster.now field.now) }
    ensures range { IfOk result (λ n. n < length cluster.now.tables) }
{
    let table = table_field(alloc, cluster, field)?;
    if (table as usize) < cluster.tables() {
        return Ok(table);
    }
    Err(LineFault::Bad(Reason::Step(StepReason::NoTable(Text::copied(alloc, field)?))))
}

/// Whether a node sends messages: the commander does, and a responder that has an address.
fn sends(cluster: &Cluster, node: u8) -> bool
    ensures { result ≡ sends cluster.now node }
{
    node == 0 || (node as usize) < cluster.nodes() && cluster.nad(node).is_some()
}

/// A node that sends messages, by its name or its number.
pub(crate) fn host_field(alloc: Global, cluster: &Cluster, field: &[u8]) -> Result<u8, LineFault>
    ensures { Gives (λ n. n) result (host_field cluster.now field.now) }
{
    let node = present_node(alloc, cluster, field)?;
    if sends(cluster, node) {
        return Ok(node);
    }
    Err(LineFault::Bad(Reason::NoResponder(Text::copied(alloc, field)?)))
}

/// Whether exactly one of two nodes is the commander.
fn has_commander(sender: u8, receiver: u8) -> bool
    ensures { result ≡ has_commander sender receiver }
{
    if sender == 0 {
        return receiver != 0;
    }
    receiver == 0
}

/// The sender of messages and their receiver, by their names or numbers.
pub(crate) fn pair_fields(
    alloc: Global,
    cluster: &Cluster,
    from: &[u8],
    to: &[u8],
) -> Result<(u8, u8), LineFault>
    ensures { Gives (λ pair. pair) result (pair_fields cluster.now from.now to.now) }
{
    let sender = host_field(alloc, cluster, from)?;
    let receiver = host_field(alloc, cluster, to)?;
    if has_commander(sender, receiver) {
        return Ok((sender, receiver));
    }
    Err(LineFault::Bad(Reason::NoMessages {
        from: Text::copied(alloc, from)?,
        to: Text::copied(alloc, to)?,
    }))
}

/// Whether a node publishes a signal or subscribes it.
fn takes_part(cluster: &Cluster, node: u8, signal: u16) -> bool
    requires { signal < length cluster.now.signals }
    ensures { result ≡ takes_part cluster.now node signal }
{
    node == cluster.publisher(signal) || has(cluster.subscribers(signal), node)
}

/// A node, and a signal that it publishes or subscribes, by their names or numbers.
pub(crate) fn signal_fields(
    alloc: Global,
    cluster: &Cluster,
    node: &[u8],
    signal: &[u8],
) -> Result<(u8, u16), LineFault>
    ensures fields { Gives (λ at. at) result (signal_fields cluster.now node.now signal.now) }
    ensures range { IfOk result (λ at. at.1 < length cluster.now.signals) }
{
    let number = present_node(alloc, cluster, node)?;
    let read = present_signal(alloc, cluster, signal)?;
    if takes_part(cluster, number, read) {
        return Ok((number, read));
    }
    Err(LineFault::Bad(Reason::NotItsSignal {
        node: Text::copied(alloc, node)?,
        signal: Text::copied(alloc, signal)?,
    }))
}

/// The unconditional frame with a name.
fn frame_named(cluster: &Cluster, name: &[u8]) -> Option<u16>
    ensures { result ≡ number_named (named_language cluster.now).frames name.now }
{
    cluster.sound();
    (0..cluster.frames() as u16).find(|frame| cluster.frame_name(*frame) == name)
}

/// The frame of messages with a name.
fn message_frame(name: &[u8]) -> Option<Carried>
    ensures { result ≡ message_frame name.now }
{
    if name == b"MasterReq".as_slice() {
        Some(Carried::Request)
    } else if name == b"SlaveResp".as_slice() {
        Some(Carried::Response)
    } else {
        None
    }
}

/// The frame with a name.
fn frame_called(cluster: &Cluster, name: &[u8]) -> Option<Carried>
    ensures { result ≡ frame_called name.now (number_named (named_language cluster.now).frames name.now) }
{
    match frame_named(cluster, name) {
        Some(frame) => Some(Carried::Signals(frame)),
        None => message_frame(name),
    }
}

/// The frame with a number.
fn frame_numbered(cluster: &Cluster, number: u16) -> Option<Carried>
    ensures { result ≡ frame_numbered cluster.now number }
{
    if (number as usize) < cluster.frames() {
        Some(Carried::Signals(number))
    } else {
        None
    }
}

/// A frame that was found for a field.
fn found_frame(alloc: Global, field: &[u8], found: Option<Carried>) -> Result<Carried, LineFault>
    ensures { Gives (λ f. f) result (or_bad found (Reason.NoFrame field.now)) }
{
    match found {
        Some(frame) => Ok(frame),
        None => Err(LineFault::Bad(Reason::NoFrame(Text::copied(alloc, field)?))),
    }
}

/// A frame that the cluster has, by its name or its number.
pub(crate) fn frame_field(
    alloc: Global,
    cluster: &Cluster,
    field: &[u8],
) -> Result<Carried, LineFault>
    ensures { Gives (λ f. f) result (frame_field cluster.now field.now) }
{
    if is_number(field) {
        let number = number_field(alloc, field, 65_535)? as u16;
        return found_frame(alloc, field, frame_numbered(cluster, number));
    }
    found_frame(alloc, field, frame_called(cluster, field))
}

/// The bytes that the fields of a line spell.
pub(crate) fn bytes_fields(
    alloc: Global,
    cluster: &Cluster,
    line: &[u8],
) -> Result<Payload, LineFault>
    ensures { Gives (λ p. p) result (bytes_fields cluster.now (line_fields line.now)) }
{
    Ok(lin_log::bytes_fields(alloc, cluster, line)?)
}

fn begins_time(before: &[u8], word: &[u8], unit: &[u8]) -> bool
    ensures { result ≡ (bytes_eq unit.now (codes "ms") && bytes_eq word.now before.now) }
{
    unit == b"ms".as_slice() && word == before
}

/// Rows, and the field of the number after them where they end with this word, a number and `ms`.
pub(crate) fn rows_and_time<'l>(before: &[u8], all: Fields<'l>) -> (Fields<'l>, Option<&'l [u8]>)
    ensures { (fields_of result.0, option_map (λ n. n.now) result.1)
        ≡ rows_and_time before.now (fields_of all.entry) }
{
    let Some((others, unit)) = all.last() else {
        return (all, None);
    };
    let Some((others, number)) = others.last() else {
        return (all, None);
    };
    let Some((rows, word)) = others.last() else {
        return (all, None);
    };
    if begins_time(before, word, unit) {
        (rows, Some(number))
    } else {
        (all, None)
    }
}

/// What stands after `..` at the beginning of a text.
fn after_dots(text: &[u8]) -> Option<&[u8]>
    ensures { option_map (λ rest. rest.now) result ≡ after_dots text.now }
{
    match text {
        [b'.', b'.', rest @ ..] => Some(rest),
        _ => None,
    }
}

/// The text before the first `..` of a field, and the text after it.
pub(crate) fn range_ends(field: &[u8]) -> Option<(&[u8], &[u8])>
    ensures { option_map (λ ends. (ends.0.now, ends.1.now)) result ≡ range_ends field.now }
{
    for i in 0..field.len() {
        if let Some(rest) = after_dots(&field[i..]) {
            return Some((&field[..i], rest));
        }
    }
    None
}

/// Whether an end of a range is missing.
fn lacks_end(low: &[u8], high: &[u8]) -> bool
    ensures { result ≡ lacks_end low.now high.now }
{
    low.is_empty() || high.is_empty()
}

/// A scalar from one end of a range, which stands in this field, to the other.
#[tactic(auto, unfolding(crate::specs::Fields::range_field))]
pub(crate) fn range_field(
    alloc: Global,
    cluster: &Cluster,
    field: &[u8],
    low: &[u8],
    high: &[u8],
) -> Result<(u16, u16), LineFault>
    ensures { Gives (λ r. r) result (range_field cluster.now field.now low.now high.now) }
{
    if lacks_end(low, high) {
        return Err(LineFault::Bad(Reason::NoRange(Text::copied(alloc, field)?)));
    }
    let low = value_field(alloc, cluster, low)?;
    let high = value_field(alloc, cluster, high)?;
    match (low, high) {
        (Value::Scalar(low), Value::Scalar(high)) if low <= high => Ok((low, high)),
        _ => Err(LineFault::Bad(Reason::NoRange(Text::copied(alloc, field)?))),
    }
}

/// Reads a range of numbers of messages from the texts of its ends. `field` is the field with both, for the reason.
#[tactic(auto, unfolding(crate::specs::Fields::counts_between))]
fn counts_between(
    alloc: Global,
    field: &[u8],
    low: &[u8],
    high: &[u8],
) -> Result<(u32, u32), LineFault>
    ensures { Gives (λ r. r) result (counts_between field.now low.now high.now) }
{
    if lacks_end(low, high) {
        return Err(LineFault::Bad(Reason::NoRange(Text::copied(alloc, field)?)));
    }
    let least = number_field(alloc, low, 1_000_000)?;
    let most = number_field(alloc, high, 1_000_000)?;
    if most < least {
        return Err(LineFault::Bad(Reason::NoRange(Text::copied(alloc, field)?)));
    }
    if least == 0 && most == 1_000_000 {
        return Err(LineFault::Bad(Reason::EveryNumber(Text::copied(alloc, field)?)));
    }
    Ok((least, most))
}

/// A number of messages, at most 1,000,000, or a range of them.
pub(crate) fn counts_field(alloc: Global, field: &[u8]) -> Result<(u32, u32), LineFault>
    ensures { Gives (λ r. r) result (counts_field field.now (range_ends field.now)) }
{
    match range_ends(field) {
        Some((low, high)) => counts_between(alloc, field, low, high),
        None => {
            let count = number_field(alloc, field, 1_000_000)?;
            Ok((count, count))
        }
    }
}

/// A signal's value.
pub(crate) fn value_field(
    alloc: Global,
    cluster: &Cluster,
    field: &[u8],
) -> Result<Value, LineFault>
    ensures { Gives (λ v. v) result (value_field cluster.now field.now) }
{
    Ok(lin_log::value_field(alloc, cluster, field)?)
}
