//! Lines that say values of signals in words: what stands behind `=` or `~`.

ghost use Rattle.std.specs.Prelude.{◌≡◌, ◌<◌, IfOk, length, option_map};
ghost use Rattle.std.specs.Str.{bytes_eq};
ghost use Rattle.lin_log.specs.Words.{value_word};
ghost use Rattle.lin_bench.specs.Lines.{read_line};
ghost use Rattle.lin_bench.specs.Parts.{fields_of, said_by_wish, worded_line_of};
ghost use Rattle.lin_bench.specs.Read.{Gives};
ghost use Rattle.lin_bench.specs.Words.{expected_line, from_end, in_numbers, is_expect, is_expectation_word, is_value_mark, mark_at};
ghost use Rattle.lin_bench.specs.Words.{limited, line_in_words, nearest_line, written_line};
ghost use Rattle.lin_bench.specs.Words.{is_test, is_write, meant_line, read_worded_line, wish_of};
ghost use Rattle.lin_bench.specs.Words.{line_with_signal, marked_line, said_line, worded_signal};
ghost use Rattle.lin_bench.specs.Words.{worded, worded_line};

use crate::fault::LineFault;
use crate::fields::{Fields, signal_field, untabbed};
use crate::hints::names_hash;
use crate::line::ScriptLine;
use crate::lines::read_line;
use crate::meant::MeantValues;
use crate::raw_values::{some_value, unless_all};
use crate::reason::Reason;
use crate::rules::{NodeLimits, Rule};
use crate::said_values::{Said, expected_values, joined, nearest_value, only_value};
use crate::unmarked::read_unworded;
use crate::worded_ons::{read_worded_on, worded_on};
use lin_frame::Value;
use lin_log::{NumberNaming, Word, put_shown};
use lin_parts::Cluster;
use lin_text::{Many, Text, TextBuffer, TextWriter};
use lin_values::Coded;
use std::alloc::{AllocError, Global};

/// What a line with words asks for.
#[derive(Clone, Copy, Debug)]
pub enum Wish {
    /// A write of the one value that words say.
    Write,
    /// A write of the value nearest to a number.
    Nearest,
    /// Whether a value is one that words say.
    Expect,
}

/// A line with words: what it asks for, its fields before the signal, the signal's, and the words.
#[derive(Clone, Copy)]
struct Worded<'a> {
    wish: Wish,
    before: Fields<'a>,
    signal: &'a [u8],
    words: Fields<'a>,
}

/// Whether a field, counted from the end, is a word.
fn is_from_end(fields: Fields<'_>, n: usize, word: &[u8]) -> bool
    requires { 0 < length word.now }
    ensures { result ≡ bytes_eq (from_end (fields_of fields.entry) n) word.now }
{
    let count = fields.len();
    if n >= count {
        return false;
    }
    match fields.cut(count - 1 - n) {
        Some((_, field, _)) => field == word,
        None => false,
    }
}

/// Whether fields are those of a write, before its signal.
pub(crate) fn is_write(before: Fields<'_>) -> bool
    ensures { result ≡ is_write (fields_of before.entry) }
{
    is_from_end(before, 0, b"write") || is_from_end(before, 1, b"write")
}

/// Whether an expectation begins after a field, counted from the end.
fn expects_after(fields: Fields<'_>, n: usize) -> bool
    ensures { result ≡ is_expectation_word (from_end (fields_of fields.entry) n) }
{
    is_from_end(fields, n, b"expect")
        || is_from_end(fields, n, b"until")
        || is_from_end(fields, n, b"while")
}

/// Whether fields are those of an expectation of a signal, before the signal.
pub(crate) fn is_expect(before: Fields<'_>) -> bool
    ensures { result ≡ is_expect (fields_of before.entry) }
{
    is_from_end(before, 1, b"signal")
        && (expects_after(before, 2) || is_from_end(before, 2, b"not") && expects_after(before, 3))
}

/// Whether fields are those of a test.
fn is_test(before: Fields<'_>) -> bool
    ensures { result ≡ is_test (fields_of before.entry) }
{
    match before.first() {
        Some((first, _)) => first == b"test".as_slice(),
        None => false,
    }
}

/// What the fields before a signal and the mark behind it ask for; nothing if they are of a test's name.
fn wish_of(before: Fields<'_>, mark: &[u8]) -> Option<Wish>
    ensures { result ≡ wish_of (fields_of before.entry) mark.now }
{
    if is_test(before) {
        return None;
    }
    if is_expect(before) {
        return if mark == b"=".as_slice() {
            Some(Wish::Expect)
        } else {
            None
        };
    }
    if is_write(before) {
        return Some(if mark == b"~".as_slice() {
            Wish::Nearest
        } else {
            Wish::Write
        });
    }
    None
}

/// Whether a field is `=` or `~`.
fn is_value_mark(field: &[u8]) -> bool
    ensures { result ≡ is_value_mark field.now }
{
    field == b"=".as_slice() || field == b"~".as_slice()
}

/// The place of the first `=` or `~`.
fn mark_at(all: Fields<'_>) -> Option<usize>
    ensures { result ≡ mark_at (fields_of all.entry) }
{
    let mut left = all;
    while let Some((field, rest)) = left.first() {
        if is_value_mark(field) {
            return Some(all.len() - left.len());
        }
        left = rest;
    }
    None
}

/// The parts of a line with words, if it is one.
#[tactic(auto, unfolding(crate::specs::Words::worded))]
fn worded_parts<'a>(all: Fields<'a>) -> Option<Worded<'a>>
    ensures { option_map worded_line_of result ≡ worded (fields_of all.entry) }
{
    let at = mark_at(all)?;
    let (front, mark, words) = all.cut(at)?;
    let (before, signal) = front.last()?;
    let wish = wish_of(before, mark)?;
    Some(Worded {
        wish,
        before,
        signal,
        words,
    })
}

/// The word of a value, as a line of steps has it.
pub(crate) fn raw_word(alloc: Global, value: &Value) -> Result<Vec<u8>, AllocError>
    ensures { IfOk result (λ text. text.items ≡ value_word value.now) }
{
    let mut text = Vec::new(alloc);
    let mut buffer = TextBuffer::empty();
    let mut out = TextWriter::new(&mut text, &mut buffer);
    put_shown(&mut out, &NumberNaming, Word::Value(value));
    match out.finish() {
        Ok(()) => Ok(text),
        Err(_) => Err(AllocError),
    }
}

/// The fields up to a signal, and a raw value.
pub(crate) fn in_numbers(
    alloc: Global,
    before: Fields<'_>,
    signal: &[u8],
    value: &Value,
) -> Result<Vec<u8>, AllocError>
    ensures { IfOk result
        (λ text. text.items ≡ in_numbers (fields_of before.entry) signal.now value.now) }
{
    let word = raw_word(alloc, value)?;
    let mut text = Vec::new(alloc);
    let mut left = before;
    while let Some((field, rest)) = left.first() {
        text.extend_from_slice(field)?;
        text.push(b' ')?;
        left = rest;
    }
    text.extend_from_slice(signal)?;
    text.push(b' ')?;
    text.extend_from_slice(word.as_slice())?;
    Ok(text)
}

/// A line that expects a value, or waits for one, with the values that words say in the place of this one.
fn meant_line(said: Option<ScriptLine>, text: Text, values: MeantValues) -> Option<ScriptLine>
    ensures { result ≡ meant_line text values said }
{
    match said {
        Some(ScriptLine::Expect(expected)) => {
            Some(ScriptLine::Expect(expected.meant(text, values)))
        }
        Some(ScriptLine::Until(slots, expected)) => {
            Some(ScriptLine::Until(slots, expected.meant(text, values)))
        }
        Some(ScriptLine::While(slots, expected)) => {
            Some(ScriptLine::While(slots, expected.meant(text, values)))
        }
        Some(ScriptLine::Rule(rule)) => Some(ScriptLine::Rule(rule.meant(text, values))),
        other => other,
    }
}

/// What a line says with a raw value in the place of its words.
fn with_value(
    alloc: Global,
    cluster: &Cluster,
    line: &Worded<'_>,
    value: &Value,
) -> Result<Option<ScriptLine>, LineFault>
    ensures { Gives (λ l. l) result (read_line cluster.now
        (in_numbers (fields_of line.now.before) line.now.signal.now value.now)) }
{
    let numbers = in_numbers(alloc, line.before, line.signal, value)?;
    read_line(alloc, cluster, numbers.as_slice())
}

/// What a line that writes the one value of words says.
#[tactic(auto, unfolding(crate::specs::Words::written_line))]
fn written_line(
    alloc: Global,
    cluster: &Cluster,
    coded: &Coded,
    line: &Worded<'_>,
    said: Said<'_>,
) -> Result<Option<ScriptLine>, LineFault>
    ensures { Gives (λ l. l) result (written_line cluster.now coded.now said.entry.signal
        (worded_line_of line.now) said.entry.field.now said.entry.text.now said.entry.first.now) }
{
    let value = only_value(alloc, coded, said)?;
    with_value(alloc, cluster, line, &value)
}

/// What a line that writes the value nearest to words says.
#[tactic(auto, unfolding(crate::specs::Words::nearest_line))]
fn nearest_line(
    alloc: Global,
    cluster: &Cluster,
    coded: &Coded,
    line: &Worded<'_>,
    said: Said<'_>,
) -> Result<Option<ScriptLine>, LineFault>
    ensures { Gives (λ l. l) result (nearest_line cluster.now coded.now said.entry.signal
        (worded_line_of line.now) said.entry.field.now said.entry.text.now said.entry.first.now) }
{
    let value = nearest_value(alloc, coded, said)?;
    with_value(alloc, cluster, line, &value)
}

/// What a line that expects a value in words says, by what it says with the signal's initial value.
#[tactic(auto, unfolding(crate::specs::Words::expected_line))]
pub(crate) fn expected_line(
    alloc: Global,
    cluster: &Cluster,
    coded: &Coded,
    said: Said<'_>,
    initial: Option<ScriptLine>,
) -> Result<Option<ScriptLine>, LineFault>
    ensures { Gives (λ l. l) result (expected_line cluster.now coded.now said.entry.signal
        said.entry.field.now said.entry.text.now said.entry.first.now (fields_of said.entry.others) initial) }
{
    let values = expected_values(alloc, coded, said)?;
    let some = unless_all(alloc, cluster, said.signal, said.field, said.text, values)?;
    Ok(meant_line(initial, Text::copied(alloc, said.text)?, some))
}

/// What a line asks for with these words, by what it says with the signal's initial value.
fn by_wish(
    alloc: Global,
    cluster: &Cluster,
    coded: &Coded,
    line: &Worded<'_>,
    said: Said<'_>,
    initial: Option<ScriptLine>,
) -> Result<Option<ScriptLine>, LineFault>
    ensures { Gives (λ l. l) result (said_by_wish cluster.now coded.now line.now said.entry initial) }
{
    match line.wish {
        Wish::Write => written_line(alloc, cluster, coded, line, said),
        Wish::Nearest => nearest_line(alloc, cluster, coded, line, said),
        Wish::Expect => expected_line(alloc, cluster, coded, said, initial),
    }
}

/// What a line with words of a signal says, by what it says with the signal's initial value.
#[tactic(auto, unfolding(crate::specs::Words::worded_by))]
fn with_words(
    alloc: Global,
    cluster: &Cluster,
    coded: &Coded,
    line: &Worded<'_>,
    initial: Option<ScriptLine>,
    signal: u16,
) -> Result<Option<ScriptLine>, LineFault>
    ensures { Gives (λ l. l) result
        (line_with_signal cluster.now coded.now (worded_line_of line.now) initial signal) }
{
    let Some((first, others)) = line.words.first() else {
        return Err(LineFault::Bad(Reason::NoWords));
    };
    let text = joined(alloc, line.words)?;
    let said = Said {
        signal,
        field: line.signal,
        text: text.as_slice(),
        first,
        others,
    };
    by_wish(alloc, cluster, coded, line, said, initial)
}

/// The number of the signal that a field names, whose value words may say: that of a wide signal they may
/// not.
pub(crate) fn worded_signal(
    alloc: Global,
    cluster: &Cluster,
    coded: &Coded,
    field: &[u8],
) -> Result<u16, LineFault>
    ensures { Gives (λ n. n) result (worded_signal cluster.now coded.now field.now) }
{
    let signal = signal_field(alloc, cluster, field)?;
    if coded.is_wide(signal) {
        return Err(LineFault::Bad(Reason::WideSignal(Text::copied(alloc, field)?)));
    }
    Ok(signal)
}

/// What a line with words says, by its parts and its text. All other fields are judged before the
/// words.
#[tactic(auto, unfolding(crate::specs::Words::worded_line))]
fn read_worded(
    alloc: Global,
    cluster: &Cluster,
    coded: &Coded,
    line: &Worded<'_>,
    text: &[u8],
) -> Result<Option<ScriptLine>, LineFault>
    ensures { Gives (λ l. l) result
        (worded_line cluster.now coded.now (worded_line_of line.now) text.now) }
{
    let value = some_value(alloc, cluster, line.signal)?;
    let initial = with_value(alloc, cluster, line, &value)?;
    let signal = worded_signal(alloc, cluster, coded, line.signal)?;
    if !names_hash(coded, signal) {
        return with_words(alloc, cluster, coded, line, initial, signal);
    }
    let text = untabbed(alloc, text)?;
    let all = Fields::whole(cluster, false, text.as_slice());
    let words = all.skip(line.before.len()).skip(2);
    with_words(
        alloc,
        cluster,
        coded,
        &Worded { words, ..*line },
        initial,
        signal,
    )
}

/// What a line says whose values may be in words after one mark.
pub(crate) fn read_marked(
    alloc: Global,
    cluster: &Cluster,
    coded: &Coded,
    line: &[u8],
) -> Result<Option<ScriptLine>, LineFault>
    ensures { Gives (λ l. l) result (marked_line cluster.now coded.now line.now) }
{
    match worded_parts(Fields::of(cluster, line)) {
        Some(worded) => read_worded(alloc, cluster, coded, &worded, line),
        None => read_unworded(alloc, cluster, coded, line),
    }
}

/// What a line says whose values may be in words, also in the form of `on`.
fn read_said(
    alloc: Global,
    cluster: &Cluster,
    coded: &Coded,
    line: &[u8],
) -> Result<Option<ScriptLine>, LineFault>
    ensures { Gives (λ l. l) result (said_line cluster.now coded.now line.now) }
{
    match worded_on(Fields::of(cluster, line)) {
        Some(on) => read_worded_on(alloc, cluster, coded, &on),
        None => read_marked(alloc, cluster, coded, line),
    }
}

/// What a line of a bench script says, without the limits of an LDF.
#[tactic(auto, unfolding(crate::specs::Words::line_in_words))]
fn line_in_words(
    alloc: Global,
    cluster: &Cluster,
    coded: Option<&Coded>,
    line: &[u8],
) -> Result<Option<ScriptLine>, LineFault>
    ensures { Gives (λ l. l) result
        (line_in_words cluster.now (option_map (λ k. k.now) coded.entry) line.now) }
{
    let Some(coded) = coded else {
        return read_line(alloc, cluster, line);
    };
    if let [b'>', ..] = line {
        return Ok(None);
    }
    read_said(alloc, cluster, coded, line)
}

/// A rule, with the limits of an LDF if it takes these.
fn limited(alloc: Global, limits: &[NodeLimits], rule: Rule) -> Result<Rule, AllocError>
    ensures { IfOk result (λ r. r ≡ limited limits.now rule) }
{
    match rule {
        Rule::TimeoutsLdf(_) => Ok(Rule::TimeoutsLdf(Many::new(Vec::from_slice(alloc, limits)?))),
        other => Ok(other),
    }
}

/// What a line of a bench script, without its end, says, as `read_line`; values of signals may stand
/// in words behind `=` or `~`, where what signals mean is known. `limits` are those of the LDF.
///
/// # Errors
/// `Bad` with why the line is; `OutOfMemory`.
#[tactic(auto, unfolding(crate::specs::Words::read_worded_line))]
pub fn read_worded_line(
    alloc: Global,
    cluster: &Cluster,
    coded: Option<&Coded>,
    limits: &[NodeLimits],
    line: &[u8],
) -> Result<Option<ScriptLine>, LineFault>
    ensures { Gives (λ l. l) result
        (read_worded_line cluster.now (option_map (λ k. k.now) coded.entry) limits.now line.now) }
{
    match line_in_words(alloc, cluster, coded, line)? {
        Some(ScriptLine::Rule(rule)) => Ok(Some(ScriptLine::Rule(limited(alloc, limits, rule)?))),
        other => Ok(other),
    }
}
