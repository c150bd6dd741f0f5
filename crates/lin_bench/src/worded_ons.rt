//! Lines of `on` whose form says values of a signal in words, after `=`.

ghost use Rattle.std.specs.Prelude.{◌≡◌, IfOk, option_map};
ghost use Rattle.lin_bench.specs.Read.{Gives};
ghost use Rattle.lin_bench.specs.Parts.{fields_of, on_line_of};
ghost use Rattle.lin_bench.specs.Words.{form_end, is_not_signal, is_on_signal, marked_form, with_initial};
ghost use Rattle.lin_bench.specs.Words.{worded_on, worded_on_line};

use crate::fault::LineFault;
use crate::fields::Fields;
use crate::line::ScriptLine;
use crate::on_lines::off_at;
use crate::raw_values::some_value;
use crate::reason::Reason;
use crate::said_values::{Said, add_spaced, joined};
use crate::words::{expected_line, in_numbers, read_marked, worded_signal};
use lin_parts::Cluster;
use lin_values::Coded;
use std::alloc::{AllocError, Global};

/// Such a line: its fields before the signal, the signal's, the words of the value, and its fields after
/// the form.
#[derive(Clone, Copy)]
pub(crate) struct WordedOn<'a> {
    before: Fields<'a>,
    signal: &'a [u8],
    words: Fields<'a>,
    behind: Fields<'a>,
}

/// The place of the first `do`, or that of `off` at the end.
fn form_end(all: Fields<'_>) -> Option<usize>
    ensures { result ≡ form_end (fields_of all.entry) }
{
    match all.word_at(b"do".as_slice()) {
        Some(end) => Some(end),
        None => off_at(all),
    }
}

/// Whether fields are `on not signal`.
fn is_not_signal(on: &[u8], not: &[u8], signal: &[u8]) -> bool
    ensures { result ≡ is_not_signal on.now not.now signal.now }
{
    on == b"on".as_slice() && not == b"not".as_slice() && signal == b"signal".as_slice()
}

/// Whether fields are those of `on` before the signal of a form.
fn is_on_signal(before: Fields<'_>) -> bool
    ensures { result ≡ is_on_signal (fields_of before.entry) }
{
    if let Some((on, signal, _)) = before.three() {
        return on == b"on".as_slice() && signal == b"signal".as_slice();
    }
    let Some((on, others)) = before.first() else {
        return false;
    };
    match others.three() {
        Some((not, signal, _)) => is_not_signal(on, not, signal),
        None => false,
    }
}

/// The parts of a form with words, if it is one, and the fields after it.
fn marked_form<'a>(form: Fields<'a>, behind: Fields<'a>) -> Option<WordedOn<'a>>
    ensures { option_map on_line_of result
        ≡ marked_form (fields_of form.entry) (fields_of behind.entry) }
{
    let at = form.word_at(b"=".as_slice())?;
    let (front, _, words) = form.cut(at)?;
    let (before, signal) = front.last()?;
    if !is_on_signal(before) {
        return None;
    }
    Some(WordedOn {
        before,
        signal,
        words,
        behind,
    })
}

/// The parts of a line of `on` whose form has words, if it is one.
#[tactic(auto, unfolding(crate::specs::Words::worded_on))]
pub(crate) fn worded_on<'a>(all: Fields<'a>) -> Option<WordedOn<'a>>
    ensures { option_map on_line_of result ≡ worded_on (fields_of all.entry) }
{
    let (on, _) = all.first()?;
    if on != b"on".as_slice() {
        return None;
    }
    let end = form_end(all)?;
    marked_form(all.take(end), all.skip(end))
}

/// The line with the signal's initial value in the place of the words of its form.
fn with_initial(
    alloc: Global,
    cluster: &Cluster,
    line: &WordedOn<'_>,
) -> Result<Vec<u8>, AllocError>
    ensures { IfOk result (λ text. text.items ≡ with_initial cluster.now (on_line_of line.now)) }
{
    let value = some_value(alloc, cluster, line.signal)?;
    let mut text = in_numbers(alloc, line.before, line.signal, &value)?;
    add_spaced(&mut text, line.behind)?;
    Ok(text)
}

/// What a line of `on` whose form has words says. All other fields are judged before these words.
#[tactic(auto, unfolding(crate::specs::Words::worded_on_line))]
pub(crate) fn read_worded_on(
    alloc: Global,
    cluster: &Cluster,
    coded: &Coded,
    line: &WordedOn<'_>,
) -> Result<Option<ScriptLine>, LineFault>
    ensures { Gives (λ l. l) result
        (worded_on_line cluster.now coded.now (on_line_of line.now)) }
{
    let numbers = with_initial(alloc, cluster, line)?;
    let initial = read_marked(alloc, cluster, coded, numbers.as_slice())?;
    let signal = worded_signal(alloc, cluster, coded, line.signal)?;
    let Some((first, others)) = line.words.first() else {
        return Err(LineFault::Bad(Reason::NoWords));
    };
    let text = joined(alloc, line.words)?;
    let said = Said {
        signal,
        field: line.signal,
        text: text.as_slice(),
        first,
        others,
    };
    expected_line(alloc, cluster, coded, said, initial)
}
