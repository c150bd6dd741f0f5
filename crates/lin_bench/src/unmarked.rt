//! Lines without words, and why one is bad in which `=` is missing before a value.

ghost use Rattle.std.specs.Prelude.{◌≡◌, ◌<◌, ◌+◌, IfOk, IfSome, Option, Result, length};
ghost use Rattle.std.specs.Char.{is_ascii_digit};
ghost use Rattle.std.specs.List.{list_all};
ghost use Rattle.lin_bench.specs.Fields.{line_fields, signal_field};
ghost use Rattle.lin_bench.specs.Lines.{read_line};
ghost use Rattle.lin_bench.specs.Parts.{fields_of};
ghost use Rattle.lin_bench.specs.Read.{Gives, is_bad_line};
ghost use Rattle.lin_bench.specs.Words.{asks_value, begins_hex, is_array_word, is_good_line, is_hex, is_number_or_range};
ghost use Rattle.lin_bench.specs.Words.{is_raw, is_signal, is_signal_after, missing_hint, or_this};
ghost use Rattle.lin_bench.specs.Words.{or_unmarked, reads_initial, signal_in_fields, unmarked_reason, why_at};
ghost use Rattle.lin_bench.specs.Words.{why_coded, why_of_signal, why_unmarked, why_value};
ghost use Rattle.lin_bench.specs.declared.line.ScriptLine.{ScriptLine};
ghost use Rattle.lin_bench.specs.declared.reason.Reason.{Reason};

use crate::fault::LineFault;
use crate::fields::{Fields, copied_fields, range_ends, signal_field};
use crate::hints::{texts_in, units_hint, units_in, values_hint};
use crate::line::ScriptLine;
use crate::lines::read_line;
use crate::raw_values::some_value;
use crate::reason::{Hint, Reason};
use crate::rule_lines::digit;
use crate::said_values::joined;
use crate::words::{in_numbers, is_expect, is_write};
use lin_parts::Cluster;
use lin_text::Text;
use lin_values::{Coded, PlacedItem, number_and_unit};
use std::alloc::{AllocError, Global};

/// After how many fields a signal is looked for at most: nine are before it in `slots N ms leave NODE until
/// not signal NODE SIGNAL VALUE`.
const MOST_BEFORE: usize = 9;

fn are_hex(digits: &[u8]) -> bool
    ensures { result ≡ list_all is_hex digits.now }
{
    digits.iter().all(|sign| digit(*sign).is_some())
}

/// Whether a field is meant as the bytes of an array: `x-`, or `x` and hexadecimal digits.
fn is_array_word(field: &[u8]) -> bool
    ensures { result ≡ is_array_word field.now }
{
    match field {
        [b'x', digits @ ..] => digits == b"-".as_slice() || are_hex(digits),
        _ => false,
    }
}

fn are_digits(field: &[u8]) -> bool
    ensures { result ≡ list_all is_ascii_digit field.now }
{
    field.iter().all(|sign| sign.is_ascii_digit())
}

fn begins_hex(field: &[u8]) -> bool
    ensures { result ≡ begins_hex field.now }
{
    matches!(field, [b'0', b'x', ..])
}

/// Whether a field is meant as a raw value: digits, `0x` and more, or an array.
fn is_raw(field: &[u8]) -> bool
    ensures { result ≡ is_raw field.now }
{
    are_digits(field) || begins_hex(field) || is_array_word(field)
}

/// Whether the fields of a value are meant as a raw value or a range.
fn is_numeric(value: Fields<'_>) -> bool
    ensures { result ≡ is_number_or_range (fields_of value.entry) }
{
    match value.one() {
        Some(field) => is_raw(field) || range_ends(field).is_some(),
        None => false,
    }
}

/// Whether a line that was read is good. An error means out of memory.
fn is_good(read: &Result<Option<ScriptLine>, LineFault>) -> Result<bool, AllocError>
    ensures { (said : Result (Option ScriptLine) Reason) → Gives (λ l. l) read.now said
        → IfOk result (λ is. is ≡ is_good_line said) }
{
    match read {
        Ok(_) => Ok(true),
        Err(LineFault::Bad(_)) => Ok(false),
        Err(LineFault::OutOfMemory) => Err(AllocError),
    }
}

/// Whether a line with a signal's initial value after the signal is good.
fn reads_initial(
    alloc: Global,
    cluster: &Cluster,
    before: Fields<'_>,
    signal: &[u8],
) -> Result<bool, AllocError>
    ensures { IfOk result (λ is. is ≡ reads_initial cluster.now (fields_of before.entry) signal.now) }
{
    let value = some_value(alloc, cluster, signal)?;
    let line = in_numbers(alloc, before, signal, &value)?;
    let read = read_line(alloc, cluster, line.as_slice());
    is_good(&read)
}

/// Whether the fields before a signal are those of a write or of an expectation.
fn asks_value(before: Fields<'_>) -> bool
    ensures { result ≡ asks_value (fields_of before.entry) }
{
    is_write(before) || is_expect(before)
}

/// Whether a field after these is a signal with its value after it.
fn is_signal_after(
    alloc: Global,
    cluster: &Cluster,
    before: Fields<'_>,
    signal: &[u8],
) -> Result<bool, AllocError>
    ensures { IfOk result
        (λ is. is ≡ is_signal_after cluster.now (fields_of before.entry) signal.now) }
{
    if asks_value(before) {
        return reads_initial(alloc, cluster, before, signal);
    }
    Ok(false)
}

/// Whether a field is a signal with its value after it.
fn is_signal(
    alloc: Global,
    cluster: &Cluster,
    all: Fields<'_>,
    at: usize,
) -> Result<bool, AllocError>
    requires { at < length (fields_of all) }
    ensures { IfOk result (λ is. is ≡ is_signal cluster.now (fields_of all.entry) at) }
{
    match all.cut(at) {
        Some((before, signal, _)) => is_signal_after(alloc, cluster, before, signal),
        None => Ok(false),
    }
}

/// The last field of a line that is a signal with its value after it.
fn signal_at(alloc: Global, cluster: &Cluster, all: Fields<'_>) -> Result<Option<usize>, AllocError>
    ensures at { IfOk result (λ o. o ≡ signal_in_fields cluster.now (fields_of all.entry)) }
    ensures within { IfOk result (λ o. IfSome o (λ at. at + 1 < length (fields_of all.entry))) }
{
    let mut at = all.len().saturating_sub(2).min(MOST_BEFORE);
    while at > 0 {
        if is_signal(alloc, cluster, all, at)? {
            return Ok(Some(at));
        }
        at -= 1;
    }
    Ok(None)
}

/// The hint if `=` is missing before a value of a signal.
fn missing_hint(
    alloc: Global,
    coded: &Coded,
    signal: u16,
    items: &[PlacedItem],
    text: &[u8],
) -> Result<Hint, AllocError>
    ensures { IfOk result (λ h. h ≡ missing_hint coded.now signal items.now text.now) }
{
    let units = units_in(alloc, items)?;
    if number_and_unit(text).is_some() && !units.is_empty() {
        return units_hint(alloc, units);
    }
    values_hint(alloc, units, texts_in(alloc, coded, signal, items)?)
}

/// That `=` is missing before these fields, the value of a signal with these items.
fn unmarked(
    alloc: Global,
    coded: &Coded,
    signal: u16,
    ranged: bool,
    value: Fields<'_>,
    items: &[PlacedItem],
) -> Result<Reason, AllocError>
    ensures { IfOk result
        (λ r. r ≡ unmarked_reason coded.now signal ranged (fields_of value.entry) items.now) }
{
    let text = joined(alloc, value)?;
    let hint = missing_hint(alloc, coded, signal, items, text.as_slice())?;
    let fields = copied_fields(alloc, value)?;
    Ok(Reason::Unmarked {
        fields,
        ranged,
        hint,
    })
}

/// That `=` is missing before these fields, the value of a signal, if the signal has an encoding.
fn why_coded(
    alloc: Global,
    coded: &Coded,
    signal: u16,
    ranged: bool,
    value: Fields<'_>,
) -> Result<Option<Reason>, AllocError>
    ensures { IfOk result (λ r. r ≡ why_coded coded.now signal ranged (fields_of value.entry)) }
{
    match coded.encoding_of(signal) {
        Some(encoding) => {
            let items = encoding.coding().items.as_slice();
            Ok(Some(unmarked(alloc, coded, signal, ranged, value, items)?))
        }
        None => Ok(None),
    }
}

/// Why these fields aren't a value of a signal by its number, which this field names.
fn why_of_signal(
    alloc: Global,
    coded: &Coded,
    field: &[u8],
    signal: u16,
    ranged: bool,
    value: Fields<'_>,
) -> Result<Option<Reason>, AllocError>
    ensures { IfOk result
        (λ r. r ≡ why_of_signal coded.now field.now signal ranged (fields_of value.entry)) }
{
    if coded.is_wide(signal) {
        return Ok(Some(Reason::WideSignal(Text::copied(alloc, field)?)));
    }
    why_coded(alloc, coded, signal, ranged, value)
}

/// That `=` is missing between a signal and these fields, if they aren't a raw value or a range; of a wide
/// signal that it is one.
fn why_value(
    alloc: Global,
    cluster: &Cluster,
    coded: &Coded,
    signal: &[u8],
    ranged: bool,
    value: Fields<'_>,
) -> Result<Option<Reason>, AllocError>
    ensures { IfOk result (λ r. r ≡ why_value coded.now signal.now
        (signal_field cluster.now signal.now) ranged (fields_of value.entry)) }
{
    if is_numeric(value) {
        return Ok(None);
    }
    match signal_field(alloc, cluster, signal) {
        Ok(number) => why_of_signal(alloc, coded, signal, number, ranged, value),
        Err(LineFault::Bad(_)) => Ok(None),
        Err(LineFault::OutOfMemory) => Err(AllocError),
    }
}

/// That `=` is missing after the signal at this field, if it is.
fn why_at(
    alloc: Global,
    cluster: &Cluster,
    coded: &Coded,
    all: Fields<'_>,
    at: usize,
) -> Result<Option<Reason>, AllocError>
    requires { at + 1 < length (fields_of all) }
    ensures { IfOk result (λ r. r ≡ why_at cluster.now coded.now (fields_of all.entry) at) }
{
    match all.cut(at) {
        Some((before, signal, value)) => {
            let ranged = is_expect(before);
            why_value(alloc, cluster, coded, signal, ranged, value)
        }
        None => Ok(None),
    }
}

/// That `=` is missing in a line, if it is.
fn why_unmarked(
    alloc: Global,
    cluster: &Cluster,
    coded: &Coded,
    all: Fields<'_>,
) -> Result<Option<Reason>, AllocError>
    ensures { IfOk result (λ r. r ≡ why_unmarked cluster.now coded.now (fields_of all.entry)) }
{
    match signal_at(alloc, cluster, all)? {
        Some(at) => why_at(alloc, cluster, coded, all, at),
        None => Ok(None),
    }
}

/// The reason that is found, or this one.
fn or_this(found: Option<Reason>, why: Reason) -> Reason
    ensures { result ≡ or_this found why }
{
    match found {
        Some(better) => better,
        None => why,
    }
}

/// What a line without words says, with the hint that `=` is missing if it is bad for that.
fn with_hint(
    alloc: Global,
    cluster: &Cluster,
    coded: &Coded,
    line: &[u8],
    said: Result<Option<ScriptLine>, LineFault>,
) -> Result<Option<ScriptLine>, LineFault>
    requires { Gives (λ l. l) said (read_line cluster.now line.now) }
    ensures { Gives (λ l. l) result
        (or_unmarked cluster.now coded.now (line_fields line.now) (read_line cluster.now line.now)) }
{
    match said {
        Err(LineFault::Bad(why)) => {
            let all = Fields::of(cluster, line);
            let found = why_unmarked(alloc, cluster, coded, all)?;
            Err(LineFault::Bad(or_this(found, why)))
        }
        said => said,
    }
}

/// Whether a line is bad.
// (A call of its own: a compiler that sees what is asked of a line copies the line byte by byte.)
#[inline(never)]
fn is_bad(said: &Result<Option<ScriptLine>, LineFault>) -> bool
    ensures { result ≡ is_bad_line said.now }
{
    match said {
        Err(LineFault::Bad(_)) => true,
        Ok(_) | Err(LineFault::OutOfMemory) => false,
    }
}

/// What a line without words says.
pub(crate) fn read_unworded(
    alloc: Global,
    cluster: &Cluster,
    coded: &Coded,
    line: &[u8],
) -> Result<Option<ScriptLine>, LineFault>
    ensures { Gives (λ l. l) result
        (or_unmarked cluster.now coded.now (line_fields line.now) (read_line cluster.now line.now)) }
{
    let said = read_line(alloc, cluster, line);
    if is_bad(&said) {
        return with_hint(alloc, cluster, coded, line, said);
    }
    said
}
