//! What values mean, as cells of a table (RFC 4180).

ghost use Rattle.std.specs.Prelude.{◌≡◌, ◌<◌, ◌++◌, ◌||◌, codes, flat_map, length, option_map};
ghost use Rattle.std.specs.Fmt.{decimal};
ghost use Rattle.lin_text.specs.Written.{Grows};
ghost use Rattle.lin_export.specs.Csv.{after_comma, doubled_quote, meaning_cell, meaning_cells};
ghost use Rattle.lin_export.specs.Csv.{meaning_names, needs_quotes, text_cell, unit_name};
ghost use Rattle.lin_values.specs.Meaning.{meant};
ghost use Rattle.lin_values.specs.Shown.{plain_shown};

use lin_frame::Value;
use lin_parts::Cluster;
use lin_text::TextWriter;
use lin_values::{Coded, Meaning, put_decimal};
use std::io::Write;

pub(crate) fn needs_quotes(text: &[u8]) -> bool
    ensures { result ≡ needs_quotes text.now }
{
    text.iter().any(|byte| *byte == b',' || *byte == b'"')
}

/// A byte between quotes.
fn put_doubled_byte<W: Write>(out: &mut TextWriter<'_, W>, byte: u8)
    ensures { Grows W.contents out.old out.new (doubled_quote byte) }
{
    if byte == b'"' {
        out.put_byte(b'"');
    }
    out.put_byte(byte);
}

/// A text between quotes, its own doubled.
fn put_doubled<W: Write>(out: &mut TextWriter<'_, W>, text: &[u8])
    ensures { Grows W.contents out.old out.new (flat_map doubled_quote text.now) }
{
    for byte in text {
        put_doubled_byte(out, *byte);
    }
}

/// A text as a cell.
fn put_text<W: Write>(out: &mut TextWriter<'_, W>, text: &[u8])
    ensures { Grows W.contents out.old out.new (text_cell text.now) }
{
    if needs_quotes(text) {
        out.put_byte(b'"');
        put_doubled(out, text);
        out.put_byte(b'"');
    } else {
        out.put(text);
    }
}

/// A number as a cell.
fn put_number<W: Write>(out: &mut TextWriter<'_, W>, number: u64)
    ensures { Grows W.contents out.old out.new (text_cell (decimal number)) }
{
    out.put_number(number);
}

/// A meaning as a cell: a decimal without its unit, and characters without quotes of their own.
fn put_meaning<W: Write>(out: &mut TextWriter<'_, W>, meaning: &Meaning<'_>)
    ensures { Grows W.contents out.old out.new (text_cell (plain_shown (meant meaning.now))) }
{
    match meaning {
        Meaning::Named(text) => put_text(out, text),
        Meaning::Number(number) => put_number(out, *number),
        Meaning::Physical(value, _) => put_decimal(out, value.decimal()),
        Meaning::Digits(digits) => put_text(out, digits.as_slice()),
        Meaning::Letters(letters) => put_text(out, letters.as_slice()),
    }
}

fn put_meaning_cell<W: Write>(
    out: &mut TextWriter<'_, W>,
    coded: &Coded,
    signal: u16,
    value: &Value,
)
    ensures { Grows W.contents out.old out.new (meaning_cell coded.now signal value.now) }
{
    if let Some(meaning) = coded.meaning(signal, value) {
        put_meaning(out, &meaning);
    }
}

/// A comma, and what a value means, where the signal has an encoding.
pub(crate) fn put_coded_cells<W: Write>(
    out: &mut TextWriter<'_, W>,
    coded: &Coded,
    signal: u16,
    value: &Value,
)
    ensures { Grows W.contents out.old out.new
        (flat_map after_comma (meaning_cells coded.now signal value.now)) }
{
    if let Some(_encoding) = coded.encoding_of(signal) {
        out.put_byte(b',');
        put_meaning_cell(out, coded, signal, value);
    }
}

/// Whether a name with a unit needs quotes.
fn either_needs_quotes(name: &[u8], unit: &[u8]) -> bool
    ensures { result ≡ (needs_quotes name.now || needs_quotes unit.now) }
{
    needs_quotes(name) || needs_quotes(unit)
}

/// The name of a column with a unit.
fn put_unit_name<W: Write>(out: &mut TextWriter<'_, W>, name: &[u8], unit: &[u8])
    ensures { Grows W.contents out.old out.new
        (text_cell (name.now ++ (codes " [" ++ (unit.now ++ codes "]")))) }
{
    if either_needs_quotes(name, unit) {
        out.put_byte(b'"');
        put_doubled(out, name);
        out.put(b" [");
        put_doubled(out, unit);
        out.put(b"]\"");
    } else {
        out.put(name);
        out.put(b" [");
        out.put(unit);
        out.put_byte(b']');
    }
}

/// The name of a column without a unit.
fn put_value_name<W: Write>(out: &mut TextWriter<'_, W>, name: &[u8])
    ensures { Grows W.contents out.old out.new (text_cell (name.now ++ codes " value")) }
{
    if needs_quotes(name) {
        out.put_byte(b'"');
        put_doubled(out, name);
        out.put(b" value\"");
    } else {
        out.put(name);
        out.put(b" value");
    }
}

/// The name of the column of what a signal means, with the unit if it has one.
fn put_meaning_name<W: Write>(out: &mut TextWriter<'_, W>, name: &[u8], unit: Option<&[u8]>)
    ensures { Grows W.contents out.old out.new
        (text_cell (unit_name name.now (option_map (λ u. u.now) unit.entry))) }
{
    match unit {
        Some(unit) => put_unit_name(out, name, unit),
        None => put_value_name(out, name),
    }
}

/// A comma, and the name of the column of what a signal means, where it has an encoding.
pub(crate) fn put_coded_names<W: Write>(
    out: &mut TextWriter<'_, W>,
    cluster: &Cluster,
    coded: &Coded,
    signal: u16,
)
    requires { signal < length cluster.now.signals }
    ensures { Grows W.contents out.old out.new
        (flat_map after_comma (meaning_names cluster.now coded.now signal)) }
{
    if let Some(_encoding) = coded.encoding_of(signal) {
        out.put_byte(b',');
        put_meaning_name(out, cluster.signal_name(signal), coded.unit(signal));
    }
}
