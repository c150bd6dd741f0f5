//! The cells of what values of signals mean, kept from row to row of a table: most signals have the
//! same value in the next one.

ghost use Rattle.std.specs.Prelude.{◌≡◌, ◌<◌, flat_map, length, true, IfOk};
ghost use Rattle.std.specs.Fmt.{decimal};
ghost use Rattle.lin_text.specs.Written.{Grows};
ghost use Rattle.lin_export.specs.Csv.{after_comma, meaning_cell, meaning_cells, text_cell};
ghost use Rattle.lin_export.specs.KeptCells.{AreKept, FitKept, AreCellsOf};
ghost use Rattle.lin_export.specs.ShortTexts.{AddsText, HoldsText};
ghost use Rattle.lin_export.specs.WhereTold.{given_coding};
ghost use Rattle.lin_values.specs.Meaning.{meant};
ghost use Rattle.lin_values.specs.Shown.{plain_shown};

use crate::meaning_cells::{needs_quotes, put_coded_cells};
use crate::short_text::ShortText;
use lin_frame::Value;
use lin_parts::Cluster;
use lin_text::TextWriter;
use lin_values::{Coded, Meaning};
use std::alloc::{AllocError, Global};
use std::io::Write;

/// A value of a signal, and the cells of what it means, where they are short.
#[derive(Drop)]
pub(crate) struct KeptCells {
    value: Value,
    text: ShortText,
}

/// A text as a cell; one that needs quotes isn't kept.
fn add_text(text: &mut ShortText, cell: &[u8])
    ensures { AddsText text.old text.new (text_cell cell.now) }
{
    if needs_quotes(cell) {
        text.give_up();
    } else {
        text.put(cell);
    }
}

/// A number as a cell.
fn add_number(text: &mut ShortText, number: u64)
    ensures { AddsText text.old text.new (text_cell (decimal number)) }
{
    text.put_number(number);
}

/// A meaning as a cell.
fn add_meaning(text: &mut ShortText, meaning: &Meaning<'_>)
    ensures { AddsText text.old text.new (text_cell (plain_shown (meant meaning.now))) }
{
    match meaning {
        Meaning::Named(name) => add_text(text, name),
        Meaning::Number(number) => add_number(text, *number),
        Meaning::Physical(value, _) => text.put_decimal(value.decimal()),
        Meaning::Digits(digits) => add_text(text, digits.as_slice()),
        Meaning::Letters(letters) => add_text(text, letters.as_slice()),
    }
}

fn add_meaning_cell(text: &mut ShortText, coded: &Coded, signal: u16, value: &Value)
    ensures { AddsText text.old text.new (meaning_cell coded.now signal value.now) }
{
    if let Some(meaning) = coded.meaning(signal, value) {
        add_meaning(text, &meaning);
    }
}

/// The cells of what a value means, each behind a comma: one, where the signal has an encoding.
fn cells_of(coded: &Coded, signal: u16, value: &Value) -> ShortText
    ensures { HoldsText result (flat_map after_comma (meaning_cells coded.now signal value.now)) }
{
    let mut text = ShortText::new();
    if let Some(_encoding) = coded.encoding_of(signal) {
        text.put_byte(b',');
        add_meaning_cell(&mut text, coded, signal, value);
    }
    text
}

/// Whether two values are the same.
fn is_same(one: &Value, other: &Value) -> bool
    ensures { result ≡ true → one.now ≡ other.now }
{
    match (one, other) {
        (Value::Scalar(one), Value::Scalar(other)) => one == other,
        (Value::Bytes(one), Value::Bytes(other)) => one.as_slice() == other.as_slice(),
        _ => false,
    }
}

impl KeptCells {
    /// A value, and its cells.
    fn new(coded: &Coded, signal: u16, value: &Value) -> KeptCells
        ensures value { result.value ≡ value.now }
        ensures cells { AreCellsOf coded.now signal result }
    {
        KeptCells {
            value: *value,
            text: cells_of(coded, signal, value),
        }
    }

    /// Keeps the cells of a value.
    fn keep(&mut self, coded: &Coded, signal: u16, value: &Value)
        requires { AreCellsOf coded.now signal self.old }
        ensures value { self.new.value ≡ value.now }
        ensures cells { AreCellsOf coded.now signal self.new }
    {
        if !is_same(&self.value, value) {
            *self = KeptCells::new(coded, signal, value);
        }
    }

    /// Puts the cells of what a value means, each behind a comma.
    pub(crate) fn put<W: Write>(
        &mut self,
        out: &mut TextWriter<'_, W>,
        coded: &Coded,
        signal: u16,
        value: &Value,
    )
        requires { AreCellsOf coded.now signal self.old }
        ensures text { Grows W.contents out.old out.new
            (flat_map after_comma (meaning_cells coded.now signal value.now)) }
        ensures kept { AreCellsOf coded.now signal self.new }
    {
        self.keep(coded, signal, value);
        match self.text.whole() {
            Some(text) => out.put(text),
            None => put_coded_cells(out, coded, signal, value),
        }
    }
}

/// The cells of the values of all signals.
fn all_cells(
    alloc: Global,
    cluster: &Cluster,
    coded: &Coded,
    values: &[Value],
) -> Result<Vec<KeptCells>, AllocError>
    requires { length values.now ≡ length cluster.now.signals }
    ensures { IfOk result (λ kept. AreKept coded.now (length cluster.now.signals) kept.items) }
{
    let mut kept = Vec::with_capacity(alloc, values.len())?;
    for signal in 0..cluster.signals() as u16 {
        let value = &values[usize::from(signal)];
        kept.push(KeptCells::new(coded, signal, value))?;
    }
    Ok(kept)
}

/// The cells of the values of all signals, where what values mean is told.
///
/// # Errors
/// Out of memory.
pub(crate) fn kept_cells(
    alloc: Global,
    cluster: &Cluster,
    coded: Option<&Coded>,
    values: &[Value],
) -> Result<Vec<KeptCells>, AllocError>
    requires { length values.now ≡ length cluster.now.signals }
    ensures { IfOk result (λ kept. FitKept (given_coding coded.entry) (length cluster.now.signals) kept.items) }
{
    match coded {
        Some(coded) => all_cells(alloc, cluster, coded, values),
        None => Ok(Vec::new(alloc)),
    }
}
