//! What the values of signals mean, as lines that the page's script reads.

ghost use Rattle.std.specs.Prelude.{flat_map};
ghost use Rattle.lin_export.specs.WhereTold.{given_coding};
ghost use Rattle.lin_frame.specs.Words.{numbers};
ghost use Rattle.lin_log.specs.Words.{spaced_word};
ghost use Rattle.lin_tool.specs.PageMeanings.{coded_lines, encoding_lines, logical_line, meaning_lines};
ghost use Rattle.lin_tool.specs.PageMeanings.{physical_line, logical_value_line};
ghost use Rattle.lin_text.specs.Written.{Grows};
ghost use Rattle.lin_values.specs.Shown.{decimal_shown};

use crate::page::field::put_field;
use lin_log::{Word, put_head};
use lin_parts::Cluster;
use lin_text::TextWriter;
use lin_values::{Coded, Coefficient, Item, PlacedItem, put_decimal};
use std::io::Write;

/// The line of a value with its text.
fn put_value<W: Write>(out: &mut TextWriter<'_, W>, signal: u16, value: u64, text: &[u8])
    ensures { Grows W.contents out.old out.new (logical_value_line signal value text.now) }
{
    put_head(
        out,
        b"logical",
        &[Word::Number(u64::from(signal)), Word::Number(value)],
    );
    out.put_byte(b' ');
    put_field(out, text);
    out.put_byte(b'\n');
}

/// The line of an item, where it is a value with its text.
fn put_logical<W: Write>(out: &mut TextWriter<'_, W>, signal: u16, item: &Item)
    ensures { Grows W.contents out.old out.new (logical_line signal item.now) }
{
    if let Item::Logical { value, text } = item {
        put_value(out, signal, *value, text.as_slice());
    }
}

/// A scale or an offset behind a space.
fn put_coefficient<W: Write>(out: &mut TextWriter<'_, W>, coefficient: Coefficient)
    ensures { Grows W.contents out.old out.new (spaced_word (decimal_shown coefficient)) }
{
    out.put_byte(b' ');
    put_decimal(out, coefficient.decimal());
}

/// The line of an item, where it is a range: its first and last raw value, scale, offset and unit.
fn put_physical<W: Write>(out: &mut TextWriter<'_, W>, signal: u16, item: &Item)
    ensures { Grows W.contents out.old out.new (physical_line signal item.now) }
{
    if let Some(range) = item.as_range() {
        put_head(
            out,
            b"physical",
            &[
                Word::Number(u64::from(signal)),
                Word::Number(range.min),
                Word::Number(range.max),
            ],
        );
        put_coefficient(out, range.scale);
        put_coefficient(out, range.offset);
        out.put_byte(b' ');
        put_field(out, range.unit);
        out.put_byte(b'\n');
    }
}

fn put_logicals<W: Write>(out: &mut TextWriter<'_, W>, signal: u16, items: &[PlacedItem])
    ensures { Grows W.contents out.old out.new
        (flat_map (λ p. logical_line signal p.item) items.now) }
{
    for one in items {
        put_logical(out, signal, &one.item);
    }
}

fn put_physicals<W: Write>(out: &mut TextWriter<'_, W>, signal: u16, items: &[PlacedItem])
    ensures { Grows W.contents out.old out.new
        (flat_map (λ p. physical_line signal p.item) items.now) }
{
    for one in items {
        put_physical(out, signal, &one.item);
    }
}

/// The lines of items: of the values, then of the ranges.
fn put_items<W: Write>(out: &mut TextWriter<'_, W>, signal: u16, items: &[PlacedItem])
    ensures { Grows W.contents out.old out.new (encoding_lines signal items.now) }
{
    put_logicals(out, signal, items);
    put_physicals(out, signal, items);
}

fn put_meanings<W: Write>(out: &mut TextWriter<'_, W>, coded: &Coded, signal: u16)
    ensures { Grows W.contents out.old out.new (meaning_lines coded.now signal) }
{
    if let Some(encoding) = coded.encoding_of(signal) {
        put_items(out, signal, encoding.coding().items.as_slice());
    }
}

fn put_each<W: Write>(out: &mut TextWriter<'_, W>, coded: &Coded, signals: u16)
    ensures { Grows W.contents out.old out.new
        (flat_map (meaning_lines coded.now) (numbers signals)) }
{
    for signal in 0..signals {
        put_meanings(out, coded, signal);
    }
}

/// The lines of all signals' encodings, where they are known.
pub(crate) fn put_coded<W: Write>(
    out: &mut TextWriter<'_, W>,
    cluster: &Cluster,
    coded: Option<&Coded>,
)
    ensures { Grows W.contents out.old out.new (coded_lines cluster.now
        (given_coding coded.entry)) }
{
    if let Some(coded) = coded {
        put_each(out, coded, cluster.signals() as u16);
    }
}
