//! What the values of signals mean, as lines.

ghost use Rattle.std.specs.Prelude.{◌≡◌, ◌<◌, ◌≤◌, flat_map, length, option_map, true};
ghost use Rattle.lin_log.specs.Words.{spaced_word};
ghost use Rattle.lin_text.specs.Written.{Grows, WritesText};
ghost use Rattle.lin_export.specs.ListedSignals.{coding_line, encoding_word, values_are_numbers, initial_line, item_line};
ghost use Rattle.lin_export.specs.ListedSignals.{item_lines, meaning_words, range_line, raw_word, signal_lines, unit_words};
ghost use Rattle.lin_export.specs.ListedSignals.{signal_list, text_or_number, value_text_line};
ghost use Rattle.lin_log.specs.Shown.{word_shown};
ghost use Rattle.lin_values.specs.Coded.{encoding_of, range_of};
ghost use Rattle.lin_values.specs.Meaning.{meant};
ghost use Rattle.lin_values.specs.Shown.{decimal_shown};
ghost use Rattle.lin_values.specs.Value.{decimal_of, fits};

use lin_frame::Value;
use lin_log::{Word, put_head, put_line};
use lin_parts::Cluster;
use lin_text::{TextBuffer, TextWriter, WriteFailed};
use lin_values::{
    Coded, Item, Meaning, PhysicalValue, PlacedItem, Range, fits, put_decimal, put_meaning,
};
use std::io::Write;

/// The name of a signal's encoding, and `-` for none.
fn encoding_word(coded: &Coded, signal: u16) -> Word<'_>
    ensures { word_shown result ≡ encoding_word (encoding_of coded.now signal) }
{
    match coded.encoding_of(signal) {
        Some(encoding) => Word::Said(encoding.coding().name.text.as_slice()),
        None => Word::Fixed("-"),
    }
}

/// The line of a signal: its number, its name, its bits and its encoding.
fn put_coding<'a, W: Write>(
    out: &mut TextWriter<'_, W>,
    cluster: &'a Cluster,
    coded: &'a Coded,
    signal: u16,
)
    requires { signal < length cluster.now.signals }
    ensures { Grows W.contents out.old out.new (coding_line cluster.now coded.now signal) }
{
    put_line(
        out,
        b"coding",
        &[
            Word::Number(u64::from(signal)),
            Word::Said(cluster.signal_name(signal)),
            Word::Number(u64::from(cluster.signal_size(signal))),
            encoding_word(coded, signal),
        ],
    );
}

/// A physical value behind a space.
fn put_physical<W: Write>(out: &mut TextWriter<'_, W>, physical: &PhysicalValue)
    ensures { Grows W.contents out.old out.new
        (spaced_word (decimal_shown (decimal_of physical.now))) }
{
    out.put_byte(b' ');
    put_decimal(out, physical.decimal());
}

/// A unit behind a space, where there is one.
fn put_unit<W: Write>(out: &mut TextWriter<'_, W>, unit: &[u8])
    ensures { Grows W.contents out.old out.new (flat_map spaced_word (unit_words unit.now)) }
{
    if !unit.is_empty() {
        out.put_byte(b' ');
        out.put(unit);
    }
}

/// The line of a range: its raw ends, the decimals that they mean, and their unit.
fn put_range<W: Write>(out: &mut TextWriter<'_, W>, signal: u16, range: &Range<'_>)
    requires order { range.now.min ≤ range.now.max }
    requires fits { fits range.now.max range.now.scale range.now.offset ≡ true }
    ensures { Grows W.contents out.old out.new (range_line signal (range_of range.now)) }
{
    put_head(
        out,
        b"range",
        &[
            Word::Number(u64::from(signal)),
            Word::Number(range.min),
            Word::Number(range.max),
        ],
    );
    put_physical(
        out,
        &PhysicalValue::new(range.min, range.scale, range.offset),
    );
    put_physical(
        out,
        &PhysicalValue::new(range.max, range.scale, range.offset),
    );
    put_unit(out, range.unit);
    out.put_byte(b'\n');
}

/// Writes a space and the text of a value, or its number if it has no text.
fn put_text_or_number<W: Write>(out: &mut TextWriter<'_, W>, value: u64, text: &[u8])
    ensures { Grows W.contents out.old out.new (spaced_word (text_or_number value text.now)) }
{
    out.put_byte(b' ');
    if text.is_empty() {
        out.put_number(value);
    } else {
        out.put(text);
    }
}

/// The line of a value with its text.
fn put_value<W: Write>(out: &mut TextWriter<'_, W>, signal: u16, value: u64, text: &[u8])
    ensures { Grows W.contents out.old out.new (value_text_line signal value text.now) }
{
    put_head(
        out,
        b"value",
        &[Word::Number(u64::from(signal)), Word::Number(value)],
    );
    put_text_or_number(out, value, text);
    out.put_byte(b'\n');
}

/// The line of an item, if it says what some value of the signal means. Values and ranges say it of
/// numbers alone, which scalars and wide signals have. A range has no value if its first one is above its
/// last, or if its values don't fit.
fn put_item<W: Write>(out: &mut TextWriter<'_, W>, signal: u16, has_numbers: bool, item: &Item)
    ensures { Grows W.contents out.old out.new (item_line has_numbers signal item.now) }
{
    let number = Word::Number(u64::from(signal));
    match item {
        Item::Bcd => put_line(out, b"bcd", &[number]),
        Item::Ascii => put_line(out, b"ascii", &[number]),
        Item::Logical { value, text } => {
            if has_numbers {
                put_value(out, signal, *value, text.as_slice());
            }
        }
        Item::Physical {
            min,
            max,
            scale,
            offset,
            ..
        } => {
            if !has_numbers || *max < *min {
                return;
            }
            if !fits(*max, scale.decimal(), offset.decimal()) {
                return;
            }
            if let Some(range) = item.as_range() {
                put_range(out, signal, &range);
            }
        }
    }
}

fn put_all_items<W: Write>(
    out: &mut TextWriter<'_, W>,
    signal: u16,
    has_numbers: bool,
    items: &[PlacedItem],
)
    ensures { Grows W.contents out.old out.new
        (flat_map (λ p. item_line has_numbers signal p.item) items.now) }
{
    for one in items {
        put_item(out, signal, has_numbers, &one.item);
    }
}

/// The lines of the items of a signal's encoding.
fn put_items<W: Write>(out: &mut TextWriter<'_, W>, cluster: &Cluster, coded: &Coded, signal: u16)
    requires { signal < length cluster.now.signals }
    ensures { Grows W.contents out.old out.new
        (item_lines (values_are_numbers cluster.now coded.now signal) signal (encoding_of coded.now signal)) }
{
    let has_numbers = coded.number(signal, cluster.initial(signal)).is_some();
    if let Some(encoding) = coded.encoding_of(signal) {
        put_all_items(out, signal, has_numbers, encoding.coding().items.as_slice());
    }
}

/// The text of a meaning behind a space, where there is one.
fn put_text<W: Write>(out: &mut TextWriter<'_, W>, meaning: Option<Meaning<'_>>)
    ensures { Grows W.contents out.old out.new
        (flat_map spaced_word (meaning_words (option_map meant meaning.entry))) }
{
    if let Some(meaning) = meaning {
        out.put_byte(b' ');
        put_meaning(out, &meaning);
    }
}

/// The word of a signal's value: its number if it has one, or else its bytes.
fn raw_word<'a>(coded: &Coded, signal: u16, value: &'a Value) -> Word<'a>
    ensures { word_shown result ≡ raw_word coded.now signal value.now }
{
    match coded.number(signal, value) {
        Some(number) => Word::Number(number),
        None => Word::Value(value),
    }
}

/// The line of a signal's initial value: its number or its bytes, and its text.
fn put_initial<'a, W: Write>(
    out: &mut TextWriter<'_, W>,
    cluster: &'a Cluster,
    coded: &Coded,
    signal: u16,
)
    requires { signal < length cluster.now.signals }
    ensures { Grows W.contents out.old out.new (initial_line cluster.now coded.now signal) }
{
    let initial = cluster.initial(signal);
    put_head(
        out,
        b"initial",
        &[
            Word::Number(u64::from(signal)),
            raw_word(coded, signal, initial),
        ],
    );
    put_text(out, coded.meaning(signal, initial));
    out.put_byte(b'\n');
}

fn put_signal<W: Write>(out: &mut TextWriter<'_, W>, cluster: &Cluster, coded: &Coded, signal: u16)
    requires { signal < length cluster.now.signals }
    ensures { Grows W.contents out.old out.new (signal_lines cluster.now coded.now signal) }
{
    put_coding(out, cluster, coded, signal);
    put_items(out, cluster, coded, signal);
    put_initial(out, cluster, coded, signal);
}

fn put_signals<W: Write>(out: &mut TextWriter<'_, W>, cluster: &Cluster, coded: &Coded)
    ensures { Grows W.contents out.old out.new (signal_list cluster.now coded.now) }
{
    for signal in 0..cluster.signals() as u16 {
        put_signal(out, cluster, coded, signal);
    }
}

/// Writes for each signal a line with its bits and its encoding, one for each item of the encoding
/// that says what a value of the signal means, and one for its initial value, with what that means
/// (LIN 2.2A, section 9.2.6).
///
/// It goes through a buffer of fixed size, and takes no memory. The writer isn't flushed.
///
/// # Errors
/// `WriteFailed` at the first error of the writer, an interrupted write too, and at the first write
/// of 0 bytes. What was written then is the beginning of the lines.
pub fn write_signals<W: Write>(
    cluster: &Cluster,
    coded: &Coded,
    writer: &mut W,
) -> Result<(), WriteFailed>
    ensures { WritesText (W.contents writer.old) (W.contents writer.new) result
        (signal_list cluster.now coded.now) }
{
    let mut buffer = TextBuffer::empty();
    let mut out = TextWriter::new(writer, &mut buffer);
    put_signals(&mut out, cluster, coded);
    out.finish()
}
