//! What the signals of a slot mean, as members of an object of JSON (RFC 8259).

ghost use Rattle.std.specs.Prelude.{◌≡◌, ◌+◌, ◌<◌, ◌^◌, if◌then◌else◌};
ghost use Rattle.std.specs.Prelude.{flat_map, length, option_map};
ghost use Rattle.std.specs.Fmt.{decimal};
ghost use Rattle.lin_text.specs.Written.{Grows};
ghost use Rattle.lin_export.specs.Csv.{after_comma};
ghost use Rattle.lin_export.specs.Json.{after_members, escaped_bytes, with_commas, member};
ghost use Rattle.lin_export.specs.Jsonl.{carried_meanings, column_member, column_members, frame_meanings};
ghost use Rattle.lin_export.specs.Jsonl.{meant_members, told_meanings};
ghost use Rattle.lin_export.specs.Quantities.{column_key, column_value, has_meaning, meaning_text, quantity};
ghost use Rattle.lin_export.specs.Open.{tracked_slot};
ghost use Rattle.lin_values.specs.Meaning.{meant};
ghost use Rattle.lin_values.specs.Shown.{shown, unit_shown};
ghost use Rattle.lin_values.specs.Spelled.{in_quotes};
ghost use Rattle.lin_export.specs.WhereTold.{given_coding, where_told};

use crate::frame_places::{place_count, value_at};
use crate::json::{
    Member, put_escaped, put_key, put_members, put_quoted, put_separator, put_text_value,
};
use crate::tracked_slot::{SeenSlot, TrackedSlot};
use lin_frame::{Answer, Value};
use lin_parts::Cluster;
use lin_text::TextWriter;
use lin_values::{Coded, Meaning, put_decimal};
use std::io::Write;

fn put_number<W: Write>(out: &mut TextWriter<'_, W>, number: u64)
    ensures { Grows W.contents out.old out.new (escaped_bytes (decimal number)) }
{
    out.put_number(number);
}

/// A unit behind a space, where there is one.
fn put_unit<W: Write>(out: &mut TextWriter<'_, W>, unit: &[u8])
    ensures { Grows W.contents out.old out.new (escaped_bytes (unit_shown unit.now)) }
{
    if !unit.is_empty() {
        out.put_byte(b' ');
        put_escaped(out, unit);
    }
}

/// Characters in quotes of their own.
fn put_letters<W: Write>(out: &mut TextWriter<'_, W>, letters: &[u8])
    ensures { Grows W.contents out.old out.new (escaped_bytes (in_quotes letters.now)) }
{
    out.put(b"\\\"");
    put_escaped(out, letters);
    out.put(b"\\\"");
}

fn put_escaped_meaning<W: Write>(out: &mut TextWriter<'_, W>, meaning: &Meaning<'_>)
    ensures { Grows W.contents out.old out.new (escaped_bytes (shown (meant meaning.now))) }
{
    match meaning {
        Meaning::Named(text) => put_escaped(out, text),
        Meaning::Number(number) => put_number(out, *number),
        Meaning::Physical(value, unit) => {
            put_decimal(out, value.decimal());
            put_unit(out, unit);
        }
        Meaning::Digits(digits) => put_escaped(out, digits.as_slice()),
        Meaning::Letters(letters) => put_letters(out, letters.as_slice()),
    }
}

/// The text of a meaning.
pub(crate) fn put_text<W: Write>(out: &mut TextWriter<'_, W>, meaning: &Meaning<'_>)
    ensures { Grows W.contents out.old out.new (meaning_text (meant meaning.now)) }
{
    out.put_byte(b'"');
    put_escaped_meaning(out, meaning);
    out.put_byte(b'"');
}

/// The decimal of a value in a range and its unit, null without one; null of other values.
pub(crate) fn put_quantity<W: Write>(out: &mut TextWriter<'_, W>, meaning: &Meaning<'_>)
    ensures { Grows W.contents out.old out.new (quantity (meant meaning.now)) }
{
    let Meaning::Physical(value, unit) = meaning else {
        out.put(b"null");
        return;
    };
    out.put_byte(b'[');
    put_decimal(out, value.decimal());
    out.put_byte(b',');
    put_text_value(out, unit);
    out.put_byte(b']');
}

/// What the object of a slot has of the meanings of its signals' values.
#[derive(Clone, Copy)]
pub(crate) enum Column {
    /// The texts of all.
    Texts,
    /// The decimals and units of values in ranges.
    Quantities,
}

/// Whether a column has a meaning.
fn has(column: Column, meaning: &Meaning<'_>) -> bool
    ensures { result ≡ has_meaning column (meant meaning.now) }
{
    match column {
        Column::Texts => true,
        Column::Quantities => matches!(meaning, Meaning::Physical(_, _)),
    }
}

/// A signal with what a column has of its meaning: a member.
fn put_member<W: Write>(
    out: &mut TextWriter<'_, W>,
    column: Column,
    name: &[u8],
    meaning: &Meaning<'_>,
)
    ensures { Grows W.contents out.old out.new
        (member name.now (column_value column (meant meaning.now))) }
{
    put_quoted(out, name);
    out.put_byte(b':');
    match column {
        Column::Texts => put_text(out, meaning),
        Column::Quantities => put_quantity(out, meaning),
    }
}

/// What a column has of the meaning of a signal's value, after so many members. Returns how many there
/// are then.
fn put_meaning<W: Write>(
    out: &mut TextWriter<'_, W>,
    cluster: &Cluster,
    column: Column,
    before: usize,
    signal: u16,
    meaning: Option<Meaning<'_>>,
) -> usize
    requires few { before + 1 < 2 ^ 64 }
    requires known { signal < length cluster.now.signals }
    ensures text { Grows W.contents out.old out.new
        (after_members before (column_members column cluster.now signal (option_map meant meaning.entry))) }
    ensures number { result
        ≡ before + length (column_members column cluster.now signal (option_map meant meaning.entry)) }
{
    let Some(meaning) = meaning else {
        return before;
    };
    if !has(column, &meaning) {
        return before;
    }
    put_separator(out, before);
    put_member(out, column, cluster.signal_name(signal), &meaning);
    before + 1
}

/// The signals of a frame of which a column has something, with that.
fn put_frame_meanings<W: Write>(
    out: &mut TextWriter<'_, W>,
    cluster: &Cluster,
    coded: &Coded,
    column: Column,
    frame: u16,
    answer: &Answer,
)
    requires { frame < length cluster.now.frames }
    ensures { Grows W.contents out.old out.new
        (with_commas (frame_meanings column cluster.now coded.now answer.now frame)) }
{
    let mut members = 0;
    for place in 0..place_count(cluster, frame) {
        let (signal, value) = value_at(cluster, frame, answer, place);
        let meaning = coded.meaning(signal, &value);
        members = put_meaning(out, cluster, column, members, signal, meaning);
    }
}

/// The signals that a slot carries and of which a column has something, with that, where it is seen
/// good.
fn put_carried_meanings<W: Write>(
    out: &mut TextWriter<'_, W>,
    cluster: &Cluster,
    coded: &Coded,
    column: Column,
    slot: &TrackedSlot,
)
    ensures { Grows W.contents out.old out.new
        (with_commas (carried_meanings column cluster.now coded.now (tracked_slot slot.now))) }
{
    let SeenSlot::Good(answer) = slot.look() else {
        return;
    };
    let Some(frame) = slot.carried(cluster) else {
        return;
    };
    put_frame_meanings(out, cluster, coded, column, frame, answer);
}

/// A column of what the signals that a slot carries mean: a member.
fn put_column<W: Write>(
    out: &mut TextWriter<'_, W>,
    cluster: &Cluster,
    coded: &Coded,
    column: Column,
    slot: &TrackedSlot,
)
    ensures { Grows W.contents out.old out.new
        (after_comma (column_member column cluster.now coded.now (tracked_slot slot.now))) }
{
    put_key(out, column.key());
    out.put_byte(b'{');
    put_carried_meanings(out, cluster, coded, column, slot);
    out.put_byte(b'}');
}

impl Column {
    /// Its name in objects.
    fn key(self) -> &'static str
        ensures { result.now ≡ column_key self }
    {
        match self {
            Column::Texts => "physical",
            Column::Quantities => "quantities",
        }
    }
}

/// What the signals that a slot carries mean, where that is told.
pub(crate) fn put_physical<W: Write>(
    out: &mut TextWriter<'_, W>,
    cluster: &Cluster,
    coded: Option<&Coded>,
    slot: &TrackedSlot,
)
    ensures { Grows W.contents out.old out.new (flat_map after_comma
        (told_meanings cluster.now (given_coding coded.entry) (tracked_slot slot.now))) }
{
    if let Some(coded) = coded {
        put_column(out, cluster, coded, Column::Texts, slot);
        put_column(out, cluster, coded, Column::Quantities, slot);
    }
}

/// The meaning of a signal's value as two members, null if it has none: its text and its quantity.
fn put_text_and_quantity<W: Write>(
    out: &mut TextWriter<'_, W>,
    key: &str,
    coded: &Coded,
    signal: u16,
    value: &Value,
)
    ensures { Grows W.contents out.old out.new
        (flat_map after_comma (meant_members key.now coded.now signal value.now)) }
{
    let Some(meaning) = coded.meaning(signal, value) else {
        put_members(out, &[Member::Null(key), Member::Null("quantity")]);
        return;
    };
    put_key(out, key);
    put_text(out, &meaning);
    put_key(out, "quantity");
    put_quantity(out, &meaning);
}

/// Puts the meaning of a signal's value, if the encodings are given, as two members, each after a comma:
/// its text under a key, and its quantity. Both are null if the value has no meaning.
pub fn put_meant<W: Write>(
    out: &mut TextWriter<'_, W>,
    key: &str,
    coded: Option<&Coded>,
    signal: u16,
    value: &Value,
)
    ensures { Grows W.contents out.old out.new (flat_map after_comma
        (where_told (given_coding coded.entry) (λ d. meant_members key.now d signal value.now))) }
{
    if let Some(coded) = coded {
        put_text_and_quantity(out, key, coded, signal, value);
    }
}
