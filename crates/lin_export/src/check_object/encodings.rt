//! The signal encodings of an LDF in an object.

ghost use Rattle.std.specs.Prelude.{map, option_map};
ghost use Rattle.lin_text.specs.Written.{Grows};
ghost use Rattle.lin_export.specs.CheckObject.{encodings_member};
ghost use Rattle.lin_export.specs.ClusterObject.{encoding_object, item_object};
ghost use Rattle.lin_export.specs.Csv.{after_comma};
ghost use Rattle.lin_export.specs.Json.{with_commas, member, quoted_text};
ghost use Rattle.lin_values.specs.declared.codings.Item.TheVariants.{Logical, Physical};
ghost use Rattle.lin_values.specs.Shown.{decimal_shown};

use super::positions::put_place;
use crate::json::{Member, put_first, put_key, put_list, put_member, put_members, put_separator};
use lin_text::TextWriter;
use lin_values::{CodingType, Coefficient, Item, PlacedItem, put_decimal};
use std::io::Write;

/// A scale or an offset as a text.
fn put_coefficient<W: Write>(out: &mut TextWriter<'_, W>, key: &str, coefficient: &Coefficient)
    ensures { Grows W.contents out.old out.new
        (after_comma (member key.now (quoted_text (decimal_shown coefficient.now)))) }
{
    put_key(out, key);
    out.put_byte(b'"');
    put_decimal(out, coefficient.decimal());
    out.put_byte(b'"');
}

/// A value with its text.
fn put_logical<W: Write>(out: &mut TextWriter<'_, W>, value: u64, text: &[u8])
    ensures { Grows W.contents out.old out.new (item_object (Logical value text.now)) }
{
    put_first(out, "kind", b"logical");
    put_members(
        out,
        &[Member::Number("value", value), Member::Shown("text", text)],
    );
    out.put_byte(b'}');
}

/// A range with its scale, offset and unit.
fn put_physical<W: Write>(
    out: &mut TextWriter<'_, W>,
    min: u64,
    max: u64,
    scale: &Coefficient,
    offset: &Coefficient,
    unit: &[u8],
)
    ensures { Grows W.contents out.old out.new
        (item_object (Physical min max scale.now offset.now unit.now)) }
{
    put_first(out, "kind", b"physical");
    put_members(
        out,
        &[Member::Number("low", min), Member::Number("high", max)],
    );
    put_coefficient(out, "scale", scale);
    put_coefficient(out, "offset", offset);
    put_member(out, Member::Shown("unit", unit));
    out.put_byte(b'}');
}

fn put_item<W: Write>(out: &mut TextWriter<'_, W>, item: &Item)
    ensures { Grows W.contents out.old out.new (item_object item.now) }
{
    match item {
        Item::Logical { value, text } => put_logical(out, *value, text.as_slice()),
        Item::Physical {
            min,
            max,
            scale,
            offset,
            unit,
        } => put_physical(out, *min, *max, scale, offset, unit.as_slice()),
        Item::Bcd => out.put(b"{\"kind\":\"bcd\"}"),
        Item::Ascii => out.put(b"{\"kind\":\"ascii\"}"),
    }
}

fn put_all_items<W: Write>(out: &mut TextWriter<'_, W>, items: &[PlacedItem])
    ensures { Grows W.contents out.old out.new
        (with_commas (map (λ p. item_object p.item) items.now)) }
{
    for place in 0..items.len() {
        put_separator(out, place);
        put_item(out, &items[place].item);
    }
}

fn put_encoding<W: Write>(out: &mut TextWriter<'_, W>, encoding: &CodingType)
    ensures { Grows W.contents out.old out.new (encoding_object encoding.now) }
{
    put_first(out, "name", encoding.name.text.as_slice());
    put_list(out, "items");
    put_all_items(out, encoding.items.as_slice());
    out.put_byte(b']');
    put_place(out, Some(&encoding.name));
    out.put_byte(b'}');
}

fn put_all_encodings<W: Write>(out: &mut TextWriter<'_, W>, encodings: &[CodingType])
    ensures { Grows W.contents out.old out.new (with_commas (map encoding_object encodings.now)) }
{
    for place in 0..encodings.len() {
        put_separator(out, place);
        put_encoding(out, &encodings[place]);
    }
}

/// The encodings, if they are read.
pub(super) fn put_encodings<W: Write>(out: &mut TextWriter<'_, W>, encodings: Option<&[CodingType]>)
    ensures { Grows W.contents out.old out.new
        (after_comma (encodings_member (option_map (λ e. e.now) encodings.entry))) }
{
    match encodings {
        Some(encodings) => {
            put_list(out, "encodings");
            put_all_encodings(out, encodings);
            out.put_byte(b']');
        }
        None => put_member(out, Member::Null("encodings")),
    }
}
