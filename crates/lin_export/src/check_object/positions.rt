//! The places of declarations in an object.

ghost use Rattle.std.specs.Prelude.{option_map};
ghost use Rattle.lin_text.specs.Written.{Grows};
ghost use Rattle.lin_export.specs.ClusterObject.{place_member, place_value};
ghost use Rattle.lin_export.specs.Csv.{after_comma};

use crate::json::put_key;
use lin_parts::description::Name;
use lin_text::TextWriter;
use std::io::Write;

/// The line and the column of a name.
fn put_line_and_column<W: Write>(out: &mut TextWriter<'_, W>, name: &Name)
    ensures { Grows W.contents out.old out.new (place_value name.now) }
{
    out.put_byte(b'[');
    out.put_number(name.line);
    out.put_numbered(b',', name.column);
    out.put_byte(b']');
}

/// The place of a declaration's name, if the LDF has the declaration.
pub(super) fn put_place<W: Write>(out: &mut TextWriter<'_, W>, name: Option<&Name>)
    ensures { Grows W.contents out.old out.new
        (after_comma (place_member (option_map (λ n. n.now) name.entry))) }
{
    put_key(out, "place");
    match name {
        Some(name) => put_line_and_column(out, name),
        None => out.put(b"null"),
    }
}
