//! Texts as one field of a line.

ghost use Rattle.std.specs.Prelude.{◌≡◌};
ghost use Rattle.lin_text.specs.Written.{Grows};
ghost use Rattle.lin_tool.specs.PageFields.{page_byte, field, guarded_text, guarded_byte, is_unescaped};

use lin_text::TextWriter;
use std::io::Write;

/// Whether a byte of a text stands for itself.
fn is_plain(byte: u8) -> bool
    ensures { result ≡ is_unescaped byte }
{
    32 < byte && byte < 127 && byte != b'%' && byte != b'&' && byte != b'<'
}

fn put_escaped<W: Write>(out: &mut TextWriter<'_, W>, byte: u8)
    ensures { Grows W.contents out.old out.new (page_byte byte) }
{
    if is_plain(byte) {
        out.put_byte(byte);
    } else {
        out.put_byte(b'%');
        out.put_hex_byte(byte);
    }
}

/// A text as a field: `"`, and the bytes, of which all but printable ones and `%`, `&` and `<` are
/// `%` and two digits.
pub(crate) fn put_field<W: Write>(out: &mut TextWriter<'_, W>, text: &[u8])
    ensures { Grows W.contents out.old out.new (field text.now) }
{
    out.put_byte(b'"');
    for byte in text {
        put_escaped(out, *byte);
    }
}

/// A byte of a cluster's lines.
fn put_guarded_byte<W: Write>(out: &mut TextWriter<'_, W>, byte: u8)
    ensures { Grows W.contents out.old out.new (guarded_byte byte) }
{
    if byte == b'<' {
        out.put_text("%3C");
    } else {
        out.put_byte(byte);
    }
}

/// The lines of a cluster, in which no `<` stands, as none does in a name of an LDF; one that did
/// would be `%3C`.
pub(crate) fn put_guarded<W: Write>(out: &mut TextWriter<'_, W>, text: &[u8])
    ensures { Grows W.contents out.old out.new (guarded_text text.now) }
{
    for byte in text {
        put_guarded_byte(out, *byte);
    }
}
