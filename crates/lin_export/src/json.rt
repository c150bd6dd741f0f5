//! Words of JSON (RFC 8259).

ghost use Rattle.std.specs.Prelude.{◌≡◌, ◌∷◌, ◌==◌, ◌||◌, if◌then◌else◌, [], codes, flat_map, map};
ghost use Rattle.lin_text.specs.Written.{Grows};
ghost use Rattle.lin_export.specs.Csv.{after_comma};
ghost use Rattle.lin_export.specs.ClusterObject.{truth};
ghost use Rattle.lin_export.specs.Json.{escaped_bytes, escaped_byte, escaped_text, hex_text, member, object_line};
ghost use Rattle.lin_export.specs.Json.{printable_byte, printable_text, quoted_text, text_value};
ghost use Rattle.lin_export.specs.Jsonl.{number_member};
ghost use Rattle.lin_export.specs.Members.{member_shown};

use lin_text::TextWriter;
use std::io::Write;

/// A member of an object: its key, and its value.
#[derive(Clone, Copy)]
pub enum Member<'a> {
    Null(&'a str),
    Number(&'a str, u64),
    Truth(&'a str, bool),
    /// A text without quotes, backslashes and control characters.
    Text(&'a str, &'a [u8]),
    /// Any text.
    Escaped(&'a str, &'a [u8]),
    /// Any text; null for none.
    Shown(&'a str, &'a [u8]),
    /// Any text, with `?` for each byte that isn't 20 to 7E.
    Printable(&'a str, &'a [u8]),
    /// Bytes as a text of digits.
    Hex(&'a str, &'a [u8]),
}

/// A text between quotes.
pub(crate) fn put_quoted<W: Write>(out: &mut TextWriter<'_, W>, text: &[u8])
    ensures { Grows W.contents out.old out.new (quoted_text text.now) }
{
    out.put_byte(b'"');
    out.put(text);
    out.put_byte(b'"');
}

fn is_escaped(byte: u8) -> bool
    ensures { result ≡ (byte == 34 || byte == 92) }
{
    byte == b'"' || byte == b'\\'
}

/// A byte of a text: a quote and a backslash after a backslash, a control character as its number.
fn put_escaped_byte<W: Write>(out: &mut TextWriter<'_, W>, byte: u8)
    ensures { Grows W.contents out.old out.new (escaped_byte byte) }
{
    if is_escaped(byte) {
        out.put(&[b'\\', byte]);
    } else if byte < 32 {
        out.put(b"\\u00");
        out.put_hex_byte(byte);
    } else {
        out.put_byte(byte);
    }
}

/// The bytes of any text.
pub(crate) fn put_escaped<W: Write>(out: &mut TextWriter<'_, W>, text: &[u8])
    ensures { Grows W.contents out.old out.new (escaped_bytes text.now) }
{
    for byte in text {
        put_escaped_byte(out, *byte);
    }
}

/// Any text between quotes.
fn put_escaped_text<W: Write>(out: &mut TextWriter<'_, W>, text: &[u8])
    ensures { Grows W.contents out.old out.new (escaped_text text.now) }
{
    out.put_byte(b'"');
    put_escaped(out, text);
    out.put_byte(b'"');
}

/// Any text between quotes; null for none.
pub(crate) fn put_text_value<W: Write>(out: &mut TextWriter<'_, W>, text: &[u8])
    ensures { Grows W.contents out.old out.new (text_value text.now) }
{
    if text.is_empty() {
        out.put(b"null");
    } else {
        put_escaped_text(out, text);
    }
}

/// A byte of a text, `?` for one that isn't 20 to 7E.
fn put_printable_byte<W: Write>(out: &mut TextWriter<'_, W>, byte: u8)
    ensures { Grows W.contents out.old out.new (escaped_byte (printable_byte byte)) }
{
    if 32 <= byte && byte <= 126 {
        put_escaped_byte(out, byte);
    } else {
        out.put_byte(b'?');
    }
}

/// A text between quotes, with `?` for each byte that isn't 20 to 7E.
pub fn put_printable<W: Write>(out: &mut TextWriter<'_, W>, text: &[u8])
    ensures { Grows W.contents out.old out.new (printable_text text.now) }
{
    out.put_byte(b'"');
    for byte in text {
        put_printable_byte(out, *byte);
    }
    out.put_byte(b'"');
}

fn put_truth<W: Write>(out: &mut TextWriter<'_, W>, is: bool)
    ensures { Grows W.contents out.old out.new (truth is) }
{
    if is {
        out.put(b"true");
    } else {
        out.put(b"false");
    }
}

/// Bytes as a text of digits.
fn put_hex_text<W: Write>(out: &mut TextWriter<'_, W>, bytes: &[u8])
    ensures { Grows W.contents out.old out.new (hex_text bytes.now) }
{
    out.put_byte(b'"');
    out.put_hex(bytes);
    out.put_byte(b'"');
}

/// A comma, and a key with its colon.
pub fn put_key<W: Write>(out: &mut TextWriter<'_, W>, key: &str)
    ensures { Grows W.contents out.old out.new (after_comma (member key.now [])) }
{
    out.put(b",\"");
    out.put_text(key);
    out.put(b"\":");
}

/// A comma and a member.
pub fn put_member<W: Write>(out: &mut TextWriter<'_, W>, one: Member<'_>)
    ensures { Grows W.contents out.old out.new (after_comma (member_shown one.entry)) }
{
    match one {
        Member::Null(key) => {
            put_key(out, key);
            out.put(b"null");
        }
        Member::Number(key, number) => {
            put_key(out, key);
            out.put_number(number);
        }
        Member::Truth(key, is) => {
            put_key(out, key);
            put_truth(out, is);
        }
        Member::Text(key, text) => {
            put_key(out, key);
            put_quoted(out, text);
        }
        Member::Escaped(key, text) => {
            put_key(out, key);
            put_escaped_text(out, text);
        }
        Member::Shown(key, text) => {
            put_key(out, key);
            put_text_value(out, text);
        }
        Member::Printable(key, text) => {
            put_key(out, key);
            put_printable(out, text);
        }
        Member::Hex(key, bytes) => {
            put_key(out, key);
            put_hex_text(out, bytes);
        }
    }
}

/// Members, each after a comma.
pub fn put_members<W: Write>(out: &mut TextWriter<'_, W>, members: &[Member<'_>])
    ensures { Grows W.contents out.old out.new (flat_map after_comma (map member_shown members.now)) }
{
    for one in members {
        put_member(out, *one);
    }
}

/// Puts what an object begins with: its first member, a text.
pub fn put_first<W: Write>(out: &mut TextWriter<'_, W>, key: &str, text: &[u8])
    ensures { Grows W.contents out.old out.new (123 ∷ member key.now (quoted_text text.now)) }
{
    out.put(b"{\"");
    out.put_text(key);
    out.put(b"\":");
    put_quoted(out, text);
}

/// The beginning of an object whose first member is its number.
pub(crate) fn put_numbered_first<W: Write>(out: &mut TextWriter<'_, W>, number: u64)
    ensures { Grows W.contents out.old out.new (123 ∷ number_member number) }
{
    out.put(b"{\"number\":");
    out.put_number(number);
}

/// A comma, and the beginning of a member that is a list.
pub(crate) fn put_list<W: Write>(out: &mut TextWriter<'_, W>, key: &str)
    ensures { Grows W.contents out.old out.new (after_comma (member key.now (91 ∷ []))) }
{
    put_key(out, key);
    out.put_byte(b'[');
}

/// What a line begins with: its type.
pub fn put_type<W: Write>(out: &mut TextWriter<'_, W>, kind: &str)
    ensures { Grows W.contents out.old out.new (123 ∷ member (codes "type") (quoted_text kind.now)) }
{
    put_first(out, "type", kind.as_bytes());
}

/// A line: an object of a type with members.
pub(crate) fn put_object_line<W: Write>(
    out: &mut TextWriter<'_, W>,
    kind: &str,
    members: &[Member<'_>],
)
    ensures { Grows W.contents out.old out.new
        (object_line kind.now (map member_shown members.now)) }
{
    put_type(out, kind);
    put_members(out, members);
    out.put(b"}\n");
}

/// The comma before a value or a member of a list. The first one has none.
pub fn put_separator<W: Write>(out: &mut TextWriter<'_, W>, place: usize)
    ensures { Grows W.contents out.old out.new (if place == 0 then [] else after_comma []) }
{
    if place > 0 {
        out.put_byte(b',');
    }
}
