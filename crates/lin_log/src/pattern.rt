//! Patterns of bytes.

ghost use Rattle.std.specs.Prelude.{flat_map};
ghost use Rattle.lin_log.specs.Words.{byte_word, pattern_word};
ghost use Rattle.lin_text.specs.Written.{Grows};

use lin_text::{Many, TextWriter};
use std::io::Write;

/// Which rows of bytes match: those of these bytes, of which `None` stands for any byte.
#[derive(Drop)]
pub struct Pattern {
    pub bytes: Many<Option<u8>>,
    /// Whether more bytes may follow.
    pub more: bool,
}

/// A byte of a pattern: `..` stands for any byte.
fn put_pattern_byte<W: Write>(out: &mut TextWriter<'_, W>, byte: Option<u8>)
    ensures { Grows W.contents out.old out.new (byte_word byte) }
{
    match byte {
        None => out.put_text(".."),
        Some(byte) => out.put_hex_byte(byte),
    }
}

fn put_pattern_bytes<W: Write>(out: &mut TextWriter<'_, W>, bytes: &[Option<u8>])
    ensures { Grows W.contents out.old out.new (flat_map byte_word bytes.now) }
{
    for byte in bytes {
        put_pattern_byte(out, *byte);
    }
}

/// A pattern as one field, with `*` if more bytes may follow.
pub fn put_pattern<W: Write>(out: &mut TextWriter<'_, W>, pattern: &Pattern)
    ensures { Grows W.contents out.old out.new (pattern_word pattern.now) }
{
    put_pattern_bytes(out, pattern.bytes.as_slice());
    if pattern.more {
        out.put_byte(b'*');
    }
}
