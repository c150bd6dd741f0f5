//! Texts of the caller's in lines.

ghost use Rattle.std.specs.Prelude.{◌≡◌, flat_map};
ghost use Rattle.lin_log.specs.CallerTexts.{seen_after, seen_byte, seen_text, seen_texts};
ghost use Rattle.lin_log.specs.Laws.{is_quiet};
ghost use Rattle.lin_text.specs.Written.{Grows};

use lin_text::{Text, TextWriter};
use memchr::memchr;
use std::io::Write;

fn seen(byte: u8) -> u8
    ensures { result ≡ seen_byte byte }
{
    if byte == b'\n' { b'?' } else { byte }
}

fn put_each_seen<W: Write>(out: &mut TextWriter<'_, W>, text: &[u8])
    ensures { Grows W.contents out.old out.new (seen_text text.now) }
{
    for byte in text {
        out.put_byte(seen(*byte));
    }
}

/// Whether a text has no LF.
fn is_one_line(text: &[u8]) -> bool
    ensures { result ≡ is_quiet text.now }
{
    memchr(b'\n', text).is_none()
}

/// Puts a text of the caller's into a line, with `?` in the place of each LF.
pub fn put_seen<W: Write>(out: &mut TextWriter<'_, W>, text: &[u8])
    ensures { Grows W.contents out.old out.new (seen_text text.now) }
{
    if is_one_line(text) {
        out.put(text);
    } else {
        put_each_seen(out, text);
    }
}

fn put_all_seen<W: Write>(out: &mut TextWriter<'_, W>, gap: &str, texts: &[Text])
    ensures { Grows W.contents out.old out.new (flat_map (seen_after gap.now) texts.now) }
{
    for text in texts {
        out.put_text(gap);
        put_seen(out, text.as_slice());
    }
}

/// Puts texts of the caller's into a line, with what stands between two.
pub fn put_texts<W: Write>(out: &mut TextWriter<'_, W>, gap: &str, texts: &[Text])
    ensures { Grows W.contents out.old out.new (seen_texts gap.now texts.now) }
{
    match texts {
        [] => {}
        [first, rest @ ..] => {
            put_seen(out, first.as_slice());
            put_all_seen(out, gap, rest);
        }
    }
}
