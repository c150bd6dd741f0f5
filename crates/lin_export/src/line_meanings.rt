//! What values mean, in lines.

ghost use Rattle.std.specs.Fmt.{decimal};
ghost use Rattle.lin_log.specs.CallerTexts.{seen_text};
ghost use Rattle.lin_text.specs.Written.{Grows};
ghost use Rattle.lin_values.specs.Meaning.{meant};
ghost use Rattle.lin_values.specs.Shown.{shown, unit_shown};
ghost use Rattle.lin_values.specs.Spelled.{in_quotes};

use lin_log::put_seen;
use lin_text::TextWriter;
use lin_values::{Meaning, put_decimal};
use std::io::Write;

fn put_number<W: Write>(out: &mut TextWriter<'_, W>, number: u64)
    ensures { Grows W.contents out.old out.new (seen_text (decimal number)) }
{
    out.put_number(number);
}

/// A unit after a space, if there is one.
fn put_unit<W: Write>(out: &mut TextWriter<'_, W>, unit: &[u8])
    ensures { Grows W.contents out.old out.new (seen_text (unit_shown unit.now)) }
{
    if !unit.is_empty() {
        out.put_byte(b' ');
        put_seen(out, unit);
    }
}

/// Characters in quotes.
fn put_letters<W: Write>(out: &mut TextWriter<'_, W>, letters: &[u8])
    ensures { Grows W.contents out.old out.new (seen_text (in_quotes letters.now)) }
{
    out.put_byte(b'"');
    put_seen(out, letters);
    out.put_byte(b'"');
}

/// Puts the text of a meaning into a line, with `?` in the place of each LF.
pub fn put_line_meaning<W: Write>(out: &mut TextWriter<'_, W>, meaning: &Meaning<'_>)
    ensures { Grows W.contents out.old out.new (seen_text (shown (meant meaning.now))) }
{
    match meaning {
        Meaning::Named(text) => put_seen(out, text),
        Meaning::Number(number) => put_number(out, *number),
        Meaning::Physical(value, unit) => {
            put_decimal(out, value.decimal());
            put_unit(out, unit);
        }
        Meaning::Digits(digits) => put_seen(out, digits.as_slice()),
        Meaning::Letters(letters) => put_letters(out, letters.as_slice()),
    }
}
