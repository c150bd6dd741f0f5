//! Words, numbers and lists, as they are written.

ghost use Rattle.std.specs.Prelude.{◌≡◌, ◌++◌, [], if◌then◌else◌};
ghost use Rattle.std.specs.Fmt.{decimal};
ghost use Rattle.lin_text.specs.Written.{Grows};
ghost use Rattle.lin_field.specs.Plain.{text_between, decimals_text, thousandths_text, comma_list, name_text};
ghost use Rattle.lin_field.specs.Plain.{after_commas, number_text};

use lin_parts::description::{Name, Number};
use lin_text::TextWriter;
use std::io::Write;

/// A text between two others.
pub fn put_between<W: Write>(out: &mut TextWriter<'_, W>, before: &str, text: &[u8], after: &str)
    ensures { Grows W.contents out.old out.new (text_between before.now text.now after.now) }
{
    out.put_text(before);
    out.put(text);
    out.put_text(after);
}

/// A number, and what stands after it.
pub fn put_number<W: Write>(out: &mut TextWriter<'_, W>, number: Number, after: &str)
    ensures { Grows W.contents out.old out.new (number_text number ++ after.now) }
{
    out.put_number(number.value);
    out.put_text(after);
}

/// A digit where it or one after it isn't 0.
fn put_digit<W: Write>(out: &mut TextWriter<'_, W>, digit: u32, is_shown: bool)
    ensures { Grows W.contents out.old out.new (if is_shown then decimal digit else []) }
{
    if is_shown {
        out.put_number(digit);
    }
}

/// The thousandths after a point, with no more digits than they need.
fn put_decimals<W: Write>(out: &mut TextWriter<'_, W>, rest: u32)
    ensures { Grows W.contents out.old out.new (decimals_text rest) }
{
    if rest != 0 {
        out.put_byte(b'.');
        out.put_number(rest / 100);
        put_digit(out, rest / 10 % 10, rest % 100 != 0);
        put_digit(out, rest % 10, rest % 10 != 0);
    }
}

/// A number of thousandths.
fn put_decimal<W: Write>(out: &mut TextWriter<'_, W>, number: Number)
    ensures { Grows W.contents out.old out.new (thousandths_text number.value) }
{
    out.put_number(number.value / 1000);
    put_decimals(out, number.value % 1000);
}

/// A number of thousandths, and what stands after it.
pub fn put_thousandths<W: Write>(out: &mut TextWriter<'_, W>, number: Number, after: &str)
    ensures { Grows W.contents out.old out.new (thousandths_text number.value ++ after.now) }
{
    put_decimal(out, number);
    out.put_text(after);
}

/// Names, each after a comma.
pub fn put_more_names<W: Write>(out: &mut TextWriter<'_, W>, names: &[Name])
    ensures { Grows W.contents out.old out.new (after_commas name_text names.now) }
{
    for name in names {
        out.put_text(", ");
        out.put(name.text.as_slice());
    }
}

/// Names with commas between them.
pub fn put_names<W: Write>(out: &mut TextWriter<'_, W>, names: &[Name])
    ensures { Grows W.contents out.old out.new (comma_list name_text names.now) }
{
    if let [first, rest @ ..] = names {
        out.put(first.text.as_slice());
        put_more_names(out, rest);
    }
}

fn put_one<W: Write>(out: &mut TextWriter<'_, W>, number: &Number)
    ensures { Grows W.contents out.old out.new (number_text number.now) }
{
    out.put_number(number.value);
}

fn put_more_numbers<W: Write>(out: &mut TextWriter<'_, W>, numbers: &[Number])
    ensures { Grows W.contents out.old out.new (after_commas number_text numbers.now) }
{
    for number in numbers {
        out.put_text(", ");
        put_one(out, number);
    }
}

/// Numbers with commas between them.
pub fn put_numbers<W: Write>(out: &mut TextWriter<'_, W>, numbers: &[Number])
    ensures { Grows W.contents out.old out.new (comma_list number_text numbers.now) }
{
    if let [first, rest @ ..] = numbers {
        put_one(out, first);
        put_more_numbers(out, rest);
    }
}
