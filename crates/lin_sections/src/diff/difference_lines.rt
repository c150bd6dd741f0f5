//! The differences between two LDFs, as lines.

ghost use Rattle.std.specs.Prelude.{◌≡◌, ◌∷◌, [], option_map};
ghost use Rattle.std.specs.List.{list_any};
ghost use Rattle.lin_text.specs.Written.{Grows, WritesText};
ghost use Rattle.lin_sections.specs.Differences.{difference_data};
ghost use Rattle.lin_sections.specs.ListedDifferences.{difference_line, difference_lines, differences_text, lists_class, part};
ghost use Rattle.lin_sections.specs.ListedDifferences.{after_space, file_place, fact_value_word};

use crate::diff::difference::Difference;
use crate::diff::fact::Class;
use lin_parts::Location;
use lin_text::{TextBuffer, TextWriter, WriteFailed};
use std::io::Write;

/// The classes of the differences that are listed.
#[derive(Clone, Copy)]
pub struct Classes {
    pub bytes: bool,
    pub timing: bool,
    pub meaning: bool,
    pub compatible: bool,
    pub names: bool,
}

impl Classes {
    fn has(self, class: Class) -> bool
        ensures { result ≡ lists_class self class }
    {
        match class {
            Class::Bytes => self.bytes,
            Class::Timing => self.timing,
            Class::Meaning => self.meaning,
            Class::Compatible => self.compatible,
            Class::Names => self.names,
        }
    }
}

/// Whether one of the differences has a listed class.
pub fn is_any_listed(differences: &[Difference<'_>], classes: Classes) -> bool
    ensures { result ≡ list_any (λ d. lists_class classes d.class) differences.now }
{
    for difference in differences {
        if classes.has(difference.class) {
            return true;
        }
    }
    false
}

/// Writes a space and a place in a file, or `-` if there is no place.
fn put_place<W: Write>(out: &mut TextWriter<'_, W>, file: &str, place: Option<Location>)
    ensures { Grows W.contents out.old out.new (after_space (file_place file.now place)) }
{
    out.put_byte(b' ');
    match place {
        Some(place) => {
            out.put_text(file);
            out.put_numbered(b':', place.line);
            out.put_numbered(b':', place.column);
        }
        None => out.put_byte(b'-'),
    }
}

/// Writes a space and a word, unless the word is empty.
fn put_part<W: Write>(out: &mut TextWriter<'_, W>, word: &[u8])
    ensures { Grows W.contents out.old out.new (part word.now) }
{
    if !word.is_empty() {
        out.put_byte(b' ');
        out.put(word);
    }
}

/// Writes a space and a value, or `-` if there is no value.
fn put_value<W: Write>(out: &mut TextWriter<'_, W>, value: Option<&[u8]>)
    ensures { Grows W.contents out.old out.new
        (after_space (fact_value_word (option_map (λ v. v.now) value.entry))) }
{
    out.put_byte(b' ');
    match value {
        Some(value) => out.put(value),
        None => out.put_byte(b'-'),
    }
}

fn put_difference<W: Write>(
    out: &mut TextWriter<'_, W>,
    old_file: &str,
    new_file: &str,
    difference: &Difference<'_>,
)
    ensures { Grows W.contents out.old out.new
        (difference_line old_file.now new_file.now (difference_data difference.now)) }
{
    out.put(difference.class.word());
    put_place(out, old_file, difference.old_place);
    put_place(out, new_file, difference.new_place);
    put_part(out, difference.kind.word());
    put_part(out, difference.name);
    put_part(out, difference.label);
    put_part(out, difference.entry);
    out.put_byte(b':');
    put_value(out, difference.old);
    out.put(b" ->");
    put_value(out, difference.new);
    out.put_byte(b'\n');
}

/// Writes the line of a difference if its class is listed.
fn put_if_listed<W: Write>(
    out: &mut TextWriter<'_, W>,
    old_file: &str,
    new_file: &str,
    difference: &Difference<'_>,
    classes: Classes,
)
    ensures { Grows W.contents out.old out.new (difference_lines old_file.now new_file.now classes
        (difference_data difference.now ∷ [])) }
{
    if classes.has(difference.class) {
        put_difference(out, old_file, new_file, difference);
    }
}

fn put_listed<W: Write>(
    out: &mut TextWriter<'_, W>,
    old_file: &str,
    new_file: &str,
    differences: &[Difference<'_>],
    classes: Classes,
)
    ensures { Grows W.contents out.old out.new
        (differences_text old_file.now new_file.now classes differences.now) }
{
    for difference in differences {
        put_if_listed(out, old_file, new_file, difference, classes);
    }
}

/// Writes a line for each difference with a listed class: its class, its places in both files, its subject
/// and its values.
///
/// The lines go through a buffer of fixed size, without an allocation. The writer isn't flushed.
///
/// # Errors
/// `WriteFailed` at the first error of the writer, an interrupted write too, and at the first write
/// of 0 bytes. What was written then is the beginning of the lines.
pub fn write_differences<W: Write>(
    old_file: &str,
    new_file: &str,
    differences: &[Difference<'_>],
    classes: Classes,
    writer: &mut W,
) -> Result<(), WriteFailed>
    ensures { WritesText (W.contents writer.old) (W.contents writer.new) result
        (differences_text old_file.now new_file.now classes differences.now) }
{
    let mut buffer = TextBuffer::empty();
    let mut out = TextWriter::new(writer, &mut buffer);
    put_listed(&mut out, old_file, new_file, differences, classes);
    out.finish()
}
