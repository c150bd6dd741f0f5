//! A state that answers how long lines are.

ghost use Rattle.std.specs.Prelude.{◌≡◌, ◌++◌, ◌-◌, ◌∷◌, [], ℕ, codes, length, min, option_map, take};
ghost use Rattle.std.specs.Fmt.{decimal};
ghost use Rattle.std.specs.Option.{option_map_or};
ghost use Rattle.lin_text.specs.Written.{Grows, WritesText};

use lin_live::{Answering, Fault};
use lin_text::{TextBuffer, TextWriter, WriteFailed};
use std::alloc::Global;
use std::io::Write;

/// The first four bytes of a line and its length, or `long` where it is too long.
fn put_length<W: Write>(out: &mut TextWriter<'_, W>, line: Option<&[u8]>)
    ensures { Grows W.contents out.old out.new
        (option_map_or (λ l. take (min (length l) 4) l ++ decimal (length l)) (option_map (λ l. l.now) line.entry)
        (codes "long")) }
{
    match line {
        Some(line) => {
            out.put(&line[..line.len().min(4)]);
            out.put_number(line.len());
        }
        None => out.put_text("long"),
    }
}

fn write_length<W: Write>(
    writer: &mut W,
    buffer: &mut TextBuffer,
    line: Option<&[u8]>,
) -> Result<(), WriteFailed>
    ensures { WritesText (W.contents writer.old) (W.contents writer.new) result
        (option_map_or (λ l. take (min (length l) 4) l ++ decimal (length l)) (option_map (λ l. l.now) line.entry)
        (codes "long") ++ 10 ∷ []) }
{
    let mut out = TextWriter::new(writer, buffer);
    put_length(&mut out, line);
    out.put_byte(b'\n');
    out.finish()
}

/// Answers a line by its first four bytes and its length, and one that is too long by `long`.
#[derive(Drop)]
pub struct Lengths {
    /// For how many lines there is a place.
    pub places: usize,
}

impl Answering for Lengths {
    ghost State = { ℕ };

    ghost state = { λ lengths. lengths.places };

    ghost reply = { λ places line. (
      places - 1,
      option_map_or (λ l. take (min (length l) 4) l ++ decimal (length l)) line (codes "long") ++ 10 ∷ [],
    ) };

    ghost is_full = { λ places line. places ≡ 0 };

    fn answer<W: Write>(
        &mut self,
        _alloc: Global,
        line: Option<&[u8]>,
        writer: &mut W,
        buffer: &mut TextBuffer,
    ) -> Result<(), Fault> {
        if self.places == 0 {
            return Err(Fault::LogFull);
        }
        self.places -= 1;
        match write_length(writer, buffer, line) {
            Ok(()) => Ok(()),
            Err(_) => Err(Fault::WriteFailed),
        }
    }
}
