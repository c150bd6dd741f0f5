//! Places of lines.

ghost use Rattle.std.specs.Prelude.{◌≡◌};
ghost use Rattle.lin_text.specs.Written.{Grows};
ghost use Rattle.lin_bench.specs.Files.{place_number_text};
ghost use Rattle.lin_bench.specs.Written.{line_place};

use crate::files::{ScriptFile, file_name};
use lin_text::TextWriter;
use std::io::Write;

/// Where a line of a bench script is.
#[derive(Clone, Copy, Debug, PartialEq)]
pub struct LinePlace {
    /// The number of the file that the line is in, counted from 1 among those that the script includes; 0 for
    /// the script's own one.
    pub file: usize,
    /// The number of the line, counted from 1.
    pub line: u64,
    /// The number of the line of the script's own file: of this line, or of the one by which it is included.
    pub own: u64,
    /// The number of the test that the line is in, counted from 1; 0 if it is in none.
    pub test: usize,
}

/// The place of the line of the script's own file with a number. It is in no test.
pub(crate) fn line_place(line: u64) -> LinePlace
    ensures { result ≡ line_place line }
{
    LinePlace {
        file: 0,
        line,
        own: line,
        test: 0,
    }
}

/// Puts the number of a line, in a file that the script includes after the name of the file: `LINE` or
/// `FILE:LINE`.
pub fn put_place_number<W: Write>(
    out: &mut TextWriter<'_, W>,
    files: &[ScriptFile],
    place: LinePlace,
)
    ensures { Grows W.contents out.old out.new (place_number_text files.now place) }
{
    if place.file > 0 {
        out.put(file_name(b"", files, place.file));
        out.put_text(":");
    }
    out.put_number(place.line);
}
