//! Bytes written at once.

ghost use Rattle.lin_text.specs.Written.{WritesText};

use crate::fault::WriteFailed;
use std::io::Write;

/// Writes all of these bytes. The writer isn't flushed.
/// (A library loop would ask an interrupted writer again.)
///
/// # Errors
/// `WriteFailed` at the first error of the writer, an interrupted write too, and at the first write
/// of 0 bytes. What was written then is the beginning of the bytes.
pub fn write_out<W: Write>(writer: &mut W, bytes: &[u8]) -> Result<(), WriteFailed>
    ensures { WritesText (W.contents writer.old) (W.contents writer.new) result bytes.now }
{
    let mut rest = bytes;
    while !rest.is_empty() {
        match writer.write(rest) {
            Ok(0) => return Err(WriteFailed),
            Ok(count) => rest = &rest[count..],
            Err(_) => return Err(WriteFailed),
        }
    }
    Ok(())
}
