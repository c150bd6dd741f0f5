//! Texts read whole, up to a limit.

ghost use Rattle.lin_text.specs.Read.{ReadsWhole};

use std::alloc::Global;
use std::io::Read;

/// Why a text isn't read.
#[derive(Clone, Copy, Debug, Drop)]
pub enum ReadFault {
    /// The text is longer than the limit.
    TooLong,
    /// The reader reported an error; it was asked no second time.
    ReadFailed,
    OutOfMemory,
}

/// The bytes that a reader gives up to its end, at most `limit`, by at most `limit + 1` reads of
/// 64 KiB. (A library loop would ask an interrupted reader again.)
///
/// # Errors
/// - `TooLong` where there are more;
/// - `ReadFailed` where the reader reports an error, whatever its kind;
/// - `OutOfMemory`.
pub fn read_whole<R: Read>(
    alloc: Global,
    reader: &mut R,
    limit: usize,
) -> Result<Vec<u8>, ReadFault>
    ensures { ReadsWhole limit (λ v. v.items) result (R.remaining reader.old) }
{
    let mut bytes = Vec::new(alloc);
    let mut buffer = [0u8; 65_536];
    for _ in 0..=limit {
        let Ok(count) = reader.read(&mut buffer) else {
            return Err(ReadFault::ReadFailed);
        };
        if count == 0 {
            return Ok(bytes);
        }
        if count > limit - bytes.len() {
            return Err(ReadFault::TooLong);
        }
        if bytes.extend_from_slice(&buffer[..count]).is_err() {
            return Err(ReadFault::OutOfMemory);
        }
    }
    Err(ReadFault::TooLong)
}
