//! Making the answer to a header.

ghost use Rattle.std.specs.Prelude.{◌≡◌, ◌≤◌, length};
ghost use Rattle.lin_frame.specs.Frame.{answer_of};

use crate::response::Answer;
use crate::sums::{SumKind, checksum};
use arrayvec::ArrayVec;

/// The answer with these 1 to 8 data bytes: after them stands their checksum.
pub fn answer(kind: SumKind, pid: u8, bytes: &[u8]) -> Answer
    requires some { 1 ≤ length bytes.now }
    requires few { length bytes.now ≤ 8 }
    ensures { result ≡ answer_of kind pid bytes.now }
{
    let mut answer_bytes = ArrayVec::new();
    for byte in bytes {
        answer_bytes.push(*byte);
    }
    answer_bytes.push(checksum(kind, pid, bytes));
    Answer::new(answer_bytes)
}
