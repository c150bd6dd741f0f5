//! The answer to a header.

ghost use Rattle.std.specs.Prelude.{◌≡◌, ◌≤◌, ℕ, length, slice_index, take};

use crate::short::with_zeros;
use arrayvec::ArrayVec;
use std::marker::Model;

/// The most bytes of an answer: eight of data and the checksum (ISO 17987-3, frame structure).
const MOST: usize = 9;

/// An answer, which is what follows a header (ISO 17987-3, frame structure): the data bytes and
/// the checksum, at most nine bytes. Contracts see it as a list.
#[derive(Clone, Copy, Debug, PartialEq, Eq)]
pub struct Answer {
    bytes: [u8; MOST],
    len: u8,
}

impl Model for Answer {
    ghost use Rattle.std.specs.Prelude.{List, ℕ, length, take};
    ghost use Rattle.std.proofs.Common.{ap, ◌∙◌};
    ghost use Rattle.lin_frame.specs.Short.{with_zeros, IsFilledWithZeros};

    ghost Value = { List ℕ };

    ghost view = { λ a. take a.len a.bytes };

    ghost invariant = { λ a. IsFilledWithZeros 9 a.len a.bytes };

    ghost inverse = { λ xs. record { bytes = with_zeros 9 xs; len = length xs } };

    ghost inverse_ok = { λ a h.
        ap (λ n. record { bytes = with_zeros 9 (take a.len a.bytes); len = n }) h.len_is
        ∙ ap (λ bytes. record { bytes = bytes; len = a.len }) h.zeros_after };
}

impl Answer {
    /// These bytes.
    pub fn new(bytes: ArrayVec<u8, 9>) -> Answer
        ensures { result ≡ bytes.items }
    {
        let given = bytes.as_slice();
        Answer {
            bytes: with_zeros(given),
            len: given.len() as u8,
        }
    }

    /// The bytes, the checksum last.
    pub fn as_slice(&self) -> &[u8]
        ensures items { result.now ≡ self.now }
        ensures few { length result.now ≤ 9 }
    {
        &self.bytes[..self.len as usize]
    }

    /// Its first eight bytes, which are the data bytes of a frame of eight; zeros after fewer.
    pub fn data(&self) -> [u8; 8]
        ensures each { (k : ℕ) → slice_index result k ≡ slice_index (take 8 self.now) k }
        ensures whole { 8 ≤ length self.now → result ≡ take 8 self.now }
    {
        let mut data = [0; 8];
        data.copy_from_slice(&self.bytes[..8]);
        data
    }
}
