//! Values of signals.

ghost use Rattle.std.specs.Prelude.{◌≡◌, ◌≤◌, length};

use crate::short::with_zeros;
use arrayvec::ArrayVec;
use std::marker::Model;

/// The most bytes of an array signal (ISO 17987-3, signals).
const MOST: usize = 8;

/// The bytes of an array signal, at most eight, the lowest first. Contracts see them as a list.
#[derive(Clone, Copy, Debug, PartialEq, Eq)]
pub struct ValueBytes {
    bytes: [u8; MOST],
    len: u8,
}

impl Model for ValueBytes {
    ghost use Rattle.std.specs.Prelude.{List, ℕ, length, take};
    ghost use Rattle.std.proofs.Common.{ap, ◌∙◌};
    ghost use Rattle.lin_frame.specs.Short.{with_zeros, IsFilledWithZeros};

    ghost Value = { List ℕ };

    ghost view = { λ v. take v.len v.bytes };

    ghost invariant = { λ v. IsFilledWithZeros 8 v.len v.bytes };

    ghost inverse = { λ xs. record { bytes = with_zeros 8 xs; len = length xs } };

    ghost inverse_ok = { λ v h.
        ap (λ n. record { bytes = with_zeros 8 (take v.len v.bytes); len = n }) h.len_is
        ∙ ap (λ bytes. record { bytes = bytes; len = v.len }) h.zeros_after };
}

impl ValueBytes {
    /// These bytes.
    pub fn new(bytes: ArrayVec<u8, 8>) -> ValueBytes
        ensures { result ≡ bytes.items }
    {
        let given = bytes.as_slice();
        ValueBytes {
            bytes: with_zeros(given),
            len: given.len() as u8,
        }
    }

    /// The bytes, the lowest first.
    pub fn as_slice(&self) -> &[u8]
        ensures items { result.now ≡ self.now }
        ensures few { length result.now ≤ 8 }
    {
        &self.bytes[..self.len as usize]
    }
}

/// The value of a signal: a scalar of 1 to 16 bits, or an array of 1 to 8 bytes
/// (ISO 17987-3, signals).
#[derive(Clone, Copy, Debug, PartialEq, Eq)]
pub enum Value {
    Scalar(u16),
    Bytes(ValueBytes),
}
