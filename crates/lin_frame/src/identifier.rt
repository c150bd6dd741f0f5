//! Identifiers and protected identifiers of frames.

ghost use Rattle.std.specs.Prelude.{◌≡◌, ◌≢◌, ℕ, ◌<◌, ◌↔◌, IfNone, IfSome, IsSome};
ghost use Rattle.lin_frame.specs.Frame.{pid};

use std::marker::Model;

/// An identifier of 6 bits (ISO 17987-3, frame header): 0 to 59 carry signals, 60 is the master
/// request, 61 the slave response, 62 and 63 are reserved. Contracts see it as its number.
#[derive(Clone, Copy, Debug, PartialEq, Eq)]
pub struct FrameId {
    number: u8,
}

impl Model for FrameId {
    ghost use Rattle.std.specs.Prelude.{ℕ, ◌<◌};

    ghost Value = { ℕ };

    ghost view = { λ i. i.number };

    ghost invariant = { λ i. i.number < 64 };

    ghost inverse = { λ n. record { number = n } };
}

impl FrameId {
    /// The identifier with this number, or `None` above 63.
    pub fn new(number: u8) -> Option<FrameId>
        ensures some { IsSome result ↔ (number < 64) }
        ensures value { IfSome result (λ i. i ≡ number) }
    {
        if number < 64 {
            Some(FrameId { number })
        } else {
            None
        }
    }

    /// The identifier's number, 0 to 63.
    pub fn value(self) -> u8
        ensures value { result ≡ self }
        ensures small { result < 64 }
    {
        self.number
    }
}

/// The protected identifier: the identifier in bits 0 to 5, and above it the two parity bits (LIN
/// 2.2A, 2.3.1).
pub fn protected(id: FrameId) -> u8
    ensures { result ≡ pid id }
{
    let id = id.value();
    let even = (id ^ (id >> 1) ^ (id >> 2) ^ (id >> 4)) & 1;
    let odd = !((id >> 1) ^ (id >> 3) ^ (id >> 4) ^ (id >> 5)) & 1;
    id | (even << 6) | (odd << 7)
}

/// The identifier that this byte protects, or `None` where a parity bit is wrong.
pub fn unprotect(byte: u8) -> Option<FrameId>
    ensures some { IfSome result (λ i. (i < 64) × (pid i ≡ byte)) }
    ensures none { IfNone result ((i : ℕ) → i < 64 → pid i ≢ byte) }
{
    let id = FrameId {
        number: byte & 0x3F,
    };
    if protected(id) == byte {
        Some(id)
    } else {
        None
    }
}
