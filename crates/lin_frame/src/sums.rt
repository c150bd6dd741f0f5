//! Checksums (ISO 17987-3, checksum; LIN 2.2A, 2.3.1.5).

ghost use Rattle.std.specs.Prelude.{◌≡◌, ℕ, ◌+◌, sum};
ghost use Rattle.lin_frame.specs.Frame.{sum_with_carry, checksum_of, is_answer};

/// What a checksum covers.
#[derive(Clone, Copy, Debug, PartialEq, Eq)]
pub enum SumKind {
    /// The data bytes.
    Classic,
    /// The protected identifier and the data bytes.
    Enhanced,
}

fn added(so_far: u8, byte: u8) -> u8
    ensures { (s : ℕ) → sum_with_carry s ≡ so_far → sum_with_carry (s + byte) ≡ result }
{
    let wide = u16::from(so_far) + u16::from(byte);
    if wide >= 256 {
        (wide - 255) as u8
    } else {
        wide as u8
    }
}

fn carried_sum(first: u8, bytes: &[u8]) -> u8
    ensures { result ≡ sum_with_carry (first + sum bytes.now) }
{
    let mut total = first;
    for byte in bytes {
        total = added(total, *byte);
    }
    total
}

/// The checksum: the inverted 8-bit sum with carry of the bytes, and of the protected identifier
/// where it is enhanced.
pub fn checksum(kind: SumKind, pid: u8, bytes: &[u8]) -> u8
    ensures { result ≡ checksum_of kind pid bytes.now }
{
    let first = match kind {
        SumKind::Classic => 0,
        SumKind::Enhanced => pid,
    };
    255 - carried_sum(first, bytes)
}

/// Whether these are `len` data bytes and, after them, their checksum.
pub fn passes(kind: SumKind, pid: u8, len: usize, bytes: &[u8]) -> bool
    ensures { result ≡ is_answer kind pid len bytes.now }
{
    match bytes.split_last() {
        Some((last, data)) => data.len() == len && *last == checksum(kind, pid, data),
        None => false,
    }
}
