//! Runs of bits in a 64-bit word, bit 0 the lowest.

ghost use Rattle.std.specs.Prelude.{◌≡◌, ◌&&◌, ◌+◌, ◌-◌, ◌/◌, ◌%◌, ◌^◌, ◌<◌, ◌≤◌, ℕ};
ghost use Rattle.std.specs.Prelude.{if◌then◌else◌, nat_le, nat_lt};
ghost use Rattle.lin_frame.specs.Frame.{bit};

/// The word whose `size` lowest bits are 1.
fn low_ones(size: u8) -> u64
    requires some { 1 ≤ size }
    requires inside { size ≤ 64 }
    ensures { result ≡ 2 ^ size - 1 }
{
    u64::MAX >> (64 - size)
}

/// The word with the lowest bits of `value` in the `size` bits from `offset` on.
pub fn put_bits(word: u64, offset: u8, size: u8, value: u64) -> u64
    requires some { 1 ≤ size }
    requires inside { offset + size ≤ 64 }
    ensures { (b : ℕ) → b < 64
        → bit result b ≡ (if nat_le offset b
        && nat_lt b (offset + size) then bit value (b - offset) else bit word b) }
{
    let mask = low_ones(size) << offset;
    (word & !mask) | ((value << offset) & mask)
}

/// The `size` bits of the word from `offset` on.
pub fn take_bits(word: u64, offset: u8, size: u8) -> u64
    requires some { 1 ≤ size }
    requires inside { offset + size ≤ 64 }
    ensures { result ≡ word / 2 ^ offset % 2 ^ size }
{
    (word >> offset) & low_ones(size)
}
