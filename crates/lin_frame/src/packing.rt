//! Values of signals into the data bytes of a frame and back (ISO 17987-3, signal mapping; LIN
//! 2.2A, 2.2).

ghost use Rattle.std.specs.Prelude.{◌≡◌, ◌/◌, ◌%◌, ◌+◌, ◌<◌, ◌≤◌, ℕ, IsTrue, if◌then◌else◌};
ghost use Rattle.std.specs.Prelude.{length, nat_lt, slice_index, slice_index_or, take};
ghost use Rattle.std.specs.Int.{to_le_bytes, w64};
ghost use Rattle.std.specs.Option.{option_map_or};
ghost use Rattle.lin_frame.specs.Frame.{bit};
ghost use Rattle.lin_frame.specs.Bits.{all_fit, data_bit, frame_bit, is_good_layout, lies_in};
ghost use Rattle.lin_frame.specs.Bits.{packed_bytes, padded_bytes, unpacked_value, value_bit};

use crate::bits::{put_bits, take_bits};
use crate::layout::{Layout, Place};
use crate::value::{Value, ValueBytes};
use arrayvec::ArrayVec;

/// The bytes in a word, the first lowest.
fn word_of_bytes(bytes: &[u8]) -> u64
    requires { length bytes.now ≤ 8 }
    ensures { (b : ℕ) → b < 64 → bit result b ≡ data_bit bytes.now b }
{
    let mut word = 0;
    for (index, byte) in bytes.iter().enumerate() {
        word |= u64::from(*byte) << (8 * index);
    }
    word
}

/// The bits of a value in a word.
fn word_of_value(value: &Value) -> u64
    ensures { (b : ℕ) → b < 64 → bit result b ≡ value_bit value.now b }
{
    match value {
        Value::Scalar(number) => u64::from(*number),
        Value::Bytes(bytes) => word_of_bytes(bytes.as_slice()),
    }
}

/// A frame without signals: all bits are 1 but those of the protected identifier.
fn empty_frame(pid: Option<u8>) -> u64
    ensures { (b : ℕ) → b < 64
        → bit result b ≡ option_map_or (λ own. if nat_lt b 8 then bit own b else 1) pid 1 }
{
    match pid {
        Some(own) => put_bits(u64::MAX, 0, 8, u64::from(own)),
        None => u64::MAX,
    }
}

fn frame_word(layout: &Layout, values: &[Value]) -> u64
    requires good { IsTrue (is_good_layout layout.now) }
    requires fit { IsTrue (all_fit layout.now.places values.now) }
    ensures { (b : ℕ) → b < 64 → bit result b ≡ frame_bit layout.now values.now b }
{
    let mut word = empty_frame(layout.pid);
    for (place, value) in layout.places.as_slice().iter().zip(values) {
        word = put_bits(word, place.offset, place.size, word_of_value(value));
    }
    word
}

/// The data bytes of a frame with these values in the layout's places, one value per place; 0xFF
/// after the frame's length. Bits that no signal uses are 1.
pub fn pack(layout: &Layout, values: &[Value]) -> [u8; 8]
    requires good { IsTrue (is_good_layout layout.now) }
    requires fit { IsTrue (all_fit layout.now.places values.now) }
    ensures { result ≡ padded_bytes layout.now.len (packed_bytes layout.now values.now) }
{
    frame_word(layout, values).to_le_bytes()
}

/// The `len` lowest bytes of a word, the lowest first.
fn bytes_of_word(word: u64, len: u8) -> ValueBytes
    requires { len ≤ 8 }
    ensures { result ≡ take len (to_le_bytes w64 word) }
{
    let mut bytes = ArrayVec::new();
    for byte in &word.to_le_bytes()[..usize::from(len)] {
        bytes.push(*byte);
    }
    ValueBytes::new(bytes)
}

/// The value in a place of a frame's data bytes.
fn value_in(place: Place, bytes: &[u8; 8]) -> Value
    requires { IsTrue (lies_in 0 64 place) }
    ensures { result ≡ unpacked_value place bytes.now }
{
    let word = take_bits(u64::from_le_bytes(*bytes), place.offset, place.size);
    if place.array {
        Value::Bytes(bytes_of_word(word, place.size / 8))
    } else {
        Value::Scalar(word as u16)
    }
}

/// The value in the layout's place with this number, in a frame's data bytes.
pub fn unpack(layout: &Layout, bytes: &[u8; 8], place: usize) -> Value
    requires good { IsTrue (is_good_layout layout.now) }
    requires in_range { place < length layout.now.places }
    ensures { (none : Place)
        → result ≡ unpacked_value (slice_index_or layout.now.places place none) bytes.now }
{
    value_in(layout.places.as_slice()[place], bytes)
}
