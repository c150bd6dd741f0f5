//! Where signals lie in the data bytes of a frame.

ghost use Rattle.std.specs.Prelude.{◌≡◌, ◌+◌, ◌^◌, nat_lt};
ghost use Rattle.std.specs.List.{list_all};
ghost use Rattle.lin_frame.specs.Bits.{all_apart, all_fit, are_apart, fits_place, is_good_layout};
ghost use Rattle.lin_frame.specs.Bits.{has_good_size, lies_in};

use crate::value::Value;
use lin_text::Many;

/// Where a signal lies in a frame: `size` bits from bit `offset` on. An array lies in whole bytes.
#[derive(Clone, Copy, Debug, PartialEq, Eq)]
pub struct Place {
    pub offset: u8,
    pub size: u8,
    pub array: bool,
}

/// Whether the number has at most so many bits.
fn has_at_most(number: u16, bits: u8) -> bool
    ensures { result ≡ nat_lt number (2 ^ bits) }
{
    bits >= 16 || number >> bits == 0
}

impl Place {
    /// Whether the place can hold the value: a scalar below 2 to the place's size in a scalar's
    /// place, an array of as many bits as the place has in an array's place.
    pub fn fits(&self, value: &Value) -> bool
        ensures { result ≡ fits_place self.now value.now }
    {
        match value {
            Value::Scalar(number) => !self.array && has_at_most(*number, self.size),
            Value::Bytes(bytes) => self.array
                && 8 * bytes.as_slice().len() == usize::from(self.size),
        }
    }

    fn has_good_size(&self) -> bool
        ensures { result ≡ has_good_size self.now }
    {
        if self.array {
            self.offset % 8 == 0 && self.size % 8 == 0 && self.size >= 8 && self.size <= 64
        } else {
            self.size >= 1 && self.size <= 16
        }
    }

    /// The bit after the place.
    fn end(&self) -> u16
        ensures { result ≡ self.now.offset + self.now.size }
    {
        u16::from(self.offset) + u16::from(self.size)
    }

    fn lies_in(&self, first: u8, end: u16) -> bool
        ensures { result ≡ lies_in first end self.now }
    {
        self.has_good_size() && self.offset >= first && self.end() <= end
    }

    fn is_apart_from(&self, other: &Place) -> bool
        ensures { result ≡ are_apart self.now other.now }
    {
        self.end() <= u16::from(other.offset) || other.end() <= u16::from(self.offset)
    }
}

fn do_all_lie_in(places: &[Place], first: u8, end: u16) -> bool
    ensures { result ≡ list_all (lies_in first end) places.now }
{
    places.iter().all(|place| place.lies_in(first, end))
}

fn is_apart_from_all(place: &Place, others: &[Place]) -> bool
    ensures { result ≡ list_all (are_apart place.now) others.now }
{
    others.iter().all(|other| place.is_apart_from(other))
}

fn are_all_apart(places: &[Place]) -> bool
    ensures { result ≡ all_apart places.now }
{
    let mut rest = places;
    while let Some((first, others)) = rest.split_first() {
        if !is_apart_from_all(first, others) {
            return false;
        }
        rest = others;
    }
    true
}

/// How signals lie in a frame of `len` data bytes (1 to 8). Where `pid` is given, data byte 0 holds
/// it.
#[derive(Drop)]
pub struct Layout {
    pub len: u8,
    pub pid: Option<u8>,
    pub places: Many<Place>,
}

impl Layout {
    /// Whether a frame can be laid out so: it has 1 to 8 data bytes, and its places lie in them,
    /// share no bit with each other or with data byte 0 where that holds a protected identifier,
    /// and have 1 to 16 bits for a scalar or whole bytes (1 to 8) at a byte border for an array.
    pub fn is_good(&self) -> bool
        ensures { result ≡ is_good_layout self.now }
    {
        let places = self.places.as_slice();
        let first_bit = if self.pid.is_some() { 8 } else { 0 };
        let end = 8 * u16::from(self.len);
        self.len >= 1
            && self.len <= 8
            && do_all_lie_in(places, first_bit, end)
            && are_all_apart(places)
    }

    /// Whether there is one value per place, which the place can hold.
    pub fn fits(&self, values: &[Value]) -> bool
        ensures { result ≡ all_fit self.now.places values.now }
    {
        let places = self.places.as_slice();
        if places.len() != values.len() {
            return false;
        }
        for (place, value) in places.iter().zip(values) {
            if !place.fits(value) {
                return false;
            }
        }
        true
    }
}
