//! Texts of a few bytes, put like those that are written.

ghost use Rattle.std.specs.Prelude.{◌≡◌, ◌∷◌, ◌<◌, ◌≤◌, ◌^◌, [], ℕ, List, IfSome};
ghost use Rattle.lin_export.specs.ShortTexts.{AddsText, HoldsText};
ghost use Rattle.lin_values.specs.Shown.{decimal_shown, fraction, last_digits};

use arrayvec::ArrayVec;
use itoa::Integer;
use lin_values::Decimal;

/// The most bytes of a short text.
const MOST: usize = 24;

/// A text of at most 24 bytes, or what was put of a longer one.
#[derive(Drop)]
pub(crate) struct ShortText {
    bytes: ArrayVec<u8, MOST>,
    is_whole: bool,
}

impl ShortText {
    /// Nothing was put.
    pub(crate) fn new() -> ShortText
        ensures { HoldsText result [] }
    {
        ShortText {
            bytes: ArrayVec::new(),
            is_whole: true,
        }
    }

    /// The text, where it is short.
    pub(crate) fn whole(&self) -> Option<&[u8]>
        ensures { (text : List ℕ) → HoldsText self.now text → IfSome result (λ t. t.now ≡ text) }
    {
        if self.is_whole {
            return Some(self.bytes.as_slice());
        }
        None
    }

    /// A text that isn't kept is put: the whole isn't either.
    pub(crate) fn give_up(&mut self)
        ensures { (bytes : List ℕ) → AddsText self.old self.new bytes }
    {
        self.is_whole = false;
    }

    pub(crate) fn put_byte(&mut self, byte: u8)
        ensures { AddsText self.old self.new (byte ∷ []) }
    {
        if self.bytes.try_push(byte).is_err() {
            self.is_whole = false;
        }
    }

    pub(crate) fn put(&mut self, bytes: &[u8])
        ensures { AddsText self.old self.new bytes.now }
    {
        if self.bytes.try_extend_from_slice(bytes).is_err() {
            self.is_whole = false;
        }
    }

    /// Puts an integer in decimal digits.
    pub(crate) fn put_number<N: Integer>(&mut self, number: N)
        ensures { AddsText self.old self.new (N.text number) }
    {
        let mut digits = itoa::Buffer::new();
        self.put(digits.format(number).as_bytes());
    }

    /// Puts the digits of a number that has at most so many.
    fn put_last_digits(&mut self, number: u128, count: u8)
        requires few { count ≤ 24 }
        requires fits { number < 10 ^ count }
        ensures { AddsText self.old self.new (last_digits count number) }
    {
        let mut rest = number;
        let mut left = count;
        while left > 0 {
            left -= 1;
            let power = ten_to(left);
            self.put_byte(b'0' + (rest / power) as u8);
            rest %= power;
        }
    }

    fn put_fraction(&mut self, number: u128, places: u8)
        requires few { places ≤ 24 }
        requires fits { number < 10 ^ places }
        ensures { AddsText self.old self.new (fraction places number) }
    {
        if places > 0 {
            self.put_byte(b'.');
            self.put_last_digits(number, places);
        }
    }

    /// Puts the shortest text of a decimal.
    pub(crate) fn put_decimal(&mut self, d: Decimal)
        requires { d.places ≤ 24 }
        ensures { AddsText self.old self.new (decimal_shown d) }
    {
        if d.negative {
            self.put_byte(b'-');
        }
        let power = ten_to(d.places);
        self.put_number(d.digits / power);
        self.put_fraction(d.digits % power, d.places);
    }
}

fn ten_to(k: u8) -> u128
    requires { k ≤ 24 }
    ensures { result ≡ 10 ^ k }
{
    let mut power = 1u128;
    for _i in 0..k {
        power *= 10;
    }
    power
}
