//! A writer with a buffer of fixed size.

ghost use Rattle.std.specs.Prelude.{◌≡◌, ◌∷◌, []};
ghost use Rattle.std.specs.Fmt.{decimal};
ghost use Rattle.hex.specs.Hex.{encode_upper};
ghost use Rattle.lin_text.specs.Written.{Finishes, Grows, IsNew};

use crate::direct::write_out;
use crate::fault::WriteFailed;
use arrayvec::ArrayVec;
use itoa::Integer;
use std::io::Write;

/// How many bytes wait at most.
const CAPACITY: usize = 65_536;

/// The two digits of each byte.
static PAIRS: [u8; 512] = *b"000102030405060708090A0B0C0D0E0F101112131415161718191A1B1C1D1E1F\
    202122232425262728292A2B2C2D2E2F303132333435363738393A3B3C3D3E3F\
    404142434445464748494A4B4C4D4E4F505152535455565758595A5B5C5D5E5F\
    606162636465666768696A6B6C6D6E6F707172737475767778797A7B7C7D7E7F\
    808182838485868788898A8B8C8D8E8F909192939495969798999A9B9C9D9E9F\
    A0A1A2A3A4A5A6A7A8A9AAABACADAEAFB0B1B2B3B4B5B6B7B8B9BABBBCBDBEBF\
    C0C1C2C3C4C5C6C7C8C9CACBCCCDCECFD0D1D2D3D4D5D6D7D8D9DADBDCDDDEDF\
    E0E1E2E3E4E5E6E7E8E9EAEBECEDEEEFF0F1F2F3F4F5F6F7F8F9FAFBFCFDFEFF";

/// The two digits of a byte.
#[inline(always)]
fn digits_of(byte: u8) -> [u8; 2]
    ensures { result ≡ encode_upper (byte ∷ []) }
{
    let from = 2 * usize::from(byte);
    [PAIRS[from], PAIRS[from + 1]]
}

/// Room for what waits to be written, 65,536 bytes. It takes no memory, but some time to make: where
/// many short texts are written, it is made once.
#[derive(Debug, Drop)]
pub struct TextBuffer {
    bytes: ArrayVec<u8, CAPACITY>,
}

impl TextBuffer {
    /// Room in which nothing waits.
    pub fn empty() -> TextBuffer {
        TextBuffer {
            bytes: ArrayVec::new(),
        }
    }
}

/// A writer, and what waits to be written to it, in the room of a buffer.
///
/// What is put waits until the buffer is full or the text is finished. The first failed write is
/// kept: nothing is written after it, the writer isn't asked again, and `finish` reports it.
#[derive(Drop)]
pub struct TextWriter<'a, W> {
    writer: &'a mut W,
    buffer: &'a mut ArrayVec<u8, CAPACITY>,
    outcome: Result<(), WriteFailed>,
}

impl<'a, W: Write> TextWriter<'a, W> {
    /// Nothing waits yet. What the buffer held of another text is gone.
    pub fn new(writer: &'a mut W, buffer: &'a mut TextBuffer) -> TextWriter<'a, W>
        ensures { IsNew writer.entry result }
    {
        buffer.bytes.clear();
        TextWriter {
            writer,
            buffer: &mut buffer.bytes,
            outcome: Ok(()),
        }
    }

    /// Writes what waits.
    fn write_waiting(&mut self)
        ensures text { Grows W.contents self.old self.new [] }
        ensures empty { self.new.buffer.now.items ≡ [] }
    {
        if self.outcome.is_ok() {
            self.outcome = write_out(self.writer, self.buffer.as_slice());
        }
        self.buffer.clear();
    }

    /// Puts these bytes where nothing waits; what the buffer doesn't take is written at once.
    fn put_first(&mut self, bytes: &[u8])
        requires { self.old.buffer.now.items ≡ [] }
        ensures { Grows W.contents self.old self.new bytes.now }
    {
        if self.buffer.try_extend_from_slice(bytes).is_err() && self.outcome.is_ok() {
            self.outcome = write_out(self.writer, bytes);
        }
    }

    /// Writes what waits, and puts these bytes.
    #[inline(never)]
    fn put_over(&mut self, bytes: &[u8])
        ensures { Grows W.contents self.old self.new bytes.now }
    {
        self.write_waiting();
        self.put_first(bytes);
    }

    /// Puts these bytes after what waits.
    #[inline]
    pub fn put(&mut self, bytes: &[u8])
        ensures { Grows W.contents self.old self.new bytes.now }
    {
        if self.buffer.try_extend_from_slice(bytes).is_err() {
            self.put_over(bytes);
        }
    }

    /// Puts the bytes of a text. What doesn't fit into the buffer is written.
    #[inline]
    pub fn put_text(&mut self, text: &str)
        ensures { Grows W.contents self.old self.new text.now }
    {
        self.put(text.as_bytes());
    }

    /// Puts a byte. If the buffer is full, it is written first.
    #[inline]
    pub fn put_byte(&mut self, byte: u8)
        ensures { Grows W.contents self.old self.new (byte ∷ []) }
    {
        if self.buffer.try_push(byte).is_err() {
            self.put_over(&[byte]);
        }
    }

    /// Writes what waits, and puts these bytes.
    #[inline(never)]
    fn put_array_over<const N: usize>(&mut self, bytes: [u8; N])
        ensures { Grows W.contents self.old self.new bytes.entry }
    {
        self.put_over(&bytes);
    }

    /// Puts a few bytes at once. (Where they don't fit they are handed on by their values, since
    /// bytes that are lent would have to lie in memory in each case.)
    #[inline(always)]
    fn put_array<const N: usize>(&mut self, bytes: [u8; N])
        ensures { Grows W.contents self.old self.new bytes.entry }
    {
        if self.buffer.try_extend_from_slice(&bytes).is_err() {
            self.put_array_over(bytes);
        }
    }

    /// Puts bytes one by one: for a few that is quicker than a copy.
    fn put_few(&mut self, bytes: &[u8])
        ensures { Grows W.contents self.old self.new bytes.now }
    {
        for byte in bytes {
            self.put_byte(*byte);
        }
    }

    /// Puts an integer in decimal digits.
    pub fn put_number<N: Integer>(&mut self, number: N)
        ensures { Grows W.contents self.old self.new (N.text number) }
    {
        let mut digits = itoa::Buffer::new();
        self.put_few(digits.format(number).as_bytes());
    }

    /// Puts a byte, and a number in decimal digits. (Most have one digit, which is put with it at
    /// once.)
    #[inline(always)]
    pub fn put_numbered(&mut self, first: u8, number: u64)
        ensures { Grows W.contents self.old self.new (first ∷ decimal number) }
    {
        if number < 10 {
            self.put_array([first, b'0' + number as u8]);
        } else {
            self.put_byte(first);
            self.put_number(number);
        }
    }

    /// Puts a byte as two digits, in upper case.
    #[inline]
    pub fn put_hex_byte(&mut self, byte: u8)
        ensures { Grows W.contents self.old self.new (encode_upper (byte ∷ [])) }
    {
        self.put_array(digits_of(byte));
    }

    /// Puts the digits of four bytes at once.
    #[inline(always)]
    fn put_hex_of_four(&mut self, a: u8, b: u8, c: u8, d: u8)
        ensures { Grows W.contents self.old self.new (encode_upper (a ∷ b ∷ c ∷ d ∷ [])) }
    {
        let ([a0, a1], [b0, b1]) = (digits_of(a), digits_of(b));
        let ([c0, c1], [d0, d1]) = (digits_of(c), digits_of(d));
        self.put_array([a0, a1, b0, b1, c0, c1, d0, d1]);
    }

    /// Puts the digits of bytes one by one.
    fn put_hex_of_few(&mut self, bytes: &[u8])
        ensures { Grows W.contents self.old self.new (encode_upper bytes.now) }
    {
        for byte in bytes {
            self.put_hex_byte(*byte);
        }
    }

    /// Puts two digits for each byte, in upper case.
    pub fn put_hex(&mut self, bytes: &[u8])
        ensures { Grows W.contents self.old self.new (encode_upper bytes.now) }
    {
        let mut left = bytes;
        while let [a, b, c, d, behind @ ..] = left {
            self.put_hex_of_four(*a, *b, *c, *d);
            left = behind;
        }
        self.put_hex_of_few(left);
    }

    /// Writes what waits. The writer isn't flushed.
    ///
    /// # Errors
    /// `WriteFailed` where this write or an earlier one failed, by an error of the writer, an
    /// interrupted write too, or by a write of 0 bytes. What was written then is the beginning of
    /// the text.
    pub fn finish(self) -> Result<(), WriteFailed>
        ensures { Finishes W.contents self.entry (W.contents self.exit.0.now) result }
    {
        let TextWriter {
            writer,
            buffer,
            outcome,
        } = self;
        outcome?;
        write_out(writer, buffer.as_slice())
    }
}
