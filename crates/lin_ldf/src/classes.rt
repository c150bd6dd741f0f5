//! Classes of bytes in an LDF text (LIN 2.2A, section 9, lexical rules).

ghost use Rattle.std.specs.Prelude.{◌≡◌};
ghost use Rattle.lin_ldf.specs.Bytes.{is_separator, is_letter, is_digit, is_hex_digit};
ghost use Rattle.lin_ldf.specs.Bytes.{is_word_byte};
ghost use Rattle.lin_ldf.specs.Scanning.{is_alone};

// What each byte is: `L` a letter, `D` a digit (both capital, so that one test finds the bytes of a
// word); `s` a separator, `q` a quote, `c` a slash, which begins comments, `m` a mark or another
// byte that is a token alone, `x` any other.
static CLASS: [u8; 256] = *b"\
    xxxxxxxxxssxxsxxxxxxxxxxxxxxxxxx\
    smqmmmmmmmmmmmmcDDDDDDDDDDmmmmmm\
    mLLLLLLLLLLLLLLLLLLLLLLLLLLmmmmL\
    mLLLLLLLLLLLLLLLLLLLLLLLLLLmmmmx\
    xxxxxxxxxxxxxxxxxxxxxxxxxxxxxxxx\
    xxxxxxxxxxxxxxxxxxxxxxxxxxxxxxxx\
    xxxxxxxxxxxxxxxxxxxxxxxxxxxxxxxx\
    xxxxxxxxxxxxxxxxxxxxxxxxxxxxxxxx";

/// Whether a byte separates tokens: a space, a tab, a line feed or a carriage return.
#[inline(always)]
pub fn is_separator(c: u8) -> bool
    ensures { result ≡ is_separator c }
{
    CLASS[c as usize] == b's'
}

/// Whether a byte may begin a word: a letter or `_`.
#[inline(always)]
pub fn is_letter(c: u8) -> bool
    ensures { result ≡ is_letter c }
{
    CLASS[c as usize] == b'L'
}

/// Whether a byte is a decimal digit.
#[inline(always)]
pub fn is_digit(c: u8) -> bool
    ensures { result ≡ is_digit c }
{
    CLASS[c as usize] == b'D'
}

/// Whether a byte is a hexadecimal digit, in either case.
pub fn is_hex_digit(c: u8) -> bool
    ensures { result ≡ is_hex_digit c }
{
    is_digit(c) || (b'A' <= c && c <= b'F') || (b'a' <= c && c <= b'f')
}

/// Whether a byte may be in a word: a letter, `_` or a decimal digit.
#[inline(always)]
pub fn is_word_byte(c: u8) -> bool
    ensures { result ≡ is_word_byte c }
{
    CLASS[c as usize] < b'a'
}

/// Whether a byte is a token alone, whatever stands behind it.
#[inline(always)]
pub fn is_alone(c: u8) -> bool
    ensures { result ≡ is_alone c }
{
    CLASS[c as usize] == b'm'
}
