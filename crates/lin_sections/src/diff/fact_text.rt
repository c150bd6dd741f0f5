//! The texts of facts: borrowed from an LDF, or owned.

ghost use Rattle.std.specs.Prelude.{◌≡◌, ◌++◌, ◌<◌, IfOk, OnOk};
ghost use Rattle.std.specs.Fmt.{decimal};
ghost use Rattle.lin_sections.specs.FactTexts.{two_hex_digits, capital_hex_digit, with_word};
ghost use Rattle.lin_values.specs.Spelled.{in_quotes};

use itoa::Buffer;
use lin_text::Text;
use std::alloc::{AllocError, Global};
use std::marker::Model;

/// The bytes of a text, borrowed or owned.
#[derive(Drop)]
enum TextBytes<'a> {
    Lent(&'a [u8]),
    Made(Text),
}

/// The text of a fact. Contracts see its bytes.
pub struct FactText<'a> {
    kept: TextBytes<'a>,
}

// Written by hand, so that its owners drop it in one step.
impl<'a> Drop for FactText<'a> {
    fn drop(self) {
        let FactText { kept: _kept } = self;
    }
}

impl<'a> Model for FactText<'a> {
    ghost use Rattle.std.specs.Prelude.{List, ℕ};
    ghost use Rattle.lin_sections.specs.FactTexts.{fact_bytes};

    ghost Value = { List ℕ };

    ghost view = { λ t. fact_bytes t.kept };
}

impl<'a> FactText<'a> {
    /// Borrows bytes as a text.
    pub(crate) fn lent(bytes: &'a [u8]) -> FactText<'a>
        ensures { result ≡ bytes.now }
    {
        FactText {
            kept: TextBytes::Lent(bytes),
        }
    }

    /// Takes an owned text.
    pub(crate) fn made(text: Text) -> FactText<'a>
        ensures { result ≡ text }
    {
        FactText {
            kept: TextBytes::Made(text),
        }
    }

    /// Copies bytes into an owned text.
    pub(crate) fn copied(alloc: Global, bytes: &[u8]) -> Result<FactText<'a>, AllocError>
        ensures { IfOk result (λ t. t ≡ bytes.now) }
    {
        Ok(FactText::made(Text::copied(alloc, bytes)?))
    }

    /// Returns the decimal digits of a number.
    pub(crate) fn number(alloc: Global, number: u64) -> Result<FactText<'a>, AllocError>
        ensures { IfOk result (λ t. t ≡ decimal number) }
    {
        Ok(FactText::made(number_text(alloc, number)?))
    }

    /// Returns the bytes.
    pub fn as_slice(&self) -> &[u8]
        ensures { result.now ≡ self.now }
    {
        match &self.kept {
            TextBytes::Lent(bytes) => *bytes,
            TextBytes::Made(text) => text.as_slice(),
        }
    }
}

/// Returns the decimal digits of a number.
pub(crate) fn number_text(alloc: Global, number: u64) -> Result<Text, AllocError>
    ensures { IfOk result (λ t. t ≡ decimal number) }
{
    let mut digits = Buffer::new();
    Text::copied(alloc, digits.format(number).as_bytes())
}

/// Appends the decimal digits of a number.
pub(crate) fn put_number(text: &mut Vec<u8>, number: u64) -> Result<(), AllocError>
    ensures { OnOk result (text.new.items ≡ text.old.items ++ decimal number) }
{
    let mut digits = Buffer::new();
    text.extend_from_slice(digits.format(number).as_bytes())?;
    Ok(())
}

/// Appends a word, with a space before it unless the text is empty.
pub(crate) fn put_word(text: &mut Vec<u8>, word: &[u8]) -> Result<(), AllocError>
    ensures { OnOk result (text.new.items ≡ with_word text.old.items word.now) }
{
    if !text.is_empty() {
        text.push(b' ')?;
    }
    text.extend_from_slice(word)?;
    Ok(())
}

/// Appends a word in quotes.
#[tactic(auto, using(crate::proofs::FactSteps::word_goes_on))]
pub(crate) fn put_quoted(text: &mut Vec<u8>, word: &[u8]) -> Result<(), AllocError>
    ensures { OnOk result (text.new.items ≡ with_word text.old.items (in_quotes word.now)) }
{
    put_word(text, b"\"")?;
    text.extend_from_slice(word)?;
    text.push(b'"')?;
    Ok(())
}

fn hex_digit(four: u8) -> u8
    requires { four < 16 }
    ensures { result ≡ capital_hex_digit four }
{
    if four < 10 {
        b'0' + four
    } else {
        b'A' + (four - 10)
    }
}

/// Appends a byte as two hexadecimal digits.
pub(crate) fn put_hex(text: &mut Vec<u8>, byte: u8) -> Result<(), AllocError>
    ensures { OnOk result (text.new.items ≡ text.old.items ++ two_hex_digits byte) }
{
    text.push(hex_digit(byte / 16))?;
    text.push(hex_digit(byte % 16))?;
    Ok(())
}

/// Returns two words with a space between them.
pub(crate) fn two_words<'a>(
    alloc: Global,
    first: &[u8],
    second: &[u8],
) -> Result<FactText<'a>, AllocError>
    ensures { IfOk result (λ t. t ≡ with_word first.now second.now) }
{
    let mut text = Vec::from_slice(alloc, first)?;
    put_word(&mut text, second)?;
    FactText::copied(alloc, text.as_slice())
}
