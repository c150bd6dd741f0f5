//! Texts of LDFs, as they are shown: UTF-8, without controls, and with one space between words.

ghost use Rattle.std.specs.Prelude.{◌≡◌, ◌≤◌, ◌++◌, ◌∷◌, [], IfOk, OnOk, length};
ghost use Rattle.std.specs.Str.{is_utf8};
ghost use Rattle.lin_sections.specs.Texts.{latin_1, latin_1_byte, gap_length, space_between, single_spaced, shown_text};

use lin_text::Text;
use std::alloc::{AllocError, Global};

/// A character of Latin-1 in UTF-8; 80 to 9F are `?`.
fn put_latin_1(text: &mut Vec<u8>, byte: u8) -> Result<(), AllocError>
    ensures { OnOk result (text.new.items ≡ text.old.items ++ latin_1_byte byte) }
{
    match byte {
        0x00..=0x7F => text.push(byte)?,
        0x80..=0x9F => text.push(b'?')?,
        0xA0..=0xBF => text.extend_from_slice(&[0xC2, byte])?,
        0xC0..=0xFF => text.extend_from_slice(&[0xC3, byte - 0x40])?,
    }
    Ok(())
}

/// A text of Latin-1 in UTF-8.
fn latin_1(alloc: Global, bytes: &[u8]) -> Result<Vec<u8>, AllocError>
    ensures { IfOk result (λ v. v.items ≡ latin_1 bytes.now) }
{
    let mut text = Vec::new(alloc);
    for byte in bytes {
        put_latin_1(&mut text, *byte)?;
    }
    Ok(text)
}

/// How many bytes at the front of a text in UTF-8 are a space or a control; 0 where another
/// character stands there.
fn gap_length(text: &[u8]) -> usize
    ensures value { result ≡ gap_length text.now }
    ensures within { result ≤ length text.now }
{
    match text {
        [0x00..=0x20 | 0x7F, ..] => 1,
        [0xC2, 0x80..=0x9F, ..] => 2,
        _ => 0,
    }
}

/// Puts a byte that is no gap, behind a space where a word begins with it.
fn put_after_gap(text: &mut Vec<u8>, is_behind_gap: bool, byte: u8) -> Result<(), AllocError>
    ensures { OnOk result (text.new.items ≡ text.old.items ++ (space_between text.old.items is_behind_gap ++ byte ∷ [])) }
{
    if is_behind_gap && !text.is_empty() {
        text.push(b' ')?;
    }
    text.push(byte)?;
    Ok(())
}

/// A text in UTF-8 without controls, with one space between words, and none at the ends.
fn spaced(alloc: Global, bytes: &[u8]) -> Result<Vec<u8>, AllocError>
    ensures { IfOk result (λ v. v.items ≡ single_spaced bytes.now) }
{
    let mut text = Vec::new(alloc);
    let mut rest = bytes;
    let mut is_behind_gap = false;
    while let [byte, others @ ..] = rest {
        let gap = gap_length(rest);
        if gap > 0 {
            is_behind_gap = true;
            rest = &rest[gap..];
        } else {
            put_after_gap(&mut text, is_behind_gap, *byte)?;
            is_behind_gap = false;
            rest = others;
        }
    }
    Ok(text)
}

fn is_utf8(bytes: &[u8]) -> bool
    ensures { result ≡ is_utf8 bytes.now }
{
    std::str::from_utf8(bytes).is_ok()
}

/// A TEXT, which stands between quotes, as it is shown: as UTF-8 where it is that, else as Latin-1.
pub(crate) fn shown_text(alloc: Global, bytes: &[u8]) -> Result<Text, AllocError>
    ensures { IfOk result (λ t. t ≡ shown_text bytes.now) }
{
    if is_utf8(bytes) {
        return Text::copied(alloc, spaced(alloc, bytes)?.as_slice());
    }
    let text = latin_1(alloc, bytes)?;
    Text::copied(alloc, spaced(alloc, text.as_slice())?.as_slice())
}
