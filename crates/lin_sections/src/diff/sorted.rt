//! Texts that are sorted by their bytes.

ghost use Rattle.std.specs.Prelude.{◌≡◌, ◌++◌, ◌∷◌, ◌≤◌, IfOk, OnOk, drop, length, take};
ghost use Rattle.lin_sections.specs.FactTexts.{with_spaces};
ghost use Rattle.lin_sections.specs.SortedTexts.{insert_text, is_at_most};

use crate::diff::fact_text::{FactText, put_word};
use lin_text::Many;
use std::alloc::{AllocError, Global};
use std::cmp::Ordering;

/// Whether a text isn't greater than the other text.
fn is_at_most(text: &[u8], other: &[u8]) -> bool
    ensures { result ≡ is_at_most text.now other.now }
{
    match text.cmp(other) {
        Ordering::Less | Ordering::Equal => true,
        Ordering::Greater => false,
    }
}

/// Returns the number of texts before the first text that is greater.
fn place_in(texts: &[FactText<'_>], text: &[u8]) -> usize
    ensures within { result ≤ length texts.now }
    ensures same { insert_text texts.now text.now
        ≡ take result texts.now ++ text.now ∷ drop result texts.now }
{
    let mut index = 0usize;
    while index < texts.len() && is_at_most(texts[index].as_slice(), text) {
        index += 1;
    }
    index
}

/// Inserts a text before the first text that is greater, or at the end.
pub(crate) fn insert_sorted<'a>(
    texts: &mut Many<FactText<'a>>,
    text: FactText<'a>,
) -> Result<(), AllocError>
    ensures { OnOk result (texts.new ≡ insert_text texts.old text.entry) }
{
    let index = place_in(texts.as_slice(), text.as_slice());
    texts.insert(index, text)
}

/// Joins texts with a space between them.
pub(crate) fn joined<'a>(alloc: Global, texts: &[FactText<'a>]) -> Result<FactText<'a>, AllocError>
    ensures { IfOk result (λ t. t ≡ with_spaces texts.now) }
{
    let mut all = Vec::new(alloc);
    for text in texts {
        put_word(&mut all, text.as_slice())?;
    }
    FactText::copied(alloc, all.as_slice())
}
