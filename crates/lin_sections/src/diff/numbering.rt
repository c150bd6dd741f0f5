//! The numbers of repeated keys and words.

ghost use Rattle.std.specs.Prelude.{◌≡◌, ◌+◌, ◌<◌, ◌^◌, ℕ, IfOk, List, OnOk, map};
ghost use Rattle.lin_sections.specs.Numbering.{again_text, all_numbered, count_of, repeats, number_if_repeated, AreTextCounts, CountsOneMore};

use crate::diff::fact_text::put_number;
use indexmap::IndexMap;
use lin_text::Text;
use std::alloc::{AllocError, Global};

/// What has a text that can be repeated: a fact has its key, an entry its word.
pub(crate) trait Repeatable: Drop {
    ghost use Rattle.std.specs.Prelude.{List, ℕ};

    ghost text_of: { Self → List ℕ };

    ghost with_text: { List ℕ → Self → Self };

    fn text(&self) -> &[u8]
        ensures { result.now ≡ text_of self.now };

    /// Keeps its text with a number.
    fn keep_numbered(&mut self, numbered: Text)
        ensures { self.new ≡ with_text numbered self.old };
}

/// How often each text occurred.
struct TextCounts<'a> {
    map: IndexMap<&'a [u8], usize>,
}

// Written by hand, so that its owners drop it in one step.
impl<'a> Drop for TextCounts<'a> {
    fn drop(self) {
        let TextCounts { map: _map } = self;
    }
}

impl<'a> TextCounts<'a> {
    /// Returns how often a text occurred before, and counts it.
    fn count(&mut self, text: &'a [u8]) -> Result<usize, AllocError>
        ensures count { IfOk result (λ n. (texts : List (List ℕ)) → AreTextCounts texts self.old.map
            → n ≡ count_of texts text.now) }
        ensures more { OnOk result (CountsOneMore text.now self.old.map self.new.map) }
    {
        let count = self.map.get(&text).copied().unwrap_or(0);
        self.map.insert(text, count.saturating_add(1))?;
        Ok(count)
    }
}

/// Returns a text with its number if `count` earlier texts are the same. `numbered` is memory for the text.
fn again_text(
    alloc: Global,
    numbered: &mut Vec<u8>,
    text: &[u8],
    count: usize,
) -> Result<Text, AllocError>
    requires { count + 1 < 2 ^ 64 }
    ensures { IfOk result (λ t. t ≡ again_text text.now count) }
{
    numbered.clear();
    numbered.extend_from_slice(text)?;
    numbered.extend_from_slice(b" #")?;
    put_number(numbered, count as u64 + 1)?;
    Text::copied(alloc, numbered.as_slice())
}

/// Returns for each text the number of earlier texts that are the same.
fn repeats<T: Repeatable>(alloc: Global, all: &[T]) -> Result<Vec<usize>, AllocError>
    ensures { IfOk result (λ v. v.items ≡ repeats (map T.text_of all.now)) }
{
    let mut counts = TextCounts {
        map: IndexMap::with_capacity(alloc, 0)?,
    };
    let mut repeats = Vec::new(alloc);
    for one in all {
        repeats.push(counts.count(one.text())?)?;
    }
    Ok(repeats)
}

/// Adds a number to a text if `count`, the number of earlier texts that are the same, isn't 0. `text` is
/// memory for the text.
fn number<T: Repeatable>(
    alloc: Global,
    text: &mut Vec<u8>,
    one: &mut T,
    count: usize,
) -> Result<(), AllocError>
    requires { count + 1 < 2 ^ 64 }
    ensures { OnOk result (one.new ≡ number_if_repeated T.text_of T.with_text count one.old) }
{
    if count > 0 {
        let again = again_text(alloc, text, one.text(), count)?;
        one.keep_numbered(again);
    }
    Ok(())
}

/// Adds a number to each text that an earlier one has.
pub(crate) fn numbered<T: Repeatable>(alloc: Global, all: Vec<T>) -> Result<Vec<T>, AllocError>
    ensures { IfOk result (λ v. v.items ≡ all_numbered T.text_of T.with_text all.items) }
{
    if all.len() < 2 {
        return Ok(all);
    }
    let counts = repeats(alloc, all.as_slice())?;
    let mut all = all;
    let mut text = Vec::new(alloc);
    for place in 0..all.len().min(counts.len()) {
        number(alloc, &mut text, &mut all[place], counts[place])?;
    }
    Ok(all)
}
