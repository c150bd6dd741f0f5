//! The words of sections and node attributes that no version of LIN has.

ghost use Rattle.std.specs.Prelude.{◌≡◌, ◌+◌, ◌-◌, ◌^◌, ◌∷◌, ◌++◌, [], OnOk, length, min, take};

use std::alloc::{AllocError, Global};

/// How many unknown words of an LDF are kept.
pub const MOST_UNKNOWN: usize = 256;

/// The word of a section or of a node attribute that no version of LIN has.
#[derive(Clone, Copy)]
pub struct UnknownWord<'a> {
    pub is_section: bool,
    pub text: &'a [u8],
}

/// The words of the sections and node attributes of an LDF that no version of LIN has, in their order.
#[derive(Drop)]
pub struct UnknownWords<'a> {
    /// How many there are.
    pub number: usize,
    /// The first 256.
    pub first: Vec<UnknownWord<'a>>,
}

impl<'a> UnknownWords<'a> {
    /// Makes an empty list.
    pub fn new(alloc: Global) -> UnknownWords<'a>
        ensures number { result.number ≡ 0 }
        ensures first { result.first.items ≡ [] }
    {
        UnknownWords {
            number: 0,
            first: Vec::new(alloc),
        }
    }

    /// Counts a word, and keeps it if fewer than 256 are kept.
    ///
    /// # Errors
    /// Out of memory.
    pub fn add(&mut self, word: UnknownWord<'a>) -> Result<(), AllocError>
        ensures number { OnOk result (self.new.number ≡ min (self.old.number + 1) (2 ^ 64 - 1)) }
        ensures first { OnOk result (self.new.first.items ≡ self.old.first.items
            ++ take (256 - length self.old.first.items) (word.entry ∷ [])) }
    {
        if self.first.len() < MOST_UNKNOWN {
            self.first.push(word)?;
        }
        self.number = self.number.saturating_add(1);
        Ok(())
    }
}
