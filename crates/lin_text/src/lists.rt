//! Texts and lists as fields of public types: contracts see them as lists.

ghost use Rattle.std.specs.Prelude.{◌≡◌, ◌≤◌, ◌<◌, ◌∷◌, ◌++◌, [], drop, length, set, take, IfOk, IsOk, OnOk};

use std::alloc::{AllocError, Global};
use std::marker::Model;

/// The most bytes that lie in a text's own place.
const SHORT: usize = 14;

/// The bytes of a text: few in its own place, which takes no memory, more in a list elsewhere. The
/// list is boxed so that a text takes 16 bytes.
#[derive(Debug, Drop)]
pub(crate) enum Kept {
    Short { len: u8, bytes: [u8; SHORT] },
    Long(Box<Vec<u8>>),
}

/// Bytes of a text, as a name. Contracts see them as a list.
#[derive(Debug, Drop)]
pub struct Text {
    kept: Kept,
}

impl Model for Text {
    ghost use Rattle.std.specs.Prelude.{List, ℕ};
    ghost use Rattle.lin_text.specs.Kept.{bytes_in, FitsInPlace};

    ghost Value = { List ℕ };

    ghost view = { λ t. bytes_in t.kept };

    ghost invariant = { λ t. FitsInPlace t.kept };
}

impl Text {
    /// The first of these bytes, so many.
    #[inline(always)]
    fn short(bytes: [u8; SHORT], len: usize) -> Text
        requires { len ≤ 14 }
        ensures { result ≡ take len bytes }
    {
        Text {
            kept: Kept::Short {
                len: len as u8,
                bytes,
            },
        }
    }

    /// A copy of these bytes; an error means out of memory, which 14 bytes or fewer never are.
    pub fn copied(alloc: Global, bytes: &[u8]) -> Result<Text, AllocError>
        ensures copy { IfOk result (λ t. t ≡ bytes.now) }
        ensures short { length bytes.now ≤ 14 → IsOk result }
    {
        let len = bytes.len();
        if len <= SHORT {
            let mut place = [0; SHORT];
            place[..len].copy_from_slice(bytes);
            return Ok(Text::short(place, len));
        }
        let list = Vec::from_slice(alloc, bytes)?;
        Ok(Text {
            kept: Kept::Long(Box::new(alloc, list)?),
        })
    }

    /// A copy of the first bytes of a text that goes on, so many of them; an error means out of
    /// memory. (A short one that 14 bytes are left for is copied with what stands behind it, at
    /// once.)
    #[inline(always)]
    pub fn copied_front(alloc: Global, text: &[u8], len: usize) -> Result<Text, AllocError>
        ensures { IfOk result (λ t. t ≡ take len text.now) }
    {
        if len <= SHORT && SHORT <= text.len() {
            let mut place = [0; SHORT];
            place.copy_from_slice(&text[..SHORT]);
            return Ok(Text::short(place, len));
        }
        Text::copied(alloc, &text[..len.min(text.len())])
    }

    /// The bytes.
    pub fn as_slice(&self) -> &[u8]
        ensures { result.now ≡ self.now }
    {
        match &self.kept {
            Kept::Short { len, bytes } => &bytes[..*len as usize],
            Kept::Long(bytes) => bytes.as_slice(),
        }
    }
}

/// Items in order. Contracts see them as a list.
#[derive(Debug, Drop)]
pub struct Many<T> {
    items: Vec<T>,
}

impl<T> Model for Many<T> {
    ghost use Rattle.std.specs.Prelude.{List};

    ghost Value = { List T };

    ghost view = { λ m. m.items.items };
}

impl<T> Many<T> {
    /// These items.
    pub fn new(items: Vec<T>) -> Many<T>
        ensures { result ≡ items.items }
    {
        Many { items }
    }

    /// The items, in order.
    pub fn as_slice(&self) -> &[T]
        ensures { result.now ≡ self.now }
    {
        self.items.as_slice()
    }

    /// The items, in order.
    pub fn into_vec(self) -> Vec<T>
        ensures { result.items ≡ self }
    {
        self.items
    }

    /// Adds an item behind the others. An error means out of memory, and nothing is changed.
    pub fn push(&mut self, item: T) -> Result<(), AllocError>
    where
        T: Drop,
        ensures { OnOk result (self.new ≡ self.old ++ item ∷ []) }
    {
        self.items.push(item)?;
        Ok(())
    }

    /// Puts an item in front of the one with this number, or behind all. An error means out of
    /// memory, and nothing is changed.
    pub fn insert(&mut self, index: usize, item: T) -> Result<(), AllocError>
    where
        T: Drop,
        requires { index ≤ length self.old }
        ensures { OnOk result (self.new ≡ take index self.old ++ item ∷ drop index self.old) }
    {
        self.items.insert(index, item)?;
        Ok(())
    }

    /// Puts an item in the place of the one with this number.
    pub fn set(&mut self, index: usize, item: T)
    where
        T: Drop,
        requires { index < length self.old }
        ensures { self.new ≡ set self.old index item }
    {
        self.items[index] = item;
    }

    /// These items after a first one; an error means out of memory.
    pub fn behind(self, first: T) -> Result<OneOrMore<T>, AllocError>
    where
        T: Drop,
        ensures { IfOk result (λ m. m ≡ first ∷ self) }
    {
        let mut items = self.items;
        items.insert(0, first)?;
        Ok(OneOrMore::new(items))
    }
}

/// Items in order, one at least. Contracts see them as a list.
#[derive(Debug, Drop)]
pub struct OneOrMore<T> {
    all: Vec<T>,
}

impl<T> Model for OneOrMore<T> {
    ghost use Rattle.std.specs.Prelude.{List, ◌≤◌, length};

    ghost Value = { List T };

    ghost view = { λ m. m.all.items };

    ghost invariant = { λ m. 1 ≤ length m.all.items };
}

impl<T> OneOrMore<T> {
    /// These items.
    pub fn new(items: Vec<T>) -> OneOrMore<T>
        requires { 1 ≤ length items.items }
        ensures { result ≡ items.items }
    {
        OneOrMore { all: items }
    }

    /// The items, in order.
    pub fn as_slice(&self) -> &[T]
        ensures value { result.now ≡ self.now }
        ensures some { 1 ≤ length result.now }
    {
        self.all.as_slice()
    }
}
