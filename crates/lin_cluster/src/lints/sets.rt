//! Sets of names, and the one walk over items that adds names of each.

ghost use Rattle.std.specs.Prelude.{◌≡◌, ◌||◌, List, ℕ, OnOk, IfOk, false};
ghost use Rattle.std.specs.List.{list_any};
ghost use Rattle.std.specs.Str.{bytes_eq};
ghost use Rattle.lin_cluster.specs.LintNames.{has_text};

use crate::names::add;
use indexmap::IndexMap;
use lin_parts::description::Name;
use std::alloc::{AllocError, Global};

/// A set of names, by their texts.
pub(super) struct NameSet<'a> {
    pub(super) names: IndexMap<&'a [u8], ()>,
}

// Written out, so that what owns one lets it go in one step.
impl<'a> Drop for NameSet<'a> {
    fn drop(self) {
        let NameSet { names: _names } = self;
    }
}

/// No names, with room for so many; an error means out of memory.
pub(super) fn no_names<'a>(alloc: Global, room: usize) -> Result<NameSet<'a>, AllocError>
    ensures { IfOk result (λ s. (q : List ℕ) → has_text s.names q ≡ false) }
{
    Ok(NameSet {
        names: IndexMap::with_capacity(alloc, room)?,
    })
}

impl<'a> NameSet<'a> {
    /// Whether the name is one of them.
    pub(super) fn has(&self, name: &Name) -> bool
        ensures { result ≡ has_text self.now.names name.now.text }
    {
        self.names.contains_key(&name.text.as_slice())
    }

    /// Adds a name; an error means out of memory.
    #[tactic(auto, using(crate::proofs::LintSets::some_added))]
    pub(super) fn add(&mut self, name: &'a Name) -> Result<(), AllocError>
        ensures { OnOk result
            ((q : List ℕ)
            → has_text self.new.names q ≡ (has_text self.old.names q || bytes_eq name.now.text q)) }
    {
        add(&mut self.names, name.text.as_slice(), ())
    }
}

/// What adds names of an item to a set.
pub(super) trait Adds<T> {
    ghost use Rattle.std.specs.Prelude.{◌≡◌, ◌||◌, List, ℕ, Bool, OnOk};
    ghost use Rattle.lin_cluster.specs.LintNames.{has_text};

    ghost adds: { Self → T → List ℕ → Bool };

    /// Adds names of the item; an error means out of memory.
    fn add_of<'a>(&self, names: &mut NameSet<'a>, item: &'a T) -> Result<(), AllocError>
        ensures { OnOk result
            ((q : List ℕ)
            → has_text names.new.names q
            ≡ (has_text names.old.names q || adds self.now item.now q)) };
}

/// Adds names of each item; an error means out of memory.
pub(super) fn add_each<'a, T, A: Adds<T>>(
    names: &mut NameSet<'a>,
    adder: &A,
    items: &'a [T],
) -> Result<(), AllocError>
    ensures { OnOk result
        ((q : List ℕ)
        → has_text names.new.names q
        ≡ (has_text names.old.names q || list_any (λ x. A.adds adder.now x q) items.now)) }
{
    for item in items {
        adder.add_of(names, item)?;
    }
    Ok(())
}
