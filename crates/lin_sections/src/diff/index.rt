//! An index of things, facts or entries.

ghost use Rattle.std.specs.Prelude.{◌≡◌, ℕ, IfOk, List, [], find, map};
ghost use Rattle.std.specs.List.{position_from};
ghost use Rattle.std.specs.Option.{option_copied};
ghost use Rattle.std.specs.Str.{bytes_eq};
ghost use Rattle.lin_sections.specs.Numbering.{ArePlaces};

use indexmap::IndexMap;
use lin_values::put_first;
use std::alloc::{AllocError, Global};

/// What both LDFs can have: a thing, a fact or an entry.
pub(crate) trait Identified {
    ghost use Rattle.std.specs.Prelude.{List, ℕ};

    ghost id_of: { Self → List ℕ };

    /// Returns the text that is the same in both LDFs.
    fn id(&self) -> &[u8]
        ensures { result.now ≡ id_of self.now };
}

/// The places of identifiers. Of equal identifiers it has the first place.
pub(crate) struct Index<'k> {
    pub(crate) map: IndexMap<&'k [u8], usize>,
}

// Written by hand, so that its owners drop it in one step.
impl<'k> Drop for Index<'k> {
    fn drop(self) {
        let Index { map: _map } = self;
    }
}

impl<'k> Index<'k> {
    /// Makes the index of things, facts or entries.
    pub(crate) fn of<T: Identified>(alloc: Global, all: &'k [T]) -> Result<Index<'k>, AllocError>
        ensures { IfOk result (λ index. ArePlaces (map T.id_of all.now) index.map) }
    {
        let mut index = Index {
            map: IndexMap::with_capacity(alloc, all.len())?,
        };
        for (place, one) in all.iter().enumerate() {
            put_first(&mut index.map, one.id(), place)?;
        }
        Ok(index)
    }

    /// Makes an empty index.
    pub(crate) fn new(alloc: Global) -> Result<Index<'k>, AllocError>
        ensures { IfOk result (λ index. ArePlaces [] index.map) }
    {
        Ok(Index {
            map: IndexMap::with_capacity(alloc, 0)?,
        })
    }

    /// Returns the place of the first one with an identifier.
    pub(crate) fn place_of(&self, id: &[u8]) -> Option<usize>
        ensures { (ids : List (List ℕ)) → ArePlaces ids self.now.map
            → result ≡ position_from (λ i. bytes_eq i id.now) 0 ids }
    {
        self.map.get(&id).copied()
    }

    /// Returns the first one with an identifier. The index has the places of all of them.
    pub(crate) fn find<'t, T: Identified>(&self, all: &'t [T], id: &[u8]) -> Option<&'t T>
        requires { ArePlaces (map T.id_of all.now) self.now.map }
        ensures { option_copied result ≡ find (λ x. bytes_eq (T.id_of x) id.now) all.now }
    {
        match self.place_of(id) {
            Some(place) => all.get(place),
            None => None,
        }
    }
}
