//! The names of the old LDF's things in the new LDF.

ghost use Rattle.std.specs.Prelude.{◌≡◌, ◌||◌, ℕ, IfOk, List, OnOk, Some, None, false, if◌then◌else◌, map, option_map};
ghost use Rattle.std.specs.Str.{bytes_eq};
ghost use Rattle.lin_sections.specs.NewNames.{has_in, is_among, keyed_name, known_by, name_in, new_name_of};
ghost use Rattle.lin_sections.specs.NewNames.{only_in, renamed_in, stays, KeyedName};
ghost use Rattle.lin_sections.specs.NewNames.{HasOnly, only_after, AddsNames};

use crate::diff::fact_text::FactText;
use indexmap::IndexMap;
use lin_cluster::Named;
use lin_values::put_first;
use std::alloc::{AllocError, Global};

/// Names of things of one kind.
pub(crate) struct KnownNames<'a> {
    map: IndexMap<&'a [u8], ()>,
}

// Written by hand, so that its owners drop it in one step.
impl<'a> Drop for KnownNames<'a> {
    fn drop(self) {
        let KnownNames { map: _map } = self;
    }
}

impl<'a> KnownNames<'a> {
    /// Makes an empty collection.
    pub(crate) fn new(alloc: Global) -> Result<KnownNames<'a>, AllocError>
        ensures { IfOk result (λ s. (q : List ℕ) → has_in s.map q ≡ false) }
    {
        Ok(KnownNames {
            map: IndexMap::with_capacity(alloc, 0)?,
        })
    }

    /// Collects the names of things.
    pub(crate) fn of<T: Named>(alloc: Global, all: &'a [T]) -> Result<KnownNames<'a>, AllocError>
        ensures { IfOk result (λ s. (q : List ℕ)
            → has_in s.map q ≡ is_among (map (λ x. (T.name_of x).text) all.now) q) }
    {
        let mut names = KnownNames::new(alloc)?;
        names.add_all(all)?;
        Ok(names)
    }

    pub(crate) fn has(&self, name: &[u8]) -> bool
        ensures { result ≡ has_in self.now.map name.now }
    {
        self.map.contains_key(&name)
    }

    pub(crate) fn add(&mut self, name: &'a [u8]) -> Result<(), AllocError>
        ensures { OnOk result ((q : List ℕ)
            → has_in self.new.map q ≡ (has_in self.old.map q || bytes_eq name.now q)) }
    {
        self.map.insert(name, ())?;
        Ok(())
    }

    /// Adds the names of things.
    pub(crate) fn add_all<T: Named>(&mut self, all: &'a [T]) -> Result<(), AllocError>
        ensures { OnOk result ((q : List ℕ) → has_in self.new.map q
            ≡ (has_in self.old.map q || is_among (map (λ x. (T.name_of x).text) all.now) q)) }
    {
        self.map.reserve(all.len())?;
        for one in all {
            self.add(one.name().text.as_slice())?;
        }
        Ok(())
    }
}

/// A thing whose name only one LDF has, with the key that identifies it in the other LDF.
#[derive(Drop)]
pub(crate) struct Keyed<'a> {
    pub(crate) name: &'a [u8],
    pub(crate) key: FactText<'a>,
}

/// The new name for each name of the old LDF.
pub(crate) struct NewNames<'a> {
    /// The names that don't change.
    pub(crate) kept: KnownNames<'a>,
    /// The new names of renamed things.
    pub(crate) renamed: IndexMap<&'a [u8], &'a [u8]>,
}

// Written by hand, so that its owners drop it in one step.
impl<'a> Drop for NewNames<'a> {
    fn drop(self) {
        let NewNames {
            kept: _kept,
            renamed: _renamed,
        } = self;
    }
}

/// The name of the only thing with each key; `None` if several things have the key.
struct KeyNames<'k, 'a> {
    map: IndexMap<&'k [u8], Option<&'a [u8]>>,
}

// Written by hand, so that its owners drop it in one step.
impl<'k, 'a> Drop for KeyNames<'k, 'a> {
    fn drop(self) {
        let KeyNames { map: _map } = self;
    }
}

/// Returns the names of things by their keys.
fn key_names<'k, 'a>(alloc: Global, things: &'k [Keyed<'a>]) -> Result<KeyNames<'k, 'a>, AllocError>
    ensures { IfOk result (λ n. (q : List ℕ) → HasOnly n (map keyed_name things.now) q) }
{
    let mut names = KeyNames {
        map: IndexMap::with_capacity(alloc, 0)?,
    };
    for thing in things {
        names.add(thing)?;
    }
    Ok(names)
}

impl<'k, 'a> KeyNames<'k, 'a> {
    /// Returns the name, or `None` if the key is known.
    fn if_new(&self, key: &[u8], name: &'a [u8]) -> Option<&'a [u8]>
        ensures { option_map (λ n. n.now) result
            ≡ (if has_in self.now.map key.now then None else Some name.now) }
    {
        if self.map.contains_key(&key) {
            None
        } else {
            Some(name)
        }
    }

    /// Adds a thing. A key that is known then has no name.
    fn add(&mut self, thing: &'k Keyed<'a>) -> Result<(), AllocError>
        ensures only { OnOk result ((q : List ℕ)
            → only_in self.new.map q ≡ only_after self.old.map thing.now q) }
        ensures known { OnOk result ((q : List ℕ)
            → has_in self.new.map q ≡ (has_in self.old.map q || bytes_eq thing.now.key q)) }
    {
        let key = thing.key.as_slice();
        let only = self.if_new(key, thing.name);
        self.map.insert(key, only)?;
        Ok(())
    }

    /// Returns the name of the only thing with a key, or `None` unless exactly one thing has it.
    fn only(&self, key: &[u8]) -> Option<&'a [u8]>
        ensures { option_map (λ n. n.now) result ≡ only_in self.now.map key.now }
    {
        match self.map.get(&key) {
            Some(name) => *name,
            None => None,
        }
    }
}

/// Returns the new name of a thing. If exactly one thing of each LDF has its key, the new name is the name
/// in the new LDF. Otherwise the name doesn't change.
fn new_name<'a>(olds: &KeyNames<'_, 'a>, news: &KeyNames<'_, 'a>, old: &Keyed<'a>) -> &'a [u8]
    ensures { (os ns : List KeyedName)
        → HasOnly olds.now os old.now.key → HasOnly news.now ns old.now.key
        → result.now ≡ new_name_of os ns (keyed_name old.now) }
{
    let key = old.key.as_slice();
    match (olds.only(key), news.only(key)) {
        (Some(_), Some(name)) => name,
        _ => old.name,
    }
}

impl<'a> NewNames<'a> {
    /// Makes an empty collection.
    pub(crate) fn new(alloc: Global) -> Result<NewNames<'a>, AllocError>
        ensures { IfOk result (λ n. (q : List ℕ) → known_by n q ≡ None) }
    {
        Ok(NewNames {
            kept: KnownNames::new(alloc)?,
            renamed: IndexMap::with_capacity(alloc, 0)?,
        })
    }

    /// Returns the new name of a thing, or `None` if its name isn't known.
    pub(crate) fn get(&self, name: &'a [u8]) -> Option<&'a [u8]>
        ensures { option_map (λ n. n.now) result ≡ known_by self.now name.now }
    {
        match self.renamed.get(&name) {
            Some(new) => Some(*new),
            None if self.kept.has(name) => Some(name),
            None => None,
        }
    }

    /// Returns the new name of a thing, or its own name if it isn't renamed.
    pub(crate) fn of(&self, name: &'a [u8]) -> &'a [u8]
        ensures { result.now ≡ name_in (known_by self.now) name.now }
    {
        if self.renamed.is_empty() {
            return name;
        }
        match self.renamed.get(&name) {
            Some(new) => *new,
            None => name,
        }
    }

    /// Adds a name that doesn't change, unless it is known.
    pub(crate) fn add(&mut self, name: &'a [u8]) -> Result<(), AllocError>
        ensures { OnOk result
            (AddsNames self.old self.new (λ q. if bytes_eq name.now q then Some q else None)) }
    {
        self.kept.add(name)
    }

    /// Adds the names of things, which don't change, unless they are known.
    pub(crate) fn add_all<T: Named>(&mut self, all: &'a [T]) -> Result<(), AllocError>
        ensures { OnOk result
            (AddsNames self.old self.new (stays (map (λ x. (T.name_of x).text) all.now))) }
    {
        self.kept.add_all(all)
    }

    /// Adds a name with its new name, unless it is known.
    fn put(&mut self, name: &'a [u8], new: &'a [u8]) -> Result<(), AllocError>
        ensures { OnOk result
            (AddsNames self.old self.new (λ q. if bytes_eq name.now q then Some new.now else None)) }
    {
        if new == name {
            return self.kept.add(name);
        }
        if !self.kept.has(name) {
            put_first(&mut self.renamed, name, new)?;
        }
        Ok(())
    }

    /// Adds the new names of things whose names only the old LDF has. Known names keep their new names.
    pub(crate) fn add_renamed(
        &mut self,
        alloc: Global,
        olds: &[Keyed<'a>],
        news: &[Keyed<'a>],
    ) -> Result<(), AllocError>
        ensures { OnOk result (AddsNames self.old self.new
            (renamed_in (map keyed_name olds.now) (map keyed_name news.now))) }
    {
        let old_names = key_names(alloc, olds)?;
        let new_names = key_names(alloc, news)?;
        for old in olds {
            let new = new_name(&old_names, &new_names, old);
            self.put(old.name, new)?;
        }
        Ok(())
    }
}
