//! What has a name, and the numbers of names: that of the first declaration that has the name, or
//! the one after the last.

ghost use Rattle.std.specs.Prelude.{◌≡◌, List, ℕ, OnOk, IfOk, Some, None, find, if◌then◌else◌};
ghost use Rattle.std.specs.List.{position_or_len};
ghost use Rattle.std.specs.Option.{option_copied, option_or};
ghost use Rattle.std.specs.Str.{bytes_eq};
ghost use Rattle.lin_cluster.specs.FindingsNames.{same_name};
ghost use Rattle.lin_cluster.specs.Names.{NumbersFirst, under};

use indexmap::IndexMap;
use lin_parts::description::{Attributes, Name};
use std::alloc::{AllocError, Global};

/// What is declared with a name.
pub trait Named {
    ghost use Rattle.lin_parts.specs.declared.description.Name.{Name};

    ghost name_of: { Self → Name };

    fn name(&self) -> &Name
        ensures { result.now ≡ name_of self.now };
}

impl Named for Name {
    ghost name_of = { λ n. n };

    fn name(&self) -> &Name {
        self
    }
}

impl Named for Attributes {
    ghost name_of = { λ a. a.node };

    fn name(&self) -> &Name {
        &self.node
    }
}

/// Whether two names have the same text.
pub(crate) fn is_name(name: &Name, other: &Name) -> bool
    ensures { result ≡ same_name name.now other.now }
{
    name.text.as_slice() == other.text.as_slice()
}

/// Gives a name what it names, where it names nothing yet.
pub fn add<'a, V: Copy>(
    map: &mut IndexMap<&'a [u8], V>,
    name: &'a [u8],
    value: V,
) -> Result<(), AllocError>
    ensures { OnOk result
        ((q : List ℕ)
        → under map.new q
        ≡ option_or (under map.old q) (if bytes_eq name.now q then Some value else None)) }
{
    if !map.contains_key(&name) {
        map.insert(name, value)?;
    }
    Ok(())
}

/// The number of the first declaration with each name, by the name's text.
pub struct Numbers<'a> {
    pub map: IndexMap<&'a [u8], usize>,
}

// Written out, so that what owns one lets it go in one step.
impl<'a> Drop for Numbers<'a> {
    fn drop(self) {
        let Numbers { map: _map } = self;
    }
}

/// Each name is looked at once; an error means out of memory.
pub fn numbers_of<'a, T: Named>(alloc: Global, all: &'a [T]) -> Result<Numbers<'a>, AllocError>
    ensures { IfOk result (λ n. NumbersFirst T.name_of all.now n.map) }
{
    let mut numbers = Numbers {
        map: IndexMap::with_capacity(alloc, all.len())?,
    };
    for (number, one) in all.iter().enumerate() {
        add(&mut numbers.map, one.name().text.as_slice(), number)?;
    }
    Ok(numbers)
}

/// The number of the first of these that has the name, or the one after the last.
pub fn number_by<T: Named>(numbers: &Numbers, all: &[T], name: &Name) -> usize
    requires { NumbersFirst T.name_of all.now numbers.now.map }
    ensures { result ≡ position_or_len (λ x. same_name (T.name_of x) name.now) all.now }
{
    match numbers.map.get(&name.text.as_slice()) {
        Some(number) => *number,
        None => all.len(),
    }
}

/// The first of these that has the name.
pub fn find_by<'a, T: Named>(numbers: &Numbers, all: &'a [T], name: &Name) -> Option<&'a T>
    requires { NumbersFirst T.name_of all.now numbers.now.map }
    ensures { option_copied result ≡ find (λ x. same_name (T.name_of x) name.now) all.now }
{
    all.get(number_by(numbers, all, name))
}
