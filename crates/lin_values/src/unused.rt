//! Encodings that no signal has (60).

ghost use Rattle.std.specs.Prelude.{◌≡◌, ℕ, IfOk, OnOk};
ghost use Rattle.std.specs.List.{list_any};
ghost use Rattle.indexmap.specs.IndexSet.{contains};
ghost use Rattle.std.specs.Prelude.{nat_eq};
ghost use Rattle.lin_cluster.specs.Names.{NumbersFirst};
ghost use Rattle.lin_values.specs.Coded.{named_in};
ghost use Rattle.lin_values.specs.Gathered.{encoding_in, type_number, AddsNamedLine, AreNamed};
ghost use Rattle.lin_values.specs.Unused.{is_raw_number, unused_encodings, AreUnused};

use crate::coded::{NamedSignals, put_first};
use crate::codings::{CodedLine, CodingType, Codings};
use indexmap::{IndexMap, IndexSet};
use lin_cluster::{
    Finding, FindingKind, Named, Numbers, at_name, number_by, numbers_of, push_when,
};
use lin_parts::description::{Description, Name, Signal};
use std::alloc::{AllocError, Global};

impl Named for CodingType {
    ghost name_of = { λ t. t.name };

    fn name(&self) -> &Name {
        &self.name
    }
}

/// The number of the encoding that has a name.
fn encoding_named(numbers: &Numbers<'_>, types: &[CodingType], name: &Name) -> Option<usize>
    requires { NumbersFirst (λ t. t.name) types.now numbers.now.map }
    ensures { result ≡ type_number types.now name.now }
{
    let number = number_by(numbers, types, name);
    if number < types.len() {
        Some(number)
    } else {
        None
    }
}

/// The names of a line have the encoding with a number, where no earlier line has them.
fn add_line<'n>(
    named: &mut NamedSignals<'n>,
    encoding: Option<usize>,
    line: &'n CodedLine,
) -> Result<(), AllocError>
    ensures { OnOk result (AddsNamedLine encoding line.now named.old.map named.new.map) }
{
    for name in line.signals.as_slice() {
        put_first(&mut named.map, name.text.as_slice(), encoding)?;
    }
    Ok(())
}

/// The numbers of the encodings that lines give to names. `numbers` are those of the types.
pub fn named_signals<'n>(
    alloc: Global,
    types: &[CodingType],
    numbers: &Numbers<'_>,
    lines: &'n [CodedLine],
) -> Result<NamedSignals<'n>, AllocError>
    requires { NumbersFirst (λ t. t.name) types.now numbers.now.map }
    ensures { IfOk result (λ n. AreNamed types.now (named_in lines.now) n.map) }
{
    let mut named = NamedSignals {
        map: IndexMap::with_capacity(alloc, 0)?,
    };
    for line in lines {
        let encoding = encoding_named(numbers, types, &line.encoding);
        add_line(&mut named, encoding, line)?;
    }
    Ok(named)
}

/// The numbers of the encodings that signals have.
fn used_numbers(
    alloc: Global,
    signals: &[Signal],
    named: &NamedSignals<'_>,
) -> Result<IndexSet<usize>, AllocError>
    ensures { IfOk result (λ used. (n : ℕ) → contains nat_eq used n
        ≡ list_any (λ s. is_raw_number n (encoding_in named.now.map s.name.text)) signals.now) }
{
    let mut used = IndexSet::new(alloc);
    for signal in signals {
        if let Some(number) = named.encoding_of(signal.name.text.as_slice()) {
            used.insert(number)?;
        }
    }
    Ok(used)
}

fn unordered(
    alloc: Global,
    description: &Description,
    codings: &Codings,
) -> Result<Vec<Finding>, AllocError>
    ensures { IfOk result (λ found. found.items ≡ unused_encodings description.now codings.now) }
{
    let types = codings.types.as_slice();
    let numbers = numbers_of(alloc, types)?;
    let named = named_signals(alloc, types, &numbers, codings.lines.as_slice())?;
    let used = used_numbers(alloc, description.signals(), &named)?;
    let mut found = Vec::new(alloc);
    for number in 0..types.len() {
        let is_unused = !used.contains(&number);
        push_when(
            &mut found,
            is_unused,
            at_name(FindingKind::UnusedEncoding, &types[number].name),
        )?;
    }
    Ok(found)
}

/// The encodings that no signal of a description has, by place, for a description in which nothing is
/// wrong. A later one with the name of an earlier one is no signal's.
///
/// An error means out of memory.
pub fn unused_encodings(
    alloc: Global,
    description: &Description,
    codings: &Codings,
) -> Result<Vec<Finding>, AllocError>
    ensures { IfOk result (λ found. AreUnused description.now codings.now found.items) }
{
    let mut found = unordered(alloc, description, codings)?;
    found.sort()?;
    Ok(found)
}
