//! A type of encoding, with what is found in it quickly, and what is wrong with its items.

ghost use Rattle.std.specs.Prelude.{◌≡◌, ◌++◌, ◌∷◌, ◌%◌, ◌==◌, ◌&&◌, ◌||◌, ◌<◌, ◌^◌, [], ℕ, not, IfOk};
ghost use Rattle.std.specs.Prelude.{OnOk, option_and_then, option_map};
ghost use Rattle.std.specs.List.{list_any};
ghost use Rattle.std.specs.Option.{option_or};
ghost use Rattle.lin_cluster.specs.FindingsNames.{at_place};
ghost use Rattle.lin_values.specs.Coded.{all_items, first_coding, greatest_end, has_value, in_range};
ghost use Rattle.lin_values.specs.Coded.{is_numeric, is_range, item_by, item_for, range_in};
ghost use Rattle.lin_values.specs.Coded.{range_of, second_coding};
ghost use Rattle.lin_values.specs.ItemNumbers.{range_at, range_told, span_told, item_with_value, value_told};
ghost use Rattle.lin_values.specs.Layers.{in_span, item_in, AreInOrder, AddsItem};
ghost use Rattle.lin_values.specs.Traits.{has_coding, with_coding, with_number, with_traits};
ghost use Rattle.lin_values.specs.Warnings.{item_warnings, range_warnings, value_warnings};
ghost use Rattle.lin_values.specs.declared.encoding.Coding.TheVariants.{Bcd, Ascii};

use crate::codings::{CodingType, Item, PlacedItem};
use crate::decimal_limits::Coefficient;
use crate::decimals::fits;
use crate::layers::{Layers, RangePart, Span, item_at};
use lin_cluster::{Finding, FindingKind};
use lin_text::Many;
use std::alloc::{AllocError, Global};
use std::marker::Model;

/// How all raw values of a signal are coded that no item has.
#[derive(Clone, Copy, Debug, PartialEq, Eq)]
pub enum Coding {
    Bcd,
    Ascii,
}

/// What the items of a type are.
#[derive(Clone, Copy, Debug)]
pub struct Traits {
    /// Whether there are values or ranges.
    pub is_numeric: bool,
    pub has_range: bool,
    /// The greatest value, and end of a range; 0 where there are none.
    pub greatest: u64,
    pub first: Option<Coding>,
    pub second: Option<Coding>,
}

impl Traits {
    fn number(&mut self, value: u64)
        ensures { self.new ≡ with_number self.old value }
    {
        self.is_numeric = true;
        self.greatest = self.greatest.max(value);
    }

    fn code(&mut self, coding: Coding)
        ensures { self.new ≡ with_coding self.old coding }
    {
        let first = self.first;
        match first {
            None => self.first = Some(coding),
            Some(first) if first == coding => {}
            Some(_) => self.second = Some(coding),
        }
    }

    fn add(&mut self, item: &Item)
        ensures { self.new ≡ with_traits self.old item.now }
    {
        match item {
            Item::Logical { value, .. } => self.number(*value),
            Item::Physical {
                max,
                scale,
                offset,
                ..
            } => {
                if fits(*max, scale.decimal(), offset.decimal()) {
                    self.number(*max);
                    self.has_range = true;
                }
            }
            Item::Bcd => self.code(Coding::Bcd),
            Item::Ascii => self.code(Coding::Ascii),
        }
    }

    fn has(self, coding: Coding) -> bool
        ensures { result ≡ has_coding self coding }
    {
        self.first == Some(coding) || self.second == Some(coding)
    }

    /// Whether so many bits of a scalar aren't whole digits or characters, where they are coded so.
    pub(crate) fn breaks(self, bits: u8) -> bool
        ensures { result ≡ (has_coding self Bcd && not (bits % 4 == 0)
            || (has_coding self Ascii && not (bits % 8 == 0))) }
    {
        self.has(Coding::Bcd) && bits % 4 != 0 || self.has(Coding::Ascii) && bits % 8 != 0
    }

    /// Those of a list of items.
    pub(crate) fn of(items: &[PlacedItem]) -> Traits
        ensures numeric { result.is_numeric ≡ is_numeric items.now }
        ensures range { result.has_range ≡ list_any is_range (all_items items.now) }
        ensures greatest { result.greatest ≡ greatest_end items.now }
        ensures first { result.first ≡ first_coding items.now }
        ensures second { result.second ≡ second_coding items.now }
    {
        let mut traits = Traits {
            is_numeric: false,
            has_range: false,
            greatest: 0,
            first: None,
            second: None,
        };
        for one in items {
            traits.add(&one.item);
        }
        traits
    }
}

/// A type of encoding. Contracts see its name and its items.
pub struct Encoding {
    coding: CodingType,
    traits: Traits,
    parts: Many<RangePart>,
}

impl Model for Encoding {
    ghost use Rattle.lin_values.specs.declared.codings.CodingType.{CodingType};

    ghost Value = { CodingType };

    ghost use Rattle.lin_values.specs.Coded.{IsIndexed};

    ghost view = { λ e. e.coding };

    ghost invariant = { λ e. IsIndexed e.coding e.traits e.parts };
}

// (written out, so that an owner has one call)
impl Drop for Encoding {
    fn drop(self) {
        let Encoding {
            coding: _coding,
            traits: _,
            parts: _parts,
        } = self;
    }
}

fn push_at(warned: &mut Vec<Finding>, kind: FindingKind, one: &PlacedItem) -> Result<(), AllocError>
    ensures { OnOk result
        (warned.new.items ≡ warned.old.items ++ at_place kind one.now.place ∷ []) }
{
    warned.push(Finding::new(kind, one.place))?;
    Ok(())
}

/// Adds the value that an item is, if it is one, and tells where an earlier one has it.
fn add_value(
    layers: &mut Layers,
    number: usize,
    one: &PlacedItem,
    warned: &mut Vec<Finding>,
) -> Result<(), AllocError>
    ensures warned { OnOk result (warned.new.items
        ≡ warned.old.items ++ value_told layers.old one.now one.now.item) }
    ensures layers { OnOk result
        (AddsItem (λ raw. has_value raw one.now.item) number layers.old layers.new) }
{
    if let Item::Logical { value, .. } = &one.item {
        let span = Span {
            from: *value,
            to: *value,
        };
        if layers.add(span, number)? {
            push_at(warned, FindingKind::LogicalTwice, one)?;
        }
    }
    Ok(())
}

/// Adds the values of items to no layers, and tells those that an earlier one has.
fn add_values(
    layers: &mut Layers,
    items: &[PlacedItem],
    warned: &mut Vec<Finding>,
) -> Result<(), AllocError>
    requires { layers.old ≡ [] }
    ensures warned { OnOk result
        (warned.new.items ≡ warned.old.items ++ value_warnings items.now) }
    ensures layers { OnOk result
        ((raw : ℕ) → item_in layers.new raw ≡ item_with_value items.now raw) }
{
    for number in 0..items.len() {
        add_value(layers, number, &items[number], warned)?;
    }
    Ok(())
}

/// Adds a range to the layers of values and ranges, and to those of ranges alone, and tells what is
/// wrong with its ends.
fn add_span(
    layers: &mut Layers,
    ranges: &mut Layers,
    number: usize,
    one: &PlacedItem,
    span: Span,
    warned: &mut Vec<Finding>,
) -> Result<(), AllocError>
    ensures warned { OnOk result
        (warned.new.items ≡ warned.old.items ++ span_told ranges.old span one.now) }
    ensures ranges { OnOk result (AddsItem (in_span span) number ranges.old ranges.new) }
    ensures layers { OnOk result (AddsItem (in_span span) number layers.old layers.new) }
{
    if span.from > span.to {
        return push_at(warned, FindingKind::MinAboveMax, one);
    }
    layers.add(span, number)?;
    if ranges.add(span, number)? {
        push_at(warned, FindingKind::RangesOverlap, one)?;
    }
    Ok(())
}

/// Adds the range that an item is, if it is one that fits, and tells what is wrong with it.
fn add_range(
    layers: &mut Layers,
    ranges: &mut Layers,
    number: usize,
    one: &PlacedItem,
    warned: &mut Vec<Finding>,
) -> Result<(), AllocError>
    ensures warned { OnOk result (warned.new.items
        ≡ warned.old.items ++ range_told ranges.old one.now one.now.item) }
    ensures ranges { OnOk result
        (AddsItem (λ raw. in_range raw one.now.item) number ranges.old ranges.new) }
    ensures layers { OnOk result
        (AddsItem (λ raw. in_range raw one.now.item) number layers.old layers.new) }
{
    if let Item::Physical {
        min,
        max,
        scale,
        offset,
        ..
    } = &one.item
    {
        if !fits(*max, scale.decimal(), offset.decimal()) {
            return push_at(warned, FindingKind::BadEncoding, one);
        }
        let span = Span {
            from: *min,
            to: *max,
        };
        add_span(layers, ranges, number, one, span, warned)?;
        if scale.decimal().digits == 0 {
            push_at(warned, FindingKind::ZeroScale, one)?;
        }
    }
    Ok(())
}

/// Adds the ranges of items to the layers of values, and tells what is wrong with them.
fn add_ranges(
    alloc: Global,
    layers: &mut Layers,
    items: &[PlacedItem],
    warned: &mut Vec<Finding>,
) -> Result<(), AllocError>
    ensures warned { OnOk result
        (warned.new.items ≡ warned.old.items ++ range_warnings items.now) }
    ensures layers { OnOk result ((raw : ℕ) → item_in layers.new raw
        ≡ option_or (item_in layers.old raw) (range_at items.now raw)) }
{
    let mut ranges = Layers::new(alloc);
    for number in 0..items.len() {
        add_range(layers, &mut ranges, number, &items[number], warned)?;
    }
    Ok(())
}

impl Encoding {
    /// An encoding of a type; what is wrong with its items is told.
    ///
    /// An error means out of memory.
    pub(crate) fn new(
        alloc: Global,
        coding: CodingType,
        warned: &mut Vec<Finding>,
    ) -> Result<Encoding, AllocError>
        ensures same { IfOk result (λ e. e ≡ coding) }
        ensures warned { OnOk result
            (warned.new.items ≡ warned.old.items ++ item_warnings coding.items) }
    {
        let items = coding.items.as_slice();
        let mut layers = Layers::new(alloc);
        add_values(&mut layers, items, warned)?;
        add_ranges(alloc, &mut layers, items, warned)?;
        let traits = Traits::of(items);
        Ok(Encoding {
            traits,
            parts: Many::new(layers.into_parts()?),
            coding,
        })
    }

    /// The items of the encoding.
    pub fn coding(&self) -> &CodingType
        ensures { result.now ≡ self.now }
    {
        &self.coding
    }

    /// What the items have in common, found once.
    pub fn traits(&self) -> Traits
        ensures numeric { result.is_numeric ≡ is_numeric self.now.items }
        ensures range { result.has_range ≡ list_any is_range (all_items self.now.items) }
        ensures greatest { result.greatest ≡ greatest_end self.now.items }
        ensures first { result.first ≡ first_coding self.now.items }
        ensures second { result.second ≡ second_coding self.now.items }
    {
        self.traits
    }

    /// The numbers of raw values for which each item counts, in order.
    pub(crate) fn parts(&self) -> &[RangePart]
        ensures ordered { AreInOrder result.now }
        ensures found { (raw : ℕ) → raw < 2 ^ 64
            → option_and_then (item_by self.now.items) (item_in result.now raw)
            ≡ item_for self.now.items raw }
    {
        self.parts.as_slice()
    }

    /// The item by its number.
    pub(crate) fn item(&self, number: usize) -> Option<&Item>
        ensures { option_map (λ i. i.now) result ≡ item_by self.now.items number }
    {
        match self.coding.items.as_slice().get(number) {
            Some(one) => Some(&one.item),
            None => None,
        }
    }

    /// The item that counts for a number, which a scalar or a wide signal has: the first value, and else
    /// the first range, that has it.
    pub fn item_for(&self, raw: u64) -> Option<&Item>
        ensures { option_map (λ i. i.now) result ≡ item_for self.now.items raw }
    {
        self.item(item_at(self.parts.as_slice(), raw)?)
    }
}

/// A range of an encoding: its first and last raw value, its scale, its offset and its unit.
#[derive(Clone, Copy)]
pub struct Range<'a> {
    pub min: u64,
    pub max: u64,
    pub scale: Coefficient,
    pub offset: Coefficient,
    pub unit: &'a [u8],
}

impl Item {
    /// The range that an item is.
    pub fn as_range(&self) -> Option<Range<'_>>
        ensures { option_map range_of result ≡ range_in self.now }
    {
        match self {
            Item::Physical {
                min,
                max,
                scale,
                offset,
                unit,
            } => Some(Range {
                min: *min,
                max: *max,
                scale: *scale,
                offset: *offset,
                unit: unit.as_slice(),
            }),
            _ => None,
        }
    }
}
