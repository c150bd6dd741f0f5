//! The unit that all ranges of an encoding have.

ghost use Rattle.std.specs.Prelude.{◌≡◌, ◌++◌, ◌∷◌, [], ℕ, List, flat_map, option_map};
ghost use Rattle.lin_values.specs.Coded.{all_items, common_unit, has_range, unit_of};
ghost use Rattle.lin_values.specs.Units.{IsUnitOf};

use crate::coded::Coded;
use crate::encoding::Encoding;

/// The units of ranges that were looked at.
#[derive(Clone, Copy)]
enum Unit<'a> {
    NoRange,
    One(&'a [u8]),
    Several,
}

/// With the unit of one more range.
fn with_unit<'a>(before: Unit<'a>, unit: &'a [u8]) -> Unit<'a>
    ensures { (us : List (List ℕ)) → IsUnitOf before.entry us → IsUnitOf result (us ++ unit.now ∷ []) }
{
    match before {
        Unit::NoRange => Unit::One(unit),
        Unit::One(other) => if other == unit { before } else { Unit::Several },
        Unit::Several => Unit::Several,
    }
}

/// The units of the ranges of an encoding.
fn unit_of(encoding: &Encoding) -> Unit<'_>
    ensures { IsUnitOf result (flat_map unit_of (all_items encoding.now.items)) }
{
    let mut unit = Unit::NoRange;
    for one in encoding.coding().items.as_slice() {
        if let Some(range) = one.item.as_range() {
            unit = with_unit(unit, range.unit);
        }
    }
    unit
}

impl Coded {
    /// The unit that all ranges of a signal have, where they have one.
    pub fn unit(&self, signal: u16) -> Option<&[u8]>
        ensures { option_map (λ u. u.now) result ≡ common_unit self.now signal }
    {
        match unit_of(self.encoding_of(signal)?) {
            Unit::One(unit) if !unit.is_empty() => Some(unit),
            _ => None,
        }
    }

    /// Whether a signal has a range.
    pub fn has_range(&self, signal: u16) -> bool
        ensures { result ≡ has_range self.now signal }
    {
        match self.encoding_of(signal) {
            Some(encoding) => encoding.traits().has_range,
            None => false,
        }
    }
}
