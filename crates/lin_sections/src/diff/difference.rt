//! A difference between two LDFs.

ghost use Rattle.std.specs.Prelude.{◌≡◌};
ghost use Rattle.lin_sections.specs.Differences.{difference_between, difference_data};

use crate::diff::fact::{Class, Thing, ThingKind};
use lin_parts::Location;

/// A difference between two LDFs. If only one LDF has the thing, the other place is `None`. A value is
/// `None` if that LDF doesn't have it.
#[derive(Clone, Copy)]
pub struct Difference<'t> {
    pub class: Class,
    pub kind: ThingKind,
    pub old_place: Option<Location>,
    pub new_place: Option<Location>,
    /// The new name of the thing with the fact; empty if the thing itself differs.
    pub name: &'t [u8],
    /// The key of the fact; `entry` or `delay` for an entry of a schedule table; empty if the thing itself
    /// differs.
    pub label: &'t [u8],
    /// The word of the entry; empty for a fact.
    pub entry: &'t [u8],
    pub old: Option<&'t [u8]>,
    pub new: Option<&'t [u8]>,
}

/// Returns the difference between two things: their names and places.
pub(crate) fn thing_difference<'t>(
    class: Class,
    kind: ThingKind,
    old: Option<(&'t [u8], Location)>,
    new: Option<(&'t [u8], Location)>,
) -> Difference<'t>
    ensures { difference_data result ≡ difference_between class kind old.entry new.entry }
{
    let (old_name, old_place) = match old {
        Some((name, place)) => (Some(name), Some(place)),
        None => (None, None),
    };
    let (new_name, new_place) = match new {
        Some((name, place)) => (Some(name), Some(place)),
        None => (None, None),
    };
    Difference {
        class,
        kind,
        old_place,
        new_place,
        name: &[],
        label: &[],
        entry: &[],
        old: old_name,
        new: new_name,
    }
}

/// Returns the name and the place of a thing.
pub(crate) fn named<'t>(thing: &'t Thing<'_>) -> (&'t [u8], Location)
    ensures name { result.0.now ≡ thing.now.name }
    ensures place { result.1 ≡ thing.now.place }
{
    (thing.name.as_slice(), thing.place)
}
