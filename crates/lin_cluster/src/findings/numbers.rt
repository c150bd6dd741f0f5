//! Sets of numbers.

ghost use Rattle.std.specs.Prelude.{◌≡◌, ◌||◌, ℕ, false, get_or, nat_eq, IfOk, OnOk};
ghost use Rattle.lin_cluster.specs.FindingsPlaces.{has_number};

use indexmap::IndexSet;
use std::alloc::{AllocError, Global};

/// More signals than a cluster may have (1,024) are rare.
const FEW: usize = 1024;

/// A set of numbers: those below 1,024 as flags, the others as a set.
pub(super) struct NumberSet {
    few: [bool; FEW],
    others: IndexSet<usize>,
}

// Written out, so that what owns one lets it go in one step.
impl Drop for NumberSet {
    fn drop(self) {
        let NumberSet {
            few: _,
            others: _others,
        } = self;
    }
}

fn no_flags() -> [bool; FEW]
    ensures { (q : ℕ) → get_or result q false ≡ false }
{
    [false; FEW]
}

/// No numbers.
pub(super) fn no_numbers(alloc: Global) -> NumberSet
    ensures { (q : ℕ) → has_number result q ≡ false }
{
    let others = IndexSet::new(alloc);
    NumberSet {
        few: no_flags(),
        others,
    }
}

/// Adds a number, and says whether it is there already. An error means out of memory.
pub(super) fn stands_twice(numbers: &mut NumberSet, number: usize) -> Result<bool, AllocError>
    ensures twice { IfOk result (λ twice. twice ≡ has_number numbers.old number) }
    ensures added { OnOk result
        ((q : ℕ) → has_number numbers.new q ≡ (has_number numbers.old q || nat_eq number q)) }
{
    if number < FEW {
        let twice = numbers.few[number];
        numbers.few[number] = true;
        return Ok(twice);
    }
    let is_new = numbers.others.insert(number)?;
    Ok(!is_new)
}
