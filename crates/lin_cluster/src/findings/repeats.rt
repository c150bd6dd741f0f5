//! Numbers whose value an earlier number has, by the first two places of each value.

ghost use Rattle.std.specs.Prelude.{◌≡◌, ◌&&◌, ◌||◌, List, OnOk, IfOk, nat_eq, false};
ghost use Rattle.std.specs.Option.{option_copied, option_map_or};
ghost use Rattle.indexmap.specs.IndexMap.{get};
ghost use Rattle.lin_cluster.specs.Identifiers.{is_up_to, is_repeated};
ghost use Rattle.lin_cluster.specs.FindingsRepeats.{has_one, has_two, has_two_with, is_use, CountsUses};
ghost use Rattle.lin_parts.specs.declared.description.Number.{Number};

use indexmap::IndexMap;
use lin_parts::description::Number;
use std::alloc::{AllocError, Global};
use std::marker::Model;

/// The first two of the numbers that have one value, by place.
#[derive(Clone, Copy)]
struct Uses {
    first: Number,
    second: Option<Number>,
}

/// Numbers, and the first two of each value. Contracts see the numbers.
pub struct Repeats {
    all: Vec<Number>,
    uses: IndexMap<u32, Uses>,
}

// Written out, so that what owns one lets it go in one step.
impl Drop for Repeats {
    fn drop(self) {
        let Repeats {
            all: _all,
            uses: _uses,
        } = self;
    }
}

impl Model for Repeats {
    ghost use Rattle.std.specs.Prelude.{List};
    ghost use Rattle.lin_cluster.specs.FindingsRepeats.{CountsUses};
    ghost use Rattle.lin_parts.specs.declared.description.Number.{Number};

    ghost Value = { List Number };

    ghost view = { λ r. r.all.items };

    ghost invariant = { λ r. CountsUses r.all.items r.uses };
}

fn is_up_to(x: &Number, y: &Number) -> bool
    ensures { result ≡ is_up_to x.now y.now }
{
    y.line < x.line || (y.line == x.line && y.column <= x.column)
}

fn earlier(a: Number, b: Number) -> Number
    ensures { (x : Number) → is_up_to x result ≡ (is_up_to x a || is_up_to x b) }
{
    if is_up_to(&b, &a) { a } else { b }
}

fn later(a: Number, b: Number) -> Number
    ensures { (x : Number) → is_up_to x result ≡ (is_up_to x a && is_up_to x b) }
{
    if is_up_to(&b, &a) { b } else { a }
}

// The first two of one more number.
fn with_use(uses: Option<&Uses>, id: Number) -> Uses
    ensures first { (x : Number)
        → is_up_to x result.first ≡ (has_one (option_copied uses.entry) x || is_up_to x id) }
    ensures second { (x : Number)
        → option_map_or (is_up_to x) result.second false
        ≡ has_two_with (option_copied uses.entry) x (is_up_to x id) }
{
    match uses {
        Some(uses) => {
            let both = later(uses.first, id);
            let second = match uses.second {
                Some(second) => earlier(second, both),
                None => both,
            };
            Uses {
                first: earlier(uses.first, id),
                second: Some(second),
            }
        }
        None => Uses {
            first: id,
            second: None,
        },
    }
}

fn count(uses: &mut IndexMap<u32, Uses>, id: Number) -> Result<(), AllocError>
    ensures one { OnOk result
        ((x : Number)
        → has_one (get nat_eq uses.new x.value) x
        ≡ (has_one (get nat_eq uses.old x.value) x || is_use x id)) }
    ensures two { OnOk result
        ((x : Number)
        → has_two (get nat_eq uses.new x.value) x
        ≡ has_two_with (get nat_eq uses.old x.value) x (is_use x id)) }
{
    let more = with_use(uses.get(&id.value), id);
    uses.insert(id.value, more)?;
    Ok(())
}

fn counted(alloc: Global, ids: &[Number]) -> Result<IndexMap<u32, Uses>, AllocError>
    ensures { IfOk result (CountsUses ids.now) }
{
    let mut uses = IndexMap::new(alloc);
    for id in ids {
        count(&mut uses, *id)?;
    }
    Ok(uses)
}

impl Repeats {
    /// An error means out of memory.
    pub fn new(alloc: Global, all: Vec<Number>) -> Result<Repeats, AllocError>
        ensures { IfOk result (λ r. r ≡ all.items) }
    {
        let uses = counted(alloc, all.as_slice())?;
        Ok(Repeats { all, uses })
    }

    /// Returns all numbers, in the order in which they were given.
    pub fn numbers(&self) -> &[Number]
        ensures { result.now ≡ self.now }
    {
        self.all.as_slice()
    }

    /// Whether up to the place of a number more than one has its value.
    pub fn is_repeated(&self, x: &Number) -> bool
        ensures { result ≡ is_repeated self.now x.now }
    {
        match self.uses.get(&x.value) {
            Some(uses) => match uses.second {
                Some(second) => is_up_to(x, &second),
                None => false,
            },
            None => false,
        }
    }
}
