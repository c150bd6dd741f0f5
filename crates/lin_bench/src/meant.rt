//! The values of a signal that words say.

ghost use Rattle.std.specs.Prelude.{◌≡◌, ◌≤◌, ◌^◌, length, IfOk, unsigned_abs};
ghost use Rattle.lin_values.specs.Raws.{values_of};
ghost use Rattle.lin_bench.specs.Meant.{is_among_values, only_one, values_within};

use lin_frame::Value;
use lin_values::{Coded, Raws};
use std::alloc::{AllocError, Global};
use std::marker::Model;
use std::rc::Rc;

/// The values of a signal that words say. Contracts see all of them: scalars from the lowest on, and
/// arrays.
#[derive(Drop)]
pub struct MeantValues {
    raws: Rc<Raws, Global>,
}

impl Model for MeantValues {
    ghost use Rattle.std.specs.Prelude.{List};
    ghost use Rattle.lin_frame.specs.declared.value.Value.{Value as RawValue};
    ghost use Rattle.lin_bench.specs.Meant.{values_in, AreSmall};

    ghost Value = { List RawValue };

    ghost view = { λ m. values_in m.raws.value };

    ghost invariant = { λ m. AreSmall m.raws.value };
}

impl MeantValues {
    /// Those with a text: that of a value, a decimal with its unit or without one, digits, or
    /// characters in quotes.
    ///
    /// An error means out of memory.
    pub fn of_text(
        alloc: Global,
        coded: &Coded,
        signal: u16,
        text: &[u8],
    ) -> Result<MeantValues, AllocError>
        ensures { IfOk result (λ m. m ≡ values_of coded.now signal text.now) }
    {
        let raws = coded.raws_of(alloc, signal, text)?;
        Ok(MeantValues {
            raws: Rc::new(alloc, raws)?,
        })
    }

    /// Those that mean a decimal from one to another, in units of 10 ^ -24, with this unit, or with any
    /// where it is empty.
    ///
    /// An error means out of memory.
    pub fn within(
        alloc: Global,
        coded: &Coded,
        signal: u16,
        low: i128,
        high: i128,
        unit: &[u8],
    ) -> Result<MeantValues, AllocError>
        requires low { unsigned_abs low ≤ 10 ^ 38 }
        requires high { unsigned_abs high ≤ 10 ^ 38 }
        ensures { IfOk result (λ m. m ≡ values_within coded.now signal low high unit.now) }
    {
        let raws = coded.raws_within(alloc, signal, low, high, unit)?;
        Ok(MeantValues {
            raws: Rc::new(alloc, raws)?,
        })
    }

    /// Returns the same values. An error means out of memory.
    pub(crate) fn copy(&self) -> Result<MeantValues, AllocError>
        ensures { IfOk result (λ m. m ≡ self.now) }
    {
        Ok(MeantValues {
            raws: self.raws.clone()?,
        })
    }

    /// Whether a value is one of them.
    pub fn has(&self, value: &Value) -> bool
        ensures { result ≡ is_among_values self.now value.now }
    {
        self.raws.as_ref().has(value)
    }

    /// How many there are.
    pub fn count(&self) -> u64
        ensures { result ≡ length self.now }
    {
        self.raws.as_ref().count()
    }

    /// The one that there is, where it is one alone.
    pub fn only(&self) -> Option<Value>
        ensures { result ≡ only_one self.now }
    {
        let raws = self.raws.as_ref();
        if raws.count() == 1 { raws.only() } else { None }
    }
}
