//! Decimals within limits: scales and offsets of ranges, and physical values (LIN 2.2A, section
//! 9.2.6.1).

ghost use Rattle.std.specs.Prelude.{◌≡◌, ◌<◌, ◌^◌, true, unsigned_abs};
ghost use lib.IntN.{◌+ℤ◌, ◌*ℤ◌, pos};
ghost use Rattle.lin_values.specs.Value.{decimal_of, fits, scaled_value, IsExact, IsInLimits, IsShortest};

use crate::decimals::{Decimal, physical, units};
use std::marker::Model;

/// A scale or an offset: a decimal below 10 ^ 9 in size, with at most 24 places. Contracts see the
/// decimal.
#[derive(Clone, Copy, Debug)]
pub struct Coefficient {
    decimal: Decimal,
}

impl Model for Coefficient {
    ghost use Rattle.lin_values.specs.declared.decimals.Decimal.{Decimal};
    ghost use Rattle.lin_values.specs.Value.{IsInLimits};

    ghost Value = { Decimal };

    ghost view = { λ c. c.decimal };

    ghost invariant = { λ c. IsInLimits c.decimal };

    ghost inverse = { λ d. record { decimal = d } };
}

impl Coefficient {
    /// Makes a coefficient of a number in the limits of physical ranges.
    pub fn new(decimal: Decimal) -> Coefficient
        requires { IsInLimits decimal }
        ensures { result ≡ decimal }
    {
        Coefficient { decimal }
    }

    /// The number.
    pub fn decimal(&self) -> Decimal
        ensures same { result ≡ self.now }
        ensures limits { IsInLimits result }
    {
        self.decimal
    }

    /// Its value in units of 10 ^ -24.
    pub fn units(&self) -> i128
        ensures same { result ≡ scaled_value self.now }
        ensures small { unsigned_abs result < 10 ^ 33 }
    {
        units(self.decimal)
    }
}

/// What a raw value is physically. Contracts see it in units of 10 ^ -24.
#[derive(Drop)]
pub struct PhysicalValue {
    decimal: Decimal,
}

impl Model for PhysicalValue {
    ghost use Rattle.std.specs.Prelude.{ℤ};
    ghost use Rattle.lin_values.specs.Value.{scaled_value, IsExact, IsShortest};

    ghost Value = { ℤ };

    ghost view = { λ p. scaled_value p.decimal };

    ghost invariant = { λ p. IsExact p.decimal × IsShortest p.decimal };
}

impl PhysicalValue {
    /// `number * scale + offset`.
    pub fn new(number: u64, scale: Coefficient, offset: Coefficient) -> PhysicalValue
        requires { fits number scale offset ≡ true }
        ensures { result ≡ pos number *ℤ scaled_value scale +ℤ scaled_value offset }
    {
        PhysicalValue {
            decimal: physical(number, scale.decimal(), offset.decimal()),
        }
    }

    /// The shortest decimal of this value.
    pub fn decimal(&self) -> Decimal
        ensures same { result ≡ decimal_of self.now }
        ensures limits { IsExact result }
        ensures form { IsShortest result }
    {
        self.decimal
    }
}
