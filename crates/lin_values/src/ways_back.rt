//! The ways back: the raw values of a text, and those within a range of decimals.

ghost use Rattle.std.specs.Prelude.{◌≡◌, ◌≤◌, ◌^◌, IfOk, Some, option_map, unsigned_abs};
ghost use Rattle.lin_frame.specs.declared.value.Value.{Value};
ghost use Rattle.std.specs.Prelude.{All, AllPairs};
ghost use Rattle.lin_values.specs.Layers.{IsBefore, IsSomeSpan};
ghost use Rattle.lin_values.specs.Raws.{coded_raws, decimals_of, has, is_this, raws_of, raws_within, unit_behind, AreWide, seeks_of, HaveNumbers};

use crate::coded::Coded;
use crate::decimals::units;
use crate::layers::Span;
use crate::meaning::shown;
use crate::raws::Raws;
use crate::script_decimals::number_and_unit;
use crate::sought::{Sought, spans_of};
use crate::spelled::coded_value;
use lin_frame::Value;
use lin_text::Many;
use std::alloc::{AllocError, Global};

/// What is looked for, where a text is.
fn sought_text(text: &[u8]) -> Sought<'_>
    ensures text { option_map (λ t. t.now) result.text ≡ Some text.now }
    ensures decimals { result.decimals ≡ decimals_of text.now }
    ensures unit { result.unit.now ≡ unit_behind text.now }
    ensures wide { AreWide result.decimals }
{
    let (decimals, unit) = match number_and_unit(text) {
        Some((number, unit)) => {
            let units = units(number);
            (Some((units, units)), unit)
        }
        None => (None, text),
    };
    Sought {
        text: Some(text),
        decimals,
        unit,
    }
}

impl Coded {
    /// The value that digits or characters spell, where they are its text.
    fn coded_as(&self, alloc: Global, signal: u16, text: &[u8]) -> Result<Option<Value>, AllocError>
        ensures { IfOk result
            (λ o. (v : Value) → is_this o v ≡ coded_raws self.now signal text.now v) }
    {
        let Some(known) = self.signal(signal) else {
            return Ok(None);
        };
        if known.is_wide_array() {
            return Ok(None);
        }
        let Some(value) = coded_value(known, text) else {
            return Ok(None);
        };
        match self.meaning(signal, &value) {
            Some(meaning) if meaning.is_coded() => {
                let shown = shown(alloc, &meaning)?;
                Ok(if shown.as_slice() == text {
                    Some(value)
                } else {
                    None
                })
            }
            _ => Ok(None),
        }
    }

    fn spans(
        &self,
        alloc: Global,
        signal: u16,
        sought: &Sought<'_>,
    ) -> Result<Many<Span>, AllocError>
        requires { AreWide sought.now.decimals }
        ensures found { IfOk result (HaveNumbers (seeks_of sought.now self.now signal)) }
        ensures some { IfOk result (λ spans. All IsSomeSpan spans) }
        ensures apart { IfOk result (λ spans. AllPairs IsBefore spans) }
    {
        match (self.signal(signal), self.encoding_of(signal)) {
            (Some(known), Some(encoding)) => {
                Ok(Many::new(spans_of(alloc, known, encoding, sought)?))
            }
            _ => Ok(Many::new(Vec::new(alloc))),
        }
    }

    /// The raw values of a signal that have this text; a decimal may be spelled otherwise, and may
    /// stand without its unit, or close to it.
    ///
    /// An error means out of memory.
    pub fn raws_of(&self, alloc: Global, signal: u16, text: &[u8]) -> Result<Raws, AllocError>
        ensures { IfOk result (λ r. (v : Value) → has r v ≡ raws_of self.now signal text.now v) }
    {
        let sought = sought_text(text);
        let spans = self.spans(alloc, signal, &sought)?;
        let coded = self.coded_as(alloc, signal, text)?;
        Ok(Raws::new(spans, coded))
    }

    /// The raw values of a signal that mean a decimal from one to another, in units of 10 ^ -24,
    /// with this unit, or with any where it is empty.
    ///
    /// An error means out of memory.
    pub fn raws_within(
        &self,
        alloc: Global,
        signal: u16,
        low: i128,
        high: i128,
        unit: &[u8],
    ) -> Result<Raws, AllocError>
        requires low { unsigned_abs low ≤ 10 ^ 38 }
        requires high { unsigned_abs high ≤ 10 ^ 38 }
        ensures { IfOk result
            (λ r. (v : Value) → has r v ≡ raws_within self.now signal low high unit.now v) }
    {
        let sought = Sought {
            text: None,
            decimals: Some((low, high)),
            unit,
        };
        Ok(Raws::new(self.spans(alloc, signal, &sought)?, None))
    }
}
