//! Which warnings are reported, and which of these are denied: `--allow` and `--deny` of `check`.

ghost use Rattle.std.specs.Prelude.{◌≡◌, ◌&&◌, [], IfOk};
ghost use Rattle.std.specs.List.{list_any};
ghost use Rattle.lin_tool.specs.Levels.{is_in_ranges, is_denied, is_reported, reported_remarks};

use lin_field::Remark;
use lin_text::Many;
use std::alloc::{AllocError, Global};

/// Numbers of warnings, from the first to the last.
#[derive(Clone, Copy, Debug, PartialEq)]
pub struct NumberRange {
    pub first: u8,
    pub last: u8,
}

/// Warnings that aren't reported, and warnings that end the program with exit status 6 if they are.
#[derive(Debug, Drop)]
pub struct Levels {
    pub allowed: Many<NumberRange>,
    pub denied: Many<NumberRange>,
}

/// Whether one of these ranges has a number.
fn is_among(ranges: &[NumberRange], number: u8) -> bool
    ensures { result ≡ is_in_ranges ranges.now number }
{
    ranges
        .iter()
        .any(|range| range.first <= number && number <= range.last)
}

impl Levels {
    /// Each warning is reported, and none is denied.
    pub fn new(alloc: Global) -> Levels
        ensures allowed { result.allowed ≡ [] }
        ensures denied { result.denied ≡ [] }
    {
        Levels {
            allowed: Many::new(Vec::new(alloc)),
            denied: Many::new(Vec::new(alloc)),
        }
    }

    /// Whether a finding or a warning is reported.
    pub(crate) fn is_reported(&self, remark: &Remark) -> bool
        ensures { result ≡ is_reported self.now.allowed remark.now }
    {
        !(remark.is_warning && is_among(self.allowed.as_slice(), remark.finding.number))
    }

    fn is_denied(&self, remark: &Remark) -> bool
        ensures { result ≡ is_denied self.now.denied remark.now }
    {
        remark.is_warning && is_among(self.denied.as_slice(), remark.finding.number)
    }

    /// The findings and warnings that are reported, in their order.
    ///
    /// An error means out of memory.
    pub(crate) fn reported(
        &self,
        alloc: Global,
        remarks: &[Remark],
    ) -> Result<Vec<Remark>, AllocError>
        ensures { IfOk result (λ r. r.items ≡ reported_remarks self.now.allowed remarks.now) }
    {
        let mut reported = Vec::new(alloc);
        for remark in remarks {
            if self.is_reported(remark) {
                reported.push(*remark)?;
            }
        }
        Ok(reported)
    }

    /// Whether a warning is reported and denied.
    fn is_reported_and_denied(&self, remark: &Remark) -> bool
        ensures { result
            ≡ (is_reported self.now.allowed remark.now && is_denied self.now.denied remark.now) }
    {
        self.is_reported(remark) && self.is_denied(remark)
    }

    /// Whether one of these warnings is.
    fn is_any_reported_and_denied(&self, remarks: &[Remark]) -> bool
        ensures { result
            ≡ list_any (λ r. is_reported self.now.allowed r && is_denied self.now.denied r)
            remarks.now }
    {
        remarks
            .iter()
            .any(|remark| self.is_reported_and_denied(remark))
    }

    /// Whether a warning that is reported is denied.
    pub(crate) fn is_any_denied(&self, remarks: &[Remark]) -> bool
        ensures { result ≡ list_any (is_denied self.now.denied) (reported_remarks self.now.allowed remarks.now) }
    {
        self.is_any_reported_and_denied(remarks)
    }
}
