//! Ranges of numbers that lie over each other: the first that has a number counts.

ghost use Rattle.std.specs.Prelude.{◌≡◌, ◌≤◌, ◌^◌, [], ℕ, IfOk, OnOk, is_some};
ghost use Rattle.std.specs.Prelude.{◌++◌, ◌∷◌, drop, length, take};
ghost use Rattle.std.specs.List.{list_any};
ghost use Rattle.lin_values.specs.Joined.{gaps, joined_span};
ghost use Rattle.lin_values.specs.Layers.{in_span, common_span, item_in, numbers_of, part_between, AreInOrder, AddsItem};

use std::alloc::{AllocError, Global};
use std::marker::Model;
use std::mem::replace;

/// The numbers from one to another, one at least.
#[derive(Clone, Copy, Debug, PartialEq, Eq, PartialOrd, Ord)]
pub struct Span {
    pub from: u64,
    pub to: u64,
}

impl Span {
    /// Whether a number is in the span.
    pub fn has(self, number: u64) -> bool
        ensures { result ≡ in_span self number }
    {
        self.from <= number && number <= self.to
    }

    /// The numbers that both have.
    pub fn common(self, other: Span) -> Option<Span>
        ensures { result ≡ common_span self other }
    {
        let from = self.from.max(other.from);
        let to = self.to.min(other.to);
        if from <= to {
            Some(Span { from, to })
        } else {
            None
        }
    }
}

/// Numbers for which one range counts.
#[derive(Clone, Copy, Debug, PartialEq, Eq, PartialOrd, Ord)]
pub struct RangePart {
    pub span: Span,
    /// The number of its item.
    pub item: usize,
}

/// Ranges, each with an item. Contracts see for which numbers each counts.
///
/// The numbers that ranges have are kept as spans, in order: so adding a range takes as many steps
/// as it joins spans.
pub struct Layers {
    alloc: Global,
    covered: Vec<Span>,
    parts: Vec<RangePart>,
}

// (written out, so that an owner has one call)
impl Drop for Layers {
    fn drop(self) {
        let Layers {
            alloc: _,
            covered: _covered,
            parts: _parts,
        } = self;
    }
}

impl Model for Layers {
    ghost use Rattle.std.specs.Prelude.{List};
    ghost use Rattle.lin_values.specs.declared.layers.RangePart.{RangePart};
    ghost use Rattle.lin_values.specs.Layers.{IsLayered};

    ghost Value = { List RangePart };

    ghost view = { λ l. l.parts.items };

    ghost invariant = { λ l. IsLayered l.covered.items l.parts.items };
}

/// The item counts for the numbers from one to before another, if there are such.
fn add_part(
    parts: &mut Vec<RangePart>,
    from: u128,
    end: u128,
    item: usize,
) -> Result<(), AllocError>
    requires { end ≤ 2 ^ 64 }
    ensures { OnOk result (parts.new.items ≡ parts.old.items ++ part_between from end item) }
{
    if from < end {
        let span = Span {
            from: from as u64,
            to: (end - 1) as u64,
        };
        parts.push(RangePart { span, item })?;
    }
    Ok(())
}

/// One span stands in the place of those from one to before another.
fn join(
    alloc: Global,
    covered: &mut Vec<Span>,
    at: usize,
    end: usize,
    whole: Span,
) -> Result<(), AllocError>
    requires order { at ≤ end }
    requires within { end ≤ length covered.old.items }
    ensures { OnOk result
        (covered.new.items ≡ take at covered.old.items ++ whole ∷ drop end covered.old.items) }
{
    if end == at {
        covered.insert(at, whole)?;
        return Ok(());
    }
    if end == at + 1 {
        covered[at] = whole;
        return Ok(());
    }
    let behind = Vec::from_slice(alloc, &covered.as_slice()[end..])?;
    covered.truncate(at);
    covered.push(whole)?;
    covered.extend_from_slice(behind.as_slice())?;
    Ok(())
}

/// What a range has that no span has, added as parts; the spans in order from one on may have some
/// of its numbers. The number of the first span behind them, and one span in the place of these and
/// of the range.
fn fill(
    parts: &mut Vec<RangePart>,
    covered: &[Span],
    at: usize,
    span: Span,
    item: usize,
) -> Result<(usize, Span), AllocError>
    requires { at ≤ length covered.now }
    ensures filled { OnOk result (parts.new.items
        ≡ parts.old.items ++ gaps span.from span.to item (drop at covered.now)) }
    ensures within { IfOk result (λ r. (at ≤ r.0) × (r.0 ≤ length covered.now)) }
    ensures whole { IfOk result (λ r. r.1 ≡ (joined_span span span.to (drop at covered.now)).0) }
    ensures behind { IfOk result
        (λ r. drop r.0 covered.now ≡ (joined_span span span.to (drop at covered.now)).1) }
{
    let mut whole = span;
    let mut next = u128::from(span.from);
    let mut end = at;
    while let Some(other) = covered.get(end).copied()
        && other.from <= span.to
    {
        add_part(parts, next, u128::from(other.from), item)?;
        next = u128::from(other.to) + 1;
        whole.from = whole.from.min(other.from);
        whole.to = whole.to.max(other.to);
        end += 1;
    }
    add_part(parts, next, u128::from(span.to) + 1, item)?;
    Ok((end, whole))
}

impl Layers {
    /// Makes layers without spans.
    pub fn new(alloc: Global) -> Layers
        ensures { result ≡ [] }
    {
        Layers {
            alloc,
            covered: Vec::new(alloc),
            parts: Vec::new(alloc),
        }
    }

    /// Adds a range behind the others; whether an earlier one has a number of it.
    ///
    /// An error means out of memory; nothing is left then.
    pub fn add(&mut self, span: Span, item: usize) -> Result<bool, AllocError>
        requires { span.from ≤ span.to }
        ensures first { OnOk result (AddsItem (in_span span) item self.old self.new) }
        ensures met { IfOk result
            (λ met. met ≡ list_any (λ n. is_some (item_in self.old n)) (numbers_of span)) }
    {
        let alloc = self.alloc;
        let mut covered = replace(&mut self.covered, Vec::new(alloc));
        let mut parts = replace(&mut self.parts, Vec::new(alloc));
        let at = covered
            .as_slice()
            .partition_point(|other| other.to < span.from);
        let (end, whole) = fill(&mut parts, covered.as_slice(), at, span, item)?;
        join(alloc, &mut covered, at, end, whole)?;
        self.covered = covered;
        self.parts = parts;
        Ok(at < end)
    }

    /// The parts, in order of their numbers.
    ///
    /// An error means out of memory.
    pub fn into_parts(self) -> Result<Vec<RangePart>, AllocError>
        ensures same { IfOk result (λ v. (n : ℕ) → item_in v.items n ≡ item_in self n) }
        ensures ordered { IfOk result (λ v. AreInOrder v.items) }
    {
        let Layers {
            alloc: _,
            covered: _covered,
            mut parts,
        } = self;
        parts.sort()?;
        Ok(parts)
    }
}

/// The item of the first range that has a number.
pub fn item_at(parts: &[RangePart], number: u64) -> Option<usize>
    requires { AreInOrder parts.now }
    ensures { result ≡ item_in parts.now number }
{
    let at = parts.partition_point(|part| part.span.to < number);
    let Some(part) = parts.get(at) else {
        return None;
    };
    if part.span.has(number) {
        Some(part.item)
    } else {
        None
    }
}
