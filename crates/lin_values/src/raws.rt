//! Raw values of a signal.

ghost use Rattle.std.specs.Prelude.{◌≡◌, ◌⊎◌, IfSome, None};
ghost use Rattle.std.specs.Prelude.{false, true};
ghost use Rattle.std.specs.Option.{option_map_or};
ghost use Rattle.lin_frame.specs.declared.value.Value.{Value};
ghost use Rattle.std.specs.List.{list_any};
ghost use Rattle.lin_values.specs.Layers.{in_span};
ghost use Rattle.lin_values.specs.Raws.{count_of, has, has_raw, in_spans, same_raw, AreRaws, HasNone, HasTwo};

use crate::layers::Span;
use lin_frame::Value;
use lin_text::Many;
use std::alloc::Global;
use std::marker::Model;

/// Raw values of a signal: spans of scalars, and a value that is coded. No value is there twice.
/// Contracts see both.
#[derive(Drop)]
pub struct Raws {
    spans: Many<Span>,
    coded: Option<Value>,
}

impl Model for Raws {
    ghost use Rattle.lin_values.specs.Raws.{RawsData, AreRaws};

    ghost Value = { RawsData };

    ghost view = { λ r. record { spans = r.spans; coded = r.coded } };

    ghost invariant = { λ r. AreRaws r.spans r.coded };
}

fn same_raw(a: &Value, b: &Value) -> bool
    ensures { result ≡ same_raw a.now b.now }
{
    match (a, b) {
        (Value::Scalar(a), Value::Scalar(b)) => *a == *b,
        (Value::Bytes(a), Value::Bytes(b)) => a.as_slice() == b.as_slice(),
        _ => false,
    }
}

fn is_coded(coded: Option<Value>, value: &Value) -> bool
    ensures { result ≡ option_map_or (λ w. same_raw w value.now) coded false }
{
    match coded {
        Some(coded) => same_raw(&coded, value),
        None => false,
    }
}

fn spans_have(spans: &[Span], raw: u16) -> bool
    ensures { result ≡ list_any (λ s. in_span s raw) spans.now }
{
    spans.iter().any(|span| span.has(u64::from(raw)))
}

fn in_spans(spans: &[Span], value: &Value) -> bool
    ensures { result ≡ in_spans spans.now value.now }
{
    match value {
        Value::Scalar(raw) => spans_have(spans, *raw),
        Value::Bytes(_) => false,
    }
}

impl Raws {
    /// Values of spans in order, and one that is coded.
    pub(crate) fn new(spans: Many<Span>, coded: Option<Value>) -> Raws
        requires { AreRaws spans coded }
        ensures { (v : Value) → has result v ≡ has_raw spans coded v }
    {
        Raws { spans, coded }
    }

    /// Whether a value is one of these.
    pub fn has(&self, value: &Value) -> bool
        ensures { result ≡ has self.now value.now }
    {
        is_coded(self.coded, value) || in_spans(self.spans.as_slice(), value)
    }

    /// How many there are: each number of a span, and the one that is coded.
    pub fn count(&self) -> u64
        ensures count { result ≡ count_of self.now.spans self.now.coded }
        ensures once { AreRaws self.now.spans self.now.coded }
    {
        let mut count = u64::from(self.coded.is_some());
        for span in self.spans.as_slice() {
            count += span.to - span.from + 1;
        }
        count
    }

    /// The one that there is, where it is one alone.
    pub fn only(&self) -> Option<Value>
        ensures one { IfSome result (λ v. has self.now v ≡ true) }
        ensures only { (v : Value) → IfSome result (λ w. has self.now v ≡ true → v ≡ w) }
        ensures other { result ≡ None → HasNone self.now ⊎ HasTwo self.now }
    {
        let first = self.spans.as_slice().first();
        if self.count() != 1 {
            return None;
        }
        match first {
            Some(span) => Some(Value::Scalar(span.from as u16)),
            None => self.coded,
        }
    }
}
