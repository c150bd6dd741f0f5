//! Copies of rules.

ghost use Rattle.std.specs.Prelude.{◌≡◌, IfOk};

use crate::expected::Condition;
use crate::rules::{
    Every, Form, Limit, NodeState, Noted, On, Repeated, RuleAnswer, Rules, Watched, When,
};
use lin_core::Payload;
use lin_log::Pattern;
use lin_text::{Many, Text};
use std::alloc::{AllocError, Global};

/// A type whose values can be copied if there is memory for them.
trait TryCopy {
    /// Returns an equal value. An error means out of memory.
    fn copy(&self, alloc: Global) -> Result<Self, AllocError>
        ensures { IfOk result (λ copy. copy ≡ self.now) };
}

/// Returns equal items, in order. An error means out of memory.
fn copied<T: TryCopy + Drop>(alloc: Global, items: &[T]) -> Result<Many<T>, AllocError>
    ensures { IfOk result (λ all. all ≡ items.now) }
{
    let mut all = Vec::new(alloc);
    for item in items {
        all.push(item.copy(alloc)?)?;
    }
    Ok(Many::new(all))
}

/// Returns the same items, in order. An error means out of memory.
fn same<T: Copy + Drop>(alloc: Global, items: &[T]) -> Result<Many<T>, AllocError>
    ensures { IfOk result (λ all. all ≡ items.now) }
{
    let mut all = Vec::new(alloc);
    all.extend_from_slice(items)?;
    Ok(Many::new(all))
}

/// Returns an equal name, if there is one. An error means out of memory.
fn copied_name(alloc: Global, name: &Option<Text>) -> Result<Option<Text>, AllocError>
    ensures { IfOk result (λ copy. copy ≡ name.now) }
{
    match name {
        Some(name) => Ok(Some(Text::copied(alloc, name.as_slice())?)),
        None => Ok(None),
    }
}

impl TryCopy for RuleAnswer {
    fn copy(&self, alloc: Global) -> Result<RuleAnswer, AllocError> {
        Ok(RuleAnswer {
            parts: same(alloc, self.parts.as_slice())?,
            wait_ms: self.wait_ms,
        })
    }
}

impl TryCopy for When {
    fn copy(&self, alloc: Global) -> Result<When, AllocError> {
        Ok(When {
            node: self.node,
            state: copied_name(alloc, &self.state)?,
            pattern: copied_pattern(alloc, &self.pattern)?,
            answers: copied(alloc, self.answers.as_slice())?,
            enter: copied_name(alloc, &self.enter)?,
        })
    }
}

impl TryCopy for NodeState {
    fn copy(&self, alloc: Global) -> Result<NodeState, AllocError> {
        Ok(NodeState {
            node: self.node,
            name: Text::copied(alloc, self.name.as_slice())?,
        })
    }
}

impl TryCopy for Repeated {
    fn copy(&self, alloc: Global) -> Result<Repeated, AllocError> {
        Ok(Repeated {
            began: self.began,
            every: Every {
                period_ms: self.every.period_ms,
                by: self.every.by,
                step: self.every.step.copy(alloc)?,
            },
        })
    }
}

/// Returns an equal limit, if there is one. An error means out of memory.
fn copied_limit(alloc: Global, limit: &Option<Limit>) -> Result<Option<Limit>, AllocError>
    ensures { IfOk result (λ copy. copy ≡ limit.now) }
{
    match limit {
        None => Ok(None),
        Some(Limit::Milliseconds(ms)) => Ok(Some(Limit::Milliseconds(*ms))),
        Some(Limit::Ldf(limits)) => Ok(Some(Limit::Ldf(same(alloc, limits.as_slice())?))),
    }
}

/// Returns an equal pattern. An error means out of memory.
fn copied_pattern(alloc: Global, pattern: &Pattern) -> Result<Pattern, AllocError>
    ensures { IfOk result (λ copy. copy ≡ pattern.now) }
{
    Ok(Pattern {
        bytes: same(alloc, pattern.bytes.as_slice())?,
        more: pattern.more,
    })
}

/// Returns an equal pattern, if there is one. An error means out of memory.
fn copied_data(alloc: Global, pattern: &Option<Pattern>) -> Result<Option<Pattern>, AllocError>
    ensures { IfOk result (λ copy. copy ≡ pattern.now) }
{
    match pattern {
        Some(pattern) => Ok(Some(copied_pattern(alloc, pattern)?)),
        None => Ok(None),
    }
}

impl TryCopy for Condition {
    fn copy(&self, alloc: Global) -> Result<Condition, AllocError> {
        match self {
            Condition::Signal {
                node,
                signal,
                value,
            } => Ok(Condition::Signal {
                node: *node,
                signal: *signal,
                value: *value,
            }),
            Condition::SignalWithin {
                node,
                signal,
                low,
                high,
            } => Ok(Condition::SignalWithin {
                node: *node,
                signal: *signal,
                low: *low,
                high: *high,
            }),
            Condition::SignalMeans {
                node,
                signal,
                text,
                values,
            } => Ok(Condition::SignalMeans {
                node: *node,
                signal: *signal,
                text: Text::copied(alloc, text.as_slice())?,
                values: values.copy()?,
            }),
            Condition::Waiting { host, count } => Ok(Condition::Waiting {
                host: *host,
                count: *count,
            }),
            Condition::Messages {
                from,
                to,
                low,
                high,
            } => Ok(Condition::Messages {
                from: *from,
                to: *to,
                low: *low,
                high: *high,
            }),
            Condition::Seen(look) => Ok(Condition::Seen(*look)),
            Condition::Frame { frame, pattern } => Ok(Condition::Frame {
                frame: *frame,
                pattern: copied_data(alloc, pattern)?,
            }),
            Condition::Slot { table, entry } => Ok(Condition::Slot {
                table: *table,
                entry: *entry,
            }),
            Condition::Changed {
                node,
                signal,
                first,
            } => Ok(Condition::Changed {
                node: *node,
                signal: *signal,
                first: *first,
            }),
        }
    }
}

impl TryCopy for Watched {
    fn copy(&self, alloc: Global) -> Result<Watched, AllocError> {
        let On { form, by, step } = &self.on;
        Ok(Watched {
            on: On {
                form: Form {
                    wanted: form.wanted,
                    what: form.what.copy(alloc)?,
                },
                by: *by,
                step: step.copy(alloc)?,
            },
            held: self.held,
        })
    }
}

impl TryCopy for Noted {
    fn copy(&self, alloc: Global) -> Result<Noted, AllocError> {
        Ok(Noted {
            time: self.time,
            node: self.node,
            bytes: Payload::copied(alloc, self.bytes.as_slice())?,
        })
    }
}

impl Rules {
    /// Returns equal rules. An error means out of memory.
    pub(crate) fn copy(&self, alloc: Global) -> Result<Rules, AllocError>
        ensures { IfOk result (λ copy. copy ≡ self.now) }
    {
        Ok(Rules {
            whens: copied(alloc, self.whens.as_slice())?,
            limit: copied_limit(alloc, &self.limit)?,
            own_limits: same(alloc, self.own_limits.as_slice())?,
            everies: copied(alloc, self.everies.as_slice())?,
            ons: copied(alloc, self.ons.as_slice())?,
            errors: self.errors,
            services: self.services,
            states: copied(alloc, self.states.as_slice())?,
            offs: same(alloc, self.offs.as_slice())?,
            noted: copied(alloc, self.noted.as_slice())?,
            faults: same(alloc, self.faults.as_slice())?,
        })
    }
}
