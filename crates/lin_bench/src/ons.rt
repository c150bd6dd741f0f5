//! Steps that signals and frames call for.

ghost use Rattle.std.specs.Prelude.{◌≡◌, ◌++◌, map, IfOk, OnOk};
ghost use Rattle.lin_core.specs.Core.{past_of};
ghost use Rattle.lin_bench.specs.Ons.{begun_rule, calls, form_begun, holds, is_once, looked, looked_now};
ghost use Rattle.lin_bench.specs.Ons.{reactions_of, reacts};

use crate::conditions::found;
use crate::expected::Condition;
use crate::powers::is_by_off;
use crate::rules::{Form, On, Rule, Watched};
use crate::taken::TakenEvents;
use crate::verdicts::judged;
use crate::watches::Watch;
use lin_core::{Core, PortId, Step};
use lin_text::Many;
use std::alloc::{AllocError, Global};
use std::mem;

/// Whether a condition calls for a step once when it begins to hold, not after each slot after which it
/// holds: one of the value of a signal does.
fn is_once(what: &Condition) -> bool
    ensures { result ≡ is_once what.now }
{
    match what {
        Condition::Signal { .. } | Condition::SignalWithin { .. } | Condition::SignalMeans { .. } =>
            true,
        _ => false,
    }
}

/// Whether a form holds. An error means out of memory.
fn holds(alloc: Global, core: &Core, form: &Form) -> Result<bool, AllocError>
    ensures { IfOk result (λ is. is ≡ holds core.now.cluster (past_of core.now) form.now) }
{
    let taken = TakenEvents::none(alloc);
    let mut watch = Watch::new();
    let finding = found(alloc, core, &taken, &mut watch, &form.what)?;
    Ok(judged(finding, form.wanted).is_none())
}

/// Whether a form that holds, or doesn't, calls for its step.
fn reacts(watched: &Watched, held: bool) -> bool
    ensures { result ≡ reacts watched.now held }
{
    held && !(is_once(&watched.on.form.what) && watched.held)
}

/// Whether a form that holds, or doesn't, calls for its step, and the step isn't one of a node that is off.
fn calls(watched: &Watched, held: bool, offs: &[u8]) -> bool
    ensures { result ≡ calls offs.now watched.now held }
{
    reacts(watched, held) && !is_by_off(offs, &watched.on.step)
}

/// A form, whose changes count from now on.
fn form_begun(core: &Core, form: Form) -> Form
    ensures { result ≡ form_begun core.now.cluster (past_of core.now) form }
{
    let Form { wanted, what } = form;
    Form {
        wanted,
        what: what.begun(core),
    }
}

/// What is kept of a look at a form that holds, or doesn't.
fn looked(core: &Core, watched: Watched, held: bool) -> Watched
    ensures { result ≡ looked core.now.cluster (past_of core.now) watched held }
{
    let Watched { on, .. } = watched;
    let On { form, by, step } = on;
    Watched {
        on: On {
            form: form_begun(core, form),
            by,
            step,
        },
        held,
    }
}

/// Looks at a form for the first time. An error means out of memory.
fn watched_from(alloc: Global, core: &Core, watched: Watched) -> Result<Watched, AllocError>
    ensures { IfOk result (λ w. w ≡ looked_now core.now.cluster (past_of core.now) watched) }
{
    let held = holds(alloc, core, &watched.on.form)?;
    Ok(looked(core, watched, held))
}

/// The rule of a line that is made now: a form is looked at for the first time. An error means out of memory.
pub(crate) fn begun_rule(alloc: Global, core: &Core, rule: Rule) -> Result<Rule, AllocError>
    ensures { IfOk result (λ r. r ≡ begun_rule core.now.cluster (past_of core.now) rule) }
{
    match rule {
        Rule::On(watched) => Ok(Rule::On(watched_from(alloc, core, watched)?)),
        other => Ok(other),
    }
}

/// Looks at each form, and adds the steps of those that call for one. An error means out of memory.
pub(crate) fn look(
    alloc: Global,
    core: &Core,
    offs: &[u8],
    ons: &mut Many<Watched>,
    steps: &mut Vec<(PortId, Step)>,
) -> Result<(), AllocError>
    ensures steps { OnOk result (steps.new.items ≡ steps.old.items
        ++ reactions_of core.now.cluster (past_of core.now) offs.now ons.old) }
    ensures ons { OnOk result (ons.new ≡ map (looked_now core.now.cluster (past_of core.now)) ons.old) }
{
    let all = mem::replace(ons, Many::new(Vec::new(alloc)));
    for watched in all.into_vec() {
        let held = holds(alloc, core, &watched.on.form)?;
        if calls(&watched, held, offs) {
            steps.push((watched.on.by, watched.on.step.copy(alloc)?))?;
        }
        ons.push(looked(core, watched, held))?;
    }
    Ok(())
}
