//! Responders without power, as the bus sees them.

ghost use Rattle.std.specs.Prelude.{◌≡◌, ◌++◌, ◌∷◌, [], filter, not, OnOk};
ghost use Rattle.lin_core.specs.History.{is_in};
ghost use Rattle.lin_bench.specs.Added.{is_by_off};
ghost use Rattle.lin_bench.specs.Rules.{is_noted_of, switched_off, switched_on, with_power, without_node};

use crate::rules::{Noted, Rules};
use crate::states::set_state;
use lin_core::Step;
use lin_text::Many;
use std::alloc::{AllocError, Global};
use std::mem;

/// Whether a node is among those that are off.
pub(crate) fn is_off(offs: &[u8], node: u8) -> bool
    ensures { result ≡ is_in offs.now node }
{
    offs.iter().any(|off| *off == node)
}

/// Whether a step is a send or a write of a node that is off.
pub(crate) fn is_by_off(offs: &[u8], step: &Step) -> bool
    ensures { result ≡ is_by_off offs.now step.now }
{
    match step {
        Step::Send { from, .. } => is_off(offs, *from),
        Step::Write { by, .. } => is_off(offs, *by),
        _ => false,
    }
}

/// Keeps the other nodes. An error means out of memory.
fn keep_others(alloc: Global, offs: &mut Many<u8>, node: u8) -> Result<(), AllocError>
    ensures { OnOk result (offs.new ≡ without_node offs.old node) }
{
    let all = mem::replace(offs, Many::new(Vec::new(alloc)));
    for off in all.into_vec() {
        if off != node {
            offs.push(off)?;
        }
    }
    Ok(())
}

/// Whether an answer that is noted is a node's.
fn is_noted_of(node: u8, one: &Noted) -> bool
    ensures { result ≡ is_noted_of node one.now }
{
    one.node == node
}

/// Drops the answers of a node that are noted. An error means out of memory.
fn drop_noted(alloc: Global, noted: &mut Many<Noted>, node: u8) -> Result<(), AllocError>
    ensures { OnOk result (noted.new ≡ filter (λ m. not (is_noted_of node m)) noted.old) }
{
    let all = mem::replace(noted, Many::new(Vec::new(alloc)));
    for one in all.into_vec() {
        if !is_noted_of(node, &one) {
            noted.push(one)?;
        }
    }
    Ok(())
}

/// A responder loses its power: its noted answers are dropped, and its state is `default`. An error means
/// out of memory.
fn switch_off(alloc: Global, rules: &mut Rules, node: u8) -> Result<(), AllocError>
    ensures { OnOk result (rules.new ≡ switched_off rules.old node) }
{
    keep_others(alloc, &mut rules.offs, node)?;
    rules.offs.push(node)?;
    set_state(alloc, &mut rules.states, node, b"default".as_slice())?;
    drop_noted(alloc, &mut rules.noted, node)
}

/// A responder gets its power back. An error means out of memory.
fn switch_on(alloc: Global, rules: &mut Rules, node: u8) -> Result<(), AllocError>
    ensures { OnOk result (rules.new ≡ switched_on rules.old node) }
{
    keep_others(alloc, &mut rules.offs, node)
}

/// A responder loses its power, or gets it back. An error means out of memory.
pub(crate) fn set_power(
    alloc: Global,
    rules: &mut Rules,
    node: u8,
    is_on: bool,
) -> Result<(), AllocError>
    ensures { OnOk result (rules.new ≡ with_power rules.old node is_on) }
{
    if is_on {
        switch_on(alloc, rules, node)
    } else {
        switch_off(alloc, rules, node)
    }
}
