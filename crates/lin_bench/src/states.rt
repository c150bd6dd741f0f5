//! States of responders.

ghost use Rattle.std.specs.Prelude.{◌≡◌, filter, find, not, option_map, OnOk};
ghost use Rattle.lin_bench.specs.Rules.{states_after_entering, is_for_state, is_state_of, same_state};
ghost use Rattle.lin_bench.specs.Rules.{state_of, with_state};

use crate::rules::NodeState;
use lin_text::{Many, Text};
use std::alloc::{AllocError, Global};
use std::mem;

fn is_state_of(state: &NodeState, node: u8) -> bool
    ensures { result ≡ is_state_of node state.now }
{
    state.node == node
}

/// The state of a responder that isn't in `default`.
pub(crate) fn kept_state(states: &[NodeState], node: u8) -> Option<&NodeState>
    ensures { option_map (λ s. s.now) result ≡ find (is_state_of node) states.now }
{
    states.iter().find(|state| is_state_of(state, node))
}

/// The state of a responder.
pub(crate) fn state_of(states: &[NodeState], node: u8) -> &[u8]
    ensures { result.now ≡ state_of states.now node }
{
    match kept_state(states, node) {
        Some(state) => state.name.as_slice(),
        None => b"default".as_slice(),
    }
}

/// Whether a rule for a state, or for every state, applies in a state.
pub(crate) fn is_for_state(state: &Option<Text>, current: &[u8]) -> bool
    ensures { result ≡ is_for_state state.now current.now }
{
    match state {
        None => true,
        Some(name) => name.as_slice() == current,
    }
}

/// Whether two rules are for the same state, or both for every state.
pub(crate) fn same_state(a: &Option<Text>, b: &Option<Text>) -> bool
    ensures { result ≡ same_state a.now b.now }
{
    match (a, b) {
        (None, None) => true,
        (Some(a), Some(b)) => a.as_slice() == b.as_slice(),
        _ => false,
    }
}

/// Keeps the states of the other responders. An error means out of memory.
fn keep_others(alloc: Global, states: &mut Many<NodeState>, node: u8) -> Result<(), AllocError>
    ensures { OnOk result (states.new ≡ filter (λ s. not (is_state_of node s)) states.old) }
{
    let all = mem::replace(states, Many::new(Vec::new(alloc)));
    for state in all.into_vec() {
        if !is_state_of(&state, node) {
            states.push(state)?;
        }
    }
    Ok(())
}

/// A responder enters a state. An error means out of memory.
pub(crate) fn set_state(
    alloc: Global,
    states: &mut Many<NodeState>,
    node: u8,
    name: &[u8],
) -> Result<(), AllocError>
    ensures { OnOk result (states.new ≡ with_state states.old node name.now) }
{
    keep_others(alloc, states, node)?;
    if name == b"default".as_slice() {
        return Ok(());
    }
    let name = Text::copied(alloc, name)?;
    states.push(NodeState { node, name })
}

/// A responder enters the state that a rule names, if it names one. An error means out of memory.
pub(crate) fn enter(
    alloc: Global,
    states: &mut Many<NodeState>,
    node: u8,
    name: &Option<Text>,
) -> Result<(), AllocError>
    ensures { OnOk result (states.new ≡ states_after_entering states.old node name.now) }
{
    match name {
        Some(name) => set_state(alloc, states, node, name.as_slice()),
        None => Ok(()),
    }
}
