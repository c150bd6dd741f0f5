//! The threads of nodes.

ghost use Rattle.std.specs.Prelude.{◌≡◌, ◌<◌, ◌+◌, ◌-◌, ◌^◌, ◌∷◌, [], ℕ, MatchBool};
ghost use Rattle.lin_threads.specs.Ports.{node_put, node_took, node_wiring};
ghost use Rattle.lin_threads.specs.Nodes.{FollowsList, PutsUnlessFull, dues, is_due_note, step_in};
ghost use Rattle.lin_threads.specs.States.{IsFurther, node_state, receipt_state};

use crate::ports::{Full, NodePort, NodeStep, Note};
use crate::runs::Ended;
use crate::shared::Shared;
use crate::starting::Finished;
use lin_core::Event;
use std::alloc::Global;
use std::sync::{Arc, Wait};
use std::thread;

/// How often a node's thread looks for a note in vain, and gives way, before it sleeps.
const LOOKS: u32 = 16;

/// Whether a note says that the node is due.
fn is_due(note: &Note) -> bool
    ensures { result ≡ is_due_note note.now }
{
    matches!(note, Note::Event(Event::Due { .. }))
}

/// What a node puts in the slot that has this number among those in which it is due, from 0.
fn step_in(leave: &[u32], number: u64) -> NodeStep
    ensures { result ≡ step_in leave.now number }
{
    if leave.iter().any(|left_out| u64::from(*left_out) == number) {
        NodeStep::Leave
    } else {
        NodeStep::Answer
    }
}

/// Puts a step, again where the ring is full, until the run's slots are over.
fn put_until_over(port: &mut NodePort, shared: &Shared, mut step: NodeStep)
    ensures port { node_wiring port.new ≡ node_wiring port.old }
    ensures put { PutsUnlessFull step port.old port.new }
    ensures took { node_took port.new ≡ node_took port.old }
{
    for _ in 0..u64::MAX {
        let over = shared.is_over();
        match port.put(step) {
            Ok(()) => return,
            Err(Full(_)) if over => return,
            Err(Full(back)) => step = back,
        }
        thread::yield_now();
    }
}

/// Answers the slot of which a note says that the node is due in it, the one with this number, or
/// leaves its response out where its list has the number. The number of the next such slot.
fn answer_note(port: &mut NodePort, shared: &Shared, leave: &[u32], due: u64, note: Note) -> u64
    requires { due < 2 ^ 64 - 1 }
    ensures due { result ≡ due + dues (note ∷ []) }
    ensures port { node_wiring port.new ≡ node_wiring port.old }
    ensures put { MatchBool (is_due_note note)
        (PutsUnlessFull (step_in leave.now due) port.old port.new)
        (node_put port.new ≡ node_put port.old) }
    ensures took { node_took port.new ≡ node_took port.old }
{
    if !is_due(&note) {
        return due;
    }
    put_until_over(port, shared, step_in(leave, due));
    due + 1
}

/// Gives way to other threads, or sleeps until the node is woken where it has looked in vain often
/// enough. How often it has looked in vain since it last slept.
fn rest(rt: &impl Wait, shared: &Shared, number: u8, looks: u32) -> u32 {
    if looks < LOOKS {
        thread::yield_now();
        looks + 1
    } else {
        shared.sleep_node(rt, number);
        0
    }
}

/// Answers each slot in which the node is due, or leaves its response out where its list has the
/// number of that slot among those in which it was due; until the run's slots are over and no note
/// is left.
fn answer_all(rt: &impl Wait, port: &mut NodePort, shared: &Shared, leave: &[u32])
    ensures further { IsFurther (node_state port.old) (node_state port.new) }
    ensures listed { (due : ℕ) × FollowsList leave.now due port.old (node_state port.new) }
{
    let mut due = 0;
    let mut looks = 0;
    for _ in 0..u64::MAX {
        let over = shared.is_over();
        match port.take() {
            Some(note) => {
                due = answer_note(port, shared, leave, due, note);
                looks = 0;
            }
            None if over => return,
            None => looks = rest(rt, shared, port.number, looks),
        }
    }
}

/// The whole of a node's thread.
pub(crate) fn run_node(
    rt: &impl Wait,
    mut port: NodePort,
    leave: Vec<u32>,
    shared: Arc<Shared, Global>,
) -> Finished
    ensures further { IsFurther (node_state port) (receipt_state result.receipt) }
    ensures listed { (due : ℕ) × FollowsList leave.items due port (receipt_state result.receipt) }
{
    answer_all(rt, &mut port, &shared, leave.as_slice());
    let receipt = port.end();
    shared.end();
    Finished {
        receipt,
        ended: Ended::Done,
    }
}
