//! What is worked out once of each signal and each frame, since very many names may name one.

ghost use Rattle.std.specs.Prelude.{◌≡◌, IfOk, slice_get};
ghost use Rattle.std.specs.List.{list_any};
ghost use Rattle.std.specs.Option.{option_map};
ghost use Rattle.lin_cluster.specs.Described.{signal_number};
ghost use Rattle.lin_cluster.specs.FindingsNames.{signal_named};
ghost use Rattle.lin_cluster.specs.Members.{is_in_front};
ghost use Rattle.lin_cluster.specs.Known.{signal_facts};
ghost use Rattle.lin_cluster.specs.Models.{has_lin_1, carries_to_lin_1, is_classic};
ghost use Rattle.lin_cluster.specs.Models.{frame_model};

use super::known::Known;
use super::sizes::is_array;
use super::walk::{Makes, made_of_each};
use crate::names::Named;
use lin_frame::SumKind;
use lin_parts::description::{Frame, Name, PlacedSignal, Signal};
use std::alloc::{AllocError, Global};
use std::marker::Model;

/// What is asked of a signal wherever a frame places it: its size in bits, the number of the node
/// that publishes it, where there is one, and whether a node of LIN 1.x subscribes it.
#[derive(Clone, Copy)]
pub(super) struct SignalFacts {
    pub(super) size: u32,
    pub(super) is_array: bool,
    pub(super) publisher: Option<usize>,
    pub(super) is_read_by_lin_1: bool,
}

/// What is asked of a frame wherever a member or an entry names it: its size in bytes, the number
/// of the node that publishes it, where there is one, whether a signal begins in its data byte 0,
/// and its checksum model.
#[derive(Clone, Copy)]
pub(crate) struct FrameFacts {
    pub(super) publisher: Option<usize>,
    pub(super) size: u32,
    pub(super) has_front: bool,
    pub(super) model: SumKind,
}

/// What a list has at a number, where it has that.
pub(super) fn at<V: Copy>(values: &[V], number: usize) -> Option<V>
    ensures { result ≡ slice_get values.now number }
{
    values.get(number).copied()
}

impl Named for Signal {
    ghost name_of = { λ s. s.name };

    fn name(&self) -> &Name {
        &self.name
    }
}

// Where no version of LIN 1.x is told, the subscribers aren't looked up.
#[tactic(auto, using(crate::proofs::FindingsModels::untold_signal))]
fn has_lin_1(known: &Known, signal: &Signal) -> bool
    ensures { result ≡ has_lin_1 known.now signal.now }
{
    if !known.has_version_1() {
        return false;
    }
    for node in signal.subscribers.as_slice() {
        if known.is_lin_1(node) {
            return true;
        }
    }
    false
}

impl<'a> Makes<Signal, SignalFacts> for Known<'a> {
    ghost use Rattle.lin_cluster.specs.Known.{signal_facts};

    ghost makes = { signal_facts };

    fn make(&self, signal: &Signal) -> SignalFacts {
        SignalFacts {
            size: signal.size.value,
            is_array: is_array(&signal.init),
            publisher: self.node(&signal.publisher),
            is_read_by_lin_1: has_lin_1(self, signal),
        }
    }
}

/// The facts of each signal. Contracts see the description.
pub(super) struct AllSignalFacts<'a> {
    pub(super) alloc: Global,
    pub(super) known: Known<'a>,
    facts: Vec<SignalFacts>,
}

impl<'a> Model for AllSignalFacts<'a> {
    ghost use Rattle.lin_cluster.specs.Known.{AreSignalFacts};
    ghost use Rattle.lin_parts.specs.declared.description.Description.{Description};

    ghost Value = { Description };

    ghost view = { λ s. s.known };

    ghost invariant = { λ s. AreSignalFacts s.known s.facts.items };
}

// Written out, so that what owns one lets it go in one step.
impl<'a> Drop for AllSignalFacts<'a> {
    fn drop(self) {
        let AllSignalFacts {
            alloc: _,
            known: _known,
            facts: _facts,
        } = self;
    }
}

impl<'a> AllSignalFacts<'a> {
    /// An error means out of memory.
    pub(super) fn new(alloc: Global, known: Known<'a>) -> Result<AllSignalFacts<'a>, AllocError>
        ensures { IfOk result (λ s. s ≡ known.entry) }
    {
        let facts = made_of_each(alloc, &known, known.description.signals())?;
        Ok(AllSignalFacts {
            alloc,
            known,
            facts,
        })
    }

    /// The number of the signal with this name, or the one after the last, and the facts of the
    /// signal, where there is one.
    pub(super) fn numbered(&self, name: &Name) -> (usize, Option<SignalFacts>)
        ensures number { result.0 ≡ signal_number self.now name.now }
        ensures facts { result.1 ≡ option_map (signal_facts self.now) (signal_named self.now name.now) }
    {
        let number = self.known.signal_number(name);
        (number, at(self.facts.as_slice(), number))
    }

    fn named(&self, name: &Name) -> Option<SignalFacts>
        ensures { result ≡ option_map (signal_facts self.now) (signal_named self.now name.now) }
    {
        self.numbered(name).1
    }

    fn is_in_front(&self, placed: &PlacedSignal) -> bool
        ensures { result ≡ is_in_front self.now placed.now }
    {
        if 8 <= placed.offset.value {
            return false;
        }
        match self.named(&placed.signal) {
            Some(signal) => 0 < signal.size,
            None => false,
        }
    }

    fn carries_to_lin_1(&self, placed: &PlacedSignal) -> bool
        ensures { result ≡ carries_to_lin_1 self.now placed.now }
    {
        match self.named(&placed.signal) {
            Some(signal) => signal.is_read_by_lin_1,
            None => false,
        }
    }

    fn carry_to_lin_1(&self, all_placed: &[PlacedSignal]) -> bool
        ensures { result ≡ list_any (carries_to_lin_1 self.now) all_placed.now }
    {
        for placed in all_placed {
            if self.carries_to_lin_1(placed) {
                return true;
            }
        }
        false
    }

    // A frame with a node of LIN 1.x at one of its ends. Where no version of LIN 1.x is told, the signals aren't looked up.
    #[tactic(auto, using(crate::proofs::FindingsModels::untold_frame))]
    fn is_classic(&self, frame: &Frame) -> bool
        ensures { result ≡ is_classic self.now frame.now }
    {
        self.known.has_version_1()
            && (self.known.is_lin_1(&frame.publisher)
                || self.carry_to_lin_1(frame.placed.as_slice()))
    }

    fn model(&self, frame: &Frame) -> SumKind
        ensures { result ≡ frame_model self.now frame.now }
    {
        if self.is_classic(frame) {
            SumKind::Classic
        } else {
            SumKind::Enhanced
        }
    }

    fn has_front(&self, frame: &Frame) -> bool
        ensures { result ≡ list_any (is_in_front self.now) frame.now.placed }
    {
        for placed in frame.placed.as_slice() {
            if self.is_in_front(placed) {
                return true;
            }
        }
        false
    }
}

impl Named for Frame {
    ghost name_of = { λ f. f.name };

    fn name(&self) -> &Name {
        &self.name
    }
}

impl<'a> Makes<Frame, FrameFacts> for AllSignalFacts<'a> {
    ghost use Rattle.lin_cluster.specs.Known.{frame_facts};

    ghost makes = { frame_facts };

    fn make(&self, frame: &Frame) -> FrameFacts {
        FrameFacts {
            size: frame.size.value,
            publisher: self.known.node(&frame.publisher),
            has_front: self.has_front(frame),
            model: self.model(frame),
        }
    }
}
