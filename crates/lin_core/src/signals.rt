//! What the core keeps of signals and frames.

ghost use Rattle.std.specs.Prelude.{◌≡◌, ◌<◌, ◌≤◌, ◌||◌, ◌==◌, ℕ, true, false, [], length, map};
ghost use Rattle.std.specs.Prelude.{All, IfOk, IfSome, Some, None, vec_capacity};
ghost use Rattle.std.specs.Prelude.{replicate, slice_set, slice_index_or, if◌then◌else◌};
ghost use Rattle.std.specs.Option.{option_map_or};
ghost use Rattle.lin_parts.specs.Cluster.{frame_of};
ghost use Rattle.lin_core.specs.History.{is_in};
ghost use Rattle.lin_core.specs.kept.Signals.{AreCleared, EndsPending, HearsSlot, MarksFrames, is_cleared};
ghost use Rattle.lin_core.specs.kept.Slots.{IsOpen};

use crate::signal_frames::hear_slot;
use crate::slot::{OpenSlot, Put};
use lin_frame::Value;
use lin_parts::Cluster;
use std::alloc::{AllocError, Global};

/// The initial values of all signals, by number (ISO 17987-3, signals). An error means out of
/// memory.
pub fn initial_values(alloc: Global, cluster: &Cluster) -> Result<Vec<Value>, AllocError>
    ensures { IfOk result
        (λ values. values.items ≡ map (λ signal. signal.initial) cluster.now.signals) }
{
    let mut values = Vec::new(alloc);
    for signal in 0..cluster.signals() as u16 {
        values.push(*cluster.initial(signal))?;
    }
    Ok(values)
}

/// Room for the values of each frame's signals. An error means out of memory.
fn room_for_frames(alloc: Global, cluster: &Cluster) -> Result<Vec<Value>, AllocError>
    ensures empty { IfOk result (λ room. room.items ≡ []) }
    ensures room { IfOk result
        (λ room. (f : ℕ) → f < length cluster.now.frames
        → length (frame_of cluster.now f).signals ≤ vec_capacity room) }
{
    cluster.sound();
    let mut room = Vec::new(alloc);
    for frame in 0..cluster.frames() as u16 {
        room.try_reserve(cluster.frame_signals(frame).len())?;
    }
    Ok(room)
}

/// What is kept of signals and frames: the value of each signal that its publisher sees, the one
/// that the other nodes see, and for each unconditional frame whether it is pending (ISO 17987-3,
/// signals, sporadic and event-triggered frames). A response ends its frame's being pending when it
/// is made; the open slot keeps that it did, until it is seen good.
#[derive(Drop)]
pub(crate) struct Signals {
    pub(crate) values: Vec<Value>,
    pub(crate) heard: Vec<Value>,
    pub(crate) pending: Vec<bool>,
    pub(crate) room: Vec<Value>,
}

impl Signals {
    /// As they stand at the start. An error means out of memory.
    pub(crate) fn new(alloc: Global, cluster: &Cluster) -> Result<Signals, AllocError>
        ensures values { IfOk result
            (λ s. s.values.items ≡ map (λ signal. signal.initial) cluster.now.signals) }
        ensures heard { IfOk result
            (λ s. s.heard.items ≡ map (λ signal. signal.initial) cluster.now.signals) }
        ensures pending { IfOk result
            (λ s. s.pending.items ≡ replicate (length cluster.now.frames) false) }
        ensures empty { IfOk result (λ s. s.room.items ≡ []) }
        ensures room { IfOk result
            (λ s. (f : ℕ) → f < length cluster.now.frames
            → length (frame_of cluster.now f).signals ≤ vec_capacity s.room) }
    {
        let mut pending = Vec::new(alloc);
        pending.resize(cluster.frames(), false)?;
        Ok(Signals {
            values: initial_values(alloc, cluster)?,
            heard: initial_values(alloc, cluster)?,
            pending,
            room: room_for_frames(alloc, cluster)?,
        })
    }

    /// The publisher of a signal gives it a value.
    pub(crate) fn write(&mut self, cluster: &Cluster, signal: u16, value: Value)
        requires known { signal < length self.old.values.items }
        requires there { signal < length cluster.now.signals }
        requires frames { length self.old.pending.items ≡ length cluster.now.frames }
        ensures values { self.new.values.items ≡ slice_set self.old.values.items signal value }
        ensures heard { self.new.heard ≡ self.old.heard }
        ensures room { self.new.room ≡ self.old.room }
        ensures frames { length self.new.pending.items ≡ length cluster.now.frames }
        ensures pending { MarksFrames cluster.now signal self.old.pending.items self.new.pending.items }
    {
        self.values[signal as usize] = value;
        mark(&mut self.pending, cluster.frames_with(signal));
    }

    /// A response with a frame is made: the frame is pending no longer. The frame, if it was
    /// pending.
    pub(crate) fn clear(&mut self, frame: u16) -> Option<u16>
        requires { frame < length self.old.pending.items }
        ensures values { self.new.values ≡ self.old.values }
        ensures heard { self.new.heard ≡ self.old.heard }
        ensures room { self.new.room ≡ self.old.room }
        ensures pending { self.new.pending.items ≡ slice_set self.old.pending.items frame false }
        ensures cleared { result
            ≡ (if slice_index_or self.old.pending.items frame false then Some frame else None) }
    {
        let was = self.pending[frame as usize];
        self.pending[frame as usize] = false;
        was.then_some(frame)
    }

    /// The slot ends: its values are heard where it was seen good, and otherwise the frames that it
    /// carried are pending again.
    pub(crate) fn finish(&mut self, cluster: &Cluster, slot: &OpenSlot)
        requires slot { IsOpen cluster.now slot.now }
        requires heard { length self.old.heard.items ≡ length cluster.now.signals }
        requires cleared { AreCleared self.old.pending.items slot.now.puts.items }
        ensures values { self.new.values ≡ self.old.values }
        ensures room { self.new.room ≡ self.old.room }
        ensures signals { length self.new.heard.items ≡ length self.old.heard.items }
        ensures frames { length self.new.pending.items ≡ length self.old.pending.items }
        ensures heard { HearsSlot cluster.now slot.now self.old.heard.items self.new.heard.items }
        ensures pending { EndsPending slot.now self.old.pending.items self.new.pending.items }
    {
        if slot.is_good() {
            hear_slot(&mut self.heard, cluster, slot);
        } else {
            restore(&mut self.pending, slot.puts.as_slice());
        }
    }
}

/// These frames are pending.
fn mark(pending: &mut Vec<bool>, frames: &[u16])
    requires { All (λ f. f < length pending.old.items) frames.now }
    ensures frames { length pending.new.items ≡ length pending.old.items }
    ensures pending { (f : ℕ)
        → slice_index_or pending.new.items f false
        ≡ (if is_in frames.now f then true else slice_index_or pending.old.items f false) }
{
    for frame in frames {
        pending[*frame as usize] = true;
    }
}

/// A frame is pending again, where there is one.
fn restore_one(pending: &mut Vec<bool>, cleared: Option<u16>)
    requires { IfSome cleared (λ f. f < length pending.old.items) }
    ensures frames { length pending.new.items ≡ length pending.old.items }
    ensures pending { (f : ℕ)
        → slice_index_or pending.new.items f false
        ≡ (slice_index_or pending.old.items f false || option_map_or (λ g. g == f) cleared false) }
{
    if let Some(frame) = cleared {
        pending[frame as usize] = true;
    }
}

/// The frames whose being pending ended with these responses are pending again.
fn restore(pending: &mut Vec<bool>, puts: &[Put])
    requires { AreCleared pending.old.items puts.now }
    ensures frames { length pending.new.items ≡ length pending.old.items }
    ensures pending { (f : ℕ)
        → slice_index_or pending.new.items f false
        ≡ (slice_index_or pending.old.items f false || is_cleared puts.now f) }
{
    for put in puts {
        restore_one(pending, put.cleared);
    }
}
