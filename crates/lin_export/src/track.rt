//! What is kept of a log, entry by entry.

ghost use Rattle.std.specs.Prelude.{◌≡◌, ◌+◌, ◌≤◌, ◌^◌, ◌<◌, ◌∷◌, [], IfOk, List, OnOk, length, option_map, reverse, take};
ghost use Rattle.lin_parts.specs.declared.parts.Parts.{Parts};
ghost use Rattle.lin_core.specs.History.{time};
ghost use Rattle.lin_core.specs.declared.log.LogEntry.{LogEntry};
ghost use Rattle.lin_export.specs.Open.{tracked_slot};
ghost use Rattle.lin_export.specs.Track.{shown_finished, shown_open, track_of};

use crate::tracked_slot::TrackedSlot;
use lin_core::{Log, LogEntry, Reply, Step};
use lin_parts::Cluster;
use std::alloc::{AllocError, Global};
use std::marker::Model;

/// What is kept of the entries of a log that were read, for texts of those after them: the slot that
/// is open, the delays of the slots that are finished, in microseconds, their number, and the bytes
/// of the last disturbance. Contracts see these.
#[derive(Drop)]
pub struct Track {
    alloc: Global,
    slot: Option<TrackedSlot>,
    time: u64,
    slots: u64,
    hurt: Vec<u8>,
}

impl Model for Track {
    ghost use Rattle.std.specs.Prelude.{option_map};
    ghost use Rattle.lin_export.specs.Open.{tracked_slot};
    ghost use Rattle.lin_export.specs.Track.{TrackData};

    ghost Value = { TrackData };

    ghost view = { λ t. record {
      slot = option_map tracked_slot t.slot;
      time = t.time;
      slots = t.slots;
      hurt = t.hurt.items;
    } };
}

/// The next entry of a log, with what is kept of the entries before it.
#[derive(Clone, Copy)]
pub(crate) struct TrackedEntry<'a> {
    pub(crate) cluster: &'a Cluster,
    pub(crate) track: &'a Track,
    pub(crate) entry: &'a LogEntry,
}

impl Track {
    /// No entry was read.
    pub(crate) fn new(alloc: Global) -> Track
        ensures { (c : Parts) → result ≡ track_of c [] }
    {
        Track {
            alloc,
            slot: None,
            time: 0,
            slots: 0,
            hurt: Vec::new(alloc),
        }
    }

    /// The entries of a log before one were read.
    ///
    /// # Errors
    /// Out of memory.
    pub fn up_to(
        alloc: Global,
        cluster: &Cluster,
        log: &Log,
        end: usize,
    ) -> Result<Track, AllocError>
        requires { end ≤ length log.now.entries }
        ensures { IfOk result (λ track.
            track ≡ track_of cluster.now (reverse (take end log.now.entries))) }
    {
        let mut track = Track::new(alloc);
        track.follow_to(cluster, log, 0, end)?;
        Ok(track)
    }

    /// The entries of a log from one up to another were read, too. An error means out of memory.
    pub(crate) fn follow_to(
        &mut self,
        cluster: &Cluster,
        log: &Log,
        from: usize,
        end: usize,
    ) -> Result<(), AllocError>
        requires order { from ≤ end }
        requires there { end ≤ length log.now.entries }
        requires track { self.old ≡ track_of cluster.now (reverse (take from log.now.entries)) }
        ensures { OnOk result
            (self.new ≡ track_of cluster.now (reverse (take end log.now.entries))) }
    {
        cluster.sound();
        for index in from..end.min(log.len()) {
            self.follow(cluster, log.entry(index))?;
        }
        Ok(())
    }

    /// The open slot.
    pub(crate) fn slot(&self) -> &Option<TrackedSlot>
        ensures { option_map tracked_slot result.now ≡ self.now.slot }
    {
        &self.slot
    }

    /// The delays of all finished slots, in microseconds.
    pub(crate) fn time(&self) -> u64
        ensures { result ≡ self.now.time }
    {
        self.time
    }

    /// How many slots are finished.
    pub(crate) fn slots(&self) -> u64
        ensures { result ≡ self.now.slots }
    {
        self.slots
    }

    /// The bytes that stood last in place of a disturbed response.
    pub(crate) fn hurt(&self) -> &[u8]
        ensures { result.now ≡ self.now.hurt }
    {
        self.hurt.as_slice()
    }

    /// The slot that the next entry finishes.
    pub(crate) fn finished(&self, entry: &LogEntry) -> Option<&TrackedSlot>
        ensures { (past : List LogEntry) → self.now.slot ≡ shown_open past
            → option_map (λ s. tracked_slot s.now) result ≡ shown_finished entry.now past }
    {
        let Reply::Done(_) = &entry.reply else {
            return None;
        };
        match (&entry.step, &self.slot) {
            (Step::Finish, Some(slot)) => Some(slot),
            _ => None,
        }
    }

    /// The delays of all slots that are finished after the next entry, in microseconds.
    pub(crate) fn time_behind(&self, cluster: &Cluster, entry: &LogEntry) -> u64
        requires { self.now.time < 2 ^ 63 }
        ensures { (past : List LogEntry) → self.now ≡ track_of cluster.now past
            → result ≡ time cluster.now (entry.now ∷ past) }
    {
        let Reply::Done(_) = &entry.reply else {
            return self.time;
        };
        match (&entry.step, &self.slot) {
            (Step::Finish, Some(slot)) => self.time + u64::from(slot.line(cluster).delay_us),
            _ => self.time,
        }
    }

    /// One entry more was read. An error means out of memory.
    pub(crate) fn follow(&mut self, cluster: &Cluster, entry: &LogEntry) -> Result<(), AllocError>
        requires time { self.old.time < 2 ^ 63 }
        requires slots { self.old.slots < 2 ^ 63 }
        ensures kept { OnOk result
            ((past : List LogEntry) → self.old ≡ track_of cluster.now past
            → self.new ≡ track_of cluster.now (entry.now ∷ past)) }
        ensures time { self.new.time ≤ self.old.time + 1000000000 }
        ensures slots { self.new.slots ≤ self.old.slots + 1 }
    {
        let Reply::Done(events) = &entry.reply else {
            return Ok(());
        };
        match &entry.step {
            Step::Open => {
                let mut slot = TrackedSlot::new(self.alloc);
                slot.tell_all(events.as_slice())?;
                self.slot = Some(slot);
            }
            Step::Answer { node: _ } => {
                if let Some(slot) = &mut self.slot {
                    slot.tell_all(events.as_slice())?;
                }
            }
            Step::Hurt { bytes } => {
                self.hurt = Vec::from_slice(self.alloc, bytes.as_slice())?;
                if let Some(slot) = &mut self.slot {
                    slot.hurt();
                }
            }
            Step::Finish => {
                if let Some(slot) = &self.slot {
                    self.time += u64::from(slot.line(cluster).delay_us);
                    self.slots += 1;
                }
                self.slot = None;
            }
            _ => {}
        }
        Ok(())
    }
}
