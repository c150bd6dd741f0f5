//! The log.

ghost use Rattle.std.specs.Prelude.{◌≡◌, ◌≤◌, ◌<◌, ◌+◌, ◌-◌, ◌++◌, ◌∷◌, ◌^◌, [], length, OnOk};
ghost use Rattle.std.specs.Prelude.{IsOk, slice_index_or};

use crate::port::PortId;
use crate::reply::Reply;
use crate::step::Step;
use std::alloc::{AllocError, Global};
use std::marker::Model;

/// An entry of the log: a step, who gave it, and what it was answered.
#[derive(Debug, PartialEq, Drop)]
pub struct LogEntry {
    pub port: PortId,
    pub step: Step,
    pub reply: Reply,
}

/// The log of a core: each step that was done or refused, the oldest first.
#[derive(Debug, Drop)]
pub struct Log {
    entries: Vec<LogEntry>,
}

impl Model for Log {
    ghost use Rattle.std.specs.Prelude.{vec_capacity, vec_len, ◌-◌, ◌<◌, ◌^◌, length};
    ghost use Rattle.lin_core.specs.Logs.{LogData};

    ghost Value = { LogData };

    ghost view = { λ l. record
        { entries = l.entries.items; free = vec_capacity l.entries - vec_len l.entries } };

    ghost invariant = { λ l. length l.entries.items < 2 ^ 32 };
}

impl Log {
    /// The empty log.
    pub(crate) fn new(alloc: Global) -> Log
        ensures { result.entries ≡ [] }
    {
        Log {
            entries: Vec::new(alloc),
        }
    }

    /// How many entries it has, at most 4,294,967,295.
    pub fn len(&self) -> usize
        ensures len { result ≡ length self.now.entries }
        ensures few { result < 2 ^ 32 }
    {
        self.entries.len()
    }

    /// The entry with this number, counted from 0; the number is below `len`.
    pub fn entry(&self, index: usize) -> &LogEntry
        requires { index < length self.now.entries }
        ensures { result.now ≡ slice_index_or self.now.entries index result.now }
    {
        &self.entries[index]
    }

    /// Makes room for one entry.
    pub(crate) fn make_room(&mut self) -> Result<(), AllocError>
        ensures entries { self.new.entries ≡ self.old.entries }
        ensures room { OnOk result (1 ≤ self.new.free) }
        ensures ready { 1 ≤ self.old.free → IsOk result }
        ensures kept { self.old.free ≤ self.new.free }
    {
        self.entries.try_reserve(1)
    }

    /// Adds an entry, for which there is room.
    pub(crate) fn push(&mut self, entry: LogEntry)
        requires free { 1 ≤ self.old.free }
        requires few { length self.old.entries < 2 ^ 32 - 1 }
        ensures { self.new.entries ≡ self.old.entries ++ entry ∷ [] }
    {
        self.entries.push(entry).unwrap();
    }
}

impl PartialEq for Log {
    ghost use Rattle.std.specs.Cmp.{on_per};
    ghost use Rattle.std.specs.Cmp.Lexicographic.{lists_per, pointwise};
    ghost use Rattle.lin_core.specs.Logs.{LogData};
    ghost use Rattle.lin_core.specs.contracts.log.LogEntryPartialEq.TheImpl as entry;
    ghost use Rattle.lin_core.specs.contracts.log.LogEntryPartialEq.TheImpl.Laws.{laws-law};

    ghost eq = { λ a b. pointwise (entry.ghosts).eq a.entries b.entries };

    ghost laws = { on_per (λ (l : LogData). l.entries) (lists_per laws-law) };

    fn eq(&self, other: &Log) -> bool {
        self.entries.as_slice() == other.entries.as_slice()
    }
}
