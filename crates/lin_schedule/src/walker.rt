//! The walk through schedule tables.

ghost use Rattle.std.specs.Prelude.{◌≡◌, ◌<◌, ℕ, suc, List, [], ◌∷◌, length, nat_lt};
ghost use Rattle.std.specs.Prelude.{if◌then◌else◌, Option, Some, None, All, find, slice_index_or};
ghost use Rattle.std.specs.Prelude.{false};
ghost use Rattle.lin_parts.specs.Cluster.{table_of, line_of};
ghost use Rattle.lin_parts.specs.Rules.{IsCluster, IsEntry};
ghost use Rattle.lin_parts.specs.declared.parts.Parts.{Parts};
ghost use Rattle.lin_schedule.specs.Due.{due_for, due_after};
ghost use Rattle.lin_schedule.specs.Schedule.{Move, Slot, Switch, Restart, due, due_line};
ghost use Rattle.lin_schedule.specs.Schedule.{resolving, standing};
ghost use Rattle.lin_schedule.specs.Walker.{Stands, HasEntry, Walks};

use crate::due::Due;
use lin_parts::{Cluster, Entry};
use std::marker::Model;

/// A walk through a cluster's schedule tables (ISO 17987-3, schedule tables). It keeps which entry
/// is due in the next slot, and, while the resolving table of an event-triggered frame runs once,
/// the entry with which the former table goes on after it. All calls of a walker are given the
/// same cluster, and table numbers in its range.
#[derive(Drop)]
pub struct Walker {
    table: u16,
    entry: u16,
    back: Option<(u16, u16)>,
}

impl Model for Walker {
    ghost use Rattle.lin_schedule.specs.Walker.{Position};

    ghost Value = { Position };

    ghost view = { λ w. record { place = (w.table, w.entry); back = w.back } };
}

impl Walker {
    /// A walk that starts with the first entry of a table.
    pub fn new(table: u16) -> Walker
        ensures stands { (c : Parts) → Stands c table result [] }
        ensures walks { (c : Parts) → IsCluster c → table < length c.tables → Walks c result }
    {
        Walker {
            table,
            entry: 0,
            back: None,
        }
    }

    /// The table and the entry of the next slot.
    pub fn place(&self) -> (u16, u16)
        ensures value { result ≡ self.now.place }
        ensures stands { (c : Parts) (opening : ℕ) (moves : List Move)
            → Stands c opening self.now moves → result ≡ due c (standing c opening moves) }
    {
        (self.table, self.entry)
    }

    /// What is due in the next slot. `pending` says of each frame whether it is pending; of a
    /// sporadic frame the first frame in its list that is pending is due (ISO 17987-3, sporadic
    /// frames).
    pub fn due(&self, cluster: &Cluster, pending: &[bool]) -> Due
        requires walks { Walks cluster.now self.now }
        requires frames { length pending.now ≡ length cluster.now.frames }
        ensures entry { result
            ≡ due_for cluster.now pending.now
            (line_of cluster.now self.now.place.0 self.now.place.1).entry }
        ensures stands { (opening : ℕ) (moves : List Move)
            → Stands cluster.now opening self.now moves
            → result ≡ due_after cluster.now pending.now opening moves }
    {
        cluster.sound();
        match cluster.entry(self.table, self.entry) {
            Entry::Frame(frame) => Due::Frame(frame),
            Entry::Sporadic(sporadic) => Due::Sporadic(first_pending(
                cluster.sporadic(sporadic),
                pending,
            )),
            Entry::Event(event) => Due::Event(event),
            Entry::MasterReq => Due::MasterReq,
            Entry::SlaveResp => Due::SlaveResp,
            Entry::Fixed(_) => Due::Fixed,
            Entry::Quiet => Due::Quiet,
        }
    }

    /// Goes on after a slot, which was seen damaged or collided where `clash` says so. A clash in
    /// a slot for an event-triggered frame starts its resolving table, unless one is running;
    /// after the last entry of that one the former table goes on (ISO 17987-3, event-triggered
    /// frames).
    pub fn advance(&mut self, cluster: &Cluster, clash: bool)
        requires walks { Walks cluster.now self.old }
        ensures stands { (opening : ℕ) (moves : List Move)
            → Stands cluster.now opening self.old moves
            → Stands cluster.now opening self.new (Slot clash ∷ moves) }
        ensures walks { Walks cluster.now self.new }
    {
        cluster.sound();
        let after = entry_after(cluster, self.table, self.entry);
        match self.back {
            Some((former, entry)) => match after {
                Some(next) => self.entry = next,
                None => {
                    self.table = former;
                    self.entry = entry;
                    self.back = None;
                }
            },
            None => {
                let next = after.unwrap_or(0);
                match resolving_table(cluster, cluster.entry(self.table, self.entry), clash) {
                    Some(resolving) => {
                        self.back = Some((self.table, next));
                        self.table = resolving;
                        self.entry = 0;
                    }
                    None => self.entry = next,
                }
            }
        }
    }

    /// Starts a table at its first entry.
    pub fn switch(&mut self, table: u16)
        ensures stands { (c : Parts) (opening : ℕ) (moves : List Move)
            → Stands c opening self.old moves → Stands c opening self.new (Switch table ∷ moves) }
        ensures walks { (c : Parts) → IsCluster c → table < length c.tables → Walks c self.new }
    {
        self.table = table;
        self.entry = 0;
        self.back = None;
    }

    /// Starts the current table at its first entry. While a resolving table runs the current table
    /// is the former one.
    pub fn restart(&mut self)
        ensures stands { (c : Parts) (opening : ℕ) (moves : List Move)
            → Stands c opening self.old moves → Stands c opening self.new (Restart ∷ moves) }
        ensures walks { (c : Parts) → Walks c self.old → Walks c self.new }
    {
        let (current, _) = self.back.unwrap_or(self.place());
        *self = Walker::new(current);
    }
}

// The entry after one of a table, where it is not the last.
fn entry_after(cluster: &Cluster, table: u16, entry: u16) -> Option<u16>
    requires rules { IsCluster cluster.now }
    requires there { HasEntry cluster.now (table, entry) }
    ensures { result ≡ (if nat_lt (suc entry) (length (table_of cluster.now table))
        then Some (suc entry) else None) }
{
    if entry as usize + 1 < cluster.entries(table) {
        Some(entry + 1)
    } else {
        None
    }
}

// The table that a slot for this entry starts.
fn resolving_table(cluster: &Cluster, entry: Entry, clash: bool) -> Option<u16>
    requires rules { IsCluster cluster.now }
    requires there { IsEntry cluster.now entry }
    ensures { result ≡ (if clash then resolving cluster.now entry else None) }
{
    match entry {
        Entry::Event(event) if clash => Some(cluster.event_table(event)),
        _ => None,
    }
}

// The first of these frames that is pending.
fn first_pending(frames: &[u16], pending: &[bool]) -> Option<u16>
    requires { All (λ frame. frame < length pending.now) frames.now }
    ensures { result ≡ find (λ frame. slice_index_or pending.now frame false) frames.now }
{
    frames
        .iter()
        .copied()
        .find(|frame| pending[*frame as usize])
}
