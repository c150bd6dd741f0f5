//! How a port is told of the log.

ghost use Rattle.std.specs.Prelude.{◌≡◌, ◌<◌, ◌≤◌, ◌+◌, ◌-◌, ◌^◌, ◌∷◌, [], length, MatchResult};
ghost use Rattle.std.specs.Prelude.{MatchBool, IfOk, OnOk, false, ◌⊎◌};

use crate::ports::lane::Lane;
use crate::ports::steps::{Note, is_same, is_told};
use lin_core::{Core, Event, LogEntry, PortId, Refusal, Reply};
use std::alloc::{AllocError, Global};

impl Lane {
    ghost use Rattle.std.specs.Prelude.{◌≡◌, ◌<◌, ◌≤◌, ◌+◌, ◌-◌, ◌^◌, ◌⊎◌, ◌∷◌, [], ℕ};
    ghost use Rattle.std.specs.Prelude.{true, false, length, MatchResult, MatchBool, IfOk, OnOk};
    ghost use Rattle.lin_threads.specs.Lanes.{GoesOn, PushesNotes, TellsEvent, Serves, ServesNext, SameLane, port_of};
    ghost use Rattle.lin_threads.specs.Lanes.{HasNoRoom};
    ghost use Rattle.lin_threads.specs.Steps.{event_notes};
    ghost use Rattle.rtrb.specs.Ring.{known_free, sent};
    ghost use Rattle.lin_core.specs.declared.log.LogEntry.{LogEntry};
    ghost use Rattle.lin_core.specs.declared.reply.Reply.TheVariants.{Done, Refused};

    /// Whether the ring of notes takes one more.
    fn has_room(&mut self) -> bool
        ensures told { PushesNotes self.old self.new [] }
        ensures part { self.new.part ≡ self.old.part }
        ensures seen { self.new.seen ≡ self.old.seen }
        ensures room { MatchBool result
            ((0 < known_free self.new.notes) × (self.new.given < 2 ^ 64 - 1))
            (HasNoRoom self.new) }
    {
        self.given != u64::MAX && !self.notes.is_full()
    }

    /// Pushes the note of an event, if the port is told of it. False where the ring has no room.
    fn tell_event(&mut self, alloc: Global, event: &Event) -> Result<bool, AllocError>
        requires { self.old.part < 2 ^ 64 - 1 }
        ensures seen { self.new.seen ≡ self.old.seen }
        ensures told { TellsEvent self.old self.new
            (event_notes (port_of self.old) (event.now ∷ [])) result }
        ensures full { IfOk result (λ more. more ≡ false → HasNoRoom self.new) }
    {
        if !is_told(self.port(), event) {
            self.part += 1;
            return Ok(true);
        }
        if !self.has_room() {
            return Ok(false);
        }
        let copy = match event.copy(alloc) {
            Ok(copy) => copy,
            Err(refused) => return Err(refused),
        };
        self.notes.push_reserved(Note::Event(copy));
        self.given += 1;
        self.part += 1;
        Ok(true)
    }

    /// Pushes the notes of an entry's events from `part` on, and goes on to the next entry. False
    /// where the ring has no room.
    fn tell_events(&mut self, alloc: Global, events: &[Event]) -> Result<bool, AllocError>
        requires { self.old.seen < 2 ^ 32 }
        ensures same { SameLane self.old self.new }
        ensures serves { (e : LogEntry) → e.reply ≡ Done events.now
            → ServesNext self.old e self.new }
        ensures next { GoesOn self.old self.new result }
        ensures settled { self.new.settled ≡ self.old.settled }
        ensures full { IfOk result (λ more. more ≡ false → HasNoRoom self.new) }
    {
        for at in self.part..events.len() {
            match self.tell_event(alloc, &events[at]) {
                Ok(true) => {}
                Ok(false) => return Ok(false),
                Err(refused) => return Err(refused),
            }
        }
        self.seen += 1;
        self.part = 0;
        Ok(true)
    }

    /// Pushes the note of an entry that was refused, if it is the port's, and goes on. False where
    /// the ring has no room.
    fn tell_refusal(&mut self, by: PortId, refusal: Refusal) -> bool
        requires seen { self.old.seen < 2 ^ 32 }
        ensures same { SameLane self.old self.new }
        ensures serves { (e : LogEntry) → e.port ≡ by → e.reply ≡ Refused refusal
            → ServesNext self.old e self.new }
        ensures next { MatchBool result (self.new.seen ≡ self.old.seen + 1)
            (self.new.seen ≡ self.old.seen) }
        ensures settled { self.new.settled ≡ self.old.settled }
        ensures full { result ≡ false → HasNoRoom self.new }
    {
        if !is_same(by, self.port()) {
            self.seen += 1;
            self.part = 0;
            return true;
        }
        if !self.has_room() {
            return false;
        }
        self.notes.push_reserved(Note::Refused(refusal));
        self.given += 1;
        self.seen += 1;
        self.part = 0;
        true
    }

    /// Pushes the notes of an entry, and goes on to the next one. False where the ring has no room.
    fn tell_entry(&mut self, alloc: Global, entry: &LogEntry) -> Result<bool, AllocError>
        requires { self.old.seen < 2 ^ 32 }
        ensures same { SameLane self.old self.new }
        ensures serves { ServesNext self.old entry.now self.new }
        ensures next { GoesOn self.old self.new result }
        ensures full { IfOk result (λ more. more ≡ false → HasNoRoom self.new) }
    {
        match &entry.reply {
            Reply::Done(told) => self.tell_events(alloc, told.as_slice()),
            Reply::Refused(refusal) => Ok(self.tell_refusal(entry.port, *refusal)),
        }
    }

    /// Pushes the port's notes while their ring has room, unless the port is settled.
    pub(crate) fn tell(&mut self, alloc: Global, core: &Core) -> Result<(), AllocError>
        ensures same { SameLane self.old self.new }
        ensures serves { (base : ℕ) → Serves base core.now.log self.old
            → Serves base core.now.log self.new }
        ensures settled { self.old.settled ≡ true → sent self.new.notes ≡ sent self.old.notes }
        ensures until { OnOk result ((self.new.settled ≡ true)
            ⊎ ((length core.now.log ≤ self.new.seen) ⊎ HasNoRoom self.new)) }
    {
        if self.settled {
            return Ok(());
        }
        let log = core.log();
        for at in self.seen..log.len() {
            let entry = log.entry(at);
            match self.tell_entry(alloc, entry) {
                Ok(true) => {}
                Ok(false) => return Ok(()),
                Err(refused) => return Err(refused),
            }
        }
        Ok(())
    }
}
