//! What is known of the names of a description, and of what they name.

ghost use Rattle.std.specs.Prelude.{◌≡◌, ◌&&◌, IfOk, map, not, is_some};
ghost use Rattle.std.specs.List.{list_any};
ghost use Rattle.std.specs.Option.{option_map};
ghost use Rattle.lin_cluster.specs.FindingsNames.{frame_named, sporadic_named, event_named};
ghost use Rattle.lin_cluster.specs.FindingsNames.{table_named, is_any_frame, is_event_entry};
ghost use Rattle.lin_cluster.specs.FindingsNames.{carries_frame};
ghost use Rattle.lin_cluster.specs.Slots.{greatest_size, first_size, slot_size};
ghost use Rattle.lin_cluster.specs.Known.{frame_facts, size_named};
ghost use Rattle.lin_cluster.specs.Known.{AreFrameFacts, AreSizes, AreNested};
ghost use Rattle.lin_cluster.specs.Models.{frame_model};

use super::facts::{AllSignalFacts, FrameFacts, at};
use super::known::{Known, carries_frame};
use super::slots::{first_size, good_size, greatest_size};
use super::walk::{Makes, made_of_each};
use crate::names::Named;
use lin_frame::SumKind;
use lin_parts::description::{Description, EventFrame, Name, Sporadic, Table, TableEntry};
use std::alloc::{AllocError, Global};
use std::marker::Model;

/// The facts of each frame, the sizes of each sporadic and each event-triggered frame, and whether
/// each table has an event-triggered entry.
#[derive(Drop)]
struct Facts {
    frames: Vec<FrameFacts>,
    sporadic: Vec<Option<u32>>,
    events: Vec<Option<u32>>,
    nested: Vec<bool>,
}

impl Named for Sporadic {
    ghost name_of = { λ f. f.name };

    fn name(&self) -> &Name {
        &self.name
    }
}

impl<'a> Makes<Sporadic, Option<u32>> for Known<'a> {
    ghost use Rattle.lin_cluster.specs.Slots.{greatest_size};

    ghost makes = { λ d f. greatest_size d f.members };

    fn make(&self, frame: &Sporadic) -> Option<u32> {
        greatest_size(self, frame.members.as_slice())
    }
}

impl Named for EventFrame {
    ghost name_of = { λ e. e.name };

    fn name(&self) -> &Name {
        &self.name
    }
}

impl<'a> Makes<EventFrame, Option<u32>> for Known<'a> {
    ghost use Rattle.lin_cluster.specs.Slots.{first_size};

    ghost makes = { λ d e. first_size d e.members };

    fn make(&self, event: &EventFrame) -> Option<u32> {
        first_size(self, event.members.as_slice())
    }
}

impl Named for Table {
    ghost name_of = { λ t. t.name };

    fn name(&self) -> &Name {
        &self.name
    }
}

// Whether a table has an event-triggered entry.
impl<'a> Makes<Table, bool> for Known<'a> {
    ghost use Rattle.std.specs.List.{list_any};
    ghost use Rattle.lin_cluster.specs.FindingsNames.{is_event_entry};

    ghost makes = { λ d t. list_any (is_event_entry d) t.entries };

    fn make(&self, table: &Table) -> bool {
        for entry in table.entries.as_slice() {
            if self.is_event_entry(entry) {
                return true;
            }
        }
        false
    }
}

impl<'a> Makes<FrameFacts, SumKind> for DeclarationFacts<'a> {
    ghost makes = { λ j f. f.model };

    fn make(&self, frame: &FrameFacts) -> SumKind {
        frame.model
    }
}

/// What an entry says of its slot: whether it names nothing, and the data bytes that the slot has
/// to hold.
#[derive(Clone, Copy)]
pub(crate) struct EntrySlot {
    pub(crate) is_unknown: bool,
    pub(crate) size: Option<u32>,
}

/// What is worked out once of each declaration that names may name. Contracts see the description.
pub(crate) struct DeclarationFacts<'a> {
    pub(super) signals: AllSignalFacts<'a>,
    facts: Facts,
}

impl<'a> Model for DeclarationFacts<'a> {
    ghost use Rattle.lin_cluster.specs.Known.{AreFrameFacts, AreSizes, AreNested};
    ghost use Rattle.lin_parts.specs.declared.description.Description.{Description};

    ghost Value = { Description };

    ghost view = { λ j. j.signals };

    ghost invariant = { λ j. AreFrameFacts j.signals j.facts.frames.items
        × AreSizes j.signals j.facts.sporadic.items j.facts.events.items
        × AreNested j.signals j.facts.nested.items };
}

// Written out, so that what owns one lets it go in one step.
impl<'a> Drop for DeclarationFacts<'a> {
    fn drop(self) {
        let DeclarationFacts {
            signals: _signals,
            facts: _facts,
        } = self;
    }
}

fn facts_of(alloc: Global, signals: &AllSignalFacts) -> Result<Facts, AllocError>
    ensures frames { IfOk result (λ f. AreFrameFacts signals.now f.frames.items) }
    ensures sizes { IfOk result (λ f. AreSizes signals.now f.sporadic.items f.events.items) }
    ensures nested { IfOk result (λ f. AreNested signals.now f.nested.items) }
{
    let known = &signals.known;
    let description = known.description;
    let frames = made_of_each(alloc, signals, description.frames())?;
    let sporadic = made_of_each(alloc, known, description.sporadic())?;
    let events = made_of_each(alloc, known, description.events())?;
    let nested = made_of_each(alloc, known, description.tables())?;
    Ok(Facts {
        frames,
        sporadic,
        events,
        nested,
    })
}

impl<'a> DeclarationFacts<'a> {
    /// An error means out of memory.
    pub(crate) fn new(
        alloc: Global,
        description: &'a Description,
    ) -> Result<DeclarationFacts<'a>, AllocError>
        ensures { IfOk result (λ j. j ≡ description.now) }
    {
        let signals = AllSignalFacts::new(alloc, Known::new(alloc, description)?)?;
        let facts = facts_of(alloc, &signals)?;
        Ok(DeclarationFacts { signals, facts })
    }

    /// The checksum model of each frame; an error means out of memory.
    pub(super) fn models(&self, alloc: Global) -> Result<Vec<SumKind>, AllocError>
        ensures { IfOk result (λ v. v.items ≡ map (frame_model self.now) self.now.frames) }
    {
        made_of_each(alloc, self, self.facts.frames.as_slice())
    }

    /// The facts of the frame with this name, where there is one.
    pub(crate) fn frame(&self, name: &Name) -> Option<FrameFacts>
        ensures { result ≡ option_map (frame_facts self.now) (frame_named self.now name.now) }
    {
        at(
            self.facts.frames.as_slice(),
            self.signals.known.frame_number(name),
        )
    }

    /// Whether a name that may be a frame's, with these facts, is that of a frame of any of the
    /// three kinds.
    pub(super) fn is_any_frame(&self, frame: Option<FrameFacts>, name: &Name) -> bool
        requires { frame ≡ option_map (frame_facts self.now) (frame_named self.now name.now) }
        ensures { result ≡ is_any_frame self.now name.now }
    {
        frame.is_some() || self.signals.known.is_other_frame(name)
    }

    /// The size of a sporadic frame, where the name is one's.
    fn sporadic_size(&self, name: &Name) -> Option<Option<u32>>
        ensures { result
            ≡ option_map
            (λ f. greatest_size self.now f.members) (sporadic_named self.now name.now) }
    {
        at(
            self.facts.sporadic.as_slice(),
            self.signals.known.sporadic_number(name),
        )
    }

    /// The size of an event-triggered frame, where the name is one's.
    fn event_size(&self, name: &Name) -> Option<Option<u32>>
        ensures { result
            ≡ option_map (λ e. first_size self.now e.members) (event_named self.now name.now) }
    {
        at(
            self.facts.events.as_slice(),
            self.signals.known.event_number(name),
        )
    }

    // The size of what is carried under a name, where it names a frame of any of the three kinds.
    fn size_named(&self, name: &Name) -> Option<Option<u32>>
        ensures { result ≡ size_named self.now name.now }
    {
        match self.frame(name) {
            Some(frame) => Some(good_size(frame.size)),
            None => match self.sporadic_size(name) {
                Some(size) => Some(size),
                None => self.event_size(name),
            },
        }
    }

    /// What is asked of the slot of an entry.
    pub(crate) fn slot(&self, entry: &TableEntry) -> EntrySlot
        ensures unknown { result.is_unknown
            ≡ (carries_frame entry.now && not (is_any_frame self.now entry.now.name)) }
        ensures size { result.size ≡ slot_size self.now entry.now }
    {
        if !carries_frame(entry) {
            return EntrySlot {
                is_unknown: false,
                size: Some(8),
            };
        }
        match self.size_named(&entry.name) {
            Some(size) => EntrySlot {
                is_unknown: false,
                size,
            },
            None => EntrySlot {
                is_unknown: true,
                size: None,
            },
        }
    }

    /// Whether a table has an event-triggered entry, where the name is one's.
    pub(super) fn nested(&self, name: &Name) -> Option<bool>
        ensures { result
            ≡ option_map
            (λ t. list_any (is_event_entry self.now) t.entries) (table_named self.now name.now) }
    {
        at(
            self.facts.nested.as_slice(),
            self.signals.known.table_number(name),
        )
    }
}
