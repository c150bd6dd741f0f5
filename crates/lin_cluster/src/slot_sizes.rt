//! The data bytes that slots of a description have to hold.

ghost use Rattle.std.specs.Prelude.{◌≡◌, is_some, IfOk};
ghost use Rattle.lin_cluster.specs.FindingsNames.{frame_named};
ghost use Rattle.lin_cluster.specs.Slots.{slot_size};

use crate::findings::DeclarationFacts;
use lin_parts::description::{Description, Name, TableEntry};
use std::alloc::{AllocError, Global};
use std::marker::Model;

/// What the names of a description name, for the sizes of slots. Contracts see the description.
pub struct SlotSizes<'a> {
    judged: DeclarationFacts<'a>,
}

// Written out, so that what owns one lets it go in one step.
impl<'a> Drop for SlotSizes<'a> {
    fn drop(self) {
        let SlotSizes { judged: _judged } = self;
    }
}

impl<'a> Model for SlotSizes<'a> {
    ghost use Rattle.lin_parts.specs.declared.description.Description.{Description};

    ghost Value = { Description };

    ghost view = { λ s. s.judged };
}

impl<'a> SlotSizes<'a> {
    /// An error means out of memory.
    pub fn new(alloc: Global, description: &'a Description) -> Result<SlotSizes<'a>, AllocError>
        ensures { IfOk result (λ s. s ≡ description.now) }
    {
        Ok(SlotSizes {
            judged: DeclarationFacts::new(alloc, description)?,
        })
    }

    /// The data bytes that the slot of an entry has to hold, where that is known.
    pub fn of(&self, entry: &TableEntry) -> Option<u32>
        ensures { result ≡ slot_size self.now entry.now }
    {
        self.judged.slot(entry).size
    }

    /// Whether a frame of the section `Frames` has the name.
    pub fn has_frame(&self, name: &Name) -> bool
        ensures { result ≡ is_some (frame_named self.now name.now) }
    {
        self.judged.frame(name).is_some()
    }
}
