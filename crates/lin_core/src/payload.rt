//! Bytes of messages, and lists of events.

ghost use Rattle.std.specs.Prelude.{◌≡◌, ◌≤◌, ◌∷◌, [], IfOk, IsOk, length};

use crate::event::Event;
use lin_text::Text;
use std::alloc::{AllocError, Global};
use std::marker::Model;
use std::{fmt, slice};

/// The bytes of a message: up to 14 take no memory. Contracts see them as a list.
#[derive(Debug, Drop)]
pub struct Payload {
    bytes: Text,
}

impl Model for Payload {
    ghost use Rattle.std.specs.Prelude.{List, ℕ};

    ghost Value = { List ℕ };

    ghost view = { λ p. p.bytes };
}

impl Payload {
    /// A copy of these bytes; an error means out of memory, which 14 bytes or fewer never are.
    pub fn copied(alloc: Global, bytes: &[u8]) -> Result<Payload, AllocError>
        ensures copy { IfOk result (λ p. p ≡ bytes.now) }
        ensures short { length bytes.now ≤ 14 → IsOk result }
    {
        let bytes = Text::copied(alloc, bytes)?;
        Ok(Payload { bytes })
    }

    /// The bytes, in order.
    pub fn as_slice(&self) -> &[u8]
        ensures { result.now ≡ self.now }
    {
        self.bytes.as_slice()
    }
}

impl PartialEq for Payload {
    ghost use Rattle.std.specs.Prelude.{◌==◌};
    ghost use Rattle.std.proofs.Common.{rules};
    ghost use Rattle.std.specs.Cmp.Lexicographic.{pointwise};
    ghost use Rattle.std.specs.Cmp.Rules.{comparing};

    ghost eq = { pointwise ◌==◌ };

    ghost laws = { Prim.search (comparing, rules) };

    fn eq(&self, other: &Payload) -> bool {
        self.as_slice() == other.as_slice()
    }
}

/// One event in its place, or a list of none or several.
#[derive(Drop)]
pub(crate) enum Held {
    One(Event),
    Listed(Vec<Event>),
}

/// The events of a step, or that there is no memory for them.
pub(crate) type MadeEvents = Result<Events, AllocError>;

/// The events of a step. Contracts see them as a list.
#[derive(Drop)]
pub struct Events {
    held: Held,
}

impl Model for Events {
    ghost use Rattle.std.specs.Prelude.{List};
    ghost use Rattle.lin_core.specs.declared.event.Event.{Event};

    ghost Value = { List Event };

    ghost use Rattle.lin_core.specs.Held.{events_in};

    ghost view = { λ e. events_in e.held };
}

impl Events {
    /// These events.
    pub fn new(events: Vec<Event>) -> Events
        ensures { result ≡ events.items }
    {
        Events {
            held: Held::Listed(events),
        }
    }

    /// This event alone, which takes no memory.
    pub(crate) fn one(event: Event) -> Events
        ensures { result ≡ event ∷ [] }
    {
        Events {
            held: Held::One(event),
        }
    }

    /// The events, in order.
    pub fn as_slice(&self) -> &[Event]
        ensures { result.now ≡ self.now }
    {
        match &self.held {
            Held::One(event) => slice::from_ref(event),
            Held::Listed(events) => events.as_slice(),
        }
    }
}

impl PartialEq for Events {
    ghost use Rattle.std.specs.Cmp.Lexicographic.{lists_per, pointwise};
    ghost use Rattle.lin_core.specs.contracts.event.EventPartialEq.TheImpl as event;
    ghost use Rattle.lin_core.specs.contracts.event.EventPartialEq.TheImpl.Laws.{laws-law};

    ghost eq = { pointwise (event.ghosts).eq };

    ghost laws = { lists_per laws-law };

    fn eq(&self, other: &Events) -> bool {
        self.as_slice() == other.as_slice()
    }
}

impl fmt::Debug for Events {
    fn fmt<W: fmt::Write>(&self, f: &mut fmt::Formatter<W>) -> fmt::Result {
        fmt::Debug::fmt(self.as_slice(), f)
    }
}
