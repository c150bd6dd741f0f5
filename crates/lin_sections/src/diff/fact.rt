//! The contents of an LDF as things with facts: its header, nodes, signals, frames, schedule tables and
//! encodings.

ghost use Rattle.std.specs.Prelude.{◌≡◌, ◌++◌, ◌∷◌, [], OnOk};
ghost use Rattle.lin_sections.specs.Facts.{class_if_gone, class_if_new, class_word, fact, is_compatible};
ghost use Rattle.lin_sections.specs.Facts.{kind_word, label, overlap, place_of_name, thing};
ghost use Rattle.lin_sections.specs.NewNames.{known_by, name_in};

use crate::diff::fact_text::FactText;
use crate::diff::index::Identified;
use crate::diff::new_names::NewNames;
use crate::diff::node_facts::place_of;
use crate::diff::numbering::Repeatable;
use lin_parts::Location;
use lin_parts::description::Name;
use lin_text::{Many, Text};
use std::alloc::{AllocError, Global};

/// What a difference means for the nodes of the cluster.
#[derive(Clone, Copy)]
pub enum Class {
    /// A node made for the old LDF may misinterpret or miss a response, or not respond.
    Bytes,
    /// The same bytes at other times.
    Timing,
    /// The same bytes at the same times, with other physical or logical values.
    Meaning,
    /// Something new that no node made for the old LDF uses.
    Compatible,
    /// Names, versions and notes.
    Names,
}

/// The kinds of things, in the order in which differences are listed.
#[derive(Clone, Copy)]
pub enum ThingKind {
    Header,
    Node,
    Signal,
    Frame,
    Sporadic,
    Event,
    Table,
    Encoding,
}

/// Data bits of a frame, from the bit `from` up to the bit before `end`.
#[derive(Clone, Copy)]
pub struct Bits {
    pub from: u64,
    pub end: u64,
}

/// A fact of a thing: a key, a value and its place in the LDF.
#[derive(Drop)]
pub struct Fact<'a> {
    /// Unique among the facts of a thing: the second fact with a key has ` #2` after the key.
    pub key: FactText<'a>,
    pub value: FactText<'a>,
    pub place: Location,
    pub class: Class,
    /// The bits of a signal in a frame; `None` for all other facts.
    pub bits: Option<Bits>,
}

/// An entry of a schedule table.
#[derive(Drop)]
pub struct EntryFact<'a> {
    /// The new name of the frame, or the configuration command with its arguments.
    pub word: FactText<'a>,
    /// The word with its number if an earlier entry of the table has the same word.
    pub again: Option<Text>,
    /// The number of entries before it, in decimal.
    pub position: Text,
    pub place: Location,
    /// The delay in microseconds, in decimal.
    pub delay: Text,
    pub delay_place: Location,
}

/// A thing that an LDF declares, with its facts.
#[derive(Drop)]
pub struct Thing<'a> {
    pub kind: ThingKind,
    pub name: FactText<'a>,
    /// Its name in the new LDF.
    pub new_name: FactText<'a>,
    pub place: Location,
    pub facts: Many<Fact<'a>>,
    /// The entries of a schedule table.
    pub entries: Many<EntryFact<'a>>,
    /// The bits of a frame that its signals or its protected identifier occupy.
    pub taken: Many<Bits>,
}

impl Class {
    /// Returns the word of the class, as `diff` writes it.
    pub fn word(self) -> &'static [u8]
        ensures { result.now ≡ class_word self }
    {
        match self {
            Class::Bytes => b"bytes",
            Class::Timing => b"timing",
            Class::Meaning => b"meaning",
            Class::Compatible => b"compatible",
            Class::Names => b"names",
        }
    }

    pub(crate) fn is_compatible(self) -> bool
        ensures { result ≡ is_compatible self }
    {
        match self {
            Class::Compatible => true,
            Class::Bytes | Class::Timing | Class::Meaning | Class::Names => false,
        }
    }
}

impl ThingKind {
    /// Returns the word of the kind, as `diff` writes it; empty for the header.
    pub fn word(self) -> &'static [u8]
        ensures { result.now ≡ kind_word self }
    {
        match self {
            ThingKind::Header => b"",
            ThingKind::Node => b"node",
            ThingKind::Signal => b"signal",
            ThingKind::Frame => b"frame",
            ThingKind::Sporadic => b"sporadic",
            ThingKind::Event => b"event",
            ThingKind::Table => b"table",
            ThingKind::Encoding => b"encoding",
        }
    }

    /// Returns the class of a thing that the new LDF doesn't have.
    pub(crate) fn class_if_gone(self) -> Class
        ensures { result ≡ class_if_gone self }
    {
        match self {
            ThingKind::Header
            | ThingKind::Node
            | ThingKind::Signal
            | ThingKind::Frame
            | ThingKind::Event => Class::Bytes,
            ThingKind::Sporadic | ThingKind::Table => Class::Timing,
            ThingKind::Encoding => Class::Names,
        }
    }

    /// Returns the class of a thing that the old LDF doesn't have.
    pub(crate) fn class_if_new(self) -> Class
        ensures { result ≡ class_if_new self }
    {
        match self {
            ThingKind::Sporadic => Class::Timing,
            ThingKind::Encoding => Class::Names,
            _ => Class::Compatible,
        }
    }
}

impl Bits {
    /// Whether the two ranges have a bit in common.
    pub(crate) fn overlap(self, other: Bits) -> bool
        ensures { result ≡ overlap self other }
    {
        self.from < other.end && other.from < self.end
    }
}

impl<'a> Fact<'a> {
    /// Makes a fact without bits.
    pub(crate) fn new(
        key: FactText<'a>,
        value: FactText<'a>,
        place: Location,
        class: Class,
    ) -> Fact<'a>
        ensures { result ≡ fact key.entry value.entry place class }
    {
        Fact {
            key,
            value,
            place,
            class,
            bits: None,
        }
    }

    /// Returns the key as `diff` writes it: for a subscriber only the first word, because its name is the
    /// value.
    pub(crate) fn label(&self) -> &[u8]
        ensures { result.now ≡ label self.now }
    {
        match self.class {
            Class::Compatible => b"subscriber",
            _ => self.key.as_slice(),
        }
    }
}

/// Adds a fact without bits.
pub(crate) fn add_fact<'a>(
    facts: &mut Vec<Fact<'a>>,
    key: &'static [u8],
    value: FactText<'a>,
    place: Location,
    class: Class,
) -> Result<(), AllocError>
    ensures { OnOk result (facts.new.items
        ≡ facts.old.items ++ fact key.now value.entry place class ∷ []) }
{
    facts.push(Fact::new(FactText::lent(key), value, place, class))?;
    Ok(())
}

impl<'a> Identified for Thing<'a> {
    ghost id_of = { λ t. t.new_name };

    fn id(&self) -> &[u8] {
        self.new_name.as_slice()
    }
}

impl<'a> Identified for Fact<'a> {
    ghost id_of = { λ f. f.key };

    fn id(&self) -> &[u8] {
        self.key.as_slice()
    }
}

// The word of an entry, with a number if the word is repeated, is unique in its table.
impl<'a> Identified for EntryFact<'a> {
    ghost use Rattle.lin_sections.specs.Numbering.{entry_id};

    ghost id_of = { entry_id };

    fn id(&self) -> &[u8] {
        match &self.again {
            Some(again) => again.as_slice(),
            None => self.word.as_slice(),
        }
    }
}

impl<'a> Repeatable for Fact<'a> {
    ghost text_of = { λ f. f.key };

    ghost with_text = { λ text f. record f { key = text } };

    fn text(&self) -> &[u8] {
        self.key.as_slice()
    }

    fn keep_numbered(&mut self, numbered: Text) {
        self.key = FactText::made(numbered);
    }
}

impl<'a> Repeatable for EntryFact<'a> {
    ghost use Rattle.std.specs.Prelude.{Some};

    ghost text_of = { λ e. e.word };

    ghost with_text = { λ text e. record e { again = Some text } };

    fn text(&self) -> &[u8] {
        self.word.as_slice()
    }

    fn keep_numbered(&mut self, numbered: Text) {
        self.again = Some(numbered);
    }
}

impl<'a> Thing<'a> {
    /// Makes a thing without entries and bits. `names` are its own name and its new name.
    pub(crate) fn new(
        alloc: Global,
        kind: ThingKind,
        names: (&'a [u8], &'a [u8]),
        place: Location,
        facts: Vec<Fact<'a>>,
    ) -> Thing<'a>
        ensures { result ≡ thing kind names.entry.0.now names.entry.1.now place facts.entry.items }
    {
        Thing {
            kind,
            name: FactText::lent(names.0),
            new_name: FactText::lent(names.1),
            place,
            facts: Many::new(facts),
            entries: Many::new(Vec::new(alloc)),
            taken: Many::new(Vec::new(alloc)),
        }
    }

    /// Makes a thing without entries and bits, with its new name among `renames`.
    pub(crate) fn named(
        alloc: Global,
        kind: ThingKind,
        name: &'a Name,
        renames: &NewNames<'a>,
        facts: Vec<Fact<'a>>,
    ) -> Thing<'a>
        ensures { result ≡ thing kind name.now.text (name_in (known_by renames.now) name.now.text)
            (place_of_name name.now) facts.entry.items }
    {
        let text = name.text.as_slice();
        Thing::new(alloc, kind, (text, renames.of(text)), place_of(name), facts)
    }
}
