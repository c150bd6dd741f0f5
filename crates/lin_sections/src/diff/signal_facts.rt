//! The facts of signals.

ghost use Rattle.std.specs.Prelude.{◌≡◌, ◌++◌, ◌∷◌, [], IfOk, OnOk, List, ℕ, fold, length, map, option_map};
ghost use Rattle.std.specs.Prelude.{false, true};
ghost use Rattle.std.specs.List.{list_any};
ghost use Rattle.lin_sections.specs.NewNames.{keyed_name, renames_data};
ghost use Rattle.lin_sections.specs.Numbering.{ArePlaces};
ghost use Rattle.lin_sections.specs.Renames.{place_text, signal_key, signal_keys, all_signal_names};
ghost use Rattle.lin_sections.specs.SignalPlaces.{alone_names, number_among, with_places_in, with_place, without_places, ArePlacesOf, NumbersAlone};
ghost use Rattle.lin_sections.specs.Things.{array_text, compared_data, encoding_facts, encoding_of};
ghost use Rattle.lin_sections.specs.Things.{initial_fact, is_subscriber, signal_thing, size_text};
ghost use Rattle.lin_sections.specs.Things.{value_facts, with_subscriber, IsReadOf};
ghost use Rattle.lin_sections.specs.Renames.{AreKeys};
ghost use Rattle.lin_sections.specs.SignalPlaces.{AddsPlaces, AddsSignalKey, FindsPlaces, ArePlacesIn};

use crate::diff::compared::LdfFacts;
use crate::diff::fact::{Class, Fact, Thing, ThingKind, add_fact};
use crate::diff::fact_text::{FactText, put_hex, put_number, put_word, two_words};
use crate::diff::header_facts::place_of as place_of_number;
use crate::diff::index::Index;
use crate::diff::new_names::{Keyed, KnownNames};
use crate::diff::node_facts::place_of;
use crate::diff::renames::Renames;
use crate::diff::sorted::{insert_sorted, joined};
use lin_parts::description::{Frame, Init, Name, Number, PlacedSignal, Signal};
use lin_text::Many;
use lin_values::{CodingType, put_first};
use std::alloc::{AllocError, Global};

/// Returns the size of a signal in bits, after `array` if it is an array.
fn size_text<'a>(alloc: Global, signal: &Signal) -> Result<FactText<'a>, AllocError>
    ensures { IfOk result (λ t. t ≡ size_text signal.now) }
{
    let size = u64::from(signal.size.value);
    match &signal.init {
        Init::Scalar(_) => FactText::number(alloc, size),
        Init::Array(_, _) => {
            let mut text = Vec::from_slice(alloc, b"array ")?;
            put_number(&mut text, size)?;
            FactText::copied(alloc, text.as_slice())
        }
    }
}

/// Returns the bytes of an array in the syntax of scripts.
fn array_text<'a>(alloc: Global, values: &[Number]) -> Result<FactText<'a>, AllocError>
    ensures { IfOk result (λ t. t ≡ array_text values.now) }
{
    let mut text = Vec::from_slice(alloc, b"x")?;
    for value in values {
        put_hex(&mut text, (value.value % 256) as u8)?;
    }
    FactText::copied(alloc, text.as_slice())
}

/// Returns the fact of a signal's initial value, in the syntax of scripts.
fn initial_fact<'a>(alloc: Global, init: &Init) -> Result<Fact<'a>, AllocError>
    ensures { IfOk result (λ f. f ≡ initial_fact init.now) }
{
    let (value, place) = match init {
        Init::Scalar(number) => {
            let text = FactText::number(alloc, u64::from(number.value))?;
            (text, place_of_number(*number))
        }
        Init::Array(place, values) => (array_text(alloc, values.as_slice())?, *place),
    };
    Ok(Fact::new(FactText::lent(b"initial"), value, place, Class::Bytes))
}

/// Whether an earlier fact is this subscriber.
fn is_known(facts: &[Fact<'_>], name: &[u8]) -> bool
    ensures { result ≡ list_any (is_subscriber name.now) facts.now }
{
    for fact in facts {
        if fact.class.is_compatible() && fact.value.as_slice() == name {
            return true;
        }
    }
    false
}

/// Adds a subscriber unless an earlier fact has it.
fn add_subscriber<'a>(
    alloc: Global,
    facts: &mut Vec<Fact<'a>>,
    subscriber: &'a Name,
    renames: &Renames<'a>,
) -> Result<(), AllocError>
    ensures { OnOk result (facts.new.items
        ≡ with_subscriber (renames_data renames.now) facts.old.items subscriber.now) }
{
    let name = renames.nodes.of(subscriber.text.as_slice());
    if is_known(facts.as_slice(), name) {
        return Ok(());
    }
    let key = two_words(alloc, b"subscriber", name)?;
    let place = place_of(subscriber);
    facts.push(Fact::new(key, FactText::lent(name), place, Class::Compatible))?;
    Ok(())
}

/// Adds the subscribers of a signal.
fn add_subscribers<'a>(
    alloc: Global,
    facts: &mut Vec<Fact<'a>>,
    subscribers: &'a [Name],
    renames: &Renames<'a>,
) -> Result<(), AllocError>
    ensures { OnOk result (facts.new.items
        ≡ fold (with_subscriber (renames_data renames.now)) facts.old.items subscribers.now) }
{
    for subscriber in subscribers {
        add_subscriber(alloc, facts, subscriber, renames)?;
    }
    Ok(())
}

/// Returns the facts of a signal's size, initial value and publisher.
fn value_facts<'a>(
    alloc: Global,
    signal: &'a Signal,
    renames: &Renames<'a>,
) -> Result<Vec<Fact<'a>>, AllocError>
    ensures { IfOk result (λ v. v.items ≡ value_facts (renames_data renames.now) signal.now) }
{
    let mut found = Vec::new(alloc);
    let size = size_text(alloc, signal)?;
    let place = place_of_number(signal.size);
    add_fact(&mut found, b"size", size, place, Class::Bytes)?;
    found.push(initial_fact(alloc, &signal.init)?)?;
    let publisher = FactText::lent(renames.nodes.of(signal.publisher.text.as_slice()));
    let place = place_of(&signal.publisher);
    add_fact(&mut found, b"publisher", publisher, place, Class::Bytes)?;
    Ok(found)
}

/// Adds the encoding of a signal if it has one.
#[tactic(auto, using(crate::proofs::StatementSteps::nothing_more))]
fn add_encoding<'a>(
    facts: &mut Vec<Fact<'a>>,
    signal: &Signal,
    encoding: Option<&'a CodingType>,
    renames: &Renames<'a>,
) -> Result<(), AllocError>
    ensures { OnOk result (facts.new.items ≡ facts.old.items
        ++ encoding_facts (renames_data renames.now) signal.now (option_map (λ t. t.now) encoding.entry)) }
{
    if let Some(encoding) = encoding {
        let value = FactText::lent(renames.encodings.of(encoding.name.text.as_slice()));
        let place = place_of(&signal.name);
        add_fact(facts, b"encoding", value, place, Class::Meaning)?;
    }
    Ok(())
}

/// Returns the encoding of a signal.
fn encoding_of<'a>(facts: &LdfFacts<'a>, signal: &Signal) -> Option<&'a CodingType>
    requires { IsReadOf facts.now }
    ensures { option_map (λ t. t.now) result ≡ encoding_of facts.now.ldf.codings.now signal.now }
{
    match facts.codings.encoding_of(signal.name.text.as_slice()) {
        Some(number) => facts.ldf.codings.types.as_slice().get(number),
        None => None,
    }
}

/// Returns a signal as a thing.
fn thing<'a>(
    alloc: Global,
    facts: &LdfFacts<'a>,
    signal: &'a Signal,
    renames: &Renames<'a>,
) -> Result<Thing<'a>, AllocError>
    requires { IsReadOf facts.now }
    ensures { IfOk result (λ t. t
        ≡ signal_thing (compared_data facts.now.ldf) (renames_data renames.now) signal.now) }
{
    let mut found = value_facts(alloc, signal, renames)?;
    add_subscribers(alloc, &mut found, signal.subscribers.as_slice(), renames)?;
    add_encoding(&mut found, signal, encoding_of(facts, signal), renames)?;
    Ok(Thing::named(
        alloc,
        ThingKind::Signal,
        &signal.name,
        &renames.signals,
        found,
    ))
}

/// Returns the signals as things.
pub(crate) fn things<'a>(
    alloc: Global,
    facts: &LdfFacts<'a>,
    renames: &Renames<'a>,
) -> Result<Vec<Thing<'a>>, AllocError>
    requires { IsReadOf facts.now }
    ensures { IfOk result (λ v. v.items ≡ map
        (signal_thing (compared_data facts.now.ldf) (renames_data renames.now))
        facts.now.ldf.description.now.signals) }
{
    let mut things = Vec::new(alloc);
    for signal in facts.ldf.description.signals() {
        things.push(thing(alloc, facts, signal, renames)?)?;
    }
    Ok(things)
}

/// The places in frames of signals, by the names of the signals.
#[derive(Drop)]
struct Places<'a> {
    numbers: Index<'a>,
    all: Vec<Many<FactText<'a>>>,
}

/// Returns a place in a frame: the name of the frame and the offset.
#[tactic(auto, using(crate::proofs::FactSteps::word_goes_on))]
fn place_text<'a>(
    alloc: Global,
    frame: &[u8],
    placed: &PlacedSignal,
) -> Result<FactText<'a>, AllocError>
    ensures { IfOk result (λ t. t ≡ place_text frame.now placed.now) }
{
    let mut text = Vec::from_slice(alloc, frame)?;
    put_word(&mut text, &[])?;
    put_number(&mut text, u64::from(placed.offset.value))?;
    FactText::copied(alloc, text.as_slice())
}

impl<'a> Places<'a> {
    /// Adds a signal without places if its name isn't among `others`.
    fn add_alone(
        &mut self,
        alloc: Global,
        name: &'a [u8],
        others: &KnownNames<'_>,
    ) -> Result<(), AllocError>
        ensures numbers { OnOk result (NumbersAlone self.old self.new (alone_names others.now (name.now ∷ []))) }
        ensures all { OnOk result (self.new.all.items
            ≡ self.old.all.items ++ without_places (alone_names others.now (name.now ∷ []))) }
    {
        if others.has(name) {
            return Ok(());
        }
        put_first(&mut self.numbers.map, name, self.all.len())?;
        self.all.push(Many::new(Vec::new(alloc)))?;
        Ok(())
    }

    /// Makes a collection without places for the signals whose names aren't among `others`.
    fn new(
        alloc: Global,
        signals: &'a [Signal],
        others: &KnownNames<'_>,
    ) -> Result<Places<'a>, AllocError>
        ensures { IfOk result (λ p. ArePlacesOf
            (alone_names others.now (map (λ s. s.name.text) signals.now)) (λ q. []) p) }
    {
        let mut places = Places {
            numbers: Index::new(alloc)?,
            all: Vec::new(alloc),
        };
        for signal in signals {
            places.add_alone(alloc, signal.name.text.as_slice(), others)?;
        }
        Ok(places)
    }

    /// Returns the number of a signal, or the number of all signals if it isn't among them.
    fn number_of(&self, signal: &[u8]) -> usize
        ensures { (names : List (List ℕ)) → ArePlaces names self.now.numbers.map
            → length self.now.all.items ≡ length names → result ≡ number_among names signal.now }
    {
        match self.numbers.place_of(signal) {
            Some(number) => number,
            None => self.all.len(),
        }
    }

    /// Adds a place of a signal if the signal is among the collected ones.
    fn add(&mut self, signal: &[u8], place: FactText<'a>) -> Result<(), AllocError>
        ensures { OnOk result
            (AddsPlaces self.old self.new (λ places. with_place places signal.now place.entry)) }
    {
        let number = self.number_of(signal);
        if self.all.len() <= number {
            return Ok(());
        }
        insert_sorted(&mut self.all[number], place)?;
        Ok(())
    }

    /// Adds the places of the signals of a frame.
    fn add_frame(
        &mut self,
        alloc: Global,
        frame: &Frame,
        renames: &Renames<'a>,
    ) -> Result<(), AllocError>
        ensures { OnOk result (AddsPlaces self.old self.new
            (λ places. with_places_in (renames_data renames.now) places frame.now)) }
    {
        let name = renames.frames.of(frame.name.text.as_slice());
        for placed in frame.placed.as_slice() {
            let place = place_text(alloc, name, placed)?;
            self.add(placed.signal.text.as_slice(), place)?;
        }
        Ok(())
    }

    /// Returns the places of a signal.
    fn of(&self, signal: &[u8]) -> &[FactText<'a>]
        ensures { FindsPlaces self.now signal.now result.now }
    {
        let number = self.number_of(signal);
        if self.all.len() <= number {
            return &[];
        }
        self.all[number].as_slice()
    }
}

/// Returns the places of the signals whose names aren't among `others`.
fn placed_in_frames<'a>(
    alloc: Global,
    facts: &LdfFacts<'a>,
    others: &KnownNames<'_>,
    renames: &Renames<'a>,
) -> Result<Places<'a>, AllocError>
    ensures { IfOk result
        (λ p. ArePlacesIn (compared_data facts.now.ldf) others.now (renames_data renames.now) p) }
{
    let mut places = Places::new(alloc, facts.ldf.description.signals(), others)?;
    if places.all.is_empty() {
        return Ok(places);
    }
    for frame in facts.ldf.description.frames() {
        places.add_frame(alloc, frame, renames)?;
    }
    Ok(places)
}

/// Adds the key of a signal, its kind, size and places, if it has any places.
#[tactic(auto, using(crate::proofs::StatementSteps::nothing_more))]
fn add_key<'a>(
    alloc: Global,
    keys: &mut Vec<Keyed<'a>>,
    signal: &'a Signal,
    places: &[FactText<'_>],
) -> Result<(), AllocError>
    ensures { OnOk result (map keyed_name keys.new.items
        ≡ map keyed_name keys.old.items ++ signal_key signal.now places.now) }
{
    if places.is_empty() {
        return Ok(());
    }
    let size = size_text(alloc, signal)?;
    let text = joined(alloc, places)?;
    let key = two_words(alloc, size.as_slice(), text.as_slice())?;
    let name = signal.name.text.as_slice();
    keys.push(Keyed { name, key })?;
    Ok(())
}

/// Adds the key of a signal if its name isn't among `others`. Only then `places` has its places.
fn add_key_if_alone<'a>(
    alloc: Global,
    keys: &mut Vec<Keyed<'a>>,
    signal: &'a Signal,
    others: &KnownNames<'_>,
    places: &Places<'_>,
) -> Result<(), AllocError>
    ensures { OnOk result (AddsSignalKey places.now others.now signal.now keys.old.items keys.new.items) }
{
    let name = signal.name.text.as_slice();
    if others.has(name) {
        return Ok(());
    }
    add_key(alloc, keys, signal, places.of(name))
}

/// Returns the keys of the signals that are in a frame and whose names the other LDF doesn't have: kind,
/// size and all places.
pub(crate) fn keys<'a>(
    alloc: Global,
    facts: &LdfFacts<'a>,
    other: &LdfFacts<'_>,
    renames: &Renames<'a>,
) -> Result<Vec<Keyed<'a>>, AllocError>
    ensures { IfOk result (λ v. AreKeys all_signal_names other.now v.items
        (signal_keys (compared_data facts.now.ldf) (renames_data renames.now))) }
{
    let others = KnownNames::of(alloc, other.ldf.description.signals())?;
    let places = placed_in_frames(alloc, facts, &others, renames)?;
    let mut keys = Vec::new(alloc);
    for signal in facts.ldf.description.signals() {
        add_key_if_alone(alloc, &mut keys, signal, &others, &places)?;
    }
    Ok(keys)
}
