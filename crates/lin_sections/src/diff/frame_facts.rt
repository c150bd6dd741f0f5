//! The facts of frames: unconditional, sporadic and event-triggered ones.

ghost use Rattle.std.specs.Prelude.{◌≡◌, ◌++◌, ◌∷◌, [], IfOk, OnOk, List, ℕ, map, option_map};
ghost use Rattle.lin_cluster.specs.FindingsNames.{signal_named};
ghost use Rattle.lin_cluster.specs.LintNames.{has_dot};
ghost use Rattle.lin_sections.specs.FactTexts.{with_spaces};
ghost use Rattle.lin_sections.specs.Lookups.{AreFrameLookups};
ghost use Rattle.lin_sections.specs.NewNames.{has_in, renames_data};
ghost use Rattle.lin_sections.specs.Renames.{all_event_names, all_frame_names, all_sporadic_names};
ghost use Rattle.lin_sections.specs.Renames.{event_keys, frame_keys, number_key, sporadic_keys, sporadic_key};
ghost use Rattle.lin_sections.specs.SortedTexts.{sorted_texts};
ghost use Rattle.lin_sections.specs.Things.{bits_in, signal_bits, compared_data, event_thing, frame_thing, id_fact};
ghost use Rattle.lin_sections.specs.Things.{frame_things, is_event_member, member_names, model_text, own_facts, place_fact};
ghost use Rattle.lin_sections.specs.Things.{place_of_first, placed_facts, sporadic_thing, table_facts, taken_bits};
ghost use Rattle.lin_sections.specs.NewNames.{AddsKeys};
ghost use Rattle.lin_sections.specs.Renames.{AreKeys};

use crate::diff::compared::LdfFacts;
use crate::diff::fact::{Bits, Class, Fact, Thing, ThingKind, add_fact};
use crate::diff::fact_text::{FactText, put_hex, put_word, two_words};
use crate::diff::header_facts::{add_number, place_of as place_of_number};
use crate::diff::new_names::{Keyed, KnownNames};
use crate::diff::node_facts::place_of;
use crate::diff::renames::Renames;
use crate::diff::sorted::{insert_sorted, joined};
use lin_cluster::{Numbers, find_by, numbers_of};
use lin_frame::SumKind;
use lin_parts::Location;
use lin_parts::description::{EventFrame, Frame, Name, Number, PlacedSignal, Signal, Sporadic};
use lin_text::Many;
use std::alloc::{AllocError, Global};

/// Whether `--field` added the schedule table, to resolve the collisions of an event-triggered frame. Its
/// name has a dot.
pub(crate) fn is_added(table: &Name) -> bool
    ensures { result ≡ has_dot table.now.text }
{
    table.text.as_slice().contains(&b'.')
}

fn id_text<'a>(alloc: Global, id: Number) -> Result<FactText<'a>, AllocError>
    ensures { IfOk result (λ t. t ≡ (id_fact id).value) }
{
    let mut text = Vec::from_slice(alloc, b"0x")?;
    put_hex(&mut text, (id.value % 256) as u8)?;
    FactText::copied(alloc, text.as_slice())
}

fn model_word(model: SumKind) -> &'static [u8]
    ensures { result.now ≡ model_text model }
{
    match model {
        SumKind::Classic => b"classic",
        SumKind::Enhanced => b"enhanced",
    }
}

/// Adds the fact of an identifier.
fn add_id<'a>(alloc: Global, facts: &mut Vec<Fact<'a>>, id: Number) -> Result<(), AllocError>
    ensures { OnOk result (facts.new.items ≡ facts.old.items ++ id_fact id ∷ []) }
{
    let value = id_text(alloc, id)?;
    add_fact(facts, b"id", value, place_of_number(id), Class::Bytes)
}

/// Returns the bits of a signal in a frame. `signal` is its declaration.
fn bits_of(placed: &PlacedSignal, signal: Option<&Signal>) -> Bits
    ensures { result ≡ signal_bits placed.now (option_map (λ s. s.now) signal.entry) }
{
    let from = u64::from(placed.offset.value);
    let size = match signal {
        Some(signal) => u64::from(signal.size.value),
        None => 0,
    };
    Bits {
        from,
        end: from + size,
    }
}

/// Returns the fact that places a signal in a frame. `name` is the new name of the signal.
fn place_fact<'a>(
    alloc: Global,
    name: &[u8],
    placed: &PlacedSignal,
    bits: Bits,
) -> Result<Fact<'a>, AllocError>
    ensures { IfOk result (λ f. f ≡ place_fact name.now placed.now bits) }
{
    let key = two_words(alloc, b"place", name)?;
    let value = FactText::number(alloc, u64::from(placed.offset.value))?;
    let place = place_of_number(placed.offset);
    let mut fact = Fact::new(key, value, place, Class::Bytes);
    fact.bits = Some(bits);
    Ok(fact)
}

/// Returns the facts of a frame without its signals. `publisher` is the new name of its publisher.
fn own_facts<'a>(
    alloc: Global,
    frame: &Frame,
    publisher: &'a [u8],
    model: SumKind,
) -> Result<Vec<Fact<'a>>, AllocError>
    ensures { IfOk result (λ v. v.items ≡ own_facts frame.now publisher.now model) }
{
    let mut found = Vec::new(alloc);
    add_id(alloc, &mut found, frame.id)?;
    let value = FactText::lent(publisher);
    let place = place_of(&frame.publisher);
    add_fact(&mut found, b"publisher", value, place, Class::Bytes)?;
    add_number(alloc, &mut found, b"size", frame.size, Class::Bytes)?;
    let value = FactText::lent(model_word(model));
    let place = place_of(&frame.name);
    add_fact(&mut found, b"model", value, place, Class::Bytes)?;
    Ok(found)
}

/// The data for the facts of frames, with signals and event-triggered members by name.
#[derive(Drop)]
struct FrameLookups<'b, 'a> {
    facts: &'b LdfFacts<'a>,
    renames: &'b Renames<'a>,
    signals: Numbers<'a>,
    members: KnownNames<'a>,
}

/// Returns the names of the members of event-triggered frames.
fn members<'a>(alloc: Global, events: &'a [EventFrame]) -> Result<KnownNames<'a>, AllocError>
    ensures { IfOk result (λ s. (q : List ℕ) → has_in s.map q ≡ is_event_member events.now q) }
{
    let mut members = KnownNames::new(alloc)?;
    for event in events {
        members.add_all(event.members.as_slice())?;
    }
    Ok(members)
}

impl<'b, 'a> FrameLookups<'b, 'a> {
    fn new(
        alloc: Global,
        facts: &'b LdfFacts<'a>,
        renames: &'b Renames<'a>,
    ) -> Result<FrameLookups<'b, 'a>, AllocError>
        ensures found { IfOk result (λ f. AreFrameLookups f) }
        ensures facts { IfOk result (λ f. f.facts.now ≡ facts.now) }
        ensures renames { IfOk result (λ f. f.renames.now ≡ renames.now) }
    {
        Ok(FrameLookups {
            facts,
            renames,
            signals: numbers_of(alloc, facts.ldf.description.signals())?,
            members: members(alloc, facts.ldf.description.events())?,
        })
    }

    /// Returns the bits of a signal in a frame.
    fn bits_of(&self, placed: &PlacedSignal) -> Bits
        requires { AreFrameLookups self.now }
        ensures { result ≡ signal_bits placed.now
            (signal_named self.now.facts.now.ldf.description.now placed.now.signal) }
    {
        let facts = self.facts;
        let signals = facts.ldf.description.signals();
        bits_of(placed, find_by(&self.signals, signals, &placed.signal))
    }

    /// Adds the facts that place signals in a frame.
    fn add_places(
        &self,
        alloc: Global,
        found: &mut Vec<Fact<'a>>,
        all: &[PlacedSignal],
    ) -> Result<(), AllocError>
        requires { AreFrameLookups self.now }
        ensures { OnOk result (found.new.items ≡ found.old.items
            ++ placed_facts self.now.facts.now.ldf.description.now (renames_data self.now.renames.now) all.now) }
    {
        for placed in all {
            let name = self.renames.signals.of(placed.signal.text.as_slice());
            found.push(place_fact(alloc, name, placed, self.bits_of(placed))?)?;
        }
        Ok(())
    }

    /// Adds the bits of signals.
    fn add_bits(&self, taken: &mut Vec<Bits>, all: &[PlacedSignal]) -> Result<(), AllocError>
        requires { AreFrameLookups self.now }
        ensures { OnOk result (taken.new.items
            ≡ taken.old.items ++ map (bits_in self.now.facts.now.ldf.description.now) all.now) }
    {
        for placed in all {
            taken.push(self.bits_of(placed))?;
        }
        Ok(())
    }

    /// Returns the bits of a frame that its signals or its protected identifier occupy.
    fn taken(&self, alloc: Global, frame: &Frame) -> Result<Vec<Bits>, AllocError>
        requires { AreFrameLookups self.now }
        ensures { IfOk result (λ v. v.items
            ≡ taken_bits self.now.facts.now.ldf.description.now frame.now) }
    {
        let mut taken = Vec::new(alloc);
        if self.members.has(frame.name.text.as_slice()) {
            taken.push(Bits { from: 0, end: 8 })?;
        }
        self.add_bits(&mut taken, frame.placed.as_slice())?;
        Ok(taken)
    }

    /// Returns an unconditional frame as a thing.
    fn thing(
        &self,
        alloc: Global,
        frame: &'a Frame,
        model: SumKind,
    ) -> Result<Thing<'a>, AllocError>
        requires { AreFrameLookups self.now }
        ensures { IfOk result (λ t. t ≡ frame_thing self.now.facts.now.ldf.description.now
            (renames_data self.now.renames.now) frame.now model) }
    {
        let publisher = self.renames.nodes.of(frame.publisher.text.as_slice());
        let mut found = own_facts(alloc, frame, publisher, model)?;
        self.add_places(alloc, &mut found, frame.placed.as_slice())?;
        let taken = self.taken(alloc, frame)?;
        let renames = &self.renames.frames;
        let mut thing = Thing::named(alloc, ThingKind::Frame, &frame.name, renames, found);
        thing.taken = Many::new(taken);
        Ok(thing)
    }
}

/// Returns the unconditional frames as things.
pub(crate) fn things<'a>(
    alloc: Global,
    facts: &LdfFacts<'a>,
    renames: &Renames<'a>,
) -> Result<Vec<Thing<'a>>, AllocError>
    ensures { IfOk result (λ v. v.items
        ≡ frame_things (compared_data facts.now.ldf) (renames_data renames.now)) }
{
    let looked_up = FrameLookups::new(alloc, facts, renames)?;
    let frames = facts.ldf.description.frames();
    let cluster = facts.ldf.cluster;
    cluster.sound();
    let mut things = Vec::new(alloc);
    for number in 0..frames.len().min(cluster.frames()) {
        things.push(looked_up.thing(alloc, &frames[number], cluster.model(number as u16))?)?;
    }
    Ok(things)
}

/// Returns the new names of frames, with a space between them.
fn member_names<'a>(
    alloc: Global,
    members: &'a [Name],
    renames: &Renames<'a>,
) -> Result<FactText<'a>, AllocError>
    ensures { IfOk result (λ t. t ≡ with_spaces (member_names (renames_data renames.now) members.now)) }
{
    let mut text = Vec::new(alloc);
    for member in members {
        put_word(&mut text, renames.frames.of(member.text.as_slice()))?;
    }
    FactText::copied(alloc, text.as_slice())
}

/// Returns the place of the first member, or the place of `name` if there are no members.
fn place_of_first(members: &[Name], name: &Name) -> Location
    ensures { result ≡ place_of_first members.now name.now }
{
    match members.first() {
        Some(first) => place_of(first),
        None => place_of(name),
    }
}

fn sporadic_thing<'a>(
    alloc: Global,
    sporadic: &'a Sporadic,
    renames: &Renames<'a>,
) -> Result<Thing<'a>, AllocError>
    ensures { IfOk result (λ t. t ≡ sporadic_thing (renames_data renames.now) sporadic.now) }
{
    let members = sporadic.members.as_slice();
    let value = member_names(alloc, members, renames)?;
    let place = place_of_first(members, &sporadic.name);
    let mut found = Vec::new(alloc);
    add_fact(&mut found, b"members", value, place, Class::Timing)?;
    let name = &sporadic.name;
    Ok(Thing::named(alloc, ThingKind::Sporadic, name, &renames.frames, found))
}

/// Returns the sporadic frames as things.
pub(crate) fn sporadic_things<'a>(
    alloc: Global,
    facts: &LdfFacts<'a>,
    renames: &Renames<'a>,
) -> Result<Vec<Thing<'a>>, AllocError>
    ensures { IfOk result (λ v. v.items ≡ map (sporadic_thing (renames_data renames.now))
        facts.now.ldf.description.now.sporadic) }
{
    let mut things = Vec::new(alloc);
    for sporadic in facts.ldf.description.sporadic() {
        things.push(sporadic_thing(alloc, sporadic, renames)?)?;
    }
    Ok(things)
}

/// Returns the new names of frames, sorted by their bytes, with a space between them.
fn sorted_names<'a>(
    alloc: Global,
    members: &'a [Name],
    renames: &Renames<'a>,
) -> Result<FactText<'a>, AllocError>
    ensures { IfOk result
        (λ t. t ≡ with_spaces (sorted_texts (member_names (renames_data renames.now) members.now))) }
{
    let mut names = Many::new(Vec::new(alloc));
    for member in members {
        let name = renames.frames.of(member.text.as_slice());
        insert_sorted(&mut names, FactText::lent(name))?;
    }
    joined(alloc, names.as_slice())
}

/// Adds the collision resolving table, unless `--field` added it.
#[tactic(auto, using(crate::proofs::StatementSteps::nothing_more))]
fn add_table<'a>(
    facts: &mut Vec<Fact<'a>>,
    table: &'a Name,
    renames: &Renames<'a>,
) -> Result<(), AllocError>
    ensures { OnOk result
        (facts.new.items ≡ facts.old.items ++ table_facts (renames_data renames.now) table.now) }
{
    if is_added(table) {
        return Ok(());
    }
    let value = FactText::lent(renames.tables.of(table.text.as_slice()));
    add_fact(facts, b"table", value, place_of(table), Class::Timing)
}

fn event_thing<'a>(
    alloc: Global,
    event: &'a EventFrame,
    renames: &Renames<'a>,
) -> Result<Thing<'a>, AllocError>
    ensures { IfOk result (λ t. t ≡ event_thing (renames_data renames.now) event.now) }
{
    let mut found = Vec::new(alloc);
    add_id(alloc, &mut found, event.id)?;
    add_table(&mut found, &event.table, renames)?;
    let members = event.members.as_slice();
    let value = sorted_names(alloc, members, renames)?;
    let place = place_of_first(members, &event.name);
    add_fact(&mut found, b"members", value, place, Class::Bytes)?;
    Ok(Thing::named(alloc, ThingKind::Event, &event.name, &renames.frames, found))
}

/// Returns the event-triggered frames as things.
pub(crate) fn event_things<'a>(
    alloc: Global,
    facts: &LdfFacts<'a>,
    renames: &Renames<'a>,
) -> Result<Vec<Thing<'a>>, AllocError>
    ensures { IfOk result (λ v. v.items ≡ map (event_thing (renames_data renames.now))
        facts.now.ldf.description.now.events) }
{
    let mut things = Vec::new(alloc);
    for event in facts.ldf.description.events() {
        things.push(event_thing(alloc, event, renames)?)?;
    }
    Ok(things)
}

/// Adds the key of a thing if its name isn't among `others`. `number` is its identifier or its NAD.
#[tactic(auto, using(crate::proofs::StatementSteps::nothing_more))]
pub(crate) fn add_number_key<'a>(
    alloc: Global,
    keys: &mut Vec<Keyed<'a>>,
    name: &'a Name,
    number: Number,
    others: &KnownNames<'_>,
) -> Result<(), AllocError>
    ensures { OnOk result (AddsKeys others.now keys.old.items keys.new.items (number_key name.now number ∷ [])) }
{
    let name = name.text.as_slice();
    if others.has(name) {
        return Ok(());
    }
    let key = FactText::number(alloc, u64::from(number.value))?;
    keys.push(Keyed { name, key })?;
    Ok(())
}

/// Returns the keys of the unconditional frames whose names the other LDF doesn't have.
pub(crate) fn keys<'a>(
    alloc: Global,
    facts: &LdfFacts<'a>,
    other: &LdfFacts<'_>,
) -> Result<Vec<Keyed<'a>>, AllocError>
    ensures { IfOk result (λ v. AreKeys all_frame_names other.now v.items
        (frame_keys (compared_data facts.now.ldf))) }
{
    let others = KnownNames::of(alloc, other.ldf.description.frames())?;
    let mut keys = Vec::new(alloc);
    for frame in facts.ldf.description.frames() {
        add_number_key(alloc, &mut keys, &frame.name, frame.id, &others)?;
    }
    Ok(keys)
}

/// Returns the keys of the event-triggered frames whose names the other LDF doesn't have.
pub(crate) fn event_keys<'a>(
    alloc: Global,
    facts: &LdfFacts<'a>,
    other: &LdfFacts<'_>,
) -> Result<Vec<Keyed<'a>>, AllocError>
    ensures { IfOk result (λ v. AreKeys all_event_names other.now v.items
        (event_keys (compared_data facts.now.ldf))) }
{
    let others = KnownNames::of(alloc, other.ldf.description.events())?;
    let mut keys = Vec::new(alloc);
    for event in facts.ldf.description.events() {
        add_number_key(alloc, &mut keys, &event.name, event.id, &others)?;
    }
    Ok(keys)
}

/// Adds the key of a sporadic frame, its members, if its name isn't among `others`.
#[tactic(auto, using(crate::proofs::StatementSteps::nothing_more))]
fn add_sporadic_key<'a>(
    alloc: Global,
    keys: &mut Vec<Keyed<'a>>,
    sporadic: &'a Sporadic,
    others: &KnownNames<'_>,
    renames: &Renames<'a>,
) -> Result<(), AllocError>
    ensures { OnOk result (AddsKeys others.now keys.old.items keys.new.items (sporadic_key (renames_data renames.now) sporadic.now ∷ [])) }
{
    let name = sporadic.name.text.as_slice();
    if others.has(name) {
        return Ok(());
    }
    let key = member_names(alloc, sporadic.members.as_slice(), renames)?;
    keys.push(Keyed { name, key })?;
    Ok(())
}

/// Returns the keys of the sporadic frames whose names the other LDF doesn't have.
pub(crate) fn sporadic_keys<'a>(
    alloc: Global,
    facts: &LdfFacts<'a>,
    other: &LdfFacts<'_>,
    renames: &Renames<'a>,
) -> Result<Vec<Keyed<'a>>, AllocError>
    ensures { IfOk result (λ v. AreKeys all_sporadic_names other.now v.items
        (sporadic_keys (compared_data facts.now.ldf) (renames_data renames.now))) }
{
    let others = KnownNames::of(alloc, other.ldf.description.sporadic())?;
    let mut keys = Vec::new(alloc);
    for sporadic in facts.ldf.description.sporadic() {
        add_sporadic_key(alloc, &mut keys, sporadic, &others, renames)?;
    }
    Ok(keys)
}
