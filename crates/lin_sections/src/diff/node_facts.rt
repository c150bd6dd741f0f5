//! The facts of nodes.

ghost use Rattle.std.specs.Prelude.{◌≡◌, ◌++◌, ◌∷◌, [], IfOk, List, ℕ, OnOk, filter, find, map, option_map};
ghost use Rattle.lin_cluster.specs.FindingsNames.{same_name};
ghost use Rattle.lin_cluster.specs.Models.{block_named};
ghost use Rattle.lin_ldf.specs.Words.{place_of};
ghost use Rattle.lin_sections.specs.Attributes.{node_attributes};
ghost use Rattle.lin_sections.specs.Facts.{place_of_name};
ghost use Rattle.lin_sections.specs.Lookups.{AreBlocks};
ghost use Rattle.lin_sections.specs.NewNames.{has_in, is_among, renames_data};
ghost use Rattle.lin_sections.specs.Renames.{commander_key, node_keys, all_node_names, responder_keys};
ghost use Rattle.lin_sections.specs.Things.{attribute_fact, attribute_facts, commander_thing, compared_data};
ghost use Rattle.lin_sections.specs.Things.{is_other_attribute, nad_facts, nad_of, node_facts, node_thing};
ghost use Rattle.lin_sections.specs.Things.{node_things, protocol_facts, responder_thing, role_fact};
ghost use Rattle.lin_sections.specs.Things.{IsReadOf};
ghost use Rattle.lin_sections.specs.NewNames.{AddsKeys};
ghost use Rattle.lin_sections.specs.Renames.{AreKeys};
ghost use Rattle.lin_sections.specs.Renames.{all_responder_keys};
ghost use Rattle.lin_sections.specs.Things.{other_attribute, fact_of};

use crate::attribute_blocks::{Attribute, NodeAttributes};
use crate::diff::compared::LdfFacts;
use crate::diff::fact::{Class, Fact, Thing, ThingKind, add_fact};
use crate::diff::fact_text::FactText;
use crate::diff::frame_facts::add_number_key;
use crate::diff::header_facts::add_number;
use crate::diff::new_names::{Keyed, KnownNames};
use crate::diff::numbering::numbered;
use crate::diff::renames::Renames;
use crate::diff::tokens::{Spelling, value_text};
use crate::shown_texts::shown_text;
use lin_cluster::{Numbers, find_by, numbers_of};
use lin_parts::Location;
use lin_parts::description::{Attributes, Description, Name, Number};
use std::alloc::{AllocError, Global};

/// Returns the place of a name.
pub(crate) fn place_of(name: &Name) -> Location
    ensures { result ≡ place_of_name name.now }
{
    Location {
        line: name.line,
        column: name.column,
    }
}

/// Returns the names of the nodes.
fn names<'a>(alloc: Global, facts: &LdfFacts<'a>) -> Result<KnownNames<'a>, AllocError>
    ensures { IfOk result (λ s. (q : List ℕ)
        → has_in s.map q ≡ is_among (all_node_names facts.now.ldf.description.now) q) }
{
    let description = facts.ldf.description;
    let mut names = KnownNames::new(alloc)?;
    names.add(description.master().text.as_slice())?;
    names.add_all(description.slaves())?;
    Ok(names)
}

fn nad_of(block: Option<&Attributes>) -> Option<Number>
    ensures { result ≡ nad_of (option_map (λ b. b.now) block.entry) }
{
    match block {
        Some(block) => block.configured_nad,
        None => None,
    }
}

/// Adds the key of a responder, its NAD, if it has one and its name isn't among `others`.
#[tactic(auto, using(crate::proofs::StatementSteps::nothing_more))]
fn add_key<'a>(
    alloc: Global,
    keys: &mut Vec<Keyed<'a>>,
    others: &KnownNames<'_>,
    name: &'a Name,
    block: Option<&Attributes>,
) -> Result<(), AllocError>
    ensures { OnOk result (AddsKeys others.now keys.old.items keys.new.items (responder_keys name.now (option_map (λ b. b.now) block.entry))) }
{
    match nad_of(block) {
        Some(nad) => add_number_key(alloc, keys, name, nad, others),
        None => Ok(()),
    }
}

/// Adds the key of the commander if its name isn't among `others`.
#[tactic(auto, using(crate::proofs::StatementSteps::nothing_more))]
fn add_commander_key<'a>(
    keys: &mut Vec<Keyed<'a>>,
    others: &KnownNames<'_>,
    description: &'a Description,
) -> Result<(), AllocError>
    ensures { OnOk result (AddsKeys others.now keys.old.items keys.new.items (commander_key description.now ∷ [])) }
{
    let name = description.master().text.as_slice();
    if others.has(name) {
        return Ok(());
    }
    let key = FactText::lent(b"commander");
    keys.push(Keyed { name, key })?;
    Ok(())
}

/// Adds the keys of the responders whose names aren't among `others`. `attributes` has the attributes of
/// all nodes.
fn add_responder_keys<'a>(
    alloc: Global,
    keys: &mut Vec<Keyed<'a>>,
    others: &KnownNames<'_>,
    slaves: &'a [Name],
    attributes: &[Attributes],
) -> Result<(), AllocError>
    ensures { OnOk result (AddsKeys others.now keys.old.items keys.new.items (all_responder_keys attributes.now slaves.now)) }
{
    let numbers = numbers_of(alloc, attributes)?;
    for slave in slaves {
        add_key(
            alloc,
            keys,
            others,
            slave,
            find_by(&numbers, attributes, slave),
        )?;
    }
    Ok(())
}

/// Returns the keys of the nodes whose names the other LDF doesn't have: the word `commander`, or a NAD.
pub(crate) fn keys<'a>(
    alloc: Global,
    facts: &LdfFacts<'a>,
    other: &LdfFacts<'_>,
) -> Result<Vec<Keyed<'a>>, AllocError>
    ensures { IfOk result (λ v. AreKeys (λ d. all_node_names d.description) other.now v.items
        (node_keys (compared_data facts.now.ldf))) }
{
    let description = facts.ldf.description;
    let others = names(alloc, other)?;
    let mut keys = Vec::new(alloc);
    add_commander_key(&mut keys, &others, description)?;
    let attributes = description.attributes();
    add_responder_keys(alloc, &mut keys, &others, description.slaves(), attributes)?;
    Ok(keys)
}

/// Returns the value and the class of an attribute.
fn attribute_value<'a>(
    alloc: Global,
    attribute: &Attribute<'a>,
    renames: &Renames<'a>,
) -> Result<(FactText<'a>, Class), AllocError>
    ensures { IfOk result
        (λ v. fact_of attribute.now v.0 v.1 ≡ attribute_fact (renames_data renames.now) attribute.now) }
{
    if attribute.is(b"product_id") || attribute.is(b"initial_NAD") {
        return Ok((
            value_text(alloc, attribute, Spelling::Numbers)?,
            Class::Bytes,
        ));
    }
    if attribute.is(b"configurable_frames") {
        let value = value_text(alloc, attribute, Spelling::Frames(renames))?;
        return Ok((value, Class::Bytes));
    }
    if attribute.is(b"response_error") {
        let spelling = if attribute.is_one_word() {
            Spelling::Signals(renames)
        } else {
            Spelling::AsTheyAre
        };
        return Ok((value_text(alloc, attribute, spelling)?, Class::Meaning));
    }
    if !attribute.is_timing() {
        return Ok((
            value_text(alloc, attribute, Spelling::AsTheyAre)?,
            Class::Names,
        ));
    }
    let value = match attribute.time()? {
        Some(time_us) => FactText::number(alloc, u64::from(time_us))?,
        None => value_text(alloc, attribute, Spelling::AsTheyAre)?,
    };
    Ok((value, Class::Timing))
}

/// Adds an attribute, unless another fact of the node has its value.
#[tactic(auto, using(crate::proofs::StatementSteps::nothing_more))]
fn add_attribute<'a>(
    alloc: Global,
    facts: &mut Vec<Fact<'a>>,
    attribute: &Attribute<'a>,
    renames: &Renames<'a>,
) -> Result<(), AllocError>
    ensures { OnOk result (facts.new.items ≡ facts.old.items
        ++ other_attribute (renames_data renames.now) attribute.now) }
{
    if attribute.is(b"LIN_protocol") || attribute.is(b"configured_NAD") {
        return Ok(());
    }
    let (value, class) = attribute_value(alloc, attribute, renames)?;
    let key = FactText::lent(attribute.word());
    facts.push(Fact::new(key, value, attribute.place(), class))?;
    Ok(())
}

/// Adds attributes.
fn add_all<'a>(
    alloc: Global,
    facts: &mut Vec<Fact<'a>>,
    attributes: &[Attribute<'a>],
    renames: &Renames<'a>,
) -> Result<(), AllocError>
    ensures { OnOk result (facts.new.items ≡ facts.old.items
        ++ map (attribute_fact (renames_data renames.now)) (filter is_other_attribute attributes.now)) }
{
    for attribute in attributes {
        add_attribute(alloc, facts, attribute, renames)?;
    }
    Ok(())
}

/// Adds the attributes of a node if the LDF has any.
#[tactic(auto, using(crate::proofs::StatementSteps::nothing_more))]
fn add_attributes<'a>(
    alloc: Global,
    facts: &mut Vec<Fact<'a>>,
    block: Option<&NodeAttributes<'a>>,
    renames: &Renames<'a>,
) -> Result<(), AllocError>
    ensures { OnOk result (facts.new.items ≡ facts.old.items
        ++ attribute_facts (renames_data renames.now) (option_map (λ b. b.now) block.entry)) }
{
    match block {
        Some(block) => add_all(alloc, facts, block.attributes.as_slice(), renames),
        None => Ok(()),
    }
}

/// Adds the `LIN_protocol` of a node if it has one.
#[tactic(auto, using(crate::proofs::StatementSteps::nothing_more))]
fn add_protocol<'a>(
    alloc: Global,
    facts: &mut Vec<Fact<'a>>,
    block: Option<&Attributes>,
) -> Result<(), AllocError>
    ensures { OnOk result (facts.new.items
        ≡ facts.old.items ++ protocol_facts (option_map (λ b. b.now) block.entry)) }
{
    if let Some(block) = block
        && let Some(protocol) = &block.protocol
    {
        let value = FactText::made(shown_text(alloc, protocol.as_slice())?);
        let place = place_of(&block.node);
        add_fact(facts, b"protocol", value, place, Class::Names)?;
    }
    Ok(())
}

/// Adds the role of a node in the cluster.
fn add_role<'a>(
    facts: &mut Vec<Fact<'a>>,
    role: &'static [u8],
    name: &Name,
) -> Result<(), AllocError>
    ensures { OnOk result (facts.new.items ≡ facts.old.items ++ role_fact role.now name.now ∷ []) }
{
    add_fact(
        facts,
        b"role",
        FactText::lent(role),
        place_of(name),
        Class::Bytes,
    )
}

/// Adds the NAD of a responder if it has one.
#[tactic(auto, using(crate::proofs::StatementSteps::nothing_more))]
fn add_nad<'a>(
    alloc: Global,
    facts: &mut Vec<Fact<'a>>,
    block: Option<&Attributes>,
) -> Result<(), AllocError>
    ensures { OnOk result (facts.new.items
        ≡ facts.old.items ++ nad_facts (option_map (λ b. b.now) block.entry)) }
{
    match nad_of(block) {
        Some(nad) => add_number(alloc, facts, b"nad", nad, Class::Bytes),
        None => Ok(()),
    }
}

/// Returns a node as a thing with these facts.
fn node_thing<'a>(
    alloc: Global,
    name: &'a Name,
    facts: Vec<Fact<'a>>,
    renames: &Renames<'a>,
) -> Result<Thing<'a>, AllocError>
    ensures { IfOk result (λ t. t ≡ node_thing (renames_data renames.now) name.now facts.entry.items) }
{
    let found = numbered(alloc, facts)?;
    Ok(Thing::named(alloc, ThingKind::Node, name, &renames.nodes, found))
}

/// The attributes of nodes by name: the ones of the description, and all attributes of the LDF.
#[derive(Drop)]
struct Blocks<'b, 'a> {
    facts: &'b LdfFacts<'a>,
    declared: Numbers<'a>,
    read: Numbers<'b>,
}

impl<'b, 'a> Blocks<'b, 'a> {
    fn new(alloc: Global, facts: &'b LdfFacts<'a>) -> Result<Blocks<'b, 'a>, AllocError>
        requires { IsReadOf facts.now }
        ensures blocks { IfOk result (λ b. AreBlocks b) }
        ensures facts { IfOk result (λ b. b.facts.now ≡ facts.now) }
    {
        Ok(Blocks {
            facts,
            declared: numbers_of(alloc, facts.ldf.description.attributes())?,
            read: numbers_of(alloc, facts.blocks.as_slice())?,
        })
    }

    /// Returns the attributes of a node in the description.
    fn declared(&self, name: &Name) -> Option<&'a Attributes>
        requires { AreBlocks self.now }
        ensures { option_map (λ b. b.now) result ≡ block_named self.now.facts.now.ldf.description.now name.now }
    {
        let facts = self.facts;
        let blocks = facts.ldf.description.attributes();
        find_by(&self.declared, blocks, name)
    }

    /// Returns all attributes of a node in the LDF.
    fn read(&self, name: &Name) -> Option<&'b NodeAttributes<'a>>
        requires { AreBlocks self.now }
        ensures { option_map (λ b. b.now) result ≡ find (λ b. same_name b.node name.now)
            (node_attributes (compared_data self.now.facts.now.ldf).tokens) }
    {
        let facts = self.facts;
        find_by(&self.read, facts.blocks.as_slice(), name)
    }

    /// Adds the facts that each node can have.
    fn add_facts(
        &self,
        alloc: Global,
        found: &mut Vec<Fact<'a>>,
        name: &'a Name,
        renames: &Renames<'a>,
    ) -> Result<(), AllocError>
        requires { AreBlocks self.now }
        ensures { OnOk result (found.new.items ≡ found.old.items
            ++ node_facts (compared_data self.now.facts.now.ldf) (renames_data renames.now) name.now) }
    {
        add_protocol(alloc, found, self.declared(name))?;
        add_attributes(alloc, found, self.read(name), renames)
    }

    /// Returns the commander as a thing.
    fn commander(&self, alloc: Global, renames: &Renames<'a>) -> Result<Thing<'a>, AllocError>
        requires { AreBlocks self.now }
        ensures { IfOk result (λ t. t
            ≡ commander_thing (compared_data self.now.facts.now.ldf) (renames_data renames.now)) }
    {
        let facts = self.facts;
        let name = facts.ldf.description.master();
        let mut found = Vec::new(alloc);
        add_role(&mut found, b"commander", name)?;
        self.add_facts(alloc, &mut found, name, renames)?;
        node_thing(alloc, name, found, renames)
    }

    /// Returns a responder as a thing.
    fn responder(
        &self,
        alloc: Global,
        name: &'a Name,
        renames: &Renames<'a>,
    ) -> Result<Thing<'a>, AllocError>
        requires { AreBlocks self.now }
        ensures { IfOk result (λ t. t
            ≡ responder_thing (compared_data self.now.facts.now.ldf) (renames_data renames.now) name.now) }
    {
        let mut found = Vec::new(alloc);
        add_role(&mut found, b"responder", name)?;
        add_nad(alloc, &mut found, self.declared(name))?;
        self.add_facts(alloc, &mut found, name, renames)?;
        node_thing(alloc, name, found, renames)
    }
}

/// Returns the nodes as things, the commander first.
pub(crate) fn things<'a>(
    alloc: Global,
    facts: &LdfFacts<'a>,
    renames: &Renames<'a>,
) -> Result<Vec<Thing<'a>>, AllocError>
    requires { IsReadOf facts.now }
    ensures { IfOk result (λ v. v.items
        ≡ node_things (compared_data facts.now.ldf) (renames_data renames.now)) }
{
    let blocks = Blocks::new(alloc, facts)?;
    let mut things = Vec::new(alloc);
    things.push(blocks.commander(alloc, renames)?)?;
    for slave in facts.ldf.description.slaves() {
        things.push(blocks.responder(alloc, slave, renames)?)?;
    }
    Ok(things)
}
