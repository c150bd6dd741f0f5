//! Warnings of the attributes of nodes (65 and 68 to 70).

ghost use Rattle.std.specs.Prelude.{◌≡◌, ◌++◌, ◌||◌, ℕ, IfOk, List, OnOk, false};
ghost use Rattle.std.specs.Prelude.{is_some, not, option_and_then};
ghost use Rattle.std.specs.List.{list_any};
ghost use Rattle.std.specs.Option.{option_copied, option_map, option_map_or};
ghost use Rattle.std.specs.Str.{bytes_eq};
ghost use Rattle.lin_cluster.specs.FindingsNames.{is_node, same_name};
ghost use Rattle.lin_cluster.specs.LintNames.{has_text};
ghost use Rattle.lin_cluster.specs.Models.{block_named};
ghost use Rattle.lin_cluster.specs.Names.{NumbersFirst};
ghost use Rattle.lin_ldf.specs.Forms.{front};
ghost use Rattle.lin_ldf.specs.Words.{is_word_next};
ghost use Rattle.lin_sections.specs.AttributeLints.{attribute_lints, bad_attribute};
ghost use Rattle.lin_sections.specs.AttributeLints.{has_address, has_attribute, has_status, is_bad_attribute};
ghost use Rattle.lin_sections.specs.AttributeLints.{is_below, is_too_short, no_response_error, no_response_errors};
ghost use Rattle.lin_sections.specs.AttributeLints.{of_attribute, of_block, publishes};
ghost use Rattle.lin_sections.specs.AttributeLints.{timeout_too_short, twice_in, version_of, WithWords};

use crate::attribute_blocks::{Attribute, NodeAttributes};
use crate::frame_times::longest_distance;
use indexmap::IndexMap;
use lin_cluster::{Finding, FindingKind, Named, Numbers, at_name, find_by, numbers_of, push_when};
use lin_parts::description::{Attributes, Description, Frame, Name};
use lin_text::Text;
use lin_values::put_first;
use std::alloc::{AllocError, Global};
use std::marker::Model;

impl<'a> Named for NodeAttributes<'a> {
    ghost name_of = { λ b. b.node };

    fn name(&self) -> &Name {
        &self.node
    }
}

/// Texts, each once.
struct Texts<'a> {
    map: IndexMap<&'a [u8], ()>,
}

// Written out, so that what owns one lets it go in one step.
impl<'a> Drop for Texts<'a> {
    fn drop(self) {
        let Texts { map: _map } = self;
    }
}

impl<'a> Texts<'a> {
    fn has(&self, text: &[u8]) -> bool
        ensures { result ≡ has_text self.now.map text.now }
    {
        self.map.contains_key(&text)
    }
}

/// Adds a text, and returns whether it is new.
#[tactic(auto, using(lin_cluster::proofs::LintSets::some_added))]
fn put_text<'a>(texts: &mut Texts<'a>, text: &'a [u8]) -> Result<bool, AllocError>
    ensures first { IfOk result (λ is_first. is_first ≡ not (has_text texts.old.map text.now)) }
    ensures put { OnOk result ((q : List ℕ) → has_text texts.new.map q
        ≡ (has_text texts.old.map q || bytes_eq text.now q)) }
{
    put_first(&mut texts.map, text, ())
}

/// Returns the names of the nodes that publish a frame.
fn publishers<'a>(alloc: Global, frames: &'a [Frame]) -> Result<Texts<'a>, AllocError>
    ensures { IfOk result (λ t. (q : List ℕ) → has_text t.map q
        ≡ list_any (λ f. bytes_eq f.publisher.text q) frames.now) }
{
    let mut texts = Texts {
        map: IndexMap::with_capacity(alloc, 0)?,
    };
    for frame in frames {
        put_text(&mut texts, frame.publisher.text.as_slice())?;
    }
    Ok(texts)
}

/// A description, and what its nodes are judged by, looked up once. Contracts see the description.
struct NodeFacts<'a> {
    description: &'a Description,
    slaves: Numbers<'a>,
    blocks: Numbers<'a>,
    publishers: Texts<'a>,
    requests_us: u128,
    responses_us: u128,
}

impl<'a> Model for NodeFacts<'a> {
    ghost use Rattle.lin_parts.specs.declared.description.Description.{Description};
    ghost use Rattle.lin_sections.specs.AttributeLints.{AreNodeFacts};

    ghost Value = { Description };

    ghost view = { λ n. n.description.now };

    ghost invariant = { λ n. AreNodeFacts n.description.now n.slaves.map n.blocks.map n.publishers.map
        n.requests_us n.responses_us };
}

// Written out, so that what owns one lets it go in one step.
impl<'a> Drop for NodeFacts<'a> {
    fn drop(self) {
        let NodeFacts {
            description: _,
            slaves: _slaves,
            blocks: _blocks,
            publishers: _publishers,
            requests_us: _,
            responses_us: _,
        } = self;
    }
}

/// Whether an attribute has a time that is shorter than this one, in microseconds.
fn is_below(attribute: &Attribute<'_>, longest_us: u128) -> Result<bool, AllocError>
    ensures { IfOk result (λ is. is ≡ is_below longest_us attribute.now) }
{
    match attribute.time()? {
        Some(time_us) => Ok(u128::from(time_us) < longest_us),
        None => Ok(false),
    }
}

/// Whether responders of a version report their errors in a signal.
fn has_status(version: &[u8]) -> bool
    ensures { result ≡ has_status version.now }
{
    version.starts_with(b"2.".as_slice()) || version.starts_with(b"ISO17987".as_slice())
}

impl<'a> NodeFacts<'a> {
    /// Looks at each name once. An error means out of memory.
    fn new(alloc: Global, description: &'a Description) -> Result<NodeFacts<'a>, AllocError>
        ensures { IfOk result (λ n. n ≡ description.now) }
    {
        let slaves = numbers_of(alloc, description.slaves())?;
        let blocks = numbers_of(alloc, description.attributes())?;
        let publishers = publishers(alloc, description.frames())?;
        let requests_us = longest_distance(b"MasterReq", description);
        let responses_us = longest_distance(b"SlaveResp", description);
        Ok(NodeFacts {
            description,
            slaves,
            blocks,
            publishers,
            requests_us,
            responses_us,
        })
    }

    /// Returns the names of the responders.
    fn slaves(&self) -> &'a [Name]
        ensures { result.now ≡ self.now.slaves }
    {
        self.description.slaves()
    }

    fn is_master(&self, name: &Name) -> bool
        ensures { result ≡ same_name self.now.master name.now }
    {
        self.description.master.text.as_slice() == name.text.as_slice()
    }

    /// Whether it is one of the names of the responders.
    #[tactic(auto, using(crate::proofs::AttributeSteps::any_found, crate::proofs::AttributeSteps::none_found))]
    fn is_slave(&self, name: &Name) -> bool
        ensures { result ≡ list_any (λ m. same_name m name.now) self.now.slaves }
    {
        match find_by(&self.slaves, self.slaves(), name) {
            Some(_) => true,
            None => false,
        }
    }

    fn is_node(&self, name: &Name) -> bool
        ensures { result ≡ is_node self.now name.now }
    {
        self.is_master(name) || self.is_slave(name)
    }

    /// Returns the block of a node in the description.
    fn block(&self, name: &Name) -> Option<&'a Attributes>
        ensures { option_copied result ≡ block_named self.now name.now }
    {
        find_by(&self.blocks, self.description.attributes(), name)
    }

    /// Whether the attributes of a node have an address.
    fn is_addressed(&self, name: &Name) -> bool
        ensures { result ≡ option_map_or (λ a. is_some a.configured_nad)
            (block_named self.now name.now) false }
    {
        match self.block(name) {
            Some(block) => block.configured_nad.is_some(),
            None => false,
        }
    }

    /// Whether it is a responder with an address.
    fn has_address(&self, name: &Name) -> bool
        ensures { result ≡ has_address self.now name.now }
    {
        !self.is_master(name) && self.is_slave(name) && self.is_addressed(name)
    }

    fn publishes(&self, name: &Name) -> bool
        ensures { result ≡ publishes self.now name.now }
    {
        self.publishers.has(name.text.as_slice())
    }

    /// Returns the version in the attributes of a node.
    fn protocol(&self, name: &Name) -> Option<&'a Text>
        ensures { option_map (λ v. v.now) result
            ≡ option_and_then (λ a. a.protocol) (block_named self.now name.now) }
    {
        match self.block(name) {
            Some(block) => block.protocol.as_ref(),
            None => None,
        }
    }

    /// Whether responders of the node's version, or of the header's if it has none, report their errors in a
    /// signal.
    fn has_status(&self, header: Option<&Text>, name: &Name) -> bool
        ensures { result ≡ option_map_or has_status
            (version_of self.now (option_map (λ v. v.now) header.entry) name.now) false }
    {
        match self.protocol(name) {
            Some(version) => has_status(version.as_slice()),
            None => match header {
                Some(version) => has_status(version.as_slice()),
                None => false,
            },
        }
    }

    /// Whether an attribute is a timeout that ends before the next frame of a message can be there.
    fn is_too_short(&self, attribute: &Attribute<'_>) -> Result<bool, AllocError>
        ensures { IfOk result (λ is. is ≡ is_too_short self.now attribute.now) }
    {
        if attribute.is(b"N_Cr_timeout") {
            is_below(attribute, self.requests_us)
        } else if attribute.is(b"N_As_timeout") {
            is_below(attribute, self.responses_us)
        } else {
            Ok(false)
        }
    }
}

/// Whether the value of an attribute isn't valid.
fn is_bad(attribute: &Attribute<'_>) -> Result<bool, AllocError>
    ensures { IfOk result (λ is. is ≡ is_bad_attribute attribute.now) }
{
    if attribute.is(b"product_id") {
        Ok(attribute.product()?.is_none())
    } else if attribute.is_timing() {
        Ok(attribute.time()?.is_none())
    } else {
        Ok(attribute.is(b"response_error") && !attribute.is_one_word())
    }
}

/// Whether one of these attributes has this word.
fn has_word(attributes: &[Attribute<'_>], word: &[u8]) -> bool
    ensures { result ≡ list_any (is_word_next word.now) attributes.now }
{
    attributes.iter().any(|attribute| attribute.is(word))
}

/// Whether the attributes of a node have one with this word.
fn has_attribute(
    blocks: &[NodeAttributes<'_>],
    numbers: &Numbers<'_>,
    word: &[u8],
    node: &Name,
) -> bool
    requires { NumbersFirst (λ b. b.node) blocks.now numbers.now.map }
    ensures { result ≡ has_attribute blocks.now word.now node.now }
{
    match find_by(numbers, blocks, node) {
        Some(block) => has_word(block.attributes.as_slice(), word),
        None => false,
    }
}

/// Adds 65 of a responder.
fn add_slave(
    found: &mut Vec<Finding>,
    nodes: &NodeFacts<'_>,
    version: Option<&Text>,
    blocks: &[NodeAttributes<'_>],
    numbers: &Numbers<'_>,
    slave: &Name,
) -> Result<(), AllocError>
    requires { NumbersFirst (λ b. b.node) blocks.now numbers.now.map }
    ensures { OnOk result (found.new.items ≡ found.old.items
        ++ no_response_error nodes.now (option_map (λ v. v.now) version.entry) blocks.now slave.now) }
{
    let has_signal = has_attribute(blocks, numbers, b"response_error", slave);
    let is_missing = nodes.publishes(slave) && !has_signal && nodes.has_status(version, slave);
    push_when(
        found,
        is_missing,
        at_name(FindingKind::NoResponseError, slave),
    )
}

/// Adds 65 of each responder.
fn add_slaves(
    found: &mut Vec<Finding>,
    nodes: &NodeFacts<'_>,
    version: Option<&Text>,
    blocks: &[NodeAttributes<'_>],
    numbers: &Numbers<'_>,
) -> Result<(), AllocError>
    requires { NumbersFirst (λ b. b.node) blocks.now numbers.now.map }
    ensures { OnOk result (found.new.items ≡ found.old.items
        ++ no_response_errors nodes.now (option_map (λ v. v.now) version.entry) blocks.now) }
{
    for slave in nodes.slaves() {
        add_slave(found, nodes, version, blocks, numbers, slave)?;
    }
    Ok(())
}

/// Adds 68 if the block already has the word of an attribute, and notes the word.
fn add_twice<'a>(
    found: &mut Vec<Finding>,
    words: &mut Texts<'a>,
    attribute: &Attribute<'a>,
) -> Result<(), AllocError>
    ensures found { OnOk result (found.new.items ≡ found.old.items
        ++ twice_in words.old.map attribute.now) }
    ensures words { OnOk result ((q : List ℕ) → has_text words.new.map q
        ≡ (has_text words.old.map q || bytes_eq (front attribute.now).text q)) }
{
    let is_first = put_text(words, attribute.word())?;
    push_when(
        found,
        !is_first,
        Finding::new(FindingKind::AttributeTwice, attribute.place()),
    )
}

/// Adds 69 and 70 of an attribute.
fn add_faults(
    found: &mut Vec<Finding>,
    nodes: &NodeFacts<'_>,
    node: &Name,
    attribute: &Attribute<'_>,
) -> Result<(), AllocError>
    ensures { OnOk result (found.new.items ≡ found.old.items
        ++ (bad_attribute attribute.now ++ timeout_too_short nodes.now node.now attribute.now)) }
{
    let is_bad = is_bad(attribute)?;
    push_when(
        found,
        is_bad,
        Finding::new(FindingKind::BadAttribute, attribute.place()),
    )?;
    let is_too_short = nodes.is_too_short(attribute)?;
    push_when(
        found,
        nodes.has_address(node) && is_too_short,
        Finding::new(FindingKind::TimeoutTooShort, attribute.place()),
    )
}

/// Adds the warnings of an attribute, and notes its word.
fn add_attribute<'a>(
    found: &mut Vec<Finding>,
    nodes: &NodeFacts<'_>,
    node: &Name,
    words: &mut Texts<'a>,
    attribute: &Attribute<'a>,
) -> Result<(), AllocError>
    ensures found { OnOk result (WithWords words.old.map (λ before. found.new.items
        ≡ found.old.items ++ of_attribute nodes.now node.now before attribute.now)) }
    ensures words { OnOk result ((q : List ℕ) → has_text words.new.map q
        ≡ (has_text words.old.map q || bytes_eq (front attribute.now).text q)) }
{
    add_twice(found, words, attribute)?;
    add_faults(found, nodes, node, attribute)
}

/// Adds the warnings of a block, if it is one of a node.
fn add_block(
    alloc: Global,
    found: &mut Vec<Finding>,
    nodes: &NodeFacts<'_>,
    block: &NodeAttributes<'_>,
) -> Result<(), AllocError>
    ensures { OnOk result (found.new.items ≡ found.old.items ++ of_block nodes.now block.now) }
{
    if !nodes.is_node(&block.node) {
        return Ok(());
    }
    let mut words = Texts {
        map: IndexMap::with_capacity(alloc, 0)?,
    };
    for attribute in block.attributes.as_slice() {
        add_attribute(found, nodes, &block.node, &mut words, attribute)?;
    }
    Ok(())
}

/// Finds the warnings of the attributes of nodes (65 and 68 to 70), for a description in which nothing is
/// wrong: first of each responder, then block by block. `version` is that in the header of the text.
///
/// An error means out of memory.
pub fn lint_attributes(
    alloc: Global,
    description: &Description,
    version: Option<&Text>,
    blocks: &[NodeAttributes<'_>],
) -> Result<Vec<Finding>, AllocError>
    ensures { IfOk result (λ found. found.items
        ≡ attribute_lints description.now (option_map (λ v. v.now) version.entry) blocks.now) }
{
    let nodes = NodeFacts::new(alloc, description)?;
    let numbers = numbers_of(alloc, blocks)?;
    let mut found = Vec::new(alloc);
    add_slaves(&mut found, &nodes, version, blocks, &numbers)?;
    for block in blocks {
        add_block(alloc, &mut found, &nodes, block)?;
    }
    Ok(found)
}
