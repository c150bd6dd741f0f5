//! Settling of attributes: which address each responder has, and which version each node.

ghost use Rattle.std.specs.Prelude.{◌≡◌, ◌++◌, ◌==◌, ◌&&◌, flat_map, map, length, is_none, true, All};
ghost use Rattle.std.specs.Prelude.{IfOk, OnOk};
ghost use Rattle.lin_cluster.specs.Names.{NumbersFirst};
ghost use Rattle.lin_field.specs.Names.{is_loose_node, node_list};
ghost use Rattle.lin_field.specs.Attributes.{line_nad, chosen_nad, draft, told_nad, new_draft};
ghost use Rattle.lin_field.specs.Attributes.{new_drafts, drafts, draft_warnings, responder_nad};
ghost use Rattle.lin_field.specs.Attributes.{responder_nads, is_nad_number, settled_block, nad_warnings};
ghost use Rattle.lin_field.specs.Attributes.{settled_draft, draft_nad_warnings, line_warnings};
ghost use Rattle.lin_field.specs.Attributes.{settled_attributes, attribute_warnings};
ghost use Rattle.lin_field.specs.Attributes.{address_warnings, initial_warning, beside_configured};
ghost use Rattle.lin_field.specs.Attributes.{is_there, line_warning};

use crate::loose::{LooseAttributes, NodeAddress};
use crate::node_names::{NodeNames, copied, is_named};
use lin_cluster::{
    Finding, FindingKind, Numbers, Repeats, at_name, at_number, find_by, numbers_of, push_when,
};
use lin_parts::description::{Attributes, Name, Number};
use lin_text::{Many, Text};
use std::alloc::{AllocError, Global};
use std::marker::Model;

/// What attributes are settled by: the nodes, the lines of `Diagnostic_addresses`, and the header's
/// version where it begins with `1.`.
pub struct AttributeSources<'a, 'n> {
    pub nodes: &'a NodeNames<'n>,
    pub lines: &'a [NodeAddress],
    pub numbers: Numbers<'a>,
    pub version: Option<&'a [u8]>,
}

impl<'a, 'n> Model for AttributeSources<'a, 'n> {
    ghost use Rattle.std.specs.Option.{option_map};
    ghost use Rattle.lin_cluster.specs.Names.{NumbersFirst};
    ghost use Rattle.lin_field.specs.Attributes.{Elsewhere, elsewhere_of};

    ghost Value = { Elsewhere };

    ghost view = { λ t. elsewhere_of t.nodes.now t.lines.now (option_map (λ v. v.now) t.version) };

    ghost invariant = { λ t. NumbersFirst (λ l. l.node) t.lines.now t.numbers.map };
}

// (written out, so that an owner has one call)
impl<'a, 'n> Drop for AttributeSources<'a, 'n> {
    fn drop(self) {
        let AttributeSources {
            nodes: _,
            lines: _,
            numbers: _numbers,
            version: _,
        } = self;
    }
}

impl<'a, 'n> AttributeSources<'a, 'n> {
    /// The address of a responder's line.
    fn line_nad(&self, node: &Name) -> Option<Number>
        ensures { result ≡ line_nad self.now node.now }
    {
        match find_by(&self.numbers, self.lines, node) {
            Some(line) => Some(line.nad),
            None => None,
        }
    }

    /// Whether nothing is told of nodes outside of their blocks.
    fn tells_nothing(&self) -> bool
        ensures { result ≡ (is_none self.now.version && (length self.now.lines == 0)) }
    {
        self.version.is_none() && self.lines.is_empty()
    }

    /// The header's version.
    fn copied_version(&self, alloc: Global) -> Result<Option<Text>, AllocError>
        ensures { IfOk result (λ version. version ≡ self.now.version) }
    {
        match self.version {
            Some(version) => Ok(Some(Text::copied(alloc, version)?)),
            None => Ok(None),
        }
    }

    /// The address that a responder's block tells, or the node's line.
    fn chosen_nad(&self, attributes: &LooseAttributes) -> Option<Number>
        ensures { result ≡ chosen_nad self.now attributes.now }
    {
        match attributes.block.configured_nad {
            Some(nad) => Some(nad),
            None => match self.line_nad(&attributes.block.node) {
                Some(nad) => Some(nad),
                None => attributes.initial_nad,
            },
        }
    }

    /// The block of a node with what is told of the node elsewhere.
    fn draft(&self, alloc: Global, attributes: LooseAttributes) -> Result<Attributes, AllocError>
        requires { is_loose_node self.now.nodes attributes.block.node ≡ true }
        ensures { IfOk result (λ block. block ≡ draft self.now attributes) }
    {
        let nad = self.chosen_nad(&attributes);
        let LooseAttributes {
            mut block,
            initial_nad: _,
        } = attributes;
        if self.nodes.is_responding_node(&block.node) {
            block.configured_nad = nad;
        }
        if block.protocol.is_none() {
            block.protocol = self.copied_version(alloc)?;
        }
        Ok(block)
    }

    /// The address that a node without a block is told.
    fn told_nad(&self, node: &Name) -> Option<Number>
        ensures { result ≡ told_nad self.now node.now }
    {
        if self.nodes.is_responder(node) {
            self.line_nad(node)
        } else {
            None
        }
    }

    /// A block for a node that has none, where something is told of the node elsewhere.
    fn new_draft(&self, alloc: Global, node: &Name) -> Result<Option<Attributes>, AllocError>
        ensures { IfOk result (λ block. block ≡ new_draft self.now node.now) }
    {
        let nad = self.told_nad(node);
        if self.version.is_none() && nad.is_none() {
            return Ok(None);
        }
        Ok(Some(Attributes {
            node: copied(alloc, node)?,
            protocol: self.copied_version(alloc)?,
            configured_nad: nad,
            response_error: None,
        }))
    }

    fn warn_of_draft(
        &self,
        warned: &mut Vec<Finding>,
        attributes: &LooseAttributes,
        is_known: bool,
    ) -> Result<(), AllocError>
        requires { is_known ≡ is_loose_node self.now.nodes attributes.now.block.node }
        ensures { OnOk result
            (warned.new.items ≡ warned.old.items ++ draft_warnings self.now attributes.now) }
    {
        let node = &attributes.block.node;
        push_when(warned, !is_known, at_name(FindingKind::UnknownName, node))?;
        if self.nodes.is_responder(node) {
            self.warn_of_addresses(warned, attributes)?;
        }
        Ok(())
    }

    /// The addresses of a responder's block and line that it doesn't have, and an initial one that it
    /// has.
    fn warn_of_addresses(
        &self,
        warned: &mut Vec<Finding>,
        attributes: &LooseAttributes,
    ) -> Result<(), AllocError>
        ensures { OnOk result
            (warned.new.items ≡ warned.old.items ++ address_warnings self.now attributes.now) }
    {
        let configured = attributes.block.configured_nad;
        let line = self.line_nad(&attributes.block.node);
        let is_taken = configured.is_none() && line.is_none();
        warn_of_initial(warned, is_taken, attributes.initial_nad)?;
        warn_beside(warned, line, configured)
    }

    /// A line of no node, or a responder's later one.
    fn warn_of_line(&self, warned: &mut Vec<Finding>, line: &NodeAddress) -> Result<(), AllocError>
        ensures { OnOk result
            (warned.new.items ≡ warned.old.items ++ line_warning self.now line.now) }
    {
        let is_known = self.nodes.is_node(&line.node);
        push_when(
            warned,
            !is_known,
            at_name(FindingKind::UnknownName, &line.node),
        )?;
        let is_later = match self.line_nad(&line.node) {
            Some(first) => !is_there(first, line.nad),
            None => false,
        };
        push_when(
            warned,
            self.nodes.is_responder(&line.node) && is_later,
            at_number(FindingKind::NadTwice, &line.nad),
        )
    }
}

/// Whether a number stands at the place of another.
fn is_there(one: Number, other: Number) -> bool
    ensures { result ≡ is_there one other }
{
    one.line == other.line && one.column == other.column
}

/// The initial address, where it is the address, or isn't and couldn't be.
fn warn_of_initial(
    warned: &mut Vec<Finding>,
    is_taken: bool,
    initial: Option<Number>,
) -> Result<(), AllocError>
    ensures { OnOk result
        (warned.new.items ≡ warned.old.items ++ initial_warning is_taken initial) }
{
    let Some(nad) = initial else {
        return Ok(());
    };
    push_when(warned, is_taken, at_number(FindingKind::InitialNad, &nad))?;
    push_when(
        warned,
        !is_taken && !is_nad(nad),
        at_number(FindingKind::BadNad, &nad),
    )
}

/// The address of a line, where another one is configured.
fn warn_beside(
    warned: &mut Vec<Finding>,
    line: Option<Number>,
    configured: Option<Number>,
) -> Result<(), AllocError>
    ensures { OnOk result
        (warned.new.items ≡ warned.old.items ++ beside_configured line configured) }
{
    match (line, configured) {
        (Some(nad), Some(other)) => push_when(
            warned,
            nad.value != other.value,
            at_number(FindingKind::NadTwice, &nad),
        ),
        _ => Ok(()),
    }
}

fn add_new_draft(
    alloc: Global,
    told: &AttributeSources<'_, '_>,
    blocks: &[LooseAttributes],
    numbers: &Numbers<'_>,
    node: &Name,
    drafts: &mut Vec<Attributes>,
) -> Result<(), AllocError>
    requires { NumbersFirst (λ a. a.block.node) blocks.now numbers.now.map }
    ensures { OnOk result
        (drafts.new.items ≡ drafts.old.items ++ new_drafts told.now blocks.now node.now) }
{
    if is_named(numbers, blocks, node) {
        return Ok(());
    }
    if let Some(draft) = told.new_draft(alloc, node)? {
        drafts.push(draft)?;
    }
    Ok(())
}

/// Blocks for nodes that have none, in the order of the nodes.
fn new_drafts(
    alloc: Global,
    told: &AttributeSources<'_, '_>,
    blocks: &[LooseAttributes],
) -> Result<Vec<Attributes>, AllocError>
    ensures { IfOk result
        (λ v. v.items ≡ flat_map (new_drafts told.now blocks.now) (node_list told.now.nodes)) }
{
    if told.tells_nothing() {
        return Ok(Vec::new(alloc));
    }
    let numbers = numbers_of(alloc, blocks)?;
    let names = told.nodes;
    let nodes = names.nodes;
    let mut drafts = Vec::new(alloc);
    add_new_draft(alloc, told, blocks, &numbers, &nodes.master, &mut drafts)?;
    for node in nodes.slaves.as_slice() {
        add_new_draft(alloc, told, blocks, &numbers, node, &mut drafts)?;
    }
    Ok(drafts)
}

/// The blocks of nodes, with the address that each responder is told.
fn drafts(
    alloc: Global,
    told: &AttributeSources<'_, '_>,
    attributes: Many<LooseAttributes>,
    warned: &mut Vec<Finding>,
) -> Result<Vec<Attributes>, AllocError>
    ensures drafts { IfOk result (λ d. d.items ≡ drafts told.now attributes) }
    ensures warned { OnOk result
        (warned.new.items ≡ warned.old.items ++ flat_map (draft_warnings told.now) attributes) }
{
    let mut new = new_drafts(alloc, told, attributes.as_slice())?;
    let mut drafts = Vec::with_capacity(alloc, attributes.as_slice().len())?;
    for block in attributes.into_vec() {
        let is_known = told.nodes.is_node(&block.block.node);
        told.warn_of_draft(warned, &block, is_known)?;
        if is_known {
            drafts.push(told.draft(alloc, block)?)?;
        }
    }
    drafts.append(&mut new)?;
    Ok(drafts)
}

/// The address that a node is told, where it is a responder.
fn responder_nad(nodes: &NodeNames<'_>, draft: &Attributes) -> Option<Number>
    requires { is_loose_node nodes.now draft.now.node ≡ true }
    ensures { result ≡ responder_nad nodes.now draft.now }
{
    if nodes.is_responding_node(&draft.node) {
        draft.configured_nad
    } else {
        None
    }
}

/// The addresses that responders are told.
fn responder_nads(
    alloc: Global,
    nodes: &NodeNames<'_>,
    drafts: &[Attributes],
) -> Result<Vec<Number>, AllocError>
    requires { All (λ a. is_loose_node nodes.now a.node ≡ true) drafts.now }
    ensures { IfOk result (λ n. n.items ≡ responder_nads nodes.now drafts.now) }
{
    let mut nads = Vec::new(alloc);
    for draft in drafts {
        match responder_nad(nodes, draft) {
            Some(nad) => nads.push(nad)?,
            None => {}
        }
    }
    Ok(nads)
}

fn is_nad(nad: Number) -> bool
    ensures { result ≡ is_nad_number nad }
{
    1 <= nad.value && nad.value <= 125
}

/// A block whose responder has its address where it may have it.
fn settle_block(
    nads: &Repeats,
    block: &mut Attributes,
    warned: &mut Vec<Finding>,
) -> Result<(), AllocError>
    ensures settled { OnOk result (block.new ≡ settled_block nads.now block.old) }
    ensures warned { OnOk result
        (warned.new.items ≡ warned.old.items ++ nad_warnings nads.now block.old) }
{
    let Some(nad) = block.configured_nad else {
        return Ok(());
    };
    let is_twice = is_nad(nad) && nads.is_repeated(&nad);
    push_when(warned, !is_nad(nad), at_number(FindingKind::BadNad, &nad))?;
    push_when(warned, is_twice, at_number(FindingKind::NadTwice, &nad))?;
    if !is_nad(nad) || is_twice {
        block.configured_nad = None;
    }
    Ok(())
}

fn warn_of_lines(
    told: &AttributeSources<'_, '_>,
    warned: &mut Vec<Finding>,
) -> Result<(), AllocError>
    ensures { OnOk result (warned.new.items ≡ warned.old.items ++ line_warnings told.now) }
{
    for line in told.lines {
        told.warn_of_line(warned, line)?;
    }
    Ok(())
}

/// A node's block: a responder has its address where it may have it.
fn settle_draft(
    told: &AttributeSources<'_, '_>,
    nads: &Repeats,
    draft: &mut Attributes,
    warned: &mut Vec<Finding>,
) -> Result<(), AllocError>
    requires { is_loose_node told.now.nodes draft.old.node ≡ true }
    ensures settled { OnOk result (draft.new ≡ settled_draft told.now nads.now draft.old) }
    ensures warned { OnOk result
        (warned.new.items ≡ warned.old.items ++ draft_nad_warnings told.now nads.now draft.old) }
{
    if told.nodes.is_responding_node(&draft.node) {
        settle_block(nads, draft, warned)?;
    }
    Ok(())
}

fn settle_drafts(
    told: &AttributeSources<'_, '_>,
    nads: &Repeats,
    drafts: &mut [Attributes],
    warned: &mut Vec<Finding>,
) -> Result<(), AllocError>
    requires { All (λ a. is_loose_node told.now.nodes a.node ≡ true) drafts.old }
    ensures settled { OnOk result (drafts.new ≡ map (settled_draft told.now nads.now) drafts.old) }
    ensures warned { OnOk result
        (warned.new.items
        ≡ warned.old.items ++ flat_map (draft_nad_warnings told.now nads.now) drafts.old) }
{
    for draft in drafts.iter_mut() {
        settle_draft(told, nads, draft, warned)?;
    }
    Ok(())
}

/// The blocks of nodes, one for each that something is told of.
pub fn settle_attributes(
    alloc: Global,
    told: &AttributeSources<'_, '_>,
    attributes: Many<LooseAttributes>,
    warned: &mut Vec<Finding>,
) -> Result<Many<Attributes>, AllocError>
    ensures settled { IfOk result (λ a. a ≡ settled_attributes told.now attributes) }
    ensures warned { OnOk result
        (warned.new.items ≡ warned.old.items ++ attribute_warnings told.now attributes) }
{
    warn_of_lines(told, warned)?;
    let mut drafts = drafts(alloc, told, attributes, warned)?;
    let nads = Repeats::new(alloc, responder_nads(alloc, told.nodes, drafts.as_slice())?)?;
    settle_drafts(told, &nads, drafts.as_mut_slice(), warned)?;
    Ok(Many::new(drafts))
}
