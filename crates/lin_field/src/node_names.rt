//! What has a name in a text of the field, and which names are nodes'.

ghost use Rattle.std.specs.Prelude.{◌≡◌, true, IfOk};
ghost use Rattle.std.specs.List.{list_any};
ghost use Rattle.lin_cluster.specs.FindingsNames.{same_name};
ghost use Rattle.lin_cluster.specs.Names.{NumbersFirst};
ghost use Rattle.lin_field.specs.Names.{is_loose_responder, is_loose_node, is_slave};

use crate::loose::{LooseAttributes, LooseNodes, LooseSignal, LooseTable, NodeAddress};
use lin_cluster::{Named, Numbers, number_by, numbers_of};
use lin_parts::description::Name;
use std::alloc::{AllocError, Global};
use std::marker::Model;

impl Named for LooseSignal {
    ghost name_of = { λ s. s.name };

    fn name(&self) -> &Name {
        &self.name
    }
}

impl Named for LooseAttributes {
    ghost name_of = { λ a. a.block.node };

    fn name(&self) -> &Name {
        &self.block.node
    }
}

impl Named for NodeAddress {
    ghost name_of = { λ a. a.node };

    fn name(&self) -> &Name {
        &self.node
    }
}

impl Named for LooseTable {
    ghost name_of = { λ t. t.name };

    fn name(&self) -> &Name {
        &self.name
    }
}

/// So many slaves are found by their names' hashes, and fewer one after the other.
const MANY: usize = 8;

fn same_name(one: &Name, other: &Name) -> bool
    ensures { result ≡ same_name one.now other.now }
{
    one.text.as_slice() == other.text.as_slice()
}

/// Whether one of these has the name.
pub fn is_named<T: Named>(numbers: &Numbers<'_>, all: &[T], name: &Name) -> bool
    requires { NumbersFirst T.name_of all.now numbers.now.map }
    ensures { result ≡ list_any (λ x. same_name (T.name_of x) name.now) all.now }
{
    number_by(numbers, all, name) < all.len()
}

/// The nodes, found by their names. Contracts see the nodes.
pub struct NodeNames<'a> {
    pub nodes: &'a LooseNodes,
    slaves: Numbers<'a>,
}

impl<'a> Model for NodeNames<'a> {
    ghost use Rattle.std.specs.Prelude.{◌≡◌};
    ghost use Rattle.lin_cluster.specs.Names.{NumbersFirst};
    ghost use Rattle.lin_field.specs.declared.loose.LooseNodes.{LooseNodes};

    ghost Value = { LooseNodes };

    ghost view = { λ n. n.nodes.now };

    ghost invariant = { λ n. NumbersFirst (λ x. x) n.nodes.now.slaves n.slaves.map };
}

// (written out, so that an owner has one call)
impl<'a> Drop for NodeNames<'a> {
    fn drop(self) {
        let NodeNames {
            nodes: _,
            slaves: _slaves,
        } = self;
    }
}

impl<'a> NodeNames<'a> {
    /// An error means out of memory.
    pub fn new(alloc: Global, nodes: &'a LooseNodes) -> Result<NodeNames<'a>, AllocError>
        ensures { IfOk result (λ n. n ≡ nodes.now) }
    {
        let slaves = numbers_of(alloc, nodes.slaves.as_slice())?;
        Ok(NodeNames { nodes, slaves })
    }

    fn is_master(&self, name: &Name) -> bool
        ensures { result ≡ same_name self.now.master name.now }
    {
        same_name(&self.nodes.master, name)
    }

    fn is_slave(&self, name: &Name) -> bool
        ensures { result ≡ is_slave self.now name.now }
    {
        let slaves = self.nodes.slaves.as_slice();
        if slaves.len() < MANY {
            slaves.iter().any(|slave| same_name(slave, name))
        } else {
            is_named(&self.slaves, slaves, name)
        }
    }

    /// Whether a name is that of a responder: in the list of responders, and not that of the commander.
    pub fn is_responder(&self, name: &Name) -> bool
        ensures { result ≡ is_loose_responder self.now name.now }
    {
        !self.is_master(name) && self.is_slave(name)
    }

    /// Whether a node is a responder: each is but the commander.
    pub fn is_responding_node(&self, node: &Name) -> bool
        requires { is_loose_node self.now node.now ≡ true }
        ensures { result ≡ is_loose_responder self.now node.now }
    {
        !self.is_master(node)
    }

    /// Whether a name is that of a node: the commander or a responder.
    pub fn is_node(&self, name: &Name) -> bool
        ensures { result ≡ is_loose_node self.now name.now }
    {
        self.is_master(name) || self.is_slave(name)
    }
}

/// A copy of a name; an error means out of memory.
pub fn copied(alloc: Global, name: &Name) -> Result<Name, AllocError>
    ensures { IfOk result (λ n. n ≡ name.now) }
{
    Ok(Name {
        text: lin_text::Text::copied(alloc, name.text.as_slice())?,
        line: name.line,
        column: name.column,
    })
}
