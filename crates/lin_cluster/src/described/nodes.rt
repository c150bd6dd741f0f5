//! The nodes that a description says.

ghost use Rattle.std.specs.Prelude.{◌≡◌, ◌==◌, ◌+◌, ◌<◌, ◌≤◌, ◌^◌, ◌++◌, ℕ, find, length, map};
ghost use Rattle.std.specs.Prelude.{IfOk, OnOk};
ghost use Rattle.std.specs.List.{enumerate_from};
ghost use Rattle.std.specs.Option.{option_copied};
ghost use Rattle.lin_cluster.specs.Described.{is_block_of, described_nad, responder, nodes_of};
ghost use Rattle.lin_cluster.specs.Fitting.{FitsNad};

use super::numbers::node_number;
use lin_parts::Node;
use lin_parts::description::{Attributes, Description, Name};
use lin_text::{Many, Text};
use std::alloc::{AllocError, Global};

pub(super) fn block_of<'a>(d: &'a Description, node: u8) -> Option<&'a Attributes>
    requires { length d.now.slaves ≤ 15 }
    ensures { option_copied result ≡ find (is_block_of d.now node) d.now.attributes }
{
    d.attributes()
        .iter()
        .find(|block| node_number(d, &block.node) == node)
}

fn nad_of(d: &Description, node: u8) -> Option<u8>
    requires few { length d.now.slaves ≤ 15 }
    requires fits { FitsNad d.now node }
    ensures { result ≡ described_nad d.now node }
{
    match block_of(d, node) {
        Some(block) => match block.configured_nad {
            Some(nad) => Some(nad.value as u8),
            None => None,
        },
        None => None,
    }
}

fn responder(alloc: Global, d: &Description, node: u8, name: &Name) -> Result<Node, AllocError>
    requires few { length d.now.slaves ≤ 15 }
    requires fits { FitsNad d.now node }
    ensures { IfOk result (λ made. made ≡ responder d.now (node, name.now)) }
{
    Ok(Node {
        name: Text::copied(alloc, name.text.as_slice())?,
        nad: nad_of(d, node),
    })
}

fn add_responders(
    alloc: Global,
    nodes: &mut Vec<Node>,
    d: &Description,
    slaves: &[Name],
) -> Result<(), AllocError>
    requires few { length d.now.slaves ≤ 15 }
    requires fewer { length slaves.now ≤ 15 }
    requires fits { (n : ℕ) → 1 ≤ n → n ≤ length slaves.now → FitsNad d.now n }
    ensures { OnOk result
        (nodes.new.items ≡ nodes.old.items ++ map (responder d.now) (enumerate_from 1 slaves.now)) }
{
    for (i, name) in slaves.iter().enumerate() {
        nodes.push(responder(alloc, d, i as u8 + 1, name)?)?;
    }
    Ok(())
}

pub(super) fn nodes_of(
    alloc: Global,
    d: &Description,
    slaves: &[Name],
) -> Result<Many<Node>, AllocError>
    requires few { length d.now.slaves ≤ 15 }
    requires all { slaves.now ≡ d.now.slaves }
    requires fits { (n : ℕ) → 1 ≤ n → n ≤ length slaves.now → FitsNad d.now n }
    ensures { IfOk result (λ nodes. nodes ≡ nodes_of d.now) }
{
    let mut nodes = Vec::new(alloc);
    nodes.push(Node {
        name: Text::copied(alloc, d.master.text.as_slice())?,
        nad: None,
    })?;
    add_responders(alloc, &mut nodes, d, slaves)?;
    Ok(Many::new(nodes))
}
