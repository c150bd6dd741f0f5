//! The limits of transfers in an LDF, for bench scripts.

ghost use Rattle.std.specs.Prelude.{◌≡◌, ◌++◌, ◌<◌, IfOk, OnOk};
ghost use Rattle.lin_parts.specs.Cluster.{nodes};
ghost use Rattle.lin_tool.specs.Limits.{limits_at, node_limits};

use lin_bench::NodeLimits;
use lin_parts::Cluster;
use lin_sections::{TransferLimits, limits_named};
use lin_text::Many;
use std::alloc::{AllocError, Global};

/// Adds the limits of a node, if the LDF has a block of attributes for it.
#[tactic(auto, using(lin_sections::proofs::StatementSteps::nothing_more))]
fn add_limits(
    cluster: &Cluster,
    named: &[TransferLimits],
    node: u8,
    all: &mut Vec<NodeLimits>,
) -> Result<(), AllocError>
    requires { node < nodes cluster.now }
    ensures { OnOk result (all.new.items ≡ all.old.items ++ limits_at cluster.now named.now node) }
{
    if let Some(limits) = limits_named(named, cluster.node_name(node)) {
        all.push(NodeLimits {
            node,
            down_us: limits.down_us,
            up_us: limits.up_us,
        })?;
    }
    Ok(())
}

/// The limits of the transfers of a cluster's nodes, by those of its LDF. An error means out of memory.
pub(crate) fn node_limits(
    alloc: Global,
    cluster: &Cluster,
    named: &[TransferLimits],
) -> Result<Many<NodeLimits>, AllocError>
    ensures { IfOk result (λ all. all ≡ node_limits cluster.now named.now) }
{
    let mut all = Vec::new(alloc);
    for node in 0..cluster.nodes() as u8 {
        add_limits(cluster, named, node, &mut all)?;
    }
    Ok(Many::new(all))
}
