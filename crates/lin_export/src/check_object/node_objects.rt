//! The nodes of a cluster in an object.

ghost use Rattle.std.specs.Prelude.{◌≡◌, ◌<◌, codes, option_map};
ghost use Rattle.lin_parts.specs.Cluster.{nodes};
ghost use Rattle.lin_text.specs.Written.{Grows};
ghost use Rattle.lin_export.specs.ClusterObject.{node_declared, node_object};
ghost use Rattle.lin_export.specs.Json.{member};
ghost use Rattle.lin_export.specs.Jsonl.{nad_value};
ghost use Rattle.lin_export.specs.Members.{member_shown};

use super::positions::put_place;
use crate::json::{Member, put_members, put_numbered_first};
use lin_parts::Cluster;
use lin_parts::description::{Description, Name};
use lin_text::TextWriter;
use std::io::Write;

/// The name of a node in the LDF.
fn node_declared(description: &Description, node: u8) -> Option<&Name>
    ensures { option_map (λ n. n.now) result ≡ node_declared description.now node }
{
    if node == 0 {
        return Some(description.master());
    }
    description.slaves().get(usize::from(node) - 1)
}

/// The diagnostic address of a node; null if it has none.
pub fn nad_member(cluster: &Cluster, node: u8) -> Member<'static>
    requires { node < nodes cluster.now }
    ensures { member_shown result ≡ member (codes "nad") (nad_value cluster.now node) }
{
    match cluster.nad(node) {
        Some(nad) => Member::Number("nad", u64::from(nad)),
        None => Member::Null("nad"),
    }
}

pub(super) fn put_node<'a, W: Write>(
    out: &mut TextWriter<'_, W>,
    cluster: &'a Cluster,
    description: &'a Description,
    node: u8,
)
    requires { node < nodes cluster.now }
    ensures { Grows W.contents out.old out.new (node_object cluster.now description.now node) }
{
    put_numbered_first(out, u64::from(node));
    put_members(
        out,
        &[
            Member::Text("name", cluster.node_name(node)),
            nad_member(cluster, node),
        ],
    );
    put_place(out, node_declared(description, node));
    out.put_byte(b'}');
}
