//! Unknown name (1): the names of nodes that nothing has. Those of signals, frames and tables are
//! found where they are looked up.

ghost use Rattle.std.specs.Prelude.{◌≡◌, ◌++◌, OnOk};
ghost use Rattle.lin_cluster.specs.UnknownNames.{unknown_node};

use super::known::Known;
use super::walk::{Finds, at_name, push_when};
use crate::finding::{Finding, FindingKind};
use lin_parts::description::Name;
use std::alloc::AllocError;

/// A name that has to be a node's.
pub(super) fn unknown_node(
    found: &mut Vec<Finding>,
    known: &Known,
    name: &Name,
) -> Result<(), AllocError>
    ensures { OnOk result (found.new.items ≡ found.old.items ++ unknown_node known.now name.now) }
{
    push_when(
        found,
        !known.is_node(name),
        at_name(FindingKind::UnknownName, name),
    )
}

// A subscriber has to be a node.
impl<'a> Finds<Name> for Known<'a> {
    ghost use Rattle.lin_cluster.specs.UnknownNames.{unknown_node};

    ghost finds = { unknown_node };

    fn find(&self, found: &mut Vec<Finding>, name: &Name) -> Result<(), AllocError> {
        unknown_node(found, self, name)
    }
}
