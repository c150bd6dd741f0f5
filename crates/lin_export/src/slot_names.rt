//! Names of what a slot speaks of.

ghost use Rattle.std.specs.Prelude.{◌≡◌};
ghost use Rattle.lin_parts.specs.Cluster.{named_table, node_of, signal_of};
ghost use Rattle.lin_export.specs.Open.{tracked_slot};
ghost use Rattle.lin_export.specs.Shown.{slot_name};

use crate::tracked_slot::TrackedSlot;
use lin_parts::Cluster;

/// The name of a node; no bytes where none has this number.
pub(crate) fn node_name(cluster: &Cluster, node: u8) -> &[u8]
    ensures { result.now ≡ (node_of cluster.now node).name }
{
    if (node as usize) < cluster.nodes() {
        cluster.node_name(node)
    } else {
        &[]
    }
}

/// The name of a signal; no bytes where none has this number.
pub(crate) fn signal_name(cluster: &Cluster, signal: u16) -> &[u8]
    ensures { result.now ≡ (signal_of cluster.now signal).name }
{
    if (signal as usize) < cluster.signals() {
        cluster.signal_name(signal)
    } else {
        &[]
    }
}

/// The name of a schedule table; no bytes where none has this number.
pub(crate) fn table_name(cluster: &Cluster, table: u16) -> &[u8]
    ensures { result.now ≡ (named_table cluster.now table).name }
{
    if (table as usize) < cluster.tables() {
        cluster.table_name(table)
    } else {
        &[]
    }
}

/// The name of a slot's frame, and failing that of what its entry is for.
pub(crate) fn slot_name<'a>(cluster: &'a Cluster, slot: &TrackedSlot) -> &'a [u8]
    ensures { result.now ≡ slot_name cluster.now (tracked_slot slot.now) }
{
    match slot.frame(cluster) {
        Some(frame) => cluster.frame_name(frame),
        None => cluster.entry_name(slot.line(cluster).entry),
    }
}
