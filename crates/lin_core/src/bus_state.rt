//! Whether the bus sleeps, and which responder is selected.

ghost use Rattle.std.specs.Prelude.{◌≡◌, ◌==◌, ◌<◌, true, false, None, Some, if◌then◌else◌};
ghost use Rattle.std.specs.Prelude.{option_map, slice_index};
ghost use Rattle.std.specs.Option.{option_map_or};
ghost use Rattle.lin_parts.specs.Cluster.{nad, nodes};
ghost use Rattle.lin_core.specs.History.{good_under};
ghost use Rattle.lin_core.specs.kept.Slots.{slot_in};
ghost use Rattle.lin_core.specs.kept.Bus.{bus_after};
ghost use Rattle.lin_core.specs.Slots.{node_with};

use crate::slot::{MASTER_REQUEST, OpenSlot};
use lin_parts::Cluster;

/// The greatest address of a responder that a frame selects (ISO 17987-2, node addresses).
const LAST_ADDRESS: u8 = 125;

/// Whether a node has an address.
fn has_address(cluster: &Cluster, node: u8, address: u8) -> bool
    requires { node < nodes cluster.now }
    ensures { result ≡ option_map_or (λ own. own == address) (nad cluster.now node) false }
{
    match cluster.nad(node) {
        Some(own) => own == address,
        None => false,
    }
}

/// What was found, and failing that this node, if it is one of those that are looked for.
fn first(found: Option<u8>, node: u8, is_one: bool) -> Option<u8>
    ensures { result ≡ option_map_or Some found (if is_one then Some node else None) }
{
    if found.is_none() && is_one {
        return Some(node);
    }
    found
}

/// The node with an address, if there is one (ISO 17987-2, node addresses).
pub fn node_with(cluster: &Cluster, address: u8) -> Option<u8>
    ensures { result ≡ node_with cluster.now address }
{
    let mut found = None;
    for node in 0..cluster.nodes() as u8 {
        found = first(found, node, has_address(cluster, node, address));
    }
    found
}

/// The first byte of a master request that was seen good, the slot's only response; none of another
/// slot.
pub(crate) fn request_byte(slot: &OpenSlot) -> Option<u8>
    ensures { result
        ≡ option_map (λ bytes. slice_index bytes 0) (good_under 0x3C (slot_in slot.now)) }
{
    if slot.header != Some(MASTER_REQUEST) || slot.hurt || slot.puts.len() != 1 {
        return None;
    }
    Some(slot.puts[0].answer.as_slice().first().copied().unwrap_or(0))
}

/// Whether the cluster is asleep, whether it is asked to go to sleep, and which responder is
/// selected, as the core keeps them (ISO 17987-3, go-to-sleep and wake-up; ISO 17987-2, diagnostic
/// schedules).
#[derive(Drop)]
pub(crate) struct BusState {
    pub(crate) asleep: bool,
    pub(crate) asked: bool,
    pub(crate) selected: Option<u8>,
}

impl BusState {
    /// A slot ends: a good master request selects a responder by its address, and the sleep frame
    /// puts the cluster to sleep.
    pub(crate) fn finish(&mut self, cluster: &Cluster, slot: &OpenSlot)
        ensures { self.new ≡ bus_after cluster.now (slot_in slot.now) self.old }
    {
        match request_byte(slot) {
            Some(0) => {
                self.asleep = true;
                self.asked = false;
                self.selected = None;
            }
            Some(address) if address <= LAST_ADDRESS => {
                self.selected = node_with(cluster, address);
            }
            _ => (),
        }
    }
}
