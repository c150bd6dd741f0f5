//! When the last good frames of links ended.

ghost use Rattle.std.specs.Prelude.{◌≡◌, ◌<◌, [], false, length, Some};
ghost use Rattle.lin_parts.specs.Cluster.{nodes};
ghost use Rattle.lin_core.specs.Core.{CoreData};
ghost use Rattle.lin_core.specs.History.{Slot, good, header_and_first};
ghost use Rattle.lin_core.specs.declared.link.Direction.TheVariants.{Down, Up};
ghost use Rattle.lin_bench.specs.Adding.{AreEnds, AreHeardTimes, HearsDown, HearsFinish, end_of, node_looks_at};

use crate::replies::{first_byte, good_bytes};
use lin_core::{Core, Direction, MASTER_REQUEST, NODES, SLAVE_RESPONSE};
use lin_parts::Cluster;
use lin_transport::FUNCTIONAL;

/// When the slots of the last good frames of the links to each node and from it ended, in
/// microseconds; 0 where there was none.
#[derive(Drop)]
pub(crate) struct Ends {
    downs: [u64; NODES],
    ups: [u64; NODES],
}

/// Whether the node that has this number looks at frames to an address.
fn looks_at(cluster: &Cluster, node: u8, address: u8) -> bool
    requires { node < nodes cluster.now }
    ensures { result ≡ node_looks_at cluster.now address node }
{
    match cluster.nad(node) {
        Some(nad) => address == FUNCTIONAL || address == nad,
        None => false,
    }
}

/// Keeps that a good frame to an address ended at a time.
fn hear_down(downs: &mut [u64; NODES], cluster: &Cluster, address: u8, time: u64)
    ensures { HearsDown cluster.now address time downs.old downs.new }
{
    for node in 0..cluster.nodes() {
        if looks_at(cluster, node as u8, address) {
            downs[node] = time;
        }
    }
}

impl Ends {
    /// No link has had a good frame.
    pub(crate) fn new() -> Ends
        ensures { (core : CoreData) → core.log ≡ [] → AreEnds core Down result.downs × AreEnds core Up result.ups }
    {
        Ends {
            downs: [0; NODES],
            ups: [0; NODES],
        }
    }

    /// Keeps that a slot ended at a time that was seen good with these bytes: one with this header,
    /// in which this node answered.
    fn hear_good(
        &mut self,
        cluster: &Cluster,
        time: u64,
        header: Option<u8>,
        node: Option<u8>,
        bytes: &[u8],
    )
        ensures down { (s : Slot) → s.service ≡ false → good s ≡ Some bytes.now
            → header_and_first s ≡ (header, node)
            → AreHeardTimes cluster.now time s Down self.old.downs self.new.downs }
        ensures up { (s : Slot) → s.service ≡ false → good s ≡ Some bytes.now
            → header_and_first s ≡ (header, node)
            → AreHeardTimes cluster.now time s Up self.old.ups self.new.ups }
    {
        match (header, node) {
            (Some(MASTER_REQUEST), _) => {
                hear_down(&mut self.downs, cluster, first_byte(bytes), time);
            }
            (Some(SLAVE_RESPONSE), Some(node)) if (node as usize) < cluster.nodes() => {
                self.ups[node as usize] = time;
            }
            _ => {}
        }
    }

    /// Keeps when the slot ended whose finish is the newest step of a core, where it was done and the
    /// slot was seen good: one with this header, in which this node answered first, and for no service.
    pub(crate) fn hear(&mut self, core: &Core, header: Option<u8>, node: Option<u8>)
        requires { 0 < length core.now.log }
        ensures { HearsFinish core.now header node self.old self.new }
    {
        if let Some(bytes) = good_bytes(core.newest()) {
            self.hear_good(core.cluster(), core.time(), header, node, bytes);
        }
    }

    /// When the last good frame of a link ended; 0 where it had none.
    pub(crate) fn of(&self, node: u8, dir: Direction) -> u64
        ensures { result ≡ end_of self.now node dir }
    {
        let ends = match dir {
            Direction::Down => &self.downs,
            Direction::Up => &self.ups,
        };
        ends.get(node as usize).copied().unwrap_or(0)
    }
}
