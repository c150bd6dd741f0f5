//! The receivers of the links: each reassembles the messages of its link from the frames that it
//! hears.

ghost use Rattle.std.specs.Prelude.{◌≡◌, ◌<◌, ℕ, [], List, length, slice_get, Some};
ghost use Rattle.std.specs.Prelude.{IfOk, OnErr, OnOk};
ghost use Rattle.lin_transport.specs.Receiver.{bytes_given};
ghost use Rattle.lin_transport.specs.Transport.{Heard};
ghost use Rattle.lin_core.specs.kept.Receivers.{opposite, receiver_in, HaveHeardAlike, AreReset, HaveRoom, HearsOn, IsReset};
ghost use Rattle.lin_core.specs.kept.Receivers.{HasHeardIn, KeepsHeard, ReceivesIn};
ghost use Rattle.lin_core.specs.declared.receivers.Receivers.{Receivers};

use crate::link::{Direction, Link};
use crate::messages::address_of;
use lin_parts::Cluster;
use lin_transport::Receiver;
use std::alloc::{AllocError, Global};

/// The receivers of the two links of a node (ISO 17987-2, transport layer): its own, of the
/// messages down to it and to all responders, and the one of host 0, of the messages up from it. A
/// node without an address has no links, and its two hear nothing.
#[derive(Drop)]
pub(crate) struct Receivers {
    pub(crate) down: Receiver,
    pub(crate) up: Receiver,
}

impl Receivers {
    /// The receiver of the link in a direction hears the data bytes of a good frame, and gives the
    /// message that the frame completes. An error means out of memory, and nothing is heard.
    pub(crate) fn hear(
        &mut self,
        dir: Direction,
        frame: &[u8; 8],
    ) -> Result<Option<Vec<u8>>, AllocError>
        ensures hears { (heard : List Heard) → HasHeardIn dir self.old heard
            → IfOk result (λ m. ReceivesIn dir self.old frame.now heard (bytes_given m) self.new) }
        ensures other { receiver_in (opposite dir) self.new ≡ receiver_in (opposite dir) self.old }
        ensures unchanged { OnErr result (self.new ≡ self.old) }
    {
        match dir {
            Direction::Down => self.down.hear(frame),
            Direction::Up => self.up.hear(frame),
        }
    }

    /// The receiver of the link in a direction ends what was partial, as at a timeout.
    pub(crate) fn reset(&mut self, dir: Direction)
        ensures own { IsReset (receiver_in dir self.old) (receiver_in dir self.new) }
        ensures other { receiver_in (opposite dir) self.new ≡ receiver_in (opposite dir) self.old }
    {
        match dir {
            Direction::Down => self.down.reset(),
            Direction::Up => self.up.reset(),
        }
    }

    /// Both receivers end what was partial, as at go-to-sleep.
    fn reset_both(&mut self)
        ensures { AreReset self.old self.new }
    {
        self.down.reset();
        self.up.reset();
    }
}

/// The receivers of a cluster's links, by node, which have heard nothing. An error is want of
/// memory.
pub(crate) fn fresh_receivers(
    alloc: Global,
    cluster: &Cluster,
) -> Result<Vec<Receivers>, AllocError>
    ensures { IfOk result (λ made. KeepsHeard cluster.now [] made.items) }
{
    let mut made = Vec::new(alloc);
    for node in 0..cluster.nodes() as u8 {
        let address = address_of(cluster, node);
        made.push(Receivers {
            down: Receiver::functional(alloc, address),
            up: Receiver::new(alloc, address),
        })?;
    }
    Ok(made)
}

/// The receiver of a link hears the data bytes of a good frame, and gives the message that the
/// frame completes. An error means out of memory, and nothing is heard.
pub(crate) fn hear(
    receivers: &mut Vec<Receivers>,
    link: Link,
    frame: &[u8; 8],
) -> Result<Option<Vec<u8>>, AllocError>
    requires { link.node < length receivers.old.items }
    ensures hears { IfOk result
        (λ m. HearsOn link frame.now
        (bytes_given m) receivers.old.items receivers.new.items) }
    ensures unchanged { OnErr result (receivers.new.items ≡ receivers.old.items) }
{
    receivers[link.node as usize].hear(link.dir, frame)
}

/// Each receiver ends what was partial, as at go-to-sleep.
pub(crate) fn reset_all(receivers: &mut Vec<Receivers>)
    ensures count { length receivers.new.items ≡ length receivers.old.items }
    ensures each { (h : ℕ) (old new : Receivers) → slice_get receivers.old.items h ≡ Some old
        → slice_get receivers.new.items h ≡ Some new → AreReset old new }
{
    for node in 0..receivers.len() {
        receivers[node].reset_both();
    }
}

/// Each receiver of the messages to a node has room for the message of a single frame. An error
/// means out of memory. In both cases what was heard stays.
pub(crate) fn make_room_in_all(receivers: &mut Vec<Receivers>) -> Result<(), AllocError>
    ensures alike { HaveHeardAlike receivers.old.items receivers.new.items }
    ensures room { OnOk result (HaveRoom receivers.new.items) }
{
    for node in 0..receivers.len() {
        receivers[node].down.make_room()?;
    }
    Ok(())
}
