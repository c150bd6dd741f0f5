//! Messages that wait, by their places in the log.

ghost use Rattle.std.specs.Prelude.{◌≡◌, ◌<◌, ◌⊎◌, Some, is_some, true};
ghost use Rattle.std.specs.Option.{unwrap_or};
ghost use Rattle.lin_parts.specs.Cluster.{nad, nodes};
ghost use Rattle.lin_core.specs.kept.Hosts.{message_at, bytes_next, HasNext};
ghost use Rattle.lin_core.specs.Links.{link_address, is_to_all};

use crate::host::Host;
use crate::link::Link;
use crate::log::Log;
use crate::step::Step;
use lin_parts::Cluster;
use lin_transport::{FUNCTIONAL, Sender};

/// A message, lent from the entry of the log that accepted it: the link that it goes over, its
/// bytes, and the address on the link.
#[derive(Drop)]
pub(crate) struct Message<'a> {
    pub(crate) link: Link,
    pub(crate) bytes: &'a [u8],
    pub(crate) address: u8,
}

/// The address of a node; 0 where it has none, and for a number that is no node's.
pub(crate) fn address_of(cluster: &Cluster, node: u8) -> u8
    ensures { node < nodes cluster.now → result ≡ unwrap_or (nad cluster.now node) 0 }
{
    if node as usize >= cluster.nodes() {
        return 0;
    }
    cluster.nad(node).unwrap_or(0)
}

/// The address in the frames of a message that goes to a place; 0 where that has none.
fn address_to(cluster: &Cluster, to: Link) -> u8
    ensures { (is_to_all to ≡ true) ⊎ (to.node < nodes cluster.now)
        → result ≡ link_address cluster.now to }
{
    if to.is_to_all() {
        return FUNCTIONAL;
    }
    address_of(cluster, to.node)
}

/// The message whose step stands at a place in the log.
pub(crate) fn message_at<'a>(cluster: &Cluster, log: &'a Log, place: usize) -> Message<'a>
    requires { is_some (message_at log.now.entries place) ≡ true }
    ensures message { message_at log.now.entries place
        ≡ Some (record { link = result.link; bytes = result.bytes.now }) }
    ensures address { (is_to_all result.link ≡ true) ⊎ (result.link.node < nodes cluster.now)
        → result.address ≡ link_address cluster.now result.link }
{
    match &log.entry(place).step {
        Step::Send { from, to, message } => {
            let link = Link::of(*from, *to);
            Message {
                link,
                bytes: message.as_slice(),
                address: address_to(cluster, link),
            }
        }
        _ => unreachable!(),
    }
}

/// The frame that puts the cluster to sleep (ISO 17987-3, go-to-sleep).
const SLEEP_FRAME: [u8; 8] = [0, 255, 255, 255, 255, 255, 255, 255];

/// The data bytes that come next of a host whose first message that waits stands at a place in the
/// log: the next frame of what is begun; failing that the sleep frame, where it is asked for;
/// failing that the message's first frame.
pub(crate) fn next_bytes(
    cluster: &Cluster,
    log: &Log,
    host: &Host,
    place: usize,
    sleeping: bool,
) -> [u8; 8]
    requires { HasNext cluster.now (message_at log.now.entries place) host.now.sender sleeping }
    ensures { result
        ≡ bytes_next cluster.now (message_at log.now.entries place) host.now.sender sleeping }
{
    if let Some(sender) = &host.sender {
        return sender.next(message_at(cluster, log, place).bytes);
    }
    if sleeping {
        return SLEEP_FRAME;
    }
    let message = message_at(cluster, log, place);
    Sender::begin(message.address, message.bytes.len()).next(message.bytes)
}
