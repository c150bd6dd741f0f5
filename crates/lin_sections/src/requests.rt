//! The requests of node configuration commands, and what is wrong with the commands (LIN 2.2A, sections
//! 4.2.5 and 9.2.5; AssignFrameId: LIN 2.0).

ghost use Rattle.std.specs.Prelude.{◌≡◌, ◌<◌, ◌++◌, OnOk, find};
ghost use Rattle.std.specs.Option.{option_copied};
ghost use Rattle.lin_sections.specs.Commands.{AreBytes, HasBytes};
ghost use Rattle.lin_sections.specs.Requests.{responder_address, address_of, assign_frame};
ghost use Rattle.lin_sections.specs.Requests.{assign_nad, assign_range, byte_or_ff, bytes_request, data_dump};
ghost use Rattle.lin_sections.specs.Requests.{event_pid, first_message, frame_pid, frames_in, given_range, has_message};
ghost use Rattle.lin_sections.specs.Requests.{high, identity_named, initial_nad_of, listed_pid, listed_pids};
ghost use Rattle.lin_sections.specs.Requests.{listed_range, low, node_request, odd_arguments, odd_pid};
ghost use Rattle.lin_sections.specs.Requests.{odd_range, pid_named, product_of, request};

use crate::commands::{Arguments, Command};
use crate::identities::{ConfigurableFrame, NodeIdentity};
use lin_cluster::{Finding, FindingKind, at_name, at_number, push_when};
use lin_parts::description::{Name, Number};
use lin_parts::{Cluster, Product};
use std::alloc::AllocError;

fn low(number: u16) -> u8
    ensures { result ≡ low number }
{
    (number % 256) as u8
}

fn high(number: u16) -> u8
    ensures { result ≡ high number }
{
    (number / 256) as u8
}

/// Returns the protected identifier of the unconditional frame with a name.
fn frame_pid(cluster: &Cluster, name: &[u8]) -> Option<u8>
    ensures { result ≡ frame_pid cluster.now name.now }
{
    cluster.sound();
    for frame in 0..cluster.frames() {
        if cluster.frame_name(frame as u16) == name {
            return Some(cluster.frame_pid(frame as u16));
        }
    }
    None
}

/// Returns the protected identifier of the event-triggered frame with a name.
fn event_pid(cluster: &Cluster, name: &[u8]) -> Option<u8>
    ensures { result ≡ event_pid cluster.now name.now }
{
    cluster.sound();
    for event in 0..cluster.events() {
        if cluster.event_name(event as u16) == name {
            return Some(cluster.event_pid(event as u16));
        }
    }
    None
}

/// Returns the protected identifier of the frame with a name. A sporadic frame has none.
fn pid_named(cluster: &Cluster, name: &[u8]) -> Option<u8>
    ensures { result ≡ pid_named cluster.now name.now }
{
    match frame_pid(cluster, name) {
        Some(pid) => Some(pid),
        None => event_pid(cluster, name),
    }
}

/// Returns the address of the responder with a name.
fn address_of(cluster: &Cluster, name: &[u8]) -> Option<u8>
    ensures { result ≡ address_of cluster.now name.now }
{
    for node in 1..cluster.nodes() {
        if cluster.node_name(node as u8) == name {
            return cluster.nad(node as u8);
        }
    }
    None
}

/// Returns the address of the node of a command, or 73.
fn address(cluster: &Cluster, node: &Name) -> Result<u8, Finding>
    ensures { result ≡ responder_address cluster.now node.now }
{
    match address_of(cluster, node.text.as_slice()) {
        Some(nad) => Ok(nad),
        None => Err(at_name(FindingKind::NoResponder, node)),
    }
}

/// Returns the identity of the node with a name.
pub(crate) fn identity_named<'a>(
    identities: &'a [NodeIdentity],
    name: &[u8],
) -> Option<&'a NodeIdentity>
    ensures { option_copied result ≡ identity_named identities.now name.now }
{
    identities
        .iter()
        .find(|identity| identity.node.as_slice() == name)
}

/// Returns the configurable frames of the node with a name.
pub(crate) fn frames_in<'a>(identities: &'a [NodeIdentity], name: &[u8]) -> &'a [ConfigurableFrame]
    ensures { result.now ≡ frames_in identities.now name.now }
{
    match identity_named(identities, name) {
        Some(identity) => identity.frames.as_slice(),
        None => &[],
    }
}

/// Returns the product of the node of a command, or 74.
fn product_of(identities: &[NodeIdentity], node: &Name) -> Result<Product, Finding>
    ensures { result ≡ product_of identities.now node.now }
{
    let product = match identity_named(identities, node.text.as_slice()) {
        Some(identity) => identity.product,
        None => None,
    };
    match product {
        Some(product) => Ok(product),
        None => Err(at_name(FindingKind::NoProduct, node)),
    }
}

/// Returns the NAD that a node has before it is configured: `nad`, the configured one, if its attributes have
/// no initial one.
pub(crate) fn initial_of(identities: &[NodeIdentity], name: &[u8], nad: u8) -> u8
    ensures { result ≡ initial_nad_of identities.now name.now nad }
{
    match identity_named(identities, name) {
        Some(identity) => identity.initial.unwrap_or(nad),
        None => nad,
    }
}

// AssignNAD { node }
fn assign_nad(
    cluster: &Cluster,
    identities: &[NodeIdentity],
    node: &Name,
) -> Result<[u8; 8], Finding>
    ensures { result ≡ assign_nad cluster.now identities.now node.now }
{
    let nad = address(cluster, node)?;
    let product = product_of(identities, node)?;
    let initial = initial_of(identities, node.text.as_slice(), nad);
    let (supplier, function) = (product.supplier, product.function);
    Ok([
        initial,
        6,
        0xB0,
        low(supplier),
        high(supplier),
        low(function),
        high(function),
        nad,
    ])
}

/// Whether a configurable frame has a name and a message identifier.
fn has_message(frame: &ConfigurableFrame, name: &[u8]) -> bool
    ensures { result ≡ has_message name.now frame.now }
{
    frame.name.as_slice() == name && frame.message.is_some()
}

/// Returns the first frame of a list that has a name and a message identifier.
fn with_message<'a>(frames: &'a [ConfigurableFrame], name: &[u8]) -> Option<&'a ConfigurableFrame>
    ensures { option_copied result ≡ find (has_message name.now) frames.now }
{
    frames.iter().find(|frame| has_message(frame, name))
}

/// Returns the first message identifier that a list has for a frame.
fn first_message(frames: &[ConfigurableFrame], name: &[u8]) -> Option<u16>
    ensures { result ≡ first_message frames.now name.now }
{
    match with_message(frames, name) {
        Some(frame) => frame.message,
        None => None,
    }
}

// AssignFrameId { node , frame }
fn assign_frame(
    cluster: &Cluster,
    identities: &[NodeIdentity],
    node: &Name,
    frame: &Name,
) -> Result<[u8; 8], Finding>
    ensures { result ≡ assign_frame cluster.now identities.now node.now frame.now }
{
    let nad = address(cluster, node)?;
    let supplier = product_of(identities, node)?.supplier;
    let frames = frames_in(identities, node.text.as_slice());
    let name = frame.text.as_slice();
    match (first_message(frames, name), pid_named(cluster, name)) {
        (Some(message), Some(pid)) => Ok([
            nad,
            6,
            0xB1,
            low(supplier),
            high(supplier),
            low(message),
            high(message),
            pid,
        ]),
        _ => Err(at_name(FindingKind::NotConfigurable, frame)),
    }
}

/// Returns the protected identifier of a frame of a list: FF after its end, and `None` if the frame has
/// none.
fn listed_pid(cluster: &Cluster, frames: &[ConfigurableFrame], place: usize) -> Option<u8>
    ensures { result ≡ listed_pid cluster.now frames.now place }
{
    match frames.get(place) {
        Some(frame) => pid_named(cluster, frame.name.as_slice()),
        None => Some(0xFF),
    }
}

/// Returns the protected identifiers of four frames of a list, if each has one.
fn listed_pids(cluster: &Cluster, frames: &[ConfigurableFrame], index: usize) -> Option<[u8; 4]>
    requires { index < 256 }
    ensures { result ≡ listed_pids cluster.now frames.now index }
{
    Some([
        listed_pid(cluster, frames, index)?,
        listed_pid(cluster, frames, index + 1)?,
        listed_pid(cluster, frames, index + 2)?,
        listed_pid(cluster, frames, index + 3)?,
    ])
}

// AssignFrameIdRange { node , index }
fn listed_range(
    cluster: &Cluster,
    frames: &[ConfigurableFrame],
    nad: u8,
    index: &Number,
) -> Result<[u8; 8], Finding>
    requires { index.now.value < 256 }
    ensures { result ≡ listed_range cluster.now frames.now nad index.now }
{
    let first = index.value as usize;
    if first >= frames.len() {
        return Err(at_number(FindingKind::BadIndex, index));
    }
    match listed_pids(cluster, frames, first) {
        Some(p) => Ok([nad, 6, 0xB7, first as u8, p[0], p[1], p[2], p[3]]),
        None => Err(at_number(FindingKind::NotConfigurable, index)),
    }
}

/// Returns one of the bytes of a command; FF if it isn't there.
fn byte_at(bytes: &[Number], k: usize) -> u8
    requires { AreBytes bytes.now }
    ensures { result ≡ byte_or_ff bytes.now k }
{
    match bytes.get(k) {
        Some(byte) => byte.value as u8,
        None => 0xFF,
    }
}

// AssignFrameIdRange { node , index , pid .. }
fn given_range(nad: u8, bytes: &[Number]) -> [u8; 8]
    requires { AreBytes bytes.now }
    ensures { result ≡ given_range nad bytes.now }
{
    [
        nad,
        6,
        0xB7,
        byte_at(bytes, 0),
        byte_at(bytes, 1),
        byte_at(bytes, 2),
        byte_at(bytes, 3),
        byte_at(bytes, 4),
    ]
}

fn assign_range(
    cluster: &Cluster,
    identities: &[NodeIdentity],
    node: &Name,
    bytes: &[Number],
) -> Result<[u8; 8], Finding>
    requires { AreBytes bytes.now }
    ensures { result ≡ assign_range cluster.now identities.now node.now bytes.now }
{
    let nad = address(cluster, node)?;
    let frames = frames_in(identities, node.text.as_slice());
    match bytes {
        [index] => listed_range(cluster, frames, nad, index),
        _ => Ok(given_range(nad, bytes)),
    }
}

// DataDump { node , byte .. }
fn data_dump(cluster: &Cluster, node: &Name, bytes: &[Number]) -> Result<[u8; 8], Finding>
    requires { AreBytes bytes.now }
    ensures { result ≡ data_dump cluster.now node.now bytes.now }
{
    let nad = address(cluster, node)?;
    Ok([
        nad,
        6,
        0xB4,
        byte_at(bytes, 0),
        byte_at(bytes, 1),
        byte_at(bytes, 2),
        byte_at(bytes, 3),
        byte_at(bytes, 4),
    ])
}

/// Returns the request of a command that begins with a node and has no frame.
fn node_request(
    cluster: &Cluster,
    identities: &[NodeIdentity],
    command: Command,
    node: &Name,
    bytes: &[Number],
) -> Result<[u8; 8], Finding>
    requires { AreBytes bytes.now }
    ensures { result ≡ node_request cluster.now identities.now command node.now bytes.now }
{
    match command {
        Command::AssignNad => assign_nad(cluster, identities, node),
        Command::DataDump => data_dump(cluster, node, bytes),
        Command::SaveConfiguration => {
            let nad = address(cluster, node)?;
            Ok([nad, 1, 0xB6, 0xFF, 0xFF, 0xFF, 0xFF, 0xFF])
        }
        _ => assign_range(cluster, identities, node, bytes),
    }
}

/// Returns the request of a command that has bytes alone.
fn bytes_request(command: Command, bytes: &[Number]) -> [u8; 8]
    requires { AreBytes bytes.now }
    ensures { result ≡ bytes_request command bytes.now }
{
    match command {
        Command::ConditionalChangeNad => [
            byte_at(bytes, 0),
            6,
            0xB3,
            byte_at(bytes, 1),
            byte_at(bytes, 2),
            byte_at(bytes, 3),
            byte_at(bytes, 4),
            byte_at(bytes, 5),
        ],
        _ => [
            byte_at(bytes, 0),
            byte_at(bytes, 1),
            byte_at(bytes, 2),
            byte_at(bytes, 3),
            byte_at(bytes, 4),
            byte_at(bytes, 5),
            byte_at(bytes, 6),
            byte_at(bytes, 7),
        ],
    }
}

/// Returns the request of a command, or why it has none: 73 to 75, or 76.
pub(crate) fn request(
    cluster: &Cluster,
    identities: &[NodeIdentity],
    command: Command,
    arguments: &Arguments,
) -> Result<[u8; 8], Finding>
    requires { HasBytes arguments.now }
    ensures { result ≡ request cluster.now identities.now command arguments.now }
{
    match arguments {
        Arguments::Frame { node, frame } => assign_frame(cluster, identities, node, frame),
        Arguments::Node { node, bytes } => {
            node_request(cluster, identities, command, node, bytes.as_slice())
        }
        Arguments::Bytes(bytes) => Ok(bytes_request(command, bytes.as_slice())),
    }
}

/// Adds 77 or 76 of a protected identifier at a place of a list, 76 only if it is wanted.
fn add_odd_pid(
    cluster: &Cluster,
    frames: &[ConfigurableFrame],
    is_wanted: bool,
    place: usize,
    pid: &Number,
    found: &mut Vec<Finding>,
) -> Result<(), AllocError>
    requires { pid.now.value < 256 }
    ensures { OnOk result (found.new.items
        ≡ found.old.items ++ odd_pid cluster.now frames.now is_wanted place pid.now) }
{
    if pid.value == 0xFF {
        return Ok(());
    }
    match frames.get(place) {
        Some(frame) => {
            let own = pid_named(cluster, frame.name.as_slice());
            let is_other = pid.value != 0 && own != Some(pid.value as u8);
            push_when(found, is_other, at_number(FindingKind::OtherPid, pid))
        }
        None => push_when(found, is_wanted, at_number(FindingKind::BadIndex, pid)),
    }
}

/// Adds the warnings (76 and 77) of the index and the protected identifiers of a range.
fn add_odd_pids(
    cluster: &Cluster,
    frames: &[ConfigurableFrame],
    bytes: &[Number],
    found: &mut Vec<Finding>,
) -> Result<(), AllocError>
    requires { AreBytes bytes.now }
    ensures { OnOk result
        (found.new.items ≡ found.old.items ++ odd_range cluster.now frames.now bytes.now) }
{
    let [index, pids @ ..] = bytes else {
        return Ok(());
    };
    if pids.is_empty() {
        return Ok(());
    }
    let first = index.value as usize;
    let is_inside = first < frames.len();
    push_when(found, !is_inside, at_number(FindingKind::BadIndex, index))?;
    for k in 0..pids.len() {
        add_odd_pid(cluster, frames, is_inside, first + k, &pids[k], found)?;
    }
    Ok(())
}

/// Adds the warnings (76 and 77) of a command that has a request.
pub(crate) fn add_odd(
    cluster: &Cluster,
    identities: &[NodeIdentity],
    command: Command,
    arguments: &Arguments,
    found: &mut Vec<Finding>,
) -> Result<(), AllocError>
    requires { HasBytes arguments.now }
    ensures { OnOk result (found.new.items
        ≡ found.old.items ++ odd_arguments cluster.now identities.now command arguments.now) }
{
    if let Arguments::Node { node, bytes } = arguments {
        if command == Command::AssignFrameIdRange {
            let frames = frames_in(identities, node.text.as_slice());
            return add_odd_pids(cluster, frames, bytes.as_slice(), found);
        }
    }
    Ok(())
}
