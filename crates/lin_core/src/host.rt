//! What the core keeps of a host.

ghost use Rattle.std.specs.Prelude.{◌≡◌, ◌<◌, ◌+◌, ◌^◌, ◌≤◌, ℕ, IfOk, All, IsTrue, ◌↔◌, length};
ghost use Rattle.std.specs.Prelude.{slice_get, is_some, None, Some, false};
ghost use Rattle.lin_core.specs.kept.Hosts.{if_waiting, new_host, host_after_frame, host_after_send, sent_of};
ghost use Rattle.lin_core.specs.kept.Hosts.{host_after_settling, sending_size};
ghost use Rattle.lin_transport.specs.Sender.{SenderData};
ghost use Rattle.lin_transport.specs.Transport.{frame_count};
ghost use Rattle.lin_core.specs.declared.host.Host.{Host};

use circular_buffer::HeapCircularBuffer;
use lin_transport::Sender;
use std::alloc::{AllocError, Global};

/// The most bytes of a message in a single frame (ISO 17987-2, transport layer).
const SINGLE_FRAME: usize = 6;

/// The messages of a host: how many of them are settled, and where those that wait stand in the
/// log, the next one first. So the number of the next one is one more than `settled`. Where the
/// next one is begun, its sender has the frames that were seen good. A closed host sends no more
/// messages.
#[derive(Drop)]
pub(crate) struct Host {
    pub(crate) settled: u32,
    pub(crate) queue: HeapCircularBuffer<u32>,
    pub(crate) sender: Option<Sender>,
    pub(crate) closed: bool,
}

impl Host {
    /// A message waits, whose step stands at this place in the log.
    pub(crate) fn accept(&mut self, place: u32)
        requires { length self.old.queue.items < self.old.queue.capacity }
        ensures { self.new ≡ host_after_send self.old place }
    {
        let _ = self.queue.try_push_back(place);
    }

    /// The next message is settled, and no message is begun.
    pub(crate) fn settle(&mut self)
        requires { self.old.settled + 1 < 2 ^ 32 }
        ensures { self.new ≡ host_after_settling self.old }
    {
        let _ = self.queue.pop_front();
        self.settled += 1;
        self.sender = None;
    }

    /// A frame of the next message, to this address and of this length in bytes, is seen good, and
    /// more of them follow.
    pub(crate) fn go_on(&mut self, address: u8, len: usize)
        requires some { 1 ≤ len }
        requires few { len ≤ 4095 }
        requires more { (s : SenderData) → self.old.sender ≡ Some s → s.sent < frame_count s.size }
        ensures { self.new ≡ host_after_frame self.old address len }
    {
        let mut sender = match self.sender.take() {
            Some(sender) => sender,
            None => Sender::begin(address, len),
        };
        sender.sent();
        self.sender = Some(sender);
    }

    /// Whether the frame of the next message that comes next, of this length in bytes, is its last.
    pub(crate) fn is_last(&self, len: usize) -> bool
        ensures { IsTrue result ↔ (sent_of self.now + 1 ≡ frame_count (sending_size self.now len)) }
    {
        match &self.sender {
            Some(sender) => sender.is_last(),
            None => len <= SINGLE_FRAME,
        }
    }

    /// Where the next message's step stands in the log; 0 where none waits.
    pub(crate) fn next(&self) -> u32
        ensures { (place : ℕ) → slice_get self.now.queue.items 0 ≡ Some place → result ≡ place }
    {
        match self.queue.front() {
            Some(place) => *place,
            None => 0,
        }
    }
}

/// So many hosts of which none has sent a message. An error means out of memory.
pub(crate) fn hosts(alloc: Global, count: usize, capacity: usize) -> Result<Vec<Host>, AllocError>
    requires { count ≤ 16 }
    ensures count { IfOk result (λ hosts. length hosts.items ≡ count) }
    ensures fresh { IfOk result (λ hosts. All (λ host. host ≡ new_host capacity) hosts.items) }
{
    let mut hosts = Vec::new(alloc);
    for _ in 0..count {
        hosts.push(Host {
            settled: 0,
            queue: HeapCircularBuffer::with_capacity(alloc, capacity)?,
            sender: None,
            closed: false,
        })?;
    }
    Ok(hosts)
}

/// How many messages wait in a host's queue; 0 for a number that is no host's.
pub(crate) fn queued_by(hosts: &[Host], host: u8) -> usize
    ensures { (kept : Host) → slice_get hosts.now host ≡ Some kept
        → result ≡ length kept.queue.items }
{
    match hosts.get(host as usize) {
        Some(kept) => kept.queue.len(),
        None => 0,
    }
}

/// Whether a host is closed; false for a number that is no host's.
pub(crate) fn closed_by(hosts: &[Host], host: u8) -> bool
    ensures { (kept : Host) → slice_get hosts.now host ≡ Some kept → result ≡ kept.closed }
{
    match hosts.get(host as usize) {
        Some(kept) => kept.closed,
        None => false,
    }
}

/// Whether a host's next message is begun; false for a number that is no host's.
pub(crate) fn begun_by(hosts: &[Host], host: u8) -> bool
    ensures some { (kept : Host) → slice_get hosts.now host ≡ Some kept → result ≡ is_some kept.sender }
    ensures none { slice_get hosts.now host ≡ None → result ≡ false }
{
    match hosts.get(host as usize) {
        Some(kept) => kept.sender.is_some(),
        None => false,
    }
}

/// Where a host's next message stands in the log; 0 where none waits, and for a number that is no
/// host's.
pub(crate) fn next_by(hosts: &[Host], host: u8) -> u32
    ensures { (kept : Host) (place : ℕ) → slice_get hosts.now host ≡ Some kept
        → slice_get kept.queue.items 0 ≡ Some place → result ≡ place }
{
    match hosts.get(host as usize) {
        Some(kept) => kept.next(),
        None => 0,
    }
}

/// The responder that is due in a slave response, where this one is selected: one of its messages
/// waits.
pub(crate) fn responder(hosts: &[Host], selected: Option<u8>) -> Option<u8>
    ensures none { selected ≡ None → result ≡ None }
    ensures some { (node : ℕ) (kept : Host) → selected ≡ Some node → slice_get hosts.now node ≡ Some kept
        → result ≡ if_waiting kept node }
{
    match selected {
        Some(node) if queued_by(hosts, node) > 0 => Some(node),
        _ => None,
    }
}
