//! What a node waits for in the slots of schedule tables.

ghost use Rattle.std.specs.Prelude.{◌≡◌, ◌<◌, ◌≤◌, ◌==◌, IfOk, IfSome, count_by, length, map};
ghost use Rattle.std.specs.Prelude.{position, slice_index_or};
ghost use Rattle.std.specs.Prelude.{true, false};
ghost use Rattle.std.specs.List.{list_any, range_with_len};
ghost use Rattle.std.specs.Option.{option_map_or};
ghost use Rattle.lin_parts.specs.Cluster.{event_of};
ghost use Rattle.lin_parts.specs.Rules.{IsEntry};
ghost use Rattle.lin_schedule.specs.Carriers.{carries, can_collide, has_signals, is_among_frames, is_first};
ghost use Rattle.lin_schedule.specs.Carriers.{lists_one, rank};
ghost use Rattle.lin_schedule.specs.Carriers.{different_in, carriers_of_frames, carriers_of_sporadic};
ghost use Rattle.lin_schedule.specs.Carriers.{carriers_of_requests, carriers_of_responses};
ghost use Rattle.lin_schedule.specs.Carriers.{diagnostic_carriers};

use lin_parts::{Cluster, Entry};
use std::alloc::{AllocError, Global};
use std::marker::Model;

/// What a node waits for: which slots carry it, unless the answers in the slot collide (ISO 17987-3,
/// unconditional, sporadic and event-triggered frames; ISO 17987-2, diagnostic frames).
#[derive(Drop)]
pub struct Awaited {
    frames: Vec<bool>,
    sporadic: Vec<bool>,
    events: Vec<bool>,
    request: bool,
    response: bool,
}

impl Model for Awaited {
    ghost use Rattle.lin_schedule.specs.Carriers.{Carriers};

    ghost Value = { Carriers };

    ghost view = { λ a. record {
      frames = a.frames.items;
      sporadic = a.sporadic.items;
      events = a.events.items;
      request = a.request;
      response = a.response;
    } };
}

impl Awaited {
    /// One of these frames, which have the signal that is waited for. A slot of a sporadic frame
    /// carries it where no frame with a signal is above it in rank.
    ///
    /// # Errors
    /// Out of memory.
    pub fn frames(alloc: Global, cluster: &Cluster, frames: &[u16]) -> Result<Awaited, AllocError>
        ensures { IfOk result (λ awaited. awaited ≡ carriers_of_frames cluster.now frames.now) }
    {
        Ok(Awaited {
            frames: frames_among(alloc, cluster, frames)?,
            sporadic: sporadic_first(alloc, cluster, frames)?,
            events: events_among(alloc, cluster, frames)?,
            request: false,
            response: false,
        })
    }

    /// A slot of a sporadic frame.
    ///
    /// # Errors
    /// Out of memory.
    pub fn sporadic(alloc: Global, sporadic: u16) -> Result<Awaited, AllocError>
        ensures { IfOk result (λ awaited. awaited ≡ carriers_of_sporadic sporadic) }
    {
        let mut slots = vec![in alloc; false; sporadic as usize]?;
        slots.push(true)?;
        Ok(Awaited {
            frames: Vec::new(alloc),
            sporadic: slots,
            events: Vec::new(alloc),
            request: false,
            response: false,
        })
    }

    // Diagnostic frames: the master request frame, the slave response frame, or both.
    fn diagnostic(alloc: Global, request: bool, response: bool) -> Awaited
        ensures { result ≡ diagnostic_carriers request response }
    {
        Awaited {
            frames: Vec::new(alloc),
            sporadic: Vec::new(alloc),
            events: Vec::new(alloc),
            request,
            response,
        }
    }

    /// A master request frame.
    pub fn request(alloc: Global) -> Awaited
        ensures { result ≡ carriers_of_requests }
    {
        Awaited::diagnostic(alloc, true, false)
    }

    /// A slave response frame.
    pub fn response(alloc: Global) -> Awaited
        ensures { result ≡ carriers_of_responses }
    {
        Awaited::diagnostic(alloc, false, true)
    }

    // Whether an entry's slot carries it, unless the answers collide.
    pub(crate) fn carries(&self, entry: Entry) -> bool
        ensures { result ≡ carries self.now entry }
    {
        match entry {
            Entry::Frame(frame) => is_set(&self.frames, frame),
            Entry::Sporadic(sporadic) => is_set(&self.sporadic, sporadic),
            Entry::Event(event) => is_set(&self.events, event),
            Entry::MasterReq => self.request,
            Entry::SlaveResp => self.response,
            Entry::Fixed(_) | Entry::Quiet => false,
        }
    }
}

fn is_set(flags: &Vec<bool>, number: u16) -> bool
    ensures { result ≡ slice_index_or flags.now.items number false }
{
    flags.get(number as usize).copied().unwrap_or(false)
}

pub(crate) fn is_among(frames: &[u16], frame: u16) -> bool
    ensures { result ≡ is_among_frames frames.now frame }
{
    frames.iter().any(|other| *other == frame)
}

fn has_signals(cluster: &Cluster, frame: u16) -> bool
    requires { frame < length cluster.now.frames }
    ensures { result ≡ has_signals cluster.now frame }
{
    !cluster.frame_signals(frame).is_empty()
}

// Whether answers can collide in the slot of an entry.
pub(crate) fn can_collide(cluster: &Cluster, entry: Entry) -> bool
    requires { IsEntry cluster.now entry }
    ensures { result ≡ can_collide cluster.now entry }
{
    match entry {
        Entry::Event(event) => members_with_signals(cluster, event) > 1,
        _ => false,
    }
}

// How many frames of an event-triggered frame have a signal.
fn members_with_signals(cluster: &Cluster, event: u16) -> usize
    requires { event < length cluster.now.events }
    ensures { result ≡ count_by (has_signals cluster.now) (event_of cluster.now event).frames }
{
    cluster.sound();
    cluster
        .event_frames(event)
        .iter()
        .filter(|frame| has_signals(cluster, **frame))
        .count()
}

// How many different frames with a signal these are.
fn different_in(cluster: &Cluster, frames: &[u16]) -> u16
    ensures number { result ≡ different_in cluster.now frames.now }
    ensures few { result ≤ 60 }
{
    cluster.sound();
    (0..cluster.frames() as u16)
        .filter(|frame| is_among(frames, *frame) && has_signals(cluster, *frame))
        .count() as u16
}

// The place of the first of the members that is one of these frames.
fn first_among(members: &[u16], frames: &[u16]) -> Option<usize>
    ensures place { result ≡ position (is_among_frames frames.now) members.now }
    ensures range { IfSome result (λ first. first < length members.now) }
{
    members.iter().position(|member| is_among(frames, *member))
}

/// The rank of the first of these frames in a sporadic frame that lists one (ISO 17987-3, sporadic
/// frames): 1, and 1 more for each different frame with a signal above it, which is sent first where
/// both are pending.
pub fn rank(cluster: &Cluster, frames: &[u16], sporadic: u16) -> Option<u16>
    requires { sporadic < length cluster.now.sporadic }
    ensures value { result ≡ rank cluster.now frames.now sporadic }
    ensures some { IfSome result (λ rank. 1 ≤ rank) }
    ensures few { IfSome result (λ rank. rank ≤ 61) }
{
    let members = cluster.sporadic(sporadic);
    match first_among(members, frames) {
        Some(first) => Some(1 + different_in(cluster, &members[..first])),
        None => None,
    }
}

// Of each frame, whether it is one of these.
fn frames_among(alloc: Global, cluster: &Cluster, frames: &[u16]) -> Result<Vec<bool>, AllocError>
    ensures { IfOk result (λ flags. flags.items
        ≡ map (is_among_frames frames.now) (range_with_len 0 (length cluster.now.frames))) }
{
    cluster.sound();
    (0..cluster.frames() as u16)
        .map(|frame| is_among(frames, frame))
        .collect(alloc)
}

// Whether one of these frames is first in rank in a sporadic frame.
fn is_first(cluster: &Cluster, frames: &[u16], sporadic: u16) -> bool
    requires { sporadic < length cluster.now.sporadic }
    ensures { result ≡ is_first cluster.now frames.now sporadic }
{
    match rank(cluster, frames, sporadic) {
        Some(rank) => rank == 1,
        None => false,
    }
}

// Of each sporadic frame, whether one of these frames is first in rank in it.
fn sporadic_first(alloc: Global, cluster: &Cluster, frames: &[u16]) -> Result<Vec<bool>, AllocError>
    ensures { IfOk result (λ flags. flags.items
        ≡ map (is_first cluster.now frames.now) (range_with_len 0 (length cluster.now.sporadic))) }
{
    (0..cluster.sporadics() as u16)
        .map(|sporadic| is_first(cluster, frames, sporadic))
        .collect(alloc)
}

// Whether an event-triggered frame lists one of these frames.
fn is_listed(cluster: &Cluster, frames: &[u16], event: u16) -> bool
    requires { event < length cluster.now.events }
    ensures { result ≡ lists_one cluster.now frames.now event }
{
    cluster
        .event_frames(event)
        .iter()
        .any(|member| is_among(frames, *member))
}

// Of each event-triggered frame, whether it lists one of these frames.
fn events_among(alloc: Global, cluster: &Cluster, frames: &[u16]) -> Result<Vec<bool>, AllocError>
    ensures { IfOk result (λ flags. flags.items
        ≡ map (lists_one cluster.now frames.now) (range_with_len 0 (length cluster.now.events))) }
{
    cluster.sound();
    (0..cluster.events() as u16)
        .map(|event| is_listed(cluster, frames, event))
        .collect(alloc)
}
