//! What schedule tables promise if they run undisturbed.

ghost use Rattle.std.specs.Prelude.{◌≡◌, ◌<◌, ◌≤◌, IfOk, length};
ghost use Rattle.std.specs.List.{list_any};
ghost use Rattle.lin_parts.specs.Cluster.{frames_with};
ghost use Rattle.lin_export.specs.Timings.{HaveSameFrames, AreFrameTimings, AreLatencies, AreTimings, IsFrameTiming};
ghost use Rattle.lin_export.specs.Timings.{IsLatency, IsSignalLatency, IsTiming, frames_of_message, occurs, occurs_by};

use lin_parts::Cluster;
use lin_schedule::{Awaited, Extremes, gaps, once_wait, own_entries, shared_entries, worst_wait};
use std::alloc::{AllocError, Global};

/// A frame in a table: how many entries are its own, how many are those of sporadic and
/// event-triggered frames that list it, and the times between its own slots.
#[derive(Clone, Copy)]
pub struct FrameTiming {
    pub own: u16,
    pub shared: u16,
    pub gaps: Option<Extremes>,
}

/// How many microseconds a write to a signal waits: at worst, and if no frame above it in rank goes
/// twice before it.
#[derive(Clone, Copy)]
pub struct Latency {
    pub worst: Option<u64>,
    pub once: Option<u64>,
}

/// A table: its frames and its signals by their numbers, and how many microseconds a message waits in
/// each direction. A signal has a latency if an entry carries a frame that has it.
#[derive(Drop)]
pub struct TableTiming {
    pub frames: Vec<FrameTiming>,
    pub signals: Vec<Option<Latency>>,
    pub down: Option<u64>,
    pub up: Option<u64>,
}

/// The number of frames of a message with so many data bytes (ISO 17987-2, segmented messages).
pub(super) fn frames_of_message(bytes: u16) -> u16
    requires { bytes ≤ 4095 }
    ensures value { result ≡ frames_of_message bytes }
    ensures some { 1 ≤ result }
    ensures few { result ≤ 683 }
{
    if bytes <= 6 { 1 } else { 1 + bytes / 6 }
}

impl FrameTiming {
    /// A frame in a table.
    fn new(
        alloc: Global,
        cluster: &Cluster,
        table: u16,
        frame: u16,
    ) -> Result<FrameTiming, AllocError>
        requires { table < length cluster.now.tables }
        ensures { IfOk result (λ timing. IsFrameTiming cluster.now table frame timing) }
    {
        Ok(FrameTiming {
            own: own_entries(cluster, table, frame),
            shared: shared_entries(cluster, table, frame),
            gaps: gaps(alloc, cluster, table, frame)?,
        })
    }

    /// Whether an entry carries the frame.
    pub(super) fn occurs(&self) -> bool
        ensures { result ≡ occurs self.now.own self.now.shared }
    {
        self.own > 0 || self.shared > 0
    }
}

/// All frames in a table.
fn frame_timings(
    alloc: Global,
    cluster: &Cluster,
    table: u16,
) -> Result<Vec<FrameTiming>, AllocError>
    requires { table < length cluster.now.tables }
    ensures { IfOk result (λ all. AreFrameTimings cluster.now table all.items) }
{
    cluster.sound();
    let mut all = Vec::new(alloc);
    for frame in 0..cluster.frames() as u16 {
        all.push(FrameTiming::new(alloc, cluster, table, frame)?)?;
    }
    Ok(all)
}

/// The first signal that the same frames have.
fn first_alike(cluster: &Cluster, signal: u16) -> u16
    requires { signal < length cluster.now.signals }
    ensures alike { frames_with cluster.now result ≡ frames_with cluster.now signal }
    ensures first { result ≤ signal }
{
    let frames = cluster.frames_with(signal);
    for other in 0..signal {
        if cluster.frames_with(other) == frames {
            return other;
        }
    }
    signal
}

/// The first signal that the same frames have, for each signal.
fn all_first_alike(alloc: Global, cluster: &Cluster) -> Result<Vec<u16>, AllocError>
    ensures { IfOk result (λ all. HaveSameFrames cluster.now all.items) }
{
    let mut all = Vec::new(alloc);
    for signal in 0..cluster.signals() as u16 {
        all.push(first_alike(cluster, signal))?;
    }
    Ok(all)
}

impl Latency {
    /// A signal that these frames have.
    fn new(
        alloc: Global,
        cluster: &Cluster,
        table: u16,
        frames: &[u16],
    ) -> Result<Latency, AllocError>
        requires { table < length cluster.now.tables }
        ensures { IfOk result (λ latency. IsLatency cluster.now table frames.now latency) }
    {
        let awaited = Awaited::frames(alloc, cluster, frames)?;
        Ok(Latency {
            worst: worst_wait(alloc, cluster, table, &awaited, 1)?,
            once: once_wait(alloc, cluster, table, frames)?,
        })
    }
}

fn occurs_by(timings: &[FrameTiming], frame: u16) -> bool
    ensures { result ≡ occurs_by timings.now frame }
{
    match timings.get(frame as usize) {
        Some(timing) => timing.occurs(),
        None => false,
    }
}

/// Whether an entry of the table carries one of these frames.
fn occur(timings: &[FrameTiming], frames: &[u16]) -> bool
    ensures { result ≡ list_any (occurs_by timings.now) frames.now }
{
    frames.iter().any(|frame| occurs_by(timings, *frame))
}

/// A signal in a table, if one of its frames occurs.
fn signal_latency(
    alloc: Global,
    cluster: &Cluster,
    table: u16,
    signal: u16,
    timings: &[FrameTiming],
) -> Result<Option<Latency>, AllocError>
    requires table { table < length cluster.now.tables }
    requires signal { signal < length cluster.now.signals }
    requires timings { AreFrameTimings cluster.now table timings.now }
    ensures { IfOk result (λ latency. IsSignalLatency cluster.now table signal latency) }
{
    let frames = cluster.frames_with(signal);
    if occur(timings, frames) {
        Ok(Some(Latency::new(alloc, cluster, table, frames)?))
    } else {
        Ok(None)
    }
}

/// A signal in a table, where those of earlier signals are known. It has that of the first signal that
/// the same frames have.
fn shared_latency(
    alloc: Global,
    cluster: &Cluster,
    table: u16,
    first: u16,
    timings: &[FrameTiming],
    known: &[Option<Latency>],
) -> Result<Option<Latency>, AllocError>
    requires table { table < length cluster.now.tables }
    requires signal { first < length cluster.now.signals }
    requires timings { AreFrameTimings cluster.now table timings.now }
    requires known { AreLatencies cluster.now table known.now }
    ensures { IfOk result (λ latency. IsSignalLatency cluster.now table first latency) }
{
    match known.get(first as usize) {
        Some(latency) => Ok(*latency),
        None => signal_latency(alloc, cluster, table, first, timings),
    }
}

/// All signals in a table. Signals that the same frames have share one search.
fn latencies(
    alloc: Global,
    cluster: &Cluster,
    table: u16,
    timings: &[FrameTiming],
    alike: &[u16],
) -> Result<Vec<Option<Latency>>, AllocError>
    requires table { table < length cluster.now.tables }
    requires timings { AreFrameTimings cluster.now table timings.now }
    requires alike { HaveSameFrames cluster.now alike.now }
    ensures number { IfOk result (λ all. length all.items ≡ length cluster.now.signals) }
    ensures each { IfOk result (λ all. AreLatencies cluster.now table all.items) }
{
    let mut all = Vec::new(alloc);
    for signal in 0..cluster.signals() as u16 {
        let first = alike[signal as usize];
        let latency = shared_latency(alloc, cluster, table, first, timings, all.as_slice())?;
        all.push(latency)?;
    }
    Ok(all)
}

impl TableTiming {
    /// A table, and messages with so many data bytes.
    fn new(
        alloc: Global,
        cluster: &Cluster,
        table: u16,
        bytes: u16,
        alike: &[u16],
    ) -> Result<TableTiming, AllocError>
        requires table { table < length cluster.now.tables }
        requires bytes { bytes ≤ 4095 }
        requires alike { HaveSameFrames cluster.now alike.now }
        ensures { IfOk result (λ timing. IsTiming cluster.now table bytes timing) }
    {
        let frames = frame_timings(alloc, cluster, table)?;
        let signals = latencies(alloc, cluster, table, frames.as_slice(), alike)?;
        let count = frames_of_message(bytes);
        let down = worst_wait(alloc, cluster, table, &Awaited::request(alloc), count)?;
        let up = worst_wait(alloc, cluster, table, &Awaited::response(alloc), count)?;
        Ok(TableTiming {
            frames,
            signals,
            down,
            up,
        })
    }
}

/// All tables, and messages with so many data bytes.
///
/// # Errors
/// Out of memory.
pub fn table_timings(
    alloc: Global,
    cluster: &Cluster,
    bytes: u16,
) -> Result<Vec<TableTiming>, AllocError>
    requires { bytes ≤ 4095 }
    ensures { IfOk result (λ all. AreTimings cluster.now bytes all.items) }
{
    let alike = all_first_alike(alloc, cluster)?;
    let mut all = Vec::new(alloc);
    for table in 0..cluster.tables() as u16 {
        let timing = TableTiming::new(alloc, cluster, table, bytes, alike.as_slice())?;
        all.push(timing)?;
    }
    Ok(all)
}
