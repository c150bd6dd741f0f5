//! Logs as captures of LIN packets (pcap, link type 212).

ghost use Rattle.std.specs.Prelude.{◌≡◌, ◌≤◌, ◌<◌, ◌^◌, ⊤, [], length};
ghost use Rattle.lin_text.specs.Written.{Grows, WritesText};
ghost use Rattle.lin_export.specs.Look.{seen_as};
ghost use Rattle.lin_export.specs.Open.{tracked_slot};
ghost use Rattle.lin_export.specs.Pcap.{bus_event, file_header, finish_packets, frame_body};
ghost use Rattle.lin_export.specs.Pcap.{model_number, packet, packets, pcap, seen_packet};
ghost use Rattle.lin_export.specs.Pcap.{slot_packet, word_bytes};

use crate::fault::ExportFault;
use crate::format::{EntryFormat, write_as};
use crate::track::{Track, TrackedEntry};
use crate::tracked_slot::{SeenSlot, TrackedSlot, byte_at};
use arrayvec::ArrayVec;
use lin_core::{Log, Reply, Step, model_under};
use lin_frame::SumKind;
use lin_parts::Cluster;
use lin_text::TextWriter;
use std::alloc::Global;
use std::io::Write;

/// The errors of a frame's packet.
const NO_RESPONSE: u8 = 1;

const FRAMING: u8 = 2;

const BAD_CHECKSUM: u8 = 8;

/// The kinds of events of the bus.
const GOES_TO_SLEEP: u8 = 1;

const WAKES: u8 = 4;

/// The low 32 bits of a number, the lowest byte first.
fn word(number: u64) -> [u8; 4]
    ensures { result ≡ word_bytes number }
{
    [
        (number % 256) as u8,
        (number / 256 % 256) as u8,
        (number / 65_536 % 256) as u8,
        (number / 16_777_216 % 256) as u8,
    ]
}

fn file_header() -> ArrayVec<u8, 24>
    ensures { result.items ≡ file_header }
{
    let mut header = ArrayVec::new();
    header.try_extend_from_slice(&word(0xA1B2_C3D4)).unwrap();
    header.try_extend_from_slice(&[2, 0, 4, 0]).unwrap();
    header.try_extend_from_slice(&word(0)).unwrap();
    header.try_extend_from_slice(&word(0)).unwrap();
    header.try_extend_from_slice(&word(65_535)).unwrap();
    header.try_extend_from_slice(&word(212)).unwrap();
    header
}

/// A packet at a time in microseconds.
fn packet(at: u64, body: &[u8]) -> ArrayVec<u8, 32>
    requires { length body.now ≤ 16 }
    ensures { result.items ≡ packet at body.now }
{
    let length = body.len() as u64;
    let mut bytes = ArrayVec::new();
    bytes.try_extend_from_slice(&word(at / 1_000_000)).unwrap();
    bytes.try_extend_from_slice(&word(at % 1_000_000)).unwrap();
    bytes.try_extend_from_slice(&word(length)).unwrap();
    bytes.try_extend_from_slice(&word(length)).unwrap();
    bytes.try_extend_from_slice(body).unwrap();
    bytes
}

fn model_number(model: SumKind) -> u8
    ensures { result ≡ model_number model }
{
    match model {
        SumKind::Classic => 1,
        SumKind::Enhanced => 2,
    }
}

/// A frame with a response, or with no bytes where none is shown.
fn frame_body(model: SumKind, header: u8, answer: &[u8], errors: u8) -> ArrayVec<u8, 16>
    requires { length answer.now ≤ 9 }
    ensures { result.items ≡ frame_body model header answer.now errors }
{
    let count = answer.len().saturating_sub(1);
    let room = if count == 0 {
        0
    } else if count <= 4 {
        4
    } else {
        8
    };
    let lengths = 16 * count as u8 + model_number(model);
    let mut body = ArrayVec::new();
    body.try_extend_from_slice(&[1, 0, 0, 0, lengths, header, byte_at(answer, count), errors])
        .unwrap();
    body.try_extend_from_slice(&answer[..count]).unwrap();
    body.try_extend_from_slice(&[0; 8][..room - count]).unwrap();
    body
}

fn put_packet<W: Write>(out: &mut TextWriter<'_, W>, at: u64, body: &[u8])
    requires { length body.now ≤ 16 }
    ensures { Grows W.contents out.old out.new (packet at body.now) }
{
    out.put(packet(at, body).as_slice());
}

fn put_bus_event<W: Write>(out: &mut TextWriter<'_, W>, at: u64, kind: u8)
    ensures { Grows W.contents out.old out.new (packet at (bus_event kind)) }
{
    put_packet(out, at, &[1, 0, 0, 0, 0x4C, 0, 0, 0, 0xB0, 0xB0, 0, kind]);
}

fn put_seen<W: Write>(
    out: &mut TextWriter<'_, W>,
    at: u64,
    model: SumKind,
    header: u8,
    look: SeenSlot<'_>,
)
    ensures { Grows W.contents out.old out.new (seen_packet at model header (seen_as look.entry)) }
{
    let body = match look {
        SeenSlot::Silent => return,
        SeenSlot::NoAnswer => frame_body(model, header, &[], NO_RESPONSE),
        SeenSlot::Good(answer) => frame_body(model, header, answer.as_slice(), 0),
        SeenSlot::Damaged => frame_body(model, header, &[], BAD_CHECKSUM),
        SeenSlot::Collided => frame_body(model, header, &[], FRAMING),
    };
    put_packet(out, at, body.as_slice());
}

fn put_slot<W: Write>(out: &mut TextWriter<'_, W>, at: u64, cluster: &Cluster, slot: &TrackedSlot)
    ensures { Grows W.contents out.old out.new (slot_packet cluster.now at (tracked_slot slot.now)) }
{
    let Some(header) = slot.header() else {
        return;
    };
    let model = model_under(cluster, slot.line(cluster).entry, header);
    put_seen(out, at, model, header, slot.look());
}

/// A slot that begins at a time, and its end where it puts the cluster to sleep.
fn put_finish<W: Write>(out: &mut TextWriter<'_, W>, at: u64, cluster: &Cluster, slot: &TrackedSlot)
    requires { at < 2 ^ 63 }
    ensures { Grows W.contents out.old out.new (finish_packets cluster.now at (tracked_slot slot.now)) }
{
    put_slot(out, at, cluster, slot);
    if !slot.is_sleep() {
        return;
    }
    let end = at + u64::from(slot.line(cluster).delay_us);
    put_bus_event(out, end, GOES_TO_SLEEP);
}

/// A capture.
#[derive(Drop)]
struct Capture;

impl EntryFormat for Capture {
    ghost text = { λ f c. record {
      begins = file_header;
      says = packets c;
      ends = λ past. [];
    } };

    ghost fits = { λ f c. ⊤ };

    ghost keeps = { λ f c past. ⊤ };

    fn put_head<W: Write>(&self, out: &mut TextWriter<'_, W>, _cluster: &Cluster) {
        out.put(file_header().as_slice());
    }

    fn put_entry<W: Write>(&mut self, out: &mut TextWriter<'_, W>, next: &TrackedEntry<'_>) {
        let Reply::Done(_) = &next.entry.reply else {
            return;
        };
        match &next.entry.step {
            Step::Wake => put_bus_event(out, next.track.time(), WAKES),
            Step::Finish => match next.track.slot() {
                Some(slot) => put_finish(out, next.track.time(), next.cluster, slot),
                None => {}
            },
            _ => {}
        }
    }

    fn put_end<W: Write>(&self, _out: &mut TextWriter<'_, W>, _cluster: &Cluster, _track: &Track) {}
}

/// Writes the capture of a log: per finished slot with a header a packet at its start, with the
/// response where it was seen good; one at the end of a slot that puts the cluster to sleep; and
/// one per wake-up (pcap, link type 212, LINKTYPE_LIN).
///
/// It goes through a buffer of fixed size, and takes memory for what is kept of one slot. The
/// writer isn't flushed.
///
/// # Errors
/// What was written then is the beginning of the capture.
/// - `OutOfMemory`;
/// - `WriteFailed` at the first error of the writer, an interrupted write too, and at the first
///   write of 0 bytes.
pub fn write_pcap<W: Write>(
    alloc: Global,
    cluster: &Cluster,
    log: &Log,
    writer: &mut W,
) -> Result<(), ExportFault>
    ensures { WritesText (W.contents writer.old) (W.contents writer.new) result
        (pcap cluster.now log.now.entries) }
{
    write_as(&mut Capture, alloc, cluster, log, writer)
}
