//! Frames and the places of their signals, as lines.

ghost use Rattle.std.specs.Prelude.{◌≡◌, ◌<◌, length, flat_map};
ghost use Rattle.lin_frame.specs.Words.{numbers};
ghost use Rattle.lin_log.specs.Words.{line_tail};
ghost use Rattle.lin_parts.specs.Cluster.{frame_of};
ghost use Rattle.lin_text.specs.Written.{Grows, WritesText};
ghost use Rattle.lin_export.specs.ListedFrames.{event_line, frame_line, frame_lines, frame_listing, member_words};
ghost use Rattle.lin_export.specs.ListedFrames.{model_word, place_line, places, sporadic_line};

use crate::frame_places::{place_at, place_count};
use lin_frame::{Place, SumKind};
use lin_log::{Word, put_head, put_line, put_spaced};
use lin_parts::Cluster;
use lin_text::{TextBuffer, TextWriter, WriteFailed};
use std::io::Write;

pub(crate) fn model_word(model: SumKind) -> &'static [u8]
    ensures { result.now ≡ model_word model }
{
    match model {
        SumKind::Classic => b"classic",
        SumKind::Enhanced => b"enhanced",
    }
}

/// The line of an unconditional frame.
fn put_frame<'a, W: Write>(out: &mut TextWriter<'_, W>, cluster: &'a Cluster, frame: u16)
    requires { frame < length cluster.now.frames }
    ensures { Grows W.contents out.old out.new (frame_line cluster.now frame) }
{
    cluster.sound();
    let pid = cluster.frame_pid(frame);
    put_line(
        out,
        b"frame",
        &[
            Word::Number(u64::from(frame)),
            Word::Said(cluster.frame_name(frame)),
            Word::Identifier(pid % 64),
            Word::Byte(pid),
            Word::Number(u64::from(cluster.layout(frame).len)),
            Word::Said(cluster.node_name(cluster.frame_publisher(frame))),
            Word::Said(model_word(cluster.model(frame))),
        ],
    );
}

/// The line of a signal at its place in a frame.
fn put_place<W: Write>(
    out: &mut TextWriter<'_, W>,
    cluster: &Cluster,
    frame: u16,
    signal: u16,
    place: &Place,
)
    requires { signal < length cluster.now.signals }
    ensures { Grows W.contents out.old out.new (place_line cluster.now frame (signal, place.now)) }
{
    put_line(
        out,
        b"place",
        &[
            Word::Number(u64::from(frame)),
            Word::Number(u64::from(place.offset)),
            Word::Number(u64::from(place.size)),
            Word::Said(cluster.signal_name(signal)),
            Word::Value(cluster.initial(signal)),
        ],
    );
}

/// The lines of the signals of a frame, in the order of their places.
fn put_places<W: Write>(out: &mut TextWriter<'_, W>, cluster: &Cluster, frame: u16)
    requires { frame < length cluster.now.frames }
    ensures { Grows W.contents out.old out.new
        (flat_map (place_line cluster.now frame) (places (frame_of cluster.now frame))) }
{
    for index in 0..place_count(cluster, frame) {
        let (signal, place) = place_at(cluster, frame, index);
        put_place(out, cluster, frame, signal, &place);
    }
}

/// The lines of an unconditional frame and of its places.
fn put_frame_lines<W: Write>(out: &mut TextWriter<'_, W>, cluster: &Cluster, frame: u16)
    requires { frame < length cluster.now.frames }
    ensures { Grows W.contents out.old out.new (frame_lines cluster.now frame) }
{
    put_frame(out, cluster, frame);
    put_places(out, cluster, frame);
}

fn put_unconditional<W: Write>(out: &mut TextWriter<'_, W>, cluster: &Cluster)
    ensures { Grows W.contents out.old out.new
        (flat_map (frame_lines cluster.now) (numbers (length cluster.now.frames))) }
{
    cluster.sound();
    for frame in 0..cluster.frames() as u16 {
        put_frame_lines(out, cluster, frame);
    }
}

/// The names of some frames, each after a space, and the end of their line.
fn put_members<W: Write>(out: &mut TextWriter<'_, W>, cluster: &Cluster, frames: &[u16])
    ensures { Grows W.contents out.old out.new (line_tail (member_words cluster.now frames.now)) }
{
    for frame in frames {
        put_spaced(out, Word::Said(cluster.frame_name(*frame)));
    }
    out.put_byte(b'\n');
}

fn put_sporadic<W: Write>(out: &mut TextWriter<'_, W>, cluster: &Cluster, sporadic: u16)
    requires { sporadic < length cluster.now.sporadic }
    ensures { Grows W.contents out.old out.new (sporadic_line cluster.now sporadic) }
{
    put_head(
        out,
        b"sporadic",
        &[
            Word::Number(u64::from(sporadic)),
            Word::Said(cluster.sporadic_name(sporadic)),
        ],
    );
    put_members(out, cluster, cluster.sporadic(sporadic));
}

fn put_sporadics<W: Write>(out: &mut TextWriter<'_, W>, cluster: &Cluster)
    ensures { Grows W.contents out.old out.new
        (flat_map (sporadic_line cluster.now) (numbers (length cluster.now.sporadic))) }
{
    for sporadic in 0..cluster.sporadics() as u16 {
        put_sporadic(out, cluster, sporadic);
    }
}

fn put_event<'a, W: Write>(out: &mut TextWriter<'_, W>, cluster: &'a Cluster, event: u16)
    requires { event < length cluster.now.events }
    ensures { Grows W.contents out.old out.new (event_line cluster.now event) }
{
    cluster.sound();
    let pid = cluster.event_pid(event);
    put_head(
        out,
        b"event",
        &[
            Word::Number(u64::from(event)),
            Word::Said(cluster.event_name(event)),
            Word::Identifier(pid % 64),
            Word::Byte(pid),
            Word::Said(cluster.table_name(cluster.event_table(event))),
        ],
    );
    put_members(out, cluster, cluster.event_frames(event));
}

fn put_events<W: Write>(out: &mut TextWriter<'_, W>, cluster: &Cluster)
    ensures { Grows W.contents out.old out.new
        (flat_map (event_line cluster.now) (numbers (length cluster.now.events))) }
{
    cluster.sound();
    for event in 0..cluster.events() as u16 {
        put_event(out, cluster, event);
    }
}

fn put_frames<W: Write>(out: &mut TextWriter<'_, W>, cluster: &Cluster)
    ensures { Grows W.contents out.old out.new (frame_listing cluster.now) }
{
    put_unconditional(out, cluster);
    put_sporadics(out, cluster);
    put_events(out, cluster);
}

/// Writes a line for each unconditional frame, followed by a line for each of its signals with its
/// place; then a line for each sporadic and for each event-triggered frame (LIN 2.2A, section
/// 9.2.4).
///
/// It goes through a buffer of fixed size, and takes no memory. The writer isn't flushed.
///
/// # Errors
/// `WriteFailed` at the first error of the writer, an interrupted write too, and at the first write
/// of 0 bytes. What was written then is the beginning of the lines.
pub fn write_frames<W: Write>(cluster: &Cluster, writer: &mut W) -> Result<(), WriteFailed>
    ensures { WritesText (W.contents writer.old) (W.contents writer.new) result
        (frame_listing cluster.now) }
{
    let mut buffer = TextBuffer::empty();
    let mut out = TextWriter::new(writer, &mut buffer);
    put_frames(&mut out, cluster);
    out.finish()
}
