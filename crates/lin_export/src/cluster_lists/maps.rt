//! Which signal has which bit of the data bytes of frames, as lines.

ghost use Rattle.std.specs.Prelude.{◌≡◌, ◌<◌, ◌∷◌, [], flat_map, IsTrue, length, position};
ghost use Rattle.lin_frame.specs.Bits.{covers, first_bit, is_good_layout};
ghost use Rattle.lin_frame.specs.Words.{numbers};
ghost use Rattle.lin_parts.specs.Cluster.{frame_of};
ghost use Rattle.lin_log.specs.Words.{spaced_word};
ghost use Rattle.lin_text.specs.Written.{Grows, WritesText};
ghost use Rattle.lin_export.specs.ListedFrames.{places};
ghost use Rattle.lin_export.specs.ListedMaps.{bits_line, map_line, map_lines, maps, mark_line};
ghost use Rattle.lin_export.specs.Listing.{numbered_lines};
ghost use Rattle.lin_export.specs.Marks.{bit_mark, free_bits, signal_mark};

use crate::frame_places::{place_at, place_count};
use lin_frame::{Layout, Place};
use lin_log::{Word, put_head, put_line, put_spaced, put_words};
use lin_parts::Cluster;
use lin_text::{TextBuffer, TextWriter, WriteFailed};
use std::io::Write;

/// The mark of a signal by its number among the places of its frame, which has at most 64.
fn mark(number: usize) -> u8
    ensures { result ≡ signal_mark number }
{
    if number < 26 {
        b'A' + number as u8
    } else if number < 52 {
        b'a' + (number - 26) as u8
    } else if number < 62 {
        b'0' + (number - 52) as u8
    } else if number == 62 {
        b'@'
    } else {
        b'#'
    }
}

/// The first bit that signals may use.
fn first_bit(layout: &Layout) -> u16
    ensures { result ≡ first_bit layout.now }
{
    if layout.pid.is_some() { 8 } else { 0 }
}

fn covers(place: &Place, bit: u16) -> bool
    ensures { result ≡ covers place.now bit }
{
    u16::from(place.offset) <= bit && bit < u16::from(place.offset) + u16::from(place.size)
}

/// The number of the first place that has the bit.
fn place_with(places: &[Place], bit: u16) -> Option<usize>
    ensures { result ≡ position (λ p. covers p bit) places.now }
{
    places.iter().position(|place| covers(place, bit))
}

/// The mark of a bit of a frame: `=` for the protected identifier, `.` for a free bit.
fn bit_mark(layout: &Layout, bit: u16) -> u8
    ensures { result ≡ bit_mark layout.now bit }
{
    if bit < first_bit(layout) {
        return b'=';
    }
    match place_with(layout.places.as_slice(), bit) {
        Some(number) => mark(number),
        None => b'.',
    }
}

/// How many bits of the data bytes neither the protected identifier nor a signal has.
fn free_bits(layout: &Layout) -> u16
    requires { IsTrue (is_good_layout layout.now) }
    ensures { result ≡ free_bits layout.now }
{
    let mut free = 8 * u16::from(layout.len) - first_bit(layout);
    for place in layout.places.as_slice() {
        free -= u16::from(place.size);
    }
    free
}

/// A mark after a space.
fn put_sign<W: Write>(out: &mut TextWriter<'_, W>, mark: u8)
    ensures { Grows W.contents out.old out.new (spaced_word (mark ∷ [])) }
{
    out.put_byte(b' ');
    out.put_byte(mark);
}

/// The line of an unconditional frame.
fn put_map_line<'a, W: Write>(out: &mut TextWriter<'_, W>, cluster: &'a Cluster, frame: u16)
    requires { frame < length cluster.now.frames }
    ensures { Grows W.contents out.old out.new (map_line cluster.now frame) }
{
    cluster.sound();
    let layout = cluster.layout(frame);
    put_line(
        out,
        b"map",
        &[
            Word::Number(u64::from(frame)),
            Word::Said(cluster.frame_name(frame)),
            Word::Identifier(cluster.frame_pid(frame) % 64),
            Word::Number(u64::from(layout.len)),
            Word::Number(u64::from(free_bits(layout))),
        ],
    );
}

/// The line of a data byte of a frame.
fn put_bits<W: Write>(out: &mut TextWriter<'_, W>, layout: &Layout, frame: u16, byte: u8)
    ensures { Grows W.contents out.old out.new (bits_line layout.now frame byte) }
{
    put_head(
        out,
        b"bits",
        &[
            Word::Number(u64::from(frame)),
            Word::Number(u64::from(byte)),
        ],
    );
    for bit in 0..8u16 {
        put_sign(out, bit_mark(layout, 8 * u16::from(byte) + (7 - bit)));
    }
    out.put_byte(b'\n');
}

fn put_bytes<W: Write>(out: &mut TextWriter<'_, W>, layout: &Layout, frame: u16)
    ensures { Grows W.contents out.old out.new
        (flat_map (bits_line layout.now frame) (numbers layout.now.len)) }
{
    for byte in 0..layout.len {
        put_bits(out, layout, frame, byte);
    }
}

/// The line of a signal of a frame by its number among the places.
fn put_mark<W: Write>(
    out: &mut TextWriter<'_, W>,
    cluster: &Cluster,
    frame: u16,
    number: usize,
    signal: u16,
    place: &Place,
)
    requires { signal < length cluster.now.signals }
    ensures { Grows W.contents out.old out.new
        (mark_line cluster.now frame number (signal, place.now)) }
{
    out.put(b"mark");
    put_spaced(out, Word::Number(u64::from(frame)));
    put_sign(out, mark(number));
    put_words(
        out,
        &[
            Word::Said(cluster.signal_name(signal)),
            Word::Number(u64::from(place.offset)),
            Word::Number(u64::from(place.size)),
        ],
    );
    out.put_byte(b'\n');
}

/// The lines of the signals of a frame, in the order of their places.
fn put_marks<W: Write>(out: &mut TextWriter<'_, W>, cluster: &Cluster, frame: u16)
    requires { frame < length cluster.now.frames }
    ensures { Grows W.contents out.old out.new
        (numbered_lines (mark_line cluster.now frame) 0 (places (frame_of cluster.now frame))) }
{
    for index in 0..place_count(cluster, frame) {
        let (signal, place) = place_at(cluster, frame, index);
        put_mark(out, cluster, frame, index, signal, &place);
    }
}

fn put_map<W: Write>(out: &mut TextWriter<'_, W>, cluster: &Cluster, frame: u16)
    requires { frame < length cluster.now.frames }
    ensures { Grows W.contents out.old out.new (map_lines cluster.now frame) }
{
    put_map_line(out, cluster, frame);
    put_bytes(out, cluster.layout(frame), frame);
    put_marks(out, cluster, frame);
}

fn put_maps<W: Write>(out: &mut TextWriter<'_, W>, cluster: &Cluster)
    ensures { Grows W.contents out.old out.new (maps cluster.now) }
{
    cluster.sound();
    for frame in 0..cluster.frames() as u16 {
        put_map(out, cluster, frame);
    }
}

/// Writes for each unconditional frame a line with its free bits, a line for each data byte with a mark
/// for each bit, and a line for each signal with its mark (ISO 17987-3, signal mapping). `.` marks a
/// free bit, and `=` a bit of the protected identifier in data byte 0 (LIN 2.2A, section 2.3.3.2).
///
/// It goes through a buffer of fixed size, and takes no memory. The writer isn't flushed.
///
/// # Errors
/// `WriteFailed` at the first error of the writer, an interrupted write too, and at the first write
/// of 0 bytes. What was written then is the beginning of the lines.
pub fn write_maps<W: Write>(cluster: &Cluster, writer: &mut W) -> Result<(), WriteFailed>
    ensures { WritesText (W.contents writer.old) (W.contents writer.new) result
        (maps cluster.now) }
{
    let mut buffer = TextBuffer::empty();
    let mut out = TextWriter::new(writer, &mut buffer);
    put_maps(&mut out, cluster);
    out.finish()
}
