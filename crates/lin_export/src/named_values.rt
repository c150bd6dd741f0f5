//! What values mean, as lines of a log with names.

ghost use Rattle.std.specs.Prelude.{◌<◌, length, option_map};
ghost use Rattle.lin_text.specs.Written.{Grows};
ghost use Rattle.lin_export.specs.Named.{frame_values, lines_with_names, seen_values, slot_values};
ghost use Rattle.lin_export.specs.Named.{value_lines, written_values};
ghost use Rattle.lin_export.specs.NamedWords.{event_meanings, write_meanings};
ghost use Rattle.lin_export.specs.Open.{tracked_slot};
ghost use Rattle.lin_export.specs.WhereTold.{given_coding};

use crate::frame_places::{place_count, value_at};
use crate::line_meanings::put_line_meaning;
use crate::tracked_slot::TrackedSlot;
use lin_core::{Event, Seen, Step};
use lin_frame::{Answer, Value};
use lin_log::put_seen;
use lin_parts::Cluster;
use lin_text::TextWriter;
use lin_values::Coded;
use std::io::Write;

/// The line of what a value of a signal means, where it means something.
fn put_value<W: Write>(
    out: &mut TextWriter<'_, W>,
    cluster: &Cluster,
    coded: &Coded,
    signal: u16,
    value: &Value,
)
    requires { signal < length cluster.now.signals }
    ensures { Grows W.contents out.old out.new
        (lines_with_names cluster.now (value_lines cluster.now coded.now signal value.now)) }
{
    if let Some(meaning) = coded.meaning(signal, value) {
        out.put(b"> value ");
        put_seen(out, cluster.signal_name(signal));
        out.put_byte(b' ');
        put_line_meaning(out, &meaning);
        out.put_byte(b'\n');
    }
}

/// What the signals of a frame mean.
fn put_frame_values<W: Write>(
    out: &mut TextWriter<'_, W>,
    cluster: &Cluster,
    coded: &Coded,
    frame: u16,
    answer: &Answer,
)
    requires { frame < length cluster.now.frames }
    ensures { Grows W.contents out.old out.new
        (lines_with_names cluster.now (frame_values cluster.now coded.now answer.now frame)) }
{
    for place in 0..place_count(cluster, frame) {
        let (signal, value) = value_at(cluster, frame, answer, place);
        put_value(out, cluster, coded, signal, &value);
    }
}

/// What the signals of a slot mean that was seen good.
fn put_slot_values<W: Write>(
    out: &mut TextWriter<'_, W>,
    cluster: &Cluster,
    coded: &Coded,
    slot: &TrackedSlot,
    answer: &Answer,
)
    ensures { Grows W.contents out.old out.new (lines_with_names cluster.now
        (slot_values cluster.now coded.now answer.now (tracked_slot slot.now))) }
{
    if let Some(frame) = slot.frame(cluster) {
        put_frame_values(out, cluster, coded, frame, answer);
    }
}

/// What values mean that an event tells of the open slot.
fn put_event_values<W: Write>(
    out: &mut TextWriter<'_, W>,
    cluster: &Cluster,
    coded: &Coded,
    slot: &Option<TrackedSlot>,
    event: &Event,
)
    ensures { Grows W.contents out.old out.new (lines_with_names cluster.now
        (seen_values cluster.now coded.now (option_map tracked_slot slot.now) event.now)) }
{
    if let Event::Seen(Seen::Good(answer)) = event
        && let Some(slot) = slot
    {
        put_slot_values(out, cluster, coded, slot, answer);
    }
}

/// The same, where what values mean is told.
pub(crate) fn put_told<W: Write>(
    out: &mut TextWriter<'_, W>,
    cluster: &Cluster,
    coded: Option<&Coded>,
    slot: &Option<TrackedSlot>,
    event: &Event,
)
    ensures { Grows W.contents out.old out.new (event_meanings cluster.now
        (given_coding coded.entry) (option_map tracked_slot slot.now) event.now) }
{
    if let Some(coded) = coded {
        put_event_values(out, cluster, coded, slot, event);
    }
}

/// What the value of a write means.
fn put_written_values<W: Write>(
    out: &mut TextWriter<'_, W>,
    cluster: &Cluster,
    coded: &Coded,
    step: &Step,
)
    ensures { Grows W.contents out.old out.new
        (lines_with_names cluster.now (written_values cluster.now coded.now step.now)) }
{
    if let Step::Write {
        by: _,
        signal,
        value,
    } = step
        && usize::from(*signal) < cluster.signals()
    {
        put_value(out, cluster, coded, *signal, value);
    }
}

/// The same, where what values mean is told.
pub(crate) fn put_written<W: Write>(
    out: &mut TextWriter<'_, W>,
    cluster: &Cluster,
    coded: Option<&Coded>,
    step: &Step,
)
    ensures { Grows W.contents out.old out.new
        (write_meanings cluster.now (given_coding coded.entry) step.now) }
{
    if let Some(coded) = coded {
        put_written_values(out, cluster, coded, step);
    }
}
