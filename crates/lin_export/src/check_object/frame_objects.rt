//! The frames of a cluster in an object.

ghost use Rattle.std.specs.Prelude.{◌≡◌, ◌<◌, length, option_map, slice_get};
ghost use Rattle.lin_text.specs.Written.{Grows};
ghost use Rattle.lin_export.specs.ClusterObject.{event_object, frame_object, frames_member, place_object};
ghost use Rattle.lin_export.specs.ClusterObject.{placed_declared, places_member, sporadic_object};
ghost use Rattle.lin_export.specs.Csv.{after_comma};

use super::positions::put_place;
use crate::cluster_lists::frame_lines::model_word;
use crate::frame_places::{place_at, place_count};
use crate::json::{
    Member, put_first, put_list, put_member, put_members, put_numbered_first, put_quoted,
    put_separator,
};
use lin_frame::Place;
use lin_parts::Cluster;
use lin_parts::description::{Description, Name};
use lin_text::TextWriter;
use std::io::Write;

/// The name of a signal of a frame in the LDF, by its number among the signals of the frame.
fn placed_declared(description: &Description, frame: u16, number: usize) -> Option<&Name>
    ensures { option_map (λ n. n.now) result
        ≡ placed_declared description.now frame number }
{
    let frame = description.frames().get(usize::from(frame))?;
    match frame.placed.as_slice().get(number) {
        Some(placed) => Some(&placed.signal),
        None => None,
    }
}

/// A signal at its place in a frame, and where the LDF names it.
fn put_placed<W: Write>(
    out: &mut TextWriter<'_, W>,
    cluster: &Cluster,
    signal: u16,
    place: &Place,
    declared: Option<&Name>,
)
    requires { signal < length cluster.now.signals }
    ensures { Grows W.contents out.old out.new
        (place_object cluster.now (signal, place.now) (option_map (λ n. n.now) declared.entry)) }
{
    put_first(out, "signal", cluster.signal_name(signal));
    put_members(
        out,
        &[
            Member::Number("offset", u64::from(place.offset)),
            Member::Number("bits", u64::from(place.size)),
        ],
    );
    put_place(out, declared);
    out.put_byte(b'}');
}

/// The signals of a frame, in the order of their places.
fn put_places<W: Write>(
    out: &mut TextWriter<'_, W>,
    cluster: &Cluster,
    description: &Description,
    frame: u16,
)
    requires { frame < length cluster.now.frames }
    ensures { Grows W.contents out.old out.new
        (after_comma (places_member cluster.now description.now frame)) }
{
    put_list(out, "places");
    for index in 0..place_count(cluster, frame) {
        let (signal, place) = place_at(cluster, frame, index);
        let declared = placed_declared(description, frame, index);
        put_separator(out, index);
        put_placed(out, cluster, signal, &place, declared);
    }
    out.put_byte(b']');
}

/// The name of an unconditional frame in the LDF.
fn frame_declared(description: &Description, frame: u16) -> Option<&Name>
    ensures { option_map (λ n. n.now) result
        ≡ option_map (λ f. f.name) (slice_get description.now.frames frame) }
{
    match description.frames().get(usize::from(frame)) {
        Some(frame) => Some(&frame.name),
        None => None,
    }
}

pub(super) fn put_frame<'a, W: Write>(
    out: &mut TextWriter<'_, W>,
    cluster: &'a Cluster,
    description: &'a Description,
    frame: u16,
)
    requires { frame < length cluster.now.frames }
    ensures { Grows W.contents out.old out.new
        (frame_object cluster.now description.now frame) }
{
    cluster.sound();
    let pid = cluster.frame_pid(frame);
    put_numbered_first(out, u64::from(frame));
    put_members(
        out,
        &[
            Member::Text("name", cluster.frame_name(frame)),
            Member::Number("id", u64::from(pid % 64)),
            Member::Number("pid", u64::from(pid)),
            Member::Number("bytes", u64::from(cluster.layout(frame).len)),
            Member::Text(
                "publisher",
                cluster.node_name(cluster.frame_publisher(frame)),
            ),
            Member::Text("model", model_word(cluster.model(frame))),
        ],
    );
    put_places(out, cluster, description, frame);
    put_place(out, frame_declared(description, frame));
    out.put_byte(b'}');
}

/// The names of the frames that a sporadic or an event-triggered frame lists.
fn put_members_of<W: Write>(out: &mut TextWriter<'_, W>, cluster: &Cluster, frames: &[u16])
    ensures { Grows W.contents out.old out.new (after_comma (frames_member cluster.now frames.now)) }
{
    put_list(out, "frames");
    for place in 0..frames.len() {
        put_separator(out, place);
        put_quoted(out, cluster.frame_name(frames[place]));
    }
    out.put_byte(b']');
}

/// The name of a sporadic frame in the LDF.
fn sporadic_declared(description: &Description, sporadic: u16) -> Option<&Name>
    ensures { option_map (λ n. n.now) result
        ≡ option_map (λ s. s.name) (slice_get description.now.sporadic sporadic) }
{
    match description.sporadic().get(usize::from(sporadic)) {
        Some(sporadic) => Some(&sporadic.name),
        None => None,
    }
}

pub(super) fn put_sporadic<'a, W: Write>(
    out: &mut TextWriter<'_, W>,
    cluster: &'a Cluster,
    description: &'a Description,
    sporadic: u16,
)
    requires { sporadic < length cluster.now.sporadic }
    ensures { Grows W.contents out.old out.new
        (sporadic_object cluster.now description.now sporadic) }
{
    put_numbered_first(out, u64::from(sporadic));
    put_member(out, Member::Text("name", cluster.sporadic_name(sporadic)));
    put_members_of(out, cluster, cluster.sporadic(sporadic));
    put_place(out, sporadic_declared(description, sporadic));
    out.put_byte(b'}');
}

/// The name of an event-triggered frame in the LDF.
fn event_declared(description: &Description, event: u16) -> Option<&Name>
    ensures { option_map (λ n. n.now) result
        ≡ option_map (λ e. e.name) (slice_get description.now.events event) }
{
    match description.events().get(usize::from(event)) {
        Some(event) => Some(&event.name),
        None => None,
    }
}

pub(super) fn put_event<'a, W: Write>(
    out: &mut TextWriter<'_, W>,
    cluster: &'a Cluster,
    description: &'a Description,
    event: u16,
)
    requires { event < length cluster.now.events }
    ensures { Grows W.contents out.old out.new
        (event_object cluster.now description.now event) }
{
    cluster.sound();
    let pid = cluster.event_pid(event);
    put_numbered_first(out, u64::from(event));
    put_members(
        out,
        &[
            Member::Text("name", cluster.event_name(event)),
            Member::Number("id", u64::from(pid % 64)),
            Member::Number("pid", u64::from(pid)),
            Member::Text("table", cluster.table_name(cluster.event_table(event))),
        ],
    );
    put_members_of(out, cluster, cluster.event_frames(event));
    put_place(out, event_declared(description, event));
    out.put_byte(b'}');
}
