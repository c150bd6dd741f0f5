//! Frames of signals: their bytes, made of values, and the values that the nodes read in them.

ghost use Rattle.std.specs.Prelude.{◌≡◌, ◌<◌, ◌≤◌, ℕ, [], length, map, true, All, Some};
ghost use Rattle.std.specs.Prelude.{is_some, slice_get, IsTrue, vec_capacity};
ghost use Rattle.lin_frame.specs.Bits.{fits_place};
ghost use Rattle.lin_frame.specs.Frame.{answer_of};
ghost use Rattle.lin_parts.specs.Cluster.{frame_of, signal_of};
ghost use Rattle.lin_parts.specs.Rules.{place_at};
ghost use Rattle.lin_core.specs.History.{good};
ghost use Rattle.lin_core.specs.kept.Slots.{slot_in, IsOpen};
ghost use Rattle.lin_core.specs.Signals.{packed_frame, value_in_frame, ArePointwise, HearsValues};
ghost use Rattle.lin_core.specs.kept.Signals.{HearsSlot};

use crate::response_frames::frame_by;
use crate::slot::OpenSlot;
use lin_frame::{Answer, SumKind, Value, answer, pack, unpack};
use lin_parts::Cluster;

/// The values of these signals, in the room that was made for them.
fn gather(room: &mut Vec<Value>, values: &[Value], signals: &[u16])
    requires empty { room.old.items ≡ [] }
    requires room { length signals.now ≤ vec_capacity room.old }
    requires known { All (λ s. s < length values.now) signals.now }
    ensures values { (g : ℕ → Value) → ArePointwise g values.now → room.new.items ≡ map g signals.now }
    ensures room { vec_capacity room.old ≤ vec_capacity room.new }
{
    for signal in signals {
        room.push(values[*signal as usize]).unwrap();
    }
}

/// The response with a frame under a header, as these values stand.
pub(crate) fn frame_answer(
    cluster: &Cluster,
    values: &[Value],
    room: &mut Vec<Value>,
    frame: u16,
    model: SumKind,
    header: u8,
) -> Answer
    requires frame { frame < length cluster.now.frames }
    requires count { length values.now ≡ length cluster.now.signals }
    requires fits { (s : ℕ) (v : Value) → slice_get values.now s ≡ Some v
        → IsTrue (fits_place (place_at 0 (signal_of cluster.now s)) v) }
    requires empty { room.old.items ≡ [] }
    requires room { length (frame_of cluster.now frame).signals ≤ vec_capacity room.old }
    ensures answer { (g : ℕ → Value) → ArePointwise g values.now
        → result ≡ answer_of model header (packed_frame cluster.now g frame) }
    ensures empty { room.new.items ≡ [] }
    ensures room { vec_capacity room.old ≤ vec_capacity room.new }
{
    cluster.sound();
    let layout = cluster.layout(frame);
    gather(room, values, cluster.frame_signals(frame));
    let bytes = pack(layout, room.as_slice());
    room.clear();
    answer(model, header, &bytes[..layout.len as usize])
}

/// The values that are heard, by the numbers of their signals, after a response with a frame of
/// signals was seen good: those of the frame are the ones in its data bytes, the others stay
/// (ISO 17987-3, signals).
pub fn hear_frame(heard: &mut Vec<Value>, cluster: &Cluster, frame: u16, answer: &Answer)
    requires frame { frame < length cluster.now.frames }
    requires count { length heard.old.items ≡ length cluster.now.signals }
    ensures count { length heard.new.items ≡ length heard.old.items }
    ensures heard { HearsValues (value_in_frame cluster.now frame answer.now) heard.old.items
        heard.new.items }
{
    cluster.sound();
    let data = answer.data();
    let layout = cluster.layout(frame);
    let signals = cluster.frame_signals(frame);
    let mut left = signals.len();
    while left > 0 {
        left -= 1;
        heard[signals[left] as usize] = unpack(layout, &data, left);
    }
}

/// The other nodes hear what a slot carries that was seen good.
pub(crate) fn hear_slot(heard: &mut Vec<Value>, cluster: &Cluster, slot: &OpenSlot)
    requires there { IsOpen cluster.now slot.now }
    requires count { length heard.old.items ≡ length cluster.now.signals }
    requires good { is_some (good (slot_in slot.now)) ≡ true }
    ensures count { length heard.new.items ≡ length heard.old.items }
    ensures heard { HearsSlot cluster.now slot.now heard.old.items heard.new.items }
{
    let Some(header) = slot.header else {
        return;
    };
    let Some(put) = slot.puts.as_slice().first() else {
        return;
    };
    if let Some(frame) = frame_by(cluster, slot.kind, header, put.node) {
        hear_frame(heard, cluster, frame, &put.answer);
    }
}
