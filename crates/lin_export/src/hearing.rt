//! The values of signals that the nodes hear, entry by entry (ISO 17987-3, signals).

ghost use Rattle.std.specs.Prelude.{◌≡◌, ℕ, length};
ghost use Rattle.lin_frame.specs.declared.value.Value.{Value};
ghost use Rattle.lin_core.specs.Signals.{ArePointwise};
ghost use Rattle.lin_export.specs.Open.{tracked_slot};
ghost use Rattle.lin_export.specs.Shown.{value_after_slot};

use crate::tracked_slot::{SeenSlot, TrackedSlot};
use lin_core::hear_frame;
use lin_frame::Value;
use lin_parts::Cluster;

/// The nodes hear what a slot carries, where it is seen good.
pub(crate) fn hear_slot(heard: &mut Vec<Value>, cluster: &Cluster, slot: &TrackedSlot)
    requires { length heard.old.items ≡ length cluster.now.signals }
    ensures count { length heard.new.items ≡ length heard.old.items }
    ensures heard { (g : ℕ → Value) → ArePointwise g heard.old.items
        → ArePointwise (value_after_slot cluster.now (tracked_slot slot.now) g) heard.new.items }
{
    let SeenSlot::Good(answer) = slot.look() else {
        return;
    };
    let Some(frame) = slot.carried(cluster) else {
        return;
    };
    hear_frame(heard, cluster, frame, answer);
}
