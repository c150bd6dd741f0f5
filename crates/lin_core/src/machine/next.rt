//! The slot that comes next.

ghost use Rattle.std.specs.Prelude.{◌≡◌};

use crate::due::{has_request, header_of};
use crate::machine::Core;

impl Core {
    ghost use Rattle.lin_core.specs.Core.{past_of};
    ghost use Rattle.lin_core.specs.Next.{next_slot};

    /// The schedule table, the entry and the header of the slot that an open would begin, were the
    /// cluster awake; none where a slot is open (ISO 17987-3, schedule tables).
    pub fn next_slot(&self) -> Option<(u16, u16, Option<u8>)>
        ensures { result ≡ next_slot self.now.cluster self.now.opening (past_of self.now) }
    {
        let state = &self.state;
        if state.slot.is_open() {
            return None;
        }
        let cluster = &self.setup.cluster;
        let place = state.walker.place();
        let waits = !state.hosts[0].queue.is_empty();
        let requests = has_request(waits, state.bus.asked);
        let due = state.walker.due(cluster, state.signals.pending.as_slice());
        Some((place.0, place.1, header_of(cluster, due, requests)))
    }
}
