//! What a line of slots keeps from one check of its log to the next.

ghost use Rattle.std.specs.Prelude.{List};
ghost use Rattle.lin_parts.specs.declared.parts.Parts.{Parts};
ghost use Rattle.lin_core.specs.declared.log.LogEntry.{LogEntry as Entry};
ghost use Rattle.lin_bench.specs.Watches.{IsWatch};

use crate::cycles::CycleState;
use crate::left_events::EventCount;

/// What the checks of a line have read of the log, so that each continues where the one before ended.
#[derive(Drop)]
pub(crate) struct Watch {
    /// How many messages there are, if a check counted them.
    pub(crate) count: Option<EventCount>,
    /// The cycle of a frame, if a check was of one.
    pub(crate) cycle: Option<CycleState>,
}

impl Watch {
    /// Nothing is read.
    pub(crate) fn new() -> Watch
        ensures { (c : Parts) → (es : List Entry) → IsWatch c es result }
    {
        Watch {
            count: None,
            cycle: None,
        }
    }
}
