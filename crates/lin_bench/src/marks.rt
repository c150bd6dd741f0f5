//! Marks, to which a bench goes back.

ghost use Rattle.std.specs.Prelude.{◌≡◌, List};
ghost use Rattle.lin_core.specs.declared.log.LogEntry.{LogEntry};
ghost use Rattle.lin_bench.specs.Marks.{IsMarkOf, state_at};
ghost use Rattle.lin_bench.specs.Played.{initial_bench};

use crate::rules::Rules;
use crate::taken::TakenEvents;
use std::alloc::{AllocError, Global};

/// A mark of a bench: how many entries its log had, the rules that were in force, and what
/// expectations had taken.
#[derive(Drop)]
pub struct Mark {
    pub(crate) entries: usize,
    pub(crate) rules: Rules,
    pub(crate) taken: TakenEvents,
}

impl Mark {
    /// Returns the mark of a bench on which no line was made.
    pub fn start(alloc: Global) -> Mark
        ensures mark { (log : List LogEntry) → IsMarkOf log result }
        ensures state { (log : List LogEntry) → state_at log result ≡ initial_bench }
    {
        Mark {
            entries: 0,
            rules: Rules::none(alloc),
            taken: TakenEvents::none(alloc),
        }
    }
}
