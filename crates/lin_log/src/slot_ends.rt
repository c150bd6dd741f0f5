//! The entries of a log that finished a slot.

ghost use Rattle.std.specs.Prelude.{◌≡◌};
ghost use Rattle.lin_core.specs.History.{did, is_finish};
ghost use Rattle.lin_log.specs.LastFinish.{IsLastFinish};

use lin_core::{Log, LogEntry, Reply, Step};

/// Whether an entry finished a slot.
pub fn finishes(entry: &LogEntry) -> bool
    ensures { result ≡ did is_finish entry.now }
{
    match (&entry.step, &entry.reply) {
        (Step::Finish, Reply::Done(_)) => true,
        _ => false,
    }
}

/// How many entries precede the last one that finished a slot.
pub fn last_finish(log: &Log) -> Option<usize>
    ensures { IsLastFinish log.now.entries result }
{
    let mut left = log.len();
    while left > 0 {
        left -= 1;
        if finishes(log.entry(left)) {
            return Some(left);
        }
    }
    None
}
