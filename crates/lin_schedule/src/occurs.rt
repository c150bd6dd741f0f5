//! How often frames occur in schedule tables.

ghost use Rattle.std.specs.Prelude.{◌≡◌, ◌<◌, ◌≤◌, ◌==◌, count_by, length};
ghost use Rattle.std.specs.List.{list_any};
ghost use Rattle.lin_parts.specs.Cluster.{table_of};
ghost use Rattle.lin_parts.specs.Rules.{IsEntry};
ghost use Rattle.lin_schedule.specs.Occurs.{is_own, is_shared, own_entries, shared_entries};

use crate::awaited::is_among;
use lin_parts::{Cluster, Entry};

/// How many entries of a table are a frame's own (ISO 17987-3, unconditional frames).
pub fn own_entries(cluster: &Cluster, table: u16, frame: u16) -> u16
    requires { table < length cluster.now.tables }
    ensures { result ≡ own_entries cluster.now table frame }
{
    let mut own: u16 = 0;
    for entry in 0..cluster.entries(table) as u16 {
        if is_own(cluster.line_at(table, entry).entry, frame) {
            own += 1;
        }
    }
    own
}

/// How many entries of a table are those of sporadic or event-triggered frames that list a frame
/// (ISO 17987-3, sporadic and event-triggered frames).
pub fn shared_entries(cluster: &Cluster, table: u16, frame: u16) -> u16
    requires { table < length cluster.now.tables }
    ensures { result ≡ shared_entries cluster.now table frame }
{
    let mut shared: u16 = 0;
    for entry in 0..cluster.entries(table) as u16 {
        if is_shared(cluster, cluster.line_at(table, entry).entry, frame) {
            shared += 1;
        }
    }
    shared
}

pub(crate) fn is_own(entry: Entry, frame: u16) -> bool
    ensures { result ≡ is_own frame entry }
{
    match entry {
        Entry::Frame(own) => own == frame,
        _ => false,
    }
}

fn is_shared(cluster: &Cluster, entry: Entry, frame: u16) -> bool
    requires { IsEntry cluster.now entry }
    ensures { result ≡ is_shared cluster.now frame entry }
{
    match entry {
        Entry::Sporadic(sporadic) => is_among(cluster.sporadic(sporadic), frame),
        Entry::Event(event) => is_among(cluster.event_frames(event), frame),
        _ => false,
    }
}
