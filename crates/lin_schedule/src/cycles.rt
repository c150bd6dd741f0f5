//! How long the rounds of schedule tables last.

ghost use Rattle.std.specs.Prelude.{◌≡◌, ◌<◌, ◌≤◌, length};
ghost use Rattle.lin_parts.specs.Cluster.{table_of};
ghost use Rattle.lin_parts.specs.Rules.{IsEntry};
ghost use Rattle.lin_schedule.specs.Schedule.{total};
ghost use Rattle.lin_schedule.specs.Cycles.{longest_cycle, resolving_time, slot_time};

use crate::awaited::can_collide;
use lin_parts::{Cluster, Entry, Line};

/// The time in microseconds of one round of a table without collisions (ISO 17987-3, schedule
/// tables).
pub fn cycle(cluster: &Cluster, table: u16) -> u64
    requires { table < length cluster.now.tables }
    ensures value { result ≡ total (table_of cluster.now table) }
    ensures few { result ≤ 1024000000000 }
{
    let mut time: u64 = 0;
    for entry in 0..cluster.entries(table) as u16 {
        time += u64::from(cluster.delay_us(table, entry));
    }
    time
}

/// The time in microseconds of one round of a table in which answers collide in each slot in which
/// they can, each with its resolving table (ISO 17987-3, event-triggered frames).
pub fn longest_cycle(cluster: &Cluster, table: u16) -> u64
    requires { table < length cluster.now.tables }
    ensures { result ≡ longest_cycle cluster.now table }
{
    let mut time: u64 = 0;
    for entry in 0..cluster.entries(table) as u16 {
        time += slot_time(cluster, cluster.line_at(table, entry));
    }
    time
}

// The time of a slot, with its resolving table where answers can collide.
fn slot_time(cluster: &Cluster, line: Line) -> u64
    requires there { IsEntry cluster.now line.entry }
    requires delay { line.delay_us ≤ 1000000000 }
    ensures value { result ≡ slot_time cluster.now line }
    ensures few { result ≤ 1025000000000 }
{
    u64::from(line.delay_us) + resolving_time(cluster, line.entry)
}

fn resolving_time(cluster: &Cluster, entry: Entry) -> u64
    requires { IsEntry cluster.now entry }
    ensures value { result ≡ resolving_time cluster.now entry }
    ensures few { result ≤ 1024000000000 }
{
    cluster.sound();
    match entry {
        Entry::Event(event) if can_collide(cluster, entry) => {
            cycle(cluster, cluster.event_table(event))
        }
        _ => 0,
    }
}
