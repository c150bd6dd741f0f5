//! The schedule tables of a cluster in an object.

ghost use Rattle.std.specs.Prelude.{◌≡◌, ◌<◌, length, option_map, slice_get};
ghost use Rattle.lin_cluster.specs.SlotTimes.{slot_bytes};
ghost use Rattle.lin_parts.specs.Cluster.{table_of};
ghost use Rattle.lin_text.specs.Written.{Grows};
ghost use Rattle.lin_export.specs.ClusterObject.{entries_member, entry_declared, entry_object, table_object};
ghost use Rattle.lin_export.specs.Csv.{after_comma};

use super::positions::put_place;
use crate::cluster_lists::slot_times::{bits_of, delay_of, permille, put_slack, slot_bytes};
use crate::json::{
    Member, put_first, put_key, put_list, put_members, put_numbered_first, put_separator,
};
use lin_cluster::needed_us;
use lin_parts::Cluster;
use lin_parts::description::{Description, Name};
use lin_text::TextWriter;
use std::io::Write;

/// The name of an entry of a table in the LDF.
fn entry_declared(description: &Description, table: u16, number: u16) -> Option<&Name>
    ensures { option_map (λ n. n.now) result
        ≡ entry_declared description.now table number }
{
    let table = description.tables().get(usize::from(table))?;
    match table.entries.as_slice().get(usize::from(number)) {
        Some(entry) => Some(&entry.name),
        None => None,
    }
}

fn put_entry<'a, W: Write>(
    out: &mut TextWriter<'_, W>,
    cluster: &'a Cluster,
    description: &'a Description,
    table: u16,
    number: u16,
)
    requires table { table < length cluster.now.tables }
    requires entry { number < length (table_of cluster.now table) }
    ensures { Grows W.contents out.old out.new
        (entry_object cluster.now description.now table number) }
{
    cluster.sound();
    let entry = cluster.entry(table, number);
    let bytes = slot_bytes(cluster, entry);
    let delay = u64::from(cluster.delay_us(table, number));
    let needed = needed_us(cluster.jitter_us(), cluster.speed(), u32::from(bytes));
    put_first(out, "name", cluster.entry_name(entry));
    put_members(
        out,
        &[
            Member::Text("kind", entry.kind()),
            Member::Number("bytes", u64::from(bytes)),
            Member::Number("delay_us", delay),
            Member::Number("needed_us", needed),
        ],
    );
    put_key(out, "slack_us");
    put_slack(out, delay, needed);
    put_place(out, entry_declared(description, table, number));
    out.put_byte(b'}');
}

/// The entries of a table.
fn put_entries<W: Write>(
    out: &mut TextWriter<'_, W>,
    cluster: &Cluster,
    description: &Description,
    table: u16,
)
    requires { table < length cluster.now.tables }
    ensures { Grows W.contents out.old out.new
        (after_comma (entries_member cluster.now description.now table)) }
{
    put_list(out, "entries");
    for entry in 0..cluster.entries(table) {
        put_separator(out, entry);
        put_entry(out, cluster, description, table, entry as u16);
    }
    out.put_byte(b']');
}

/// The name of a table in the LDF.
fn table_declared(description: &Description, table: u16) -> Option<&Name>
    ensures { option_map (λ n. n.now) result
        ≡ option_map (λ t. t.name) (slice_get description.now.tables table) }
{
    match description.tables().get(usize::from(table)) {
        Some(table) => Some(&table.name),
        None => None,
    }
}

pub(super) fn put_table<'a, W: Write>(
    out: &mut TextWriter<'_, W>,
    cluster: &'a Cluster,
    description: &'a Description,
    table: u16,
)
    requires { table < length cluster.now.tables }
    ensures { Grows W.contents out.old out.new
        (table_object cluster.now description.now table) }
{
    let delay = delay_of(cluster, table);
    let bits = bits_of(cluster, table);
    put_numbered_first(out, u64::from(table));
    put_members(
        out,
        &[
            Member::Text("name", cluster.table_name(table)),
            Member::Number("cycle_us", delay),
            Member::Number("load", permille(bits, cluster.speed(), delay)),
        ],
    );
    put_place(out, table_declared(description, table));
    put_entries(out, cluster, description, table);
    out.put_byte(b'}');
}
