//! What a cluster has, as lines.

ghost use Rattle.std.specs.Prelude.{◌≡◌, ◌<◌, length};
ghost use Rattle.lin_parts.specs.Cluster.{named_table, node_of, nodes, signal_of};
ghost use Rattle.lin_log.specs.Shown.{as_word};
ghost use Rattle.lin_text.specs.Written.{Grows, WritesText};
ghost use Rattle.lin_export.specs.Listing.{address_word, listing, node_line, numbered_lines};
ghost use Rattle.lin_export.specs.Listing.{signal_line, table_line};

use lin_log::{Word, put_line};
use lin_parts::Cluster;
use lin_text::{TextBuffer, TextWriter, WriteFailed};
use std::io::Write;

pub(crate) mod frame_lines;
mod loads;
mod maps;
mod signal_lines;
pub(crate) mod slot_times;
mod timing;
mod timings;

pub use frame_lines::write_frames;
pub use loads::table_loads;
pub use maps::write_maps;
pub use signal_lines::write_signals;
pub use slot_times::write_slots;
pub use timing::write_timing;
pub use timings::{FrameTiming, Latency, TableTiming, table_timings};

/// A diagnostic address, and `-` for none.
pub fn address_word(nad: Option<u8>) -> Word<'static>
    ensures { as_word result ≡ address_word nad }
{
    match nad {
        Some(nad) => Word::Number(u64::from(nad)),
        None => Word::Fixed("-"),
    }
}

fn put_node<W: Write>(out: &mut TextWriter<'_, W>, cluster: &Cluster, node: u8)
    requires { node < nodes cluster.now }
    ensures { Grows W.contents out.old out.new (node_line node (node_of cluster.now node)) }
{
    put_line(
        out,
        b"node",
        &[
            Word::Number(u64::from(node)),
            Word::Said(cluster.node_name(node)),
            address_word(cluster.nad(node)),
        ],
    );
}

fn put_nodes<W: Write>(out: &mut TextWriter<'_, W>, cluster: &Cluster)
    ensures { Grows W.contents out.old out.new
        (numbered_lines node_line 0 cluster.now.nodes) }
{
    for node in 0..cluster.nodes() as u8 {
        put_node(out, cluster, node);
    }
}

fn put_signal<W: Write>(out: &mut TextWriter<'_, W>, cluster: &Cluster, signal: u16)
    requires { signal < length cluster.now.signals }
    ensures { Grows W.contents out.old out.new
        (signal_line signal (signal_of cluster.now signal)) }
{
    put_line(
        out,
        b"signal",
        &[
            Word::Number(u64::from(signal)),
            Word::Said(cluster.signal_name(signal)),
        ],
    );
}

fn put_signals<W: Write>(out: &mut TextWriter<'_, W>, cluster: &Cluster)
    ensures { Grows W.contents out.old out.new
        (numbered_lines signal_line 0 cluster.now.signals) }
{
    for signal in 0..cluster.signals() as u16 {
        put_signal(out, cluster, signal);
    }
}

fn put_table<W: Write>(out: &mut TextWriter<'_, W>, cluster: &Cluster, table: u16)
    requires { table < length cluster.now.tables }
    ensures { Grows W.contents out.old out.new
        (table_line table (named_table cluster.now table)) }
{
    put_line(
        out,
        b"table",
        &[
            Word::Number(u64::from(table)),
            Word::Said(cluster.table_name(table)),
            Word::Number(cluster.entries(table) as u64),
        ],
    );
}

fn put_tables<W: Write>(out: &mut TextWriter<'_, W>, cluster: &Cluster)
    ensures { Grows W.contents out.old out.new
        (numbered_lines table_line 0 cluster.now.tables) }
{
    for table in 0..cluster.tables() as u16 {
        put_table(out, cluster, table);
    }
}

fn put_cluster<W: Write>(out: &mut TextWriter<'_, W>, cluster: &Cluster)
    ensures { Grows W.contents out.old out.new (listing cluster.now) }
{
    put_nodes(out, cluster);
    put_signals(out, cluster);
    put_tables(out, cluster);
}

/// Writes a line for each node with its name and its diagnostic address, for each signal with its
/// name, and for each schedule table with its name and the number of its entries. It takes no
/// memory.
///
/// # Errors
/// `WriteFailed`, where what was written is the beginning of the lines. A failed write is tried
/// once.
pub fn write_list<W: Write>(cluster: &Cluster, writer: &mut W) -> Result<(), WriteFailed>
    ensures { WritesText (W.contents writer.old) (W.contents writer.new) result
        (listing cluster.now) }
{
    let mut buffer = TextBuffer::empty();
    let mut out = TextWriter::new(writer, &mut buffer);
    put_cluster(&mut out, cluster);
    out.finish()
}
