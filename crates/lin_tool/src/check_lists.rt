//! Which lists of a cluster are written, and in which order.

ghost use Rattle.std.specs.Prelude.{option_map};
ghost use Rattle.lin_text.specs.Written.{WritesText};
ghost use Rattle.lin_tool.specs.Listing.{wanted_listing, listed_frames, listed_maps, listed_signals, listed_slots};

use lin_export::{write_frames, write_list, write_maps, write_signals, write_slots};
use lin_parts::Cluster;
use lin_text::WriteFailed;
use lin_values::Coded;
use std::io::Write;

/// Which lists of a cluster are wanted after that of its nodes, signals and schedule tables.
#[derive(Clone, Copy, Debug, Drop, PartialEq)]
pub struct Lists {
    /// Its frames, with the places of their signals.
    pub frames: bool,
    /// Its frames, with the signal of each bit.
    pub maps: bool,
    /// The slots of its schedule tables, with the time that they need, and the load of each table.
    pub slots: bool,
    /// Its signals, with what their values mean.
    pub signals: bool,
    /// The timing of its schedule tables, for messages with this many data bytes, at most 4,095.
    pub timing: Option<u16>,
}

/// Writes the lines of frames and their places, where they are wanted.
fn write_wanted_frames<W: Write>(
    cluster: &Cluster,
    is_wanted: bool,
    writer: &mut W,
) -> Result<(), WriteFailed>
    ensures { WritesText (W.contents writer.old) (W.contents writer.new) result
        (listed_frames cluster.now is_wanted) }
{
    if is_wanted {
        write_frames(cluster, writer)
    } else {
        Ok(())
    }
}

/// Writes the lines of frames and the signals of their bits, if they are wanted.
fn write_wanted_maps<W: Write>(
    cluster: &Cluster,
    is_wanted: bool,
    writer: &mut W,
) -> Result<(), WriteFailed>
    ensures { WritesText (W.contents writer.old) (W.contents writer.new) result
        (listed_maps cluster.now is_wanted) }
{
    if is_wanted {
        write_maps(cluster, writer)
    } else {
        Ok(())
    }
}

/// Writes the lines of slots and loads, where they are wanted.
fn write_wanted_slots<W: Write>(
    cluster: &Cluster,
    is_wanted: bool,
    writer: &mut W,
) -> Result<(), WriteFailed>
    ensures { WritesText (W.contents writer.old) (W.contents writer.new) result
        (listed_slots cluster.now is_wanted) }
{
    if is_wanted {
        write_slots(cluster, writer)
    } else {
        Ok(())
    }
}

/// Writes the lines of what the values of signals mean, where they are wanted and that is known.
fn write_wanted_signals<W: Write>(
    cluster: &Cluster,
    coded: Option<&Coded>,
    is_wanted: bool,
    writer: &mut W,
) -> Result<(), WriteFailed>
    ensures { WritesText (W.contents writer.old) (W.contents writer.new) result
        (listed_signals cluster.now (option_map (λ k. k.now) coded.entry) is_wanted) }
{
    if !is_wanted {
        return Ok(());
    }
    match coded {
        Some(coded) => write_signals(cluster, coded, writer),
        None => Ok(()),
    }
}

/// Writes the list of `write_list`, and after it those that are wanted, except the timing: frames, the maps
/// of their bits, slots, and signals, if what their values mean is known. It takes no memory.
///
/// # Errors
/// `WriteFailed`, where what was written is the beginning of the lines. A failed write is tried
/// once.
pub fn write_lists<W: Write>(
    cluster: &Cluster,
    coded: Option<&Coded>,
    lists: Lists,
    writer: &mut W,
) -> Result<(), WriteFailed>
    ensures { WritesText (W.contents writer.old) (W.contents writer.new) result
        (wanted_listing cluster.now (option_map (λ k. k.now) coded.entry) lists) }
{
    write_list(cluster, writer)?;
    write_wanted_frames(cluster, lists.frames, writer)?;
    write_wanted_maps(cluster, lists.maps, writer)?;
    write_wanted_slots(cluster, lists.slots, writer)?;
    write_wanted_signals(cluster, coded, lists.signals, writer)
}
