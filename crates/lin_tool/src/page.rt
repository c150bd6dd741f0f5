//! A run as a page for browsers: what its cluster has and the log itself, and scripts that draw
//! them (the crate's `page/` has these as files of their own).

ghost use Rattle.std.specs.Prelude.{◌++◌};
ghost use Rattle.lin_text.specs.Written.{WritesText};
ghost use Rattle.lin_tool.specs.Page.{shown_page, shown_page_data, summary};

pub(crate) mod data;
pub(crate) mod field;
mod meanings;
mod pieces;
pub(crate) mod summary;
mod unmet;

use crate::formats::Shown;
use crate::page::data::{write_cluster, write_data_head, write_log_head};
use crate::page::pieces::{HEAD, MIDDLE, TAIL};
use crate::page::summary::put_summary;
use crate::page::unmet::write_unmet_lines;
use lin_core::Core;
use lin_export::{ExportFault, write_first_slots};
use lin_log::write_log;
use lin_text::{TextBuffer, TextWriter, WriteFailed, write_out};
use std::alloc::Global;
use std::io::Write;

/// Writes the data that the page's scripts read: what the cluster has, the log itself, and the
/// expectations that aren't met.
///
/// # Errors
/// `OutOfMemory`, `WriteFailed`; what was written then is the beginning of it.
fn write_data<W: Write>(
    alloc: Global,
    shown: &Shown<'_, '_>,
    file: &[u8],
    core: &Core,
    writer: &mut W,
) -> Result<(), ExportFault>
    ensures { WritesText (W.contents writer.old) (W.contents writer.new) result
        (shown_page_data shown.now file.now core.now) }
{
    let cluster = core.cluster();
    let log = core.log();
    write_data_head(cluster, file, writer)?;
    write_cluster(alloc, cluster, writer)?;
    write_log_head(cluster, shown.coded, writer)?;
    write_log(log, writer)?;
    write_unmet_lines(alloc, shown, core, writer)
}

/// Writes what stands between the data and the first slots: the numbers that a reader without
/// scripts sees.
///
/// # Errors
/// `WriteFailed`; what was written then is the beginning of it.
fn write_middle<W: Write>(core: &Core, writer: &mut W) -> Result<(), WriteFailed>
    ensures { WritesText (W.contents writer.old) (W.contents writer.new) result
        (MIDDLE.now ++ summary core.now.cluster core.now.log) }
{
    let mut buffer = TextBuffer::empty();
    let mut out = TextWriter::new(writer, &mut buffer);
    out.put_text(MIDDLE);
    put_summary(&mut out, core);
    out.finish()
}

/// Writes the page of a run for browsers, one file that asks for nothing else: the name of its LDF
/// as it was given, what its cluster has, what its values mean where that is known, its log, and the
/// judgements of its play that aren't met, by their places where its script's name is given, which the
/// page's scripts draw; and for readers without scripts a summary and the first 200 slots.
///
/// It goes through a buffer of fixed size, and takes memory for what is kept of one slot, for the
/// lines of the cluster, and for the longest line of a judgement. The writer isn't flushed.
///
/// # Errors
/// What was written then is the beginning of the page.
/// - `OutOfMemory`;
/// - `WriteFailed` at the first error of the writer, an interrupted write too, and at the first
///   write of 0 bytes.
pub(crate) fn write_page<W: Write>(
    alloc: Global,
    shown: &Shown<'_, '_>,
    file: &[u8],
    core: &Core,
    writer: &mut W,
) -> Result<(), ExportFault>
    ensures { WritesText (W.contents writer.old) (W.contents writer.new) result
        (shown_page shown.now file.now core.now) }
{
    write_out(writer, HEAD.as_bytes())?;
    write_data(alloc, shown, file, core, writer)?;
    write_middle(core, writer)?;
    write_first_slots(alloc, core.cluster(), core.log(), writer)?;
    write_out(writer, TAIL.as_bytes())?;
    Ok(())
}
