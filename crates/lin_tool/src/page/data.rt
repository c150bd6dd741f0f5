//! The lines that a page has beside the log: what its script needs to read it.

ghost use Rattle.std.specs.Prelude.{◌≡◌, ◌<◌, flat_map, length, IfOk};
ghost use Rattle.lin_export.specs.WhereTold.{given_coding};
ghost use Rattle.lin_frame.specs.Words.{numbers};
ghost use Rattle.lin_text.specs.Written.{Grows, WritesText};
ghost use Rattle.lin_tool.specs.Page.{alone_line, cluster_lines, data_head, log_head};
ghost use Rattle.lin_tool.specs.PageFields.{guarded_text};

use crate::page::field::{put_field, put_guarded};
use crate::page::meanings::put_coded;
use lin_export::{ExportFault, write_frames, write_list, write_slots};
use lin_log::{put_number, put_value};
use lin_parts::Cluster;
use lin_text::{TextBuffer, TextWriter, WriteFailed};
use lin_values::Coded;
use std::alloc::{AllocError, Global};
use std::io::Write;

/// Writes what stands before the listing of the cluster.
///
/// # Errors
/// `WriteFailed`; what was written then is the beginning of it.
pub(crate) fn write_data_head<W: Write>(
    cluster: &Cluster,
    file: &[u8],
    writer: &mut W,
) -> Result<(), WriteFailed>
    ensures { WritesText (W.contents writer.old) (W.contents writer.new) result
        (data_head cluster.now file.now) }
{
    let mut buffer = TextBuffer::empty();
    let mut out = TextWriter::new(writer, &mut buffer);
    out.put_text("page 1\nfile ");
    put_field(&mut out, file);
    out.put_text("\nspeed ");
    out.put_number(cluster.speed());
    out.put_byte(b'\n');
    out.finish()
}

/// Writes what a cluster has.
///
/// # Errors
/// `WriteFailed`; what was written then is the beginning of it.
fn write_lines<W: Write>(cluster: &Cluster, writer: &mut W) -> Result<(), WriteFailed>
    ensures { WritesText (W.contents writer.old) (W.contents writer.new) result
        (cluster_lines cluster.now) }
{
    write_list(cluster, writer)?;
    write_frames(cluster, writer)?;
    write_slots(cluster, writer)
}

/// What a cluster has. An error means out of memory.
pub(crate) fn lines_of(alloc: Global, cluster: &Cluster) -> Result<Vec<u8>, AllocError>
    ensures { IfOk result (λ v. v.items ≡ cluster_lines cluster.now) }
{
    let mut text = Vec::new(alloc);
    match write_lines(cluster, &mut text) {
        Ok(()) => Ok(text),
        Err(_) => Err(AllocError),
    }
}

/// Writes lines of a cluster, without `<`.
///
/// # Errors
/// `WriteFailed`; what was written then is the beginning of them.
fn write_guarded<W: Write>(lines: &[u8], writer: &mut W) -> Result<(), WriteFailed>
    ensures { WritesText (W.contents writer.old) (W.contents writer.new) result
        (guarded_text lines.now) }
{
    let mut buffer = TextBuffer::empty();
    let mut out = TextWriter::new(writer, &mut buffer);
    put_guarded(&mut out, lines);
    out.finish()
}

/// Writes what a cluster has, without `<`.
///
/// # Errors
/// `OutOfMemory`, where nothing was written; `WriteFailed`; what was written then is the beginning
/// of it.
pub(crate) fn write_cluster<W: Write>(
    alloc: Global,
    cluster: &Cluster,
    writer: &mut W,
) -> Result<(), ExportFault>
    ensures { WritesText (W.contents writer.old) (W.contents writer.new) result
        (guarded_text (cluster_lines cluster.now)) }
{
    let lines = lines_of(alloc, cluster)?;
    write_guarded(lines.as_slice(), writer)?;
    Ok(())
}

/// The line of a signal, where no frame has it.
fn put_alone<W: Write>(out: &mut TextWriter<'_, W>, cluster: &Cluster, signal: u16)
    requires { signal < length cluster.now.signals }
    ensures { Grows W.contents out.old out.new (alone_line cluster.now signal) }
{
    if cluster.frames_with(signal).is_empty() {
        out.put_text("alone");
        put_number(out, signal);
        put_value(out, cluster.initial(signal));
        out.put_byte(b'\n');
    }
}

fn put_all_alone<W: Write>(out: &mut TextWriter<'_, W>, cluster: &Cluster)
    ensures { Grows W.contents out.old out.new
        (flat_map (alone_line cluster.now) (numbers (length cluster.now.signals))) }
{
    for signal in 0..cluster.signals() as u16 {
        put_alone(out, cluster, signal);
    }
}

/// Writes what stands between the listing of the cluster and the log.
///
/// # Errors
/// `WriteFailed`; what was written then is the beginning of it.
pub(crate) fn write_log_head<W: Write>(
    cluster: &Cluster,
    coded: Option<&Coded>,
    writer: &mut W,
) -> Result<(), WriteFailed>
    ensures { WritesText (W.contents writer.old) (W.contents writer.new) result (log_head cluster.now
        (given_coding coded.entry)) }
{
    let mut buffer = TextBuffer::empty();
    let mut out = TextWriter::new(writer, &mut buffer);
    put_all_alone(&mut out, cluster);
    put_coded(&mut out, cluster, coded);
    out.put_text("log\n");
    out.finish()
}
