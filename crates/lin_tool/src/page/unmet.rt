//! The judgements of a play that aren't met, as lines of a page.

ghost use Rattle.lin_export.specs.Putting.{PutsAll};
ghost use Rattle.lin_text.specs.Written.{WritesText};
ghost use Rattle.lin_tool.specs.Page.{shown_unmet_data, unmet_data_line};
ghost use Rattle.lin_tool.specs.Placing.{AtMoment};

use crate::formats::Shown;
use crate::page::field::put_field;
use crate::placing::{Moment, missed_line, within};
use lin_bench::{Judgement, is_unmet};
use lin_core::Core;
use lin_export::ExportFault;
use lin_log::put_number;
use lin_parts::Cluster;
use lin_text::{TextBuffer, TextWriter};
use std::alloc::{AllocError, Global};
use std::io::Write;

/// The line of a judgement, which was made at this moment of a log, where it isn't met. An error means
/// out of memory; nothing was put then.
fn put_unmet_line<W: Write>(
    out: &mut TextWriter<'_, W>,
    alloc: Global,
    shown: &Shown<'_, '_>,
    cluster: &Cluster,
    moment: Moment,
    judgement: &Judgement,
) -> Result<(), AllocError>
    ensures { AtMoment cluster.now judgement.now moment (λ log.
        PutsAll W.contents out.old out.new result
        (unmet_data_line shown.now.script shown.now.files.now cluster.now log judgement.now)) }
{
    if !is_unmet(&judgement.judged) {
        return Ok(());
    }
    let text = missed_line(alloc, shown.script, shown.files, cluster, moment, judgement)?;
    out.put_text("unmet");
    put_number(out, judgement.entries);
    out.put_byte(b' ');
    put_field(out, text.as_slice());
    out.put_byte(b'\n');
    Ok(())
}

fn put_unmet_lines<W: Write>(
    out: &mut TextWriter<'_, W>,
    alloc: Global,
    shown: &Shown<'_, '_>,
    core: &Core,
) -> Result<(), AllocError>
    ensures { PutsAll W.contents out.old out.new result (shown_unmet_data shown.now core.now) }
{
    let cluster = core.cluster();
    let log = core.log();
    let mut read = 0;
    let mut moment = Moment::new();
    for one in shown.judgements {
        let entries = within(log, one.entries);
        moment = moment.at(cluster, log, read, entries);
        read = entries;
        put_unmet_line(out, alloc, shown, cluster, moment, one)?;
    }
    Ok(())
}

/// Writes a line for each judgement that isn't met, in order.
///
/// # Errors
/// `OutOfMemory`, `WriteFailed`; what was written then is the beginning of the lines.
pub(crate) fn write_unmet_lines<W: Write>(
    alloc: Global,
    shown: &Shown<'_, '_>,
    core: &Core,
    writer: &mut W,
) -> Result<(), ExportFault>
    ensures { WritesText (W.contents writer.old) (W.contents writer.new) result
        (shown_unmet_data shown.now core.now) }
{
    let mut buffer = TextBuffer::empty();
    let mut out = TextWriter::new(writer, &mut buffer);
    let put = put_unmet_lines(&mut out, alloc, shown, core);
    out.finish()?;
    put?;
    Ok(())
}
