//! The rows of a campaign as lines of text.

ghost use Rattle.std.specs.Prelude.{◌≡◌, ◌==◌, if◌then◌else◌, codes, length};
ghost use Rattle.lin_text.specs.Written.{Grows};
ghost use Rattle.lin_tool.specs.campaign.Shown.{row_data};
ghost use Rattle.lin_tool.specs.campaign.Text.{known_losses, known_refusals, loss_text, losses_text};
ghost use Rattle.lin_tool.specs.campaign.Text.{missed_text, row_name, single_text};
ghost use Rattle.lin_tool.specs.campaign.Text.{refusal_text, refusals_text, rest_text, row_text};
ghost use Rattle.lin_tool.specs.campaign.Text.{failed_lines, outcome_text};

use crate::campaign::fault_names::{put_faults, put_node_name};
use crate::campaign::finished_slots::{slot_name, table_name};
use crate::campaign::row::{LostMessage, RefusedStep, Row, RowVerdict, has_lost, has_refused};
use crate::campaign::shown::ShownRow;
use crate::campaign::singles::Single;
use lin_core::Listed;
use lin_parts::Cluster;
use lin_text::TextWriter;
use std::io::Write;

/// The table, the entry and the frame of the first slot of a fault, if a row has exactly one.
fn put_place<W: Write>(out: &mut TextWriter<'_, W>, cluster: &Cluster, single: Option<Single>)
    ensures { Grows W.contents out.old out.new (single_text cluster.now single) }
{
    let Some(single) = single else {
        return;
    };
    out.put_text(" (");
    out.put(table_name(cluster, single.table));
    out.put_numbered(b' ', u64::from(single.entry));
    out.put_byte(b' ');
    out.put(slot_name(cluster, single.table, single.entry, single.frame));
    out.put_byte(b')');
}

/// The faults of a row; for one fault also the table, the entry and the frame of its first slot.
pub(crate) fn put_name<W: Write>(out: &mut TextWriter<'_, W>, cluster: &Cluster, row: &ShownRow<'_>)
    ensures { Grows W.contents out.old out.new (row_name cluster.now (row_data row.now)) }
{
    put_faults(out, cluster, row.faults);
    put_place(out, cluster, row.single);
}

/// The words between the number of failed lines and these lines.
fn unmet_words(lines: &[u64]) -> &'static str
    ensures { result.now ≡ (if length lines.now == 1 then codes " unmet in line" else codes " unmet in lines") }
{
    if lines.len() == 1 {
        " unmet in line"
    } else {
        " unmet in lines"
    }
}

/// The number of failed lines, and these lines.
fn put_unmet<W: Write>(out: &mut TextWriter<'_, W>, lines: &[u64])
    ensures { Grows W.contents out.old out.new (failed_lines lines.now) }
{
    out.put_number(lines.len() as u64);
    out.put_text(unmet_words(lines));
    for line in lines {
        out.put_numbered(b' ', *line);
    }
}

/// A lost message: its host, its number and its cause.
pub(crate) fn put_loss<W: Write>(out: &mut TextWriter<'_, W>, cluster: &Cluster, lost: &LostMessage)
    ensures { Grows W.contents out.old out.new (loss_text cluster.now lost.now) }
{
    put_node_name(out, cluster, lost.host);
    out.put_numbered(b' ', u64::from(lost.number));
    out.put_byte(b' ');
    out.put_text(lost.cause.word());
}

/// A refused step: its line, and the name of the refusal.
pub(crate) fn put_refusal<W: Write>(out: &mut TextWriter<'_, W>, refused: &RefusedStep)
    ensures { Grows W.contents out.old out.new (refusal_text refused.now) }
{
    out.put_number(refused.line);
    out.put_byte(b' ');
    out.put_text(refused.refusal.word());
}

/// Lost messages without those that the undisturbed play lost.
fn put_losses<W: Write>(
    out: &mut TextWriter<'_, W>,
    cluster: &Cluster,
    known: &[LostMessage],
    lost: &[LostMessage],
)
    ensures { Grows W.contents out.old out.new (losses_text cluster.now known.now lost.now) }
{
    let mut mark: &[u8] = b"; lost ";
    for one in lost {
        if !has_lost(known, one) {
            out.put(mark);
            put_loss(out, cluster, one);
            mark = b", ";
        }
    }
}

/// Refused steps without those that the undisturbed play has.
fn put_refusals<W: Write>(
    out: &mut TextWriter<'_, W>,
    known: &[RefusedStep],
    refused: &[RefusedStep],
)
    ensures { Grows W.contents out.old out.new (refusals_text known.now refused.now) }
{
    let mut mark: &[u8] = b"; refused ";
    for one in refused {
        if !has_refused(known, one) {
            out.put(mark);
            put_refusal(out, one);
            mark = b", ";
        }
    }
}

/// How many faults changed no step, if one didn't.
fn put_missed<W: Write>(out: &mut TextWriter<'_, W>, missed: usize)
    ensures { Grows W.contents out.old out.new (missed_text missed) }
{
    if missed == 0 {
        return;
    }
    out.put_text("; ");
    out.put_number(missed as u64);
    out.put_text(" missed");
}

/// The messages that the undisturbed play lost.
fn known_losses<'a>(calm: Option<&'a Row>) -> &'a [LostMessage]
    ensures { result.now ≡ known_losses calm.entry }
{
    match calm {
        Some(row) => row.lost.as_slice(),
        None => &[],
    }
}

/// The steps that the undisturbed play has refused.
fn known_refusals<'a>(calm: Option<&'a Row>) -> &'a [RefusedStep]
    ensures { result.now ≡ known_refusals calm.entry }
{
    match calm {
        Some(row) => row.refused.as_slice(),
        None => &[],
    }
}

/// What a row that isn't at the limit came to, after its verdict.
fn put_rest<W: Write>(out: &mut TextWriter<'_, W>, cluster: &Cluster, row: &Row, calm: Option<&Row>)
    ensures { Grows W.contents out.old out.new (rest_text cluster.now
        (known_losses calm.entry) (known_refusals calm.entry)
        row.now) }
{
    put_missed(out, row.missed);
    put_losses(out, cluster, known_losses(calm), row.lost.as_slice());
    put_refusals(out, known_refusals(calm), row.refused.as_slice());
}

/// What a row came to.
fn put_verdict<W: Write>(
    out: &mut TextWriter<'_, W>,
    cluster: &Cluster,
    row: &Row,
    calm: Option<&Row>,
)
    ensures { Grows W.contents out.old out.new (outcome_text cluster.now
        (known_losses calm.entry) (known_refusals calm.entry)
        row.now row.now.verdict) }
{
    match row.verdict {
        RowVerdict::Tolerated => {
            out.put_text("tolerated");
            put_rest(out, cluster, row, calm);
        }
        RowVerdict::Broken => {
            put_unmet(out, row.lines.as_slice());
            put_rest(out, cluster, row, calm);
        }
        RowVerdict::Limit(line) => {
            out.put_text("slot limit in line ");
            out.put_number(line);
        }
    }
}

/// The line of a row. What the undisturbed play lost and refused isn't repeated.
pub(crate) fn put_line<W: Write>(
    out: &mut TextWriter<'_, W>,
    cluster: &Cluster,
    shown: &ShownRow<'_>,
    calm: Option<&Row>,
)
    ensures { Grows W.contents out.old out.new (row_text cluster.now
        (known_losses calm.entry) (known_refusals calm.entry)
        (row_data shown.now)) }
{
    put_name(out, cluster, shown);
    out.put_text(": ");
    put_verdict(out, cluster, shown.row, calm);
    out.put_byte(b'\n');
}
