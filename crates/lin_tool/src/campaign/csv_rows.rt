//! The rows of a campaign as lines of values between commas (RFC 4180).

ghost use Rattle.std.specs.Prelude.{[], flat_map, if◌then◌else◌, map};
ghost use Rattle.std.specs.Fmt.{decimal};
ghost use Rattle.lin_text.specs.Written.{Grows};
ghost use Rattle.lin_export.specs.Csv.{after_comma};
ghost use Rattle.lin_tool.specs.campaign.Csv.{items, outcome_cells, place_cells, row_text, verdict_cells};
ghost use Rattle.lin_tool.specs.campaign.Shown.{row_data};
ghost use Rattle.lin_tool.specs.campaign.Text.{loss_text, refusal_text};
ghost use Rattle.lin_tool.specs.declared.campaign.csv_rows.TheConstants.{HEAD};

use crate::campaign::fault_names::put_faults;
use crate::campaign::finished_slots::{slot_name, table_name};
use crate::campaign::row::{LostMessage, RefusedStep, Row, RowVerdict};
use crate::campaign::shown::ShownRow;
use crate::campaign::singles::Single;
use crate::campaign::text::{put_loss, put_refusal};
use lin_parts::Cluster;
use lin_text::TextWriter;
use std::io::Write;

/// The names of the columns.
const HEAD: &str =
    "row,faults,table,entry,frame,missed,verdict,unmet,lost,refused,slots,time_us,waiting\n";

/// The names of the columns, which the first part alone has.
pub(crate) fn put_head<W: Write>(out: &mut TextWriter<'_, W>, is_first: bool)
    ensures { Grows W.contents out.old out.new (if is_first then HEAD.now else []) }
{
    if !is_first {
        return;
    }
    out.put_text(HEAD);
}

/// The table, the entry and the frame of the first slot of a fault; three empty cells if a row hasn't
/// exactly one fault.
fn put_place<W: Write>(out: &mut TextWriter<'_, W>, cluster: &Cluster, single: Option<Single>)
    ensures { Grows W.contents out.old out.new
        (flat_map after_comma (place_cells cluster.now single)) }
{
    match single {
        None => out.put_text(",,,"),
        Some(single) => {
            out.put_byte(b',');
            out.put(table_name(cluster, single.table));
            out.put_numbered(b',', u64::from(single.entry));
            out.put_byte(b',');
            out.put(slot_name(cluster, single.table, single.entry, single.frame));
        }
    }
}

/// The lines with a failed expectation.
fn put_lines<W: Write>(out: &mut TextWriter<'_, W>, lines: &[u64])
    ensures { Grows W.contents out.old out.new (items (map decimal lines.now)) }
{
    let mut mark: &[u8] = b"";
    for line in lines {
        out.put(mark);
        out.put_number(*line);
        mark = b";";
    }
}

/// The messages that were lost.
fn put_losses<W: Write>(out: &mut TextWriter<'_, W>, cluster: &Cluster, lost: &[LostMessage])
    ensures { Grows W.contents out.old out.new (items (map (loss_text cluster.now) lost.now)) }
{
    let mut mark: &[u8] = b"";
    for one in lost {
        out.put(mark);
        put_loss(out, cluster, one);
        mark = b";";
    }
}

/// The steps that were refused.
fn put_refusals<W: Write>(out: &mut TextWriter<'_, W>, refused: &[RefusedStep])
    ensures { Grows W.contents out.old out.new (items (map refusal_text refused.now)) }
{
    let mut mark: &[u8] = b"";
    for one in refused {
        out.put(mark);
        put_refusal(out, one);
        mark = b";";
    }
}

/// The verdict, and what a row that isn't at the limit came to.
fn put_outcome<W: Write>(out: &mut TextWriter<'_, W>, cluster: &Cluster, word: &str, row: &Row)
    ensures { Grows W.contents out.old out.new
        (flat_map after_comma (outcome_cells cluster.now word.now row.now)) }
{
    out.put_byte(b',');
    out.put_text(word);
    out.put_byte(b',');
    put_lines(out, row.lines.as_slice());
    out.put_byte(b',');
    put_losses(out, cluster, row.lost.as_slice());
    out.put_byte(b',');
    put_refusals(out, row.refused.as_slice());
    out.put_byte(b',');
    out.put_number(row.slots);
    out.put_numbered(b',', row.time_us);
    out.put_byte(b',');
    out.put_number(row.waiting);
}

/// What a row came to.
fn put_verdict<W: Write>(out: &mut TextWriter<'_, W>, cluster: &Cluster, row: &Row)
    ensures { Grows W.contents out.old out.new
        (flat_map after_comma (verdict_cells cluster.now row.now row.now.verdict)) }
{
    match row.verdict {
        RowVerdict::Tolerated => put_outcome(out, cluster, "tolerated", row),
        RowVerdict::Broken => put_outcome(out, cluster, "broken", row),
        RowVerdict::Limit(line) => {
            out.put_text(",limit");
            out.put_numbered(b',', line);
            out.put_text(",,,,,");
        }
    }
}

/// The line of a row.
pub(crate) fn put_line<W: Write>(
    out: &mut TextWriter<'_, W>,
    cluster: &Cluster,
    shown: &ShownRow<'_>,
)
    ensures { Grows W.contents out.old out.new (row_text cluster.now (row_data shown.now)) }
{
    out.put_number(shown.number);
    out.put_byte(b',');
    put_faults(out, cluster, shown.faults);
    put_place(out, cluster, shown.single);
    out.put_numbered(b',', shown.row.missed as u64);
    put_verdict(out, cluster, shown.row);
    out.put_byte(b'\n');
}
