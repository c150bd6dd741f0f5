//! The rows of a campaign as objects (JSON, RFC 8259), one a line.

ghost use Rattle.std.specs.Prelude.{◌≡◌, ◌+◌, ◌<◌, ◌^◌, ◌∷◌, if◌then◌else◌, [], IfOk, List, codes};
ghost use Rattle.std.specs.Prelude.{flat_map, length, map, nat_lt};
ghost use Rattle.std.specs.Option.{option_to_list};
ghost use Rattle.lin_core.specs.History.{Slot, finished_slot, seen_of};
ghost use Rattle.lin_core.specs.Tables.{look_of};
ghost use Rattle.lin_core.specs.declared.event.Seen.{Seen};
ghost use Rattle.lin_core.specs.declared.log.LogEntry.{LogEntry};
ghost use Rattle.lin_text.specs.Written.{Grows};
ghost use Rattle.lin_export.specs.Csv.{after_comma};
ghost use Rattle.lin_export.specs.Json.{with_commas};
ghost use Rattle.lin_export.specs.Putting.{PutsAll};
ghost use Rattle.lin_tool.specs.Placing.{AtMoment};
ghost use Rattle.lin_tool.specs.campaign.Jsonl.{failure_objects, ended_members, expectation, expectation_objects, failure_object};
ghost use Rattle.lin_tool.specs.campaign.Jsonl.{last_of, seen_letter, letters, next_letter};
ghost use Rattle.lin_tool.specs.campaign.Jsonl.{loss_object, decimal_member, outcome_members, single_members, refusal_object};
ghost use Rattle.lin_tool.specs.campaign.Jsonl.{row_object, sized_object, verdict_part};
ghost use Rattle.lin_tool.specs.campaign.Page.{in_page};
ghost use Rattle.lin_tool.specs.campaign.Shown.{row_data};
ghost use Rattle.lin_tool.specs.campaign.Slots.{HasRead, kept_of_slot};

use crate::campaign::checks::first_checks;
use crate::campaign::fault_names::{put_fault_array, put_node_name};
use crate::campaign::finished_slots::{KeptSlot, SlotReader, slot_name, table_name};
use crate::campaign::page::put_object_text;
use crate::campaign::row::{LostMessage, RefusedStep, RowVerdict};
use crate::campaign::shown::ShownRow;
use crate::campaign::singles::Single;
use crate::placing::{Moment, within};
use lin_bench::Judgement;
use lin_core::{Listed, Log, LogEntry, Look};
use lin_export::{Member, put_key, put_member, put_type};
use lin_live::{found_text, what_text, without_space};
use lin_parts::Cluster;
use lin_text::{TextBuffer, TextWriter};
use std::alloc::{AllocError, Global};
use std::io::Write;

/// How many slots have a letter.
const MOST_LETTERS: usize = 1000;

/// The number of the last slot, counted from 0; `null` if there is no slot.
fn put_last<W: Write>(out: &mut TextWriter<'_, W>, slots: u64)
    ensures { Grows W.contents out.old out.new (last_of slots) }
{
    if slots == 0 {
        out.put_text("null");
    } else {
        out.put_number(slots - 1);
    }
}

/// What an object begins with: its line.
fn put_line_number<W: Write>(out: &mut TextWriter<'_, W>, line: u64)
    ensures { Grows W.contents out.old out.new (123 ∷ decimal_member (codes "line") line) }
{
    out.put_text("{\"line\":");
    out.put_number(line);
}

/// An expectation, and the last slot that was finished when it was checked. An error
/// means out of memory; nothing was put then.
fn put_expectation<W: Write>(
    out: &mut TextWriter<'_, W>,
    alloc: Global,
    cluster: &Cluster,
    moment: Moment,
    judgement: &Judgement,
) -> Result<(), AllocError>
    ensures { AtMoment cluster.now judgement.now moment (λ log.
        PutsAll W.contents out.old out.new result (expectation cluster.now log judgement.now)) }
{
    let what = what_text(alloc, cluster, &judgement.judged)?;
    put_line_number(out, judgement.place.own);
    put_member(
        out,
        Member::Printable("what", without_space(what.as_slice())),
    );
    put_key(out, "slot");
    put_last(out, moment.slots());
    out.put_byte(b'}');
    Ok(())
}

/// Expectations of the undisturbed play. An error means out of memory.
fn put_checks<W: Write>(
    out: &mut TextWriter<'_, W>,
    alloc: Global,
    cluster: &Cluster,
    log: &Log,
    checks: &[&Judgement],
) -> Result<(), AllocError>
    ensures { PutsAll W.contents out.old out.new result
        (with_commas (map (λ j. expectation cluster.now log.now.entries j.now) checks.now)) }
{
    let mut read = 0;
    let mut moment = Moment::new();
    let mut mark: &[u8] = b"";
    for one in checks {
        let entries = within(log, one.entries);
        moment = moment.at(cluster, log, read, entries);
        read = entries;
        out.put(mark);
        put_expectation(out, alloc, cluster, moment, *one)?;
        mark = b",";
    }
    Ok(())
}

/// The expectations of the undisturbed play, that of a line that is repeated once. An error means out of memory.
fn put_expectations<W: Write>(
    out: &mut TextWriter<'_, W>,
    alloc: Global,
    cluster: &Cluster,
    log: &Log,
    judgements: &[Judgement],
) -> Result<(), AllocError>
    ensures { PutsAll W.contents out.old out.new result
        (with_commas (expectation_objects cluster.now log.now.entries judgements.now)) }
{
    let checks = first_checks(alloc, cluster, false, judgements)?;
    put_checks(out, alloc, cluster, log, checks.as_slice())
}

/// The name of a campaign's script, and the numbers of its single faults and of its rows.
#[derive(Clone, Copy)]
pub(crate) struct CampaignSize<'a> {
    pub script: &'a str,
    pub singles: usize,
    pub rows: u64,
}

/// The object of the campaign with this undisturbed play. An error means out of memory.
fn put_campaign<W: Write>(
    out: &mut TextWriter<'_, W>,
    alloc: Global,
    size: CampaignSize<'_>,
    shown: &ShownRow<'_>,
) -> Result<(), AllocError>
    ensures { PutsAll W.contents out.old out.new result
        (sized_object size.entry shown.now.core.now.cluster (row_data shown.now)) }
{
    put_type(out, "campaign");
    put_member(out, Member::Number("version", 1));
    put_member(out, Member::Printable("script", size.script.as_bytes()));
    put_key(out, "slots");
    out.put_number(shown.row.slots);
    put_member(out, Member::Number("faults", size.singles as u64));
    put_member(out, Member::Number("rows", size.rows));
    put_key(out, "lines");
    out.put_byte(b'[');
    let cluster = shown.core.cluster();
    let log = shown.core.log();
    put_expectations(out, alloc, cluster, log, shown.judgements)?;
    out.put_text("]}\n");
    Ok(())
}

/// The place of a fault, if a row has exactly one.
fn put_place<W: Write>(out: &mut TextWriter<'_, W>, cluster: &Cluster, single: Option<Single>)
    ensures { Grows W.contents out.old out.new
        (flat_map after_comma (single_members cluster.now single)) }
{
    match single {
        None => out.put_text(",\"table\":null,\"entry\":null,\"frame\":null"),
        Some(single) => {
            let frame = slot_name(cluster, single.table, single.entry, single.frame);
            put_member(
                out,
                Member::Text("table", table_name(cluster, single.table)),
            );
            put_member(out, Member::Number("entry", u64::from(single.entry)));
            put_member(out, Member::Text("frame", frame));
        }
    }
}

/// A failed expectation. An error means out of memory; nothing was put then.
fn put_failed<W: Write>(
    out: &mut TextWriter<'_, W>,
    alloc: Global,
    cluster: &Cluster,
    judgement: &Judgement,
) -> Result<(), AllocError>
    ensures { PutsAll W.contents out.old out.new result (failure_object cluster.now judgement.now) }
{
    let what = what_text(alloc, cluster, &judgement.judged)?;
    let got = found_text(alloc, cluster, &judgement.judged)?;
    put_line_number(out, judgement.place.own);
    put_member(
        out,
        Member::Printable("what", without_space(what.as_slice())),
    );
    put_member(out, Member::Printable("got", without_space(got.as_slice())));
    out.put_byte(b'}');
    Ok(())
}

/// Failed expectations. An error means out of memory.
fn put_failures<W: Write>(
    out: &mut TextWriter<'_, W>,
    alloc: Global,
    cluster: &Cluster,
    failed: &[&Judgement],
) -> Result<(), AllocError>
    ensures { PutsAll W.contents out.old out.new result
        (with_commas (map (λ j. failure_object cluster.now j.now) failed.now)) }
{
    let mut mark: &[u8] = b"";
    for one in failed {
        out.put(mark);
        put_failed(out, alloc, cluster, *one)?;
        mark = b",";
    }
    Ok(())
}

/// The failed expectations, that of a line that is repeated once. An error means out of memory.
fn put_all_failed<W: Write>(
    out: &mut TextWriter<'_, W>,
    alloc: Global,
    cluster: &Cluster,
    judgements: &[Judgement],
) -> Result<(), AllocError>
    ensures { PutsAll W.contents out.old out.new result
        (with_commas (failure_objects cluster.now judgements.now)) }
{
    let failed = first_checks(alloc, cluster, true, judgements)?;
    put_failures(out, alloc, cluster, failed.as_slice())
}

/// A lost message.
fn put_loss<W: Write>(out: &mut TextWriter<'_, W>, cluster: &Cluster, lost: &LostMessage)
    ensures { Grows W.contents out.old out.new (loss_object cluster.now lost.now) }
{
    out.put_text("{\"host\":\"");
    put_node_name(out, cluster, lost.host);
    out.put_byte(b'"');
    put_member(out, Member::Number("number", u64::from(lost.number)));
    put_member(out, Member::Text("cause", lost.cause.word().as_bytes()));
    out.put_byte(b'}');
}

/// The messages that were lost.
fn put_losses<W: Write>(out: &mut TextWriter<'_, W>, cluster: &Cluster, lost: &[LostMessage])
    ensures { Grows W.contents out.old out.new (with_commas (map (loss_object cluster.now) lost.now)) }
{
    let mut mark: &[u8] = b"";
    for one in lost {
        out.put(mark);
        put_loss(out, cluster, one);
        mark = b",";
    }
}

/// A refused step.
fn put_refusal<W: Write>(out: &mut TextWriter<'_, W>, step: &RefusedStep)
    ensures { Grows W.contents out.old out.new (refusal_object step.now) }
{
    put_line_number(out, step.line);
    put_member(out, Member::Text("name", step.refusal.word().as_bytes()));
    out.put_byte(b'}');
}

/// The steps that were refused.
fn put_refusals<W: Write>(out: &mut TextWriter<'_, W>, steps: &[RefusedStep])
    ensures { Grows W.contents out.old out.new (with_commas (map refusal_object steps.now)) }
{
    let mut mark: &[u8] = b"";
    for one in steps {
        out.put(mark);
        put_refusal(out, one);
        mark = b",";
    }
}

/// The letter of a slot that was seen so.
fn letter(look: Look) -> u8
    ensures { (how : Seen) → look ≡ look_of how → result ≡ seen_letter how }
{
    match look {
        Look::Silent => b's',
        Look::NoAnswer => b'n',
        Look::Good => b'g',
        Look::Damaged => b'd',
        Look::Collided => b'c',
    }
}

/// The letter of a slot after `count` slots, unless that many are enough.
fn put_letter<W: Write>(out: &mut TextWriter<'_, W>, slot: &KeptSlot, count: usize)
    ensures { (s : Slot) → slot.now ≡ kept_of_slot s
        → Grows W.contents out.old out.new
        (if nat_lt count 1000 then seen_letter (seen_of s) ∷ [] else []) }
{
    if count < MOST_LETTERS {
        out.put_byte(letter(slot.look()));
    }
}

/// The letter of the slot that an entry of the log finished, if it finished one, unless the `count` slots
/// before it are enough. Returns the number of slots after the entry.
fn put_next_letter<W: Write>(
    out: &mut TextWriter<'_, W>,
    reader: &mut SlotReader,
    entry: &LogEntry,
    count: usize,
) -> usize
    requires { count < 2 ^ 32 }
    ensures follows { (past : List LogEntry) → HasRead reader.old past
        → HasRead reader.new (entry.now ∷ past) }
    ensures count { (past : List LogEntry) → HasRead reader.old past
        → result ≡ count + length (option_to_list (finished_slot entry.now past)) }
    ensures text { (past : List LogEntry) → HasRead reader.old past
        → Grows W.contents out.old out.new
        (next_letter count entry.now past) }
{
    match reader.next(entry) {
        Some(slot) => {
            put_letter(out, &slot, count);
            count + 1
        }
        None => count,
    }
}

/// A letter for each of the first slots.
fn put_letters<W: Write>(out: &mut TextWriter<'_, W>, log: &Log)
    ensures { Grows W.contents out.old out.new (letters log.now.entries) }
{
    let mut reader = SlotReader::new();
    let mut count = 0;
    for index in 0..log.len() {
        count = put_next_letter(out, &mut reader, log.entry(index), count);
    }
}

/// What a row that isn't at the limit came to, after its failed expectations.
fn put_ended<W: Write>(out: &mut TextWriter<'_, W>, shown: &ShownRow<'_>)
    ensures { Grows W.contents out.old out.new
        (flat_map after_comma (ended_members shown.now.core.now.cluster (row_data shown.now))) }
{
    let row = shown.row;
    put_key(out, "lost");
    out.put_byte(b'[');
    put_losses(out, shown.core.cluster(), row.lost.as_slice());
    out.put_byte(b']');
    put_key(out, "refused");
    out.put_byte(b'[');
    put_refusals(out, row.refused.as_slice());
    out.put_byte(b']');
    put_key(out, "slots");
    out.put_number(row.slots);
    put_member(out, Member::Number("time_us", row.time_us));
    put_key(out, "waiting");
    out.put_number(row.waiting);
    out.put_text(",\"seen\":\"");
    put_letters(out, shown.core.log());
    out.put_byte(b'"');
}

/// What a row that isn't at the limit came to. An error means out of memory.
fn put_outcome<W: Write>(
    out: &mut TextWriter<'_, W>,
    alloc: Global,
    verdict: &str,
    shown: &ShownRow<'_>,
) -> Result<(), AllocError>
    ensures { PutsAll W.contents out.old out.new result (flat_map after_comma
        (outcome_members shown.now.core.now.cluster verdict.now (row_data shown.now))) }
{
    put_member(out, Member::Number("missed", shown.row.missed as u64));
    put_member(out, Member::Text("verdict", verdict.as_bytes()));
    put_key(out, "unmet");
    out.put_byte(b'[');
    put_all_failed(out, alloc, shown.core.cluster(), shown.judgements)?;
    out.put_byte(b']');
    put_ended(out, shown);
    Ok(())
}

/// What a row came to. An error means out of memory.
fn put_verdict<W: Write>(
    out: &mut TextWriter<'_, W>,
    alloc: Global,
    shown: &ShownRow<'_>,
) -> Result<(), AllocError>
    ensures { PutsAll W.contents out.old out.new result
        (verdict_part shown.now.core.now.cluster (row_data shown.now)) }
{
    match shown.row.verdict {
        RowVerdict::Tolerated => put_outcome(out, alloc, "tolerated", shown),
        RowVerdict::Broken => put_outcome(out, alloc, "broken", shown),
        RowVerdict::Limit(line) => {
            out.put_text(",\"verdict\":\"limit\"");
            put_member(out, Member::Number("limit", line));
            Ok(())
        }
    }
}

/// The object of a row. An error means out of memory.
fn put_row<W: Write>(
    out: &mut TextWriter<'_, W>,
    alloc: Global,
    shown: &ShownRow<'_>,
) -> Result<(), AllocError>
    ensures { PutsAll W.contents out.old out.new result
        (row_object shown.now.core.now.cluster (row_data shown.now)) }
{
    let cluster = shown.core.cluster();
    put_type(out, "row");
    put_member(out, Member::Number("row", shown.number));
    put_key(out, "faults");
    put_fault_array(out, cluster, shown.faults);
    put_place(out, cluster, shown.single);
    put_verdict(out, alloc, shown)?;
    out.put_text("}\n");
    Ok(())
}

/// Returns the object of the campaign. An error means out of memory.
fn campaign_text(
    alloc: Global,
    size: CampaignSize<'_>,
    shown: &ShownRow<'_>,
) -> Result<Vec<u8>, AllocError>
    ensures { IfOk result (λ v. v.items
        ≡ sized_object size.entry shown.now.core.now.cluster (row_data shown.now)) }
{
    let mut text = Vec::new(alloc);
    let mut buffer = TextBuffer::empty();
    let mut out = TextWriter::new(&mut text, &mut buffer);
    put_campaign(&mut out, alloc, size, shown)?;
    match out.finish() {
        Ok(()) => Ok(text),
        Err(_) => Err(AllocError),
    }
}

/// Returns the object of a row. An error means out of memory.
fn row_text(alloc: Global, shown: &ShownRow<'_>) -> Result<Vec<u8>, AllocError>
    ensures { IfOk result (λ v. v.items
        ≡ row_object shown.now.core.now.cluster (row_data shown.now)) }
{
    let mut text = Vec::new(alloc);
    let mut buffer = TextBuffer::empty();
    let mut out = TextWriter::new(&mut text, &mut buffer);
    put_row(&mut out, alloc, shown)?;
    match out.finish() {
        Ok(()) => Ok(text),
        Err(_) => Err(AllocError),
    }
}

/// The object of the campaign with this undisturbed play. In a page, its texts have an escape for `<`. An
/// error means out of memory.
pub(crate) fn put_head<W: Write>(
    out: &mut TextWriter<'_, W>,
    alloc: Global,
    size: CampaignSize<'_>,
    shown: &ShownRow<'_>,
    is_page: bool,
) -> Result<(), AllocError>
    ensures { PutsAll W.contents out.old out.new result
        (in_page is_page (sized_object size.entry shown.now.core.now.cluster (row_data shown.now))) }
{
    if is_page {
        let text = campaign_text(alloc, size, shown)?;
        put_object_text(out, text.as_slice());
        Ok(())
    } else {
        put_campaign(out, alloc, size, shown)
    }
}

/// The object of a row. In a page, its texts have an escape for `<`. An error means out of memory.
pub(crate) fn put_line<W: Write>(
    out: &mut TextWriter<'_, W>,
    alloc: Global,
    shown: &ShownRow<'_>,
    is_page: bool,
) -> Result<(), AllocError>
    ensures { PutsAll W.contents out.old out.new result (in_page is_page
        (row_object shown.now.core.now.cluster (row_data shown.now))) }
{
    if is_page {
        let text = row_text(alloc, shown)?;
        put_object_text(out, text.as_slice());
        Ok(())
    } else {
        put_row(out, alloc, shown)
    }
}
