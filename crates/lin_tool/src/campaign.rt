//! `linsim campaign`: plays a bench script as it is, and then under faults, and writes what each play
//! came to.

ghost use Rattle.std.specs.Prelude.{◌≡◌, ◌<◌, ◌≤◌, ◌+◌, ◌^◌, false, length};
ghost use Rattle.std.specs.Prelude.{IfOk, OnOk};
ghost use Rattle.std.specs.Io.KnownBytes.{Keeps};
ghost use Rattle.lin_bench.specs.Files.{source_data};
ghost use Rattle.lin_text.specs.Written.{WritesText};
ghost use Rattle.lin_tool.specs.campaign.Rows.{IsPart, rows};
ghost use Rattle.lin_tool.specs.campaign.Steps.{AreWorstFaults, IsCampaignReady, IsTable, WritesCounts};
ghost use Rattle.lin_tool.specs.campaign.Steps.{PlaysAndWritesRow, PlaysAndWritesRows, WritesAfter, WritesTable};
ghost use Rattle.lin_tool.specs.campaign.Steps.{calm_row, head_with_calm, shows_calm, worst_places};
ghost use Rattle.lin_tool.specs.campaign.Written.{WritesOpened, WritesSource, name_or};

mod checks;
mod csv_rows;
mod fault_names;
mod finished_slots;
mod jsonl_rows;
mod junit;
mod output;
mod page;
mod pieces;
mod plan;
mod plays;
mod row;
mod row_source;
mod rows;
mod shown;
mod singles;
mod summary;
mod text;

use crate::campaign::plan::{is_denied, is_page};
use crate::campaign::row::Row;
use crate::campaign::row_source::{RowSource, first_disturbed, has_calm};
use crate::campaign::rows::Rows;
use crate::campaign::shown::ShownRow;
use crate::campaign::singles::{faults_at, only, singles};
use crate::campaign::summary::{JudgedScript, RowCounts};
use crate::fault::Fault;
use crate::notes::Notes;
use crate::opening::{Opened, Settings, begin, within_limits};
use crate::play_command::{Script, bench_lines, check_used, judge};
use crate::plays::{ScriptInput, read_script};
use lin_bench::{Judgement, NodeLimits, SlotFault, Source, some_unmet};
use lin_core::Core;
use lin_export::ExportFault;
use lin_log::read_bytes;
use lin_parts::Cluster;
use lin_text::{Many, TextBuffer, TextWriter};
use lin_values::Coded;
pub use plan::{CampaignPlan, RowFormat};
pub use rows::{CampaignPart, RandomSets, parts_are_the_whole};
pub use singles::Kinds;
use std::alloc::{AllocError, Global};
use std::fs::Files;
use std::io::{self, Read, Write};

/// What all plays of a campaign have in common, and how their rows are written.
#[derive(Clone, Copy)]
pub(crate) struct Campaign<'a, 'c> {
    pub alloc: Global,
    /// The script, with its files and parameters.
    pub source: Source<'a>,
    /// The name of the script.
    pub script: &'a str,
    /// The name of the LDF file.
    pub file: &'a str,
    pub coded: Option<&'c Coded>,
    /// The limits of transfers in the LDF.
    pub limits: &'c [NodeLimits],
    pub table: u16,
    pub capacity: usize,
    pub is_strict: bool,
    pub format: RowFormat,
}

/// A play of a campaign, with what values mean in its judgements.
#[derive(Drop)]
pub(crate) struct Play {
    pub core: Core,
    pub judgements: Many<Judgement>,
    pub row: Row,
}

impl Campaign<'_, '_> {
    /// Plays the row with this number, writes it and counts it. Returns the cluster for the next row.
    ///
    /// # Errors
    /// `OutOfMemory`, `LogFull` and `WriteFailed`; the rows before it were written.
    fn one_row<W: Write>(
        &self,
        table: &RowSource<'_>,
        number: u64,
        cluster: Cluster,
        counts: &mut RowCounts,
        writer: &mut W,
    ) -> Result<Cluster, Fault>
        requires ready { IsCampaignReady self.now cluster }
        requires table { IsTable table.now }
        requires row { number < length (rows table.now.rows.now) }
        requires few { counts.old.rows + 1 < 2 ^ 64 }
        ensures writes { PlaysAndWritesRow self.now table.now cluster number result
            counts.old counts.new (W.contents writer.old) (W.contents writer.new) }
        ensures same { IfOk result (λ handed. handed ≡ cluster) }
        ensures rows { OnOk result (counts.new.rows ≡ counts.old.rows + 1) }
    {
        let places = table.rows.places_of(self.alloc, number)?;
        let faults = faults_at(self.alloc, table.singles, places.as_slice())?;
        let play = self.play(cluster, faults.as_slice())?;
        let shown = ShownRow {
            number,
            faults: faults.as_slice(),
            single: only(table.singles, places.as_slice()),
            row: &play.row,
            core: &play.core,
            judgements: play.judgements.as_slice(),
        };
        self.write_row(&shown, Some(table.calm), writer)?;
        counts.count(number, &play.row)?;
        Ok(play.core.into_cluster())
    }

    /// Whether the undisturbed play is written: as row 0 of a part that has it, and on each page.
    fn shows_calm(&self, table: &RowSource<'_>) -> bool
        requires table { IsTable table.now }
        ensures { result ≡ shows_calm self.now.format table.now }
    {
        let (from, to) = table.rows.bounds(table.part);
        has_calm(from, to) || is_page(self.format)
    }

    /// Writes the head, and row 0 if the part has it or the format is a page. The core played the script
    /// undisturbed.
    ///
    /// # Errors
    /// `OutOfMemory` and `WriteFailed`, where what was written is a beginning.
    fn write_first<W: Write>(
        &self,
        table: &RowSource<'_>,
        core: &Core,
        writer: &mut W,
    ) -> Result<(), ExportFault>
        requires table { IsTable table.now }
        ensures { WritesText (W.contents writer.old) (W.contents writer.new) result
            (head_with_calm self.now table.now core.now.cluster (calm_row table.now core.now)) }
    {
        let shown = ShownRow {
            number: 0,
            faults: &[],
            single: None,
            row: table.calm,
            core,
            judgements: table.judgements,
        };
        self.write_head(table, &shown, writer)?;
        if !self.shows_calm(table) {
            return Ok(());
        }
        self.write_row(&shown, None, writer)
    }

    /// Plays, writes and counts the rows of a part except row 0. Returns the cluster.
    ///
    /// # Errors
    /// As of `one_row`.
    fn write_rows<W: Write, E: Write>(
        &self,
        table: &RowSource<'_>,
        cluster: Cluster,
        counts: &mut RowCounts,
        writer: &mut W,
        errors: &mut E,
    ) -> Result<Cluster, Fault>
        requires ready { IsCampaignReady self.now cluster }
        requires table { IsTable table.now }
        requires none { counts.old.rows ≡ 0 }
        ensures writes { PlaysAndWritesRows self.now table.now cluster result
            counts.old counts.new (W.contents writer.old) (W.contents writer.new) }
        ensures same { IfOk result (λ handed. handed ≡ cluster) }
        ensures quiet { table.now.is_watched ≡ false
            → Keeps (E.contents errors.old) (E.contents errors.new) }
    {
        let (from, to) = table.rows.bounds(table.part);
        let mut handed = cluster;
        for number in first_disturbed(from)..to {
            handed = self.one_row(table, number, handed, counts, writer)?;
            table.watch(number - from + 1, to - from, errors);
        }
        Ok(handed)
    }

    /// Returns the places of the single faults of the worst row, if there is one. An error means out of
    /// memory.
    fn worst_places(
        &self,
        table: &RowSource<'_>,
        counts: &RowCounts,
    ) -> Result<Vec<usize>, AllocError>
        requires table { IsTable table.now }
        ensures { IfOk result (λ v. v.items ≡ worst_places table.now counts.now.worst) }
    {
        let Some(worst) = counts.worst() else {
            return Ok(Vec::new(self.alloc));
        };
        if worst.row < table.rows.count() {
            return table.rows.places_of(self.alloc, worst.row);
        }
        Ok(Vec::new(self.alloc))
    }

    /// Returns the faults of the worst row, if there is one. An error means out of memory.
    fn worst_faults(
        &self,
        table: &RowSource<'_>,
        counts: &RowCounts,
    ) -> Result<Vec<SlotFault>, AllocError>
        requires table { IsTable table.now }
        ensures { IfOk result (λ v. AreWorstFaults table.now counts.now v.items) }
    {
        let places = self.worst_places(table, counts)?;
        faults_at(self.alloc, table.singles, places.as_slice())
    }

    /// Writes the counts: a line for each line of the script, and a last one.
    ///
    /// # Errors
    /// `OutOfMemory`, where nothing was written.
    fn write_counts<E: Write>(
        &self,
        table: &RowSource<'_>,
        cluster: &Cluster,
        counts: &RowCounts,
        errors: &mut E,
    ) -> Result<(), AllocError>
        requires table { IsTable table.now }
        ensures { OnOk result (WritesCounts self.now table.now cluster.now counts.now
            (E.contents errors.old) (E.contents errors.new)) }
    {
        let faults = self.worst_faults(table, counts)?;
        let script = JudgedScript {
            name: self.script,
            cluster,
            judgements: table.judgements,
        };
        let mut buffer = TextBuffer::empty();
        let mut out = TextWriter::new(errors, &mut buffer);
        counts.put_lines(&mut out, script);
        counts.put_numbers(&mut out, cluster, faults.as_slice());
        let _ = out.finish();
        Ok(())
    }
}

/// Writes the rows of a table, and then the counts to `errors`. The core played the script undisturbed.
///
/// # Errors
/// `OutOfMemory`, `LogFull` and `WriteFailed`, where the rows before one were written; `Denied`.
fn write_table<W: Write, E: Write>(
    campaign: &Campaign<'_, '_>,
    plan: &CampaignPlan,
    table: &RowSource<'_>,
    core: Core,
    writer: &mut W,
    errors: &mut E,
) -> Result<(), Fault>
    requires ready { IsCampaignReady campaign.now core.cluster }
    requires table { IsTable table.now }
    ensures { WritesTable campaign.now plan.now table.now core result
        (W.contents writer.old) (W.contents writer.new)
        (E.contents errors.old) (E.contents errors.new) }
{
    let mut counts = RowCounts::new(campaign.alloc, table.judgements)?;
    campaign.write_first(table, &core, writer)?;
    let cluster = core.into_cluster();
    let cluster = campaign.write_rows(table, cluster, &mut counts, writer, errors)?;
    campaign.write_tail(writer)?;
    campaign.write_counts(table, &cluster, &counts, errors)?;
    if is_denied(plan, &counts, table.judgements) {
        Err(Fault::Denied)
    } else {
        Ok(())
    }
}

/// Writes the rows of a campaign after its undisturbed play, and then the counts to `errors`.
///
/// # Errors
/// As of `write_table`.
fn write_campaign<W: Write, E: Write>(
    campaign: &Campaign<'_, '_>,
    plan: &CampaignPlan,
    calm: Play,
    writer: &mut W,
    errors: &mut E,
) -> Result<(), Fault>
    requires ready { IsCampaignReady campaign.now calm.core.cluster }
    requires part { IsPart plan.now.part }
    ensures { WritesAfter campaign.now plan.now calm result
        (W.contents writer.old) (W.contents writer.new)
        (E.contents errors.old) (E.contents errors.new) }
{
    let Play {
        core,
        judgements,
        row,
    } = calm;
    let singles = singles(campaign.alloc, core.cluster(), core.log(), plan.kinds)?;
    let rows = Rows {
        singles: singles.len(),
        pairs: plan.pairs,
        random: plan.random,
    };
    let table = RowSource {
        singles: singles.as_slice(),
        rows: &rows,
        part: plan.part,
        calm: &row,
        judgements: judgements.as_slice(),
        is_watched: plan.is_watched,
    };
    write_table(campaign, plan, &table, core, writer, errors)
}

/// Returns a name, or another one if there is none.
fn name_or<'x>(name: Option<&'x str>, other: &'x str) -> &'x str
    ensures { result.now ≡ name_or name.entry other.now }
{
    match name {
        Some(name) => name,
        None => other,
    }
}

/// A cluster that was opened, and the plan of a campaign on it.
#[derive(Drop)]
pub struct PlannedCampaign<'a> {
    pub opened: Opened<'a>,
    pub plan: &'a CampaignPlan,
}

/// Reads a bench script without files and parameters, and does what `campaign_source` does.
///
/// # Errors
/// Those of `campaign_source`; `ReadFailed`, `ScriptTooLong`.
pub fn campaign_script<R: Read, W: Write, E: Write>(
    alloc: Global,
    planned: PlannedCampaign<'_>,
    reader: &mut R,
    writer: &mut W,
    errors: &mut E,
    notes: &mut Notes<'_>,
) -> Result<(), Fault>
    requires table { planned.opened.table < length planned.opened.cluster.tables }
    requires part { IsPart planned.plan.now.part }
    ensures { WritesOpened planned.entry.plan.now planned.entry.opened notes.old.wanted.script result
        (R.remaining reader.old)
        (W.contents writer.old) (W.contents writer.new)
        (E.contents errors.old) (E.contents errors.new) }
{
    let bytes = read_bytes(alloc, reader)?;
    let source = Source::of(bytes.as_slice());
    campaign_source(alloc, planned, source, writer, errors, notes)
}

/// Plays a bench script over the cluster that was opened, and then under each set of faults of
/// the plan's part, and writes a row for each play, in the plan's format. Each row is written completely
/// when its play is done. Then counts go to `errors`: how many rows break each line. If the plan watches
/// the rows, `errors` gets the number of rows that are done at each tenth of them.
///
/// The notes have the script's name. If the undisturbed play has an expectation that fails, this is
/// reported as by `play_script`, and nothing is written.
///
/// # Errors
/// Those of `play_source`; `Denied` if the plan denies what the rows came to. After `WriteFailed`,
/// `OutOfMemory` and `LogFull` the rows before one were written.
pub fn campaign_source<W: Write, E: Write>(
    alloc: Global,
    planned: PlannedCampaign<'_>,
    source: Source<'_>,
    writer: &mut W,
    errors: &mut E,
    notes: &mut Notes<'_>,
) -> Result<(), Fault>
    requires table { planned.opened.table < length planned.opened.cluster.tables }
    requires part { IsPart planned.plan.now.part }
    requires text { length source.text.now ≤ 16777216 }
    ensures { WritesSource planned.entry.plan.now (source_data source.entry) planned.entry.opened
        notes.old.wanted.script result
        (W.contents writer.old) (W.contents writer.new)
        (E.contents errors.old) (E.contents errors.new) }
{
    let PlannedCampaign { opened, plan } = planned;
    let name = name_or(notes.wanted.script, "-");
    let file = name_or(opened.settings.file, "");
    let script = Script {
        source,
        name: notes.wanted.script,
        is_strict: opened.settings.is_strict,
        faults: 0,
        missed: 0,
        is_alone: true,
    };
    let lines = bench_lines(alloc, &opened, script, errors, notes)?;
    check_used(alloc, &opened.cluster, script)?;
    let Opened {
        cluster,
        table,
        coded,
        limits,
        settings,
    } = opened;
    let campaign = Campaign {
        alloc,
        source,
        script: name,
        file,
        coded: coded.as_ref(),
        limits: limits.as_slice(),
        table,
        capacity: within_limits(settings.capacity),
        is_strict: settings.is_strict,
        format: plan.format,
    };
    let calm = campaign.undisturbed(cluster, lines, notes)?;
    if some_unmet(calm.judgements.as_slice()) {
        return judge(&calm.core, script, calm.judgements.as_slice(), errors);
    }
    write_campaign(&campaign, plan, calm, writer, errors)
}

/// Reads a bench script with the files that it includes, and writes the rows of its campaign over the cluster of
/// the settings to standard output. Warnings of the LDF, bad lines, expectations that fail in the undisturbed
/// play, and the counts are reported on `errors`.
///
/// # Errors
/// Those of `cluster_of_file`, and `NoSuchTable`, after which nothing was written; `ReadFailed`,
/// `ScriptTooLong`; those of `campaign_source`.
pub fn run_campaign<R: AllocGlobal + Files + Input + Print, E: Write>(
    rt: &R,
    settings: &Settings<'_>,
    plan: &CampaignPlan,
    script: ScriptInput<'_>,
    errors: &mut E,
    notes: &mut Notes<'_>,
) -> Result<(), Fault> {
    let plan = &CampaignPlan {
        part: plan.part.within_limits(),
        ..*plan
    };
    let opened = begin(rt, settings, true, notes)?;
    notes.tell_warnings(errors);
    notes.begin_script();
    let planned = PlannedCampaign { opened, plan };
    let answer = campaign_file(rt, planned, script, errors, notes);
    notes.add_unread(&answer, script.path);
    answer
}

/// Reads a bench script with the files that it includes, and does what `campaign_source` does.
///
/// # Errors
/// `ReadFailed`, `ScriptTooLong`; those of `campaign_source`.
fn campaign_file<R: AllocGlobal + Files + Input + Print, E: Write>(
    rt: &R,
    planned: PlannedCampaign<'_>,
    script: ScriptInput<'_>,
    errors: &mut E,
    notes: &mut Notes<'_>,
) -> Result<(), Fault>
    requires table { planned.opened.table < length planned.opened.cluster.tables }
    requires part { IsPart planned.plan.now.part }
{
    let read = read_script(rt, &planned.opened.cluster, script)?;
    let source = read.source(script);
    let mut writer = io::writer(rt);
    campaign_source(rt.alloc(), planned, source, &mut writer, errors, notes)
}
