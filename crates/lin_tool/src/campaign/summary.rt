//! What is counted over the rows of a campaign, and the lines that report it.

ghost use Rattle.std.specs.Prelude.{◌≡◌, ◌<◌, ◌^◌, [], All, IfOk, List, OnOk, Some, length, ℕ};
ghost use Rattle.std.specs.Prelude.{◌+◌, ◌==◌, ◌||◌};
ghost use Rattle.std.specs.List.{list_any};
ghost use Rattle.std.specs.Option.{option_map_or};
ghost use Rattle.lin_text.specs.Written.{Grows};
ghost use Rattle.lin_core.specs.History.{is_in};
ghost use Rattle.lin_bench.specs.declared.got.Judgement.{Judgement};
ghost use Rattle.lin_tool.specs.campaign.Summary.{AreChanged, AreCountsOf, CountsRow, IsLineCount, NumberedRow};
ghost use Rattle.lin_tool.specs.campaign.Summary.{WhereCounted, WhereLineIs, WhereWorst, counted_by};
ghost use Rattle.lin_tool.specs.campaign.Summary.{broken_lines, expectation, first_at, is_broken_verdict, line_or_lines};
ghost use Rattle.lin_tool.specs.campaign.Summary.{is_limited, is_tolerated, broken_mark, one_if, place_from, worse_of, worst_lines};
ghost use Rattle.lin_tool.specs.campaign.Summary.{line_at, numbers_text, rows_of, script_count_line};
ghost use Rattle.lin_tool.specs.campaign.Summary.{script_line_if_counted, script_lines};
ghost use Rattle.lin_tool.specs.campaign.Summary.{some_never_broken, some_not_tolerated};

use crate::campaign::fault_names::put_faults;
use crate::campaign::row::{Row, RowVerdict};
use lin_bench::{Judgement, SlotFault, put_what};
use lin_parts::Cluster;
use lin_text::TextWriter;
use std::alloc::{AllocError, Global};
use std::io::Write;
use std::marker::Model;

/// What is counted of a line of the script.
#[derive(Clone, Copy)]
struct LineCount {
    /// The index of the line's expectation among those of the undisturbed play, if it has one.
    judgement: Option<usize>,
    /// How many rows break the line.
    broken: u64,
    /// The number of counted rows up to the last row that breaks it; 0 if no row does.
    last: u64,
}

/// The name of a script, and the judgements of its undisturbed play on a cluster.
#[derive(Clone, Copy)]
pub(crate) struct JudgedScript<'a> {
    pub name: &'a str,
    pub cluster: &'a Cluster,
    pub judgements: &'a [Judgement],
}

/// A row that breaks the most lines.
#[derive(Clone, Copy)]
pub(crate) struct Worst {
    pub(crate) row: u64,
    pub(crate) lines: usize,
}

/// What is counted. The undisturbed play doesn't count. Contracts see the counters.
#[derive(Drop)]
pub(crate) struct RowCounts {
    /// The counts of lines, by the number of the line.
    lines: Vec<LineCount>,
    rows: u64,
    tolerated: u64,
    broken: u64,
    limited: u64,
    missed: u64,
    worst: Option<Worst>,
}

impl Model for RowCounts {
    ghost use Rattle.lin_tool.specs.campaign.Summary.{AreRowCounts, RowCountsData};

    ghost Value = { RowCountsData };

    ghost view = { λ t. record {
      lines = t.lines.items;
      rows = t.rows;
      tolerated = t.tolerated;
      broken = t.broken;
      limited = t.limited;
      missed = t.missed;
      worst = t.worst;
    } };

    ghost invariant = { λ t. AreRowCounts (record {
      lines = t.lines.items;
      rows = t.rows;
      tolerated = t.tolerated;
      broken = t.broken;
      limited = t.limited;
      missed = t.missed;
      worst = t.worst;
    }) };
}

/// Adds counts of lines up to this one, if there are fewer. An error means out of memory.
fn add_lines(lines: &mut Vec<LineCount>, line: u64) -> Result<(), AllocError>
    ensures there { OnOk result (line < length lines.new.items) }
    ensures same { (n : ℕ) → line_at lines.new.items n ≡ line_at lines.old.items n }
    ensures counts { (rows : ℕ) → All (IsLineCount rows) lines.old.items
        → All (IsLineCount rows) lines.new.items }
{
    while lines.len() as u64 <= line {
        lines.push(LineCount {
            judgement: None,
            broken: 0,
            last: 0,
        })?;
    }
    Ok(())
}

/// Keeps the index of a line's expectation, if it is the first one. An error means out of memory.
fn add_judgement(lines: &mut Vec<LineCount>, line: u64, place: usize) -> Result<(), AllocError>
    ensures same { OnOk result
        (AreChanged (λ n. n == line) (first_at place) lines.old.items lines.new.items) }
    ensures counts { (rows : ℕ) → All (IsLineCount rows) lines.old.items
        → All (IsLineCount rows) lines.new.items }
{
    add_lines(lines, line)?;
    let one = lines[line as usize];
    lines[line as usize] = LineCount {
        judgement: one.judgement.or(Some(place)),
        ..one
    };
    Ok(())
}

/// Returns the count of a line as one more row breaks it, the `row`-th that is counted.
fn counted(one: LineCount, row: u64) -> LineCount
    requires { IsLineCount row one }
    ensures same { result ≡ counted_by row one }
    ensures count { IsLineCount row result }
{
    if one.last == row {
        return one;
    }
    LineCount {
        judgement: one.judgement,
        broken: one.broken + 1,
        last: row,
    }
}

/// Counts that a row breaks a line, the `row`-th that is counted: the same row counts once. An error
/// means out of memory.
fn count_line(lines: &mut Vec<LineCount>, line: u64, row: u64) -> Result<(), AllocError>
    requires { All (IsLineCount row) lines.old.items }
    ensures same { OnOk result
        (AreChanged (λ n. n == line) (counted_by row) lines.old.items lines.new.items) }
    ensures counts { All (IsLineCount row) lines.new.items }
{
    add_lines(lines, line)?;
    let one = lines[line as usize];
    lines[line as usize] = counted(one, row);
    Ok(())
}

/// Counts that a row breaks these lines, the `row`-th that is counted. An error means out of memory.
fn count_lines(lines: &mut Vec<LineCount>, broken: &[u64], row: u64) -> Result<(), AllocError>
    requires { All (IsLineCount row) lines.old.items }
    ensures same { OnOk result
        (AreChanged (is_in broken.now) (counted_by row) lines.old.items lines.new.items) }
    ensures counts { All (IsLineCount row) lines.new.items }
{
    for line in broken {
        count_line(lines, *line, row)?;
    }
    Ok(())
}

/// Returns the row that breaks the most lines, after one more row: the first of them.
fn worse(worst: Option<Worst>, row: u64, lines: usize) -> Option<Worst>
    ensures { result ≡ worse_of worst row lines }
{
    let most = match worst {
        Some(worst) => worst.lines,
        None => 0,
    };
    if lines > most {
        Some(Worst { row, lines })
    } else {
        worst
    }
}

fn one_if(test: bool) -> u64
    ensures { result ≡ one_if test }
{
    if test { 1 } else { 0 }
}

fn either(one: bool, other: bool) -> bool
    ensures { result ≡ (one || other) }
{
    one || other
}

fn is_tolerated(verdict: RowVerdict) -> bool
    ensures { result ≡ is_tolerated verdict }
{
    matches!(verdict, RowVerdict::Tolerated)
}

fn is_broken(verdict: RowVerdict) -> bool
    ensures { result ≡ is_broken_verdict verdict }
{
    matches!(verdict, RowVerdict::Broken)
}

fn is_limited(verdict: RowVerdict) -> bool
    ensures { result ≡ is_limited verdict }
{
    matches!(verdict, RowVerdict::Limit(_))
}

/// The lines that a row breaks.
fn broken_lines(row: &Row) -> &[u64]
    ensures { result.now ≡ broken_lines row.now }
{
    if is_broken(row.verdict) {
        row.lines.as_slice()
    } else {
        &[]
    }
}

/// What a line expects, by the index of its expectation.
fn put_expectation_at<W: Write>(
    out: &mut TextWriter<'_, W>,
    cluster: &Cluster,
    judgements: &[Judgement],
    place: usize,
)
    ensures { (n : ℕ) → Some place ≡ place_from 0 n judgements.now
        → Grows W.contents out.old out.new (expectation cluster.now judgements.now n) }
{
    if place < judgements.len() {
        out.put_byte(b':');
        put_what(out, cluster, &judgements[place].judged);
    }
}

/// What a line expects, by the index of its expectation if it has one.
fn put_expectation<W: Write>(
    out: &mut TextWriter<'_, W>,
    cluster: &Cluster,
    judgements: &[Judgement],
    place: Option<usize>,
)
    ensures { (n : ℕ) → place ≡ place_from 0 n judgements.now
        → Grows W.contents out.old out.new (expectation cluster.now judgements.now n) }
{
    match place {
        None => {}
        Some(place) => put_expectation_at(out, cluster, judgements, place),
    }
}

/// The remark on a line that no row breaks, or that each row breaks.
fn mark(broken: u64, rows: u64) -> &'static str
    ensures { result.now ≡ broken_mark broken rows }
{
    if broken == 0 {
        " (never broken)"
    } else if broken == rows {
        " (always broken)"
    } else {
        ""
    }
}

fn line_word(count: usize) -> &'static str
    ensures { result.now ≡ line_or_lines count }
{
    if count == 1 { " line" } else { " lines" }
}

/// The worst row, if there is one, with its faults and how many lines it breaks.
fn put_worst<W: Write>(
    out: &mut TextWriter<'_, W>,
    cluster: &Cluster,
    faults: &[SlotFault],
    worst: Option<Worst>,
)
    ensures { Grows W.contents out.old out.new
        (option_map_or (λ w. worst_lines cluster.now faults.now w.lines) worst []) }
{
    if let Some(worst) = worst {
        out.put_text("; worst ");
        put_faults(out, cluster, faults);
        out.put_text(", ");
        out.put_number(worst.lines as u64);
        out.put_text(line_word(worst.lines));
    }
}

impl RowCounts {
    /// No row was counted. The lines are those of the judgements of the undisturbed play. An error means
    /// out of memory.
    pub(crate) fn new(alloc: Global, judgements: &[Judgement]) -> Result<RowCounts, AllocError>
        ensures { IfOk result (λ counts. AreCountsOf judgements.now [] counts) }
    {
        let mut lines = Vec::new(alloc);
        for place in 0..judgements.len() {
            let one = &judgements[place];
            add_judgement(&mut lines, one.place.own, place)?;
        }
        Ok(RowCounts {
            lines,
            rows: 0,
            tolerated: 0,
            broken: 0,
            limited: 0,
            missed: 0,
            worst: None,
        })
    }

    /// The first of the rows that break the most lines, if a row breaks one.
    pub(crate) fn worst(&self) -> Option<Worst>
        ensures { result ≡ self.now.worst }
    {
        self.worst
    }

    /// Whether a row isn't tolerated.
    pub(crate) fn some_not_tolerated(&self) -> bool
        ensures { (js : List Judgement) → (rows : List NumberedRow) → AreCountsOf js rows self.now
            → result ≡ some_not_tolerated (rows_of rows) }
    {
        either(self.broken > 0, self.limited > 0)
    }

    /// Whether no row breaks a line.
    fn is_never_broken(&self, line: u64) -> bool
        ensures { result ≡ ((line_at self.now.lines line).broken == 0) }
    {
        if line < self.lines.len() as u64 {
            self.lines[line as usize].broken == 0
        } else {
            true
        }
    }

    /// Whether no row breaks some line with one of these judgements, by the counts.
    fn some_uncounted(&self, judgements: &[Judgement]) -> bool
        ensures { result ≡ list_any (λ one. (line_at self.now.lines one.place.own).broken == 0)
            judgements.now }
    {
        judgements
            .iter()
            .any(|one| self.is_never_broken(one.place.own))
    }

    /// Whether no row breaks some line with one of these judgements.
    pub(crate) fn some_never_broken(&self, judgements: &[Judgement]) -> bool
        ensures { (js : List Judgement) → (rows : List NumberedRow) → AreCountsOf js rows self.now
            → result ≡ some_never_broken judgements.now (rows_of rows) }
    {
        self.some_uncounted(judgements)
    }

    /// Counts the verdict of a row, and the lines that it breaks. An error means out of memory.
    pub(crate) fn count(&mut self, number: u64, row: &Row) -> Result<(), AllocError>
        requires few { self.old.rows + 1 < 2 ^ 64 }
        ensures rows { OnOk result (self.new.rows ≡ self.old.rows + 1) }
        ensures counts { OnOk result (CountsRow number row.now self.old self.new) }
    {
        self.rows += 1;
        self.missed += one_if(row.missed > 0);
        self.tolerated += one_if(is_tolerated(row.verdict));
        self.broken += one_if(is_broken(row.verdict));
        self.limited += one_if(is_limited(row.verdict));
        let lines = broken_lines(row);
        count_lines(&mut self.lines, lines, self.rows)?;
        self.worst = worse(self.worst, number, lines.len());
        Ok(())
    }

    /// The line of a line of the script: how many rows break it, and what it expects.
    fn put_count<W: Write>(
        &self,
        out: &mut TextWriter<'_, W>,
        script: JudgedScript<'_>,
        line: u64,
        one: LineCount,
    )
        ensures { WhereLineIs script.entry self.now line one (λ rows. Grows W.contents out.old out.new
            (script_count_line script.entry rows line)) }
    {
        out.put_text(script.name);
        out.put_numbered(b':', line);
        out.put_text(": ");
        out.put_number(one.broken);
        out.put_text(" of ");
        out.put_number(self.rows);
        put_expectation(out, script.cluster, script.judgements, one.judgement);
        out.put_text(mark(one.broken, self.rows));
        out.put_byte(b'\n');
    }

    /// The line of a line of the script, if it is counted.
    fn put_if_counted<W: Write>(
        &self,
        out: &mut TextWriter<'_, W>,
        script: JudgedScript<'_>,
        line: usize,
    )
        requires { line < length self.now.lines }
        ensures { WhereCounted script.entry self.now (λ rows. Grows W.contents out.old out.new
            (script_line_if_counted script.entry rows line)) }
    {
        let one = self.lines[line];
        if either(one.judgement.is_some(), one.broken > 0) {
            self.put_count(out, script, line as u64, one);
        }
    }

    /// A line for each line that is counted.
    pub(crate) fn put_lines<W: Write>(&self, out: &mut TextWriter<'_, W>, script: JudgedScript<'_>)
        ensures { WhereCounted script.entry self.now (λ rows. Grows W.contents out.old out.new
            (script_lines script.entry rows)) }
    {
        for line in 0..self.lines.len() {
            self.put_if_counted(out, script, line);
        }
    }

    /// The last line. The faults are those of the worst row.
    pub(crate) fn put_numbers<W: Write>(
        &self,
        out: &mut TextWriter<'_, W>,
        cluster: &Cluster,
        faults: &[SlotFault],
    )
        ensures { WhereWorst self.now faults.now (λ rows. Grows W.contents out.old out.new
            (numbers_text cluster.now rows)) }
    {
        out.put_text("campaign: ");
        out.put_number(self.rows);
        out.put_text(" rows, ");
        out.put_number(self.tolerated);
        out.put_text(" tolerated, ");
        out.put_number(self.broken);
        out.put_text(" broken, ");
        out.put_number(self.limited);
        out.put_text(" at the slot limit, ");
        out.put_number(self.missed);
        out.put_text(" with faults that missed");
        put_worst(out, cluster, faults, self.worst);
        out.put_byte(b'\n');
    }
}
