//! What a campaign plays, and how its rows are written.

ghost use Rattle.std.specs.Prelude.{◌≡◌, ◌&&◌, ◌||◌};
ghost use Rattle.lin_tool.specs.campaign.Steps.{IsDenial, is_page};

use crate::campaign::rows::{CampaignPart, RandomSets};
use crate::campaign::singles::Kinds;
use crate::campaign::summary::RowCounts;
use lin_bench::Judgement;

/// A format in which rows are written.
#[derive(Clone, Copy, Debug, PartialEq)]
pub enum RowFormat {
    /// A line of text for each row.
    Text,
    /// A table (RFC 4180).
    Csv,
    /// An object for the campaign, and one for each row (JSON, RFC 8259), one a line.
    Jsonl,
    /// A report with a case for each row, for what reads those of tests (JUnit's, in XML 1.0).
    Junit,
    /// A page for browsers (HTML), one file.
    Html,
}

/// The options of a campaign.
#[derive(Clone, Copy, Debug)]
pub struct CampaignPlan {
    /// The kinds of the single faults.
    pub kinds: Kinds,
    /// Whether each two of the single faults are a row, too.
    pub pairs: bool,
    /// Random sets of the single faults that are rows, too.
    pub random: Option<RandomSets>,
    /// The rows that are played and written: those of the nearest part that there is.
    pub part: CampaignPart,
    pub format: RowFormat,
    /// Whether a row that isn't tolerated is a fault.
    pub denies_broken: bool,
    /// Whether a line with an expectation that no row breaks is a fault.
    pub denies_never: bool,
    /// Whether it is written how many rows are done, at each tenth of them.
    pub is_watched: bool,
}

/// Whether the rows are written as a page.
pub(crate) fn is_page(format: RowFormat) -> bool
    ensures { result ≡ is_page format }
{
    matches!(format, RowFormat::Html)
}

/// Whether a plan denies what the rows came to: some row isn't tolerated, or some line is never broken.
fn denies(plan: &CampaignPlan, some_broken: bool, some_never: bool) -> bool
    ensures { result
        ≡ (plan.now.denies_broken && some_broken || plan.now.denies_never && some_never) }
{
    plan.denies_broken && some_broken || plan.denies_never && some_never
}

/// Whether the counts of a campaign are a fault.
pub(crate) fn is_denied(plan: &CampaignPlan, counts: &RowCounts, judgements: &[Judgement]) -> bool
    ensures { IsDenial plan.now counts.now judgements.now result }
{
    let some_broken = counts.some_not_tolerated();
    let some_never = counts.some_never_broken(judgements);
    denies(plan, some_broken, some_never)
}
