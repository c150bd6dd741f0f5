//! What the rows of a campaign's part are made of.

ghost use Rattle.std.specs.Prelude.{◌≡◌, ◌≤◌, ◌==◌, ◌&&◌, false, nat_lt};
ghost use Rattle.std.specs.Io.KnownBytes.{Keeps};
ghost use Rattle.lin_tool.specs.campaign.Steps.{IsTable, cases_of, first_disturbed};

use crate::campaign::row::Row;
use crate::campaign::rows::{CampaignPart, Rows};
use crate::campaign::singles::Single;
use lin_bench::Judgement;
use lin_text::{TextBuffer, TextWriter};
use std::io::Write;

/// The number of a part's first row with faults, where the part begins at this row. Row 0 has none.
pub(crate) fn first_disturbed(from: u64) -> u64
    ensures { result ≡ first_disturbed from }
{
    from.max(1)
}

/// Whether the rows from one up to another have row 0.
pub(crate) fn has_calm(from: u64, to: u64) -> bool
    ensures { result ≡ ((from == 0) && nat_lt 0 to) }
{
    from == 0 && to > 0
}

/// The rows of a campaign, by what they are made of.
#[derive(Clone, Copy)]
pub(crate) struct RowSource<'a> {
    pub singles: &'a [Single],
    pub rows: &'a Rows,
    pub part: CampaignPart,
    /// The row of the undisturbed play.
    pub calm: &'a Row,
    /// The judgements of the undisturbed play.
    pub judgements: &'a [Judgement],
    pub is_watched: bool,
}

impl RowSource<'_> {
    /// How many rows of the part have faults, or can have some: all but row 0.
    pub(crate) fn cases(&self) -> u64
        requires table { IsTable self.now }
        ensures { result ≡ cases_of self.now }
    {
        let (from, to) = self.rows.bounds(self.part);
        to.saturating_sub(first_disturbed(from))
    }

    /// Writes how many rows of a part are done, if that is one more tenth of them and the rows are watched.
    pub(crate) fn watch<E: Write>(&self, done: u64, rows: u64, errors: &mut E)
        requires some { 1 ≤ done }
        requires order { done ≤ rows }
        ensures { self.now.is_watched ≡ false
            → Keeps (E.contents errors.old) (E.contents errors.new) }
    {
        if self.is_watched {
            write_progress(done, rows, errors);
        }
    }
}

/// Writes how many rows of a part are done, if that is one more tenth of them.
fn write_progress<E: Write>(done: u64, rows: u64, errors: &mut E)
    requires some { 1 ≤ done }
    requires order { done ≤ rows }
{
    let (before, now) = (
        (u128::from(done) - 1) * 10 / u128::from(rows),
        u128::from(done) * 10 / u128::from(rows),
    );
    if before < now {
        let mut buffer = TextBuffer::empty();
        let mut out = TextWriter::new(errors, &mut buffer);
        out.put_text("linsim: ");
        out.put_number(done);
        out.put_text(" of ");
        out.put_number(rows);
        out.put_text(" rows\n");
        let _ = out.finish();
    }
}
