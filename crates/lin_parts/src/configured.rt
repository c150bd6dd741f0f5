//! Configuration entries that carry their requests (LIN 2.2A, section 9.2.5).

ghost use Rattle.std.specs.Prelude.{◌≡◌};
ghost use Rattle.lin_parts.specs.Configured.{changed_items, entry_with, line_with, table_with};

use crate::parts::{Entry, Line, Table};
use lin_text::Many;

/// An entry with the request that is given for it.
fn entry_with(entry: Entry, request: Option<[u8; 8]>) -> Entry
    ensures { result ≡ entry_with entry request }
{
    match (entry, request) {
        (Entry::Quiet, Some(bytes)) => Entry::Fixed(bytes),
        _ => entry,
    }
}

/// The entries of a table, with the requests that are given for them.
fn set_requests(lines: &mut Many<Line>, requests: &[Option<[u8; 8]>])
    ensures { lines.new ≡ changed_items line_with lines.old requests.now }
{
    for k in 0..requests.len() {
        if k < lines.as_slice().len() {
            let Line { entry, delay_us } = lines.as_slice()[k];
            let entry = entry_with(entry, requests[k]);
            lines.set(k, Line { entry, delay_us });
        }
    }
}

/// The tables, with the requests that are given for their entries.
pub(crate) fn with_requests(
    mut tables: Vec<Table>,
    requests: &[Many<Option<[u8; 8]>>],
) -> Vec<Table>
    ensures { result.items ≡ changed_items table_with tables.items requests.now }
{
    for k in 0..requests.len() {
        if k < tables.len() {
            set_requests(&mut tables[k].lines, requests[k].as_slice());
        }
    }
    tables
}
