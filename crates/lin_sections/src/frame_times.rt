//! How far apart the frames of a name are in schedule tables (LIN 2.2A, section 9.2.5).

ghost use Rattle.std.specs.Prelude.{◌≡◌, ◌≤◌, ◌<◌, ◌+◌, ◌*◌, ◌^◌, ◌++◌, List, length, max, if◌then◌else◌};
ghost use Rattle.lin_cluster.specs.LintNames.{has_dot, is_of_text};
ghost use Rattle.lin_parts.specs.declared.description.TableEntry.{TableEntry};
ghost use Rattle.lin_sections.specs.FrameTimes.{is_frame_entry, distances, longest, longest_distance};
ghost use Rattle.lin_sections.specs.FrameTimes.{table_distances, time_to};

use lin_parts::description::{Description, Table, TableEntry};

/// What follows in a table: the time until the end of the next entry for a frame, and the longest time
/// between the ends of two that follow each other, in microseconds.
#[derive(Clone, Copy, Drop)]
struct Ahead {
    next: u128,
    longest: u128,
}

/// Whether an entry is for the frame of a name, and not for the configuration of nodes.
fn carries(name: &[u8], entry: &TableEntry) -> bool
    ensures { result ≡ is_frame_entry name.now entry.now }
{
    !entry.has_group && entry.name.text.as_slice() == name
}

fn has_dot(text: &[u8]) -> bool
    ensures { result ≡ has_dot text.now }
{
    text.iter().any(|c| *c == b'.')
}

/// Whether a table is one of the text, and none that settling a text of the field adds.
fn is_of_text(table: &Table) -> bool
    ensures { result ≡ is_of_text table.now }
{
    !has_dot(table.name.text.as_slice())
}

/// Returns what follows from an entry on, by what follows behind it.
fn from_entry(name: &[u8], entry: &TableEntry, behind: Ahead) -> Ahead
    requires { behind.next < 2 ^ 127 }
    ensures next { result.next
        ≡ entry.now.delay.value + (if is_frame_entry name.now entry.now then 0 else behind.next) }
    ensures longest { result.longest
        ≡ (if is_frame_entry name.now entry.now then max behind.next behind.longest else behind.longest) }
    ensures more { result.next ≤ behind.next + 2 ^ 32 }
{
    let delay = u128::from(entry.delay.value);
    if carries(name, entry) {
        Ahead {
            next: delay,
            longest: behind.next.max(behind.longest),
        }
    } else {
        Ahead {
            next: delay + behind.next,
            longest: behind.longest,
        }
    }
}

/// Returns what follows from the first of these entries on, where the next entry for the frame behind them
/// ends in so much time.
fn following(name: &[u8], entries: &[TableEntry], next: u128) -> Ahead
    requires { next ≤ 2 ^ 96 }
    ensures next { (others : List TableEntry) → next ≡ time_to name.now others
        → result.next ≡ time_to name.now (entries.now ++ others) }
    ensures longest { (others : List TableEntry) → next ≡ time_to name.now others
        → result.longest ≡ longest (distances name.now entries.now others) }
    ensures most { result.next ≤ next + length entries.now * 2 ^ 32 }
{
    let mut found = Ahead { next, longest: 0 };
    let mut left = entries.len();
    while left > 0 {
        left -= 1;
        found = from_entry(name, &entries[left], found);
    }
    found
}

/// Returns the longest time from the end of an entry for the frame of a name to the end of the next one in a
/// table, which begins again behind its last entry; 0 if it has none.
fn table_distance(name: &[u8], table: &Table) -> u128
    ensures { result ≡ longest (table_distances name.now table.now) }
{
    if !is_of_text(table) {
        return 0;
    }
    let entries = table.entries.as_slice();
    let once = following(name, entries, 0);
    following(name, entries, once.next).longest
}

/// Returns the longest of these times in any table of the text, in microseconds.
pub(crate) fn longest_distance(name: &[u8], description: &Description) -> u128
    ensures { result ≡ longest_distance name.now description.now }
{
    let mut longest = 0u128;
    for table in description.tables() {
        longest = longest.max(table_distance(name, table));
    }
    longest
}
