//! What a run begins with: the cluster, the schedule table, and how many messages of a host may
//! wait.

ghost use Rattle.std.specs.Prelude.{◌≡◌, ◌≤◌, ◌<◌, length, IfOk};
ghost use Rattle.lin_tool.specs.Opening.{IsOpened, OpensTable, encodings_of, opening_of, room_for};

use crate::coding::{Described, Encodings, Extras};
use crate::describing::{Reading, cluster_of_file};
use crate::fault::Fault;
use crate::formats::Format;
use crate::notes::Notes;
use lin_bench::NodeLimits;
use lin_parts::Cluster;
use lin_text::Many;
use lin_values::Coded;
use std::fs::Files;

/// What a run begins with, and how its log is written.
#[derive(Clone, Copy, Debug, Drop)]
pub struct Settings<'a> {
    /// The LDF file; without one the cluster is the built-in one.
    pub file: Option<&'a str>,
    /// How the LDF file is read.
    pub reading: Reading,
    /// The schedule table, by its name; without one it is the first.
    pub table: Option<&'a str>,
    /// How many messages of a host may wait: the nearest number of 1 to 1,024.
    pub capacity: u16,
    /// The format of the log.
    pub format: Format<'a>,
    /// Whether values are written as what they mean, too, and what is wrong with encodings is told.
    pub is_physical: bool,
    /// Whether the requests of node configuration commands are sent.
    pub is_configured: bool,
    /// Whether a play is strict: refused steps of which the script doesn't speak aren't met either.
    pub is_strict: bool,
}

/// The number of the cluster's schedule table of this name; of the first one, where no name is
/// given.
///
/// # Errors
/// `NoSuchTable` where no table has the name, or there is no table.
pub fn opening_table(cluster: &Cluster, name: Option<&str>) -> Result<u16, Fault>
    ensures table { OpensTable result (opening_of cluster.now name.entry) }
    ensures range { IfOk result (λ table. table < length cluster.now.tables) }
{
    match name {
        Some(name) => cluster.table_named(name).ok_or(Fault::NoSuchTable),
        None if cluster.tables() > 0 => Ok(0),
        None => Err(Fault::NoSuchTable),
    }
}

/// What a run of settings begins with.
#[derive(Drop)]
pub struct Opened<'a> {
    pub cluster: Cluster,
    /// The number of its schedule table.
    pub table: u16,
    /// What the values of its signals mean, where that is read.
    pub coded: Option<Coded>,
    /// The limits of the transfers of its nodes in the LDF, if they are read.
    pub limits: Many<NodeLimits>,
    pub settings: Settings<'a>,
}

impl Settings<'_> {
    /// How a run reads the sections of encodings, which it reads in any case where lines may say
    /// values in words.
    fn encodings(&self, has_words: bool) -> Encodings
        ensures { result ≡ encodings_of self.now.is_physical has_words }
    {
        if self.is_physical {
            Encodings::Told
        } else if has_words {
            Encodings::Read
        } else {
            Encodings::Unread
        }
    }
}

/// What a run of these settings begins with, whose lines may say values in words. Where there is no
/// such table, the notes tell the names of those that there are.
///
/// # Errors
/// Those of `cluster_of_file` and `opening_table`.
pub(crate) fn begin<'a, R: AllocGlobal + Files>(
    rt: &R,
    settings: &Settings<'a>,
    has_words: bool,
    notes: &mut Notes<'_>,
) -> Result<Opened<'a>, Fault>
    ensures begins { IfOk result (λ it. IsOpened settings.now has_words it notes.new.warnings) }
    ensures range { IfOk result (λ it. it.table < length it.cluster.tables) }
{
    let (file, reading) = (settings.file, settings.reading);
    let extras = Extras {
        encodings: settings.encodings(has_words),
        is_linted: false,
        is_configured: settings.is_configured,
    };
    let Described {
        cluster,
        coded,
        limits,
    } = cluster_of_file(rt, file, reading, extras, notes)?;
    match opening_table(&cluster, settings.table) {
        Ok(table) => Ok(Opened {
            cluster,
            table,
            coded,
            limits,
            settings: *settings,
        }),
        Err(fault) => {
            notes.add_tables(&cluster);
            Err(fault)
        }
    }
}

/// How many messages of a host may wait, where so many are asked for: the nearest number of 1 to
/// 1,024.
pub(crate) fn within_limits(capacity: u16) -> usize
    ensures value { result ≡ room_for capacity }
    ensures range { (1 ≤ result) × (result ≤ 1024) }
{
    usize::from(capacity.clamp(1, 1024))
}
