//! `linsim diff`: what differs between two LDFs.

ghost use Rattle.std.specs.Prelude.{◌≡◌, ◌≤◌, List, ℕ, IfOk, true};
ghost use Rattle.lin_ldf.specs.Describes.{Describes};
ghost use Rattle.lin_ldf.specs.Stream.{start_of};
ghost use Rattle.lin_ldf.specs.Symbols.{symbols_in};
ghost use Rattle.lin_tool.specs.Clusters.{AnswersText, IsSaidBy};
ghost use Rattle.lin_tool.specs.Diffing.{codings_by, ldf_differences, read_data, ReadsCluster, ReadsField};
ghost use Rattle.lin_tool.specs.Diffing.{ReadsLdf, ReadsStandard, WritesCompared};
ghost use Rattle.lin_tool.specs.Levels.{is_in_ranges};
ghost use Rattle.lin_sections.specs.Differences.{differences_data};
ghost use Rattle.lin_sections.specs.Things.{compared_data};

use crate::checking::text_at;
use crate::describing::{Reading, description_of, is_old};
use crate::fault::Fault;
use crate::field::{check_settled, settled_of};
use crate::finding_lines::Findings;
use crate::levels::{Levels, NumberRange};
use crate::notes::Notes;
use lin_cluster::{Examined, cluster_of, examine};
use lin_export::table_loads;
use lin_field::{Checked, Normalized, read_over_bytes};
use lin_ldf::UnknownWords;
use lin_parts::Cluster;
use lin_parts::description::Description;
use lin_schedule::TableLoad;
use lin_sections::{
    Classes, ComparedLdf, Difference, compared_things, differences, is_any_listed, read_codings,
    read_field_codings, write_differences,
};
use lin_text::Many;
use lin_values::Codings;
use std::alloc::{AllocError, Global};
use std::fs::Files;
use std::io::{self, Write};

/// An LDF that describes a cluster, as it is compared.
#[derive(Drop)]
pub struct ReadLdf {
    /// Without what `--field` ignores.
    text: Vec<u8>,
    description: Description,
    cluster: Cluster,
    reading: Reading,
    loads: Vec<TableLoad>,
}

impl ReadLdf {
    /// Returns what the sections of encodings contain.
    ///
    /// An error means out of memory.
    fn codings(&self, alloc: Global) -> Result<Codings, AllocError>
        ensures { IfOk result (λ k. k ≡ (read_data self.now).codings) }
    {
        codings_of(alloc, self.text.as_slice(), self.reading)
    }

    /// Returns what is compared. `codings` are its encodings.
    fn compared<'a>(&'a self, codings: &'a Codings) -> ComparedLdf<'a>
        requires { codings.now ≡ (read_data self.now).codings }
        ensures { compared_data result ≡ read_data self.now }
    {
        ComparedLdf {
            source: self.text.as_slice(),
            description: &self.description,
            cluster: &self.cluster,
            codings,
            loads: self.loads.as_slice(),
        }
    }
}

/// Returns the cluster of a description.
///
/// # Errors
/// `Findings` for all errors in the description; `OutOfMemory`.
fn described_cluster(alloc: Global, description: &Description) -> Result<Cluster, Fault>
    ensures said { IfOk result (IsSaidBy description.now) }
    ensures answers { (text : List ℕ) → Describes text description.now → AnswersText result text }
{
    let Examined { found, models } = examine(alloc, description)?;
    if found.as_slice().is_empty() {
        Ok(cluster_of(alloc, description, models.as_slice())?)
    } else {
        Err(Fault::Findings(Findings(Many::new(found))))
    }
}

/// Returns the description of an LDF of LIN 2.1 or 2.2, and its cluster.
///
/// # Errors
/// `Ldf`, `Findings`, `OutOfMemory`.
fn standard_cluster(alloc: Global, text: &[u8]) -> Result<(Description, Cluster), Fault>
    ensures { ReadsStandard result text.now }
{
    let description = description_of(alloc, text, &mut UnknownWords::new(alloc))?;
    let cluster = described_cluster(alloc, &description)?;
    Ok((description, cluster))
}

/// Returns the normalized description of an LDF that `--field` accepts, and its cluster. In the text, what
/// `--field` ignores becomes spaces.
///
/// # Errors
/// `Ldf`, `Remarks`, `OutOfMemory`.
fn field_cluster(alloc: Global, text: &mut [u8]) -> Result<(Description, Cluster), Fault>
    ensures { ReadsField result text.old text.new }
{
    let settled = settled_of(alloc, text)?;
    let Checked {
        cluster,
        warnings: _warnings,
    } = check_settled(alloc, &settled)?;
    let Normalized {
        header: _header,
        description,
        wide: _wide,
        placed_elsewhere: _placed,
        warnings: _told,
        byte_order: _order,
    } = settled;
    Ok((description, cluster))
}

/// Returns the description of an LDF, and its cluster.
///
/// # Errors
/// `Ldf` for the first fault of the text; `Findings`, or `Remarks` if it is read as `--field` does, for all
/// errors in its description; `OutOfMemory`.
fn read_cluster(
    alloc: Global,
    text: &mut [u8],
    reading: Reading,
) -> Result<(Description, Cluster), Fault>
    ensures { ReadsCluster reading result text.old text.new }
{
    match reading {
        Reading::Plain => standard_cluster(alloc, text),
        Reading::Field => field_cluster(alloc, text),
    }
}

/// Returns what the sections of encodings of an LDF contain. Which signals are wide isn't compared.
///
/// An error means out of memory.
pub(crate) fn codings_of(
    alloc: Global,
    text: &[u8],
    reading: Reading,
) -> Result<Codings, AllocError>
    ensures { IfOk result
        (λ k. k ≡ codings_by reading (symbols_in text.now (start_of text.now).tokens)) }
{
    match reading {
        Reading::Plain => read_codings(alloc, text),
        Reading::Field => read_field_codings(alloc, text, &[]),
    }
}

/// Keeps where an LDF has a fault or findings.
fn note_fault(
    alloc: Global,
    text: &[u8],
    reading: Reading,
    fault: &Fault,
    notes: &mut Notes<'_>,
) -> Result<(), AllocError> {
    match fault {
        Fault::Remarks(remarks) => notes.add_remarks(alloc, text, remarks.0.as_slice()),
        _ => notes.add_text(alloc, reading, text, fault),
    }
}

/// Returns what an LDF says. The notes keep where it has a fault or findings.
///
/// # Errors
/// `Ldf` for the first fault of the text; `Findings`, or `Remarks` if it is read as `--field` does, for all
/// errors in its description; `OutOfMemory`.
pub fn read_ldf(
    alloc: Global,
    mut text: Vec<u8>,
    reading: Reading,
    notes: &mut Notes<'_>,
) -> Result<ReadLdf, Fault>
    ensures { ReadsLdf reading result text.items }
{
    match read_cluster(alloc, text.as_mut_slice(), reading) {
        Ok((description, cluster)) => Ok(ReadLdf {
            reading,
            loads: table_loads(alloc, &cluster)?,
            text,
            description,
            cluster,
        }),
        Err(fault) => {
            if reading == Reading::Field {
                read_over_bytes(text.as_mut_slice());
            }
            note_fault(alloc, text.as_slice(), reading, &fault, notes)?;
            Err(fault)
        }
    }
}

/// Writes that an LDF of LIN 1.x was read as one of LIN 2.x, if `--field` accepts it and reads another
/// cluster. A failed write is ignored.
///
/// An error means out of memory.
fn tell_old<W: Write>(
    alloc: Global,
    ldf: &ReadLdf,
    notes: &mut Notes<'_>,
    errors: &mut W,
) -> Result<(), AllocError> {
    if is_old(alloc, ldf.text.as_slice()) {
        // (what `--field` reads, it changes)
        let mut text = Vec::from_slice(alloc, ldf.text.as_slice())?;
        notes.add_old(alloc, text.as_mut_slice(), &ldf.cluster);
        notes.tell_warnings(errors);
    }
    Ok(())
}

/// Reads the LDF in a file. If the path is `-`, it is read from standard input.
///
/// # Errors
/// `LdfTooLong`, `ReadFailed`, and those of `read_ldf`.
fn read<'a, R: AllocGlobal + Files + Input, W: Write>(
    rt: &R,
    path: &'a str,
    reading: Reading,
    notes: &mut Notes<'a>,
    errors: &mut W,
) -> Result<ReadLdf, Fault> {
    notes.wanted.file = Some(path);
    let text = text_at(rt, path)?;
    let ldf = read_ldf(rt.alloc(), text, reading, notes)?;
    if reading == Reading::Plain {
        tell_old(rt.alloc(), &ldf, notes, errors)?;
    }
    Ok(ldf)
}

/// Writes a line for each difference of these classes.
///
/// # Errors
/// `WriteFailed`, where what was written is the beginning of the lines; `Differs` after all lines, if there
/// is one.
fn write_found<W: Write>(
    files: (&str, &str),
    found: &[Difference<'_>],
    classes: Classes,
    writer: &mut W,
) -> Result<(), Fault>
    ensures { WritesCompared files.entry.0.now files.entry.1.now classes (differences_data found.now) result
        (W.contents writer.old) (W.contents writer.new) }
{
    write_differences(files.0, files.1, found, classes, writer)?;
    if is_any_listed(found, classes) {
        Err(Fault::Differs)
    } else {
        Ok(())
    }
}

/// Writes a line for each difference of these classes between two LDFs, which are in these files.
///
/// # Errors
/// `OutOfMemory`, after which nothing was written; `WriteFailed`, where what was written is the beginning of
/// the lines; `Differs` after all lines, if there is one.
pub fn write_compared<W: Write>(
    alloc: Global,
    files: (&str, &str),
    old: &ReadLdf,
    new: &ReadLdf,
    classes: Classes,
    writer: &mut W,
) -> Result<(), Fault>
    ensures { WritesCompared files.entry.0.now files.entry.1.now classes
        (ldf_differences old.now new.now) result
        (W.contents writer.old) (W.contents writer.new) }
{
    let (old_codings, new_codings) = (old.codings(alloc)?, new.codings(alloc)?);
    let (olds, news) = compared_things(
        alloc,
        old.compared(&old_codings),
        new.compared(&new_codings),
    )?;
    let found = differences(alloc, olds.as_slice(), news.as_slice())?;
    write_found(files, found.as_slice(), classes, writer)
}

/// Returns levels by which no warning is reported.
fn all_allowed(alloc: Global) -> Result<Levels, AllocError>
    ensures { IfOk result (λ l. (n : ℕ) → n ≤ 255 → is_in_ranges l.allowed n ≡ true) }
{
    let mut allowed = Vec::new(alloc);
    allowed.push(NumberRange {
        first: 0,
        last: u8::MAX,
    })?;
    Ok(Levels {
        allowed: Many::new(allowed),
        denied: Many::new(Vec::new(alloc)),
    })
}

/// Writes on standard output a line for each difference of these classes between the LDFs in two files. If
/// a path is `-`, its LDF is read from standard input.
///
/// # Errors
/// `Ldf`, `Findings`, `Remarks`, `LdfTooLong` and `ReadFailed` for the first file that has a fault or
/// findings, after which nothing was written; `WriteFailed`, where what was written is the beginning of the
/// lines; `Differs` after all lines, if there is one; `OutOfMemory`.
pub fn diff<'a, R: AllocGlobal + Files + Input + Print, W: Write>(
    rt: &R,
    files: (&'a str, &'a str),
    reading: Reading,
    classes: Classes,
    notes: &mut Notes<'a>,
    errors: &mut W,
) -> Result<(), Fault> {
    let alloc = rt.alloc();
    notes.levels = all_allowed(alloc)?;
    let old = read(rt, files.0, reading, notes, errors)?;
    let new = read(rt, files.1, reading, notes, errors)?;
    // What texts of the same bytes say is the same, so they have no difference.
    if old.text.as_slice() == new.text.as_slice() {
        return Ok(());
    }
    write_compared(alloc, files, &old, &new, classes, &mut io::writer(rt))
}
