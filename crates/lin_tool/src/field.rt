//! Clusters from LDF texts of the field.

ghost use Rattle.lin_ldf.specs.Stream.{start_of};
ghost use Rattle.lin_ldf.specs.Symbols.{symbols_in};
ghost use Rattle.lin_tool.specs.Field.{AnswersChecked, AnswersField, AnswersNormalized, ChecksField};
ghost use Rattle.lin_tool.specs.Field.{WritesPlain};

use crate::coding::{
    Described, Encodings, ExtraSections, Extras, coded_noted, configured, sections_of,
    with_findings, with_lints,
};
use crate::describing::{Reading, fault_of, let_go, read_text};
use crate::fault::Fault;
use crate::finding_lines::Remarks;
use crate::notes::Notes;
use crate::page::data::lines_of;
use lin_field::{
    Checked, FieldFault, Normalized, check_field, read_field, read_over_bytes, settle, write_plain,
};
use lin_parts::Cluster;
use lin_sections::unknown_words;
use lin_text::Many;
use std::alloc::{AllocError, Global};
use std::io::{Read, Write};

/// What a text of the field is settled to. In the bytes what is read over becomes spaces.
///
/// # Errors
/// `Ldf` for the first fault of the text; `OutOfMemory`.
pub(crate) fn settled_of(alloc: Global, bytes: &mut [u8]) -> Result<Normalized, Fault>
    ensures { AnswersNormalized result bytes.old bytes.new }
{
    match read_field(alloc, bytes) {
        Ok(text) => Ok(settle(alloc, text)?),
        Err(fault) => Err(fault_of(fault)),
    }
}

pub(crate) fn check_settled(alloc: Global, settled: &Normalized) -> Result<Checked, Fault>
    ensures { ChecksField settled.now result }
{
    match check_field(alloc, settled) {
        Ok(checked) => Ok(checked),
        Err(FieldFault::OutOfMemory) => Err(Fault::OutOfMemory),
        Err(FieldFault::Remarks(remarks)) => Err(Fault::Remarks(Remarks(remarks))),
    }
}

/// With how many warnings a text of the field is read.
///
/// # Errors
/// `Ldf`, `Remarks` or `OutOfMemory`, where it isn't.
pub(crate) fn warnings_of(alloc: Global, bytes: &mut [u8]) -> Result<usize, Fault> {
    let settled = settled_of(alloc, bytes)?;
    Ok(check_settled(alloc, &settled)?.warnings.as_slice().len())
}

/// Whether `--field` reads another cluster in a text than this one: other lists of nodes, frames or
/// slots.
///
/// # Errors
/// As of `warnings_of`.
pub(crate) fn is_read_otherwise(
    alloc: Global,
    bytes: &mut [u8],
    cluster: &Cluster,
) -> Result<bool, Fault> {
    let settled = settled_of(alloc, bytes)?;
    let Checked {
        cluster: other,
        warnings: _warnings,
    } = check_settled(alloc, &settled)?;
    let lines = lines_of(alloc, &other)?;
    Ok(lines.as_slice() != lines_of(alloc, cluster)?.as_slice())
}

/// The text where the notes want it; its bytes that are read over are spaces. (Its marks stand.)
fn noted_text(alloc: Global, bytes: &[u8], notes: &Notes<'_>) -> Result<Vec<u8>, AllocError> {
    if !notes.is_text_wanted() {
        return Ok(Vec::new(alloc));
    }
    let mut text = Vec::from_slice(alloc, bytes)?;
    read_over_bytes(text.as_mut_slice());
    Ok(text)
}

/// What a text of the field is settled to, as of `settled_of`. Where it is at fault, the notes tell
/// where in `text`.
fn settled_noted(
    alloc: Global,
    bytes: &mut [u8],
    text: &[u8],
    notes: &mut Notes<'_>,
) -> Result<Normalized, Fault>
    ensures { AnswersNormalized result bytes.old bytes.new }
{
    let answer = settled_of(alloc, bytes);
    if let Err(fault) = &answer {
        notes.add_text(alloc, Reading::Field, text, fault)?;
    }
    answer
}

/// The bytes of an LDF that `--field` reads: without surplus marks, whose tokens are read; and with them, for
/// the places of warnings and errors.
#[derive(Clone, Copy)]
struct FieldTexts<'a> {
    mended: &'a [u8],
    text: &'a [u8],
}

/// The cluster of what a text of the field is settled to, with the requests of its commands if that is
/// wanted, and what the values of its signals mean by its sections of encodings, where they are read. The
/// notes keep all warnings, or tell where something is wrong.
///
/// # Errors
/// `Remarks` for all that is wrong, and the warnings of what was settled; `OutOfMemory`.
fn cluster_noted(
    alloc: Global,
    settled: &Normalized,
    sections: ExtraSections,
    extras: Extras,
    texts: FieldTexts<'_>,
    notes: &mut Notes<'_>,
) -> Result<Described, Fault>
    ensures { AnswersChecked extras settled.now sections
        (symbols_in texts.entry.mended.now (start_of texts.entry.mended.now).tokens)
        result notes.new.warnings }
{
    let FieldTexts { mended, text } = texts;
    let ExtraSections {
        codings,
        configurables,
        found,
        limits,
    } = sections;
    match check_settled(alloc, settled) {
        Ok(Checked { cluster, warnings }) => {
            let words = with_findings(warnings, found.as_slice())?;
            let warnings = with_lints(
                alloc,
                words,
                &settled.description,
                settled.placed_elsewhere.as_slice(),
                configurables,
                codings.as_ref(),
            )?;
            let checked = configured(alloc, Checked { cluster, warnings }, extras, mended)?;
            coded_noted(
                alloc,
                checked,
                codings,
                limits,
                extras.encodings,
                text,
                notes,
            )
        }
        Err(fault) => {
            if let Fault::Remarks(remarks) = &fault {
                notes.add_remarks(alloc, text, remarks.0.as_slice())?;
            }
            Err(fault)
        }
    }
}

/// The cluster that a text of the field describes, as a reader gives it, and what the values of its
/// signals mean by its sections of encodings, where they are read. The notes keep its warnings, those
/// that the extras want among them, by place and then by number; or tell where it is at fault.
///
/// # Errors
/// Those of `read_text`; `Ldf` for the first fault of the text; `Remarks` for all the reasons why it
/// describes no cluster, and the warnings of what it is settled to; `OutOfMemory`.
#[tactic(auto, using(crate::proofs::FieldTexts::unsettled, crate::proofs::FieldTexts::checked, crate::proofs::FieldTexts::field_unread))]
pub fn field_of_reader<R: Read>(
    alloc: Global,
    reader: &mut R,
    extras: Extras,
    notes: &mut Notes<'_>,
) -> Result<Described, Fault>
    ensures { AnswersField extras result notes.new.warnings (R.remaining reader.old) }
{
    let mut bytes = read_text(alloc, reader)?;
    let text = noted_text(alloc, bytes.as_slice(), notes)?;
    let settled = settled_noted(alloc, bytes.as_mut_slice(), text.as_slice(), notes)?;
    let (wide, left) = (settled.wide.as_slice(), bytes.as_slice());
    let sections = sections_of(alloc, left, &settled.description, Some(wide), extras)?;
    if !extras.is_configured {
        let_go(&mut bytes);
    }
    let (mended, text) = (bytes.as_slice(), text.as_slice());
    let texts = FieldTexts { mended, text };
    cluster_noted(alloc, &settled, sections, extras, texts, notes)
}

/// Writes a plain LDF text of what a text of the field is settled to.
///
/// # Errors
/// Those of `field_of_reader` but for reading, after which nothing was written; `WriteFailed`, where
/// what was written is the beginning of the text.
pub(crate) fn write_field<W: Write>(
    alloc: Global,
    bytes: Vec<u8>,
    writer: &mut W,
    notes: &mut Notes<'_>,
) -> Result<(), Fault>
    ensures { WritesPlain (W.contents writer.old) (W.contents writer.new) result bytes.items }
{
    let mut bytes = bytes;
    let text = noted_text(alloc, bytes.as_slice(), notes)?;
    let settled = settled_noted(alloc, bytes.as_mut_slice(), text.as_slice(), notes)?;
    let sections = ExtraSections {
        codings: None,
        configurables: None,
        found: Many::new(unknown_words(alloc, bytes.as_slice())?),
        limits: Many::new(Vec::new(alloc)),
    };
    let extras = Extras {
        encodings: Encodings::Unread,
        is_linted: false,
        is_configured: false,
    };
    let texts = FieldTexts {
        mended: &[],
        text: text.as_slice(),
    };
    match cluster_noted(alloc, &settled, sections, extras, texts, notes) {
        Ok(_described) => match write_plain(alloc, &settled, bytes.as_slice(), writer)? {
            Ok(()) => Ok(()),
            Err(_) => Err(Fault::WriteFailed),
        },
        Err(fault) => Err(fault),
    }
}
