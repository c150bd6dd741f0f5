//! `--explain`: what is said below the lines of a fault, for who meets it first.

use crate::causes::{is_utf16, put_cause};
use crate::describing::Reading;
use crate::fault::Fault;
use crate::field::warnings_of;
use crate::meanings::{FAULTS, REFUSALS, finding_meaning};
use crate::misspelled::{described, put_near, put_near_command, put_near_word, put_unread};
use crate::parties::{put_declared, put_party};
use crate::wanted::put_wanted;
use lin_cluster::Finding;
use lin_core::{Listed, Log, Refusal, Reply};
use lin_field::{Loose, Remark, read_field};
use lin_ldf::{Description, LdfFault, Location};
use lin_log::first_line;
use lin_parts::Cluster;
use std::alloc::{AllocError, Global};

/// How many bytes of a line are shown at most.
const WIDTH: usize = 96;

/// How many bytes of a line are shown at most before a place in it.
const BEFORE: usize = 64;

/// The number of the finding of a name that nothing declares.
const UNKNOWN_NAME: u8 = 1;

/// The number of the warning about a section or an attribute that LIN doesn't have.
const UNKNOWN_WORD: u8 = 27;

/// The number of the warning about a node configuration command that LIN doesn't have.
const UNKNOWN_COMMAND: u8 = 72;

/// How many findings, or bad lines of a bench script, are explained at most.
pub(crate) const MOST: usize = 10;

/// The first character of a text, and how many bytes it has: `?` for a byte that begins none in UTF-8,
/// and for a control, which could be a part of a terminal's command.
fn first_shown(text: &[u8]) -> (char, usize) {
    let len = match text.first().copied() {
        Some(0xC2..=0xDF) => 2,
        Some(0xE0..=0xEF) => 3,
        Some(0xF0..=0xF4) => 4,
        _ => 1,
    };
    let first = std::str::from_utf8(text.get(..len).unwrap_or(&[])).unwrap_or("");
    match first.chars().next() {
        Some('\t') => (' ', len),
        Some(char) if !char.is_control() => (char, len),
        Some(_) => ('?', len),
        None => ('?', 1),
    }
}

/// Puts the characters of a text, each in one column, and returns how many there are.
pub(crate) fn put_shown(out: &mut String, bytes: &[u8]) -> Result<usize, AllocError> {
    let mut rest = bytes;
    for count in 0..bytes.len() {
        if rest.is_empty() {
            return Ok(count);
        }
        let (char, len) = first_shown(rest);
        out.push(char)?;
        rest = rest.get(len..).unwrap_or(&[]);
    }
    Ok(bytes.len())
}

/// The line of this number, from 1; no bytes where there is none.
fn line_of(text: &[u8], number: u64) -> &[u8] {
    let mut rest = text;
    for _ in 1..number {
        match first_line(rest) {
            (_, Some(others)) => rest = others,
            (_, None) => return &[],
        }
    }
    first_line(rest).0
}

/// Puts the line of a place in a text, and a mark under the place.
pub(crate) fn put_place(out: &mut String, text: &[u8], place: Location) -> Result<(), AllocError> {
    let line = line_of(text, place.line);
    let at = line.len().min(place.column.saturating_sub(1) as usize);
    let from = at.saturating_sub(BEFORE);
    let to = line.len().min(from.saturating_add(WIDTH));
    out.push_str("  ")?;
    let columns = put_shown(out, line.get(from..at).unwrap_or(&[]))?;
    put_shown(out, line.get(at..to).unwrap_or(&[]))?;
    out.push_str("\n  ")?;
    for _ in 0..columns {
        out.push_str(" ")?;
    }
    out.push_str("^\n")
}

/// Where a text is at fault, and the fault's number.
pub(crate) fn place_of(fault: &LdfFault) -> Option<(Location, u8)> {
    match fault {
        LdfFault::BadByte(place) => Some((*place, 1)),
        LdfFault::OpenComment(place) => Some((*place, 2)),
        LdfFault::OpenText(place) => Some((*place, 3)),
        LdfFault::Unexpected(place) => Some((*place, 4)),
        LdfFault::NumberTooLarge(place) => Some((*place, 5)),
        LdfFault::SectionTwice(place) => Some((*place, 6)),
        LdfFault::NameTwice(place) => Some((*place, 7)),
        LdfFault::OutOfMemory => None,
    }
}

fn put_fault(
    alloc: Global,
    out: &mut String,
    reading: Reading,
    text: &[u8],
    fault: &LdfFault,
) -> Result<(), AllocError> {
    let Some((place, number)) = place_of(fault) else {
        return Ok(());
    };
    if is_utf16(text) {
        return out.push_str("  UTF-16 file\n  help: save it as UTF-8 or Latin-1\n");
    }
    put_place(out, text, place)?;
    if let Some((_, meaning)) = FAULTS.get(usize::from(number).wrapping_sub(1)) {
        writeln!(out, "  {meaning}")?;
    }
    put_cause(alloc, out, text, fault, place)?;
    match fault {
        LdfFault::Unexpected(_) => put_wanted(alloc, out, reading, text, place),
        LdfFault::NameTwice(_) => put_declared(alloc, out, text, place),
        _ => Ok(()),
    }
}

/// Puts the place of a finding, its line and a mark.
fn put_found(out: &mut String, text: &[u8], finding: &Finding) -> Result<(), AllocError> {
    let Finding {
        number: _,
        line,
        column,
        needed_us: _,
    } = *finding;
    writeln!(out, "{line}:{column}")?;
    put_place(out, text, Location { line, column })
}

/// Puts what a finding of a number means and what to change, and how many of it there are where there
/// are several.
fn put_meaning(out: &mut String, number: u8, count: usize) -> Result<(), AllocError> {
    if let Some((meaning, change)) = finding_meaning(number) {
        writeln!(out, "  {meaning}\n  help: {change}")?;
    }
    if count > 1 {
        writeln!(out, "  {count} of this kind")?;
    }
    Ok(())
}

/// Puts the most similar name to one that nothing declares, or the most similar word to one that LIN
/// doesn't have as a section, an attribute or a command; of other findings the other party.
fn put_unknown(
    alloc: Global,
    out: &mut String,
    text: &[u8],
    description: Option<&Description>,
    finding: &Finding,
) -> Result<(), AllocError> {
    let Finding {
        number,
        line,
        column,
        needed_us: _,
    } = *finding;
    let place = Location { line, column };
    match description {
        _ if number == UNKNOWN_WORD => put_near_word(alloc, out, text, place),
        _ if number == UNKNOWN_COMMAND => put_near_command(alloc, out, text, place),
        Some(description) if number == UNKNOWN_NAME => {
            put_near(alloc, out, text, description, place)
        }
        Some(description) => put_party(alloc, out, description, number, place),
        None => Ok(()),
    }
}

/// Whether a number is met for the first time. It is met from now on.
fn is_new(met: &mut [bool; 256], number: u8) -> bool {
    let is_new = !met[usize::from(number)];
    met[usize::from(number)] = true;
    is_new
}

/// Puts the first ten findings of an LDF text, and at the first one of each number what it means; and
/// the words that LIN doesn't have, if they aren't among the findings.
fn put_all(
    alloc: Global,
    out: &mut String,
    reading: Reading,
    text: &[u8],
    findings: &[Finding],
) -> Result<(), AllocError> {
    let description = if findings.is_empty() {
        None
    } else {
        described(alloc, reading, text)?
    };
    let mut explained = [false; 256];
    for finding in findings.iter().take(MOST) {
        let number = finding.number;
        put_found(out, text, finding)?;
        if is_new(&mut explained, number) {
            let alike = findings.iter().filter(|other| other.number == number);
            put_meaning(out, number, alike.count())?;
        }
        put_unknown(alloc, out, text, description.as_ref(), finding)?;
    }
    if findings
        .iter()
        .any(|finding| finding.number == UNKNOWN_WORD)
    {
        return Ok(());
    }
    put_unread(alloc, out, text)
}

/// Puts where an LDF text is at fault, and what that means: of the first ten findings.
pub(crate) fn put_text(
    alloc: Global,
    out: &mut String,
    reading: Reading,
    text: &[u8],
    fault: &Fault,
) -> Result<(), AllocError> {
    // (columns of the first line count from after a byte-order mark)
    let text = text.strip_prefix(b"\xEF\xBB\xBF").unwrap_or(text);
    match fault {
        Fault::Ldf(fault) => put_fault(alloc, out, reading, text, fault),
        Fault::Findings(findings) => {
            put_all(alloc, out, Reading::Plain, text, findings.0.as_slice())
        }
        _ => Ok(()),
    }
}

/// Puts where an LDF text is remarked on, and what that means: of the first ten; and which words in it
/// LIN doesn't have.
pub(crate) fn put_remarks(
    alloc: Global,
    out: &mut String,
    text: &[u8],
    remarks: &[Remark],
) -> Result<(), AllocError> {
    let text = text.strip_prefix(b"\xEF\xBB\xBF").unwrap_or(text);
    let mut findings = Vec::new(alloc);
    for remark in remarks {
        findings.push(remark.finding)?;
    }
    put_all(alloc, out, Reading::Field, text, findings.as_slice())
}

/// Puts what `--field` makes of a text that is refused without it: with how many warnings it reads
/// it; nothing where it refuses it too.
pub(crate) fn put_refused_field(
    alloc: Global,
    out: &mut String,
    text: &mut [u8],
) -> Result<(), AllocError> {
    match warnings_of(alloc, text) {
        Ok(count) => writeln!(
            out,
            "  with --field, this LDF is accepted (warnings: {count})"
        ),
        Err(Fault::OutOfMemory) => Err(AllocError),
        Err(_) => Ok(()),
    }
}

/// Puts what of a text that was read is read by `--field` alone.
fn put_loose(out: &mut String, loose: &Loose) -> Result<(), AllocError> {
    if loose.header.is_old() {
        out.push_str("  the version in the header is ")?;
        put_shown(out, loose.header.version.as_slice())?;
        out.push_str(": with --field, each node without LIN_protocol is a node of LIN 1.x\n")?;
    }
    if !loose.addresses.as_slice().is_empty() {
        out.push_str("  with --field, the NADs of Diagnostic_addresses are used\n")?;
    }
    Ok(())
}

/// Puts what of a text that is accepted is read by `--field` alone.
pub(crate) fn put_accepted_field(
    alloc: Global,
    out: &mut String,
    text: &mut [u8],
) -> Result<(), AllocError> {
    match read_field(alloc, text) {
        Ok(read) => put_loose(out, &read.loose),
        Err(LdfFault::OutOfMemory) => Err(AllocError),
        Err(_) => Ok(()),
    }
}

/// Puts the names of a cluster's schedule tables.
pub(crate) fn put_tables(out: &mut String, cluster: &Cluster) -> Result<(), AllocError> {
    out.push_str("  schedule tables:")?;
    for table in 0..cluster.tables() as u16 {
        out.push_str(" ")?;
        put_shown(out, cluster.table_name(table))?;
    }
    out.push_str("\n")
}

/// Puts a line of a script.
pub(crate) fn put_line(out: &mut String, script: &[u8], number: u64) -> Result<(), AllocError> {
    let line = line_of(script, number);
    out.push_str("  ")?;
    put_shown(out, line.get(..WIDTH).unwrap_or(line))?;
    out.push_str("\n")
}

/// Puts a line of a script that is in no form.
pub(crate) fn put_bad_line(out: &mut String, script: &[u8], number: u64) -> Result<(), AllocError> {
    put_line(out, script, number)?;
    out.push_str("  expected: a port (bus, h0, n1 ..), a step (open, send ..) and its arguments\n")
}

/// How many steps of a log were refused, by the refusals' numbers.
fn counts(log: &Log) -> [u64; 18] {
    let mut counts = [0u64; 18];
    for index in 0..log.len() {
        if let Reply::Refused(refusal) = &log.entry(index).reply {
            if let Some(count) = counts.get_mut(*refusal as usize) {
                *count = count.saturating_add(1);
            }
        }
    }
    counts
}

/// Puts how many steps of a log were refused, and why; nothing where none was.
pub(crate) fn put_refusals(out: &mut String, log: &Log) -> Result<(), AllocError> {
    let steps = log.len();
    let counts = counts(log);
    for (at, meaning) in REFUSALS.iter().enumerate() {
        let (Some(count), Some(refusal)) = (counts.get(at), Refusal::all().get(at)) else {
            return Ok(());
        };
        if *count > 0 {
            let (number, name) = (refusal.number(), refusal.word());
            writeln!(
                out,
                "  refused steps: {count} of {steps} ({number} {name}): {meaning}"
            )?;
        }
    }
    Ok(())
}
