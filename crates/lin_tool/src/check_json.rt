//! `linsim check --to json`: what is found in an LDF, as one object.

use crate::checking::text_at;
use crate::coding::{Described, Encodings, Extras};
use crate::describing::{Reading, cluster_read, description_of};
use crate::diffing::codings_of;
use crate::fault::{Fault, exit_status};
use crate::field::settled_of;
use crate::locating::{lexed, problems_of_fault, problems_of_remarks, shown_token};
use crate::notes::Notes;
use lin_export::{Found, Problem, write_object};
use lin_field::{Normalized, read_over_bytes};
use lin_ldf::{Token, TokenKind, UnknownWords};
use lin_parts::description::Description;
use lin_values::{CodingType, Codings};
use std::alloc::{AllocError, Global};
use std::fs::Files;
use std::io;

/// What an LDF has besides its cluster.
#[derive(Drop)]
struct Source {
    description: Description,
    /// If the encodings are read.
    codings: Option<Codings>,
    protocol: Vec<u8>,
    language: Vec<u8>,
}

/// The name of a problem of a file whose LDF couldn't be read.
fn unread_name(fault: &Fault) -> Option<&'static str> {
    match fault {
        Fault::LdfTooLong => Some("ldf too long"),
        Fault::ReadFailed => Some("read failed"),
        _ => None,
    }
}

/// The version in a line of a standard header, as it is shown.
fn version(
    alloc: Global,
    text: &[u8],
    tokens: &[Token],
    word: &[u8],
) -> Result<Vec<u8>, AllocError> {
    let mut is_version = false;
    for token in tokens {
        let bytes = text.get(token.start..token.end).unwrap_or(&[]);
        match token.kind {
            TokenKind::Word => is_version = bytes == word,
            TokenKind::Text if is_version => {
                let inner = bytes.get(1..bytes.len().saturating_sub(1));
                return Ok(shown_token(alloc, inner.unwrap_or(&[]))?.into_bytes());
            }
            _ => {}
        }
    }
    Ok(Vec::new(alloc))
}

/// What an LDF of LIN 2.1 or 2.2 has besides its cluster, without its encodings.
fn standard_source(alloc: Global, text: &[u8]) -> Result<Source, Fault> {
    let tokens = lexed(alloc, text)?;
    let protocol = version(alloc, text, tokens.as_slice(), b"LIN_protocol_version")?;
    let language = version(alloc, text, tokens.as_slice(), b"LIN_language_version")?;
    Ok(Source {
        description: description_of(alloc, text, &mut UnknownWords::new(alloc))?,
        codings: None,
        protocol,
        language,
    })
}

/// What an LDF that `--field` accepts has besides its cluster, without its encodings.
fn field_source(alloc: Global, text: &mut [u8]) -> Result<Source, Fault> {
    let Normalized {
        header,
        description,
        ..
    } = settled_of(alloc, text)?;
    let language = match &header.language {
        Some(language) => shown_token(alloc, language.as_slice())?.into_bytes(),
        None => Vec::new(alloc),
    };
    Ok(Source {
        description,
        codings: None,
        protocol: shown_token(alloc, header.version.as_slice())?.into_bytes(),
        language,
    })
}

/// What an LDF has besides its cluster.
fn source_of(
    alloc: Global,
    mut text: Vec<u8>,
    reading: Reading,
    is_physical: bool,
) -> Result<Source, Fault> {
    let mut source = match reading {
        Reading::Plain => standard_source(alloc, text.as_slice())?,
        Reading::Field => field_source(alloc, text.as_mut_slice())?,
    };
    if is_physical {
        source.codings = Some(codings_of(alloc, text.as_slice(), reading)?);
    }
    Ok(source)
}

/// The problems that are reported, in the order of their lines; `None` if there is no memory.
fn problems_of(
    alloc: Global,
    text: &[u8],
    answer: &Result<Described, Fault>,
    notes: &Notes<'_>,
) -> Result<Vec<Problem>, AllocError> {
    let remarks = match answer {
        Ok(_) => notes.warnings.as_slice(),
        Err(Fault::Remarks(remarks)) => remarks.0.as_slice(),
        Err(fault) => return problems_of_fault(alloc, text, fault),
    };
    let reported = notes.levels.reported(alloc, remarks)?;
    problems_of_remarks(alloc, text, reported.as_slice())
}

/// Writes the object of an LDF that describes a cluster.
fn write_described<R: AllocGlobal + Print>(
    rt: &R,
    path: &str,
    described: &Described,
    source: &Source,
    problems: &[Problem],
    status: u8,
) -> Result<(), Fault> {
    let found = Found {
        cluster: &described.cluster,
        description: &source.description,
        coded: described.coded.as_ref(),
        protocol: source.protocol.as_slice(),
        language: source.language.as_slice(),
    };
    let encodings = source
        .codings
        .as_ref()
        .map(|codings| codings.types.as_slice());
    Ok(write_object(
        path,
        status,
        Some(&found),
        encodings,
        problems,
        &mut io::writer(rt),
    )?)
}

/// Writes the object of an LDF that describes no cluster. It has no encodings.
fn write_refused<R: AllocGlobal + Print>(
    rt: &R,
    path: &str,
    extras: Extras,
    problems: &[Problem],
    status: u8,
) -> Result<(), Fault> {
    let none: &[CodingType] = &[];
    let encodings = if is_physical(extras) {
        Some(none)
    } else {
        None
    };
    Ok(write_object(path, status, None, encodings, problems, &mut io::writer(rt))?)
}

/// Whether encodings are read for more than a lint.
fn is_physical(extras: Extras) -> bool {
    match extras.encodings {
        Encodings::Unread => false,
        Encodings::Read | Encodings::Told => true,
    }
}

/// Writes the object of a file that couldn't be read.
fn write_unread<R: AllocGlobal + Print>(
    rt: &R,
    path: &str,
    extras: Extras,
    fault: Fault,
) -> Result<(), Fault> {
    let Some(name) = unread_name(&fault) else {
        return Err(fault);
    };
    let problems = [Problem {
        kind: "fault",
        number: None,
        name,
        needed_us: None,
        place: None,
        token: None,
    }];
    let ended = Err(fault);
    write_refused(rt, path, extras, problems.as_slice(), exit_status(&ended))?;
    ended
}

/// Writes the object of an LDF.
fn write_read<R: AllocGlobal + Print>(
    rt: &R,
    path: &str,
    mut text: Vec<u8>,
    reading: Reading,
    extras: Extras,
    notes: &mut Notes<'_>,
) -> Result<(), Fault> {
    let alloc = rt.alloc();
    let mut rest = text.as_slice();
    let answer = cluster_read(alloc, &mut rest, reading, extras, notes);
    if reading == Reading::Field {
        read_over_bytes(text.as_mut_slice());
    }
    let problems = problems_of(alloc, text.as_slice(), &answer, notes)?;
    match answer {
        Ok(described) => {
            let source = source_of(alloc, text, reading, is_physical(extras))?;
            let status = notes.status(&Ok(()));
            write_described(rt, path, &described, &source, problems.as_slice(), status)
        }
        Err(Fault::OutOfMemory) => Err(Fault::OutOfMemory),
        Err(fault) => {
            let ended = Err(fault);
            write_refused(rt, path, extras, problems.as_slice(), exit_status(&ended))?;
            ended
        }
    }
}

/// Writes on standard output one object with what is found in the LDF in the file at `path`: its
/// cluster, if it describes one, and the problems that are reported. If the path is `-`, the LDF is read
/// from standard input.
///
/// # Errors
/// Those of `cluster_at`, after which the object was written, except for `OutOfMemory`; `WriteFailed`,
/// where what was written is the beginning of the object.
pub fn check_object<R: AllocGlobal + Files + Input + Print>(
    rt: &R,
    path: &str,
    reading: Reading,
    extras: Extras,
    notes: &mut Notes<'_>,
) -> Result<(), Fault> {
    let text = text_at(rt, path);
    notes.add_unread(&text, if path == "-" { None } else { Some(path) });
    match text {
        Ok(text) => write_read(rt, path, text, reading, extras, notes),
        Err(fault) => write_unread(rt, path, extras, fault),
    }
}
