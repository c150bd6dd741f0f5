//! Clusters of LDF texts, and logs and bench scripts run on them.

use lin_bench::{
    LinePlace, PlayFault, Played, ReadFault, ScriptLine, Source, play, read, write_unmet,
};
use lin_cluster::check;
use lin_core::Core;
use lin_ldf::parse;
use lin_log::replay;
use lin_parts::Cluster;
use std::alloc::{AllocError, Global};
use std::process::Abort;
use std::test::Fail;

/// The cluster of an LDF text.
pub fn cluster_of(alloc: Global, ldf: &[u8]) -> Result<Cluster, Fail> {
    let description = parse(alloc, ldf)?;
    Ok(check(alloc, description)?)
}

/// The core of the cluster of an LDF text after a log on its first table.
pub fn run(alloc: Global, ldf: &[u8], log: &[u8]) -> Result<Core, Fail> {
    let cluster = cluster_of(alloc, ldf)?;
    if cluster.tables() == 0 {
        return Err(Fail::from("no table"));
    }
    let mut rest = log;
    let mut text = Vec::new(alloc);
    Ok(replay(alloc, cluster, 0, 16, &mut rest, &mut text)?)
}

/// The lines of a text, or its fault.
pub fn read_text(
    alloc: Global,
    cluster: &Cluster,
    text: &[u8],
) -> Result<Result<Vec<(LinePlace, ScriptLine)>, ReadFault>, Fail> {
    if text.len() > 16_777_216 {
        return Err(Fail::from("too long"));
    }
    Ok(read(alloc, cluster, None, &[], Source::of(text)))
}

/// The lines of a text.
pub fn lines_of(
    alloc: Global,
    cluster: &Cluster,
    text: &[u8],
) -> Result<Vec<(LinePlace, ScriptLine)>, Fail> {
    match read_text(alloc, cluster, text)? {
        Ok(lines) => Ok(lines),
        Err(ReadFault::OutOfMemory) => Err(Fail::from("OutOfMemory")),
        Err(ReadFault::BadLine { .. }) => Err(Fail::from("not read")),
    }
}

/// A text, played on the first table of a cluster.
pub fn played(alloc: Global, ldf: &[u8], text: &[u8]) -> Result<Played, Fail> {
    let cluster = cluster_of(alloc, ldf)?;
    let lines = lines_of(alloc, &cluster, text)?;
    if cluster.tables() == 0 {
        return Err(Fail::from("no table"));
    }
    if lines.len() > 16_777_217 {
        return Err(Fail::from("too many lines"));
    }
    match play(alloc, cluster, 0, 16, lines, false) {
        Ok(played) => Ok(played),
        Err(PlayFault::SlotLimit { .. }) => Err(Fail::from("slot limit")),
        Err(PlayFault::LogFull) => Err(Fail::from("log full")),
        Err(PlayFault::OutOfMemory) => Err(Fail::from("OutOfMemory")),
    }
}

/// The lines of the expectations of a text that aren't met.
pub fn unmet_of(alloc: Global, ldf: &[u8], text: &[u8]) -> Result<Vec<u8>, Fail> {
    let played = played(alloc, ldf, text)?;
    let mut written = Vec::new(alloc);
    write_unmet(
        played.core.cluster(),
        &[],
        played.judgements.as_slice(),
        &mut written,
    )?;
    Ok(written)
}

/// Returns a text with each occurrence of some bytes replaced.
pub fn replaced(alloc: Global, text: &[u8], old: &[u8], new: &[u8]) -> Result<Vec<u8>, AllocError> {
    let mut made = Vec::new(alloc);
    let mut skip = 0usize;
    for place in 0..text.len() {
        if skip > 0 {
            skip -= 1;
        } else if text[place..].starts_with(old) {
            made.extend_from_slice(new)?;
            skip = old.len().saturating_sub(1);
        } else {
            made.push(text[place])?;
        }
    }
    Ok(made)
}

/// Compares what was written of a case in a format.
pub fn expect_bytes(rt: &impl Abort, found: &[u8], want: &[u8], case: &str, format: &str) {
    let text = std::str::from_utf8(found).unwrap_or("no text");
    assert!(rt; found == want, "{case} as {format}: {text}");
}
