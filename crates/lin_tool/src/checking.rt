//! `linsim check`: lists what a cluster has.

use crate::check_lists::{Lists, write_lists};
use crate::coding::{Described, Extras};
use crate::describing::{Reading, cluster_at, read_text};
use crate::fault::Fault;
use crate::field::write_field;
use crate::notes::Notes;
use lin_export::write_timing;
use std::fs::{self, Files};
use std::io;

/// Writes on standard output a line for each node, each signal and each schedule table of the
/// cluster that the LDF text in the file at `path` describes, and after them the lists that are
/// wanted, that of signals where encodings are read; where the path is `-`, that on standard input.
/// The timing of schedule tables comes last.
///
/// # Errors
/// Those of `cluster_at`, after which nothing was written; those of `write_lists` and `write_timing`.
pub fn check<R: AllocGlobal + Files + Input + Print>(
    rt: &R,
    path: &str,
    reading: Reading,
    extras: Extras,
    lists: Lists,
    notes: &mut Notes<'_>,
) -> Result<(), Fault> {
    let Described {
        cluster,
        coded,
        limits: _limits,
    } = cluster_at(rt, path, reading, extras, notes)?;
    let mut writer = io::writer(rt);
    write_lists(&cluster, coded.as_ref(), lists, &mut writer)?;
    if let Some(bytes) = lists.timing {
        write_timing(rt.alloc(), &cluster, bytes.min(4095), &mut writer)?;
    }
    Ok(())
}

/// The LDF text in the file at `path`; where the path is `-`, that on standard input.
pub(crate) fn text_at<R: AllocGlobal + Files + Input>(
    rt: &R,
    path: &str,
) -> Result<Vec<u8>, Fault> {
    if path == "-" {
        return read_text(rt.alloc(), &mut rt.reader());
    }
    match fs::open(rt, path) {
        Ok(mut file) => read_text(rt.alloc(), &mut file),
        Err(_) => Err(Fault::ReadFailed),
    }
}

/// Writes on standard output a plain LDF text of what the text of the field in the file at `path`
/// was settled to; where the path is `-`, that on standard input.
///
/// # Errors
/// Those of `cluster_at`, after which nothing was written; `WriteFailed`, where what was written is
/// the beginning of the text.
pub fn check_plain<R: AllocGlobal + Files + Input + Print>(
    rt: &R,
    path: &str,
    notes: &mut Notes<'_>,
) -> Result<(), Fault> {
    let text = text_at(rt, path);
    let named = if path == "-" { None } else { Some(path) };
    notes.add_unread(&text, named);
    write_field(rt.alloc(), text?, &mut io::writer(rt), notes)
}
