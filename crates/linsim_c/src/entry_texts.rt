//! Texts of entries, written into the room that C lends.

ghost use Rattle.std.specs.Prelude.{◌≢◌, drop, Err};
ghost use Rattle.lin_log.specs.Words.{text};
ghost use Rattle.linsim_c.specs.declared.fault.Fault.TheVariants.{OutOfMemory};
ghost use Rattle.linsim_c.specs.Writing.{Writes};

use crate::fault::Fault;
use crate::written_text::Told;
use lin_core::Log;
use lin_log::put_entries;
use lin_text::{TextBuffer, TextWriter};
use std::alloc::Global;

/// Writes a text at the beginning of `out`, whose number in the report is this one.
///
/// # Errors
/// `NoRoom`; nothing was written.
pub(crate) fn put(bytes: &[u8], number: u32, out: &mut [u8]) -> Result<Told, Fault>
    ensures text { Writes number result bytes.now out.old out.new }
    ensures memory { result ≢ Err OutOfMemory }
{
    let length = bytes.len();
    let text = Told { length, number };
    if length > out.len() {
        return Err(Fault::NoRoom(text));
    }
    out[..length].copy_from_slice(bytes);
    Ok(text)
}

/// Writes the text of the entries of a log from one on at the beginning of `out`.
///
/// # Errors
/// `NoRoom` and `OutOfMemory`; nothing was written.
pub(crate) fn put_log(
    alloc: Global,
    log: &Log,
    from: usize,
    buffer: &mut TextBuffer,
    out: &mut [u8],
) -> Result<Told, Fault>
    ensures { Writes 0 result (text (drop from log.now.entries)) out.old out.new }
{
    let mut bytes = Vec::new(alloc);
    let mut lines = TextWriter::new(&mut bytes, buffer);
    put_entries(&mut lines, log, from);
    if lines.finish().is_err() {
        return Err(Fault::OutOfMemory);
    }
    put(bytes.as_slice(), 0, out)
}
