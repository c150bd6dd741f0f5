//! Texts of checks in memory.

ghost use Rattle.std.specs.Prelude.{◌≡◌, [], IfOk, drop};
ghost use Rattle.std.specs.Option.{option_map_or};
ghost use Rattle.lin_bench.specs.Texts.{found_text, what_text};
ghost use Rattle.lin_log.specs.Words.{spaced_word};

use lin_bench::{Judged, put_found, put_what};
use lin_parts::Cluster;
use lin_text::{TextBuffer, TextWriter};
use std::alloc::{AllocError, Global};

/// Returns what was checked, after a space.
///
/// # Errors
/// Out of memory.
#[inline(never)]
pub fn what_text(alloc: Global, cluster: &Cluster, judged: &Judged) -> Result<Vec<u8>, AllocError>
    ensures { IfOk result (λ v. v.items ≡ spaced_word (what_text cluster.now judged.now)) }
{
    let mut text = Vec::new(alloc);
    let mut buffer = TextBuffer::empty();
    let mut out = TextWriter::new(&mut text, &mut buffer);
    put_what(&mut out, cluster, judged);
    match out.finish() {
        Ok(()) => Ok(text),
        Err(_) => Err(AllocError),
    }
}

/// Returns what is so instead of what was expected, after a space; no bytes if the check passed.
///
/// # Errors
/// Out of memory.
#[inline(never)]
pub fn found_text(alloc: Global, cluster: &Cluster, judged: &Judged) -> Result<Vec<u8>, AllocError>
    ensures { IfOk result (λ v. v.items
        ≡ option_map_or spaced_word (found_text cluster.now judged.now) []) }
{
    let mut text = Vec::new(alloc);
    let mut buffer = TextBuffer::empty();
    let mut out = TextWriter::new(&mut text, &mut buffer);
    put_found(&mut out, cluster, judged);
    match out.finish() {
        Ok(()) => Ok(text),
        Err(_) => Err(AllocError),
    }
}

/// Returns a text without its first byte, the space before it.
pub fn without_space(text: &[u8]) -> &[u8]
    ensures { result.now ≡ drop 1 text.now }
{
    match text {
        [_, rest @ ..] => rest,
        [] => text,
    }
}
