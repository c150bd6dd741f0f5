//! The fields of a line.

ghost use Rattle.std.specs.Prelude.{◌≡◌, ◌<◌, ◌≤◌, ◌∷◌, [], false, true, length, slice_index, take};
ghost use Rattle.std.specs.Prelude.{IfOk, MatchOption};
ghost use Rattle.std.specs.List.{All};
ghost use Rattle.std.specs.Str.{bytes_eq};
ghost use Rattle.lin_log.specs.Read.{Gives};
ghost use Rattle.lin_log.specs.Said.{fields, is_comment, is_gap, is_number, no_fields, number};
ghost use Rattle.lin_log.specs.Said.{number_field, SplitsField};

use crate::naming::Naming;
use crate::reason::{LineFault, Reason};
use lin_text::{Many, Text};
use std::alloc::{AllocError, Global};

#[inline]
fn is_gap<N: Naming>(names: &N, byte: u8) -> bool
    ensures { result ≡ is_gap (N.language names.now).free byte }
{
    byte == b' ' || names.is_free() && byte == b'\t'
}

#[inline]
fn without_gaps<'a, N: Naming>(names: &N, line: &'a [u8]) -> &'a [u8]
    ensures same { fields (N.language names.now).free result.now
        ≡ fields (N.language names.now).free line.now }
    ensures next { 0 < length result.now
        → is_gap (N.language names.now).free (slice_index result.now 0) ≡ false }
{
    let mut rest = line;
    while !rest.is_empty() && is_gap(names, rest[0]) {
        rest = &rest[1..];
    }
    rest
}

/// How many bytes there are before the first gap.
#[inline]
fn word_length<N: Naming>(names: &N, line: &[u8]) -> usize
    ensures within { result ≤ length line.now }
    ensures clean { All (λ x. is_gap (N.language names.now).free x ≡ false) (take result line.now) }
    ensures ends { result < length line.now
        → is_gap (N.language names.now).free (slice_index line.now result) ≡ true }
{
    let mut n = 0;
    while n < line.len() && !is_gap(names, line[n]) {
        n += 1;
    }
    n
}

/// Whether a line goes on with a comment.
#[inline]
fn is_comment<N: Naming>(names: &N, line: &[u8]) -> bool
    ensures { result ≡ is_comment (N.language names.now).free line.now }
{
    names.is_free() && matches!(line, [b'#', ..])
}

/// The first field of a line, and the rest of the line.
#[inline]
pub fn first_field<'a, N: Naming>(names: &N, line: &'a [u8]) -> Option<(&'a [u8], &'a [u8])>
    ensures { MatchOption result (fields (N.language names.now).free line.now ≡ [])
        (λ x. SplitsField (N.language names.now).free line.now x.0.now x.1.now) }
{
    let rest = without_gaps(names, line);
    if rest.is_empty() || is_comment(names, rest) {
        return None;
    }
    let end = word_length(names, rest);
    Some(rest.split_at(end))
}

/// Whether no field is left.
#[inline]
pub fn is_over<N: Naming>(names: &N, line: &[u8]) -> bool
    ensures { result ≡ no_fields (fields (N.language names.now).free line.now) }
{
    let rest = without_gaps(names, line);
    rest.is_empty() || is_comment(names, rest)
}

/// A copy of the fields of a line.
pub fn copied<N: Naming>(alloc: Global, names: &N, line: &[u8]) -> Result<Many<Text>, AllocError>
    ensures { IfOk result (λ copy. copy ≡ fields (N.language names.now).free line.now) }
{
    let mut copy = Vec::new(alloc);
    let mut left = line;
    while let Some((field, rest)) = first_field(names, left) {
        copy.push(Text::copied(alloc, field)?)?;
        left = rest;
    }
    Ok(Many::new(copy))
}

/// A copy of one field.
pub(crate) fn one(alloc: Global, field: &[u8]) -> Result<Many<Text>, AllocError>
    ensures { IfOk result (λ copy. copy ≡ field.now ∷ []) }
{
    let mut copy = Vec::new(alloc);
    copy.push(Text::copied(alloc, field)?)?;
    Ok(Many::new(copy))
}

/// Whether a field is this word. (`==` takes ten times as long where both are short.)
#[inline]
pub(crate) fn is_word(field: &[u8], word: &[u8]) -> bool
    ensures { result ≡ bytes_eq field.now word.now }
{
    if field.len() != word.len() {
        return false;
    }
    for at in 0..word.len() {
        if field[at] != word[at] {
            return false;
        }
    }
    true
}

/// Whether a field is a number, and no name.
#[inline(always)]
pub fn is_number(field: &[u8]) -> bool
    ensures { result ≡ is_number field.now }
{
    matches!(field, [b'0'..=b'9', ..])
}

/// The number that 1 to 10 digits spell, if it is at most a limit.
#[inline(always)]
pub fn number(word: &[u8], most: u32) -> Option<u32>
    ensures { result ≡ number most word.now }
{
    if word.is_empty() || word.len() > 10 {
        return None;
    }
    let mut n = 0u64;
    for c in word {
        if !c.is_ascii_digit() {
            return None;
        }
        n = n * 10 + u64::from(*c - b'0');
    }
    if n <= u64::from(most) {
        Some(n as u32)
    } else {
        None
    }
}

/// A field that is a number of 1 to 10 digits, at most a limit.
#[inline(always)]
pub fn number_field(alloc: Global, field: &[u8], most: u32) -> Result<u32, LineFault>
    ensures { Gives (λ n. n) result (number_field most field.now) }
{
    match number(field, most) {
        Some(n) => Ok(n),
        None => Err(LineFault::Bad(Reason::NoNumber {
            field: Text::copied(alloc, field)?,
            most,
        })),
    }
}
