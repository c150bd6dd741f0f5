//! Texts that are cut off at each of their bytes, read plainly: a text that is over outside of all
//! braces, after a closing one, is whole; any other ends in an open text, or wants more where it
//! ends or in place of its last token.

use super::gaps::end_of;
use super::outcomes::outcome;
use crate::samples::{DOOR_CLUSTER, KEYS_CLUSTER, add_place};
use lin_ldf::lex;
use std::alloc::Global;
use std::process::Abort;
use std::test::Fail;

/// How things stand after some bytes: how many braces are open, the last byte that is no separator,
/// and where a text was opened that isn't closed yet.
#[derive(Clone, Copy)]
struct Plain {
    depth: usize,
    last: u8,
    open: Option<usize>,
}

impl Plain {
    /// The same, one byte on.
    fn after(&self, at: usize, c: u8) -> Plain {
        let depth = match c {
            b'{' if self.open.is_none() => self.depth.saturating_add(1),
            b'}' if self.open.is_none() => self.depth.saturating_sub(1),
            _ => self.depth,
        };
        let open = match self.open {
            None if c == b'"' => Some(at),
            Some(_) if c == b'"' => None,
            open => open,
        };
        let last = if c == b' ' || c == b'\n' {
            self.last
        } else {
            c
        };
        Plain { depth, last, open }
    }
}

/// The fault with its place.
fn fault_at(alloc: Global, place: (u64, u64), fault: &str) -> Result<Vec<u8>, Fail> {
    let mut out = Vec::new(alloc);
    add_place(alloc, &mut out, place.0, place.1)?;
    out.extend_from_slice(fault.as_bytes())?;
    Ok(out)
}

/// Whether more is wanted: at the end of the text, or in place of its last token.
fn wants_more(alloc: Global, text: &[u8], found: &[u8]) -> Result<bool, Fail> {
    if found == fault_at(alloc, end_of(text), " fault 4 Unexpected")?.as_slice() {
        return Ok(true);
    }
    let tokens = lex(alloc, text)?;
    let Some(token) = tokens.last() else {
        return Ok(false);
    };
    let place = (token.line, token.column);
    Ok(found == fault_at(alloc, place, " fault 4 Unexpected")?.as_slice())
}

fn is_as_read(alloc: Global, text: &[u8], plain: &Plain) -> Result<bool, Fail> {
    let outcome = outcome(alloc, text)?;
    let found = outcome.as_bytes();
    if let Some(quote) = plain.open {
        let place = end_of(text.get(..quote).unwrap_or(b""));
        return Ok(found == fault_at(alloc, place, " fault 3 OpenText")?.as_slice());
    }
    if plain.depth == 0 && plain.last == b'}' {
        return Ok(found == b"accepted".as_slice());
    }
    wants_more(alloc, text, found)
}

/// The text, cut off before each of its bytes and after the last.
fn expect_beginnings(rt: &impl Abort, alloc: Global, text: &[u8]) -> Result<(), Fail> {
    let mut plain = Plain {
        depth: 0,
        last: b' ',
        open: None,
    };
    for (i, c) in text.iter().enumerate() {
        let beginning = text.get(..i).unwrap_or(b"");
        assert!(rt; is_as_read(alloc, beginning, &plain)?, "of {i} bytes");
        plain = plain.after(i, *c);
    }
    assert!(rt; is_as_read(alloc, text, &plain)?, "whole");
    Ok(())
}

#[test]
fn beginnings_of_a_text(rt: HostRuntime) -> Result<(), Fail> {
    expect_beginnings(&rt, rt.alloc(), DOOR_CLUSTER)?;
    expect_beginnings(&rt, rt.alloc(), KEYS_CLUSTER)
}
