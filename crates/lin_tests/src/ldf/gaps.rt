//! Texts that lack a token or their end.

use super::outcomes::outcome;
use crate::samples::{HEADER, add_place, joined};
use lin_ldf::{Token, lex};
use std::alloc::Global;
use std::process::Abort;
use std::test::Fail;

/// The text without one of its tokens: spaces stand in its place.
fn without(alloc: Global, text: &[u8], token: &Token) -> Result<Vec<u8>, Fail> {
    let mut out = Vec::new(alloc);
    out.extend_from_slice(text.get(..token.start).unwrap_or(b""))?;
    for _ in token.start..token.end {
        out.push(b' ')?;
    }
    out.extend_from_slice(text.get(token.end..).unwrap_or(b""))?;
    Ok(out)
}

/// How many tokens after a gap its fault stands: a digit, a letter from 10 on, or `.` for the end
/// of the text.
fn distance(letter: u8) -> usize {
    match letter {
        b'0'..=b'9' => usize::from(letter.saturating_sub(b'0')),
        b'a'..=b'z' => usize::from(letter.saturating_sub(b'a')).saturating_add(10),
        _ => usize::MAX,
    }
}

/// The line and column after the last byte of a text.
pub(super) fn end_of(text: &[u8]) -> (u64, u64) {
    let mut line = 1u64;
    let mut column = 1u64;
    for c in text {
        if *c == b'\n' {
            line = line.saturating_add(1);
            column = 1;
        } else {
            column = column.saturating_add(1);
        }
    }
    (line, column)
}

/// The outcome that is wanted where a token lacks; `-` where none is needed there.
fn wanted(
    alloc: Global,
    tokens: &[Token],
    gap: usize,
    letter: u8,
    end: (u64, u64),
) -> Result<Vec<u8>, Fail> {
    let mut out = Vec::new(alloc);
    if letter == b'-' {
        out.extend_from_slice(b"accepted")?;
        return Ok(out);
    }
    let (line, column) = match tokens.get(gap.saturating_add(distance(letter))) {
        Some(token) => (token.line, token.column),
        None => end,
    };
    add_place(alloc, &mut out, line, column)?;
    out.extend_from_slice(b" fault 4 Unexpected")?;
    Ok(out)
}

fn expect_gap(
    rt: &impl Abort,
    alloc: Global,
    source: &[u8],
    tokens: &[Token],
    gap: usize,
    letter: u8,
) -> Result<(), Fail> {
    let token = tokens.get(gap).ok_or("no token")?;
    let found = outcome(alloc, &without(alloc, source, token)?)?;
    let want = wanted(alloc, tokens, gap, letter, end_of(source))?;
    assert!(rt; found.as_bytes() == want.as_slice(), "without token {gap}");
    Ok(())
}

/// Each token after the front lacks in turn.
fn expect_gaps(
    rt: &impl Abort,
    alloc: Global,
    front: &[u8],
    production: &[u8],
    letters: &[u8],
) -> Result<(), Fail> {
    let source = joined(alloc, &[front, production])?;
    let before = lex(alloc, front)?.len();
    let tokens = lex(alloc, &source)?;
    let tokens = tokens.get(before..).unwrap_or(&[]);
    assert!(rt; tokens.len() == letters.len());
    for (gap, letter) in letters.iter().enumerate() {
        expect_gap(rt, alloc, &source, tokens, gap, *letter)?;
    }
    Ok(())
}

fn expect_all_gaps(rt: &impl Abort, alloc: Global, front: &[u8], cases: &str) -> Result<(), Fail> {
    for line in cases.lines() {
        let (production, letters) = line.split_once(" => ").ok_or("no arrow")?;
        expect_gaps(rt, alloc, front, production.as_bytes(), letters.as_bytes())?;
    }
    Ok(())
}

/// Productions, and a letter for each of their tokens.
const SECTIONS: &str =
    "Signals { a: 8, 1, m, s, t; b: 16, {1, 2}, s; } => 111111111111111111311121111
Frames { f: 1, m, 2 { a, 0; b, 8; } g: 2, s, 1 { } } => 11111111111111111121111111121
Sporadic_frames { p: f, g; q: f; } => 1111111111111
Event_triggered_frames { e: T, 1, f, g; d: T, 2, f; } => 111111111111111111111
Node_attributes { s { LIN_protocol = \"2.1\"; configured_NAD = 1; x = 1, { ; }; y { z; } } t { } } => 11111111111111--3-b611--651121
Schedule_tables { T { f delay 1 ms; N { s } delay 1.5 ms; } U { } } => 11112111111-6111141121
x { y; { } } => 11--221
";

/// The header with an extra line in each of its places, and the nodes.
const HEADER_AND_NODES: &str =
    "LIN_description_file; A = 1; LIN_protocol_version = \"2.2\"; B = ; LIN_language_version = \"2.2\"; C = { ; }; LIN_speed = 19.2 kbps; D = x, y; Nodes { Master: m, 5 ms, 0.1 ms; Slaves: s, t; } => 1111-8111111b1111112-.c1111111---.1111111111111111111
";

#[test]
fn tokens_that_lack(rt: HostRuntime) -> Result<(), Fail> {
    expect_all_gaps(&rt, rt.alloc(), b"", HEADER_AND_NODES)?;
    expect_all_gaps(&rt, rt.alloc(), HEADER, SECTIONS)
}
