//! The parts of a text: lines of its header, sections, blocks of nodes, tables, attributes.

ghost use Rattle.std.specs.Prelude.{◌≡◌, ◌+◌, ◌<◌, ◌≤◌, ◌^◌, map, take, drop};
ghost use Rattle.std.specs.Prelude.{length, slice_range, IfOk, List};
ghost use Rattle.std.specs.List.{list_any};
ghost use Rattle.lin_ldf.specs.Names.{has_name};
ghost use Rattle.lin_ldf.specs.Symbols.{is_kind};
ghost use Rattle.lin_ldf.specs.Tokens.{AreTokens};
ghost use Rattle.lin_ldf.specs.declared.token.Token.{Token};
ghost use Rattle.lin_field.specs.Plain.{brace_depth, before_end, is_token_next, part_end, IsFirstPart, parts};
ghost use Rattle.lin_field.specs.Plain.{first_token_text, source_bytes, is_line, is_section, tokens_in_braces, is_section_of};
ghost use Rattle.lin_field.specs.Plain.{inside_of, inside_at, blocks_of_nodes, is_filled_part, table_parts};

use lin_ldf::{LdfFault, Token, TokenKind, lex};
use std::alloc::{AllocError, Global};

/// The tokens of a text that is in order; an error means out of memory.
pub fn tokens_of(alloc: Global, source: &[u8]) -> Result<Vec<Token>, AllocError>
    ensures { (ts : List Token) → AreTokens source.now ts → IfOk result (λ v. v.items ≡ ts) }
{
    match lex(alloc, source) {
        Ok(tokens) => Ok(tokens),
        Err(fault) => match fault {
            LdfFault::OutOfMemory => Err(AllocError),
            _ => Ok(Vec::new(alloc)),
        },
    }
}

/// How many braces are open after a token.
fn depth_after(depth: usize, kind: TokenKind) -> usize
    requires { depth + 1 < 2 ^ 64 }
    ensures { result ≡ brace_depth depth kind }
{
    match kind {
        TokenKind::OpenBrace => depth + 1,
        TokenKind::CloseBrace => depth.saturating_sub(1),
        _ => depth,
    }
}

fn is_of(token: &Token, kind: TokenKind) -> bool
    ensures { result ≡ is_kind kind token.now.kind }
{
    token.kind == kind
}

/// How many tokens there are up to the first one of a kind outside of braces, with it.
fn end_of(tokens: &[Token], end: TokenKind) -> usize
    ensures within { result ≤ length tokens.now }
    ensures front { take result tokens.now ≡ (before_end end 0 tokens.now).0 }
    ensures rest { drop result tokens.now ≡ (before_end end 0 tokens.now).1 }
{
    let mut depth: usize = 0;
    for (number, token) in tokens.iter().enumerate() {
        depth = depth_after(depth, token.kind);
        if depth == 0 && is_of(token, end) {
            return number + 1;
        }
    }
    tokens.len()
}

/// The tokens up to the first one of a kind outside of braces, with it.
pub fn up_to(tokens: &[Token], end: TokenKind) -> &[Token]
    ensures { result.now ≡ (before_end end 0 tokens.now).0 }
{
    tokens.get(..end_of(tokens, end)).unwrap_or(&[])
}

/// The tokens after that.
pub fn after(tokens: &[Token], end: TokenKind) -> &[Token]
    ensures { result.now ≡ (before_end end 0 tokens.now).1 }
{
    tokens.get(end_of(tokens, end)..).unwrap_or(&[])
}

fn is_next(tokens: &[Token], kind: TokenKind) -> bool
    ensures { result ≡ is_token_next kind tokens.now }
{
    match tokens {
        [first, ..] => is_of(first, kind),
        [] => false,
    }
}

/// What ends a part, of which these tokens come after its word.
fn part_end(behind: &[Token]) -> TokenKind
    ensures { result ≡ part_end behind.now }
{
    if is_next(behind, TokenKind::OpenBrace) {
        TokenKind::CloseBrace
    } else {
        TokenKind::Semicolon
    }
}

/// The first part, and the tokens after it.
pub fn next_part(tokens: &[Token]) -> Option<(&[Token], &[Token])>
    ensures { IsFirstPart tokens.now result }
{
    match tokens {
        [_, behind @ ..] => {
            let end = part_end(behind);
            let (part, rest) = tokens.split_at(1 + end_of(behind, end));
            Some((part, rest))
        }
        [] => None,
    }
}

/// Parts one after the other: `WORD = list ;`, `WORD ;` and `WORD group`.
pub fn parts<'a>(alloc: Global, tokens: &'a [Token]) -> Result<Vec<&'a [Token]>, AllocError>
    ensures { IfOk result (λ v. map (λ p. p.now) v.items ≡ parts tokens.now) }
{
    let mut parts = Vec::new(alloc);
    let mut rest = tokens;
    while let Some((part, after)) = next_part(rest) {
        parts.push(part)?;
        rest = after;
    }
    Ok(parts)
}

fn range_of(source: &[u8], start: usize, end: usize) -> &[u8]
    ensures { result.now ≡ slice_range source.now start end }
{
    let behind = source.get(start..).unwrap_or(&[]);
    behind.get(..end.saturating_sub(start)).unwrap_or(behind)
}

/// The text of a part's first token.
pub fn word_of<'a>(source: &'a [u8], part: &[Token]) -> &'a [u8]
    ensures { result.now ≡ first_token_text source.now part.now }
{
    match part {
        [first, ..] => range_of(source, first.start, first.end),
        [] => &[],
    }
}

/// The bytes of a part as they stand.
pub fn bytes_of<'a>(source: &'a [u8], part: &[Token]) -> &'a [u8]
    ensures { result.now ≡ source_bytes source.now part.now }
{
    match (part.first(), part.last()) {
        (Some(first), Some(last)) => range_of(source, first.start, last.end),
        _ => &[],
    }
}

/// The tokens after the two of `LIN_description_file ;`.
pub fn behind_head(tokens: &[Token]) -> &[Token]
    ensures { result.now ≡ drop 2 tokens.now }
{
    match tokens {
        [_, _, behind @ ..] => behind,
        _ => &[],
    }
}

/// Whether a part is `WORD = list ;`.
pub fn is_line(part: &[Token]) -> bool
    ensures { result ≡ is_line part.now }
{
    match part {
        [_, behind @ ..] => is_next(behind, TokenKind::Equals),
        [] => false,
    }
}

/// Whether a part is `WORD group`.
pub fn is_section(part: &[Token]) -> bool
    ensures { result ≡ is_section part.now }
{
    match part {
        [_, behind @ ..] => is_next(behind, TokenKind::OpenBrace),
        [] => false,
    }
}

/// What stands in the braces of `WORD group`.
pub fn inside(part: &[Token]) -> &[Token]
    ensures { result.now ≡ tokens_in_braces part.now }
{
    match part {
        [_, _, inside @ .., _] => inside,
        _ => &[],
    }
}

/// The same of the n-th part, where there is one.
pub fn inside_at<'a>(parts: &[&'a [Token]], number: usize) -> &'a [Token]
    ensures { result.now ≡ inside_at (map (λ p. p.now) parts.now) number }
{
    match parts.get(number) {
        Some(part) => inside(*part),
        None => &[],
    }
}

/// Whether a part is the section of this word. (A line of the header may begin with it, too.)
pub fn is_section_of(source: &[u8], part: &[Token], word: &[u8]) -> bool
    ensures { result ≡ is_section_of source.now word.now part.now }
{
    is_section(part) && word_of(source, part) == word
}

/// What stands in the braces of the first section of this word.
fn inside_of<'a>(source: &[u8], parts: &[&'a [Token]], word: &[u8]) -> &'a [Token]
    ensures { result.now ≡ inside_of source.now (map (λ p. p.now) parts.now) word.now }
{
    for part in parts {
        if is_section_of(source, *part, word) {
            return inside(*part);
        }
    }
    &[]
}

/// Whether a word is one of these.
pub fn is_one_of(word: &[u8], words: &[&[u8]]) -> bool
    ensures { result ≡ has_name (map (λ w. w.now) words.now) word.now }
{
    words.iter().any(|it| word == *it)
}

/// The blocks in `Node_attributes` whose words are among these.
pub fn node_blocks<'a>(
    alloc: Global,
    source: &[u8],
    sections: &[&'a [Token]],
    nodes: &[&[u8]],
) -> Result<Vec<&'a [Token]>, AllocError>
    ensures { IfOk result
        (λ v. map (λ p. p.now) v.items
        ≡ blocks_of_nodes source.now (map (λ p. p.now) sections.now) (map (λ w. w.now) nodes.now)) }
{
    let blocks = parts(alloc, inside_of(source, sections, b"Node_attributes"))?;
    let mut kept = Vec::new(alloc);
    for block in blocks.as_slice() {
        if is_one_of(word_of(source, *block), nodes) {
            kept.push(*block)?;
        }
    }
    Ok(kept)
}

fn is_filled_part(part: &[Token]) -> bool
    ensures { result ≡ is_filled_part part.now }
{
    !inside(part).is_empty()
}

fn has_filled_part(parts: &[&[Token]]) -> bool
    ensures { result ≡ list_any is_filled_part (map (λ p. p.now) parts.now) }
{
    parts.iter().any(|part| is_filled_part(*part))
}

/// The tables of a text that aren't left out: those that have entries, but in a text that has no
/// others.
pub fn filled_parts<'a>(
    alloc: Global,
    source: &[u8],
    sections: &[&'a [Token]],
) -> Result<Vec<&'a [Token]>, AllocError>
    ensures { IfOk result
        (λ v. map (λ p. p.now) v.items
        ≡ table_parts source.now (map (λ p. p.now) sections.now)) }
{
    let tables = parts(alloc, inside_of(source, sections, b"Schedule_tables"))?;
    if !has_filled_part(tables.as_slice()) {
        return Ok(tables);
    }
    let mut kept = Vec::new(alloc);
    for table in tables.as_slice() {
        if is_filled_part(*table) {
            kept.push(*table)?;
        }
    }
    Ok(kept)
}
