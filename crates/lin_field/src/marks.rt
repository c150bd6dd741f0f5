//! Bytes and marks of the field that are read over.

ghost use Rattle.std.specs.Prelude.{◌≡◌, IfOk, IfErr};
ghost use Rattle.lin_ldf.specs.Bytes.{is_separator};
ghost use Rattle.lin_ldf.specs.Tokens.{AreTokens, IsLexFault};
ghost use Rattle.lin_field.specs.Bytes.{field_bytes};
ghost use Rattle.lin_field.specs.Marks.{is_extra, AreExtraMarks, text_with_blanks};
ghost use Rattle.lin_field.specs.Suspects.{behind_separators, is_suspect, has_suspect};

use lin_ldf::{LdfFault, Lexer, Token, TokenKind};
use memchr::{memchr2, memchr3};
use std::alloc::Global;

/// Vertical tabs, form feeds and control Z of old editors are spaces.
pub fn read_over_bytes(bytes: &mut [u8])
    ensures { bytes.new ≡ field_bytes bytes.old }
{
    let mut passed = 0;
    while let Some(n) = memchr3(0x0B, 0x0C, 0x1A, &bytes[passed..]) {
        bytes[passed + n] = b' ';
        passed += n + 1;
    }
}

fn is_separator(c: u8) -> bool
    ensures { result ≡ is_separator c }
{
    c == b' ' || c == b'\t' || c == b'\r' || c == b'\n'
}

fn behind_separators(text: &[u8]) -> &[u8]
    ensures { result.now ≡ behind_separators text.now }
{
    let mut rest = text;
    while let [c, behind @ ..] = rest {
        if !is_separator(*c) {
            return rest;
        }
        rest = behind;
    }
    rest
}

/// Whether a mark before this may be left out. (Behind a slash it depends.)
fn is_suspect(mark: u8, behind: &[u8]) -> bool
    ensures { result ≡ is_suspect mark behind.now }
{
    match behind {
        [c, ..] => *c == b';' || *c == b'/' || (*c == b'}' && mark == b','),
        [] => false,
    }
}

/// Whether marks of a text may be left out: else none is, which takes no tokens to tell.
pub fn has_suspect(source: &[u8]) -> bool
    ensures { result ≡ has_suspect source.now }
{
    let mut rest = source;
    while let Some(n) = memchr2(b',', b';', rest) {
        let (_, found) = rest.split_at(n);
        let [mark, behind @ ..] = found else {
            return false;
        };
        rest = behind_separators(behind);
        if is_suspect(*mark, rest) {
            return true;
        }
    }
    false
}

/// A comma before a semicolon or a closing brace, and a semicolon before a semicolon.
fn is_extra(kind: TokenKind, next: TokenKind) -> bool
    ensures { result ≡ is_extra kind next }
{
    match (kind, next) {
        (TokenKind::Comma, TokenKind::Semicolon | TokenKind::CloseBrace) => true,
        (TokenKind::Semicolon, TokenKind::Semicolon) => true,
        _ => false,
    }
}

/// The marks of a text that are left out.
///
/// # Errors
/// The first fault of the tokens, or `OutOfMemory`.
pub fn extra_marks(alloc: Global, source: &[u8]) -> Result<Vec<Token>, LdfFault>
    ensures marks { IfOk result (λ marks. AreExtraMarks source.now marks.items) }
    ensures fault { IfErr result (IsLexFault source.now) }
{
    let mut lexer = Lexer::new(source);
    let mut extra = Vec::new(alloc);
    let mut last: Option<Token> = None;
    while let Some(token) = lexer.next()? {
        if let Some(before) = last
            && is_extra(before.kind, token.kind)
        {
            extra.push(before)?;
        }
        last = Some(token);
    }
    Ok(extra)
}

/// A space in the place of each mark. (No other token changes, since a mark is a token of one byte.)
pub fn read_over_marks(bytes: &mut [u8], marks: &[Token])
    ensures { bytes.new ≡ text_with_blanks bytes.old marks.now }
{
    for mark in marks {
        if mark.start < bytes.len() {
            bytes[mark.start] = b' ';
        }
    }
}
