//! The tokens of an LDF text (LIN 2.2A, section 9, lexical rules): the longest piece at each place.

ghost use Rattle.std.specs.Prelude.{◌≡◌, ◌≢◌, ◌⊎◌, ◌+◌, ◌<◌, ◌≤◌, ◌^◌, ◌==◌, length, take, drop};
ghost use Rattle.std.specs.Prelude.{List, All, None, false, IfOk, IfErr, IsErrAnd, MatchResult, IfSome, not};
ghost use Rattle.std.specs.List.{prefix_len};
ghost use Rattle.lin_ldf.specs.Bytes.{is_digit, is_hex_digit, is_word_byte, is_not_newline};
ghost use Rattle.lin_ldf.specs.Scanning.{begins_with, close_at, single, slash_piece, text_piece};
ghost use Rattle.lin_ldf.specs.Scanning.{has_fraction, has_hex, fraction_len, number_len, piece_at};
ghost use Rattle.lin_ldf.specs.Scanning.{front_piece, is_common, TakesSomeOf};
ghost use Rattle.lin_ldf.specs.Advance.{first_place, place_behind, step};
ghost use Rattle.lin_ldf.specs.Stream.{IsReady, Pulls, PullsSome, start_of, still, token_from};
ghost use Rattle.lin_ldf.specs.Tokens.{mark_len, AreTokens, LiesIn, IsLexFault};
ghost use Rattle.lin_ldf.specs.declared.fault.LdfFault.{LdfFault};
ghost use Rattle.lin_ldf.specs.declared.fault.LdfFault.TheVariants.{OutOfMemory};
ghost use Rattle.lin_ldf.specs.declared.token.Token.{Token};
ghost use Rattle.lin_ldf.specs.declared.lexer.Scanned.TheVariants as pieces;

use crate::classes::{is_alone, is_digit, is_hex_digit, is_letter, is_separator, is_word_byte};
use crate::fault::LdfFault;
use crate::token::{Token, TokenKind, same_kind};
use lin_parts::Location;
use memchr::memchr;
use std::alloc::Global;

/// What begins at a byte: a piece, with the number of its bytes (a gap is a separator or a
/// comment), or a fault.
#[derive(Clone, Copy)]
pub enum Scanned {
    Gap(usize),
    Token(TokenKind, usize),
    BadByte,
    OpenComment,
    OpenText,
}

/// The kind of a byte that is a token alone.
fn single(c: u8) -> TokenKind
    ensures { result ≡ single c }
{
    match c {
        b'{' => TokenKind::OpenBrace,
        b'}' => TokenKind::CloseBrace,
        b':' => TokenKind::Colon,
        b';' => TokenKind::Semicolon,
        b',' => TokenKind::Comma,
        b'=' => TokenKind::Equals,
        _ => TokenKind::Other,
    }
}

#[tactic(auto, using(crate::proofs::Scan::lengths))]
fn word_len(text: &[u8]) -> usize
    ensures value { result ≡ prefix_len is_word_byte text.now }
    ensures within { result ≤ length text.now }
{
    text.iter().take_while(|c| is_word_byte(**c)).count()
}

#[tactic(auto, using(crate::proofs::Scan::lengths))]
fn digits_len(text: &[u8]) -> usize
    ensures value { result ≡ prefix_len is_digit text.now }
    ensures within { result ≤ length text.now }
{
    text.iter().take_while(|c| is_digit(**c)).count()
}

#[tactic(auto, using(crate::proofs::Scan::lengths))]
fn hex_len(text: &[u8]) -> usize
    ensures value { result ≡ prefix_len is_hex_digit text.now }
    ensures within { result ≤ length text.now }
{
    text.iter().take_while(|c| is_hex_digit(**c)).count()
}

/// How many bytes stand before the first one that is `byte`.
#[tactic(auto, using(crate::proofs::Scan::lengths, crate::proofs::Lines::no_such_byte, crate::proofs::Lines::first_such_byte))]
fn len_before(byte: u8, text: &[u8]) -> usize
    ensures value { result ≡ prefix_len (λ c. not (c == byte)) text.now }
    ensures within { result ≤ length text.now }
{
    match memchr(byte, text) {
        Some(n) => n,
        None => text.len(),
    }
}

/// The text from its first line feed on.
fn behind_line(text: &[u8]) -> &[u8]
    ensures value { result.now ≡ drop (prefix_len is_not_newline text.now) text.now }
    ensures within { length result.now ≤ length text.now }
{
    let (_, behind) = text.split_at(len_before(b'\n', text));
    behind
}

fn begins_digit(text: &[u8]) -> bool
    ensures { result ≡ begins_with is_digit text.now }
{
    match text {
        [c, ..] => is_digit(*c),
        [] => false,
    }
}

fn begins_hex_digit(text: &[u8]) -> bool
    ensures { result ≡ begins_with is_hex_digit text.now }
{
    match text {
        [c, ..] => is_hex_digit(*c),
        [] => false,
    }
}

/// Whether a point and a digit stand in front.
fn has_fraction(text: &[u8]) -> bool
    ensures { result ≡ has_fraction text.now }
{
    match text {
        [c, rest @ ..] => *c == b'.' && begins_digit(rest),
        [] => false,
    }
}

/// Whether an `x` and a hexadecimal digit stand in front.
fn has_hex(text: &[u8]) -> bool
    ensures { result ≡ has_hex text.now }
{
    match text {
        [c, rest @ ..] => (*c == b'x' || *c == b'X') && begins_hex_digit(rest),
        [] => false,
    }
}

fn fraction_len(rest: &[u8]) -> usize
    ensures value { result ≡ fraction_len rest.now }
    ensures within { result ≤ length rest.now }
{
    match rest {
        [_, after @ ..] if has_fraction(rest) => digits_len(after) + 1,
        _ => 0,
    }
}

fn number_len(first: u8, rest: &[u8]) -> usize
    ensures value { result ≡ number_len first rest.now }
    ensures some { 0 < result }
    ensures within { result ≤ length rest.now + 1 }
{
    match rest {
        [_, digits @ ..] if first == b'0' && has_hex(rest) => hex_len(digits) + 2,
        _ => {
            let whole = digits_len(rest);
            let (_, after) = rest.split_at(whole);
            whole + 1 + fraction_len(after)
        }
    }
}

fn begins(text: &[u8], byte: u8) -> bool
    ensures { result ≡ begins_with (λ c. c == byte) text.now }
{
    match text {
        [c, ..] => *c == byte,
        [] => false,
    }
}

/// Where the first `*/` stands.
fn close_at(text: &[u8]) -> Option<usize>
    ensures value { result ≡ close_at text.now }
    ensures within { IfSome result (λ i. i + 2 ≤ length text.now) }
{
    let mut rest = text;
    let mut passed = 0;
    while let Some(n) = memchr(b'*', rest) {
        let (_, behind) = rest.split_at(n + 1);
        if begins(behind, b'/') {
            return Some(passed + n);
        }
        passed += n + 1;
        rest = behind;
    }
    None
}

fn slash_piece(rest: &[u8]) -> Scanned
    ensures value { result ≡ slash_piece rest.now }
    ensures within { TakesSomeOf result (length rest.now + 1) }
{
    match rest {
        [b'/', body @ ..] => Scanned::Gap(len_before(b'\n', body) + 2),
        [b'*', body @ ..] => match close_at(body) {
            Some(i) => Scanned::Gap(i + 4),
            None => Scanned::OpenComment,
        },
        _ => Scanned::Token(TokenKind::Other, 1),
    }
}

fn text_piece(rest: &[u8]) -> Scanned
    ensures value { result ≡ text_piece rest.now }
    ensures within { TakesSomeOf result (length rest.now + 1) }
{
    let inside = len_before(b'"', rest);
    if inside == rest.len() {
        Scanned::OpenText
    } else {
        Scanned::Token(TokenKind::Text, inside + 2)
    }
}

/// The piece where it is a separator, a token of one byte or a word. Most are, and take no call.
#[inline(always)]
fn common_piece_at(first: u8, rest: &[u8]) -> Option<Scanned>
    ensures value { IfSome result (λ piece. piece ≡ piece_at first rest.now) }
    ensures within { IfSome result (λ piece. TakesSomeOf piece (length rest.now + 1)) }
    ensures none { result ≡ None → is_common first ≡ false }
{
    if is_separator(first) {
        Some(Scanned::Gap(1))
    } else if is_alone(first) {
        Some(Scanned::Token(single(first), 1))
    } else if is_letter(first) {
        Some(Scanned::Token(TokenKind::Word, word_len(rest) + 1))
    } else {
        None
    }
}

/// Any other piece.
#[inline(always)]
fn rare_piece_at(first: u8, rest: &[u8]) -> Scanned
    requires { is_common first ≡ false }
    ensures value { result ≡ piece_at first rest.now }
    ensures within { TakesSomeOf result (length rest.now + 1) }
{
    if is_digit(first) {
        Scanned::Token(TokenKind::Number, number_len(first, rest))
    } else if first == b'"' {
        text_piece(rest)
    } else if first == b'/' {
        slash_piece(rest)
    } else {
        Scanned::BadByte
    }
}

/// The common piece at the front of a text.
#[inline(always)]
fn common_piece(text: &[u8]) -> Option<Scanned>
    ensures value { IfSome result (λ piece. piece ≡ front_piece text.now) }
    ensures within { IfSome result (λ piece. TakesSomeOf piece (length text.now)) }
{
    match text {
        [first, rest @ ..] => common_piece_at(*first, rest),
        [] => None,
    }
}

#[inline(always)]
fn piece_at(first: u8, rest: &[u8]) -> Scanned
    ensures value { result ≡ piece_at first rest.now }
    ensures within { TakesSomeOf result (length rest.now + 1) }
{
    match common_piece_at(first, rest) {
        Some(piece) => piece,
        None => rare_piece_at(first, rest),
    }
}

/// The piece at the front of a text that isn't empty.
#[inline(always)]
pub fn front_piece(text: &[u8]) -> Scanned
    requires { 0 < length text.now }
    ensures value { result ≡ front_piece text.now }
    ensures within { TakesSomeOf result (length text.now) }
{
    match text {
        [first, rest @ ..] => piece_at(*first, rest),
        [] => Scanned::Gap(0),
    }
}

/// From this many bytes on, a piece is searched for line feeds.
const LONG: usize = 32;

/// The place after one byte.
#[inline(always)]
fn stepped(from: Location, c: u8) -> Location
    requires line_fits { from.line + 1 < 2 ^ 64 }
    requires column_fits { from.column + 1 < 2 ^ 64 }
    ensures { result ≡ step from c }
{
    if c == b'\n' {
        Location {
            line: from.line + 1,
            column: 1,
        }
    } else {
        Location {
            line: from.line,
            column: from.column + 1,
        }
    }
}

/// The place after a piece that begins at this place.
fn advanced(from: Location, piece: &[u8]) -> Location
    requires line_fits { from.line + length piece.now < 2 ^ 64 }
    requires column_fits { from.column + length piece.now < 2 ^ 64 }
    ensures place { result ≡ place_behind from piece.now }
    ensures line { result.line ≤ from.line + length piece.now }
    ensures column { result.column ≤ from.column + length piece.now }
{
    let mut place = from;
    for c in piece {
        place = stepped(place, *c);
    }
    place
}

/// The same, line by line.
fn advanced_by_lines(from: Location, piece: &[u8]) -> Location
    requires line_fits { from.line + length piece.now < 2 ^ 64 }
    requires column_fits { from.column + length piece.now < 2 ^ 64 }
    ensures place { result ≡ place_behind from piece.now }
    ensures line { result.line ≤ from.line + length piece.now }
    ensures column { result.column ≤ from.column + length piece.now }
{
    let mut place = from;
    let mut rest = piece;
    while let [_, behind @ ..] = behind_line(rest) {
        place = Location {
            line: place.line + 1,
            column: 1,
        };
        rest = behind;
    }
    Location {
        line: place.line,
        column: place.column + rest.len() as u64,
    }
}

/// How many bytes of a byte-order mark stand at the start: EF BB BF or none.
fn mark_len(source: &[u8]) -> usize
    ensures value { result ≡ mark_len source.now }
    ensures within { result ≤ length source.now }
{
    if source.starts_with(&[0xEF, 0xBB, 0xBF]) {
        3
    } else {
        0
    }
}

/// A token of so many bytes at this offset and place.
#[inline(always)]
fn token_from(kind: TokenKind, start: usize, size: usize, place: Location) -> Token
    requires { start + size < 2 ^ 64 }
    ensures { result ≡ token_from kind start size place }
{
    Token {
        kind,
        start,
        end: start + size,
        line: place.line,
        column: place.column,
    }
}

/// A source that is read token by token: the offset of the next byte, and its line and column.
#[derive(Clone, Copy)]
pub struct Lexer<'a> {
    pub source: &'a [u8],
    pub offset: usize,
    pub place: Location,
}

impl<'a> Lexer<'a> {
    /// Makes a lexer that is at the first byte of a text, after a byte order mark.
    pub fn new(source: &'a [u8]) -> Lexer<'a>
        ensures start { still result ≡ start_of source.now }
        ensures within { mark_len source.now ≤ length source.now }
        ensures source { result.source.now ≡ source.now }
        ensures ready { IsReady result }
    {
        Lexer {
            source,
            offset: mark_len(source),
            place: Location { line: 1, column: 1 },
        }
    }

    /// A piece of so many bytes is passed over.
    #[inline(always)]
    pub fn pass(&mut self, size: usize)
        requires ready { IsReady self.old }
        requires within { self.old.offset + size ≤ length self.old.source.now }
        ensures ready { IsReady self.new }
        ensures source { self.new.source.now ≡ self.old.source.now }
        ensures offset { self.new.offset ≡ self.old.offset + size }
        ensures place { self.new.place
            ≡ place_behind self.old.place (take size (drop self.old.offset self.old.source.now)) }
    {
        let (_, rest) = self.source.split_at(self.offset);
        let (piece, _) = rest.split_at(size);
        self.place = if let [c] = piece {
            stepped(self.place, *c)
        } else if size < LONG {
            advanced(self.place, piece)
        } else {
            advanced_by_lines(self.place, piece)
        };
        self.offset += size;
    }

    /// The token at the front is passed over. Only a text can have line feeds in it.
    #[inline(always)]
    fn pass_token(&mut self, kind: TokenKind, size: usize)
        requires ready { IsReady self.old }
        requires within { self.old.offset + size ≤ length self.old.source.now }
        requires front { front_piece (drop self.old.offset self.old.source.now) ≡ pieces.Token kind size }
        ensures ready { IsReady self.new }
        ensures source { self.new.source.now ≡ self.old.source.now }
        ensures offset { self.new.offset ≡ self.old.offset + size }
        ensures place { self.new.place
            ≡ place_behind self.old.place (take size (drop self.old.offset self.old.source.now)) }
    {
        if same_kind(TokenKind::Text, kind) {
            self.pass(size);
        } else {
            self.place.column += size as u64;
            self.offset += size;
        }
    }

    /// The next token where it is a word or a token of one byte, and no comment stands before it; most
    /// are, and are found without a call.
    #[inline(always)]
    pub fn next_common(&mut self) -> Option<Token>
        requires ready { IsReady self.old }
        ensures ready { IsReady self.new }
        ensures source { self.new.source.now ≡ self.old.source.now }
        ensures pulls { PullsSome result self.old self.new }
    {
        // (a copy, which the loop keeps in registers)
        let mut lexer = *self;
        while lexer.offset < lexer.source.len() {
            let (_, rest) = lexer.source.split_at(lexer.offset);
            match common_piece(rest) {
                Some(Scanned::Gap(size)) => lexer.pass(size),
                Some(Scanned::Token(kind, size)) => {
                    let token = token_from(kind, lexer.offset, size, lexer.place);
                    lexer.pass_token(kind, size);
                    *self = lexer;
                    return Some(token);
                }
                _ => break,
            }
        }
        *self = lexer;
        None
    }

    /// The next token, or nothing at the end; or the fault that stands in its place, and stands
    /// there still at the next call.
    #[tactic(auto, using(crate::proofs::Stream::at_end))]
    #[inline(always)]
    pub fn next(&mut self) -> Result<Option<Token>, LdfFault>
        requires ready { IsReady self.old }
        ensures ready { IsReady self.new }
        ensures source { self.new.source.now ≡ self.old.source.now }
        ensures pulls { Pulls result self.old self.new }
    {
        while self.offset < self.source.len() {
            let place = self.place;
            let (_, rest) = self.source.split_at(self.offset);
            match front_piece(rest) {
                Scanned::Gap(size) => self.pass(size),
                Scanned::Token(kind, size) => {
                    let token = token_from(kind, self.offset, size, place);
                    self.pass_token(kind, size);
                    return Ok(Some(token));
                }
                Scanned::BadByte => return Err(LdfFault::BadByte(place)),
                Scanned::OpenComment => return Err(LdfFault::OpenComment(place)),
                Scanned::OpenText => return Err(LdfFault::OpenText(place)),
            }
        }
        Ok(None)
    }
}

/// The tokens of an LDF text (LIN 2.2A, section 9, lexical rules), in order, without separators and
/// comments.
///
/// Byte ranges count in the whole source. Lines and columns count from 1, columns in bytes; a
/// byte-order mark EF BB BF at the start is skipped, and column 1 stands after it.
///
/// An error is the first fault from the left: `BadByte`, `OpenComment` or `OpenText`; or
/// `OutOfMemory`.
pub fn lex(alloc: Global, source: &[u8]) -> Result<Vec<Token>, LdfFault>
    ensures tokens { IfOk result (λ ts. AreTokens source.now ts.items) }
    ensures within { IfOk result (λ ts. All (LiesIn source.now) ts.items) }
    ensures only { (ts : List Token) → AreTokens source.now ts
        → MatchResult result (λ found. found.items ≡ ts) (λ e. e ≡ OutOfMemory) }
    ensures fault { IfErr result (IsLexFault source.now) }
    ensures first { (e : LdfFault) → IsLexFault source.now e → e ≢ OutOfMemory
        → IsErrAnd result (λ found. (found ≡ e) ⊎ (found ≡ OutOfMemory)) }
{
    let mut tokens = Vec::new(alloc);
    let mut lexer = Lexer::new(source);
    while let Some(token) = lexer.next()? {
        tokens.push(token)?;
    }
    Ok(tokens)
}

/// The first fault of the tokens of a text.
pub fn first_fault(source: &[u8]) -> Option<LdfFault>
    ensures { result ≡ (start_of source.now).fault }
{
    let mut lexer = Lexer::new(source);
    loop {
        match lexer.next() {
            Ok(Some(_)) => {}
            Ok(None) => return None,
            Err(fault) => return Some(fault),
        }
    }
}
