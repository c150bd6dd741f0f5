//! The tokens of a text that are left, and the next one.

ghost use Rattle.std.specs.Prelude.{◌≡◌, ◌≤◌, ◌∷◌, IfOk, true, length};
ghost use Rattle.lin_ldf.specs.Symbols.{symbols_in};
ghost use Rattle.lin_ldf.specs.Stream.{IsReady, start_of, still, symbols_of};
ghost use Rattle.lin_ldf.specs.Forms.{has_front, front, tail};
ghost use Rattle.lin_ldf.specs.Skimming.{Over};
ghost use Rattle.lin_ldf.specs.UpTo.{front_kind};
ghost use Rattle.lin_ldf.specs.Words.{place_of};

use crate::lexer::Lexer;
use crate::skim::skimmed;
use crate::token::{Token, TokenKind};
use lin_parts::Location;
use lin_text::Text;
use std::alloc::{AllocError, Global};

/// The tokens that are left: the next one's kind, text and place, and the lexer, which stands after
/// it. (Line and column stand apart: side by side they would be written one by one and read at
/// once, for which a processor has to wait.)
#[derive(Clone, Copy)]
pub struct Front<'a> {
    kind: Option<TokenKind>,
    line: u64,
    /// The source from the token on.
    rest: &'a [u8],
    /// How many bytes of it are the token.
    len: usize,
    column: u64,
    lexer: Lexer<'a>,
}

impl<'a> Front<'a> {
    /// Makes a reader that is at the first token of a text.
    pub fn new(source: &'a [u8]) -> Front<'a>
        ensures ready { IsReady result.lexer }
        ensures symbols { symbols_of result ≡ symbols_in source.now (start_of source.now).tokens }
    {
        let lexer = Lexer::new(source);
        let Location { line, column } = lexer.place;
        // (it stands before the first token)
        let mut front = Front {
            kind: Some(TokenKind::Other),
            line,
            rest: &[],
            len: 0,
            column,
            lexer,
        };
        front.advance();
        front
    }

    /// The kind of the next token.
    #[inline(always)]
    pub fn kind(&self) -> Option<TokenKind>
        ensures { result ≡ front_kind (symbols_of self.now) }
    {
        match self.kind {
            Some(kind) => Some(kind),
            None => None,
        }
    }

    /// The text of the next token.
    pub fn text(&self) -> &'a [u8]
        ensures { result.now ≡ (front (symbols_of self.now)).text }
    {
        match self.kind {
            Some(_) => &self.rest[..self.len.min(self.rest.len())],
            None => &[],
        }
    }

    /// A copy of the text of the next token; an error means out of memory.
    #[inline(always)]
    pub fn copied_text(&self, alloc: Global) -> Result<Text, AllocError>
        requires { has_front (symbols_of self.now) ≡ true }
        ensures { IfOk result (λ t. t ≡ (front (symbols_of self.now)).text) }
    {
        Text::copied_front(alloc, self.rest, self.len)
    }

    /// The place of the next token, or after the text.
    pub fn place(&self) -> Location
        ensures { has_front (symbols_of self.now) ≡ true
            → result ≡ place_of (front (symbols_of self.now)) }
    {
        match self.kind {
            Some(_) => Location {
                line: self.line,
                column: self.column,
            },
            None => self.lexer.place,
        }
    }

    /// As many tokens as can be left, or more.
    #[tactic(auto, using(crate::proofs::Stream::symbols_fit))]
    pub fn left(&self) -> usize
        requires { IsReady self.now.lexer }
        ensures { length (symbols_of self.now) ≤ result }
    {
        self.lexer.source.len() - self.lexer.offset + 1
    }

    /// A token that the lexer has passed over is the next one.
    #[inline(always)]
    fn stand_at(&mut self, token: Token)
        requires ready { IsReady self.old.lexer }
        requires start { token.start ≤ token.end }
        requires end { token.end ≤ length self.old.lexer.source.now }
        ensures ready { IsReady self.new.lexer }
        ensures symbols { symbols_of self.new
            ≡ symbols_in self.old.lexer.source.now (token ∷ (still self.old.lexer).tokens) }
    {
        self.kind = Some(token.kind);
        self.line = token.line;
        self.rest = &self.lexer.source[token.start..];
        self.len = token.end - token.start;
        self.column = token.column;
    }

    /// The next token is passed over.
    #[tactic(auto, using(crate::proofs::Stream::at_end))]
    #[inline(always)]
    pub fn advance(&mut self)
        requires { IsReady self.old.lexer }
        ensures ready { IsReady self.new.lexer }
        ensures tail { symbols_of self.new ≡ tail (symbols_of self.old) }
    {
        if self.kind.is_some() {
            match self.lexer.next() {
                Ok(Some(token)) => self.stand_at(token),
                Ok(None) => self.kind = None,
                // (a token that ends no file, and nothing after it)
                Err(_) => {
                    self.kind = Some(TokenKind::Other);
                    self.line = self.lexer.place.line;
                    self.len = 0;
                    self.column = self.lexer.place.column;
                    self.lexer.offset = self.lexer.source.len();
                }
            }
        }
    }

    /// The next token is passed over, and then those that are read over on the way to an `end`
    /// outside of all braces; how many braces are open then, where `depth` are open behind the first.
    pub fn skim(&mut self, end: TokenKind, depth: usize) -> usize
        requires ready { IsReady self.old.lexer }
        requires front { has_front (symbols_of self.old) ≡ true }
        ensures ready { IsReady self.new.lexer }
        ensures over { Over end depth result (tail (symbols_of self.old)) (symbols_of self.new) }
    {
        let (_, text) = self.lexer.source.split_at(self.lexer.offset);
        let (size, depth) = skimmed(end, depth, text);
        self.lexer.pass(size);
        self.advance();
        depth
    }

    /// The same as a call.
    #[inline(never)]
    fn advance_by_call(&mut self)
        requires { IsReady self.old.lexer }
        ensures ready { IsReady self.new.lexer }
        ensures tail { symbols_of self.new ≡ tail (symbols_of self.old) }
    {
        self.advance();
    }

    /// The same in less code: one of the common tokens is passed over here, and any other by a call.
    #[inline(always)]
    pub fn skip(&mut self)
        requires { IsReady self.old.lexer }
        ensures ready { IsReady self.new.lexer }
        ensures tail { symbols_of self.new ≡ tail (symbols_of self.old) }
    {
        if self.kind.is_some() {
            match self.lexer.next_common() {
                Some(token) => self.stand_at(token),
                None => self.advance_by_call(),
            }
        }
    }
}
