//! The description that an LDF text spells, read token by token.

ghost use Rattle.std.specs.Prelude.{◌≡◌, ◌≢◌, ◌⊎◌, ◌++◌, ◌∷◌, ◌≤◌, ◌==◌, ℕ, [], true, Some, length, IfOk};
ghost use Rattle.std.specs.Prelude.{IsErrAnd, MatchResult};
ghost use Rattle.std.specs.Str.{bytes_eq};
ghost use Rattle.std.specs.List.{list_all, list_any, zip};
ghost use Rattle.lin_ldf.specs.Symbols.{symbols_in};
ghost use Rattle.lin_ldf.specs.Stream.{start_of};
ghost use Rattle.lin_ldf.specs.Tokens.{IsLexFault};
ghost use Rattle.lin_ldf.specs.Describes.{Describes};
ghost use Rattle.lin_ldf.specs.Forms.{Gives, has_front, front, tail, mark, keyword, end, ◌<&◌};
ghost use Rattle.lin_ldf.specs.Loops.{is_next};
ghost use Rattle.lin_ldf.specs.UpTo.{front_kind};
ghost use Rattle.lin_ldf.specs.Words.{word, name_of, place_of, opening, new_word, next_number, int};
ghost use Rattle.lin_ldf.specs.Words.{dec, dec_in, is_word_next};
ghost use Rattle.lin_ldf.specs.Grammar.{header_words, is_extra_next, without_quotes, protocol_text};
ghost use Rattle.lin_ldf.specs.Grammar.{file, with_node, front_section};
ghost use Rattle.lin_ldf.specs.declared.fault.LdfFault.{LdfFault};
ghost use Rattle.lin_ldf.specs.declared.fault.LdfFault.TheVariants.{OutOfMemory};
ghost use Rattle.lin_parts.specs.declared.description.Description.{Description};

use crate::declared_names::Names;
use crate::fault::LdfFault;
use crate::front::Front;
use crate::known_words::{is_attribute, is_section};
use crate::lexer::first_fault;
use crate::node_attributes::NodeBlocks;
use crate::number_values;
use crate::section::{SectionWord, section_word};
use crate::token::{TokenKind, same_kind};
use crate::unknown_words::{UnknownWord, UnknownWords};
use lin_parts::Location;
use lin_parts::description::{Description, Name, Number};
use lin_text::Text;
use std::alloc::{AllocError, Global};
use std::marker::Model;
use std::mem;

/// The tokens that are left. What is read takes memory of `alloc`.
#[derive(Drop)]
pub struct Parser<'a> {
    alloc: Global,
    unknown: UnknownWords<'a>,
    pub(crate) front: Front<'a>,
}

impl<'a> Model for Parser<'a> {
    ghost use Rattle.std.specs.Prelude.{List};
    ghost use Rattle.lin_ldf.specs.Symbols.{Symbol};
    ghost use Rattle.lin_ldf.specs.Stream.{IsReady, symbols_of};

    ghost Value = { List Symbol };

    ghost view = { λ p. symbols_of p.front };

    ghost invariant = { λ p. IsReady p.front.lexer };
}

/// Whether the bytes that stand at the same places are the same.
fn same_pairs(text: &[u8], word: &[u8]) -> bool
    ensures { result ≡ list_all (λ (pair : ℕ × ℕ). pair.0 == pair.1) (zip text.now word.now) }
{
    text.iter().zip(word).all(|(a, b)| *a == *b)
}

/// Whether two texts are the same bytes. Words are short: a comparison byte by byte is faster than `==`.
pub fn is_word(text: &[u8], word: &[u8]) -> bool
    ensures { result ≡ bytes_eq text.now word.now }
{
    text.len() == word.len() && same_pairs(text, word)
}

fn without_quotes(text: &[u8]) -> &[u8]
    ensures { result.now ≡ without_quotes text.now }
{
    if text.len() < 2 {
        &[]
    } else {
        &text[1..text.len() - 1]
    }
}

fn is_header_word(word: &[u8]) -> bool
    ensures { result ≡ list_any (bytes_eq word.now) header_words }
{
    is_word(word, b"LIN_description_file")
        || is_word(word, b"LIN_protocol_version")
        || is_word(word, b"LIN_language_version")
        || is_word(word, b"LIN_speed")
        || is_word(word, b"Nodes")
}

impl<'a> Parser<'a> {
    /// Makes a parser that is at the first token of a text.
    pub fn new(alloc: Global, source: &'a [u8]) -> Parser<'a>
        ensures { result ≡ symbols_in source.now (start_of source.now).tokens }
    {
        Parser {
            alloc,
            unknown: UnknownWords::new(alloc),
            front: Front::new(source),
        }
    }

    /// The allocator, for what is read.
    pub fn alloc(&self) -> Global {
        self.alloc
    }

    /// The text of the next token.
    pub fn text(&self) -> &'a [u8]
        ensures { result.now ≡ (front self.now).text }
    {
        self.front.text()
    }

    /// The place of the next token, or after the text.
    pub fn place(&self) -> Location
        ensures { has_front self.now ≡ true → result ≡ place_of (front self.now) }
    {
        self.front.place()
    }

    /// As many tokens as can be left, or more.
    pub fn left(&self) -> usize
        ensures { length self.now ≤ result }
    {
        self.front.left()
    }

    /// The kind of the next token, or `None` at the end of the text and before what isn't a token.
    pub fn front_kind(&self) -> Option<TokenKind>
        ensures { result ≡ front_kind self.now }
    {
        self.front.kind()
    }

    /// Whether the next token is of this kind.
    pub fn is_at(&self, kind: TokenKind) -> bool
        ensures { result ≡ is_next kind self.now }
    {
        match self.front_kind() {
            Some(next) => same_kind(kind, next),
            None => false,
        }
    }

    /// Whether the next token is this word.
    pub fn is_at_word(&self, word: &[u8]) -> bool
        ensures { result ≡ is_word_next word.now self.now }
    {
        match self.front_kind() {
            Some(next) => same_kind(TokenKind::Word, next) && is_word(self.text(), word),
            None => false,
        }
    }

    /// Another parser of the tokens that are left, which may read ahead.
    pub fn ahead(&self) -> Parser<'a>
        ensures { result ≡ self.now }
    {
        Parser {
            alloc: self.alloc,
            unknown: UnknownWords::new(self.alloc),
            front: self.front,
        }
    }

    /// Notes the word of a section, the next token, if no version of LIN has it.
    ///
    /// # Errors
    /// Out of memory.
    pub fn note_section(&mut self) -> Result<(), AllocError>
        ensures { self.new ≡ self.old }
    {
        let text = self.text();
        if is_section(text) {
            return Ok(());
        }
        self.unknown.add(UnknownWord {
            is_section: true,
            text,
        })
    }

    /// Notes the word of a node attribute, the next token, if no version of LIN has it.
    ///
    /// # Errors
    /// Out of memory.
    pub fn note_attribute(&mut self) -> Result<(), AllocError>
        ensures { self.new ≡ self.old }
    {
        let text = self.text();
        if is_attribute(text) {
            return Ok(());
        }
        self.unknown.add(UnknownWord {
            is_section: false,
            text,
        })
    }

    /// The next token is passed over.
    pub fn skip(&mut self)
        ensures { self.new ≡ tail self.old }
    {
        self.front.skip();
    }

    /// Reads a mark. Another token is a syntax error at its place.
    pub fn mark(&mut self, kind: TokenKind) -> Result<(), LdfFault>
        ensures { Gives result self.new ((mark kind).read self.old) }
    {
        if !self.is_at(kind) {
            return Err(LdfFault::Unexpected(self.place()));
        }
        self.skip();
        Ok(())
    }

    /// An opening brace, and its place.
    pub fn opening(&mut self) -> Result<Location, LdfFault>
        ensures { Gives result self.new (opening.read self.old) }
    {
        let place = self.place();
        if !self.is_at(TokenKind::OpenBrace) {
            return Err(LdfFault::Unexpected(place));
        }
        self.skip();
        Ok(place)
    }

    /// Reads this word. Another token is a syntax error at its place.
    pub fn keyword(&mut self, word: &[u8]) -> Result<(), LdfFault>
        ensures { Gives result self.new ((keyword word.now).read self.old) }
    {
        if !self.is_at_word(word) {
            return Err(LdfFault::Unexpected(self.place()));
        }
        self.skip();
        Ok(())
    }

    /// Reads this word and a mark.
    pub fn keyword_before(&mut self, word: &[u8], end: TokenKind) -> Result<(), LdfFault>
        ensures { Gives result self.new ((keyword word.now <& mark end).read self.old) }
    {
        self.keyword(word)?;
        self.mark(end)
    }

    /// The next token as a name. It is passed over.
    #[inline(always)]
    fn name(&mut self) -> Result<Name, LdfFault>
        requires { has_front self.old ≡ true }
        ensures { Gives result self.new (Some (name_of (front self.old), tail self.old)) }
    {
        let Location { line, column } = self.place();
        let text = self.front.copied_text(self.alloc)?;
        self.skip();
        Ok(Name { text, line, column })
    }

    /// Reads a word as a name. Another token is a syntax error at its place.
    #[inline(always)]
    pub fn word(&mut self) -> Result<Name, LdfFault>
        ensures { Gives result self.new (word.read self.old) }
    {
        if !self.is_at(TokenKind::Word) {
            return Err(LdfFault::Unexpected(self.place()));
        }
        self.name()
    }

    /// A name that is declared here. It must be new.
    pub fn declared(&mut self, seen: &mut Names<'a>) -> Result<Name, LdfFault>
        ensures read { Gives result self.new ((new_word seen.old).read self.old) }
        ensures seen { IfOk result (λ n. seen.new ≡ seen.old ++ n.text ∷ []) }
    {
        if !self.is_at(TokenKind::Word) {
            return Err(LdfFault::Unexpected(self.place()));
        }
        if !seen.insert(self.text())? {
            return Err(LdfFault::NameTwice(self.place()));
        }
        self.name()
    }

    /// Reads a name that isn't in `seen`, and a mark. `seen` has the name afterwards.
    pub fn declared_before(
        &mut self,
        seen: &mut Names<'a>,
        end: TokenKind,
    ) -> Result<Name, LdfFault>
        ensures read { Gives result self.new ((new_word seen.old <& mark end).read self.old) }
        ensures seen { IfOk result (λ n. seen.new ≡ seen.old ++ n.text ∷ []) }
    {
        let name = self.declared(seen)?;
        self.mark(end)?;
        Ok(name)
    }

    /// Reads a name and a mark.
    pub fn word_before(&mut self, end: TokenKind) -> Result<Name, LdfFault>
        ensures { Gives result self.new ((word <& mark end).read self.old) }
    {
        let name = self.word()?;
        self.mark(end)?;
        Ok(name)
    }

    /// Reads an integer and a mark.
    pub fn int_before(&mut self, end: TokenKind) -> Result<Number, LdfFault>
        ensures { Gives result self.new ((int <& mark end).read self.old) }
    {
        let number = self.int()?;
        self.mark(end)?;
        Ok(number)
    }

    /// The name of a block of attributes. No block of that node may stand before.
    pub fn node_of_block(&mut self, blocks: &mut NodeBlocks<'a>) -> Result<Name, LdfFault>
        ensures read { Gives result self.new ((new_word blocks.old.seen).read self.old) }
        ensures blocks { IfOk result (λ n. blocks.new ≡ with_node blocks.old n.text) }
    {
        if !self.is_at(TokenKind::Word) {
            return Err(LdfFault::Unexpected(self.place()));
        }
        if blocks.seen.contains(self.text()) {
            return Err(LdfFault::NameTwice(self.place()));
        }
        blocks.add(self.text())?;
        self.name()
    }

    /// The next token, a number with this value where that is within the limit.
    pub fn number(&mut self, value: Option<u32>) -> Result<Number, LdfFault>
        requires { has_front self.old ≡ true }
        ensures { Gives result self.new (next_number value self.old) }
    {
        let Location { line, column } = self.place();
        match value {
            Some(value) => {
                self.skip();
                Ok(Number {
                    value,
                    line,
                    column,
                })
            }
            None => Err(LdfFault::NumberTooLarge(self.place())),
        }
    }

    /// Reads an integer of up to 32 bits.
    pub fn int(&mut self) -> Result<Number, LdfFault>
        ensures { Gives result self.new (int.read self.old) }
    {
        if !self.is_at(TokenKind::Number) || !number_values::is_whole(self.text()) {
            return Err(LdfFault::Unexpected(self.place()));
        }
        self.number(number_values::int_value(self.text()))
    }

    fn dec(&mut self) -> Result<Number, LdfFault>
        ensures { Gives result self.new (dec.read self.old) }
    {
        if !self.is_at(TokenKind::Number) || !number_values::has_three_decimals(self.text()) {
            return Err(LdfFault::Unexpected(self.place()));
        }
        self.number(number_values::thousandths(self.text()))
    }

    /// Reads a number with decimals as thousandths of a unit, the unit and a mark: `DEC unit mark`.
    pub fn dec_in(&mut self, unit: &[u8], end: TokenKind) -> Result<Number, LdfFault>
        ensures { Gives result self.new ((dec_in unit.now end).read self.old) }
    {
        let number = self.dec()?;
        self.keyword_before(unit, end)?;
        Ok(number)
    }

    /// The text of `LIN_protocol`: without its quotes, or a number as it is spelled.
    pub fn protocol_text(&mut self) -> Result<Text, LdfFault>
        ensures { Gives result self.new (protocol_text.read self.old) }
    {
        let text = if self.is_at(TokenKind::Text) {
            without_quotes(self.text())
        } else if self.is_at(TokenKind::Number) {
            self.text()
        } else {
            return Err(LdfFault::Unexpected(self.place()));
        };
        let text = Text::copied(self.alloc, text)?;
        self.skip();
        Ok(text)
    }

    /// No token is left.
    pub fn end(&self) -> Result<(), LdfFault>
        ensures { Gives result self.now (end.read self.now) }
    {
        match self.front_kind() {
            None => Ok(()),
            Some(_) => Err(LdfFault::Unexpected(self.place())),
        }
    }

    /// What the next token says where a section begins.
    pub fn section_word(&self) -> SectionWord
        ensures { result ≡ front_section self.now }
    {
        match self.front_kind() {
            Some(_) => section_word(self.text()),
            None => SectionWord::Unused,
        }
    }

    /// Reads an LDF to its end, as `file` does, and returns the unknown words in `unknown`.
    fn file_noting(&mut self, unknown: &mut UnknownWords<'a>) -> Result<Description, LdfFault>
        ensures { Gives result self.new (file.read self.old) }
    {
        let read = self.file();
        mem::swap(&mut self.unknown, unknown);
        read
    }

    /// Whether the next token begins an extra line of the header.
    pub fn is_at_extra(&self) -> bool
        ensures { result ≡ is_extra_next self.now }
    {
        match self.front_kind() {
            Some(kind) => same_kind(TokenKind::Word, kind) && !is_header_word(self.text()),
            None => false,
        }
    }
}

/// What an LDF text describes (LIN 2.2A, section 9).
///
/// Extra lines of the header, sections that aren't used, and attributes but `LIN_protocol`,
/// `configured_NAD` and `response_error = NAME ;` are read over. The tokens are read one at a time, so that what is read over
/// takes no memory.
///
/// An error is the first fault of the tokens (`BadByte`, `OpenComment` or `OpenText`); where there
/// is none, the fault at the earliest token that breaks the grammar: `Unexpected`,
/// `NumberTooLarge`, `SectionTwice` or `NameTwice`; or `OutOfMemory`. Nothing is left behind.
pub fn parse(alloc: Global, source: &[u8]) -> Result<Description, LdfFault>
    ensures found { IfOk result (Describes source.now) }
    ensures only { (d : Description) → Describes source.now d
        → MatchResult result (λ found. found ≡ d) (λ e. e ≡ OutOfMemory) }
    ensures one { (d e : Description) → Describes source.now d → Describes source.now e → d ≡ e }
    ensures first { (e : LdfFault) → IsLexFault source.now e → e ≢ OutOfMemory
        → IsErrAnd result (λ found. (found ≡ e) ⊎ (found ≡ OutOfMemory)) }
{
    parse_noting(alloc, source, &mut UnknownWords::new(alloc))
}

/// Reads an LDF as `parse` does, and replaces `unknown` by the words of its sections and node attributes
/// that no version of LIN has. (No contract covers these words. If the LDF has no fault, they are the ones
/// that `unknown_words` of `lin_values` finds.)
///
/// # Errors
/// Those of `parse`.
pub fn parse_noting<'a>(
    alloc: Global,
    source: &'a [u8],
    unknown: &mut UnknownWords<'a>,
) -> Result<Description, LdfFault>
    ensures found { IfOk result (Describes source.now) }
    ensures only { (d : Description) → Describes source.now d
        → MatchResult result (λ found. found ≡ d) (λ e. e ≡ OutOfMemory) }
    ensures one { (d e : Description) → Describes source.now d → Describes source.now e → d ≡ e }
    ensures first { (e : LdfFault) → IsLexFault source.now e → e ≢ OutOfMemory
        → IsErrAnd result (λ found. (found ≡ e) ⊎ (found ≡ OutOfMemory)) }
{
    let mut parser = Parser::new(alloc, source);
    match parser.file_noting(unknown) {
        Ok(found) => Ok(found),
        Err(LdfFault::OutOfMemory) => Err(LdfFault::OutOfMemory),
        Err(fault) => match first_fault(source) {
            Some(first) => Err(first),
            None => Err(fault),
        },
    }
}
