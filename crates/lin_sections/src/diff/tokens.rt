//! Values that consist of tokens of an LDF: of attributes, header lines and configuration entries.

ghost use Rattle.std.specs.Prelude.{◌≡◌, ◌&&◌, ◌||◌, ◌∷◌, [], Some, IfOk, OnOk, fold};
ghost use Rattle.lin_ldf.specs.Forms.{front, tail};
ghost use Rattle.lin_ldf.specs.Grammar.{without_quotes};
ghost use Rattle.lin_ldf.specs.Stream.{start_of};
ghost use Rattle.lin_ldf.specs.Symbols.{is_kind, symbols_in};
ghost use Rattle.lin_ldf.specs.UpTo.{front_kind};
ghost use Rattle.lin_ldf.specs.declared.token.TokenKind.TheVariants.{CloseBrace, Comma, Semicolon};
ghost use Rattle.lin_sections.specs.FactTexts.{with_word};
ghost use Rattle.lin_sections.specs.NewNames.{renames_data};
ghost use Rattle.lin_sections.specs.Texts.{shown_text};
ghost use Rattle.lin_sections.specs.TokenTexts.{command_text, group_words, lines_of_header, number_token};
ghost use Rattle.lin_sections.specs.TokenTexts.{spelling_of, tokens_words, words_until};
ghost use Rattle.lin_sections.specs.TokenTexts.{value_text};
ghost use Rattle.lin_values.specs.Spelled.{in_quotes};

use crate::attribute_blocks::{Attribute, attribute_here};
use crate::attribute_values::if_read;
use crate::diff::fact_text::{FactText, put_number, put_quoted, put_word};
use crate::diff::renames::Renames;
use crate::shown_texts::shown_text;
use crate::skipping::{depth_behind, has_line};
use crate::statements::{is_group, pass_statement};
use lin_ldf::{Parser, TokenKind};
use std::alloc::{AllocError, Global};

/// How tokens are written.
#[derive(Clone, Copy)]
pub(crate) enum Spelling<'n, 'a> {
    /// As the LDF has them.
    AsTheyAre,
    /// Integers in decimal, without commas.
    Numbers,
    /// Frames with their new names.
    Frames(&'n Renames<'a>),
    /// Signals with their new names.
    Signals(&'n Renames<'a>),
    /// Nodes, frames and signals with their new names.
    Names(&'n Renames<'a>),
}

impl<'n, 'a> Spelling<'n, 'a> {
    fn leaves_out(self, kind: TokenKind) -> bool
        ensures { result ≡ ((spelling_of self.entry).has_decimals && is_kind Comma kind) }
    {
        match self {
            Spelling::Numbers => kind == TokenKind::Comma,
            _ => false,
        }
    }

    /// Returns a word as it is written.
    fn word(self, word: &'a [u8]) -> &'a [u8]
        ensures { result.now ≡ (spelling_of self.entry).word word.now }
    {
        match self {
            Spelling::AsTheyAre | Spelling::Numbers => word,
            Spelling::Frames(renames) => renames.frames.of(word),
            Spelling::Signals(renames) => renames.signals.of(word),
            Spelling::Names(renames) => renames.any(word),
        }
    }

    fn has_decimals(self) -> bool
        ensures { result ≡ (spelling_of self.entry).has_decimals }
    {
        match self {
            Spelling::Numbers => true,
            _ => false,
        }
    }
}

/// Returns the bytes between the quotes of a string.
pub(crate) fn between_quotes(text: &[u8]) -> &[u8]
    ensures { result.now ≡ without_quotes text.now }
{
    if text.len() < 2 {
        &[]
    } else {
        &text[1..text.len() - 1]
    }
}

/// Appends the shown form of a string, in quotes.
fn put_string(text: &mut Vec<u8>, alloc: Global, token: &[u8]) -> Result<(), AllocError>
    ensures { OnOk result
        (text.new.items ≡ with_word text.old.items (in_quotes (shown_text (without_quotes token.now)))) }
{
    let shown = shown_text(alloc, between_quotes(token))?;
    put_quoted(text, shown.as_slice())
}

/// Appends a number: an integer of up to 32 bits in decimal, any other number as the LDF has it.
#[tactic(auto, using(crate::proofs::FactSteps::word_goes_on))]
fn put_decimal_token(text: &mut Vec<u8>, parser: &Parser<'_>) -> Result<(), AllocError>
    ensures { OnOk result (text.new.items ≡ with_word text.old.items (number_token parser.now)) }
{
    let mut ahead = parser.ahead();
    match if_read(ahead.int())? {
        Some(number) => {
            put_word(text, &[])?;
            put_number(text, u64::from(number.value))
        }
        None => put_word(text, parser.text()),
    }
}

/// Whether a token ends a group, or a value if `ends_at_semicolon` is set.
fn ends_group(kind: TokenKind, ends_at_semicolon: bool) -> bool
    ensures { result ≡ (is_kind CloseBrace kind || ends_at_semicolon && is_kind Semicolon kind) }
{
    kind == TokenKind::CloseBrace || ends_at_semicolon && kind == TokenKind::Semicolon
}

/// Appends the next token, unless its spelling omits it.
#[tactic(auto, using(crate::proofs::TokenSteps::putting_one))]
fn put_next<'a>(
    text: &mut Vec<u8>,
    parser: &Parser<'a>,
    kind: TokenKind,
    spelling: Spelling<'_, 'a>,
) -> Result<(), AllocError>
    requires { front_kind parser.now ≡ Some kind }
    ensures { OnOk result (text.new.items ≡ fold with_word text.old.items
        (tokens_words (spelling_of spelling.entry) (front parser.now ∷ []))) }
{
    if spelling.leaves_out(kind) {
        return Ok(());
    }
    match kind {
        TokenKind::Text => put_string(text, parser.alloc(), parser.text()),
        TokenKind::Word => put_word(text, spelling.word(parser.text())),
        TokenKind::Number if spelling.has_decimals() => put_decimal_token(text, parser),
        _ => put_word(text, parser.text()),
    }
}

/// Appends the tokens up to the brace that closes the group, or up to a semicolon outside braces if
/// `ends_at_semicolon` is set.
#[tactic(auto, using(crate::proofs::TokenSteps::putting))]
fn put_tokens<'a>(
    text: &mut Vec<u8>,
    parser: &mut Parser<'a>,
    ends_at_semicolon: bool,
    spelling: Spelling<'_, 'a>,
) -> Result<(), AllocError>
    ensures { OnOk result (text.new.items ≡ fold with_word text.old.items
        (words_until (spelling_of spelling.entry) ends_at_semicolon parser.old)) }
{
    let left = parser.left();
    let mut depth = 0usize;
    while let Some(kind) = parser.front_kind() {
        if depth == 0 && ends_group(kind, ends_at_semicolon) {
            return Ok(());
        }
        put_next(text, parser, kind, spelling)?;
        depth = depth_behind(depth, kind);
        parser.skip();
    }
    Ok(())
}

/// Appends a group with its braces.
fn put_group<'a>(
    text: &mut Vec<u8>,
    parser: &mut Parser<'a>,
    spelling: Spelling<'_, 'a>,
) -> Result<(), AllocError>
    ensures { OnOk result (text.new.items
        ≡ fold with_word text.old.items (group_words (spelling_of spelling.entry) parser.old)) }
{
    put_word(text, b"{")?;
    parser.skip();
    put_tokens(text, parser, false, spelling)?;
    put_word(text, b"}")
}

/// Returns the tokens of a value with a space between them, or `yes` if there are no tokens.
pub(crate) fn value_text<'a>(
    alloc: Global,
    attribute: &Attribute<'a>,
    spelling: Spelling<'_, 'a>,
) -> Result<FactText<'a>, AllocError>
    ensures { IfOk result (λ t. t ≡ value_text (spelling_of spelling.entry) (tail attribute.now)) }
{
    let mut text = Vec::new(alloc);
    let mut parser = attribute.value();
    if parser.is_at(TokenKind::OpenBrace) {
        put_group(&mut text, &mut parser, spelling)?;
        return FactText::copied(alloc, text.as_slice());
    }
    if parser.is_at(TokenKind::Equals) {
        parser.skip();
    }
    put_tokens(&mut text, &mut parser, true, spelling)?;
    if text.is_empty() {
        return Ok(FactText::lent(b"yes"));
    }
    FactText::copied(alloc, text.as_slice())
}

/// Returns the word and the group of a configuration entry, with a space between their tokens.
pub(crate) fn command_text<'a>(
    alloc: Global,
    entry: &Parser<'a>,
    renames: &Renames<'a>,
) -> Result<FactText<'a>, AllocError>
    ensures { IfOk result (λ t. t ≡ command_text (renames_data renames.now) entry.now) }
{
    let mut text = Vec::from_slice(alloc, entry.text())?;
    let mut parser = entry.ahead();
    parser.skip();
    put_group(&mut text, &mut parser, Spelling::Names(renames))?;
    FactText::copied(alloc, text.as_slice())
}

/// Returns the lines of a header: the statements of an LDF before its first section.
pub(crate) fn header_lines(alloc: Global, source: &[u8]) -> Result<Vec<Attribute<'_>>, AllocError>
    ensures { IfOk result (λ lines. lines.items
        ≡ lines_of_header (symbols_in source.now (start_of source.now).tokens)) }
{
    let mut lines = Vec::new(alloc);
    let mut parser = Parser::new(alloc, source);
    while has_line(&parser) {
        if is_group(&parser) {
            return Ok(lines);
        }
        lines.push(attribute_here(&parser))?;
        pass_statement(&mut parser)?;
    }
    Ok(lines)
}
