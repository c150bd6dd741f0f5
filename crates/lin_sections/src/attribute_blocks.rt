//! The attributes of nodes (LIN 2.2A, section 9.2.2.2), read from the tokens of an LDF text.

ghost use Rattle.std.specs.Prelude.{◌≡◌, ◌++◌, IfOk, List, OnOk, flat_map, true};
ghost use Rattle.lin_ldf.specs.Forms.{front, has_front, tail};
ghost use Rattle.lin_ldf.specs.Stream.{start_of};
ghost use Rattle.lin_ldf.specs.Symbols.{symbols_in};
ghost use Rattle.lin_ldf.specs.Tokens.{AreTokens};
ghost use Rattle.lin_ldf.specs.Words.{is_word_next, place_of};
ghost use Rattle.lin_ldf.specs.declared.token.Token.{Token};
ghost use Rattle.lin_sections.specs.Attributes.{block_of, attribute_blocks, node_attributes};
ghost use Rattle.lin_sections.specs.Statements.{statements};

use crate::configurable_lists::name_here;
use crate::skipping::has_line;
use crate::statements::{inside, is_group, pass_statement};
use lin_ldf::Parser;
use lin_parts::Location;
use lin_parts::description::Name;
use lin_text::Many;
use std::alloc::{AllocError, Global};
use std::marker::Model;

/// An attribute of a node: its word, and the tokens behind it, which take no memory. Contracts see the
/// tokens of the text from its word on.
#[derive(Drop)]
pub struct Attribute<'a> {
    at: Parser<'a>,
}

impl<'a> Model for Attribute<'a> {
    ghost use Rattle.std.specs.Prelude.{◌≡◌, List, true};
    ghost use Rattle.lin_ldf.specs.Forms.{has_front};
    ghost use Rattle.lin_ldf.specs.Symbols.{Symbol};

    ghost Value = { List Symbol };

    ghost view = { λ a. a.at };

    ghost invariant = { λ a. has_front a.at ≡ true };
}

impl<'a> Attribute<'a> {
    /// Returns the word with which it begins.
    pub fn word(&self) -> &'a [u8]
        ensures { result.now ≡ (front self.now).text }
    {
        self.at.text()
    }

    /// Returns the place of its word.
    pub fn place(&self) -> Location
        ensures { result ≡ place_of (front self.now) }
    {
        self.at.place()
    }

    /// Whether it begins with this word.
    pub fn is(&self, word: &[u8]) -> bool
        ensures { result ≡ is_word_next word.now self.now }
    {
        self.at.is_at_word(word)
    }

    /// Returns a parser of the tokens behind its word. They go on behind the attribute: the value ends
    /// with a semicolon outside of braces, or with the brace that closes its group.
    pub fn value(&self) -> Parser<'a>
        ensures { result ≡ tail self.now }
    {
        let mut ahead = self.at.ahead();
        ahead.skip();
        ahead
    }
}

/// The block of a node: its name, and its attributes in their order.
#[derive(Drop)]
pub struct NodeAttributes<'a> {
    pub node: Name,
    pub attributes: Many<Attribute<'a>>,
}

/// Returns the attribute that begins with the next token.
pub(crate) fn attribute_here<'a>(parser: &Parser<'a>) -> Attribute<'a>
    requires { has_front parser.now ≡ true }
    ensures { result ≡ parser.now }
{
    Attribute { at: parser.ahead() }
}

/// Reads the attributes that are left in a group.
fn attributes<'a>(parser: &mut Parser<'a>) -> Result<Vec<Attribute<'a>>, AllocError>
    ensures { IfOk result (λ found. found.items ≡ statements parser.old) }
{
    let mut found = Vec::new(parser.alloc());
    while has_line(parser) {
        found.push(attribute_here(parser))?;
        pass_statement(parser)?;
    }
    Ok(found)
}

/// Adds the next block, if a block is next.
#[tactic(auto, using(crate::proofs::StatementSteps::nothing_more))]
fn add_block<'a>(
    parser: &Parser<'a>,
    blocks: &mut Vec<NodeAttributes<'a>>,
) -> Result<(), AllocError>
    ensures { OnOk result (blocks.new.items ≡ blocks.old.items ++ block_of parser.now) }
{
    if !is_group(parser) {
        return Ok(());
    }
    let node = name_here(parser)?;
    let attributes = Many::new(attributes(&mut inside(parser))?);
    blocks.push(NodeAttributes { node, attributes })?;
    Ok(())
}

/// Adds the blocks that are left in a group.
fn add_blocks<'a>(
    parser: &mut Parser<'a>,
    blocks: &mut Vec<NodeAttributes<'a>>,
) -> Result<(), AllocError>
    ensures { OnOk result
        (blocks.new.items ≡ blocks.old.items ++ flat_map block_of (statements parser.old)) }
{
    while has_line(parser) {
        add_block(parser, blocks)?;
        pass_statement(parser)?;
    }
    Ok(())
}

/// Adds the blocks of the next section, if it is `Node_attributes`.
#[tactic(auto, using(crate::proofs::StatementSteps::nothing_more))]
fn add_section<'a>(
    parser: &Parser<'a>,
    blocks: &mut Vec<NodeAttributes<'a>>,
) -> Result<(), AllocError>
    ensures { OnOk result (blocks.new.items ≡ blocks.old.items ++ attribute_blocks parser.now) }
{
    if is_group(parser) && parser.is_at_word(b"Node_attributes") {
        return add_blocks(&mut inside(parser), blocks);
    }
    Ok(())
}

/// Reads the attributes of nodes in an LDF text, block by block, in their order.
///
/// The text is one that was read as an LDF text. In any other, reading ends at a group that isn't
/// closed, at a line without a semicolon, at a brace that closes no group, and at the first fault of
/// its tokens. An error means out of memory.
pub fn read_attributes<'a>(
    alloc: Global,
    source: &'a [u8],
) -> Result<Many<NodeAttributes<'a>>, AllocError>
    ensures read { IfOk result
        (λ b. b ≡ node_attributes (symbols_in source.now (start_of source.now).tokens)) }
    ensures tokens { (ts : List Token) → AreTokens source.now ts
        → IfOk result (λ b. b ≡ node_attributes (symbols_in source.now ts)) }
{
    let mut blocks = Vec::new(alloc);
    let mut parser = Parser::new(alloc, source);
    while has_line(&parser) {
        add_section(&parser, &mut blocks)?;
        pass_statement(&mut parser)?;
    }
    Ok(Many::new(blocks))
}
