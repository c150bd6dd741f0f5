//! The frames that the attributes of nodes list as configurable, read from a text.

ghost use Rattle.std.specs.Prelude.{◌≡◌, IfOk, List, OnOk, true};
ghost use Rattle.lin_ldf.specs.Forms.{front, has_front};
ghost use Rattle.lin_ldf.specs.Symbols.{symbols_in};
ghost use Rattle.lin_ldf.specs.Stream.{start_of};
ghost use Rattle.lin_ldf.specs.Tokens.{AreTokens};
ghost use Rattle.lin_ldf.specs.Words.{name_of};
ghost use Rattle.lin_ldf.specs.declared.token.Token.{Token};
ghost use Rattle.lin_sections.specs.Configured.{configurables, listed_names, with_attribute};
ghost use Rattle.lin_sections.specs.Configured.{with_node_block, with_blocks, with_listed_name, with_names};
ghost use Rattle.lin_sections.specs.Configured.{with_statement};
ghost use Rattle.lin_sections.specs.Passed.{has_line};

use crate::mentioned::mentions;
use crate::skipping::{has_line, pass_closing, pass_group, pass_line};
use lin_cluster::Configurable;
use lin_ldf::{Parser, TokenKind};
use lin_parts::Location;
use lin_parts::description::Name;
use lin_text::{Many, Text};
use std::alloc::{AllocError, Global};

/// The next token as a name. It is not passed over.
pub(crate) fn name_here(parser: &Parser<'_>) -> Result<Name, AllocError>
    requires { has_front parser.now ≡ true }
    ensures { IfOk result (λ name. name ≡ name_of (front parser.now)) }
{
    let Location { line, column } = parser.place();
    let text = Text::copied(parser.alloc(), parser.text())?;
    Ok(Name { text, line, column })
}

/// The name with which a line of a list begins, if it begins with one.
fn add_name(parser: &mut Parser<'_>, names: &mut Vec<Name>) -> Result<(), AllocError>
    requires { has_line parser.old ≡ true }
    ensures { OnOk result ((parser.new, names.new.items) ≡ with_listed_name (parser.old, names.old.items)) }
{
    if parser.is_at(TokenKind::Word) {
        names.push(name_here(parser)?)?;
    }
    pass_line(parser);
    Ok(())
}

/// The names of a list, from its opening brace on.
fn add_names(parser: &mut Parser<'_>, names: &mut Vec<Name>) -> Result<(), AllocError>
    ensures { OnOk result ((parser.new, names.new.items) ≡ with_names parser.old names.old.items) }
{
    parser.skip();
    while has_line(parser) {
        add_name(parser, names)?;
    }
    pass_closing(parser);
    Ok(())
}

/// An attribute, of which the names count where it is a list of configurable frames.
fn add_attribute(parser: &mut Parser<'_>, names: &mut Vec<Name>) -> Result<(), AllocError>
    requires { has_line parser.old ≡ true }
    ensures { OnOk result
        ((parser.new, names.new.items) ≡ with_attribute (parser.old, names.old.items)) }
{
    let is_list = parser.is_at_word(b"configurable_frames");
    parser.skip();
    if !parser.is_at(TokenKind::OpenBrace) {
        pass_line(parser);
        return Ok(());
    }
    if is_list {
        add_names(parser, names)
    } else {
        pass_group(parser);
        Ok(())
    }
}

/// The names that the attributes of a node list, from their opening brace on.
fn listed_names(parser: &mut Parser<'_>) -> Result<Vec<Name>, AllocError>
    ensures { IfOk result (λ names. (parser.new, names.items) ≡ listed_names parser.old) }
{
    let mut names = Vec::new(parser.alloc());
    parser.skip();
    while has_line(parser) {
        add_attribute(parser, &mut names)?;
    }
    pass_closing(parser);
    Ok(names)
}

/// The attributes of a node, which count where they list a frame.
fn add_block(parser: &mut Parser<'_>, all: &mut Vec<Configurable>) -> Result<(), AllocError>
    requires { has_line parser.old ≡ true }
    ensures { OnOk result ((parser.new, all.new.items) ≡ with_node_block (parser.old, all.old.items)) }
{
    let node = name_here(parser)?;
    parser.skip();
    if !parser.is_at(TokenKind::OpenBrace) {
        pass_line(parser);
        return Ok(());
    }
    let names = listed_names(parser)?;
    if !names.is_empty() {
        let frames = Many::new(names);
        all.push(Configurable { node, frames })?;
    }
    Ok(())
}

/// The attributes of all nodes, from the opening brace on.
fn add_blocks(parser: &mut Parser<'_>, all: &mut Vec<Configurable>) -> Result<(), AllocError>
    ensures { OnOk result ((parser.new, all.new.items) ≡ with_blocks parser.old all.old.items) }
{
    parser.skip();
    while has_line(parser) {
        add_block(parser, all)?;
    }
    pass_closing(parser);
    Ok(())
}

/// The attributes of nodes, or what else begins with the next token outside of all braces: a section,
/// or a line.
fn add_statement(parser: &mut Parser<'_>, all: &mut Vec<Configurable>) -> Result<(), AllocError>
    requires { has_front parser.old ≡ true }
    ensures { OnOk result
        ((parser.new, all.new.items) ≡ with_statement (parser.old, all.old.items)) }
{
    let is_word = parser.is_at(TokenKind::Word);
    let word = parser.text();
    parser.skip();
    if !is_word {
        return Ok(());
    }
    if !parser.is_at(TokenKind::OpenBrace) {
        pass_line(parser);
        return Ok(());
    }
    if word == b"Node_attributes".as_slice() {
        add_blocks(parser, all)
    } else {
        pass_group(parser);
        Ok(())
    }
}

/// The frames that the attributes of nodes list as configurable (LIN 2.2A, section 9.2.2.2), for
/// `lint`: for each block of attributes that lists any. A text that doesn't mention such a list is
/// only searched for the word.
///
/// The text is one that was read as an LDF text; of any other the tokens before the first fault of
/// its tokens are read. An error means out of memory.
pub fn read_configurables(alloc: Global, source: &[u8]) -> Result<Many<Configurable>, AllocError>
    ensures read { IfOk result
        (λ c. c ≡ configurables (symbols_in source.now (start_of source.now).tokens)) }
    ensures tokens { (ts : List Token) → AreTokens source.now ts
        → IfOk result (λ c. c ≡ configurables (symbols_in source.now ts)) }
{
    let mut all = Vec::new(alloc);
    if !mentions(source, b"configurable_frames") {
        return Ok(Many::new(all));
    }
    let mut parser = Parser::new(alloc, source);
    while parser.front_kind().is_some() {
        add_statement(&mut parser, &mut all)?;
    }
    Ok(Many::new(all))
}
