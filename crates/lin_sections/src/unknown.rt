//! Words of sections and attributes that no version of LIN has.

ghost use Rattle.std.specs.Prelude.{◌≡◌, ◌++◌, IfOk, List, OnOk, flat_map};
ghost use Rattle.lin_ldf.specs.Symbols.{symbols_in};
ghost use Rattle.lin_ldf.specs.Stream.{start_of};
ghost use Rattle.lin_ldf.specs.Tokens.{AreTokens};
ghost use Rattle.lin_ldf.specs.declared.token.Token.{Token};
ghost use Rattle.lin_ldf.specs.Known.{known_attributes};
ghost use Rattle.lin_sections.specs.Statements.{statements};
ghost use Rattle.lin_sections.specs.Unknown.{unknown_among, unknown_of_node, unknown_of_section};
ghost use Rattle.lin_sections.specs.Unknown.{unknown_unless, unknown_words};

use crate::skipping::has_line;
use crate::statements::{inside, is_group, pass_statement};
use lin_cluster::{Finding, FindingKind, push_when};
use lin_ldf::{Parser, TokenKind, is_attribute, is_section};
use std::alloc::{AllocError, Global};

/// The next token, if it is a word that isn't known.
fn add_unknown(
    parser: &Parser<'_>,
    is_known: bool,
    found: &mut Vec<Finding>,
) -> Result<(), AllocError>
    ensures { OnOk result
        (found.new.items ≡ found.old.items ++ unknown_unless is_known parser.now) }
{
    push_when(
        found,
        parser.is_at(TokenKind::Word) && !is_known,
        Finding::new(FindingKind::UnknownWord, parser.place()),
    )
}

/// The unknown ones of the attributes that are left in a group.
fn add_attributes(parser: &mut Parser<'_>, found: &mut Vec<Finding>) -> Result<(), AllocError>
    ensures { OnOk result (found.new.items ≡ found.old.items
        ++ flat_map (unknown_among known_attributes) (statements parser.old)) }
{
    while has_line(parser) {
        add_unknown(parser, is_attribute(parser.text()), found)?;
        pass_statement(parser)?;
    }
    Ok(())
}

/// The unknown attributes of the next node.
#[tactic(auto, using(crate::proofs::StatementSteps::nothing_more))]
fn add_node(parser: &Parser<'_>, found: &mut Vec<Finding>) -> Result<(), AllocError>
    ensures { OnOk result (found.new.items ≡ found.old.items ++ unknown_of_node parser.now) }
{
    if is_group(parser) {
        return add_attributes(&mut inside(parser), found);
    }
    Ok(())
}

/// The unknown attributes of the nodes that are left in a group.
fn add_nodes(parser: &mut Parser<'_>, found: &mut Vec<Finding>) -> Result<(), AllocError>
    ensures { OnOk result (found.new.items
        ≡ found.old.items ++ flat_map unknown_of_node (statements parser.old)) }
{
    while has_line(parser) {
        add_node(parser, found)?;
        pass_statement(parser)?;
    }
    Ok(())
}

/// The next section, if it is unknown, or the unknown attributes in it.
#[tactic(auto, using(crate::proofs::StatementSteps::nothing_more))]
fn add_section(parser: &Parser<'_>, found: &mut Vec<Finding>) -> Result<(), AllocError>
    ensures { OnOk result (found.new.items ≡ found.old.items ++ unknown_of_section parser.now) }
{
    if !is_group(parser) {
        return Ok(());
    }
    if parser.is_at_word(b"Node_attributes") {
        return add_nodes(&mut inside(parser), found);
    }
    add_unknown(parser, is_section(parser.text()), found)
}

/// The words of sections (LIN 2.2A, section 9.2) and of attributes (section 9.2.2.2) in an LDF text
/// that no version of LIN has, each as a warning (27 UnknownWord) at its place, in their order.
///
/// The text is one that was read as an LDF text. In any other, reading ends at a group that isn't
/// closed, at a line without a semicolon, at a brace that closes no group, and at the first fault of
/// its tokens. An error means out of memory.
pub fn unknown_words(alloc: Global, source: &[u8]) -> Result<Vec<Finding>, AllocError>
    ensures read { IfOk result (λ found. found.items
        ≡ unknown_words (symbols_in source.now (start_of source.now).tokens)) }
    ensures tokens { (ts : List Token) → AreTokens source.now ts
        → IfOk result (λ found. found.items ≡ unknown_words (symbols_in source.now ts)) }
{
    let mut found = Vec::new(alloc);
    let mut parser = Parser::new(alloc, source);
    while has_line(&parser) {
        add_section(&parser, &mut found)?;
        pass_statement(&mut parser)?;
    }
    Ok(found)
}
