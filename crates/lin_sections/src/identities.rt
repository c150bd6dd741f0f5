//! The identities of responders, and the frames that they list as configurable, read from the attributes of
//! nodes (LIN 2.2A, section 9.2.2.2).

ghost use Rattle.std.specs.Prelude.{◌≡◌, ◌++◌, ◌∷◌, [], IfOk, OnOk, find, flat_map, map};
ghost use Rattle.std.specs.Option.{option_copied};
ghost use Rattle.lin_ldf.specs.Words.{is_word_next};
ghost use Rattle.lin_sections.specs.Identities.{configurable_frame, frame_list_warnings, attribute_frames, identities_of};
ghost use Rattle.lin_sections.specs.Identities.{identity_of, identity_unless, initial_in, initial_nad};
ghost use Rattle.lin_sections.specs.Identities.{initial_warnings, line_message, line_name, line_read};
ghost use Rattle.lin_sections.specs.Identities.{frame_line_warnings, nad_next, product_in, product_warnings};
ghost use Rattle.lin_sections.specs.Identities.{identity_warnings, warnings_unless};
ghost use Rattle.lin_sections.specs.Lines.{token_lines};
ghost use Rattle.lin_sections.specs.Stops.{Stops};

use crate::attribute_blocks::{Attribute, NodeAttributes};
use crate::attribute_values::product_id;
use crate::skipping::{has_line, pass_line};
use crate::stops::{add_stopped, mark_next, number_next, or_found};
use lin_cluster::{Finding, FindingKind};
use lin_ldf::{LdfFault, Parser, TokenKind};
use lin_parts::Product;
use lin_text::{Many, Text};
use std::alloc::{AllocError, Global};

/// A configurable frame: its name, and its message identifier, if it has one. A line in another form has no
/// message identifier, and no name if it doesn't begin with one.
#[derive(Drop)]
pub(crate) struct ConfigurableFrame {
    pub(crate) name: Text,
    pub(crate) message: Option<u16>,
}

/// The identity of a node by its attributes: its product identification, the NAD that it has before it is
/// configured, and its configurable frames.
#[derive(Drop)]
pub(crate) struct NodeIdentity {
    pub(crate) node: Text,
    pub(crate) product: Option<Product>,
    pub(crate) initial: Option<u8>,
    pub(crate) frames: Many<ConfigurableFrame>,
}

/// Returns the first attribute with this word.
fn first<'b, 'a>(attributes: &'b [Attribute<'a>], word: &[u8]) -> Option<&'b Attribute<'a>>
    ensures { option_copied result ≡ find (is_word_next word.now) attributes.now }
{
    attributes.iter().find(|attribute| attribute.is(word))
}

// a NAD, but for the functional address 126
fn nad_next(parser: &mut Parser<'_>) -> Result<u8, LdfFault>
    ensures { Stops result parser.new (nad_next parser.old) }
{
    let before = parser.ahead();
    let nad = number_next(parser, 1, 127)?;
    if nad.value == 126 {
        let fault = LdfFault::Unexpected(before.place());
        *parser = before;
        return Err(fault);
    }
    Ok(nad.value as u8)
}

// '=' NAD ';'
fn initial_nad(parser: &mut Parser<'_>) -> Result<u8, LdfFault>
    ensures { Stops result parser.new (initial_nad parser.old) }
{
    mark_next(parser, TokenKind::Equals)?;
    let nad = nad_next(parser)?;
    mark_next(parser, TokenKind::Semicolon)?;
    Ok(nad)
}

/// Returns the product identification, and adds a warning if its attribute isn't in its form.
fn product_in(
    attributes: &[Attribute<'_>],
    warned: &mut Vec<Finding>,
) -> Result<Option<Product>, AllocError>
    ensures product { IfOk result (λ product. product ≡ product_in attributes.now) }
    ensures warned { OnOk result
        (warned.new.items ≡ warned.old.items ++ product_warnings attributes.now) }
{
    let Some(attribute) = first(attributes, b"product_id") else {
        return Ok(None);
    };
    let mut value = attribute.value();
    let read = product_id(&mut value);
    or_found(read, &value, FindingKind::BadIdentity, warned)
}

/// Returns the initial NAD, and adds a warning if its attribute isn't in its form.
fn initial_in(
    attributes: &[Attribute<'_>],
    warned: &mut Vec<Finding>,
) -> Result<Option<u8>, AllocError>
    ensures initial { IfOk result (λ nad. nad ≡ initial_in attributes.now) }
    ensures warned { OnOk result
        (warned.new.items ≡ warned.old.items ++ initial_warnings attributes.now) }
{
    let Some(attribute) = first(attributes, b"initial_NAD") else {
        return Ok(None);
    };
    let mut value = attribute.value();
    let read = initial_nad(&mut value);
    or_found(read, &value, FindingKind::BadIdentity, warned)
}

// [ '=' message ] ';', after the name of a frame
fn line_message(parser: &mut Parser<'_>) -> Result<Option<u16>, LdfFault>
    ensures { Stops result parser.new (line_message parser.old) }
{
    if !parser.is_at(TokenKind::Equals) {
        mark_next(parser, TokenKind::Semicolon)?;
        return Ok(None);
    }
    parser.skip();
    let message = number_next(parser, 0, 0xFFFF)?;
    mark_next(parser, TokenKind::Semicolon)?;
    Ok(Some(message.value as u16))
}

// WORD [ '=' message ] ';'
fn line_read(parser: &mut Parser<'_>) -> Result<Option<u16>, LdfFault>
    ensures { Stops result parser.new (line_read parser.old) }
{
    if !parser.is_at(TokenKind::Word) {
        return Err(LdfFault::Unexpected(parser.place()));
    }
    parser.skip();
    line_message(parser)
}

/// Returns the name with which a line begins, or no bytes if it doesn't begin with one.
fn line_name<'a>(line: &Parser<'a>) -> &'a [u8]
    ensures { result.now ≡ line_name line.now }
{
    if line.is_at(TokenKind::Word) {
        line.text()
    } else {
        &[]
    }
}

/// Adds the frame of a line, and a warning if the line isn't in its form.
fn add_frame(
    line: &Parser<'_>,
    frames: &mut Vec<ConfigurableFrame>,
    warned: &mut Vec<Finding>,
) -> Result<(), AllocError>
    ensures frames { OnOk result
        (frames.new.items ≡ frames.old.items ++ configurable_frame line.now ∷ []) }
    ensures warned { OnOk result (warned.new.items ≡ warned.old.items ++ frame_line_warnings line.now) }
{
    let mut rest = line.ahead();
    let read = line_read(&mut rest);
    let message = or_found(read, &rest, FindingKind::BadIdentity, warned)?;
    let message = message.unwrap_or(None);
    let name = Text::copied(line.alloc(), line_name(line))?;
    frames.push(ConfigurableFrame { name, message })?;
    Ok(())
}

/// Adds the frames of the lines that are left in a group.
fn add_frames(
    parser: &mut Parser<'_>,
    frames: &mut Vec<ConfigurableFrame>,
    warned: &mut Vec<Finding>,
) -> Result<(), AllocError>
    ensures frames { OnOk result
        (frames.new.items ≡ frames.old.items ++ map configurable_frame (token_lines parser.old)) }
    ensures warned { OnOk result
        (warned.new.items ≡ warned.old.items ++ flat_map frame_line_warnings (token_lines parser.old)) }
{
    while has_line(parser) {
        add_frame(parser, frames, warned)?;
        pass_line(parser);
    }
    Ok(())
}

/// Adds the frames of an attribute, if it is a list of them, and a warning for each line in another form.
fn add_list(
    attribute: &Attribute<'_>,
    frames: &mut Vec<ConfigurableFrame>,
    warned: &mut Vec<Finding>,
) -> Result<(), AllocError>
    ensures frames { OnOk result (frames.new.items ≡ frames.old.items ++ attribute_frames attribute.now) }
    ensures warned { OnOk result
        (warned.new.items ≡ warned.old.items ++ frame_list_warnings attribute.now) }
{
    if !attribute.is(b"configurable_frames") {
        return Ok(());
    }
    let mut list = attribute.value();
    if !list.is_at(TokenKind::OpenBrace) {
        return add_stopped(warned, FindingKind::BadIdentity, &list);
    }
    list.skip();
    add_frames(&mut list, frames, warned)
}

/// Adds the identity of the node of a block, and a warning for each attribute in another form.
fn add_identity(
    alloc: Global,
    block: &NodeAttributes<'_>,
    all: &mut Vec<NodeIdentity>,
    warned: &mut Vec<Finding>,
) -> Result<(), AllocError>
    ensures all { OnOk result (all.new.items ≡ all.old.items ++ identity_of block.now ∷ []) }
    ensures warned { OnOk result (warned.new.items ≡ warned.old.items ++ identity_warnings block.now) }
{
    let attributes = block.attributes.as_slice();
    let product = product_in(attributes, warned)?;
    let initial = initial_in(attributes, warned)?;
    let mut frames = Vec::new(alloc);
    for attribute in attributes {
        add_list(attribute, &mut frames, warned)?;
    }
    let node = Text::copied(alloc, block.node.text.as_slice())?;
    let frames = Many::new(frames);
    all.push(NodeIdentity {
        node,
        product,
        initial,
        frames,
    })?;
    Ok(())
}

/// Adds the identity of the node of a block, unless that is the commander.
fn add_responder(
    alloc: Global,
    block: &NodeAttributes<'_>,
    commander: &[u8],
    all: &mut Vec<NodeIdentity>,
    warned: &mut Vec<Finding>,
) -> Result<(), AllocError>
    ensures all { OnOk result
        (all.new.items ≡ all.old.items ++ identity_unless commander.now block.now) }
    ensures warned { OnOk result
        (warned.new.items ≡ warned.old.items ++ warnings_unless commander.now block.now) }
{
    if block.node.text.as_slice() == commander {
        return Ok(());
    }
    add_identity(alloc, block, all, warned)
}

/// Returns the identities of responders by their blocks of attributes, and adds a warning (78) for each
/// attribute in another form. The block of the commander, which has this name, isn't read.
///
/// An error means out of memory.
pub(crate) fn identities_of(
    alloc: Global,
    blocks: &[NodeAttributes<'_>],
    commander: &[u8],
    warned: &mut Vec<Finding>,
) -> Result<Vec<NodeIdentity>, AllocError>
    ensures all { IfOk result (λ all. all.items ≡ identities_of commander.now blocks.now) }
    ensures warned { OnOk result (warned.new.items
        ≡ warned.old.items ++ flat_map (warnings_unless commander.now) blocks.now) }
{
    let mut all = Vec::new(alloc);
    for block in blocks {
        add_responder(alloc, block, commander, &mut all, warned)?;
    }
    Ok(all)
}
