//! The limits of transfers in the attributes of nodes (LIN 2.2A, section 9.2.2.2).

ghost use Rattle.std.specs.Prelude.{◌≡◌, IfOk, List, find, map};
ghost use Rattle.std.specs.Option.{option_copied};
ghost use Rattle.std.specs.Str.{bytes_eq};
ghost use Rattle.lin_ldf.specs.Stream.{start_of};
ghost use Rattle.lin_ldf.specs.Symbols.{symbols_in};
ghost use Rattle.lin_ldf.specs.Tokens.{AreTokens};
ghost use Rattle.lin_ldf.specs.declared.token.Token.{Token};
ghost use Rattle.lin_sections.specs.TransferLimits.{first_time, limits_of, time_or_usual, time_with, transfer_limits};

use crate::attribute_blocks::{Attribute, NodeAttributes, read_attributes};
use lin_parts::description::Name;
use lin_text::Many;
use std::alloc::{AllocError, Global};

/// The limit of transfers without an attribute, in microseconds.
const USUAL_US: u32 = 1_000_000;

/// The limits of a node's transfers in microseconds: of messages to it (`N_Cr_timeout`), and of those from it
/// (`N_As_timeout`). One that isn't there is a second.
#[derive(Drop)]
pub struct TransferLimits {
    pub node: Name,
    pub down_us: u32,
    pub up_us: u32,
}

/// The time of an attribute in microseconds, if it has this word.
fn time_with(attribute: &Attribute<'_>, word: &[u8]) -> Result<Option<u32>, AllocError>
    ensures { IfOk result (λ time. time ≡ time_with word.now attribute.now) }
{
    if attribute.is(word) {
        attribute.time()
    } else {
        Ok(None)
    }
}

/// The first time of the attributes with this word in microseconds, if there is one.
fn first_time(attributes: &[Attribute<'_>], word: &[u8]) -> Result<Option<u32>, AllocError>
    ensures { IfOk result (λ time. time ≡ first_time word.now attributes.now) }
{
    for attribute in attributes {
        let time = time_with(attribute, word)?;
        if time.is_some() {
            return Ok(time);
        }
    }
    Ok(None)
}

/// The first time of the attributes with this word in microseconds; a second if there is none.
fn time_or_usual(attributes: &[Attribute<'_>], word: &[u8]) -> Result<u32, AllocError>
    ensures { IfOk result (λ time. time ≡ time_or_usual word.now attributes.now) }
{
    Ok(first_time(attributes, word)?.unwrap_or(USUAL_US))
}

fn limits_of(block: NodeAttributes<'_>) -> Result<TransferLimits, AllocError>
    ensures { IfOk result (λ limits. limits ≡ limits_of block.entry) }
{
    let NodeAttributes { node, attributes } = block;
    let down_us = time_or_usual(attributes.as_slice(), b"N_Cr_timeout".as_slice())?;
    let up_us = time_or_usual(attributes.as_slice(), b"N_As_timeout".as_slice())?;
    Ok(TransferLimits {
        node,
        down_us,
        up_us,
    })
}

/// The limits of these blocks.
fn limits_of_all(
    alloc: Global,
    blocks: Vec<NodeAttributes<'_>>,
) -> Result<Many<TransferLimits>, AllocError>
    ensures { IfOk result (λ all. all ≡ map limits_of blocks.entry.items) }
{
    let mut all = Vec::new(alloc);
    for block in blocks {
        all.push(limits_of(block)?)?;
    }
    Ok(Many::new(all))
}

/// Reads the limits of transfers in the attributes of nodes in an LDF text, block by block, in their order.
///
/// The text is one that was read as an LDF text. In any other, reading ends as that of `read_attributes`
/// does. An error means out of memory.
pub fn read_transfer_limits(
    alloc: Global,
    source: &[u8],
) -> Result<Many<TransferLimits>, AllocError>
    ensures read { IfOk result
        (λ l. l ≡ transfer_limits (symbols_in source.now (start_of source.now).tokens)) }
    ensures tokens { (ts : List Token) → AreTokens source.now ts
        → IfOk result (λ l. l ≡ transfer_limits (symbols_in source.now ts)) }
{
    limits_of_all(alloc, read_attributes(alloc, source)?.into_vec())
}

/// Returns the first limits of a node with this name.
pub fn limits_named<'a>(limits: &'a [TransferLimits], name: &[u8]) -> Option<&'a TransferLimits>
    ensures { option_copied result ≡ find (λ l. bytes_eq l.node.text name.now) limits.now }
{
    limits
        .iter()
        .find(|limits| limits.node.text.as_slice() == name)
}
