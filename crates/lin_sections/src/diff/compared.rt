//! The LDFs that are compared.

ghost use Rattle.std.specs.Prelude.{◌≡◌, IfOk};
ghost use Rattle.lin_ldf.specs.Stream.{start_of};
ghost use Rattle.lin_ldf.specs.Symbols.{symbols_in};
ghost use Rattle.lin_sections.specs.Attributes.{node_attributes};
ghost use Rattle.lin_sections.specs.Things.{IsReadOf};

use crate::attribute_blocks::{Attribute, NodeAttributes, read_attributes};
use crate::diff::encoding_facts::first_types;
use crate::diff::tokens::header_lines;
use crate::mentioned::mentions;
use lin_cluster::numbers_of;
use lin_parts::Cluster;
use lin_parts::description::Description;
use lin_schedule::TableLoad;
use lin_text::Many;
use lin_values::{CodingType, Codings, NamedSignals, named_signals};
use std::alloc::{AllocError, Global};

/// An LDF without errors, with what was read from it.
#[derive(Clone, Copy)]
pub struct ComparedLdf<'a> {
    /// The bytes of the LDF.
    pub source: &'a [u8],
    pub description: &'a Description,
    pub cluster: &'a Cluster,
    pub codings: &'a Codings,
    /// The load of each schedule table.
    pub loads: &'a [TableLoad],
}

/// An LDF, with what it contains in addition to its description.
pub(crate) struct LdfFacts<'a> {
    pub(crate) ldf: ComparedLdf<'a>,
    /// The lines of its header.
    pub(crate) lines: Vec<Attribute<'a>>,
    /// The attributes of nodes.
    pub(crate) blocks: Many<NodeAttributes<'a>>,
    /// The first encoding of each name.
    pub(crate) types: Vec<&'a CodingType>,
    /// The encodings of signals.
    pub(crate) codings: NamedSignals<'a>,
}

// Written by hand, so that its owners drop it in one step.
impl<'a> Drop for LdfFacts<'a> {
    fn drop(self) {
        let LdfFacts {
            ldf: _,
            lines: _lines,
            blocks: _blocks,
            types: _types,
            codings: _codings,
        } = self;
    }
}

/// Reads the attributes of nodes. If the LDF doesn't contain the word `Node_attributes`, it isn't parsed.
fn attribute_blocks<'a>(
    alloc: Global,
    source: &'a [u8],
) -> Result<Many<NodeAttributes<'a>>, AllocError>
    ensures { IfOk result
        (λ b. b ≡ node_attributes (symbols_in source.now (start_of source.now).tokens)) }
{
    if mentions(source, b"Node_attributes") {
        read_attributes(alloc, source)
    } else {
        Ok(Many::new(Vec::new(alloc)))
    }
}

impl<'a> LdfFacts<'a> {
    /// Reads what the LDF contains in addition to its description.
    pub(crate) fn new(alloc: Global, ldf: ComparedLdf<'a>) -> Result<LdfFacts<'a>, AllocError>
        ensures read { IfOk result (λ f. IsReadOf f) }
        ensures same { IfOk result (λ f. f.ldf ≡ ldf.entry) }
    {
        let types = ldf.codings.types.as_slice();
        let numbers = numbers_of(alloc, types)?;
        Ok(LdfFacts {
            ldf,
            lines: header_lines(alloc, ldf.source)?,
            blocks: attribute_blocks(alloc, ldf.source)?,
            types: first_types(alloc, types, &numbers)?,
            codings: named_signals(alloc, types, &numbers, ldf.codings.lines.as_slice())?,
        })
    }
}
