//! A text of the field, settled to a plain description.

ghost use Rattle.std.specs.Prelude.{◌≡◌, ◌++◌, map, IfOk, OnOk};
ghost use Rattle.std.specs.Option.{option_map};
ghost use Rattle.lin_field.specs.Attributes.{settled_attributes};
ghost use Rattle.lin_field.specs.Settled.{is_old, old_version, tells_tables, normalized_description, warnings};
ghost use Rattle.lin_field.specs.Settled.{placed_elsewhere};
ghost use Rattle.lin_field.specs.Settled.{header_warnings, with_kept_tables, elsewhere_by, node_warnings};
ghost use Rattle.lin_field.specs.Signals.{settled_signal, wide_names};
ghost use Rattle.lin_field.specs.Order.{byte_order};
ghost use Rattle.lin_field.specs.Times.{timing_warnings};

use crate::attributes::{AttributeSources, settle_attributes};
use crate::field_text::FieldText;
use crate::frames::settle_frames;
use crate::loose::{Header, Loose, LooseAttributes, LooseNodes, LooseSignal, NodeAddress};
use crate::node_names::NodeNames;
use crate::order::byte_order;
use crate::signals::{settle_signals, wide_names};
use crate::tables::{keep_tables, settle_events, warn_of_rounding};
use crate::times::all_tables;
use lin_cluster::{Finding, FindingKind, at_name, numbers_of};
use lin_ldf::Token;
use lin_parts::Location;
use lin_parts::description::{Attributes, Description, Name, Signal, Table};
use lin_text::Many;
use std::alloc::{AllocError, Global};

/// A description that a text of the field is settled to, with the text's header; the names of the wide
/// signals, which are arrays because of their width; the names of the signals that the text's diagnostic
/// frames have, which aren't in the description; the warnings; and where the order of bytes matters and
/// isn't that of LIN. In no order.
#[derive(Drop)]
pub struct Normalized {
    pub header: Header,
    pub description: Description,
    pub wide: Many<Name>,
    pub placed_elsewhere: Many<Name>,
    pub warnings: Vec<Finding>,
    pub byte_order: Vec<Finding>,
}

impl Header {
    /// Whether the version begins with `1.`, as in LIN 1.2 and 1.3.
    pub fn is_old(&self) -> bool
        ensures { result ≡ is_old self.now }
    {
        self.version.as_slice().starts_with(b"1.".as_slice())
    }

    /// The version, where it begins so.
    fn old_version(&self) -> Option<&[u8]>
        ensures { option_map (λ v. v.now) result ≡ old_version self.now }
    {
        if self.is_old() {
            Some(self.version.as_slice())
        } else {
            None
        }
    }

    /// Whether an event-triggered frame without a table is told of: in LIN 2.0 and before none has
    /// one.
    fn tells_tables(&self) -> bool
        ensures { result ≡ tells_tables self.now }
    {
        !self.is_old() && self.version.as_slice() != b"2.0".as_slice()
    }
}

/// Marks that are left out, unknown lines of the header, and numbers that are rounded, but for those
/// of schedule tables.
fn header_warnings(
    alloc: Global,
    header: &Header,
    nodes: &LooseNodes,
    marks: &[Token],
) -> Result<Vec<Finding>, AllocError>
    ensures { IfOk result (λ w. w.items ≡ header_warnings header.now nodes.now marks.now) }
{
    let mut warned = Vec::new(alloc);
    for mark in marks {
        let place = Location {
            line: mark.line,
            column: mark.column,
        };
        warned.push(Finding::new(FindingKind::ExtraMark, place))?;
    }
    for word in header.unknown.as_slice() {
        warned.push(at_name(FindingKind::HeaderLine, word))?;
    }
    warn_of_rounding(&mut warned, &header.speed)?;
    warn_of_rounding(&mut warned, &nodes.time_base)?;
    warn_of_rounding(&mut warned, &nodes.jitter)?;
    Ok(warned)
}

/// What names nodes.
#[derive(Drop)]
struct OfNodes {
    signals: Many<LooseSignal>,
    attributes: Many<LooseAttributes>,
    addresses: Many<NodeAddress>,
}

/// The signals, and the attributes of nodes.
fn settle_nodes(
    alloc: Global,
    header: &Header,
    nodes: &LooseNodes,
    of_nodes: OfNodes,
    warned: &mut Vec<Finding>,
) -> Result<(Many<Signal>, Many<Attributes>), AllocError>
    ensures signals { IfOk result
        (λ r. r.0 ≡ map (settled_signal nodes.now) of_nodes.signals) }
    ensures attributes { IfOk result
        (λ r. r.1 ≡ settled_attributes (elsewhere_by header.now nodes.now of_nodes.addresses)
        of_nodes.attributes) }
    ensures warned { OnOk result
        (warned.new.items
        ≡ warned.old.items ++ node_warnings header.now nodes.now of_nodes) }
{
    let OfNodes {
        signals,
        attributes,
        addresses,
    } = of_nodes;
    let names = NodeNames::new(alloc, nodes)?;
    let signals = settle_signals(alloc, &names, signals, warned)?;
    let numbers = numbers_of(alloc, addresses.as_slice())?;
    let told = AttributeSources {
        nodes: &names,
        lines: addresses.as_slice(),
        numbers,
        version: header.old_version(),
    };
    let attributes = settle_attributes(alloc, &told, attributes, warned)?;
    Ok((signals, attributes))
}

/// The description with times in place of delays of 0, and with the tables of members after these.
fn with_tables(
    alloc: Global,
    description: Description,
    tables: Vec<Table>,
    warned: &mut Vec<Finding>,
) -> Result<Description, AllocError>
    ensures tables { IfOk result
        (λ d. d ≡ with_kept_tables description tables.items) }
    ensures warned { OnOk result
        (warned.new.items ≡ warned.old.items ++ timing_warnings description tables.items) }
{
    let mut description = description;
    let tables = all_tables(alloc, &description, tables, warned)?;
    description.tables = Many::new(tables);
    Ok(description)
}

/// What a text of the field is settled to.
///
/// An error means out of memory.
pub fn settle(alloc: Global, text: FieldText) -> Result<Normalized, AllocError>
    ensures settled { IfOk result (λ s. s.description ≡ normalized_description text.loose) }
    ensures wide { IfOk result (λ s. s.wide ≡ wide_names text.loose.signals) }
    ensures elsewhere { IfOk result (λ s. s.placed_elsewhere ≡ placed_elsewhere text.loose) }
    ensures warnings { IfOk result (λ s. s.warnings.items ≡ warnings text) }
    ensures order { IfOk result (λ s. s.byte_order.items ≡ byte_order text.loose) }
    ensures header { IfOk result (λ s. s.header ≡ text.loose.header) }
{
    let FieldText { loose, marks } = text;
    let byte_order = byte_order(alloc, &loose)?;
    let wide = wide_names(alloc, loose.signals.as_slice())?;
    let Loose {
        header,
        nodes,
        signals,
        frames,
        sporadic,
        events,
        attributes,
        addresses,
        tables,
    } = loose;
    let mut warnings = header_warnings(alloc, &header, &nodes, marks.as_slice())?;
    let of_nodes = OfNodes {
        signals,
        attributes,
        addresses,
    };
    let (signals, attributes) = settle_nodes(alloc, &header, &nodes, of_nodes, &mut warnings)?;
    let (frames, placed_elsewhere) = settle_frames(alloc, header.is_old(), frames, &mut warnings)?;
    let is_told = header.tells_tables();
    let events = settle_events(alloc, is_told, tables.as_slice(), events, &mut warnings)?;
    let tables = keep_tables(alloc, tables, &mut warnings)?;
    let description = Description {
        speed: header.speed.number,
        master: nodes.master,
        time_base: nodes.time_base.number,
        jitter: nodes.jitter.number,
        slaves: nodes.slaves,
        signals,
        frames,
        sporadic,
        events,
        attributes,
        tables: Many::new(Vec::new(alloc)),
    };
    let description = with_tables(alloc, description, tables, &mut warnings)?;
    Ok(Normalized {
        header,
        description,
        wide,
        placed_elsewhere,
        warnings,
        byte_order,
    })
}
