//! Clusters with the requests of the node configuration commands in their LDF texts (LIN 2.2A, section
//! 9.2.5).

ghost use Rattle.std.specs.Prelude.{◌≡◌, ◌<◌, ◌++◌, IfOk, OnOk, flat_map, map};
ghost use Rattle.std.specs.Option.{option_copied};
ghost use Rattle.lin_ldf.specs.Stream.{start_of};
ghost use Rattle.lin_ldf.specs.Symbols.{symbols_in};
ghost use Rattle.lin_parts.specs.Cluster.{nodes};
ghost use Rattle.lin_sections.specs.Configuring.{command_request, command_warnings, configured_by};
ghost use Rattle.lin_sections.specs.Configuring.{entry_request, entry_warnings, identities_in, identity_at};
ghost use Rattle.lin_sections.specs.Configuring.{identity_in};
ghost use Rattle.lin_sections.specs.Configuring.{requests_in, requests_named, section_requests};
ghost use Rattle.lin_sections.specs.Configuring.{all_command_warnings, all_requests, section_warnings, source_symbols, table_requests_named, table_requests, table_command_warnings};
ghost use Rattle.lin_sections.specs.Configuring.{warnings_by};
ghost use Rattle.lin_sections.specs.Lines.{token_lines};
ghost use Rattle.lin_sections.specs.Statements.{statements};

use crate::attribute_blocks::read_attributes;
use crate::commands::{Command, command_of, read_arguments};
use crate::configurable_lists::name_here;
use crate::identities::{NodeIdentity, identities_of};
use crate::requests::{add_odd, frames_in, identity_named, initial_of, request};
use crate::skipping::{has_line, pass_line};
use crate::statements::{inside, is_group, pass_statement};
use crate::stops::or_found;
use lin_cluster::{Finding, FindingKind};
use lin_ldf::Parser;
use lin_parts::description::Name;
use lin_parts::{Cluster, Identity};
use lin_text::Many;
use std::alloc::{AllocError, Global};

/// The requests of a table of a text: one or none for each entry, in their order.
#[derive(Drop)]
pub(crate) struct TableRequests {
    name: Name,
    requests: Many<Option<[u8; 8]>>,
}

/// Returns the request of a command, by the tokens after its opening brace, and adds what is wrong with
/// the command.
fn command_request(
    group: &Parser<'_>,
    cluster: &Cluster,
    identities: &[NodeIdentity],
    command: Command,
    warned: &mut Vec<Finding>,
) -> Result<Option<[u8; 8]>, AllocError>
    ensures request { IfOk result (λ found. found
        ≡ command_request cluster.now identities.now command group.now) }
    ensures warned { OnOk result (warned.new.items
        ≡ warned.old.items ++ command_warnings cluster.now identities.now command group.now) }
{
    let mut rest = group.ahead();
    let read = read_arguments(&mut rest, command);
    let Some(arguments) = or_found(read, &rest, FindingKind::BadCommand, warned)? else {
        return Ok(None);
    };
    match request(cluster, identities, command, &arguments) {
        Ok(bytes) => {
            add_odd(cluster, identities, command, &arguments, warned)?;
            Ok(Some(bytes))
        }
        Err(finding) => {
            warned.push(finding)?;
            Ok(None)
        }
    }
}

/// Returns the request of an entry, and adds what is wrong with its command. An entry without a group has
/// none.
fn entry_request(
    entry: &Parser<'_>,
    cluster: &Cluster,
    identities: &[NodeIdentity],
    warned: &mut Vec<Finding>,
) -> Result<Option<[u8; 8]>, AllocError>
    ensures request { IfOk result
        (λ found. found ≡ entry_request cluster.now identities.now entry.now) }
    ensures warned { OnOk result (warned.new.items
        ≡ warned.old.items ++ entry_warnings cluster.now identities.now entry.now) }
{
    if !is_group(entry) {
        return Ok(None);
    }
    match command_of(entry.text()) {
        Some(command) => command_request(&inside(entry), cluster, identities, command, warned),
        None => {
            warned.push(Finding::new(FindingKind::UnknownCommand, entry.place()))?;
            Ok(None)
        }
    }
}

/// Returns the requests of the entries that are left in a table, and adds what is wrong with their commands.
fn entry_requests(
    parser: &mut Parser<'_>,
    cluster: &Cluster,
    identities: &[NodeIdentity],
    warned: &mut Vec<Finding>,
) -> Result<Vec<Option<[u8; 8]>>, AllocError>
    ensures requests { IfOk result (λ found. found.items
        ≡ map (entry_request cluster.now identities.now) (token_lines parser.old)) }
    ensures warned { OnOk result (warned.new.items ≡ warned.old.items
        ++ flat_map (entry_warnings cluster.now identities.now) (token_lines parser.old)) }
{
    let mut requests = Vec::new(parser.alloc());
    while has_line(parser) {
        requests.push(entry_request(parser, cluster, identities, warned)?)?;
        pass_line(parser);
    }
    Ok(requests)
}

/// Adds the requests of the next table, if one is next, and what is wrong with its commands.
fn add_table(
    parser: &Parser<'_>,
    cluster: &Cluster,
    identities: &[NodeIdentity],
    tables: &mut Vec<TableRequests>,
    warned: &mut Vec<Finding>,
) -> Result<(), AllocError>
    ensures tables { OnOk result (tables.new.items
        ≡ tables.old.items ++ table_requests cluster.now identities.now parser.now) }
    ensures warned { OnOk result (warned.new.items
        ≡ warned.old.items ++ table_command_warnings cluster.now identities.now parser.now) }
{
    if !is_group(parser) {
        return Ok(());
    }
    let name = name_here(parser)?;
    let requests = entry_requests(&mut inside(parser), cluster, identities, warned)?;
    let requests = Many::new(requests);
    tables.push(TableRequests { name, requests })?;
    Ok(())
}

/// Adds the requests of the tables that are left in a group, and what is wrong with their commands.
fn add_tables(
    parser: &mut Parser<'_>,
    cluster: &Cluster,
    identities: &[NodeIdentity],
    tables: &mut Vec<TableRequests>,
    warned: &mut Vec<Finding>,
) -> Result<(), AllocError>
    ensures tables { OnOk result (tables.new.items ≡ tables.old.items
        ++ flat_map (table_requests cluster.now identities.now) (statements parser.old)) }
    ensures warned { OnOk result (warned.new.items ≡ warned.old.items
        ++ flat_map (table_command_warnings cluster.now identities.now) (statements parser.old)) }
{
    while has_line(parser) {
        add_table(parser, cluster, identities, tables, warned)?;
        pass_statement(parser)?;
    }
    Ok(())
}

/// Adds the requests of the next section, if it is `Schedule_tables`, and what is wrong with its commands.
fn add_section(
    parser: &Parser<'_>,
    cluster: &Cluster,
    identities: &[NodeIdentity],
    tables: &mut Vec<TableRequests>,
    warned: &mut Vec<Finding>,
) -> Result<(), AllocError>
    ensures tables { OnOk result (tables.new.items
        ≡ tables.old.items ++ section_requests cluster.now identities.now parser.now) }
    ensures warned { OnOk result (warned.new.items
        ≡ warned.old.items ++ section_warnings cluster.now identities.now parser.now) }
{
    if is_group(parser) && parser.is_at_word(b"Schedule_tables") {
        return add_tables(&mut inside(parser), cluster, identities, tables, warned);
    }
    Ok(())
}

/// Returns the requests of the tables of a text, and adds what is wrong with their commands.
fn read_tables(
    alloc: Global,
    source: &[u8],
    cluster: &Cluster,
    identities: &[NodeIdentity],
    warned: &mut Vec<Finding>,
) -> Result<Vec<TableRequests>, AllocError>
    ensures tables { IfOk result (λ tables. tables.items
        ≡ all_requests cluster.now identities.now (source_symbols source.now)) }
    ensures warned { OnOk result (warned.new.items ≡ warned.old.items
        ++ all_command_warnings cluster.now identities.now (source_symbols source.now)) }
{
    let mut tables = Vec::new(alloc);
    let mut parser = Parser::new(alloc, source);
    while has_line(&parser) {
        add_section(&parser, cluster, identities, &mut tables, warned)?;
        pass_statement(&mut parser)?;
    }
    Ok(tables)
}

/// Returns the first table with a name.
fn table_requests_named<'a>(tables: &'a [TableRequests], name: &[u8]) -> Option<&'a TableRequests>
    ensures { option_copied result ≡ table_requests_named tables.now name.now }
{
    tables
        .iter()
        .find(|table| table.name.text.as_slice() == name)
}

/// Returns the requests of the first table with a name.
fn requests_named<'a>(tables: &'a [TableRequests], name: &[u8]) -> &'a [Option<[u8; 8]>]
    ensures { result.now ≡ requests_named tables.now name.now }
{
    match table_requests_named(tables, name) {
        Some(table) => table.requests.as_slice(),
        None => &[],
    }
}

fn copied(alloc: Global, requests: &[Option<[u8; 8]>]) -> Result<Many<Option<[u8; 8]>>, AllocError>
    ensures { IfOk result (λ all. all ≡ requests.now) }
{
    let mut all = Vec::with_capacity(alloc, requests.len())?;
    for request in requests {
        all.push(*request)?;
    }
    Ok(Many::new(all))
}

/// Returns the requests of each table of a cluster.
fn requests_in(
    alloc: Global,
    cluster: &Cluster,
    tables: &[TableRequests],
) -> Result<Vec<Many<Option<[u8; 8]>>>, AllocError>
    ensures { IfOk result (λ all. all.items ≡ requests_in cluster.now tables.now) }
{
    let mut all = Vec::new(alloc);
    for table in 0..cluster.tables() {
        let own = requests_named(tables, cluster.table_name(table as u16));
        all.push(copied(alloc, own)?)?;
    }
    Ok(all)
}

/// Returns the identity of a responder with this configured NAD.
fn identity_in(
    alloc: Global,
    cluster: &Cluster,
    identities: &[NodeIdentity],
    node: u8,
    nad: u8,
) -> Result<Identity, AllocError>
    requires { node < nodes cluster.now }
    ensures { IfOk result
        (λ identity. identity ≡ identity_in cluster.now identities.now node nad) }
{
    let name = cluster.node_name(node);
    let product = match identity_named(identities, name) {
        Some(identity) => identity.product,
        None => None,
    };
    let initial = initial_of(identities, name, nad);
    let mut messages = Vec::new(alloc);
    for frame in frames_in(identities, name) {
        messages.push(frame.message)?;
    }
    let messages = Many::new(messages);
    Ok(Identity {
        node,
        initial,
        product,
        messages,
    })
}

/// Adds the identity of a node, if the node has an address.
#[tactic(auto, using(crate::proofs::StatementSteps::nothing_more))]
fn add_identity(
    alloc: Global,
    cluster: &Cluster,
    identities: &[NodeIdentity],
    node: u8,
    all: &mut Vec<Identity>,
) -> Result<(), AllocError>
    requires { node < nodes cluster.now }
    ensures { OnOk result (all.new.items
        ≡ all.old.items ++ identity_at cluster.now identities.now node) }
{
    if let Some(nad) = cluster.nad(node) {
        all.push(identity_in(alloc, cluster, identities, node, nad)?)?;
    }
    Ok(())
}

/// Returns the identities of the responders of a cluster that have an address.
fn identities_in(
    alloc: Global,
    cluster: &Cluster,
    identities: &[NodeIdentity],
) -> Result<Many<Identity>, AllocError>
    ensures { IfOk result (λ all. all ≡ identities_in cluster.now identities.now) }
{
    cluster.sound();
    let mut all = Vec::new(alloc);
    for node in 1..cluster.nodes() {
        add_identity(alloc, cluster, identities, node as u8, &mut all)?;
    }
    Ok(Many::new(all))
}

/// Reads the node configuration commands of the text of which a cluster was made. Returns the cluster with
/// their requests and with the identities of its responders, and the warnings about the commands and about the
/// attributes that they need (71 to 78), in no order.
///
/// The text is one that was read as an LDF text. In any other, reading ends as that of `read_attributes`
/// does. An error means out of memory.
pub fn configure(
    alloc: Global,
    cluster: Cluster,
    text: &[u8],
) -> Result<(Cluster, Vec<Finding>), AllocError>
    ensures cluster { IfOk result (λ r. r.0
        ≡ configured_by cluster (symbols_in text.now (start_of text.now).tokens)) }
    ensures warned { IfOk result (λ r. r.1.items
        ≡ warnings_by cluster (symbols_in text.now (start_of text.now).tokens)) }
{
    cluster.sound();
    let mut warned = Vec::new(alloc);
    let blocks = read_attributes(alloc, text)?;
    let by_blocks = identities_of(alloc, blocks.as_slice(), cluster.node_name(0), &mut warned)?;
    let tables = read_tables(alloc, text, &cluster, by_blocks.as_slice(), &mut warned)?;
    let requests = requests_in(alloc, &cluster, tables.as_slice())?;
    let identities = identities_in(alloc, &cluster, by_blocks.as_slice())?;
    Ok((cluster.configured(identities, requests.as_slice()), warned))
}
