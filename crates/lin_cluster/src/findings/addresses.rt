//! Bad address (11) and address twice (12), of responders.

ghost use Rattle.std.specs.Prelude.{◌≡◌, ◌++◌, OnOk, IfOk, nat_eq};
ghost use Rattle.std.specs.List.{flat_map, filter_map, enumerate_from};
ghost use Rattle.indexmap.specs.IndexSet.{contains};
ghost use Rattle.lin_cluster.specs.Addresses.{block_address, bad_nads, nad_twice, nads_twice};
ghost use Rattle.lin_cluster.specs.FindingsNames.{at_number, when};
ghost use Rattle.lin_cluster.specs.declared.finding.FindingKind.TheVariants.{NadTwice};

use super::known::Known;
use super::walk::{Finds, at_number, each, push_when};
use crate::finding::{Finding, FindingKind};
use indexmap::IndexSet;
use lin_parts::description::{Attributes, Number};
use std::alloc::{AllocError, Global};

fn address(known: &Known, block: &Attributes) -> Option<Number>
    ensures { result ≡ block_address known.now block.now }
{
    if known.is_responder(&block.node) {
        block.configured_nad
    } else {
        None
    }
}

fn addresses(alloc: Global, known: &Known, blocks: &[Attributes]) -> Result<Vec<Number>, AllocError>
    ensures { IfOk result (λ v. v.items ≡ filter_map (block_address known.now) blocks.now) }
{
    let mut addresses = Vec::new(alloc);
    for block in blocks {
        if let Some(nad) = address(known, block) {
            addresses.push(nad)?;
        }
    }
    Ok(addresses)
}

/// What is asked of an address by itself.
#[derive(Clone, Copy)]
struct EachAddress;

impl Finds<Number> for EachAddress {
    ghost use Rattle.lin_cluster.specs.Addresses.{bad_nad};

    ghost finds = { λ addresses nad. bad_nad nad };

    fn find(&self, found: &mut Vec<Finding>, nad: &Number) -> Result<(), AllocError> {
        let is_good = 1 <= nad.value && nad.value <= 125;
        push_when(found, !is_good, at_number(FindingKind::BadNad, nad))
    }
}

fn twice(found: &mut Vec<Finding>, earlier: &IndexSet<u32>, nad: &Number) -> Result<(), AllocError>
    ensures { OnOk result
        (found.new.items
        ≡ found.old.items
        ++ when (contains nat_eq earlier.now nad.now.value) (at_number NadTwice nad.now)) }
{
    push_when(
        found,
        earlier.contains(&nad.value),
        at_number(FindingKind::NadTwice, nad),
    )
}

fn nads_twice(alloc: Global, found: &mut Vec<Finding>, nads: &[Number]) -> Result<(), AllocError>
    ensures { OnOk result
        (found.new.items
        ≡ found.old.items ++ flat_map (nad_twice nads.now) (enumerate_from 0 nads.now)) }
{
    let mut earlier = IndexSet::new(alloc);
    for nad in nads {
        twice(found, &earlier, nad)?;
        earlier.insert(nad.value)?;
    }
    Ok(())
}

/// Addresses that a responder may not have, and addresses that an earlier block of a responder has.
pub(super) fn bad_addresses(
    alloc: Global,
    found: &mut Vec<Finding>,
    known: &Known,
) -> Result<(), AllocError>
    ensures { OnOk result
        (found.new.items ≡ found.old.items ++ bad_nads known.now ++ nads_twice known.now) }
{
    let nads = addresses(alloc, known, known.description.attributes())?;
    each(found, &EachAddress, nads.as_slice())?;
    nads_twice(alloc, found, nads.as_slice())
}
