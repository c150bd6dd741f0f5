//! Limits of transfers.

ghost use Rattle.std.specs.Prelude.{◌≡◌, ◌==◌, ◌*◌, find, option_map, OnOk};
ghost use Rattle.lin_bench.specs.Rules.{ldf_limit, limit_us, one_way, own_limit_us};
ghost use Rattle.lin_bench.specs.Rules.{is_limit_of, limit_for, with_limit, with_own_limit};

use crate::rules::{Limit, NodeLimits, OwnLimit, Rules};
use lin_core::Direction;
use lin_text::Many;
use std::alloc::{AllocError, Global};
use std::mem;

/// The limit of a transfer in microseconds if an LDF has none for it.
const USUAL_LIMIT: u64 = 1_000_000;

fn is_limit_of(limit: &OwnLimit, node: u8) -> bool
    ensures { result ≡ is_limit_of node limit.now }
{
    limit.node == node
}

/// The limit of one responder, if it has its own.
pub(crate) fn own_limit(limits: &[OwnLimit], node: u8) -> Option<&OwnLimit>
    ensures { option_map (λ o. o.now) result ≡ find (is_limit_of node) limits.now }
{
    limits.iter().find(|limit| is_limit_of(limit, node))
}

/// The limits of a responder in an LDF.
fn node_limits(limits: &[NodeLimits], node: u8) -> Option<&NodeLimits>
    ensures { option_map (λ l. l.now) result ≡ find (λ l. l.node == node) limits.now }
{
    limits.iter().find(|limits| limits.node == node)
}

/// The limit one way, in microseconds.
fn one_way(limits: &NodeLimits, dir: Direction) -> u64
    ensures { result ≡ one_way dir limits.now }
{
    match dir {
        Direction::Down => u64::from(limits.down_us),
        Direction::Up => u64::from(limits.up_us),
    }
}

/// The limit of a responder's transfers one way in an LDF, in microseconds.
fn ldf_limit(limits: &[NodeLimits], node: u8, dir: Direction) -> u64
    ensures { result ≡ ldf_limit limits.now node dir }
{
    match node_limits(limits, node) {
        Some(limits) => one_way(limits, dir),
        None => USUAL_LIMIT,
    }
}

/// The limit of all responders for the transfers of one of them one way, in microseconds.
fn limit_us(limit: &Limit, node: u8, dir: Direction) -> u64
    ensures { result ≡ limit_us node dir limit.now }
{
    match limit {
        Limit::Milliseconds(ms) => 1000 * u64::from(*ms),
        Limit::Ldf(limits) => ldf_limit(limits.as_slice(), node, dir),
    }
}

/// A limit of one responder, in microseconds.
fn own_limit_us(limit: &OwnLimit) -> Option<u64>
    ensures { result ≡ own_limit_us limit.now }
{
    match limit.limit_ms {
        Some(ms) => Some(1000 * u64::from(ms)),
        None => None,
    }
}

/// The limit that applies to a responder's transfers one way, in microseconds.
pub(crate) fn limit_for(rules: &Rules, node: u8, dir: Direction) -> Option<u64>
    ensures { result ≡ limit_for rules.now node dir }
{
    if let Some(own) = own_limit(rules.own_limits.as_slice(), node) {
        return own_limit_us(own);
    }
    match &rules.limit {
        Some(limit) => Some(limit_us(limit, node, dir)),
        None => None,
    }
}

/// Sets the limit of one responder. An error means out of memory.
pub(crate) fn set_limit(
    alloc: Global,
    limits: &mut Many<OwnLimit>,
    node: u8,
    limit_ms: Option<u32>,
) -> Result<(), AllocError>
    ensures { OnOk result (limits.new ≡ with_own_limit limits.old node limit_ms) }
{
    let all = mem::replace(limits, Many::new(Vec::new(alloc)));
    for limit in all.into_vec() {
        if !is_limit_of(&limit, node) {
            limits.push(limit)?;
        }
    }
    limits.push(OwnLimit { node, limit_ms })
}

/// Sets the limit of all responders, which ends those of single ones.
pub(crate) fn set_limit_of_all(alloc: Global, rules: &mut Rules, limit: Option<Limit>)
    ensures { rules.new ≡ with_limit rules.old limit }
{
    rules.limit = limit;
    rules.own_limits = Many::new(Vec::new(alloc));
}
