//! The cluster of an LDF, with what the values of its signals mean.

ghost use Rattle.std.specs.Prelude.{◌≡◌, ◌++◌, ◌<◌, IfErr, IfOk, OnOk, option_map};
ghost use Rattle.std.specs.List.{find};
ghost use Rattle.lin_parts.specs.Cluster.{nodes};
ghost use Rattle.lin_values.specs.Coded.{coded_signals};
ghost use Rattle.linsim_c.specs.Described.{AnswersChecked, AnswersField, AnswersNormalized};
ghost use Rattle.linsim_c.specs.Described.{AnswersStandard, ChecksField};
ghost use Rattle.linsim_c.specs.Described.{AnswersLdfText, configured_in, is_wrong, limits_at, node_limits};
ghost use Rattle.linsim_c.specs.declared.fault.Fault.TheVariants.{OutOfMemory as NoMemory};

use crate::fault::Fault;
use crate::settings::{LONGEST_LDF, description_of, fault_of, said_by};
use lin_bench::NodeLimits;
use lin_cluster::{Cluster, Finding};
use lin_field::{Checked, FieldFault, Normalized, Remark, check_field, read_field, settle};
use lin_sections::{
    TransferLimits, configure, limits_named, read_codings, read_field_codings, read_transfer_limits,
};
use lin_text::Many;
use lin_values::{Coded, Codings, coded_by};
use std::alloc::{AllocError, Global};

/// The cluster of an LDF, and what the values of its signals mean.
#[derive(Drop)]
pub(crate) struct Described {
    pub cluster: Cluster,
    pub coded: Coded,
    /// The limits of the transfers of its nodes.
    pub limits: Many<NodeLimits>,
}

/// A cluster, with the requests of the node configuration commands in a text if that is wanted, as with
/// `--configuration`.
///
/// # Errors
/// `OutOfMemory`.
fn configured(
    alloc: Global,
    cluster: Cluster,
    text: &[u8],
    is_configured: bool,
) -> Result<Cluster, Fault>
    ensures cluster { IfOk result (λ c. c ≡ configured_in is_configured text.now cluster) }
    ensures memory { IfErr result (λ why. why ≡ NoMemory) }
{
    if !is_configured {
        return Ok(cluster);
    }
    let (cluster, _warned) = configure(alloc, cluster, text)?;
    Ok(cluster)
}

/// Adds the limits of a node, if the LDF has a block of attributes for it.
#[tactic(auto, using(lin_sections::proofs::StatementSteps::nothing_more))]
fn add_limits(
    cluster: &Cluster,
    named: &[TransferLimits],
    node: u8,
    all: &mut Vec<NodeLimits>,
) -> Result<(), AllocError>
    requires { node < nodes cluster.now }
    ensures { OnOk result (all.new.items ≡ all.old.items ++ limits_at cluster.now named.now node) }
{
    if let Some(limits) = limits_named(named, cluster.node_name(node)) {
        all.push(NodeLimits {
            node,
            down_us: limits.down_us,
            up_us: limits.up_us,
        })?;
    }
    Ok(())
}

/// The limits of the transfers of a cluster's nodes, by those of its LDF. An error means out of memory.
fn node_limits(
    alloc: Global,
    cluster: &Cluster,
    named: &[TransferLimits],
) -> Result<Many<NodeLimits>, AllocError>
    ensures { IfOk result (λ all. all ≡ node_limits cluster.now named.now) }
{
    let mut all = Vec::new(alloc);
    for node in 0..cluster.nodes() as u8 {
        add_limits(cluster, named, node, &mut all)?;
    }
    Ok(Many::new(all))
}

/// A cluster, with what the values of its signals mean by the sections of encodings, and the limits of the
/// transfers of its nodes.
///
/// # Errors
/// `OutOfMemory`.
fn with_codings(
    alloc: Global,
    cluster: Cluster,
    codings: Codings,
    named: Many<TransferLimits>,
) -> Result<Described, Fault>
    ensures cluster { IfOk result (λ d. d.cluster ≡ cluster) }
    ensures coded { IfOk result (λ d. d.coded ≡ coded_signals cluster codings) }
    ensures limits { IfOk result (λ d. d.limits ≡ node_limits cluster named) }
    ensures memory { IfErr result (λ why. why ≡ NoMemory) }
{
    let (coded, _found) = coded_by(alloc, &cluster, codings)?;
    let limits = node_limits(alloc, &cluster, named.as_slice())?;
    Ok(Described {
        cluster,
        coded,
        limits,
    })
}

/// What an LDF of LIN 2.1 or 2.2A describes.
///
/// # Errors
/// `Ldf`, `Finding` and `OutOfMemory`.
fn of_standard(alloc: Global, ldf: &[u8], is_configured: bool) -> Result<Described, Fault>
    ensures { AnswersStandard is_configured result ldf.now }
{
    let description = description_of(alloc, ldf)?;
    let codings = read_codings(alloc, ldf)?;
    let limits = read_transfer_limits(alloc, ldf)?;
    let cluster = said_by(alloc, description)?;
    let cluster = configured(alloc, cluster, ldf, is_configured)?;
    with_codings(alloc, cluster, codings, limits)
}

/// What an LDF of the field is settled to. In its bytes what is read over becomes spaces.
///
/// # Errors
/// `Ldf` and `OutOfMemory`.
fn settled_of(alloc: Global, bytes: &mut [u8]) -> Result<Normalized, Fault>
    ensures { AnswersNormalized result bytes.old bytes.new }
{
    match read_field(alloc, bytes) {
        Ok(text) => Ok(settle(alloc, text)?),
        Err(fault) => Err(fault_of(fault)),
    }
}

/// The first finding among remarks that isn't a warning.
fn first_wrong(remarks: &[Remark]) -> Option<Finding>
    ensures { result ≡ option_map (λ r. r.finding) (find is_wrong remarks.now) }
{
    let wrong = remarks.iter().find(|remark| !remark.is_warning)?;
    Some(wrong.finding)
}

/// The cluster of what an LDF of the field is settled to.
///
/// # Errors
/// `Finding` and `OutOfMemory`.
fn checked(alloc: Global, settled: &Normalized) -> Result<Cluster, Fault>
    ensures { ChecksField result settled.now }
{
    match check_field(alloc, settled) {
        Ok(Checked { cluster, .. }) => Ok(cluster),
        Err(FieldFault::OutOfMemory) => Err(Fault::OutOfMemory),
        Err(FieldFault::Remarks(remarks)) => match first_wrong(remarks.as_slice()) {
            Some(finding) => Err(Fault::Finding(finding)),
            None => Err(Fault::OutOfMemory),
        },
    }
}

/// The cluster of what an LDF of the field is settled to, and what the values of its signals mean by the
/// bytes that are left of it.
///
/// # Errors
/// `Finding` and `OutOfMemory`.
fn of_settled(
    alloc: Global,
    settled: &Normalized,
    left: &[u8],
    is_configured: bool,
) -> Result<Described, Fault>
    ensures { AnswersChecked is_configured result settled.now left.now }
{
    let codings = read_field_codings(alloc, left, settled.wide.as_slice())?;
    let limits = read_transfer_limits(alloc, left)?;
    let cluster = checked(alloc, settled)?;
    let cluster = configured(alloc, cluster, left, is_configured)?;
    with_codings(alloc, cluster, codings, limits)
}

/// What an LDF of the field describes, as with `--field`. Its bytes are changed.
///
/// # Errors
/// `Ldf`, `Finding` and `OutOfMemory`.
#[tactic(auto, using(crate::proofs::Texts::field_answer, crate::proofs::Texts::unsettled))]
fn of_bytes(alloc: Global, bytes: &mut [u8], is_configured: bool) -> Result<Described, Fault>
    ensures { AnswersField is_configured result bytes.old }
{
    let settled = settled_of(alloc, bytes)?;
    of_settled(alloc, &settled, bytes, is_configured)
}

/// What an LDF of the field describes, as with `--field`.
///
/// # Errors
/// `Ldf`, `Finding` and `OutOfMemory`.
fn of_field(alloc: Global, ldf: &[u8], is_configured: bool) -> Result<Described, Fault>
    ensures { AnswersField is_configured result ldf.now }
{
    let mut bytes = Vec::from_slice(alloc, ldf)?;
    of_bytes(alloc, bytes.as_mut_slice(), is_configured)
}

/// What an LDF describes, as settings say that it is read.
///
/// # Errors
/// `LdfTooLong`, `Ldf`, `Finding` and `OutOfMemory`.
pub(crate) fn describe(
    alloc: Global,
    ldf: &[u8],
    is_field: bool,
    is_configured: bool,
) -> Result<Described, Fault>
    ensures { AnswersLdfText is_field is_configured result ldf.now }
{
    if ldf.len() > LONGEST_LDF {
        return Err(Fault::LdfTooLong);
    }
    if is_field {
        of_field(alloc, ldf, is_configured)
    } else {
        of_standard(alloc, ldf, is_configured)
    }
}
