//! What a core begins with: the cluster of an LDF text, and settings.

ghost use Rattle.std.specs.Prelude.{List, ℕ};
ghost use Rattle.lin_ldf.specs.Describes.{Describes};
ghost use Rattle.linsim_c.specs.Setups.{AnswersParse, AnswersText, SetsUp, IsParseFault};

use crate::fault::Fault;
use lin_cluster::{CheckFault, Cluster, check};
use lin_ldf::{LdfFault, parse};
use lin_parts::description::Description;
use std::alloc::Global;

/// The most bytes that an LDF text may have.
pub(crate) const LONGEST_LDF: usize = 4_194_304;

/// The settings of a run or of an open core.
#[derive(Drop)]
#[repr(C)]
pub struct Settings {
    /// How many messages of a host may wait, 1 to 1,024.
    pub capacity: usize,
    /// No bit has a meaning yet.
    pub flags: u32,
    /// The number of the schedule table that is begun with, from 0.
    pub table: u16,
}

/// Why a text is no description, to C.
pub(crate) fn fault_of(fault: LdfFault) -> Fault
    ensures { IsParseFault result fault }
{
    match fault {
        LdfFault::OutOfMemory => Fault::OutOfMemory,
        fault => Fault::Ldf(fault),
    }
}

/// What the declarations of an LDF text say.
///
/// # Errors
/// `Ldf` and `OutOfMemory`.
pub(crate) fn description_of(alloc: Global, ldf: &[u8]) -> Result<Description, Fault>
    ensures { AnswersParse result ldf.now }
{
    match parse(alloc, ldf) {
        Ok(description) => Ok(description),
        Err(fault) => Err(fault_of(fault)),
    }
}

/// The cluster that a description says.
///
/// # Errors
/// `Finding` and `OutOfMemory`.
pub(crate) fn said_by(alloc: Global, description: Description) -> Result<Cluster, Fault>
    ensures { (text : List ℕ) → Describes text description → AnswersText result text }
{
    match check(alloc, description) {
        Ok(cluster) => Ok(cluster),
        Err(CheckFault::OutOfMemory) => Err(Fault::OutOfMemory),
        Err(CheckFault::Findings(found)) => Err(Fault::Finding(found.as_slice()[0])),
    }
}

/// The cluster that an LDF text describes.
///
/// # Errors
/// `Ldf`, `Finding` and `OutOfMemory`.
fn cluster_of(alloc: Global, ldf: &[u8]) -> Result<Cluster, Fault>
    ensures { AnswersText result ldf.now }
{
    let description = description_of(alloc, ldf)?;
    said_by(alloc, description)
}

/// The cluster that an LDF text describes, where the settings fit it.
///
/// # Errors
/// By the settings and the text: `UnknownFlags`, then `BadCapacity`, `LdfTooLong`, `Ldf`, `Finding`
/// and `NoSuchTable`. `OutOfMemory`.
pub(crate) fn set_up(alloc: Global, ldf: &[u8], settings: &Settings) -> Result<Cluster, Fault>
    ensures { SetsUp result ldf.now settings.now }
{
    if settings.flags != 0 {
        return Err(Fault::UnknownFlags);
    }
    if settings.capacity == 0 || settings.capacity > 1024 {
        return Err(Fault::BadCapacity);
    }
    if ldf.len() > LONGEST_LDF {
        return Err(Fault::LdfTooLong);
    }
    let cluster = cluster_of(alloc, ldf)?;
    if usize::from(settings.table) >= cluster.tables() {
        return Err(Fault::NoSuchTable);
    }
    Ok(cluster)
}
