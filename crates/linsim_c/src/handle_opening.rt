//! A handle, opened.

ghost use Rattle.std.specs.Prelude.{◌≡◌, [], IfErr, IfOk, IsSome, None, OnOk, Some};
ghost use Rattle.linsim_c.specs.Opening.{Opens, OpensBench, OpensCore, OpensHand};
ghost use Rattle.linsim_c.specs.Writing.{told_of};
ghost use Rattle.linsim_c.specs.declared.fault.Fault.TheVariants.{IsOpen as Open, OutOfMemory as NoMemory};

use crate::bench_settings::{BenchSettings, read_settings};
use crate::fault::Fault;
use crate::handle::Handle;
use crate::kept::{KeptSession, Session};
use crate::ldf_cluster::{Described, describe};
use crate::session_bench::SessionBench;
use crate::settings::{Settings, set_up};
use crate::written_text::Told;
use lin_core::Core;
use lin_live::{Hand, Opening};
use std::alloc::Global;

/// No text.
const NOTHING: Told = Told {
    length: 0,
    number: 0,
};

/// A core with an empty log on the cluster of an LDF text.
///
/// # Errors
/// Those of `set_up`.
fn new_core(alloc: Global, ldf: &[u8], settings: &Settings) -> Result<Core, Fault>
    ensures { OpensCore result ldf.now settings.now }
{
    let cluster = set_up(alloc, ldf, settings)?;
    match Core::new(alloc, cluster, settings.table, settings.capacity) {
        Ok(core) => Ok(core),
        Err(_) => Err(Fault::OutOfMemory),
    }
}

/// A bench in hand on the cluster of an LDF, on which no line was made.
///
/// # Errors
/// By the settings and the LDF: `BadSize`, then `UnknownFlags`, `BadCapacity`, `UnknownFormat`,
/// `LdfTooLong`, `Ldf`, `Finding` and `NoSuchTable`. `OutOfMemory`.
fn new_hand(alloc: Global, ldf: &[u8], settings: &[u8]) -> Result<Hand, Fault>
    ensures { OpensHand result ldf.now settings.now }
{
    let BenchSettings {
        capacity,
        is_field,
        is_physical,
        is_configured,
        format,
        table,
    } = read_settings(settings)?;
    let Described {
        cluster,
        coded,
        limits,
    } = describe(alloc, ldf, is_field, is_configured)?;
    if usize::from(table) >= cluster.tables() {
        return Err(Fault::NoSuchTable);
    }
    let opening = Opening { table, capacity };
    match Hand::new(
        alloc,
        cluster,
        opening,
        format,
        Some(coded),
        limits,
        is_physical,
    ) {
        Ok(hand) => Ok(hand),
        Err(_) => Err(Fault::OutOfMemory),
    }
}

/// Fails if a handle has a session. The handle is as before.
///
/// # Errors
/// `IsOpen`.
fn expect_closed(alloc: Global, handle: &mut Handle) -> Result<(), Fault>
    ensures same { handle.new.value ≡ handle.old.value }
    ensures closed { OnOk result (handle.old.value ≡ None) }
    ensures open { IfErr result (λ why. (why ≡ Open) × IsSome handle.old.value) }
{
    match handle.take(alloc) {
        Some(kept) => {
            handle.put(alloc, kept);
            Err(Fault::IsOpen)
        }
        None => Ok(()),
    }
}

/// Gives a session to a handle that has none.
///
/// # Errors
/// `OutOfMemory`; the handle is as before.
fn keep(alloc: Global, handle: &mut Handle, session: Session) -> Result<Told, Fault>
    ensures kept { IfOk result (λ told. (told ≡ told_of 0 []) × (handle.new.value ≡ Some session)) }
    ensures memory { IfErr result (λ why. (why ≡ NoMemory) × (handle.new.value ≡ handle.old.value)) }
{
    match Box::new(alloc, KeptSession::new(session)) {
        Ok(kept) => {
            handle.put(alloc, kept);
            Ok(NOTHING)
        }
        Err(_) => Err(Fault::OutOfMemory),
    }
}

/// Opens a core, and answers no text.
///
/// # Errors
/// `IsOpen`, then those of `set_up`. The handle is as before.
pub(crate) fn open(
    alloc: Global,
    ldf: &[u8],
    settings: &Settings,
    handle: &mut Handle,
) -> Result<Told, Fault>
    ensures { Opens handle.old.value handle.new.value result ldf.now settings.now }
{
    expect_closed(alloc, handle)?;
    let core = new_core(alloc, ldf, settings)?;
    keep(alloc, handle, Session::Script(core))
}

/// Opens a bench, and answers no text.
///
/// # Errors
/// `IsOpen`, then those of `new_hand`. The handle is as before.
pub(crate) fn open_bench(
    alloc: Global,
    ldf: &[u8],
    settings: &[u8],
    handle: &mut Handle,
) -> Result<Told, Fault>
    ensures { OpensBench handle.old.value handle.new.value result ldf.now settings.now }
{
    expect_closed(alloc, handle)?;
    let hand = new_hand(alloc, ldf, settings)?;
    keep(
        alloc,
        handle,
        Session::Bench(SessionBench::new(alloc, hand)),
    )
}
