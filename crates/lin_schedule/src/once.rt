//! How long nodes wait for frames that lists of sporadic frames have below others.

ghost use Rattle.std.specs.Prelude.{◌≡◌, ◌+◌, ◌<◌, IfOk, length};
ghost use Rattle.lin_schedule.specs.Once.{IsLeastBound, IsLeastOf, lesser};

use crate::awaited::{Awaited, rank};
use crate::waits::worst_wait;
use lin_parts::Cluster;
use std::alloc::{AllocError, Global};

/// A time in microseconds after which one of these frames, which have a signal, has gone since a
/// write to it, where no frame above it in rank in a sporadic frame goes twice before it; `None`
/// where there is no bound. It is the longest wait where that has a bound (ISO 17987-3, sporadic
/// frames).
///
/// # Errors
/// Out of memory.
pub fn once_wait(
    alloc: Global,
    cluster: &Cluster,
    table: u16,
    frames: &[u16],
) -> Result<Option<u64>, AllocError>
    requires { table < length cluster.now.tables }
    ensures { IfOk result (λ least. IsLeastBound cluster.now table frames.now least) }
{
    let awaited = Awaited::frames(alloc, cluster, frames)?;
    let mut least = worst_wait(alloc, cluster, table, &awaited, 1)?;
    for sporadic in 0..cluster.sporadics() as u16 {
        least = with_sporadic(alloc, cluster, table, frames, sporadic, least)?;
    }
    Ok(least)
}

// The least of the bounds by earlier sporadic frames and by this one.
fn with_sporadic(
    alloc: Global,
    cluster: &Cluster,
    table: u16,
    frames: &[u16],
    sporadic: u16,
    least: Option<u64>,
) -> Result<Option<u64>, AllocError>
    requires table { table < length cluster.now.tables }
    requires sporadic { sporadic < length cluster.now.sporadic }
    ensures { IsLeastOf cluster.now table frames.now sporadic least
        → IfOk result (λ lesser. IsLeastOf cluster.now table frames.now (sporadic + 1) lesser) }
{
    match rank(cluster, frames, sporadic) {
        Some(rank) => {
            let slots = Awaited::sporadic(alloc, sporadic)?;
            let wait = worst_wait(alloc, cluster, table, &slots, rank)?;
            Ok(lesser(least, wait))
        }
        None => Ok(least),
    }
}

fn lesser(a: Option<u64>, b: Option<u64>) -> Option<u64>
    ensures { result ≡ lesser a b }
{
    match (a, b) {
        (Some(a), Some(b)) => Some(a.min(b)),
        (Some(a), None) => Some(a),
        (None, b) => b,
    }
}
