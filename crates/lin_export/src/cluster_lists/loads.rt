//! The loads of schedule tables.

ghost use Rattle.std.specs.Prelude.{◌≡◌, ◌<◌, IfOk, length};
ghost use Rattle.lin_export.specs.TableLoads.{table_load, table_loads};

use crate::cluster_lists::slot_times::{bits_of, permille};
use crate::cluster_lists::timing::tightest_slot;
use lin_parts::Cluster;
use lin_schedule::{TableLoad, cycle};
use std::alloc::{AllocError, Global};

/// Returns the load of a table.
fn table_load(cluster: &Cluster, table: u16) -> TableLoad
    requires { table < length cluster.now.tables }
    ensures { result ≡ table_load cluster.now table }
{
    let cycle_us = cycle(cluster, table);
    let (delay_us, needed_us) = tightest_slot(cluster, table);
    TableLoad {
        cycle_us,
        load: permille(bits_of(cluster, table), cluster.speed(), cycle_us),
        delay_us,
        needed_us,
    }
}

/// Returns the loads of the schedule tables of a cluster, as they are compared.
///
/// An error means out of memory.
pub fn table_loads(alloc: Global, cluster: &Cluster) -> Result<Vec<TableLoad>, AllocError>
    ensures { IfOk result (λ v. v.items ≡ table_loads cluster.now) }
{
    let mut loads = Vec::new(alloc);
    for table in 0..cluster.tables() as u16 {
        loads.push(table_load(cluster, table))?;
    }
    Ok(loads)
}
