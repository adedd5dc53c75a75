ghost use Rattle.std.specs.Prelude.{◌≡◌, ◌<◌, ◌^◌, [], IfOk, length, map, nat_lt};
ghost use Rattle.vl_catalog.specs.Place.{shard_count};
ghost use Rattle.vl_model.specs.Entries.{is_lookup_table, is_served_by};
ghost use Rattle.vl_model.specs.Visiting.{entry_reads};
ghost use Rattle.vl_select.specs.Begun.{entry_read, group_of};
ghost use Rattle.vl_select.specs.Progress.{shards_known};

use crate::entry_read::EntryRead;
use crate::groundwork::Groundwork;
use std::alloc::{AllocError, Global};
use vl_catalog::Catalog;
use vl_model::route::Route;
use vl_plan::select_plan::SelectPlan;
use vl_port::act::Act;
use vl_route::visiting::{entry_reads, visited};
use vl_values::group::Group;
use vl_values::pred::Pred;
use vl_values::{ShardNo, TableNo};

fn entry_read(read: (ShardNo, Pred)) -> EntryRead
    ensures { result ≡ entry_read read }
{
    let (shard, pred) = read;
    EntryRead {
        shard,
        find: Act::Find {
            pred,
            locking: false,
        },
    }
}

// The reads of entries that a route begins with.
fn entries_of(alloc: Global, catalog: &Catalog, route: &Route) -> Result<Vec<EntryRead>, AllocError>
    requires { shard_count catalog.now.rings < 2 ^ 32 }
    ensures { IfOk result (λ entries. entries.items ≡ map entry_read (entry_reads catalog.now route.now)) }
{
    let reads = entry_reads(alloc, catalog, route)?;
    let mut entries = Vec::with_capacity(alloc, reads.len())?;
    for read in reads {
        entries.push(entry_read(read))?;
    }
    Ok(entries)
}

// Whether a table of a lookup is that of this number.
fn is_served_by(table: TableNo, served: Option<TableNo>) -> bool
    ensures { result ≡ is_served_by table served }
{
    match served {
        None => false,
        Some(other) => other == table,
    }
}

fn is_lookup_table(catalog: &Catalog, table: TableNo) -> bool
    ensures { result ≡ is_lookup_table catalog.now table }
{
    let lookups = catalog.lookups.as_slice();
    lookups
        .iter()
        .any(|lookup| is_served_by(table, lookup.table))
}

/// The group of the sessions by which the rows of a table are read.
pub(crate) fn group_of(catalog: &Catalog, table: TableNo) -> Group
    ensures { result ≡ group_of catalog.now table }
{
    if is_lookup_table(catalog, table) {
        Group::Pre
    } else {
        Group::Main
    }
}

/// All of a plan's program that takes memory.
pub(crate) fn lay(
    alloc: Global,
    catalog: &Catalog,
    plan: &SelectPlan,
) -> Result<Groundwork, AllocError>
    requires { shard_count catalog.now.rings < 2 ^ 32 }
    ensures entries { IfOk result (λ laid. laid.entries.items ≡ map entry_read (entry_reads catalog.now plan.now.route)) }
    ensures shards { IfOk result (λ laid. laid.shards.items ≡ shards_known catalog.now plan.now.pred.table plan.now.route (nat_lt 0 (length laid.entries.items)) []) }
{
    let entries = entries_of(alloc, catalog, &plan.route)?;
    if entries.len() > 0 {
        return Ok(Groundwork {
            entries,
            shards: Vec::new(alloc),
        });
    }
    let shards = visited(alloc, catalog, plan.pred.table, &plan.route, &[])?;
    Ok(Groundwork { entries, shards })
}
