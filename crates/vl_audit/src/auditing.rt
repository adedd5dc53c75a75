ghost use Rattle.std.specs.Prelude.{◌≡◌, ◌<◌, ◌^◌, IfOk, OnOk, length};
ghost use Rattle.std.specs.BTreeMap.{keys};
ghost use Rattle.std.specs.List.Sorted.{IsStrictlySortedBy};
ghost use Rattle.vl_audit.specs.Audit.{AreThose, BySome, IsAudit, found_cmp};
ghost use Rattle.vl_audit.specs.Finding.{Adds, ByThese};

use crate::doubled_rows::DoubledRows;
use crate::finds::Finds;
use crate::found::Found;
use crate::missing::Missing;
use crate::orphans::Orphans;
use crate::report::Report;
use std::alloc::{AllocError, Global};
use std::collections::BTreeMap;
use vl_catalog::{Catalog, Lookup};
use vl_values::items::Items;
use vl_values::key::Key;
use vl_values::row::Row;

fn in_order(alloc: Global, found: BTreeMap<Found, ()>) -> Result<Items<Found>, AllocError>
    ensures keys { IfOk result (λ list. list ≡ keys found) }
    ensures order { IfOk result (IsStrictlySortedBy found_cmp) }
{
    let keys = found.into_keys().collect::<Vec<_>>(alloc)?;
    Ok(Items::from_vec(keys))
}

// Adds what is found by each of these lookups.
#[tactic(auto, using(crate::proofs::Listing::by_none))]
fn find_by<F: Finds>(
    alloc: Global,
    catalog: &Catalog,
    lookups: &[Lookup],
    tables: &[Items<(Key, Row)>],
    found: &mut BTreeMap<Found, ()>,
) -> Result<(), AllocError>
    requires { length tables.now < 2 ^ 32 }
    ensures { OnOk result (Adds (ByThese tables.now (F.is_found catalog.now tables.now) lookups.now) found.old found.new) }
{
    for lookup in lookups {
        F::find(alloc, catalog, lookup, tables, found)?;
    }
    Ok(())
}

fn listed<F: Finds>(
    alloc: Global,
    catalog: &Catalog,
    tables: &[Items<(Key, Row)>],
) -> Result<Items<Found>, AllocError>
    requires { length tables.now < 2 ^ 32 }
    ensures { IfOk result (AreThose (BySome catalog.now tables.now (F.is_found catalog.now tables.now))) }
{
    let mut found = BTreeMap::new(alloc);
    let lookups = catalog.lookups.as_slice();
    find_by::<F>(alloc, catalog, lookups, tables, &mut found)?;
    let list = in_order(alloc, found)?;
    Ok(list)
}

/// The rows of all shards, shard by shard, that miss an entry, that share a unique value, and the
/// entries that no row needs. The time is that of sorting the rows, once for each lookup.
pub fn audit(
    alloc: Global,
    catalog: &Catalog,
    tables: &[Items<(Key, Row)>],
) -> Result<Report, AllocError>
    requires shards { length tables.now < 2 ^ 32 }
    ensures lists { IfOk result (IsAudit catalog.now tables.now) }
{
    let missing = listed::<Missing>(alloc, catalog, tables)?;
    let doubled = listed::<DoubledRows>(alloc, catalog, tables)?;
    let orphans = listed::<Orphans>(alloc, catalog, tables)?;
    Ok(Report {
        missing,
        doubled,
        orphans,
    })
}
