use crate::finds::Finds;
use crate::found::Found;
use crate::gathering::{gather, gathered};
use crate::needed::Needed;
use crate::unneeded::Unneeded;
use std::alloc::{AllocError, Global};
use std::collections::BTreeMap;
use vl_catalog::{Catalog, Lookup};
use vl_values::items::Items;
use vl_values::key::Key;
use vl_values::row::Row;

/// Entries that no row needs.
pub(crate) struct Orphans;

impl Finds for Orphans {
    ghost use Rattle.vl_model.specs.Sound.{IsOrphan};

    ghost is_found = { IsOrphan };

    fn find(
        alloc: Global,
        catalog: &Catalog,
        lookup: &Lookup,
        tables: &[Items<(Key, Row)>],
        found: &mut BTreeMap<Found, ()>,
    ) -> Result<(), AllocError> {
        let needed = gathered(alloc, &Needed { catalog, lookup }, tables)?;
        let unneeded = Unneeded {
            lookup,
            needed: &needed,
        };
        gather(alloc, &unneeded, tables, found)?;
        Ok(())
    }
}
