use crate::entries::Entries;
use crate::finds::Finds;
use crate::found::Found;
use crate::gathering::{gather, gathered};
use crate::unmet::Unmet;
use std::alloc::{AllocError, Global};
use std::collections::BTreeMap;
use vl_catalog::{Catalog, Lookup};
use vl_values::items::Items;
use vl_values::key::Key;
use vl_values::row::Row;

/// Rows without an entry that they need.
pub(crate) struct Missing;

impl Finds for Missing {
    ghost use Rattle.vl_audit.specs.Audit.{IsMissing};

    ghost is_found = { IsMissing };

    fn find(
        alloc: Global,
        catalog: &Catalog,
        lookup: &Lookup,
        tables: &[Items<(Key, Row)>],
        found: &mut BTreeMap<Found, ()>,
    ) -> Result<(), AllocError> {
        let entries = gathered(alloc, &Entries { lookup }, tables)?;
        let unmet = Unmet {
            catalog,
            lookup,
            entries: &entries,
        };
        gather(alloc, &unmet, tables, found)?;
        Ok(())
    }
}
