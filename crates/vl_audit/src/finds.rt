ghost use Rattle.std.specs.Prelude.{◌<◌, ◌^◌, OnOk, length};
ghost use Rattle.vl_catalog.specs.declared.catalog.Catalog.{Catalog as ACatalog};
ghost use Rattle.vl_catalog.specs.declared.lookup.Lookup.{Lookup as ALookup};
ghost use Rattle.vl_model.specs.Tables.{Pair, Tables};
ghost use Rattle.vl_audit.specs.Finding.{Adds, StandsSo};

use crate::found::Found;
use std::alloc::{AllocError, Global};
use std::collections::BTreeMap;
use vl_catalog::{Catalog, Lookup};
use vl_values::items::Items;
use vl_values::key::Key;
use vl_values::row::Row;

/// One of the lists of an audit: which rows it finds by a lookup.
pub(crate) trait Finds {
    ghost is_found: { ACatalog → Tables → ALookup → Pair → Type 0 };

    fn find(
        alloc: Global,
        catalog: &Catalog,
        lookup: &Lookup,
        tables: &[Items<(Key, Row)>],
        found: &mut BTreeMap<Found, ()>,
    ) -> Result<(), AllocError>
        requires { length tables.now < 2 ^ 32 }
        ensures { OnOk result (Adds (StandsSo tables.now (is_found catalog.now tables.now lookup.now)) found.old found.new) };
}
