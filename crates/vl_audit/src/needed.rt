use crate::gives::Gives;
use crate::mapping::{Mapping, is_lookup_table, row_mapping};
use std::alloc::{AllocError, Global};
use vl_catalog::{Catalog, Lookup};
use vl_values::ShardNo;
use vl_values::key::Key;
use vl_values::row::Row;

/// What the rows of plain tables need of a lookup.
#[derive(Drop)]
pub(crate) struct Needed<'a> {
    pub catalog: &'a Catalog,
    pub lookup: &'a Lookup,
}

impl Gives<Mapping, ()> for Needed<'_> {
    ghost use Rattle.vl_audit.specs.Giving.{needed};

    ghost gives = { λ giver shard pair. needed giver.catalog.now giver.lookup.now pair };

    fn given(
        &self,
        alloc: Global,
        _shard: ShardNo,
        pair: &(Key, Row),
    ) -> Result<Option<(Mapping, ())>, AllocError> {
        if is_lookup_table(self.catalog, pair.0.table) {
            return Ok(None);
        }
        match row_mapping(alloc, self.catalog, self.lookup, pair)? {
            None => Ok(None),
            Some(mapping) => Ok(Some((mapping, ()))),
        }
    }
}
