use crate::found::Found;
use crate::gives::Gives;
use crate::mapping::{Mapping, is_indexed, is_lookup_table, row_mapping};
use std::alloc::{AllocError, Global};
use std::collections::BTreeMap;
use vl_catalog::{Catalog, Lookup};
use vl_values::ShardNo;
use vl_values::key::Key;
use vl_values::row::Row;

/// The rows of plain tables whose mappings no entry says.
#[derive(Drop)]
pub(crate) struct Unmet<'a> {
    pub catalog: &'a Catalog,
    pub lookup: &'a Lookup,
    pub entries: &'a BTreeMap<Mapping, ()>,
}

impl Unmet<'_> {
    ghost use Rattle.std.specs.Prelude.{◌≡◌, is_some, IfOk};
    ghost use Rattle.std.specs.BTreeMap.{get};
    ghost use Rattle.vl_audit.specs.Audit.{mapping_cmp};
    ghost use Rattle.vl_audit.specs.Giving.{is_met, is_unmet};
    ghost use Rattle.vl_audit.specs.Mapping.{row_mapping};

    fn is_met(&self, alloc: Global, pair: &(Key, Row)) -> Result<bool, AllocError>
        ensures { IfOk result (λ met. met ≡ is_met (λ mapping. is_some (get mapping_cmp self.now.entries.now mapping)) (row_mapping self.now.catalog.now self.now.lookup.now pair.now)) }
    {
        match row_mapping(alloc, self.catalog, self.lookup, pair)? {
            None => Ok(false),
            Some(mapping) => Ok(self.entries.contains_key(&mapping)),
        }
    }

    fn is_unmet(&self, alloc: Global, pair: &(Key, Row)) -> Result<bool, AllocError>
        ensures { IfOk result (λ unmet. unmet ≡ is_unmet (λ mapping. is_some (get mapping_cmp self.now.entries.now mapping)) self.now.catalog.now self.now.lookup.now pair.now) }
    {
        if is_lookup_table(self.catalog, pair.0.table) || !is_indexed(self.lookup, pair) {
            return Ok(false);
        }
        let met = self.is_met(alloc, pair)?;
        Ok(!met)
    }
}

impl Gives<Found, ()> for Unmet<'_> {
    ghost use Rattle.std.specs.Prelude.{is_some};
    ghost use Rattle.std.specs.BTreeMap.{get};
    ghost use Rattle.vl_audit.specs.Audit.{mapping_cmp};
    ghost use Rattle.vl_audit.specs.Giving.{found_where, is_unmet};

    ghost gives = { λ giver shard pair. found_where (is_unmet (λ mapping. is_some (get mapping_cmp giver.entries.now mapping)) giver.catalog.now giver.lookup.now pair) shard pair };

    fn given(
        &self,
        alloc: Global,
        shard: ShardNo,
        pair: &(Key, Row),
    ) -> Result<Option<(Found, ())>, AllocError> {
        if !self.is_unmet(alloc, pair)? {
            return Ok(None);
        }
        let found = Found::copied(alloc, shard, pair)?;
        Ok(Some((found, ())))
    }
}
