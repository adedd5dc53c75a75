use crate::found::Found;
use crate::gives::Gives;
use crate::mapping::{Mapping, entry_mapping, is_table};
use std::alloc::{AllocError, Global};
use std::collections::BTreeMap;
use vl_catalog::Lookup;
use vl_values::ShardNo;
use vl_values::key::Key;
use vl_values::row::Row;

/// The entries whose mappings no row needs.
#[derive(Drop)]
pub(crate) struct Unneeded<'a> {
    pub lookup: &'a Lookup,
    pub needed: &'a BTreeMap<Mapping, ()>,
}

impl Unneeded<'_> {
    ghost use Rattle.std.specs.Prelude.{◌≡◌, is_some, IfOk};
    ghost use Rattle.std.specs.BTreeMap.{get};
    ghost use Rattle.vl_audit.specs.Audit.{mapping_cmp};
    ghost use Rattle.vl_audit.specs.Giving.{is_met, is_unneeded};
    ghost use Rattle.vl_audit.specs.Mapping.{entry_mapping};

    fn is_met(&self, alloc: Global, pair: &(Key, Row)) -> Result<bool, AllocError>
        ensures { IfOk result (λ met. met ≡ is_met (λ mapping. is_some (get mapping_cmp self.now.needed.now mapping)) (entry_mapping self.now.lookup.now pair.now)) }
    {
        match entry_mapping(alloc, self.lookup, pair)? {
            None => Ok(false),
            Some(mapping) => Ok(self.needed.contains_key(&mapping)),
        }
    }

    fn is_unneeded(&self, alloc: Global, pair: &(Key, Row)) -> Result<bool, AllocError>
        ensures { IfOk result (λ unneeded. unneeded ≡ is_unneeded (λ mapping. is_some (get mapping_cmp self.now.needed.now mapping)) self.now.lookup.now pair.now) }
    {
        if !is_table(pair.0.table, self.lookup.table) {
            return Ok(false);
        }
        let met = self.is_met(alloc, pair)?;
        Ok(!met)
    }
}

impl Gives<Found, ()> for Unneeded<'_> {
    ghost use Rattle.std.specs.Prelude.{is_some};
    ghost use Rattle.std.specs.BTreeMap.{get};
    ghost use Rattle.vl_audit.specs.Audit.{mapping_cmp};
    ghost use Rattle.vl_audit.specs.Giving.{found_where, is_unneeded};

    ghost gives = { λ giver shard pair. found_where (is_unneeded (λ mapping. is_some (get mapping_cmp giver.needed.now mapping)) giver.lookup.now pair) shard pair };

    fn given(
        &self,
        alloc: Global,
        shard: ShardNo,
        pair: &(Key, Row),
    ) -> Result<Option<(Found, ())>, AllocError> {
        if !self.is_unneeded(alloc, pair)? {
            return Ok(None);
        }
        let found = Found::copied(alloc, shard, pair)?;
        Ok(Some((found, ())))
    }
}
