use crate::gives::Gives;
use crate::mapping::{Mapping, entry_mapping};
use std::alloc::{AllocError, Global};
use vl_catalog::Lookup;
use vl_values::ShardNo;
use vl_values::key::Key;
use vl_values::row::Row;

/// What the entries of a lookup say.
#[derive(Drop)]
pub(crate) struct Entries<'a> {
    pub lookup: &'a Lookup,
}

impl Gives<Mapping, ()> for Entries<'_> {
    ghost use Rattle.vl_audit.specs.Giving.{said};

    ghost gives = { λ giver shard pair. said giver.lookup.now pair };

    fn given(
        &self,
        alloc: Global,
        _shard: ShardNo,
        pair: &(Key, Row),
    ) -> Result<Option<(Mapping, ())>, AllocError> {
        match entry_mapping(alloc, self.lookup, pair)? {
            None => Ok(None),
            Some(mapping) => Ok(Some((mapping, ()))),
        }
    }
}
