use crate::gives::Gives;
use crate::mapping::value_of;
use std::alloc::{AllocError, Global};
use vl_catalog::Lookup;
use vl_values::ShardNo;
use vl_values::key::Key;
use vl_values::row::Row;
use vl_values::value::Value;

/// The values of a lookup, each with the key of a row that has it.
#[derive(Drop)]
pub(crate) struct Sightings<'a> {
    pub lookup: &'a Lookup,
}

impl Gives<Value, Key> for Sightings<'_> {
    ghost use Rattle.vl_audit.specs.Giving.{sighted};

    ghost gives = { λ giver shard pair. sighted giver.lookup.now pair };

    fn given(
        &self,
        alloc: Global,
        _shard: ShardNo,
        pair: &(Key, Row),
    ) -> Result<Option<(Value, Key)>, AllocError> {
        let Some(value) = value_of(self.lookup, pair) else {
            return Ok(None);
        };
        let value = value.copy(alloc)?;
        let key = pair.0.copy(alloc)?;
        Ok(Some((value, key)))
    }
}
