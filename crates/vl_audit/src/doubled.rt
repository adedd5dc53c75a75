use crate::found::Found;
use crate::gives::Gives;
use crate::mapping::value_of;
use std::alloc::{AllocError, Global};
use std::collections::BTreeMap;
use vl_catalog::Lookup;
use vl_values::ShardNo;
use vl_values::key::Key;
use vl_values::row::Row;
use vl_values::value::Value;

/// The rows with a value of a lookup that rows of several keys have.
#[derive(Drop)]
pub(crate) struct Doubled<'a> {
    pub lookup: &'a Lookup,
    pub repeated: &'a BTreeMap<Value, ()>,
}

impl Doubled<'_> {
    ghost use Rattle.std.specs.Prelude.{◌≡◌, is_some};
    ghost use Rattle.std.specs.BTreeMap.{get};
    ghost use Rattle.vl_values.specs.Value.{value_cmp};
    ghost use Rattle.vl_audit.specs.Giving.{is_doubled};

    fn is_doubled(&self, pair: &(Key, Row)) -> bool
        ensures { result ≡ is_doubled (λ value. is_some (get value_cmp self.now.repeated.now value)) self.now.lookup.now pair.now }
    {
        match value_of(self.lookup, pair) {
            None => false,
            Some(value) => self.repeated.contains_key(value),
        }
    }
}

impl Gives<Found, ()> for Doubled<'_> {
    ghost use Rattle.std.specs.Prelude.{is_some};
    ghost use Rattle.std.specs.BTreeMap.{get};
    ghost use Rattle.vl_values.specs.Value.{value_cmp};
    ghost use Rattle.vl_audit.specs.Giving.{found_where, is_doubled};

    ghost gives = { λ giver shard pair. found_where (is_doubled (λ value. is_some (get value_cmp giver.repeated.now value)) giver.lookup.now pair) shard pair };

    fn given(
        &self,
        alloc: Global,
        shard: ShardNo,
        pair: &(Key, Row),
    ) -> Result<Option<(Found, ())>, AllocError> {
        if !self.is_doubled(pair) {
            return Ok(None);
        }
        let found = Found::copied(alloc, shard, pair)?;
        Ok(Some((found, ())))
    }
}
