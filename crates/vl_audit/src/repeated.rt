use crate::gives::Gives;
use crate::mapping::value_of;
use std::alloc::{AllocError, Global};
use std::collections::BTreeMap;
use vl_catalog::Lookup;
use vl_values::ShardNo;
use vl_values::key::Key;
use vl_values::row::Row;
use vl_values::value::Value;

/// The values of a lookup that rows of several keys have.
#[derive(Drop)]
pub(crate) struct Repeated<'a> {
    pub lookup: &'a Lookup,
    /// The key of the first row with a value.
    pub first: &'a BTreeMap<Value, Key>,
}

impl Repeated<'_> {
    ghost use Rattle.std.specs.Prelude.{◌≡◌};
    ghost use Rattle.std.specs.BTreeMap.{get};
    ghost use Rattle.vl_values.specs.Value.{value_cmp};
    ghost use Rattle.vl_audit.specs.Giving.{is_other};

    fn is_other(&self, value: &Value, key: &Key) -> bool
        ensures { result ≡ is_other (get value_cmp self.now.first.now value.now) key.now }
    {
        match self.first.get(value) {
            None => false,
            Some(first) => first != key,
        }
    }
}

impl Gives<Value, ()> for Repeated<'_> {
    ghost use Rattle.std.specs.BTreeMap.{get};
    ghost use Rattle.vl_values.specs.Value.{value_cmp};
    ghost use Rattle.vl_audit.specs.Giving.{repeated};

    ghost gives = { λ giver shard pair. repeated (get value_cmp giver.first.now) giver.lookup.now pair };

    fn given(
        &self,
        alloc: Global,
        _shard: ShardNo,
        pair: &(Key, Row),
    ) -> Result<Option<(Value, ())>, AllocError> {
        let Some(value) = value_of(self.lookup, pair) else {
            return Ok(None);
        };
        if !self.is_other(value, &pair.0) {
            return Ok(None);
        }
        let value = value.copy(alloc)?;
        Ok(Some((value, ())))
    }
}
