ghost use Rattle.std.specs.Prelude.{◌≡◌, ℕ, Option, IfOk};
ghost use Rattle.vl_model.specs.Tables.{Pair};

use std::alloc::{AllocError, Global};
use vl_values::ShardNo;
use vl_values::key::Key;
use vl_values::row::Row;

/// What a row of a shard gives to an ordered map: a key and a value, or nothing.
pub(crate) trait Gives<K, V> {
    ghost gives: { Self → ℕ → Pair → Option (K × V) };

    fn given(
        &self,
        alloc: Global,
        shard: ShardNo,
        pair: &(Key, Row),
    ) -> Result<Option<(K, V)>, AllocError>
        ensures { IfOk result (λ given. given ≡ gives self.now shard pair.now) };
}
