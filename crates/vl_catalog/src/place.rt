ghost use Rattle.std.specs.Prelude.{◌≡◌, ℕ, ◌+◌, ◌^◌, ◌<◌, Option, Some, length, slice_get, slice_index_or, [], take, option_and_then};
ghost use Rattle.std.specs.List.{sum_by};
ghost use Rattle.std.specs.Option.{option_copied, SomeIff};
ghost use Rattle.vl_values.specs.declared.value.Value.TheVariants.{Null};
ghost use Rattle.vl_catalog.specs.Place.{first_shard, ksid_by, place_by, shard_count, shard_in, shards_in, value_place_by};

use crate::ShardNo;
use crate::ksid::Ksid;
use crate::primary::Primary;
use vl_values::value::Value;
use vl_vindex::Ring;

// How many shards the rings have, where 32 bits can count them.
pub(crate) fn shards_counted(rings: &[Ring]) -> Option<u32>
    ensures { SomeIff result (shard_count rings.now < 2 ^ 32) (shard_count rings.now) }
{
    let mut count = 0u32;
    for ring in rings {
        let Ok(len) = u32::try_from(ring.ranges().len()) else {
            return None;
        };
        match count.checked_add(len) {
            Some(more) => count = more,
            None => return None,
        }
    }
    Some(count)
}

// How many shards the rings have.
fn shard_count(rings: &[Ring]) -> u32
    requires { shard_count rings.now < 2 ^ 32 }
    ensures { result ≡ shard_count rings.now }
{
    let mut count = 0;
    for ring in rings {
        count += ring.ranges().len() as u32;
    }
    count
}

// The number of the first shard of a keyspace.
pub(crate) fn first_shard(rings: &[Ring], keyspace: usize) -> u32
    requires { shard_count rings.now < 2 ^ 32 }
    ensures { result ≡ first_shard rings.now keyspace }
{
    if keyspace < rings.len() {
        shard_count(&rings[..keyspace])
    } else {
        shard_count(rings)
    }
}

// The shard of a keyspace whose range holds the keyspace id.
fn shard_in(rings: &[Ring], keyspace: usize, ksid: &[u8]) -> u32
    requires { shard_count rings.now < 2 ^ 32 }
    ensures { result ≡ shard_in rings.now keyspace ksid.now }
{
    let first = first_shard(rings, keyspace);
    if keyspace < rings.len() {
        first + rings[keyspace].shard_of(ksid)
    } else {
        first
    }
}

// The keyspace id of a row, by its table's primary vindex.
pub(crate) fn ksid_at(primary: Primary, row: &[Value]) -> Option<Ksid>
    ensures { result ≡ ksid_by (Some primary) row.now }
{
    match row.get(primary.column) {
        Some(value) => primary.vindex.ksid_of(value),
        None => primary.vindex.ksid_of(&Value::Null),
    }
}

pub(crate) fn place_by(
    rings: &[Ring],
    keyspace: usize,
    primary: Option<Primary>,
    row: &[Value],
) -> Option<ShardNo>
    requires { shard_count rings.now < 2 ^ 32 }
    ensures { result ≡ place_by rings.now keyspace primary row.now }
{
    match primary {
        Some(primary) => match ksid_at(primary, row) {
            Some(ksid) => Some(shard_in(rings, keyspace, ksid.as_slice())),
            None => None,
        },
        None => Some(first_shard(rings, keyspace)),
    }
}

// The shard of the rows that have this value in the column of their table's primary vindex.
pub(crate) fn value_place_by(
    rings: &[Ring],
    keyspace: usize,
    primary: Option<Primary>,
    value: &Value,
) -> Option<ShardNo>
    requires { shard_count rings.now < 2 ^ 32 }
    ensures { result ≡ value_place_by rings.now keyspace primary value.now }
{
    match primary {
        Some(primary) => match primary.vindex.ksid_of(value) {
            Some(ksid) => Some(shard_in(rings, keyspace, ksid.as_slice())),
            None => None,
        },
        None => Some(first_shard(rings, keyspace)),
    }
}

// How many shards a keyspace has.
pub(crate) fn shards_in(rings: &[Ring], keyspace: usize) -> usize
    ensures { result ≡ shards_in rings.now keyspace }
{
    match rings.get(keyspace) {
        Some(ring) => ring.ranges().len(),
        None => 0,
    }
}
