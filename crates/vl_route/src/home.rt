ghost use Rattle.std.specs.Prelude.{◌≡◌, ◌<◌, ◌^◌, ℕ, [], length, slice_index_or};
ghost use Rattle.vl_vindex.specs.Ring.{CoversOnce};
ghost use Rattle.vl_catalog.specs.Place.{shard_count, shard_in};

use vl_catalog::Catalog;
use vl_values::ShardNo;
use vl_vindex::Ring;

/// The shard of a keyspace whose range holds the keyspace id.
pub fn home_of(catalog: &Catalog, keyspace: usize, ksid: &[u8]) -> ShardNo
    requires shards { shard_count catalog.now.rings < 2 ^ 32 }
    requires keyspace { keyspace < length catalog.now.rings }
    ensures value { result ≡ shard_in catalog.now.rings keyspace ksid.now }
    ensures within { result < shard_count catalog.now.rings }
{
    let first = catalog.first_shard(keyspace);
    let place = catalog.rings.as_slice()[keyspace].shard_of(ksid);
    first + place
}

/// What the ring of a keyspace keeps: each keyspace id has one shard. It is known of a ring that is read.
pub fn covers(catalog: &Catalog, keyspace: usize)
    requires { keyspace < length catalog.now.rings }
    ensures { CoversOnce (slice_index_or catalog.now.rings keyspace []) }
{
    let _ranges = catalog.rings.as_slice()[keyspace].ranges();
}

/// The same of each ring.
pub fn each_covers(rings: &[Ring])
    ensures { (n : ℕ) → n < length rings.now → CoversOnce (slice_index_or rings.now n []) }
{
    for ring in rings {
        let _ranges = ring.ranges();
    }
}
