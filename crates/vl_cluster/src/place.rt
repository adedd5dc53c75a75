ghost use Rattle.std.specs.Prelude.{◌≡◌, ◌<◌};
ghost use Rattle.vl_model.specs.CatalogA.{numeric, shard_of};
ghost use Rattle.vl_cluster.specs.Lists.{place_of};

/// The vindex `numeric`: the number's eight bytes, the highest first.
pub fn numeric(n: u64) -> [u8; 8]
    ensures { result ≡ numeric n }
{
    n.to_be_bytes()
}

/// The shard whose key range holds a keyspace id: the first ends before the byte 0x80.
pub fn shard_of(ksid: [u8; 8]) -> usize
    ensures shard { result ≡ shard_of ksid }
    ensures exists { result < 2 }
{
    if ksid[0] < 0x80 { 0 } else { 1 }
}

/// The shard of a row of t1 by its id, or of an entry by its u.
pub fn place_of(n: u64) -> usize
    ensures shard { result ≡ place_of n }
    ensures exists { result < 2 }
{
    shard_of(numeric(n))
}
