use crate::build::catalog_of;
use crate::catalog_a::catalog_a;
use crate::copies::rings_of;
use crate::keyspace::Keyspace;
use crate::keyspace_parts::KeyspaceParts;
use crate::ksid::Ksid;
use crate::lookup::Lookup;
use crate::place::{first_shard, ksid_at, place_by, shards_counted, shards_in, value_place_by};
use crate::table::Table;
use crate::{ShardNo, TableNo};
use std::alloc::{AllocError, Global};
use vl_values::items::Items;
use vl_values::try_copy::TryCopy;
use vl_values::value::Value;
use vl_vindex::Ring;

/// What the gateway knows of its keyspaces. Shards are numbered from 0 over the keyspaces in their
/// order, and within a keyspace by the start of the range.
#[derive(Drop)]
pub struct Catalog {
    pub keyspaces: Items<Keyspace>,
    pub tables: Items<Table>,
    pub lookups: Items<Lookup>,
    /// The ring of each keyspace.
    pub rings: Items<Ring>,
}

impl Catalog {
    ghost use Rattle.std.specs.Prelude.{◌≡◌, ◌<◌, ◌^◌, IfOk, length};
    ghost use Rattle.std.specs.Option.{SomeIff};
    ghost use Rattle.vl_catalog.specs.Build.{catalog_of};
    ghost use Rattle.vl_catalog.specs.CatalogA.{catalog_a};
    ghost use Rattle.vl_catalog.specs.Place.{first_shard, ksid_of, place, place_of_value, shard_count, shards_in};

    /// The catalog that the parts of its keyspaces mean.
    pub fn build(alloc: Global, parts: Vec<KeyspaceParts>) -> Result<Catalog, AllocError>
        ensures { IfOk result (λ catalog. catalog ≡ catalog_of parts.items) }
    {
        catalog_of(alloc, &parts)
    }

    /// The built-in catalog: keyspace commerce with the shards `-80` and `80-`.
    pub fn a(alloc: Global) -> Result<Catalog, AllocError>
        ensures { IfOk result (λ catalog. catalog ≡ catalog_a) }
    {
        catalog_a(alloc)
    }

    /// A copy. `AllocError` where memory was refused.
    pub fn copy(&self, alloc: Global) -> Result<Catalog, AllocError>
        ensures { IfOk result (λ catalog. catalog ≡ self.now) }
    {
        Ok(Catalog {
            keyspaces: self.keyspaces.try_copy(alloc)?,
            tables: self.tables.try_copy(alloc)?,
            lookups: self.lookups.try_copy(alloc)?,
            rings: rings_of(alloc, self.rings.as_slice())?,
        })
    }

    /// How many shards the keyspaces have, where 32 bits can count them.
    pub fn shard_count(&self) -> Option<u32>
        ensures { SomeIff result (shard_count self.now.rings < 2 ^ 32) (shard_count self.now.rings) }
    {
        shards_counted(self.rings.as_slice())
    }

    /// The shard on which a row of a table stands: that whose range holds its keyspace id, or the one
    /// shard of a keyspace that isn't sharded. A row without a keyspace id has none.
    pub fn place_of(&self, table: TableNo, row: &[Value]) -> Option<ShardNo>
        requires shards { shard_count self.now.rings < 2 ^ 32 }
        ensures { result ≡ place self.now table row.now }
    {
        match self.tables.as_slice().get(table as usize) {
            Some(table) => place_by(self.rings.as_slice(), table.keyspace, table.primary, row),
            None => None,
        }
    }

    /// The shard of the rows of a table that have this value in the column of its primary vindex, or the
    /// one shard of a keyspace that isn't sharded. A value without a keyspace id has none.
    pub fn place_of_value(&self, table: TableNo, value: &Value) -> Option<ShardNo>
        requires shards { shard_count self.now.rings < 2 ^ 32 }
        ensures { result ≡ place_of_value self.now table value.now }
    {
        match self.tables.as_slice().get(table as usize) {
            Some(table) => {
                value_place_by(self.rings.as_slice(), table.keyspace, table.primary, value)
            }
            None => None,
        }
    }

    /// The number of a keyspace's first shard.
    pub fn first_shard(&self, keyspace: usize) -> ShardNo
        requires shards { shard_count self.now.rings < 2 ^ 32 }
        ensures { result ≡ first_shard self.now.rings keyspace }
    {
        first_shard(self.rings.as_slice(), keyspace)
    }

    /// How many shards a keyspace has. Their numbers follow that of its first shard.
    pub fn shards_in(&self, keyspace: usize) -> usize
        ensures { result ≡ shards_in self.now.rings keyspace }
    {
        shards_in(self.rings.as_slice(), keyspace)
    }

    /// The keyspace id of a row of a table.
    pub fn ksid_of(&self, table: TableNo, row: &[Value]) -> Option<Ksid>
        ensures { result ≡ ksid_of self.now table row.now }
    {
        match self.tables.as_slice().get(table as usize) {
            Some(table) => match table.primary {
                Some(primary) => ksid_at(primary, row),
                None => None,
            },
            None => None,
        }
    }
}
