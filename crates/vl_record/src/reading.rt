ghost use Rattle.std.specs.Prelude.{◌≡◌, ◌<◌, ◌≤◌, ◌^◌, length, true, IfOk, Ok};
ghost use Rattle.vl_catalog.specs.Place.{shard_count};
ghost use Rattle.vl_record.specs.Reading.{file_at, is_open};
ghost use Rattle.vl_record.specs.Readers.{Gives, held_view};
ghost use Rattle.vl_record.specs.Grammar.{Content, EndsAt, IsContent, content_bytes, held_of};
ghost use Rattle.vl_record.specs.Stored.{IsHeldOf};

use crate::file::held_at;
use crate::held::Held;
use crate::read_error::ReadError;
use crate::reader::Reader;
use std::alloc::Global;
use vl_catalog::{Catalog, ShardNo};

fn whole(alloc: Global, catalog: &Catalog, shard: ShardNo, file: &[u8]) -> Result<Held, ReadError>
    requires shards { shard_count catalog.now.rings < 2 ^ 32 }
    requires gate { 1 ≤ length file.now }
    ensures { Gives held_view result (file_at catalog.now shard file.now) }
{
    let reader = Reader {
        bytes: &file[1..],
        offset: 1,
        is_body: false,
    };
    held_at(alloc, catalog, shard, reader)
}

/// Reads a shard's file behind its open file gate, up to the first closed gate of a record. A fault is the offset of the
/// first field that breaks a rule of the format.
pub fn read(
    alloc: Global,
    catalog: &Catalog,
    shard: ShardNo,
    file: &[u8],
) -> Result<Held, ReadError>
    requires shards { shard_count catalog.now.rings < 2 ^ 32 }
    requires gate { 1 ≤ length file.now }
    // What the file holds, or which fault it has.
    ensures exact { Gives held_view result (file_at catalog.now shard file.now) }
    // A file with an open gate that is read is one of the format.
    ensures format { is_open file.now ≡ true → IfOk result (λ held. IsHeldOf catalog.now shard file.now (held_view held)) }
    // What was written is read as what was written, whatever stands behind the closed gate.
    ensures written { (content : Content) → IsContent catalog.now shard content → EndsAt (content_bytes shard content) file.now → Gives held_view result (Ok (held_of shard content)) }
{
    whole(alloc, catalog, shard, file)
}
