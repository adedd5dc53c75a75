ghost use Rattle.std.specs.Prelude.{◌≡◌, ◌<◌, ◌^◌, [], length};
ghost use Rattle.vl_catalog.specs.Place.{shard_count};
ghost use Rattle.vl_record.specs.Spelling.{mark};
ghost use Rattle.vl_record.specs.Reading.{file_at, header_at, held_at, is_open, many_at, pair_at, rows_at, text_is};
ghost use Rattle.vl_record.specs.Readers.{Gives, held_view, rest_of};

use crate::allowed::last_key;
use crate::held::Held;
use crate::key::{key_at, row_at};
use crate::number::{u8_within, u32_within, u64_at, u64_within};
use crate::read_error::ReadError;
use crate::reader::Reader;
use crate::records::records_at;
use std::alloc::Global;
use vl_catalog::{Catalog, ShardNo};
use vl_values::items::Items;
use vl_values::key::Key;
use vl_values::row::Row;

// The mark, each byte a field of its own.
#[tactic(auto, unfolding(crate::specs::Reading::text_is))]
fn mark_at(r: Reader<'_>) -> Result<Reader<'_>, ReadError>
    ensures { Gives rest_of result (text_is mark (rest_of r.entry)) }
{
    let (_, r) = u8_within(b'V', b'V', r)?;
    let (_, r) = u8_within(b'L', b'L', r)?;
    let (_, r) = u8_within(b'S', b'S', r)?;
    let (_, r) = u8_within(b'H', b'H', r)?;
    let (_, r) = u8_within(b'A', b'A', r)?;
    let (_, r) = u8_within(b'R', b'R', r)?;
    let (_, r) = u8_within(b'D', b'D', r)?;
    let (_, r) = u8_within(b'1', b'1', r)?;
    Ok(r)
}

// The epoch, and the greatest transaction number before the records.
#[tactic(auto, unfolding(crate::specs::Reading::header_at))]
pub(crate) fn header_at(
    shard: ShardNo,
    r: Reader<'_>,
) -> Result<((u64, u64), Reader<'_>), ReadError>
    ensures { Gives (λ x. (x.0, rest_of x.1)) result (header_at shard (rest_of r.entry)) }
{
    let rest = mark_at(r)?;
    let (_, rest) = u32_within(shard, shard, rest)?;
    let (epoch, rest) = u64_within(0, 4_611_686_018_427_387_902, rest)?;
    let (last_tx, rest) = u64_within(0, 4_611_686_018_427_387_903, rest)?;
    Ok(((epoch, last_tx), rest))
}

// A row with its key, behind these.
#[tactic(auto, unfolding(crate::specs::Reading::pair_at))]
fn pair_at<'a>(
    alloc: Global,
    catalog: &Catalog,
    shard: ShardNo,
    front: &[(Key, Row)],
    r: Reader<'a>,
) -> Result<((Key, Row), Reader<'a>), ReadError>
    requires { shard_count catalog.now.rings < 2 ^ 32 }
    ensures { Gives (λ x. (x.0, rest_of x.1)) result (pair_at catalog.now shard front.now (rest_of r.entry)) }
{
    let (key, rest) = key_at(alloc, catalog, shard, last_key(front), r)?;
    let (row, rest) = row_at(alloc, catalog, &key, rest)?;
    Ok(((key, row), rest))
}

fn pairs_of<'a>(
    alloc: Global,
    catalog: &Catalog,
    shard: ShardNo,
    count: u64,
    r: Reader<'a>,
) -> Result<(Vec<(Key, Row)>, Reader<'a>), ReadError>
    requires { shard_count catalog.now.rings < 2 ^ 32 }
    ensures { Gives (λ x. (x.0.items, rest_of x.1)) result (many_at (pair_at catalog.now shard) count [] (rest_of r.entry)) }
{
    let mut pairs = Vec::new(alloc);
    let mut rest = r;
    for _ in 0..count {
        let (pair, next) = pair_at(alloc, catalog, shard, pairs.as_slice(), rest)?;
        pairs.push(pair)?;
        rest = next;
    }
    Ok((pairs, rest))
}

#[tactic(auto, unfolding(crate::specs::Reading::rows_at))]
fn rows_at<'a>(
    alloc: Global,
    catalog: &Catalog,
    shard: ShardNo,
    r: Reader<'a>,
) -> Result<(Vec<(Key, Row)>, Reader<'a>), ReadError>
    requires { shard_count catalog.now.rings < 2 ^ 32 }
    ensures { Gives (λ x. (x.0.items, rest_of x.1)) result (rows_at catalog.now shard (rest_of r.entry)) }
{
    let (count, rest) = u64_at(r.offset, r)?;
    pairs_of(alloc, catalog, shard, count, rest)
}

// What stands behind the file gate.
#[tactic(auto, unfolding(crate::specs::Reading::held_at))]
pub(crate) fn held_at(
    alloc: Global,
    catalog: &Catalog,
    shard: ShardNo,
    r: Reader<'_>,
) -> Result<Held, ReadError>
    requires { shard_count catalog.now.rings < 2 ^ 32 }
    ensures { Gives held_view result (held_at catalog.now shard (rest_of r.entry)) }
{
    let ((epoch, last_tx), rest) = header_at(shard, r)?;
    let (rows, rest) = rows_at(alloc, catalog, shard, rest)?;
    let first = rest.offset;
    let (parts, rest) = records_at(alloc, catalog, shard, rest)?;
    Ok(Held {
        epoch,
        last_tx,
        rows: Items::from_vec(rows),
        first,
        parts: Items::from_vec(parts),
        end: rest.offset,
    })
}

/// Whether a file's gate is open. Where it isn't the file is new, and nothing is stored.
pub fn is_open(file: &[u8]) -> bool
    ensures { result ≡ is_open file.now }
{
    match file {
        [gate, _, ..] => *gate == 167,
        _ => false,
    }
}
